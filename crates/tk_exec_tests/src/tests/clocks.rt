//! The machine's clock, over one that a test sets.

use std::sync::atomic::{AtomicU64, Ordering};
use std::time::Duration;
use std::{io, time};
use tk_exec::{Clock, SystemClock};

// The reading of `Hand` that is none.
const BROKEN: u64 = u64::MAX;

/// A machine whose monotonic clock stands at so many nanoseconds, or can't be read.
#[derive(Drop)]
struct Hand {
    at: AtomicU64,
}

impl Hand {
    fn new(at: u64) -> Hand {
        Hand {
            at: AtomicU64::new(at),
        }
    }

    fn set(&self, at: u64) {
        self.at.store(at, Ordering::SeqCst);
    }
}

impl time::Clock for Hand {
    fn monotonic(&self) -> io::Result<Duration> {
        match self.at.load(Ordering::SeqCst) {
            BROKEN => Err(io::Error::from(io::ErrorKind::Other)),
            at => Ok(Duration::from_nanos(at)),
        }
    }

    fn since_1970(&self) -> io::Result<Duration> {
        self.monotonic()
    }
}

fn tells(hand: &Hand, clock: &mut SystemClock<'_, Hand>, at: u64, moment: u64) -> bool {
    hand.set(at);
    clock.now() == moment
}

// It tells what passed since its start, never less than before, and what a failure left.
fn counts_from_its_start(hand: &Hand) -> bool {
    let Ok(mut clock) = SystemClock::start(hand) else {
        return false;
    };
    tells(hand, &mut clock, 1_000, 0)
        && tells(hand, &mut clock, 1_700, 700)
        && tells(hand, &mut clock, 1_200, 700)
        && !clock.has_failed()
        && tells(hand, &mut clock, BROKEN, 700)
        && clock.has_failed()
        && tells(hand, &mut clock, 4_000, 3_000)
        && clock.has_failed()
        && counts_from_the_same_start(hand, &clock)
}

fn counts_from_the_same_start(hand: &Hand, clock: &SystemClock<'_, Hand>) -> bool {
    let mut beside = clock.beside();
    tells(hand, &mut beside, 5_000, 4_000) && !beside.has_failed()
}

#[test]
fn a_system_clock_counts_from_its_start(rt: HostRuntime) {
    assert!(rt; counts_from_its_start(&Hand::new(1_000)));
    assert!(rt; SystemClock::start(&Hand::new(BROKEN)).is_err());
}
