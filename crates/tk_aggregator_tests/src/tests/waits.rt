//! No lock is held through a write: a writer waits inside its write until a recorder in another thread has made an offer.

use super::given::{collects, limits, makes_task, on_console, on_new};
use std::alloc::Global;
use std::io::Write;
use std::sync::Wait;
use std::sync::atomic::{AtomicBool, Ordering};
use std::thread::{Threads, join};
use std::{io, thread};
use tk_aggregator::Aggregator;
use tk_events::{Recorder, Taker};

// How often each side looks for the other.
const TURNS: u32 = 1_000_000;

/// What the two threads show one another.
#[derive(Drop)]
struct Flags {
    begun: AtomicBool,
    offered: AtomicBool,
}

// Whether the flag was raised within so many turns.
fn wait_for(flag: &AtomicBool) -> bool {
    for _ in 0..TURNS {
        if flag.load(Ordering::SeqCst) {
            return true;
        }
        thread::yield_now();
    }
    false
}

/// Takes what it is given once an offer was made, and fails where none comes.
#[derive(Drop)]
struct Patient<'a> {
    flags: &'a Flags,
}

impl<'a> Write for Patient<'a> {
    fn write(&mut self, buf: &[u8]) -> io::Result<usize> {
        self.flags.begun.store(true, Ordering::SeqCst);
        if wait_for(&self.flags.offered) {
            Ok(buf.len())
        } else {
            Err(io::ErrorKind::TimedOut.into())
        }
    }

    fn flush(&mut self) -> io::Result<()> {
        Ok(())
    }
}

fn publishes(aggregator: &mut Aggregator, flags: &Flags) -> bool {
    let mut writer = Patient { flags };
    aggregator.publish(5, &mut writer) == Ok(1)
}

// Offers a task once the write has begun, and says so.
fn offers<R: Wait>(rt: &R, alloc: Global, recorder: &mut Recorder, flags: &Flags) -> bool {
    if !wait_for(&flags.begun) {
        return false;
    }
    let is_made = makes_task(rt, alloc, recorder, b"main", 1);
    flags.offered.store(true, Ordering::SeqCst);
    is_made
}

// Publishes in one thread, and offers in another.
fn both<R: Wait + Threads + Sync>(
    rt: &R,
    alloc: Global,
    aggregator: &mut Aggregator,
    recorder: &mut Recorder,
    flags: &Flags,
) -> bool {
    let (told, offered) = join(
        rt,
        || publishes(aggregator, flags),
        || offers(rt, alloc, recorder, flags),
    );
    told && offered
}

fn is_offered_meanwhile<R: Wait + Threads + Sync>(
    rt: &R,
    alloc: Global,
    recorder: &mut Recorder,
    taker: &mut Taker,
    flags: &Flags,
) -> bool {
    on_new(alloc, 0, |aggregator| {
        both(rt, alloc, aggregator, recorder, flags) && collects(rt, aggregator, taker, 9, 1)
    })
}

fn first_offers_meanwhile<R: Wait + Threads + Sync>(
    rt: &R,
    alloc: Global,
    recorders: &mut Vec<Recorder>,
    taker: &mut Taker,
) -> bool {
    let flags = Flags {
        begun: AtomicBool::new(false),
        offered: AtomicBool::new(false),
    };
    match recorders.get_mut(0) {
        Some(recorder) => is_offered_meanwhile(rt, alloc, recorder, taker, &flags),
        None => false,
    }
}

pub(super) fn writes_while_an_offer_is_made<R: Wait + Threads + Sync>(
    rt: &R,
    alloc: Global,
) -> bool {
    on_console(
        alloc,
        limits(1, 4, 9),
        |recorders, taker| first_offers_meanwhile(rt, alloc, recorders, taker),
    )
}
