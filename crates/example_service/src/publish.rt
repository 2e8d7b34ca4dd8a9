//! The thread that publishes lines.

use crate::stop::Stop;
use std::alloc::Global;
use std::io::Write;
use std::sync::Wait;
use std::sync::atomic::{AtomicBool, Ordering};
use std::time::Duration;
use std::{thread, time};
use tk_aggregator::{Aggregator, StreamError};
use tk_events::Taker;
use tk_exec::{Clock, SystemClock};

/// More events than a console's buffer ever holds.
const ALL: u64 = 65_537;

/// At most so many lines are published before the last one.
const MOST_LINES: u32 = 1_000;

/// What lines are made of: the events that recorders offer, and the ledgers of their items.
#[derive(Drop)]
pub struct Watch {
    taker: Taker,
    aggregator: Box<Aggregator>,
}

impl From<StreamError> for Stop {
    fn from(error: StreamError) -> Stop {
        match error {
            StreamError::Memory => Stop::Memory,
            StreamError::Clock => Stop::Clock,
            _ => Stop::Stream,
        }
    }
}

// An aggregator on the heap, since it is large.
fn boxed(alloc: Global, made: Result<Aggregator, StreamError>) -> Result<Box<Aggregator>, Stop> {
    match made {
        Ok(aggregator) => Box::new(alloc, aggregator).map_err(|_| Stop::Memory),
        Err(_) => Err(Stop::Memory),
    }
}

impl Watch {
    /// One that has published no line.
    pub fn new(alloc: Global, taker: Taker) -> Result<Watch, Stop> {
        let aggregator = boxed(alloc, Aggregator::new(alloc, 0))?;
        Ok(Watch { taker, aggregator })
    }

    /// Takes in what was recorded, reads each ledger, and writes a line of it: always in this order.
    pub fn tell<R: Wait + time::Clock, W: Write>(
        &mut self,
        rt: &R,
        clock: &mut SystemClock<'_, R>,
        out: &mut W,
    ) -> Result<(), Stop> {
        self.aggregator.collect(rt, &mut self.taker, ALL)?;
        self.aggregator.refresh(rt);
        self.aggregator.publish(clock.now(), out)?;
        if clock.has_failed() {
            Err(Stop::Clock)
        } else {
            Ok(())
        }
    }
}

/// Publishes a line every 100 milliseconds, until all is served.
pub fn publish<R: Wait + time::Clock, W: Write>(
    rt: &R,
    watch: &mut Watch,
    clock: SystemClock<'_, R>,
    is_served: &AtomicBool,
    out: &mut W,
) -> Result<(), Stop> {
    let mut clock = clock;
    for _ in 0..MOST_LINES {
        if is_served.load(Ordering::SeqCst) {
            break;
        }
        watch.tell(rt, &mut clock, out)?;
        thread::sleep(rt, Duration::from_millis(100));
    }
    Ok(())
}
