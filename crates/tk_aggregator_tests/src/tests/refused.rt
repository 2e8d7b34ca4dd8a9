//! What is refused, in which order, and what stays.

use super::given::{collects, limits, makes_task, on_console, on_new};
use super::writers::{cuts, is_broken};
use std::alloc::Global;
use std::sync::Wait;
use tk_aggregator::{Aggregator, StreamError};
use tk_events::{Recorder, Taker};

// The greatest number of a line.
const MOST: u64 = 1 << 63;

// Whether a line at this moment is refused so, and nothing is written.
fn refuses(alloc: Global, aggregator: &mut Aggregator, now: u64, why: StreamError) -> bool {
    let mut written = Vec::new(alloc);
    aggregator.publish(now, &mut written) == Err(why) && written.is_empty()
}

// Whether a snapshot at this moment is refused so, and nothing is written.
fn refuses_all(alloc: Global, aggregator: &mut Aggregator, now: u64, why: StreamError) -> bool {
    let mut written = Vec::new(alloc);
    aggregator.snapshot(now, &mut written) == Err(why) && written.is_empty()
}

fn tells(alloc: Global, aggregator: &mut Aggregator, now: u64, number: u64) -> bool {
    let mut written = Vec::new(alloc);
    aggregator.publish(now, &mut written) == Ok(number)
}

fn tells_all(alloc: Global, aggregator: &mut Aggregator, now: u64, number: u64) -> bool {
    let mut written = Vec::new(alloc);
    aggregator.snapshot(now, &mut written) == Ok(number)
}

// The moment stays that of the line before, and the next line has the next number.
fn keeps_its_clock(alloc: Global, aggregator: &mut Aggregator) -> bool {
    tells(alloc, aggregator, 5, 1)
        && refuses(alloc, aggregator, 4, StreamError::Clock)
        && refuses_all(alloc, aggregator, 4, StreamError::Clock)
        && tells(alloc, aggregator, 5, 2)
}

pub(super) fn never_runs_backwards(alloc: Global) -> bool {
    on_new(alloc, 0, |aggregator| keeps_its_clock(alloc, aggregator))
}

fn has_no_number(alloc: Global, aggregator: &mut Aggregator) -> bool {
    refuses(alloc, aggregator, 5, StreamError::NumbersSpent)
        && refuses_all(alloc, aggregator, 5, StreamError::NumbersSpent)
}

pub(super) fn writes_no_line_after_the_last(alloc: Global) -> bool {
    on_new(alloc, MOST, |aggregator| has_no_number(alloc, aggregator))
}

// A line that was cut off is told before the clock is looked at, and a snapshot mends it.
fn is_broken_before_all(alloc: Global, aggregator: &mut Aggregator) -> bool {
    tells(alloc, aggregator, 5, MOST - 1)
        && cuts(alloc, aggregator, 6, b"", false)
        && is_broken(alloc, aggregator, 4)
        && refuses_all(alloc, aggregator, 4, StreamError::Clock)
        && is_broken(alloc, aggregator, 7)
        && tells_all(alloc, aggregator, 7, MOST)
}

// The clock is looked at before the number.
fn looks_at_the_clock_first(alloc: Global, aggregator: &mut Aggregator) -> bool {
    refuses(alloc, aggregator, 6, StreamError::Clock)
        && refuses_all(alloc, aggregator, 6, StreamError::Clock)
        && refuses(alloc, aggregator, 7, StreamError::NumbersSpent)
}

fn keeps_its_order(alloc: Global, aggregator: &mut Aggregator) -> bool {
    is_broken_before_all(alloc, aggregator) && looks_at_the_clock_first(alloc, aggregator)
}

pub(super) fn refuses_in_order(alloc: Global) -> bool {
    on_new(
        alloc,
        MOST - 2,
        |aggregator| keeps_its_order(alloc, aggregator),
    )
}

fn makes_two<R: Wait>(rt: &R, alloc: Global, recorders: &mut Vec<Recorder>) -> bool {
    match recorders.get_mut(0) {
        Some(recorder) => {
            makes_task(rt, alloc, recorder, b"a", 1) && makes_task(rt, alloc, recorder, b"b", 2)
        }
        None => false,
    }
}

// Takes so many at most, and then shows so many tasks.
fn takes<R: Wait>(
    rt: &R,
    aggregator: &mut Aggregator,
    taker: &mut Taker,
    limit: u64,
    count: u64,
    tasks: usize,
) -> bool {
    collects(rt, aggregator, taker, limit, count) && aggregator.tables().task_count() == tasks
}

fn takes_both<R: Wait>(rt: &R, aggregator: &mut Aggregator, taker: &mut Taker) -> bool {
    takes(rt, aggregator, taker, 0, 0, 0)
        && takes(rt, aggregator, taker, 1, 1, 1)
        && takes(rt, aggregator, taker, 9, 1, 2)
        && takes(rt, aggregator, taker, 9, 0, 2)
}

fn takes_at_most<R: Wait>(rt: &R, alloc: Global, taker: &mut Taker) -> bool {
    on_new(alloc, 0, |aggregator| takes_both(rt, aggregator, taker))
}

pub(super) fn takes_no_more_than_its_limit<R: Wait>(rt: &R, alloc: Global) -> bool {
    on_console(alloc, limits(1, 4, 9), |recorders, taker| {
        makes_two(rt, alloc, recorders) && takes_at_most(rt, alloc, taker)
    })
}
