//! Want of memory: it is an answer. What found none is held, and comes first in the next call.
//!
//! With `rt try --test --fail-alloc N` the N-th allocation is refused. What was refused is asked for again.

use super::given::{are_taken, limits, makes_task, on_console, on_made};
use super::items::{keeps_poll, make_op, make_user};
use std::alloc::Global;
use std::sync::Wait;
use tk_aggregator::{Aggregator, StreamError};
use tk_events::{Recorder, Taker};

fn uses_resource<R: Wait>(rt: &R, alloc: Global, recorder: &mut Recorder) -> bool {
    make_user(rt, alloc, recorder).is_some()
}

fn makes_op<R: Wait>(rt: &R, alloc: Global, recorder: &mut Recorder) -> bool {
    make_op(rt, alloc, recorder).is_some()
}

fn makes_each<R: Wait>(rt: &R, alloc: Global, recorders: &mut Vec<Recorder>) -> bool {
    match recorders.get_mut(0) {
        Some(recorder) => {
            makes_task(rt, alloc, recorder, b"main", 1)
                && uses_resource(rt, alloc, recorder)
                && makes_op(rt, alloc, recorder)
                && keeps_poll(rt, alloc, recorder)
        }
        None => false,
    }
}

// Takes what is there, and once more where memory ran out.
fn collects_all<R: Wait>(rt: &R, aggregator: &mut Aggregator, taker: &mut Taker) -> bool {
    match aggregator.collect(rt, taker, 9) {
        Ok(count) => count == 4,
        Err(why) => why == StreamError::Memory && aggregator.collect(rt, taker, 9).is_ok(),
    }
}

// Whether there is one item of each kind, and a count.
fn has_each(aggregator: &Aggregator) -> bool {
    let tables = aggregator.tables();
    tables.task_count() == 1
        && tables.resource_count() == 1
        && tables.op_count() == 1
        && tables.counted() == 1
}

fn publishes(aggregator: &mut Aggregator, written: &mut Vec<u8>) -> bool {
    match aggregator.publish(9, written) {
        Ok(number) => number == 1,
        Err(StreamError::Memory) => aggregator.publish(9, written) == Ok(1),
        Err(_) => aggregator.snapshot(9, written) == Ok(1),
    }
}

fn is_told(alloc: Global, aggregator: &mut Aggregator) -> bool {
    let mut written = Vec::new(alloc);
    publishes(aggregator, &mut written)
        && are_taken(alloc, written.as_slice(), 1, aggregator.tables())
}

// What was made, or what a second try makes.
fn or_again<T: Drop, E: Drop, F: FnOnce() -> Result<T, E>>(
    made: Result<T, E>,
    again: F,
) -> Result<T, E>
    requires { F.IsAlwaysCallable again }
{
    match made {
        Ok(value) => Ok(value),
        Err(_) => again(),
    }
}

fn new_aggregator(alloc: Global) -> Result<Aggregator, StreamError> {
    or_again(Aggregator::new(alloc, 0), || Aggregator::new(alloc, 0))
}

fn takes_each<R: Wait>(rt: &R, alloc: Global, taker: &mut Taker) -> bool {
    on_made(new_aggregator(alloc), |aggregator| {
        collects_all(rt, aggregator, taker) && has_each(aggregator) && is_told(alloc, aggregator)
    })
}

pub(super) fn takes_again_what_found_no_memory<R: Wait>(rt: &R, alloc: Global) -> bool {
    on_console(alloc, limits(1, 9, 9), |recorders, taker| {
        makes_each(rt, alloc, recorders) && takes_each(rt, alloc, taker)
    })
}
