//! A task's poll, a snapshot, and a task that is dropped, as lines tell of them.

use super::given::{
    collects, limits, make_task, makes_task, on_console, on_new, refresh_and_publish, take_in_task,
};
use super::texts::{DROPPED, EMPTY_TWICE, MAIN, POLLED, UNCHANGED};
use std::alloc::Global;
use std::sync::Wait;
use tk_aggregator::{Aggregator, Published, StreamError};
use tk_events::{Recorder, Taker};
use tk_ledgers::TaskOwner;

fn wakes_itself<R: Wait>(rt: &R, owner: TaskOwner) -> bool {
    match owner.scope(3) {
        Ok(mut scope) => {
            scope.wake_by_ref(rt, 3);
            true
        }
        Err(_) => false,
    }
}

// The task starts a poll and wakes itself in it.
fn is_woken_in_a_poll<R: Wait>(rt: &R, mut owner: TaskOwner) -> bool {
    owner.start_poll(rt, 3).is_ok() && wakes_itself(rt, owner)
}

fn tells_of_a_poll<R: Wait>(
    rt: &R,
    aggregator: &mut Aggregator,
    owner: TaskOwner,
    written: &mut Vec<u8>,
) -> bool {
    refresh_and_publish(rt, aggregator, 2, written) == Ok(1)
        && is_woken_in_a_poll(rt, owner)
        && refresh_and_publish(rt, aggregator, 4, written) == Ok(2)
        && aggregator.snapshot(5, written) == Ok(3)
}

fn writes_polled<R: Wait>(
    rt: &R,
    alloc: Global,
    aggregator: &mut Aggregator,
    owner: TaskOwner,
) -> bool {
    let mut written = Vec::new(alloc);
    tells_of_a_poll(rt, aggregator, owner, &mut written) && written.as_slice() == POLLED.as_bytes()
}

fn polls_and_tells<R: Wait>(rt: &R, alloc: Global, aggregator: &mut Aggregator) -> bool {
    match take_in_task(rt, alloc, aggregator, b"a", 1) {
        Some(owner) => writes_polled(rt, alloc, aggregator, owner),
        None => false,
    }
}

pub(super) fn tells_of_a_poll_and_all<R: Wait>(rt: &R, alloc: Global) -> bool {
    on_new(
        alloc,
        0,
        |aggregator| polls_and_tells(rt, alloc, aggregator),
    )
}

fn tells_nothing_twice(alloc: Global, aggregator: &mut Aggregator) -> bool {
    let mut written = Vec::new(alloc);
    aggregator.publish(5, &mut written) == Ok(1)
        && aggregator.publish(5, &mut written) == Ok(2)
        && written.as_slice() == EMPTY_TWICE.as_bytes()
}

pub(super) fn tells_of_no_items(alloc: Global) -> bool {
    on_new(
        alloc,
        0,
        |aggregator| tells_nothing_twice(alloc, aggregator),
    )
}

fn starts_a_poll<R: Wait>(rt: &R, alloc: Global, recorder: &mut Recorder) -> bool {
    match make_task(rt, alloc, recorder, b"c", 3) {
        Some(mut owner) => owner.start_poll(rt, 5).is_ok(),
        None => false,
    }
}

// Three tasks, of which the third starts a poll.
fn makes_three<R: Wait>(rt: &R, alloc: Global, recorders: &mut Vec<Recorder>) -> bool {
    match recorders.get_mut(0) {
        Some(recorder) => {
            makes_task(rt, alloc, recorder, b"a", 1)
                && makes_task(rt, alloc, recorder, b"b", 2)
                && starts_a_poll(rt, alloc, recorder)
        }
        None => false,
    }
}

fn writes_dropped<R: Wait>(
    rt: &R,
    alloc: Global,
    aggregator: &mut Aggregator,
    taker: &mut Taker,
) -> bool {
    let mut written = Vec::new(alloc);
    collects(rt, aggregator, taker, 2, 2)
        && refresh_and_publish(rt, aggregator, 10, &mut written) == Ok(1)
        && written.as_slice() == DROPPED.as_bytes()
}

fn tells_of_dropped<R: Wait>(rt: &R, alloc: Global, taker: &mut Taker) -> bool {
    on_new(
        alloc,
        0,
        |aggregator| writes_dropped(rt, alloc, aggregator, taker),
    )
}

// The task whose event is dropped starts a poll, and no line tells of it.
pub(super) fn tells_of_a_dropped_task<R: Wait>(rt: &R, alloc: Global) -> bool {
    on_console(alloc, limits(1, 2, 9), |recorders, taker| {
        makes_three(rt, alloc, recorders) && tells_of_dropped(rt, alloc, taker)
    })
}

// What one call at this moment answers that takes events in, reads the ledgers and publishes, and what it writes.
fn answers<R: Wait>(
    rt: &R,
    alloc: Global,
    aggregator: &mut Aggregator,
    taker: &mut Taker,
    now: u64,
    answer: Result<Published, StreamError>,
    text: &str,
) -> bool {
    let mut written = Vec::new(alloc);
    aggregator.collect_and_publish(rt, taker, 9, now, &mut written) == answer
        && written.as_slice() == text.as_bytes()
}

// The line of a new task, none where the clock ran backwards, and one of no change.
fn goes_on_in_one_call<R: Wait>(
    rt: &R,
    alloc: Global,
    aggregator: &mut Aggregator,
    taker: &mut Taker,
) -> bool {
    let first = Ok(Published {
        events: 1,
        number: 1,
    });
    let second = Ok(Published {
        events: 0,
        number: 2,
    });
    answers(rt, alloc, aggregator, taker, 200, first, MAIN)
        && answers(
            rt,
            alloc,
            aggregator,
            taker,
            199,
            Err(StreamError::Clock),
            "",
        )
        && answers(rt, alloc, aggregator, taker, 300, second, UNCHANGED)
}

fn records_and_tells<R: Wait>(
    rt: &R,
    alloc: Global,
    aggregator: &mut Aggregator,
    recorders: &mut Vec<Recorder>,
    taker: &mut Taker,
) -> bool {
    match recorders.get_mut(0) {
        Some(recorder) => {
            makes_task(rt, alloc, recorder, b"main", 100)
                && goes_on_in_one_call(rt, alloc, aggregator, taker)
        }
        None => false,
    }
}

pub(super) fn tells_in_one_call<R: Wait>(rt: &R, alloc: Global) -> bool {
    on_console(alloc, limits(1, 4, 9), |recorders, taker| {
        on_new(alloc, 0, |aggregator| {
            records_and_tells(rt, alloc, aggregator, recorders, taker)
        })
    })
}
