//! Histograms of how long the polls of tasks ran, as lines of version 3 tell them.

use super::given::{
    are_taken, collects, limits, on_console, on_made, refresh_and_publish, spawn_spec,
};
use super::texts::{TIMED, TIMED_LEFT};
use std::alloc::Global;
use std::sync::Wait;
use tk_aggregator::Aggregator;
use tk_client::Client;
use tk_events::{Recorder, Taker};
use tk_ledgers::TaskOwner;

// Whether a check holds of a new aggregator that reads histograms.
fn on_timed<F: FnOnce(&mut Aggregator) -> bool>(
    alloc: Global,
    retention: Option<u64>,
    check: F,
) -> bool
    requires { F.IsAlwaysCallable check }
{
    on_made(Aggregator::with_times(alloc, 0, retention), check)
}

fn make_timed<R: Wait>(rt: &R, alloc: Global, recorder: &mut Recorder) -> Option<TaskOwner> {
    let spec = spawn_spec(alloc, b"a", 1)?;
    let (owner, _) = recorder.task_with_times(rt, alloc, spec, 1).ok()?;
    Some(owner)
}

fn record_and_collect<R: Wait>(
    rt: &R,
    alloc: Global,
    aggregator: &mut Aggregator,
    recorders: &mut Vec<Recorder>,
    taker: &mut Taker,
) -> Option<TaskOwner> {
    let owner = make_timed(rt, alloc, recorders.get_mut(0)?)?;
    if !collects(rt, aggregator, taker, 9, 1) {
        return None;
    }
    Some(owner)
}

// Whether two polls ran, for 20,000 ns and for 5 ns.
fn polls_twice<R: Wait>(rt: &R, owner: &mut TaskOwner) -> bool {
    owner.start_poll(rt, 3).is_ok()
        && owner.end_poll(rt, 20_003).is_ok()
        && owner.start_poll(rt, 30_000).is_ok()
        && owner.end_poll(rt, 30_005).is_ok()
}

fn has_same_times(client: &Client, aggregator: &Aggregator) -> bool {
    client.times().len() == 1 && client.times().at(0).copied() == aggregator.times().at(0).copied()
}

fn holds_times(client: &mut Client, bytes: &[u8], aggregator: &Aggregator) -> bool {
    client.feed(bytes).is_ok() && has_same_times(client, aggregator)
}

// Whether a client that takes these lines holds the histogram of the aggregator's one task.
fn are_times_of(alloc: Global, bytes: &[u8], aggregator: &Aggregator) -> bool {
    on_made(
        Client::new(alloc, 1_000_000),
        |client| holds_times(client, bytes, aggregator),
    )
}

fn tells_four_lines<R: Wait>(
    rt: &R,
    aggregator: &mut Aggregator,
    owner: &mut TaskOwner,
    written: &mut Vec<u8>,
) -> bool {
    refresh_and_publish(rt, aggregator, 2, written) == Ok(1)
        && polls_twice(rt, owner)
        && refresh_and_publish(rt, aggregator, 40_000, written) == Ok(2)
        && aggregator.publish(40_001, written) == Ok(3)
        && aggregator.snapshot(40_002, written) == Ok(4)
}

fn writes_timed<R: Wait>(
    rt: &R,
    alloc: Global,
    aggregator: &mut Aggregator,
    owner: &mut TaskOwner,
) -> bool {
    let mut written = Vec::new(alloc);
    tells_four_lines(rt, aggregator, owner, &mut written)
        && written.as_slice() == TIMED.as_bytes()
        && are_taken(alloc, written.as_slice(), 4, aggregator.tables())
        && are_times_of(alloc, written.as_slice(), aggregator)
}

fn polls_and_tells<R: Wait>(
    rt: &R,
    alloc: Global,
    aggregator: &mut Aggregator,
    recorders: &mut Vec<Recorder>,
    taker: &mut Taker,
) -> bool {
    match record_and_collect(rt, alloc, aggregator, recorders, taker) {
        Some(mut owner) => {
            let tells = writes_timed(rt, alloc, aggregator, &mut owner);
            drop(owner);
            tells
        }
        None => false,
    }
}

pub(super) fn tells_histograms<R: Wait>(rt: &R, alloc: Global) -> bool {
    on_timed(alloc, None, |aggregator| {
        on_console(alloc, limits(1, 4, 9), |recorders, taker| {
            polls_and_tells(rt, alloc, aggregator, recorders, taker)
        })
    })
}

// Whether the task is told as closed, and with the next line it leaves, and its histogram with it.
fn is_told_and_leaves<R: Wait>(rt: &R, alloc: Global, aggregator: &mut Aggregator) -> bool {
    let mut written = Vec::new(alloc);
    refresh_and_publish(rt, aggregator, 6, &mut written) == Ok(1)
        && aggregator.times().len() == 1
        && aggregator.publish(20, &mut written) == Ok(2)
        && aggregator.times().len() == 0
        && written.ends_with(TIMED_LEFT.as_bytes())
        && are_taken(alloc, written.as_slice(), 2, aggregator.tables())
}

fn closes_and_leaves<R: Wait>(
    rt: &R,
    alloc: Global,
    aggregator: &mut Aggregator,
    recorders: &mut Vec<Recorder>,
    taker: &mut Taker,
) -> bool {
    match record_and_collect(rt, alloc, aggregator, recorders, taker) {
        Some(owner) => { owner.close(rt, 5).is_ok() && is_told_and_leaves(rt, alloc, aggregator) }
        None => false,
    }
}

pub(super) fn lets_histograms_leave<R: Wait>(rt: &R, alloc: Global) -> bool {
    on_timed(alloc, Some(10), |aggregator| {
        on_console(alloc, limits(1, 4, 9), |recorders, taker| {
            closes_and_leaves(rt, alloc, aggregator, recorders, taker)
        })
    })
}

// Whether a task with a histogram goes in where none are read, and lines tell none.
fn tells_none<R: Wait>(
    rt: &R,
    alloc: Global,
    aggregator: &mut Aggregator,
    recorders: &mut Vec<Recorder>,
    taker: &mut Taker,
) -> bool {
    let mut written = Vec::new(alloc);
    match record_and_collect(rt, alloc, aggregator, recorders, taker) {
        Some(owner) => {
            drop(owner);
            refresh_and_publish(rt, aggregator, 2, &mut written) == Ok(1)
                && aggregator.times().len() == 0
                && written.ends_with(b"\"v\":1}\n")
        }
        None => false,
    }
}

pub(super) fn reads_none_unasked<R: Wait>(rt: &R, alloc: Global) -> bool {
    on_made(Aggregator::new(alloc, 0), |aggregator| {
        on_console(alloc, limits(1, 4, 9), |recorders, taker| {
            tells_none(rt, alloc, aggregator, recorders, taker)
        })
    })
}
