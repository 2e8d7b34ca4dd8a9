//! Two recorders on threads of their own, while in a third an aggregator takes, reads and tells. A client follows its stream.

use super::given::{are_taken, limits, make_task, on_new, refresh_and_publish};
use std::alloc::Global;
use std::sync::Wait;
use std::sync::atomic::{AtomicBool, Ordering};
use std::thread;
use std::thread::{Threads, join, map_vec};
use tk_aggregator::Aggregator;
use tk_events::{Console, Recorder, Taker};
use tk_stream::Tables;

// How often the aggregator looks for events.
const TURNS: u64 = 10_000_000;

// How many tasks each recorder makes.
const TASKS: u64 = 300;

// How many events the aggregator takes at most before it tells.
const LIMIT: u64 = 5;

// Makes a task and polls it once.
fn polls_one<R: Wait>(rt: &R, alloc: Global, recorder: &mut Recorder, moment: u64) -> bool {
    match make_task(rt, alloc, recorder, b"worker", moment) {
        Some(mut owner) => {
            owner.start_poll(rt, moment).is_ok() && owner.end_poll(rt, moment).is_ok()
        }
        None => false,
    }
}

// How many tasks it made and polled.
fn poll_each<R: Wait>(rt: &R, alloc: Global, mut recorder: Recorder) -> u64 {
    let mut polled = 0u64;
    for moment in 0..TASKS {
        if polls_one(rt, alloc, &mut recorder, moment) {
            polled = polled.saturating_add(1);
        }
    }
    polled
}

// Two recorders, each on a thread of its own, make and poll tasks: how many together.
fn poll_all<R: Threads + Wait + Sync>(
    rt: &R,
    alloc: Global,
    recorders: Vec<Recorder>,
    done: &AtomicBool,
) -> u64 {
    let polled = map_vec(
        rt,
        recorders,
        &|recorder: Recorder| -> u64 { poll_each(rt, alloc, recorder) },
    );
    done.store(true, Ordering::SeqCst);
    match polled {
        Ok(counts) => counts
            .iter()
            .fold(0u64, |sum, count| sum.saturating_add(*count)),
        Err(_) => 0,
    }
}

// Takes some events, and tells of them where there were some: how many, if the line was written.
fn tell_some<R: Wait>(
    rt: &R,
    aggregator: &mut Aggregator,
    taker: &mut Taker,
    written: &mut Vec<u8>,
) -> Option<u64> {
    let count = aggregator.collect(rt, taker, LIMIT).ok()?;
    if count > 0 {
        refresh_and_publish(rt, aggregator, 1, written).ok()?;
    }
    Some(count)
}

// Tells until the recorders are done and nothing is left: the number of the last line, if each was written.
fn tell_beside<R: Wait>(
    rt: &R,
    aggregator: &mut Aggregator,
    taker: &mut Taker,
    done: &AtomicBool,
    written: &mut Vec<u8>,
) -> Option<u64> {
    for _turn in 0..TURNS {
        let is_done = done.load(Ordering::SeqCst);
        let count = tell_some(rt, aggregator, taker, written)?;
        if is_done && count < LIMIT {
            return refresh_and_publish(rt, aggregator, 2, written).ok();
        }
        thread::yield_now();
    }
    None
}

// The recorders record on threads of their own while the aggregator tells: how many tasks were polled, and how many lines
// there are.
fn record_and_tell<R: Threads + Wait + Sync>(
    rt: &R,
    alloc: Global,
    recorders: Vec<Recorder>,
    taker: &mut Taker,
    aggregator: &mut Aggregator,
    written: &mut Vec<u8>,
) -> (u64, Option<u64>) {
    let done = AtomicBool::new(false);
    join(
        rt,
        || poll_all(rt, alloc, recorders, &done),
        || tell_beside(rt, aggregator, taker, &done, written),
    )
}

// Whether each task was polled once.
fn are_polled(tables: &Tables) -> bool {
    for i in 0..tables.task_count() {
        if tables
            .task_at(i)
            .is_none_or(|task| task.row.polls != 1 || task.row.polling)
        {
            return false;
        }
    }
    true
}

// Each task is there or counted as dropped.
fn none_is_lost(tables: &Tables, made: u64) -> bool {
    (tables.task_count() as u64).saturating_add(tables.dropped().tasks) == made
}

fn is_followed<R: Threads + Wait + Sync>(
    rt: &R,
    alloc: Global,
    recorders: Vec<Recorder>,
    taker: &mut Taker,
    aggregator: &mut Aggregator,
) -> bool {
    let mut written = Vec::new(alloc);
    match record_and_tell(rt, alloc, recorders, taker, aggregator, &mut written) {
        (polled, Some(lines)) => {
            polled == 2 * TASKS
                && none_is_lost(aggregator.tables(), polled)
                && are_polled(aggregator.tables())
                && are_taken(alloc, written.as_slice(), lines, aggregator.tables())
        }
        (_, None) => false,
    }
}

fn tells_beside<R: Threads + Wait + Sync>(
    rt: &R,
    alloc: Global,
    recorders: Vec<Recorder>,
    taker: &mut Taker,
) -> bool {
    on_new(
        alloc,
        0,
        |aggregator| is_followed(rt, alloc, recorders, taker, aggregator),
    )
}

pub(super) fn is_followed_beside_two_recorders<R: Wait + Threads + Sync>(
    rt: &R,
    alloc: Global,
) -> bool {
    match Console::open(alloc, limits(2, 16, 1000)) {
        Ok((recorders, mut taker)) => tells_beside(rt, alloc, recorders, &mut taker),
        Err(_) => false,
    }
}
