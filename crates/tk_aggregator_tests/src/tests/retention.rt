//! Closed items leave: with which line, and what lets them stay.

use super::given::{are_taken, on_retaining, refresh_and_publish, take_in_task};
use super::texts::{LEFT, NOTHING_GONE, STAYED_AND_LEFT};
use super::writers::{cuts, goes_out_narrowly, is_broken};
use std::alloc::Global;
use std::process::Abort;
use std::sync::Wait;
use tk_aggregator::Aggregator;

// Whether the aggregator takes in a task that is closed at 5.
fn takes_in_closed<R: Wait>(rt: &R, alloc: Global, aggregator: &mut Aggregator) -> bool {
    match take_in_task(rt, alloc, aggregator, b"main", 1) {
        Some(owner) => owner.close(rt, 5).is_ok(),
        None => false,
    }
}

// Whether the next line has this number, and so many tasks are there after it.
fn tells(
    aggregator: &mut Aggregator,
    now: u64,
    written: &mut Vec<u8>,
    number: u64,
    tasks: usize,
) -> bool {
    aggregator.publish(now, written) == Ok(number) && aggregator.tables().task_count() == tasks
}

// The first line that reads the rows, and shows the task as closed.
fn shows_it<R: Wait>(rt: &R, aggregator: &mut Aggregator, now: u64, written: &mut Vec<u8>) -> bool {
    refresh_and_publish(rt, aggregator, now, written) == Ok(1)
        && aggregator.tables().task_count() == 1
}

fn leaves_at_15<R: Wait>(rt: &R, alloc: Global, aggregator: &mut Aggregator) -> bool {
    let mut written = Vec::new(alloc);
    shows_it(rt, aggregator, 6, &mut written)
        && tells(aggregator, 14, &mut written, 2, 1)
        && tells(aggregator, 15, &mut written, 3, 0)
        && written.ends_with(STAYED_AND_LEFT.as_bytes())
        && are_taken(alloc, written.as_slice(), 3, aggregator.tables())
}

pub(super) fn leaves_after_its_retention<R: Wait>(rt: &R, alloc: Global) -> bool {
    on_retaining(alloc, 10, |aggregator| {
        takes_in_closed(rt, alloc, aggregator) && leaves_at_15(rt, alloc, aggregator)
    })
}

// It is due long before it was told as closed, and leaves with the line after that one.
fn is_told_and_leaves<R: Wait>(rt: &R, alloc: Global, aggregator: &mut Aggregator) -> bool {
    let mut written = Vec::new(alloc);
    shows_it(rt, aggregator, 100, &mut written)
        && tells(aggregator, 100, &mut written, 2, 0)
        && are_taken(alloc, written.as_slice(), 2, aggregator.tables())
}

pub(super) fn is_told_as_closed_first<R: Wait>(rt: &R, alloc: Global) -> bool {
    on_retaining(alloc, 10, |aggregator| {
        takes_in_closed(rt, alloc, aggregator) && is_told_and_leaves(rt, alloc, aggregator)
    })
}

// A snapshot at 20 has the task, and the next line lets it leave.
fn has_it_in_a_snapshot(alloc: Global, aggregator: &mut Aggregator) -> bool {
    let mut written = Vec::new(alloc);
    aggregator.snapshot(20, &mut written) == Ok(2)
        && written.starts_with(NOTHING_GONE.as_bytes())
        && aggregator.tables().task_count() == 1
        && tells(aggregator, 20, &mut written, 3, 0)
        && are_taken(alloc, written.as_slice(), 2, aggregator.tables())
}

// The line that says that it is gone is cut off after this front.
fn is_cut_when_due<R: Wait>(
    rt: &R,
    alloc: Global,
    aggregator: &mut Aggregator,
    front: &[u8],
    is_silent: bool,
) -> bool {
    let mut written = Vec::new(alloc);
    shows_it(rt, aggregator, 6, &mut written)
        && cuts(alloc, aggregator, 20, front, is_silent)
        && is_broken(alloc, aggregator, 20)
        && aggregator.tables().task_count() == 1
}

fn stays_where_the_line_is_cut_off<R: Wait>(
    rt: &R,
    alloc: Global,
    front: &[u8],
    is_silent: bool,
) -> bool {
    on_retaining(alloc, 10, |aggregator| {
        takes_in_closed(rt, alloc, aggregator)
            && is_cut_when_due(rt, alloc, aggregator, front, is_silent)
            && has_it_in_a_snapshot(alloc, aggregator)
    })
}

fn assert_it_stays<R: Abort + Wait + AllocGlobal>(rt: &R, line: &[u8]) {
    for room in 0..line.len() {
        for is_silent in [false, true] {
            assert!(rt;
                stays_where_the_line_is_cut_off(rt, rt.alloc(), &line[..room], is_silent),
                "after {room} bytes"
            );
        }
    }
}

// After any number of its bytes.
pub(super) fn assert_it_stays_where_the_line_is_cut_off<R: Abort + Wait + AllocGlobal>(rt: &R) {
    assert_it_stays(rt, LEFT.as_bytes());
}

fn leaves_narrowly<R: Wait>(rt: &R, alloc: Global, aggregator: &mut Aggregator) -> bool {
    let mut written = Vec::new(alloc);
    shows_it(rt, aggregator, 6, &mut written)
        && goes_out_narrowly(alloc, aggregator, 20, LEFT.as_bytes())
        && aggregator.tables().task_count() == 0
}

pub(super) fn leaves_byte_by_byte<R: Wait>(rt: &R, alloc: Global) -> bool {
    on_retaining(alloc, 10, |aggregator| {
        takes_in_closed(rt, alloc, aggregator) && leaves_narrowly(rt, alloc, aggregator)
    })
}
