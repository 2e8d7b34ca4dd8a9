//! The histogram of a task: how long its polls ran, who reads that, and what is learnt at the end.

use super::given::{FIRST, is_made, task, timed_task};
use std::sync::Wait;
use tk_core::TimesRow;
use tk_ledgers::{TaskInspector, TaskOwner};

/// Polls of a task, each from a moment to a moment, and what the histogram shows of them.
struct Polls {
    case: &'static str,
    polls: &'static [(u64, u64)],
    longest: u64,
    // The buckets that have a count, each with it, the lowest first.
    counts: &'static [(usize, u64)],
}

// Bucket 0 is below 2^14 ns, bucket k has times from 2^(13 + k) to below 2^(14 + k), and bucket 13 has those from 2^26 on.
#[rattlefmt::skip]
const POLLS: [Polls; 7] = [
    Polls { case: "no poll", polls: &[], longest: 0, counts: &[] },
    Polls { case: "one poll", polls: &[(150, 170)], longest: 20, counts: &[(0, 1)] },
    Polls { case: "an end before its start", polls: &[(500, 400)], longest: 0, counts: &[(0, 1)] },
    Polls { case: "the first is the longest", polls: &[(0, 20000), (20100, 20200)], longest: 20000, counts: &[(0, 1), (1, 1)] },
    Polls { case: "the bounds of two buckets", polls: &[(0, 16383), (0, 16384), (0, 32767), (0, 32768)], longest: 32768, counts: &[(0, 1), (1, 2), (2, 1)] },
    Polls { case: "the last bucket", polls: &[(0, 67108863), (0, 67108864), (0, 9000000000)], longest: 9000000000, counts: &[(12, 1), (13, 2)] },
    Polls { case: "as long as can be", polls: &[(0, 18446744073709551615)], longest: 18446744073709551615, counts: &[(13, 1)] },
];

// How many times a row counts in this bucket.
fn wanted(counts: &[(usize, u64)], bucket: usize) -> u64 {
    for (at, count) in counts {
        if *at == bucket {
            return *count;
        }
    }
    0
}

fn shows(row: &TimesRow, polls: &Polls) -> bool {
    for bucket in 0..14 {
        if row.counts[bucket] != wanted(polls.counts, bucket) {
            return false;
        }
    }
    row.longest == polls.longest && row.handles == 1
}

fn poll<R: Wait>(rt: &R, owner: &mut TaskOwner, start: u64, end: u64) -> bool {
    owner.start_poll(rt, start).is_ok() && owner.end_poll(rt, end).is_ok()
}

fn poll_all<R: Wait>(rt: &R, owner: &mut TaskOwner, polls: &[(u64, u64)]) -> bool {
    for (start, end) in polls {
        if !poll(rt, owner, *start, *end) {
            return false;
        }
    }
    true
}

fn polls_as<R: Wait>(rt: &R, owner: &mut TaskOwner, polls: &Polls) -> bool {
    match owner.inspect_times(rt).transpose().ok().flatten() {
        Some(mut times) => {
            let shown = poll_all(rt, owner, polls.polls) && shows(&times.read(rt), polls);
            drop(times);
            shown
        }
        None => false,
    }
}

#[test]
fn a_histogram_has_how_long_each_poll_ran(rt: HostRuntime) {
    for polls in &POLLS {
        match timed_task(&rt, rt.alloc(), FIRST, 0) {
            Some(mut owner) => {
                assert!(rt; polls_as(&rt, &mut owner, polls), "{}", polls.case);
                drop(owner);
            }
            None => assert!(rt; false, "no task"),
        }
    }
}

// An inspector of the task that reads its histogram too.
fn inspector<R: Wait>(rt: &R, owner: &mut TaskOwner) -> Option<TaskInspector> {
    let inspector = owner.inspect(rt).ok();
    let times = owner.inspect_times(rt).transpose().ok().flatten();
    let (inspector, times) = inspector.zip(times)?;
    Some(inspector.with_times(times))
}

// How many polls the histogram has, and the longest, in what an inspector of both reads.
fn timed<R: Wait>(rt: &R, inspector: &mut TaskInspector) -> Option<(u64, u64)> {
    let row = inspector.read_times(rt)?;
    Some((row.counts[0], row.longest))
}

// The task and its histogram are two objects: the one doesn't show how long each poll ran, and the other not that one is open.
fn reads_both<R: Wait>(rt: &R, owner: &mut TaskOwner, inspector: &mut TaskInspector) -> bool {
    let none = timed(rt, inspector) == Some((0, 0));
    let polled = poll(rt, owner, 10, 40) && owner.start_poll(rt, 50).is_ok();
    let row = inspector.read(rt);
    none && polled && (row.polls, row.busy) == (2, 30) && timed(rt, inspector) == Some((1, 30))
}

// A poll that can't be ended, since none is open, is none of the histogram's.
fn adds_no_refused_end<R: Wait>(
    rt: &R,
    owner: &mut TaskOwner,
    inspector: &mut TaskInspector,
) -> bool {
    owner.end_poll(rt, 70).is_ok()
        && owner.end_poll(rt, 9000).is_err()
        && timed(rt, inspector) == Some((2, 30))
}

fn is_read<R: Wait>(rt: &R, owner: &mut TaskOwner) -> bool {
    match inspector(rt, owner) {
        Some(mut inspector) => {
            let read = reads_both(rt, owner, &mut inspector)
                && adds_no_refused_end(rt, owner, &mut inspector);
            drop(inspector);
            read
        }
        None => false,
    }
}

#[test]
fn an_inspector_reads_a_task_and_its_histogram(rt: HostRuntime) {
    match timed_task(&rt, rt.alloc(), FIRST, 0) {
        Some(mut owner) => {
            assert!(rt; owner.has_times() && is_read(&rt, &mut owner));
            drop(owner);
        }
        None => assert!(rt; false, "no task"),
    }
}

// A task without a histogram has none to inspect, read or take, and its polls are as ever.
fn has_none<R: Wait>(rt: &R, owner: &mut TaskOwner) -> bool {
    let Ok(mut inspector) = owner.inspect(rt) else {
        return false;
    };
    let none = !owner.has_times()
        && !is_made(owner.inspect_times(rt))
        && poll(rt, owner, 10, 40)
        && inspector.read_times(rt).is_none()
        && !is_made(inspector.take_times())
        && inspector.read(rt).busy == 30;
    drop(inspector);
    none
}

fn leaves_none<R: Wait>(rt: &R, owner: TaskOwner) -> bool {
    match owner.close(rt, 50).ok() {
        Some(mut receipt) => {
            let none = !is_made(receipt.take_times());
            drop(receipt);
            none
        }
        None => false,
    }
}

#[test]
fn a_task_without_a_histogram_has_none(rt: HostRuntime) {
    match task(&rt, rt.alloc(), FIRST, 0) {
        Some(mut owner) => {
            assert!(rt; has_none(&rt, &mut owner));
            assert!(rt; leaves_none(&rt, owner));
        }
        None => assert!(rt; false, "no task"),
    }
}

// What is taken of an inspector is there no more, and reads the same.
fn takes_its_inspector<R: Wait>(rt: &R, inspector: &mut TaskInspector) -> bool {
    match inspector.take_times() {
        Some(mut times) => {
            let taken = times.task().value() == FIRST
                && times.read(rt).longest == 30
                && inspector.read_times(rt).is_none()
                && !is_made(inspector.take_times());
            drop(times);
            taken
        }
        None => false,
    }
}

fn is_taken<R: Wait>(rt: &R, owner: &mut TaskOwner) -> bool {
    match inspector(rt, owner) {
        Some(mut inspector) => {
            let taken = poll(rt, owner, 10, 40) && takes_its_inspector(rt, &mut inspector);
            drop(inspector);
            taken
        }
        None => false,
    }
}

#[test]
fn the_inspector_of_a_histogram_is_taken_once(rt: HostRuntime) {
    match timed_task(&rt, rt.alloc(), FIRST, 0) {
        Some(mut owner) => {
            assert!(rt; is_taken(&rt, &mut owner));
            drop(owner);
        }
        None => assert!(rt; false, "no task"),
    }
}
