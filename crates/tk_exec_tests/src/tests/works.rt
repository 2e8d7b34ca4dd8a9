//! The example works, polled to their ends.

use super::given::{Ticks, id, inspected, owner, task};
use futures::task::Poll;
use std::alloc::Global;
use std::sync::Wait;
use tk_core::{Refusal, TaskRow};
use tk_exec::{BusyUntil, Example, HoldWaker, Instrumented, LoseWaker, YieldTimes};

// Whether it is finished, and a further poll is refused.
fn is_over<R: Wait>(rt: &R, tracked: &mut Instrumented<Example>, clock: &mut Ticks) -> bool {
    let again = tracked.poll_once(rt, clock);
    tracked.is_finished() && again.err() == Some(Refusal::Closed)
}

// Polls the work until it is ready, at most so many times, at the moments 1, 3, 5 and so on: how many polls there were,
// the output, and whether a further poll is refused.
fn polled<R: Wait>(
    rt: &R,
    tracked: &mut Instrumented<Example>,
    clock: &mut Ticks,
    most: u64,
) -> Option<(u64, Option<u64>, bool)> {
    for made in 0..most {
        if let Poll::Ready(out) = tracked.poll_once(rt, clock).ok()? {
            return Some((made + 1, Some(out), is_over(rt, tracked, clock)));
        }
    }
    Some((most, None, tracked.is_finished()))
}

// Whether at most nine polls of the work come to this.
fn comes_to<R: Wait>(
    rt: &R,
    alloc: Global,
    work: Example,
    wanted: (u64, Option<u64>, bool),
) -> bool {
    let mut clock = Ticks::new();
    match task(rt, alloc, 1, work) {
        Some(mut tracked) => {
            let found = polled(rt, &mut tracked, &mut clock, 9);
            drop(tracked);
            found == Some(wanted)
        }
        None => false,
    }
}

fn yields<R: Wait>(rt: &R, alloc: Global, times: u64, polls: u64) -> bool {
    let work = Example::Yield(YieldTimes::new(times));
    comes_to(rt, alloc, work, (polls, Some(polls), true))
}

fn keeps_a_waker<R: Wait>(rt: &R, alloc: Global) -> bool {
    comes_to(
        rt,
        alloc,
        Example::Hold(HoldWaker::new()),
        (2, Some(2), true),
    )
}

fn loses_wakers<R: Wait>(rt: &R, alloc: Global) -> bool {
    comes_to(rt, alloc, Example::Lose(LoseWaker::new()), (9, None, false))
}

fn is_busy<R: Wait>(rt: &R, alloc: Global, until: u64, polls: u64) -> bool {
    let work = Example::Busy(BusyUntil::new(until));
    comes_to(rt, alloc, work, (polls, Some(polls), true))
}

#[test]
fn works_are_polled_to_their_ends(rt: HostRuntime) {
    assert!(rt; yields(&rt, rt.alloc(), 0, 1), "at once");
    assert!(rt; yields(&rt, rt.alloc(), 2, 3), "two wakes");
    assert!(rt; keeps_a_waker(&rt, rt.alloc()));
    assert!(rt; loses_wakers(&rt, rt.alloc()));
    assert!(rt; is_busy(&rt, rt.alloc(), 1, 1), "in time");
    assert!(rt; is_busy(&rt, rt.alloc(), 4, 3), "too early");
}

#[test]
fn an_id_is_kept(rt: HostRuntime) {
    match task(&rt, rt.alloc(), 7, LoseWaker::new()) {
        Some(tracked) => {
            assert!(rt; Some(tracked.id()) == id(7));
            drop(tracked);
        }
        None => assert!(rt; false, "no task"),
    }
}

// Polls the work so many times.
fn poll_often<R: Wait>(rt: &R, tracked: &mut Instrumented<Example>, polls: u64) -> bool {
    let mut clock = Ticks::new();
    for _ in 0..polls {
        if tracked.poll_once(rt, &mut clock).is_err() {
            return false;
        }
    }
    true
}

// The row of a task whose work was polled so many times.
fn row_behind<R: Wait>(rt: &R, alloc: Global, work: Example, polls: u64) -> Option<TaskRow> {
    let (owner, work) = owner(rt, alloc, 1).zip(Some(work))?;
    let (mut tracked, mut inspector) = inspected(rt, owner, work)?;
    let polled = poll_often(rt, &mut tracked, polls);
    let row = inspector.read(rt);
    drop(tracked);
    drop(inspector);
    polled.then_some(row)
}

// Its own wakes, its clones and its drops.
fn leaves<R: Wait>(
    rt: &R,
    alloc: Global,
    work: Example,
    polls: u64,
    wanted: (u64, u64, u64),
) -> bool {
    match row_behind(rt, alloc, work, polls) {
        Some(row) => (row.self_wakes, row.clones, row.drops) == wanted,
        None => false,
    }
}

// What a work does in its polls stands in the row of its task: no contract says it of a work.
#[test]
fn works_wake_clone_and_release(rt: HostRuntime) {
    let alloc = rt.alloc();
    assert!(rt;
        leaves(&rt, alloc, Example::Yield(YieldTimes::new(2)), 2, (2, 0, 0)),
        "yields"
    );
    assert!(rt;
        leaves(&rt, alloc, Example::Hold(HoldWaker::new()), 1, (0, 1, 0)),
        "holds"
    );
    assert!(rt;
        leaves(&rt, alloc, Example::Hold(HoldWaker::new()), 2, (0, 1, 1)),
        "releases"
    );
    assert!(rt;
        leaves(&rt, alloc, Example::Lose(LoseWaker::new()), 3, (0, 3, 3)),
        "loses"
    );
    assert!(rt;
        leaves(&rt, alloc, Example::Busy(BusyUntil::new(4)), 2, (2, 0, 0)),
        "is busy"
    );
}
