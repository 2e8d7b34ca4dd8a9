//! Works whose tasks have a histogram of how long their polls ran.

use super::given::{at_rest, id, is_made, spawns};
use std::alloc::Global;
use std::sync::Wait;
use tk_exec::{BusyUntil, Clock, Example, Executor, HoldWaker, Instrumented, Turn, YieldTimes};
use tk_ledgers::{TaskInspector, TaskOwner};

/// Tells moments that lie ever further apart: 0, 1, 3, 6, 10 and so on. The n-th poll runs for 2n - 1.
#[derive(Drop)]
struct Slowing {
    at: u64,
    step: u64,
}

impl Clock for Slowing {
    ghost use Rattle.std.specs.Prelude.{⊤};

    ghost reads = { λ clock moment after. ⊤ };

    fn now(&mut self) -> u64 {
        let now = self.at;
        self.step = self.step.saturating_add(1);
        self.at = self.at.saturating_add(self.step);
        now
    }
}

impl Slowing {
    fn new() -> Slowing {
        Slowing { at: 0, step: 0 }
    }
}

/// The owner of the n-th task, created at 0, with a histogram.
fn timed_owner<R: Wait>(rt: &R, alloc: Global, n: u64) -> Option<TaskOwner> {
    let id = id(n)?;
    TaskOwner::new_with_times(rt, alloc, id, 0).ok()
}

// An inspector of the task that reads its histogram too.
fn inspector<R: Wait>(rt: &R, owner: &mut TaskOwner) -> Option<TaskInspector> {
    let inspector = owner.inspect(rt).ok();
    let times = owner.inspect_times(rt).transpose().ok().flatten();
    let (inspector, times) = inspector.zip(times)?;
    Some(inspector.with_times(times))
}

// How many polls the histogram has, the longest, and how long all of them ran by the task's row.
fn read<R: Wait>(rt: &R, inspector: &mut TaskInspector) -> Option<(u64, u64, u64)> {
    let times = inspector.read_times(rt)?;
    Some((times.counts[0], times.longest, inspector.read(rt).busy))
}

// Polls the work so many times.
fn poll_often<R: Wait>(rt: &R, tracked: &mut Instrumented<Example>, polls: u64) -> bool {
    let mut clock = Slowing::new();
    for _ in 0..polls {
        if tracked.poll_once(rt, &mut clock).is_err() {
            return false;
        }
    }
    true
}

fn polled<R: Wait>(
    rt: &R,
    owner: TaskOwner,
    inspector: &mut TaskInspector,
    work: Example,
    polls: u64,
) -> Option<(u64, u64, u64)> {
    match at_rest(owner, work) {
        Some(mut tracked) => {
            let polled = poll_often(rt, &mut tracked, polls);
            let found = read(rt, inspector);
            drop(tracked);
            if polled { found } else { None }
        }
        None => None,
    }
}

fn is_timed<R: Wait>(
    rt: &R,
    alloc: Global,
    work: Example,
    polls: u64,
    wanted: (u64, u64, u64),
) -> bool {
    let Some((mut owner, work)) = timed_owner(rt, alloc, 1).zip(Some(work)) else {
        return false;
    };
    match inspector(rt, &mut owner) {
        Some(mut inspector) => {
            let found = polled(rt, owner, &mut inspector, work, polls);
            drop(inspector);
            found == Some(wanted)
        }
        None => {
            drop(owner);
            drop(work);
            false
        }
    }
}

// The n-th poll runs for 2n - 1, so n polls run for n * n.
#[test]
fn each_poll_of_a_work_is_timed(rt: HostRuntime) {
    let alloc = rt.alloc();
    assert!(rt;
        is_timed(
            &rt,
            alloc,
            Example::Yield(YieldTimes::new(9)),
            4,
            (4, 7, 16)
        ),
        "yields"
    );
    assert!(rt;
        is_timed(&rt, alloc, Example::Yield(YieldTimes::new(0)), 1, (1, 1, 1)),
        "is ready at once"
    );
    assert!(rt;
        is_timed(&rt, alloc, Example::Hold(HoldWaker::new()), 2, (2, 3, 4)),
        "holds"
    );
    assert!(rt;
        is_timed(
            &rt,
            alloc,
            Example::Busy(BusyUntil::new(9000)),
            3,
            (3, 5, 9)
        ),
        "is busy"
    );
}

fn yields() -> Example {
    Example::Yield(YieldTimes::new(9))
}

fn spawns_timed(executor: &mut Executor<Example>, owner: TaskOwner) -> bool {
    match at_rest(owner, yields()) {
        Some(task) => is_made(executor.spawn(task).ok()),
        None => false,
    }
}

fn turn_often<R: Wait>(rt: &R, executor: &mut Executor<Example>, turns: u64) -> bool {
    let mut clock = Slowing::new();
    for _ in 0..turns {
        if executor.turn(rt, &mut clock) == Turn::Idle {
            return false;
        }
    }
    true
}

fn is_polled_in_turn<R: Wait>(rt: &R, alloc: Global, executor: &mut Executor<Example>) -> bool {
    let Some(mut owner) = timed_owner(rt, alloc, 1) else {
        return false;
    };
    match inspector(rt, &mut owner) {
        Some(mut inspector) => {
            let polled = spawns_timed(executor, owner)
                && spawns(rt, alloc, executor, 2, yields())
                && turn_often(rt, executor, 4)
                && read(rt, &mut inspector) == Some((2, 5, 6));
            drop(inspector);
            polled
        }
        None => {
            drop(owner);
            false
        }
    }
}

// Of four polls the first and the third are of the task with a histogram, and run for 1 and 5.
#[test]
fn an_executor_polls_tasks_with_and_without(rt: HostRuntime) {
    match Executor::new(rt.alloc()) {
        Ok(mut executor) => {
            assert!(rt; is_polled_in_turn(&rt, rt.alloc(), &mut executor));
            drop(executor);
        }
        Err(_) => assert!(rt; false, "no executor"),
    }
}
