//! Executors, turn by turn.

use super::given::{Ticks, id, inspected, is_made, owner, spawns, task};
use std::alloc::Global;
use std::sync::Wait;
use tk_exec::{Example, ExecError, Executor, Instrumented, LoseWaker, Turn, Work, YieldTimes};
use tk_ledgers::{TaskInspector, TaskReceipt};

fn is_idle<R: Wait, W: Work>(rt: &R, executor: &mut Executor<W>, clock: &mut Ticks) -> bool {
    executor.turn(rt, clock) == Turn::Idle
}

fn polls<R: Wait, W: Work>(
    rt: &R,
    executor: &mut Executor<W>,
    clock: &mut Ticks,
    n: u64,
    ready: bool,
) -> bool {
    match id(n) {
        Some(id) => executor.turn(rt, clock) == Turn::Polled(id, ready),
        None => false,
    }
}

fn takes_none<W: Work>(executor: &mut Executor<W>, n: u64) -> bool {
    match id(n) {
        Some(id) => !is_made(executor.take(id)),
        None => false,
    }
}

fn is_of(receipt: &TaskReceipt, n: u64) -> bool {
    Some(receipt.task()) == id(n)
}

fn takes_polls(executor: &mut Executor<YieldTimes>, n: u64, polls: u64) -> bool {
    let Some(id) = id(n) else {
        return false;
    };
    match executor.take(id) {
        Some((out, receipt)) => {
            let expected = out == polls && is_of(&receipt, n);
            drop(receipt);
            expected
        }
        None => false,
    }
}

fn polls_one_twice<R: Wait>(
    rt: &R,
    alloc: Global,
    executor: &mut Executor<YieldTimes>,
    clock: &mut Ticks,
) -> bool {
    is_idle(rt, executor, clock)
        && spawns(rt, alloc, executor, 1, YieldTimes::new(1))
        && takes_none(executor, 1)
        && polls(rt, executor, clock, 1, false)
        && polls(rt, executor, clock, 1, true)
        && is_idle(rt, executor, clock)
}

fn takes_one_once<R: Wait>(rt: &R, executor: &mut Executor<YieldTimes>, clock: &mut Ticks) -> bool {
    takes_polls(executor, 1, 2) && takes_none(executor, 1) && is_idle(rt, executor, clock)
}

#[test]
fn one_task_that_yields_once(rt: HostRuntime) {
    let mut clock = Ticks::new();
    match Executor::new(rt.alloc()) {
        Ok(mut executor) => {
            assert!(rt; polls_one_twice(&rt, rt.alloc(), &mut executor, &mut clock));
            assert!(rt; takes_one_once(&rt, &mut executor, &mut clock));
            drop(executor);
        }
        Err(_) => assert!(rt; false, "no executor"),
    }
}

fn is_handed_back(back: &Instrumented<YieldTimes>) -> bool {
    Some(back.id()) == id(1)
}

fn is_refused<R: Wait>(rt: &R, alloc: Global, executor: &mut Executor<YieldTimes>) -> bool {
    let Some(task) = task(rt, alloc, 1, YieldTimes::new(0)) else {
        return false;
    };
    match executor.spawn(task) {
        Ok(()) => false,
        Err((error, back)) => {
            let expected = error == ExecError::Repeated
                && error.code() == 2
                && is_handed_back(&back);
            drop(back);
            expected
        }
    }
}

// The error alone, where the task isn't wanted back.
fn takes_in<R: Wait>(
    rt: &R,
    alloc: Global,
    executor: &mut Executor<YieldTimes>,
) -> Result<bool, ExecError> {
    let Some(task) = task(rt, alloc, 1, YieldTimes::new(0)) else {
        return Ok(false);
    };
    executor.spawn(task)?;
    Ok(true)
}

#[test]
fn an_id_is_taken_in_once(rt: HostRuntime) {
    match Executor::new(rt.alloc()) {
        Ok(mut executor) => {
            assert!(rt; spawns(&rt, rt.alloc(), &mut executor, 1, YieldTimes::new(0)));
            assert!(rt; is_refused(&rt, rt.alloc(), &mut executor));
            assert!(rt; takes_in(&rt, rt.alloc(), &mut executor) == Err(ExecError::Repeated));
            assert!(rt; ExecError::Memory.code() == 1);
            drop(executor);
        }
        Err(_) => assert!(rt; false, "no executor"),
    }
}

fn spawns_yielding<R: Wait>(
    rt: &R,
    alloc: Global,
    executor: &mut Executor<Example>,
    n: u64,
    times: u64,
) -> bool {
    spawns(
        rt,
        alloc,
        executor,
        n,
        Example::Yield(YieldTimes::new(times)),
    )
}

fn spawns_three<R: Wait>(rt: &R, alloc: Global, executor: &mut Executor<Example>) -> bool {
    spawns_yielding(rt, alloc, executor, 1, 0)
        && spawns(rt, alloc, executor, 2, Example::Lose(LoseWaker::new()))
        && spawns_yielding(rt, alloc, executor, 3, 1)
}

fn takes_some(executor: &mut Executor<Example>, n: u64) -> bool {
    match id(n) {
        Some(id) => is_made(executor.take(id)),
        None => false,
    }
}

fn takes_the_first<R: Wait>(rt: &R, executor: &mut Executor<Example>, clock: &mut Ticks) -> bool {
    polls(rt, executor, clock, 1, true)
        && takes_some(executor, 1)
        && polls(rt, executor, clock, 2, false)
}

fn passes_over_the_second<R: Wait>(
    rt: &R,
    executor: &mut Executor<Example>,
    clock: &mut Ticks,
) -> bool {
    polls(rt, executor, clock, 3, false)
        && polls(rt, executor, clock, 4, true)
        && polls(rt, executor, clock, 3, true)
        && is_idle(rt, executor, clock)
        && takes_none(executor, 2)
}

// Three tasks are polled one after the other; the one that lost its wakers is passed over from then on, and a turn goes
// on after the task that was polled last, also where a task before it was taken.
#[test]
fn tasks_are_polled_in_turn(rt: HostRuntime) {
    let mut clock = Ticks::new();
    match Executor::new(rt.alloc()) {
        Ok(mut executor) => {
            assert!(rt; spawns_three(&rt, rt.alloc(), &mut executor));
            assert!(rt; takes_the_first(&rt, &mut executor, &mut clock));
            assert!(rt; spawns_yielding(&rt, rt.alloc(), &mut executor, 4, 0));
            assert!(rt; passes_over_the_second(&rt, &mut executor, &mut clock));
            drop(executor);
        }
        Err(_) => assert!(rt; false, "no executor"),
    }
}

fn holds(executor: &Executor<YieldTimes>, tasks: usize, unfinished: usize) -> bool {
    executor.len() == tasks && executor.unfinished() == unfinished
}

fn counts_two<R: Wait>(
    rt: &R,
    alloc: Global,
    executor: &mut Executor<YieldTimes>,
    clock: &mut Ticks,
) -> bool {
    holds(executor, 0, 0)
        && spawns(rt, alloc, executor, 1, YieldTimes::new(0))
        && spawns(rt, alloc, executor, 2, YieldTimes::new(1))
        && holds(executor, 2, 2)
        && polls(rt, executor, clock, 1, true)
        && holds(executor, 2, 1)
        && takes_polls(executor, 1, 1)
        && holds(executor, 1, 1)
}

fn takes_in_again<R: Wait>(
    rt: &R,
    alloc: Global,
    executor: &mut Executor<YieldTimes>,
    clock: &mut Ticks,
) -> bool {
    spawns(rt, alloc, executor, 1, YieldTimes::new(0))
        && holds(executor, 2, 2)
        && polls(rt, executor, clock, 2, false)
        && polls(rt, executor, clock, 1, true)
        && polls(rt, executor, clock, 2, true)
        && holds(executor, 2, 0)
}

// A task that was taken leaves its id to another one, which stands last.
#[test]
fn an_id_may_come_again(rt: HostRuntime) {
    let mut clock = Ticks::new();
    match Executor::new(rt.alloc()) {
        Ok(mut executor) => {
            assert!(rt; counts_two(&rt, rt.alloc(), &mut executor, &mut clock));
            assert!(rt; takes_in_again(&rt, rt.alloc(), &mut executor, &mut clock));
            drop(executor);
        }
        Err(_) => assert!(rt; false, "no executor"),
    }
}

// Takes in the n-th task, which somebody reads.
fn spawns_read<R: Wait>(
    rt: &R,
    alloc: Global,
    executor: &mut Executor<YieldTimes>,
    n: u64,
    times: u64,
) -> Option<TaskInspector> {
    let owner = owner(rt, alloc, n)?;
    let (task, inspector) = inspected(rt, owner, YieldTimes::new(times))?;
    is_made(executor.spawn(task).ok()).then_some(inspector)
}

fn is_closed_at<R: Wait>(rt: &R, mut inspector: TaskInspector, moment: u64) -> bool {
    let row = inspector.read(rt);
    drop(inspector);
    row.dropped == Some(moment)
}

fn are_of_two(receipts: &[TaskReceipt]) -> bool {
    match receipts {
        [one, two] => is_of(one, 1) && is_of(two, 2),
        _ => false,
    }
}

fn closes_two<R: Wait>(rt: &R, alloc: Global, executor: Executor<YieldTimes>) -> bool {
    match executor.close_all(rt, alloc, 50).ok() {
        Some(receipts) => {
            let expected = are_of_two(receipts.as_slice());
            drop(receipts);
            expected
        }
        None => false,
    }
}

// The first of two tasks is finished, and closed at 2; the second one is closed with the executor.
fn closes_the_second<R: Wait>(rt: &R, alloc: Global, mut executor: Executor<YieldTimes>) -> bool {
    let mut clock = Ticks::new();
    let one = spawns_read(rt, alloc, &mut executor, 1, 0);
    let two = spawns_read(rt, alloc, &mut executor, 2, 3);
    let Some((one, two)) = one.zip(two) else {
        drop(executor);
        return false;
    };
    let polled = polls(rt, &mut executor, &mut clock, 1, true);
    let closed = closes_two(rt, alloc, executor);
    let one_closed = is_closed_at(rt, one, 2);
    let two_closed = is_closed_at(rt, two, 50);
    polled && closed && one_closed && two_closed
}

#[test]
fn an_executor_closes_what_it_holds(rt: HostRuntime) {
    match Executor::new(rt.alloc()) {
        Ok(executor) => assert!(rt; closes_the_second(&rt, rt.alloc(), executor)),
        Err(_) => assert!(rt; false, "no executor"),
    }
}
