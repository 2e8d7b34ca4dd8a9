//! Drivers, to their answers.
ghost use Rattle.std.specs.Prelude.{◌≤◌};

use super::given::{Ticks, is_made, spawns};
use futures::executor::block_on;
use futures::future::poll_immediate;
use std::alloc::{AllocGlobal, Global};
use std::random::RandomSource;
use std::sync::Wait;
use tk_exec::{Driver, Example, Executor, HoldWaker, LoseWaker, Ran, Work, YieldTimes};

// A driver that stalls at so many idle turns in a row.
fn driver<'a, R: Wait, W: Work>(
    rt: &'a R,
    alloc: Global,
    executor: Executor<W>,
    max_idle: u64,
) -> Option<Driver<'a, R, W, Ticks>>
    requires { 1 ≤ max_idle }
{
    Driver::new(rt, alloc, executor, Ticks::new(), max_idle).ok()
}

fn spawns_two<R: Wait>(rt: &R, alloc: Global, executor: &mut Executor<YieldTimes>) -> bool {
    spawns(rt, alloc, executor, 1, YieldTimes::new(2))
        && spawns(rt, alloc, executor, 2, YieldTimes::new(0))
}

fn is_three_and_one(ran: &Ran<u64>) -> bool {
    match ran {
        Ran::Finished(outputs) => outputs.as_slice() == [3, 1].as_slice(),
        Ran::Stalled { .. } => false,
    }
}

fn gives_three_and_one<R: Wait + RandomSource + AllocGlobal>(
    rt: &R,
    alloc: Global,
    executor: Executor<YieldTimes>,
) -> bool {
    let Some(driver) = driver(rt, alloc, executor, 1) else {
        return false;
    };
    match block_on(rt, driver) {
        Ok(ran) => {
            let expected = is_three_and_one(&ran);
            drop(ran);
            expected
        }
        Err(_) => false,
    }
}

#[test]
fn outputs_stand_in_order_of_spawn(rt: HostRuntime) {
    match Executor::new(rt.alloc()) {
        Ok(mut executor) => {
            assert!(rt; spawns_two(&rt, rt.alloc(), &mut executor));
            assert!(rt; gives_three_and_one(&rt, rt.alloc(), executor));
        }
        Err(_) => assert!(rt; false, "no executor"),
    }
}

fn spawns_three<R: Wait>(rt: &R, alloc: Global, executor: &mut Executor<Example>) -> bool {
    spawns(rt, alloc, executor, 1, Example::Yield(YieldTimes::new(3)))
        && spawns(rt, alloc, executor, 2, Example::Lose(LoseWaker::new()))
        && spawns(rt, alloc, executor, 3, Example::Hold(HoldWaker::new()))
}

fn is_stalled<T: Drop>(ran: Ran<T>, wanted: usize) -> bool {
    match ran {
        Ran::Stalled { unfinished } => unfinished == wanted,
        Ran::Finished(_) => false,
    }
}

// Whether the driver stalls in the end, with so many tasks unfinished.
fn stalls<R: Wait + RandomSource + AllocGlobal, W: Work>(
    rt: &R,
    driver: Driver<'_, R, W, Ticks>,
    unfinished: usize,
) -> bool {
    match block_on(rt, driver) {
        Ok(ran) => is_stalled(ran, unfinished),
        Err(_) => false,
    }
}

fn stalls_with_two<R: Wait + RandomSource + AllocGlobal>(
    rt: &R,
    alloc: Global,
    executor: Executor<Example>,
) -> bool {
    match driver(rt, alloc, executor, 1) {
        Some(driver) => stalls(rt, driver, 2),
        None => false,
    }
}

// One task loses its wakers and the other keeps one, so nobody will wake them.
#[test]
fn two_of_three_are_never_woken(rt: HostRuntime) {
    match Executor::new(rt.alloc()) {
        Ok(mut executor) => {
            assert!(rt; spawns_three(&rt, rt.alloc(), &mut executor));
            assert!(rt; stalls_with_two(&rt, rt.alloc(), executor));
        }
        Err(_) => assert!(rt; false, "no executor"),
    }
}

// What one poll of the driver answers, if it is ready.
fn poll_once<R: Wait + RandomSource + AllocGlobal, W: Work>(
    rt: &R,
    driver: &mut Driver<'_, R, W, Ticks>,
) -> Option<Option<Ran<W::Out>>> {
    block_on(rt, poll_immediate(driver)).ok()
}

fn is_pending<R: Wait + RandomSource + AllocGlobal, W: Work>(
    rt: &R,
    driver: &mut Driver<'_, R, W, Ticks>,
) -> bool {
    match poll_once(rt, driver) {
        Some(answer) => !is_made(answer),
        None => false,
    }
}

fn stalls_at_once<R: Wait + RandomSource + AllocGlobal, W: Work>(
    rt: &R,
    driver: &mut Driver<'_, R, W, Ticks>,
    unfinished: usize,
) -> bool {
    match poll_once(rt, driver).flatten() {
        Some(ran) => is_stalled(ran, unfinished),
        None => false,
    }
}

fn stalls_at_its_third_poll<R: Wait + RandomSource + AllocGlobal>(
    rt: &R,
    driver: &mut Driver<'_, R, LoseWaker, Ticks>,
) -> bool {
    is_pending(rt, driver) && is_pending(rt, driver) && stalls_at_once(rt, driver, 1)
}

fn answers_twice<R: Wait + RandomSource + AllocGlobal>(
    rt: &R,
    mut driver: Driver<'_, R, LoseWaker, Ticks>,
) -> bool {
    let stalled = stalls_at_its_third_poll(rt, &mut driver);
    stalls(rt, driver, 0) && stalled
}

fn makes_one_turn_a_poll<R: Wait + RandomSource + AllocGlobal>(
    rt: &R,
    alloc: Global,
    executor: Executor<LoseWaker>,
) -> bool {
    match driver(rt, alloc, executor, 2) {
        Some(driver) => answers_twice(rt, driver),
        None => false,
    }
}

// Three polls make a turn each, of which two are idle, and the answer comes with the second; a later poll has nothing left.
#[test]
fn a_poll_makes_one_turn(rt: HostRuntime) {
    match Executor::new(rt.alloc()) {
        Ok(mut executor) => {
            assert!(rt; spawns(&rt, rt.alloc(), &mut executor, 1, LoseWaker::new()));
            assert!(rt; makes_one_turn_a_poll(&rt, rt.alloc(), executor));
        }
        Err(_) => assert!(rt; false, "no executor"),
    }
}

fn is_finished_empty(ran: Ran<u64>) -> bool {
    match ran {
        Ran::Finished(outputs) => outputs.into_vec().is_empty(),
        Ran::Stalled { .. } => false,
    }
}

fn finishes_at_once<R: Wait + RandomSource + AllocGlobal>(
    rt: &R,
    alloc: Global,
    executor: Executor<YieldTimes>,
) -> bool {
    let Some(mut driver) = driver(rt, alloc, executor, 1) else {
        return false;
    };
    let ran = poll_once(rt, &mut driver).flatten();
    drop(driver);
    match ran {
        Some(ran) => is_finished_empty(ran),
        None => false,
    }
}

#[test]
fn no_task_is_no_turn(rt: HostRuntime) {
    match Executor::new(rt.alloc()) {
        Ok(executor) => assert!(rt; finishes_at_once(&rt, rt.alloc(), executor)),
        Err(_) => assert!(rt; false, "no executor"),
    }
}
