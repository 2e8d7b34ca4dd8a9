//! Futures as works: the ends of channels, joined, one that asks to be polled again, and one that says what a poll of it does.
ghost use Rattle.std.specs.Prelude.{◌≡◌, ◌+◌, ◌<◌};

use super::given::{Ticks, id, inspected, owner, spawns};
use futures::Future;
use futures::channel::oneshot::{Canceled, Receiver, Sender, channel};
use futures::future::{Join, join};
use futures::task::{Context, Poll};
use std::alloc::AllocGlobal;
use std::random::RandomSource;
use std::sync::Wait;
use tk_exec::{Executor, FutureWork, Instrumented, Pollable, Turn};
use tk_ledgers::TaskInspector;

/// Asks to be polled again so many times, and is ready then.
#[derive(Drop)]
struct AsksAgain {
    left: u64,
}

impl Future for AsksAgain {
    type Output = u64;

    fn poll(&mut self, cx: &mut Context<'_>) -> Poll<u64> {
        if self.left == 0 {
            return Poll::Ready(7);
        }
        self.left -= 1;
        cx.yield_now()
    }
}

/// Is ready at its third poll. It counts its polls, and says so of each.
#[derive(Drop)]
struct Third {
    polls: u64,
}

impl Pollable for Third {
    type Output = u64;

    ghost may_poll = { λ third. third.polls < 3 };

    ghost polls = { λ third answer third'. third'.polls ≡ third.polls + 1 };

    fn poll_once(&mut self, cx: &mut Context<'_>) -> Poll<u64> {
        self.polls += 1;
        if self.polls == 3 {
            Poll::Ready(self.polls)
        } else {
            cx.yield_now()
        }
    }
}

type Both = Join<Receiver<u64>, Receiver<u64>, Result<u64, Canceled>, Result<u64, Canceled>>;

// The task of a future, and who reads it.
fn tracked<R: Wait + RandomSource + AllocGlobal, F: Pollable>(
    rt: &R,
    future: F,
) -> Option<(Instrumented<FutureWork<F>>, TaskInspector)>
where
    F::Output: Drop,
    requires { F.may_poll future }
{
    let work = FutureWork::new(rt, future).ok();
    let (owner, work) = owner(rt, rt.alloc(), 1).zip(work)?;
    inspected(rt, owner, work)
}

// Whether the row says so of being scheduled, of wakes, of those by itself, of clones and of drops.
fn reads<R: Wait>(
    rt: &R,
    inspector: &mut TaskInspector,
    scheduled: bool,
    counts: (u64, u64, u64, u64),
) -> bool {
    let row = inspector.read(rt);
    row.scheduled == scheduled && (row.wakes, row.self_wakes, row.clones, row.drops) == counts
}

// Whether something is heard, once.
fn hears_once<R: Wait>(rt: &R, task: &mut Instrumented<FutureWork<Both>>, moment: u64) -> bool {
    task.hear(rt, moment) && !task.hear(rt, moment)
}

fn waits<R: Wait>(rt: &R, task: &mut Instrumented<FutureWork<Both>>, clock: &mut Ticks) -> bool {
    matches!(task.poll_once(rt, clock), Ok(Poll::Pending))
}

fn gets<R: Wait>(rt: &R, task: &mut Instrumented<FutureWork<Both>>, clock: &mut Ticks) -> bool {
    matches!(task.poll_once(rt, clock), Ok(Poll::Ready((Ok(4), Ok(5)))))
}

// The first value wakes the task, which waits for the second one too.
fn waits_for_two<R: Wait>(
    rt: &R,
    task: &mut Instrumented<FutureWork<Both>>,
    inspector: &mut TaskInspector,
    clock: &mut Ticks,
    first: Sender<u64>,
) -> bool {
    waits(rt, task, clock)
        && !task.hear(rt, 10)
        && reads(rt, inspector, false, (0, 0, 1, 0))
        && first.send(4).is_ok()
        && hears_once(rt, task, 20)
        && reads(rt, inspector, true, (1, 0, 1, 0))
        && waits(rt, task, clock)
        && reads(rt, inspector, false, (1, 0, 1, 0))
}

fn gets_two<R: Wait>(
    rt: &R,
    task: &mut Instrumented<FutureWork<Both>>,
    inspector: &mut TaskInspector,
    clock: &mut Ticks,
    second: Sender<u64>,
) -> bool {
    second.send(5).is_ok()
        && hears_once(rt, task, 30)
        && gets(rt, task, clock)
        && reads(rt, inspector, false, (2, 0, 1, 1))
        && !task.hear(rt, 40)
}

fn is_woken_by_channels<R: Wait + RandomSource + AllocGlobal>(rt: &R) -> bool {
    let channels = channel(rt.alloc()).ok().zip(channel(rt.alloc()).ok());
    let Some(((first, a), (second, b))) = channels else {
        return false;
    };
    let Some((mut task, mut inspector)) = tracked(rt, join(a, b)) else {
        drop(first);
        drop(second);
        return false;
    };
    let mut clock = Ticks::new();
    let waited = waits_for_two(rt, &mut task, &mut inspector, &mut clock, first);
    let got = gets_two(rt, &mut task, &mut inspector, &mut clock, second);
    drop(task);
    drop(inspector);
    waited && got
}

#[test]
fn two_channels_wake_the_task_that_joins_them(rt: HostRuntime) {
    assert!(rt; is_woken_by_channels(&rt));
}

fn asks_and_gets<R: Wait>(
    rt: &R,
    task: &mut Instrumented<FutureWork<AsksAgain>>,
    inspector: &mut TaskInspector,
    clock: &mut Ticks,
) -> bool {
    task.poll_once(rt, clock) == Ok(Poll::Pending)
        && reads(rt, inspector, true, (1, 1, 1, 0))
        && !task.hear(rt, 10)
        && task.poll_once(rt, clock) == Ok(Poll::Ready(7))
        && reads(rt, inspector, false, (1, 1, 1, 1))
}

fn wakes_itself<R: Wait + RandomSource + AllocGlobal>(rt: &R) -> bool {
    match tracked(rt, AsksAgain { left: 1 }) {
        Some((mut task, mut inspector)) => {
            let got = asks_and_gets(rt, &mut task, &mut inspector, &mut Ticks::new());
            drop(task);
            drop(inspector);
            got
        }
        None => false,
    }
}

#[test]
fn a_future_that_asks_again_wakes_its_task_by_itself(rt: HostRuntime) {
    assert!(rt; wakes_itself(&rt));
}

// Whether the third poll of a task is the one that is ready.
fn is_ready_third<R: Wait, F: Pollable>(
    rt: &R,
    task: &mut Instrumented<FutureWork<F>>,
    clock: &mut Ticks,
) -> bool
where
    F::Output: Drop,
{
    matches!(task.poll_once(rt, clock), Ok(Poll::Pending))
        && matches!(task.poll_once(rt, clock), Ok(Poll::Pending))
        && matches!(task.poll_once(rt, clock), Ok(Poll::Ready(_)))
}

fn is_polled_three_times<R: Wait + RandomSource + AllocGlobal, F: Pollable>(
    rt: &R,
    future: F,
) -> bool
where
    F::Output: Drop,
    requires { F.may_poll future }
{
    match tracked(rt, future) {
        Some((mut task, inspector)) => {
            let ready = is_ready_third(rt, &mut task, &mut Ticks::new());
            drop(task);
            drop(inspector);
            ready
        }
        None => false,
    }
}

#[test]
fn a_future_that_counts_its_polls_is_ready_in_the_third(rt: HostRuntime) {
    assert!(rt; is_polled_three_times(&rt, Third { polls: 0 }));
}

type Receiving = Executor<FutureWork<Receiver<u64>>>;

fn receives<R: Wait + RandomSource + AllocGlobal>(
    rt: &R,
    executor: &mut Receiving,
    n: u64,
) -> Option<Sender<u64>> {
    let (sender, receiver) = channel(rt.alloc()).ok()?;
    let (sender, work) = Some(sender).zip(FutureWork::new(rt, receiver).ok())?;
    spawns(rt, rt.alloc(), executor, n, work).then_some(sender)
}

fn turns<R: Wait>(rt: &R, executor: &mut Receiving, clock: &mut Ticks, wanted: Turn) -> bool {
    executor.turn(rt, clock) == wanted
}

// The second of two tasks is sent a value, and is polled once the executor has heard of it.
fn hears_the_second<R: Wait>(
    rt: &R,
    executor: &mut Receiving,
    clock: &mut Ticks,
    second: Sender<u64>,
) -> bool {
    let Some((one, two)) = id(1).zip(id(2)) else {
        drop(second);
        return false;
    };
    let waited = turns(rt, executor, clock, Turn::Polled(one, false))
        && turns(rt, executor, clock, Turn::Polled(two, false))
        && turns(rt, executor, clock, Turn::Idle);
    let sent = second.send(6).is_ok() && turns(rt, executor, clock, Turn::Idle);
    executor.hear(rt, 50);
    waited
        && sent
        && turns(rt, executor, clock, Turn::Polled(two, true))
        && turns(rt, executor, clock, Turn::Idle)
}

fn polls_what_was_sent<R: Wait + RandomSource + AllocGlobal>(
    rt: &R,
    executor: &mut Receiving,
) -> bool {
    let first = receives(rt, executor, 1);
    let second = receives(rt, executor, 2);
    let Some((first, second)) = first.zip(second) else {
        return false;
    };
    let heard = hears_the_second(rt, executor, &mut Ticks::new(), second);
    drop(first);
    heard
}

#[test]
fn an_executor_hears_of_a_value_that_was_sent(rt: HostRuntime) {
    match Executor::new(rt.alloc()) {
        Ok(mut executor) => {
            assert!(rt; polls_what_was_sent(&rt, &mut executor));
            drop(executor);
        }
        Err(_) => assert!(rt; false, "no executor"),
    }
}
