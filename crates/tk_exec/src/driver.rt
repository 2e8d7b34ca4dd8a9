//! A future that drives an executor.
ghost use Rattle.std.specs.Prelude.{◌≡◌, ◌+◌, ◌<◌, ◌≤◌, ◌^◌, Some, None, IfOk, IfErr};
ghost use Rattle.tk_exec.specs.declared.error.ExecError.TheVariants.{Memory};
ghost use Rattle.tk_exec.specs.Drives.{idle_after};

use crate::error::ExecError;
use crate::executor::{Executor, Turn};
use crate::outputs::Outputs;
use crate::run::Run;
use crate::work::{Clock, Work};
use futures::Future;
use futures::task::{Context, Poll};
use std::alloc::Global;
use std::marker::Model;
use std::sync::Wait;

/// What a driver answers.
#[derive(Drop)]
pub enum Ran<T: Drop> {
    /// One output for each task, in order of spawn.
    Finished(Outputs<T>),
    /// There were as many idle turns in a row as the driver waits for.
    Stalled {
        /// How many tasks are not finished: at least 1, or 0 where the driver has answered before.
        unfinished: usize,
    },
}

/// Polls the tasks of an executor until all are finished, one turn in each of its own polls, which take no memory of their
/// own.
///
/// It keeps the handle that the cells of its tasks ask for, since a future is passed none.
/// Tasks that are not finished when it stalls, or when it is dropped, make no entry, and count as open for good.
#[derive(Drop)]
pub struct Driver<'a, R: Wait, W: Work, C: Clock + Drop> {
    rt: &'a R,
    run: Option<Run<W>>,
    clock: C,
    idle: u64,
    max_idle: u64,
}

impl<'a, R: Wait, W: Work, C: Clock + Drop> Model for Driver<'a, R, W, C> {
    ghost use Rattle.std.specs.Prelude.{◌<◌};
    ghost use Rattle.tk_exec.specs.Drives.{Driving};

    ghost Value = { Driving W W.Out C };

    ghost view = { λ d. record { tasks = d.run; clock = d.clock; idle = d.idle; max_idle = d.max_idle } };

    ghost invariant = { λ d. d.idle < d.max_idle };
}

// The idle turns in a row, after a turn.
fn idle_after(idle: u64, turn: Turn) -> u64
    requires { idle + 1 < 2 ^ 64 }
    ensures { result ≡ idle_after idle turn }
{
    match turn {
        Turn::Polled(_, _) => 0,
        Turn::Idle => idle + 1,
    }
}

impl<'a, R: Wait, W: Work, C: Clock + Drop> Driver<'a, R, W, C> {
    /// Makes room for the outputs of all tasks. The driver stalls at `max_idle` idle turns in a row. Refused with `Memory`:
    /// the executor and the clock are then handed back.
    pub fn new(
        rt: &'a R,
        alloc: Global,
        executor: Executor<W>,
        clock: C,
        max_idle: u64,
    ) -> Result<Driver<'a, R, W, C>, (ExecError, Executor<W>, C)>
        requires { 1 ≤ max_idle }
        ensures ok { IfOk result (λ driver. driver ≡ record { tasks = Some executor; clock = clock; idle = 0; max_idle = max_idle }) }
        ensures memory { IfErr result (λ back. (back.0 ≡ Memory) × (back.1 ≡ executor) × (back.2 ≡ clock)) }
    {
        match Run::new(alloc, executor) {
            Ok(run) => Ok(Driver {
                rt,
                run: Some(run),
                clock,
                idle: 0,
                max_idle,
            }),
            Err((error, executor)) => Err((error, executor, clock)),
        }
    }
}

impl<R: Wait, W: Work, C: Clock + Drop> Future for Driver<'_, R, W, C> {
    ghost use Rattle.std.specs.Prelude.{⊤};
    ghost use Rattle.futures.specs.Poll.{IfReady, OnPending};
    ghost use Rattle.futures.specs.Task.{Covers, Keeps};
    ghost use Rattle.tk_exec.specs.Drives.{DriverGives, OneTurn};

    type Output = Ran<W::Out>;

    ghost gives = { λ driver ran. DriverGives C.reads W.polls W.gives driver ran };

    fn poll(&mut self, cx: &mut Context<'_>) -> Poll<Ran<W::Out>>
        ensures value { IfReady result (DriverGives C.reads W.polls W.gives self.old) }
        ensures again { OnPending result ⊤ }
        ensures same { OnPending result ((x : _) → DriverGives C.reads W.polls W.gives self.new x → DriverGives C.reads W.polls W.gives self.old x) }
        ensures spent { IfReady result (λ ran. self.new.tasks ≡ None) }
        ensures turned { OnPending result (OneTurn C.reads W.polls W.gives self.old self.new) }
        ensures registered { OnPending result (Covers cx.new (λ _. ⊥)) }
        ensures kept { Keeps cx.old cx.new }
    {
        let Some(mut run) = self.run.take() else {
            return Poll::Ready(Ran::Stalled { unfinished: 0 });
        };
        if run.unfinished() == 0 {
            return Poll::Ready(Ran::Finished(run.into_outputs()));
        }
        let turn = run.turn(self.rt, &mut self.clock);
        let idle = idle_after(self.idle, turn);
        if idle >= self.max_idle {
            return Poll::Ready(Ran::Stalled {
                unfinished: run.unfinished(),
            });
        }
        self.idle = idle;
        self.run = Some(run);
        cx.yield_now()
    }
}
