//! Inner: a task of an executor.
ghost use Rattle.std.specs.Prelude.{◌≡◌, true, false, Some, None, is_some, IfSome};
ghost use Rattle.tk_exec.specs.Polls.{ClosedAt};
ghost use Rattle.tk_exec.specs.Seats.{LookedAt, PolledAt};
ghost use Rattle.tk_exec.specs.Futures.{SeatHears};

use crate::future_work::FutureWork;
use crate::instrumented::Instrumented;
use crate::pollable::Pollable;
use crate::work::{Clock, Work};
use futures::task::Poll;
use std::marker::Model;
use std::sync::Wait;
use tk_ids::TaskId;
use tk_ledgers::TaskReceipt;

/// A task, and its output once it is finished.
#[derive(Drop)]
pub struct Slot<W: Work> {
    task: Instrumented<W>,
    out: Option<W::Out>,
}

impl<W: Work> Model for Slot<W> {
    ghost use Rattle.std.specs.Prelude.{◌≡◌, is_some};
    ghost use Rattle.tk_exec.specs.Seats.{Seat};

    ghost Value = { Seat W W.Out };

    ghost view = { λ s. record { task = s.task; out = s.out } };

    ghost invariant = { λ s. is_some s.out ≡ is_some s.task.receipt };
}

impl<W: Work> Slot<W> {
    /// A task that is not finished.
    pub fn new(task: Instrumented<W>) -> Slot<W>
        requires { is_some task.receipt ≡ false }
        ensures task { result.task ≡ task }
        ensures out { result.out ≡ None }
    {
        Slot { task, out: None }
    }

    /// The task.
    pub fn id(&self) -> TaskId
        ensures { result ≡ self.now.task.id }
    {
        self.task.id()
    }

    /// Whether the task is finished.
    pub fn is_finished(&self) -> bool
        ensures { result ≡ is_some self.now.out }
    {
        self.out.is_some()
    }

    /// The output of a task that is finished.
    pub fn into_output(self) -> Option<W::Out>
        ensures { result ≡ self.out }
    {
        self.out
    }

    /// The output and the receipt of a task that is finished.
    pub fn into_answer(self) -> Option<(W::Out, TaskReceipt)>
        ensures exact { is_some result ≡ is_some self.out }
        ensures out { IfSome result (λ answer. self.out ≡ Some answer.0) }
        ensures receipt { IfSome result (λ answer. self.task.receipt ≡ Some answer.1) }
    {
        let receipt = self.task.into_receipt();
        match (self.out, receipt) {
            (Some(out), Some(receipt)) => Some((out, receipt)),
            _ => None,
        }
    }

    /// The receipt of a task that is finished. One that isn't is closed at this moment.
    pub fn close<R: Wait>(self, rt: &R, moment: u64) -> TaskReceipt
        ensures { ClosedAt moment self.task.owner self.task.receipt result }
    {
        self.task.close(rt, moment)
    }

    /// Gives the task back.
    pub fn into_task(self) -> Instrumented<W>
        ensures { result ≡ self.task }
    {
        self.task
    }

    /// Whether the task is scheduled, by a reading of its owner. A finished one isn't.
    pub fn look<R: Wait>(&mut self, rt: &R) -> bool
        ensures { LookedAt self.old result self.new }
    {
        self.task.is_scheduled(rt)
    }

    /// Polls the task once, and keeps its output.
    pub fn poll<R: Wait, C: Clock>(&mut self, rt: &R, clock: &mut C) -> bool
        requires { is_some self.old.task.owner ≡ true }
        ensures { PolledAt C.reads W.polls W.gives self.old result self.new clock.old clock.new }
    {
        match self.task.poll_once(rt, clock) {
            Ok(Poll::Ready(out)) => {
                self.out = Some(out);
                true
            }
            Ok(Poll::Pending) => false,
            Err(_) => unreachable!(),
        }
    }
}

impl<F: Pollable> Slot<FutureWork<F>>
where
    F::Output: Drop,
{
    /// Lets the task's future hear.
    pub fn hear<R: Wait>(&mut self, rt: &R, moment: u64) -> bool
        ensures { SeatHears self.old moment result self.new }
    {
        self.task.hear(rt, moment)
    }
}
