//! A work whose polls are recorded.
ghost use Rattle.std.specs.Prelude.{◌≡◌, false, not, Some, None, IfOk, IfErr, OnErr, is_ok, is_some};
ghost use Rattle.futures.specs.Poll.{IfReady, OnPending};
ghost use Rattle.tk_core.specs.declared.reply.Refusal.TheVariants.{Closed};
ghost use Rattle.tk_ledgers.specs.Tasks.{is_polling};
ghost use Rattle.tk_exec.specs.Polls.{tracked, Polled, ClosedAt};
ghost use Rattle.tk_exec.specs.Seats.{IsRead};
ghost use Rattle.tk_exec.specs.Futures.{TaskHears};

use crate::future_work::FutureWork;
use crate::pollable::Pollable;
use crate::work::{Clock, Work};
use futures::task::Poll;
use std::marker::Model;
use std::sync::Wait;
use tk_core::Refusal;
use tk_ids::TaskId;
use tk_ledgers::{TaskOwner, TaskReceipt};

/// A work with the owner of its task, until it is ready, and with the task's receipt from then on.
#[derive(Drop)]
pub struct Instrumented<W: Work> {
    id: TaskId,
    owner: Option<TaskOwner>,
    receipt: Option<TaskReceipt>,
    work: W,
}

impl<W: Work> Model for Instrumented<W> {
    ghost use Rattle.tk_exec.specs.Polls.{Tracked, IsAtRest};

    ghost Value = { Tracked W };

    ghost view = { λ t. record { id = t.id; owner = t.owner; receipt = t.receipt; work = t.work } };

    ghost invariant = { λ t. IsAtRest t.id t.owner t.receipt };
}

impl<W: Work> Instrumented<W> {
    /// A work with the owner of its task, which has no open poll.
    pub fn new(owner: TaskOwner, work: W) -> Instrumented<W>
        requires { is_polling owner ≡ false }
        ensures { result ≡ tracked owner work }
    {
        Instrumented {
            id: owner.id(),
            owner: Some(owner),
            receipt: None,
            work,
        }
    }

    /// The task.
    pub fn id(&self) -> TaskId
        ensures { result ≡ self.now.id }
    {
        self.id
    }

    /// Whether the work was ready.
    pub fn is_finished(&self) -> bool
        ensures { result ≡ is_some self.now.receipt }
    {
        self.receipt.is_some()
    }

    /// The receipt, once it is finished.
    pub(crate) fn into_receipt(self) -> Option<TaskReceipt>
        ensures { result ≡ self.receipt }
    {
        self.receipt
    }

    /// The receipt of a work that was ready. One that isn't has its task closed at this moment, and is dropped.
    ///
    /// A task that is dropped without it makes no entry, and counts as open for good.
    pub fn close<R: Wait>(self, rt: &R, moment: u64) -> TaskReceipt
        ensures { ClosedAt moment self.owner self.receipt result }
    {
        match (self.owner, self.receipt) {
            (Some(owner), _) => {
                let Ok(receipt) = owner.close(rt, moment) else {
                    unreachable!()
                };
                receipt
            }
            (None, Some(receipt)) => receipt,
            (None, None) => unreachable!(),
        }
    }

    /// Whether the task is scheduled, by a reading of its owner. One that is finished isn't, and nothing is read.
    pub(crate) fn is_scheduled<R: Wait>(&mut self, rt: &R) -> bool
        ensures { IsRead self.old result self.new }
    {
        let Some(mut owner) = self.owner.take() else {
            return false;
        };
        let row = owner.read(rt);
        self.owner = Some(owner);
        row.scheduled
    }

    /// Polls the work in a scope of the first reading of the clock, and ends the poll at the second. A task whose work is
    /// ready is closed at that moment. Refused with `Closed`, once it is finished.
    pub fn poll_once<R: Wait, C: Clock>(
        &mut self,
        rt: &R,
        clock: &mut C,
    ) -> Result<Poll<W::Out>, Refusal>
        ensures exact { is_ok result ≡ not (is_some self.old.receipt) }
        ensures open { is_ok result ≡ is_some self.old.owner }
        ensures closed { IfErr result (λ refusal. refusal ≡ Closed) }
        ensures left { OnErr result ((self.new ≡ self.old) × (clock.new ≡ clock.old)) }
        ensures polled { IfOk result (λ answer. Polled C.reads W.polls answer self.old self.new clock.old clock.new) }
        ensures value { IfOk result (λ answer. IfReady answer (W.gives self.old.work)) }
        ensures same { IfOk result (λ answer. OnPending answer ((x : _) → W.gives self.new.work x → W.gives self.old.work x)) }
    {
        let Some(mut owner) = self.owner.take() else {
            return Err(Refusal::Closed);
        };
        let first = clock.now();
        let Ok(()) = owner.start_poll(rt, first) else {
            unreachable!()
        };
        let Ok(mut scope) = owner.scope(first) else {
            unreachable!()
        };
        let answer = self.work.poll(rt, &mut scope);
        let mut owner = scope.finish();
        let second = clock.now();
        let Ok(()) = owner.end_poll(rt, second) else {
            unreachable!()
        };
        match answer {
            Poll::Ready(out) => {
                let Ok(receipt) = owner.close(rt, second) else {
                    unreachable!()
                };
                self.receipt = Some(receipt);
                Ok(Poll::Ready(out))
            }
            Poll::Pending => {
                self.owner = Some(owner);
                Ok(Poll::Pending)
            }
        }
    }
}

impl<F: Pollable> Instrumented<FutureWork<F>>
where
    F::Output: Drop,
{
    /// Lets its future hear, as [`FutureWork::hear`] says. A wake that is recorded shows in the next reading.
    pub fn hear<R: Wait>(&mut self, rt: &R, moment: u64) -> bool
        ensures { TaskHears self.old moment result self.new }
    {
        self.work.hear(rt, moment)
    }
}
