//! The owner of a task and its wakers, in one hand.
ghost use Rattle.std.specs.Prelude.{◌≡◌, ◌⊎◌, true, false, is_ok, None, Some, IfOk, IfErr, OnOk};
ghost use Rattle.tk_core.specs.declared.reply.Refusal.TheVariants.{HandlesSpent, Memory, NotPolling};
ghost use Rattle.tk_core.specs.declared.reply.Reply.TheVariants.{Done, Number, Shown, Woken};
ghost use Rattle.tk_core.specs.declared.reply.Reply.TheVariants.{Refused as NotDone};
ghost use Rattle.tk_core.specs.declared.task.call.TaskCall.TheVariants.{PollStart, PollEnd, Close, CloneWaker, WakeRef, WakeVal, Release, Read};
ghost use Rattle.tk_core.specs.TaskMeaning.{task_meaning};
ghost use Rattle.tk_cell.specs.Ours.{ours, CallsBeside};
ghost use Rattle.tk_ledgers.specs.Beside.{AllRead, ShowsCallsOf};
ghost use Rattle.tk_ledgers.specs.Callers.{live, IsLive, CallsAs, HandsOut, TakesBack, HoldsOnly, HoldsAllBut};
ghost use Rattle.tk_ledgers.specs.Handles.{sight};
ghost use Rattle.tk_ledgers.specs.Tasks.{is_polling, owner_refusal};

use crate::callers::Callers;
use crate::role::Waking;
use crate::task::{TaskInspector, TaskReceipt, WakerHandle};
use std::marker::Model;
use std::sync::Wait;
use tk_core::{Refusal, TaskCall, TaskRow, WakeReply};
use tk_ids::TaskId;

/// The owner of a task and its wakers, in one hand, which makes the calls of each. The owner is caller 0, and a waker has the number that
/// was answered when it was cloned. The hand shows each of their calls, in the order in which they were made.
///
/// Who makes all calls of a task by one hand knows what an inspector reads beside it ([`TaskCallers::read_beside`]): the row after just
/// these calls. A waker may be handed out, as to a thread, and be taken back ([`TaskCallers::part`], [`TaskCallers::take_back`]).
///
/// It keeps whether a poll is open, so that [`TaskCallers::is_polling`] makes no call. One that is dropped makes no entry.
#[derive(Drop)]
pub struct TaskCallers {
    id: TaskId,
    polling: bool,
    callers: Callers<TaskRow, Waking>,
}

impl Model for TaskCallers {
    ghost use Rattle.std.specs.Prelude.{◌≡◌};
    ghost use Rattle.tk_ledgers.specs.Handles.{sight};
    ghost use Rattle.tk_ledgers.specs.Tasks.{TaskSight, is_polling};

    ghost Value = { TaskSight };

    ghost view = { λ h. sight h.id h.callers };

    ghost invariant = { λ h. is_polling (sight h.id h.callers) ≡ h.polling };
}

impl TaskCallers {
    pub(crate) fn new(id: TaskId, polling: bool, callers: Callers<TaskRow, Waking>) -> TaskCallers
        requires { is_polling (sight id callers) ≡ polling }
        ensures { result ≡ sight id callers }
    {
        TaskCallers {
            id,
            polling,
            callers,
        }
    }

    /// The task.
    pub fn id(&self) -> TaskId
        ensures { result ≡ self.now.id }
    {
        self.id
    }

    /// Whether a poll is open. No entry is made.
    pub fn is_polling(&self) -> bool
        ensures { result ≡ is_polling self.now }
    {
        self.polling
    }

    #[tactic(auto, using(crate::proofs::TaskLemmas::start_attempts))]
    /// The owner starts a poll. Refused with `Closed`, `AlreadyPolling`.
    pub fn start_poll<R: Wait>(&mut self, rt: &R, moment: u64) -> Result<(), Refusal>
        ensures id { self.new.id ≡ self.old.id }
        ensures ledger { self.new.token.ledger ≡ self.old.token.ledger }
        ensures ok { OnOk result ((owner_refusal self.old (PollStart moment) ≡ None) × CallsAs task_meaning self.old.token 0 (PollStart moment) Done self.new.token) }
        ensures err { IfErr result (λ refusal. (owner_refusal self.old (PollStart moment) ≡ Some refusal) × CallsAs task_meaning self.old.token 0 (PollStart moment) (NotDone refusal) self.new.token) }
    {
        match self.callers.attempt_as(rt, 0, TaskCall::PollStart(moment)) {
            Ok(()) => {
                self.polling = true;
                Ok(())
            }
            Err(refusal) => Err(refusal),
        }
    }

    #[tactic(auto, using(crate::proofs::TaskLemmas::end_attempts))]
    /// The owner ends the open poll. Refused with `Closed`, `NotPolling`.
    pub fn end_poll<R: Wait>(&mut self, rt: &R, moment: u64) -> Result<(), Refusal>
        ensures id { self.new.id ≡ self.old.id }
        ensures ledger { self.new.token.ledger ≡ self.old.token.ledger }
        ensures ok { OnOk result ((owner_refusal self.old (PollEnd moment) ≡ None) × CallsAs task_meaning self.old.token 0 (PollEnd moment) Done self.new.token) }
        ensures err { IfErr result (λ refusal. (owner_refusal self.old (PollEnd moment) ≡ Some refusal) × CallsAs task_meaning self.old.token 0 (PollEnd moment) (NotDone refusal) self.new.token) }
    {
        match self.callers.attempt_as(rt, 0, TaskCall::PollEnd(moment)) {
            Ok(()) => {
                self.polling = false;
                Ok(())
            }
            Err(refusal) => Err(refusal),
        }
    }

    #[tactic(auto, using(crate::proofs::TaskLemmas::close_attempts))]
    /// The owner closes the task. Refused with `Closed`, `AlreadyPolling`. Its wakers may still wake, to no effect, and be released.
    pub fn close<R: Wait>(&mut self, rt: &R, moment: u64) -> Result<(), Refusal>
        ensures id { self.new.id ≡ self.old.id }
        ensures ledger { self.new.token.ledger ≡ self.old.token.ledger }
        ensures ok { OnOk result ((owner_refusal self.old (Close moment) ≡ None) × CallsAs task_meaning self.old.token 0 (Close moment) Done self.new.token) }
        ensures err { IfErr result (λ refusal. (owner_refusal self.old (Close moment) ≡ Some refusal) × CallsAs task_meaning self.old.token 0 (Close moment) (NotDone refusal) self.new.token) }
    {
        self.callers.attempt_as(rt, 0, TaskCall::Close(moment))
    }

    #[tactic(auto, using(crate::proofs::TaskLemmas::reference_wakes))]
    /// The task wakes itself, within its open poll. Refused with `NotPolling`: then nothing is done.
    pub fn self_wake<R: Wait>(&mut self, rt: &R, moment: u64) -> Result<WakeReply, Refusal>
        ensures id { self.new.id ≡ self.old.id }
        ensures ledger { self.new.token.ledger ≡ self.old.token.ledger }
        ensures exact { is_ok result ≡ is_polling self.old }
        ensures ok { IfOk result (λ found. CallsAs task_meaning self.old.token 0 (WakeRef moment true) (Woken found) self.new.token) }
        ensures err { IfErr result (λ refusal. (refusal ≡ NotPolling) × (self.new ≡ self.old)) }
    {
        if !self.polling {
            return Err(Refusal::NotPolling);
        }
        Ok(self.callers.wake_as(rt, 0, TaskCall::WakeRef(moment, true)))
    }

    #[tactic(auto, using(crate::proofs::TaskLemmas::clone_draws))]
    /// Makes a waker: the owner does, who is 0, or a live waker. It answers the new waker's number. Refused with `HandlesSpent`.
    pub fn clone_waker<R: Wait>(&mut self, rt: &R, by: u64) -> Result<u64, Refusal>
        requires { (by ≡ 0) ⊎ IsLive task_meaning self.old.token.view by }
        ensures id { self.new.id ≡ self.old.id }
        ensures ledger { self.new.token.ledger ≡ self.old.token.ledger }
        ensures ok { IfOk result (λ waker. CallsAs task_meaning self.old.token by CloneWaker (Number waker) self.new.token) }
        ensures err { IfErr result (λ refusal. (refusal ≡ HandlesSpent) × CallsAs task_meaning self.old.token by CloneWaker (NotDone HandlesSpent) self.new.token) }
    {
        self.callers.draw_as(rt, by, TaskCall::CloneWaker)
    }

    #[tactic(auto, using(crate::proofs::TaskLemmas::reference_wakes))]
    /// A live waker wakes the task from outside, and stays.
    pub fn wake_by_ref<R: Wait>(&mut self, rt: &R, waker: u64, moment: u64) -> WakeReply
        requires { IsLive task_meaning self.old.token.view waker }
        ensures id { self.new.id ≡ self.old.id }
        ensures ledger { self.new.token.ledger ≡ self.old.token.ledger }
        ensures entry { CallsAs task_meaning self.old.token waker (WakeRef moment false) (Woken result) self.new.token }
    {
        self.callers
            .wake_as(rt, waker, TaskCall::WakeRef(moment, false))
    }

    #[tactic(auto, using(crate::proofs::TaskLemmas::value_wakes))]
    /// A live waker wakes the task from outside, and is used up: one wake and one drop. It is no live one then.
    pub fn wake<R: Wait>(&mut self, rt: &R, waker: u64, moment: u64) -> WakeReply
        requires { IsLive task_meaning self.old.token.view waker }
        ensures id { self.new.id ≡ self.old.id }
        ensures ledger { self.new.token.ledger ≡ self.old.token.ledger }
        ensures entry { CallsAs task_meaning self.old.token waker (WakeVal moment false) (Woken result) self.new.token }
    {
        self.callers
            .wake_as(rt, waker, TaskCall::WakeVal(moment, false))
    }

    #[tactic(auto, using(crate::proofs::TaskLemmas::release_done))]
    /// A live waker is dropped without a wake. It is no live one then.
    pub fn release<R: Wait>(&mut self, rt: &R, waker: u64)
        requires { IsLive task_meaning self.old.token.view waker }
        ensures id { self.new.id ≡ self.old.id }
        ensures ledger { self.new.token.ledger ≡ self.old.token.ledger }
        ensures entry { CallsAs task_meaning self.old.token waker Release Done self.new.token }
    {
        self.callers.done_as(rt, waker, TaskCall::Release)
    }

    /// Hands a live waker out, as to a thread. No entry is made. Refused with `Memory`: then nothing is done.
    ///
    /// Until it is taken back, the calls of this hand are those of its other callers.
    pub fn part(&mut self, waker: u64) -> Result<WakerHandle, Refusal>
        requires { IsLive task_meaning self.old.token.view waker }
        ensures id { self.new.id ≡ self.old.id }
        ensures ledger { self.new.token.ledger ≡ self.old.token.ledger }
        ensures made_id { IfOk result (λ made. made.id ≡ self.old.id) }
        ensures ok { IfOk result (λ made. HandsOut task_meaning self.old.token waker self.new.token made.token) }
        ensures waker { IfOk result (λ made. HoldsOnly task_meaning CloneWaker made.token.view) }
        ensures err { IfErr result (λ refusal. (refusal ≡ Memory) × (self.new ≡ self.old)) }
    {
        let handle = self.callers.part(waker)?;
        Ok(WakerHandle::new(self.id, handle))
    }

    /// Takes back a waker that was handed out, from what it has seen ([`WakerHandle::retire`], or its last call). No entry is made. What the
    /// receipt has of a histogram is let go.
    ///
    /// Its calls and those of this hand are then interleaved, each list in its order ([`tk_cell::laws::joined_calls_are_interleaved`]).
    pub fn take_back<R: Wait>(&mut self, rt: &R, receipt: TaskReceipt)
        requires ledger { receipt.token.ledger ≡ self.old.token.ledger }
        requires wakers { HoldsOnly task_meaning CloneWaker receipt.token.view }
        ensures id { self.new.id ≡ self.old.id }
        ensures ledger { self.new.token.ledger ≡ self.old.token.ledger }
        ensures back { TakesBack task_meaning self.old.token receipt.token self.new.token }
    {
        self.callers.take_back(rt, receipt.into_token())
    }

    /// An inspector of the task reads the row, beside this hand.
    ///
    /// The row is that after the calls of this hand, in their order, and after no others, where the inspector has only read, and holds
    /// each number that was answered to a call of this hand and isn't in it: so where no waker is handed out. It stays so
    /// ([`crate::laws::a_hand_holds_whom_it_made`]).
    pub fn read_beside<R: Wait>(&mut self, rt: &R, inspector: &mut TaskInspector) -> TaskRow
        requires { inspector.old.token.ledger ≡ self.old.token.ledger }
        ensures id { self.new.id ≡ self.old.id }
        ensures ledger { self.new.token.ledger ≡ self.old.token.ledger }
        ensures live { live task_meaning self.new.token.view ≡ live task_meaning self.old.token.view }
        ensures inspector { (inspector.new.id ≡ inspector.old.id) × (inspector.new.token.ledger ≡ inspector.old.token.ledger) × (inspector.new.times ≡ inspector.old.times) }
        ensures held { (self.new.token.view.held ≡ self.old.token.view.held) × (inspector.new.token.view.held ≡ inspector.old.token.view.held) }
        ensures beside { CallsBeside task_meaning self.old.token.view inspector.old.token.view Read (Shown result) self.new.token.view inspector.new.token.view }
        ensures row { HoldsAllBut task_meaning inspector.old.token.view.held self.old.token.view → AllRead task_meaning Read (ours inspector.old.token.view)
            → ShowsCallsOf task_meaning Read self.old.token.view self.new.token.view inspector.new.token.view result }
    {
        inspector.read_beside(rt, &mut self.callers)
    }
}
