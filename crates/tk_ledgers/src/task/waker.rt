//! Those who wake a task.
ghost use Rattle.std.specs.Prelude.{◌≡◌, false, IfOk, IfErr};
ghost use Rattle.tk_core.specs.declared.task.call.TaskCall.TheVariants.{CloneWaker, WakeVal, WakeRef, Release};
ghost use Rattle.tk_core.specs.declared.reply.Reply.TheVariants.{Done, Woken};
ghost use Rattle.tk_core.specs.TaskMeaning.{task_meaning};
ghost use Rattle.tk_cell.specs.Calls.{Calls};
ghost use Rattle.tk_ledgers.specs.Handles.{sight, Drew, NotDrawn};
ghost use Rattle.tk_ledgers.specs.Tasks.{names};

use crate::handle::Handle;
use crate::role::Waking;
use crate::task::{Origin, TaskReceipt};
use std::marker::Model;
use std::sync::Wait;
use tk_core::{Refusal, TaskCall, TaskRow, WakeReply};
use tk_ids::TaskId;

/// Who wakes a task: by reference any number of times, and then once by value, or it is released.
///
/// One that is dropped without such a last call makes no entry: it counts as live for good, and a task that nobody can wake
/// any more doesn't show as one. Its last call is [`WakerHandle::wake`], [`WakerHandle::wake_from_outside`] or
/// [`WakerHandle::release`].
#[derive(Drop)]
pub struct WakerHandle {
    id: TaskId,
    handle: Handle<TaskRow, Waking>,
}

impl Model for WakerHandle {
    ghost use Rattle.tk_ledgers.specs.Handles.{sight};
    ghost use Rattle.tk_ledgers.specs.Tasks.{TaskSight};

    ghost Value = { TaskSight };

    ghost view = { λ h. sight h.id h.handle };
}

impl WakerHandle {
    pub(crate) fn new(id: TaskId, handle: Handle<TaskRow, Waking>) -> WakerHandle
        ensures { result ≡ sight id handle }
    {
        WakerHandle { id, handle }
    }

    /// The task that it wakes.
    pub fn task(&self) -> TaskId
        ensures { result ≡ self.now.id }
    {
        self.id
    }

    /// Its number among the handles of the task.
    pub fn number(&self) -> u64
        ensures { result ≡ self.now.token.view.caller }
    {
        self.handle.number()
    }

    /// Makes a further waker. Refused with `Memory`, `HandlesSpent`.
    #[tactic(auto, using(crate::proofs::TaskLemmas::clone_draws))]
    pub fn clone_waker<R: Wait>(&mut self, rt: &R) -> Result<WakerHandle, Refusal>
        ensures id { self.new.id ≡ self.old.id }
        ensures ledger { self.new.token.ledger ≡ self.old.token.ledger }
        ensures made_id { IfOk result (λ made. made.id ≡ self.old.id) }
        ensures made_ledger { IfOk result (λ made. made.token.ledger ≡ self.old.token.ledger) }
        ensures ok { IfOk result (λ made. Drew task_meaning self.old.token CloneWaker self.new.token made.token) }
        ensures err { IfErr result (λ refusal. NotDrawn task_meaning self.old.token CloneWaker refusal self.new.token) }
    {
        let handle = self.handle.draw::<Waking, R>(rt, TaskCall::CloneWaker)?;
        Ok(WakerHandle::new(self.id, handle))
    }

    /// Wakes the task, and uses the waker up: one wake and one drop. It is a self-wake exactly where the origin names the task.
    #[tactic(auto, using(crate::proofs::TaskLemmas::value_wakes))]
    pub fn wake<R: Wait>(self, rt: &R, moment: u64, origin: Origin<'_>) -> (WakeReply, TaskReceipt)
        ensures id { result.1.id ≡ self.id }
        ensures ledger { result.1.token.ledger ≡ self.token.ledger }
        ensures entry { Calls task_meaning self.token.view (WakeVal moment (names origin.entry self.id)) (Woken result.0) result.1.token.view }
    {
        let from_self = origin.names(self.id);
        let id = self.id;
        let handle = self.handle;
        let (found, token) = handle.last_wake(rt, TaskCall::WakeVal(moment, from_self));
        (found, TaskReceipt::new(id, token))
    }

    /// Wakes the task, and uses the waker up, as [`WakerHandle::wake`] does with the origin [`Origin::outside`]: never a self-wake.
    pub fn wake_from_outside<R: Wait>(self, rt: &R, moment: u64) -> (WakeReply, TaskReceipt)
        ensures id { result.1.id ≡ self.id }
        ensures ledger { result.1.token.ledger ≡ self.token.ledger }
        ensures entry { Calls task_meaning self.token.view (WakeVal moment false) (Woken result.0) result.1.token.view }
    {
        self.wake(rt, moment, Origin::outside())
    }

    /// Wakes the task. It is a self-wake exactly where the origin names the task.
    #[tactic(auto, using(crate::proofs::TaskLemmas::reference_wakes))]
    pub fn wake_by_ref<R: Wait>(&mut self, rt: &R, moment: u64, origin: Origin<'_>) -> WakeReply
        ensures id { self.new.id ≡ self.old.id }
        ensures ledger { self.new.token.ledger ≡ self.old.token.ledger }
        ensures entry { Calls task_meaning self.old.token.view (WakeRef moment (names origin.entry self.old.id)) (Woken result) self.new.token.view }
    {
        let from_self = origin.names(self.id);
        self.handle.wake(rt, TaskCall::WakeRef(moment, from_self))
    }

    /// Wakes the task, as [`WakerHandle::wake_by_ref`] does with the origin [`Origin::outside`]: never a self-wake.
    pub fn wake_by_ref_from_outside<R: Wait>(&mut self, rt: &R, moment: u64) -> WakeReply
        ensures id { self.new.id ≡ self.old.id }
        ensures ledger { self.new.token.ledger ≡ self.old.token.ledger }
        ensures entry { Calls task_meaning self.old.token.view (WakeRef moment false) (Woken result) self.new.token.view }
    {
        self.wake_by_ref(rt, moment, Origin::outside())
    }

    /// Drops the waker without a wake.
    #[tactic(auto, using(crate::proofs::TaskLemmas::release_done))]
    pub fn release<R: Wait>(self, rt: &R) -> TaskReceipt
        ensures id { result.id ≡ self.id }
        ensures ledger { result.token.ledger ≡ self.token.ledger }
        ensures entry { Calls task_meaning self.token.view Release Done result.token.view }
    {
        let id = self.id;
        TaskReceipt::new(id, self.handle.last_done(rt, TaskCall::Release))
    }

    /// Makes no more calls by this handle. No entry is made: whom the receipt goes back to goes on as this waker
    /// ([`crate::TaskCallers::take_back`]).
    pub fn retire(self) -> TaskReceipt
        ensures { result ≡ self }
    {
        TaskReceipt::new(self.id, self.handle.retire())
    }
}
