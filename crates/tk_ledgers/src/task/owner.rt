//! The owner of a task.
ghost use Rattle.std.specs.Prelude.{◌≡◌, true, false, not, is_ok, is_some, None, IfOk, IfErr, IfSome, OnOk, [], ◌∷◌};
ghost use Rattle.tk_core.specs.declared.task.call.TaskCall.TheVariants.{PollStart, PollEnd, Close, CloneWaker, WakeRef, Enlist, Read};
ghost use Rattle.tk_core.specs.declared.reply.Reply.TheVariants.{Done, Woken, Shown};
ghost use Rattle.tk_core.specs.declared.reply.Reply.TheVariants.{Refused as NotDone};
ghost use Rattle.tk_core.specs.Polls.{run_time};
ghost use Rattle.tk_core.specs.Task.{IsOpening, opening_row, start_at, end_at};
ghost use Rattle.tk_core.specs.TaskMeaning.{task_meaning};
ghost use Rattle.tk_cell.specs.Views.{opened};
ghost use Rattle.tk_cell.specs.Calls.{Calls};
ghost use Rattle.tk_ledgers.specs.Handles.{Drew, NotDrawn, sight};
ghost use Rattle.tk_ledgers.specs.Tasks.{is_polling, names, owner_calls};
ghost use Rattle.tk_ledgers.specs.Times.{IsOfTask, IsTimed, IsNewHistogram, known_times, AddsTime, InspectsTimes, IsSameHistogram, IsOfHistogram};
ghost use Rattle.tk_core.specs.declared.reply.Refusal.TheVariants.{AlreadyPolling, NotPolling};

use crate::handle::Handle;
use crate::role::{Enlisted, Owning, Waking};
use crate::task::timed::{self, Timed};
use crate::task::{Origin, PollScope, TaskCallers, TaskInspector, TaskReceipt, WakerHandle};
use crate::times::{TimesInspector, TimesOwner};
use std::alloc::{AllocError, Global};
use std::marker::Model;
use std::sync::Wait;
use tk_cell::Shared;
use tk_core::{Refusal, TaskCall, TaskRow, WakeReply};
use tk_ids::TaskId;

/// The owner of a task: who polls it and closes it. Its caller is number 0 of the ledger.
///
/// It keeps whether a poll is open, so that [`TaskOwner::is_polling`] makes no call.
///
/// It may have a histogram of how long its polls ran ([`TaskOwner::new_with_times`]), an object of its own: the end of a poll is then
/// an entry of the task's ledger, and after it one of the histogram's. A reader of both may see the one and not yet the other.
///
/// One that is dropped makes no entry: its task stays live for good, and in the poll that is open, if one is. Its last call is
/// [`TaskOwner::close`], after the end of the poll.
#[derive(Drop)]
pub struct TaskOwner {
    id: TaskId,
    polling: bool,
    handle: Handle<TaskRow, Owning>,
    timed: Option<Timed>,
}

impl Model for TaskOwner {
    ghost use Rattle.tk_ledgers.specs.Handles.{sight, sight_with};
    ghost use Rattle.tk_ledgers.specs.Tasks.{TaskSight, Owns, owner_calls};
    ghost use Rattle.tk_ledgers.specs.Timed.{times_of, KeepsTimes};

    ghost Value = { TaskSight };

    ghost view = { λ h. sight_with h.id h.handle (times_of h.timed) };

    ghost invariant = { λ h. Owns (sight h.id h.handle) h.polling × KeepsTimes h.id (owner_calls (sight h.id h.handle)) h.timed };
}

impl TaskOwner {
    /// A task's ledger: the task is scheduled, and there is no call yet.
    pub fn new<R: Wait>(
        rt: &R,
        alloc: Global,
        id: TaskId,
        created: u64,
    ) -> Result<TaskOwner, AllocError>
        ensures id { IfOk result (λ owner. owner.id ≡ id) }
        ensures opened { IfOk result (λ owner. owner.token.view ≡ opened (opening_row created)) }
        ensures times { IfOk result (λ owner. owner.times ≡ None) }
    {
        Self::with_opening(rt, alloc, id, TaskRow::opening(created))
    }

    /// A task's ledger, as [`TaskOwner::new`] makes it, and a histogram of how long its polls run, without times.
    pub fn new_with_times<R: Wait>(
        rt: &R,
        alloc: Global,
        id: TaskId,
        created: u64,
    ) -> Result<TaskOwner, AllocError>
        ensures id { IfOk result (λ owner. owner.id ≡ id) }
        ensures opened { IfOk result (λ owner. owner.token.view ≡ opened (opening_row created)) }
        ensures times { IfOk result (λ owner. IsNewHistogram owner.times) }
    {
        Self::with_opening_and_times(rt, alloc, id, TaskRow::opening(created))
    }

    /// A task's ledger that begins with this row: [`TaskRow::counting`], if the task's waits are to be counted, or [`TaskRow::opening`].
    pub fn with_opening<R: Wait>(
        rt: &R,
        alloc: Global,
        id: TaskId,
        opening: TaskRow,
    ) -> Result<TaskOwner, AllocError>
        requires { IsOpening opening }
        ensures id { IfOk result (λ owner. owner.id ≡ id) }
        ensures opened { IfOk result (λ owner. owner.token.view ≡ opened opening) }
        ensures times { IfOk result (λ owner. owner.times ≡ None) }
    {
        let (ledger, token) = Shared::new(rt, alloc, opening)?;
        Ok(TaskOwner {
            id,
            polling: false,
            handle: Handle::new(ledger, token),
            timed: None,
        })
    }

    /// A task's ledger, as [`TaskOwner::with_opening`] makes it, and a histogram of how long its polls run, without times.
    pub fn with_opening_and_times<R: Wait>(
        rt: &R,
        alloc: Global,
        id: TaskId,
        opening: TaskRow,
    ) -> Result<TaskOwner, AllocError>
        requires { IsOpening opening }
        ensures id { IfOk result (λ owner. owner.id ≡ id) }
        ensures opened { IfOk result (λ owner. owner.token.view ≡ opened opening) }
        ensures times { IfOk result (λ owner. IsNewHistogram owner.times) }
    {
        let (ledger, token) = Shared::new(rt, alloc, opening)?;
        let timed = Timed::new(rt, alloc, id)?;
        Ok(TaskOwner {
            id,
            polling: false,
            handle: Handle::new(ledger, token),
            timed: Some(timed),
        })
    }

    /// The owner in one hand with the wakers that it makes from now on ([`TaskCallers`]): for who makes all calls of the task, and needs no
    /// handle for each. No entry is made. It is for an owner without a histogram ([`TaskOwner::has_times`]), which is not kept there, and
    /// that has learnt no other's numbers.
    pub fn into_callers(self) -> TaskCallers
        requires times { self.times ≡ None }
        requires alone { self.token.view.held ≡ 0 ∷ [] }
        ensures { result ≡ self }
    {
        TaskCallers::new(self.id, self.polling, self.handle.into_callers())
    }

    /// Takes the owner of the histogram. `None` where there is none. No entry is made. The polls of the task are added to it no more, but by
    /// whom it was taken.
    pub fn take_times(&mut self) -> Option<TimesOwner>
        ensures taken { known_times result ≡ self.old.times }
        ensures task { IsOfTask self.old.id result }
        ensures left { self.new ≡ sight self.old.id self.old.token }
    {
        let timed = self.timed.take()?;
        Some(timed.into_times())
    }

    /// The task.
    pub fn id(&self) -> TaskId
        ensures { result ≡ self.now.id }
    {
        self.id
    }

    /// Whether a poll is open. No entry is made.
    pub fn is_polling(&self) -> bool
        ensures polling { result ≡ is_polling self.now }
    {
        self.polling
    }

    /// Whether it has a histogram of how long its polls ran. No entry is made.
    pub fn has_times(&self) -> bool
        ensures has { result ≡ is_some self.now.times }

        // Its times are how long the polls ran that have ended, each once and in their order.
        ensures timed { IsTimed self.now }
    {
        self.timed.is_some()
    }

    #[tactic(auto, using(crate::proofs::TaskLemmas::start_attempts))]
    /// Starts a poll. Refused with `AlreadyPolling`.
    pub fn start_poll<R: Wait>(&mut self, rt: &R, moment: u64) -> Result<(), Refusal>
        ensures id { self.new.id ≡ self.old.id }
        ensures ledger { self.new.token.ledger ≡ self.old.token.ledger }
        ensures caller { self.old.token.view.caller ≡ 0 }
        ensures times { self.new.times ≡ self.old.times }
        ensures exact { is_ok result ≡ not (is_polling self.old) }
        ensures ok { OnOk result (Calls task_meaning self.old.token.view (PollStart moment) Done self.new.token.view) }
        ensures already_polling { IfErr result (λ refusal. (refusal ≡ AlreadyPolling) × Calls task_meaning self.old.token.view (PollStart moment) (NotDone AlreadyPolling) self.new.token.view) }
    {
        match self.handle.attempt(rt, TaskCall::PollStart(moment)) {
            Ok(()) => {
                self.polling = true;
                timed::start(&mut self.timed, moment);
                Ok(())
            }
            Err(refusal) => Err(refusal),
        }
    }

    #[tactic(auto, using(crate::proofs::TaskLemmas::end_attempts))]
    /// Ends the open poll, and then adds how long it ran, in nanoseconds, to the histogram, if there is one: the time from its start
    /// to this moment, and 0 where that is before. Refused with `NotPolling`: then the histogram stays.
    pub fn end_poll<R: Wait>(&mut self, rt: &R, moment: u64) -> Result<(), Refusal>
        ensures id { self.new.id ≡ self.old.id }
        ensures ledger { self.new.token.ledger ≡ self.old.token.ledger }
        ensures caller { self.old.token.view.caller ≡ 0 }
        ensures exact { is_ok result ≡ is_polling self.old }
        ensures timed { OnOk result (AddsTime self.old.times (run_time start_at end_at (owner_calls self.old) (PollEnd moment)) self.new.times) }
        ensures times_ledger { IsSameHistogram self.old.times self.new.times }
        ensures untimed { IfErr result (λ _. self.new.times ≡ self.old.times) }
        ensures ok { OnOk result (Calls task_meaning self.old.token.view (PollEnd moment) Done self.new.token.view) }
        ensures not_polling { IfErr result (λ refusal. (refusal ≡ NotPolling) × Calls task_meaning self.old.token.view (PollEnd moment) (NotDone NotPolling) self.new.token.view) }
    {
        match self.handle.attempt(rt, TaskCall::PollEnd(moment)) {
            Ok(()) => {
                self.polling = false;
                timed::end(&mut self.timed, rt, moment);
                Ok(())
            }
            Err(refusal) => Err(refusal),
        }
    }

    /// A scope of the open poll, at this moment. Refused with `NotPolling`: the owner is then handed back. No entry is
    /// made.
    pub fn scope(self, moment: u64) -> Result<PollScope, (Refusal, TaskOwner)>
        ensures exact { is_ok result ≡ is_polling self }
        ensures held { IfOk result (λ scope. scope.owner ≡ self) }
        ensures moment { IfOk result (λ scope. scope.moment ≡ moment) }
        ensures not_polling { IfErr result (λ back. back.0 ≡ NotPolling) }
        ensures back { IfErr result (λ back. back.1 ≡ self) }
    {
        if self.is_polling() {
            Ok(PollScope::new(self, moment))
        } else {
            Err((Refusal::NotPolling, self))
        }
    }

    /// Reads the row.
    #[tactic(auto, using(crate::proofs::TaskLemmas::read_reads))]
    pub fn read<R: Wait>(&mut self, rt: &R) -> TaskRow
        ensures id { self.new.id ≡ self.old.id }
        ensures ledger { self.new.token.ledger ≡ self.old.token.ledger }
        ensures caller { self.old.token.view.caller ≡ 0 }
        ensures times { self.new.times ≡ self.old.times }
        ensures entry { Calls task_meaning self.old.token.view Read (Shown result) self.new.token.view }
    {
        self.handle.read(rt, TaskCall::Read)
    }

    #[tactic(auto, using(crate::proofs::TaskLemmas::close_attempts))]
    /// Closes the task. Refused with `AlreadyPolling`: the owner is then handed back. The receipt has what was seen of the histogram too, if
    /// there is one ([`TaskReceipt::take_times`]): that how long each poll ran was added.
    pub fn close<R: Wait>(self, rt: &R, moment: u64) -> Result<TaskReceipt, (Refusal, TaskOwner)>
        ensures caller { self.token.view.caller ≡ 0 }
        ensures exact { is_ok result ≡ not (is_polling self) }
        ensures id { IfOk result (λ receipt. receipt.id ≡ self.id) }
        ensures ledger { IfOk result (λ receipt. receipt.token.ledger ≡ self.token.ledger) }
        ensures times { IfOk result (λ receipt. receipt.times ≡ self.times) }
        ensures timed { IfOk result (λ receipt. IsTimed receipt) }
        ensures ok { IfOk result (λ receipt. Calls task_meaning self.token.view (Close moment) Done receipt.token.view) }
        ensures back_id { IfErr result (λ back. back.1.id ≡ self.id) }
        ensures back_ledger { IfErr result (λ back. back.1.token.ledger ≡ self.token.ledger) }
        ensures back_times { IfErr result (λ back. back.1.times ≡ self.times) }
        ensures already_polling { IfErr result (λ back. (back.0 ≡ AlreadyPolling) × Calls task_meaning self.token.view (Close moment) (NotDone AlreadyPolling) back.1.token.view) }
    {
        let TaskOwner {
            id,
            polling,
            mut handle,
            timed,
        } = self;
        match handle.attempt(rt, TaskCall::Close(moment)) {
            Ok(()) => {
                let times = timed::retire(timed, id);
                Ok(TaskReceipt::with_times(id, handle.retire(), times))
            }
            Err(refusal) => Err((
                refusal,
                TaskOwner {
                    id,
                    polling,
                    handle,
                    timed,
                },
            )),
        }
    }

    /// Makes a waker. Refused with `Memory`, `HandlesSpent`.
    #[tactic(auto, using(crate::proofs::TaskLemmas::clone_draws))]
    pub fn clone_waker<R: Wait>(&mut self, rt: &R) -> Result<WakerHandle, Refusal>
        ensures id { self.new.id ≡ self.old.id }
        ensures ledger { self.new.token.ledger ≡ self.old.token.ledger }
        ensures caller { self.old.token.view.caller ≡ 0 }
        ensures times { self.new.times ≡ self.old.times }
        ensures made_id { IfOk result (λ made. made.id ≡ self.old.id) }
        ensures made_ledger { IfOk result (λ made. made.token.ledger ≡ self.old.token.ledger) }
        ensures ok { IfOk result (λ made. Drew task_meaning self.old.token CloneWaker self.new.token made.token) }
        ensures err { IfErr result (λ refusal. NotDrawn task_meaning self.old.token CloneWaker refusal self.new.token) }
    {
        let handle = self.handle.draw::<Waking, R>(rt, TaskCall::CloneWaker)?;
        Ok(WakerHandle::new(self.id, handle))
    }

    /// Makes an inspector, without a histogram. Refused with `Memory`, `HandlesSpent`.
    #[tactic(auto, using(crate::proofs::TaskLemmas::enlist_draws))]
    pub fn inspect<R: Wait>(&mut self, rt: &R) -> Result<TaskInspector, Refusal>
        ensures id { self.new.id ≡ self.old.id }
        ensures ledger { self.new.token.ledger ≡ self.old.token.ledger }
        ensures caller { self.old.token.view.caller ≡ 0 }
        ensures times { self.new.times ≡ self.old.times }
        ensures made_times { IfOk result (λ made. made.times ≡ None) }
        ensures made_id { IfOk result (λ made. made.id ≡ self.old.id) }
        ensures made_ledger { IfOk result (λ made. made.token.ledger ≡ self.old.token.ledger) }
        ensures ok { IfOk result (λ made. Drew task_meaning self.old.token Enlist self.new.token made.token) }
        ensures err { IfErr result (λ refusal. NotDrawn task_meaning self.old.token Enlist refusal self.new.token) }
    {
        let handle = self.handle.draw::<Enlisted, R>(rt, TaskCall::Enlist)?;
        Ok(TaskInspector::new(self.id, handle))
    }

    /// Makes an inspector of the histogram. `None` where there is none: then nothing is done. Refused with `Memory`, `HandlesSpent`.
    pub fn inspect_times<R: Wait>(&mut self, rt: &R) -> Option<Result<TimesInspector, Refusal>>
        ensures id { self.new.id ≡ self.old.id }
        ensures token { self.new.token ≡ self.old.token }
        ensures times_ledger { IsSameHistogram self.old.times self.new.times }
        ensures has { is_some result ≡ is_some self.old.times }
        ensures made_id { IfSome result (λ drawn. IfOk drawn (λ made. made.id ≡ self.old.id)) }
        ensures made_ledger { IfSome result (λ drawn. IfOk drawn (λ made. IsOfHistogram self.old.times made.token)) }
        ensures times { InspectsTimes self.old.id self.old.times result self.new.times }
    {
        timed::inspect(&mut self.timed, rt)
    }

    /// Wakes the task. It is a self-wake exactly where the origin names the task.
    #[tactic(auto, using(crate::proofs::TaskLemmas::reference_wakes))]
    pub fn wake_by_ref<R: Wait>(&mut self, rt: &R, moment: u64, origin: Origin<'_>) -> WakeReply
        ensures id { self.new.id ≡ self.old.id }
        ensures ledger { self.new.token.ledger ≡ self.old.token.ledger }
        ensures caller { self.old.token.view.caller ≡ 0 }
        ensures times { self.new.times ≡ self.old.times }
        ensures entry { Calls task_meaning self.old.token.view (WakeRef moment (names origin.entry self.old.id)) (Woken result) self.new.token.view }
    {
        let from_self = origin.names(self.id);
        self.handle.wake(rt, TaskCall::WakeRef(moment, from_self))
    }

    /// Wakes the task, as [`TaskOwner::wake_by_ref`] does with the origin [`Origin::outside`]: never a self-wake.
    pub fn wake_by_ref_from_outside<R: Wait>(&mut self, rt: &R, moment: u64) -> WakeReply
        ensures id { self.new.id ≡ self.old.id }
        ensures ledger { self.new.token.ledger ≡ self.old.token.ledger }
        ensures caller { self.old.token.view.caller ≡ 0 }
        ensures times { self.new.times ≡ self.old.times }
        ensures entry { Calls task_meaning self.old.token.view (WakeRef moment false) (Woken result) self.new.token.view }
    {
        self.wake_by_ref(rt, moment, Origin::outside())
    }
}
