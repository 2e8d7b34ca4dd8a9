//! Those who read a task.
ghost use Rattle.std.specs.Prelude.{◌≡◌, Some, None, is_some, IfOk, IfErr};
ghost use Rattle.tk_core.specs.declared.task.call.TaskCall.TheVariants.{CloneWaker, Enlist, Read};
ghost use Rattle.tk_core.specs.declared.reply.Reply.TheVariants.{Shown};
ghost use Rattle.tk_core.specs.TaskMeaning.{task_meaning};
ghost use Rattle.tk_cell.specs.Calls.{Calls, Joins};
ghost use Rattle.tk_cell.specs.Ours.{CallsBeside};
ghost use Rattle.tk_ledgers.specs.Callers.{live};
ghost use Rattle.tk_ledgers.specs.Handles.{made_by, sight, sight_with, Drew, NotDrawn};
ghost use Rattle.tk_ledgers.specs.Hands.{IsHand};
ghost use Rattle.tk_ledgers.specs.Sums.{HoldsAll};
ghost use Rattle.tk_ledgers.specs.Tasks.{CountsAre, CountsReach};
ghost use Rattle.tk_ledgers.specs.Times.{known_times, IsOfTask, IsSameHistogram, ReadsTimes};

use crate::callers::Callers;
use crate::handle::Handle;
use crate::role::{Enlisted, Waking};
use crate::task::TaskReceipt;
use crate::times::{TimesInspector, TimesReceipt};
use std::marker::Model;
use std::sync::Wait;
use tk_core::{Refusal, TaskCall, TaskRow, TimesRow};
use tk_ids::TaskId;

/// Who reads a task, and the histogram of how long its polls ran, where it was given an inspector of that.
#[derive(Drop)]
pub struct TaskInspector {
    id: TaskId,
    handle: Handle<TaskRow, Enlisted>,
    times: Option<TimesInspector>,
}

impl Model for TaskInspector {
    ghost use Rattle.tk_ledgers.specs.Handles.{sight_with};
    ghost use Rattle.tk_ledgers.specs.Tasks.{TaskSight};
    ghost use Rattle.tk_ledgers.specs.Times.{known_times, IsOfTask};

    ghost Value = { TaskSight };

    ghost view = { λ h. sight_with h.id h.handle (known_times h.times) };

    ghost invariant = { λ h. IsOfTask h.id h.times };
}

// The histogram that there is is read.
fn read_times<R: Wait>(times: &mut Option<TimesInspector>, rt: &R) -> Option<TimesRow>
    ensures ledger { IsSameHistogram (known_times times.old) (known_times times.new) }
    ensures has { is_some result ≡ is_some times.old }
    ensures read { ReadsTimes (known_times times.old) result (known_times times.new) }
    ensures task { (id : _) → IsOfTask id times.old → IsOfTask id times.new }
{
    match times {
        Some(times) => Some(times.read(rt)),
        None => None,
    }
}

// The histogram that there is is read no more.
fn retire_times(times: Option<TimesInspector>) -> Option<TimesReceipt>
    ensures { result ≡ times }
{
    match times {
        Some(times) => Some(times.retire()),
        None => None,
    }
}

impl TaskInspector {
    pub(crate) fn new(id: TaskId, handle: Handle<TaskRow, Enlisted>) -> TaskInspector
        ensures { result ≡ sight id handle }
    {
        TaskInspector {
            id,
            handle,
            times: None,
        }
    }

    /// The same inspector, which also reads this histogram of its task, in the place of the one that it had. No entry is made.
    pub fn with_times(self, times: TimesInspector) -> TaskInspector
        requires { times.id ≡ self.id }
        ensures { result ≡ sight_with self.id self.token (Some times.token) }
    {
        TaskInspector {
            id: self.id,
            handle: self.handle,
            times: Some(times),
        }
    }

    /// The task that it reads.
    pub fn task(&self) -> TaskId
        ensures { result ≡ self.now.id }
    {
        self.id
    }

    /// Its number among the handles of the task.
    pub fn number(&self) -> u64
        ensures { result ≡ self.now.token.view.caller }
    {
        self.handle.number()
    }

    /// Reads the row.
    #[tactic(auto, using(crate::proofs::TaskLemmas::read_reads))]
    pub fn read<R: Wait>(&mut self, rt: &R) -> TaskRow
        ensures id { self.new.id ≡ self.old.id }
        ensures ledger { self.new.token.ledger ≡ self.old.token.ledger }
        ensures times { self.new.times ≡ self.old.times }
        ensures entry { Calls task_meaning self.old.token.view Read (Shown result) self.new.token.view }

        // A count is the sum over the lists of its callers, where it has learnt the owner and every caller made in
        // what it has seen; it is never less.
        ensures least { CountsReach self.old.token.view result }
        ensures exact { HoldsAll task_meaning self.old.token.view → CountsAre self.old.token.view result }
    {
        self.handle.read(rt, TaskCall::Read)
    }

    // Reads the row beside the callers of the task.
    #[tactic(auto, using(crate::proofs::TaskLemmas::read_reads))]
    pub(crate) fn read_beside<R: Wait>(
        &mut self,
        rt: &R,
        callers: &mut Callers<TaskRow, Waking>,
    ) -> TaskRow
        requires { callers.old.ledger ≡ self.old.token.ledger }
        ensures id { self.new.id ≡ self.old.id }
        ensures ledger { self.new.token.ledger ≡ self.old.token.ledger }
        ensures times { self.new.times ≡ self.old.times }
        ensures own { callers.new.ledger ≡ callers.old.ledger }
        ensures beside { CallsBeside task_meaning callers.old.view self.old.token.view Read (Shown result) callers.new.view self.new.token.view }
        ensures live { live task_meaning callers.new.view ≡ live task_meaning callers.old.view }
        ensures hand { IsHand task_meaning (made_by CloneWaker) callers.old.view }
    {
        callers.read_beside(rt, &mut self.handle, TaskCall::Read)
    }

    /// Reads the histogram of how long the polls of the task ran, in nanoseconds. `None` where it has none: then nothing is done.
    ///
    /// It is that of the first polls that ended, as many as its counts add up to, while none of them has stopped; and of all, where
    /// the receipt of the task's owner was learnt ([`crate::laws::a_histogram_shows_the_first_polls`]).
    pub fn read_times<R: Wait>(&mut self, rt: &R) -> Option<TimesRow>
        ensures id { self.new.id ≡ self.old.id }
        ensures token { self.new.token ≡ self.old.token }
        ensures times_ledger { IsSameHistogram self.old.times self.new.times }
        ensures has { is_some result ≡ is_some self.old.times }
        ensures times { ReadsTimes self.old.times result self.new.times }
    {
        read_times(&mut self.times, rt)
    }

    /// Takes the inspector of the histogram. `None` where it has none. No entry is made.
    pub fn take_times(&mut self) -> Option<TimesInspector>
        ensures taken { known_times result ≡ self.old.times }
        ensures task { IsOfTask self.old.id result }
        ensures left { self.new ≡ sight self.old.id self.old.token }
    {
        self.times.take()
    }

    /// Makes a further inspector, without a histogram. Refused with `Memory`, `HandlesSpent`.
    #[tactic(auto, using(crate::proofs::TaskLemmas::enlist_draws))]
    pub fn inspect<R: Wait>(&mut self, rt: &R) -> Result<TaskInspector, Refusal>
        ensures id { self.new.id ≡ self.old.id }
        ensures ledger { self.new.token.ledger ≡ self.old.token.ledger }
        ensures times { self.new.times ≡ self.old.times }
        ensures made_times { IfOk result (λ made. made.times ≡ None) }
        ensures made_id { IfOk result (λ made. made.id ≡ self.old.id) }
        ensures made_ledger { IfOk result (λ made. made.token.ledger ≡ self.old.token.ledger) }
        ensures ok { IfOk result (λ made. Drew task_meaning self.old.token Enlist self.new.token made.token) }
        ensures err { IfErr result (λ refusal. NotDrawn task_meaning self.old.token Enlist refusal self.new.token) }
    {
        let handle = self.handle.draw::<Enlisted, R>(rt, TaskCall::Enlist)?;
        Ok(TaskInspector::new(self.id, handle))
    }

    /// Takes in what another handle of the ledger has seen, and its numbers. No entry is made. What the receipt has of a histogram is
    /// let go: take it before ([`TaskReceipt::take_times`]).
    pub fn learn<R: Wait>(&mut self, rt: &R, receipt: TaskReceipt)
        requires { receipt.token.ledger ≡ self.old.token.ledger }
        ensures id { self.new.id ≡ self.old.id }
        ensures ledger { self.new.token.ledger ≡ self.old.token.ledger }
        ensures times { self.new.times ≡ self.old.times }
        ensures joined { Joins task_meaning self.old.token.view receipt.token.view self.new.token.view }
    {
        self.handle.learn(rt, receipt.into_token())
    }

    /// Makes no more calls. No entry is made.
    pub fn retire(self) -> TaskReceipt
        ensures { result ≡ self }
    {
        TaskReceipt::with_times(self.id, self.handle.retire(), retire_times(self.times))
    }
}
