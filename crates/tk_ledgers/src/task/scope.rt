//! The time of one poll.
ghost use Rattle.std.specs.Prelude.{◌≡◌, true, Some, IfOk, IfErr};
ghost use Rattle.tk_core.specs.declared.reply.Reply.TheVariants.{Woken};
ghost use Rattle.tk_core.specs.declared.task.call.TaskCall.TheVariants.{CloneWaker, WakeRef};
ghost use Rattle.tk_core.specs.TaskMeaning.{task_meaning};
ghost use Rattle.tk_cell.specs.Calls.{Calls};
ghost use Rattle.tk_ledgers.specs.Handles.{Drew, NotDrawn};
ghost use Rattle.tk_ledgers.specs.Tasks.{is_polling};
ghost use Rattle.tk_ledgers.specs.Scopes.{ScopeGrows};

use crate::task::{Origin, TaskOwner, WakerHandle};
use std::marker::Model;
use std::sync::Wait;
use tk_core::{Refusal, WakeReply};

/// The time of one poll of a task: from [`TaskOwner::scope`], while a poll is open, to [`PollScope::finish`]. It holds
/// the owner, so that the poll can't end before, and what is called on it are entries of the owner.
///
/// One that is dropped takes its owner with it and makes no entry: the task stays live for good, in a poll without an end.
/// [`PollScope::finish`] gives the owner back.
#[derive(Drop)]
pub struct PollScope {
    owner: TaskOwner,
    moment: u64,
}

impl Model for PollScope {
    ghost use Rattle.std.specs.Prelude.{◌≡◌, true};
    ghost use Rattle.tk_ledgers.specs.Tasks.{is_polling};
    ghost use Rattle.tk_ledgers.specs.Scopes.{Scoped};

    ghost Value = { Scoped };

    ghost view = { λ s. record { owner = s.owner; moment = s.moment } };

    ghost invariant = { λ s. is_polling s.owner ≡ true };
}

impl PollScope {
    pub(crate) fn new(owner: TaskOwner, moment: u64) -> PollScope
        requires { is_polling owner ≡ true }
        ensures owner { result.owner ≡ owner }
        ensures moment { result.moment ≡ moment }
    {
        PollScope { owner, moment }
    }

    /// The moment that it was opened at. No entry is made.
    pub fn now(&self) -> u64
        ensures { result ≡ self.now.moment }
    {
        self.moment
    }

    /// The origin of a wake that is made in this poll. It borrows the scope, so it is gone when the poll ends. No
    /// entry is made.
    pub fn origin(&self) -> Origin<'_>
        ensures { result ≡ Some self.now.owner.id }
    {
        Origin::of(self.owner.id())
    }

    /// Wakes the task by itself: always a self-wake.
    pub fn wake_by_ref<R: Wait>(&mut self, rt: &R, moment: u64) -> WakeReply
        ensures moment { self.new.moment ≡ self.old.moment }
        ensures id { self.new.owner.id ≡ self.old.owner.id }
        ensures ledger { self.new.owner.token.ledger ≡ self.old.owner.token.ledger }
        ensures entry { Calls task_meaning self.old.owner.token.view (WakeRef moment true) (Woken result) self.new.owner.token.view }
        ensures scoped { ScopeGrows self.old self.new }
    {
        let origin = Origin::of(self.owner.id());
        self.owner.wake_by_ref(rt, moment, origin)
    }

    /// Makes a waker. Refused with `Memory`, `HandlesSpent`.
    pub fn clone_waker<R: Wait>(&mut self, rt: &R) -> Result<WakerHandle, Refusal>
        ensures moment { self.new.moment ≡ self.old.moment }
        ensures id { self.new.owner.id ≡ self.old.owner.id }
        ensures ledger { self.new.owner.token.ledger ≡ self.old.owner.token.ledger }
        ensures made_id { IfOk result (λ made. made.id ≡ self.old.owner.id) }
        ensures made_ledger { IfOk result (λ made. made.token.ledger ≡ self.old.owner.token.ledger) }
        ensures ok { IfOk result (λ made. Drew task_meaning self.old.owner.token CloneWaker self.new.owner.token made.token) }
        ensures err { IfErr result (λ refusal. NotDrawn task_meaning self.old.owner.token CloneWaker refusal self.new.owner.token) }
        ensures scoped { ScopeGrows self.old self.new }
    {
        self.owner.clone_waker(rt)
    }

    /// Gives the owner back, whose poll is still open. No entry is made.
    pub fn finish(self) -> TaskOwner
        ensures owner { result ≡ self.owner }
        ensures polling { is_polling result ≡ true }
    {
        self.owner
    }
}
