//! How many tasks of a place are warned of, and the first of them.
ghost use Rattle.std.specs.Prelude.{◌≡◌};
ghost use Rattle.tk_sites.specs.Warned as spec;

use tk_client::{AnyWarning, WarningKind};
use tk_ids::TaskId;

/// Of how many tasks there is a warning of one kind.
#[derive(Clone, Copy, Debug, PartialEq, Eq)]
pub struct Warned {
    /// How many these are. A number that passes 2^64 - 1 stays there.
    pub tasks: u64,
    /// The first of them, in table order.
    pub first: Option<TaskId>,
}

/// Of how many tasks there are warnings, kind by kind.
#[derive(Clone, Copy, Debug, PartialEq, Eq)]
pub struct Warnings {
    /// Too many wakes are their own.
    pub self_wakes: Warned,
    /// Nobody is left who could wake them.
    pub lost_waker: Warned,
    /// Their first poll runs too long.
    pub never_yielded: Warned,
    /// A poll of them ran for long.
    pub long_poll: Warned,
    /// They waited long for a poll.
    pub long_wait: Warned,
}

impl Warned {
    fn none() -> Warned
        ensures { result ≡ spec.none_warned }
    {
        Warned {
            tasks: 0,
            first: None,
        }
    }

    fn one(task: TaskId) -> Warned
        ensures { result ≡ spec.one_warned task }
    {
        Warned {
            tasks: 1,
            first: Some(task),
        }
    }

    // Both, of which this one comes first.
    fn with(self, more: Warned) -> Warned
        ensures { result ≡ spec.both_warned self more }
    {
        Warned {
            tasks: self.tasks.saturating_add(more.tasks),
            first: self.first.or(more.first),
        }
    }
}

impl Warnings {
    /// No task is warned of.
    pub(crate) fn none() -> Warnings
        ensures { result ≡ spec.no_warnings }
    {
        Warnings {
            self_wakes: Warned::none(),
            lost_waker: Warned::none(),
            never_yielded: Warned::none(),
            long_poll: Warned::none(),
            long_wait: Warned::none(),
        }
    }

    fn usual(kind: WarningKind, task: TaskId) -> Warnings
        ensures { result ≡ spec.usual_warning kind task }
    {
        let warned = Warned::one(task);
        let mut warnings = Warnings::none();
        match kind {
            WarningKind::SelfWakes => warnings.self_wakes = warned,
            WarningKind::LostWaker => warnings.lost_waker = warned,
            WarningKind::NeverYielded => warnings.never_yielded = warned,
        }
        warnings
    }

    /// One warning.
    pub(crate) fn one(warning: &AnyWarning) -> Warnings
        ensures { result ≡ spec.one_warning warning.now }
    {
        match warning {
            AnyWarning::Usual(warning) => Warnings::usual(warning.kind, warning.task),
            AnyWarning::LongPoll(long) => Warnings {
                long_poll: Warned::one(long.task),
                ..Warnings::none()
            },
            AnyWarning::LongWait(long) => Warnings {
                long_wait: Warned::one(long.task),
                ..Warnings::none()
            },
        }
    }

    /// Both, of which this one comes first.
    pub(crate) fn with(self, more: Warnings) -> Warnings
        ensures { result ≡ spec.both_warnings self more }
    {
        Warnings {
            self_wakes: self.self_wakes.with(more.self_wakes),
            lost_waker: self.lost_waker.with(more.lost_waker),
            never_yielded: self.never_yielded.with(more.never_yielded),
            long_poll: self.long_poll.with(more.long_poll),
            long_wait: self.long_wait.with(more.long_wait),
        }
    }
}

/// The task that a warning is about.
pub(crate) fn warned_task(warning: &AnyWarning) -> TaskId
    ensures { result ≡ spec.warned_task warning.now }
{
    match warning {
        AnyWarning::Usual(warning) => warning.task,
        AnyWarning::LongPoll(long) => long.task,
        AnyWarning::LongWait(long) => long.task,
    }
}
