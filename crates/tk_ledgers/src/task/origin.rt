//! Whence a wake comes.
ghost use Rattle.std.specs.Prelude.{◌≡◌, Some, None};
ghost use Rattle.tk_ledgers.specs.Tasks.{names};

use crate::task::PollScope;
use std::marker::{Model, PhantomData};
use tk_ids::TaskId;

/// Where a wake comes from: from within a poll of a task ([`PollScope::origin`]), or from outside of all. A wake is a
/// self-wake exactly where its origin names the task that it wakes. An origin borrows its scope, so it can't outlive the
/// poll. Contracts see the task, if there is one.
#[derive(Drop)]
pub struct Origin<'a> {
    task: Option<TaskId>,
    scope: PhantomData<&'a PollScope>,
}

impl<'a> Model for Origin<'a> {
    ghost use Rattle.std.specs.Prelude.{ℕ, Option};

    ghost Value = { Option ℕ };

    ghost view = { λ o. o.task };
}

impl<'a> Origin<'a> {
    /// The origin of a wake that comes from no task.
    pub fn outside() -> Origin<'a>
        ensures { result ≡ None }
    {
        Origin {
            task: None,
            scope: PhantomData,
        }
    }

    /// The origin of a wake within a poll of this task.
    pub(crate) fn of(task: TaskId) -> Origin<'a>
        ensures { result ≡ Some task }
    {
        Origin {
            task: Some(task),
            scope: PhantomData,
        }
    }

    /// Whether it is a poll of this task.
    pub fn names(&self, id: TaskId) -> bool
        ensures { result ≡ names self.now id }
    {
        match self.task {
            Some(task) => task == id,
            None => false,
        }
    }
}
