//! What a handle of a task has seen that makes no more calls.
ghost use Rattle.std.specs.Prelude.{◌≡◌};
ghost use Rattle.tk_ledgers.specs.Handles.{sight, sight_with};
ghost use Rattle.tk_ledgers.specs.Times.{known_times, IsOfTask};

use crate::times::TimesReceipt;
use std::marker::Model;
use tk_cell::Token;
use tk_core::TaskRow;
use tk_ids::TaskId;

/// What a caller of a task's ledger has seen, and the numbers that it holds. It makes no more calls.
///
/// Where the caller had a histogram of the task's polls, it has the same of it, until that is taken.
#[derive(Drop)]
pub struct TaskReceipt {
    id: TaskId,
    token: Token<TaskRow>,
    times: Option<TimesReceipt>,
}

impl Model for TaskReceipt {
    ghost use Rattle.tk_ledgers.specs.Handles.{sight_with};
    ghost use Rattle.tk_ledgers.specs.Tasks.{TaskSight};
    ghost use Rattle.tk_ledgers.specs.Times.{known_times, IsOfTask};

    ghost Value = { TaskSight };

    ghost view = { λ r. sight_with r.id r.token (known_times r.times) };

    ghost invariant = { λ r. IsOfTask r.id r.times };
}

impl TaskReceipt {
    pub(crate) fn new(id: TaskId, token: Token<TaskRow>) -> TaskReceipt
        ensures { result ≡ sight id token }
    {
        TaskReceipt {
            id,
            token,
            times: None,
        }
    }

    pub(crate) fn with_times(
        id: TaskId,
        token: Token<TaskRow>,
        times: Option<TimesReceipt>,
    ) -> TaskReceipt
        requires { IsOfTask id times }
        ensures { result ≡ sight_with id token (known_times times) }
    {
        TaskReceipt { id, token, times }
    }

    /// The task.
    pub fn task(&self) -> TaskId
        ensures { result ≡ self.now.id }
    {
        self.id
    }

    /// Takes what was seen of the histogram of the task's polls. `None` where there was none, or it was taken. No entry is made.
    ///
    /// Who learns the receipt of a task's owner learns this one too, by its own histogram's inspector
    /// ([`crate::TimesInspector::learn`]), and reads from then on how long all polls ran.
    pub fn take_times(&mut self) -> Option<TimesReceipt>
        ensures taken { known_times result ≡ self.old.times }
        ensures task { IsOfTask self.old.id result }
        ensures left { self.new ≡ sight self.old.id self.old.token }
    {
        self.times.take()
    }

    pub(crate) fn into_token(self) -> Token<TaskRow>
        ensures { result ≡ self.token }
    {
        self.token
    }
}
