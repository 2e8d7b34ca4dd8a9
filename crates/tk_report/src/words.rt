//! The words of tasks and async operations, and how long a poll that runs has run.
ghost use Rattle.std.specs.Prelude.{◌≡◌};
ghost use Rattle.tk_stream.specs.Spelling.{kind_text};
ghost use Rattle.tk_report.specs.Report as spec;

use tk_core::{OpRow, TaskRow};
use tk_ids::TaskKind;

/// The kind of a task.
pub fn kind_word(kind: TaskKind) -> &'static str
    ensures { result.now ≡ kind_text kind }
{
    match kind {
        TaskKind::Spawn => "spawn",
        TaskKind::Blocking => "blocking",
    }
}

/// The state of a task: the first that holds of `closed`, `polling`, `scheduled` and `idle`.
pub fn task_state(row: &TaskRow) -> &'static str
    ensures { result.now ≡ spec.task_state row.now }
{
    if row.dropped.is_some() {
        "closed"
    } else if row.polling {
        "polling"
    } else if row.scheduled {
        "scheduled"
    } else {
        "idle"
    }
}

/// The state of an async operation: the first that holds of `closed`, `polling` and `idle`.
pub fn op_state(row: &OpRow) -> &'static str
    ensures { result.now ≡ spec.op_state row.now }
{
    if row.dropped.is_some() {
        "closed"
    } else if row.polling {
        "polling"
    } else {
        "idle"
    }
}

/// For how many nanoseconds a poll has run by a moment, where one started.
pub fn run_time(now: u64, started: Option<u64>) -> u64
    ensures { result ≡ spec.run_time now started }
{
    match started {
        Some(started) => now.saturating_sub(started),
        None => 0,
    }
}
