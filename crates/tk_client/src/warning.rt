//! Warnings about tasks.
//!
//! Their names are tokio-console's. When each holds is this project's own choice: `specs/Warnings.antt` says it.
ghost use Rattle.std.specs.Prelude.{◌≡◌, ◌++◌, ◌≤◌, ◌-◌, nat_le, false, OnOk};
ghost use Rattle.std.specs.Option.{option_map_or};
ghost use Rattle.tk_client.specs.Warnings as spec;

use crate::lints::Lints;
use std::alloc::AllocError;
use tk_core::TaskRow;
use tk_ids::{TaskId, TaskKind};
use tk_stream::Task;

/// What is odd about a task.
#[derive(Clone, Copy, Debug, PartialEq, Eq)]
pub enum WarningKind {
    /// More of its wakes than the lints allow came from within itself.
    SelfWakes,
    /// It is open, is neither polled nor scheduled, and no waker is left that could wake it.
    LostWaker,
    /// Its first poll has run for as long as the lints say.
    NeverYielded,
}

/// A warning about a task.
#[derive(Clone, Copy, Debug, PartialEq, Eq)]
pub struct Warning {
    /// The task.
    pub task: TaskId,
    /// What is odd about it.
    pub kind: WarningKind,
}

/// Whether an executor polls tasks of this kind in turn.
pub fn is_spawn(kind: TaskKind) -> bool
    ensures { result ≡ spec.is_spawn kind }
{
    match kind {
        TaskKind::Spawn => true,
        TaskKind::Blocking => false,
    }
}

/// Whether more than so many of a hundred wakes came from within the task of a row.
pub fn wakes_itself(percent: u64, row: &TaskRow) -> bool
    requires { percent ≤ 100 }
    ensures { result ≡ spec.wakes_itself percent row.now }
{
    // In 128 bits neither product is too large.
    let wakes = u128::from(row.wakes);
    let own = u128::from(row.self_wakes);
    wakes > 0 && 100 * own > u128::from(percent) * wakes
}

/// Whether nobody will wake the task of a row: it is open, neither polled nor scheduled, and has no waker left.
pub fn has_lost_waker(row: &TaskRow) -> bool
    ensures { result ≡ spec.has_lost_waker row.now }
{
    row.dropped.is_none() && !row.polling && !row.scheduled && row.clones == row.drops
}

// Whether a poll that started then, if any did, runs for so long.
fn has_run(limit: u64, now: u64, started: Option<u64>) -> bool
    ensures { result ≡ option_map_or (λ moment. nat_le limit (now - moment)) started false }
{
    match started {
        Some(moment) => limit <= now.saturating_sub(moment),
        None => false,
    }
}

/// Whether the task of a row is in its first poll, which has run for as long as this limit, in nanoseconds.
pub fn has_never_yielded(limit: u64, now: u64, row: &TaskRow) -> bool
    ensures { result ≡ spec.has_never_yielded limit now row.now }
{
    row.polling && row.polls == 1 && has_run(limit, now, row.last_started)
}

fn push_if(
    list: &mut Vec<Warning>,
    holds: bool,
    task: TaskId,
    kind: WarningKind,
) -> Result<(), AllocError>
    ensures { OnOk result (list.new.items ≡ list.old.items ++ spec.warning_if holds task kind) }
{
    if holds {
        list.push(Warning { task, kind })?;
    }
    Ok(())
}

// Adds the warnings of a task in tables of this moment.
pub(crate) fn warn(
    list: &mut Vec<Warning>,
    lints: &Lints,
    now: u64,
    task: &Task,
) -> Result<(), AllocError>
    ensures { OnOk result (list.new.items ≡ list.old.items ++ spec.warnings_of lints.now now task.now) }
{
    if !is_spawn(task.info.kind) {
        return Ok(());
    }
    let id = task.info.id;
    let own = wakes_itself(lints.self_wake_percent(), &task.row);
    let lost = has_lost_waker(&task.row);
    let long = has_never_yielded(lints.never_yielded_ns(), now, &task.row);
    push_if(list, own, id, WarningKind::SelfWakes)?;
    push_if(list, lost, id, WarningKind::LostWaker)?;
    push_if(list, long, id, WarningKind::NeverYielded)
}
