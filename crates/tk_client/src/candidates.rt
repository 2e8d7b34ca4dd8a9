//! The tasks that can be warned of, and their warnings.
ghost use Rattle.std.specs.Prelude.{◌≡◌, ◌++◌, IfOk, OnOk};
ghost use Rattle.tk_client.specs.Candidates as spec;
ghost use Rattle.tk_client.specs.Warnings.{warnings_in};

use crate::lints::Lints;
use crate::warning::{Warning, has_lost_waker, is_spawn, warn};
use std::alloc::{AllocError, Global};
use tk_core::TaskRow;
use tk_stream::{Tables, Task};

fn can_hold(row: &TaskRow) -> bool
    ensures { result ≡ spec.can_hold row.now }
{
    (row.wakes > 0 && row.self_wakes > 0) || has_lost_waker(row) || (row.polling && row.polls == 1)
}

/// Whether a task can be warned of, whatever the lints and the moment.
pub(crate) fn can_warn(task: &Task) -> bool
    ensures { result ≡ spec.can_warn task.now }
{
    is_spawn(task.info.kind) && can_hold(&task.row)
}

// Adds the warnings of the task at a place.
fn warn_at(
    list: &mut Vec<Warning>,
    lints: &Lints,
    tables: &Tables,
    place: usize,
) -> Result<(), AllocError>
    ensures { OnOk result (list.new.items ≡ list.old.items ++ spec.warnings_at lints.now tables.now place) }
{
    match tables.task_at(place) {
        Some(task) => warn(list, lints, tables.now(), task),
        None => Ok(()),
    }
}

/// The warnings of tables, where these are the places of the tasks that can be warned of.
pub(crate) fn warnings_of_places(
    alloc: Global,
    tables: &Tables,
    places: &[usize],
    lints: &Lints,
) -> Result<Vec<Warning>, AllocError>
    requires { places.now ≡ spec.places_of tables.now.tasks }
    ensures { IfOk result (λ list. list.items ≡ warnings_in lints.now tables.now) }
{
    let mut list = Vec::new(alloc);
    for place in places {
        warn_at(&mut list, lints, tables, *place)?;
    }
    Ok(list)
}

/// The warnings of tables, found by a walk through all tasks: for each task in table order those that hold, `SelfWakes` before
/// `LostWaker` before `NeverYielded`. A client has kept up which tasks to look at, so its `warnings` takes
/// less time.
pub fn warnings_in(
    alloc: Global,
    tables: &Tables,
    lints: &Lints,
) -> Result<Vec<Warning>, AllocError>
    ensures { IfOk result (λ list. list.items ≡ warnings_in lints.now tables.now) }
{
    let mut list = Vec::new(alloc);
    for place in 0..tables.task_count() {
        warn_at(&mut list, lints, tables, place)?;
    }
    Ok(list)
}
