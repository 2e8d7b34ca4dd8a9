//! What came to the tables of a stream, what left them, what is there, and who is warned of: added to the places of these tasks.
ghost use Rattle.std.specs.Prelude.{◌≡◌, ◌++◌, ℕ, List, OnOk, map, flat_map, slice_get};
ghost use Rattle.std.specs.Option.{option_map_or};
ghost use Rattle.tk_stream.specs.Tables.{task_id, task_with};
ghost use Rattle.tk_stream.specs.declared.tables.task.Task.{Task as TaskView};
ghost use Rattle.tk_series.specs.Limited.{limited, with_one};
ghost use Rattle.tk_sites.specs.Adding.{AreThere, left_as_shown};
ghost use Rattle.tk_odd.specs.Places.{place_of as site};
ghost use Rattle.tk_sites.specs.Site.{room};
ghost use Rattle.tk_sites.specs.Sites as spec;
ghost use Rattle.tk_sites.specs.Sums as sums;
ghost use Rattle.tk_sites.specs.Warned.{one_warning, warned_task as task_of};
ghost use Rattle.tk_sites.specs.declared.sums.Sums.{Sums as SumsView};

use crate::sums::{Sums, left, there, there_until, warned};
use crate::warned::{Warnings, warned_task};
use std::alloc::{AllocError, Global};
use tk_client::{AnyWarning, LeftTask};
use tk_ids::TaskId;
use tk_odd::place_of;
use tk_series::{Added, Limited};
use tk_stream::{Tables, Task};

fn add_came_one<V: Added>(
    sites: &mut Limited<V>,
    alloc: Global,
    tables: &Tables,
    id: TaskId,
    came: V,
) -> Result<(), AllocError>
    ensures { OnOk result (sites.new ≡ option_map_or
        (λ t. with_one V.plus (site t.info) came sites.old) (task_with id tables.now.tasks) sites.old) }
{
    match tables.task(id) {
        Some(task) => sites.add(place_of(alloc, &task.info)?, came),
        None => Ok(()),
    }
}

/// Adds the tasks that came to these tables, of each of which a place has the same.
pub(crate) fn add_came<V: Added>(
    sites: &mut Limited<V>,
    alloc: Global,
    tables: &Tables,
    ids: &[TaskId],
    came: V,
) -> Result<(), AllocError>
    ensures { (before : List (List ℕ × V)) (tasks : List TaskView) → sites.old ≡ limited room V.plus before
        → ids.now ≡ map task_id tasks → AreThere tables.now tasks
        → OnOk result (sites.new ≡ limited room V.plus (before ++ map (λ t. (site t.info, came)) tasks)) }
{
    for id in ids {
        add_came_one(sites, alloc, tables, *id, came)?;
    }
    Ok(())
}

fn add_left_one(sites: &mut Limited<Sums>, alloc: Global, task: &Task) -> Result<(), AllocError>
    ensures { OnOk result (sites.new ≡ with_one sums.plus (site task.now.info) (sums.left task.now.row) sites.old) }
{
    sites.add(place_of(alloc, &task.info)?, left(&task.row))
}

/// Adds the tasks that left.
pub(crate) fn add_left(
    sites: &mut Limited<Sums>,
    alloc: Global,
    tasks: &[LeftTask],
) -> Result<(), AllocError>
    ensures { (before : List (List ℕ × SumsView)) → sites.old ≡ limited room sums.plus before
        → OnOk result (sites.new ≡ limited room sums.plus (before ++ map left_as_shown tasks.now)) }
{
    for one in tasks {
        add_left_one(sites, alloc, &one.task)?;
    }
    Ok(())
}

fn add_there_at(
    sites: &mut Limited<Sums>,
    alloc: Global,
    tables: &Tables,
    place: usize,
) -> Result<(), AllocError>
    ensures { OnOk result (sites.new ≡ option_map_or
        (λ t. with_one sums.plus (site t.info) (sums.there t.row) sites.old) (slice_get tables.now.tasks place) sites.old) }
{
    match tables.task_at(place) {
        Some(task) => sites.add(place_of(alloc, &task.info)?, there(&task.row)),
        None => Ok(()),
    }
}

/// Adds the tasks that are there.
pub(crate) fn add_there(
    sites: &mut Limited<Sums>,
    alloc: Global,
    tables: &Tables,
) -> Result<(), AllocError>
    ensures { (before : List (List ℕ × SumsView)) → sites.old ≡ limited room sums.plus before
        → OnOk result (sites.new ≡ limited room sums.plus (before ++ map spec.there_entry tables.now.tasks)) }
{
    for place in 0..tables.task_count() {
        add_there_at(sites, alloc, tables, place)?;
    }
    Ok(())
}

fn add_until_at(
    sites: &mut Limited<Sums>,
    alloc: Global,
    tables: &Tables,
    place: usize,
) -> Result<(), AllocError>
    ensures { OnOk result (sites.new ≡ option_map_or
        (λ t. with_one sums.plus (site t.info) (sums.there_until tables.now.now t.row) sites.old) (slice_get tables.now.tasks place) sites.old) }
{
    match tables.task_at(place) {
        Some(task) => sites.add(
            place_of(alloc, &task.info)?,
            there_until(&task.row, tables.now()),
        ),
        None => Ok(()),
    }
}

/// Adds the tasks that are there, with what lasts at the moment of these tables.
pub(crate) fn add_until(
    sites: &mut Limited<Sums>,
    alloc: Global,
    tables: &Tables,
) -> Result<(), AllocError>
    ensures { (before : List (List ℕ × SumsView)) → sites.old ≡ limited room sums.plus before
        → OnOk result (sites.new ≡ limited room sums.plus (before ++ map (spec.until_entry tables.now.now) tables.now.tasks)) }
{
    for place in 0..tables.task_count() {
        add_until_at(sites, alloc, tables, place)?;
    }
    Ok(())
}

fn add_warning(
    sites: &mut Limited<Sums>,
    alloc: Global,
    tables: &Tables,
    warning: &AnyWarning,
) -> Result<(), AllocError>
    ensures { OnOk result (sites.new ≡ option_map_or
        (λ t. with_one sums.plus (site t.info) (sums.warned (one_warning warning.now)) sites.old)
        (task_with (task_of warning.now) tables.now.tasks) sites.old) }
{
    match tables.task(warned_task(warning)) {
        Some(task) => sites.add(place_of(alloc, &task.info)?, warned(Warnings::one(warning))),
        None => Ok(()),
    }
}

/// Adds the warnings of the tables' tasks.
pub(crate) fn add_warnings(
    sites: &mut Limited<Sums>,
    alloc: Global,
    tables: &Tables,
    warnings: &[AnyWarning],
) -> Result<(), AllocError>
    ensures { (before : List (List ℕ × SumsView)) → sites.old ≡ limited room sums.plus before
        → OnOk result (sites.new ≡ limited room sums.plus (before ++ flat_map (spec.warned_entries tables.now) warnings.now)) }
{
    for warning in warnings {
        add_warning(sites, alloc, tables, warning)?;
    }
    Ok(())
}
