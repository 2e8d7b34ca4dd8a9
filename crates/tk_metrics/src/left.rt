//! What has left the tables of a stream.
ghost use Rattle.std.specs.Prelude.{◌≡◌, ◌++◌, ℕ, List, OnOk, map, is_some, not, slice_get, if◌then◌else◌};
ghost use Rattle.std.specs.Option.{option_map_or};
ghost use Rattle.tk_stream.specs.Tables.{resource_with};
ghost use Rattle.tk_client.specs.declared.change.LeftTask.{LeftTask as LeftView};
ghost use Rattle.tk_metrics.specs.Entries.{left_task};
ghost use Rattle.tk_metrics.specs.Keys.{labels_in};
ghost use Rattle.tk_metrics.specs.Leaving as spec;
ghost use Rattle.tk_series.specs.Series.{series_of, with_value};
ghost use Rattle.tk_metrics.specs.Sums as sums;
ghost use Rattle.tk_metrics.specs.declared.sums.PollOps.{PollOps as PollOpsView};
ghost use Rattle.tk_metrics.specs.declared.sums.Sums.{Sums as SumsView};

use crate::keys::Keys;
use crate::sums::{Counts, PollOps, Sums, ops_in, sums_left, type_label};
use std::alloc::{AllocError, Global};
use tk_client::LeftTask;
use tk_series::Series;
use tk_stream::{Resource, Table, Tables, Task};

/// What has left the tables of a stream: tasks by their labels, and resources by their types, each as it was last shown.
#[derive(Drop)]
pub struct Left {
    pub(crate) tasks: Series<Sums>,
    pub(crate) resources: Series<PollOps>,
}

fn add_left_one(
    tasks: &mut Series<Sums>,
    alloc: Global,
    keys: &Keys,
    task: &Task,
) -> Result<(), AllocError>
    ensures { OnOk result (tasks.new ≡ with_value sums.plus (labels_in keys.now task.now) (sums.sums_left task.now.row) tasks.old) }
{
    tasks.add(keys.labels(alloc, task)?, sums_left(&task.row))
}

fn add_left(
    tasks: &mut Series<Sums>,
    alloc: Global,
    keys: &Keys,
    left: &[LeftTask],
) -> Result<(), AllocError>
    ensures { (before : List (List ℕ × SumsView)) → tasks.old ≡ series_of sums.plus before
        → OnOk result (tasks.new ≡ series_of sums.plus (before ++ map (λ (l : LeftView). left_task keys.now l.task) left.now)) }
{
    for one in left {
        add_left_one(tasks, alloc, keys, &one.task)?;
    }
    Ok(())
}

// Adds what stays of the tasks that left.
fn keep_left(
    tasks: &mut Series<Sums>,
    alloc: Global,
    keys: &Keys,
    left: &[LeftTask],
) -> Result<(), AllocError>
    ensures { (before : List (List ℕ × SumsView)) → tasks.old ≡ series_of sums.plus before
        → OnOk result (tasks.new ≡ series_of sums.plus (before ++ spec.left_entries keys.now left.now)) }
{
    if keys.by().keeps_left() {
        add_left(tasks, alloc, keys, left)
    } else {
        Ok(())
    }
}

fn add_resource(
    resources: &mut Series<PollOps>,
    alloc: Global,
    resource: &Resource,
    counts: &Counts,
    new: &Tables,
) -> Result<(), AllocError>
    ensures { OnOk result (resources.new ≡ if not (is_some (resource_with resource.now.info.id new.now.resources))
        then with_value sums.both_ops (sums.type_label resource.now) (sums.poll_ops counts.now resource.now) resources.old else resources.old) }
{
    if new.resource(resource.info.id).is_none() {
        resources.add(type_label(alloc, resource)?, ops_in(counts, resource))
    } else {
        Ok(())
    }
}

fn add_resource_at(
    resources: &mut Series<PollOps>,
    alloc: Global,
    old: &Table<Resource>,
    counts: &Counts,
    new: &Tables,
    place: usize,
) -> Result<(), AllocError>
    ensures { OnOk result (resources.new ≡ option_map_or
        (λ r. if not (is_some (resource_with r.info.id new.now.resources))
        then with_value sums.both_ops (sums.type_label r) (sums.poll_ops counts.now r) resources.old else resources.old)
        (slice_get old.now place) resources.old) }
{
    match old.at(place) {
        Some(resource) => add_resource(resources, alloc, resource, counts, new),
        None => Ok(()),
    }
}

fn add_resources(
    resources: &mut Series<PollOps>,
    alloc: Global,
    old: &Table<Resource>,
    counts: &Counts,
    new: &Tables,
) -> Result<(), AllocError>
    ensures { (before : List (List ℕ × PollOpsView)) → resources.old ≡ series_of sums.both_ops before
        → OnOk result (resources.new ≡ series_of sums.both_ops (before ++ map (sums.resource_entry counts.now) (spec.resources_lost old.now new.now))) }
{
    for place in 0..old.len() {
        add_resource_at(resources, alloc, old, counts, new, place)?;
    }
    Ok(())
}

impl Left {
    ghost use Rattle.std.specs.Prelude.{◌≡◌, [], IfOk, OnOk};
    ghost use Rattle.tk_metrics.specs.Leaving as spec;
    ghost use Rattle.tk_metrics.specs.Metrics.{Gone};

    /// Nothing has left.
    pub fn none(alloc: Global) -> Left
        ensures { spec.Holds (record { tasks = []; resources = [] }) result }
    {
        Left {
            tasks: Series::new(alloc),
            resources: Series::new(alloc),
        }
    }

    pub(crate) fn copy(&self) -> Result<Left, AllocError>
        ensures { IfOk result (λ left. left ≡ self.now) }
    {
        let tasks = self.tasks.copy()?;
        let resources = self.resources.copy()?;
        Ok(Left { tasks, resources })
    }

    /// Takes the tasks that left with a line, as they are told apart; none where each is shown by itself.
    pub(crate) fn take_tasks(
        &mut self,
        alloc: Global,
        keys: &Keys,
        left: &[LeftTask],
    ) -> Result<(), AllocError>
        ensures { (gone : Gone) → spec.Holds gone self.old → OnOk result (spec.Holds (spec.with_tasks keys.now left.now gone) self.new) }
    {
        keep_left(&mut self.tasks, alloc, keys, left)
    }

    /// Takes those of the resources before a line that the tables after it have no more, by their types, with the poll counts that they last had.
    pub(crate) fn take_resources(
        &mut self,
        alloc: Global,
        old: &Table<Resource>,
        counts: &Counts,
        new: &Tables,
    ) -> Result<(), AllocError>
        ensures { (gone : Gone) → spec.Holds gone self.old → OnOk result (spec.Holds (spec.with_resources old.now counts.now new.now gone) self.new) }
    {
        add_resources(&mut self.resources, alloc, old, counts, new)
    }
}
