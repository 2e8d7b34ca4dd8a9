//! The histograms of tasks that left, and of those that are there, added to the places of these tasks.
ghost use Rattle.std.specs.Prelude.{◌≡◌, ◌++◌, ℕ, List, OnOk, map, slice_get};
ghost use Rattle.std.specs.Option.{option_map_or};
ghost use Rattle.tk_series.specs.Limited.{limited, with_one};
ghost use Rattle.tk_odd.specs.Places.{place_of as site};
ghost use Rattle.tk_sites.specs.Site.{room};
ghost use Rattle.tk_sites.specs.TimedSites as spec;
ghost use Rattle.tk_sites.specs.Times as sums;
ghost use Rattle.tk_sites.specs.declared.times.SiteTimes.{SiteTimes as TimesView};

use crate::times::{SiteTimes, times_of};
use std::alloc::{AllocError, Global};
use tk_client::{LeftTask, Times};
use tk_ids::TaskId;
use tk_odd::place_of;
use tk_series::Limited;
use tk_stream::{PollTimes, Tables, Task};

fn add_left_one(
    sites: &mut Limited<SiteTimes>,
    alloc: Global,
    left: &LeftTask,
) -> Result<(), AllocError>
    ensures { OnOk result (sites.new ≡ with_one sums.plus_times (site left.now.task.info) (sums.times_of left.now.times) sites.old) }
{
    sites.add(place_of(alloc, &left.task.info)?, times_of(&left.times))
}

/// Adds the histograms of the tasks that left.
pub(crate) fn add_left_times(
    sites: &mut Limited<SiteTimes>,
    alloc: Global,
    tasks: &[LeftTask],
) -> Result<(), AllocError>
    ensures { (before : List (List ℕ × TimesView)) → sites.old ≡ limited room sums.plus_times before
        → OnOk result (sites.new ≡ limited room sums.plus_times (before ++ map spec.left_times tasks.now)) }
{
    for one in tasks {
        add_left_one(sites, alloc, one)?;
    }
    Ok(())
}

// A task's histograms, if it has any.
fn times_with(times: &Times, task: TaskId) -> Option<PollTimes>
    ensures { result ≡ spec.times_with times.now task }
{
    match times.with_id(task.value()) {
        Some((_, own)) => Some(*own),
        None => None,
    }
}

fn add_there_one(
    sites: &mut Limited<SiteTimes>,
    alloc: Global,
    times: &Times,
    task: &Task,
) -> Result<(), AllocError>
    ensures { OnOk result (sites.new
        ≡ with_one sums.plus_times (site task.now.info) (sums.times_of (spec.times_with times.now task.now.info.id)) sites.old) }
{
    let own = times_with(times, task.info.id);
    sites.add(place_of(alloc, &task.info)?, times_of(&own))
}

fn add_there_at(
    sites: &mut Limited<SiteTimes>,
    alloc: Global,
    tables: &Tables,
    times: &Times,
    place: usize,
) -> Result<(), AllocError>
    ensures { OnOk result (sites.new ≡ option_map_or
        (λ t. with_one sums.plus_times (site t.info) (sums.times_of (spec.times_with times.now t.info.id)) sites.old)
        (slice_get tables.now.tasks place) sites.old) }
{
    match tables.task_at(place) {
        Some(task) => add_there_one(sites, alloc, times, task),
        None => Ok(()),
    }
}

/// Adds the histograms of the tasks that are there.
pub(crate) fn add_there_times(
    sites: &mut Limited<SiteTimes>,
    alloc: Global,
    tables: &Tables,
    times: &Times,
) -> Result<(), AllocError>
    ensures { (before : List (List ℕ × TimesView)) → sites.old ≡ limited room sums.plus_times before
        → OnOk result (sites.new ≡ limited room sums.plus_times (before ++ map (spec.there_times times.now) tables.now.tasks)) }
{
    for place in 0..tables.task_count() {
        add_there_at(sites, alloc, tables, times, place)?;
    }
    Ok(())
}
