//! What leaves at a moment: the items that the last whole line showed closed for long enough.
//!
//! `specs/Retention.antt` says when an item is due.
ghost use Rattle.std.specs.Prelude.{◌≡◌, ◌≤◌, ◌++◌, length, map, filter, not, false, IfOk, OnOk};
ghost use Rattle.tk_stream.specs.Fronts.{as_told, told_tables, with_rows, FitsIn};
ghost use Rattle.tk_stream.specs.Kept.{kept};
ghost use Rattle.tk_stream.specs.Retention as retentions;
ghost use Rattle.tk_stream.specs.Tables.{is_among, staying};
ghost use Rattle.tk_stream.specs.Times.{times_id};

use crate::line::gone::Gone;
use crate::tables::Tables;
use crate::tables::table::Table;
use crate::tables::times::PollTimes;
use crate::told::Closes;
use crate::told::rows::ToldRows;
use crate::told::tables::ToldTables;
use indexmap::IndexSet;
use std::alloc::{AllocError, Global};
use std::marker::Model;
use tk_ids::{AsyncOpId, ResourceId, TaskId};

/// The ids of what leaves, in the order of the tables before. Each is found at once.
#[derive(Debug, Drop)]
pub struct Leaving {
    pub(crate) ops: IndexSet<u64>,
    pub(crate) resources: IndexSet<u64>,
    pub(crate) tasks: IndexSet<u64>,
}

impl Model for Leaving {
    ghost use Rattle.tk_stream.specs.Lines.{GoneView};

    ghost Value = { GoneView };

    ghost view = { λ l. record { ops = l.ops.keys; resources = l.resources.keys; tasks = l.tasks.keys } };
}

impl Leaving {
    /// Whether the task with an id leaves.
    pub fn has_task(&self, id: TaskId) -> bool
        ensures { result ≡ is_among self.now.tasks id }
    {
        self.tasks.contains(&id.value())
    }

    /// Whether the resource with an id leaves.
    pub fn has_resource(&self, id: ResourceId) -> bool
        ensures { result ≡ is_among self.now.resources id }
    {
        self.resources.contains(&id.value())
    }

    /// Whether the async operation with an id leaves.
    pub fn has_op(&self, id: AsyncOpId) -> bool
        ensures { result ≡ is_among self.now.ops id }
    {
        self.ops.contains(&id.value())
    }

    /// Removes the histograms of the tasks that leave. The others keep their order.
    pub fn remove_times(&self, times: &mut Table<(TaskId, PollTimes)>)
        ensures { times.new ≡ staying times_id self.now.tasks times.old }
    {
        times.remove_all(&self.tasks);
    }
}

fn is_due(closed: Option<u64>, now: u64, retention: u64) -> bool
    ensures { result ≡ retentions.is_due retention now closed }
{
    match closed {
        Some(at) => now.saturating_sub(at) >= retention,
        None => false,
    }
}

fn keep_key<T: Closes>(keys: &mut IndexSet<u64>, keeps: bool, item: &T) -> Result<(), AllocError>
    requires { is_among keys.old.keys (T.id_of item.now) ≡ false }
    ensures { OnOk result (keys.new.keys ≡ keys.old.keys ++ kept keeps (T.id_of item.now)) }
{
    if keeps {
        keys.insert(item.id())?;
    }
    Ok(())
}

fn keep_id<T: Closes>(ids: &mut Vec<T::Id>, keeps: bool, item: &T) -> Result<(), AllocError>
    ensures { OnOk result (ids.new.items ≡ ids.old.items ++ kept keeps (T.typed_id item.now)) }
{
    if keeps {
        ids.push(item.typed_id())?;
    }
    Ok(())
}

/// The ids of the items that were told, and are due as they were told.
fn due_ids<T: Closes>(
    alloc: Global,
    told: &ToldRows<T>,
    table: &Table<T>,
    now: u64,
    retention: u64,
) -> Result<(Vec<T::Id>, IndexSet<u64>), AllocError>
    requires { length told.now.rows ≤ length table.now }
    ensures ids { IfOk result (λ due. due.0.items ≡ map T.typed_id (filter (λ item. retentions.is_due retention now (T.closed_in (T.row_of item)))
        (with_rows (as_told T.with_row) table.now told.now.rows))) }
    ensures keys { IfOk result (λ due. due.1.keys ≡ retentions.due_ids T.id_of (λ item. T.closed_in (T.row_of item)) retention now
        (with_rows (as_told T.with_row) table.now told.now.rows)) }
{
    let mut ids = Vec::new(alloc);
    let mut keys = IndexSet::new(alloc);
    table.len();
    for i in 0..told.count() {
        let item = table.at(i).unwrap();
        let leaves = is_due(told.closed(i, item), now, retention);
        keep_key(&mut keys, leaves, item)?;
        keep_id(&mut ids, leaves, item)?;
    }
    Ok((ids, keys))
}

/// What leaves at a moment, as a line says it, and so that each is found.
pub(crate) fn due(
    alloc: Global,
    told: &ToldTables,
    tables: &Tables,
    now: u64,
    retention: u64,
) -> Result<(Gone, Leaving), AllocError>
    requires fits { FitsIn told.now tables.now }
    ensures gone { IfOk result (λ due. due.0 ≡ retentions.due_of (told_tables told.now tables.now) now retention) }
    ensures leaving { IfOk result (λ due. due.1 ≡ retentions.due_of (told_tables told.now tables.now) now retention) }
{
    let (op_ids, ops) = due_ids(alloc, &told.ops, &tables.ops, now, retention)?;
    let (resource_ids, resources) = due_ids(
        alloc,
        &told.resources,
        &tables.resources,
        now,
        retention,
    )?;
    let (task_ids, tasks) = due_ids(alloc, &told.tasks, &tables.tasks, now, retention)?;
    let gone = Gone {
        ops: op_ids,
        resources: resource_ids,
        tasks: task_ids,
    };
    let leaving = Leaving {
        ops,
        resources,
        tasks,
    };
    Ok((gone, leaving))
}

/// Leaves out what changes of those that leave.
pub(crate) fn leave_out<T: Closes>(stats: &mut Vec<T::Stats>, keys: &IndexSet<u64>)
    ensures { stats.new.items ≡ retentions.stats_without T.id_in keys.now.keys stats.old.items }
{
    stats.retain(
        |one: &T::Stats| -> bool
            ensures { result ≡ not (is_among keys.entry.now.keys (T.id_in one.now)) }
        { !keys.contains(&T::stats_id(one)) },
    );
}

/// Leaves out the histograms of tasks that leave.
pub(crate) fn leave_times_out(times: &mut Vec<(TaskId, PollTimes)>, tasks: &IndexSet<u64>)
    ensures { times.new.items ≡ retentions.stats_without times_id tasks.now.keys times.old.items }
{
    times.retain(
        |one: &(TaskId, PollTimes)| -> bool
            ensures { result ≡ not (is_among tasks.entry.now.keys (times_id one.now)) }
        { !tasks.contains(&one.0.value()) },
    );
}
