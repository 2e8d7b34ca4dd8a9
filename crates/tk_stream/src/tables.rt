//! The tables that a stream's lines change.
//!
//! Items stand in order of arrival, each found by its place or by its id. `specs/Tables.antt` says what tables hold and
//! what each call makes of them.
ghost use Rattle.std.specs.Prelude.{◌≡◌, ◌<◌, length, slice_get, None, IfOk, OnOk, OnErr, IfErr, IsOk, IsSome, option_map};

pub(crate) mod counts;
pub(crate) mod item;
pub(crate) mod op;
pub(crate) mod ranged;
pub(crate) mod resource;
pub(crate) mod rows;
pub(crate) mod slots;
pub(crate) mod table;
pub(crate) mod task;
pub(crate) mod times;

use crate::line::leaving::Leaving;
use crate::tables::op::Op;
use crate::tables::ranged::{see_number, see_totals};
use crate::tables::resource::Resource;
use crate::tables::table::Table;
use crate::tables::task::Task;
use indexmap::IndexSet;
use std::alloc::{AllocError, Global};
use std::marker::Model;
use tk_core::{OpRow, ResourceRow, TaskRow};
use tk_ids::{AsyncOpId, Dropped, OpInfo, ResourceId, ResourceInfo, TaskId, TaskInfo};

/// The items that were told of, the counts of poll operations, how many events were dropped, and the moment of the last
/// whole line.
#[derive(Debug, Drop)]
pub struct Tables {
    pub tasks: Table<Task>,
    pub resources: Table<Resource>,
    pub ops: Table<Op>,
    // The resource, and how many of its poll operations were ready and how many pending.
    pub counts: Table<(ResourceId, u64, u64)>,
    dropped: Dropped,
    // The key `now` of a line.
    moment: u64,
}

impl Model for Tables {
    ghost use Rattle.tk_stream.specs.Tables.{TablesView};

    ghost Value = { TablesView };

    ghost view = { λ t. record {
      tasks = t.tasks;
      resources = t.resources;
      ops = t.ops;
      counts = t.counts;
      dropped = t.dropped;
      now = t.moment;
    } };
}

/// Look-ups.
impl Tables {
    ghost use Rattle.tk_stream.specs.Tables.{AreDistinct, empty_tables, task_with, resource_with, op_with, counts_of, task_id, resource_id, op_id, counts_id};
    ghost use Rattle.tk_stream.specs.Places.{place_with};
    ghost use Rattle.tk_stream.specs.Streams.{AreInRange};

    /// Tables without items, whose numbers are 0. Today they take no memory, so there always are such tables.
    pub fn new(alloc: Global) -> Result<Tables, AllocError>
        ensures { result ≡ Ok empty_tables }
    {
        let dropped = Dropped {
            tasks: 0,
            resources: 0,
            ops: 0,
        };
        Ok(Tables {
            tasks: Table::new(alloc),
            resources: Table::new(alloc),
            ops: Table::new(alloc),
            counts: Table::new(alloc),
            dropped,
            moment: 0,
        })
    }

    /// How many tasks there are. No item stands twice.
    pub fn task_count(&self) -> usize
        ensures count { result ≡ length self.now.tasks }
        ensures distinct { AreDistinct self.now }
    {
        self.resources.len();
        self.ops.len();
        self.counts.len();
        self.tasks.len()
    }

    /// The task at a place, counted from 0 in order of arrival.
    pub fn task_at(&self, i: usize) -> Option<&Task>
        ensures { option_map (λ t. t.now) result ≡ slice_get self.now.tasks i }
    {
        self.tasks.at(i)
    }

    /// The task with an id.
    pub fn task(&self, id: TaskId) -> Option<&Task>
        ensures { option_map (λ t. t.now) result ≡ task_with id self.now.tasks }
    {
        self.tasks.with_id(id.value())
    }

    /// The place of the task with an id, counted from 0 in order of arrival.
    pub fn task_place(&self, id: TaskId) -> Option<usize>
        ensures { result ≡ place_with task_id id self.now.tasks }
    {
        self.tasks.place(id.value())
    }

    /// How many resources there are.
    pub fn resource_count(&self) -> usize
        ensures { result ≡ length self.now.resources }
    {
        self.resources.len()
    }

    /// The resource at a place, counted from 0 in order of arrival.
    pub fn resource_at(&self, i: usize) -> Option<&Resource>
        ensures { option_map (λ r. r.now) result ≡ slice_get self.now.resources i }
    {
        self.resources.at(i)
    }

    /// The resource with an id.
    pub fn resource(&self, id: ResourceId) -> Option<&Resource>
        ensures { option_map (λ r. r.now) result ≡ resource_with id self.now.resources }
    {
        self.resources.with_id(id.value())
    }

    /// The place of the resource with an id, counted from 0 in order of arrival.
    pub fn resource_place(&self, id: ResourceId) -> Option<usize>
        ensures { result ≡ place_with resource_id id self.now.resources }
    {
        self.resources.place(id.value())
    }

    /// How many async operations there are.
    pub fn op_count(&self) -> usize
        ensures { result ≡ length self.now.ops }
    {
        self.ops.len()
    }

    /// The async operation at a place, counted from 0 in order of arrival.
    pub fn op_at(&self, i: usize) -> Option<&Op>
        ensures { option_map (λ o. o.now) result ≡ slice_get self.now.ops i }
    {
        self.ops.at(i)
    }

    /// The async operation with an id.
    pub fn op(&self, id: AsyncOpId) -> Option<&Op>
        ensures { option_map (λ o. o.now) result ≡ op_with id self.now.ops }
    {
        self.ops.with_id(id.value())
    }

    /// The place of the async operation with an id, counted from 0 in order of arrival.
    pub fn op_place(&self, id: AsyncOpId) -> Option<usize>
        ensures { result ≡ place_with op_id id self.now.ops }
    {
        self.ops.place(id.value())
    }

    /// How many resources have poll counts.
    pub fn counted(&self) -> usize
        ensures { result ≡ length self.now.counts }
    {
        self.counts.len()
    }

    /// How many poll operations of a resource were ready, and how many pending. A resource need not be in the tables.
    pub fn poll_counts(&self, id: ResourceId) -> (u64, u64)
        ensures { result ≡ counts_of id self.now.counts }
    {
        match self.counts.with_id(id.value()) {
            Some((_, ready, pending)) => (*ready, *pending),
            None => (0, 0),
        }
    }

    /// The place of the poll counts of a resource, counted from 0 in order of arrival.
    pub fn counts_place(&self, id: ResourceId) -> Option<usize>
        ensures { result ≡ place_with counts_id id self.now.counts }
    {
        self.counts.place(id.value())
    }

    /// How many tasks, resources and async operations were dropped in all.
    pub fn dropped(&self) -> Dropped
        ensures { result ≡ self.now.dropped }
    {
        self.dropped
    }

    /// The moment of the last whole line, in nanoseconds, and 0 before the first.
    pub fn now(&self) -> u64
        ensures { result ≡ self.now.now }
    {
        self.moment
    }

    /// No item stands twice, and all values are in the ranges of their types. This does nothing.
    pub fn see(&self)
        ensures distinct { AreDistinct self.now }
        ensures in_range { AreInRange self.now }
    {
        self.tasks.len();
        self.resources.len();
        self.ops.len();
        self.counts.len();
        see_totals(self.dropped);
        see_number(self.moment);
    }

    /// Equal tables.
    pub fn copy(&self) -> Result<Tables, AllocError>
        ensures { IfOk result (λ tables. tables ≡ self.now) }
    {
        let tasks = self.tasks.copy()?;
        let resources = self.resources.copy()?;
        let ops = self.ops.copy()?;
        let counts = self.counts.copy()?;
        Ok(Tables {
            tasks,
            resources,
            ops,
            counts,
            dropped: self.dropped,
            moment: self.moment,
        })
    }
}

/// Changes.
impl Tables {
    ghost use Rattle.tk_stream.specs.Tables.{task_with, with_task, with_row, resource_with, with_resource, with_resource_row, op_with, with_op, with_op_row, counts_id, item_with, with_counts, cut_to};

    /// Puts a task last. Its id must not be there.
    ///
    /// Where there is no memory for it, the tables stay as they are and the info comes back.
    pub fn add_task(&mut self, info: TaskInfo, row: TaskRow) -> Result<(), (AllocError, TaskInfo)>
        requires { task_with info.id self.old.tasks ≡ None }
        ensures ok { OnOk result (self.new ≡ with_task self.old info row) }
        ensures err { OnErr result (self.new ≡ self.old) }
        ensures returned { IfErr result (λ e. e.1 ≡ info) }
    {
        match self.tasks.push(Task { info, row }) {
            Ok(()) => Ok(()),
            Err(task) => Err((AllocError, task.info)),
        }
    }

    /// Replaces the row of the task at a place.
    pub fn set_task(&mut self, i: usize, row: TaskRow)
        requires { i < length self.old.tasks }
        ensures { self.new ≡ record self.old { tasks = with_row self.old.tasks i row } }
    {
        self.tasks.set(i, row);
    }

    /// Puts a resource last. Its id must not be there.
    ///
    /// Where there is no memory for it, the tables stay as they are and the info comes back.
    pub fn add_resource(
        &mut self,
        info: ResourceInfo,
        row: ResourceRow,
    ) -> Result<(), (AllocError, ResourceInfo)>
        requires { resource_with info.id self.old.resources ≡ None }
        ensures ok { OnOk result (self.new ≡ with_resource self.old info row) }
        ensures err { OnErr result (self.new ≡ self.old) }
        ensures returned { IfErr result (λ e. e.1 ≡ info) }
    {
        match self.resources.push(Resource { info, row }) {
            Ok(()) => Ok(()),
            Err(resource) => Err((AllocError, resource.info)),
        }
    }

    /// Replaces the row of the resource at a place.
    pub fn set_resource(&mut self, i: usize, row: ResourceRow)
        requires { i < length self.old.resources }
        ensures { self.new ≡ record self.old { resources = with_resource_row self.old.resources i row } }
    {
        self.resources.set(i, row);
    }

    /// Puts an async operation last. Its id must not be there.
    ///
    /// Where there is no memory for it, the tables stay as they are and the info comes back.
    pub fn add_op(&mut self, info: OpInfo, row: OpRow) -> Result<(), (AllocError, OpInfo)>
        requires { op_with info.id self.old.ops ≡ None }
        ensures ok { OnOk result (self.new ≡ with_op self.old info row) }
        ensures err { OnErr result (self.new ≡ self.old) }
        ensures returned { IfErr result (λ e. e.1 ≡ info) }
    {
        match self.ops.push(Op { info, row }) {
            Ok(()) => Ok(()),
            Err(op) => Err((AllocError, op.info)),
        }
    }

    /// Replaces the row of the async operation at a place.
    pub fn set_op(&mut self, i: usize, row: OpRow)
        requires { i < length self.old.ops }
        ensures { self.new ≡ record self.old { ops = with_op_row self.old.ops i row } }
    {
        self.ops.set(i, row);
    }

    /// Replaces the poll counts of a resource. A resource without any goes last.
    ///
    /// Where there is no memory for a new one, the tables stay as they are. One that is there takes none.
    pub fn set_counts(&mut self, id: ResourceId, ready: u64, pending: u64) -> Result<(), AllocError>
        ensures ok { OnOk result (self.new ≡ with_counts self.old id ready pending) }
        ensures err { OnErr result (self.new ≡ self.old) }
        ensures replaced { IsSome (item_with counts_id id self.old.counts) → IsOk result }
    {
        self.counts.put((id, ready, pending))
    }

    /// Replaces the totals of what was dropped, and the moment of the last whole line, in nanoseconds.
    pub fn set_totals(&mut self, dropped: Dropped, now: u64)
        ensures { self.new ≡ record self.old { dropped = dropped; now = now } }
    {
        self.dropped = dropped;
        self.moment = now;
    }

    /// Keeps the first so many of each: tasks, resources, async operations and resources with poll counts.
    pub fn cut(&mut self, tasks: usize, resources: usize, ops: usize, counted: usize)
        ensures { self.new ≡ cut_to self.old tasks resources ops counted }
    {
        self.tasks.cut(tasks);
        self.resources.cut(resources);
        self.ops.cut(ops);
        self.counts.cut(counted);
    }
}

/// Removals. The other items keep their order, and poll counts stay. They can't fail for want of memory.
impl Tables {
    ghost use Rattle.tk_stream.specs.Tables.{without_task, without_resource, without_op};
    ghost use Rattle.tk_stream.specs.Applied.{without_gone};

    /// Removes the task with an id, if there is one.
    pub fn remove_task(&mut self, id: TaskId)
        ensures { self.new ≡ without_task self.old id }
    {
        self.tasks.remove(id.value());
    }

    /// Removes the resource with an id, if there is one.
    pub fn remove_resource(&mut self, id: ResourceId)
        ensures { self.new ≡ without_resource self.old id }
    {
        self.resources.remove(id.value());
    }

    /// Removes the async operation with an id, if there is one.
    pub fn remove_op(&mut self, id: AsyncOpId)
        ensures { self.new ≡ without_op self.old id }
    {
        self.ops.remove(id.value());
    }

    /// Removes what a line says is gone: the items of these ids. A few of many items leave at a small cost, and a large part of them
    /// by one walk through the items of their kind.
    pub fn remove_gone(
        &mut self,
        tasks: &IndexSet<u64>,
        resources: &IndexSet<u64>,
        ops: &IndexSet<u64>,
    )
        ensures { self.new ≡ without_gone self.old (record { ops = ops.now.keys; resources = resources.now.keys; tasks = tasks.now.keys }) }
    {
        self.tasks.remove_all(tasks);
        self.resources.remove_all(resources);
        self.ops.remove_all(ops);
    }

    /// Removes what leaves, as `remove_gone` does.
    pub fn leave(&mut self, leaving: &Leaving)
        ensures { self.new ≡ without_gone self.old leaving.now }
    {
        self.remove_gone(&leaving.tasks, &leaving.resources, &leaving.ops);
    }
}
