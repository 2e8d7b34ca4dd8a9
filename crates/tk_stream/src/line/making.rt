//! Lines made of tables, and of what was told of them.
ghost use Rattle.std.specs.Prelude.{◌≡◌, ◌≤◌, true, length, option_map, IfOk, IfSome, IsSome, if◌then◌else◌, IsTrue};
ghost use Rattle.std.specs.List.{AllByRecursion};
ghost use Rattle.tk_stream.specs.Fronts.{as_told, with_rows};
ghost use Rattle.tk_stream.specs.Lines as lines;
ghost use Rattle.tk_stream.specs.Ranges as ranges;
ghost use Rattle.tk_stream.specs.Retention.{due_of, prune, line_pruned, told_without, times_staying};
ghost use Rattle.tk_stream.specs.Times.{times_with};

use super::Line;
use crate::error::LineError;
use crate::line::between::{infos_after, new_infos, stats_beside, told_stats};
use crate::line::gone::{Gone, see_gone};
use crate::line::leaving::{Leaving, due, leave_out, leave_times_out};
use crate::tables::Tables;
use crate::tables::op::Op;
use crate::tables::ranged::{see_all, see_number, see_totals};
use crate::tables::resource::Resource;
use crate::tables::table::Table;
use crate::tables::task::Task;
use crate::tables::times::PollTimes;
use crate::text::read_json::said::see_times;
use crate::told::rows::ToldRows;
use crate::told::tables::ToldTables;
use std::alloc::Global;
use tk_core::{OpRow, ResourceRow, TaskRow};
use tk_ids::{AsyncOpId, Dropped, OpInfo, ResourceId, ResourceInfo, TaskId, TaskInfo};

/// What a line tells of items: the infos of those that are new, and the rows and counts of those that are new or are others now.
#[derive(Drop)]
pub(super) struct Items {
    pub(super) new_ops: Vec<OpInfo>,
    pub(super) new_resources: Vec<ResourceInfo>,
    pub(super) new_tasks: Vec<TaskInfo>,
    pub(super) op_stats: Vec<(AsyncOpId, OpRow)>,
    pub(super) poll_counts: Vec<(ResourceId, u64, u64)>,
    pub(super) resource_stats: Vec<(ResourceId, ResourceRow)>,
    pub(super) task_stats: Vec<(TaskId, TaskRow)>,
}

impl Line {
    ghost use Rattle.std.specs.Prelude.{IfErr};
    ghost use Rattle.tk_stream.specs.Tables.{empty_tables};
    ghost use Rattle.tk_stream.specs.Fronts.{FitsIn, told_tables};

    /// The line of these parts. It says what is gone wherever it tells histograms.
    pub(super) fn of_parts(
        dropped: Dropped,
        gone: Option<Gone>,
        items: Items,
        moment: u64,
        seq: u64,
        snapshot: bool,
        task_times: Option<Vec<(TaskId, PollTimes)>>,
    ) -> Line
        requires numbered { lines.is_seq seq ≡ true }
        requires said { IfSome task_times (λ _. IsSome gone) }
        ensures { result ≡ record {
          dropped = dropped;
          gone = gone;
          new_ops = items.new_ops.items;
          new_resources = items.new_resources.items;
          new_tasks = items.new_tasks.items;
          now = moment;
          op_stats = items.op_stats.items;
          poll_counts = items.poll_counts.items;
          resource_stats = items.resource_stats.items;
          seq = seq;
          snapshot = snapshot;
          task_stats = items.task_stats.items;
          task_times = option_map (λ v. v.items) task_times;
        } }
    {
        let Items {
            new_ops,
            new_resources,
            new_tasks,
            op_stats,
            poll_counts,
            resource_stats,
            task_stats,
        } = items;
        see_numbers(dropped, moment);
        see_gone(&gone);
        see_times(&task_times);
        see_new_items(&new_ops, &new_resources, &new_tasks);
        see_stats(&op_stats, &poll_counts, &resource_stats, &task_stats);
        Line {
            dropped,
            gone,
            new_ops,
            new_resources,
            new_tasks,
            moment,
            op_stats,
            poll_counts,
            resource_stats,
            seq,
            snapshot,
            task_stats,
            task_times,
        }
    }

    /// The line of version 1 numbered `seq` that leads from the old tables to the new ones: the infos of the items that are new, the
    /// rows of the items that are new or whose row differs, the poll counts that are new or differ, each list in the order
    /// of the new tables, and the new tables' totals and moment. `seq` is 1 to 2^63.
    ///
    /// With `snapshot` it is the line that tells of the new tables as a whole. Then the old tables must be empty ones.
    ///
    /// Its one error is `Memory`.
    pub fn between(
        alloc: Global,
        old: &Tables,
        new: &Tables,
        seq: u64,
        snapshot: bool,
    ) -> Result<Line, LineError>
        requires numbered { lines.is_seq seq ≡ true }
        requires whole { IsTrue snapshot → old.now ≡ empty_tables }
        ensures ok { IfOk result (λ line. line ≡ if snapshot then lines.snapshot_of new.now seq
            else lines.line_between old.now new.now seq) }
        ensures memory { IfErr result (λ e. e ≡ LineError.Memory) }
    {
        let dropped = new.dropped();
        let new_ops = new_infos(alloc, &old.ops, &new.ops)?;
        let new_resources = new_infos(alloc, &old.resources, &new.resources)?;
        let new_tasks = new_infos(alloc, &old.tasks, &new.tasks)?;
        let moment = new.now();
        let op_stats = told_stats(alloc, &old.ops, &new.ops)?;
        let poll_counts = told_stats(alloc, &old.counts, &new.counts)?;
        let resource_stats = told_stats(alloc, &old.resources, &new.resources)?;
        let task_stats = told_stats(alloc, &old.tasks, &new.tasks)?;
        let items = Items {
            new_ops,
            new_resources,
            new_tasks,
            op_stats,
            poll_counts,
            resource_stats,
            task_stats,
        };
        Ok(Line::of_parts(dropped, None, items, moment, seq, snapshot, None))
    }

    /// The line numbered `seq` that leads from the tables that were told to the tables at a moment, or, where nothing was
    /// told, their snapshot.
    pub fn since(
        alloc: Global,
        told: &ToldTables,
        tables: &Tables,
        now: u64,
        seq: u64,
        snapshot: bool,
    ) -> Result<Line, LineError>
        requires numbered { lines.is_seq seq ≡ true }
        requires fits { FitsIn told.now tables.now }
        ensures ok { IfOk result (λ line. line ≡ record (lines.line_between (told_tables told.now tables.now) (record tables.now { now = now }) seq) { snapshot = snapshot }) }
        ensures memory { IfErr result (λ e. e ≡ LineError.Memory) }
    {
        let dropped = tables.dropped();
        let new_ops = infos_after(alloc, &told.ops, &tables.ops)?;
        let new_resources = infos_after(alloc, &told.resources, &tables.resources)?;
        let new_tasks = infos_after(alloc, &told.tasks, &tables.tasks)?;
        let op_stats = stats_beside(alloc, &told.ops, &tables.ops)?;
        let poll_counts = stats_beside(alloc, &told.counts, &tables.counts)?;
        let resource_stats = stats_beside(alloc, &told.resources, &tables.resources)?;
        let task_stats = stats_beside(alloc, &told.tasks, &tables.tasks)?;
        let items = Items {
            new_ops,
            new_resources,
            new_tasks,
            op_stats,
            poll_counts,
            resource_stats,
            task_stats,
        };
        Ok(Line::of_parts(dropped, None, items, now, seq, snapshot, None))
    }

    /// The line of version 2 numbered `seq` that leads from the tables that were told to the tables at a moment without what
    /// leaves then, and what leaves: the items that were told as closed, at least `retention` nanoseconds before the moment.
    ///
    /// Its one error is `Memory`.
    pub fn pruned(
        alloc: Global,
        told: &ToldTables,
        tables: &Tables,
        now: u64,
        seq: u64,
        retention: u64,
    ) -> Result<(Line, Leaving), LineError>
        requires numbered { lines.is_seq seq ≡ true }
        requires fits { FitsIn told.now tables.now }
        ensures line { IfOk result (λ made. made.0 ≡ line_pruned (told_tables told.now tables.now)
            (prune (record tables.now { now = now }) (told_tables told.now tables.now) now retention) seq) }
        ensures leaving { IfOk result (λ made. made.1 ≡ due_of (told_tables told.now tables.now) now retention) }
        ensures memory { IfErr result (λ e. e ≡ LineError.Memory) }
    {
        tables.see();
        let (gone, leaving) = due(alloc, told, tables, now, retention)?;
        let line = Line::since(alloc, told, tables, now, seq, false)?;
        Ok((line.without(gone, &leaving), leaving))
    }

    // The line as one that says what is gone, and tells nothing of it.
    fn without(self, gone: Gone, leaving: &Leaving) -> Line
        requires { gone ≡ leaving.now }
        ensures { result ≡ told_without leaving.now self }
    {
        self.ranges();
        gone.see();
        let mut line = self;
        leave_out::<Op>(&mut line.op_stats, &leaving.ops);
        leave_out::<Resource>(&mut line.resource_stats, &leaving.resources);
        leave_out::<Task>(&mut line.task_stats, &leaving.tasks);
        line.gone = Some(gone);
        line
    }

    /// The line as one of version 2 that removes nothing.
    pub fn removing_nothing(self) -> Line
        ensures { result ≡ lines.with_gone lines.none_gone self }
    {
        self.ranges();
        let alloc = *self.new_tasks.allocator();
        let mut line = self;
        line.gone = Some(Gone {
            ops: Vec::new(alloc),
            resources: Vec::new(alloc),
            tasks: Vec::new(alloc),
        });
        line
    }

    /// The line as one of version 3, which tells the histograms of poll times that are new since they were told, or are others now,
    /// but for those of tasks that leave.
    ///
    /// Its one error is `Memory`.
    pub fn telling(
        self,
        told: &ToldRows<(TaskId, PollTimes)>,
        times: &Table<(TaskId, PollTimes)>,
        leaving: Option<&Leaving>,
    ) -> Result<Line, LineError>
        requires fits { length told.now.rows ≤ length times.now }
        ensures ok { IfOk result (λ line. line ≡ lines.with_times (times_staying (option_map (λ l. l.now) leaving.entry)
            (lines.told_times (with_rows (as_told times_with) times.now told.now.rows) times.now)) self) }
        ensures memory { IfErr result (λ e. e ≡ LineError.Memory) }
    {
        let alloc = *self.new_tasks.allocator();
        let mut list = stats_beside(alloc, told, times)?;
        if let Some(leaving) = leaving {
            leave_times_out(&mut list, &leaving.tasks);
        }
        Ok(self.with_times(list))
    }

    /// The line as one of version 3, which tells the new histograms of poll times that are not among the old ones, or are others there.
    ///
    /// Its one error is `Memory`.
    pub fn telling_between(
        self,
        old: &Table<(TaskId, PollTimes)>,
        new: &Table<(TaskId, PollTimes)>,
    ) -> Result<Line, LineError>
        ensures ok { IfOk result (λ line. line ≡ lines.with_times (lines.told_times old.now new.now) self) }
        ensures memory { IfErr result (λ e. e ≡ LineError.Memory) }
    {
        let alloc = *self.new_tasks.allocator();
        let list = told_stats(alloc, old, new)?;
        Ok(self.with_times(list))
    }

    fn with_times(self, times: Vec<(TaskId, PollTimes)>) -> Line
        ensures { result ≡ lines.with_times times.items self }
    {
        see_all(&times);
        let mut line = self.saying_gone();
        line.ranges();
        line.task_times = Some(times);
        line
    }

    // The line as one that says what is gone: nothing, where it didn't say it.
    fn saying_gone(self) -> Line
        ensures { result ≡ record self { gone = Some (lines.gone_of self) } }
    {
        if self.gone.is_some() {
            self
        } else {
            self.removing_nothing()
        }
    }
}

// The numbers of a line are in their ranges.
fn see_numbers(dropped: Dropped, now: u64)
    ensures dropped { ranges.AreTotals dropped }
    ensures now { ranges.IsNumber now }
{
    see_totals(dropped);
    see_number(now);
}

// The infos of a line are in their ranges.
fn see_new_items(ops: &Vec<OpInfo>, resources: &Vec<ResourceInfo>, tasks: &Vec<TaskInfo>)
    ensures ops { AllByRecursion ranges.IsOpInfo ops.now.items }
    ensures resources { AllByRecursion ranges.IsResourceInfo resources.now.items }
    ensures tasks { AllByRecursion ranges.IsTaskInfo tasks.now.items }
{
    see_all(ops);
    see_all(resources);
    see_all(tasks);
}

// The rows and counts of a line are in their ranges.
fn see_stats(
    ops: &Vec<(AsyncOpId, OpRow)>,
    counts: &Vec<(ResourceId, u64, u64)>,
    resources: &Vec<(ResourceId, ResourceRow)>,
    tasks: &Vec<(TaskId, TaskRow)>,
)
    ensures ops { AllByRecursion ranges.AreOpStats ops.now.items }
    ensures counts { AllByRecursion ranges.AreCounts counts.now.items }
    ensures resources { AllByRecursion ranges.AreResourceStats resources.now.items }
    ensures tasks { AllByRecursion ranges.AreTaskStats tasks.now.items }
{
    see_all(ops);
    see_all(counts);
    see_all(resources);
    see_all(tasks);
}
