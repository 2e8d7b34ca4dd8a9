//! Lines of a stream.
//!
//! A line is one JSON object with exactly the keys of its version, which are written in this order, without spaces.
//!
//! | Key | Value |
//! |---|---|
//! | `dropped` | totals of what was dropped: `[tasks, resources, ops]` |
//! | `gone_ops`, `gone_resources`, `gone_tasks` | from version 2 on: lists of the ids of items that are gone |
//! | `new_ops` | a list of `{"attrs":[A..],"id":N,"parent":N or null,"resource":N,"source":"..."}` |
//! | `new_resources` | a list of `{"attrs":[A..],"id":N,"kind":"...","loc":[file, line, column],"parent":N or null,"type":"..."}` |
//! | `new_tasks` | a list of `{"id":N,"kind":"spawn" or "blocking","loc":[file, line, column],"name":"..."}` |
//! | `now` | the moment, in nanoseconds |
//! | `op_stats` | a list of rows: an object with `id` and the row's 11 fields, each under its name |
//! | `poll_counts` | a list of `[resource, ready, pending]` |
//! | `resource_stats` | a list of rows: an object with `id` and the row's 4 fields, each under its name |
//! | `seq` | the line's number, from 1 to 2^63 |
//! | `snapshot` | whether the line tells of the tables as a whole |
//! | `task_stats` | a list of rows: an object with `id` and the row's 16 fields, each under its name, where `sched` is `[sched, waited, so_far]` of a row that counts waits |
//! | `task_times` | in version 3: a list of histograms of poll times: `{"counts":[[bucket, count]..],"id":N,"longest":N}`, with `"longest_wait":N,"waits":[[bucket, count]..]` after `longest` where the task's waits have one, too |
//! | `v` | 1, 2, 3 or 4, the version of the format: 4 where a row tells `[sched, waited, so_far]` at `sched`, or a histogram of waits is told, with the keys of 1, 2 or 3 |
//!
//! Of a histogram only the buckets stand there that aren't empty, in rising order.
//!
//! A is `[name, unit or null, "u64", "bool" or "i64"]`. In a row `attrs` is a list of values, each a number, `true` or
//! `false`, or `[number]` for a signed one, and what is absent is `null`.
//!
//! `specs/Lines.antt` says what a line says, and `specs/Spelling.antt` how it is spelled.
ghost use Rattle.std.specs.Prelude.{◌≡◌, ◌||◌, [], true, option_map, unwrap_or};
ghost use Rattle.std.specs.List.{list_any};
ghost use Rattle.tk_stream.specs.Lines as lines;
ghost use Rattle.tk_stream.specs.Times.{has_waits};

pub(crate) mod between;
pub(crate) mod gone;
pub(crate) mod leaving;
mod making;
mod reading;
mod writing;

use crate::tables::times::PollTimes;
use gone::Gone;
use std::marker::Model;
use std::mem;
use tk_core::{OpRow, ResourceRow, TaskRow};
use tk_ids::{AsyncOpId, Dropped, OpInfo, ResourceId, ResourceInfo, TaskId, TaskInfo};

/// What one line of a stream says. A line is made by [`Line::between`] and [`Line::read`] alone.
#[derive(Debug, Drop)]
pub struct Line {
    dropped: Dropped,
    // What is gone, in version 2.
    gone: Option<Gone>,
    new_ops: Vec<OpInfo>,
    new_resources: Vec<ResourceInfo>,
    new_tasks: Vec<TaskInfo>,
    // The key `now`.
    moment: u64,
    op_stats: Vec<(AsyncOpId, OpRow)>,
    poll_counts: Vec<(ResourceId, u64, u64)>,
    resource_stats: Vec<(ResourceId, ResourceRow)>,
    seq: u64,
    snapshot: bool,
    task_stats: Vec<(TaskId, TaskRow)>,
    // Histograms of poll times, in version 3.
    task_times: Option<Vec<(TaskId, PollTimes)>>,
}

impl Model for Line {
    ghost use Rattle.std.specs.Prelude.{option_map};
    ghost use Rattle.tk_stream.specs.Lines.{LineView};
    ghost use Rattle.tk_stream.specs.Ranges.{IsLine};

    ghost Value = { LineView };

    ghost view = { λ l. record {
      dropped = l.dropped;
      gone = l.gone;
      new_ops = l.new_ops.items;
      new_resources = l.new_resources.items;
      new_tasks = l.new_tasks.items;
      now = l.moment;
      op_stats = l.op_stats.items;
      poll_counts = l.poll_counts.items;
      resource_stats = l.resource_stats.items;
      seq = l.seq;
      snapshot = l.snapshot;
      task_stats = l.task_stats.items;
      task_times = option_map (λ v. v.items) l.task_times;
    } };

    ghost invariant = { λ l. IsLine (record {
      dropped = l.dropped;
      gone = l.gone;
      new_ops = l.new_ops.items;
      new_resources = l.new_resources.items;
      new_tasks = l.new_tasks.items;
      now = l.moment;
      op_stats = l.op_stats.items;
      poll_counts = l.poll_counts.items;
      resource_stats = l.resource_stats.items;
      seq = l.seq;
      snapshot = l.snapshot;
      task_stats = l.task_stats.items;
      task_times = option_map (λ v. v.items) l.task_times;
    }) };
}

impl Line {
    ghost use Rattle.tk_stream.specs.Ranges.{IsLine};

    /// How many tasks, resources and async operations were dropped in all.
    pub fn dropped(&self) -> Dropped
        ensures { result ≡ self.now.dropped }
    {
        self.dropped
    }

    /// The ids of the async operations that are gone, in the order of the tables before. In version 1 there are none.
    pub fn gone_ops(&self) -> &[AsyncOpId]
        ensures { result.now ≡ (lines.gone_of self.now).ops }
    {
        match &self.gone {
            Some(gone) => gone.ops.as_slice(),
            None => &[],
        }
    }

    /// The ids of the resources that are gone, in the order of the tables before. In version 1 there are none.
    pub fn gone_resources(&self) -> &[ResourceId]
        ensures { result.now ≡ (lines.gone_of self.now).resources }
    {
        match &self.gone {
            Some(gone) => gone.resources.as_slice(),
            None => &[],
        }
    }

    /// The ids of the tasks that are gone, in the order of the tables before. In version 1 there are none.
    pub fn gone_tasks(&self) -> &[TaskId]
        ensures { result.now ≡ (lines.gone_of self.now).tasks }
    {
        match &self.gone {
            Some(gone) => gone.tasks.as_slice(),
            None => &[],
        }
    }

    /// The infos of the async operations that are new, in order of arrival.
    pub fn new_ops(&self) -> &[OpInfo]
        ensures { result.now ≡ self.now.new_ops }
    {
        self.new_ops.as_slice()
    }

    /// The infos of the resources that are new, in order of arrival.
    pub fn new_resources(&self) -> &[ResourceInfo]
        ensures { result.now ≡ self.now.new_resources }
    {
        self.new_resources.as_slice()
    }

    /// The infos of the tasks that are new, in order of arrival.
    pub fn new_tasks(&self) -> &[TaskInfo]
        ensures { result.now ≡ self.now.new_tasks }
    {
        self.new_tasks.as_slice()
    }

    /// Gives the infos of the new async operations away, in order of arrival: the line then tells of none.
    pub fn take_new_ops(&mut self) -> Vec<OpInfo>
        ensures infos { result.items ≡ self.old.new_ops }
        ensures rest { self.new ≡ record self.old { new_ops = [] } }
    {
        let alloc = *self.new_ops.allocator();
        mem::replace(&mut self.new_ops, Vec::new(alloc))
    }

    /// Gives the infos of the new resources away, in order of arrival: the line then tells of none.
    pub fn take_new_resources(&mut self) -> Vec<ResourceInfo>
        ensures infos { result.items ≡ self.old.new_resources }
        ensures rest { self.new ≡ record self.old { new_resources = [] } }
    {
        let alloc = *self.new_resources.allocator();
        mem::replace(&mut self.new_resources, Vec::new(alloc))
    }

    /// Gives the infos of the new tasks away, in order of arrival: the line then tells of none.
    pub fn take_new_tasks(&mut self) -> Vec<TaskInfo>
        ensures infos { result.items ≡ self.old.new_tasks }
        ensures rest { self.new ≡ record self.old { new_tasks = [] } }
    {
        let alloc = *self.new_tasks.allocator();
        mem::replace(&mut self.new_tasks, Vec::new(alloc))
    }

    /// The moment of the line, in nanoseconds.
    pub fn now(&self) -> u64
        ensures { result ≡ self.now.now }
    {
        self.moment
    }

    /// The rows of async operations that the line tells, each with its operation's id, in order of arrival.
    pub fn op_stats(&self) -> &[(AsyncOpId, OpRow)]
        ensures { result.now ≡ self.now.op_stats }
    {
        self.op_stats.as_slice()
    }

    /// The poll counts that the line tells, each a resource's ready and pending ones, in order of the first.
    pub fn poll_counts(&self) -> &[(ResourceId, u64, u64)]
        ensures { result.now ≡ self.now.poll_counts }
    {
        self.poll_counts.as_slice()
    }

    /// The rows of resources that the line tells, each with its resource's id, in order of arrival.
    pub fn resource_stats(&self) -> &[(ResourceId, ResourceRow)]
        ensures { result.now ≡ self.now.resource_stats }
    {
        self.resource_stats.as_slice()
    }

    /// The number of the line in its stream, from 1 to 2^63.
    pub fn seq(&self) -> u64
        ensures seq { result ≡ self.now.seq }
        ensures within { lines.is_seq result ≡ true }
    {
        self.seq
    }

    /// Whether the line tells of the tables as a whole.
    pub fn snapshot(&self) -> bool
        ensures { result ≡ self.now.snapshot }
    {
        self.snapshot
    }

    /// The rows of tasks that the line tells, each with its task's id, in order of arrival.
    pub fn task_stats(&self) -> &[(TaskId, TaskRow)]
        ensures { result.now ≡ self.now.task_stats }
    {
        self.task_stats.as_slice()
    }

    /// The histograms of poll times that the line tells, each with its task's id. In versions 1 and 2 there are none.
    pub fn task_times(&self) -> &[(TaskId, PollTimes)]
        ensures { result.now ≡ lines.times_of self.now }
    {
        match &self.task_times {
            Some(times) => times.as_slice(),
            None => &[],
        }
    }

    /// The line's values are in the ranges of their types. This does nothing.
    pub(crate) fn ranges(&self)
        ensures { IsLine self.now }
    {
        let _dropped = &self.dropped;
    }

    /// The version of the line's format: 4 where it tells waits, by a row that counts them or by a histogram of them. Otherwise 3 where it
    /// tells histograms, 2 where it says what is gone, and otherwise 1.
    pub fn version(&self) -> u64
        ensures { result ≡ lines.version self.now }
    {
        let waits = tell_waits(&self.task_stats, &self.task_times);
        version_of(waits, &self.gone, &self.task_times)
    }
}

// Whether some rows count waits.
fn count_waits(stats: &Vec<(TaskId, TaskRow)>) -> bool
    ensures { result ≡ list_any lines.counts_waits stats.now.items }
{
    stats.iter().any(|stats| stats.1.waits.is_some())
}

// Whether some histograms have those of waits beside them.
fn have_waits(times: &Option<Vec<(TaskId, PollTimes)>>) -> bool
    ensures { result ≡ list_any has_waits (unwrap_or (option_map (λ v. v.items) times.now) []) }
{
    match times {
        Some(times) => times.iter().any(|times| times.1.waits.is_some()),
        None => false,
    }
}

// Whether a line of these rows and histograms tells waits.
fn tell_waits(stats: &Vec<(TaskId, TaskRow)>, times: &Option<Vec<(TaskId, PollTimes)>>) -> bool
    ensures { result ≡ (list_any lines.counts_waits stats.now.items
        || list_any has_waits (unwrap_or (option_map (λ v. v.items) times.now) [])) }
{
    count_waits(stats) || have_waits(times)
}

// The version of the format, by whether a line tells waits, says what is gone, and tells histograms.
fn version_of(waits: bool, gone: &Option<Gone>, times: &Option<Vec<(TaskId, PollTimes)>>) -> u64
    ensures { result ≡ lines.version_with waits gone.now (option_map (λ v. v.items) times.now) }
{
    if waits {
        4
    } else if gone.is_none() {
        1
    } else if times.is_none() {
        2
    } else {
        3
    }
}
