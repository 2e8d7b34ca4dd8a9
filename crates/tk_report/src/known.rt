//! What the lines of a stream show of how long polls ran, which need no histogram for it.
ghost use Rattle.std.specs.Prelude.{◌≡◌, [], false, map, nat_eq, slice_get, IfOk, OnOk};
ghost use Rattle.std.specs.Option.{option_map_or};
ghost use Rattle.indexmap.specs.IndexMap.{insert_entry};
ghost use Rattle.tk_report.specs.Known as spec;
ghost use Rattle.tk_report.specs.Watched as inner;

use crate::runs::Ended;
use indexmap::IndexMap;
use std::alloc::{AllocError, Global};
use tk_client::{Change, Times, is_spawn};
use tk_core::TaskRow;
use tk_ids::TaskId;
use tk_reading::Observes;
use tk_stream::{PollTimes, Table, Tables, Task};

/// What is known of the polls of a task.
#[derive(Clone, Copy, Debug, PartialEq, Eq)]
pub struct Known {
    /// Those that had ended by the last line.
    pub ended: Ended,
    /// For how many nanoseconds the longest ran, at least.
    pub longest: u64,
}

impl Known {
    fn none() -> Known
        ensures { result ≡ spec.unknown }
    {
        Known {
            ended: Ended::none(),
            longest: 0,
        }
    }

    // After a line at this moment, in which the task has this row.
    fn after(self, now: u64, row: &TaskRow) -> Known
        ensures { result ≡ spec.known_after now self row.now }
    {
        let run = row.runs_for(now).max(self.ended.run_since(row));
        Known {
            ended: Ended::of(row),
            longest: self.longest.max(run),
        }
    }
}

type Tasks = IndexMap<u64, Known>;

/// What lines have shown of the polls of the tasks that the tables of the last one have.
#[derive(Drop)]
pub(crate) struct Polls {
    alloc: Global,
    pub(crate) tasks: Tasks,
}

fn known_at(tasks: &Tasks, id: u64) -> Known
    ensures { result ≡ inner.known_at tasks.now.entries id }
{
    match tasks.get(&id) {
        Some(known) => *known,
        None => Known::none(),
    }
}

// Notes what is known of the task at a place after a line.
fn note_at(
    noted: &mut Tasks,
    before: &Tasks,
    tables: &Tables,
    place: usize,
) -> Result<(), AllocError>
    ensures { OnOk result (noted.new.entries ≡ option_map_or
        (λ t. insert_entry nat_eq noted.old.entries t.info.id (inner.noted tables.now.now before.now.entries t).1)
        (slice_get tables.now.tasks place) noted.old.entries) }
{
    let Some(task) = tables.task_at(place) else {
        return Ok(());
    };
    let id = task.info.id.value();
    let known = known_at(before, id).after(tables.now(), &task.row);
    noted.insert(id, known)?;
    Ok(())
}

// What is known of the tasks of tables after a line, by what was known before it.
fn note_all(alloc: Global, before: &Tasks, tables: &Tables) -> Result<Tasks, AllocError>
    ensures { IfOk result (λ noted. noted.entries ≡ map (inner.noted tables.now.now before.now.entries) tables.now.tasks) }
{
    let mut noted = IndexMap::new(alloc);
    for place in 0..tables.task_count() {
        note_at(&mut noted, before, tables, place)?;
    }
    Ok(noted)
}

// Whether a task has a histogram among these.
fn is_timed(times: &Table<(TaskId, PollTimes)>, task: &Task) -> bool
    ensures { result ≡ spec.is_timed times.now task.now }
{
    times.with_id(task.info.id.value()).is_some()
}

impl Polls {
    /// Before the first line.
    pub fn new(alloc: Global) -> Polls
        ensures { inner.Follows [] result.tasks.entries }
    {
        Polls {
            alloc,
            tasks: IndexMap::new(alloc),
        }
    }

    // Adds what is known of the task at a place, where it has no histogram.
    fn complete_at(
        &self,
        times: &mut Table<(TaskId, PollTimes)>,
        tables: &Tables,
        place: usize,
    ) -> Result<(), AllocError>
        ensures { OnOk result (times.new ≡ option_map_or
            (λ t. spec.with_known (λ id. (inner.known_at self.now.tasks.entries id).longest) times.old t) (slice_get tables.now.tasks place) times.old) }
    {
        let Some(task) = tables.task_at(place) else {
            return Ok(());
        };
        if is_timed(times, task) {
            return Ok(());
        }
        let id = task.info.id;
        let known = PollTimes {
            longest: known_at(&self.tasks, id.value()).longest,
            counts: [0; 14],
            waits: None,
        };
        match times.push((id, known)) {
            Ok(()) => Ok(()),
            Err(_) => Err(AllocError),
        }
    }

    /// A stream's histograms, and in place of one that a task of its tables has not, how long its longest poll is known to have run.
    pub fn completed(
        &self,
        tables: &Tables,
        times: &Table<(TaskId, PollTimes)>,
    ) -> Result<Table<(TaskId, PollTimes)>, AllocError>
        ensures { IfOk result (λ all. all ≡ spec.completed (λ id. (inner.known_at self.now.tasks.entries id).longest) tables.now.tasks times.now) }
    {
        let mut all = times.copy()?;
        for place in 0..tables.task_count() {
            self.complete_at(&mut all, tables, place)?;
        }
        Ok(all)
    }
}

impl Observes for Polls {
    ghost use Rattle.tk_reading.specs.Shown.{tables_of};

    ghost saw = { λ from seen polls. inner.Follows (tables_of seen) polls.tasks.entries };

    fn line(
        &mut self,
        tables: &Tables,
        _times: &Times,
        _change: &Change,
    ) -> Result<(), AllocError> {
        self.tasks = note_all(self.alloc, &self.tasks, tables)?;
        Ok(())
    }
}

// Whether the task at a place may be warned of, and has no histogram though a poll of it has ended.
fn is_untimed_at(tables: &Tables, times: &Table<(TaskId, PollTimes)>, place: usize) -> bool
    ensures { result ≡ option_map_or (spec.is_untimed times.now) (slice_get tables.now.tasks place) false }
{
    match tables.task_at(place) {
        Some(task) => {
            let ended = Ended::of(&task.row).polls;
            is_spawn(task.info.kind) && ended >= 1 && !is_timed(times, task)
        }
        None => false,
    }
}

/// Whether some task that may be warned of has no histogram though a poll of it has ended.
pub(crate) fn are_untimed(tables: &Tables, times: &Table<(TaskId, PollTimes)>) -> bool
    ensures { result ≡ spec.are_untimed tables.now times.now }
{
    for place in 0..tables.task_count() {
        if is_untimed_at(tables, times, place) {
            return true;
        }
    }
    false
}
