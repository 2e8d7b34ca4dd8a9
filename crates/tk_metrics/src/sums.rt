//! What is added up of tasks, and of resources.
ghost use Rattle.std.specs.Prelude.{◌≡◌, ◌++◌, ℕ, List, IfOk, OnOk, codes, map, slice_get};
ghost use Rattle.std.specs.Option.{option_map_or};
ghost use Rattle.tk_odd.specs.Places.{location_text};
ghost use Rattle.tk_report.specs.Pieces.{Puts};
ghost use Rattle.tk_series.specs.Series.{series_of, with_value};
ghost use Rattle.tk_metrics.specs.Entries.{task_entry};
ghost use Rattle.tk_metrics.specs.Keys.{labels_in};
ghost use Rattle.tk_metrics.specs.Samples.{label};
ghost use Rattle.tk_metrics.specs.Sums as spec;
ghost use Rattle.tk_metrics.specs.declared.sums.PollOps.{PollOps as PollOpsView};
ghost use Rattle.tk_metrics.specs.declared.sums.Sums.{Sums as SumsView};

use crate::by::By;
use crate::family::Count;
use crate::keys::Keys;
use crate::text::{put, put_label};
use std::alloc::{AllocError, Global};
use tk_core::TaskRow;
use tk_ids::ResourceId;
use tk_odd::without_numbers;
use tk_report::kind_word;
use tk_series::{Added, Series};
use tk_stream::{Resource, Table, Tables, Task};

/// What tasks have come to, and how many are in which state. A sum that passes 2^64 - 1 stays there.
#[derive(Clone, Copy, Debug, PartialEq, Eq)]
pub struct Sums {
    pub polls: u64,
    /// How long their polls ran, in nanoseconds.
    pub busy: u64,
    /// How long they waited, scheduled, in nanoseconds.
    pub sched: u64,
    pub wakes: u64,
    /// How many of the wakes came from within the task.
    pub own: u64,
    pub clones: u64,
    pub drops: u64,
    pub idle: u64,
    pub scheduled: u64,
    pub polling: u64,
    pub closed: u64,
    /// How long the longest poll has run that has not ended, in nanoseconds.
    pub open_poll: u64,
    /// How long the longest wait for a poll has lasted that has not ended, in nanoseconds.
    pub open_wait: u64,
    /// How long all that wait for a poll have waited for it, in nanoseconds.
    pub waiting: u64,
}

/// How many poll operations of resources were ready, and how many pending.
#[derive(Clone, Copy, Debug, PartialEq, Eq)]
pub struct PollOps {
    pub ready: u64,
    pub pending: u64,
}

impl Sums {
    ghost use Rattle.std.specs.Prelude.{◌≡◌};
    ghost use Rattle.tk_metrics.specs.Metrics.{count_of};

    pub(crate) fn count(self, count: Count) -> u64
        ensures { result ≡ count_of count self }
    {
        match count {
            Count::Polls => self.polls,
            Count::Busy => self.busy,
            Count::Scheduled => self.sched,
            Count::Wakes => self.wakes,
            Count::SelfWakes => self.own,
            Count::WakerClones => self.clones,
            Count::WakerDrops => self.drops,
            Count::OpenPoll => self.open_poll,
            Count::OpenWait => self.open_wait,
            Count::Waiting => self.waiting,
        }
    }
}

impl Added for Sums {
    ghost use Rattle.tk_metrics.specs.Sums as spec;

    ghost plus = { spec.plus };

    ghost copies = { λ a b e. e };

    fn plus(self, more: Sums) -> Sums {
        Sums {
            polls: self.polls.saturating_add(more.polls),
            busy: self.busy.saturating_add(more.busy),
            sched: self.sched.saturating_add(more.sched),
            wakes: self.wakes.saturating_add(more.wakes),
            own: self.own.saturating_add(more.own),
            clones: self.clones.saturating_add(more.clones),
            drops: self.drops.saturating_add(more.drops),
            idle: self.idle.saturating_add(more.idle),
            scheduled: self.scheduled.saturating_add(more.scheduled),
            polling: self.polling.saturating_add(more.polling),
            closed: self.closed.saturating_add(more.closed),
            open_poll: self.open_poll.max(more.open_poll),
            open_wait: self.open_wait.max(more.open_wait),
            waiting: self.waiting.saturating_add(more.waiting),
        }
    }
}

impl Added for PollOps {
    ghost use Rattle.tk_metrics.specs.Sums as spec;

    ghost plus = { spec.both_ops };

    ghost copies = { λ a b e. e };

    fn plus(self, more: PollOps) -> PollOps {
        PollOps {
            ready: self.ready.saturating_add(more.ready),
            pending: self.pending.saturating_add(more.pending),
        }
    }
}

// ---- tasks

fn one_if(holds: bool) -> u64
    ensures { result ≡ spec.one_if holds }
{
    if holds { 1 } else { 0 }
}

/// What a task that has left had come to.
pub(crate) fn sums_left(row: &TaskRow) -> Sums
    ensures { result ≡ spec.sums_left row.now }
{
    Sums {
        polls: row.polls,
        busy: row.busy,
        sched: row.waited().unwrap_or(row.sched),
        wakes: row.wakes,
        own: row.self_wakes,
        clones: row.clones,
        drops: row.drops,
        idle: 0,
        scheduled: 0,
        polling: 0,
        closed: 0,
        open_poll: 0,
        open_wait: 0,
        waiting: 0,
    }
}

fn sums_of(row: &TaskRow, now: u64) -> Sums
    ensures { result ≡ spec.sums_of now row.now }
{
    let open = row.dropped.is_none();
    let wait = row.waits_for(now);
    Sums {
        idle: one_if(open && !row.polling && !row.scheduled),
        scheduled: one_if(open && !row.polling && row.scheduled),
        polling: one_if(open && row.polling),
        closed: one_if(!open),
        open_poll: row.runs_for(now),
        open_wait: wait,
        waiting: wait,
        ..sums_left(row)
    }
}

fn put_name_labels(out: &mut Vec<u8>, name: &[u8], task: &Task) -> Result<(), AllocError>
    ensures { OnOk result (Puts out.old.items out.new.items (spec.name_labels name.now task.now)) }
{
    put_label(out, "name", name)?;
    put(out, ",")?;
    put_label(out, "kind", kind_word(task.info.kind).as_bytes())
}

fn put_id_label(out: &mut Vec<u8>, alloc: Global, task: &Task) -> Result<(), AllocError>
    ensures { OnOk result (Puts out.old.items out.new.items (spec.id_label task.now)) }
{
    let id = format!(in alloc; "{}", task.info.id)?;
    put_label(out, "id", id.as_bytes())
}

fn put_labels_by_id(out: &mut Vec<u8>, alloc: Global, task: &Task) -> Result<(), AllocError>
    ensures { OnOk result (Puts out.old.items out.new.items (spec.task_labels By.Id task.now)) }
{
    put_id_label(out, alloc, task)?;
    put(out, ",")?;
    put_name_labels(out, task.info.name.as_bytes(), task)
}

fn put_location(out: &mut Vec<u8>, alloc: Global, task: &Task) -> Result<(), AllocError>
    ensures { OnOk result (Puts out.old.items out.new.items (label (codes "location") (location_text task.now.info.location))) }
{
    let at = &task.info.location;
    let text = format!(in alloc; "{}:{}:{}", at.file, at.line, at.column)?;
    put_label(out, "location", text.as_bytes())
}

fn put_labels_by_place(out: &mut Vec<u8>, alloc: Global, task: &Task) -> Result<(), AllocError>
    ensures { OnOk result (Puts out.old.items out.new.items (spec.task_labels By.Place task.now)) }
{
    let name = without_numbers(alloc, task.info.name.as_bytes())?;
    put_name_labels(out, name.as_slice(), task)?;
    put(out, ",")?;
    put_location(out, alloc, task)
}

fn put_task_labels(out: &mut Vec<u8>, alloc: Global, by: By, task: &Task) -> Result<(), AllocError>
    ensures { OnOk result (Puts out.old.items out.new.items (spec.task_labels by task.now)) }
{
    match by {
        By::Name => put_name_labels(out, task.info.name.as_bytes(), task),
        By::Id => put_labels_by_id(out, alloc, task),
        By::Place => put_labels_by_place(out, alloc, task),
    }
}

/// The labels of a task itself.
pub(crate) fn task_labels(alloc: Global, by: By, task: &Task) -> Result<Vec<u8>, AllocError>
    ensures { IfOk result (λ labels. labels.items ≡ spec.task_labels by task.now) }
{
    let mut labels = Vec::new(alloc);
    put_task_labels(&mut labels, alloc, by, task)?;
    Ok(labels)
}

fn add_task_at(
    series: &mut Series<Sums>,
    alloc: Global,
    keys: &Keys,
    tables: &Tables,
    place: usize,
) -> Result<(), AllocError>
    ensures { OnOk result (series.new ≡ option_map_or
        (λ t. with_value spec.plus (labels_in keys.now t) (spec.sums_of tables.now.now t.row) series.old) (slice_get tables.now.tasks place) series.old) }
{
    match tables.task_at(place) {
        Some(task) => {
            let sums = sums_of(&task.row, tables.now());
            series.add(keys.labels(alloc, task)?, sums)
        }
        None => Ok(()),
    }
}

/// Adds the tasks of tables.
pub(crate) fn add_tasks(
    series: &mut Series<Sums>,
    alloc: Global,
    keys: &Keys,
    tables: &Tables,
) -> Result<(), AllocError>
    ensures { (before : List (List ℕ × SumsView)) → series.old ≡ series_of spec.plus before
        → OnOk result (series.new ≡ series_of spec.plus (before ++ map (task_entry keys.now tables.now.now) tables.now.tasks)) }
{
    for place in 0..tables.task_count() {
        add_task_at(series, alloc, keys, tables, place)?;
    }
    Ok(())
}

// ---- resources

/// How many poll operations of resources were ready, and how many pending.
pub(crate) type Counts = Table<(ResourceId, u64, u64)>;

/// Those of a resource.
pub(crate) fn ops_in(counts: &Counts, resource: &Resource) -> PollOps
    ensures { result ≡ spec.poll_ops counts.now resource.now }
{
    match counts.with_id(resource.info.id.value()) {
        Some((_, ready, pending)) => PollOps {
            ready: *ready,
            pending: *pending,
        },
        None => PollOps {
            ready: 0,
            pending: 0,
        },
    }
}

fn poll_ops(tables: &Tables, resource: &Resource) -> PollOps
    ensures { result ≡ spec.poll_ops tables.now.counts resource.now }
{
    let (ready, pending) = tables.poll_counts(resource.info.id);
    PollOps { ready, pending }
}

pub(crate) fn type_label(alloc: Global, resource: &Resource) -> Result<Vec<u8>, AllocError>
    ensures { IfOk result (λ labels. labels.items ≡ spec.type_label resource.now) }
{
    let mut labels = Vec::new(alloc);
    put_label(&mut labels, "type", resource.info.concrete.as_bytes())?;
    Ok(labels)
}

fn add_resource_at(
    series: &mut Series<PollOps>,
    alloc: Global,
    tables: &Tables,
    place: usize,
) -> Result<(), AllocError>
    ensures { OnOk result (series.new ≡ option_map_or
        (λ r. with_value spec.both_ops (spec.type_label r) (spec.poll_ops tables.now.counts r) series.old)
        (slice_get tables.now.resources place) series.old) }
{
    match tables.resource_at(place) {
        Some(resource) => series.add(type_label(alloc, resource)?, poll_ops(tables, resource)),
        None => Ok(()),
    }
}

/// Adds the resources of tables.
pub(crate) fn add_resources(
    series: &mut Series<PollOps>,
    alloc: Global,
    tables: &Tables,
) -> Result<(), AllocError>
    ensures { (before : List (List ℕ × PollOpsView)) → series.old ≡ series_of spec.both_ops before
        → OnOk result (series.new ≡ series_of spec.both_ops (before ++ map (spec.resource_entry tables.now.counts) tables.now.resources)) }
{
    for place in 0..tables.resource_count() {
        add_resource_at(series, alloc, tables, place)?;
    }
    Ok(())
}
