//! Histograms of tasks, added up where their labels are the same.
ghost use Rattle.std.specs.Prelude.{◌≡◌, ◌∷◌, [], IfOk, OnOk, flat_map, option_and_then, slice_get};
ghost use Rattle.std.specs.Option.{option_map_or};
ghost use Rattle.tk_core.specs.Lists.{capped};
ghost use Rattle.tk_core.specs.Percentiles.{total_of};
ghost use Rattle.tk_report.specs.Pieces.{Puts};
ghost use Rattle.tk_report.specs.Timed.{sums_from};
ghost use Rattle.tk_stream.specs.declared.tables.times.PollTimes.{PollTimes as TimesView};
ghost use Rattle.tk_metrics.specs.Histograms as spec;
ghost use Rattle.tk_metrics.specs.Keys.{labels_in};
ghost use Rattle.tk_metrics.specs.Timed as timed;

use crate::counted::Counted;
use crate::family::Timing;
use crate::keys::Keys;
use crate::text::{put, put_bytes, put_label, put_seconds};
use std::alloc::{AllocError, Global};
use tk_client::{LeftTask, Times};
use tk_core::TaskRow;
use tk_ids::TaskId;
use tk_series::Series;
use tk_stream::{PollTimes, Tables, Task};

// The bounds of the buckets, in nanoseconds.
const BOUNDS: [u64; 13] = [
    1 << 14,
    1 << 15,
    1 << 16,
    1 << 17,
    1 << 18,
    1 << 19,
    1 << 20,
    1 << 21,
    1 << 22,
    1 << 23,
    1 << 24,
    1 << 25,
    1 << 26,
];

// ---- one histogram

fn put_bound(out: &mut Vec<u8>, bucket: usize) -> Result<(), AllocError>
    ensures { OnOk result (Puts out.old.items out.new.items (spec.bound_text bucket)) }
{
    match BOUNDS.get(bucket) {
        Some(bound) => put_seconds(out, *bound),
        None => put(out, "+Inf"),
    }
}

fn bound_text(alloc: Global, bucket: usize) -> Result<Vec<u8>, AllocError>
    ensures { IfOk result (λ text. text.items ≡ spec.bound_text bucket) }
{
    let mut text = Vec::new(alloc);
    put_bound(&mut text, bucket)?;
    Ok(text)
}

fn bucket_key(alloc: Global, labels: &[u8], bucket: usize) -> Result<Vec<u8>, AllocError>
    ensures { IfOk result (λ key. key.items ≡ spec.bucket_key labels.now bucket) }
{
    let bound = bound_text(alloc, bucket)?;
    let mut key = Vec::new(alloc);
    put(&mut key, "_bucket{")?;
    put_bytes(&mut key, labels)?;
    put(&mut key, ",")?;
    put_label(&mut key, "le", bound.as_slice())?;
    put(&mut key, "}")?;
    Ok(key)
}

fn whole_key(alloc: Global, word: &str, labels: &[u8]) -> Result<Vec<u8>, AllocError>
    ensures { IfOk result (λ key. key.items ≡ spec.whole_key word.now labels.now) }
{
    let mut key = Vec::new(alloc);
    put(&mut key, word)?;
    put_bytes(&mut key, labels)?;
    put(&mut key, "}")?;
    Ok(key)
}

fn counted(number: u64) -> Counted
    ensures { result ≡ spec.counted number }
{
    Counted {
        number,
        is_time: false,
    }
}

fn lasted(number: u64) -> Counted
    ensures { result ≡ spec.lasted number }
{
    Counted {
        number,
        is_time: true,
    }
}

fn add_bucket(
    series: &mut Series<Counted>,
    alloc: Global,
    labels: &[u8],
    bucket: usize,
    seen: u64,
) -> Result<(), AllocError>
    ensures { OnOk result (series.new ≡ spec.with_all series.old ((spec.bucket_key labels.now bucket, spec.counted seen) ∷ [])) }
{
    series.add(bucket_key(alloc, labels, bucket)?, counted(seen))
}

// Adds the buckets, and answers how many times lie in all of them.
fn add_buckets(
    series: &mut Series<Counted>,
    alloc: Global,
    labels: &[u8],
    counts: &[u64; 14],
) -> Result<u64, AllocError>
    ensures adds { OnOk result (series.new ≡ spec.with_all series.old (spec.buckets_from labels.now 0 (sums_from 0 counts.now))) }
    ensures total { IfOk result (λ total. total ≡ capped (total_of counts.now)) }
{
    let mut seen = 0u64;
    let mut bucket = 0;
    for count in counts {
        seen = seen.saturating_add(*count);
        add_bucket(series, alloc, labels, bucket, seen)?;
        bucket += 1;
    }
    Ok(seen)
}

fn add_histogram(
    series: &mut Series<Counted>,
    alloc: Global,
    labels: &[u8],
    counts: &[u64; 14],
    sum: u64,
) -> Result<(), AllocError>
    ensures { OnOk result (series.new ≡ spec.with_all series.old (spec.histogram labels.now counts.now sum)) }
{
    let total = add_buckets(series, alloc, labels, counts)?;
    series.add(whole_key(alloc, "_sum{", labels)?, lasted(sum))?;
    series.add(whole_key(alloc, "_count{", labels)?, counted(total))
}

// ---- tasks

fn counts_in(timing: Timing, times: &PollTimes) -> Option<[u64; 14]>
    ensures { result ≡ spec.counts_in timing times.now }
{
    match timing {
        Timing::Polls => Some(times.counts),
        Timing::Waits => {
            let waits = times.waits?;
            Some(waits.counts)
        }
    }
}

fn counts_with(timing: Timing, times: &Times, task: TaskId) -> Option<[u64; 14]>
    ensures { result ≡ spec.counts_with timing times.now task }
{
    match times.with_id(task.value()) {
        Some(entry) => counts_in(timing, &entry.1),
        None => None,
    }
}

fn sum_in(timing: Timing, row: &TaskRow) -> u64
    ensures { result ≡ spec.sum_in timing row.now }
{
    match timing {
        Timing::Polls => row.busy,
        Timing::Waits => row.waited().unwrap_or(row.sched),
    }
}

// Adds a histogram of a task, where there is one.
fn add_counts(
    series: &mut Series<Counted>,
    alloc: Global,
    timing: Timing,
    keys: &Keys,
    task: &Task,
    counts: Option<[u64; 14]>,
) -> Result<(), AllocError>
    ensures { OnOk result (series.new ≡ spec.with_all series.old (option_map_or
        (λ all. spec.histogram (labels_in keys.now task.now) all (spec.sum_in timing task.now.row)) counts [])) }
{
    match counts {
        Some(counts) => {
            let labels = keys.labels(alloc, task)?;
            let sum = sum_in(timing, &task.row);
            add_histogram(series, alloc, labels.as_slice(), &counts, sum)
        }
        None => Ok(()),
    }
}

// Adds the histogram of a task, where it has one.
fn add_task(
    series: &mut Series<Counted>,
    alloc: Global,
    timing: Timing,
    keys: &Keys,
    times: &Times,
    task: &Task,
) -> Result<(), AllocError>
    ensures { OnOk result (series.new ≡ spec.with_all series.old (spec.task_histogram timing keys.now times.now task.now)) }
{
    let counts = counts_with(timing, times, task.info.id);
    add_counts(series, alloc, timing, keys, task, counts)
}

fn add_there_at(
    series: &mut Series<Counted>,
    alloc: Global,
    timing: Timing,
    keys: &Keys,
    tables: &Tables,
    times: &Times,
    place: usize,
) -> Result<(), AllocError>
    ensures { OnOk result (series.new ≡ spec.with_all series.old
        (option_map_or (spec.task_histogram timing keys.now times.now) (slice_get tables.now.tasks place) [])) }
{
    match tables.task_at(place) {
        Some(task) => add_task(series, alloc, timing, keys, times, task),
        None => Ok(()),
    }
}

// Adds the histograms of tasks that are there.
fn add_there(
    series: &mut Series<Counted>,
    alloc: Global,
    timing: Timing,
    keys: &Keys,
    tables: &Tables,
    times: &Times,
) -> Result<(), AllocError>
    ensures { OnOk result (series.new ≡ spec.with_all series.old (flat_map (spec.task_histogram timing keys.now times.now) tables.now.tasks)) }
{
    for place in 0..tables.task_count() {
        add_there_at(series, alloc, timing, keys, tables, times, place)?;
    }
    Ok(())
}

fn left_counts(timing: Timing, left: &LeftTask) -> Option<[u64; 14]>
    ensures { result ≡ option_and_then (λ (x : TimesView). spec.counts_in timing x) left.now.times }
{
    match &left.times {
        Some(times) => counts_in(timing, times),
        None => None,
    }
}

fn add_left_one(
    series: &mut Series<Counted>,
    alloc: Global,
    timing: Timing,
    keys: &Keys,
    left: &LeftTask,
) -> Result<(), AllocError>
    ensures { OnOk result (series.new ≡ spec.with_all series.old (spec.left_histogram timing keys.now left.now)) }
{
    let counts = left_counts(timing, left);
    add_counts(series, alloc, timing, keys, &left.task, counts)
}

fn add_left(
    series: &mut Series<Counted>,
    alloc: Global,
    timing: Timing,
    keys: &Keys,
    left: &[LeftTask],
) -> Result<(), AllocError>
    ensures { OnOk result (series.new ≡ spec.with_all series.old (flat_map (spec.left_histogram timing keys.now) left.now)) }
{
    for one in left {
        add_left_one(series, alloc, timing, keys, one)?;
    }
    Ok(())
}

// Adds what stays of the histograms of tasks that left.
fn keep_left(
    series: &mut Series<Counted>,
    alloc: Global,
    timing: Timing,
    keys: &Keys,
    left: &[LeftTask],
) -> Result<(), AllocError>
    ensures { OnOk result (series.new ≡ spec.with_all series.old (timed.left_times timing keys.now left.now)) }
{
    if keys.by().keeps_left() {
        add_left(series, alloc, timing, keys, left)
    } else {
        Ok(())
    }
}

/// The histograms of tasks, of their polls and of their waits.
#[derive(Drop)]
pub(crate) struct Histograms {
    pub polls: Series<Counted>,
    pub waits: Series<Counted>,
}

impl Histograms {
    ghost use Rattle.std.specs.Prelude.{◌≡◌, [], IfOk, OnOk};
    ghost use Rattle.tk_metrics.specs.Timed as timed;

    /// None yet.
    pub fn none(alloc: Global) -> Histograms
        ensures polls { result.polls ≡ [] }
        ensures waits { result.waits ≡ [] }
    {
        Histograms {
            polls: Series::new(alloc),
            waits: Series::new(alloc),
        }
    }

    pub fn copy(&self) -> Result<Histograms, AllocError>
        ensures { IfOk result (λ all. all ≡ self.now) }
    {
        let polls = self.polls.copy()?;
        let waits = self.waits.copy()?;
        Ok(Histograms { polls, waits })
    }

    /// Takes what stays of the histograms of tasks that left with a line.
    pub fn take_left(
        &mut self,
        alloc: Global,
        keys: &Keys,
        left: &[LeftTask],
    ) -> Result<(), AllocError>
        ensures { OnOk result (timed.TakesLeft keys.now left.now self.old self.new) }
    {
        keep_left(&mut self.polls, alloc, Timing::Polls, keys, left)?;
        keep_left(&mut self.waits, alloc, Timing::Waits, keys, left)
    }

    /// Adds those of tasks that are there.
    pub fn add_there(
        &mut self,
        alloc: Global,
        keys: &Keys,
        tables: &Tables,
        times: &Times,
    ) -> Result<(), AllocError>
        ensures { OnOk result (timed.AddsThere keys.now (tables.now, times.now) self.old self.new) }
    {
        add_there(&mut self.polls, alloc, Timing::Polls, keys, tables, times)?;
        add_there(&mut self.waits, alloc, Timing::Waits, keys, tables, times)
    }
}
