//! The lines of histograms, of long polls and of long waits, each put after what is written.
ghost use Rattle.std.specs.Prelude.{◌≡◌, ◌≤◌, ◌++◌, codes, decimal, slice_get, OnOk, string_bytes};
ghost use Rattle.tk_core.specs.Lists.{capped};
ghost use Rattle.tk_core.specs.Percentiles.{total_of, begin_of, end_of};
ghost use Rattle.tk_core.specs.Times.{bounds};
ghost use Rattle.tk_report.specs.Pieces.{Puts};
ghost use Rattle.tk_report.specs.Timed as spec;

use crate::lines::{put, put_end, put_warning};
use std::alloc::AllocError;
use std::fmt::Write;
use tk_client::{AnyWarning, LongPoll, LongWait};
use tk_core::TimesRow;
use tk_ids::TaskId;
use tk_stream::{PollTimes, Table, Tables, Task, WaitTimes};

// The bounds of the buckets, in nanoseconds: the first bucket begins at 0, each other at the bound before it.
const BOUNDS: [u64; 13] = [
    1 << 14,
    1 << 15,
    1 << 16,
    1 << 17,
    1 << 18,
    1 << 19,
    1 << 20,
    1 << 21,
    1 << 22,
    1 << 23,
    1 << 24,
    1 << 25,
    1 << 26,
];

fn bound_at(place: usize) -> Option<u64>
    ensures { result ≡ slice_get bounds place }
{
    BOUNDS.get(place).copied()
}

fn begin_of(bucket: usize) -> u64
    ensures { result ≡ begin_of bucket }
{
    if bucket == 0 {
        return 0;
    }
    bound_at(bucket - 1).unwrap_or(0)
}

fn end_of(bucket: usize) -> Option<u64>
    ensures { result ≡ end_of bucket }
{
    bound_at(bucket)
}

// A sum that passes 2^64 - 1 stays there.
fn total_of(counts: &[u64; 14]) -> u64
    ensures { result ≡ capped (total_of counts.now) }
{
    let mut total = 0u64;
    for count in counts {
        total = total.saturating_add(*count);
    }
    total
}

// Where a bucket ends: the last with the longest time, or with a hyphen where that is shorter than it begins.
fn put_high(out: &mut String, longest: u64, bucket: usize) -> Result<(), AllocError>
    ensures { OnOk result (Puts (string_bytes out.old) (string_bytes out.new) (codes " " ++ spec.high_word longest bucket)) }
{
    match end_of(bucket) {
        Some(end) => write!(out, " {end}"),
        None => {
            if begin_of(bucket) <= longest {
                write!(out, " {longest}")
            } else {
                out.push_str(" -")
            }
        }
    }
}

fn put_begin(out: &mut String, bucket: usize) -> Result<(), AllocError>
    ensures { OnOk result (Puts (string_bytes out.old) (string_bytes out.new) (codes " " ++ decimal (begin_of bucket))) }
{
    put(out, " ", &begin_of(bucket))
}

fn put_bucket(out: &mut String, percent: u64, longest: u64, bucket: usize) -> Result<(), AllocError>
    ensures { OnOk result (Puts (string_bytes out.old) (string_bytes out.new) (spec.bucket_words percent longest bucket)) }
{
    put(out, " p", &percent)?;
    put_begin(out, bucket)?;
    put_high(out, longest, bucket)?;
    Ok(())
}

// The bucket of a percentile, if any time is counted.
fn percentile_of(longest: u64, counts: &[u64; 14], percent: u64) -> Option<usize>
    requires some { 1 ≤ percent }
    requires most { percent ≤ 100 }
    ensures { result ≡ spec.percentile_of percent counts.now }
{
    let row = TimesRow {
        handles: 0,
        longest,
        counts: *counts,
    };
    row.percentile(percent)
}

// What the times of a bucket don't pass.
fn high_of(longest: u64, bucket: usize) -> u64
    ensures { result ≡ spec.high_of longest bucket }
{
    match end_of(bucket) {
        Some(bound) => bound.min(longest),
        None => longest,
    }
}

/// What so many of a hundred times of a histogram don't pass, 1 to 100, in nanoseconds: where the bucket ends in which that percentile lies, or the
/// longest time where that is shorter. `None` where no time is counted.
pub fn percentile_high(longest: u64, counts: &[u64; 14], percent: u64) -> Option<u64>
    requires some { 1 ≤ percent }
    requires most { percent ≤ 100 }
    ensures { result ≡ spec.percentile_high percent longest counts.now }
{
    match percentile_of(longest, counts, percent) {
        Some(bucket) => Some(high_of(longest, bucket)),
        None => None,
    }
}

fn put_percentile(
    out: &mut String,
    longest: u64,
    counts: &[u64; 14],
    percent: u64,
) -> Result<(), AllocError>
    requires some { 1 ≤ percent }
    requires most { percent ≤ 100 }
    ensures { OnOk result (Puts (string_bytes out.old) (string_bytes out.new) (spec.percentile_words longest counts.now percent)) }
{
    match percentile_of(longest, counts, percent) {
        Some(bucket) => put_bucket(out, percent, longest, bucket),
        None => Ok(()),
    }
}

fn put_total(out: &mut String, word: &str, counts: &[u64; 14]) -> Result<(), AllocError>
    ensures { OnOk result (Puts (string_bytes out.old) (string_bytes out.new) (word.now ++ decimal (capped (total_of counts.now)))) }
{
    put(out, word, &total_of(counts))
}

/// Puts what a histogram says, after a word that says of what: how many times it counts, the longest after your words of it, and where it counts any
/// three percentiles. `AllocError`: there was no memory, and a front of it was put.
pub fn put_histogram_by(
    out: &mut String,
    word: &str,
    by: &str,
    longest: u64,
    counts: &[u64; 14],
) -> Result<(), AllocError>
    ensures { OnOk result (Puts (string_bytes out.old) (string_bytes out.new) (spec.histogram_words_by word.now by.now longest counts.now)) }
{
    put_total(out, word, counts)?;
    put(out, by, &longest)?;
    put_percentile(out, longest, counts, 50)?;
    put_percentile(out, longest, counts, 90)?;
    put_percentile(out, longest, counts, 99)?;
    Ok(())
}

/// The same of a histogram whose longest time is known. `AllocError`: there was no memory, and a front of it was put.
pub fn put_histogram(
    out: &mut String,
    word: &str,
    longest: u64,
    counts: &[u64; 14],
) -> Result<(), AllocError>
    ensures { OnOk result (Puts (string_bytes out.old) (string_bytes out.new) (spec.histogram_words word.now longest counts.now)) }
{
    put_histogram_by(out, word, " longest ", longest, counts)
}

fn put_times(out: &mut String, times: &PollTimes) -> Result<(), AllocError>
    ensures { OnOk result (Puts (string_bytes out.old) (string_bytes out.new) (spec.times_line times.now)) }
{
    put_histogram(out, "  polls ", times.longest, &times.counts)?;
    put_end(out)?;
    Ok(())
}

// The line of a task's histogram of polls, where it has one.
fn put_times_below(
    out: &mut String,
    times: &Table<(TaskId, PollTimes)>,
    task: TaskId,
) -> Result<(), AllocError>
    ensures { OnOk result (Puts (string_bytes out.old) (string_bytes out.new) (spec.times_below times.now task)) }
{
    match times.with_id(task.value()) {
        Some(entry) => put_times(out, &entry.1),
        None => Ok(()),
    }
}

// The histogram of waits of a task, where it has one.
fn waits_with(times: &Table<(TaskId, PollTimes)>, task: TaskId) -> Option<WaitTimes>
    ensures { result ≡ spec.waits_with times.now task }
{
    match times.with_id(task.value()) {
        Some(entry) => entry.1.waits,
        None => None,
    }
}

fn put_wait_words(out: &mut String, waits: &Option<WaitTimes>) -> Result<(), AllocError>
    ensures { OnOk result (Puts (string_bytes out.old) (string_bytes out.new) (spec.wait_words waits.now)) }
{
    match waits {
        Some(waits) => put_histogram(out, " ", waits.longest, &waits.counts),
        None => Ok(()),
    }
}

fn put_since(out: &mut String, since: Option<u64>) -> Result<(), AllocError>
    ensures { OnOk result (Puts (string_bytes out.old) (string_bytes out.new) (spec.since_words since)) }
{
    match since {
        Some(moment) => put(out, " since ", &moment),
        None => Ok(()),
    }
}

fn put_waits(
    out: &mut String,
    waits: Option<WaitTimes>,
    since: Option<u64>,
) -> Result<(), AllocError>
    ensures { OnOk result (Puts (string_bytes out.old) (string_bytes out.new) (spec.waits_line waits since)) }
{
    if waits.is_none() && since.is_none() {
        return Ok(());
    }
    out.push_str("  waits")?;
    put_wait_words(out, &waits)?;
    put_since(out, since)?;
    put_end(out)?;
    Ok(())
}

/// The lines below a task: how long its polls ran, and how long it waited, as far as the stream says.
pub(crate) fn put_below(
    out: &mut String,
    times: &Table<(TaskId, PollTimes)>,
    task: &Task,
) -> Result<(), AllocError>
    ensures { OnOk result (Puts (string_bytes out.old) (string_bytes out.new) (spec.below times.now task.now)) }
{
    put_times_below(out, times, task.info.id)?;
    let waits = waits_with(times, task.info.id);
    put_waits(out, waits, task.row.waiting_since())?;
    Ok(())
}

fn put_long_poll(out: &mut String, poll: &LongPoll) -> Result<(), AllocError>
    ensures { OnOk result (Puts (string_bytes out.old) (string_bytes out.new) (spec.long_poll_line poll.now)) }
{
    put(out, "warn ", &poll.task)?;
    put(out, " long-poll ", &poll.time)?;
    put_end(out)?;
    Ok(())
}

fn put_long_wait(out: &mut String, wait: &LongWait) -> Result<(), AllocError>
    ensures { OnOk result (Puts (string_bytes out.old) (string_bytes out.new) (spec.long_wait_line wait.now)) }
{
    put(out, "warn ", &wait.task)?;
    put(out, " long-wait ", &wait.time)?;
    put_end(out)?;
    Ok(())
}

/// The line of any warning about a task of the tables.
pub(crate) fn put_any_warning(
    out: &mut String,
    tables: &Tables,
    warning: &AnyWarning,
) -> Result<(), AllocError>
    ensures { OnOk result (Puts (string_bytes out.old) (string_bytes out.new) (spec.any_warn_line tables.now warning.now)) }
{
    match warning {
        AnyWarning::Usual(warning) => put_warning(out, tables, warning),
        AnyWarning::LongPoll(poll) => put_long_poll(out, poll),
        AnyWarning::LongWait(wait) => put_long_wait(out, wait),
    }
}
