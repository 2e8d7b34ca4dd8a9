//! What is told of the histograms of one task.
ghost use Rattle.std.specs.Prelude.{◌≤◌, ◌∷◌, [], OnOk, string_bytes};
ghost use Rattle.tk_screen.specs.Texts.{Puts};
ghost use Rattle.tk_frame.specs.Histograms as spec;
ghost use Rattle.tk_frame.specs.Lines as texts;

use crate::cells::put_text;
use crate::course::{greatest, put_marks};
use crate::details::{label_text, push_time};
use std::alloc::{AllocError, Global};
use tk_client::Times;
use tk_ids::TaskId;
use tk_report::percentile_high;
use tk_screen::{Line, Style, put_duration};
use tk_stream::{PollTimes, WaitTimes};

fn put_high(
    out: &mut String,
    percent: u64,
    longest: u64,
    counts: &[u64; 14],
) -> Result<(), AllocError>
    requires some { 1 ≤ percent }
    requires most { percent ≤ 100 }
    ensures { OnOk result (Puts (string_bytes out.old) (string_bytes out.new) (spec.high_text percent longest counts.now)) }
{
    match percentile_high(longest, counts, percent) {
        Some(time) => put_duration(out, time),
        None => put_text(out, "-"),
    }
}

fn push_high(
    lines: &mut Vec<Line>,
    alloc: Global,
    label: &str,
    percent: u64,
    longest: u64,
    counts: &[u64; 14],
) -> Result<(), AllocError>
    requires some { 1 ≤ percent }
    requires most { percent ≤ 100 }
    ensures { OnOk result (Puts lines.old.items lines.new.items (texts.field label.now (spec.high_text percent longest counts.now) ∷ [])) }
{
    let mut text = label_text(alloc, label)?;
    put_high(&mut text, percent, longest, counts)?;
    lines.push(Line::new(Style::Plain, text))?;
    Ok(())
}

fn put_buckets(out: &mut String, counts: &[u64]) -> Result<(), AllocError>
    ensures { OnOk result (Puts (string_bytes out.old) (string_bytes out.new) (spec.buckets_text counts.now)) }
{
    put_marks(out, greatest(counts), counts)?;
    put_text(
        out,
        "  from under 16 us to over 67 ms, each twice the one before",
    )?;
    Ok(())
}

fn push_buckets(
    lines: &mut Vec<Line>,
    alloc: Global,
    label: &str,
    counts: &[u64; 14],
) -> Result<(), AllocError>
    ensures { OnOk result (Puts lines.old.items lines.new.items (texts.field label.now (spec.buckets_text counts.now) ∷ [])) }
{
    let mut text = label_text(alloc, label)?;
    put_buckets(&mut text, counts)?;
    lines.push(Line::new(Style::Plain, text))?;
    Ok(())
}

fn push_poll_times(
    lines: &mut Vec<Line>,
    alloc: Global,
    times: &PollTimes,
) -> Result<(), AllocError>
    ensures { OnOk result (Puts lines.old.items lines.new.items (spec.poll_times_part times.now)) }
{
    let (longest, counts) = (times.longest, &times.counts);
    push_high(lines, alloc, "median poll", 50, longest, counts)?;
    push_high(lines, alloc, "p99 poll", 99, longest, counts)?;
    push_time(lines, alloc, "longest poll", longest)?;
    push_buckets(lines, alloc, "poll times", counts)?;
    Ok(())
}

fn push_wait_times(
    lines: &mut Vec<Line>,
    alloc: Global,
    times: &WaitTimes,
) -> Result<(), AllocError>
    ensures { OnOk result (Puts lines.old.items lines.new.items (spec.wait_times_part times.now)) }
{
    let (longest, counts) = (times.longest, &times.counts);
    push_high(lines, alloc, "median wait", 50, longest, counts)?;
    push_high(lines, alloc, "p99 wait", 99, longest, counts)?;
    push_time(lines, alloc, "longest wait", longest)?;
    push_buckets(lines, alloc, "wait times", counts)?;
    Ok(())
}

fn push_waits(
    lines: &mut Vec<Line>,
    alloc: Global,
    waits: &Option<WaitTimes>,
) -> Result<(), AllocError>
    ensures { OnOk result (Puts lines.old.items lines.new.items (spec.waits_if waits.now)) }
{
    match waits {
        Some(waits) => push_wait_times(lines, alloc, waits),
        None => Ok(()),
    }
}

fn push_both(lines: &mut Vec<Line>, alloc: Global, times: &PollTimes) -> Result<(), AllocError>
    ensures { OnOk result (Puts lines.old.items lines.new.items (spec.both_part times.now)) }
{
    push_poll_times(lines, alloc, times)?;
    push_waits(lines, alloc, &times.waits)?;
    Ok(())
}

/// Pushes how long the polls of the task of an id ran and how long it waited, where the stream has histograms of it.
pub(crate) fn push_times(
    lines: &mut Vec<Line>,
    alloc: Global,
    times: &Times,
    id: TaskId,
) -> Result<(), AllocError>
    ensures { OnOk result (Puts lines.old.items lines.new.items (spec.times_part times.now id)) }
{
    match times.with_id(id.value()) {
        Some(entry) => push_both(lines, alloc, &entry.1),
        None => Ok(()),
    }
}
