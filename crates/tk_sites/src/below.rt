//! What stands below a place: how long the polls of its tasks ran, and how long they waited.
ghost use Rattle.std.specs.Prelude.{◌≡◌, IfOk, OnOk, string_bytes};
ghost use Rattle.tk_report.specs.Pieces.{Puts};
ghost use Rattle.tk_sites.specs.Below as spec;

use crate::lines::put;
use crate::times::{Histogram, SiteTimes};
use std::alloc::{AllocError, Global};
use tk_report::put_histogram;
use tk_series::Limited;

// The line of a histogram, after these words.
fn histogram_line(alloc: Global, words: &str, times: &Histogram) -> Result<String, AllocError>
    ensures { IfOk result (λ text. string_bytes text ≡ spec.histogram_line words.now times.now) }
{
    let mut line = String::new(alloc);
    put_histogram(&mut line, words, times.longest, &times.counts)?;
    line.push_str("\n")?;
    Ok(line)
}

// The same, if a task has such a histogram.
fn put_if_any(
    out: &mut Vec<u8>,
    alloc: Global,
    words: &str,
    times: &Histogram,
) -> Result<(), AllocError>
    ensures { OnOk result (Puts out.old.items out.new.items (spec.line_if_any words.now times.now)) }
{
    if times.tasks == 0 {
        return Ok(());
    }
    put(out, histogram_line(alloc, words, times)?.as_bytes())
}

fn put_times(out: &mut Vec<u8>, alloc: Global, times: &SiteTimes) -> Result<(), AllocError>
    ensures { OnOk result (Puts out.old.items out.new.items (spec.times_lines times.now)) }
{
    put_if_any(out, alloc, "  polls ", &times.polls)?;
    put_if_any(out, alloc, "  waits ", &times.waits)?;
    Ok(())
}

// The histograms of the place that stands there, or, past all of them, of all others.
fn times_at(times: &Limited<SiteTimes>, index: usize) -> Option<SiteTimes>
    ensures { result ≡ spec.times_at times.now index }
{
    match times.at(index) {
        Some((_, own)) => Some(own),
        None => times.rest(),
    }
}

/// The same, if histograms are shown.
pub(crate) fn shown_at(times: &Option<Limited<SiteTimes>>, index: usize) -> Option<SiteTimes>
    ensures { result ≡ spec.shown_at times.now index }
{
    match times {
        Some(times) => times_at(times, index),
        None => None,
    }
}

/// What stands below the place at an index, if histograms are shown.
pub(crate) fn put_below(
    out: &mut Vec<u8>,
    alloc: Global,
    times: &Option<Limited<SiteTimes>>,
    index: usize,
) -> Result<(), AllocError>
    ensures { OnOk result (Puts out.old.items out.new.items (spec.below times.now index)) }
{
    match shown_at(times, index) {
        Some(own) => put_times(out, alloc, &own),
        None => Ok(()),
    }
}
