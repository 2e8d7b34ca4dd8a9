//! What stands below a place that changed: how long the polls of its tasks ran, and how long they waited, before and after.
ghost use Rattle.std.specs.Prelude.{◌≡◌, IfOk, OnOk, string_bytes};
ghost use Rattle.tk_report.specs.Pieces.{Puts};
ghost use Rattle.tk_sites.specs.Below as sites;
ghost use Rattle.tk_compare.specs.Below as spec;

use crate::lines::put;
use crate::spent::Compared;
use std::alloc::{AllocError, Global};
use tk_report::put_histogram;
use tk_sites::Histogram;

// The line of a histogram, after these words.
fn histogram_line(alloc: Global, words: &str, times: &Histogram) -> Result<String, AllocError>
    ensures { IfOk result (λ text. string_bytes text ≡ sites.histogram_line words.now times.now) }
{
    let mut line = String::new(alloc);
    put_histogram(&mut line, words, times.longest, &times.counts)?;
    line.push_str("\n")?;
    Ok(line)
}

// The same, if a task has such a histogram.
fn put_if_any(
    out: &mut Vec<u8>,
    alloc: Global,
    words: &str,
    times: &Histogram,
) -> Result<(), AllocError>
    ensures { OnOk result (Puts out.old.items out.new.items (sites.line_if_any words.now times.now)) }
{
    if times.tasks == 0 {
        return Ok(());
    }
    put(out, histogram_line(alloc, words, times)?.as_bytes())
}

/// Puts a line for each histogram that a stream has of a place.
pub(crate) fn put_below(out: &mut Vec<u8>, alloc: Global, x: &Compared) -> Result<(), AllocError>
    ensures { OnOk result (Puts out.old.items out.new.items (spec.below x.now)) }
{
    let (old, new) = (&x.before.times, &x.after.times);
    put_if_any(out, alloc, "  polls before ", &old.polls)?;
    put_if_any(out, alloc, "  polls after ", &new.polls)?;
    put_if_any(out, alloc, "  waits before ", &old.waits)?;
    put_if_any(out, alloc, "  waits after ", &new.waits)?;
    Ok(())
}
