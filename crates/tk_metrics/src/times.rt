//! The text of histograms.
ghost use Rattle.std.specs.Prelude.{◌++◌, OnOk, slice_get, []};
ghost use Rattle.std.specs.Option.{option_map_or};
ghost use Rattle.tk_report.specs.Pieces.{Puts};
ghost use Rattle.tk_metrics.specs.Histograms as spec;

use crate::counted::Counted;
use crate::family::{Family, Timing};
use crate::histograms::Histograms;
use crate::text::{put, put_bytes, put_head, put_number, put_seconds};
use std::alloc::AllocError;
use tk_series::Series;

fn put_counted(out: &mut Vec<u8>, counted: Counted) -> Result<(), AllocError>
    ensures { OnOk result (Puts out.old.items out.new.items (spec.counted_text counted)) }
{
    if counted.is_time {
        put_seconds(out, counted.number)
    } else {
        put_number(out, counted.number)
    }
}

fn put_times_sample(
    out: &mut Vec<u8>,
    timing: Timing,
    key: &[u8],
    counted: Counted,
) -> Result<(), AllocError>
    ensures { OnOk result (Puts out.old.items out.new.items (spec.times_sample timing (key.now, counted))) }
{
    put(out, Family::Times(timing).base())?;
    put_bytes(out, key)?;
    put(out, " ")?;
    put_counted(out, counted)?;
    put(out, "\n")
}

fn put_times_at(
    out: &mut Vec<u8>,
    timing: Timing,
    series: &Series<Counted>,
    place: usize,
) -> Result<(), AllocError>
    ensures { OnOk result (Puts out.old.items out.new.items
        (option_map_or (spec.times_sample timing) (slice_get series.now place) [])) }
{
    match series.at(place) {
        Some((key, counted)) => put_times_sample(out, timing, key, counted),
        None => Ok(()),
    }
}

fn put_times(out: &mut Vec<u8>, timing: Timing, series: &Series<Counted>) -> Result<(), AllocError>
    ensures { OnOk result (Puts out.old.items out.new.items (spec.times_family timing series.now)) }
{
    if series.len() == 0 {
        return Ok(());
    }
    put_head(out, Family::Times(timing))?;
    for place in 0..series.len() {
        put_times_at(out, timing, series, place)?;
    }
    Ok(())
}

/// Puts the families of histograms, of which one that has none is left out.
pub(crate) fn put_histograms(out: &mut Vec<u8>, all: &Histograms) -> Result<(), AllocError>
    ensures { OnOk result (Puts out.old.items out.new.items (spec.times_family Timing.Polls all.now.polls ++ spec.times_family Timing.Waits all.now.waits)) }
{
    put_times(out, Timing::Polls, &all.polls)?;
    put_times(out, Timing::Waits, &all.waits)
}
