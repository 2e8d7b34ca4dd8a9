//! The lines of places within a span, each put after what is written.
ghost use Rattle.std.specs.Prelude.{◌≡◌, ◌+◌, ◌<◌, ◌^◌, [], IfOk, OnOk, slice_get, string_bytes};
ghost use Rattle.std.specs.Option.{option_map_or};
ghost use Rattle.tk_report.specs.Pieces.{Puts};
ghost use Rattle.tk_sites.specs.Lines as lines;
ghost use Rattle.tk_sites.specs.SpanLines as spec;

use crate::below::shown_at;
use crate::lines::{MORE, first_line, put, put_all_warnings, put_line};
use crate::places_then::PlacesThen;
use crate::span::{Longest, SpanHistogram, SpanTimes, sums_by, times_then, value_then};
use crate::sums::Sums;
use crate::times::SiteTimes;
use std::alloc::{AllocError, Global};
use tk_report::put_histogram_by;
use tk_series::Limited;
use tk_stream::Tables;

// ---- below a place

fn longest_words(longest: Longest) -> &'static str
    ensures { result.now ≡ spec.longest_words longest }
{
    match longest {
        Longest::Known(_) => " longest ",
        Longest::AtMost(_) => " longest-at-most ",
    }
}

fn longest_time(longest: Longest) -> u64
    ensures { result ≡ spec.longest_time longest }
{
    match longest {
        Longest::Known(time) => time,
        Longest::AtMost(time) => time,
    }
}

// The line of a histogram, after these words.
fn histogram_line(alloc: Global, words: &str, times: &SpanHistogram) -> Result<String, AllocError>
    ensures { IfOk result (λ text. string_bytes text ≡ spec.span_histogram_line words.now times.now) }
{
    let mut line = String::new(alloc);
    let by = longest_words(times.longest);
    let longest = longest_time(times.longest);
    put_histogram_by(&mut line, words, by, longest, &times.counts)?;
    line.push_str("\n")?;
    Ok(line)
}

// The same, if a task has such a histogram.
fn put_if_any(
    out: &mut Vec<u8>,
    alloc: Global,
    words: &str,
    times: &SpanHistogram,
) -> Result<(), AllocError>
    ensures { OnOk result (Puts out.old.items out.new.items (spec.span_line_if_any words.now times.now)) }
{
    if times.tasks == 0 {
        return Ok(());
    }
    put(out, histogram_line(alloc, words, times)?.as_bytes())
}

fn put_times(out: &mut Vec<u8>, alloc: Global, times: &SpanTimes) -> Result<(), AllocError>
    ensures { OnOk result (Puts out.old.items out.new.items (spec.span_times_lines times.now)) }
{
    put_if_any(out, alloc, "  polls ", &times.polls)?;
    put_if_any(out, alloc, "  waits ", &times.waits)?;
    Ok(())
}

// What stands below the place at an index, if histograms are shown.
fn put_below(
    out: &mut Vec<u8>,
    alloc: Global,
    old: &Option<Limited<SiteTimes>>,
    times: &Option<Limited<SiteTimes>>,
    index: usize,
) -> Result<(), AllocError>
    ensures { OnOk result (Puts out.old.items out.new.items (spec.span_below old.now times.now index)) }
{
    match shown_at(times, index) {
        Some(own) => put_times(out, alloc, &own.since(&times_then(old, index))),
        None => Ok(()),
    }
}

// ---- places

// Puts the line of a place, and its histograms below it, if they are shown.
fn put_place(
    out: &mut Vec<u8>,
    alloc: Global,
    old: &PlacesThen,
    times: &Option<Limited<SiteTimes>>,
    number: u64,
    site: &[u8],
    sums: Sums,
) -> Result<(), AllocError>
    ensures { OnOk result (Puts out.old.items out.new.items (spec.span_line old.now times.now number (site.now, sums))) }
{
    let index = number.saturating_sub(1) as usize;
    let own = sums_by(value_then(&old.sites, index), sums);
    put_line(out, alloc, number, site, &own)?;
    put_below(out, alloc, &old.times, times, index)?;
    Ok(())
}

// Puts the lines of the place that stands there.
fn put_place_at(
    out: &mut Vec<u8>,
    alloc: Global,
    old: &PlacesThen,
    sites: &Limited<Sums>,
    times: &Option<Limited<SiteTimes>>,
    at: usize,
) -> Result<(), AllocError>
    requires { at + 1 < 2 ^ 64 }
    ensures { OnOk result (Puts out.old.items out.new.items
        (option_map_or (spec.span_line old.now times.now (at + 1)) (slice_get sites.now.first at) [])) }
{
    match sites.at(at) {
        Some((site, sums)) => put_place(out, alloc, old, times, at as u64 + 1, site, sums),
        None => Ok(()),
    }
}

fn put_own_places(
    out: &mut Vec<u8>,
    alloc: Global,
    old: &PlacesThen,
    sites: &Limited<Sums>,
    times: &Option<Limited<SiteTimes>>,
) -> Result<(), AllocError>
    ensures { OnOk result (Puts out.old.items out.new.items (lines.numbered (spec.span_line old.now times.now) 1 sites.now.first)) }
{
    for at in 0..sites.len() {
        put_place_at(out, alloc, old, sites, times, at)?;
    }
    Ok(())
}

// Puts the lines of the one place more, if there is one.
fn put_more_place(
    out: &mut Vec<u8>,
    alloc: Global,
    old: &PlacesThen,
    times: &Option<Limited<SiteTimes>>,
    number: u64,
    rest: Option<Sums>,
) -> Result<(), AllocError>
    ensures { OnOk result (Puts out.old.items out.new.items
        (option_map_or (λ sums. spec.span_line old.now times.now number (lines.more_site, sums)) rest [])) }
{
    match rest {
        Some(sums) => put_place(out, alloc, old, times, number, MORE.as_bytes(), sums),
        None => Ok(()),
    }
}

fn put_places(
    out: &mut Vec<u8>,
    alloc: Global,
    old: &PlacesThen,
    sites: &Limited<Sums>,
    times: &Option<Limited<SiteTimes>>,
) -> Result<(), AllocError>
    ensures { OnOk result (Puts out.old.items out.new.items (lines.numbered (spec.span_line old.now times.now) 1 (lines.listed sites.now))) }
{
    put_own_places(out, alloc, old, sites, times)?;
    put_more_place(out, alloc, old, times, sites.len() as u64 + 1, sites.rest())?;
    Ok(())
}

// The second line.
fn since_line(alloc: Global, moment: u64, now: u64) -> Result<String, AllocError>
    ensures { IfOk result (λ text. string_bytes text ≡ spec.since_line moment now) }
{
    let span = now.saturating_sub(moment);
    format!(in alloc; "since {moment} span {span}\n")
}

/// What is written of the places of tables, since they had come to what they had at a moment.
pub(crate) fn span_text(
    alloc: Global,
    old: &PlacesThen,
    tables: &Tables,
    sites: &Limited<Sums>,
    times: &Option<Limited<SiteTimes>>,
) -> Result<Vec<u8>, AllocError>
    ensures { IfOk result (λ text. text.items ≡ spec.span_text old.now tables.now sites.now times.now) }
{
    let mut text = Vec::new(alloc);
    put(
        &mut text,
        first_line(alloc, tables, sites.rest())?.as_bytes(),
    )?;
    put(
        &mut text,
        since_line(alloc, old.moment, tables.now())?.as_bytes(),
    )?;
    put_places(&mut text, alloc, old, sites, times)?;
    put_all_warnings(&mut text, alloc, sites)?;
    Ok(text)
}
