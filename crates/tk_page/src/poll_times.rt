//! How long the polls of a place's tasks ran and how long they waited, in cells.
ghost use Rattle.std.specs.Prelude.{◌≡◌, ◌≤◌, OnOk, length};
ghost use Rattle.tk_paper.specs.Pieces.{Writes};
ghost use Rattle.tk_page.specs.PollTimes as spec;
ghost use Rattle.tk_sites.specs.Below.{shown_at, times_at as times_in};

use crate::boxes::{Area, put_box};
use crate::figures::share;
use std::alloc::AllocError;
use tk_paper::Part::{Close, End, Number, Open, Quote, Span, Text, Value, With, WithNumber};
use tk_paper::{Attr, Paper, Tag};
use tk_report::percentile_high;
use tk_series::Limited;
use tk_sites::{Histogram, SiteTimes};

// How high a histogram is drawn, and how wide.
const HIGH: u64 = 16;

const WIDE: u64 = 84;

// ---- the histogram of a place

fn times_at(times: &Limited<SiteTimes>, index: usize) -> Option<SiteTimes>
    ensures { result ≡ times_in times.now index }
{
    match times.at(index) {
        Some((_, own)) => Some(own),
        None => times.rest(),
    }
}

fn shown(times: &Option<Limited<SiteTimes>>, index: usize) -> Option<SiteTimes>
    ensures { result ≡ shown_at times.now index }
{
    match times {
        Some(times) => times_at(times, index),
        None => None,
    }
}

// A histogram, if any task has one.
fn if_any(all: Histogram) -> Option<Histogram>
    ensures { result ≡ spec.if_any all }
{
    if all.tasks == 0 { None } else { Some(all) }
}

/// The histogram of the polls of the place at an index, or past all of them of all others: none where no task has one.
pub(crate) fn polls_at(times: &Option<Limited<SiteTimes>>, index: usize) -> Option<Histogram>
    ensures { result ≡ spec.polls_at times.now index }
{
    match shown(times, index) {
        Some(own) => if_any(own.polls),
        None => None,
    }
}

/// The same of their waits.
pub(crate) fn waits_at(times: &Option<Limited<SiteTimes>>, index: usize) -> Option<Histogram>
    ensures { result ≡ spec.waits_at times.now index }
{
    match shown(times, index) {
        Some(own) => if_any(own.waits),
        None => None,
    }
}

// ---- cells

/// Puts a cell without a number.
pub(crate) fn put_dash(paper: &mut Paper) -> Result<(), AllocError>
    ensures { OnOk result (Writes paper.old paper.new spec.dash_cell) }
{
    paper.put(&[
        Open(Tag::Td),
        WithNumber(Attr::DataV, 0),
        With(Attr::Class, "num"),
        End,
        Text("–"),
        Close(Tag::Td),
    ])
}

/// Puts a cell with a time.
pub(crate) fn put_time(paper: &mut Paper, time: u64) -> Result<(), AllocError>
    ensures { OnOk result (Writes paper.old paper.new (spec.time_cell time)) }
{
    paper.put(&[
        Open(Tag::Td),
        WithNumber(Attr::DataV, time),
        With(Attr::Class, "num"),
        End,
        Span(time),
        Close(Tag::Td),
    ])
}

fn put_percentile(paper: &mut Paper, polls: &Histogram, percent: u64) -> Result<(), AllocError>
    requires some { 1 ≤ percent }
    requires most { percent ≤ 100 }
    ensures { OnOk result (Writes paper.old paper.new (spec.percentile_cell percent polls.now)) }
{
    match percentile_high(polls.longest, &polls.counts, percent) {
        Some(time) => put_time(paper, time),
        None => put_dash(paper),
    }
}

// How high so many polls stand of at most so many: at least 1 where there are any.
fn bar_high(most: u64, count: u64) -> u64
    ensures { result ≡ spec.bar_high most count }
{
    if count == 0 {
        0
    } else {
        (share(count, most) * HIGH / 1000).max(1)
    }
}

fn most_of(counts: &[u64]) -> u64
    ensures { result ≡ spec.most_of counts.now }
{
    let mut most = 0u64;
    for count in counts {
        most = most.max(*count);
    }
    most
}

fn put_bar(paper: &mut Paper, most: u64, bucket: usize, count: u64) -> Result<(), AllocError>
    requires { bucket ≤ 13 }
    ensures { OnOk result (Writes paper.old paper.new (spec.bar most bucket count)) }
{
    put_box(
        paper,
        Area {
            x: bucket as u64 * 6,
            wide: 5,
            base: HIGH,
            high: bar_high(most, count),
        },
    )
}

fn put_each_bar(paper: &mut Paper, counts: &[u64], most: u64) -> Result<(), AllocError>
    requires { length counts.now ≤ 14 }
    ensures { OnOk result (Writes paper.old paper.new (spec.bars_from most 0 counts.now)) }
{
    for bucket in 0..counts.len() {
        put_bar(paper, most, bucket, counts[bucket])?;
    }
    Ok(())
}

// Puts a histogram, the shortest polls at its left.
fn put_bars(paper: &mut Paper, counts: &[u64; 14]) -> Result<(), AllocError>
    ensures { OnOk result (Writes paper.old paper.new (spec.bars counts.now)) }
{
    paper.put(&[
        Open(Tag::Svg),
        With(Attr::Class, "hist"),
        Value(Attr::ViewBox),
        Text("0 0 "),
        Number(WIDE),
        Text(" "),
        Number(HIGH),
        Quote,
        With(Attr::Preserve, "none"),
        With(Attr::AriaHidden, "true"),
        End,
        Open(Tag::Path),
        With(Attr::Class, "busy"),
        Value(Attr::D),
    ])?;
    put_each_bar(paper, counts, most_of(counts))?;
    paper.put(&[Quote, End, Close(Tag::Path), Close(Tag::Svg)])?;
    Ok(())
}

fn put_longest(paper: &mut Paper, polls: &Histogram) -> Result<(), AllocError>
    ensures { OnOk result (Writes paper.old paper.new (spec.longest_cell polls.now)) }
{
    paper.put(&[
        Open(Tag::Td),
        WithNumber(Attr::DataV, polls.longest),
        With(Attr::Class, "num"),
        End,
    ])?;
    put_bars(paper, &polls.counts)?;
    paper.put(&[Text(" "), Span(polls.longest), Close(Tag::Td)])?;
    Ok(())
}

fn put_known(paper: &mut Paper, polls: &Histogram) -> Result<(), AllocError>
    ensures { OnOk result (Writes paper.old paper.new (spec.known_cells polls.now)) }
{
    put_percentile(paper, polls, 50)?;
    put_percentile(paper, polls, 99)?;
    put_longest(paper, polls)?;
    Ok(())
}

fn put_unknown(paper: &mut Paper) -> Result<(), AllocError>
    ensures { OnOk result (Writes paper.old paper.new spec.unknown_cells) }
{
    put_dash(paper)?;
    put_dash(paper)?;
    put_dash(paper)?;
    Ok(())
}

/// Puts the cells of a place's polls: what half of them don't pass, what 99 of a hundred don't, and the longest; dashes where there is no
/// histogram.
pub(crate) fn put_polls(paper: &mut Paper, polls: Option<Histogram>) -> Result<(), AllocError>
    ensures { OnOk result (Writes paper.old paper.new (spec.polls_cells polls)) }
{
    match polls {
        Some(polls) => put_known(paper, &polls),
        None => put_unknown(paper),
    }
}

/// Puts the cell of a place's waits.
pub(crate) fn put_waits(paper: &mut Paper, waits: Option<Histogram>) -> Result<(), AllocError>
    ensures { OnOk result (Writes paper.old paper.new (spec.waits_cell waits)) }
{
    match waits {
        Some(waits) => put_percentile(paper, &waits, 99),
        None => put_dash(paper),
    }
}
