//! What stands above the places of a page of two streams.
ghost use Rattle.std.specs.Prelude.{◌≡◌, ◌+◌, OnOk, slice_get};
ghost use Rattle.std.specs.Option.{option_map_or};
ghost use Rattle.tk_core.specs.Lists.{capped};
ghost use Rattle.tk_paper.specs.Pieces.{Writes};
ghost use Rattle.tk_page.specs.Changed as spec;

use crate::drawing::put_fact;
use crate::figures::mean;
use std::alloc::AllocError;
use tk_compare::{
    Compared, FoundCounts, Margin, Seen, Side, SiteCounts, Spans, found_counts, site_counts,
};
use tk_paper::Part::{Class, Close, Mean, Span, Start, Text};
use tk_paper::{Paper, Tag};
use tk_series::Series;

pub(crate) fn put_change_header(
    paper: &mut Paper,
    title: &str,
    before: &str,
    spans: Spans,
) -> Result<(), AllocError>
    ensures { OnOk result (Writes paper.old paper.new (spec.change_header title.now before.now spans)) }
{
    paper.put(&[Start(Tag::Header), Start(Tag::H1)])?;
    paper.put(&[Text(title)])?;
    paper.put(&[
        Close(Tag::H1),
        Class(Tag::P, "facts"),
        Text("after "),
        Start(Tag::B),
    ])?;
    paper.put(&[Text(before)])?;
    paper.put(&[
        Close(Tag::B),
        Text(": "),
        Start(Tag::B),
        Span(spans.before),
        Close(Tag::B),
        Text(" → "),
        Start(Tag::B),
        Span(spans.after),
        Close(Tag::B),
        Text(" in all. Rates are of a second."),
        Close(Tag::P),
        Close(Tag::Header),
    ])?;
    Ok(())
}

// For how long the tasks of a place waited in one of the streams.
fn waited_of(side: Side, x: &Compared) -> u64
    ensures { result ≡ spec.waited_of side x.now }
{
    match side {
        Side::Before => x.before.waited,
        Side::After => x.after.waited,
    }
}

// A sum with those of the place that stands there.
fn with_waited_at(side: Side, places: &Series<Compared>, at: usize, sum: u64) -> u64
    ensures { result ≡ option_map_or (λ x. capped (sum + spec.waited_of side x.1)) (slice_get places.now at) sum }
{
    match places.at(at) {
        Some((_, x)) => sum.saturating_add(waited_of(side, &x)),
        None => sum,
    }
}

// For how long the tasks of all places waited.
fn waited_in(side: Side, places: &Series<Compared>) -> u64
    ensures { result ≡ spec.waited_in side places.now }
{
    let mut sum = 0;
    for at in 0..places.len() {
        sum = with_waited_at(side, places, at, sum);
    }
    sum
}

fn verdict_of(sites: &SiteCounts, found: &FoundCounts) -> &'static str
    ensures { result.now ≡ spec.verdict_of sites.now found.now }
{
    if sites.worse >= 1 || found.new >= 1 {
        "worse"
    } else if sites.better >= 1 || found.gone >= 1 {
        "better"
    } else {
        "same"
    }
}

fn put_sites_said(paper: &mut Paper, n: &SiteCounts) -> Result<(), AllocError>
    ensures { OnOk result (Writes paper.old paper.new (spec.sites_said n.now)) }
{
    put_fact(paper, n.worse, " place is worse, ", " places are worse, ")?;
    put_fact(paper, n.better, " better, ", " better, ")?;
    put_fact(paper, n.new, " new, ", " new, ")?;
    put_fact(paper, n.gone, " gone, ", " gone, ")?;
    put_fact(paper, n.same, " the same. ", " the same. ")?;
    Ok(())
}

fn put_found_said(paper: &mut Paper, n: &FoundCounts) -> Result<(), AllocError>
    ensures { OnOk result (Writes paper.old paper.new (spec.found_said n.now)) }
{
    put_fact(paper, n.new, " finding is new, ", " findings are new, ")?;
    put_fact(paper, n.gone, " gone, ", " gone, ")?;
    put_fact(paper, n.still, " still there.", " still there.")?;
    Ok(())
}

// How many tasks waited at a time in the mean, in thousandths.
fn mean_waiting(side: Side, time: u64, places: &Series<Compared>) -> u64
    ensures { result ≡ spec.mean_waiting side time places.now }
{
    mean(waited_in(side, places), time)
}

// Puts how many tasks waited at a time, in the mean.
fn put_waiting_said(
    paper: &mut Paper,
    spans: Spans,
    places: &Series<Compared>,
) -> Result<(), AllocError>
    ensures { OnOk result (Writes paper.old paper.new (spec.waiting_said spans places.now)) }
{
    let before = mean_waiting(Side::Before, spans.before, places);
    let after = mean_waiting(Side::After, spans.after, places);
    paper.put(&[
        Text("Tasks that wait at a time: "),
        Start(Tag::B),
        Mean(before),
        Text(" → "),
        Mean(after),
        Close(Tag::B),
        Text(" in the mean. "),
    ])
}

fn put_verdict_head(
    paper: &mut Paper,
    sites: &SiteCounts,
    found: &FoundCounts,
) -> Result<(), AllocError>
    ensures { OnOk result (Writes paper.old paper.new (spec.verdict_head sites.now found.now)) }
{
    paper.put(&[
        Class(Tag::Div, "now verdict"),
        Class(Tag::Span, "tag"),
        Text(verdict_of(sites, found)),
        Close(Tag::Span),
        Text(" "),
    ])
}

/// Puts what holds of all: the verdict, how many tasks waited, and how much changed.
pub(crate) fn put_verdict(
    paper: &mut Paper,
    margin: Margin,
    spans: Spans,
    places: &Series<Compared>,
    findings: &Series<Seen>,
) -> Result<(), AllocError>
    ensures { OnOk result (Writes paper.old paper.new (spec.verdict margin spans places.now findings.now)) }
{
    let sites = site_counts(margin, spans, places);
    let found = found_counts(findings);
    put_verdict_head(paper, &sites, &found)?;
    put_waiting_said(paper, spans, places)?;
    put_sites_said(paper, &sites)?;
    put_found_said(paper, &found)?;
    paper.put(&[Close(Tag::Div)])?;
    Ok(())
}
