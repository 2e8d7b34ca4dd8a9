//! What is written of two streams that were compared.
ghost use Rattle.std.specs.Prelude.{◌≡◌, ◌≤◌, ◌+◌, ◌==◌, ◌∷◌, ◌++◌, [], IfOk, OnOk, filter, length, slice_get, string_bytes};
ghost use Rattle.std.specs.Option.{option_map_or};
ghost use Rattle.tk_report.specs.Pieces.{Puts};
ghost use Rattle.tk_core.specs.Lists.{capped};
ghost use Rattle.tk_compare.specs.Changes as changes;
ghost use Rattle.tk_compare.specs.Lines as lines;
ghost use Rattle.tk_compare.specs.Text as spec;

use crate::change::{Margin, Spans, change_of};
use crate::found::{Seen, count, put_findings};
use crate::lines::{put, put_places};
use crate::spent::Compared;
use std::alloc::{AllocError, Global};
use tk_series::Series;

/// How many places changed so.
#[derive(Clone, Copy, Debug, PartialEq, Eq)]
pub struct SiteCounts {
    /// Their tasks run or wait more.
    pub worse: u64,
    /// The stream before has them not.
    pub new: u64,
    /// Their tasks run or wait less.
    pub better: u64,
    /// The stream after has them not.
    pub gone: u64,
    /// None of these.
    pub same: u64,
}

/// How many findings two streams have.
#[derive(Clone, Copy, Debug, PartialEq, Eq)]
pub struct FoundCounts {
    /// The stream after alone.
    pub new: u64,
    /// The stream before alone.
    pub gone: u64,
    /// Both.
    pub still: u64,
}

// Whether the change of the place that stands there has this rank: then it is one.
fn one_at(margin: Margin, spans: Spans, places: &Series<Compared>, rank: u8, at: usize) -> u64
    ensures few { result ≤ 1 }
    ensures one { result ≡ length (filter (λ x. lines.rank_of (changes.change_of margin spans x.1) == rank) (option_map_or (λ x. x ∷ []) (slice_get places.now at) [])) }
{
    match places.at(at) {
        Some((_, x)) => u64::from(change_of(margin, spans, &x).rank() == rank),
        None => 0,
    }
}

// How many places have a change of this rank.
fn count_at(margin: Margin, spans: Spans, places: &Series<Compared>, rank: u8) -> u64
    ensures { result ≡ lines.count_at margin spans places.now rank }
{
    let mut sum = 0;
    for at in 0..places.len() {
        sum += one_at(margin, spans, places, rank, at);
    }
    sum
}

/// How many places changed so between two streams that took so long.
pub fn site_counts(margin: Margin, spans: Spans, places: &Series<Compared>) -> SiteCounts
    ensures { result ≡ spec.site_counts margin spans places.now }
{
    SiteCounts {
        worse: count_at(margin, spans, places, 1),
        new: count_at(margin, spans, places, 2),
        better: count_at(margin, spans, places, 3),
        gone: count_at(margin, spans, places, 4),
        same: count_at(margin, spans, places, 5),
    }
}

/// How many findings are new, gone, or in both streams.
pub fn found_counts(findings: &Series<Seen>) -> FoundCounts
    ensures { result ≡ spec.found_counts findings.now }
{
    FoundCounts {
        new: count(findings, 1),
        gone: count(findings, 2),
        still: count(findings, 3),
    }
}

fn places_said(alloc: Global, counts: &SiteCounts) -> Result<String, AllocError>
    ensures { IfOk result (λ text. string_bytes text ≡ spec.places_said counts.now) }
{
    let SiteCounts {
        worse,
        new,
        better,
        gone,
        same,
    } = *counts;
    format!(in alloc;
        "places: {worse} worse, {new} new, {better} better, {gone} gone, {same} the same; "
    )
}

fn findings_said(alloc: Global, counts: &FoundCounts) -> Result<String, AllocError>
    ensures { IfOk result (λ text. string_bytes text ≡ spec.findings_said counts.now) }
{
    let FoundCounts { new, gone, still } = *counts;
    format!(in alloc; "findings: {new} new, {gone} gone, {still} still there\n")
}

// Puts the sentence.
fn put_sentence(
    out: &mut Vec<u8>,
    alloc: Global,
    sites: &SiteCounts,
    found: &FoundCounts,
) -> Result<(), AllocError>
    ensures { OnOk result (Puts out.old.items out.new.items (spec.places_said sites.now ++ spec.findings_said found.now)) }
{
    put(out, places_said(alloc, sites)?.as_bytes())?;
    put(out, findings_said(alloc, found)?.as_bytes())?;
    Ok(())
}

// Puts all that is written.
fn put_text(
    out: &mut Vec<u8>,
    alloc: Global,
    margin: Margin,
    spans: Spans,
    places: &Series<Compared>,
    findings: &Series<Seen>,
) -> Result<(), AllocError>
    ensures { OnOk result (Puts out.old.items out.new.items (spec.comparison_text margin spans places.now findings.now)) }
{
    let sites = site_counts(margin, spans, places);
    let found = found_counts(findings);
    put_sentence(out, alloc, &sites, &found)?;
    put_findings(out, findings)?;
    put_places(out, alloc, margin, spans, places)?;
    Ok(())
}

/// What is written of places and findings of two streams that took so long: a sentence, a line for each finding, and one for each place that changed.
/// `AllocError`: there was no memory.
pub fn comparison_text(
    alloc: Global,
    margin: Margin,
    spans: Spans,
    places: &Series<Compared>,
    findings: &Series<Seen>,
) -> Result<Vec<u8>, AllocError>
    ensures { IfOk result (λ text. text.items ≡ spec.comparison_text margin spans places.now findings.now) }
{
    let mut text = Vec::new(alloc);
    put_text(&mut text, alloc, margin, spans, places, findings)?;
    Ok(text)
}

/// How much got worse: places that are worse, and findings that are new. A number that passes 2^64 - 1 stays there.
pub fn worse_count(
    margin: Margin,
    spans: Spans,
    places: &Series<Compared>,
    findings: &Series<Seen>,
) -> u64
    ensures { result ≡ capped (spec.worse_count margin spans places.now findings.now) }
{
    count_at(margin, spans, places, 1).saturating_add(count(findings, 1))
}
