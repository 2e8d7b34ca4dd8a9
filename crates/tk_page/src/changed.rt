//! The page of what changed between two streams.
ghost use Rattle.std.specs.Prelude.{◌≡◌, ◌==◌, [], OnOk, IfOk, IfErr, flat_map, slice_get};
ghost use Rattle.std.specs.Option.{option_map_or};
ghost use Rattle.tk_report.specs.Views.{IsOfWriter};
ghost use Rattle.tk_compare.specs.Views as views;
ghost use Rattle.tk_paper.specs.Pieces.{Writes};
ghost use Rattle.tk_page.specs.Changed as spec;

use crate::badges::start_section;
use crate::change_ranks::change_ranks_of;
use crate::changed_head::{put_change_header, put_verdict};
use crate::changed_places::put_changes_section;
use crate::frame::{HEAD, TAIL};
use crate::ranks::Rank;
use crate::sites::put_site_text;
use crate::view::joined;
use std::alloc::{AllocError, Global};
use std::io::Write;
use tk_compare::{
    Compared, Margin, Recorded, Seen, Spans, compare_places, findings_of_both, spans_of,
    worse_count,
};
use tk_fault::AppFault;
use tk_paper::Part::{Class, Close, Start, Text};
use tk_paper::{Paper, Tag};
use tk_series::Series;
use tk_stream::send;

// ---- findings

fn standing_word(rank: u8) -> &'static str
    ensures { result.now ≡ spec.standing_word rank }
{
    if rank == 1 {
        "new"
    } else if rank == 2 {
        "gone"
    } else {
        "still there"
    }
}

fn put_finding_head(paper: &mut Paper, rank: u8) -> Result<(), AllocError>
    ensures { OnOk result (Writes paper.old paper.new (spec.finding_head rank)) }
{
    paper.put(&[
        Class(Tag::Li, "change"),
        Start(Tag::B),
        Text(standing_word(rank)),
        Close(Tag::B),
        Text(" "),
    ])
}

// Puts a finding of this rank.
fn put_finding(paper: &mut Paper, rank: u8, name: &[u8]) -> Result<(), AllocError>
    ensures { OnOk result (Writes paper.old paper.new (spec.finding_item rank name.now)) }
{
    put_finding_head(paper, rank)?;
    put_site_text(paper, name)?;
    paper.put(&[Close(Tag::Li)])?;
    Ok(())
}

// The same, if it has this rank.
fn put_finding_if(paper: &mut Paper, rank: u8, name: &[u8], seen: &Seen) -> Result<(), AllocError>
    ensures { OnOk result (Writes paper.old paper.new (spec.finding_if rank (name.now, seen.now))) }
{
    if seen.standing().rank() == rank {
        put_finding(paper, rank, name)
    } else {
        paper.put(&[])
    }
}

fn put_finding_at(
    paper: &mut Paper,
    rank: u8,
    findings: &Series<Seen>,
    at: usize,
) -> Result<(), AllocError>
    ensures { OnOk result (Writes paper.old paper.new (option_map_or (spec.finding_if rank) (slice_get findings.now at) [])) }
{
    match findings.at(at) {
        Some((name, seen)) => put_finding_if(paper, rank, name, &seen),
        None => paper.put(&[]),
    }
}

// Puts the findings of a rank.
fn put_findings_at(paper: &mut Paper, rank: u8, findings: &Series<Seen>) -> Result<(), AllocError>
    ensures { OnOk result (Writes paper.old paper.new (flat_map (spec.finding_if rank) findings.now)) }
{
    for at in 0..findings.len() {
        put_finding_at(paper, rank, findings, at)?;
    }
    Ok(())
}

fn put_findings_listed(paper: &mut Paper, findings: &Series<Seen>) -> Result<(), AllocError>
    ensures { OnOk result (Writes paper.old paper.new (spec.findings_listed findings.now)) }
{
    put_findings_at(paper, 1, findings)?;
    put_findings_at(paper, 2, findings)?;
    put_findings_at(paper, 3, findings)?;
    Ok(())
}

fn put_findings_section(paper: &mut Paper, findings: &Series<Seen>) -> Result<(), AllocError>
    ensures { OnOk result (Writes paper.old paper.new (spec.findings_section findings.now)) }
{
    start_section(paper, "odd", "Findings")?;
    paper.put(&[Close(Tag::H2), Class(Tag::Ul, "odd")])?;
    put_findings_listed(paper, findings)?;
    paper.put(&[Close(Tag::Ul), Close(Tag::Section)])?;
    Ok(())
}

// ---- the page

// Puts all parts of the page.
fn put_change_parts(
    paper: &mut Paper,
    title: &str,
    before: &str,
    margin: Margin,
    spans: Spans,
    places: &Series<Compared>,
    ranks: &[Rank],
    findings: &Series<Seen>,
) -> Result<(), AllocError>
    ensures { OnOk result (Writes paper.old paper.new (spec.change_parts title.now before.now margin spans places.now ranks.now findings.now)) }
{
    put_verdict(paper, margin, spans, places, findings)?;
    put_change_header(paper, title, before, spans)?;
    paper.put(&[Start(Tag::Main)])?;
    put_findings_section(paper, findings)?;
    put_changes_section(paper, margin, spans, places, ranks)?;
    paper.put(&[Close(Tag::Main)])?;
    Ok(())
}

// The page of places and findings of two streams that took so long.
fn change_text(
    alloc: Global,
    title: &str,
    path: &str,
    margin: Margin,
    spans: Spans,
    places: &Series<Compared>,
    findings: &Series<Seen>,
) -> Result<Vec<u8>, AllocError>
    ensures { IfOk result (λ page. spec.IsDrawnOf title.now path.now margin spans places.now findings.now page.items) }
{
    let ranks = change_ranks_of(alloc, spans, places)?;
    let mut paper = Paper::new(alloc);
    put_change_parts(
        &mut paper,
        title,
        path,
        margin,
        spans,
        places,
        ranks.as_slice(),
        findings,
    )?;
    let inner = paper.into_bytes();
    let page = joined(alloc, HEAD, inner.as_slice(), TAIL)?;
    Ok(page)
}

// The page of two streams, and how much got worse.
fn change_page(
    alloc: Global,
    title: &str,
    path: &str,
    before: &Recorded,
    after: &Recorded,
    margin: Margin,
) -> Result<(Vec<u8>, u64), AllocError>
    ensures page { IfOk result (λ r. spec.IsChangePage title.now path.now margin before.now after.now r.0.items) }
    ensures worse { IfOk result (λ r. r.1 ≡ views.worse_of margin before.now after.now) }
{
    let spans = spans_of(before, after);
    let places = compare_places(alloc, before, after)?;
    let findings = findings_of_both(alloc, before, after)?;
    let page = change_text(alloc, title, path, margin, spans, &places, &findings)?;
    let worse = worse_count(margin, spans, &places, &findings);
    Ok((page, worse))
}

/// Writes one page of HTML with what changed from a stream to a later one, and answers how much got worse: places that are worse, and findings that
/// are new. The title is that of the page, and `path` names the earlier stream. It says what [`tk_compare::compare_recorded`] writes as text.
///
/// The page is made whole before its first byte is written.
///
/// - `Memory`: there was no memory for the comparison or the page. Nothing was written.
/// - `Write`: the writer failed. A proper front of the page went out.
pub fn view_changes<W: Write>(
    alloc: Global,
    title: &str,
    path: &str,
    before: &Recorded,
    after: &Recorded,
    margin: Margin,
    writer: &mut W,
) -> Result<u64, AppFault>
    ensures pages { spec.PagesChanges title.now path.now margin before.now after.now result (W.contents writer.old) (W.contents writer.new) }
    // Only a writer's fault comes once something was written.
    ensures unwritten { IfErr result (λ fault. (IsOfWriter fault → ⊥) → writer.new ≡ writer.old) }
{
    let Ok((page, worse)) = change_page(alloc, title, path, before, after, margin) else {
        return Err(AppFault::Memory);
    };
    match send(writer, page.as_slice()) {
        Ok(()) => Ok(worse),
        Err(_) => Err(AppFault::Write),
    }
}
