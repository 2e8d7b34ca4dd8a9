//! The places of two streams that changed.
ghost use Rattle.std.specs.Prelude.{◌≡◌, ◌==◌, [], OnOk, slice_get};
ghost use Rattle.std.specs.Option.{option_map_or};
ghost use Rattle.tk_compare.specs.Lines as lines;
ghost use Rattle.tk_paper.specs.Pieces.{Writes};
ghost use Rattle.tk_page.specs.Changed as spec;

use crate::badges::start_section;
use crate::ranks::Rank;
use crate::ratios::{put_rates, put_times};
use crate::sites::put_site_text;
use crate::tasks_head::put_column;
use std::alloc::AllocError;
use tk_compare::{Change, Compared, Margin, Spans, change_of, rate, rate_in_hundredths};
use tk_paper::Part::{Class, Close, End, Open, Start, Text, With};
use tk_paper::{Attr, Paper, Tag};
use tk_series::Series;

// Puts how many polls started in a second, before and after.
fn put_polls_rate(
    paper: &mut Paper,
    spans: Spans,
    before: u64,
    after: u64,
) -> Result<(), AllocError>
    ensures { OnOk result (Writes paper.old paper.new (spec.polls_rate_cell spans before after)) }
{
    let old = rate_in_hundredths(spans.before, before);
    let new = rate_in_hundredths(spans.after, after);
    put_rates(paper, old, new)
}

// Puts which time of a second that is, before and after.
fn put_time_rate(paper: &mut Paper, spans: Spans, before: u64, after: u64) -> Result<(), AllocError>
    ensures { OnOk result (Writes paper.old paper.new (spec.time_rate_cell spans before after)) }
{
    let old = rate(spans.before, before);
    let new = rate(spans.after, after);
    put_times(paper, old, new)
}

// Puts what the tasks of a place came to in each stream, of a second.
fn put_changes(paper: &mut Paper, spans: Spans, x: &Compared) -> Result<(), AllocError>
    ensures { OnOk result (Writes paper.old paper.new (spec.changes_of spans x.now)) }
{
    put_polls_rate(paper, spans, x.before.polls, x.after.polls)?;
    put_time_rate(paper, spans, x.before.ran, x.after.ran)?;
    put_time_rate(paper, spans, x.before.waited, x.after.waited)?;
    put_time_rate(paper, spans, x.before.held, x.after.held)?;
    let old = x.before.times.polls.longest;
    put_times(paper, old, x.after.times.polls.longest)?;
    Ok(())
}

// Puts the row of a place, with the word for its change.
fn put_change_row(
    paper: &mut Paper,
    spans: Spans,
    word: &'static str,
    site: &[u8],
    x: &Compared,
) -> Result<(), AllocError>
    ensures { OnOk result (Writes paper.old paper.new (spec.change_row spans word.now (site.now, x.now))) }
{
    paper.put(&[
        Class(Tag::Tr, word),
        Open(Tag::Th),
        With(Attr::Scope, "row"),
        End,
    ])?;
    put_site_text(paper, site)?;
    paper.put(&[Close(Tag::Th), Start(Tag::Td), Text(word), Close(Tag::Td)])?;
    put_changes(paper, spans, x)?;
    paper.put(&[Close(Tag::Tr)])?;
    Ok(())
}

// Puts the row of a place that changed so.
fn put_row_of(
    paper: &mut Paper,
    spans: Spans,
    change: Change,
    site: &[u8],
    x: &Compared,
) -> Result<(), AllocError>
    ensures { OnOk result (Writes paper.old paper.new (spec.change_row spans (lines.word_of change) (site.now, x.now))) }
{
    put_change_row(paper, spans, change.word(), site, x)
}

// Whether a place is the same, which has the last rank.
fn is_same(change: Change) -> bool
    ensures { result ≡ (lines.rank_of change == 5) }
{
    change.rank() == 5
}

// The same, if it changed.
fn put_row_if(
    paper: &mut Paper,
    margin: Margin,
    spans: Spans,
    site: &[u8],
    x: &Compared,
) -> Result<(), AllocError>
    ensures { OnOk result (Writes paper.old paper.new (spec.row_if margin spans (site.now, x.now))) }
{
    let change = change_of(margin, spans, x);
    if is_same(change) {
        paper.put(&[])
    } else {
        put_row_of(paper, spans, change, site, x)
    }
}

fn put_row_at(
    paper: &mut Paper,
    margin: Margin,
    spans: Spans,
    places: &Series<Compared>,
    at: usize,
) -> Result<(), AllocError>
    ensures { OnOk result (Writes paper.old paper.new (option_map_or (spec.row_if margin spans) (slice_get places.now at) [])) }
{
    match places.at(at) {
        Some((site, x)) => put_row_if(paper, margin, spans, site, &x),
        None => paper.put(&[]),
    }
}

// Puts the rows of the places that changed, in the order of these ranks.
fn put_change_rows(
    paper: &mut Paper,
    margin: Margin,
    spans: Spans,
    places: &Series<Compared>,
    ranks: &[Rank],
) -> Result<(), AllocError>
    ensures { OnOk result (Writes paper.old paper.new (spec.change_rows margin spans places.now ranks.now)) }
{
    for rank in ranks {
        put_row_at(paper, margin, spans, places, rank.place)?;
    }
    Ok(())
}

fn put_change_columns(paper: &mut Paper) -> Result<(), AllocError>
    ensures { OnOk result (Writes paper.old paper.new spec.change_columns) }
{
    let held = "how long others waited in a second while they ran long, at least";
    put_column(paper, "", "", "place")?;
    put_column(paper, "", "", "change")?;
    put_column(paper, "num", "polls that started in a second", "polls")?;
    put_column(paper, "num", "how long their polls ran in a second", "ran")?;
    put_column(paper, "num", "how long they waited in a second", "waited")?;
    put_column(paper, "num", held, "held up others")?;
    put_column(paper, "num", "if the stream has histograms", "longest poll")?;
    paper.put(&[Close(Tag::Tr), Close(Tag::Thead), Start(Tag::Tbody)])?;
    Ok(())
}

fn put_change_caption(paper: &mut Paper) -> Result<(), AllocError>
    ensures { OnOk result (Writes paper.old paper.new spec.change_caption) }
{
    paper.put(&[
        Open(Tag::Table),
        With(Attr::Id, "changes"),
        End,
        Start(Tag::Caption),
        Text(
            "Each row is a place that changed: where tasks are made, as what, and by which name but for numbers. Those that changed most come first. A number stands before and after, with what the one is to the other.",
        ),
        Close(Tag::Caption),
        Start(Tag::Thead),
        Start(Tag::Tr),
    ])
}

pub(crate) fn put_changes_section(
    paper: &mut Paper,
    margin: Margin,
    spans: Spans,
    places: &Series<Compared>,
    ranks: &[Rank],
) -> Result<(), AllocError>
    ensures { OnOk result (Writes paper.old paper.new (spec.changes_section margin spans places.now ranks.now)) }
{
    start_section(paper, "places", "Places")?;
    paper.put(&[Close(Tag::H2), Class(Tag::Div, "scroll wide")])?;
    put_change_caption(paper)?;
    put_change_columns(paper)?;
    put_change_rows(paper, margin, spans, places, ranks)?;
    paper.put(&[
        Close(Tag::Tbody),
        Close(Tag::Table),
        Close(Tag::Div),
        Close(Tag::Section),
    ])?;
    Ok(())
}
