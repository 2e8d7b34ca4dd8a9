//! The lines of places that changed, each put after what is written.
ghost use Rattle.std.specs.Prelude.{◌≡◌, ◌≢◌, ◌*◌, ◌/◌, ◌==◌, ◌∷◌, [], codes, IfOk, OnOk, slice_get, string_bytes};
ghost use Rattle.std.specs.Option.{option_map_or};
ghost use Rattle.tk_report.specs.Pieces.{Puts, spaced};
ghost use Rattle.tk_report.specs.Report as report;
ghost use Rattle.tk_compare.specs.Changes as changes;
ghost use Rattle.tk_compare.specs.Lines as spec;

use crate::below::put_below;
use crate::change::{Change, Margin, Spans, change_of, rate, rate_in_hundredths};
use crate::spent::Compared;
use std::alloc::{AllocError, Global};
use tk_series::Series;

pub(crate) fn put(out: &mut Vec<u8>, text: &[u8]) -> Result<(), AllocError>
    ensures { OnOk result (Puts out.old.items out.new.items text.now) }
{
    out.extend_from_slice(text)
}

// What a number is to what it was, in hundredths.
fn hundredths(before: u64, after: u64) -> u64
    requires { before ≢ 0 }
    ensures { result ≡ spec.hundredths before after }
{
    let ratio = u128::from(after) * 100 / u128::from(before);
    ratio.min(u128::from(u64::MAX)) as u64
}

fn hundredths_text(alloc: Global, n: u64) -> Result<String, AllocError>
    ensures { IfOk result (λ text. string_bytes text ≡ spec.hundredths_text n) }
{
    let (whole, tenths, rest) = (n / 100, n / 10 % 10, n % 10);
    format!(in alloc; "{whole}.{tenths}{rest}")
}

fn ratio_text(alloc: Global, before: u64, after: u64) -> Result<String, AllocError>
    ensures { IfOk result (λ text. string_bytes text ≡ spec.ratio_text before after) }
{
    if before == 0 {
        String::from_str(alloc, "-")
    } else {
        let ratio = hundredths_text(alloc, hundredths(before, after))?;
        let ratio = ratio.as_str();
        format!(in alloc; "x{ratio}")
    }
}

// A number before and after, and their ratio, after their word.
fn words_of(alloc: Global, word: &str, before: u64, after: u64) -> Result<String, AllocError>
    ensures { IfOk result (λ text. string_bytes text ≡ spaced (spec.words_of word.now before after)) }
{
    let ratio = ratio_text(alloc, before, after)?;
    let ratio = ratio.as_str();
    format!(in alloc; " {word} {before} {after} {ratio}")
}

// The same of numbers in hundredths.
fn words_in_hundredths(
    alloc: Global,
    word: &str,
    before: u64,
    after: u64,
) -> Result<String, AllocError>
    ensures { IfOk result (λ text. string_bytes text ≡ spaced (spec.words_in_hundredths word.now before after)) }
{
    let ratio = ratio_text(alloc, before, after)?;
    let ratio = ratio.as_str();
    let (old, new) = (
        hundredths_text(alloc, before)?,
        hundredths_text(alloc, after)?,
    );
    let (old, new) = (old.as_str(), new.as_str());
    format!(in alloc; " {word} {old} {new} {ratio}")
}

// Puts how many polls started in a second, before and after, and the ratio.
fn put_polls(
    out: &mut Vec<u8>,
    alloc: Global,
    spans: Spans,
    before: u64,
    after: u64,
) -> Result<(), AllocError>
    ensures { OnOk result (Puts out.old.items out.new.items
        (spaced (spec.words_in_hundredths (codes "polls") (changes.rate_in_hundredths spans.before before) (changes.rate_in_hundredths spans.after after)))) }
{
    let old = rate_in_hundredths(spans.before, before);
    let new = rate_in_hundredths(spans.after, after);
    put(
        out,
        words_in_hundredths(alloc, "polls", old, new)?.as_bytes(),
    )
}

// Puts how much something came to in a second, before and after, and the ratio, after their word.
fn put_rates(
    out: &mut Vec<u8>,
    alloc: Global,
    spans: Spans,
    word: &str,
    before: u64,
    after: u64,
) -> Result<(), AllocError>
    ensures { OnOk result (Puts out.old.items out.new.items
        (spaced (spec.words_of word.now (changes.rate spans.before before) (changes.rate spans.after after)))) }
{
    let (old, new) = (rate(spans.before, before), rate(spans.after, after));
    put(out, words_of(alloc, word, old, new)?.as_bytes())
}

// A place, and the line's end.
fn put_site(out: &mut Vec<u8>, site: &[u8]) -> Result<(), AllocError>
    ensures { OnOk result (Puts out.old.items out.new.items (report.rest_of_line (codes "kind" ∷ site.now ∷ []))) }
{
    put(out, b" kind ")?;
    put(out, site)?;
    put(out, b"\n")
}

fn put_line(
    out: &mut Vec<u8>,
    alloc: Global,
    spans: Spans,
    word: &str,
    site: &[u8],
    x: &Compared,
) -> Result<(), AllocError>
    ensures { OnOk result (Puts out.old.items out.new.items (spec.place_line spans word.now (site.now, x.now))) }
{
    let (old, new) = (x.before, x.after);
    put(out, word.as_bytes())?;
    put_polls(out, alloc, spans, old.polls, new.polls)?;
    put_rates(out, alloc, spans, "ran", old.ran, new.ran)?;
    put_rates(out, alloc, spans, "waited", old.waited, new.waited)?;
    put_rates(out, alloc, spans, "held-up", old.held, new.held)?;
    put_site(out, site)?;
    Ok(())
}

// Puts the line of a place, and its histograms below it.
fn put_place(
    out: &mut Vec<u8>,
    alloc: Global,
    spans: Spans,
    word: &str,
    site: &[u8],
    x: &Compared,
) -> Result<(), AllocError>
    ensures { OnOk result (Puts out.old.items out.new.items (spec.place_text spans word.now (site.now, x.now))) }
{
    put_line(out, alloc, spans, word, site, x)?;
    put_below(out, alloc, x)?;
    Ok(())
}

impl Change {
    /// Where its lines stand: what is worse first, what is gone last, and what is the same not at all.
    pub fn rank(self) -> u8
        ensures { result ≡ spec.rank_of self }
    {
        match self {
            Change::Worse => 1,
            Change::New => 2,
            Change::Better => 3,
            Change::Gone => 4,
            Change::Same => 5,
        }
    }

    /// Its word.
    pub fn word(self) -> &'static str
        ensures { result.now ≡ spec.word_of self }
    {
        match self {
            Change::Worse => "worse",
            Change::New => "new",
            Change::Better => "better",
            Change::Gone => "gone",
            Change::Same => "same",
        }
    }
}

// Puts what is written of a place, if its change has this rank.
fn put_if(
    out: &mut Vec<u8>,
    alloc: Global,
    margin: Margin,
    spans: Spans,
    rank: u8,
    site: &[u8],
    x: &Compared,
) -> Result<(), AllocError>
    ensures { OnOk result (Puts out.old.items out.new.items (spec.line_at margin spans rank (site.now, x.now))) }
{
    let change = change_of(margin, spans, x);
    if change.rank() == rank {
        put_place(out, alloc, spans, change.word(), site, x)
    } else {
        Ok(())
    }
}

fn put_at(
    out: &mut Vec<u8>,
    alloc: Global,
    margin: Margin,
    spans: Spans,
    rank: u8,
    places: &Series<Compared>,
    at: usize,
) -> Result<(), AllocError>
    ensures { OnOk result (Puts out.old.items out.new.items
        (option_map_or (spec.line_at margin spans rank) (slice_get places.now at) [])) }
{
    match places.at(at) {
        Some((site, x)) => put_if(out, alloc, margin, spans, rank, site, &x),
        None => Ok(()),
    }
}

// Puts the lines of the places whose change has this rank.
fn put_rank(
    out: &mut Vec<u8>,
    alloc: Global,
    margin: Margin,
    spans: Spans,
    rank: u8,
    places: &Series<Compared>,
) -> Result<(), AllocError>
    ensures { OnOk result (Puts out.old.items out.new.items (spec.lines_at margin spans places.now rank)) }
{
    for at in 0..places.len() {
        put_at(out, alloc, margin, spans, rank, places, at)?;
    }
    Ok(())
}

/// Puts the lines of the places that changed.
pub(crate) fn put_places(
    out: &mut Vec<u8>,
    alloc: Global,
    margin: Margin,
    spans: Spans,
    places: &Series<Compared>,
) -> Result<(), AllocError>
    ensures { OnOk result (Puts out.old.items out.new.items (spec.place_lines margin spans places.now)) }
{
    put_rank(out, alloc, margin, spans, 1, places)?;
    put_rank(out, alloc, margin, spans, 2, places)?;
    put_rank(out, alloc, margin, spans, 3, places)?;
    put_rank(out, alloc, margin, spans, 4, places)?;
    Ok(())
}
