//! Who waited for whom: how many tasks waited at a time, drawn, and for which places.
ghost use Rattle.std.specs.Prelude.{◌≡◌, ◌≤◌, OnOk, IfOk, flat_map, map};
ghost use Rattle.tk_page.specs.Picture as spec;
ghost use Rattle.tk_paper.specs.Pieces.{Writes};

use crate::blame::Charge;
use crate::blamed::Blamed;
use crate::boxes::{Area, open_drawing, put_box};
use crate::figures::{Scale, mean, share};
use crate::sample::Step;
use crate::sites::put_site_text;
use crate::strips::{Height, waited_in};
use std::alloc::{AllocError, Global};
use tk_odd::Held;
use tk_paper::Part::{
    Class, Close, End, Mean, Number, Open, Quote, Span, Start, Text, Value, With,
};
use tk_paper::{Attr, Paper, Tag};

/// A step of the picture: from when to when it lasted, how many tasks waited in the mean, and how many of them for the first place and for
/// the second, in thousandths.
#[derive(Clone, Copy, Debug, PartialEq, Eq)]
pub(crate) struct Split {
    pub from: u64,
    pub to: u64,
    pub waited: u64,
    pub first: u64,
    pub second: u64,
}

/// Which part of a step is drawn: those that waited for the first place, for the second one, and all others.
#[derive(Clone, Copy)]
pub(crate) enum Whom {
    First,
    Second,
    Rest,
}

// ---- what was waited for a place

// What a place was charged with up to a moment: by the last line that isn't later.
fn charged_until(charges: &[Charge], moment: u64) -> u64
    ensures { result ≡ spec.charged_until charges.now moment }
{
    let mut sum = 0;
    for charge in charges {
        if charge.now <= moment {
            sum = charge.charged;
        }
    }
    sum
}

// How many tasks waited for a place in the mean of a step, in thousandths.
fn waited_for(charges: &[Charge], step: &Step) -> u64
    ensures { result ≡ spec.waited_for charges.now step.now }
{
    let before = charged_until(charges, step.from);
    let charged = charged_until(charges, step.to).saturating_sub(before);
    mean(charged, step.time())
}

// A step of the picture. Its parts are no more than the whole.
fn split_of(first: &[Charge], second: &[Charge], step: &Step) -> Split
    ensures { result ≡ spec.split_of first.now second.now step.now }
{
    let waited = waited_in(step);
    let one = waited_for(first, step).min(waited);
    Split {
        from: step.from,
        to: step.to,
        waited,
        first: one,
        second: waited_for(second, step).min(waited.saturating_sub(one)),
    }
}

// The charges of the place that stands there among these.
fn charges_at(blamed: &[Blamed], i: usize) -> &[Charge]
    ensures { result.now ≡ spec.charges_at blamed.now i }
{
    match blamed.get(i) {
        Some(one) => one.charges.as_slice(),
        None => &[],
    }
}

fn split_all(
    alloc: Global,
    first: &[Charge],
    second: &[Charge],
    steps: &[Step],
) -> Result<Vec<Split>, AllocError>
    ensures { IfOk result (λ splits. splits.items ≡ map (spec.split_of first.now second.now) steps.now) }
{
    let mut splits = Vec::new(alloc);
    for step in steps {
        splits.push(split_of(first, second, step))?;
    }
    Ok(splits)
}

/// The steps of the picture. `AllocError`: there was no memory.
pub(crate) fn splits_of(
    alloc: Global,
    blamed: &[Blamed],
    steps: &[Step],
) -> Result<Vec<Split>, AllocError>
    ensures { IfOk result (λ splits. splits.items ≡ spec.splits_of blamed.now steps.now) }
{
    let (first, second) = (charges_at(blamed, 0), charges_at(blamed, 1));
    split_all(alloc, first, second, steps)
}

// ---- how high it stands

// How high the picture is.
const HIGH: u64 = 60;

// How high so many tasks stand, where the picture goes up to so many: it goes up to one task at least.
fn high_of(top: u64, count: u64) -> u64
    ensures high { result ≡ spec.high_of top count }
    ensures most { result ≤ 60 }
{
    share(count, top.max(1000)) * HIGH / 1000
}

// Up to where a part goes.
fn ends_at(top: u64, whom: Whom, split: &Split) -> u64
    ensures end { result ≡ spec.ends_at top whom split.now }
    ensures most { result ≤ 60 }
{
    match whom {
        Whom::First => high_of(top, split.first),
        Whom::Second => high_of(top, split.first.saturating_add(split.second)),
        Whom::Rest => high_of(top, split.waited),
    }
}

// Where it begins.
fn begins_at(top: u64, whom: Whom, split: &Split) -> u64
    ensures { result ≡ spec.begins_at top whom split.now }
{
    match whom {
        Whom::First => 0,
        Whom::Second => ends_at(top, Whom::First, split),
        Whom::Rest => ends_at(top, Whom::Second, split),
    }
}

fn part_box(scale: Scale, top: u64, whom: Whom, split: &Split) -> Area
    ensures { result ≡ spec.part_box scale top whom split.now }
{
    let x = scale.x(split.from);
    let begin = begins_at(top, whom, split);
    Area {
        x,
        wide: scale.x(split.to).saturating_sub(x),
        base: HIGH.saturating_sub(begin),
        high: ends_at(top, whom, split).saturating_sub(begin),
    }
}

fn class_of(whom: Whom) -> &'static str
    ensures { result.now ≡ spec.class_of whom }
{
    match whom {
        Whom::First => "first",
        Whom::Second => "second",
        Whom::Rest => "wait",
    }
}

fn put_part_boxes(
    paper: &mut Paper,
    scale: Scale,
    top: u64,
    whom: Whom,
    splits: &[Split],
) -> Result<(), AllocError>
    ensures { OnOk result (Writes paper.old paper.new (spec.part_boxes scale top whom splits.now)) }
{
    for split in splits {
        put_box(paper, part_box(scale, top, whom, split))?;
    }
    Ok(())
}

fn put_part(
    paper: &mut Paper,
    scale: Scale,
    top: u64,
    whom: Whom,
    splits: &[Split],
) -> Result<(), AllocError>
    ensures { OnOk result (Writes paper.old paper.new (spec.part_path scale top whom splits.now)) }
{
    let class = class_of(whom);
    paper.put(&[Open(Tag::Path), With(Attr::Class, class), Value(Attr::D)])?;
    put_part_boxes(paper, scale, top, whom, splits)?;
    paper.put(&[Quote, End, Close(Tag::Path)])?;
    Ok(())
}

// ---- what it says

fn put_split_reading(paper: &mut Paper, scale: Scale, split: &Split) -> Result<(), AllocError>
    ensures { OnOk result (Writes paper.old paper.new (spec.split_reading scale split.now)) }
{
    paper.put(&[
        Number(scale.x(split.from)),
        Text(","),
        Number(split.waited),
        Text(","),
        Number(split.first),
        Text(","),
        Number(split.second),
        Text(";"),
    ])
}

fn put_each_split_reading(
    paper: &mut Paper,
    scale: Scale,
    splits: &[Split],
) -> Result<(), AllocError>
    ensures { OnOk result (Writes paper.old paper.new (flat_map (spec.split_reading scale) splits.now)) }
{
    for split in splits {
        put_split_reading(paper, scale, split)?;
    }
    Ok(())
}

// Puts what a script tells of the steps.
fn put_split_readings(paper: &mut Paper, scale: Scale, splits: &[Split]) -> Result<(), AllocError>
    ensures { OnOk result (Writes paper.old paper.new (spec.split_readings scale splits.now)) }
{
    paper.put(&[Value(Attr::DataSteps)])?;
    put_each_split_reading(paper, scale, splits)?;
    paper.put(&[Quote])?;
    Ok(())
}

// Puts from when to when others waited for a place, and how long.
fn put_held_span(paper: &mut Paper, scale: Scale, held: &Held) -> Result<(), AllocError>
    ensures { OnOk result (Writes paper.old paper.new (spec.held_span scale held.now)) }
{
    paper.put(&[
        Text(". Between "),
        Span(scale.since(held.since.unwrap_or(0))),
        Text(" and "),
        Span(scale.since(held.until)),
        Text(" others waited "),
        Span(held.charged),
        Text(" for "),
    ])
}

// Puts the same, and the place.
fn put_held_words(paper: &mut Paper, scale: Scale, blamed: &Blamed) -> Result<(), AllocError>
    ensures { OnOk result (Writes paper.old paper.new (spec.held_words scale blamed.now)) }
{
    put_held_span(paper, scale, &blamed.held)?;
    put_site_text(paper, blamed.place.as_slice())?;
    Ok(())
}

fn put_all_held_words(paper: &mut Paper, scale: Scale, blamed: &[Blamed]) -> Result<(), AllocError>
    ensures { OnOk result (Writes paper.old paper.new (flat_map (spec.held_words scale) blamed.now)) }
{
    for one in blamed {
        put_held_words(paper, scale, one)?;
    }
    Ok(())
}

// What the picture says to who can't see it.
fn put_picture_words(
    paper: &mut Paper,
    scale: Scale,
    height: Height,
    blamed: &[Blamed],
) -> Result<(), AllocError>
    ensures { OnOk result (Writes paper.old paper.new (spec.picture_words scale height blamed.now)) }
{
    paper.put(&[
        With(Attr::Role, "img"),
        Value(Attr::AriaLabel),
        Text("How many tasks waited at a time: at most "),
        Mean(height.most),
        Text(", as the mean of a step"),
    ])?;
    put_all_held_words(paper, scale, blamed)?;
    paper.put(&[Quote, End])?;
    Ok(())
}

/// Puts the picture of how many tasks waited at a time, and for whom.
pub(crate) fn put_picture(
    paper: &mut Paper,
    scale: Scale,
    height: Height,
    blamed: &[Blamed],
    splits: &[Split],
) -> Result<(), AllocError>
    ensures { OnOk result (Writes paper.old paper.new (spec.picture scale height blamed.now splits.now)) }
{
    open_drawing(paper, "total", scale, HIGH)?;
    put_split_readings(paper, scale, splits)?;
    put_picture_words(paper, scale, height, blamed)?;
    put_part(paper, scale, height.top, Whom::First, splits)?;
    put_part(paper, scale, height.top, Whom::Second, splits)?;
    put_part(paper, scale, height.top, Whom::Rest, splits)?;
    paper.put(&[Close(Tag::Svg)])?;
    Ok(())
}

// ---- its scale

/// Puts up to how many tasks the picture goes, the half of them, and none, at its right.
pub(crate) fn put_marks(paper: &mut Paper, height: Height) -> Result<(), AllocError>
    ensures { OnOk result (Writes paper.old paper.new (spec.marks height)) }
{
    let top = height.top.max(1000);
    paper.put(&[
        Open(Tag::Div),
        With(Attr::Class, "marks"),
        With(Attr::AriaHidden, "true"),
        End,
        Start(Tag::Span),
        Mean(top),
        Close(Tag::Span),
        Start(Tag::Span),
        Mean(top / 2),
        Close(Tag::Span),
        Start(Tag::Span),
        Text("0"),
        Close(Tag::Span),
        Close(Tag::Div),
    ])
}

// ---- what its colours say

// Puts the colour of a place, the place, and how long others waited for it.
fn put_whom_key(paper: &mut Paper, class: &'static str, blamed: &Blamed) -> Result<(), AllocError>
    ensures { OnOk result (Writes paper.old paper.new (spec.whom_key class.now blamed.now)) }
{
    paper.put(&[
        Start(Tag::Span),
        Class(Tag::I, class),
        Close(Tag::I),
        Text(" "),
        Class(Tag::Span, "who"),
    ])?;
    put_site_text(paper, blamed.place.as_slice())?;
    paper.put(&[
        Close(Tag::Span),
        Text(", "),
        Span(blamed.held.charged),
        Close(Tag::Span),
    ])?;
    Ok(())
}

// The same of the place that stands there, if there is one.
fn put_whom_key_at(
    paper: &mut Paper,
    class: &'static str,
    blamed: &[Blamed],
    i: usize,
) -> Result<(), AllocError>
    ensures { OnOk result (Writes paper.old paper.new (spec.whom_key_at class.now blamed.now i)) }
{
    match blamed.get(i) {
        Some(one) => put_whom_key(paper, class, one),
        None => paper.put(&[]),
    }
}

fn put_whom_keys(paper: &mut Paper, blamed: &[Blamed]) -> Result<(), AllocError>
    ensures { OnOk result (Writes paper.old paper.new (spec.whom_keys blamed.now)) }
{
    paper.put(&[
        Class(Tag::P, "legend whom"),
        Start(Tag::Span),
        Text("waited for"),
        Close(Tag::Span),
    ])?;
    put_whom_key_at(paper, "k-first", blamed, 0)?;
    put_whom_key_at(paper, "k-second", blamed, 1)?;
    paper.put(&[
        Start(Tag::Span),
        Class(Tag::I, "k-wait"),
        Close(Tag::I),
        Text(" others, or nobody"),
        Close(Tag::Span),
        Close(Tag::P),
    ])?;
    Ok(())
}

/// Puts for whom others waited, and for how long, where they waited for a place.
pub(crate) fn put_whom_legend(paper: &mut Paper, blamed: &[Blamed]) -> Result<(), AllocError>
    ensures { OnOk result (Writes paper.old paper.new (spec.whom_legend blamed.now)) }
{
    if blamed.is_empty() {
        return paper.put(&[]);
    }
    put_whom_keys(paper, blamed)
}
