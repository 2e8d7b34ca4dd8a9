//! The boxes that a strip is drawn of.
ghost use Rattle.std.specs.Prelude.{◌≡◌, ◌<◌, ◌==◌, [], OnOk};
ghost use Rattle.tk_page.specs.Figures as figures;
ghost use Rattle.tk_page.specs.Strips as spec;
ghost use Rattle.tk_paper.specs.Pieces.{Writes};

use crate::figures::{Scale, share};
use crate::sample::Step;
use std::alloc::AllocError;
use tk_paper::Part::{Close, End, Number, Open, Quote, Text, Value, With, WithNumber};
use tk_paper::{Attr, Paper, Tag};

// Heights of a strip: the area of shares, and the marks of wakes below it.
const AREA: u64 = 16;

const MARKS: u64 = 5;

pub(crate) const HIGH: u64 = AREA + 1 + MARKS;

// How high the busy share of a step stands: at least 1 where there is any.
fn busy_height(step: &Step) -> u64
    ensures { result ≡ spec.busy_height step.now }
{
    let high = share(step.busy, step.time()) * AREA / 1000;
    if step.busy > 0 { high.max(1) } else { 0 }
}

// How high the waiting share stands above it: at least 1 where it is a fiftieth or more.
fn wait_height(step: &Step) -> u64
    ensures { result ≡ spec.wait_height step.now }
{
    let part = share(step.sched, step.time());
    let high = part * AREA / 1000;
    let high = if part >= 20 { high.max(1) } else { high };
    high.min(AREA.saturating_sub(busy_height(step)))
}

// How high a mark stands of so many of at most so many.
fn mark_height(count: u64, most: u64) -> u64
    ensures { result ≡ spec.mark_height count most }
{
    if count == 0 || most == 0 {
        0
    } else {
        (share(count, most) * MARKS / 1000).max(1)
    }
}

/// A box of a path: from a height up.
#[derive(Clone, Copy)]
pub(crate) struct Area {
    pub x: u64,
    pub wide: u64,
    pub base: u64,
    pub high: u64,
}

/// Puts a box in a path, if it isn't empty.
pub(crate) fn put_box(paper: &mut Paper, area: Area) -> Result<(), AllocError>
    ensures { OnOk result (Writes paper.old paper.new (spec.box area)) }
{
    let Area {
        x,
        wide,
        base,
        high,
    } = area;
    if high == 0 || wide == 0 {
        return paper.put(&[]);
    }
    paper.put(&[
        Text("M"),
        Number(x),
        Text(" "),
        Number(base),
        Text("v-"),
        Number(high),
        Text("h"),
        Number(wide),
        Text("v"),
        Number(high),
        Text("z"),
    ])
}

/// Which boxes a path has.
#[derive(Clone, Copy)]
pub(crate) enum Boxes {
    Busy,
    Wait,
    Wakes(u64),
    Own(u64),
}

// Marks leave a gap between two, where there is room.
fn mark_of(x: u64, wide: u64, count: u64, most: u64) -> Area
    ensures { result ≡ spec.mark_of x wide count most }
{
    Area {
        x,
        wide: if wide > 4 { wide - 2 } else { wide },
        base: HIGH,
        high: mark_height(count, most),
    }
}

fn box_of(scale: Scale, step: &Step, boxes: Boxes) -> Area
    ensures { result ≡ spec.box_of scale boxes step.now }
{
    let x = scale.x(step.from);
    let wide = scale.x(step.to).saturating_sub(x);
    match boxes {
        Boxes::Busy => Area {
            x,
            wide,
            base: AREA,
            high: busy_height(step),
        },
        Boxes::Wait => Area {
            x,
            wide,
            base: AREA.saturating_sub(busy_height(step)),
            high: wait_height(step),
        },
        Boxes::Wakes(most) => mark_of(x, wide, step.wakes, most),
        Boxes::Own(most) => mark_of(x, wide, step.own, most),
    }
}

fn put_boxes(
    paper: &mut Paper,
    scale: Scale,
    steps: &[Step],
    boxes: Boxes,
) -> Result<(), AllocError>
    ensures { OnOk result (Writes paper.old paper.new (spec.boxes scale boxes steps.now)) }
{
    for step in steps {
        put_box(paper, box_of(scale, step, boxes))?;
    }
    Ok(())
}

pub(crate) fn put_path(
    paper: &mut Paper,
    scale: Scale,
    class: &'static str,
    steps: &[Step],
    boxes: Boxes,
) -> Result<(), AllocError>
    ensures { OnOk result (Writes paper.old paper.new (spec.path scale class.now boxes steps.now)) }
{
    paper.put(&[Open(Tag::Path), With(Attr::Class, class), Value(Attr::D)])?;
    put_boxes(paper, scale, steps, boxes)?;
    paper.put(&[Quote, End, Close(Tag::Path)])?;
    Ok(())
}

pub(crate) fn put_rect(
    paper: &mut Paper,
    class: &'static str,
    x: u64,
    wide: u64,
) -> Result<(), AllocError>
    ensures { OnOk result (Writes paper.old paper.new (spec.rect class.now x wide)) }
{
    paper.put(&[
        Open(Tag::Rect),
        With(Attr::Class, class),
        WithNumber(Attr::X, x),
        WithNumber(Attr::Width, wide),
        WithNumber(Attr::Height, AREA),
        End,
        Close(Tag::Rect),
    ])
}

/// Begins a drawing of the time that is shown, so many units high.
pub(crate) fn open_drawing(
    paper: &mut Paper,
    class: &'static str,
    scale: Scale,
    high: u64,
) -> Result<(), AllocError>
    ensures { OnOk result (Writes paper.old paper.new (spec.drawing class.now (figures.wide_of scale) high)) }
{
    let wide = scale.wide();
    paper.put(&[
        Open(Tag::Svg),
        With(Attr::Class, class),
        Value(Attr::ViewBox),
        Text("0 0 "),
        Number(wide),
        Text(" "),
        Number(high),
        Quote,
        With(Attr::Preserve, "none"),
    ])
}
