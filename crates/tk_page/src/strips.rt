//! Strips: a course of time, drawn.
ghost use Rattle.std.specs.Prelude.{◌≡◌, ◌<◌, [], OnOk, IfOk, flat_map};
ghost use Rattle.tk_page.specs.Strips as spec;
ghost use Rattle.tk_paper.specs.Pieces.{Writes};

use crate::boxes::{Boxes, HIGH, open_drawing, put_path, put_rect};
use crate::figures::{Scale, mean, share};
use crate::oddities::is_lost;
use crate::peaks::put_words;
use crate::sample::{Sample, Step};
use std::alloc::{AllocError, Global};
use tk_core::TaskRow;
use tk_paper::Part::{Close, End, Number, Open, Quote, Span, Start, Text, Value, With};
use tk_paper::{Attr, Paper, Tag};
use tk_stream::Task;

/// The steps between samples, from nothing at a moment to what is there now.
pub(crate) fn steps_of(
    alloc: Global,
    born: u64,
    samples: &[Sample],
    last: Sample,
) -> Result<Vec<Step>, AllocError>
    ensures { IfOk result (λ steps. steps.items ≡ spec.steps_of born samples.now last) }
{
    let mut steps = Vec::new(alloc);
    let mut before = Sample::none(born);
    for sample in samples {
        if sample.now > before.now {
            steps.push(sample.since(before))?;
        }
        before = *sample;
    }
    if last.now > before.now {
        steps.push(last.since(before))?;
    }
    Ok(steps)
}

// Puts what is read of a step: where it begins, the busy and the waiting share of its time, its wakes, and those of its own.
fn put_reading(paper: &mut Paper, scale: Scale, step: &Step) -> Result<(), AllocError>
    ensures { OnOk result (Writes paper.old paper.new (spec.reading scale step.now)) }
{
    let time = step.time();
    let (busy, sched) = (share(step.busy, time), share(step.sched, time));
    paper.put(&[
        Number(scale.x(step.from)),
        Text(","),
        Number(busy),
        Text(","),
        Number(sched),
        Text(","),
        Number(step.wakes),
        Text(","),
        Number(step.own),
        Text(";"),
    ])
}

fn put_each_reading(paper: &mut Paper, scale: Scale, steps: &[Step]) -> Result<(), AllocError>
    ensures { OnOk result (Writes paper.old paper.new (flat_map (spec.reading scale) steps.now)) }
{
    for step in steps {
        put_reading(paper, scale, step)?;
    }
    Ok(())
}

// Puts what a script tells of the steps of a strip.
fn put_readings(paper: &mut Paper, scale: Scale, steps: &[Step]) -> Result<(), AllocError>
    ensures { OnOk result (Writes paper.old paper.new (spec.readings scale steps.now)) }
{
    paper.put(&[Value(Attr::DataSteps)])?;
    put_each_reading(paper, scale, steps)?;
    paper.put(&[Quote])?;
    Ok(())
}

fn most_wakes(steps: &[Step]) -> u64
    ensures { result ≡ spec.most_wakes steps.now }
{
    let mut most = 0;
    for step in steps {
        most = step.wakes.max(most);
    }
    most
}

fn put_alive(paper: &mut Paper, scale: Scale, row: &TaskRow) -> Result<(), AllocError>
    ensures { OnOk result (Writes paper.old paper.new (spec.alive scale row.now)) }
{
    let born = scale.x(row.created);
    let end = scale.x(row.dropped.unwrap_or(scale.now));
    put_rect(paper, "alive", born, end.saturating_sub(born).max(1))
}

fn put_lost(paper: &mut Paper, scale: Scale, row: &TaskRow) -> Result<(), AllocError>
    ensures { OnOk result (Writes paper.old paper.new (spec.lost scale row.now)) }
{
    let since = scale.x(row.last_ended.unwrap_or(row.created));
    put_rect(paper, "lost", since, scale.wide().saturating_sub(since))
}

// Puts from when on nobody could wake a task, if so.
fn put_lost_if(paper: &mut Paper, scale: Scale, row: &TaskRow, lost: bool) -> Result<(), AllocError>
    ensures { OnOk result (Writes paper.old paper.new (spec.lost_if scale row.now lost)) }
{
    if lost {
        put_lost(paper, scale, row)
    } else {
        paper.put(&[])
    }
}

fn put_paths(paper: &mut Paper, scale: Scale, steps: &[Step]) -> Result<(), AllocError>
    ensures { OnOk result (Writes paper.old paper.new (spec.paths scale steps.now)) }
{
    let most = most_wakes(steps);
    put_path(paper, scale, "busy", steps, Boxes::Busy)?;
    put_path(paper, scale, "wait", steps, Boxes::Wait)?;
    put_path(paper, scale, "wake", steps, Boxes::Wakes(most))?;
    put_path(paper, scale, "own", steps, Boxes::Own(most))?;
    Ok(())
}

fn put_strip_of(
    paper: &mut Paper,
    scale: Scale,
    task: &Task,
    last: Sample,
    steps: &[Step],
    lost: bool,
) -> Result<(), AllocError>
    ensures { OnOk result (Writes paper.old paper.new (spec.strip_of scale task.now last steps.now lost)) }
{
    open_drawing(paper, "strip", scale, HIGH)?;
    put_readings(paper, scale, steps)?;
    put_words(paper, scale, task, last, steps)?;
    put_alive(paper, scale, &task.row)?;
    put_lost_if(paper, scale, &task.row, lost)?;
    put_paths(paper, scale, steps)?;
    paper.put(&[Close(Tag::Svg)])?;
    Ok(())
}

/// Puts the strip of a task.
pub(crate) fn put_strip(
    paper: &mut Paper,
    alloc: Global,
    scale: Scale,
    task: &Task,
    samples: &[Sample],
) -> Result<(), AllocError>
    ensures { OnOk result (Writes paper.old paper.new (spec.strip scale samples.now task.now)) }
{
    let last = Sample::of(&task.row, scale.now);
    let steps = steps_of(alloc, task.row.created, samples, last)?;
    let lost = is_lost(task);
    put_strip_of(paper, scale, task, last, steps.as_slice(), lost)?;
    Ok(())
}

/// How many tasks waited in the mean of a step, in thousandths.
pub(crate) fn waited_in(step: &Step) -> u64
    ensures { result ≡ spec.waited_in step.now }
{
    mean(step.sched, step.time())
}

/// How many tasks waited in the worst step, and up to how many the drawing of all tasks goes, in thousandths.
#[derive(Clone, Copy)]
pub(crate) struct Height {
    pub most: u64,
    pub top: u64,
}

// A step stands out where it has so many times what the next has.
const STANDS_OUT: u64 = 4;

/// The height of the drawing of all tasks. One step that stands out, as the first in which all tasks wait for their first poll, does
/// not press the others flat.
pub(crate) fn height_of(steps: &[Step]) -> Height
    ensures { result.most ≡ spec.most_waited steps.now }
{
    let mut most = 0u64;
    let mut next = 0u64;
    for step in steps {
        let waited = waited_in(step);
        next = next.max(waited.min(most));
        most = most.max(waited);
    }
    // Nothing is cut below one task.
    let low = next.max(1000);
    let stands_out = next > 0 && most / STANDS_OUT > low;
    Height {
        most,
        top: if stands_out { low } else { most },
    }
}

// So many sixths of a time, rounded down.
fn sixths(time: u64, k: u64) -> u64
    ensures { result ≡ spec.sixths time k }
{
    let part = u128::from(time) * u128::from(k) / 6;
    u64::try_from(part).unwrap_or(u64::MAX)
}

/// Puts the moments below it.
pub(crate) fn put_axis(paper: &mut Paper, watched: u64) -> Result<(), AllocError>
    ensures { OnOk result (Writes paper.old paper.new (spec.axis watched)) }
{
    paper.put(&[
        Open(Tag::Div),
        With(Attr::Class, "axis"),
        With(Attr::AriaHidden, "true"),
        End,
        Start(Tag::Span),
        Text("0"),
        Close(Tag::Span),
        Start(Tag::Span),
        Span(sixths(watched, 1)),
        Close(Tag::Span),
        Start(Tag::Span),
        Span(sixths(watched, 2)),
        Close(Tag::Span),
        Start(Tag::Span),
        Span(sixths(watched, 3)),
        Close(Tag::Span),
        Start(Tag::Span),
        Span(sixths(watched, 4)),
        Close(Tag::Span),
        Start(Tag::Span),
        Span(sixths(watched, 5)),
        Close(Tag::Span),
        Start(Tag::Span),
        Span(sixths(watched, 6)),
        Close(Tag::Span),
        Close(Tag::Div),
    ])
}
