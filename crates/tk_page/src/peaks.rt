//! What a strip says in words.
ghost use Rattle.std.specs.Prelude.{◌≡◌, ◌<◌, ◌==◌, [], OnOk, find};
ghost use Rattle.tk_page.specs.Strips as spec;
ghost use Rattle.tk_paper.specs.Pieces.{Writes};

use crate::figures::{Scale, share};
use crate::sample::{Sample, Step};
use std::alloc::AllocError;
use tk_paper::Part::{End, Quote, Share, Span, Text, Value, With};
use tk_paper::{Attr, Paper};
use tk_stream::Task;

// What a task does in a step.
#[derive(Clone, Copy)]
enum Doing {
    Busy,
    Waiting,
}

// The share of a step that a task did so, in thousandths.
fn part_of(kind: Doing, step: &Step) -> u64
    ensures { result ≡ spec.part_of kind step.now }
{
    match kind {
        Doing::Busy => share(step.busy, step.time()),
        Doing::Waiting => share(step.sched, step.time()),
    }
}

fn most_part(kind: Doing, steps: &[Step]) -> u64
    ensures { result ≡ spec.most_part kind steps.now }
{
    let mut most = 0;
    for step in steps {
        most = part_of(kind, step).max(most);
    }
    most
}

// The first step of which that share is this one.
fn first_with(kind: Doing, share: u64, steps: &[Step]) -> Option<Step>
    ensures { result ≡ find (λ step. spec.part_of kind step == share) steps.now }
{
    let [first, rest @ ..] = steps else {
        return None;
    };
    if part_of(kind, first) == share {
        return Some(*first);
    }
    first_with(kind, share, rest)
}

fn step_with(kind: Doing, share: u64, steps: &[Step]) -> Option<Step>
    ensures { result ≡ spec.step_with kind share steps.now }
{
    if share == 0 {
        None
    } else {
        first_with(kind, share, steps)
    }
}

// The first step in which a task did so most.
fn peak(kind: Doing, steps: &[Step]) -> Option<Step>
    ensures { result ≡ spec.peak kind steps.now }
{
    step_with(kind, most_part(kind, steps), steps)
}

fn doing_words(kind: Doing) -> &'static str
    ensures { result.now ≡ spec.doing_words kind }
{
    match kind {
        Doing::Busy => ". Busiest between ",
        Doing::Waiting => ". Waited most between ",
    }
}

fn put_peak_words(
    paper: &mut Paper,
    scale: Scale,
    kind: Doing,
    step: &Step,
) -> Result<(), AllocError>
    ensures { OnOk result (Writes paper.old paper.new (spec.peak_words scale kind step.now)) }
{
    paper.put(&[
        Text(doing_words(kind)),
        Span(scale.since(step.from)),
        Text(" and "),
        Span(scale.since(step.to)),
        Text(": "),
        Share(part_of(kind, step)),
    ])
}

// Puts in which step a task did so most, if it did.
fn put_peak(paper: &mut Paper, scale: Scale, kind: Doing, steps: &[Step]) -> Result<(), AllocError>
    ensures { OnOk result (Writes paper.old paper.new (spec.peak_said scale kind steps.now)) }
{
    match peak(kind, steps) {
        Some(step) => put_peak_words(paper, scale, kind, &step),
        None => paper.put(&[]),
    }
}

// Puts for which share of the time a task was busy and waited.
fn put_shares_said(
    paper: &mut Paper,
    scale: Scale,
    task: &Task,
    last: Sample,
) -> Result<(), AllocError>
    ensures { OnOk result (Writes paper.old paper.new (spec.shares_said scale task.now last)) }
{
    let watched = scale.watched();
    let (busy, sched) = (share(last.busy, watched), share(last.sched, watched));
    paper.put(&[
        With(Attr::Role, "img"),
        Value(Attr::AriaLabel),
        Text(task.info.name.as_str()),
        Text(": busy "),
        Share(busy),
        Text(", waiting "),
        Share(sched),
        Text(" of "),
        Span(watched),
    ])
}

/// What a strip says to who can't see it.
pub(crate) fn put_words(
    paper: &mut Paper,
    scale: Scale,
    task: &Task,
    last: Sample,
    steps: &[Step],
) -> Result<(), AllocError>
    ensures { OnOk result (Writes paper.old paper.new (spec.words scale task.now last steps.now)) }
{
    put_shares_said(paper, scale, task, last)?;
    put_peak(paper, scale, Doing::Busy, steps)?;
    put_peak(paper, scale, Doing::Waiting, steps)?;
    paper.put(&[Quote, End])?;
    Ok(())
}
