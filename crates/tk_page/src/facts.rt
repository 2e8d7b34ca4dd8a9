//! What a card tells of a finding.
ghost use Rattle.std.specs.Prelude.{◌-◌, ◌==◌, ◌∷◌, ◌++◌, [], OnOk, codes};
ghost use Rattle.tk_odd.specs.Words.{after_of, before_of};
ghost use Rattle.tk_page.specs.Cards as spec;
ghost use Rattle.tk_paper.specs.Parts.{text};
ghost use Rattle.tk_paper.specs.Pieces.{Writes};

use crate::figures::{Scale, share};
use std::alloc::AllocError;
use tk_odd::{Finding, OddKind, Shape};
use tk_paper::Paper;
use tk_paper::Part::{Count, Share, Span, Text};

// Puts for how long a task ran while no other was polled, where one did.
fn put_alone(paper: &mut Paper, still: u64) -> Result<(), AllocError>
    ensures { OnOk result (Writes paper.old paper.new (spec.alone still)) }
{
    if still == 0 {
        return paper.put(&[]);
    }
    paper.put(&[
        Text(" No other task was polled while it ran for "),
        Span(still),
        Text("."),
    ])
}

// Puts how long a poll took.
fn put_longest(paper: &mut Paper, time: u64) -> Result<(), AllocError>
    ensures { OnOk result (Writes paper.old paper.new (spec.longest time)) }
{
    paper.put(&[Text(". A poll of it took at least "), Span(time), Text(".")])
}

// Puts a time between the words of a kind.
fn put_timed(paper: &mut Paper, kind: OddKind, time: u64) -> Result<(), AllocError>
    ensures { OnOk result (Writes paper.old paper.new (spec.timed (before_of kind) time (after_of kind))) }
{
    paper.put(&[
        Text(kind.before()),
        Text(" "),
        Span(time),
        Text(kind.after()),
    ])
}

fn put_steps(paper: &mut Paper, scale: Scale, finding: &Finding) -> Result<(), AllocError>
    ensures { OnOk result (Writes paper.old paper.new (spec.steps scale finding.now)) }
{
    paper.put(&[
        Text("Between "),
        Span(scale.since(finding.since)),
        Text(" and "),
        Span(scale.since(finding.until)),
        Text(" "),
    ])
}

fn put_held(
    paper: &mut Paper,
    scale: Scale,
    kind: OddKind,
    finding: &Finding,
) -> Result<(), AllocError>
    ensures { OnOk result (Writes paper.old paper.new (spec.facts_of Shape.Held scale 0 finding.now (before_of kind) (after_of kind))) }
{
    put_steps(paper, scale, finding)?;
    put_timed(paper, kind, finding.figure)?;
    put_longest(paper, finding.longest)?;
    put_alone(paper, finding.still)?;
    Ok(())
}

fn put_lone(paper: &mut Paper, kind: OddKind, finding: &Finding) -> Result<(), AllocError>
    ensures { OnOk result (Writes paper.old paper.new (spec.timed (before_of kind) finding.now.figure (after_of kind) ++ spec.longest finding.now.longest)) }
{
    put_timed(paper, kind, finding.figure)?;
    put_longest(paper, finding.longest)?;
    Ok(())
}

fn put_stretch(
    paper: &mut Paper,
    scale: Scale,
    long: u64,
    kind: OddKind,
    finding: &Finding,
) -> Result<(), AllocError>
    ensures { OnOk result (Writes paper.old paper.new (spec.facts_of Shape.Stretch scale long finding.now (before_of kind) (after_of kind))) }
{
    put_steps(paper, scale, finding)?;
    put_timed(paper, kind, long)?;
    paper.put(&[Text(".")])?;
    Ok(())
}

fn put_lasting(
    paper: &mut Paper,
    scale: Scale,
    kind: OddKind,
    finding: &Finding,
) -> Result<(), AllocError>
    ensures { OnOk result (Writes paper.old paper.new (spec.lasting scale finding.now (before_of kind) (after_of kind))) }
{
    paper.put(&[
        Text(kind.before()),
        Text(" since "),
        Span(scale.since(finding.since)),
        Text(", for "),
        Span(finding.figure),
        Text(kind.after()),
        Text("."),
    ])
}

fn put_one(paper: &mut Paper, kind: OddKind, finding: &Finding) -> Result<(), AllocError>
    ensures { OnOk result (Writes paper.old paper.new (spec.timed (before_of kind) finding.now.figure (after_of kind) ++ text (codes ".") ∷ [])) }
{
    put_timed(paper, kind, finding.figure)?;
    paper.put(&[Text(".")])?;
    Ok(())
}

fn put_part(paper: &mut Paper, kind: OddKind, finding: &Finding) -> Result<(), AllocError>
    ensures { OnOk result (Writes paper.old paper.new (spec.part finding.now (before_of kind) (after_of kind))) }
{
    let own = share(finding.figure, finding.of);
    paper.put(&[
        Count(finding.figure),
        Text(" "),
        Text(kind.before()),
        Text(" "),
        Count(finding.of),
        Text(kind.after()),
        Text(", "),
        Share(own),
        Text("."),
    ])
}

/// Puts what is told of a finding.
pub(crate) fn put_facts(
    paper: &mut Paper,
    scale: Scale,
    long: u64,
    kind: OddKind,
    finding: &Finding,
) -> Result<(), AllocError>
    ensures { OnOk result (Writes paper.old paper.new (spec.facts scale long kind finding.now)) }
{
    match kind.shape() {
        Shape::Held => put_held(paper, scale, kind, finding),
        Shape::Alone => put_lone(paper, kind, finding),
        Shape::Stretch => put_stretch(paper, scale, long, kind, finding),
        Shape::Lasting => put_lasting(paper, scale, kind, finding),
        Shape::Longest => put_one(paper, kind, finding),
        Shape::Share => put_part(paper, kind, finding),
    }
}
