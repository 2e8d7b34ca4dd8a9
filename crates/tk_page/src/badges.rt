//! The words for what is odd, and the badges of a task.
ghost use Rattle.std.specs.Prelude.{◌≡◌, OnOk, flat_map};
ghost use Rattle.tk_page.specs.Badges as spec;
ghost use Rattle.tk_page.specs.Odd.{row_kinds};
ghost use Rattle.tk_paper.specs.Pieces.{Writes};

use crate::oddities::{ROW_KINDS, Signs, says};
use std::alloc::AllocError;
use tk_odd::{Found, OddKind, Sign};
use tk_paper::Part::{Class, Close, End, Open, Quote, Text, Value, With};
use tk_paper::{Attr, Paper, Tag};
use tk_stream::Task;

/// How a sign is drawn.
#[derive(Clone, Copy)]
pub(crate) struct Mark {
    pub class: &'static str,
    pub icon: &'static str,
}

/// How a sign is drawn.
pub(crate) fn mark_of(sign: Sign) -> Mark
    ensures class { result.class.now ≡ spec.class_of sign }
    ensures icon { result.icon.now ≡ spec.icon_of sign }
{
    match sign {
        Sign::Runs => Mark {
            class: "holds",
            icon: "▮",
        },
        Sign::Waits => Mark {
            class: "unpolled",
            icon: "…",
        },
        Sign::NeverReturns => Mark {
            class: "never",
            icon: "∞",
        },
        Sign::IsLost => Mark {
            class: "lost",
            icon: "∅",
        },
        Sign::Loops => Mark {
            class: "self",
            icon: "↻",
        },
    }
}

fn put_badge(paper: &mut Paper, odd: bool, kind: OddKind) -> Result<(), AllocError>
    ensures { OnOk result (Writes paper.old paper.new (spec.badge odd kind)) }
{
    if !odd {
        return paper.put(&[]);
    }
    let mark = mark_of(kind.sign());
    paper.put(&[
        Open(Tag::Span),
        Value(Attr::Class),
        Text("badge "),
        Text(mark.class),
        Quote,
        End,
        Open(Tag::Span),
        With(Attr::AriaHidden, "true"),
        End,
        Text(mark.icon),
        Close(Tag::Span),
        Text(" "),
        Text(kind.badge()),
        Close(Tag::Span),
    ])
}

// Puts the badge of a finding that says of a task what its row doesn't show.
fn put_found_badge(paper: &mut Paper, task: &Task, found: &Found) -> Result<(), AllocError>
    ensures { OnOk result (Writes paper.old paper.new (spec.found_badge task.now found.now)) }
{
    put_badge(paper, says(task, found), found.finding.kind)
}

fn put_found_badges(paper: &mut Paper, task: &Task, findings: &[Found]) -> Result<(), AllocError>
    ensures { OnOk result (Writes paper.old paper.new (flat_map (spec.found_badge task.now) findings.now)) }
{
    for found in findings {
        put_found_badge(paper, task, found)?;
    }
    Ok(())
}

fn put_row_badges(paper: &mut Paper, signs: &Signs, task: &Task) -> Result<(), AllocError>
    ensures { OnOk result (Writes paper.old paper.new (flat_map (spec.row_badge signs.now task.now) row_kinds)) }
{
    for kind in &ROW_KINDS {
        put_badge(paper, signs.has(task, *kind), *kind)?;
    }
    Ok(())
}

fn put_badge_line(paper: &mut Paper, signs: &Signs, task: &Task) -> Result<(), AllocError>
    ensures { OnOk result (Writes paper.old paper.new (spec.badge_line signs.now task.now)) }
{
    paper.put(&[Class(Tag::Div, "badges")])?;
    put_found_badges(paper, task, signs.carded())?;
    put_row_badges(paper, signs, task)?;
    paper.put(&[Close(Tag::Div)])?;
    Ok(())
}

/// Puts what is odd about a task after its name.
pub(crate) fn put_badges(paper: &mut Paper, signs: &Signs, task: &Task) -> Result<(), AllocError>
    ensures { OnOk result (Writes paper.old paper.new (spec.badges signs.now task.now)) }
{
    if signs.has_any(task) {
        put_badge_line(paper, signs, task)
    } else {
        paper.put(&[])
    }
}

/// Begins a section with its head.
pub(crate) fn start_section(
    paper: &mut Paper,
    id: &'static str,
    head: &'static str,
) -> Result<(), AllocError>
    ensures { OnOk result (Writes paper.old paper.new (spec.section id.now head.now)) }
{
    paper.put(&[
        Open(Tag::Section),
        With(Attr::AriaLabelledby, id),
        End,
        Open(Tag::H2),
        With(Attr::Id, id),
        End,
        Text(head),
    ])
}
