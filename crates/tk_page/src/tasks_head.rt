//! What stands above the rows of tasks: the legend, the controls, and the heads of columns.
ghost use Rattle.std.specs.Prelude.{[], OnOk};
ghost use Rattle.tk_page.specs.Rows as spec;
ghost use Rattle.tk_paper.specs.Pieces.{Writes};

use crate::blamed::Blamed;
use crate::figures::Scale;
use crate::picture::{Split, put_marks, put_picture, put_whom_legend};
use crate::strips::{Height, put_axis};
use std::alloc::AllocError;
use tk_paper::Part::{Class, Close, End, Mean, Open, Start, Text, With, WithNumber};
use tk_paper::{Attr, Paper, Tag};

fn put_key(paper: &mut Paper, class: &'static str, words: &'static str) -> Result<(), AllocError>
    ensures { OnOk result (Writes paper.old paper.new (spec.key class.now words.now)) }
{
    paper.put(&[
        Start(Tag::Span),
        Class(Tag::I, class),
        Close(Tag::I),
        Text(words),
        Close(Tag::Span),
    ])
}

pub(crate) fn put_legend(paper: &mut Paper) -> Result<(), AllocError>
    ensures { OnOk result (Writes paper.old paper.new spec.legend) }
{
    paper.put(&[Class(Tag::P, "legend")])?;
    put_key(paper, "k-busy", " busy: a poll runs")?;
    put_key(paper, "k-wait", " waiting: scheduled, and not polled")?;
    put_key(paper, "k-alive", " idle: waits to be woken")?;
    put_key(paper, "k-lost", " idle for good: no waker is left")?;
    put_key(paper, "k-wake", " wakes")?;
    put_key(paper, "k-own", " wakes of its own")?;
    paper.put(&[Close(Tag::P)])?;
    Ok(())
}

/// What is hidden without a script, which alone can use it.
pub(crate) fn put_controls(paper: &mut Paper) -> Result<(), AllocError>
    ensures { OnOk result (Writes paper.old paper.new spec.controls) }
{
    paper.put(&[
        Class(Tag::P, "controls"),
        Start(Tag::Label),
        Text("Show tasks whose name has "),
        Open(Tag::Input),
        With(Attr::Id, "filter"),
        With(Attr::Type, "search"),
        End,
        Close(Tag::Label),
        Start(Tag::Label),
        Open(Tag::Input),
        With(Attr::Id, "only"),
        With(Attr::Type, "checkbox"),
        End,
        Text(" only odd ones"),
        Close(Tag::Label),
        Open(Tag::Span),
        With(Attr::Id, "shown"),
        With(Attr::Role, "status"),
        End,
        Close(Tag::Span),
        Start(Tag::Span),
        Text(
            "The head of a column sorts by it. Point at a strip to read a step, or press Tab and the arrows. Drag over a strip, or hold Shift with the arrows, to choose a span.",
        ),
        Close(Tag::Span),
        Close(Tag::P),
    ])
}

/// Puts the head of a column, with a hint.
pub(crate) fn put_column(
    paper: &mut Paper,
    class: &'static str,
    hint: &'static str,
    words: &'static str,
) -> Result<(), AllocError>
    ensures { OnOk result (Writes paper.old paper.new (spec.column class.now hint.now words.now)) }
{
    paper.put(&[
        Open(Tag::Th),
        With(Attr::Scope, "col"),
        With(Attr::Class, class),
        With(Attr::Title, hint),
        End,
        Open(Tag::Button),
        With(Attr::Type, "button"),
        End,
        Text(words),
        Close(Tag::Button),
        Close(Tag::Th),
    ])
}

pub(crate) fn put_first_columns(paper: &mut Paper) -> Result<(), AllocError>
    ensures { OnOk result (Writes paper.old paper.new spec.first_columns) }
{
    paper.put(&[Start(Tag::Tr)])?;
    put_column(paper, "", "by order of arrival", "task")?;
    put_column(paper, "", "", "state")?;
    paper.put(&[
        Open(Tag::Th),
        With(Attr::Scope, "col"),
        End,
        Text("course of time"),
        Close(Tag::Th),
    ])?;
    Ok(())
}

pub(crate) fn put_last_columns(paper: &mut Paper) -> Result<(), AllocError>
    ensures { OnOk result (Writes paper.old paper.new spec.last_columns) }
{
    let waiting = "how long it was scheduled and not polled";
    let wakers = "wakers that are out: cloned, less dropped";
    put_column(paper, "num", "how long its polls ran", "busy")?;
    put_column(paper, "num", waiting, "waiting")?;
    put_column(paper, "num", "busy time by polls", "a poll takes")?;
    put_column(paper, "num", "", "polls")?;
    put_column(paper, "num", "", "wakes")?;
    put_column(paper, "num", "wakes from within it", "own")?;
    put_column(paper, "num", wakers, "wakers")?;
    paper.put(&[Close(Tag::Tr)])?;
    Ok(())
}

// Puts up to where the drawing goes, where that is less than how many tasks waited in the worst step.
fn put_top(paper: &mut Paper, height: Height) -> Result<(), AllocError>
    ensures { OnOk result (Writes paper.old paper.new (spec.top height)) }
{
    if height.top < height.most {
        paper.put(&[Text("; drawn up to "), Mean(height.top)])
    } else {
        paper.put(&[])
    }
}

// Puts how many tasks waited in the worst step.
fn put_height(paper: &mut Paper, height: Height) -> Result<(), AllocError>
    ensures { OnOk result (Writes paper.old paper.new (spec.height_cell height)) }
{
    paper.put(&[
        Class(Tag::Tr, "sum"),
        Open(Tag::Td),
        With(Attr::Class, "lead"),
        WithNumber(Attr::Colspan, 2),
        End,
        Start(Tag::Div),
        Text("Tasks waiting at a time"),
        Close(Tag::Div),
        Start(Tag::Small),
        Text("at most "),
        Mean(height.most),
        Text(", the mean of a step"),
    ])?;
    put_top(paper, height)?;
    paper.put(&[Close(Tag::Small), Close(Tag::Td), Start(Tag::Td)])?;
    Ok(())
}

pub(crate) fn put_sum_row(
    paper: &mut Paper,
    scale: Scale,
    height: Height,
    blamed: &[Blamed],
    splits: &[Split],
) -> Result<(), AllocError>
    ensures { OnOk result (Writes paper.old paper.new (spec.sum_row scale height blamed.now splits.now)) }
{
    put_height(paper, height)?;
    put_whom_legend(paper, blamed)?;
    put_picture(paper, scale, height, blamed, splits)?;
    put_axis(paper, scale.watched())?;
    paper.put(&[
        Close(Tag::Td),
        Open(Tag::Td),
        WithNumber(Attr::Colspan, 7),
        End,
    ])?;
    put_marks(paper, height)?;
    paper.put(&[Close(Tag::Td), Close(Tag::Tr)])?;
    Ok(())
}
