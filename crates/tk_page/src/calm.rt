//! That nothing is odd, and why it can't be seen.
ghost use Rattle.std.specs.Prelude.{◌-◌, ◌==◌, [], OnOk};
ghost use Rattle.tk_page.specs.Cards as spec;
ghost use Rattle.tk_paper.specs.Pieces.{Writes};

use crate::figures::each;
use crate::sample::Sample;
use std::alloc::AllocError;
use tk_paper::Part::{Class, Close, Span, Text};
use tk_paper::{Paper, Tag};

// Puts how long tasks waited for a poll in the mean.
fn put_mean_wait(paper: &mut Paper, all: Sample) -> Result<(), AllocError>
    ensures { OnOk result (Writes paper.old paper.new (spec.mean_wait all)) }
{
    if all.polls == 0 {
        return paper.put(&[Text(" No task was polled.")]);
    }
    paper.put(&[
        Text(" In the mean tasks waited "),
        Span(each(all.sched, all.polls)),
        Text(" for a poll."),
    ])
}

// Puts that they may have waited longer, where each wait is counted from its last wake alone.
fn put_unsure(paper: &mut Paper, late: bool) -> Result<(), AllocError>
    ensures { OnOk result (Writes paper.old paper.new (spec.unsure late)) }
{
    if late {
        paper.put(&[Text(
            " They may have waited longer, since this stream counts each wait from its last wake.",
        )])
    } else {
        paper.put(&[])
    }
}

fn put_calm(paper: &mut Paper, long: u64, all: Sample, late: bool) -> Result<(), AllocError>
    ensures { OnOk result (Writes paper.old paper.new (spec.calm long all late)) }
{
    paper.put(&[
        Class(Tag::P, "fine"),
        Text("Nothing: no poll is known to have taken "),
        Span(long),
        Text("."),
    ])?;
    put_mean_wait(paper, all)?;
    put_unsure(paper, late)?;
    paper.put(&[Close(Tag::P)])?;
    Ok(())
}

// Puts that the lines span too little time to see who held up others.
fn put_unseen(paper: &mut Paper, time: u64, long: u64) -> Result<(), AllocError>
    ensures { OnOk result (Writes paper.old paper.new (spec.unseen time long)) }
{
    paper.put(&[
        Class(Tag::P, "note"),
        Text(
            "Nothing is odd about a task in itself. Who held up others can't be seen: the lines span ",
        ),
        Span(time),
        Text(", and it takes at least "),
        Span(long),
        Text("."),
        Close(Tag::P),
    ])
}

fn put_calm_or_unseen(
    paper: &mut Paper,
    time: u64,
    long: u64,
    all: Sample,
    late: bool,
) -> Result<(), AllocError>
    ensures { OnOk result (Writes paper.old paper.new (spec.calm_or_unseen time long all late)) }
{
    if time < long {
        put_unseen(paper, time, long)
    } else {
        put_calm(paper, long, all, late)
    }
}

pub(crate) fn put_nothing_odd(
    paper: &mut Paper,
    time: u64,
    long: u64,
    all: Sample,
    late: bool,
) -> Result<(), AllocError>
    ensures { OnOk result (Writes paper.old paper.new (spec.nothing_odd time long all late)) }
{
    paper.put(&[Close(Tag::H2)])?;
    put_calm_or_unseen(paper, time, long, all, late)?;
    paper.put(&[Close(Tag::Section)])?;
    Ok(())
}
