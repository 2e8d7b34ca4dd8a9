//! Two numbers, before and after, and their ratio.
ghost use Rattle.std.specs.Prelude.{◌==◌, [], OnOk};
ghost use Rattle.tk_paper.specs.Pieces.{Writes};
ghost use Rattle.tk_page.specs.Changed as spec;

use crate::figures::mean;
use std::alloc::AllocError;
use tk_paper::Part::{Close, End, Mean, Open, Span, Text, With, WithNumber};
use tk_paper::{Attr, Paper, Tag};

// Puts what a number is to what it was. Of a number that is 0 nothing is said.
fn put_ratio(paper: &mut Paper, before: u64, after: u64) -> Result<(), AllocError>
    ensures { OnOk result (Writes paper.old paper.new (spec.ratio before after)) }
{
    if before == 0 || after == 0 {
        paper.put(&[])
    } else if before <= after {
        paper.put(&[Text(" ×"), Mean(mean(after, before))])
    } else {
        paper.put(&[Text(" ÷"), Mean(mean(before, after))])
    }
}

/// Puts a cell with a time before and after, and their ratio.
pub(crate) fn put_times(paper: &mut Paper, before: u64, after: u64) -> Result<(), AllocError>
    ensures { OnOk result (Writes paper.old paper.new (spec.times_cell before after)) }
{
    paper.put(&[
        Open(Tag::Td),
        WithNumber(Attr::DataV, after),
        With(Attr::Class, "num"),
        End,
        Span(before),
        Text(" → "),
        Span(after),
    ])?;
    put_ratio(paper, before, after)?;
    paper.put(&[Close(Tag::Td)])?;
    Ok(())
}

/// The same of numbers of hundredths.
pub(crate) fn put_rates(paper: &mut Paper, before: u64, after: u64) -> Result<(), AllocError>
    ensures { OnOk result (Writes paper.old paper.new (spec.rates_cell before after)) }
{
    let old = before.saturating_mul(10);
    let new = after.saturating_mul(10);
    paper.put(&[
        Open(Tag::Td),
        WithNumber(Attr::DataV, after),
        With(Attr::Class, "num"),
        End,
        Mean(old),
        Text(" → "),
        Mean(new),
    ])?;
    put_ratio(paper, before, after)?;
    paper.put(&[Close(Tag::Td)])?;
    Ok(())
}
