//! What holds now, above all else.
ghost use Rattle.std.specs.Prelude.{OnOk, flat_map};
ghost use Rattle.std.specs.Option.{option_map};
ghost use Rattle.tk_page.specs.Banner as spec;
ghost use Rattle.tk_paper.specs.Pieces.{Writes};

use crate::cards::{put_made, put_who, task_of};
use crate::oddities::Signs;
use std::alloc::AllocError;
use tk_odd::{Finding, Found, OddKind, Waiting};
use tk_paper::Part::{Class, Close, Count, Span, Text};
use tk_paper::{Paper, Tag};
use tk_stream::{Tables, Task};

// Puts what is said of who a finding is about.
fn put_said(paper: &mut Paper, is_now: bool, kind: OddKind) -> Result<(), AllocError>
    ensures { OnOk result (Writes paper.old paper.new (spec.doing_so is_now kind)) }
{
    paper.put(&[Text(" "), Text(kind.said(is_now))])
}

// Puts for how long a task has held its thread, where it does; else what is said of it.
fn put_doing_of(
    paper: &mut Paper,
    now: u64,
    is_now: bool,
    kind: OddKind,
    task: &Task,
) -> Result<(), AllocError>
    ensures { OnOk result (Writes paper.old paper.new (spec.doing_of now is_now kind task.now)) }
{
    let row = &task.row;
    if !row.polling {
        return put_said(paper, is_now, kind);
    }
    let time = row.runs_for(now);
    paper.put(&[Text(" has held its thread for "), Span(time)])
}

// The same where the task that a finding names may have left, or there is none.
fn put_doing(
    paper: &mut Paper,
    now: u64,
    is_now: bool,
    kind: OddKind,
    task: Option<&Task>,
) -> Result<(), AllocError>
    ensures { OnOk result (Writes paper.old paper.new (spec.doing now is_now kind (option_map (λ t. t.now) task.entry))) }
{
    match task {
        Some(task) => put_doing_of(paper, now, is_now, kind, task),
        None => put_said(paper, is_now, kind),
    }
}

// Puts how many tasks wait, where any do.
fn put_waiting(paper: &mut Paper, waiting: Waiting) -> Result<(), AllocError>
    ensures { OnOk result (Writes paper.old paper.new (spec.waiting waiting)) }
{
    let Waiting { count, longest } = waiting;
    if count == 0 {
        return paper.put(&[]);
    }
    paper.put(&[
        Text("; "),
        Count(count),
        Text(if count == 1 {
            " task waits"
        } else {
            " tasks wait"
        }),
        Text(", the longest for "),
        Span(longest),
    ])
}

fn start_banner(paper: &mut Paper) -> Result<(), AllocError>
    ensures { OnOk result (Writes paper.old paper.new spec.start_banner) }
{
    paper.put(&[
        Class(Tag::P, "now"),
        Class(Tag::Span, "tag"),
        Text("now"),
        Close(Tag::Span),
        Text(" "),
    ])
}

fn end_banner(paper: &mut Paper, kind: OddKind) -> Result<(), AllocError>
    ensures { OnOk result (Writes paper.old paper.new (spec.end_banner kind)) }
{
    paper.put(&[
        Text(" What to do: "),
        Text(kind.advice()),
        Text("."),
        Close(Tag::P),
    ])
}

// Puts the banner of a finding.
fn put_alarm(
    paper: &mut Paper,
    waiting: Waiting,
    tables: &Tables,
    place: &[u8],
    finding: &Finding,
) -> Result<(), AllocError>
    ensures { OnOk result (Writes paper.old paper.new (spec.alarm tables.now.now waiting tables.now.tasks place.now finding.now)) }
{
    let task = task_of(tables, finding);
    start_banner(paper)?;
    put_who(paper, task, finding.task)?;
    put_doing(paper, tables.now(), finding.is_now, finding.kind, task)?;
    put_waiting(paper, waiting)?;
    paper.put(&[Text(".")])?;
    put_made(paper, place, task)?;
    end_banner(paper, finding.kind)?;
    Ok(())
}

// Puts it where it is urgent.
fn put_alarm_if(
    paper: &mut Paper,
    waiting: Waiting,
    tables: &Tables,
    found: &Found,
) -> Result<(), AllocError>
    ensures { OnOk result (Writes paper.old paper.new (spec.alarm_if tables.now.now waiting tables.now.tasks found.now)) }
{
    let finding = &found.finding;
    if finding.is_urgent() {
        put_alarm(paper, waiting, tables, found.place.as_slice(), finding)
    } else {
        paper.put(&[])
    }
}

fn put_alarms(
    paper: &mut Paper,
    waiting: Waiting,
    tables: &Tables,
    findings: &[Found],
) -> Result<(), AllocError>
    ensures { OnOk result (Writes paper.old paper.new (flat_map (spec.alarm_if tables.now.now waiting tables.now.tasks) findings.now)) }
{
    for found in findings {
        put_alarm_if(paper, waiting, tables, found)?;
    }
    Ok(())
}

fn put_no_line(paper: &mut Paper) -> Result<(), AllocError>
    ensures { OnOk result (Writes paper.old paper.new spec.no_line) }
{
    paper.put(&[
        Class(Tag::P, "now"),
        Text("No line came: this page knows nothing of any task."),
        Close(Tag::P),
    ])
}

/// Puts what holds now, and that no line came where it is so.
pub(crate) fn put_banner(
    paper: &mut Paper,
    signs: &Signs,
    lines: u64,
    tables: &Tables,
) -> Result<(), AllocError>
    ensures { OnOk result (Writes paper.old paper.new (spec.banner signs.now lines tables.now)) }
{
    if lines == 0 {
        return put_no_line(paper);
    }
    let waiting = Waiting::of(tables);
    put_alarms(paper, waiting, tables, signs.carded())
}
