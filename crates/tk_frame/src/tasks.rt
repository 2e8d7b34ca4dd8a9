//! The first line of a screen, and the lines of tasks.
ghost use Rattle.std.specs.Prelude.{◌≡◌, ◌++◌, codes, decimal, IfOk, OnOk, string_bytes};
ghost use Rattle.tk_screen.specs.Texts.{Puts};
ghost use Rattle.tk_frame.specs.Lines as spec;
ghost use Rattle.tk_frame.specs.Pages.{page_text};

use crate::cells::{put_end, put_gone, put_part, put_text, put_time, put_value, put_word};
use crate::pages::{Page, put_page};
use crate::ranks::States;
use std::alloc::{AllocError, Global};
use std::fmt::Write;
use tk_core::TaskRow;
use tk_ids::Dropped;
use tk_report::{kind_word, task_state};
use tk_screen::{Line, Style, put_duration};
use tk_stream::{Tables, Task};

fn put_states(out: &mut String, tasks: usize, states: States) -> Result<(), AllocError>
    ensures { OnOk result (Puts (string_bytes out.old) (string_bytes out.new) (spec.states_text tasks states)) }
{
    let States {
        polling,
        scheduled,
        idle,
        closed,
    } = states;
    write!(
        out,
        "  tasks {tasks}: {polling} polling, {scheduled} scheduled, {idle} idle, {closed} closed"
    )
}

fn put_lost(out: &mut String, dropped: Dropped) -> Result<(), AllocError>
    ensures { OnOk result (Puts (string_bytes out.old) (string_bytes out.new) (spec.lost_text dropped)) }
{
    let Dropped {
        tasks,
        resources,
        ops,
    } = dropped;
    if tasks == 0 && resources == 0 && ops == 0 {
        return Ok(());
    }
    write!(
        out,
        "  lost events of {tasks} tasks, {resources} resources, {ops} operations"
    )
}

fn put_count(out: &mut String, findings: usize) -> Result<(), AllocError>
    ensures { OnOk result (Puts (string_bytes out.old) (string_bytes out.new) (codes "  findings " ++ decimal findings)) }
{
    write!(out, "  findings {findings}")
}

// Puts how long ago the service was started again, if it was.
fn put_again(out: &mut String, now: u64, again: Option<u64>) -> Result<(), AllocError>
    ensures { OnOk result (Puts (string_bytes out.old) (string_bytes out.new) (spec.again_text now again)) }
{
    let Some(moment) = again else {
        return Ok(());
    };
    put_text(out, ", started again ")?;
    put_gone(out, now.saturating_sub(moment))?;
    Ok(())
}

fn put_head(
    out: &mut String,
    tables: &Tables,
    again: Option<u64>,
    states: States,
    findings: usize,
) -> Result<(), AllocError>
    ensures { OnOk result (Puts (string_bytes out.old) (string_bytes out.new) (spec.head_text tables.now again states findings)) }
{
    let now = tables.now();
    put_text(out, "now ")?;
    put_duration(out, now)?;
    put_again(out, now, again)?;
    put_states(out, tables.task_count(), states)?;
    put_count(out, findings)?;
    put_lost(out, tables.dropped())?;
    Ok(())
}

/// The first line of a screen: the moment, how long ago the service was started again, the tasks by their states, how many findings there are, and what was lost.
pub(crate) fn head_line(
    alloc: Global,
    tables: &Tables,
    again: Option<u64>,
    states: States,
    findings: usize,
) -> Result<Line, AllocError>
    ensures { IfOk result (λ line. line ≡ spec.plain (spec.head_text tables.now again states findings)) }
{
    let mut text = String::new(alloc);
    put_head(&mut text, tables, again, states, findings)?;
    Ok(Line::new(Style::Plain, text))
}

/// The line that says how many tasks stand on a page, and of how many.
pub(crate) fn page_line(alloc: Global, page: Page) -> Result<Line, AllocError>
    ensures { IfOk result (λ line. line ≡ spec.plain (page_text page)) }
{
    let mut text = String::new(alloc);
    put_page(&mut text, page)?;
    Ok(Line::new(Style::Plain, text))
}

/// A heading.
pub(crate) fn heading(alloc: Global, text: &str) -> Result<Line, AllocError>
    ensures { IfOk result (λ line. line ≡ spec.heading text.now) }
{
    let text = String::from_str(alloc, text)?;
    Ok(Line::new(Style::Heading, text))
}

/// The columns of tasks.
pub(crate) fn task_heading() -> &'static str
    ensures { result.now ≡ spec.task_heading }
{
    "  TASK STATE         BUSY    SCHED  POLLS  WAKES SELF LOCATION        NAME                 KIND"
}

// How long a task has run and waited.
fn put_times(out: &mut String, room: &mut String, row: &TaskRow, now: u64) -> Result<(), AllocError>
    ensures { OnOk result (Puts (string_bytes out.old) (string_bytes out.new) (spec.times_text now row.now)) }
{
    let busy = row.busy_until(now);
    put_time(out, room, busy, 8)?;
    put_time(out, room, row.sched_until(now), 8)?;
    Ok(())
}

fn put_task(out: &mut String, room: &mut String, task: &Task, now: u64) -> Result<(), AllocError>
    ensures { OnOk result (Puts (string_bytes out.old) (string_bytes out.new) (spec.task_text now task.now)) }
{
    let Task { info, row } = task;
    put_value(out, room, &info.id, 6)?;
    put_word(out, task_state(row), 9)?;
    put_times(out, room, row, now)?;
    put_value(out, room, &row.polls, 6)?;
    put_value(out, room, &row.wakes, 6)?;
    put_part(out, room, row.self_wakes, row.wakes, 4)?;
    put_end(out, room, &info.location, 15)?;
    put_word(out, info.name.as_str(), 20)?;
    put_text(out, kind_word(info.kind))?;
    Ok(())
}

/// The line of a task.
pub(crate) fn task_line(alloc: Global, task: &Task, now: u64) -> Result<Line, AllocError>
    ensures { IfOk result (λ line. line ≡ spec.plain (spec.task_text now task.now)) }
{
    let mut text = String::new(alloc);
    let mut room = String::new(alloc);
    put_task(&mut text, &mut room, task, now)?;
    Ok(Line::new(Style::Plain, text))
}

/// The line of a task that is chosen.
pub(crate) fn chosen_line(alloc: Global, task: &Task, now: u64) -> Result<Line, AllocError>
    ensures { IfOk result (λ line. line ≡ spec.heading (codes ">" ++ spec.task_text now task.now)) }
{
    let mut text = String::new(alloc);
    let mut room = String::new(alloc);
    put_text(&mut text, ">")?;
    put_task(&mut text, &mut room, task, now)?;
    Ok(Line::new(Style::Heading, text))
}
