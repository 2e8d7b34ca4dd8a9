//! All that is told of one task.
ghost use Rattle.std.specs.Prelude.{◌≡◌, ◌++◌, ◌∷◌, [], codes, decimal, IfOk, OnOk, string_bytes};
ghost use Rattle.tk_ids.specs.Ids.{id_text};
ghost use Rattle.tk_screen.specs.Texts.{Puts, duration_text, share_text};
ghost use Rattle.tk_frame.specs.Details as spec;
ghost use Rattle.tk_frame.specs.Lines as texts;
ghost use Rattle.tk_frame.specs.PlaceLines.{known_text};

use crate::cells::{put_ago, put_location, put_word};
use crate::histograms::push_times;
use crate::odd::Odd;
use crate::odd_lines::push_owns;
use crate::place_lines::put_known;
use crate::polled::push_ops;
use std::alloc::{AllocError, Global};
use std::fmt::Write;
use tk_client::Times;
use tk_core::TaskRow;
use tk_ids::{Location, TaskId};
use tk_report::{kind_word, task_state};
use tk_screen::{Line, Style, put_duration, put_share};
use tk_stream::{Tables, Task};

// How wide what a line tells is.
const WIDTH: usize = 12;

/// The text of a line, up to its value.
pub(crate) fn label_text(alloc: Global, label: &str) -> Result<String, AllocError>
    ensures { IfOk result (λ text. string_bytes text ≡ texts.word 12 label.now) }
{
    let mut text = String::new(alloc);
    put_word(&mut text, label, WIDTH)?;
    Ok(text)
}

fn push_text(
    lines: &mut Vec<Line>,
    alloc: Global,
    label: &str,
    value: &str,
) -> Result<(), AllocError>
    ensures { OnOk result (Puts lines.old.items lines.new.items (texts.field label.now value.now ∷ [])) }
{
    let mut text = label_text(alloc, label)?;
    text.push_str(value)?;
    lines.push(Line::new(Style::Plain, text))?;
    Ok(())
}

fn push_number(
    lines: &mut Vec<Line>,
    alloc: Global,
    label: &str,
    value: u64,
) -> Result<(), AllocError>
    ensures { OnOk result (Puts lines.old.items lines.new.items (texts.field label.now (decimal value) ∷ [])) }
{
    let mut text = label_text(alloc, label)?;
    write!(text, "{value}")?;
    lines.push(Line::new(Style::Plain, text))?;
    Ok(())
}

/// Pushes a line with a time.
pub(crate) fn push_time(
    lines: &mut Vec<Line>,
    alloc: Global,
    label: &str,
    nanos: u64,
) -> Result<(), AllocError>
    ensures { OnOk result (Puts lines.old.items lines.new.items (texts.field label.now (duration_text nanos) ∷ [])) }
{
    let mut text = label_text(alloc, label)?;
    put_duration(&mut text, nanos)?;
    lines.push(Line::new(Style::Plain, text))?;
    Ok(())
}

fn push_known(
    lines: &mut Vec<Line>,
    alloc: Global,
    label: &str,
    nanos: u64,
) -> Result<(), AllocError>
    ensures { OnOk result (Puts lines.old.items lines.new.items (texts.field label.now (known_text nanos) ∷ [])) }
{
    let mut text = label_text(alloc, label)?;
    put_known(&mut text, nanos)?;
    lines.push(Line::new(Style::Plain, text))?;
    Ok(())
}

fn push_share(
    lines: &mut Vec<Line>,
    alloc: Global,
    label: &str,
    part: u64,
    whole: u64,
) -> Result<(), AllocError>
    ensures { OnOk result (Puts lines.old.items lines.new.items (texts.field label.now (share_text part whole) ∷ [])) }
{
    let mut text = label_text(alloc, label)?;
    put_share(&mut text, part, whole)?;
    lines.push(Line::new(Style::Plain, text))?;
    Ok(())
}

fn push_location(
    lines: &mut Vec<Line>,
    alloc: Global,
    label: &str,
    location: &Location,
) -> Result<(), AllocError>
    ensures { OnOk result (Puts lines.old.items lines.new.items (texts.field label.now (texts.location_text location.now) ∷ [])) }
{
    let mut text = label_text(alloc, label)?;
    put_location(&mut text, location)?;
    lines.push(Line::new(Style::Plain, text))?;
    Ok(())
}

fn push_ago(
    lines: &mut Vec<Line>,
    alloc: Global,
    label: &str,
    now: u64,
    moment: Option<u64>,
) -> Result<(), AllocError>
    ensures { OnOk result (Puts lines.old.items lines.new.items (texts.field label.now (texts.ago_text now moment) ∷ [])) }
{
    let mut text = label_text(alloc, label)?;
    put_ago(&mut text, now, moment)?;
    lines.push(Line::new(Style::Plain, text))?;
    Ok(())
}

fn push_title(lines: &mut Vec<Line>, alloc: Global, id: TaskId) -> Result<(), AllocError>
    ensures { OnOk result (Puts lines.old.items lines.new.items (texts.heading (codes "TASK " ++ id_text id) ∷ [])) }
{
    let text = format!(in alloc; "TASK {id}")?;
    lines.push(Line::new(Style::Heading, text))?;
    Ok(())
}

fn push_info(lines: &mut Vec<Line>, alloc: Global, task: &Task) -> Result<(), AllocError>
    ensures { OnOk result (Puts lines.old.items lines.new.items (spec.info_part task.now)) }
{
    let Task { info, row } = task;
    push_title(lines, alloc, info.id)?;
    push_text(lines, alloc, "name", info.name.as_str())?;
    push_text(lines, alloc, "kind", kind_word(info.kind))?;
    push_location(lines, alloc, "location", &info.location)?;
    push_text(lines, alloc, "state", task_state(row))?;
    Ok(())
}

fn push_polls(
    lines: &mut Vec<Line>,
    alloc: Global,
    now: u64,
    row: &TaskRow,
) -> Result<(), AllocError>
    ensures { OnOk result (Puts lines.old.items lines.new.items (spec.polls_part now row.now)) }
{
    let busy = row.busy_until(now);
    push_number(lines, alloc, "polls", row.polls)?;
    push_time(lines, alloc, "busy", busy)?;
    push_ago(lines, alloc, "first poll", now, row.first_poll)?;
    push_ago(lines, alloc, "last poll", now, row.last_started)?;
    push_ago(lines, alloc, "last end", now, row.last_ended)?;
    Ok(())
}

fn push_wakes(
    lines: &mut Vec<Line>,
    alloc: Global,
    now: u64,
    row: &TaskRow,
) -> Result<(), AllocError>
    ensures { OnOk result (Puts lines.old.items lines.new.items (spec.wakes_part now row.now)) }
{
    let sched = row.sched_until(now);
    push_number(lines, alloc, "wakes", row.wakes)?;
    push_number(lines, alloc, "self-wakes", row.self_wakes)?;
    push_share(lines, alloc, "self share", row.self_wakes, row.wakes)?;
    push_ago(lines, alloc, "last wake", now, row.last_wake)?;
    push_time(lines, alloc, "sched", sched)?;
    push_known(lines, alloc, "waiting", row.waits_for(now))?;
    Ok(())
}

fn push_life(
    lines: &mut Vec<Line>,
    alloc: Global,
    now: u64,
    row: &TaskRow,
) -> Result<(), AllocError>
    ensures { OnOk result (Puts lines.old.items lines.new.items (spec.life_part now row.now)) }
{
    push_number(lines, alloc, "clones", row.clones)?;
    push_number(lines, alloc, "drops", row.drops)?;
    push_number(lines, alloc, "handles", row.handles)?;
    push_ago(lines, alloc, "created", now, Some(row.created))?;
    push_ago(lines, alloc, "closed", now, row.dropped)?;
    Ok(())
}

fn push_row(lines: &mut Vec<Line>, alloc: Global, now: u64, row: &TaskRow) -> Result<(), AllocError>
    ensures { OnOk result (Puts lines.old.items lines.new.items (spec.row_part now row.now)) }
{
    push_polls(lines, alloc, now, row)?;
    push_wakes(lines, alloc, now, row)?;
    push_life(lines, alloc, now, row)?;
    Ok(())
}

// ---- all

fn push_task(
    lines: &mut Vec<Line>,
    alloc: Global,
    tables: &Tables,
    times: &Times,
    odd: &Odd,
    task: &Task,
) -> Result<(), AllocError>
    ensures { OnOk result (Puts lines.old.items lines.new.items (spec.details_of tables.now times.now odd.now task.now)) }
{
    push_info(lines, alloc, task)?;
    push_ops(lines, alloc, tables, task.info.id)?;
    push_owns(lines, alloc, tables, odd, task)?;
    push_times(lines, alloc, times, task.info.id)?;
    push_row(lines, alloc, tables.now(), &task.row)?;
    Ok(())
}

/// Pushes a line of a text.
pub(crate) fn push_plain(lines: &mut Vec<Line>, alloc: Global, text: &str) -> Result<(), AllocError>
    ensures { OnOk result (Puts lines.old.items lines.new.items (texts.plain text.now ∷ [])) }
{
    let text = String::from_str(alloc, text)?;
    lines.push(Line::new(Style::Plain, text))?;
    Ok(())
}

fn push_gone(lines: &mut Vec<Line>, alloc: Global, id: TaskId) -> Result<(), AllocError>
    ensures { OnOk result (Puts lines.old.items lines.new.items (spec.gone_part id)) }
{
    push_title(lines, alloc, id)?;
    push_plain(lines, alloc, "it has left the stream")?;
    Ok(())
}

/// Pushes all that is told of the task of an id: what was told of it once, the operations that it polls with their resources, the findings about its place,
/// each with what to do and who waited, its histograms if the stream has some of it, and all its statistics. Or that it isn't there any more.
pub(crate) fn push_details(
    lines: &mut Vec<Line>,
    alloc: Global,
    tables: &Tables,
    times: &Times,
    odd: &Odd,
    id: TaskId,
) -> Result<(), AllocError>
    ensures { OnOk result (Puts lines.old.items lines.new.items (spec.details_at id tables.now times.now odd.now)) }
{
    match tables.task(id) {
        Some(task) => push_task(lines, alloc, tables, times, odd, task),
        None => push_gone(lines, alloc, id),
    }
}
