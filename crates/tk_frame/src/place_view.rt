//! All that is told of one place.
ghost use Rattle.std.specs.Prelude.{◌≡◌, ◌∷◌, [], false, flat_map, slice_get, IfOk, OnOk};
ghost use Rattle.std.specs.Option.{option_map_or};
ghost use Rattle.tk_screen.specs.Texts.{Puts};
ghost use Rattle.tk_frame.specs.PlaceLines.{place_heading as heading_text, place_line as line_of};
ghost use Rattle.tk_frame.specs.Lines as texts;
ghost use Rattle.tk_frame.specs.PlaceView as spec;

use crate::lines::push_heading;
use crate::odd::Odd;
use crate::odd_lines::push_own_each;
use crate::place_lines::{place_heading, place_line};
use crate::places::Figures;
use crate::tasks::{task_heading, task_line};
use std::alloc::{AllocError, Global};
use tk_odd::place_of;
use tk_screen::Line;
use tk_stream::{Tables, Task};

// ---- its open tasks

fn is_open_at(alloc: Global, site: &[u8], task: &Task) -> Result<bool, AllocError>
    ensures { IfOk result (λ is. is ≡ spec.is_open_at site.now task.now) }
{
    if task.row.dropped.is_some() {
        return Ok(false);
    }
    let own = place_of(alloc, &task.info)?;
    Ok(own.as_slice() == site)
}

fn push_line(lines: &mut Vec<Line>, alloc: Global, now: u64, task: &Task) -> Result<(), AllocError>
    ensures { OnOk result (Puts lines.old.items lines.new.items (texts.plain (texts.task_text now task.now) ∷ [])) }
{
    lines.push(task_line(alloc, task, now)?)?;
    Ok(())
}

fn push_if(
    lines: &mut Vec<Line>,
    alloc: Global,
    now: u64,
    site: &[u8],
    task: &Task,
) -> Result<(), AllocError>
    ensures { OnOk result (Puts lines.old.items lines.new.items (spec.task_if now site.now task.now)) }
{
    let is = is_open_at(alloc, site, task)?;
    if is {
        push_line(lines, alloc, now, task)
    } else {
        Ok(())
    }
}

fn push_if_at(
    lines: &mut Vec<Line>,
    alloc: Global,
    tables: &Tables,
    site: &[u8],
    at: usize,
) -> Result<(), AllocError>
    ensures { OnOk result (Puts lines.old.items lines.new.items
        (option_map_or (spec.task_if tables.now.now site.now) (slice_get tables.now.tasks at) [])) }
{
    match tables.task_at(at) {
        Some(task) => push_if(lines, alloc, tables.now(), site, task),
        None => Ok(()),
    }
}

fn push_tasks(
    lines: &mut Vec<Line>,
    alloc: Global,
    tables: &Tables,
    site: &[u8],
) -> Result<(), AllocError>
    ensures { OnOk result (Puts lines.old.items lines.new.items (flat_map (spec.task_if tables.now.now site.now) tables.now.tasks)) }
{
    for at in 0..tables.task_count() {
        push_if_at(lines, alloc, tables, site, at)?;
    }
    Ok(())
}

fn push_tasks_at(
    lines: &mut Vec<Line>,
    alloc: Global,
    tables: &Tables,
    site: &[u8],
) -> Result<(), AllocError>
    ensures { OnOk result (Puts lines.old.items lines.new.items (spec.tasks_at tables.now site.now)) }
{
    push_heading(lines, alloc, task_heading())?;
    push_tasks(lines, alloc, tables, site)?;
    Ok(())
}

// ---- the place

// What its tasks came to.
fn push_row(
    lines: &mut Vec<Line>,
    alloc: Global,
    site: &[u8],
    figures: &Figures,
) -> Result<(), AllocError>
    ensures { OnOk result (Puts lines.old.items lines.new.items (texts.heading heading_text ∷ line_of false (site.now, figures.now) ∷ [])) }
{
    push_heading(lines, alloc, place_heading())?;
    lines.push(place_line(alloc, false, site, figures)?)?;
    Ok(())
}

fn push_part(
    lines: &mut Vec<Line>,
    alloc: Global,
    tables: &Tables,
    odd: &Odd,
    site: &[u8],
    figures: &Figures,
) -> Result<(), AllocError>
    ensures { OnOk result (Puts lines.old.items lines.new.items (spec.place_part tables.now odd.now (site.now, figures.now))) }
{
    push_row(lines, alloc, site, figures)?;
    push_own_each(lines, alloc, tables, site, odd.findings())?;
    push_tasks_at(lines, alloc, tables, site)?;
    Ok(())
}

fn push_part_if(
    lines: &mut Vec<Line>,
    alloc: Global,
    tables: &Tables,
    odd: &Odd,
    number: usize,
    i: usize,
) -> Result<(), AllocError>
    ensures { OnOk result (Puts lines.old.items lines.new.items
        (option_map_or (spec.part_if number tables.now odd.now) (slice_get odd.now.places i) [])) }
{
    let Some((site, figures)) = odd.place_at(false, i) else {
        return Ok(());
    };
    if figures.number == number {
        push_part(lines, alloc, tables, odd, site, &figures)
    } else {
        Ok(())
    }
}

/// Pushes all that is told of the place of a number: what its tasks came to, the findings about it, each with what to do, and its open tasks.
pub(crate) fn push_place_view(
    lines: &mut Vec<Line>,
    alloc: Global,
    tables: &Tables,
    odd: &Odd,
    number: usize,
) -> Result<(), AllocError>
    ensures { OnOk result (Puts lines.old.items lines.new.items (spec.place_view number tables.now odd.now)) }
{
    for i in 0..odd.place_count(false) {
        push_part_if(lines, alloc, tables, odd, number, i)?;
    }
    Ok(())
}
