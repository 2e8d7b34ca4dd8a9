//! The lines of a screen.
ghost use Rattle.std.specs.Prelude.{◌≡◌, ◌<◌, IfOk, OnOk, drop, flat_map, ◌∷◌, []};
ghost use Rattle.tk_screen.specs.Texts.{Puts};
ghost use Rattle.tk_frame.specs.Frames as spec;
ghost use Rattle.tk_frame.specs.Lines as texts;
ghost use Rattle.tk_frame.specs.Pages.{page_text};

use crate::course::push_course;
use crate::items::{op_heading, op_line, resource_heading, resource_line};
use crate::odd::Odd;
use crate::odd_lines::push_findings;
use crate::pages::{Page, page_of, table_rows};
use crate::place_lines::push_places;
use crate::place_ranks::rows_count;
use crate::query::Query;
use crate::ranks::{States, states_in, top_ops, top_resources, walk};
use crate::tasks::{head_line, heading, page_line, task_heading, task_line};
use std::alloc::{AllocError, Global};
use tk_screen::{Canvas, Line, Ranked};
use tk_stream::Tables;

pub(crate) fn push_heading(
    lines: &mut Vec<Line>,
    alloc: Global,
    text: &str,
) -> Result<(), AllocError>
    ensures { OnOk result (Puts lines.old.items lines.new.items (texts.heading text.now ∷ [])) }
{
    lines.push(heading(alloc, text)?)?;
    Ok(())
}

pub(crate) fn push_head(
    lines: &mut Vec<Line>,
    alloc: Global,
    tables: &Tables,
    again: Option<u64>,
    states: States,
    findings: usize,
) -> Result<(), AllocError>
    ensures { OnOk result (Puts lines.old.items lines.new.items (texts.plain (texts.head_text tables.now again states findings) ∷ [])) }
{
    lines.push(head_line(alloc, tables, again, states, findings)?)?;
    Ok(())
}

fn push_task(
    lines: &mut Vec<Line>,
    alloc: Global,
    tables: &Tables,
    ranked: &Ranked,
) -> Result<(), AllocError>
    ensures { OnOk result (Puts lines.old.items lines.new.items (spec.task_at tables.now ranked.now)) }
{
    if let Some(task) = tables.task_at(ranked.place) {
        lines.push(task_line(alloc, task, tables.now())?)?;
    }
    Ok(())
}

pub(crate) fn push_tasks(
    lines: &mut Vec<Line>,
    alloc: Global,
    tables: &Tables,
    top: &[Ranked],
) -> Result<(), AllocError>
    ensures { OnOk result (Puts lines.old.items lines.new.items (flat_map (spec.task_at tables.now) top.now)) }
{
    for ranked in top {
        push_task(lines, alloc, tables, ranked)?;
    }
    Ok(())
}

fn push_resource(
    lines: &mut Vec<Line>,
    alloc: Global,
    tables: &Tables,
    ranked: &Ranked,
) -> Result<(), AllocError>
    ensures { OnOk result (Puts lines.old.items lines.new.items (spec.resource_at tables.now ranked.now)) }
{
    if let Some(resource) = tables.resource_at(ranked.place) {
        let polls = tables.poll_counts(resource.info.id);
        lines.push(resource_line(alloc, resource, polls)?)?;
    }
    Ok(())
}

fn push_resources(
    lines: &mut Vec<Line>,
    alloc: Global,
    tables: &Tables,
    top: &[Ranked],
) -> Result<(), AllocError>
    ensures { OnOk result (Puts lines.old.items lines.new.items (flat_map (spec.resource_at tables.now) top.now)) }
{
    for ranked in top {
        push_resource(lines, alloc, tables, ranked)?;
    }
    Ok(())
}

fn push_op(
    lines: &mut Vec<Line>,
    alloc: Global,
    tables: &Tables,
    ranked: &Ranked,
) -> Result<(), AllocError>
    ensures { OnOk result (Puts lines.old.items lines.new.items (spec.op_at tables.now ranked.now)) }
{
    if let Some(op) = tables.op_at(ranked.place) {
        lines.push(op_line(alloc, op, tables.now())?)?;
    }
    Ok(())
}

fn push_ops(
    lines: &mut Vec<Line>,
    alloc: Global,
    tables: &Tables,
    top: &[Ranked],
) -> Result<(), AllocError>
    ensures { OnOk result (Puts lines.old.items lines.new.items (flat_map (spec.op_at tables.now) top.now)) }
{
    for ranked in top {
        push_op(lines, alloc, tables, ranked)?;
    }
    Ok(())
}

// Resources and async operations, where they were asked for.
pub(crate) fn push_items(
    lines: &mut Vec<Line>,
    alloc: Global,
    tables: &Tables,
    query: &Query<'_>,
    rows: usize,
) -> Result<(), AllocError>
    ensures { OnOk result (Puts lines.old.items lines.new.items (spec.items_part rows query.now tables.now)) }
{
    if !query.resources {
        return Ok(());
    }
    let resources = top_resources(alloc, tables, rows)?;
    push_heading(lines, alloc, resource_heading())?;
    push_resources(lines, alloc, tables, resources.items())?;
    let ops = top_ops(alloc, tables, rows)?;
    push_heading(lines, alloc, op_heading())?;
    push_ops(lines, alloc, tables, ops.items())?;
    Ok(())
}

// The ranks that stand on a page, of those up to its end.
pub(crate) fn ranks_on(top: &[Ranked], page: Page) -> &[Ranked]
    ensures { result.now ≡ drop page.from top.now }
{
    match top.get(page.from..) {
        Some(rest) => rest,
        None => &top[..0],
    }
}

pub(crate) fn push_page(lines: &mut Vec<Line>, alloc: Global, page: Page) -> Result<(), AllocError>
    ensures { OnOk result (Puts lines.old.items lines.new.items (texts.plain (page_text page) ∷ [])) }
{
    lines.push(page_line(alloc, page)?)?;
    Ok(())
}

// The tasks on a page, of these ranks up to its end.
fn push_table(
    lines: &mut Vec<Line>,
    alloc: Global,
    tables: &Tables,
    top: &[Ranked],
    page: Page,
) -> Result<(), AllocError>
    ensures { OnOk result (Puts lines.old.items lines.new.items (spec.table_part tables.now top.now page)) }
{
    push_heading(lines, alloc, task_heading())?;
    push_tasks(lines, alloc, tables, ranks_on(top, page))?;
    push_page(lines, alloc, page)?;
    Ok(())
}

// The tasks on a page.
fn push_tasks_on(
    lines: &mut Vec<Line>,
    alloc: Global,
    tables: &Tables,
    query: &Query<'_>,
    page: Page,
) -> Result<(), AllocError>
    ensures { OnOk result (Puts lines.old.items lines.new.items (spec.tasks_part query.now tables.now page)) }
{
    let (_, top) = walk(alloc, tables, query, page.to)?;
    push_table(lines, alloc, tables, top.items(), page)
}

// The table: of places, or of tasks.
fn push_main(
    lines: &mut Vec<Line>,
    alloc: Global,
    tables: &Tables,
    odd: &Odd,
    query: &Query<'_>,
    page: Page,
) -> Result<(), AllocError>
    ensures { OnOk result (Puts lines.old.items lines.new.items (spec.main_part query.now tables.now odd.now page)) }
{
    if query.by_place {
        push_places(lines, alloc, odd, query, page, None)
    } else {
        push_tasks_on(lines, alloc, tables, query, page)
    }
}

fn push_all(
    lines: &mut Vec<Line>,
    alloc: Global,
    canvas: Canvas,
    tables: &Tables,
    odd: &Odd,
    query: &Query<'_>,
    rows: usize,
) -> Result<(), AllocError>
    requires { 0 < rows }
    ensures { OnOk result (Puts lines.old.items lines.new.items (spec.frame_by rows canvas query.now tables.now odd.now)) }
{
    let page = page_of(rows, 0, rows_count(tables, odd, query));
    let again = odd.again();
    push_head(lines, alloc, tables, again, states_in(tables), odd.count())?;
    push_course(lines, alloc, odd.waits())?;
    push_findings(lines, alloc, canvas, tables, odd)?;
    push_main(lines, alloc, tables, odd, query, page)?;
    push_items(lines, alloc, tables, query, rows)?;
    Ok(())
}

/// The lines of a screen of tables of which this is odd: the first line, with the moment, how long ago the service was started again, the tasks by their states, how many findings
/// there are and what was lost; how many tasks waited at each of the last lines, where there were several; that no finding holds now, where it is so; the worst findings, as many as a third of the screen's rows,
/// and how many more there are; the first places, or open tasks, as many as have room, and how many there are; and where they were asked for, open
/// resources and async operations.
/// `docs/FORMATS.md` has their words.
///
/// It fails where there is no memory.
pub fn frame(
    alloc: Global,
    canvas: Canvas,
    tables: &Tables,
    odd: &Odd,
    query: &Query<'_>,
) -> Result<Vec<Line>, AllocError>
    ensures { IfOk result (λ lines. lines.items ≡ spec.frame_of canvas query.now tables.now odd.now) }
{
    let rows = table_rows(canvas, query, odd, 0);
    let mut lines = Vec::new(alloc);
    push_all(&mut lines, alloc, canvas, tables, odd, query, rows)?;
    Ok(lines)
}
