//! The table of tasks, whose rows are lanes of time.
ghost use Rattle.std.specs.Prelude.{◌≡◌, [], OnOk, slice_get, flat_map};
ghost use Rattle.std.specs.Option.{option_map_or};
ghost use Rattle.tk_page.specs.Rows as spec;
ghost use Rattle.tk_page.specs.Courses.{courses_of};
ghost use Rattle.tk_paper.specs.Pieces.{Writes};

use crate::badges::{put_badges, start_section};
use crate::blamed::Blamed;
use crate::figures::{Scale, each, front, share};
use crate::history::History;
use crate::idle::put_awaited;
use crate::oddities::Signs;
use crate::picture::{Split, splits_of};
use crate::ranks::{Rank, ranks_of};
use crate::resources::put_more;
use crate::sample::Sample;
use crate::strips::{Height, height_of, put_strip, steps_of};
use crate::tasks_head::{
    put_controls, put_first_columns, put_last_columns, put_legend, put_sum_row,
};
use std::alloc::{AllocError, Global};
use tk_core::TaskRow;
use tk_ids::TaskKind;
use tk_paper::Part::{
    Class, Close, Count, End, Number, Open, Quote, Share, Span, Start, Text, Value, With,
    WithNumber,
};
use tk_paper::{Attr, Paper, Tag};
use tk_stream::{Tables, Task};

// How many tasks a page shows.
const TASKS: usize = 200;

// The class of a task's state.
fn state_class(row: &TaskRow) -> &'static str
    ensures { result.now ≡ spec.state_class row.now }
{
    if row.dropped.is_some() {
        "st closed"
    } else if row.polling {
        "st running"
    } else if row.scheduled {
        "st waiting"
    } else {
        "st idle"
    }
}

// The word for it.
fn state_word(row: &TaskRow) -> &'static str
    ensures { result.now ≡ spec.state_word row.now }
{
    if row.dropped.is_some() {
        "closed"
    } else if row.polling {
        "running"
    } else if row.scheduled {
        "waiting"
    } else {
        "idle"
    }
}

// How long a bar is: as its share, of 100, and at least 1 where there is any.
fn bar_length(share: u64) -> u64
    ensures { result ≡ spec.bar_length share }
{
    if share > 0 { (share / 10).max(1) } else { 0 }
}

// Puts a cell with a time, as its share, with a bar as long as that, and as it is. Its column is sorted by the time.
fn put_share_cell(
    paper: &mut Paper,
    class: &'static str,
    part: u64,
    whole: u64,
) -> Result<(), AllocError>
    ensures { OnOk result (Writes paper.old paper.new (spec.share_cell class.now part whole)) }
{
    let share = share(part, whole);
    let length = bar_length(share);
    paper.put(&[
        Open(Tag::Td),
        WithNumber(Attr::DataV, part),
        With(Attr::Class, "num"),
        End,
        Open(Tag::Svg),
        With(Attr::Class, "bar"),
        Value(Attr::ViewBox),
        Text("0 0 "),
        Number(100),
        Text(" "),
        Number(10),
        Quote,
        With(Attr::Preserve, "none"),
        With(Attr::AriaHidden, "true"),
        End,
        Open(Tag::Rect),
        With(Attr::Class, class),
        WithNumber(Attr::Width, length),
        WithNumber(Attr::Height, 10),
        End,
        Close(Tag::Rect),
        Close(Tag::Svg),
        Text(" "),
        Share(share),
        Text(" "),
        Start(Tag::Small),
        Span(part),
        Close(Tag::Small),
        Close(Tag::Td),
    ])
}

/// Puts how long one takes in the mean, as a poll, or a dash where there was none.
pub(crate) fn put_mean(paper: &mut Paper, time: u64, count: u64) -> Result<(), AllocError>
    ensures { OnOk result (Writes paper.old paper.new (spec.mean_cell time count)) }
{
    let span = each(time, count);
    paper.put(&[
        Open(Tag::Td),
        WithNumber(Attr::DataV, span),
        With(Attr::Class, "num"),
        End,
        if count == 0 { Text("–") } else { Span(span) },
        Close(Tag::Td),
    ])
}

/// Puts a cell with a number.
pub(crate) fn put_number(paper: &mut Paper, number: u64) -> Result<(), AllocError>
    ensures { OnOk result (Writes paper.old paper.new (spec.number_cell number)) }
{
    paper.put(&[
        Open(Tag::Td),
        WithNumber(Attr::DataV, number),
        With(Attr::Class, "num"),
        End,
        Count(number),
        Close(Tag::Td),
    ])
}

fn put_counts(paper: &mut Paper, row: &TaskRow) -> Result<(), AllocError>
    ensures { OnOk result (Writes paper.old paper.new (spec.counts row.now)) }
{
    put_number(paper, row.polls)?;
    put_number(paper, row.wakes)?;
    put_number(paper, row.self_wakes)?;
    put_number(paper, row.clones.saturating_sub(row.drops))?;
    Ok(())
}

fn put_numbers(paper: &mut Paper, scale: Scale, row: &TaskRow) -> Result<(), AllocError>
    ensures { OnOk result (Writes paper.old paper.new (spec.numbers scale row.now)) }
{
    let watched = scale.watched();
    let busy = row.busy_until(scale.now);
    let sched = row.sched_until(scale.now);
    put_share_cell(paper, "busy", busy, watched)?;
    put_share_cell(paper, "wait", sched, watched)?;
    put_mean(paper, busy, row.polls)?;
    put_counts(paper, row)?;
    Ok(())
}

// A task's kind where it isn't the common one, between two spaces.
fn kind_word(kind: TaskKind) -> &'static str
    ensures { result.now ≡ spec.kind_word kind }
{
    match kind {
        TaskKind::Spawn => " ",
        TaskKind::Blocking => " blocking ",
    }
}

// Whether something is odd, as the script reads it.
fn flag(odd: bool) -> &'static str
    ensures { result.now ≡ spec.flag odd }
{
    if odd { "1" } else { "0" }
}

// Begins a row, and puts what the task is: its name, its id, its kind, and where it was spawned.
fn put_name(paper: &mut Paper, task: &Task, odd: bool) -> Result<(), AllocError>
    ensures { OnOk result (Writes paper.old paper.new (spec.name task.now odd)) }
{
    let info = &task.info;
    let (recorder, number) = info.id.parts();
    paper.put(&[
        Open(Tag::Tr),
        Value(Attr::Id),
        Text("t"),
        Number(info.id.value()),
        Quote,
        With(Attr::DataOdd, flag(odd)),
        End,
        Open(Tag::Th),
        With(Attr::Scope, "row"),
        WithNumber(Attr::DataV, info.id.value()),
        End,
        Class(Tag::Span, "name"),
        Text(info.name.as_str()),
        Close(Tag::Span),
        Text(" "),
        Start(Tag::Small),
        Number(recorder),
        Text("."),
        Number(number),
        Text(kind_word(info.kind)),
        Text(info.location.file.as_str()),
        Text(":"),
        Number(u64::from(info.location.line)),
        Text(":"),
        Number(u64::from(info.location.column)),
        Close(Tag::Small),
    ])
}

fn put_state(paper: &mut Paper, row: &TaskRow) -> Result<(), AllocError>
    ensures { OnOk result (Writes paper.old paper.new (spec.state row.now)) }
{
    paper.put(&[
        Close(Tag::Th),
        Start(Tag::Td),
        Class(Tag::Span, state_class(row)),
        Text(state_word(row)),
        Close(Tag::Span),
        Close(Tag::Td),
        Class(Tag::Td, "course"),
    ])
}

fn put_task(
    paper: &mut Paper,
    alloc: Global,
    scale: Scale,
    signs: &Signs,
    tables: &Tables,
    task: &Task,
    samples: &[Sample],
) -> Result<(), AllocError>
    ensures { OnOk result (Writes paper.old paper.new (spec.row_of scale signs.now tables.now samples.now task.now)) }
{
    put_name(paper, task, signs.has_any(task))?;
    put_badges(paper, signs, task)?;
    put_awaited(paper, alloc, scale, tables, task)?;
    put_state(paper, &task.row)?;
    put_strip(paper, alloc, scale, task, samples)?;
    paper.put(&[Close(Tag::Td)])?;
    put_numbers(paper, scale, &task.row)?;
    paper.put(&[Close(Tag::Tr)])?;
    Ok(())
}

// Puts the row of the task at a place.
fn put_row(
    paper: &mut Paper,
    alloc: Global,
    scale: Scale,
    signs: &Signs,
    history: &History,
    tables: &Tables,
    place: usize,
) -> Result<(), AllocError>
    ensures { OnOk result (Writes paper.old paper.new
        (option_map_or (spec.row scale signs.now (courses_of history.now) tables.now) (slice_get tables.now.tasks place) [])) }
{
    match tables.task_at(place) {
        Some(task) => {
            let course = history.of(task.info.id.value())?;
            put_task(paper, alloc, scale, signs, tables, task, course.kept())
        }
        None => paper.put(&[]),
    }
}

fn put_rows(
    paper: &mut Paper,
    alloc: Global,
    scale: Scale,
    signs: &Signs,
    history: &History,
    tables: &Tables,
    ranks: &[Rank],
) -> Result<(), AllocError>
    ensures { OnOk result (Writes paper.old paper.new
        (flat_map (spec.row_at scale signs.now (courses_of history.now) tables.now) ranks.now)) }
{
    for rank in ranks {
        put_row(paper, alloc, scale, signs, history, tables, rank.place)?;
    }
    Ok(())
}

fn put_caption(paper: &mut Paper, watched: u64) -> Result<(), AllocError>
    ensures { OnOk result (Writes paper.old paper.new (spec.caption watched)) }
{
    paper.put(&[
        Open(Tag::Table),
        With(Attr::Id, "table"),
        WithNumber(Attr::DataV, watched),
        End,
        Start(Tag::Caption),
        Text("Each row is a task; its strip is its course of time from 0 to "),
        Span(watched),
        Text("."),
        Close(Tag::Caption),
        Start(Tag::Thead),
    ])
}

// The head of the table: how many tasks waited at a time, and the columns.
fn put_table_head(
    paper: &mut Paper,
    scale: Scale,
    height: Height,
    blamed: &[Blamed],
    splits: &[Split],
) -> Result<(), AllocError>
    ensures { OnOk result (Writes paper.old paper.new (spec.table_head scale height blamed.now splits.now)) }
{
    put_caption(paper, scale.watched())?;
    put_sum_row(paper, scale, height, blamed, splits)?;
    put_first_columns(paper)?;
    put_last_columns(paper)?;
    paper.put(&[Close(Tag::Thead), Start(Tag::Tbody)])?;
    Ok(())
}

fn put_table(
    paper: &mut Paper,
    alloc: Global,
    scale: Scale,
    signs: &Signs,
    history: &History,
    blamed: &[Blamed],
    tables: &Tables,
) -> Result<(), AllocError>
    ensures { OnOk result (spec.WritesTable scale signs.now (courses_of history.now) blamed.now tables.now paper.old paper.new) }
{
    let ranks = ranks_of(alloc, scale, tables, signs)?;
    let shown = front(ranks.as_slice(), TASKS);
    let sums = steps_of(alloc, scale.start, history.sums(), history.last())?;
    let list = sums.as_slice();
    let height = height_of(list);
    let splits = splits_of(alloc, blamed, list)?;
    put_table_head(paper, scale, height, blamed, splits.as_slice())?;
    put_rows(paper, alloc, scale, signs, history, tables, shown)?;
    paper.put(&[Close(Tag::Tbody), Close(Tag::Table), Close(Tag::Div)])?;
    Ok(())
}

fn put_tasks_head(paper: &mut Paper) -> Result<(), AllocError>
    ensures { OnOk result (Writes paper.old paper.new spec.tasks_head) }
{
    start_section(paper, "tasks", "Tasks")?;
    paper.put(&[Close(Tag::H2)])?;
    put_legend(paper)?;
    put_controls(paper)?;
    paper.put(&[Class(Tag::Div, "scroll")])?;
    Ok(())
}

/// Puts the tasks.
pub(crate) fn put_tasks(
    paper: &mut Paper,
    alloc: Global,
    scale: Scale,
    signs: &Signs,
    history: &History,
    blamed: &[Blamed],
    tables: &Tables,
) -> Result<(), AllocError>
    ensures { OnOk result (spec.WritesTasks scale signs.now (courses_of history.now) blamed.now tables.now paper.old paper.new) }
{
    put_tasks_head(paper)?;
    put_table(paper, alloc, scale, signs, history, blamed, tables)?;
    put_more(
        paper,
        tables.task_count(),
        TASKS,
        " tasks more, which have no row",
    )?;
    paper.put(&[Close(Tag::Section)])?;
    Ok(())
}
