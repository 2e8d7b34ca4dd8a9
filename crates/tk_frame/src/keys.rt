//! What keys ask a screen for.
ghost use Rattle.std.specs.Prelude.{◌≡◌, ◌+◌, ◌-◌, min, IfOk, slice_get};
ghost use Rattle.std.specs.Option.{option_map};
ghost use Rattle.tk_frame.specs.Keys as spec;
ghost use Rattle.tk_frame.specs.Queries.{places_by};

use crate::heard::{Action, Begun, Step, hear};
use crate::odd::Odd;
use crate::pages::{chosen_of, table_rows};
use crate::place_ranks::{places_count, rows_count, top_places};
use crate::query::{Column, Query};
use crate::ranks::{shown_count, walk};
use crate::typed::{Typed, with_byte, without_last};
use std::alloc::{AllocError, Global};
use tk_ids::TaskId;
use tk_screen::{Canvas, Size};
use tk_stream::Tables;

/// What a screen shows.
#[derive(Clone, Copy, Debug, PartialEq, Eq)]
pub enum Shown {
    /// Tables, as `frame` does.
    Tables,
    /// What each key does.
    Keys,
    /// All that is told of a task.
    Task(TaskId),
    /// All that is told of the place of a number.
    Place(usize),
}

/// What keys have asked for.
#[derive(Clone, Copy, Debug, PartialEq, Eq)]
pub struct Asked {
    pub shown: Shown,
    /// By which column tasks are sorted.
    pub sort: Column,
    /// Whether the least is first, and not the greatest.
    pub rising: bool,
    /// Whether resources and async operations are shown too.
    pub resources: bool,
    /// Whether places are shown in the place of tasks.
    pub by_place: bool,
    /// Whether these are shown with what they came to in the last while.
    pub recent: bool,
    /// Which of the tasks or places that are shown is chosen, from 0 on. Where fewer are left it is the last.
    pub chosen: usize,
    /// Whether screens stay as they are while lines come.
    pub paused: bool,
    /// Whether the watch ends.
    pub quits: bool,
    /// How large the terminal is, if it has said so since the start.
    pub size: Option<Size>,
    /// For how many seconds nothing has come, if that was said; else 0.
    pub silent: usize,
    /// What has come of a key that is more than one byte.
    pub begun: Begun,
    /// A text that names each task that is shown.
    pub typed: Typed,
    /// Whether this text is typed.
    pub types: bool,
}

impl Asked {
    /// What is asked for before a key is pressed: tables, as the query says.
    pub fn first(query: &Query<'_>) -> Asked
        ensures { result ≡ spec.first_asked query.now }
    {
        Asked {
            shown: Shown::Tables,
            sort: query.sort,
            rising: query.rising,
            resources: query.resources,
            by_place: query.by_place,
            recent: query.recent,
            chosen: 0,
            paused: false,
            quits: false,
            size: None,
            silent: 0,
            begun: Begun::Nothing,
            typed: query.typed,
            types: false,
        }
    }

    /// What is drawn on, of the size that the terminal has now.
    pub fn canvas(&self, canvas: Canvas) -> Canvas
        ensures { result ≡ spec.canvas_by canvas self.now }
    {
        of_size(canvas, self.size)
    }
}

fn of_size(canvas: Canvas, size: Option<Size>) -> Canvas
    ensures { result ≡ spec.of_size canvas size }
{
    match canvas {
        Canvas::Plain => Canvas::Plain,
        Canvas::Terminal {
            size: before,
            colors,
        } => match size {
            Some(size) => Canvas::Terminal { size, colors },
            None => Canvas::Terminal {
                size: before,
                colors,
            },
        },
    }
}

/// A query, sorted and with resources as keys asked for.
pub(crate) fn query_by<'a>(query: &Query<'a>, asked: &Asked) -> Query<'a>
    ensures { result ≡ spec.query_by query.now asked.now }
{
    Query {
        sort: asked.sort,
        rising: asked.rising,
        rows: query.rows,
        filter: query.filter,
        typed: asked.typed,
        resources: asked.resources,
        by_place: asked.by_place,
        recent: asked.recent,
    }
}

// ---- what looks at no table

fn sorted(column: Column, asked: Asked) -> Asked
    ensures { result ≡ spec.sorted column asked }
{
    Asked {
        sort: column,
        shown: Shown::Tables,
        ..asked
    }
}

fn reversed(asked: Asked) -> Asked
    ensures { result ≡ spec.reversed asked }
{
    Asked {
        rising: !asked.rising,
        shown: Shown::Tables,
        ..asked
    }
}

fn with_resources(asked: Asked) -> Asked
    ensures { result ≡ spec.with_resources asked }
{
    Asked {
        resources: !asked.resources,
        shown: Shown::Tables,
        ..asked
    }
}

/// The column by which places are sorted first, or tasks.
pub fn first_column(by_place: bool) -> Column
    ensures { result ≡ spec.first_column by_place }
{
    if by_place {
        Column::HeldUp
    } else {
        Column::Busy
    }
}

fn grouped(asked: Asked) -> Asked
    ensures { result ≡ spec.grouped asked }
{
    let by_place = !asked.by_place;
    Asked {
        by_place,
        sort: first_column(by_place),
        rising: false,
        chosen: 0,
        shown: Shown::Tables,
        ..asked
    }
}

fn recently(asked: Asked) -> Asked
    ensures { result ≡ spec.recently asked }
{
    if !asked.by_place {
        return asked;
    }
    Asked {
        recent: !asked.recent,
        shown: Shown::Tables,
        ..asked
    }
}

fn or_keys(shown: Shown) -> Shown
    ensures { result ≡ spec.or_keys shown }
{
    match shown {
        Shown::Tables => Shown::Keys,
        Shown::Keys => Shown::Tables,
        Shown::Task(_) => Shown::Keys,
        Shown::Place(_) => Shown::Keys,
    }
}

fn explained(asked: Asked) -> Asked
    ensures { result ≡ spec.explained asked }
{
    Asked {
        shown: or_keys(asked.shown),
        ..asked
    }
}

fn turned(asked: Asked) -> Asked
    ensures { result ≡ spec.turned asked }
{
    Asked {
        paused: !asked.paused,
        ..asked
    }
}

fn ended(asked: Asked) -> Asked
    ensures { result ≡ spec.ended asked }
{
    Asked {
        quits: true,
        ..asked
    }
}

fn resized(size: Size, asked: Asked) -> Asked
    ensures { result ≡ spec.resized size asked }
{
    Asked {
        size: Some(size),
        ..asked
    }
}

fn silent_for(seconds: usize, asked: Asked) -> Asked
    ensures { result ≡ spec.silent_for seconds asked }
{
    Asked {
        silent: seconds,
        ..asked
    }
}

// Another text is typed.
fn filtered(typed: Typed, types: bool, asked: Asked) -> Asked
    ensures { result ≡ spec.filtered typed types asked }
{
    Asked {
        typed,
        types,
        chosen: 0,
        shown: Shown::Tables,
        ..asked
    }
}

fn typed_out(asked: Asked) -> Asked
    ensures { result ≡ spec.typed_out asked }
{
    Asked {
        types: false,
        ..asked
    }
}

fn acted_alone(asked: Asked, action: Action) -> Asked
    ensures { result ≡ spec.acted_alone asked action }
{
    match action {
        Action::Sort(column) => sorted(column, asked),
        Action::Reverse => reversed(asked),
        Action::Resources => with_resources(asked),
        Action::Group => grouped(asked),
        Action::Recent => recently(asked),
        Action::Pause => turned(asked),
        Action::Explain => explained(asked),
        Action::Quit => ended(asked),
        Action::Resize(size) => resized(size, asked),
        Action::Silence(seconds) => silent_for(seconds, asked),
        Action::Filter => filtered(Typed::none(), true, asked),
        Action::Put(byte) => filtered(with_byte(byte, asked.typed), true, asked),
        Action::Erase => filtered(without_last(asked.typed), true, asked),
        Action::Done => typed_out(asked),
        _ => asked,
    }
}

// ---- choosing and opening

fn or_chosen(shown: Shown, it: Shown) -> Shown
    ensures { result ≡ spec.or_chosen shown it }
{
    match shown {
        Shown::Tables => it,
        Shown::Keys => Shown::Tables,
        Shown::Task(_) => Shown::Tables,
        Shown::Place(_) => Shown::Tables,
    }
}

fn opened(it: Shown, asked: Asked) -> Asked
    ensures { result ≡ spec.opened it asked }
{
    Asked {
        shown: or_chosen(asked.shown, it),
        ..asked
    }
}

fn or_shown(before: Shown, task: Option<TaskId>) -> Shown
    ensures { result ≡ spec.or_shown before task }
{
    match task {
        Some(id) => Shown::Task(id),
        None => before,
    }
}

fn opened_at(task: Option<TaskId>, asked: Asked) -> Asked
    ensures { result ≡ spec.opened_at task asked }
{
    Asked {
        shown: or_shown(asked.shown, task),
        ..asked
    }
}

fn task_at(tables: &Tables, place: usize) -> Option<TaskId>
    ensures { result ≡ option_map (λ t. t.info.id) (slice_get tables.now.tasks place) }
{
    match tables.task_at(place) {
        Some(task) => Some(task.info.id),
        None => None,
    }
}

// The task at a place of those that are shown.
fn task_in(
    alloc: Global,
    tables: &Tables,
    query: &Query<'_>,
    chosen: usize,
) -> Result<Option<TaskId>, AllocError>
    ensures { IfOk result (λ task. task ≡ spec.task_in query.now tables.now chosen) }
{
    let Some(rows) = chosen.checked_add(1) else {
        return Err(AllocError);
    };
    let (_, top) = walk(alloc, tables, query, rows)?;
    match top.items().get(chosen) {
        Some(ranked) => Ok(task_at(tables, ranked.place)),
        None => Ok(None),
    }
}

// The chosen task.
fn chosen_task(
    alloc: Global,
    tables: &Tables,
    query: &Query<'_>,
    asked: &Asked,
) -> Result<Option<TaskId>, AllocError>
    ensures { IfOk result (λ task. task ≡ spec.chosen_task query.now tables.now asked.now) }
{
    let query = query_by(query, asked);
    let chosen = chosen_of(asked.chosen, shown_count(tables, &query));
    task_in(alloc, tables, &query, chosen)
}

fn number_at(odd: &Odd, recent: bool, place: usize) -> Option<usize>
    ensures { result ≡ option_map (λ p. p.1.number) (slice_get (places_by recent odd.now) place) }
{
    match odd.place_at(recent, place) {
        Some((_, figures)) => Some(figures.number),
        None => None,
    }
}

// The number of the place at a row of those that are shown.
fn place_in(
    alloc: Global,
    odd: &Odd,
    query: &Query<'_>,
    chosen: usize,
) -> Result<Option<usize>, AllocError>
    ensures { IfOk result (λ number. number ≡ spec.place_in query.now odd.now chosen) }
{
    let Some(rows) = chosen.checked_add(1) else {
        return Err(AllocError);
    };
    let top = top_places(alloc, odd, query, rows)?;
    match top.items().get(chosen) {
        Some(ranked) => Ok(number_at(odd, query.recent, ranked.place)),
        None => Ok(None),
    }
}

// The chosen place.
fn chosen_site(
    alloc: Global,
    odd: &Odd,
    query: &Query<'_>,
    asked: &Asked,
) -> Result<Option<usize>, AllocError>
    ensures { IfOk result (λ number. number ≡ spec.chosen_site query.now odd.now asked.now) }
{
    let query = query_by(query, asked);
    let chosen = chosen_of(asked.chosen, places_count(odd, &query));
    place_in(alloc, odd, &query, chosen)
}

fn task_shown(task: Option<TaskId>) -> Shown
    ensures { result ≡ spec.task_shown task }
{
    match task {
        Some(id) => Shown::Task(id),
        None => Shown::Tables,
    }
}

fn site_shown(number: Option<usize>) -> Shown
    ensures { result ≡ spec.site_shown number }
{
    match number {
        Some(number) => Shown::Place(number),
        None => Shown::Tables,
    }
}

// All that is told of the chosen one: of a place where places are shown, and else of a task.
fn chosen_shown(
    alloc: Global,
    tables: &Tables,
    odd: &Odd,
    query: &Query<'_>,
    asked: &Asked,
) -> Result<Shown, AllocError>
    ensures { IfOk result (λ it. it ≡ spec.chosen_shown query.now odd.now tables.now asked.now) }
{
    if asked.by_place {
        let number = chosen_site(alloc, odd, query, asked)?;
        Ok(site_shown(number))
    } else {
        let task = chosen_task(alloc, tables, query, asked)?;
        Ok(task_shown(task))
    }
}

// So many rows below a place, or the last.
fn rows_below(place: usize, rows: usize, all: usize) -> usize
    ensures { result ≡ min (place + rows) (all - 1) }
{
    let last = all.saturating_sub(1);
    if rows < last.saturating_sub(place) {
        place + rows
    } else {
        last
    }
}

fn after_step(step: Step, rows: usize, all: usize, place: usize) -> usize
    ensures { result ≡ spec.after_step step rows all place }
{
    match step {
        Step::Below => rows_below(place, 1, all),
        Step::Above => place.saturating_sub(1),
        Step::PageBelow => rows_below(place, rows, all),
        Step::PageAbove => place.saturating_sub(rows),
        Step::First => 0,
        Step::Last => all.saturating_sub(1),
    }
}

fn choosing(place: usize, asked: Asked) -> Asked
    ensures { result ≡ spec.choosing place asked }
{
    Asked {
        chosen: place,
        shown: Shown::Tables,
        ..asked
    }
}

fn moved(step: Step, rows: usize, all: usize, asked: Asked) -> Asked
    ensures { result ≡ spec.moved step rows all asked }
{
    let place = after_step(step, rows, all, chosen_of(asked.chosen, all));
    choosing(place, asked)
}

// Chooses another row of the tables that a screen shows.
fn moved_on(
    canvas: Canvas,
    tables: &Tables,
    odd: &Odd,
    query: &Query<'_>,
    asked: Asked,
    step: Step,
) -> Asked
    ensures { result ≡ spec.acted canvas query.now odd.now tables.now asked (spec.moving step) }
{
    let query = query_by(query, &asked);
    let rows = table_rows(asked.canvas(canvas), &query, odd, 1);
    let all = rows_count(tables, odd, &query);
    moved(step, rows, all, asked)
}

// What an action makes of what was asked for.
fn acted(
    alloc: Global,
    canvas: Canvas,
    tables: &Tables,
    odd: &Odd,
    query: &Query<'_>,
    asked: Asked,
    action: Action,
) -> Result<Asked, AllocError>
    ensures { IfOk result (λ next. next ≡ spec.acted canvas query.now odd.now tables.now asked action) }
{
    match action {
        Action::Open => {
            let it = chosen_shown(alloc, tables, odd, query, &asked)?;
            Ok(opened(it, asked))
        }
        Action::Finding(number) => Ok(opened_at(odd.task_at(number), asked)),
        Action::Move(step) => Ok(moved_on(canvas, tables, odd, query, asked, step)),
        other => Ok(acted_alone(asked, other)),
    }
}

fn with_begun(begun: Begun, asked: Asked) -> Asked
    ensures { result ≡ spec.with_begun begun asked }
{
    Asked { begun, ..asked }
}

/// What is asked for once a byte came from the terminal, while a screen of these tables and findings is drawn on this canvas.
///
/// - `b`, `s`, `p`, `w`, `o` and `h` sort tasks or places by a column, and `v` sorts them the other way round. `g` shows places, or tasks again. If places are shown, `R` shows
///   what they came to in the last while, or in all again.
/// - `j` and `k`, or arrows, choose a row; `n` does as `j`. `d` and `u`, or Page Down and Page Up, go a page further; `<` and `>`, or Home and End, go to the
///   first and to the last row.
/// - Enter shows all of the chosen task or place, or no more; a digit shows the task of the finding that has this number.
/// - `/` begins a text, and shows the tasks alone that it names. A backspace takes its last byte back, and Enter ends it.
/// - `r` shows resources and async operations, or no more; a space pauses, or goes on; `?` shows what keys do, or no more; `q` ends the watch.
/// - `ESC [ 8 ; LINES ; COLUMNS t` is no key: by it a terminal says how large it is. So it does by `ESC [ LINES ; COLUMNS R`, from two lines on, once its
///   cursor was sent to the last line and column.
/// - `ESC [ SECONDS w` is none either: who reads the stream says by it for how long nothing came, and `ESC [ 0 w` that something came again.
///
/// Any other asks for nothing. A key of several bytes counts with its last one.
///
/// It fails where there is no memory to find the chosen one.
pub fn press(
    alloc: Global,
    canvas: Canvas,
    tables: &Tables,
    odd: &Odd,
    query: &Query<'_>,
    asked: &Asked,
    key: u8,
) -> Result<Asked, AllocError>
    ensures { IfOk result (λ next. next ≡ spec.pressed canvas query.now odd.now tables.now asked.now key) }
{
    let heard = hear(asked.types, asked.begun, key);
    let before = with_begun(heard.begun, *asked);
    acted(alloc, canvas, tables, odd, query, before, heard.action)
}
