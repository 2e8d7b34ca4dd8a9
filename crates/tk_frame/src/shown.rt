//! The lines of a screen that keys ask for.
ghost use Rattle.std.specs.Prelude.{◌≡◌, ◌<◌, ◌+◌, ◌∷◌, [], drop, slice_get, take, IfOk, OnOk, string_bytes};
ghost use Rattle.std.specs.Option.{option_map_or};
ghost use Rattle.tk_screen.specs.Texts.{Puts};
ghost use Rattle.tk_frame.specs.Lines as texts;
ghost use Rattle.tk_frame.specs.Shown as spec;

use crate::cells::put_text;
use crate::course::push_course;
use crate::details::{push_details, push_plain};
use crate::findings::put_place;
use crate::keys::{Asked, Shown, query_by};
use crate::lines::{push_head, push_heading, push_items, push_page, push_tasks, ranks_on};
use crate::odd::Odd;
use crate::odd_lines::push_findings;
use crate::pages::{Page, chosen_of, page_of, table_rows};
use crate::place_lines::push_places;
use crate::place_ranks::rows_count;
use crate::place_view::push_place_view;
use crate::query::{Column, Query};
use crate::ranks::{states_in, walk};
use crate::tasks::{chosen_line, task_heading};
use crate::typed::Typed;
use std::alloc::{AllocError, Global};
use tk_client::Times;
use tk_screen::{Canvas, Line, Ranked, Style, put_duration};
use tk_stream::Tables;

fn column_word(column: Column) -> &'static str
    ensures { result.now ≡ spec.column_word column }
{
    match column {
        Column::Busy => "busy",
        Column::Sched => "sched",
        Column::Polls => "polls",
        Column::Wakes => "wakes",
        Column::SelfWakes => "self-wakes",
        Column::HeldUp => "held-up",
    }
}

// By which column rows are sorted.
fn sorted_by(by_place: bool, column: Column) -> Column
    ensures { result ≡ spec.sorted_by by_place column }
{
    if by_place {
        return column;
    }
    match column {
        Column::HeldUp => Column::Busy,
        other => other,
    }
}

fn order_word(rising: bool) -> &'static str
    ensures { result.now ≡ spec.order_word rising }
{
    if rising { ", least first" } else { "" }
}

fn by_word(by_place: bool) -> &'static str
    ensures { result.now ≡ spec.by_word by_place }
{
    if by_place { "by place, " } else { "" }
}

fn put_while(out: &mut String, time: Option<u64>) -> Result<(), AllocError>
    ensures { OnOk result (Puts (string_bytes out.old) (string_bytes out.new) (spec.while_word time)) }
{
    let Some(time) = time else {
        return put_text(out, "the whole time so far, ");
    };
    put_text(out, "last ")?;
    put_duration(out, time)?;
    put_text(out, ", ")?;
    Ok(())
}

fn tells_recent(asked: &Asked) -> bool
    ensures { result ≡ spec.tells_recent asked.now }
{
    asked.by_place && asked.recent
}

// Puts of which time it is told what places came to, where not of all.
fn put_recent(out: &mut String, recent: bool, time: Option<u64>) -> Result<(), AllocError>
    ensures { OnOk result (Puts (string_bytes out.old) (string_bytes out.new) (spec.recent_word recent time)) }
{
    if recent {
        return put_while(out, time);
    }
    Ok(())
}

fn put_lag(out: &mut String, behind: u64) -> Result<(), AllocError>
    ensures { OnOk result (Puts (string_bytes out.old) (string_bytes out.new) (spec.lag_text behind)) }
{
    put_text(out, ", ")?;
    put_duration(out, behind)?;
    put_text(out, " behind")?;
    Ok(())
}

// Puts how far what is shown lies behind what came, where it does.
fn put_behind(out: &mut String, behind: u64) -> Result<(), AllocError>
    ensures { OnOk result (Puts (string_bytes out.old) (string_bytes out.new) (spec.behind_word behind)) }
{
    if behind == 0 {
        return Ok(());
    }
    put_lag(out, behind)
}

fn put_pause(out: &mut String, behind: u64) -> Result<(), AllocError>
    ensures { OnOk result (Puts (string_bytes out.old) (string_bytes out.new) (spec.pause_text behind)) }
{
    put_text(out, "  paused")?;
    put_behind(out, behind)?;
    Ok(())
}

// Puts that screens stay as they are, where they do.
fn put_paused(out: &mut String, paused: bool, behind: u64) -> Result<(), AllocError>
    ensures { OnOk result (Puts (string_bytes out.old) (string_bytes out.new) (spec.paused_word paused behind)) }
{
    if paused {
        return put_pause(out, behind);
    }
    Ok(())
}

// How many nanoseconds a second has.
const SECOND: u64 = 1_000_000_000;

fn put_silence(out: &mut String, seconds: usize) -> Result<(), AllocError>
    ensures { OnOk result (Puts (string_bytes out.old) (string_bytes out.new) (spec.silent_text seconds)) }
{
    put_text(out, "  nothing came for ")?;
    put_duration(out, (seconds as u64).saturating_mul(SECOND))?;
    Ok(())
}

// Puts for how long nothing has come, where that was said.
fn put_silent(out: &mut String, seconds: usize) -> Result<(), AllocError>
    ensures { OnOk result (Puts (string_bytes out.old) (string_bytes out.new) (spec.silent_word seconds)) }
{
    if seconds == 0 {
        return Ok(());
    }
    put_silence(out, seconds)
}

fn put_text_of(out: &mut String, typed: &Typed, end: &str) -> Result<(), AllocError>
    ensures { OnOk result (Puts (string_bytes out.old) (string_bytes out.new) (spec.named_by typed.now end.now)) }
{
    put_text(out, "  /")?;
    put_place(out, typed.text())?;
    put_text(out, end)?;
    Ok(())
}

// Puts the text that names tasks, where there is one or it is typed.
fn put_filter(out: &mut String, types: bool, typed: &Typed) -> Result<(), AllocError>
    ensures { OnOk result (Puts (string_bytes out.old) (string_bytes out.new) (spec.filter_word types typed.now)) }
{
    if types {
        return put_text_of(out, typed, "_");
    }
    if typed.is_empty() {
        return Ok(());
    }
    put_text_of(out, typed, "")
}

fn put_asked(
    out: &mut String,
    asked: &Asked,
    time: Option<u64>,
    behind: u64,
) -> Result<(), AllocError>
    ensures { OnOk result (Puts (string_bytes out.old) (string_bytes out.new) (spec.asked_text asked.now time behind)) }
{
    put_text(out, by_word(asked.by_place))?;
    put_recent(out, tells_recent(asked), time)?;
    put_text(out, "sorted by ")?;
    put_text(out, column_word(sorted_by(asked.by_place, asked.sort)))?;
    put_text(out, order_word(asked.rising))?;
    put_filter(out, asked.types, &asked.typed)?;
    put_paused(out, asked.paused, behind)?;
    put_silent(out, asked.silent)?;
    put_text(out, "  ? shows the keys")?;
    Ok(())
}

fn push_asked(
    lines: &mut Vec<Line>,
    alloc: Global,
    asked: &Asked,
    time: Option<u64>,
    behind: u64,
) -> Result<(), AllocError>
    ensures { OnOk result (Puts lines.old.items lines.new.items (texts.plain (spec.asked_text asked.now time behind) ∷ [])) }
{
    let mut text = String::new(alloc);
    put_asked(&mut text, asked, time, behind)?;
    lines.push(Line::new(Style::Plain, text))?;
    Ok(())
}

fn push_columns(lines: &mut Vec<Line>, alloc: Global) -> Result<(), AllocError>
    ensures { OnOk result (Puts lines.old.items lines.new.items (take 8 spec.keys_part)) }
{
    push_heading(lines, alloc, "KEY    WHAT IT DOES")?;
    push_plain(
        lines,
        alloc,
        "b      sorts tasks by how long their polls ran",
    )?;
    push_plain(
        lines,
        alloc,
        "s      sorts them by how long they waited, scheduled",
    )?;
    push_plain(
        lines,
        alloc,
        "p      sorts them by how many polls of them started",
    )?;
    push_plain(
        lines,
        alloc,
        "w      sorts them by how often they were woken",
    )?;
    push_plain(
        lines,
        alloc,
        "o      sorts them by how often they woke themselves",
    )?;
    push_plain(
        lines,
        alloc,
        "h      sorts places by how long others waited while their tasks ran",
    )?;
    push_plain(lines, alloc, "v      sorts them the other way round")?;
    Ok(())
}

fn push_steps(lines: &mut Vec<Line>, alloc: Global) -> Result<(), AllocError>
    ensures { OnOk result (Puts lines.old.items lines.new.items (take 5 (drop 8 spec.keys_part))) }
{
    push_plain(
        lines,
        alloc,
        "j, k   chooses the task below, or above, as arrows do",
    )?;
    push_plain(
        lines,
        alloc,
        "d, u   goes a page down, or up, as Page Down and Page Up do",
    )?;
    push_plain(
        lines,
        alloc,
        "<, >   chooses the first task, or the last, as Home and End do",
    )?;
    push_plain(
        lines,
        alloc,
        "Enter  shows all of the chosen task or place, or not any more",
    )?;
    push_plain(
        lines,
        alloc,
        "1..9   shows the task of the finding that has this number",
    )?;
    Ok(())
}

fn push_others(lines: &mut Vec<Line>, alloc: Global) -> Result<(), AllocError>
    ensures { OnOk result (Puts lines.old.items lines.new.items (drop 13 spec.keys_part)) }
{
    push_plain(
        lines,
        alloc,
        "/      shows only tasks that a text names, by their name or their file; Enter ends it",
    )?;
    push_plain(lines, alloc, "g      shows places, or tasks again")?;
    push_plain(
        lines,
        alloc,
        "R      shows what places came to in the last 5 seconds, or in all again",
    )?;
    push_plain(
        lines,
        alloc,
        "r      shows resources and async operations, or not any more",
    )?;
    push_plain(lines, alloc, "space  pauses, or goes on")?;
    push_plain(lines, alloc, "?      shows this, or not any more")?;
    push_plain(lines, alloc, "q      quits")?;
    Ok(())
}

fn push_keys(lines: &mut Vec<Line>, alloc: Global) -> Result<(), AllocError>
    ensures { OnOk result (Puts lines.old.items lines.new.items spec.keys_part) }
{
    push_columns(lines, alloc)?;
    push_steps(lines, alloc)?;
    push_others(lines, alloc)?;
    Ok(())
}

fn push_chosen(
    lines: &mut Vec<Line>,
    alloc: Global,
    tables: &Tables,
    ranked: &Ranked,
) -> Result<(), AllocError>
    ensures { OnOk result (Puts lines.old.items lines.new.items (spec.chosen_at tables.now ranked.now)) }
{
    if let Some(task) = tables.task_at(ranked.place) {
        lines.push(chosen_line(alloc, task, tables.now())?)?;
    }
    Ok(())
}

fn ranked_at(top: &[Ranked], place: usize) -> Option<Ranked>
    ensures { result ≡ slice_get top.now place }
{
    top.get(place).copied()
}

fn push_choice(
    lines: &mut Vec<Line>,
    alloc: Global,
    tables: &Tables,
    top: &[Ranked],
    chosen: usize,
) -> Result<(), AllocError>
    ensures { OnOk result (Puts lines.old.items lines.new.items (option_map_or (spec.chosen_at tables.now) (slice_get top.now chosen) [])) }
{
    match ranked_at(top, chosen) {
        Some(ranked) => push_chosen(lines, alloc, tables, &ranked),
        None => Ok(()),
    }
}

// The ranks before the chosen one.
fn rows_above(top: &[Ranked], chosen: usize) -> &[Ranked]
    ensures { result.now ≡ take chosen top.now }
{
    match top.get(..chosen) {
        Some(front) => front,
        None => top,
    }
}

// The ranks after the chosen one.
fn rows_below(top: &[Ranked], chosen: usize) -> &[Ranked]
    ensures { result.now ≡ drop (chosen + 1) top.now }
{
    if chosen < top.len() {
        &top[chosen + 1..]
    } else {
        &top[..0]
    }
}

fn push_rows(
    lines: &mut Vec<Line>,
    alloc: Global,
    tables: &Tables,
    top: &[Ranked],
    chosen: usize,
) -> Result<(), AllocError>
    ensures { OnOk result (Puts lines.old.items lines.new.items (spec.rows_part tables.now top.now chosen)) }
{
    push_tasks(lines, alloc, tables, rows_above(top, chosen))?;
    push_choice(lines, alloc, tables, top, chosen)?;
    push_tasks(lines, alloc, tables, rows_below(top, chosen))?;
    Ok(())
}

// The tasks on a page, of these ranks up to its end, of which one is chosen.
fn push_choices(
    lines: &mut Vec<Line>,
    alloc: Global,
    tables: &Tables,
    top: &[Ranked],
    page: Page,
    chosen: usize,
) -> Result<(), AllocError>
    ensures { OnOk result (Puts lines.old.items lines.new.items (spec.page_part tables.now top.now page chosen)) }
{
    let row = chosen_of(chosen, page.all).saturating_sub(page.from);
    push_heading(lines, alloc, task_heading())?;
    push_rows(lines, alloc, tables, ranks_on(top, page), row)?;
    push_page(lines, alloc, page)?;
    Ok(())
}

fn push_tasks_on(
    lines: &mut Vec<Line>,
    alloc: Global,
    tables: &Tables,
    query: &Query<'_>,
    page: Page,
    chosen: usize,
) -> Result<(), AllocError>
    ensures { OnOk result (Puts lines.old.items lines.new.items (spec.page_at chosen query.now tables.now page)) }
{
    let (_, top) = walk(alloc, tables, query, page.to)?;
    push_choices(lines, alloc, tables, top.items(), page, chosen)
}

// The table: of places, or of tasks, one of which is chosen.
fn push_main(
    lines: &mut Vec<Line>,
    alloc: Global,
    tables: &Tables,
    odd: &Odd,
    query: &Query<'_>,
    page: Page,
    chosen: usize,
) -> Result<(), AllocError>
    ensures { OnOk result (Puts lines.old.items lines.new.items (spec.choice_part chosen query.now tables.now odd.now page)) }
{
    let row = chosen_of(chosen, page.all).saturating_sub(page.from);
    if query.by_place {
        push_places(lines, alloc, odd, query, page, Some(row))
    } else {
        push_tasks_on(lines, alloc, tables, query, page, chosen)
    }
}

fn push_tables(
    lines: &mut Vec<Line>,
    alloc: Global,
    canvas: Canvas,
    tables: &Tables,
    odd: &Odd,
    query: &Query<'_>,
    chosen: usize,
    rows: usize,
) -> Result<(), AllocError>
    requires { 0 < rows }
    ensures { OnOk result (Puts lines.old.items lines.new.items (spec.choice_by rows chosen canvas query.now tables.now odd.now)) }
{
    let page = page_of(rows, chosen, rows_count(tables, odd, query));
    let again = odd.again();
    push_head(lines, alloc, tables, again, states_in(tables), odd.count())?;
    push_course(lines, alloc, odd.waits())?;
    push_findings(lines, alloc, canvas, tables, odd)?;
    push_main(lines, alloc, tables, odd, query, page, chosen)?;
    push_items(lines, alloc, tables, query, rows)?;
    Ok(())
}

fn push_shown(
    lines: &mut Vec<Line>,
    alloc: Global,
    canvas: Canvas,
    tables: &Tables,
    times: &Times,
    odd: &Odd,
    query: &Query<'_>,
    asked: &Asked,
) -> Result<(), AllocError>
    ensures { OnOk result (Puts lines.old.items lines.new.items (spec.shown_part asked.now.shown asked.now canvas query.now tables.now times.now odd.now)) }
{
    let shown = asked.shown;
    match shown {
        Shown::Tables => {
            let query = query_by(query, asked);
            let chosen = asked.chosen;
            let rows = table_rows(canvas, &query, odd, 1);
            push_tables(lines, alloc, canvas, tables, odd, &query, chosen, rows)
        }
        Shown::Keys => push_keys(lines, alloc),
        Shown::Task(id) => push_details(lines, alloc, tables, times, odd, id),
        Shown::Place(number) => push_place_view(lines, alloc, tables, odd, number),
    }
}

/// The lines of a screen that keys ask for, of tables of which this is odd: how tasks or places are sorted, of which time it is told what places came to where not of all, whether it is paused and by how many nanoseconds these
/// tables then lie behind what came, and then the tables as `frame` shows them, with the page of the chosen task; or what each key does; or all that is told of a task, with its histograms among these, or of a place. `docs/FORMATS.md` has
/// their words.
///
/// It fails where there is no memory.
pub fn asked_frame(
    alloc: Global,
    canvas: Canvas,
    tables: &Tables,
    times: &Times,
    odd: &Odd,
    query: &Query<'_>,
    asked: &Asked,
    behind: u64,
) -> Result<Vec<Line>, AllocError>
    ensures { IfOk result (λ lines. lines.items ≡ spec.lines_of asked.now behind canvas query.now tables.now times.now odd.now) }
{
    let mut lines = Vec::new(alloc);
    push_asked(&mut lines, alloc, asked, odd.recent_time(), behind)?;
    push_shown(&mut lines, alloc, canvas, tables, times, odd, query, asked)?;
    Ok(lines)
}
