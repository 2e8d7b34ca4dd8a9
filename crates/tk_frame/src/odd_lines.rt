//! The lines that tell what is odd.
ghost use Rattle.std.specs.Prelude.{◌≡◌, ◌<◌, IfOk, OnOk, map, string_bytes, take};
ghost use Rattle.tk_odd.specs.Findings.{placed, told, victim_of};
ghost use Rattle.tk_screen.specs.Texts.{Puts};
ghost use Rattle.tk_frame.specs.Findings as spec;

use crate::cells::put_text;
use crate::findings::{advice_line, finding_line, put_place};
use crate::odd::Odd;
use crate::waiting::put_waiting;
use std::alloc::{AllocError, Global};
use tk_odd::{Found, Victim, Waiting, place_of};
use tk_screen::{Canvas, Line, Style, put_duration};
use tk_stream::{Tables, Task};

// ---- the first findings

/// How many findings a screen shows: a third of its rows.
pub(crate) fn most_of(canvas: Canvas) -> usize
    ensures { result ≡ spec.most_of canvas }
{
    let rows = match canvas {
        Canvas::Plain => 24,
        Canvas::Terminal { size, colors: _ } => size.lines,
    };
    rows / 3
}

// The first findings, as many as are shown.
fn first_of(list: &[Found], most: usize) -> &[Found]
    ensures { result.now ≡ take most list.now }
{
    match list.get(..most) {
        Some(first) => first,
        None => list,
    }
}

fn push_finding(
    lines: &mut Vec<Line>,
    alloc: Global,
    tables: &Tables,
    number: u64,
    found: &Found,
) -> Result<(), AllocError>
    ensures { OnOk result (Puts lines.old.items lines.new.items (spec.shown_line tables.now.tasks number (placed found.now))) }
{
    lines.push(finding_line(alloc, tables, number, found)?)?;
    Ok(())
}

fn push_each(
    lines: &mut Vec<Line>,
    alloc: Global,
    tables: &Tables,
    list: &[Found],
) -> Result<(), AllocError>
    ensures { OnOk result (Puts lines.old.items lines.new.items (spec.numbered (spec.shown_line tables.now.tasks) 1 (map placed list.now))) }
{
    for (i, found) in list.iter().enumerate() {
        push_finding(lines, alloc, tables, i as u64 + 1, found)?;
    }
    Ok(())
}

fn push_more(
    lines: &mut Vec<Line>,
    alloc: Global,
    most: usize,
    findings: usize,
) -> Result<(), AllocError>
    ensures { OnOk result (Puts lines.old.items lines.new.items (spec.more_findings most findings)) }
{
    if findings <= most {
        return Ok(());
    }
    let more = findings - most;
    let text = format!(in alloc; ".. and {more} more")?;
    lines.push(Line::new(Style::Plain, text))?;
    Ok(())
}

fn push_list(
    lines: &mut Vec<Line>,
    alloc: Global,
    tables: &Tables,
    list: &[Found],
    most: usize,
) -> Result<(), AllocError>
    ensures { OnOk result (Puts lines.old.items lines.new.items (spec.list_part most tables.now.tasks (map placed list.now))) }
{
    push_each(lines, alloc, tables, first_of(list, most))?;
    push_more(lines, alloc, most, list.len())?;
    Ok(())
}

// ---- nothing holds now

/// Whether one of them holds now.
pub(crate) fn any_now(list: &[Found]) -> bool
    ensures { result ≡ spec.any_now (map placed list.now) }
{
    for found in list {
        if found.finding.is_now {
            return true;
        }
    }
    false
}

fn put_unseen(out: &mut String, span: u64, long: u64) -> Result<(), AllocError>
    ensures { OnOk result (Puts (string_bytes out.old) (string_bytes out.new) (spec.unseen_text span long)) }
{
    put_text(
        out,
        "no finding now; who holds up others can't be seen: the lines span ",
    )?;
    put_duration(out, span)?;
    put_text(out, ", and it takes at least ")?;
    put_duration(out, long)?;
    Ok(())
}

fn earlier_text(findings: usize) -> &'static str
    ensures { result.now ≡ spec.earlier_text findings }
{
    if findings == 0 { " or earlier: " } else { ": " }
}

fn put_calm(out: &mut String, findings: usize, waiting: Waiting) -> Result<(), AllocError>
    ensures { OnOk result (Puts (string_bytes out.old) (string_bytes out.new) (spec.calm_text findings waiting)) }
{
    put_text(out, "no finding now")?;
    put_text(out, earlier_text(findings))?;
    put_waiting(out, waiting)?;
    Ok(())
}

fn put_calm_or_unseen(
    out: &mut String,
    span: u64,
    long: u64,
    findings: usize,
    waiting: Waiting,
) -> Result<(), AllocError>
    ensures { OnOk result (Puts (string_bytes out.old) (string_bytes out.new) (spec.seen_text span long findings waiting)) }
{
    if span < long {
        put_unseen(out, span, long)
    } else {
        put_calm(out, findings, waiting)
    }
}

fn put_none(out: &mut String, odd: &Odd, waiting: Waiting) -> Result<(), AllocError>
    ensures { OnOk result (Puts (string_bytes out.old) (string_bytes out.new) (spec.none_text odd.now waiting)) }
{
    let findings = odd.count();
    match odd.span() {
        Some(span) => put_calm_or_unseen(out, span, odd.long(), findings, waiting),
        None => put_text(out, "no line came: nothing is known of any task"),
    }
}

fn none_line(alloc: Global, tables: &Tables, odd: &Odd) -> Result<Line, AllocError>
    ensures { IfOk result (λ line. line ≡ spec.none_line tables.now odd.now) }
{
    let waiting = Waiting::of(tables);
    let mut text = String::new(alloc);
    put_none(&mut text, odd, waiting)?;
    Ok(Line::new(Style::Plain, text))
}

fn push_calm(
    lines: &mut Vec<Line>,
    alloc: Global,
    tables: &Tables,
    odd: &Odd,
) -> Result<(), AllocError>
    ensures { OnOk result (Puts lines.old.items lines.new.items (spec.calm_part tables.now odd.now)) }
{
    if any_now(odd.findings()) {
        return Ok(());
    }
    lines.push(none_line(alloc, tables, odd)?)?;
    Ok(())
}

/// Pushes what is told above tasks: that no finding holds now, where it is so; the first findings, as many as a third of the screen's rows; and how
/// many more there are.
pub(crate) fn push_findings(
    lines: &mut Vec<Line>,
    alloc: Global,
    canvas: Canvas,
    tables: &Tables,
    odd: &Odd,
) -> Result<(), AllocError>
    ensures { OnOk result (Puts lines.old.items lines.new.items (spec.findings_part canvas tables.now odd.now)) }
{
    push_calm(lines, alloc, tables, odd)?;
    push_list(lines, alloc, tables, odd.findings(), most_of(canvas))?;
    Ok(())
}

// ---- the findings about one place

fn put_whom(out: &mut String, victim: &Victim) -> Result<(), AllocError>
    ensures { OnOk result (Puts (string_bytes out.old) (string_bytes out.new) (spec.whom_text victim.now.place.items victim.now.time)) }
{
    put_text(out, "  waited longest for it, at least ")?;
    put_duration(out, victim.time)?;
    put_text(out, ": ")?;
    put_place(out, victim.place.as_slice())?;
    Ok(())
}

// Pushes who waited longest, if it is known.
fn push_whom(
    lines: &mut Vec<Line>,
    alloc: Global,
    victim: &Option<Victim>,
) -> Result<(), AllocError>
    ensures { OnOk result (Puts lines.old.items lines.new.items (spec.whom_part (victim_of victim.now))) }
{
    let Some(victim) = victim else {
        return Ok(());
    };
    let mut text = String::new(alloc);
    put_whom(&mut text, victim)?;
    lines.push(Line::new(Style::Plain, text))?;
    Ok(())
}

fn push_about(
    lines: &mut Vec<Line>,
    alloc: Global,
    tables: &Tables,
    number: u64,
    found: &Found,
) -> Result<(), AllocError>
    ensures { OnOk result (Puts lines.old.items lines.new.items (spec.about_lines tables.now.tasks number (told found.now))) }
{
    lines.push(finding_line(alloc, tables, number, found)?)?;
    lines.push(advice_line(alloc, found.finding.kind)?)?;
    push_whom(lines, alloc, &found.victim)?;
    Ok(())
}

fn push_own(
    lines: &mut Vec<Line>,
    alloc: Global,
    tables: &Tables,
    place: &[u8],
    number: u64,
    found: &Found,
) -> Result<(), AllocError>
    ensures { OnOk result (Puts lines.old.items lines.new.items (spec.own_lines tables.now.tasks place.now number (told found.now))) }
{
    if found.place.as_slice() == place {
        push_about(lines, alloc, tables, number, found)
    } else {
        Ok(())
    }
}

/// Pushes those of these findings that are about this place, each with its number, with what to do, and with who waited longest.
pub(crate) fn push_own_each(
    lines: &mut Vec<Line>,
    alloc: Global,
    tables: &Tables,
    place: &[u8],
    list: &[Found],
) -> Result<(), AllocError>
    ensures { OnOk result (Puts lines.old.items lines.new.items (spec.own_part tables.now.tasks place.now (map told list.now))) }
{
    for (i, found) in list.iter().enumerate() {
        push_own(lines, alloc, tables, place, i as u64 + 1, found)?;
    }
    Ok(())
}

/// Pushes the findings about a task's place, each with what to do.
pub(crate) fn push_owns(
    lines: &mut Vec<Line>,
    alloc: Global,
    tables: &Tables,
    odd: &Odd,
    task: &Task,
) -> Result<(), AllocError>
    ensures { OnOk result (Puts lines.old.items lines.new.items (spec.owns_part tables.now.tasks task.now odd.now)) }
{
    let place = place_of(alloc, &task.info)?;
    push_own_each(lines, alloc, tables, place.as_slice(), odd.findings())
}
