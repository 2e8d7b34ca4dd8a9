//! The line of a finding.
ghost use Rattle.std.specs.Prelude.{◌≡◌, IfOk, OnOk, string_bytes};
ghost use Rattle.std.specs.Option.{option_map};
ghost use Rattle.tk_odd.specs.Findings.{placed};
ghost use Rattle.tk_screen.specs.Texts.{Puts};
ghost use Rattle.tk_frame.specs.Findings as spec;

use crate::cells::{put_location, put_text, put_value, put_word};
use std::alloc::{AllocError, Global};
use std::fmt::Write;
use tk_ids::{Name, TaskId};
use tk_odd::{Finding, Found, OddKind, Shape};
use tk_screen::{Line, Style, put_duration, put_share};
use tk_stream::{Tables, Task};

// ---- who

// The task that a finding names, where it is still there.
fn task_of<'a>(tables: &'a Tables, finding: &Finding) -> Option<&'a Task>
    ensures { option_map (λ t. t.now) result ≡ spec.task_of tables.now.tasks finding.now }
{
    match finding.task {
        Some(id) => tables.task(id),
        None => None,
    }
}

fn put_task_words(out: &mut String, name: &Name, id: TaskId) -> Result<(), AllocError>
    ensures { OnOk result (Puts (string_bytes out.old) (string_bytes out.new) (spec.named_words name.now id)) }
{
    write!(out, "{name} {id}")
}

/// Puts bytes, where they are text.
pub(crate) fn put_place(out: &mut String, place: &[u8]) -> Result<(), AllocError>
    ensures { OnOk result (Puts (string_bytes out.old) (string_bytes out.new) (spec.place_words place.now)) }
{
    match str::from_utf8(place) {
        Ok(text) => put_text(out, text),
        Err(_) => Ok(()),
    }
}

fn put_no_task(out: &mut String, named: Option<TaskId>, place: &[u8]) -> Result<(), AllocError>
    ensures { OnOk result (Puts (string_bytes out.old) (string_bytes out.new) (spec.no_task named place.now)) }
{
    match named {
        Some(_) => put_place(out, place),
        None => put_text(out, "tasks"),
    }
}

// Puts who a finding is about.
fn put_who(
    out: &mut String,
    task: Option<&Task>,
    named: Option<TaskId>,
    place: &[u8],
) -> Result<(), AllocError>
    ensures { OnOk result (Puts (string_bytes out.old) (string_bytes out.new) (spec.who (option_map (λ t. t.now) task.entry) named place.now)) }
{
    match task {
        Some(task) => put_task_words(out, &task.info.name, task.info.id),
        None => put_no_task(out, named, place),
    }
}

// ---- what is said of them

fn put_timed(out: &mut String, words: &str, time: u64) -> Result<(), AllocError>
    ensures { OnOk result (Puts (string_bytes out.old) (string_bytes out.new) (spec.timed words.now time)) }
{
    put_text(out, words)?;
    put_duration(out, time)?;
    Ok(())
}

fn put_own_wakes(out: &mut String, own: u64, all: u64) -> Result<(), AllocError>
    ensures { OnOk result (Puts (string_bytes out.old) (string_bytes out.new) (spec.wakes_text own all)) }
{
    put_share(out, own, all)?;
    put_text(out, " of its wakes")?;
    Ok(())
}

fn put_figure_by(out: &mut String, shape: Shape, finding: &Finding) -> Result<(), AllocError>
    ensures { OnOk result (Puts (string_bytes out.old) (string_bytes out.new) (spec.figure_by shape finding.now)) }
{
    let figure = finding.figure;
    match shape {
        Shape::Held => put_timed(out, "who waited at least ", figure),
        Shape::Alone => put_timed(out, "at least ", figure),
        Shape::Stretch => put_timed(out, "for ", figure),
        Shape::Lasting => put_timed(out, "for ", figure),
        Shape::Longest => put_timed(out, "at least ", figure),
        Shape::Share => put_own_wakes(out, figure, finding.of),
    }
}

// Puts a finding's figure.
fn put_figure(out: &mut String, finding: &Finding) -> Result<(), AllocError>
    ensures { OnOk result (Puts (string_bytes out.old) (string_bytes out.new) (spec.figure_text finding.now)) }
{
    put_figure_by(out, finding.kind.shape(), finding)
}

fn put_said(
    out: &mut String,
    task: Option<&Task>,
    place: &[u8],
    finding: &Finding,
) -> Result<(), AllocError>
    ensures { OnOk result (Puts (string_bytes out.old) (string_bytes out.new) (spec.said_text (option_map (λ t. t.now) task.entry) place.now finding.now)) }
{
    put_who(out, task, finding.task, place)?;
    put_text(out, " ")?;
    put_text(out, finding.kind.said(finding.is_now))?;
    put_text(out, ", ")?;
    put_figure(out, finding)?;
    Ok(())
}

// ---- where it was made

fn put_made_at(out: &mut String, task: &Task) -> Result<(), AllocError>
    ensures { OnOk result (Puts (string_bytes out.old) (string_bytes out.new) (spec.made_at task.now)) }
{
    put_text(out, ", ")?;
    put_location(out, &task.info.location)?;
    Ok(())
}

fn put_made(out: &mut String, task: Option<&Task>) -> Result<(), AllocError>
    ensures { OnOk result (Puts (string_bytes out.old) (string_bytes out.new) (spec.made_text (option_map (λ t. t.now) task.entry))) }
{
    match task {
        Some(task) => put_made_at(out, task),
        None => Ok(()),
    }
}

// Puts a finding's name, and where its task was made.
fn put_source(out: &mut String, kind: OddKind, task: Option<&Task>) -> Result<(), AllocError>
    ensures { OnOk result (Puts (string_bytes out.old) (string_bytes out.new) (spec.source_text kind (option_map (λ t. t.now) task.entry))) }
{
    put_text(out, " (")?;
    put_text(out, kind.name())?;
    put_made(out, task)?;
    put_text(out, ")")?;
    Ok(())
}

// ---- its line

fn when_word(is_now: bool) -> &'static str
    ensures { result.now ≡ spec.when_word is_now }
{
    if is_now { "NOW" } else { "earlier" }
}

fn put_number(
    out: &mut String,
    room: &mut String,
    number: u64,
    is_now: bool,
) -> Result<(), AllocError>
    ensures { OnOk result (Puts (string_bytes out.old) (string_bytes out.new) (spec.number_text number is_now)) }
{
    put_value(out, room, &number, 2)?;
    put_word(out, when_word(is_now), 7)?;
    Ok(())
}

fn put_finding(
    out: &mut String,
    room: &mut String,
    number: u64,
    task: Option<&Task>,
    found: &Found,
) -> Result<(), AllocError>
    ensures { OnOk result (Puts (string_bytes out.old) (string_bytes out.new) (spec.finding_text number (option_map (λ t. t.now) task.entry) (placed found.now).0 (placed found.now).1)) }
{
    let Found { place, finding, .. } = found;
    put_number(out, room, number, finding.is_now)?;
    put_said(out, task, place.as_slice(), finding)?;
    put_source(out, finding.kind, task)?;
    Ok(())
}

fn text_of(alloc: Global, tables: &Tables, number: u64, found: &Found) -> Result<String, AllocError>
    ensures { IfOk result (λ text. string_bytes text
        ≡ spec.finding_text number (spec.task_of tables.now.tasks found.now.finding) (placed found.now).0 (placed found.now).1) }
{
    let task = task_of(tables, &found.finding);
    let mut text = String::new(alloc);
    let mut room = String::new(alloc);
    put_finding(&mut text, &mut room, number, task, found)?;
    Ok(text)
}

fn style_of(is_now: bool) -> Style
    ensures { result ≡ spec.style_of is_now }
{
    if is_now { Style::Warning } else { Style::Plain }
}

/// The line of the finding that stands at a number.
pub(crate) fn finding_line(
    alloc: Global,
    tables: &Tables,
    number: u64,
    found: &Found,
) -> Result<Line, AllocError>
    ensures { IfOk result (λ line. line ≡ spec.finding_line tables.now.tasks number (placed found.now)) }
{
    let text = text_of(alloc, tables, number, found)?;
    Ok(Line::new(style_of(found.finding.is_now), text))
}

fn put_advice(out: &mut String, kind: OddKind) -> Result<(), AllocError>
    ensures { OnOk result (Puts (string_bytes out.old) (string_bytes out.new) (spec.advice_text kind)) }
{
    put_text(out, "  ")?;
    put_text(out, kind.advice())?;
    Ok(())
}

/// The line of what to do about it.
pub(crate) fn advice_line(alloc: Global, kind: OddKind) -> Result<Line, AllocError>
    ensures { IfOk result (λ line. line ≡ spec.advice_line kind) }
{
    let mut text = String::new(alloc);
    put_advice(&mut text, kind)?;
    Ok(Line::new(Style::Plain, text))
}
