//! What is odd, in words with what to do.
ghost use Rattle.std.specs.Prelude.{◌≡◌, ◌-◌, ◌==◌, [], OnOk, Some, flat_map};
ghost use Rattle.std.specs.Option.{option_map};
ghost use Rattle.tk_odd.specs.Findings.{victim_of};
ghost use Rattle.tk_page.specs.Cards as spec;
ghost use Rattle.tk_page.specs.Courses.{courses_of};
ghost use Rattle.tk_paper.specs.Parts.{text};
ghost use Rattle.tk_paper.specs.Pieces.{Writes};

use crate::badges::{mark_of, start_section};
use crate::calm::put_nothing_odd;
use crate::facts::put_facts;
use crate::figures::{Scale, count};
use crate::history::History;
use crate::oddities::{CARDS, Signs};
use crate::resources::put_more;
use crate::waiting::any_waits_from_last_wake;
use std::alloc::AllocError;
use tk_ids::TaskId;
use tk_odd::{Finding, Found, OddKind, Victim};
use tk_paper::Part::{Class, Close, Count, End, Number, Open, Span, Start, Text, With, WithNumber};
use tk_paper::{Attr, Paper, Tag};
use tk_report::kind_word;
use tk_stream::{Tables, Task};

// ---- who

/// Puts a task's name, as a link to its row.
pub(crate) fn put_link(paper: &mut Paper, task: &Task) -> Result<(), AllocError>
    ensures { OnOk result (Writes paper.old paper.new (spec.link task.now)) }
{
    paper.put(&[
        Open(Tag::A),
        WithNumber(Attr::Href, task.info.id.value()),
        End,
        Text(task.info.name.as_str()),
        Close(Tag::A),
    ])
}

/// The task that a finding names, where it is still there.
pub(crate) fn task_of<'a>(tables: &'a Tables, finding: &Finding) -> Option<&'a Task>
    ensures { option_map (λ t. t.now) result ≡ spec.task_of tables.now.tasks finding.now }
{
    match finding.task {
        Some(id) => tables.task(id),
        None => None,
    }
}

// Puts who a finding is about that names no task, or one that has left.
fn put_no_task(paper: &mut Paper, named: Option<TaskId>) -> Result<(), AllocError>
    ensures { OnOk result (Writes paper.old paper.new (spec.no_task named)) }
{
    let Some(id) = named else {
        return paper.put(&[Text("Tasks")]);
    };
    let (recorder, number) = id.parts();
    paper.put(&[
        Text("A task that has left, "),
        Number(recorder),
        Text("."),
        Number(number),
    ])
}

/// Puts who a finding is about that names a task, which is there or not.
pub(crate) fn put_who(
    paper: &mut Paper,
    task: Option<&Task>,
    named: Option<TaskId>,
) -> Result<(), AllocError>
    ensures { OnOk result (Writes paper.old paper.new (spec.who (option_map (λ t. t.now) task.entry) named)) }
{
    match task {
        Some(task) => put_link(paper, task),
        None => put_no_task(paper, named),
    }
}

// Puts the place of a task that has left.
fn put_place(paper: &mut Paper, place: &[u8]) -> Result<(), AllocError>
    ensures { OnOk result (Writes paper.old paper.new (spec.place_of place.now)) }
{
    if place.is_empty() {
        return paper.put(&[]);
    }
    match str::from_utf8(place) {
        Ok(text) => paper.put(&[Text(" It was of this place: "), Text(text), Text(".")]),
        Err(_) => paper.put(&[]),
    }
}

// Puts where a task was made.
fn put_where(paper: &mut Paper, task: &Task) -> Result<(), AllocError>
    ensures { OnOk result (Writes paper.old paper.new (spec.made_at task.now)) }
{
    let location = &task.info.location;
    paper.put(&[
        Text(" It was made at "),
        Text(location.file.as_str()),
        Text(":"),
        Number(u64::from(location.line)),
        Text(":"),
        Number(u64::from(location.column)),
        Text(", kind "),
        Text(kind_word(task.info.kind)),
        Text("."),
    ])
}

/// Puts where a task was made, or the place of one that isn't there.
pub(crate) fn put_made(
    paper: &mut Paper,
    place: &[u8],
    task: Option<&Task>,
) -> Result<(), AllocError>
    ensures { OnOk result (Writes paper.old paper.new (spec.made place.now (option_map (λ t. t.now) task.entry))) }
{
    match task {
        Some(task) => put_where(paper, task),
        None => put_place(paper, place),
    }
}

// ---- a card

// Begins a card, and its head with the sign.
fn start_card(paper: &mut Paper, kind: OddKind) -> Result<(), AllocError>
    ensures { OnOk result (Writes paper.old paper.new (spec.start_card kind)) }
{
    let mark = mark_of(kind.sign());
    paper.put(&[
        Class(Tag::Li, mark.class),
        Start(Tag::H3),
        Open(Tag::Span),
        With(Attr::Class, "icon"),
        With(Attr::AriaHidden, "true"),
        End,
        Text(mark.icon),
        Close(Tag::Span),
        Text(" "),
    ])
}

fn end_card(paper: &mut Paper, kind: OddKind) -> Result<(), AllocError>
    ensures { OnOk result (Writes paper.old paper.new (spec.end_card kind)) }
{
    paper.put(&[
        Close(Tag::P),
        Class(Tag::P, "do"),
        Text("What to do: "),
        Text(kind.advice()),
        Text("."),
        Close(Tag::P),
        Close(Tag::Li),
    ])
}

// Puts what is said, and when it holds.
fn put_said(paper: &mut Paper, is_now: bool, kind: OddKind) -> Result<(), AllocError>
    ensures { OnOk result (Writes paper.old paper.new (spec.said is_now kind)) }
{
    paper.put(&[
        Text(" "),
        Text(kind.said(is_now)),
        Text(" "),
        Start(Tag::Small),
        Text(if is_now { "now" } else { "earlier" }),
        Close(Tag::Small),
        Close(Tag::H3),
        Start(Tag::P),
    ])
}

// Puts of how many tasks more of the place the same holds.
fn put_others(paper: &mut Paper, tasks: u64) -> Result<(), AllocError>
    ensures { OnOk result (Writes paper.old paper.new (spec.others tasks)) }
{
    if tasks > 1 {
        paper.put(&[
            Text(" The same holds of "),
            Count(tasks - 1),
            Text(" more of its place."),
        ])
    } else {
        paper.put(&[])
    }
}

// Puts who waited longest for it, and for how long.
fn put_victim(paper: &mut Paper, victim: &Victim) -> Result<(), AllocError>
    ensures { OnOk result (Writes paper.old paper.new (spec.whom (Some (victim.now.place.items, victim.now.time)))) }
{
    match str::from_utf8(&victim.place) {
        Ok(place) => paper.put(&[
            Text(" The largest part was waited by tasks of this place, at least "),
            Span(victim.time),
            Text(": "),
            Text(place),
            Text("."),
        ]),
        Err(_) => paper.put(&[]),
    }
}

fn put_whom(paper: &mut Paper, found: &Found) -> Result<(), AllocError>
    ensures { OnOk result (Writes paper.old paper.new (spec.whom (victim_of found.now.victim))) }
{
    match &found.victim {
        Some(victim) => put_victim(paper, victim),
        None => paper.put(&[]),
    }
}

// Puts the card of a finding.
fn put_card(
    paper: &mut Paper,
    scale: Scale,
    long: u64,
    tables: &Tables,
    found: &Found,
) -> Result<(), AllocError>
    ensures { OnOk result (Writes paper.old paper.new (spec.card scale long tables.now.tasks found.now)) }
{
    let finding = &found.finding;
    let (kind, is_now) = (finding.kind, finding.is_now);
    let task = task_of(tables, finding);
    start_card(paper, kind)?;
    put_who(paper, task, finding.task)?;
    put_said(paper, is_now, kind)?;
    put_facts(paper, scale, long, kind, finding)?;
    put_whom(paper, found)?;
    put_others(paper, finding.tasks)?;
    put_made(paper, found.place.as_slice(), task)?;
    end_card(paper, kind)?;
    Ok(())
}

// ---- all cards

fn put_cards(
    paper: &mut Paper,
    scale: Scale,
    long: u64,
    tables: &Tables,
    findings: &[Found],
) -> Result<(), AllocError>
    ensures { OnOk result (Writes paper.old paper.new (flat_map (spec.card scale long tables.now.tasks) findings.now)) }
{
    for found in findings {
        put_card(paper, scale, long, tables, found)?;
    }
    Ok(())
}

fn findings_word(n: u64) -> &'static str
    ensures { result.now ≡ spec.findings_word n }
{
    if n == 1 { " finding" } else { " findings" }
}

fn put_all_odd(
    paper: &mut Paper,
    scale: Scale,
    signs: &Signs,
    tables: &Tables,
) -> Result<(), AllocError>
    ensures { OnOk result (Writes paper.old paper.new (spec.all_odd scale signs.now tables.now.tasks)) }
{
    let all = signs.findings.as_slice().len();
    let many = count(all);
    paper.put(&[
        Class(Tag::Span, "count"),
        Count(many),
        Text(findings_word(many)),
        Close(Tag::Span),
        Close(Tag::H2),
        Class(Tag::Ul, "odd"),
    ])?;
    put_cards(paper, scale, signs.limits.long, tables, signs.carded())?;
    paper.put(&[Close(Tag::Ul)])?;
    put_more(paper, all, CARDS, " more")?;
    paper.put(&[Close(Tag::Section)])?;
    Ok(())
}

// ---- the section

fn put_what_is_odd(
    paper: &mut Paper,
    scale: Scale,
    signs: &Signs,
    history: &History,
    tables: &Tables,
) -> Result<(), AllocError>
    ensures { OnOk result (Writes paper.old paper.new (spec.what_is_odd scale signs.now (courses_of history.now) tables.now)) }
{
    if signs.findings.len() != 0 {
        return put_all_odd(paper, scale, signs, tables);
    }
    let time = tables.now().saturating_sub(history.first());
    let late = any_waits_from_last_wake(tables);
    put_nothing_odd(paper, time, signs.limits.long, history.last(), late)
}

/// Puts what is odd.
pub(crate) fn put_odd(
    paper: &mut Paper,
    scale: Scale,
    signs: &Signs,
    history: &History,
    tables: &Tables,
) -> Result<(), AllocError>
    ensures { OnOk result (Writes paper.old paper.new (spec.odd_section scale signs.now (courses_of history.now) tables.now)) }
{
    start_section(paper, "odd", "What is odd ")?;
    put_what_is_odd(paper, scale, signs, history, tables)?;
    Ok(())
}
