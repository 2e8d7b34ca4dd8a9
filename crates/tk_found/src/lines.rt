//! The lines of findings, each put after what is written.
ghost use Rattle.std.specs.Prelude.{◌≡◌, ◌∷◌, ◌++◌, [], Some, codes, decimal, map, IfOk, OnOk, string_bytes};
ghost use Rattle.tk_ids.specs.Ids.{id_text};
ghost use Rattle.tk_odd.specs.Findings.{placed, told, victim_of};
ghost use Rattle.tk_odd.specs.Words.{name_of, shape_of, when_word};
ghost use Rattle.tk_report.specs.Pieces.{Puts, spaced};
ghost use Rattle.tk_report.specs.Report.{rest_of_line};
ghost use Rattle.tk_found.specs.Lines as spec;

use std::alloc::{AllocError, Global};
use tk_ids::TaskId;
use tk_odd::{Finding, Found, Shape, Victim, when_word};

fn put(out: &mut Vec<u8>, text: &[u8]) -> Result<(), AllocError>
    ensures { OnOk result (Puts out.old.items out.new.items text.now) }
{
    out.extend_from_slice(text)
}

// What stands before the numbers of a finding.
fn head_of(alloc: Global, number: u64, finding: &Finding) -> Result<String, AllocError>
    ensures { IfOk result (λ text. string_bytes text
        ≡ codes "finding" ++ spaced (decimal number ∷ name_of finding.now.kind ∷ when_word finding.now.is_now ∷ [])) }
{
    let name = finding.kind.name();
    let when = when_word(finding.is_now);
    format!(in alloc; "finding {number} {name} {when}")
}

fn held_words(alloc: Global, finding: &Finding) -> Result<String, AllocError>
    ensures { IfOk result (λ text. string_bytes text ≡ spaced (spec.figures_of Shape.Held finding.now)) }
{
    let Finding {
        figure,
        still,
        longest,
        since,
        until,
        tasks,
        ..
    } = *finding;
    format!(in alloc;
        " held {figure} alone {still} longest {longest} since {since} until {until} tasks {tasks}"
    )
}

fn stretch_words(alloc: Global, finding: &Finding) -> Result<String, AllocError>
    ensures { IfOk result (λ text. string_bytes text ≡ spaced (spec.figures_of Shape.Stretch finding.now)) }
{
    let Finding {
        figure,
        since,
        until,
        ..
    } = *finding;
    format!(in alloc; " for {figure} since {since} until {until}")
}

fn lasting_words(alloc: Global, finding: &Finding) -> Result<String, AllocError>
    ensures { IfOk result (λ text. string_bytes text ≡ spaced (spec.figures_of Shape.Lasting finding.now)) }
{
    let Finding { figure, tasks, .. } = *finding;
    format!(in alloc; " for {figure} tasks {tasks}")
}

fn still_words(alloc: Global, finding: &Finding) -> Result<String, AllocError>
    ensures { IfOk result (λ text. string_bytes text ≡ spaced (spec.figures_of Shape.Alone finding.now)) }
{
    let Finding {
        figure,
        longest,
        ..
    } = *finding;
    format!(in alloc; " alone {figure} longest {longest}")
}

fn longest_word(alloc: Global, finding: &Finding) -> Result<String, AllocError>
    ensures { IfOk result (λ text. string_bytes text ≡ spaced (spec.figures_of Shape.Longest finding.now)) }
{
    let figure = finding.figure;
    format!(in alloc; " longest {figure}")
}

fn wakes_words(alloc: Global, finding: &Finding) -> Result<String, AllocError>
    ensures { IfOk result (λ text. string_bytes text ≡ spaced (spec.figures_of Shape.Share finding.now)) }
{
    let Finding {
        figure,
        of,
        tasks,
        ..
    } = *finding;
    format!(in alloc; " own {figure} of {of} tasks {tasks}")
}

// The numbers of a finding, each after its word.
fn figures_of(alloc: Global, finding: &Finding) -> Result<String, AllocError>
    ensures { IfOk result (λ text. string_bytes text ≡ spaced (spec.figures_of (shape_of finding.now.kind) finding.now)) }
{
    match finding.kind.shape() {
        Shape::Held => held_words(alloc, finding),
        Shape::Alone => still_words(alloc, finding),
        Shape::Stretch => stretch_words(alloc, finding),
        Shape::Lasting => lasting_words(alloc, finding),
        Shape::Longest => longest_word(alloc, finding),
        Shape::Share => wakes_words(alloc, finding),
    }
}

fn task_word(alloc: Global, task: TaskId) -> Result<String, AllocError>
    ensures { IfOk result (λ text. string_bytes text ≡ spaced (codes "task" ∷ id_text task ∷ codes "kind" ∷ [])) }
{
    format!(in alloc; " task {task} kind")
}

// The task to look at, and its place; and the line's end.
fn put_task(
    out: &mut Vec<u8>,
    alloc: Global,
    task: Option<TaskId>,
    place: &[u8],
) -> Result<(), AllocError>
    ensures { OnOk result (Puts out.old.items out.new.items (rest_of_line (spec.task_words task place.now))) }
{
    if let Some(task) = task {
        put(out, task_word(alloc, task)?.as_bytes())?;
        put(out, b" ")?;
        put(out, place)?;
    }
    put(out, b"\n")
}

fn put_finding(
    out: &mut Vec<u8>,
    alloc: Global,
    number: u64,
    found: &Found,
) -> Result<(), AllocError>
    ensures { OnOk result (Puts out.old.items out.new.items (spec.finding_line number (placed found.now))) }
{
    let Found { place, finding, .. } = found;
    put(out, head_of(alloc, number, finding)?.as_bytes())?;
    put(out, figures_of(alloc, finding)?.as_bytes())?;
    put_task(out, alloc, finding.task, place)
}

fn time_word(alloc: Global, time: u64) -> Result<String, AllocError>
    ensures { IfOk result (λ text. string_bytes text ≡ codes "  whom" ++ spaced (decimal time ∷ codes "kind" ∷ [])) }
{
    format!(in alloc; "  whom {time} kind")
}

fn put_victim(out: &mut Vec<u8>, alloc: Global, victim: &Victim) -> Result<(), AllocError>
    ensures { OnOk result (Puts out.old.items out.new.items (spec.whom_line (Some (victim.now.place.items, victim.now.time)))) }
{
    put(out, time_word(alloc, victim.time)?.as_bytes())?;
    put(out, b" ")?;
    put(out, &victim.place)?;
    put(out, b"\n")?;
    Ok(())
}

// Who waited longest for it.
fn put_whom(out: &mut Vec<u8>, alloc: Global, found: &Found) -> Result<(), AllocError>
    ensures { OnOk result (Puts out.old.items out.new.items (spec.whom_line (victim_of found.now.victim))) }
{
    match &found.victim {
        Some(victim) => put_victim(out, alloc, victim),
        None => put(out, b""),
    }
}

// A finding, and below it who waited for it.
fn put_found(out: &mut Vec<u8>, alloc: Global, number: u64, found: &Found) -> Result<(), AllocError>
    ensures { OnOk result (Puts out.old.items out.new.items (spec.lines_at number (told found.now))) }
{
    put_finding(out, alloc, number, found)?;
    put_whom(out, alloc, found)?;
    Ok(())
}

/// The lines of findings, in their order.
pub(crate) fn put_findings(
    out: &mut Vec<u8>,
    alloc: Global,
    list: &[Found],
) -> Result<(), AllocError>
    ensures { OnOk result (Puts out.old.items out.new.items (spec.finding_lines (map told list.now))) }
{
    for (i, found) in list.iter().enumerate() {
        put_found(out, alloc, i as u64 + 1, found)?;
    }
    Ok(())
}
