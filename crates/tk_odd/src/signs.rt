//! What is odd about tasks in themselves.
ghost use Rattle.std.specs.Prelude.{◌≡◌, OnOk, IfOk, slice_get};
ghost use Rattle.std.specs.Option.{option_map_or};
ghost use Rattle.tk_odd.specs.Findings as spec;

use crate::finding::{Finding, OddKind};
use crate::gain::waits;
use crate::limits::Limits;
use crate::place::place_of;
use crate::places::is_among;
use std::alloc::{AllocError, Global};
use tk_client::{has_lost_waker, has_never_yielded, is_spawn, wakes_itself};
use tk_core::TaskRow;
use tk_series::Series;
use tk_stream::{Tables, Task};

/// What is looked at: the limits, the moment, and who was passed over.
#[derive(Clone, Copy)]
pub(crate) struct Look<'a> {
    pub limits: Limits,
    pub moment: u64,
    pub passed: &'a [u64],
}

fn is_never_polled(limit: u64, now: u64, row: &TaskRow) -> bool
    ensures { result ≡ spec.is_never_polled limit now row.now }
{
    row.scheduled && row.polls == 0 && limit <= now.saturating_sub(row.created)
}

fn is_still_passed(passed: &[u64], task: &Task) -> bool
    ensures { result ≡ spec.is_still_passed passed.now task.now }
{
    waits(&task.row) && is_among(passed, task.info.id.value())
}

fn found(kind: OddKind, task: &Task, figure: u64, of: u64, since: u64) -> Finding
    ensures { result ≡ spec.found kind task.now figure of since }
{
    Finding {
        kind,
        is_now: true,
        task: Some(task.info.id),
        figure,
        still: 0,
        longest: 0,
        of,
        since,
        until: 0,
        tasks: 1,
    }
}

fn label_of(alloc: Global, kind: OddKind, task: &Task) -> Result<Vec<u8>, AllocError>
    ensures { IfOk result (λ label. label.items ≡ spec.label_of kind task.now) }
{
    let place = place_of(alloc, &task.info)?;
    let mut label = Vec::from_slice(alloc, kind.name().as_bytes())?;
    label.push(b' ')?;
    label.extend_from_slice(&place)?;
    Ok(label)
}

// Adds what is found about a task, where it holds.
fn add_sign(
    signs: &mut Series<Finding>,
    alloc: Global,
    task: &Task,
    holds: bool,
    finding: Finding,
) -> Result<(), AllocError>
    ensures { OnOk result (signs.new ≡ spec.with_sign task.now signs.old (holds, finding)) }
{
    if holds {
        signs.add(label_of(alloc, finding.kind, task)?, finding)
    } else {
        Ok(())
    }
}

fn add_never_yielded(
    signs: &mut Series<Finding>,
    alloc: Global,
    look: &Look<'_>,
    task: &Task,
) -> Result<(), AllocError>
    ensures { OnOk result (signs.new ≡ spec.with_sign task.now signs.old (spec.never_yielded look.now.limits look.now.moment task.now)) }
{
    let limit = look.limits.lints.never_yielded_ns();
    let holds = has_never_yielded(limit, look.moment, &task.row);
    let run = task.row.runs_for(look.moment);
    let since = look.moment.saturating_sub(run);
    add_sign(
        signs,
        alloc,
        task,
        holds,
        found(OddKind::NeverYielded, task, run, 0, since),
    )
}

fn add_lost_waker(
    signs: &mut Series<Finding>,
    alloc: Global,
    look: &Look<'_>,
    task: &Task,
) -> Result<(), AllocError>
    ensures { OnOk result (signs.new ≡ spec.with_sign task.now signs.old (spec.lost_waker look.now.moment task.now)) }
{
    let holds = has_lost_waker(&task.row);
    let since = match task.row.last_ended {
        Some(moment) => moment,
        None => task.row.created,
    };
    let idle = look.moment.saturating_sub(since);
    add_sign(
        signs,
        alloc,
        task,
        holds,
        found(OddKind::LostWaker, task, idle, 0, since),
    )
}

fn add_passed_over(
    signs: &mut Series<Finding>,
    alloc: Global,
    look: &Look<'_>,
    task: &Task,
) -> Result<(), AllocError>
    ensures { OnOk result (signs.new ≡ spec.with_sign task.now signs.old (spec.passed_over look.now.moment look.now.passed.now task.now)) }
{
    let holds = is_still_passed(look.passed, task);
    let waited = task.row.waits_for(look.moment);
    let since = look.moment.saturating_sub(waited);
    add_sign(
        signs,
        alloc,
        task,
        holds,
        found(OddKind::PassedOver, task, waited, 0, since),
    )
}

fn add_never_polled(
    signs: &mut Series<Finding>,
    alloc: Global,
    look: &Look<'_>,
    task: &Task,
) -> Result<(), AllocError>
    ensures { OnOk result (signs.new ≡ spec.with_sign task.now signs.old (spec.never_polled look.now.limits look.now.moment look.now.passed.now task.now)) }
{
    let limit = look.limits.lints.never_yielded_ns();
    let passed = is_still_passed(look.passed, task);
    let holds = is_never_polled(limit, look.moment, &task.row) && !passed;
    let since = task.row.created;
    let waited = look.moment.saturating_sub(since);
    add_sign(
        signs,
        alloc,
        task,
        holds,
        found(OddKind::NeverPolled, task, waited, 0, since),
    )
}

fn add_self_wakes(
    signs: &mut Series<Finding>,
    alloc: Global,
    look: &Look<'_>,
    task: &Task,
) -> Result<(), AllocError>
    ensures { OnOk result (signs.new ≡ spec.with_sign task.now signs.old (spec.self_waking look.now.limits task.now)) }
{
    let row = &task.row;
    let holds = wakes_itself(look.limits.lints.self_wake_percent(), row);
    let (own, all, since) = (row.self_wakes, row.wakes, row.created);
    add_sign(
        signs,
        alloc,
        task,
        holds,
        found(OddKind::SelfWakes, task, own, all, since),
    )
}

// Adds what is odd about a task.
fn add_task(
    signs: &mut Series<Finding>,
    alloc: Global,
    look: &Look<'_>,
    task: &Task,
) -> Result<(), AllocError>
    ensures { OnOk result (signs.new ≡ spec.with_task_signs look.now.limits look.now.moment look.now.passed.now signs.old task.now) }
{
    if !is_spawn(task.info.kind) {
        return Ok(());
    }
    add_never_yielded(signs, alloc, look, task)?;
    add_lost_waker(signs, alloc, look, task)?;
    add_passed_over(signs, alloc, look, task)?;
    add_never_polled(signs, alloc, look, task)?;
    add_self_wakes(signs, alloc, look, task)
}

fn add_task_at(
    signs: &mut Series<Finding>,
    alloc: Global,
    look: &Look<'_>,
    tables: &Tables,
    place: usize,
) -> Result<(), AllocError>
    ensures { OnOk result (signs.new ≡ option_map_or (λ t. spec.with_task_signs look.now.limits look.now.moment look.now.passed.now signs.old t)
        (slice_get tables.now.tasks place) signs.old) }
{
    match tables.task_at(place) {
        Some(task) => add_task(signs, alloc, look, task),
        None => Ok(()),
    }
}

/// What is odd about the tasks of tables in themselves: the same about tasks of one place is one finding.
pub(crate) fn signs_of(
    alloc: Global,
    look: &Look<'_>,
    tables: &Tables,
) -> Result<Series<Finding>, AllocError>
    ensures { IfOk result (λ signs. signs ≡ spec.of_tasks look.now.limits look.now.moment look.now.passed.now tables.now.tasks) }
{
    let mut signs = Series::new(alloc);
    for place in 0..tables.task_count() {
        add_task_at(&mut signs, alloc, look, tables, place)?;
    }
    Ok(signs)
}
