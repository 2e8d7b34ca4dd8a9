//! The lines of a report, each put after what is written.
ghost use Rattle.std.specs.Prelude.{◌≡◌, ◌++◌, ◌∷◌, [], codes, decimal, OnOk, IfSome, string_bytes};
ghost use Rattle.tk_report.specs.Pieces.{Puts, spaced};
ghost use Rattle.tk_core.specs.Task.{waited_of};
ghost use Rattle.tk_report.specs.Report as spec;

use crate::words::{kind_word, op_state, run_time, task_state};
use std::alloc::AllocError;
use std::fmt::{Display, Write};
use tk_client::{Warning, WarningKind};
use tk_core::{ResourceRow, TaskRow};
use tk_ids::{AttrInfo, AttrValue, Dropped, Name, TaskId};
use tk_stream::{Op, Resource, Tables, Task};

/// Puts a text and a value.
pub(crate) fn put<T: Display>(out: &mut String, before: &str, value: &T) -> Result<(), AllocError>
    ensures { OnOk result (IfSome (T.output value.now)
        (λ text. Puts (string_bytes out.old) (string_bytes out.new) (before.now ++ text))) }
{
    write!(out, "{before}{value}")
}

/// Ends a line.
pub(crate) fn put_end(out: &mut String) -> Result<(), AllocError>
    ensures { OnOk result (Puts (string_bytes out.old) (string_bytes out.new) (spec.rest_of_line [])) }
{
    out.push_str("\n")
}

/// The first line.
pub(crate) fn put_heading(out: &mut String, tables: &Tables) -> Result<(), AllocError>
    ensures { OnOk result (Puts (string_bytes out.old) (string_bytes out.new) (spec.heading tables.now)) }
{
    let now = tables.now();
    let Dropped {
        tasks,
        resources,
        ops,
    } = tables.dropped();
    writeln!(out, "now {now} dropped {tasks} {resources} {ops}")
}

fn put_waited(out: &mut String, row: &TaskRow) -> Result<(), AllocError>
    ensures { OnOk result (Puts (string_bytes out.old) (string_bytes out.new) (spaced (spec.waited_words (waited_of row.now)))) }
{
    match row.waits {
        Some(waits) => put(out, " waited ", &waits.total),
        None => Ok(()),
    }
}

/// Puts the line of a task after what is written, as a report has it. `AllocError`: there was no memory, and a front of the line may be there.
pub fn put_task(out: &mut String, task: &Task) -> Result<(), AllocError>
    ensures { OnOk result (Puts (string_bytes out.old) (string_bytes out.new) (spec.task_line task.now)) }
{
    let Task { info, row } = task;
    put(out, "task ", &info.id)?;
    put(out, " ", &kind_word(info.kind))?;
    put(out, " ", &task_state(row))?;
    put(out, " polls ", &row.polls)?;
    put(out, " wakes ", &row.wakes)?;
    put(out, " self ", &row.self_wakes)?;
    put(out, " clones ", &row.clones)?;
    put(out, " drops ", &row.drops)?;
    put(out, " busy ", &row.busy)?;
    put(out, " sched ", &row.sched)?;
    put_waited(out, row)?;
    put(out, " name ", &info.name)?;
    put_end(out)?;
    Ok(())
}

fn put_value(out: &mut String, value: AttrValue) -> Result<(), AllocError>
    ensures { OnOk result (Puts (string_bytes out.old) (string_bytes out.new) (32 ∷ spec.value_word value)) }
{
    match value {
        AttrValue::U64(number) => write!(out, " {number}"),
        AttrValue::Bool(true) => out.push_str(" true"),
        AttrValue::Bool(false) => out.push_str(" false"),
        AttrValue::I64(number) => write!(out, " {number}"),
    }
}

fn put_unit(out: &mut String, unit: &Option<Name>) -> Result<(), AllocError>
    ensures { OnOk result (Puts (string_bytes out.old) (string_bytes out.new) (spec.rest_of_line (spec.unit_words unit.now))) }
{
    match unit {
        Some(unit) => writeln!(out, " {unit}"),
        None => put_end(out),
    }
}

fn put_attr(out: &mut String, attr: &AttrInfo, value: AttrValue) -> Result<(), AllocError>
    ensures { OnOk result (Puts (string_bytes out.old) (string_bytes out.new) (spec.attr_line (attr.now, value))) }
{
    put(out, "  ", &attr.name)?;
    out.push_str(" =")?;
    put_value(out, value)?;
    put_unit(out, &attr.unit)?;
    Ok(())
}

// An item declares at most six attributes.
fn put_attrs(out: &mut String, attrs: &[AttrInfo], values: &[AttrValue]) -> Result<(), AllocError>
    ensures { OnOk result (Puts (string_bytes out.old) (string_bytes out.new)
        (spec.attr_lines attrs.now values.now)) }
{
    let [attr, attrs @ ..] = attrs else {
        return Ok(());
    };
    let [value, values @ ..] = values else {
        return Ok(());
    };
    put_attr(out, attr, *value)?;
    put_attrs(out, attrs, values)?;
    Ok(())
}

fn resource_state(row: &ResourceRow) -> &'static str
    ensures { result.now ≡ spec.resource_state row.now }
{
    if row.dropped.is_some() {
        "closed"
    } else {
        "live"
    }
}

/// The lines of a resource, of whose poll operations so many were ready, and so many pending.
pub(crate) fn put_resource(
    out: &mut String,
    resource: &Resource,
    polls: (u64, u64),
) -> Result<(), AllocError>
    ensures { OnOk result (Puts (string_bytes out.old) (string_bytes out.new)
        (spec.resource_line polls resource.now ++ spec.attr_lines resource.now.info.attrs resource.now.row.attrs)) }
{
    put_resource_line(out, resource, polls)?;
    put_attrs(
        out,
        resource.info.attrs.as_slice(),
        resource.row.attrs.list().as_slice(),
    )?;
    Ok(())
}

fn put_resource_line(
    out: &mut String,
    resource: &Resource,
    polls: (u64, u64),
) -> Result<(), AllocError>
    ensures { OnOk result (Puts (string_bytes out.old) (string_bytes out.new) (spec.resource_line polls resource.now)) }
{
    let Resource { info, row } = resource;
    put(out, "resource ", &info.id)?;
    put(out, " ", &resource_state(row))?;
    put(out, " ready ", &polls.0)?;
    put(out, " pending ", &polls.1)?;
    put(out, " type ", &info.concrete)?;
    put(out, " kind ", &info.kind)?;
    put_end(out)?;
    Ok(())
}

fn put_polled_by(out: &mut String, task: Option<TaskId>) -> Result<(), AllocError>
    ensures { OnOk result (Puts (string_bytes out.old) (string_bytes out.new) (codes " task " ++ spec.polled_by task)) }
{
    match task {
        Some(task) => write!(out, " task {task}"),
        None => out.push_str(" task -"),
    }
}

/// The lines of an async operation.
pub(crate) fn put_op(out: &mut String, op: &Op) -> Result<(), AllocError>
    ensures { OnOk result (Puts (string_bytes out.old) (string_bytes out.new) (spec.op_lines op.now)) }
{
    put_op_line(out, op)?;
    put_attrs(
        out,
        op.info.attrs.as_slice(),
        op.row.attrs.list().as_slice(),
    )?;
    Ok(())
}

fn put_op_line(out: &mut String, op: &Op) -> Result<(), AllocError>
    ensures { OnOk result (Puts (string_bytes out.old) (string_bytes out.new) (spec.op_line op.now)) }
{
    let Op { info, row } = op;
    put(out, "op ", &info.id)?;
    put(out, " ", &op_state(row))?;
    put(out, " polls ", &row.polls)?;
    put(out, " busy ", &row.busy)?;
    put_polled_by(out, row.task)?;
    put(out, " resource ", &info.resource)?;
    put(out, " source ", &info.source)?;
    put_end(out)?;
    Ok(())
}

fn put_run_time(out: &mut String, time: u64) -> Result<(), AllocError>
    ensures { OnOk result (Puts (string_bytes out.old) (string_bytes out.new)
        (spec.rest_of_line (codes "never-yielded" ∷ decimal time ∷ []))) }
{
    writeln!(out, " never-yielded {time}")
}

fn put_oddity(
    out: &mut String,
    now: u64,
    row: &TaskRow,
    kind: WarningKind,
) -> Result<(), AllocError>
    ensures { OnOk result (Puts (string_bytes out.old) (string_bytes out.new) (spec.rest_of_line (spec.oddity now row.now kind))) }
{
    match kind {
        WarningKind::SelfWakes => {
            let (own, all) = (row.self_wakes, row.wakes);
            writeln!(out, " self-wakes {own} of {all}")
        }
        WarningKind::LostWaker => out.push_str(" lost-waker\n"),
        WarningKind::NeverYielded => put_run_time(out, run_time(now, row.last_started)),
    }
}

fn put_warning_of(
    out: &mut String,
    now: u64,
    row: &TaskRow,
    warning: &Warning,
) -> Result<(), AllocError>
    ensures { OnOk result (Puts (string_bytes out.old) (string_bytes out.new) (spec.warn_line_of now row.now warning.now)) }
{
    put(out, "warn ", &warning.task)?;
    put_oddity(out, now, row, warning.kind)?;
    Ok(())
}

/// The line of a warning about a task of the tables.
pub(crate) fn put_warning(
    out: &mut String,
    tables: &Tables,
    warning: &Warning,
) -> Result<(), AllocError>
    ensures { OnOk result (Puts (string_bytes out.old) (string_bytes out.new) (spec.warn_line tables.now warning.now)) }
{
    match tables.task(warning.task) {
        Some(task) => put_warning_of(out, tables.now(), &task.row, warning),
        None => Ok(()),
    }
}
