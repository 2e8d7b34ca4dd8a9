//! The lines of resources and async operations.
ghost use Rattle.std.specs.Prelude.{◌≡◌, IfOk, OnOk, string_bytes};
ghost use Rattle.tk_report.specs.Report.{polled_by};
ghost use Rattle.tk_screen.specs.Texts.{Puts};
ghost use Rattle.tk_frame.specs.Lines as spec;

use crate::cells::{put_cell, put_location, put_time, put_value, put_word};
use std::alloc::{AllocError, Global};
use std::fmt::Write;
use tk_ids::{Name, TaskId};
use tk_report::op_state;
use tk_screen::{Line, Style};
use tk_stream::{Op, Resource};

/// The columns of resources.
pub(crate) fn resource_heading() -> &'static str
    ensures { result.now ≡ spec.resource_heading }
{
    "RESOURCE    READY  PENDING TYPE (KIND) LOCATION"
}

/// Puts a resource's type, and what it is for.
pub(crate) fn put_type(out: &mut String, concrete: &Name, kind: &Name) -> Result<(), AllocError>
    ensures { OnOk result (Puts (string_bytes out.old) (string_bytes out.new) (spec.type_text concrete.now kind.now)) }
{
    write!(out, "{concrete} ({kind}) ")
}

fn put_resource(
    out: &mut String,
    room: &mut String,
    resource: &Resource,
    polls: (u64, u64),
) -> Result<(), AllocError>
    ensures { OnOk result (Puts (string_bytes out.old) (string_bytes out.new) (spec.resource_text polls resource.now)) }
{
    let info = &resource.info;
    put_value(out, room, &info.id, 8)?;
    put_value(out, room, &polls.0, 8)?;
    put_value(out, room, &polls.1, 8)?;
    put_type(out, &info.concrete, &info.kind)?;
    put_location(out, &info.location)?;
    Ok(())
}

/// The line of a resource, of whose poll operations so many were ready and so many pending.
pub(crate) fn resource_line(
    alloc: Global,
    resource: &Resource,
    polls: (u64, u64),
) -> Result<Line, AllocError>
    ensures { IfOk result (λ line. line ≡ spec.plain (spec.resource_text polls resource.now)) }
{
    let mut text = String::new(alloc);
    let mut room = String::new(alloc);
    put_resource(&mut text, &mut room, resource, polls)?;
    Ok(Line::new(Style::Plain, text))
}

/// The columns of async operations.
pub(crate) fn op_heading() -> &'static str
    ensures { result.now ≡ spec.op_heading }
{
    "OPERATION STATE      POLLS      BUSY     TASK RESOURCE SOURCE"
}

// The task that polls an operation.
fn put_task(
    out: &mut String,
    room: &mut String,
    task: Option<TaskId>,
    width: usize,
) -> Result<(), AllocError>
    ensures { OnOk result (Puts (string_bytes out.old) (string_bytes out.new) (spec.cell width (polled_by task))) }
{
    match task {
        Some(task) => put_value(out, room, &task, width),
        None => put_cell(out, "-", width),
    }
}

fn put_op(out: &mut String, room: &mut String, op: &Op, now: u64) -> Result<(), AllocError>
    ensures { OnOk result (Puts (string_bytes out.old) (string_bytes out.new) (spec.op_text now op.now)) }
{
    let Op { info, row } = op;
    let busy = row.busy_until(now);
    put_value(out, room, &info.id, 9)?;
    put_word(out, op_state(row), 7)?;
    put_value(out, room, &row.polls, 8)?;
    put_time(out, room, busy, 9)?;
    put_task(out, room, row.task, 8)?;
    put_value(out, room, &info.resource, 8)?;
    out.push_str(info.source.as_str())?;
    Ok(())
}

/// The line of an async operation.
pub(crate) fn op_line(alloc: Global, op: &Op, now: u64) -> Result<Line, AllocError>
    ensures { IfOk result (λ line. line ≡ spec.plain (spec.op_text now op.now)) }
{
    let mut text = String::new(alloc);
    let mut room = String::new(alloc);
    put_op(&mut text, &mut room, op, now)?;
    Ok(Line::new(Style::Plain, text))
}
