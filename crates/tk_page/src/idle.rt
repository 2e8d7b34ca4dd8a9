//! What idle tasks wait for: operations that they polled, each on a resource.
ghost use Rattle.std.specs.Prelude.{◌≡◌, ◌==◌, [], false, OnOk, IfOk, map, filter, flat_map};
ghost use Rattle.std.specs.Option.{option_map, option_map_or};
ghost use Rattle.tk_page.specs.Idle as spec;
ghost use Rattle.tk_paper.specs.Pieces.{Writes};
ghost use Rattle.tk_stream.specs.Tables.{resource_with, task_with};

use crate::cards::put_link;
use crate::figures::{Scale, front};
use crate::resources::put_more;
use crate::values::{put_unit, put_value};
use std::alloc::{AllocError, Global};
use tk_core::{OpRow, TaskRow};
use tk_ids::{AttrInfo, AttrValue, ResourceId, TaskId};
use tk_paper::Part::{Class, Close, Number, Span, Text};
use tk_paper::{Paper, Tag};
use tk_stream::{Op, Resource, Tables, Task};

// How many operations of a task are shown, and how many tasks of a resource.
const SHOWN: usize = 5;

// ---- who waits where

// Whether a task is idle: open, and neither scheduled nor running.
fn is_idle(row: &TaskRow) -> bool
    ensures { result ≡ spec.is_idle row.now }
{
    row.dropped.is_none() && !row.polling && !row.scheduled
}

// Whether an operation was polled, is open, and no poll of it lasts.
fn is_pending(row: &OpRow) -> bool
    ensures { result ≡ spec.is_pending row.now }
{
    row.dropped.is_none() && !row.polling && row.first_poll.is_some()
}

// Whether a task polls an operation.
fn is_polled_by(op: &Op, id: TaskId) -> bool
    ensures { result ≡ option_map_or (λ n. n == id) op.now.row.task false }
{
    match op.row.task {
        Some(task) => task.value() == id.value(),
        None => false,
    }
}

// Whether a task waits in an operation, if it is idle.
fn is_awaited_by(op: &Op, task: &Task) -> bool
    ensures { result ≡ spec.is_awaited_by task.now op.now }
{
    is_pending(&op.row) && is_polled_by(op, task.info.id)
}

// The task with an id, if it is idle.
fn idle_task<'a>(tables: &'a Tables, id: TaskId) -> Option<&'a Task>
    ensures { option_map (λ t. t.now) result ≡ spec.if_idle (task_with id tables.now.tasks) }
{
    match tables.task(id) {
        Some(task) => { if is_idle(&task.row) { Some(task) } else { None } }
        None => None,
    }
}

// The idle task that polls an operation, if there is one.
fn poller_of<'a>(tables: &'a Tables, task: Option<TaskId>) -> Option<&'a Task>
    ensures { option_map (λ t. t.now) result ≡ spec.idle_task tables.now.tasks task }
{
    match task {
        Some(id) => idle_task(tables, id),
        None => None,
    }
}

// The idle task that waits in an operation, if one does.
fn waiter_of<'a>(tables: &'a Tables, op: &Op) -> Option<&'a Task>
    ensures { option_map (λ t. t.now) result ≡ spec.waiter_of tables.now.tasks op.now }
{
    if is_pending(&op.row) {
        poller_of(tables, op.row.task)
    } else {
        None
    }
}

// Whether an idle task waits for a resource in an operation.
fn waits_at(tables: &Tables, resource: &Resource, op: &Op) -> bool
    ensures { result ≡ spec.waits_at tables.now.tasks resource.now op.now }
{
    op.info.resource.value() == resource.info.id.value() && waiter_of(tables, op).is_some()
}

// The operations in which a task waits, if it is idle, in table order.
fn find_awaited<'a>(
    alloc: Global,
    tables: &'a Tables,
    task: &Task,
) -> Result<Vec<&'a Op>, AllocError>
    ensures { IfOk result (λ found. map (λ o. o.now) found.items ≡ filter (spec.is_awaited_by task.now) tables.now.ops) }
{
    let mut found = Vec::new(alloc);
    for place in 0..tables.op_count() {
        if let Some(op) = tables.op_at(place) {
            if is_awaited_by(op, task) {
                found.push(op)?;
            }
        }
    }
    Ok(found)
}

// The operations in which idle tasks wait for a resource, in table order.
fn find_waits<'a>(
    alloc: Global,
    tables: &'a Tables,
    resource: &Resource,
) -> Result<Vec<&'a Op>, AllocError>
    ensures { IfOk result (λ found. map (λ o. o.now) found.items ≡ filter (spec.waits_at tables.now.tasks resource.now) tables.now.ops) }
{
    let mut found = Vec::new(alloc);
    for place in 0..tables.op_count() {
        if let Some(op) = tables.op_at(place) {
            if waits_at(tables, resource, op) {
                found.push(op)?;
            }
        }
    }
    Ok(found)
}

// ---- how it is said

// Puts an attribute with its value after a comma.
fn put_short_attr(paper: &mut Paper, attr: &AttrInfo, value: AttrValue) -> Result<(), AllocError>
    ensures { OnOk result (Writes paper.old paper.new (spec.short_attr (attr.now, value))) }
{
    paper.put(&[Text(", "), Text(attr.name.as_str()), Text(" ")])?;
    put_value(paper, value)?;
    put_unit(paper, &attr.unit)?;
    Ok(())
}

// An item declares at most six attributes.
fn put_short_attrs(
    paper: &mut Paper,
    attrs: &[AttrInfo],
    values: &[AttrValue],
) -> Result<(), AllocError>
    ensures { OnOk result (Writes paper.old paper.new (spec.short_attrs attrs.now values.now)) }
{
    let [attr, attrs @ ..] = attrs else {
        return paper.put(&[]);
    };
    let [value, values @ ..] = values else {
        return paper.put(&[]);
    };
    put_short_attr(paper, attr, *value)?;
    put_short_attrs(paper, attrs, values)?;
    Ok(())
}

// Puts in which operation: its source, and its attributes.
fn put_in_op(paper: &mut Paper, op: &Op) -> Result<(), AllocError>
    ensures { OnOk result (Writes paper.old paper.new (spec.in_op op.now)) }
{
    paper.put(&[Text("in "), Text(op.info.source.as_str())])?;
    put_short_attrs(
        paper,
        op.info.attrs.as_slice(),
        op.row.attrs.list().as_slice(),
    )?;
    Ok(())
}

// Puts a resource with its attributes.
fn put_used(paper: &mut Paper, resource: &Resource) -> Result<(), AllocError>
    ensures { OnOk result (Writes paper.old paper.new (spec.used resource.now)) }
{
    let info = &resource.info;
    let (recorder, number) = info.id.parts();
    paper.put(&[
        Text(" · "),
        Text(info.concrete.as_str()),
        Text(" "),
        Number(recorder),
        Text("."),
        Number(number),
    ])?;
    put_short_attrs(
        paper,
        info.attrs.as_slice(),
        resource.row.attrs.list().as_slice(),
    )?;
    Ok(())
}

// The same of the resource with an id, if it is there.
fn put_used_of(paper: &mut Paper, tables: &Tables, id: ResourceId) -> Result<(), AllocError>
    ensures { OnOk result (Writes paper.old paper.new (option_map_or spec.used (resource_with id tables.now.resources) [])) }
{
    match tables.resource(id) {
        Some(resource) => put_used(paper, resource),
        None => paper.put(&[]),
    }
}

// Puts since when, and ends the line.
fn put_since(paper: &mut Paper, scale: Scale, row: &OpRow) -> Result<(), AllocError>
    ensures { OnOk result (Writes paper.old paper.new (spec.since scale row.now)) }
{
    let moment = row.first_poll.unwrap_or(row.created);
    paper.put(&[
        Text(" · since "),
        Span(scale.since(moment)),
        Close(Tag::Div),
    ])
}

// ---- of a task

fn put_awaited_op(
    paper: &mut Paper,
    scale: Scale,
    tables: &Tables,
    op: &Op,
) -> Result<(), AllocError>
    ensures { OnOk result (Writes paper.old paper.new (spec.awaited_op scale tables.now op.now)) }
{
    paper.put(&[Class(Tag::Div, "in")])?;
    put_in_op(paper, op)?;
    put_used_of(paper, tables, op.info.resource)?;
    put_since(paper, scale, &op.row)?;
    Ok(())
}

fn put_awaited_ops(
    paper: &mut Paper,
    scale: Scale,
    tables: &Tables,
    ops: &[&Op],
) -> Result<(), AllocError>
    ensures { OnOk result (Writes paper.old paper.new (flat_map (spec.awaited_op scale tables.now) (map (λ o. o.now) ops.now))) }
{
    for op in ops {
        put_awaited_op(paper, scale, tables, op)?;
    }
    Ok(())
}

fn put_some_awaited(
    paper: &mut Paper,
    scale: Scale,
    tables: &Tables,
    ops: &[&Op],
) -> Result<(), AllocError>
    ensures { OnOk result (Writes paper.old paper.new (spec.some_of (spec.awaited_op scale tables.now) (map (λ o. o.now) ops.now))) }
{
    put_awaited_ops(paper, scale, tables, front(ops, SHOWN))?;
    put_more(paper, ops.len(), SHOWN, " more")?;
    Ok(())
}

fn put_all_awaited(
    paper: &mut Paper,
    alloc: Global,
    scale: Scale,
    tables: &Tables,
    task: &Task,
) -> Result<(), AllocError>
    ensures { OnOk result (Writes paper.old paper.new (spec.some_of (spec.awaited_op scale tables.now) (filter (spec.is_awaited_by task.now) tables.now.ops))) }
{
    let found = find_awaited(alloc, tables, task)?;
    put_some_awaited(paper, scale, tables, found.as_slice())?;
    Ok(())
}

/// Puts what a task waits for, if it is idle.
pub(crate) fn put_awaited(
    paper: &mut Paper,
    alloc: Global,
    scale: Scale,
    tables: &Tables,
    task: &Task,
) -> Result<(), AllocError>
    ensures { OnOk result (Writes paper.old paper.new (spec.awaited scale tables.now task.now)) }
{
    if is_idle(&task.row) {
        put_all_awaited(paper, alloc, scale, tables, task)
    } else {
        paper.put(&[])
    }
}

// ---- of a resource

fn put_waiter_line(paper: &mut Paper, scale: Scale, op: &Op, task: &Task) -> Result<(), AllocError>
    ensures { OnOk result (Writes paper.old paper.new (spec.waiter_line scale op.now task.now)) }
{
    paper.put(&[Class(Tag::Div, "in")])?;
    put_link(paper, task)?;
    paper.put(&[Text(" waits ")])?;
    put_in_op(paper, op)?;
    put_since(paper, scale, &op.row)?;
    Ok(())
}

// Puts who waits in an operation, if somebody does.
fn put_waiter(paper: &mut Paper, scale: Scale, tables: &Tables, op: &Op) -> Result<(), AllocError>
    ensures { OnOk result (Writes paper.old paper.new (spec.waiter scale tables.now.tasks op.now)) }
{
    match waiter_of(tables, op) {
        Some(task) => put_waiter_line(paper, scale, op, task),
        None => paper.put(&[]),
    }
}

fn put_each_waiter(
    paper: &mut Paper,
    scale: Scale,
    tables: &Tables,
    ops: &[&Op],
) -> Result<(), AllocError>
    ensures { OnOk result (Writes paper.old paper.new (flat_map (spec.waiter scale tables.now.tasks) (map (λ o. o.now) ops.now))) }
{
    for op in ops {
        put_waiter(paper, scale, tables, op)?;
    }
    Ok(())
}

fn put_some_waiters(
    paper: &mut Paper,
    scale: Scale,
    tables: &Tables,
    ops: &[&Op],
) -> Result<(), AllocError>
    ensures { OnOk result (Writes paper.old paper.new (spec.some_of (spec.waiter scale tables.now.tasks) (map (λ o. o.now) ops.now))) }
{
    put_each_waiter(paper, scale, tables, front(ops, SHOWN))?;
    put_more(paper, ops.len(), SHOWN, " more")?;
    Ok(())
}

/// Puts who waits for a resource.
pub(crate) fn put_waiters(
    paper: &mut Paper,
    alloc: Global,
    scale: Scale,
    tables: &Tables,
    resource: &Resource,
) -> Result<(), AllocError>
    ensures { OnOk result (Writes paper.old paper.new (spec.waiters scale tables.now resource.now)) }
{
    let found = find_waits(alloc, tables, resource)?;
    put_some_waiters(paper, scale, tables, found.as_slice())?;
    Ok(())
}
