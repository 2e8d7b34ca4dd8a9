//! The operations of a resource.
ghost use Rattle.std.specs.Prelude.{◌≡◌, [], OnOk, IfOk, codes, map, filter, flat_map};
ghost use Rattle.tk_page.specs.Items as spec;
ghost use Rattle.tk_paper.specs.Pieces.{Writes};

use crate::figures::{count, front};
use crate::resources::{OPS, put_attrs, put_columns, put_more, put_whole};
use std::alloc::{AllocError, Global};
use tk_core::OpRow;
use tk_ids::TaskId;
use tk_paper::Part::{Class, Close, Count, End, Number, Open, Span, Start, Text, With, WithNumber};
use tk_paper::{Attr, Paper, Tag};
use tk_report::op_state;
use tk_stream::{Op, Resource, Tables};

fn put_task_of(paper: &mut Paper, tables: &Tables, id: TaskId) -> Result<(), AllocError>
    ensures { OnOk result (Writes paper.old paper.new (spec.task_of tables.now.tasks id)) }
{
    let (recorder, number) = id.parts();
    match tables.task(id) {
        Some(task) => paper.put(&[Text(task.info.name.as_str())]),
        None => paper.put(&[Number(recorder), Text("."), Number(number)]),
    }
}

fn put_polled_by(paper: &mut Paper, tables: &Tables, task: Option<TaskId>) -> Result<(), AllocError>
    ensures { OnOk result (Writes paper.old paper.new (spec.polled_by tables.now.tasks task)) }
{
    match task {
        Some(id) => put_task_of(paper, tables, id),
        None => paper.put(&[Text("–")]),
    }
}

fn put_source(paper: &mut Paper, op: &Op) -> Result<(), AllocError>
    ensures { OnOk result (Writes paper.old paper.new (spec.source op.now)) }
{
    let (recorder, number) = op.info.id.parts();
    paper.put(&[
        Start(Tag::Tr),
        Start(Tag::Td),
        Text(op.info.source.as_str()),
        Text(" "),
        Start(Tag::Small),
        Number(recorder),
        Text("."),
        Number(number),
    ])
}

fn put_op_parent(paper: &mut Paper, op: &Op) -> Result<(), AllocError>
    ensures { OnOk result (Writes paper.old paper.new (spec.part_of (codes " part of ") op.now.info.parent)) }
{
    match op.info.parent {
        Some(parent) => put_whole(paper, " part of ", parent.parts()),
        None => paper.put(&[]),
    }
}

fn put_op_state(paper: &mut Paper, row: &OpRow) -> Result<(), AllocError>
    ensures { OnOk result (Writes paper.old paper.new (spec.op_state_cell row.now)) }
{
    paper.put(&[
        Close(Tag::Small),
        Close(Tag::Td),
        Start(Tag::Td),
        Text(op_state(row)),
        Close(Tag::Td),
        Start(Tag::Td),
    ])
}

fn put_op_numbers(paper: &mut Paper, row: &OpRow) -> Result<(), AllocError>
    ensures { OnOk result (Writes paper.old paper.new (spec.op_numbers row.now)) }
{
    paper.put(&[
        Close(Tag::Td),
        Open(Tag::Td),
        WithNumber(Attr::DataV, row.polls),
        With(Attr::Class, "num"),
        End,
        Count(row.polls),
        Close(Tag::Td),
        Class(Tag::Td, "num"),
        Span(row.busy),
        Close(Tag::Td),
        Start(Tag::Td),
    ])
}

fn put_op(paper: &mut Paper, tables: &Tables, op: &Op) -> Result<(), AllocError>
    ensures { OnOk result (Writes paper.old paper.new (spec.op tables.now.tasks op.now)) }
{
    put_source(paper, op)?;
    put_op_parent(paper, op)?;
    put_op_state(paper, &op.row)?;
    put_polled_by(paper, tables, op.row.task)?;
    put_op_numbers(paper, &op.row)?;
    put_attrs(
        paper,
        op.info.attrs.as_slice(),
        op.row.attrs.list().as_slice(),
    )?;
    paper.put(&[Close(Tag::Td), Close(Tag::Tr)])?;
    Ok(())
}

// Of an operation: it is one of this resource, and open or not.
fn is_of(op: &Op, resource: &Resource, is_open: bool) -> bool
    ensures { result ≡ spec.is_of resource.now is_open op.now }
{
    let dropped = op.row.dropped;
    let is_so = if is_open {
        dropped.is_none()
    } else {
        dropped.is_some()
    };
    op.info.resource.value() == resource.info.id.value() && is_so
}

// The open operations of a resource, or the closed ones, in table order.
fn find_ops<'a>(
    alloc: Global,
    tables: &'a Tables,
    resource: &Resource,
    is_open: bool,
) -> Result<Vec<&'a Op>, AllocError>
    ensures { IfOk result (λ found. map (λ o. o.now) found.items ≡ filter (spec.is_of resource.now is_open) tables.now.ops) }
{
    let mut found = Vec::new(alloc);
    for place in 0..tables.op_count() {
        if let Some(op) = tables.op_at(place) {
            if is_of(op, resource, is_open) {
                found.push(op)?;
            }
        }
    }
    Ok(found)
}

fn put_each_op(paper: &mut Paper, tables: &Tables, ops: &[&Op]) -> Result<(), AllocError>
    ensures { OnOk result (Writes paper.old paper.new (flat_map (spec.op tables.now.tasks) (map (λ o. o.now) ops.now))) }
{
    for op in ops {
        put_op(paper, tables, op)?;
    }
    Ok(())
}

fn op_words(all: usize) -> &'static str
    ensures { result.now ≡ spec.op_words all }
{
    if all == 1 {
        " operation, "
    } else {
        " operations, "
    }
}

// Puts how many operations there are, and how many of them are open.
fn put_op_counts(paper: &mut Paper, all: usize, live: usize) -> Result<(), AllocError>
    ensures { OnOk result (Writes paper.old paper.new (spec.op_counts all live)) }
{
    paper.put(&[
        Start(Tag::Details),
        Start(Tag::Summary),
        Count(count(all)),
        Text(op_words(all)),
        Count(count(live)),
        Text(" open"),
        Close(Tag::Summary),
    ])
}

fn put_op_table(
    paper: &mut Paper,
    tables: &Tables,
    live: &[&Op],
    closed: &[&Op],
) -> Result<(), AllocError>
    ensures { OnOk result (Writes paper.old paper.new (spec.op_table tables.now.tasks (map (λ o. o.now) live.now) (map (λ o. o.now) closed.now))) }
{
    let number = live.len();
    let all = number.saturating_add(closed.len());
    let first = front(live, OPS);
    let next = front(closed, OPS.saturating_sub(number));
    put_op_counts(paper, all, number)?;
    put_columns(paper)?;
    put_each_op(paper, tables, first)?;
    put_each_op(paper, tables, next)?;
    paper.put(&[Close(Tag::Tbody), Close(Tag::Table)])?;
    put_more(paper, all, OPS, " more")?;
    paper.put(&[Close(Tag::Details)])?;
    Ok(())
}

fn put_ops_of(
    paper: &mut Paper,
    tables: &Tables,
    live: &[&Op],
    closed: &[&Op],
) -> Result<(), AllocError>
    ensures { OnOk result (Writes paper.old paper.new (spec.ops_of tables.now.tasks (map (λ o. o.now) live.now) (map (λ o. o.now) closed.now))) }
{
    if live.is_empty() && closed.is_empty() {
        paper.put(&[])
    } else {
        put_op_table(paper, tables, live, closed)
    }
}

pub(crate) fn put_ops(
    paper: &mut Paper,
    alloc: Global,
    tables: &Tables,
    resource: &Resource,
) -> Result<(), AllocError>
    ensures { OnOk result (Writes paper.old paper.new (spec.ops tables.now resource.now)) }
{
    let live = find_ops(alloc, tables, resource, true)?;
    let closed = find_ops(alloc, tables, resource, false)?;
    put_ops_of(paper, tables, live.as_slice(), closed.as_slice())?;
    Ok(())
}
