//! The operations that a task polls, and what they belong to.
ghost use Rattle.std.specs.Prelude.{◌≡◌, ◌==◌, ◌∷◌, [], codes, false, slice_get, OnOk, string_bytes};
ghost use Rattle.std.specs.Option.{option_map_or};
ghost use Rattle.tk_screen.specs.Texts.{Puts};
ghost use Rattle.tk_frame.specs.Lines.{field};
ghost use Rattle.tk_frame.specs.Polled as spec;
ghost use Rattle.tk_report.specs.Report.{value_word};
ghost use Rattle.tk_stream.specs.Tables.{resource_with};

use crate::cells::{put_ago, put_location, put_text};
use crate::details::label_text;
use crate::items::put_type;
use std::alloc::{AllocError, Global};
use std::fmt::Write;
use tk_ids::{AttrInfo, AttrValue, Name, ResourceId, TaskId};
use tk_report::op_state;
use tk_screen::{Line, Style};
use tk_stream::{Op, Resource, Tables};

fn is_of(task: Option<TaskId>, id: TaskId) -> bool
    ensures { result ≡ option_map_or (λ n. n == id) task false }
{
    match task {
        Some(task) => task.value() == id.value(),
        None => false,
    }
}

// Whether a task polls an operation that is open.
fn is_polled_by(op: &Op, id: TaskId) -> bool
    ensures { result ≡ spec.is_polled_by id op.now }
{
    op.row.dropped.is_none() && is_of(op.row.task, id)
}

// ---- attributes

fn put_value(out: &mut String, value: AttrValue) -> Result<(), AllocError>
    ensures { OnOk result (Puts (string_bytes out.old) (string_bytes out.new) (value_word value)) }
{
    match value {
        AttrValue::U64(number) => write!(out, "{number}"),
        AttrValue::Bool(true) => put_text(out, "true"),
        AttrValue::Bool(false) => put_text(out, "false"),
        AttrValue::I64(number) => write!(out, "{number}"),
    }
}

fn put_unit(out: &mut String, unit: &Option<Name>) -> Result<(), AllocError>
    ensures { OnOk result (Puts (string_bytes out.old) (string_bytes out.new) (spec.unit_text unit.now)) }
{
    match unit {
        Some(unit) => write!(out, " {unit}"),
        None => Ok(()),
    }
}

fn put_attr(out: &mut String, attr: &AttrInfo, value: AttrValue) -> Result<(), AllocError>
    ensures { OnOk result (Puts (string_bytes out.old) (string_bytes out.new) (spec.attr_text (attr.now, value))) }
{
    put_text(out, ", ")?;
    put_text(out, attr.name.as_str())?;
    put_text(out, " ")?;
    put_value(out, value)?;
    put_unit(out, &attr.unit)?;
    Ok(())
}

// An item declares at most six attributes.
fn put_attrs(out: &mut String, attrs: &[AttrInfo], values: &[AttrValue]) -> Result<(), AllocError>
    ensures { OnOk result (Puts (string_bytes out.old) (string_bytes out.new) (spec.attrs_text attrs.now values.now)) }
{
    let [attr, attrs @ ..] = attrs else {
        return Ok(());
    };
    let [value, values @ ..] = values else {
        return Ok(());
    };
    put_attr(out, attr, *value)?;
    put_attrs(out, attrs, values)?;
    Ok(())
}

// ---- a resource

fn put_resource(out: &mut String, resource: &Resource) -> Result<(), AllocError>
    ensures { OnOk result (Puts (string_bytes out.old) (string_bytes out.new) (spec.resource_words resource.now)) }
{
    let info = &resource.info;
    put_type(out, &info.concrete, &info.kind)?;
    put_location(out, &info.location)?;
    put_attrs(
        out,
        info.attrs.as_slice(),
        resource.row.attrs.list().as_slice(),
    )?;
    Ok(())
}

fn push_resource(
    lines: &mut Vec<Line>,
    alloc: Global,
    resource: &Resource,
) -> Result<(), AllocError>
    ensures { OnOk result (Puts lines.old.items lines.new.items (spec.resource_part resource.now)) }
{
    let mut text = label_text(alloc, "resource")?;
    put_resource(&mut text, resource)?;
    lines.push(Line::new(Style::Plain, text))?;
    Ok(())
}

// Pushes the line of a resource that is still there.
fn push_resource_of(
    lines: &mut Vec<Line>,
    alloc: Global,
    tables: &Tables,
    id: ResourceId,
) -> Result<(), AllocError>
    ensures { OnOk result (Puts lines.old.items lines.new.items (option_map_or spec.resource_part (resource_with id tables.now.resources) [])) }
{
    match tables.resource(id) {
        Some(resource) => push_resource(lines, alloc, resource),
        None => Ok(()),
    }
}

// ---- operations

fn put_on(out: &mut String, id: ResourceId) -> Result<(), AllocError>
    ensures { OnOk result (Puts (string_bytes out.old) (string_bytes out.new) (spec.on_resource id)) }
{
    write!(out, " on resource {id}, ")
}

fn put_op(out: &mut String, op: &Op, now: u64) -> Result<(), AllocError>
    ensures { OnOk result (Puts (string_bytes out.old) (string_bytes out.new) (spec.op_words now op.now)) }
{
    put_text(out, op.info.source.as_str())?;
    put_on(out, op.info.resource)?;
    put_text(out, op_state(&op.row))?;
    put_text(out, ", first polled ")?;
    put_ago(out, now, op.row.first_poll)?;
    put_attrs(
        out,
        op.info.attrs.as_slice(),
        op.row.attrs.list().as_slice(),
    )?;
    Ok(())
}

fn push_line(lines: &mut Vec<Line>, alloc: Global, op: &Op, now: u64) -> Result<(), AllocError>
    ensures { OnOk result (Puts lines.old.items lines.new.items (field (codes "operation") (spec.op_words now op.now) ∷ [])) }
{
    let mut text = label_text(alloc, "operation")?;
    put_op(&mut text, op, now)?;
    lines.push(Line::new(Style::Plain, text))?;
    Ok(())
}

fn push_op(lines: &mut Vec<Line>, alloc: Global, tables: &Tables, op: &Op) -> Result<(), AllocError>
    ensures { OnOk result (Puts lines.old.items lines.new.items (spec.op_part tables.now op.now)) }
{
    push_line(lines, alloc, op, tables.now())?;
    push_resource_of(lines, alloc, tables, op.info.resource)?;
    Ok(())
}

fn push_op_if(
    lines: &mut Vec<Line>,
    alloc: Global,
    tables: &Tables,
    op: &Op,
    id: TaskId,
) -> Result<(), AllocError>
    ensures { OnOk result (Puts lines.old.items lines.new.items (spec.own_op tables.now id op.now)) }
{
    if is_polled_by(op, id) {
        push_op(lines, alloc, tables, op)
    } else {
        Ok(())
    }
}

fn push_op_at(
    lines: &mut Vec<Line>,
    alloc: Global,
    tables: &Tables,
    id: TaskId,
    place: usize,
) -> Result<(), AllocError>
    ensures { OnOk result (Puts lines.old.items lines.new.items (option_map_or (spec.own_op tables.now id) (slice_get tables.now.ops place) [])) }
{
    match tables.op_at(place) {
        Some(op) => push_op_if(lines, alloc, tables, op, id),
        None => Ok(()),
    }
}

/// Pushes the operations that a task polls, each with its resource.
pub(crate) fn push_ops(
    lines: &mut Vec<Line>,
    alloc: Global,
    tables: &Tables,
    id: TaskId,
) -> Result<(), AllocError>
    ensures { OnOk result (Puts lines.old.items lines.new.items (spec.ops_part tables.now id)) }
{
    for place in 0..tables.op_count() {
        push_op_at(lines, alloc, tables, id, place)?;
    }
    Ok(())
}
