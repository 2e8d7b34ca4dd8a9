//! Tables that are filled from lines, and lines that are compared by their texts.
//!
//! How a value ends is proved where it is owned, which is dear for tables and lines. So one function owns them, where nothing needs
//! to be known of what they hold.

use std::alloc::Global;
use tk_core::{OpRow, ResourceRow, TaskRow};
use tk_ids::{OpInfo, ResourceInfo, TaskInfo};
use tk_stream::{Line, LineError, Tables};

// Whether a value was made and a check holds of it.
pub(super) fn on_made<T: Drop, E: Drop, F: FnOnce(&mut T) -> bool>(
    made: Result<T, E>,
    check: F,
) -> bool
    requires { F.IsAlwaysCallable check }
{
    match made {
        Ok(mut value) => check(&mut value),
        Err(_) => false,
    }
}

// Whether a check holds of new tables.
pub(super) fn on_new<F: FnOnce(&mut Tables) -> bool>(alloc: Global, check: F) -> bool
    requires { F.IsAlwaysCallable check }
{
    on_made(Tables::new(alloc), check)
}

// Whether a text is a line, and a check holds of it.
pub(super) fn on_line<F: FnOnce(&mut Line) -> bool>(alloc: Global, text: &[u8], check: F) -> bool
    requires { F.IsAlwaysCallable check }
{
    on_made(Line::read(alloc, text), check)
}

// The error that reading answers, if any.
pub(super) fn error_of(alloc: Global, text: &[u8]) -> Option<LineError> {
    Line::read(alloc, text).err()
}

pub(super) fn put_task(tables: &mut Tables, info: TaskInfo, row: TaskRow) -> Option<()> {
    if tables.task(info.id).is_some() {
        return None;
    }
    tables.add_task(info, row).ok()
}

fn put_resource(tables: &mut Tables, info: ResourceInfo, row: ResourceRow) -> Option<()> {
    if tables.resource(info.id).is_some() {
        return None;
    }
    tables.add_resource(info, row).ok()
}

fn put_op(tables: &mut Tables, info: OpInfo, row: OpRow) -> Option<()> {
    if tables.op(info.id).is_some() {
        return None;
    }
    tables.add_op(info, row).ok()
}

// Puts the line's new tasks last, each with the row at its place.
fn put_tasks(tables: &mut Tables, line: &Line) -> Option<()> {
    for i in 0..line.new_tasks().len() {
        let info = line.new_tasks().get(i)?.copy().ok()?;
        let (_, row) = line.task_stats().get(i)?;
        put_task(tables, info, *row)?;
    }
    Some(())
}

fn put_resources(tables: &mut Tables, line: &Line) -> Option<()> {
    for i in 0..line.new_resources().len() {
        let info = line.new_resources().get(i)?.copy().ok()?;
        let (_, row) = line.resource_stats().get(i)?;
        put_resource(tables, info, *row)?;
    }
    Some(())
}

fn put_ops(tables: &mut Tables, line: &Line) -> Option<()> {
    for i in 0..line.new_ops().len() {
        let info = line.new_ops().get(i)?.copy().ok()?;
        let (_, row) = line.op_stats().get(i)?;
        put_op(tables, info, *row)?;
    }
    Some(())
}

pub(super) fn put_counts(tables: &mut Tables, line: &Line) -> Option<()> {
    for (id, ready, pending) in line.poll_counts() {
        tables.set_counts(*id, *ready, *pending).ok()?;
    }
    Some(())
}

// Fills tables from a line that has a row at each new item's place.
pub(super) fn fill(tables: &mut Tables, line: &Line) -> Option<()> {
    put_tasks(tables, line)?;
    put_resources(tables, line)?;
    put_ops(tables, line)?;
    put_counts(tables, line)?;
    tables.set_totals(line.dropped(), line.now());
    Some(())
}

// Whether the line writes itself so.
pub(super) fn writes(line: &Line, text: &[u8]) -> bool {
    match line.write() {
        Ok(written) => written.as_slice() == text,
        Err(_) => false,
    }
}

// Whether the line between tables, with the wanted line's number, writes itself so.
pub(super) fn leads(alloc: Global, old: &Tables, new: &Tables, wanted: &Line, text: &[u8]) -> bool {
    on_made(
        Line::between(alloc, old, new, wanted.seq(), false),
        |line| writes(line, text),
    )
}

// A text with another part in the place of one, where that first stands.
pub(super) fn changed(alloc: Global, text: &str, old: &str, new: &str) -> Option<String> {
    let (before, after) = text.split_once(old)?;
    let mut text = String::from_str(alloc, before).ok()?;
    text.push_str(new).ok()?;
    text.push_str(after).ok()?;
    Some(text)
}
