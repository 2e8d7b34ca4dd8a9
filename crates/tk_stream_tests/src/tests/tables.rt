//! Tables, filled, changed and cut.

use super::given::{fill, on_line, on_new, put_counts, put_task};
use super::texts::TWO;
use std::alloc::Global;
use tk_ids::{AsyncOpId, ResourceId, TaskId};
use tk_stream::{Line, Tables};

// The ids of the line's task, resource or operation at a place.
fn task_id(line: &Line, i: usize) -> Option<TaskId> {
    Some(line.new_tasks().get(i)?.id)
}

fn resource_id(line: &Line, i: usize) -> Option<ResourceId> {
    Some(line.new_resources().get(i)?.id)
}

fn op_id(line: &Line, i: usize) -> Option<AsyncOpId> {
    Some(line.new_ops().get(i)?.id)
}

// Moments at which items were created, by which they are told apart.
fn created_of_task(tables: &Tables, id: TaskId) -> Option<u64> {
    Some(tables.task(id)?.row.created)
}

fn created_of_task_at(tables: &Tables, i: usize) -> Option<u64> {
    Some(tables.task_at(i)?.row.created)
}

fn created_of_resource(tables: &Tables, id: ResourceId) -> Option<u64> {
    Some(tables.resource(id)?.row.created)
}

fn created_of_resource_at(tables: &Tables, i: usize) -> Option<u64> {
    Some(tables.resource_at(i)?.row.created)
}

fn created_of_op(tables: &Tables, id: AsyncOpId) -> Option<u64> {
    Some(tables.op(id)?.row.created)
}

fn created_of_op_at(tables: &Tables, i: usize) -> Option<u64> {
    Some(tables.op_at(i)?.row.created)
}

fn are_empty(tables: &Tables) -> bool {
    tables.task_count() == 0
        && tables.resource_count() == 0
        && tables.op_count() == 0
        && tables.counted() == 0
        && tables.dropped().ops == 0
        && tables.now() == 0
}

#[test]
fn begins_empty(rt: HostRuntime) {
    assert!(rt; on_new(rt.alloc(), |tables| are_empty(tables)));
}

fn holds_tasks(tables: &Tables, line: &Line) -> Option<bool> {
    let first = created_of_task(tables, task_id(line, 0)?)?;
    let last = created_of_task(tables, task_id(line, 1)?)?;
    Some(tables.task_count() == 2 && first == 5 && last == 6)
}

fn holds_tasks_in_order(tables: &Tables) -> bool {
    created_of_task_at(tables, 0) == Some(5)
        && created_of_task_at(tables, 1) == Some(6)
        && created_of_task_at(tables, 2) == None
}

fn holds_resources(tables: &Tables, line: &Line) -> Option<bool> {
    let first = created_of_resource(tables, resource_id(line, 0)?)?;
    let last = created_of_resource(tables, resource_id(line, 1)?)?;
    Some(tables.resource_count() == 2 && first == 3 && last == 4)
}

fn holds_resources_in_order(tables: &Tables) -> bool {
    created_of_resource_at(tables, 0) == Some(3)
        && created_of_resource_at(tables, 1) == Some(4)
        && created_of_resource_at(tables, 2) == None
}

fn holds_ops(tables: &Tables, line: &Line) -> Option<bool> {
    let first = created_of_op(tables, op_id(line, 0)?)?;
    let last = created_of_op(tables, op_id(line, 1)?)?;
    Some(tables.op_count() == 2 && first == 1 && last == 2)
}

fn holds_ops_in_order(tables: &Tables) -> bool {
    created_of_op_at(tables, 0) == Some(1)
        && created_of_op_at(tables, 1) == Some(2)
        && created_of_op_at(tables, 2) == None
}

fn has_counts(tables: &Tables, id: ResourceId, ready: u64, pending: u64) -> bool {
    let counts = tables.poll_counts(id);
    counts.0 == ready && counts.1 == pending
}

fn holds_counts(tables: &Tables, line: &Line) -> Option<bool> {
    let first = has_counts(tables, resource_id(line, 0)?, 5, 6);
    let last = has_counts(tables, resource_id(line, 1)?, 7, 8);
    Some(tables.counted() == 2 && first && last)
}

fn holds_all(tables: &Tables, line: &Line) -> bool {
    holds_tasks(tables, line) == Some(true)
        && holds_tasks_in_order(tables)
        && holds_resources(tables, line) == Some(true)
        && holds_resources_in_order(tables)
        && holds_ops(tables, line) == Some(true)
        && holds_ops_in_order(tables)
        && holds_counts(tables, line) == Some(true)
}

fn filled_hold_all(alloc: Global, line: &Line) -> bool {
    on_new(
        alloc,
        |tables| fill(tables, line).is_some() && holds_all(tables, line),
    )
}

#[test]
fn keeps_items_in_order_of_arrival(rt: HostRuntime) {
    let alloc = rt.alloc();
    assert!(rt; on_line(alloc, TWO.as_bytes(), |line| filled_hold_all(alloc, line)));
}

// Puts the line's second task in again, which was cut, with the first one's row.
fn put_again(tables: &mut Tables, line: &Line) -> Option<()> {
    let info = line.new_tasks().get(1)?.copy().ok()?;
    let (_, row) = line.task_stats().get(0)?;
    put_task(tables, info, *row)
}

// Whether both tasks, one resource, no operation and one poll count stay.
fn is_cut(tables: &Tables, line: &Line) -> Option<bool> {
    let gone = created_of_resource(tables, resource_id(line, 1)?).is_none();
    let uncounted = has_counts(tables, resource_id(line, 0)?, 0, 0);
    let counted = tables.counted() == 1 && uncounted;
    let items = tables.task_count() == 2 && tables.resource_count() == 1 && tables.op_count() == 0;
    Some(gone && counted && items)
}

fn cuts(tables: &mut Tables, line: &Line) -> bool {
    tables.cut(2, 1, 0, 1);
    if is_cut(tables, line) != Some(true) {
        return false;
    }
    tables.cut(1, 9, 9, 9);
    tables.task_count() == 1
        && put_again(tables, line).is_some()
        && created_of_task_at(tables, 1) == Some(5)
}

fn filled_are_cut(alloc: Global, line: &Line) -> bool {
    on_new(
        alloc,
        |tables| fill(tables, line).is_some() && cuts(tables, line),
    )
}

#[test]
fn cuts_each_list(rt: HostRuntime) {
    let alloc = rt.alloc();
    assert!(rt; on_line(alloc, TWO.as_bytes(), |line| filled_are_cut(alloc, line)));
}

// Counts of a resource that is there are replaced.
fn replaces(tables: &mut Tables, id: ResourceId) -> bool {
    tables.set_counts(id, 1, 2).is_ok()
        && tables.set_counts(id, 3, 4).is_ok()
        && tables.counted() == 2
        && has_counts(tables, id, 3, 4)
}

fn replaces_first(tables: &mut Tables, line: &Line) -> Option<bool> {
    put_counts(tables, line)?;
    Some(replaces(tables, resource_id(line, 0)?))
}

fn filled_are_replaced(alloc: Global, line: &Line) -> bool {
    on_new(alloc, |tables| replaces_first(tables, line) == Some(true))
}

#[test]
fn replaces_counts(rt: HostRuntime) {
    let alloc = rt.alloc();
    assert!(rt;
        on_line(
            alloc,
            TWO.as_bytes(),
            |line| filled_are_replaced(alloc, line)
        )
    );
}
