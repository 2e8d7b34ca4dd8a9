//! What a walk through the items of tables finds.
ghost use Rattle.std.specs.Prelude.{◌≡◌, ◌<◌, ◌^◌, ◌+◌, IfOk, slice_get};
ghost use Rattle.std.specs.Option.{option_map_or};
ghost use Rattle.tk_frame.specs.Queries as spec;
ghost use Rattle.tk_frame.specs.States as states;
ghost use Rattle.tk_frame.specs.Walks as inner;

use crate::query::{Query, is_shown, op_key, resource_key, task_key};
use std::alloc::{AllocError, Global};
use tk_core::TaskRow;
use tk_screen::{Ranked, Top};
use tk_stream::Tables;

/// How many tasks there are in each state: each is counted in the first of these that holds of it, closed, polling, scheduled and
/// idle.
#[derive(Clone, Copy, Debug, PartialEq, Eq)]
pub struct States {
    pub polling: u64,
    pub scheduled: u64,
    pub idle: u64,
    pub closed: u64,
}

// These with one task more.
fn and_task(states: States, row: &TaskRow) -> States
    requires { inner.total states + 1 < 2 ^ 64 }
    ensures { result ≡ inner.and_task states row.now }
{
    let mut states = states;
    if row.dropped.is_some() {
        states.closed += 1;
    } else if row.polling {
        states.polling += 1;
    } else if row.scheduled {
        states.scheduled += 1;
    } else {
        states.idle += 1;
    }
    states
}

/// Offers an item at a place, where it has a key.
pub(crate) fn offer(top: &mut Top, key: Option<u64>, place: usize)
    ensures items { top.new.items ≡ inner.kept_with key place top.old.room top.old.items }
    ensures room { top.new.room ≡ top.old.room }
{
    if let Some(key) = key {
        top.offer(Ranked { key, place });
    }
}

// Counts and offers the task at a place, if there is one.
fn take_task(
    states: States,
    top: &mut Top,
    query: &Query<'_>,
    tables: &Tables,
    place: usize,
) -> States
    requires { inner.total states + 1 < 2 ^ 64 }
    ensures states { result ≡ option_map_or (inner.states_with states) (slice_get tables.now.tasks place) states }
    ensures items { top.new.items ≡ option_map_or (λ t. inner.kept_with (spec.task_key query.now tables.now.now t) place top.old.room top.old.items) (slice_get tables.now.tasks place) top.old.items }
    ensures room { top.new.room ≡ top.old.room }
{
    let Some(task) = tables.task_at(place) else {
        return states;
    };
    offer(top, task_key(query, task, tables.now()), place);
    and_task(states, &task.row)
}

/// How many tasks there are in each state, and the places of the first of those that are shown: the greatest in the column first, or
/// the least, and of equal ones the earlier. It looks at each task once.
///
/// It fails where there is no memory for one place more than so many rows.
pub fn walk(
    alloc: Global,
    tables: &Tables,
    query: &Query<'_>,
    rows: usize,
) -> Result<(States, Top), AllocError>
    ensures states { IfOk result (λ p. p.0 ≡ states.states_of tables.now.tasks) }
    ensures top { IfOk result (λ p. p.1.items ≡ spec.top_tasks query.now rows tables.now) }
{
    let mut states = States {
        polling: 0,
        scheduled: 0,
        idle: 0,
        closed: 0,
    };
    let mut top = Top::new(alloc, rows)?;
    for place in 0..tables.task_count() {
        states = take_task(states, &mut top, query, tables, place);
    }
    Ok((states, top))
}

fn with_task(states: States, tables: &Tables, place: usize) -> States
    requires { inner.total states + 1 < 2 ^ 64 }
    ensures { result ≡ option_map_or (inner.states_with states) (slice_get tables.now.tasks place) states }
{
    match tables.task_at(place) {
        Some(task) => and_task(states, &task.row),
        None => states,
    }
}

/// How many tasks there are in each state.
pub(crate) fn states_in(tables: &Tables) -> States
    ensures { result ≡ states.states_of tables.now.tasks }
{
    let mut states = States {
        polling: 0,
        scheduled: 0,
        idle: 0,
        closed: 0,
    };
    for place in 0..tables.task_count() {
        states = with_task(states, tables, place);
    }
    states
}

// Counts the task at a place, if it is shown.
fn count_task(count: usize, query: &Query<'_>, tables: &Tables, place: usize) -> usize
    requires { count + 1 < 2 ^ 64 }
    ensures { result ≡ option_map_or (inner.counted_with (spec.is_shown query.now) count) (slice_get tables.now.tasks place) count }
{
    match tables.task_at(place) {
        Some(task) => if is_shown(query, task) {
            count + 1
        } else {
            count
        },
        None => count,
    }
}

/// How many tasks are shown, on one screen or on several.
pub(crate) fn shown_count(tables: &Tables, query: &Query<'_>) -> usize
    ensures { result ≡ spec.shown_count query.now tables.now }
{
    let mut count = 0;
    for place in 0..tables.task_count() {
        count = count_task(count, query, tables, place);
    }
    count
}

fn offer_resource(top: &mut Top, tables: &Tables, place: usize)
    ensures items { top.new.items ≡ option_map_or (λ r. inner.kept_with (spec.resource_key tables.now.counts r) place top.old.room top.old.items) (slice_get tables.now.resources place) top.old.items }
    ensures room { top.new.room ≡ top.old.room }
{
    if let Some(resource) = tables.resource_at(place) {
        let (_, pending) = tables.poll_counts(resource.info.id);
        offer(top, resource_key(resource, pending), place);
    }
}

/// The resources that are shown.
pub(crate) fn top_resources(alloc: Global, tables: &Tables, rows: usize) -> Result<Top, AllocError>
    ensures { IfOk result (λ top. top.items ≡ spec.top_resources rows tables.now) }
{
    let mut top = Top::new(alloc, rows)?;
    for place in 0..tables.resource_count() {
        offer_resource(&mut top, tables, place);
    }
    Ok(top)
}

fn offer_op(top: &mut Top, tables: &Tables, place: usize)
    ensures items { top.new.items ≡ option_map_or (λ o. inner.kept_with (spec.op_key o) place top.old.room top.old.items) (slice_get tables.now.ops place) top.old.items }
    ensures room { top.new.room ≡ top.old.room }
{
    if let Some(op) = tables.op_at(place) {
        offer(top, op_key(op), place);
    }
}

/// The async operations that are shown.
pub(crate) fn top_ops(alloc: Global, tables: &Tables, rows: usize) -> Result<Top, AllocError>
    ensures { IfOk result (λ top. top.items ≡ spec.top_ops rows tables.now) }
{
    let mut top = Top::new(alloc, rows)?;
    for place in 0..tables.op_count() {
        offer_op(&mut top, tables, place);
    }
    Ok(top)
}
