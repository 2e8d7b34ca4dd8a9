//! Each statistic of an async operation, and the answer to a call, computed over the whole history.

use super::plain_polls::{
    Point, busy, first_poll, is_polling, last_ended, last_started, polls, refused_change, value,
    was_accepted,
};
use std::alloc::{AllocError, Global};
use tk_core::{AttrOp, AttrValues, Entry, MOST_HANDLES, OpCall, OpRow, Refusal, Reply};
use tk_ids::{AttrValue, TaskId};

pub type OpEntry = Entry<OpCall, Reply<OpRow>>;

fn point(entry: &OpEntry) -> Point {
    match entry.call {
        OpCall::PollStart(moment) if was_accepted(entry) => Point::Start(moment),
        OpCall::PollEnd(moment) if was_accepted(entry) => Point::End(moment),
        _ => Point::Other,
    }
}

fn points(alloc: Global, history: &[OpEntry]) -> Result<Vec<Point>, AllocError> {
    let mut points = Vec::new(alloc);
    for entry in history {
        points.push(point(entry))?;
    }
    Ok(points)
}

fn close(entry: &OpEntry) -> Option<u64> {
    match entry.call {
        OpCall::Close(moment) if was_accepted(entry) => Some(moment),
        _ => None,
    }
}

fn task(entry: &OpEntry) -> Option<TaskId> {
    match entry.call {
        OpCall::SetTask(task) if was_accepted(entry) => Some(task),
        _ => None,
    }
}

fn draws(entry: &OpEntry) -> bool {
    was_accepted(entry) && matches!(entry.call, OpCall::Enlist)
}

fn changes(alloc: Global, index: u64, history: &[OpEntry]) -> Result<Vec<AttrOp>, AllocError> {
    let mut changes = Vec::new(alloc);
    for entry in history {
        if let OpCall::Attr(at, op) = entry.call
            && at == index
            && was_accepted(entry)
        {
            changes.push(op)?;
        }
    }
    Ok(changes)
}

// An attribute's value, which is this before all changes.
fn value_at(
    alloc: Global,
    index: u64,
    first: AttrValue,
    history: &[OpEntry],
) -> Result<AttrValue, AllocError> {
    let changes = changes(alloc, index, history)?;
    let value = value(first, changes.as_slice());
    drop(changes);
    Ok(value)
}

fn values(
    alloc: Global,
    firsts: &[AttrValue; 4],
    history: &[OpEntry],
) -> Result<AttrValues, AllocError> {
    Ok(AttrValues::new(&[
        value_at(alloc, 0, firsts[0], history)?,
        value_at(alloc, 1, firsts[1], history)?,
        value_at(alloc, 2, firsts[2], history)?,
        value_at(alloc, 3, firsts[3], history)?,
    ]))
}

/// The row that a history leaves.
pub fn row(
    alloc: Global,
    created: u64,
    firsts: &[AttrValue; 4],
    history: &[OpEntry],
) -> Result<OpRow, AllocError> {
    let attrs = values(alloc, firsts, history)?;
    let points = points(alloc, history)?;
    let row = row_of(created, points.as_slice(), attrs, history);
    drop(points);
    Ok(row)
}

fn row_of(created: u64, points: &[Point], attrs: AttrValues, history: &[OpEntry]) -> OpRow {
    OpRow {
        created,
        dropped: history.iter().filter_map(close).next(),
        polls: polls(points),
        first_poll: first_poll(points),
        last_started: last_started(points),
        last_ended: last_ended(points),
        busy: busy(points),
        handles: history.iter().filter(|entry| draws(entry)).count() as u64,
        task: history.iter().filter_map(task).last(),
        polling: is_polling(points),
        attrs,
    }
}

/// The first refusal that applies to a call on a row.
fn refusal(row: &OpRow, call: &OpCall) -> Option<Refusal> {
    if row.dropped.is_some() && !matches!(call, OpCall::Enlist | OpCall::Read) {
        return Some(Refusal::Closed);
    }
    match call {
        OpCall::PollStart(_) | OpCall::Close(_) if row.polling => Some(Refusal::AlreadyPolling),
        OpCall::PollEnd(_) if !row.polling => Some(Refusal::NotPolling),
        OpCall::Enlist if row.handles == MOST_HANDLES => Some(Refusal::HandlesSpent),
        OpCall::Attr(index, op) => match row.attrs.get(*index) {
            Some(value) => refused_change(value, *op),
            None => Some(Refusal::NoAttribute),
        },
        _ => None,
    }
}

/// The answer to a call on a row.
pub fn answer(row: &OpRow, call: OpCall) -> Reply<OpRow> {
    if let Some(refusal) = refusal(row, &call) {
        return Reply::Refused(refusal);
    }
    match call {
        OpCall::Enlist => Reply::Number(row.handles.saturating_add(1)),
        OpCall::Read => Reply::Shown(*row),
        _ => Reply::Done,
    }
}
