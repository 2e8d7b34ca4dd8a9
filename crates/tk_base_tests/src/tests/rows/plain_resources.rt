//! Each statistic of a resource, and the answer to a call, computed over the whole history.

use super::plain_polls::{refused_change, value, was_accepted};
use std::alloc::{AllocError, Global};
use tk_core::{AttrOp, AttrValues, Entry, MOST_HANDLES, Refusal, Reply, ResourceCall, ResourceRow};
use tk_ids::AttrValue;

pub type ResourceEntry = Entry<ResourceCall, Reply<ResourceRow>>;

fn close(entry: &ResourceEntry) -> Option<u64> {
    match entry.call {
        ResourceCall::Close(moment) if was_accepted(entry) => Some(moment),
        _ => None,
    }
}

fn draws(entry: &ResourceEntry) -> bool {
    was_accepted(entry) && matches!(entry.call, ResourceCall::Enlist)
}

fn changes(
    alloc: Global,
    index: u64,
    history: &[ResourceEntry],
) -> Result<Vec<AttrOp>, AllocError> {
    let mut changes = Vec::new(alloc);
    for entry in history {
        if let ResourceCall::Attr(at, op) = entry.call
            && at == index
            && was_accepted(entry)
        {
            changes.push(op)?;
        }
    }
    Ok(changes)
}

// An attribute's value, which is this before all changes.
fn value_at(
    alloc: Global,
    index: u64,
    first: AttrValue,
    history: &[ResourceEntry],
) -> Result<AttrValue, AllocError> {
    let changes = changes(alloc, index, history)?;
    let value = value(first, changes.as_slice());
    drop(changes);
    Ok(value)
}

/// The row that a history leaves.
pub fn row(
    alloc: Global,
    created: u64,
    firsts: &[AttrValue; 4],
    history: &[ResourceEntry],
) -> Result<ResourceRow, AllocError> {
    let values = [
        value_at(alloc, 0, firsts[0], history)?,
        value_at(alloc, 1, firsts[1], history)?,
        value_at(alloc, 2, firsts[2], history)?,
        value_at(alloc, 3, firsts[3], history)?,
    ];
    Ok(ResourceRow {
        created,
        dropped: history.iter().filter_map(close).next(),
        handles: history.iter().filter(|entry| draws(entry)).count() as u64,
        attrs: AttrValues::new(&values),
    })
}

/// The answer to a call on a row.
pub fn answer(row: &ResourceRow, call: ResourceCall) -> Reply<ResourceRow> {
    let closed = row.dropped.is_some();
    let refusal = match call {
        ResourceCall::Close(_) | ResourceCall::Attr(..) if closed => Some(Refusal::Closed),
        ResourceCall::Enlist if row.handles == MOST_HANDLES => Some(Refusal::HandlesSpent),
        ResourceCall::Attr(index, op) => match row.attrs.get(index) {
            Some(value) => refused_change(value, op),
            None => Some(Refusal::NoAttribute),
        },
        _ => None,
    };
    match (refusal, call) {
        (Some(refusal), _) => Reply::Refused(refusal),
        (None, ResourceCall::Enlist) => Reply::Number(row.handles.saturating_add(1)),
        (None, ResourceCall::Read) => Reply::Shown(*row),
        (None, _) => Reply::Done,
    }
}
