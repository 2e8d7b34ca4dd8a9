//! What several tests begin with: an owner, and what it hands out.
//!
//! A handle is lent, or let go by `drop`, or handed to what takes any value: what drops it is proved in each function at whose end it
//! is dropped unsaid, which takes seconds.

use std::alloc::Global;
use std::sync::Wait;
use tk_ids::TaskId;
use tk_ledgers::TaskOwner;

/// The first task of the first recorder.
pub(super) const FIRST: u64 = 1099511627777;

pub(super) fn task<R: Wait>(rt: &R, alloc: Global, id: u64, created: u64) -> Option<TaskOwner> {
    let id = TaskId::from_value(id).ok()?;
    TaskOwner::new(rt, alloc, id, created).ok()
}

/// The same with a histogram of how long its polls ran.
pub(super) fn timed_task<R: Wait>(
    rt: &R,
    alloc: Global,
    id: u64,
    created: u64,
) -> Option<TaskOwner> {
    let id = TaskId::from_value(id).ok()?;
    TaskOwner::new_with_times(rt, alloc, id, created).ok()
}

/// Whether it was made.
pub(super) fn is_made<T: Drop>(made: Option<T>) -> bool {
    made.is_some()
}
