//! Inner: what several tests begin with.
//!
//! A task, an executor or an inspector is lent, or let go by `drop`, or handed to what takes any value: what drops it is proved in
//! each function at whose end it is dropped unsaid, which takes seconds.
ghost use Rattle.std.specs.Prelude.{◌≡◌, false, IfSome, is_some};

use std::alloc::Global;
use std::sync::Wait;
use tk_exec::{Clock, Executor, Instrumented, Work};
use tk_ids::TaskId;
use tk_ledgers::{TaskInspector, TaskOwner};

/// The number before the first task of the first recorder.
const BEFORE: u64 = 1099511627776;

/// Tells 1, 2, 3 and so on.
#[derive(Drop)]
pub(super) struct Ticks {
    at: u64,
}

impl Ticks {
    pub(super) fn new() -> Ticks {
        Ticks { at: 0 }
    }
}

impl Clock for Ticks {
    ghost use Rattle.std.specs.Prelude.{◌≡◌};

    ghost reads = { λ clock moment after. moment ≡ after.at };

    fn now(&mut self) -> u64 {
        self.at = self.at.saturating_add(1);
        self.at
    }
}

/// The id of the n-th task.
pub(super) fn id(n: u64) -> Option<TaskId> {
    TaskId::from_value(BEFORE.saturating_add(n)).ok()
}

/// The owner of the n-th task, created at 0.
pub(super) fn owner<R: Wait>(rt: &R, alloc: Global, n: u64) -> Option<TaskOwner> {
    let id = id(n)?;
    TaskOwner::new(rt, alloc, id, 0).ok()
}

// This owner's task with this work, if it has no open poll.
pub(super) fn at_rest<W: Work>(owner: TaskOwner, work: W) -> Option<Instrumented<W>>
    ensures { IfSome result (λ t. is_some t.receipt ≡ false) }
{
    if owner.is_polling() {
        drop(owner);
        drop(work);
        return None;
    }
    Some(Instrumented::new(owner, work))
}

/// The n-th task, created at 0, with this work.
pub(super) fn task<R: Wait, W: Work>(
    rt: &R,
    alloc: Global,
    n: u64,
    work: W,
) -> Option<Instrumented<W>>
    ensures { IfSome result (λ t. is_some t.receipt ≡ false) }
{
    let (owner, work) = owner(rt, alloc, n).zip(Some(work))?;
    at_rest(owner, work)
}

/// An owner's task with this work, and who reads it.
pub(super) fn inspected<R: Wait, W: Work>(
    rt: &R,
    mut owner: TaskOwner,
    work: W,
) -> Option<(Instrumented<W>, TaskInspector)>
    ensures { IfSome result (λ it. is_some it.0.receipt ≡ false) }
{
    let inspector = owner.inspect(rt).ok();
    at_rest(owner, work).zip(inspector)
}

/// Whether it was made.
pub(super) fn is_made<T: Drop>(made: Option<T>) -> bool {
    made.is_some()
}

/// Whether the n-th task, with this work, is taken in.
pub(super) fn spawns<R: Wait, W: Work>(
    rt: &R,
    alloc: Global,
    executor: &mut Executor<W>,
    n: u64,
    work: W,
) -> bool {
    match task(rt, alloc, n, work) {
        Some(task) => is_made(executor.spawn(task).ok()),
        None => false,
    }
}
