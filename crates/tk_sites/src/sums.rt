//! What is added up of the tasks of a place.
ghost use Rattle.std.specs.Prelude.{◌≡◌};
ghost use Rattle.tk_sites.specs.Span as span;
ghost use Rattle.tk_sites.specs.Sums as spec;

use crate::warned::Warnings;
use tk_core::TaskRow;
use tk_series::Added;

/// What the tasks of a place came to. A sum that passes 2^64 - 1 stays there.
#[derive(Clone, Copy, Debug, PartialEq, Eq)]
pub struct Sums {
    /// How many came.
    pub tasks: u64,
    /// How many are idle now.
    pub idle: u64,
    /// How many are scheduled now.
    pub scheduled: u64,
    /// How many are being polled now.
    pub polling: u64,
    /// How many are closed, and still there.
    pub closed: u64,
    /// How many have left the tables.
    pub left: u64,
    /// How many polls of them started.
    pub polls: u64,
    /// How often they were woken.
    pub wakes: u64,
    /// How many of the wakes came from within their tasks.
    pub own: u64,
    /// How many wakers of them were made.
    pub clones: u64,
    /// How many of these were dropped.
    pub drops: u64,
    /// How long their ended polls ran, in nanoseconds.
    pub busy: u64,
    /// How long they waited, scheduled, in nanoseconds: since their last wakes alone.
    pub sched: u64,
    /// How long they waited, in nanoseconds: all of it if a task counts that, and otherwise since its last wake.
    pub waited: u64,
    /// How many of them are warned of.
    pub warnings: Warnings,
}

impl Added for Sums {
    ghost use Rattle.tk_sites.specs.Sums as spec;

    ghost plus = { spec.plus };

    ghost copies = { λ a b e. e };

    fn plus(self, more: Sums) -> Sums {
        Sums {
            tasks: self.tasks.saturating_add(more.tasks),
            idle: self.idle.saturating_add(more.idle),
            scheduled: self.scheduled.saturating_add(more.scheduled),
            polling: self.polling.saturating_add(more.polling),
            closed: self.closed.saturating_add(more.closed),
            left: self.left.saturating_add(more.left),
            polls: self.polls.saturating_add(more.polls),
            wakes: self.wakes.saturating_add(more.wakes),
            own: self.own.saturating_add(more.own),
            clones: self.clones.saturating_add(more.clones),
            drops: self.drops.saturating_add(more.drops),
            busy: self.busy.saturating_add(more.busy),
            sched: self.sched.saturating_add(more.sched),
            waited: self.waited.saturating_add(more.waited),
            warnings: self.warnings.with(more.warnings),
        }
    }
}

impl Sums {
    /// What the tasks came to since they had come to this: each sum that only grows is less by what it was, and never below 0.
    ///
    /// How many are in each state, how many came, how many left, and who is warned of stays as it is now.
    pub fn since(self, old: Sums) -> Sums
        ensures { result ≡ span.sums_since old self }
    {
        Sums {
            polls: self.polls.saturating_sub(old.polls),
            wakes: self.wakes.saturating_sub(old.wakes),
            own: self.own.saturating_sub(old.own),
            clones: self.clones.saturating_sub(old.clones),
            drops: self.drops.saturating_sub(old.drops),
            busy: self.busy.saturating_sub(old.busy),
            sched: self.sched.saturating_sub(old.sched),
            waited: self.waited.saturating_sub(old.waited),
            ..self
        }
    }
}

fn one_if(holds: bool) -> u64
    ensures { result ≡ spec.one_if holds }
{
    if holds { 1 } else { 0 }
}

fn nothing() -> Sums
    ensures { result ≡ spec.nothing }
{
    Sums {
        tasks: 0,
        idle: 0,
        scheduled: 0,
        polling: 0,
        closed: 0,
        left: 0,
        polls: 0,
        wakes: 0,
        own: 0,
        clones: 0,
        drops: 0,
        busy: 0,
        sched: 0,
        waited: 0,
        warnings: Warnings::none(),
    }
}

/// Of a task that came.
pub(crate) fn came() -> Sums
    ensures { result ≡ spec.came }
{
    Sums {
        tasks: 1,
        ..nothing()
    }
}

// How long a task waited.
fn waited_by(row: &TaskRow) -> u64
    ensures { result ≡ spec.waited_by row.now }
{
    match row.waited() {
        Some(waited) => waited,
        None => row.sched,
    }
}

// What a row says, its state aside.
fn counted(row: &TaskRow) -> Sums
    ensures { result ≡ spec.counted row.now }
{
    Sums {
        polls: row.polls,
        wakes: row.wakes,
        own: row.self_wakes,
        clones: row.clones,
        drops: row.drops,
        busy: row.busy,
        sched: row.sched,
        waited: waited_by(row),
        ..nothing()
    }
}

/// What a task that has left had come to.
pub(crate) fn left(row: &TaskRow) -> Sums
    ensures { result ≡ spec.left row.now }
{
    Sums {
        left: 1,
        ..counted(row)
    }
}

/// What a task that is there has come to, and its state.
pub(crate) fn there(row: &TaskRow) -> Sums
    ensures { result ≡ spec.there row.now }
{
    let open = row.dropped.is_none();
    Sums {
        idle: one_if(open && !row.polling && !row.scheduled),
        scheduled: one_if(open && !row.polling && row.scheduled),
        polling: one_if(open && row.polling),
        closed: one_if(!open),
        ..counted(row)
    }
}

/// The same, with what lasts at this moment: a poll that runs, and waiting that goes on.
pub(crate) fn there_until(row: &TaskRow, now: u64) -> Sums
    ensures { result ≡ spec.there_until now row.now }
{
    let busy = row.busy_until(now);
    let waited = row.sched_until(now);
    Sums {
        busy,
        waited,
        ..there(row)
    }
}

/// Of a warning.
pub(crate) fn warned(warnings: Warnings) -> Sums
    ensures { result ≡ spec.warned warnings }
{
    Sums {
        warnings,
        ..nothing()
    }
}
