//! What is odd about tasks.
ghost use Rattle.std.specs.Prelude.{◌≡◌, map};
ghost use Rattle.std.specs.List.{list_any};
ghost use Rattle.tk_odd.specs.Findings.{is_never_polled as is_unpolled, told};
ghost use Rattle.tk_page.specs.Odd as spec;

use crate::figures::front;
use tk_client::{has_lost_waker, has_never_yielded, is_spawn, wakes_itself};
use tk_core::TaskRow;
use tk_odd::{Found, Limits, OddKind};
use tk_stream::{Tables, Task};

// How many findings have cards.
pub(crate) const CARDS: usize = 20;

/// What a task's row may show, in the order of its badges.
pub(crate) const ROW_KINDS: [OddKind; 4] = [
    OddKind::NeverYielded,
    OddKind::LostWaker,
    OddKind::NeverPolled,
    OddKind::SelfWakes,
];

/// Whether nobody can wake a task.
pub(crate) fn is_lost(task: &Task) -> bool
    ensures { result ≡ spec.is_lost task.now }
{
    is_spawn(task.info.kind) && has_lost_waker(&task.row)
}

// Whether a task has waited for its first poll for so long.
fn is_never_polled(limit: u64, now: u64, row: &TaskRow) -> bool
    ensures { result ≡ is_unpolled limit now row.now }
{
    row.scheduled && row.polls == 0 && limit <= now.saturating_sub(row.created)
}

// Whether a finding names a task.
fn names(task: &Task, found: &Found) -> bool
    ensures { result ≡ spec.names task.now found.now }
{
    match found.finding.task {
        Some(id) => id.value() == task.info.id.value(),
        None => false,
    }
}

// Whether a task's row shows such a thing.
fn is_of_rows(kind: OddKind) -> bool
    ensures { result ≡ spec.is_of_rows kind }
{
    match kind {
        OddKind::NeverYielded => true,
        OddKind::LostWaker => true,
        OddKind::NeverPolled => true,
        OddKind::SelfWakes => true,
        _ => false,
    }
}

/// Whether a finding says of a task what its row doesn't show.
pub(crate) fn says(task: &Task, found: &Found) -> bool
    ensures { result ≡ spec.says task.now found.now }
{
    names(task, found) && !is_of_rows(found.finding.kind)
}

// Whether one of findings names a task.
fn any_names(findings: &[Found], task: &Task) -> bool
    ensures { result ≡ list_any (spec.names task.now) findings.now }
{
    for found in findings {
        if names(task, found) {
            return true;
        }
    }
    false
}

/// What tasks are looked at for.
#[derive(Drop)]
pub(crate) struct Signs {
    /// The moment of the tables.
    pub moment: u64,
    /// How much is too much.
    pub limits: Limits,
    /// What is odd, worst first.
    pub findings: Vec<Found>,
}

impl Signs {
    /// Of tables, by these limits and with these findings.
    pub fn of(tables: &Tables, limits: Limits, findings: Vec<Found>) -> Signs
        ensures { spec.AreSigns limits (map told findings.items) tables.now result }
    {
        Signs {
            moment: tables.now(),
            limits,
            findings,
        }
    }

    /// The findings that have cards.
    pub fn carded(&self) -> &[Found]
        ensures { result.now ≡ spec.carded self.now }
    {
        front(self.findings.as_slice(), CARDS)
    }

    // Whether a card names a task.
    fn is_named(&self, task: &Task) -> bool
        ensures { result ≡ spec.is_named self.now task.now }
    {
        any_names(self.carded(), task)
    }

    /// Whether a task's row shows this.
    pub fn has(&self, task: &Task, kind: OddKind) -> bool
        ensures { result ≡ spec.has_sign self.now kind task.now }
    {
        let row = &task.row;
        let spawned = is_spawn(task.info.kind);
        let lints = self.limits.lints;
        let limit = lints.never_yielded_ns();
        match kind {
            OddKind::NeverYielded => spawned && has_never_yielded(limit, self.moment, row),
            OddKind::LostWaker => is_lost(task),
            OddKind::NeverPolled => spawned && is_never_polled(limit, self.moment, row),
            OddKind::SelfWakes => spawned && wakes_itself(lints.self_wake_percent(), row),
            _ => false,
        }
    }

    /// Whether anything is odd about a task.
    pub fn has_any(&self, task: &Task) -> bool
        ensures { result ≡ spec.is_odd_at_all self.now task.now }
    {
        self.is_named(task)
            || self.has(task, OddKind::NeverYielded)
            || self.has(task, OddKind::LostWaker)
            || self.has(task, OddKind::NeverPolled)
            || self.has(task, OddKind::SelfWakes)
    }
}
