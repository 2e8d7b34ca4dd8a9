//! What a task ran and waited between two lines.
ghost use Rattle.std.specs.Prelude.{◌≡◌};
ghost use Rattle.tk_odd.specs.Gains as spec;

use tk_core::TaskRow;
use tk_report::Ended;

/// What a task gained in a step of a stream. Times are nanoseconds.
#[derive(Clone, Copy, Debug, PartialEq, Eq)]
pub struct Gain {
    /// How long its polls ran.
    pub ran: u64,
    /// How long it waited.
    pub waited: u64,
    /// How many polls of it started.
    pub polls: u64,
    /// How long a poll of it is known to have run, at least.
    pub longest: u64,
}

/// Whether a task waits for a poll.
pub(crate) fn waits(row: &TaskRow) -> bool
    ensures { result ≡ spec.waits row.now }
{
    row.scheduled && !row.polling
}

/// The row of a task that had not run or waited yet.
pub(crate) fn fresh(row: &TaskRow) -> TaskRow
    ensures { result ≡ spec.fresh row.now }
{
    TaskRow {
        polls: 0,
        busy: 0,
        sched: 0,
        waits: None,
        polling: false,
        scheduled: false,
        last_started: None,
        last_ended: None,
        ..*row
    }
}

impl Gain {
    /// What a task gained since a row of it, from one moment to another.
    pub fn since(before: u64, now: u64, old: &TaskRow, row: &TaskRow) -> Gain
        ensures { result ≡ spec.gain_since before now old.now row.now }
    {
        let time = now.saturating_sub(before);
        let ran = row.busy_until(now).saturating_sub(old.busy_until(before));
        let waited = row.sched_until(now).saturating_sub(old.sched_until(before));
        Gain {
            ran: time.min(ran),
            waited: time.min(waited),
            polls: row.polls.saturating_sub(old.polls),
            longest: row.runs_for(now).max(Ended::of(old).run_since(row)),
        }
    }

    /// Both, of one step.
    pub fn with(self, more: Gain) -> Gain
        ensures { result ≡ spec.plus self more }
    {
        Gain {
            ran: self.ran.saturating_add(more.ran),
            waited: self.waited.saturating_add(more.waited),
            polls: self.polls.saturating_add(more.polls),
            longest: self.longest.max(more.longest),
        }
    }

    /// Whether it is something.
    pub fn is_some(self) -> bool
        ensures { result ≡ spec.has_gained self }
    {
        self.ran > 0 || self.waited > 0 || self.polls > 0 || self.longest > 0
    }
}
