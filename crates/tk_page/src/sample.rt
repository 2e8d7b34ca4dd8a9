//! What a course of time keeps of a task at a line.
ghost use Rattle.std.specs.Prelude.{◌≡◌};
ghost use Rattle.tk_page.specs.Samples as spec;

use tk_core::TaskRow;

/// What a task had come to at a line's moment.
#[derive(Clone, Copy, Debug, PartialEq, Eq)]
pub struct Sample {
    /// The line's moment.
    pub now: u64,
    /// How long its polls ran, the one that runs among them.
    pub busy: u64,
    /// How long it waited, scheduled, the waiting that lasts among them.
    pub sched: u64,
    /// How many polls of it started.
    pub polls: u64,
    /// How often it was woken.
    pub wakes: u64,
    /// How many of its wakes came from within it.
    pub own: u64,
}

impl Sample {
    /// What a task has come to whose row is this.
    pub fn of(row: &TaskRow, now: u64) -> Sample
        ensures { result ≡ spec.sample_of row.now now }
    {
        Sample {
            now,
            busy: row.busy_until(now),
            sched: row.sched_until(now),
            polls: row.polls,
            wakes: row.wakes,
            own: row.self_wakes,
        }
    }

    /// Nothing, at a moment.
    pub(crate) fn none(now: u64) -> Sample
        ensures { result ≡ spec.nothing now }
    {
        Sample {
            now,
            busy: 0,
            sched: 0,
            polls: 0,
            wakes: 0,
            own: 0,
        }
    }

    /// The sum of both, at the moment of this one.
    pub(crate) fn with(self, other: Sample) -> Sample
        ensures { result ≡ spec.plus self other }
    {
        Sample {
            now: self.now,
            busy: self.busy.saturating_add(other.busy),
            sched: self.sched.saturating_add(other.sched),
            polls: self.polls.saturating_add(other.polls),
            wakes: self.wakes.saturating_add(other.wakes),
            own: self.own.saturating_add(other.own),
        }
    }

    /// What came since another, at the moment of this one.
    pub(crate) fn gain(self, before: Sample) -> Sample
        ensures { result ≡ spec.gained self before }
    {
        Sample {
            now: self.now,
            busy: self.busy.saturating_sub(before.busy),
            sched: self.sched.saturating_sub(before.sched),
            polls: self.polls.saturating_sub(before.polls),
            wakes: self.wakes.saturating_sub(before.wakes),
            own: self.own.saturating_sub(before.own),
        }
    }

    /// What came between both.
    pub(crate) fn since(self, before: Sample) -> Step
        ensures { result ≡ spec.step_of before self }
    {
        Step {
            from: before.now,
            to: self.now,
            busy: self.busy.saturating_sub(before.busy),
            sched: self.sched.saturating_sub(before.sched),
            wakes: self.wakes.saturating_sub(before.wakes),
            own: self.own.saturating_sub(before.own),
        }
    }
}

/// What came between two samples.
#[derive(Clone, Copy, Debug, PartialEq, Eq)]
pub(crate) struct Step {
    pub from: u64,
    pub to: u64,
    pub busy: u64,
    pub sched: u64,
    pub wakes: u64,
    pub own: u64,
}

impl Step {
    /// How long it lasted.
    pub fn time(&self) -> u64
        ensures { result ≡ spec.time_of self.now }
    {
        self.to.saturating_sub(self.from)
    }
}
