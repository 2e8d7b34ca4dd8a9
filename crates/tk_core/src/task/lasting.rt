//! What lasts at a moment, and what comes of it with what has ended.
ghost use Rattle.std.specs.Prelude.{◌≡◌};
ghost use Rattle.tk_core.specs.Lasting as spec;

use crate::op::OpRow;
use crate::task::TaskRow;

// How long a poll has run that is open since a start.
#[inline(always)]
fn open_for(polling: bool, started: Option<u64>, now: u64) -> u64
    ensures { result ≡ spec.open_for polling started now }
{
    match started {
        Some(started) if polling => now.saturating_sub(started),
        _ => 0,
    }
}

impl TaskRow {
    /// How many nanoseconds its open poll has run by a moment, and 0 if none is open.
    pub fn runs_for(&self, now: u64) -> u64
        ensures { result ≡ spec.runs_for self.now now }
    {
        open_for(self.polling, self.last_started, now)
    }

    /// How many nanoseconds its polls ran up to a moment, the open one with them.
    pub fn busy_until(&self, now: u64) -> u64
        ensures { result ≡ spec.busy_until self.now now }
    {
        self.busy.saturating_add(self.runs_for(now))
    }

    /// How many nanoseconds it has waited for a poll by a moment, and 0 if it doesn't wait: the whole wait if its row counts waits, and
    /// otherwise since its last wake.
    pub fn waits_for(&self, now: u64) -> u64
        ensures { result ≡ spec.waits_for self.now now }
    {
        match self.wait_ended_by(now) {
            Some(wait) => wait,
            None => self.lasting(now),
        }
    }

    /// How many nanoseconds it waited for polls up to a moment, the wait that lasts with them: all of it if its row counts waits, and
    /// otherwise each wait since its last wake.
    pub fn sched_until(&self, now: u64) -> u64
        ensures { result ≡ spec.sched_until self.now now }
    {
        match self.waited_until(now) {
            Some(waited) => waited,
            None => self.sched.saturating_add(self.lasting(now)),
        }
    }
}

impl OpRow {
    /// How many nanoseconds its polls ran up to a moment, the open one with them.
    pub fn busy_until(&self, now: u64) -> u64
        ensures { result ≡ spec.op_busy_until self.now now }
    {
        self.busy
            .saturating_add(open_for(self.polling, self.last_started, now))
    }
}
