//! When one task ran, and another waited.
ghost use Rattle.std.specs.Prelude.{◌≡◌};
ghost use Rattle.tk_odd.specs.Apart as spec;

use crate::moved::Moved;
use tk_core::TaskRow;

/// A stretch of time, from one moment to another.
#[derive(Clone, Copy, Debug, PartialEq, Eq)]
pub struct Stretch {
    /// Its begin.
    pub from: u64,
    /// Its end.
    pub to: u64,
}

impl Stretch {
    // Whether no time lies in both.
    fn lies_apart(self, other: Stretch) -> bool
        ensures { result ≡ spec.lie_apart self other }
    {
        self.to <= other.from || other.to <= self.from
    }
}

fn last_poll(now: u64, row: &TaskRow, started: u64) -> Stretch
    ensures { result ≡ spec.last_poll now row.now started }
{
    let to = if row.polling {
        now
    } else {
        row.last_ended.unwrap_or(started)
    };
    Stretch { from: started, to }
}

/// The poll in which a task ran all that it ran in a step that ends now, if there is one.
pub(crate) fn only_run(now: u64, moved: &Moved) -> Option<Stretch>
    ensures { result ≡ spec.only_run now moved.now }
{
    let started = moved.row.last_started?;
    let poll = last_poll(now, &moved.row, started);
    if moved.gain.ran <= poll.to.saturating_sub(started) {
        Some(poll)
    } else {
        None
    }
}

fn still_waited(now: u64, moved: &Moved) -> u64
    ensures { result ≡ spec.still_waited now moved.now }
{
    moved.gain.waited.min(moved.row.waits_for(now))
}

fn waits_apart(now: u64, moved: &Moved, stretch: Stretch) -> bool
    ensures { result ≡ spec.waits_apart now moved.now stretch }
{
    let still = still_waited(now, moved);
    let wait = Stretch {
        from: now.saturating_sub(still),
        to: now,
    };
    still == 0 || stretch.lies_apart(wait)
}

fn waited_apart(now: u64, moved: &Moved, stretch: Stretch) -> bool
    ensures { result ≡ spec.waited_apart now moved.now stretch }
{
    let before = moved.gain.waited.saturating_sub(still_waited(now, moved));
    let started = moved.row.last_started.unwrap_or(0);
    let wait = Stretch {
        from: started.saturating_sub(before),
        to: started,
    };
    before == 0 || moved.gain.polls == 1 && stretch.lies_apart(wait)
}

/// Whether all that a task waited in a step that ends now is known to lie outside of a stretch.
pub(crate) fn is_outside(now: u64, moved: &Moved, stretch: Stretch) -> bool
    ensures { result ≡ spec.is_outside now moved.now stretch }
{
    moved.gain.polls <= 1 && waits_apart(now, moved, stretch) && waited_apart(now, moved, stretch)
}
