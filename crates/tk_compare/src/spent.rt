//! What is compared of a place.
ghost use Rattle.std.specs.Prelude.{◌≡◌};
ghost use Rattle.tk_sites.specs.Times as times;
ghost use Rattle.tk_compare.specs.Spent as spec;

use tk_odd::Held;
use tk_series::Added;
use tk_sites::{Histogram, SiteTimes, Sums};

/// Which of two streams.
#[derive(Clone, Copy, Debug, PartialEq, Eq)]
pub enum Side {
    /// The earlier one.
    Before,
    /// The later one.
    After,
}

/// What the tasks of places came to in one stream. A sum that passes 2^64 - 1 stays there.
#[derive(Clone, Copy, Debug, PartialEq, Eq)]
pub struct Spent {
    /// How many places these are; 0 where the stream has none.
    pub places: u64,
    /// How many polls started.
    pub polls: u64,
    /// How long ended polls ran, in nanoseconds.
    pub ran: u64,
    /// How long tasks waited, in nanoseconds: all of it where a task counts that, and else since its last wakes.
    pub waited: u64,
    /// How long others waited while a task of them ran long, in nanoseconds, at least.
    pub held: u64,
    /// The histograms of how long polls ran and tasks waited, where tasks have such.
    pub times: SiteTimes,
}

/// What the tasks of places came to in both streams.
#[derive(Clone, Copy, Debug, PartialEq, Eq)]
pub struct Compared {
    /// In the stream before.
    pub before: Spent,
    /// In the stream after.
    pub after: Spent,
}

/// What a stream has of each of its places, as a part of what is compared.
pub(crate) trait Part: Added {
    ghost use Rattle.tk_compare.specs.declared.spent.Spent.{Spent as SpentView};

    ghost spent: { Self → SpentView };

    /// What it adds to a place.
    fn spent(self) -> Spent
        ensures { result ≡ spent self };
}

fn no_histogram() -> Histogram
    ensures { result ≡ times.no_histogram }
{
    Histogram {
        tasks: 0,
        longest: 0,
        counts: [0; 14],
    }
}

impl Spent {
    fn none() -> Spent
        ensures { result ≡ spec.unspent }
    {
        Spent {
            places: 0,
            polls: 0,
            ran: 0,
            waited: 0,
            held: 0,
            times: SiteTimes {
                polls: no_histogram(),
                waits: no_histogram(),
            },
        }
    }

    fn with(self, more: Spent) -> Spent
        ensures { result ≡ spec.both_spent self more }
    {
        Spent {
            places: self.places.saturating_add(more.places),
            polls: self.polls.saturating_add(more.polls),
            ran: self.ran.saturating_add(more.ran),
            waited: self.waited.saturating_add(more.waited),
            held: self.held.saturating_add(more.held),
            times: self.times.plus(more.times),
        }
    }
}

impl Part for Sums {
    ghost use Rattle.tk_compare.specs.Spent as spec;

    ghost spent = { spec.spent_of };

    fn spent(self) -> Spent {
        Spent {
            places: 1,
            polls: self.polls,
            ran: self.busy,
            waited: self.waited,
            ..Spent::none()
        }
    }
}

impl Part for SiteTimes {
    ghost use Rattle.tk_compare.specs.Spent as spec;

    ghost spent = { spec.timed_of };

    fn spent(self) -> Spent {
        Spent {
            times: self,
            ..Spent::none()
        }
    }
}

impl Part for Held {
    ghost use Rattle.tk_compare.specs.Spent as spec;

    ghost spent = { spec.held_of };

    fn spent(self) -> Spent {
        Spent {
            held: self.charged,
            ..Spent::none()
        }
    }
}

impl Compared {
    /// Of places of one stream.
    pub(crate) fn of(side: Side, spent: Spent) -> Compared
        ensures { result ≡ spec.in_stream side spent }
    {
        let none = Spent::none();
        match side {
            Side::Before => Compared {
                before: spent,
                after: none,
            },
            Side::After => Compared {
                before: none,
                after: spent,
            },
        }
    }
}

impl Added for Compared {
    ghost use Rattle.tk_compare.specs.Spent as spec;

    ghost plus = { spec.plus };

    ghost copies = { λ a b e. e };

    fn plus(self, more: Compared) -> Compared {
        Compared {
            before: self.before.with(more.before),
            after: self.after.with(more.after),
        }
    }
}
