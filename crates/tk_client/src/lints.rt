//! How much is too much.
ghost use Rattle.std.specs.Prelude.{◌≡◌, ◌≤◌, ◌<◌, None, IfSome, IsSome};
ghost use Rattle.tk_client.specs.Warnings.{default_lints};

use std::marker::Model;

/// From when on a task is warned of. The default is 50 percent and 1,000,000,000 nanoseconds, which is a second.
#[derive(Clone, Copy, Debug, PartialEq, Eq)]
pub struct Lints {
    percent: u64,
    limit: u64,
}

impl Model for Lints {
    ghost use Rattle.std.specs.Prelude.{◌≤◌};
    ghost use Rattle.tk_client.specs.Warnings.{LintsView};

    ghost Value = { LintsView };

    ghost view = { λ l. record { self_wake_percent = l.percent; never_yielded_ns = l.limit } };

    ghost invariant = { λ l. l.percent ≤ 100 };

    ghost inverse = { λ v. record { percent = v.self_wake_percent; limit = v.never_yielded_ns } };
}

impl Lints {
    /// A task is warned of where more than `self_wake_percent` of a hundred of its wakes are its own, and where its first
    /// poll has run for `never_yielded_ns` nanoseconds. `None` where the percentage is above 100.
    pub fn new(self_wake_percent: u64, never_yielded_ns: u64) -> Option<Lints>
        ensures some { IfSome result (λ lints. lints ≡ record { self_wake_percent = self_wake_percent; never_yielded_ns = never_yielded_ns }) }
        ensures within { self_wake_percent ≤ 100 → IsSome result }
        ensures above { 100 < self_wake_percent → result ≡ None }
    {
        if self_wake_percent > 100 {
            return None;
        }
        Some(Lints {
            percent: self_wake_percent,
            limit: never_yielded_ns,
        })
    }

    /// How many of a hundred wakes may be a task's own.
    pub fn self_wake_percent(&self) -> u64
        ensures value { result ≡ self.now.self_wake_percent }
        ensures within { result ≤ 100 }
    {
        self.percent
    }

    /// For how many nanoseconds a first poll runs before its task is warned of.
    pub fn never_yielded_ns(&self) -> u64
        ensures { result ≡ self.now.never_yielded_ns }
    {
        self.limit
    }
}

impl Default for Lints {
    ghost is_default = { λ lints. lints ≡ default_lints };

    fn default() -> Lints {
        Lints {
            percent: 50,
            limit: 1_000_000_000,
        }
    }
}
