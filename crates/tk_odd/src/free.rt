//! What steps are like in which no task has a long poll.
ghost use Rattle.std.specs.Prelude.{◌≡◌};
ghost use Rattle.tk_odd.specs.Steps as spec;

/// What the steps were like in which no task had a long poll. Times are nanoseconds.
#[derive(Clone, Copy, Debug, PartialEq, Eq)]
pub struct Free {
    /// How many polls started.
    pub polls: u64,
    /// How long these steps were in all.
    pub time: u64,
    /// For how long no task has been polled.
    pub lull: u64,
    /// For how long no task was polled, at most.
    pub longest: u64,
}

impl Free {
    /// No step.
    pub fn none() -> Free
        ensures { result ≡ record { polls = 0; time = 0; lull = 0; longest = 0 } }
    {
        Free {
            polls: 0,
            time: 0,
            lull: 0,
            longest: 0,
        }
    }

    /// A step more, in which so many polls started.
    pub(crate) fn with(self, time: u64, polls: u128) -> Free
        ensures { result ≡ spec.with_free time polls self }
    {
        let lull = if polls == 0 {
            self.lull.saturating_add(time)
        } else {
            0
        };
        let all = polls.saturating_add(u128::from(self.polls));
        Free {
            polls: all.min(u128::from(u64::MAX)) as u64,
            time: self.time.saturating_add(time),
            lull,
            longest: self.longest.max(lull),
        }
    }
}
