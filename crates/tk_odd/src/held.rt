//! Places that held up others.

use tk_ids::TaskId;
use tk_series::Added;

/// For how long the tasks of a place held up others. Times are nanoseconds.
#[derive(Clone, Copy, Debug, PartialEq, Eq)]
pub struct Held {
    /// What they are charged with: in steps in which one of them ran long, for how long others waited for it, at least.
    pub charged: u64,
    /// For how long one of them ran while everything stood still.
    pub still: u64,
    /// When the first step began in which one was charged.
    pub since: Option<u64>,
    /// When the last such step ended, and 0 where there is none.
    pub until: u64,
    /// How long a poll of them is known to have run, at least.
    pub longest: u64,
    /// The task whose poll this was.
    pub task: TaskId,
    /// How many of them were charged.
    pub tasks: u64,
}

impl Added for Held {
    ghost use Rattle.tk_odd.specs.Diagnosis as spec;

    ghost plus = { spec.plus_held };

    ghost copies = { λ a b e. e };

    fn plus(self, more: Held) -> Held {
        Held {
            charged: self.charged.saturating_add(more.charged),
            still: self.still.saturating_add(more.still),
            since: self.since.or(more.since),
            until: self.until.max(more.until),
            longest: self.longest.max(more.longest),
            task: if more.longest <= self.longest {
                self.task
            } else {
                more.task
            },
            tasks: self.tasks.saturating_add(more.tasks),
        }
    }
}
