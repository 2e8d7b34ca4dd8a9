//! How long tasks of a place waited for those of another.

use tk_series::Added;

/// How long tasks of a place waited for those of another, in nanoseconds.
#[derive(Clone, Copy, Debug, PartialEq, Eq)]
pub struct Waited {
    /// At least so long, at most `u64::MAX`.
    pub time: u64,
}

impl Added for Waited {
    ghost use Rattle.tk_odd.specs.Victims as spec;

    ghost plus = { spec.plus_waited };

    ghost copies = { λ a b e. e };

    fn plus(self, more: Waited) -> Waited {
        Waited {
            time: self.time.saturating_add(more.time),
        }
    }
}
