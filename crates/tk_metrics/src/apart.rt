//! What samples of tasks are told apart by, and whether that has an end.

use crate::by::By;

/// What samples of tasks are told apart by, and how many labels stand by themselves.
#[derive(Clone, Copy, Debug, PartialEq, Eq)]
pub struct Apart {
    /// Which tasks are added up to one sample.
    pub by: By,
    /// How many labels of tasks stand by themselves, the first that come; all others are one, called `(others)`. Without it each does. By ids it says
    /// nothing.
    pub most: Option<u64>,
}

impl Apart {
    ghost use Rattle.std.specs.Prelude.{◌≡◌};
    ghost use Rattle.tk_metrics.specs.Keys.{room_of};

    /// How many labels stand by themselves, where they have an end.
    pub(crate) fn room(self) -> Option<u64>
        ensures { result ≡ room_of self }
    {
        if self.by.keeps_left() {
            self.most
        } else {
            None
        }
    }
}
