//! The sizes of a console.
ghost use Rattle.std.specs.Prelude.{◌↔◌, IsTrue};
ghost use Rattle.tk_events.specs.Handles.{AreWithin};

use tk_ids::MOST_RECORDERS;

/// How many recorders there are, how many events the buffer holds at most, and how many offers a recorder makes at most.
#[derive(Clone, Copy, Debug, PartialEq, Eq)]
pub struct Limits {
    /// 1 to 64 (`MOST_RECORDERS`).
    pub recorders: u64,
    /// 1 to 65,536.
    pub capacity: u64,
    /// 1 to 2^40 - 1, for each recorder.
    pub offers: u64,
}

impl Limits {
    pub(crate) fn are_within(&self) -> bool
        ensures { IsTrue result ↔ AreWithin self.now }
    {
        1 <= self.recorders
            && self.recorders <= MOST_RECORDERS
            && 1 <= self.capacity
            && self.capacity <= 65536
            && 1 <= self.offers
            && self.offers <= (1 << 40) - 1
    }
}
