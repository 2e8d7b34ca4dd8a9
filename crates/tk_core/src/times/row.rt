//! The row of a histogram of times.
ghost use Rattle.std.specs.Prelude.{◌≡◌};

/// The longest of the times that were added, and how many of them lie in each bucket.
///
/// Times are nanoseconds. Counts stop at 2^64 - 1.
#[derive(Clone, Copy, Debug, PartialEq, Eq)]
pub struct TimesRow {
    /// How many handles were drawn: inspectors.
    pub handles: u64,
    /// The longest time, and 0 where none was added.
    pub longest: u64,
    /// How many of the times lie in each bucket, the shortest first.
    pub counts: [u64; 14],
}

impl TimesRow {
    ghost use Rattle.tk_core.specs.Times.{opening_row};

    /// The row of a histogram that no time was added to.
    pub fn opening() -> Self
        ensures { result ≡ opening_row }
    {
        TimesRow {
            handles: 0,
            longest: 0,
            counts: [0; 14],
        }
    }
}
