//! Numbers of the samples of histograms.

use tk_series::Added;

/// A number of a histogram: how many times lie in a bucket, or all times together. A sum that passes 2^64 - 1 stays there.
#[derive(Clone, Copy, Debug, PartialEq, Eq)]
pub struct Counted {
    pub number: u64,
    /// Whether it is a time, in nanoseconds.
    pub is_time: bool,
}

impl Added for Counted {
    ghost use Rattle.tk_metrics.specs.Histograms as spec;

    ghost plus = { spec.plus_counted };

    ghost copies = { λ a b e. e };

    fn plus(self, more: Counted) -> Counted {
        Counted {
            number: self.number.saturating_add(more.number),
            is_time: self.is_time,
        }
    }
}
