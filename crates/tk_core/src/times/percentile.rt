//! In which bucket of a histogram a percentile of its times lies.
ghost use Rattle.std.specs.Prelude.{◌≡◌, ◌+◌, ◌*◌, ◌<◌, ◌≤◌, length, take, MatchOption};
ghost use Rattle.tk_core.specs.Percentiles.{total_of, IsPercentile};

use crate::times::TimesRow;

// All counts. Those of one row are few, so a `u128` has room for them.
fn total_of(counts: &[u64]) -> u128
    requires { length counts.now ≤ 14 }
    ensures total { result ≡ total_of counts.now }
    ensures within { result ≤ 14 * 18446744073709551615 }
{
    let mut total = 0u128;
    for count in counts {
        total += u128::from(*count);
    }
    total
}

// The first bucket such that a hundred times what it and those before it count is what is needed, or more.
fn bucket_reaching(need: u128, counts: &[u64]) -> Option<usize>
    requires few { length counts.now ≤ 14 }
    requires some { 0 < need }
    ensures { MatchOption result (100 * total_of counts.now < need) (λ k. (100 * total_of (take k counts.now) < need) × (need ≤ 100 * total_of (take (k + 1) counts.now))) }
{
    let mut seen = 0u128;
    for (bucket, count) in counts.iter().enumerate() {
        seen += u128::from(*count);
        if need <= 100 * seen {
            return Some(bucket);
        }
    }
    None
}

impl TimesRow {
    /// The bucket, counted from 0, in which such a percentile of the times lies, 1 to 100: of a hundred of them fewer lie in the buckets
    /// before it, and at least so many in these and it. `None` where no time was added.
    ///
    /// A count that has stopped at 2^64 - 1 counts as that.
    pub fn percentile(&self, percent: u64) -> Option<usize>
        requires some { 1 ≤ percent }
        requires most { percent ≤ 100 }
        ensures { IsPercentile percent self.now.counts result }
    {
        let total = total_of(&self.counts);
        if total == 0 {
            return None;
        }
        bucket_reaching(u128::from(percent) * total, &self.counts)
    }
}
