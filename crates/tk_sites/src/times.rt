//! How long the polls of a place's tasks ran, and how long they waited.
ghost use Rattle.std.specs.Prelude.{◌≡◌};
ghost use Rattle.tk_sites.specs.Times as spec;

use tk_series::Added;
use tk_stream::{PollTimes, WaitTimes};

/// How long some tasks' polls ran, or how long they waited: their histograms, added up. A number that passes 2^64 - 1 stays there.
#[derive(Clone, Copy, Debug, PartialEq, Eq)]
pub struct Histogram {
    /// How many of the tasks have such a histogram.
    pub tasks: u64,
    /// The longest of all times, in nanoseconds, and 0 if none has ended.
    pub longest: u64,
    /// How many times lie in each of the fourteen buckets that a task's histogram has, the shortest first.
    pub counts: [u64; 14],
}

/// How long the polls of a place's tasks ran, and how long they waited.
#[derive(Clone, Copy, Debug, PartialEq, Eq)]
pub struct SiteTimes {
    /// Their polls that ended.
    pub polls: Histogram,
    /// Their waits that ended, of those tasks whose waits are counted.
    pub waits: Histogram,
}

// The counts of both, bucket by bucket.
fn both_counts(first: &[u64; 14], more: &[u64; 14]) -> [u64; 14]
    ensures { result ≡ spec.both_counts first.now more.now }
{
    let mut counts = [0; 14];
    for bucket in 0..14 {
        counts[bucket] = first[bucket].saturating_add(more[bucket]);
    }
    counts
}

impl Histogram {
    fn none() -> Histogram
        ensures { result ≡ spec.no_histogram }
    {
        Histogram {
            tasks: 0,
            longest: 0,
            counts: [0; 14],
        }
    }

    fn one(longest: u64, counts: &[u64; 14]) -> Histogram
        ensures { result ≡ spec.one_histogram longest counts.now }
    {
        Histogram {
            tasks: 1,
            longest,
            counts: *counts,
        }
    }

    fn with(&self, more: &Histogram) -> Histogram
        ensures { result ≡ spec.both_histograms self.now more.now }
    {
        Histogram {
            tasks: self.tasks.saturating_add(more.tasks),
            longest: self.longest.max(more.longest),
            counts: both_counts(&self.counts, &more.counts),
        }
    }
}

fn waits_of(waits: &Option<WaitTimes>) -> Histogram
    ensures { result ≡ spec.waits_of waits.now }
{
    match waits {
        Some(waits) => Histogram::one(waits.longest, &waits.counts),
        None => Histogram::none(),
    }
}

fn told(times: &PollTimes) -> SiteTimes
    ensures { result ≡ spec.told times.now }
{
    SiteTimes {
        polls: Histogram::one(times.longest, &times.counts),
        waits: waits_of(&times.waits),
    }
}

/// Of a task that has no histograms.
pub(crate) fn untold() -> SiteTimes
    ensures { result ≡ spec.untold }
{
    SiteTimes {
        polls: Histogram::none(),
        waits: Histogram::none(),
    }
}

/// Of a task, whether it has histograms or not.
pub(crate) fn times_of(times: &Option<PollTimes>) -> SiteTimes
    ensures { result ≡ spec.times_of times.now }
{
    match times {
        Some(times) => told(times),
        None => untold(),
    }
}

impl Added for SiteTimes {
    ghost use Rattle.tk_sites.specs.Times as spec;

    ghost plus = { spec.plus_times };

    ghost copies = { λ a b e. e };

    fn plus(self, more: SiteTimes) -> SiteTimes {
        SiteTimes {
            polls: self.polls.with(&more.polls),
            waits: self.waits.with(&more.waits),
        }
    }
}
