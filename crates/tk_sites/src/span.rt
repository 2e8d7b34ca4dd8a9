//! What the tasks of places came to within a span of a stream.
ghost use Rattle.std.specs.Prelude.{◌≡◌};
ghost use Rattle.tk_sites.specs.Span as spec;

use crate::sums::Sums;
use crate::times::{Histogram, SiteTimes, untold};
use tk_report::percentile_high;
use tk_series::{Added, Limited};

/// The longest of a span's times, in nanoseconds.
#[derive(Clone, Copy, Debug, PartialEq, Eq)]
pub enum Longest {
    /// It is this. It is 0 if there are no times.
    Known(u64),
    /// It isn't known, and no time is longer than this.
    AtMost(u64),
}

/// How long some tasks' polls ran within a span, or how long they waited.
#[derive(Clone, Copy, Debug, PartialEq, Eq)]
pub struct SpanHistogram {
    /// How many of the tasks have such a histogram at the end.
    pub tasks: u64,
    /// The longest of the times.
    pub longest: Longest,
    /// How many times lie in each of the fourteen buckets that a task's histogram has, the shortest first.
    pub counts: [u64; 14],
}

/// How long the polls of a place's tasks ran within a span, and how long they waited.
#[derive(Clone, Copy, Debug, PartialEq, Eq)]
pub struct SpanTimes {
    /// Their polls that ended.
    pub polls: SpanHistogram,
    /// Their waits that ended, of those tasks whose waits are counted.
    pub waits: SpanHistogram,
}

// ---- places at the moment

// What all others had come to, if they stand at this index.
fn rest_then<V: Added>(old: &Limited<V>, index: usize) -> Option<V>
    ensures { result ≡ spec.rest_then old.now index }
{
    if index == old.len() { old.rest() } else { None }
}

/// What the place at an index had come to, if it was there. The one more stands behind those that stand by themselves.
pub(crate) fn value_then<V: Added>(old: &Limited<V>, index: usize) -> Option<V>
    ensures { result ≡ spec.value_then old.now index }
{
    match old.at(index) {
        Some((_, value)) => Some(value),
        None => rest_then(old, index),
    }
}

/// The sums of a place within a span, if it had come to anything at its begin.
pub(crate) fn sums_by(old: Option<Sums>, sums: Sums) -> Sums
    ensures { result ≡ spec.sums_by old sums }
{
    match old {
        Some(old) => sums.since(old),
        None => sums,
    }
}

/// The histograms of the place at an index, at the begin of a span. A place that wasn't there had none.
pub(crate) fn times_then(old: &Option<Limited<SiteTimes>>, index: usize) -> SiteTimes
    ensures { result ≡ spec.times_then old.now index }
{
    match old {
        Some(all) => value_then(all, index).unwrap_or(untold()),
        None => untold(),
    }
}

// ---- histograms

// The counts less what they were, bucket by bucket.
fn counts_since(old: &[u64; 14], now: &[u64; 14]) -> [u64; 14]
    ensures { result ≡ spec.counts_since old.now now.now }
{
    let mut counts = [0; 14];
    for bucket in 0..14 {
        counts[bucket] = now[bucket].saturating_sub(old[bucket]);
    }
    counts
}

fn bounded(bound: u64) -> Longest
    ensures { result ≡ spec.bounded bound }
{
    if bound == 0 {
        Longest::Known(0)
    } else {
        Longest::AtMost(bound)
    }
}

fn longest_since(old: u64, longest: u64, counts: &[u64; 14]) -> Longest
    ensures { result ≡ spec.longest_since old longest counts.now }
{
    if old < longest {
        Longest::Known(longest)
    } else {
        bounded(percentile_high(longest, counts, 100).unwrap_or(0))
    }
}

fn histogram_since(old: &Histogram, now: &Histogram) -> SpanHistogram
    ensures { result ≡ spec.histogram_since old.now now.now }
{
    let counts = counts_since(&old.counts, &now.counts);
    SpanHistogram {
        tasks: now.tasks,
        longest: longest_since(old.longest, now.longest, &counts),
        counts,
    }
}

impl SiteTimes {
    /// What these histograms are since they were those: their counts are less by what they were, bucket by bucket, and never below 0.
    ///
    /// The longest time is known if it grew. Otherwise its bound is the end of the last bucket that counts any, or the longest of all if that is
    /// shorter.
    pub fn since(&self, old: &SiteTimes) -> SpanTimes
        ensures { result ≡ spec.times_since old.now self.now }
    {
        SpanTimes {
            polls: histogram_since(&old.polls, &self.polls),
            waits: histogram_since(&old.waits, &self.waits),
        }
    }
}
