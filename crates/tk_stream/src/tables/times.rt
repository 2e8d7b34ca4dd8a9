//! Histograms of poll times and of waits, in lines and beside tables.
//!
//! `specs/Times.antt` says what a line says of them, and `times_after` of `specs/Applied.antt` what they are after a line.
ghost use Rattle.std.specs.Prelude.{ℕ, ◌≡◌, ◌+◌, ◌≤◌, ◌∷◌, suc, option_map, option_and_then};
ghost use Rattle.tk_core.specs.Percentiles.{IsPercentile};
ghost use Rattle.tk_stream.specs.Times as spec;

use crate::tables::item::Item;
use crate::told::Told;
use tk_core::TimesRow;
use tk_ids::TaskId;

/// How long the ended polls of a task ran, as its histogram shows it: the longest, and how many lie in each of fourteen buckets. Where
/// the task's waits are counted, their histogram stands beside it.
///
/// Times are nanoseconds. Thirteen bounds, the powers of two from 2^14 to 2^26, make the buckets. Counts stop at 2^64 - 1.
#[derive(Clone, Copy, Debug, PartialEq, Eq)]
pub struct PollTimes {
    /// How long the longest poll ran, and 0 where none has ended.
    pub longest: u64,
    /// How many polls ran for a time of each bucket, the shortest first.
    pub counts: [u64; 14],
    /// How long the task's waits took, where they are counted.
    pub waits: Option<WaitTimes>,
}

/// How long the ended waits of a task took, each from the moment since when it could have run to the start of its poll: the longest, and
/// how many lie in each of the fourteen buckets that polls have.
#[derive(Clone, Copy, Debug, PartialEq, Eq)]
pub struct WaitTimes {
    /// How long the longest wait took, in nanoseconds, and 0 where none has ended.
    pub longest: u64,
    /// How many waits took a time of each bucket, the shortest first.
    pub counts: [u64; 14],
}

impl PollTimes {
    /// What a histogram's row shows, without its handles, of a task whose waits aren't counted.
    pub fn of(row: &TimesRow) -> PollTimes
        ensures { result ≡ spec.times_shown row.now }
    {
        PollTimes {
            longest: row.longest,
            counts: row.counts,
            waits: None,
        }
    }

    /// What the rows of two histograms show, without their handles: that of a task's polls, and that of its waits.
    pub fn of_both(polls: &TimesRow, waits: &TimesRow) -> PollTimes
        ensures { result ≡ spec.both_shown polls.now waits.now }
    {
        PollTimes {
            waits: Some(WaitTimes::of(waits)),
            ..PollTimes::of(polls)
        }
    }

    /// The bucket, counted from 0, in which such a percentile of the times lies, 1 to 100: of a hundred of them fewer lie in the buckets
    /// before it, and at least so many in these and it. `None` where no poll has ended.
    ///
    /// A count that has stopped at 2^64 - 1 counts as that.
    pub fn percentile(&self, percent: u64) -> Option<usize>
        requires some { 1 ≤ percent }
        requires most { percent ≤ 100 }
        ensures { IsPercentile percent self.now.counts result }
    {
        percentile(self.longest, self.counts, percent)
    }
}

impl WaitTimes {
    /// What the row of a histogram of waits shows, without its handles.
    pub fn of(row: &TimesRow) -> WaitTimes
        ensures { result ≡ spec.waits_shown row.now }
    {
        let TimesRow {
            longest,
            counts,
            ..
        } = *row;
        WaitTimes { longest, counts }
    }

    /// The bucket, counted from 0, in which such a percentile of the waits lies, 1 to 100, as [`PollTimes::percentile`] says it of polls.
    /// `None` where no wait has ended.
    pub fn percentile(&self, percent: u64) -> Option<usize>
        requires some { 1 ≤ percent }
        requires most { percent ≤ 100 }
        ensures { IsPercentile percent self.now.counts result }
    {
        percentile(self.longest, self.counts, percent)
    }
}

fn percentile(longest: u64, counts: [u64; 14], percent: u64) -> Option<usize>
    requires some { 1 ≤ percent }
    requires most { percent ≤ 100 }
    ensures { IsPercentile percent counts result }
{
    let row = TimesRow {
        handles: 0,
        longest,
        counts,
    };
    row.percentile(percent)
}

/// A task, and the histogram of its poll times.
impl Item for (TaskId, PollTimes) {
    ghost use Rattle.std.specs.Prelude.{refl};
    ghost use Rattle.tk_stream.specs.Times.{times_id, times_with};
    ghost use Rattle.tk_stream.specs.Entries.{same_times};

    type Row = PollTimes;

    ghost id_of = { times_id };

    ghost with_row = { times_with };

    ghost row_of = { λ item. item.1 };

    ghost keeps_id = { λ item row. refl };

    ghost own_row = { λ item. refl };

    ghost last_row = { λ item first last. refl };

    ghost copies = { same_times };

    fn id(&self) -> u64 {
        self.0.value()
    }

    fn row(&self) -> PollTimes {
        self.1
    }

    fn set_row(&mut self, row: PollTimes) {
        self.1 = row;
    }
}

impl Told for (TaskId, PollTimes) {
    ghost use Rattle.tk_stream.specs.Times.{same_times, all_times};

    type Stats = (TaskId, PollTimes);

    ghost same = { same_times };

    ghost stats_of = { all_times };

    fn is_same(&self, other: &(TaskId, PollTimes)) -> bool {
        self.0 == other.0 && self.1 == other.1
    }

    #[inline]
    fn has_row(&self, row: &PollTimes) -> bool {
        let id = self.0;
        id == self.0 && *row == self.1
    }

    fn see_same(&self) {}

    fn stats(&self) -> (TaskId, PollTimes) {
        *self
    }
}

// The count of a bucket, where it is the first of these that aren't empty, and the others.
fn take_bucket(filled: &[(u64, u64)], bucket: u64) -> Option<(u64, &[(u64, u64)])>
    ensures { (n : ℕ) → spec.counts_from bucket (suc n) filled.now
        ≡ option_and_then (λ x. option_map (λ ns. x.0 ∷ ns) (spec.counts_from (bucket + 1) n x.1.now)) result }
{
    let [first, rest @ ..] = filled else {
        return Some((0, filled));
    };
    let (number, count) = *first;
    if number != bucket {
        return Some((0, filled));
    }
    if count == 0 {
        return None;
    }
    Some((count, rest))
}

/// The counts of fourteen buckets, of which these, in rising order, are those that aren't empty.
pub(crate) fn counts_of(filled: &[(u64, u64)]) -> Option<[u64; 14]>
    ensures { result ≡ spec.counts_from 0 14 filled.now }
{
    let mut counts = [0; 14];
    let mut rest = filled;
    for bucket in 0..14 {
        let (count, after) = take_bucket(rest, bucket as u64)?;
        counts[bucket] = count;
        rest = after;
    }
    if rest.len() > 0 { None } else { Some(counts) }
}
