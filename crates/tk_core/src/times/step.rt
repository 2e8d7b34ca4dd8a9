//! One call on the row of a histogram.
ghost use Rattle.std.specs.Prelude.{◌≡◌, ◌<◌};
ghost use Rattle.tk_core.specs.Fold.{Follows};
ghost use Rattle.tk_core.specs.Times.{times_kind, bucket_of};

use crate::limits::MOST_HANDLES;
use crate::reply::{Refusal, Reply};
use crate::times::{TimesCall, TimesRow};

/// The bucket of a time, counted from 0: how many of the thirteen bounds it has reached.
#[inline(always)]
pub fn bucket_of(time: u64) -> usize
    ensures bucket { result ≡ bucket_of time }
    ensures few { result < 14 }
{
    usize::from(time >= 1 << 14)
        + usize::from(time >= 1 << 15)
        + usize::from(time >= 1 << 16)
        + usize::from(time >= 1 << 17)
        + usize::from(time >= 1 << 18)
        + usize::from(time >= 1 << 19)
        + usize::from(time >= 1 << 20)
        + usize::from(time >= 1 << 21)
        + usize::from(time >= 1 << 22)
        + usize::from(time >= 1 << 23)
        + usize::from(time >= 1 << 24)
        + usize::from(time >= 1 << 25)
        + usize::from(time >= 1 << 26)
}

impl TimesRow {
    /// One call: the next row, and the reply.
    #[inline(always)]
    pub fn step(&self, call: TimesCall) -> (TimesRow, Reply<TimesRow>)
        ensures { Follows times_kind self.now call result }
    {
        match call {
            TimesCall::Add(time) => self.add(time),
            TimesCall::Enlist => self.enlist(),
            TimesCall::Read => (*self, Reply::Shown(*self)),
        }
    }

    #[inline(always)]
    fn add(&self, time: u64) -> (TimesRow, Reply<TimesRow>)
        ensures { Follows times_kind self.now (TimesCall.Add time) result }
    {
        let bucket = bucket_of(time);
        let mut counts = self.counts;
        counts[bucket] = counts[bucket].saturating_add(1);
        let row = TimesRow {
            longest: self.longest.max(time),
            counts,
            ..*self
        };
        (row, Reply::Done)
    }

    fn enlist(&self) -> (TimesRow, Reply<TimesRow>)
        ensures { Follows times_kind self.now TimesCall.Enlist result }
    {
        if self.handles == MOST_HANDLES {
            return (*self, Reply::Refused(Refusal::HandlesSpent));
        }
        let handles = self.handles.saturating_add(1);
        let row = TimesRow { handles, ..*self };
        (row, Reply::Number(handles))
    }
}
