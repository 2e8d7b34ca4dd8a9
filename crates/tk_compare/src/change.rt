//! What a change is.
ghost use Rattle.std.specs.Prelude.{◌≡◌, ◌≤◌, ◌^◌};
ghost use Rattle.tk_compare.specs.Changes as spec;

use crate::spent::{Compared, Spent};

/// Nanoseconds of a second.
const SECOND: u128 = 1_000_000_000;

/// How much more or less is a change.
#[derive(Clone, Copy, Debug, PartialEq, Eq)]
pub struct Margin {
    /// More than so many percent of what it was before, of a second and for each poll.
    pub percent: u32,
    /// And so many nanoseconds of a second, at least.
    pub least: u64,
}

/// How long two streams took, in nanoseconds.
#[derive(Clone, Copy, Debug, PartialEq, Eq)]
pub struct Spans {
    /// The stream before.
    pub before: u64,
    /// The stream after.
    pub after: u64,
}

/// How much of a second, and for each poll, some tasks ran or waited, in nanoseconds.
#[derive(Clone, Copy, Debug, PartialEq, Eq)]
pub(crate) struct Shares {
    /// Of a second.
    pub second: u64,
    /// For each poll.
    pub poll: u64,
}

/// How a place changed.
#[derive(Clone, Copy, Debug, PartialEq, Eq)]
pub enum Change {
    /// Of each second, and for each poll, its tasks ran or waited more, and not as much less.
    Worse,
    /// The stream before has no such place.
    New,
    /// Of each second, and for each poll, its tasks ran or waited less, and not as much more.
    Better,
    /// The stream after has no such place.
    Gone,
    /// None of these.
    Same,
}

/// What so much in a span of nanoseconds comes to in a second: rounded down, and at most 2^64 - 1.
pub fn rate(span: u64, n: u64) -> u64
    ensures { result ≡ spec.rate span n }
{
    let all = u128::from(n) * SECOND;
    let rate = all / u128::from(span.max(1));
    rate.min(u128::from(u64::MAX)) as u64
}

/// The same in hundredths.
pub fn rate_in_hundredths(span: u64, n: u64) -> u64
    ensures { result ≡ spec.rate_in_hundredths span n }
{
    let all = u128::from(n) * (100 * SECOND);
    let rate = all / u128::from(span.max(1));
    rate.min(u128::from(u64::MAX)) as u64
}

impl Shares {
    // So long over these polls, in a stream that took this time.
    fn of(span: u64, spent: &Spent, n: u64) -> Shares
        ensures { result ≡ spec.shares_of span spent.now n }
    {
        Shares {
            second: rate(span, n),
            poll: n / spent.polls.max(1),
        }
    }

    fn ran(span: u64, spent: &Spent) -> Shares
        ensures { result ≡ spec.ran_of span spent.now }
    {
        Shares::of(span, spent, spent.ran)
    }

    fn waited(span: u64, spent: &Spent) -> Shares
        ensures { result ≡ spec.waited_of span spent.now }
    {
        Shares::of(span, spent, spent.waited)
    }
}

impl Margin {
    // Whether a number is greater than before by more than this margin's percent.
    fn is_more(self, before: u64, after: u64) -> bool
        ensures { result ≡ spec.is_more self.percent before after }
    {
        u128::from(before) * (100 + u128::from(self.percent)) < u128::from(after) * 100
    }

    // Whether a time rose by more than this margin.
    fn rose(self, before: Shares, after: Shares) -> bool
        ensures { result ≡ spec.rose self before after }
    {
        self.least <= after.second.saturating_sub(before.second)
            && self.is_more(before.second, after.second)
            && self.is_more(before.poll, after.poll)
    }

    // By how much of a second it rose, if that is a change.
    fn risen(self, before: Shares, after: Shares) -> u128
        ensures is { result ≡ spec.risen self before after }
        ensures few { result ≤ 2 ^ 64 }
    {
        if self.rose(before, after) {
            u128::from(after.second.saturating_sub(before.second))
        } else {
            0
        }
    }

    // How much more of each second tasks ran and waited, and how much less.
    fn more_of(self, spans: Spans, x: &Compared) -> u128
        ensures is { result ≡ spec.more_of self spans x.now }
        ensures few { result ≤ 2 ^ 65 }
    {
        let ran = self.risen(
            Shares::ran(spans.before, &x.before),
            Shares::ran(spans.after, &x.after),
        );
        let waited = self.risen(
            Shares::waited(spans.before, &x.before),
            Shares::waited(spans.after, &x.after),
        );
        ran + waited
    }

    fn less_of(self, spans: Spans, x: &Compared) -> u128
        ensures is { result ≡ spec.less_of self spans x.now }
        ensures few { result ≤ 2 ^ 65 }
    {
        let ran = self.risen(
            Shares::ran(spans.after, &x.after),
            Shares::ran(spans.before, &x.before),
        );
        let waited = self.risen(
            Shares::waited(spans.after, &x.after),
            Shares::waited(spans.before, &x.before),
        );
        ran + waited
    }
}

// How much changed, of which some is more and some is less.
fn by_both(more: u128, less: u128) -> Change
    requires more { more ≤ 2 ^ 65 }
    requires less { less ≤ 2 ^ 65 }
    ensures { result ≡ spec.by_both more less }
{
    if more + less == 0 {
        Change::Same
    } else if less <= more {
        Change::Worse
    } else {
        Change::Better
    }
}

/// How a place changed between two streams that took so long.
pub fn change_of(margin: Margin, spans: Spans, x: &Compared) -> Change
    ensures { result ≡ spec.change_of margin spans x.now }
{
    if x.before.places == 0 {
        Change::New
    } else if x.after.places == 0 {
        Change::Gone
    } else {
        by_both(margin.more_of(spans, x), margin.less_of(spans, x))
    }
}
