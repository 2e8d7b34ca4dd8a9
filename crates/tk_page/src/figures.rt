//! The numbers of a page.
ghost use Rattle.std.specs.Prelude.{◌≡◌, ◌≤◌, ◌-◌, take};
ghost use Rattle.tk_page.specs.Figures as spec;

/// A part of a whole, in thousandths: at most 1000, and 0 of no whole.
pub(crate) fn share(part: u64, whole: u64) -> u64
    ensures share { result ≡ spec.share_of part whole }
    ensures most { result ≤ 1000 }
{
    if whole == 0 {
        0
    } else if part >= whole {
        1000
    } else {
        let share = 1000 * u128::from(part) / u128::from(whole);
        u64::try_from(share).unwrap_or(1000)
    }
}

/// A quotient in thousandths, which may be above 1000.
pub(crate) fn mean(part: u64, whole: u64) -> u64
    ensures { result ≡ spec.mean_of part whole }
{
    if whole == 0 {
        0
    } else {
        let mean = 1000 * u128::from(part) / u128::from(whole);
        u64::try_from(mean).unwrap_or(u64::MAX)
    }
}

/// A quotient, and 0 where there is none.
pub(crate) fn each(sum: u64, count: u64) -> u64
    ensures { result ≡ spec.each_of sum count }
{
    if count == 0 { 0 } else { sum / count }
}

/// The first of items, at most so many.
pub(crate) fn front<T>(items: &[T], most: usize) -> &[T]
    ensures { result.now ≡ take most items.now }
{
    &items[..items.len().min(most)]
}

/// A count of tables.
pub(crate) fn count(n: usize) -> u64
    ensures { result ≡ n }
{
    n as u64
}

/// The width of a page: where moments stand.
#[derive(Clone, Copy)]
pub(crate) struct Scale {
    /// The moment at its left.
    pub start: u64,
    /// The moment at its right.
    pub now: u64,
}

impl Scale {
    /// How long the time is that the page shows.
    pub fn watched(self) -> u64
        ensures { result ≡ spec.watched self }
    {
        self.now.saturating_sub(self.start)
    }

    // How many nanoseconds a unit of width is. There are at most 1000 of them.
    fn unit(self) -> u64
        ensures { result ≡ spec.unit_of self }
    {
        self.watched() / 1000 + 1
    }

    /// Where a moment stands.
    pub fn x(self, moment: u64) -> u64
        ensures { result ≡ spec.x_of self moment }
    {
        moment.min(self.now).saturating_sub(self.start) / self.unit()
    }

    /// How wide the time is, at least 1.
    pub fn wide(self) -> u64
        ensures { result ≡ spec.wide_of self }
    {
        self.x(self.now).max(1)
    }

    /// How far a moment is from the left.
    pub fn since(self, moment: u64) -> u64
        ensures { result ≡ moment - self.start }
    {
        moment.saturating_sub(self.start)
    }
}
