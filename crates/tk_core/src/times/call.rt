//! The calls on a histogram of times.

/// A call on a histogram of times.
#[derive(Clone, Copy, Debug, PartialEq, Eq)]
pub enum TimesCall {
    /// One time more, in nanoseconds.
    Add(u64),
    /// An inspector is drawn, which draws a handle.
    Enlist,
    /// The row is read.
    Read,
}
