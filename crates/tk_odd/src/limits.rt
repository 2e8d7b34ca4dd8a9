//! How much is too much.

use tk_client::Lints;

/// How much is too much.
#[derive(Clone, Copy, Debug, PartialEq, Eq)]
pub struct Limits {
    /// How long a poll may run, and others may wait for it, in nanoseconds. A step of a stream is as long.
    pub long: u64,
    /// What warnings go by. A task may wait for a poll as long as a first poll may run.
    pub lints: Lints,
}
