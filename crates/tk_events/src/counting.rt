//! What is counted of a new task.

/// What is counted of a task beside the statistics that each has.
#[derive(Clone, Copy, Debug, PartialEq, Eq)]
pub struct Counting {
    /// A histogram of how long its polls run, in nanoseconds.
    pub times: bool,
    /// How long it waits for its polls in all, in nanoseconds: each wait from its first wake on.
    pub waits: bool,
}
