//! What was waited, shared out.

/// What tasks waited, shared out, in nanoseconds: together it is all that they waited.
#[derive(Clone, Copy, Debug, PartialEq, Eq)]
pub struct Shares {
    /// What tasks that ran long are charged with.
    pub charged: u64,
    /// What was waited in the queue that each service has.
    pub queued: u64,
    /// What was waited and is nobody's.
    pub nobody: u64,
}
