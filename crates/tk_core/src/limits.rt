//! Limits of every ledger.

/// How many handles an item draws at most. A call that would draw one more is refused.
pub const MOST_HANDLES: u64 = 1 << 62;
