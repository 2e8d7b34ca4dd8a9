//! What one call did that takes events in, reads the ledgers, and publishes.

/// What a call of [`crate::Aggregator::collect_and_publish`] did.
#[derive(Clone, Copy, Debug, PartialEq, Eq)]
pub struct Published {
    /// How many events were taken in.
    pub events: u64,
    /// The number of the line.
    pub number: u64,
}
