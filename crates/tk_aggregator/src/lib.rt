//! The aggregator: it takes the events of recorders, reads the ledgers of their items, and writes the lines of a stream.
//!
//! - [`Aggregator`]: the tables of what was recorded, and the stream that tells of them.
//! - [`Published`]: what its one call did that takes events in, reads the ledgers, and publishes.
//! - [`StreamError`]: why a line was not written, or events were not taken.
#![tactic(auto)]

mod aggregator;
mod ledgered;
mod published;
mod removal;
mod stream_error;
mod timing;

pub use aggregator::Aggregator;
pub use published::Published;
pub use stream_error::StreamError;
