//! Why the service stops before its end.

use thiserror::Error;

/// Why the service stopped before its end.
#[derive(Clone, Copy, Debug, PartialEq, Eq, Error)]
pub enum Stop {
    /// There is no memory left.
    #[error("out of memory")]
    Memory,
    /// The machine's clock can't be read.
    #[error("the clock can't be read")]
    Clock,
    /// A line can't be written.
    #[error("the stream was cut off")]
    Stream,
    /// A client finds a fault in the stream.
    #[error("the stream can't be read back")]
    Unreadable,
}
