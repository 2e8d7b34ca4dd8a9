//! A stream, read to its end or piece by piece, and what watches its lines.
//!
//! - [`read_stream`]: feeds a client all bytes of a reader. [`feed_lines`]: a piece of them.
//! - [`Observes`]: what watches each line: the tables after it, and what it changed. [`Unwatched`] does nothing with them, and [`Both`] are two.
//! - [`MAX_LINE`], [`PIECE`]: how many bytes a line has at most, and how many are read at a time.
//! - [`Pace`], [`Every`]: when what a stream has come to is shown anew, while it comes.
#![tactic(auto)]

mod observes;
mod pace;
mod reading;

pub use observes::{Both, Observes, Unwatched};
pub use pace::{Every, Pace};
pub use reading::{MAX_LINE, PIECE, feed_lines, read_stream};
