//! A stream up to a moment, and when a stream ends.
//!
//! - [`Until`]: a reader that ends before the first line whose moment is later.
//! - [`end_of_stream`]: the moment of a stream's last line.
//! - [`laws`]: what holds of the prefix of a stream that it gives.
//!
//! `specs/Front.antt` says which prefix that is.
#![tactic(auto)]

mod end;
mod held;
pub mod laws;
mod until;

pub use end::end_of_stream;
pub use until::Until;
