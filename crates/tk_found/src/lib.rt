//! What is odd about a stream's tasks, as lines of text.
//!
//! - [`view_findings`]: reads a stream to its end, and writes what is odd about it, alone or below the report of its tables.
//! - [`limits_by`]: how much is too much, by milliseconds.
//! - [`kinds_text`]: which kinds of findings there are, and what to do about each.
#![tactic(auto)]

mod kinds;
mod lines;
mod view;

pub use kinds::kinds_text;
pub use view::{limits_by, view_findings};
