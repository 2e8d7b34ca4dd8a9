//! A watch by a person at keys: the stream and the keys are read by a thread each.
//!
//! - [`watch_terminal`]: watches a stream, with keys from the terminal.
#![tactic(auto)]

mod inputs;
mod terminal;

pub use terminal::watch_terminal;
