//! A client of a stream: it takes the stream's bytes in any pieces, and keeps the tables that its lines lead to.
//!
//! - [`Client`]: tables that are kept up by the lines that are fed, and histograms of poll times beside them.
//! - [`FedLine`], [`Change`]: what the client took line by line, and what each line changed. [`LeftTask`]: a task that has left.
//! - [`places_among`]: where tasks with some ids stand in the tables.
//! - [`Fault`]: why a line is not taken. [`FeedError`]: how far feeding came.
//! - [`Warning`], [`WarningKind`]: what is odd about a task. [`Lints`]: how much is too much.
//! - [`warnings_in`]: the warnings of any tables. [`is_spawn`], [`wakes_itself`], [`has_lost_waker`], [`has_never_yielded`]: what they go by.
//! - [`LongPoll`], [`long_polls_in`]: which tasks have a long poll. [`LongWait`], [`long_wait_of`]: which have a long wait.
//! - [`all_warnings_in`], [`AnyWarning`]: these and the others. [`TimeLimits`]: which of these are asked for.
//! - [`laws`]: what holds of the definitions by themselves.
#![tactic(auto)]

mod able;
mod any_warnings;
mod attrs;
mod candidates;
mod change;
mod client;
mod counts;
mod fault;
mod ids;
pub mod laws;
mod leaving;
mod lints;
mod listed;
mod long_polls;
mod long_waits;
mod ops;
mod resources;
mod shown;
mod taking;
mod tasks;
mod times;
mod warning;

pub use any_warnings::{AnyWarning, TimeLimits, all_warnings_in};
pub use candidates::warnings_in;
pub use change::{Change, LeftTask, places_among};
pub use client::{Client, FedLine};
pub use fault::{Fault, FeedError};
pub use lints::Lints;
pub use long_polls::{LongPoll, long_poll_of, long_polls_in};
pub use long_waits::{LongWait, long_wait_of};
pub use times::Times;
pub use warning::{
    Warning, WarningKind, has_lost_waker, has_never_yielded, is_spawn, wakes_itself,
};
