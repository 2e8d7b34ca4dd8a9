//! One object that threads share, whose calls make one history.
//!
//! - [`Shared`] is the ledger: an object in sixteen words, on which a call is one step and one entry.
//! - [`Token`] is the right to make calls on one ledger as one caller, and what is known by it.
//! - [`Pick`] says to a proof alone what a step is about.
//! - [`View`] is what contracts see of a token: the history as it has seen it, and the numbers that it holds.
#![tactic(auto)]

pub mod laws;
mod part;
mod shared;
mod steps;
mod token;
mod view;

pub use shared::Shared;
pub use steps::Pick;
pub use token::{Seen, Token};
pub use view::View;
