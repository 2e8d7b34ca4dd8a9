//! Tests of `tk_exec` through its public calls, in a crate above it: so its own proof is made once,
//! without them.
//!
//! - [`TakePermit`]: a work that records from within its polls, to copy.
#![tactic(auto)]

mod permits;

pub use permits::TakePermit;

#[cfg(test)]
mod tests;
