//! Tests of `tk_ids`, `tk_core` and `tk_cell` through their public calls, in one crate above them: so their own proofs are
//! made once, without them.
//!
//! - [`uses`]: proved callers of `tk_core`, to copy.
#![tactic(auto)]

#[cfg(test)]
mod tests;
pub mod uses;
