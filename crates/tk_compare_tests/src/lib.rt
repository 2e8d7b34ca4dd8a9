//! Tests of `tk_compare` through its public calls, in a crate above it: so its own proofs are made once, without them.
#![tactic(auto)]

#[cfg(test)]
mod tests;
