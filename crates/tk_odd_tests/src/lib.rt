//! Tests of `tk_odd` and `tk_found` through their public calls, in a crate above them: so their own proofs are made once, without them.
#![tactic(auto)]

#[cfg(test)]
mod tests;
