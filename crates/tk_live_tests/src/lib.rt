//! Tests of `tk_live` through its public calls, in a crate above it: scripts that are made at random, beside the plain run. No other
//! tests wait for that run.
#![tactic(auto)]

#[cfg(test)]
mod tests;
