//! Tests of `tk_explain`, `tk_reading`, `tk_report` and `tk_app` through their public calls, and of what crosses crates: what a script writes, a client takes.
//! They stand in one crate above all: so these crates' own proofs are made once, without them, and what a check begins with is
//! done once.
#![tactic(auto)]

#[cfg(test)]
mod tests;
