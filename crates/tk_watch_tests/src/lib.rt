//! Tests of `tk_screen`, `tk_frame` and `tk_watch` through their public calls: screens as they are read, and when they are drawn.
#![tactic(auto)]

#[cfg(test)]
mod tests;
