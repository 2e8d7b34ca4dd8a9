//! The run of a script on plain rows, without ledgers and events, which tests and measures compare with the run over live ledgers.
//!
//! It reads commands by `tk_script`, as that does, steps the row of each item by its calls, and writes the lines between whole tables.
//! Nothing is dropped, so the two runs write the same where the live one drops nothing. Its contracts promise nothing.
#![tactic(auto)]

mod attributes;
mod gone;
mod lines;
mod ops;
mod resources;
mod run;
mod script;
mod tasks;
mod times;

pub use script::run_plain;
