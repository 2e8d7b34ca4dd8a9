//! A script, and its run over live ledgers: one recorder, one taker and the aggregator, and of each item that the script's numbers
//! name the hand that makes its calls.
//!
//! - [`run_script`]: reads a script, runs it line by line, and writes the stream that it publishes.
//! - [`Gate`]: what a script's threads ask before each of their commands.
#![tactic(auto)]

mod block;
mod gate;
mod handed;
mod interpreter;
mod items;
mod join;
mod script;
mod seats;
mod transfer;
mod worker;
mod worker_lines;

pub use gate::{Gate, Open};
pub use script::run_script;
