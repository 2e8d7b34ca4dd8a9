//! What a run of the program stops at: [`AppFault`]. It stands by itself, so that scripts and reports are proved side by side.
#![tactic(auto)]

mod fault;

pub use fault::AppFault;
