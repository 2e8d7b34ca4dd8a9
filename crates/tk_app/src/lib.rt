//! What the program does: a script is run, and its stream is written; a stream is read, and its tables are shown; and a demo,
//! which shows how the layers are used together. [`laws`] joins the first two: what a script writes is viewed.
#![tactic(auto)]

mod demonstration;
pub mod laws;

pub use demonstration::demo;
pub use tk_live::{Gate, Open, run_script};
pub use tk_report::{AppFault, TimesOptions, View, report, view_stream, view_stream_with};
