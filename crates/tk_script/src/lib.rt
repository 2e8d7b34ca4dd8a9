//! What the text of a script says, line by line.
//!
//! - [`command_of`], [`Command`]: what a line of text says.
//! - [`block_said`], [`BlockSaid`]: what a line says that only blocks of threads have.
//! - [`settings_in`], [`Settings`]: how a script is run.
//! - [`is_skipped`], [`Pieces`]: the lines of a script, and those that say nothing.
//! - [`Stop`]: why a line stops its script, and by which name.
#![tactic(auto)]

mod attributes;
mod block;
mod command;
mod lines;
mod pieces;
mod settings;
mod stop;
mod words;

pub use block::{BlockSaid, WakerCall, Worker, WorkerLine, block_said};
pub use command::{Command, command_of};
pub use lines::is_skipped;
pub use pieces::Pieces;
pub use settings::{Settings, settings_in};
pub use stop::Stop;
