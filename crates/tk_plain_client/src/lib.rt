//! What a client makes of a stream, computed plainly: tests compare a client with it.
//!
//! It reads JSON by `serde_json` and each rule by a look through whole lists, and no code of `tk_stream` or `tk_client`. Of rows it
//! keeps nothing but which attributes they have. Its contracts promise nothing.
#![tactic(auto)]

mod items;
mod line;
mod plain;
mod read;
mod stream;
mod values;

pub use line::{Given, Histogram, New, Part, Spoilt, Told, Waits};
pub use plain::{Held, Plain};
pub use stream::{Outcome, outcome_of};
