//! A stream that is watched while it comes: its tables are drawn as a screen, anew once lines came.
//!
//! - [`watch_stream`]: reads a stream, and draws screens of what it has come to.
//! - [`watch_keys`]: watches a stream by a person at keys.
//! - [`Source`], [`Event`]: where pieces of it and keys come from.
//! - [`laws`]: that in a pause the screen stays.
//! - [`Screen`]: what is shown, and on what it is drawn.
//! - [`Pace`], [`Every`]: when a screen may be drawn, and whether a stream goes on at its end.
#![tactic(auto)]

mod drawing;
mod keyed;
mod last;
pub mod laws;
mod notes;
mod seen;
mod session;
mod source;
mod waits;
mod watching;

pub use drawing::Screen;
pub use keyed::watch_keys;
pub use source::{Event, Source};
pub use tk_reading::{Every, Pace};
pub use watching::watch_stream;
