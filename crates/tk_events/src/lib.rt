//! Recorders, and the event buffer that they share with one taker.
//!
//! - [`Console`]: opens the recorders and the taker.
//! - [`Limits`]: the sizes of a console.
//! - [`Recorder`]: makes offers, numbered from 1; [`Recorded`]: what became of one; [`Counting`]: what is counted of a new task.
//! - [`RetiredRecorder`]: a recorder that makes no more offers.
//! - [`Taker`]: takes events, reads the totals of dropped ones, and at the end takes in what the recorders had offered.
//! - [`Event`], [`PollOp`]: what is offered.
//! - [`OpenError`], [`RecordError`], [`FinishError`]: why a call was refused.
//!
//! There is no lock. The buffer is a queue under a rule (`specs/Buffer.antt`), and a dropped event is counted in one
//! word for each recorder and kind (`specs/Counts.antt`). What a caller must believe stands in `specs/Offers.antt` and
//! `specs/Handles.antt`.
#![tactic(auto)]

mod buffer;
mod console;
mod counting;
mod counts;
mod error;
mod event;
mod item;
mod limits;
mod new_item;
mod recorder;
mod retired;
mod taker;

pub use console::Console;
pub use counting::Counting;
pub use error::{FinishError, OpenError, RecordError};
pub use event::{Event, PollOp};
pub use limits::Limits;
pub use recorder::{Recorded, Recorder};
pub use retired::RetiredRecorder;
pub use taker::Taker;
