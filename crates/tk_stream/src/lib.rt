//! Tables of what is inspected, and the lines of a stream that lead from tables to tables.
//!
//! - [`Tables`]: the items in order of arrival, each with its row, and the counts of poll operations.
//! - [`Task`], [`Resource`], [`Op`]: a task, a resource and an async operation in tables.
//! - [`PollTimes`]: how long a task's polls ran, and [`WaitTimes`] how long it waited, which stand beside tables.
//! - [`Line`]: what one line of a stream says; its text is one JSON object.
//! - [`Leaving`]: what leaves with a line, since the line before showed it closed for long enough.
//! - [`LineError`]: why a line was not made, read or written.
//! - [`send`]: writes a text whole, or a proper front of it ([`Unsent`]).
//! - [`laws`]: what holds of the definitions by themselves.
//! - [`ToldTables`], [`ToldRows`], [`Table`], [`Item`], [`Told`], [`Ranged`]: what an aggregator keeps beside its tables, so
//!   that it makes each line without a copy of them.
#![tactic(auto)]

mod error;
pub mod laws;
mod line;
mod sent;
mod tables;
mod text;
mod told;

pub use error::LineError;
pub use line::Line;
pub use line::leaving::Leaving;
pub use sent::{Unsent, send};
pub use tables::Tables;
pub use tables::item::Item;
pub use tables::op::Op;
pub use tables::ranged::Ranged;
pub use tables::resource::Resource;
pub use tables::table::Table;
pub use tables::task::Task;
pub use tables::times::{PollTimes, WaitTimes};
pub use told::Told;
pub use told::rows::ToldRows;
pub use told::tables::ToldTables;
