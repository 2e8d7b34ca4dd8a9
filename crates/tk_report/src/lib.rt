//! The report of tables, and the view of a stream.
//!
//! - [`report`]: what tables show, and the warnings about their tasks, as text. [`timed_report_with`]: with other warnings, and histograms.
//! - [`view_stream`], [`View`]: reads a stream to its end, and writes the report of its tables, or its warning lines alone.
//!   [`view_stream_with`], [`TimesOptions`], [`Viewed`]: with what is known of how long polls ran.
//! - [`Ended`]: how long a poll is known to have run, by two rows of its task.
//! - [`laws`]: what warning lines tell of.
//! - [`put_task`]: the line of a task. [`put_task_lines`]: with its histograms below it. [`put_histogram`], [`put_histogram_by`]: what a histogram says.
//!   [`percentile_high`]: what so many of a hundred of its times don't pass.
//! - [`kind_word`], [`task_state`], [`op_state`], [`run_time`]: what a report says of a task and of an async operation.
//! - [`VERSION`]: that of the program.
//! - [`AppFault`]: what a run of the program stops at.
#![tactic(auto)]

mod known;
pub mod laws;
mod lines;
mod options;
mod reporting;
mod runs;
mod timed;
mod times;
mod version;
mod view;
mod words;

pub use lines::put_task;
pub use options::TimesOptions;
pub use reporting::report;
pub use runs::Ended;
pub use timed::{put_task_lines, timed_report_with};
pub use times::{percentile_high, put_histogram, put_histogram_by};
pub use tk_fault::AppFault;
pub use version::VERSION;
pub use view::{View, Viewed, view_stream, view_stream_with};
pub use words::{kind_word, op_state, run_time, task_state};
