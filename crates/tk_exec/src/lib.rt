//! Works that are polled by hand, in polls that the ledgers of their tasks record.
//!
//! - [`Work`]: a future written by hand; [`Clock`]: what tells the moments of polls; [`SystemClock`]: the machine's.
//! - [`FutureWork`]: a future of the kit as a work, whose task is woken by the wakers that the future keeps; [`Pollable`]: any future
//!   that it polls.
//! - [`Instrumented`]: a work and the owner of its task. Each poll of the work is a poll of the task.
//! - [`Executor`]: tasks that are polled in turn, where they are scheduled; [`Turn`]: what a turn did.
//! - [`Driver`]: a future that makes turns until all tasks are finished, or none is scheduled; [`Ran`] and [`Outputs`]: its answer.
//! - [`YieldTimes`], [`HoldWaker`], [`LoseWaker`], [`BusyUntil`], and [`Example`]: works to show what a task may do.
#![tactic(auto)]

mod driver;
mod error;
mod executor;
mod future_work;
mod instrumented;
mod outputs;
mod pollable;
mod run;
mod slot;
mod system_clock;
mod work;
mod works;

pub use driver::{Driver, Ran};
pub use error::ExecError;
pub use executor::{Executor, Turn};
pub use future_work::FutureWork;
pub use instrumented::Instrumented;
pub use outputs::Outputs;
pub use pollable::Pollable;
pub use system_clock::SystemClock;
pub use work::{Clock, Work};
pub use works::{BusyUntil, Example, HoldWaker, LoseWaker, YieldTimes};
