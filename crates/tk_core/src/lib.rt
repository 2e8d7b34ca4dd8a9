//! What a task, a resource or an async operation is: a row, and calls that step it one at a time.
//!
//! Nothing here takes memory, waits or reads a clock. The row of an item is the fold of its history, as
//! tokio-console's statistics define it; `specs/Lib.antt` gives the definitions in reading order.
//!
//! - [`TaskRow`], [`TaskCall`]: a task's statistics, and the calls on it; [`Waits`], [`WaitSoFar`]: what is counted of its waits.
//! - [`ResourceRow`], [`ResourceCall`]: a resource's.
//! - [`OpRow`], [`OpCall`]: an async operation's.
//! - [`TimesRow`], [`TimesCall`]: a histogram of times.
//! - [`AttrValues`], [`AttrList`], [`AttrOp`]: the values of an item's attributes, and their changes.
//! - [`Reply`], [`Refusal`], [`WakeReply`]: what a call is answered.
//! - [`Entry`]: an entry of a history: caller, call and reply.
//! - [`Sequential`]: any object of sixteen words that is stepped by calls.
//! - [`MOST_HANDLES`]: how many handles an item draws at most.
#![tactic(auto)]

mod attr_values;
mod attr_words;
mod attrs;
mod history;
mod limits;
mod moment;
mod op;
mod reply;
mod resource;
mod sequential;
mod task;
mod times;

pub use attr_values::{AttrList, AttrValues};
pub use attrs::AttrOp;
pub use history::Entry;
pub use limits::MOST_HANDLES;
pub use op::{OpCall, OpRow};
pub use reply::{Refusal, Reply, WakeReply};
pub use resource::{ResourceCall, ResourceRow};
pub use sequential::Sequential;
pub use task::{TaskCall, TaskRow, WaitSoFar, Waits};
pub use times::{TimesCall, TimesRow};
