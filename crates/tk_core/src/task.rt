//! A task, as one row that calls change one at a time.
//!
//! | polling | scheduled | the task |
//! |---|---|---|
//! | no | no | waits for a wake |
//! | no | yes | may be polled |
//! | yes | no | is being polled |
//! | yes | yes | is being polled, and was woken since that poll started |
//!
//! A task opens scheduled. A closed task is neither. `specs/Task.antt` says which calls lead from one state to the next.

mod call;
mod lasting;
mod row;
mod sequential;
mod step;
mod wait;
mod words;

pub use call::TaskCall;
pub use row::TaskRow;
pub use wait::{WaitSoFar, Waits};
