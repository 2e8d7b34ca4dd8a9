//! An async operation on a resource, as one row that calls change one at a time.
//!
//! | polling | closed | the operation |
//! |---|---|---|
//! | no | no | may be polled, or closed |
//! | yes | no | is being polled |
//! | no | yes | ran to its end, or was dropped |
//!
//! A closed operation refuses polls, changes of its attributes and another task.

mod call;
mod row;
mod sequential;
mod step;
mod words;

pub use call::OpCall;
pub use row::OpRow;
