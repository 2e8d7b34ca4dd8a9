//! A resource, as one row that calls change one at a time: a mutex, a semaphore, a timer and the like.
//!
//! A resource is live until it is closed; a closed one refuses changes of its attributes.

mod call;
mod row;
mod sequential;
mod step;
mod words;

pub use call::ResourceCall;
pub use row::ResourceRow;
