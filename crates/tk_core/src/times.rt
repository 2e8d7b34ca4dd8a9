//! A histogram of times, as one row that calls change one at a time.
//!
//! Thirteen bounds, the powers of two from 2^14 to 2^26 nanoseconds (16 microseconds to 67 milliseconds), make fourteen buckets: a time lies
//! in the bucket of the greatest bound that it has reached. Of times above the last bound the longest tells.

mod call;
mod percentile;
mod row;
mod sequential;
mod step;
mod words;

pub use call::TimesCall;
pub use row::TimesRow;
