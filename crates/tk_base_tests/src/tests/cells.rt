//! Opening rows read back, two threads on one ledger, and two calls that overlap.

mod openings;
mod overlap;
mod threads;
