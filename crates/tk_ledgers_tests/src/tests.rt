//! The calls of handles as tables, and handles on two threads.

mod callers;
mod changes;
mod crowd;
mod given;
mod polls;
mod readings;
mod rising;
mod scopes;
mod signed;
mod threads;
mod timed;
mod timed_threads;
mod times;
mod wakes;
