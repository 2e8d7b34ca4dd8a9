//! Works polled to their ends, executors turn by turn, drivers to their answers, a poll that is read through, futures,
//! a work that records in its polls, works whose polls are timed, the machine's clock, and the errors.

mod clocks;
mod drives;
mod errors;
mod future_works;
mod given;
mod permits;
mod timed;
mod turns;
mod waits;
mod works;
