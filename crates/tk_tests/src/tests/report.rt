//! Tests of `tk_report`: streams in memory, what their views write, and what they stop at.

mod given;
mod known;
mod many;
mod readers;
mod reports;
mod timed;
mod writers;
