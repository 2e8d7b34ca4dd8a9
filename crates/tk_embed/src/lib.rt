//! The rows of items, for programs in Rust and C: one call on a row that the caller keeps as sixteen words.
//!
//! Nothing here waits or reads a clock, only the lines take memory, and nothing is kept between two calls. Each other export is one step on the
//! words that it is lent; who shares a row among threads makes these steps one after the other, as under a lock of that row.
//! A reply is one number: `code_of` of `specs/Border.antt`.
#![tactic(auto)]

mod attr;
mod entries;
mod fault;
mod infos;
mod laws;
mod leaving;
mod line;
mod op;
mod reply;
mod resource;
mod step;
mod tables;
mod task;
mod timed;
mod times;
mod waits;
