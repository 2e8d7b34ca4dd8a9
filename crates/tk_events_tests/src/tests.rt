//! Tests, one file for each theme.

mod given;
mod items;
mod limits;
mod memory;
mod ring;
mod threads;
mod timed;
