//! Streams in memory, and the screens that are drawn of them.

mod given;
mod keys;
mod pace;
mod screens;
mod units;
mod watching;
