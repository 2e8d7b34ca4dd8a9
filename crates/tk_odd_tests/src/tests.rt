//! Streams in memory, and what is odd about them.

mod examples;
mod given;
mod kinds;
mod span;
mod streams;
