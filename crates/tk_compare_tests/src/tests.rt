//! Streams in memory, and what changed from one to another.

mod examples;
mod given;
