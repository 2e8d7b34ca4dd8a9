//! Streams that are fed in memory.

mod beside;
mod changes;
mod faults;
mod given;
mod gone;
mod memory;
mod pieces;
mod random;
mod respelled;
mod rows;
mod spelled;
mod texts;
mod times;
