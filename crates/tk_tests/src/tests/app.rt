//! Tests of `tk_app`: scripts that are run in memory, what they write, and what they stop at.

mod blocks;
mod capacity;
mod commands;
mod faults;
mod given;
mod items;
mod many_polls;
mod ops;
mod polls;
mod readers;
mod resources;
mod retention;
mod rows;
mod snapshots;
mod streams;
mod times;
mod wakers;
mod writers;
