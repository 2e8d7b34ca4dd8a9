//! Streams and scripts, in memory.

mod app;
mod damaged;
mod explain;
mod reading;
mod report;
mod scripts;
mod streams;
