//! Tests, one file for each theme.

mod given;
mod lines;
mod many;
mod nearly;
mod reading;
mod refused;
mod tables;
mod texts;
