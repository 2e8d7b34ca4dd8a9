//! JSON read by tokens: values that are passed, and values of which a little is kept.
//!
//! A whole value takes many times its text in memory. Here none is built but one whose size has a bound: [`read_small`] keeps so
//! many levels of it, and of each array or object that is wider than any that a caller looks for, nothing.
//!
//! - [`pass`], [`pass_token`], [`pass_items`], [`pass_members`]: check the value that is next, or the rest of one, and keep
//!   nothing. They take no memory.
//! - [`read_small`]: keeps a few levels of the value that is next.
//! - [`JsonFault`]: why no value was read.
//! - [`laws`]: what a value that was made small says of the value that was read.
//!
//! What is accepted is what `serde_json` accepts, from a `json::Reader` in the place of a text.
#![tactic(auto)]

mod fault;
pub mod laws;
mod number;
mod passing;
mod small;

pub use fault::JsonFault;
pub use passing::{pass, pass_items, pass_members, pass_token};
pub use small::read_small;
