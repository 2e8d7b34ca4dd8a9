//! The text of a page, and what is kept of a course of time.
//!
//! - [`Paper`], [`Part`], [`Tag`], [`Attr`]: a text of a page's own markup, in which every other text stands escaped.
//! - [`Course`]: what is kept of a list that is given item by item, at most 64 items of it.
#![tactic(auto)]

mod course;
pub mod laws;
mod marks;
mod paper;

pub use course::{Course, SAMPLES};
pub use marks::{Attr, Mark, Place, Tag};
pub use paper::{Paper, Part};
