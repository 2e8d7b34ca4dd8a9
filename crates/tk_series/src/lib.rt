//! Values that are added up where their labels are the same.
//!
//! - [`Series`]: each of the labels stands by itself.
//! - [`Limited`]: the first so many do, and one more takes the rest.
#![tactic(auto)]

pub mod laws;
mod limited;
mod series;

pub use limited::Limited;
pub use series::{Added, Series};
