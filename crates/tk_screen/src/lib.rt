//! What a screen is made of: numbers in units that people read, columns, the first of a ranking, and lines that are cut to a
//! terminal's size.
//!
//! - [`put_duration`], [`put_share`]: a number in a unit that people read.
//! - [`put_left`], [`put_right`]: a text in a column.
//! - [`Top`], [`Ranked`]: the first items of a ranking, kept while all are offered one by one.
//! - [`Line`], [`Canvas`], [`put_screen`]: lines, and what they are drawn on.
//! - [`laws`]: that a ranking is one, and that no byte of a text becomes a code of the terminal.
#![tactic(auto)]

mod canvas;
mod columns;
pub mod laws;
mod top;
mod units;

pub use canvas::{Canvas, Line, Size, Style, put_screen};
pub use columns::{put_left, put_right};
pub use top::{Ranked, Top};
pub use units::{put_duration, put_share};
