//! A stream as one page of HTML, which needs nothing else: what is odd, each task's course of time, and the resources.
//!
//! - [`view_page`], [`view_page_with`]: reads a stream to its end, line by line, and writes the page.
//! - [`view_changes`]: writes the page of what changed from a stream to a later one.
//! - [`Sample`]: what a course of time keeps of a task at a line.
#![tactic(auto)]

mod badges;
mod banner;
mod blame;
mod blamed;
mod boxes;
mod calm;
mod cards;
mod change_ranks;
mod changed;
mod changed_head;
mod changed_places;
mod drawing;
mod facts;
mod figures;
mod frame;
mod history;
mod idle;
pub mod laws;
mod oddities;
mod ops;
mod peaks;
mod picture;
mod poll_times;
mod ranks;
mod ratios;
mod resources;
mod sample;
mod sites;
mod strips;
mod tasks;
mod tasks_head;
mod track;
mod tracks;
mod values;
mod view;
mod waiting;

pub use changed::view_changes;
pub use sample::Sample;
pub use view::{view_page, view_page_with};
