//! What a screen shows of tables: its lines, as a function of the tables, of what is odd about them and of what was asked for.
//!
//! - [`Query`], [`Column`], [`Typed`]: what was asked for: which tasks, in which order, and whether resources.
//! - [`Odd`]: what is told of what is odd, and of places.
//! - [`places_of`], [`Place`], [`Figures`]: the places of a stream's tasks, and what these came to.
//! - [`recent_of`], [`Recent`], [`Earlier`]: what they came to in the last while.
//! - [`frame`]: the lines of a screen.
//! - [`Asked`], [`press`], [`asked_frame`]: what keys ask for, and the lines of the screen that they ask for.
//! - [`walk`], [`States`]: how many tasks there are in each state, and the first of those that are shown.
#![tactic(auto)]

mod cells;
mod course;
mod details;
mod findings;
mod heard;
mod histograms;
mod items;
mod keys;
mod lines;
mod odd;
mod odd_lines;
mod pages;
mod place_lines;
mod place_ranks;
mod place_view;
mod places;
mod polled;
mod query;
mod ranks;
mod recent;
mod shown;
mod site_parts;
mod tasks;
mod typed;
mod waiting;

pub use heard::{Begun, Numbers};
pub use keys::{Asked, Shown, first_column, press};
pub use lines::frame;
pub use odd::Odd;
pub use places::{Figures, Place, places_of};
pub use query::{Column, Query};
pub use ranks::{States, walk};
pub use recent::{Earlier, Recent, recent_of};
pub use shown::asked_frame;
pub use typed::Typed;
