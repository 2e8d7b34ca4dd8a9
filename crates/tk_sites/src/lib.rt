//! The places where a stream's tasks are made, and what the tasks of each came to. In the sources a place is a site, since "place" is an index there.
//!
//! - [`view_sites`], [`SitesView`]: reads a stream to its end, and writes a line for each place, or the warnings by place, or one place with its tasks.
//! - [`Sites`]: what watches a stream's lines for it. [`Sums`], [`Warnings`], [`Warned`]: what is added up of a place.
//! - [`TimedSites`]: what watches them for histograms by place. [`SiteTimes`], [`Histogram`]: what is added up of these.
//! - [`read_places`], [`PlacesThen`], [`view_span`]: reads a stream up to a moment, and writes what places came to since then. [`Sums::since`],
//!   [`SiteTimes::since`], [`SpanTimes`], [`SpanHistogram`], [`Longest`]: what that is.
//! - [`laws`]: what places add up to, and that their numbers stay.
#![tactic(auto)]

mod adding;
mod below;
pub mod laws;
mod lines;
mod one;
mod places_then;
mod sites;
mod sites_view;
mod span;
mod span_lines;
mod span_view;
mod sums;
mod timed_sites;
mod times;
mod timing;
mod view;
mod warned;

pub use lines::more_site;
pub use places_then::{PlacesThen, read_places};
pub use sites::Sites;
pub use sites_view::SitesView;
pub use span::{Longest, SpanHistogram, SpanTimes};
pub use span_view::view_span;
pub use sums::Sums;
pub use timed_sites::TimedSites;
pub use times::{Histogram, SiteTimes};
pub use view::view_sites;
pub use warned::{Warned, Warnings};
