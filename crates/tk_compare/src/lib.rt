//! Two streams compared by place: what ran and waited more in the later one, what less, what is new and what is gone.
//!
//! - [`read_recorded`], [`Recorded`]: reads a stream to its end, and keeps what is compared of it.
//! - [`compare_recorded`]: writes what changed from a stream to a later one.
//! - [`compare_places`]: what each place came to in both streams. [`Compared`], [`Spent`]: what that is.
//! - [`findings_of_both`], [`compare_findings`]: which findings both have. [`Seen`], [`Standing`]: what that is.
//! - [`comparison_text`]: what is written of both. [`worse_count`]: how much got worse.
//! - [`Margin`], [`Spans`], [`spans_of`], [`change_of`], [`Change`], [`rate`], [`rate_in_hundredths`]: what a change is.
#![tactic(auto)]

mod below;
mod change;
mod found;
mod lines;
mod names;
mod places;
mod recorded;
mod spent;
mod text;
mod view;

pub use change::{Change, Margin, Spans, change_of, rate, rate_in_hundredths};
pub use found::{Seen, Standing, compare_findings};
pub use places::compare_places;
pub use recorded::{Recorded, read_recorded};
pub use spent::{Compared, Side, Spent};
pub use text::{FoundCounts, SiteCounts, comparison_text, found_counts, site_counts, worse_count};
pub use view::{compare_recorded, findings_of_both, spans_of};
