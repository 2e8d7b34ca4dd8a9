//! Which places are viewed.

use tk_report::View;

/// What a view by place writes.
#[derive(Clone, Copy, Debug, PartialEq, Eq)]
pub enum SitesView {
    /// All places and their warnings, or these warnings alone.
    All(View),
    /// The place of this number, of which the first has 1: its line, its tasks that are there, and its warnings. 0 is taken for 1.
    One(u64),
}
