//! Reads, in one pass and without a JSON value, a line that is spelled as [`crate::Line::write`] spells it.

pub(crate) mod infos;
pub(crate) mod pieces;
pub(crate) mod stats;
pub(crate) mod taken;
pub(crate) mod times;
