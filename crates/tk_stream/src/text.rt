//! The text of a line: how it is written, and how it is read.

pub(crate) mod read_json;
pub(crate) mod read_own;
pub(crate) mod write;
