//! Writes the text of a line, piece by piece.

pub(crate) mod infos;
pub(crate) mod pieces;
pub(crate) mod plain;
pub(crate) mod short;
pub(crate) mod stats;
pub(crate) mod times;
pub(crate) mod written;
