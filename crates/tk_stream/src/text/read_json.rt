//! Reads a line of any other spelling, as JSON: white space between its parts and the order of its keys are free.

pub(crate) mod fields;
pub(crate) mod infos;
pub(crate) mod line_lists;
pub(crate) mod listed;
pub(crate) mod numbers;
pub(crate) mod said;
pub(crate) mod shaped;
pub(crate) mod spelled;
pub(crate) mod stats;
pub(crate) mod times;
