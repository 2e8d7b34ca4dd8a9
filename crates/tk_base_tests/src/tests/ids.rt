//! What no clause says: printed text, worked values, and that a call with ample memory succeeds.

mod attributes;
mod blocks;
mod copies;
mod errors;
mod ids;
mod names;
