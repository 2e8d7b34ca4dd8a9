//! Scripts that are made at random, beside the plain run.

mod beside;
mod random;
