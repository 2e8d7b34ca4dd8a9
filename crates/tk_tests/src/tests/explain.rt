//! Tests of `tk_explain`: what a reader keeps, and what is told below a fault.

mod given;
mod kept;
mod scripts;
mod streams;
