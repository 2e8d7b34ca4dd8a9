//! The numbers and texts of errors.

use std::alloc::Global;
use tk_aggregator::StreamError;

#[rattlefmt::skip]
const ERRORS: [(StreamError, u32, &str); 5] = [
    (StreamError::Memory,       1, "out of memory"),
    (StreamError::WriteFault,   2, "the line was cut off"),
    (StreamError::Broken,       3, "the stream is broken"),
    (StreamError::Clock,        4, "the clock ran backwards"),
    (StreamError::NumbersSpent, 5, "the line numbers are spent"),
];

fn has_text(alloc: Global, error: StreamError, text: &str) -> bool {
    match format!(in alloc; "{error}") {
        Ok(told) => told.as_str() == text,
        Err(_) => false,
    }
}

// Whether each error has its number and its text.
pub(super) fn are_numbered_and_named(alloc: Global) -> bool {
    for (error, number, text) in ERRORS {
        if error.code() != number || !has_text(alloc, error, text) {
            return false;
        }
    }
    true
}
