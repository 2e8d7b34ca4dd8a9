//! How values are printed.

use std::alloc::Global;
use std::fmt::Display;

/// Whether `{}` prints the value as this text.
pub(crate) fn is_printed<T: Display>(alloc: Global, value: &T, text: &str) -> bool {
    match format!(in alloc; "{value}") {
        Ok(own) => own.as_str() == text,
        Err(_) => false,
    }
}
