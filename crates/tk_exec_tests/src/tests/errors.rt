//! The errors of an executor.

use std::alloc::Global;
use tk_exec::ExecError;

fn has_text(alloc: Global, error: &ExecError, text: &str) -> bool {
    match format!(in alloc; "{error}") {
        Ok(told) => told.as_str() == text,
        Err(_) => false,
    }
}

// Each error has its number and its text.
#[test]
fn numbers_and_names_errors(rt: HostRuntime) {
    for (error, number, text) in [
        (ExecError::Memory, 1, "out of memory"),
        (ExecError::Repeated, 2, "a task of this id is held"),
    ] {
        assert!(rt; error.code() == number, "{text}");
        assert!(rt; has_text(rt.alloc(), &error, text), "{text}");
    }
}
