//! What screens are drawn on, as the environment tells it.

use std::alloc::AllocGlobal;
use std::env;
use std::env::Env;
use tk_screen::{Canvas, Size};

// The number that a variable has, where it is one.
fn number_in<R: Env + AllocGlobal>(rt: &R, name: &str, other: usize) -> usize {
    match env::var(rt, name) {
        Ok(text) => match text.as_str().parse::<usize>() {
            Ok(number) => number,
            Err(_) => other,
        },
        Err(_) => other,
    }
}

// Whether a variable is there and not empty.
fn is_set<R: Env + AllocGlobal>(rt: &R, name: &str) -> bool {
    match env::var(rt, name) {
        Ok(text) => !text.is_empty(),
        Err(_) => false,
    }
}

// Whether the terminal knows no code.
fn is_dumb<R: Env + AllocGlobal>(rt: &R) -> bool {
    match env::var(rt, "TERM") {
        Ok(text) => text.as_str() == "dumb",
        Err(_) => true,
    }
}

/// A terminal of the size in `COLUMNS` and `LINES`, else of 80 by 24, without colors where `NO_COLOR` is set. Text where the output is no
/// terminal, or where `TERM` is `dumb` or isn't there.
pub(crate) fn terminal_of<R: Env + AllocGlobal>(rt: &R, is_terminal: bool) -> Canvas {
    if !is_terminal || is_dumb(rt) {
        return Canvas::Plain;
    }
    Canvas::Terminal {
        size: Size {
            columns: number_in(rt, "COLUMNS", 80),
            lines: number_in(rt, "LINES", 24),
        },
        colors: !is_set(rt, "NO_COLOR"),
    }
}
