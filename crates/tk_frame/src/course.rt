//! The line that draws how many tasks waited at each of the last lines.
ghost use Rattle.std.specs.Prelude.{◌≡◌, OnOk, flat_map, string_bytes};
ghost use Rattle.tk_screen.specs.Texts.{Puts};
ghost use Rattle.tk_frame.specs.Courses as spec;

use crate::cells::put_text;
use std::alloc::{AllocError, Global};
use std::fmt::Write;
use tk_screen::{Line, Style};

/// The greatest of numbers, or 0.
pub(crate) fn greatest(numbers: &[u64]) -> u64
    ensures { result ≡ spec.greatest numbers.now }
{
    let [first, rest @ ..] = numbers else {
        return 0;
    };
    (*first).max(greatest(rest))
}

// Of which of eight levels a number is, where the greatest is this.
fn level_of(most: u64, n: u64) -> u128
    ensures { result ≡ spec.level_of most n }
{
    if most == 0 {
        return 0;
    }
    (7 * u128::from(n) + u128::from(most - 1)) / u128::from(most)
}

fn level_mark(level: u128) -> &'static str
    ensures { result.now ≡ spec.level_mark level }
{
    match level {
        0 => "_",
        1 => ".",
        2 => ":",
        3 => "-",
        4 => "=",
        5 => "+",
        6 => "*",
        _ => "#",
    }
}

fn put_mark(out: &mut String, most: u64, n: u64) -> Result<(), AllocError>
    ensures { OnOk result (Puts (string_bytes out.old) (string_bytes out.new) (spec.mark_of most n)) }
{
    put_text(out, level_mark(level_of(most, n)))
}

/// Puts a mark for each number, of eight levels, where the greatest is this.
pub(crate) fn put_marks(out: &mut String, most: u64, waits: &[u64]) -> Result<(), AllocError>
    ensures { OnOk result (Puts (string_bytes out.old) (string_bytes out.new) (flat_map (spec.mark_of most) waits.now)) }
{
    for n in waits {
        put_mark(out, most, *n)?;
    }
    Ok(())
}

fn put_most(out: &mut String, most: u64) -> Result<(), AllocError>
    ensures { OnOk result (Puts (string_bytes out.old) (string_bytes out.new) (spec.most_text most)) }
{
    write!(out, "  at most {most}")
}

fn put_course(out: &mut String, waits: &[u64]) -> Result<(), AllocError>
    ensures { OnOk result (Puts (string_bytes out.old) (string_bytes out.new) (spec.course_text waits.now)) }
{
    let most = greatest(waits);
    put_text(out, "waiting  ")?;
    put_marks(out, most, waits)?;
    put_most(out, most)?;
    Ok(())
}

/// How many lines the course takes of how many tasks waited.
pub(crate) fn course_height(waits: &[u64]) -> usize
    ensures { result ≡ spec.course_height waits.now }
{
    if 2 <= waits.len() { 1 } else { 0 }
}

/// Pushes the course of how many tasks waited at each of the last lines, where there were several.
pub(crate) fn push_course(
    lines: &mut Vec<Line>,
    alloc: Global,
    waits: &[u64],
) -> Result<(), AllocError>
    ensures { OnOk result (Puts lines.old.items lines.new.items (spec.course_part waits.now)) }
{
    if waits.len() < 2 {
        return Ok(());
    }
    let mut text = String::new(alloc);
    put_course(&mut text, waits)?;
    lines.push(Line::new(Style::Plain, text))?;
    Ok(())
}
