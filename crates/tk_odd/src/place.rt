//! Which tasks are of one place.
ghost use Rattle.std.specs.Prelude.{◌≡◌, ◌++◌, IfOk, OnOk, string_bytes};
ghost use Rattle.tk_odd.specs.Places as spec;

use std::alloc::{AllocError, Global};
use tk_ids::{Location, TaskInfo};
use tk_report::kind_word;

fn is_digit(byte: u8) -> bool
    ensures { result ≡ spec.is_digit byte }
{
    48 <= byte && byte <= 57
}

// Puts a text with each run of digits read as #.
fn put_without_numbers(out: &mut Vec<u8>, text: &[u8]) -> Result<(), AllocError>
    ensures { OnOk result (out.new.items ≡ out.old.items ++ spec.without_numbers text.now) }
{
    let mut after = false;
    for byte in text {
        let digit = is_digit(*byte);
        if !digit {
            out.push(*byte)?;
        } else if !after {
            out.push(b'#')?;
        }
        after = digit;
    }
    Ok(())
}

/// A text with each run of digits read as `#`.
pub fn without_numbers(alloc: Global, text: &[u8]) -> Result<Vec<u8>, AllocError>
    ensures { IfOk result (λ short. short.items ≡ spec.without_numbers text.now) }
{
    let mut short = Vec::new(alloc);
    put_without_numbers(&mut short, text)?;
    Ok(short)
}

fn location_text(alloc: Global, location: &Location) -> Result<String, AllocError>
    ensures { IfOk result (λ text. string_bytes text ≡ spec.location_text location.now) }
{
    let Location { file, line, column } = location;
    format!(in alloc; "{file}:{line}:{column}")
}

// Puts the name of a task but for numbers, unless that is where it was spawned.
fn put_name(out: &mut Vec<u8>, alloc: Global, info: &TaskInfo) -> Result<(), AllocError>
    ensures { OnOk result (out.new.items ≡ out.old.items ++ spec.name_words info.now) }
{
    let name = info.name.as_bytes();
    let location = location_text(alloc, &info.location)?;
    if name != location.as_bytes() {
        out.extend_from_slice(b" name ")?;
        put_without_numbers(out, name)?;
    }
    Ok(())
}

/// The place of a task: its kind, where it was spawned, and its name with each run of digits read as `#`, as in
/// `spawn at src/main.rs:21:5 name worker-#`. A task that is called by where it was spawned has no name of its own: then no name stands there.
///
/// `AllocError`: there was no memory.
pub fn place_of(alloc: Global, info: &TaskInfo) -> Result<Vec<u8>, AllocError>
    ensures { IfOk result (λ place. place.items ≡ spec.place_of info.now) }
{
    let kind = kind_word(info.kind);
    let at = &info.location;
    let head = format!(in alloc; "{kind} at {}:{}:{}", at.file, at.line, at.column)?;
    let mut place = Vec::from_slice(alloc, head.as_bytes())?;
    put_name(&mut place, alloc, info)?;
    Ok(place)
}
