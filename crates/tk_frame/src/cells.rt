//! Parts of lines.
ghost use Rattle.std.specs.Prelude.{◌≡◌, OnOk, IfSome, string_bytes};
ghost use Rattle.tk_screen.specs.Texts.{Puts, duration_text, share_text};
ghost use Rattle.tk_frame.specs.Lines as spec;

use std::alloc::AllocError;
use std::fmt::{Display, Write};
use tk_ids::Location;
use tk_screen::{put_duration, put_left, put_right, put_share};

/// Puts a text.
pub(crate) fn put_text(out: &mut String, text: &str) -> Result<(), AllocError>
    ensures { OnOk result (Puts (string_bytes out.old) (string_bytes out.new) text.now) }
{
    out.push_str(text)
}

/// Puts a text at the right of a column, and a space.
pub(crate) fn put_cell(out: &mut String, text: &str, width: usize) -> Result<(), AllocError>
    ensures { OnOk result (Puts (string_bytes out.old) (string_bytes out.new) (spec.cell width text.now)) }
{
    put_right(out, text, width)?;
    out.push_str(" ")
}

/// Puts a text at the left of a column, and a space.
pub(crate) fn put_word(out: &mut String, text: &str, width: usize) -> Result<(), AllocError>
    ensures { OnOk result (Puts (string_bytes out.old) (string_bytes out.new) (spec.word width text.now)) }
{
    put_left(out, text, width)?;
    out.push_str(" ")
}

/// Puts a value at the right of a column. `room` holds its text for the while.
pub(crate) fn put_value<T: Display>(
    out: &mut String,
    room: &mut String,
    value: &T,
    width: usize,
) -> Result<(), AllocError>
    ensures { OnOk result (IfSome (T.output value.now)
        (λ text. Puts (string_bytes out.old) (string_bytes out.new) (spec.cell width text))) }
{
    room.clear();
    write!(room, "{value}")?;
    put_cell(out, room.as_str(), width)
}

/// Puts a time in a column.
pub(crate) fn put_time(
    out: &mut String,
    room: &mut String,
    nanos: u64,
    width: usize,
) -> Result<(), AllocError>
    ensures { OnOk result (Puts (string_bytes out.old) (string_bytes out.new) (spec.cell width (duration_text nanos))) }
{
    room.clear();
    put_duration(room, nanos)?;
    put_cell(out, room.as_str(), width)
}

/// Puts a part of a whole in a column.
pub(crate) fn put_part(
    out: &mut String,
    room: &mut String,
    part: u64,
    whole: u64,
    width: usize,
) -> Result<(), AllocError>
    ensures { OnOk result (Puts (string_bytes out.old) (string_bytes out.new) (spec.cell width (share_text part whole))) }
{
    room.clear();
    put_share(room, part, whole)?;
    put_cell(out, room.as_str(), width)
}

/// Puts bytes at the left of a column, where they are text.
pub(crate) fn put_bytes(out: &mut String, bytes: &[u8], width: usize) -> Result<(), AllocError>
    ensures { OnOk result (Puts (string_bytes out.old) (string_bytes out.new) (spec.word width (spec.as_text bytes.now))) }
{
    match str::from_utf8(bytes) {
        Ok(text) => put_word(out, text, width),
        Err(_) => put_word(out, "", width),
    }
}

/// The end of a text, of at most so many bytes.
pub(crate) fn end_of(width: usize, text: &[u8]) -> &[u8]
    ensures { result.now ≡ spec.end_of width text.now }
{
    let skipped = text.len().saturating_sub(width);
    &text[skipped..]
}

/// Puts a place in a source file in a column. Where it is longer its end is shown.
pub(crate) fn put_end(
    out: &mut String,
    room: &mut String,
    location: &Location,
    width: usize,
) -> Result<(), AllocError>
    ensures { OnOk result (Puts (string_bytes out.old) (string_bytes out.new) (spec.place_cell width location.now)) }
{
    room.clear();
    put_location(room, location)?;
    put_bytes(out, end_of(width, room.as_bytes()), width)
}

/// Puts a place in a source file.
pub(crate) fn put_location(out: &mut String, location: &Location) -> Result<(), AllocError>
    ensures { OnOk result (Puts (string_bytes out.old) (string_bytes out.new) (spec.location_text location.now)) }
{
    let Location { file, line, column } = location;
    write!(out, "{file}:{line}:{column}")
}

/// Puts how long ago something was.
pub(crate) fn put_gone(out: &mut String, nanos: u64) -> Result<(), AllocError>
    ensures { OnOk result (Puts (string_bytes out.old) (string_bytes out.new) (spec.gone_text nanos)) }
{
    put_duration(out, nanos)?;
    out.push_str(" ago")
}

/// Puts how long ago a moment was, if there is one.
pub(crate) fn put_ago(out: &mut String, now: u64, moment: Option<u64>) -> Result<(), AllocError>
    ensures { OnOk result (Puts (string_bytes out.old) (string_bytes out.new) (spec.ago_text now moment)) }
{
    match moment {
        Some(moment) => put_gone(out, now.saturating_sub(moment)),
        None => out.push_str("-"),
    }
}
