//! A line as it is shown: its front, in which each byte that is no ASCII text stands as a dot.
ghost use Rattle.std.specs.Prelude.{◌≡◌, OnOk, map};
ghost use Rattle.std.specs.Io.KnownBytes.{Appends};
ghost use Rattle.std.specs.Option.{option_map};
ghost use Rattle.tk_explain.specs.Telling as spec;

use std::io;
use std::io::Write;
use tk_script::Pieces;

/// How many bytes of a line are shown.
const MOST: usize = 72;

// A byte as it is shown.
fn shown_byte(byte: u8) -> u8
    ensures { result ≡ spec.shown_byte byte }
{
    if byte >= b' ' && byte < 127 {
        byte
    } else {
        b'.'
    }
}

// Shows the bytes of a front.
fn show_front<W: Write>(front: &[u8], out: &mut W) -> io::Result<()>
    ensures { OnOk result (Appends (W.contents out.old) (W.contents out.new) (map spec.shown_byte front.now)) }
{
    for i in 0..front.len() {
        out.write_all(&[shown_byte(front[i])])?;
    }
    Ok(())
}

// What stands after the front of a line that has more bytes.
fn dots(line: &[u8]) -> &'static [u8]
    ensures { result.now ≡ spec.dots line.now }
{
    if line.len() > MOST { b"..." } else { b"" }
}

/// Shows the front of a line.
pub(crate) fn show_line<W: Write>(line: &[u8], out: &mut W) -> io::Result<()>
    ensures { OnOk result (Appends (W.contents out.old) (W.contents out.new) (spec.shown line.now)) }
{
    show_front(&line[..MOST.min(line.len())], out)?;
    out.write_all(dots(line))
}

/// The line of a text that stands after so many others, if there is one.
pub(crate) fn line_after(text: &[u8], lines: u64) -> Option<&[u8]>
    ensures { option_map (λ l. l.now) result ≡ spec.line_after text.now lines }
{
    let mut rest = Pieces::new(text, b'\n');
    for _ in 0..lines {
        rest.next()?;
    }
    rest.next()
}

/// Shows a line by its number, from 1.
pub(crate) fn show_numbered<W: Write>(number: u64, line: &[u8], out: &mut W) -> io::Result<()>
    ensures { OnOk result (Appends (W.contents out.old) (W.contents out.new) (spec.line_text number line.now)) }
{
    write!(out, "  {number} | ")?;
    show_line(line, out)?;
    out.write_all(b"\n")
}
