//! Sending a text to a writer.
ghost use Rattle.tk_stream.specs.Sent.{Sends};

use std::io::Write;

/// A writer gave an error or took nothing, and the rest of a text did not go out.
#[derive(Clone, Copy, Debug)]
pub struct Unsent;

/// Writes all bytes.
///
/// Its one error, `Unsent`: the writer gave an error or took nothing, and a proper front of the bytes went out.
pub fn send<W: Write>(writer: &mut W, bytes: &[u8]) -> Result<(), Unsent>
    ensures { Sends (W.contents writer.old) (W.contents writer.new) bytes.now result }
{
    let mut rest = bytes;
    while !rest.is_empty() {
        match writer.write(rest) {
            Ok(0) => return Err(Unsent),
            Ok(n) => (_, rest) = rest.split_at(n),
            Err(_) => return Err(Unsent),
        }
    }
    Ok(())
}
