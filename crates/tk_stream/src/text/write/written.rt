//! What is written into lines, and lists of it.
ghost use Rattle.std.specs.Prelude.{◌++◌, false, map, OnOk};
ghost use Rattle.serde_json.specs.Data.{Data};
ghost use Rattle.serde_json.specs.View.{items_of};
ghost use Rattle.serde_json.specs.Written.{compact_text, items_text, comma_if};
ghost use Rattle.tk_stream.specs.Pieces.{Puts, PutsOpen};

use crate::text::write::pieces::put_text;
use crate::text::write::short::ROOM;
use std::alloc::AllocError;

/// A type whose values stand in lists of lines.
pub(crate) trait Written {
    /// The JSON value that stands for it.
    ghost spelling: { Self → Data };

    /// Puts the value's text after what is written, with a comma before it where another value of its list stands there.
    /// Short texts are written in `scratch` first; what it holds before and after the call means nothing.
    fn write(
        &self,
        out: &mut Vec<u8>,
        scratch: &mut [u8; ROOM],
        later: bool,
    ) -> Result<(), AllocError>
        ensures { OnOk result (Puts out.old.items out.new.items (comma_if later ++ compact_text (spelling self.now))) };
}

/// What stands before a list, up to its opening bracket, and the list. The bracket that closes it is left to the next text.
pub(crate) fn put_open<T: Written>(
    out: &mut Vec<u8>,
    scratch: &mut [u8; ROOM],
    before: &[u8],
    list: &[T],
) -> Result<(), AllocError>
    ensures { OnOk result (PutsOpen out.old.items out.new.items
        (before.now ++ items_text false (items_of (map T.spelling list.now)))) }
{
    put_text(out, before)?;
    put_items(out, scratch, list)?;
    Ok(())
}

/// The values of a list, with a comma between two. The bracket that closes it is left to the next text.
pub(crate) fn put_items<T: Written>(
    out: &mut Vec<u8>,
    scratch: &mut [u8; ROOM],
    list: &[T],
) -> Result<(), AllocError>
    ensures { OnOk result (PutsOpen out.old.items out.new.items
        (items_text false (items_of (map T.spelling list.now)))) }
{
    let mut later = false;
    for item in list {
        item.write(out, scratch, later)?;
        later = true;
    }
    Ok(())
}
