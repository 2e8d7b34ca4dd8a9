//! Pieces of a line's text, each put after what is written so far.
ghost use Rattle.std.specs.Prelude.{◌≡◌, ◌∷◌, ◌++◌, OnOk};
ghost use Rattle.serde_json.specs.Written.{comma_if};
ghost use Rattle.tk_stream.specs.Pieces.{Puts};

use std::alloc::AllocError;

/// A text, as it stands.
#[inline(always)]
pub(crate) fn put_text(out: &mut Vec<u8>, text: &[u8]) -> Result<(), AllocError>
    ensures { OnOk result (Puts out.old.items out.new.items text.now) }
{
    out.extend_from_slice(text)
}

/// What a value begins with, with a comma before it where another value of its list stands there.
#[inline(always)]
pub(crate) fn put_opening(
    out: &mut Vec<u8>,
    later: bool,
    text: &[u8],
    with_comma: &[u8],
) -> Result<(), AllocError>
    requires { with_comma.now ≡ 44 ∷ text.now }
    ensures { OnOk result (Puts out.old.items out.new.items (comma_if later ++ text.now)) }
{
    if later {
        put_text(out, with_comma)
    } else {
        put_text(out, text)
    }
}
