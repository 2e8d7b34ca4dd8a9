//! Texts in columns, of which a byte takes one.
ghost use Rattle.std.specs.Prelude.{OnOk, string_bytes};
ghost use Rattle.tk_screen.specs.Texts as spec;
ghost use Rattle.tk_screen.specs.Texts.{Puts};

use std::alloc::AllocError;

fn put_spaces(out: &mut String, count: usize) -> Result<(), AllocError>
    ensures { OnOk result (Puts (string_bytes out.old) (string_bytes out.new) (spec.spaces count)) }
{
    for _ in 0..count {
        out.push_str(" ")?;
    }
    Ok(())
}

/// Puts a text at the right of a column of this width. A longer text stays whole.
pub fn put_right(out: &mut String, text: &str, width: usize) -> Result<(), AllocError>
    ensures { OnOk result (Puts (string_bytes out.old) (string_bytes out.new) (spec.right width text.now)) }
{
    put_spaces(out, width.saturating_sub(text.len()))?;
    out.push_str(text)
}

/// Puts a text at the left of a column of this width. A longer text stays whole.
pub fn put_left(out: &mut String, text: &str, width: usize) -> Result<(), AllocError>
    ensures { OnOk result (Puts (string_bytes out.old) (string_bytes out.new) (spec.left width text.now)) }
{
    out.push_str(text)?;
    put_spaces(out, width.saturating_sub(text.len()))
}
