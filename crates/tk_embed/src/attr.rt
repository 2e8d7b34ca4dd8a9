//! Attributes as they cross the border.
ghost use Rattle.std.specs.Prelude.{◌≡◌};
ghost use Rattle.tk_embed.specs.Attr.{value_of, change_of};

use tk_core::AttrOp;
use tk_ids::AttrValue;

/// The value of an attribute: its `kind` says which of the three is meant. 0: the number; 1: the flag; any other: the signed number.
#[repr(C)]
#[derive(Clone, Copy)]
pub struct Attr {
    pub number: u64,
    pub signed: i64,
    pub kind: u32,
    pub flag: bool,
}

/// The value that is meant.
#[inline(always)]
pub(crate) fn value(attr: &Attr) -> AttrValue
    ensures { result ≡ value_of attr.now }
{
    match attr.kind {
        0 => AttrValue::U64(attr.number),
        1 => AttrValue::Bool(attr.flag),
        _ => AttrValue::I64(attr.signed),
    }
}

/// The change that is meant: 0 adds, 1 takes away, and any other number sets.
#[inline(always)]
pub(crate) fn change(how: u32, attr: &Attr) -> AttrOp
    ensures { result ≡ change_of how attr.now }
{
    match how {
        0 => AttrOp::Add(value(attr)),
        1 => AttrOp::Sub(value(attr)),
        _ => AttrOp::Override(value(attr)),
    }
}
