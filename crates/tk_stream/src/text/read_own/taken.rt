//! What is taken from the front of a line's text, and lists of it.
ghost use Rattle.std.specs.Prelude.{◌++◌, false, map, IfSome, IfOk};
ghost use Rattle.serde_json.specs.Data.{Data};
ghost use Rattle.serde_json.specs.View.{items_of};
ghost use Rattle.serde_json.specs.Written.{compact_text, items_text};
ghost use Rattle.tk_stream.specs.Pieces.{Takes};

use crate::text::read_own::pieces::take_text;
use std::alloc::{AllocError, Global};

/// The value of a `Some`; a `None` is the answer `Ok(None)`.
macro_rules! some_of {
    ($option:expr) => {
        match $option {
            Some(value) => value,
            None => return Ok(None),
        }
    };
}

pub(crate) use some_of;

/// A type whose values are taken from lines.
pub(crate) trait Taken: Drop {
    /// The JSON value that stands for it.
    ghost spelling: { Self → Data };

    /// Takes a value's text from the front of the bytes, where it is spelled as it is written.
    fn take(alloc: Global, bytes: &[u8]) -> Result<Option<(Self, &[u8])>, AllocError>
        ensures { IfOk result (λ o. IfSome o (λ x. Takes bytes.now (compact_text (spelling x.0)) x.1.now)) };
}

/// What stands before a list, up to its opening bracket, and the list with its closing one.
pub(crate) fn take_list<'a, T: Taken>(
    alloc: Global,
    bytes: &'a [u8],
    before: &[u8],
) -> Result<Option<(Vec<T>, &'a [u8])>, AllocError>
    ensures { IfOk result (λ o. IfSome o (λ x. Takes bytes.now
        (before.now ++ items_text false (items_of (map T.spelling x.0.items))) x.1.now)) }
{
    let Some(rest) = take_text(bytes, before) else {
        return Ok(None);
    };
    if let Some(rest) = take_text(rest, b"]") {
        return Ok(Some((Vec::new(alloc), rest)));
    }
    let Some((list, rest)) = take_items(alloc, rest)? else {
        return Ok(None);
    };
    Ok(Some((list, rest)))
}

// The items of a list that has some, and its closing bracket.
fn take_items<T: Taken>(alloc: Global, bytes: &[u8]) -> Result<Option<(Vec<T>, &[u8])>, AllocError>
    ensures { IfOk result (λ o. IfSome o (λ x. Takes bytes.now
        (items_text false (items_of (map T.spelling x.0.items))) x.1.now)) }
{
    let mut list = Vec::new(alloc);
    let mut rest = bytes;
    for _ in 0..bytes.len() {
        let Some((item, after)) = T::take(alloc, rest)? else {
            return Ok(None);
        };
        list.push(item)?;
        if let Some(after) = take_text(after, b"]") {
            return Ok(Some((list, after)));
        }
        let Some(after) = take_text(after, b",") else {
            return Ok(None);
        };
        rest = after;
    }
    Ok(None)
}
