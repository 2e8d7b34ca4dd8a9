//! The attributes that a command declares.
ghost use Rattle.std.specs.Prelude.{◌≡◌, IfOk, option_map};
ghost use Rattle.tk_script.specs.Pieces.{pieces_left};
ghost use Rattle.tk_script.specs.Attributes as spec;

use crate::pieces::{Pieces, find};
use crate::words::{moment_of, signed_of};
use std::alloc::{AllocError, Global};
use tk_ids::{AttrSpec, AttrValue, Attrs, IdError, Name, is_name};

/// The value that a word is: a decimal, which is signed where it has a sign, or `true` or `false`.
pub(crate) fn value_of(word: &[u8]) -> Option<AttrValue>
    ensures { result ≡ spec.value_of word.now }
{
    if word == b"true".as_slice() {
        Some(AttrValue::Bool(true))
    } else if word == b"false".as_slice() {
        Some(AttrValue::Bool(false))
    } else {
        let unsigned = moment_of(word).map(AttrValue::U64);
        unsigned.or(signed_of(word).map(AttrValue::I64))
    }
}

// The name and the value of an attribute, on both sides of the first `=`.
fn parts_of(word: &[u8]) -> Option<(&[u8], AttrValue)>
    ensures { option_map (λ a. spec.attr_spec a.0.now a.1) result ≡ spec.attr word.now }
{
    let at = find(word, b'=')?;
    let (name, _) = word.split_at(at);
    let (_, rest) = word.split_at(at + 1);
    if !is_name(name) {
        return None;
    }
    let value = value_of(rest)?;
    Some((name, value))
}

// An attribute of this name, with the value that it has first.
fn spec_of(alloc: Global, name: &[u8], first: AttrValue) -> Result<AttrSpec, IdError>
    ensures { IfOk result (λ a. a ≡ spec.attr_spec name.now first) }
{
    let name = Name::new(alloc, name)?;
    Ok(AttrSpec {
        name,
        unit: None,
        first,
    })
}

/// The attributes that words declare, if they do: at most 6, no two of one name.
pub(crate) fn attributes_of(alloc: Global, words: Pieces<'_>) -> Result<Option<Attrs>, AllocError>
    ensures { IfOk result (λ o. o ≡ spec.attrs_by (pieces_left words.entry)) }
{
    let mut attrs = Vec::new(alloc);
    for word in words {
        let Some((name, first)) = parts_of(word) else {
            return Ok(None);
        };
        let Ok(attr) = spec_of(alloc, name, first) else {
            return Err(AllocError);
        };
        attrs.push(attr)?;
    }
    match Attrs::new(attrs) {
        Ok(attrs) => Ok(Some(attrs)),
        Err(_) => Ok(None),
    }
}
