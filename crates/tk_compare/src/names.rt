//! What places and findings of two streams are compared by.
ghost use Rattle.std.specs.Prelude.{◌≡◌, ◌∷◌, ◌++◌, [], IfOk, OnOk, slice_get};
ghost use Rattle.std.specs.Option.{option_map_or};
ghost use Rattle.tk_series.specs.Series.{is_seen};
ghost use Rattle.tk_compare.specs.Names as spec;

use std::alloc::{AllocError, Global};
use tk_odd::without_numbers;

/// Puts a name behind others.
pub(crate) fn push_name(names: &mut Vec<Vec<u8>>, name: Vec<u8>) -> Result<(), AllocError>
    ensures { OnOk result (spec.texts names.new.items ≡ spec.texts names.old.items ++ name.items ∷ []) }
{
    names.push(name)?;
    Ok(())
}

/// Whether a name is one of these.
pub(crate) fn is_among(names: &[Vec<u8>], name: &[u8]) -> bool
    ensures { result ≡ is_seen (spec.texts names.now) name.now }
{
    for other in names {
        if name == other.as_slice() {
            return true;
        }
    }
    false
}

// Puts a name of the other stream, but for its numbers, where this one doesn't have it.
fn push_loose(
    loose: &mut Vec<Vec<u8>>,
    alloc: Global,
    own: &[Vec<u8>],
    name: &[u8],
) -> Result<(), AllocError>
    ensures { OnOk result (spec.texts loose.new.items ≡ spec.texts loose.old.items ++ spec.loosened (spec.texts own.now) (name.now ∷ [])) }
{
    if is_among(own, name) {
        Ok(())
    } else {
        push_name(loose, without_numbers(alloc, name)?)
    }
}

// So the name that stands there, if one does.
fn push_loose_at(
    loose: &mut Vec<Vec<u8>>,
    alloc: Global,
    own: &[Vec<u8>],
    others: &[Vec<u8>],
    at: usize,
) -> Result<(), AllocError>
    ensures { OnOk result (spec.texts loose.new.items ≡ option_map_or
        (λ v. spec.texts loose.old.items ++ spec.loosened (spec.texts own.now) (v.items ∷ [])) (slice_get others.now at) (spec.texts loose.old.items)) }
{
    match others.get(at) {
        Some(name) => push_loose(loose, alloc, own, name.as_slice()),
        None => Ok(()),
    }
}

/// The names of the other stream that this one doesn't have, but for their numbers.
pub(crate) fn loosened(
    alloc: Global,
    own: &[Vec<u8>],
    others: &[Vec<u8>],
) -> Result<Vec<Vec<u8>>, AllocError>
    ensures { IfOk result (λ loose. spec.texts loose.items ≡ spec.loosened (spec.texts own.now) (spec.texts others.now)) }
{
    let mut loose = Vec::new(alloc);
    for at in 0..others.len() {
        push_loose_at(&mut loose, alloc, own, others, at)?;
    }
    Ok(loose)
}

/// What a name is compared by, beside the names of the other stream, and those of these that its own doesn't have, but for their numbers.
pub(crate) fn compared_by(
    alloc: Global,
    loose: &[Vec<u8>],
    others: &[Vec<u8>],
    name: &[u8],
) -> Result<Vec<u8>, AllocError>
    ensures { IfOk result (λ by. by.items ≡ spec.by_loose (spec.texts loose.now) (spec.texts others.now) name.now) }
{
    if is_among(others, name) {
        return Vec::from_slice(alloc, name);
    }
    let short = without_numbers(alloc, name)?;
    if is_among(loose, short.as_slice()) {
        Ok(short)
    } else {
        Vec::from_slice(alloc, name)
    }
}
