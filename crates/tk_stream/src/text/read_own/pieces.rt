//! Pieces of a line's text, each taken from the front of the bytes.
//!
//! These take a text as [`crate::Line::write`] spells it. `None` says no more than that it is spelled in another way.
ghost use Rattle.std.specs.Prelude.{◌≡◌, ◌<◌, ◌+◌, ◌*◌, ◌^◌, ◌∷◌, ◌++◌, [], true, IfSome, IfOk, decimal};
ghost use Rattle.std.specs.List.{list_all};
ghost use Rattle.std.specs.Fmt.{signed_decimal};
ghost use Rattle.json.specs.Print.{escape, escape_byte};
ghost use Rattle.serde_json.specs.Data.{boolean};
ghost use Rattle.serde_json.specs.Written.{compact_text};
ghost use Rattle.tk_ids.specs.Names.{is_name, is_printable};
ghost use Rattle.tk_stream.specs.Pieces.{Takes, is_escaped, is_plain};
ghost use Rattle.tk_stream.specs.Spelling as spec;

use crate::text::write::short::is_escaped;
use std::alloc::{AllocError, Global};
use tk_ids::{AsyncOpId, IdError, Name, ResourceId, TaskId};

/// A text, as it stands.
#[inline(always)]
pub(crate) fn take_text<'a>(bytes: &'a [u8], text: &[u8]) -> Option<&'a [u8]>
    ensures { IfSome result (λ rest. Takes bytes.now text.now rest.now) }
{
    if bytes.len() < text.len() {
        return None;
    }
    let (front, rest) = bytes.split_at(text.len());
    if front == text { Some(rest) } else { None }
}

// ---- numbers

#[inline(always)]
fn digit_of(byte: u8) -> Option<u64>
    ensures digit { IfSome result (λ d. byte ≡ 48 + d) }
    ensures small { IfSome result (λ d. d < 10) }
{
    if byte >= b'0' && byte <= b'9' {
        Some(u64::from(byte - b'0'))
    } else {
        None
    }
}

#[inline(always)]
fn with_digit(n: u64, digit: u64) -> Option<u64>
    ensures value { IfSome result (λ m. m ≡ n * 10 + digit) }
    ensures fits { IfSome result (λ m. m < 2 ^ 64) }
{
    n.checked_mul(10)?.checked_add(digit)
}

/// A number in decimal, without a zero in front.
#[inline(always)]
fn take_decimal(bytes: &[u8]) -> Option<(u64, &[u8])>
    ensures { IfSome result (λ x. Takes bytes.now (decimal x.0) x.1.now) }
{
    let [byte, rest @ ..] = bytes else {
        return None;
    };
    let first = digit_of(*byte)?;
    if first == 0 {
        return Some((0, rest));
    }
    let (n, rest) = take_digits(first, rest)?;
    Some((n, rest))
}

// The digits after the first.
#[inline(always)]
fn take_digits(first: u64, bytes: &[u8]) -> Option<(u64, &[u8])>
    requires positive { 0 < first }
    ensures { IfSome result (λ x. decimal first ++ bytes.now ≡ decimal x.0 ++ x.1.now) }
{
    let mut n = first;
    for (at, byte) in bytes.iter().enumerate() {
        let Some(digit) = digit_of(*byte) else {
            return Some((n, &bytes[at..]));
        };
        n = with_digit(n, digit)?;
    }
    None
}

/// What stands before a number, and the number.
#[inline(always)]
pub(crate) fn take_number<'a>(bytes: &'a [u8], before: &[u8]) -> Option<(u64, &'a [u8])>
    ensures { IfSome result (λ x. Takes bytes.now
        (before.now ++ compact_text (spec.number_data x.0)) x.1.now) }
{
    let rest = take_text(bytes, before)?;
    let (n, rest) = take_decimal(rest)?;
    Some((n, rest))
}

/// A signed number in decimal. `-0` is spelled in another way.
fn take_signed_decimal(bytes: &[u8]) -> Option<(i64, &[u8])>
    ensures { IfSome result (λ x. Takes bytes.now (signed_decimal x.0) x.1.now) }
{
    if let Some(rest) = take_text(bytes, b"-") {
        let (size, rest) = take_decimal(rest)?;
        if size == 0 {
            return None;
        }
        let n = 0i64.checked_sub_unsigned(size)?;
        return Some((n, rest));
    }
    let (size, rest) = take_decimal(bytes)?;
    let n = 0i64.checked_add_unsigned(size)?;
    Some((n, rest))
}

/// A signed number, and what stands around it.
pub(crate) fn take_signed<'a>(
    bytes: &'a [u8],
    before: &[u8],
    after: &[u8],
) -> Option<(i64, &'a [u8])>
    ensures { IfSome result (λ x. Takes bytes.now
        (before.now ++ (compact_text (spec.signed_data x.0) ++ after.now)) x.1.now) }
{
    let rest = take_text(bytes, before)?;
    let (n, rest) = take_signed_decimal(rest)?;
    let rest = take_text(rest, after)?;
    Some((n, rest))
}

/// What stands before a number or `null`, and that.
#[inline(always)]
pub(crate) fn take_optional<'a>(bytes: &'a [u8], before: &[u8]) -> Option<(Option<u64>, &'a [u8])>
    ensures { IfSome result (λ x. Takes bytes.now
        (before.now ++ compact_text (spec.optional_data x.0)) x.1.now) }
{
    let rest = take_text(bytes, before)?;
    if let Some(rest) = take_text(rest, b"null") {
        return Some((None, rest));
    }
    let (n, rest) = take_decimal(rest)?;
    Some((Some(n), rest))
}

/// What stands before a flag, and the flag.
#[inline(always)]
pub(crate) fn take_flag<'a>(bytes: &'a [u8], before: &[u8]) -> Option<(bool, &'a [u8])>
    ensures { IfSome result (λ x. Takes bytes.now
        (before.now ++ compact_text (boolean x.0)) x.1.now) }
{
    let rest = take_text(bytes, before)?;
    if let Some(rest) = take_text(rest, b"true") {
        return Some((true, rest));
    }
    let rest = take_text(rest, b"false")?;
    Some((false, rest))
}

/// The task's id that a number is.
#[inline(always)]
pub(crate) fn task_id(n: u64) -> Option<TaskId>
    ensures { IfSome result (λ id. id ≡ n) }
{
    match TaskId::from_value(n) {
        Ok(id) => Some(id),
        Err(_) => None,
    }
}

/// The resource's id that a number is.
#[inline(always)]
pub(crate) fn resource_id(n: u64) -> Option<ResourceId>
    ensures { IfSome result (λ id. id ≡ n) }
{
    match ResourceId::from_value(n) {
        Ok(id) => Some(id),
        Err(_) => None,
    }
}

/// The async operation's id that a number is.
#[inline(always)]
pub(crate) fn op_id(n: u64) -> Option<AsyncOpId>
    ensures { IfSome result (λ id. id ≡ n) }
{
    match AsyncOpId::from_value(n) {
        Ok(id) => Some(id),
        Err(_) => None,
    }
}

/// The resource's id that a number is, where there is one.
#[inline(always)]
pub(crate) fn optional_resource_id(n: Option<u64>) -> Option<Option<ResourceId>>
    ensures { IfSome result (λ id. id ≡ n) }
{
    match n {
        Some(n) => Some(Some(resource_id(n)?)),
        None => Some(None),
    }
}

/// The async operation's id that a number is, where there is one.
#[inline(always)]
pub(crate) fn optional_op_id(n: Option<u64>) -> Option<Option<AsyncOpId>>
    ensures { IfSome result (λ id. id ≡ n) }
{
    match n {
        Some(n) => Some(Some(op_id(n)?)),
        None => Some(None),
    }
}

/// The task's id that a number is, where there is one.
#[inline(always)]
pub(crate) fn optional_task_id(n: Option<u64>) -> Option<Option<TaskId>>
    ensures { IfSome result (λ id. id ≡ n) }
{
    match n {
        Some(n) => Some(Some(task_id(n)?)),
        None => Some(None),
    }
}

/// What stands before a number below 2^32, and the number.
#[inline(always)]
pub(crate) fn take_small<'a>(bytes: &'a [u8], before: &[u8]) -> Option<(u32, &'a [u8])>
    ensures { IfSome result (λ x. Takes bytes.now
        (before.now ++ compact_text (spec.number_data x.0)) x.1.now) }
{
    let (n, rest) = take_number(bytes, before)?;
    if n < 1 << 32 {
        Some((n as u32, rest))
    } else {
        None
    }
}

// ---- names

/// What stands before a name, up to its first quote, and the name with its last quote.
pub(crate) fn take_name<'a>(
    alloc: Global,
    bytes: &'a [u8],
    before: &[u8],
) -> Result<Option<(Name, &'a [u8])>, AllocError>
    ensures { IfOk result (λ o. IfSome o (λ x. Takes bytes.now
        (before.now ++ (escape x.0 ++ 34 ∷ [])) x.1.now)) }
{
    let Some(rest) = take_text(bytes, before) else {
        return Ok(None);
    };
    if let Some((text, rest)) = take_content(rest) {
        let Some(name) = short_name(alloc, text)? else {
            return Ok(None);
        };
        return Ok(Some((name, rest)));
    }
    let Some((text, rest)) = take_escaped(alloc, rest)? else {
        return Ok(None);
    };
    let Some(name) = name_of(alloc, text.as_slice())? else {
        return Ok(None);
    };
    Ok(Some((name, rest)))
}

// The name of these bytes, where they are one.
fn name_of(alloc: Global, bytes: &[u8]) -> Result<Option<Name>, AllocError>
    ensures { IfOk result (λ o. IfSome o (λ name. (name ≡ bytes.now) × (is_name bytes.now ≡ true))) }
{
    match Name::new(alloc, bytes) {
        Ok(name) => Ok(Some(name)),
        Err(IdError::Memory) => Err(AllocError),
        Err(_) => Ok(None),
    }
}

// The name of these printable bytes, where they are one.
fn short_name(alloc: Global, bytes: &[u8]) -> Result<Option<Name>, AllocError>
    requires { list_all is_printable bytes.now ≡ true }
    ensures { IfOk result (λ o. IfSome o (λ name. (name ≡ bytes.now) × (is_name bytes.now ≡ true))) }
{
    if bytes.is_empty() || bytes.len() > 1024 {
        return Ok(None);
    }
    let name = Name::from_checked(alloc, bytes)?;
    Ok(Some(name))
}

// The bytes before the quote that ends a text, without their backslashes, and the quote.
fn take_escaped(alloc: Global, bytes: &[u8]) -> Result<Option<(Vec<u8>, &[u8])>, AllocError>
    ensures { IfOk result (λ o. IfSome o (λ x. list_all is_printable x.0.items ≡ true
        → Takes bytes.now (escape x.0.items ++ 34 ∷ []) x.1.now)) }
{
    let mut text = Vec::new(alloc);
    let mut rest = bytes;
    for _ in 0..bytes.len() {
        if let Some(after) = take_text(rest, b"\"") {
            return Ok(Some((text, after)));
        }
        let Some((byte, after)) = take_byte(rest) else {
            return Ok(None);
        };
        text.push(byte)?;
        rest = after;
    }
    Ok(None)
}

// A byte, with its backslash if it has one.
#[tactic(auto, unfolding(json::specs::Print::escape_byte))]
fn take_byte(bytes: &[u8]) -> Option<(u8, &[u8])>
    ensures { IfSome result (λ x. is_printable x.0 ≡ true → Takes bytes.now (escape_byte x.0) x.1.now) }
{
    if let Some(rest) = take_text(bytes, b"\\\"") {
        return Some((b'"', rest));
    }
    if let Some(rest) = take_text(bytes, b"\\\\") {
        return Some((b'\\', rest));
    }
    let [byte, rest @ ..] = bytes else {
        return None;
    };
    if is_escaped(*byte) {
        return None;
    }
    Some((*byte, rest))
}

// What stands before the next quote, where each of its bytes stands for itself in a name, and the quote.
fn take_content(bytes: &[u8]) -> Option<(&[u8], &[u8])>
    ensures text { IfSome result (λ x. Takes bytes.now (x.0.now ++ 34 ∷ []) x.1.now) }
    ensures plain { IfSome result (λ x. list_all is_plain x.0.now ≡ true) }
    ensures printable { IfSome result (λ x. list_all is_printable x.0.now ≡ true) }
{
    for (at, byte) in bytes.iter().enumerate() {
        if *byte == b'"' {
            return Some((&bytes[..at], &bytes[at + 1..]));
        }
        if is_escaped(*byte) {
            return None;
        }
        if !is_printable(*byte) {
            return None;
        }
    }
    None
}

fn is_printable(byte: u8) -> bool
    ensures { result ≡ is_printable byte }
{
    0x20 <= byte && byte <= 0x7E
}
