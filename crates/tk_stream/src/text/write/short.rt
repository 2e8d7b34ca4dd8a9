//! A short text, written from its end to its front: so come the digits of a number, and the whole goes after a line's
//! text in one step. The members of an object are therefore written from the last to the first.
ghost use Rattle.std.specs.Prelude.{◌≡◌, ◌+◌, ◌≤◌, ◌++◌, true, length, take, drop, OnOk};
ghost use Rattle.std.specs.List.{list_all};
ghost use Rattle.json.specs.Print.{escape, escape_byte};
ghost use Rattle.serde_json.specs.Data.{boolean};
ghost use Rattle.serde_json.specs.Written.{compact_text, comma_if};
ghost use Rattle.tk_ids.specs.Names.{is_printable};
ghost use Rattle.tk_stream.specs.Pieces.{Puts, Takes, is_escaped};
ghost use Rattle.tk_stream.specs.Spelling as spec;

use crate::text::write::pieces::put_text;
use crate::text::write::plain::is_plain;
use itoa::{Buffer, write_digits};
use std::alloc::AllocError;
use std::simd::Simd;
use tk_ids::Name;

/// How many bytes most short texts have at most. Those of a line are written in one array, since a new one would be filled
/// with zeros for each.
pub(crate) const ROOM: usize = 1536;

// The first `K` bytes of a text, by one load and one store. `copy_from_slice` would first ask whether the two places overlap.
#[inline(always)]
fn front_before<const K: usize, const N: usize>(
    bytes: &mut [u8; N],
    at: usize,
    text: &[u8],
) -> usize
    requires { (K ≤ length text.now) × (K ≤ at) × (at ≤ N) }
    ensures text { Takes (drop result bytes.new) (take K text.now) (drop at bytes.old) }
    ensures place { result + K ≡ at }
{
    let start = at - K;
    let bytes = &mut bytes[..];
    Simd::<u8, K>::from_slice(text).copy_to_slice(&mut bytes[start..]);
    start
}

// A text of `K` to twice as many bytes: its end and its front, which overlap.
#[inline(always)]
fn ends_before<const K: usize, const N: usize>(bytes: &mut [u8; N], at: usize, text: &[u8]) -> usize
    requires room { (length text.now ≤ at) × (at ≤ N) }
    requires covers { (K ≤ length text.now) × (length text.now ≤ K + K) }
    ensures text { Takes (drop result bytes.new) text.now (drop at bytes.old) }
    ensures place { result + length text.now ≡ at }
{
    let last = text.len() - K;
    front_before::<K, N>(bytes, at, &text[last..]);
    front_before::<K, N>(bytes, at - last, text)
}

// A text of any length.
#[inline(always)]
fn long_before<const N: usize>(bytes: &mut [u8; N], at: usize, text: &[u8]) -> usize
    requires { (length text.now ≤ at) × (at ≤ N) }
    ensures text { Takes (drop result bytes.new) text.now (drop at bytes.old) }
    ensures place { result + length text.now ≡ at }
{
    let start = at - text.len();
    let bytes = &mut bytes[..];
    bytes[start..at].copy_from_slice(text);
    start
}

/// A text before what begins at a place. It is answered where it begins itself.
#[inline(always)]
pub(crate) fn text_before<const N: usize>(bytes: &mut [u8; N], at: usize, text: &[u8]) -> usize
    requires { (length text.now ≤ at) × (at ≤ N) }
    ensures text { Takes (drop result bytes.new) text.now (drop at bytes.old) }
    ensures place { result + length text.now ≡ at }
{
    match text.len() {
        1 => ends_before::<1, N>(bytes, at, text),
        2..4 => ends_before::<2, N>(bytes, at, text),
        4..8 => ends_before::<4, N>(bytes, at, text),
        8..16 => ends_before::<8, N>(bytes, at, text),
        16..=32 => ends_before::<16, N>(bytes, at, text),
        _ => long_before(bytes, at, text),
    }
}

/// A comma, where another value of the list stands before.
#[inline(always)]
pub(crate) fn comma_before<const N: usize>(bytes: &mut [u8; N], at: usize, later: bool) -> usize
    requires { (1 ≤ at) × (at ≤ N) }
    ensures text { Takes (drop result bytes.new) (comma_if later) (drop at bytes.old) }
    ensures place { (at ≤ result + 1) × (result ≤ N) }
{
    if later {
        text_before(bytes, at, b",")
    } else {
        at
    }
}

/// A number, with a text before it.
#[inline(always)]
pub(crate) fn number_before<const N: usize>(
    bytes: &mut [u8; N],
    at: usize,
    text: &[u8],
    n: u64,
) -> usize
    requires { (length text.now + 20 ≤ at) × (at ≤ N) }
    ensures text { Takes (drop result bytes.new) (text.now ++ compact_text (spec.number_data n)) (drop at bytes.old) }
    ensures place { (at ≤ result + (length text.now + 20)) × (result ≤ N) }
{
    let start = write_digits(n, bytes, at);
    text_before(bytes, start, text)
}

/// A number or `null`, with a text before it.
#[inline(always)]
pub(crate) fn optional_before<const N: usize>(
    bytes: &mut [u8; N],
    at: usize,
    text: &[u8],
    n: Option<u64>,
) -> usize
    requires { (length text.now + 20 ≤ at) × (at ≤ N) }
    ensures text { Takes (drop result bytes.new) (text.now ++ compact_text (spec.optional_data n)) (drop at bytes.old) }
    ensures place { (at ≤ result + (length text.now + 20)) × (result ≤ N) }
{
    match n {
        Some(n) => number_before(bytes, at, text, n),
        None => {
            let start = text_before(bytes, at, b"null");
            text_before(bytes, start, text)
        }
    }
}

/// A flag, with a text before it.
#[inline(always)]
pub(crate) fn flag_before<const N: usize>(
    bytes: &mut [u8; N],
    at: usize,
    text: &[u8],
    flag: bool,
) -> usize
    requires { (length text.now + 20 ≤ at) × (at ≤ N) }
    ensures text { Takes (drop result bytes.new) (text.now ++ compact_text (boolean flag)) (drop at bytes.old) }
    ensures place { (at ≤ result + (length text.now + 20)) × (result ≤ N) }
{
    let start = if flag {
        text_before(bytes, at, b"true")
    } else {
        text_before(bytes, at, b"false")
    };
    text_before(bytes, start, text)
}

/// A signed number, with a text before it.
pub(crate) fn signed_before<const N: usize>(
    bytes: &mut [u8; N],
    at: usize,
    text: &[u8],
    n: i64,
) -> usize
    requires { (length text.now + 20 ≤ at) × (at ≤ N) }
    ensures text { Takes (drop result bytes.new) (text.now ++ compact_text (spec.signed_data n)) (drop at bytes.old) }
    ensures place { (at ≤ result + (length text.now + 20)) × (result ≤ N) }
{
    let mut buffer = Buffer::new();
    let start = text_before(bytes, at, buffer.format(n).as_bytes());
    text_before(bytes, start, text)
}

/// A name, without its quotes.
#[inline(always)]
pub(crate) fn name_before<const N: usize>(bytes: &mut [u8; N], at: usize, name: &Name) -> usize
    requires { (length name.now + length name.now ≤ at) × (at ≤ N) }
    ensures text { Takes (drop result bytes.new) (escape name.now) (drop at bytes.old) }
    ensures place { (at ≤ result + (length name.now + length name.now)) × (result ≤ N) }
{
    let text = name.as_bytes();
    if is_plain(text) {
        text_before(bytes, at, text)
    } else {
        escaped_before(bytes, at, text)
    }
}

// Few names have a backslash.
#[cold]
#[inline(never)]
fn escaped_before<const N: usize>(bytes: &mut [u8; N], at: usize, text: &[u8]) -> usize
    requires room { (length text.now + length text.now ≤ at) × (at ≤ N) }
    requires printable { list_all is_printable text.now ≡ true }
    ensures text { Takes (drop result bytes.new) (escape text.now) (drop at bytes.old) }
    ensures place { (at ≤ result + (length text.now + length text.now)) × (result ≤ N) }
{
    let mut start = at;
    let mut left = text.len();
    while left > 0 {
        left -= 1;
        start = byte_before(bytes, start, text[left]);
    }
    start
}

fn byte_before<const N: usize>(bytes: &mut [u8; N], at: usize, byte: u8) -> usize
    requires room { (2 ≤ at) × (at ≤ N) }
    requires printable { is_printable byte ≡ true }
    ensures text { Takes (drop result bytes.new) (escape_byte byte) (drop at bytes.old) }
    ensures place { (at ≤ result + 2) × (result ≤ N) }
{
    let start = text_before(bytes, at, &[byte]);
    if is_escaped(byte) {
        text_before(bytes, start, b"\\")
    } else {
        start
    }
}

/// Whether a backslash stands before a byte of a name.
pub(crate) fn is_escaped(byte: u8) -> bool
    ensures { result ≡ is_escaped byte }
{
    byte == b'"' || byte == b'\\'
}

/// What begins at a place, put after what is written.
#[inline(always)]
pub(crate) fn put_short<const N: usize>(
    out: &mut Vec<u8>,
    bytes: &[u8; N],
    at: usize,
) -> Result<(), AllocError>
    requires { at ≤ N }
    ensures { OnOk result (Puts out.old.items out.new.items (drop at bytes.now)) }
{
    let bytes = &bytes[..];
    put_text(out, &bytes[at..])
}
