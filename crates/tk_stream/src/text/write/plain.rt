//! Whether a name stands for itself in a line: no byte of it has a backslash before it.
ghost use Rattle.std.specs.Prelude.{◌≡◌, ◌+◌, ◌≤◌, ◌<◌, length};
ghost use Rattle.std.specs.Bool.{OnTrue};
ghost use Rattle.json.specs.Print.{escape};
ghost use Rattle.json.specs.Written.{PlainBetween};

use std::simd::prelude::*;

/// Whether the bytes need no backslash. Several are looked at in one step: two loads that overlap cover a short name.
#[inline(always)]
pub(crate) fn is_plain(bytes: &[u8]) -> bool
    ensures { OnTrue result (escape bytes.now ≡ bytes.now) }
{
    if bytes.len() < 16 {
        is_short_plain(bytes)
    } else {
        is_long_plain(bytes)
    }
}

#[inline(always)]
fn is_short_plain(bytes: &[u8]) -> bool
    requires { length bytes.now < 16 }
    ensures { OnTrue result (PlainBetween bytes.now 0 (length bytes.now)) }
{
    let len = bytes.len();
    if len >= 8 {
        are_8_plain(bytes, 0) && are_8_plain(bytes, len - 8)
    } else if len >= 4 {
        are_4_plain(bytes, 0) && are_4_plain(bytes, len - 4)
    } else {
        are_few_plain(bytes)
    }
}

#[inline(always)]
fn is_long_plain(bytes: &[u8]) -> bool
    requires { 16 ≤ length bytes.now }
    ensures { OnTrue result (PlainBetween bytes.now 0 (length bytes.now)) }
{
    let mut at = 0;
    while bytes.len() - at > 16 {
        if !are_16_plain(bytes, at) {
            return false;
        }
        at += 16;
    }
    are_16_plain(bytes, bytes.len() - 16)
}

#[inline(always)]
fn are_few_plain(bytes: &[u8]) -> bool
    ensures { OnTrue result (PlainBetween bytes.now 0 (length bytes.now)) }
{
    for &byte in bytes {
        if byte == b'"' || byte == b'\\' || byte < 0x20 {
            return false;
        }
    }
    true
}

#[inline(always)]
fn are_4_plain(bytes: &[u8], at: usize) -> bool
    requires { at + 4 ≤ length bytes.now }
    ensures { OnTrue result (PlainBetween bytes.now at (at + 4)) }
{
    let v = u8x4::from_slice(&bytes[at..]);
    (v.simd_eq(u8x4::splat(b'"'))
        | v.simd_eq(u8x4::splat(b'\\'))
        | v.simd_lt(u8x4::splat(0x20))).to_bitmask()
        == 0
}

#[inline(always)]
fn are_8_plain(bytes: &[u8], at: usize) -> bool
    requires { at + 8 ≤ length bytes.now }
    ensures { OnTrue result (PlainBetween bytes.now at (at + 8)) }
{
    let v = u8x8::from_slice(&bytes[at..]);
    (v.simd_eq(u8x8::splat(b'"'))
        | v.simd_eq(u8x8::splat(b'\\'))
        | v.simd_lt(u8x8::splat(0x20))).to_bitmask()
        == 0
}

#[inline(always)]
fn are_16_plain(bytes: &[u8], at: usize) -> bool
    requires { at + 16 ≤ length bytes.now }
    ensures { OnTrue result (PlainBetween bytes.now at (at + 16)) }
{
    let v = u8x16::from_slice(&bytes[at..]);
    (v.simd_eq(u8x16::splat(b'"'))
        | v.simd_eq(u8x16::splat(b'\\'))
        | v.simd_lt(u8x16::splat(0x20))).to_bitmask()
        == 0
}
