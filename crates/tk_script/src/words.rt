//! The words of a command: numbers, and kinds of tasks.
ghost use Rattle.std.specs.Prelude.{◌≡◌};
ghost use Rattle.std.specs.List.{list_all};
ghost use Rattle.std.specs.Char.{is_ascii_digit};
ghost use Rattle.tk_script.specs.Words as spec;
ghost use Rattle.tk_script.specs.Pieces.{pieces_left};

use crate::pieces::Pieces;
use tk_ids::TaskKind;

fn are_digits(word: &[u8]) -> bool
    ensures { result ≡ list_all is_ascii_digit word.now }
{
    word.iter().all(|b| b.is_ascii_digit())
}

/// The number that a word is: a decimal of 1 to 20 digits below 2^64, be it a moment, an index or an item's number.
pub(crate) fn moment_of(word: &[u8]) -> Option<u64>
    ensures { result ≡ spec.moment word.now }
{
    if word.is_empty() || word.len() > 20 || !are_digits(word) {
        return None;
    }
    match str::from_utf8(word) {
        Ok(text) => text.parse().ok(),
        Err(_) => None,
    }
}

/// The number that a word with a sign is: `+` or `-` and a decimal of 1 to 20 digits, from -2^63 to 2^63 - 1.
pub(crate) fn signed_of(word: &[u8]) -> Option<i64>
    ensures { result ≡ spec.signed word.now }
{
    let (sign, digits) = word.split_first()?;
    let size = moment_of(digits)?;
    match *sign {
        b'+' => 0i64.checked_add_unsigned(size),
        b'-' => 0i64.checked_sub_unsigned(size),
        _ => None,
    }
}

/// The kind of task that a word names.
pub(crate) fn kind_of(word: &[u8]) -> Option<TaskKind>
    ensures { result ≡ spec.kind word.now }
{
    if word == b"spawn".as_slice() {
        Some(TaskKind::Spawn)
    } else if word == b"blocking".as_slice() {
        Some(TaskKind::Blocking)
    } else {
        None
    }
}

/// Whether a poll operation was ready or pending.
pub(crate) fn readiness_of(word: &[u8]) -> Option<bool>
    ensures { result ≡ spec.readiness word.now }
{
    if word == b"ready".as_slice() {
        Some(true)
    } else if word == b"pending".as_slice() {
        Some(false)
    } else {
        None
    }
}

/// The number that stands alone in the words.
pub(crate) fn one_number(words: Pieces<'_>) -> Option<u64>
    ensures { result ≡ spec.one_number (pieces_left words.entry) }
{
    let mut words = words;
    let first = moment_of(words.next()?)?;
    if words.next().is_some() {
        return None;
    }
    Some(first)
}

/// The two numbers that the words are.
pub(crate) fn two_numbers(words: Pieces<'_>) -> Option<(u64, u64)>
    ensures { result ≡ spec.two_numbers (pieces_left words.entry) }
{
    let mut words = words;
    let first = words.next()?;
    let second = words.next()?;
    if words.next().is_some() {
        return None;
    }
    Some((moment_of(first)?, moment_of(second)?))
}

/// The five numbers that the words are.
pub(crate) fn five_numbers(words: Pieces<'_>) -> Option<(u64, u64, u64, u64, u64)>
    ensures { result ≡ spec.five_numbers (pieces_left words.entry) }
{
    let mut words = words;
    let first = words.next()?;
    let second = words.next()?;
    let third = words.next()?;
    let fourth = words.next()?;
    let fifth = words.next()?;
    if words.next().is_some() {
        return None;
    }
    Some((
        moment_of(first)?,
        moment_of(second)?,
        moment_of(third)?,
        moment_of(fourth)?,
        moment_of(fifth)?,
    ))
}
