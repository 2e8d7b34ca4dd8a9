//! Commands of the console: lines of the stream, and settings.
ghost use Rattle.std.specs.Prelude.{◌≡◌, IfSome, option_map};
ghost use Rattle.tk_script.specs.Commands as spec;
ghost use Rattle.tk_script.specs.Pieces.{pieces_left};

use super::Command;
use crate::pieces::Pieces;
use crate::words::one_number;

/// The most events that a script's console may hold.
const MAX_CAPACITY: u64 = 65_536;

// How many events the console holds.
fn capacity_of(words: Pieces<'_>) -> Option<Command<'_>>
    ensures said { option_map spec.view result ≡ spec.capacity_by (pieces_left words.entry) }
    ensures good { IfSome result (λ c. spec.IsGood (spec.view c)) }
{
    let count = one_number(words)?;
    if count == 0 || count > MAX_CAPACITY {
        return None;
    }
    Some(Command::Capacity { count })
}

// After the word for histograms stands nothing.
fn times_of(words: Pieces<'_>) -> Option<Command<'_>>
    ensures said { option_map spec.view result ≡ spec.alone spec.times (pieces_left words.entry) }
    ensures good { IfSome result (λ c. spec.IsGood (spec.view c)) }
{
    let mut words = words;
    match words.next() {
        Some(_) => None,
        None => Some(Command::Times),
    }
}

// Nor after the word for waits.
fn waits_of(words: Pieces<'_>) -> Option<Command<'_>>
    ensures said { option_map spec.view result ≡ spec.alone spec.waits (pieces_left words.entry) }
    ensures good { IfSome result (λ c. spec.IsGood (spec.view c)) }
{
    let mut words = words;
    if words.next().is_some() {
        return None;
    }
    Some(Command::Waits)
}

// A line of the stream, or a setting.
pub(super) fn line_command<'a>(word: &[u8], words: Pieces<'a>) -> Option<Command<'a>>
    ensures said { option_map spec.view result ≡ spec.said_in spec.line_forms word.now (pieces_left words.entry) }
    ensures good { IfSome result (λ c. spec.IsGood (spec.view c)) }
{
    if word == b"publish".as_slice() {
        one_number(words).map(|moment| Command::Publish {
            moment,
            whole: false,
        })
    } else if word == b"snapshot".as_slice() {
        one_number(words).map(|moment| Command::Publish {
            moment,
            whole: true,
        })
    } else if word == b"capacity".as_slice() {
        capacity_of(words)
    } else if word == b"retention".as_slice() {
        one_number(words).map(|span| Command::Retention { span })
    } else if word == b"times".as_slice() {
        times_of(words)
    } else if word == b"waits".as_slice() {
        waits_of(words)
    } else {
        None
    }
}
