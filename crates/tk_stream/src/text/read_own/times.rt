//! Histograms of poll times and of waits, taken from the front of a line's text.
ghost use Rattle.std.specs.Prelude.{◌++◌, false, IfOk, IfSome, map, option_map};
ghost use Rattle.serde_json.specs.View.{items_of};
ghost use Rattle.serde_json.specs.Written.{items_text};
ghost use Rattle.tk_stream.specs.Pieces.{Takes};
ghost use Rattle.tk_stream.specs.Spelling as spec;
ghost use Rattle.tk_stream.specs.Times.{filled_from};

use crate::tables::times::{PollTimes, WaitTimes, counts_of};
use crate::text::read_own::pieces::{take_number, take_text, task_id};
use crate::text::read_own::taken::{Taken, some_of, take_list};
use std::alloc::{AllocError, Global};
use tk_ids::TaskId;

/// A bucket that isn't empty, and its count.
impl Taken for (u64, u64) {
    ghost use Rattle.tk_stream.specs.Spelling.{filled_data};

    ghost spelling = { filled_data };

    fn take(_alloc: Global, bytes: &[u8]) -> Result<Option<((u64, u64), &[u8])>, AllocError> {
        let (bucket, rest) = some_of!(take_number(bytes, b"["));
        let (count, rest) = some_of!(take_number(rest, b","));
        let rest = some_of!(take_text(rest, b"]"));
        Ok(Some(((bucket, count), rest)))
    }
}

// The counts of a histogram, after a text that ends with the opening bracket.
fn take_counts<'a>(
    alloc: Global,
    bytes: &'a [u8],
    before: &[u8],
) -> Result<Option<([u64; 14], &'a [u8])>, AllocError>
    ensures { IfOk result (λ o. IfSome o (λ x. Takes bytes.now
        (before.now ++ items_text false (items_of (map spec.filled_data (filled_from 0 x.0)))) x.1.now)) }
{
    let (filled, rest): (Vec<(u64, u64)>, &[u8]) = some_of!(take_list(alloc, bytes, before)?);
    let counts = some_of!(counts_of(filled.as_slice()));
    Ok(Some((counts, rest)))
}

// The histogram of waits, where its members come next.
fn take_waits(alloc: Global, bytes: &[u8]) -> Result<Option<(Option<WaitTimes>, &[u8])>, AllocError>
    ensures { IfOk result (λ o. IfSome o (λ x. Takes bytes.now (spec.text_after (spec.waits_fields x.0)) x.1.now)) }
{
    let Some((longest, rest)) = take_number(bytes, b",\"longest_wait\":") else {
        return Ok(Some((None, bytes)));
    };
    let (counts, rest) = some_of!(take_counts(alloc, rest, b",\"waits\":[")?);
    Ok(Some((Some(WaitTimes { longest, counts }), rest)))
}

impl Taken for (TaskId, PollTimes) {
    ghost use Rattle.tk_stream.specs.Spelling.{times_data};

    ghost spelling = { times_data };

    fn take(
        alloc: Global,
        bytes: &[u8],
    ) -> Result<Option<((TaskId, PollTimes), &[u8])>, AllocError> {
        let (counts, rest) = some_of!(take_counts(alloc, bytes, b"{\"counts\":[")?);
        let (number, rest) = some_of!(take_number(rest, b",\"id\":"));
        let id = some_of!(task_id(number));
        let (longest, rest) = some_of!(take_number(rest, b",\"longest\":"));
        let (waits, rest) = some_of!(take_waits(alloc, rest)?);
        let rest = some_of!(take_text(rest, b"}"));
        let times = PollTimes {
            longest,
            counts,
            waits,
        };
        Ok(Some(((id, times), rest)))
    }
}

/// The histograms that a line tells, where they come next.
pub(crate) fn take_times(
    alloc: Global,
    bytes: &[u8],
) -> Result<Option<(Option<Vec<(TaskId, PollTimes)>>, &[u8])>, AllocError>
    ensures { IfOk result (λ o. IfSome o (λ x. Takes bytes.now (spec.text_after (spec.times_fields (option_map (λ v. v.items) x.0))) x.1.now)) }
{
    if take_text(bytes, b",\"task_times\":").is_none() {
        return Ok(Some((None, bytes)));
    }
    let (times, rest) = some_of!(take_list(alloc, bytes, b",\"task_times\":[")?);
    Ok(Some((Some(times), rest)))
}
