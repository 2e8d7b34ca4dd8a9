//! Histograms of poll times and of waits, written: from the last member to the first, as short texts are.
ghost use Rattle.std.specs.Prelude.{◌+◌, ◌≤◌, ◌++◌, false, map, drop, option_map, Some, OnOk};
ghost use Rattle.serde_json.specs.View.{items_of};
ghost use Rattle.serde_json.specs.Written.{compact_text, items_text, comma_if};
ghost use Rattle.tk_stream.specs.Pieces.{Puts, Takes};
ghost use Rattle.tk_stream.specs.Spelling as spec;
ghost use Rattle.tk_stream.specs.Times.{filled_from};

use crate::tables::times::{PollTimes, WaitTimes};
use crate::text::write::pieces::put_text;
use crate::text::write::short::{ROOM, comma_before, number_before, put_short, text_before};
use crate::text::write::written::{Written, put_open};
use std::alloc::AllocError;
use tk_ids::TaskId;

fn bucket_before<const N: usize>(bytes: &mut [u8; N], at: usize, bucket: u64, count: u64) -> usize
    requires { (43 ≤ at) × (at ≤ N) }
    ensures text { Takes (drop result bytes.new) (compact_text (spec.filled_data (bucket, count))) (drop at bytes.old) }
    ensures place { (at ≤ result + 43) × (result ≤ N) }
{
    let start = text_before(bytes, at, b"]");
    let start = number_before(bytes, start, b",", count);
    number_before(bytes, start, b"[", bucket)
}

// The buckets that aren't empty, from the last to the first, with the closing bracket after them.
fn buckets_before<const N: usize>(bytes: &mut [u8; N], at: usize, counts: &[u64; 14]) -> usize
    requires { (617 ≤ at) × (at ≤ N) }
    ensures text { Takes (drop result bytes.new) (items_text false (items_of (map spec.filled_data (filled_from 0 counts.now)))) (drop at bytes.old) }
    ensures place { (at ≤ result + 617) × (result ≤ N) }
{
    let mut start = text_before(bytes, at, b"]");
    let mut later = false;
    let mut left = 14;
    while left > 0 {
        left -= 1;
        let count = counts[left];
        if count > 0 {
            start = comma_before(bytes, start, later);
            start = bucket_before(bytes, start, left as u64, count);
            later = true;
        }
    }
    start
}

// The members of the waits, where they are counted, after another.
fn waits_before<const N: usize>(bytes: &mut [u8; N], at: usize, waits: &Option<WaitTimes>) -> usize
    requires { (663 ≤ at) × (at ≤ N) }
    ensures text { Takes (drop result bytes.new) (spec.text_after (spec.waits_fields waits.now)) (drop at bytes.old) }
    ensures place { (at ≤ result + 663) × (result ≤ N) }
{
    let Some(waits) = waits else {
        return at;
    };
    let start = buckets_before(bytes, at, &waits.counts);
    let start = text_before(bytes, start, b",\"waits\":[");
    number_before(bytes, start, b",\"longest_wait\":", waits.longest)
}

fn write_task_times(
    out: &mut Vec<u8>,
    scratch: &mut [u8; ROOM],
    later: bool,
    id: u64,
    times: &PollTimes,
) -> Result<(), AllocError>
    ensures { OnOk result (Puts out.old.items out.new.items
        (comma_if later ++ compact_text (spec.times_data (id, times.now)))) }
{
    let at = text_before(scratch, ROOM, b"}");
    let at = waits_before(scratch, at, &times.waits);
    let at = number_before(scratch, at, b",\"longest\":", times.longest);
    let at = number_before(scratch, at, b",\"id\":", id);
    let at = buckets_before(scratch, at, &times.counts);
    let at = text_before(scratch, at, b"{\"counts\":[");
    let at = comma_before(scratch, at, later);
    put_short(out, scratch, at)?;
    Ok(())
}

impl Written for (TaskId, PollTimes) {
    ghost use Rattle.tk_stream.specs.Spelling.{times_data};

    ghost spelling = { times_data };

    fn write(
        &self,
        out: &mut Vec<u8>,
        scratch: &mut [u8; ROOM],
        later: bool,
    ) -> Result<(), AllocError> {
        write_task_times(out, scratch, later, self.0.value(), &self.1)
    }
}

/// The histograms that a line tells, where it tells some, after another member.
pub(crate) fn put_times(
    out: &mut Vec<u8>,
    scratch: &mut [u8; ROOM],
    times: &Option<Vec<(TaskId, PollTimes)>>,
) -> Result<(), AllocError>
    ensures { OnOk result (Puts out.old.items out.new.items (spec.text_after (spec.times_fields (option_map (λ v. v.items) times.now)))) }
{
    match times {
        Some(times) => put_list(out, scratch, times.as_slice()),
        None => Ok(()),
    }
}

fn put_list(
    out: &mut Vec<u8>,
    scratch: &mut [u8; ROOM],
    times: &[(TaskId, PollTimes)],
) -> Result<(), AllocError>
    ensures { OnOk result (Puts out.old.items out.new.items (spec.text_after (spec.times_fields (Some times.now)))) }
{
    put_open(out, scratch, b",\"task_times\":[", times)?;
    put_text(out, b"]")?;
    Ok(())
}
