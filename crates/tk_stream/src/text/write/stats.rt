//! Statistics and poll counts, written: their members from the last to the first, as short texts are.
ghost use Rattle.std.specs.Prelude.{◌≡◌, ◌+◌, ◌≤◌, ◌++◌, false, map, drop, OnOk};
ghost use Rattle.serde_json.specs.View.{items_of};
ghost use Rattle.serde_json.specs.Written.{compact_text, items_text, comma_if};
ghost use Rattle.tk_stream.specs.Pieces.{Puts, Takes};
ghost use Rattle.tk_stream.specs.Spelling as spec;

use crate::text::write::short::{
    ROOM, comma_before, flag_before, number_before, optional_before, put_short, signed_before,
    text_before,
};
use crate::text::write::written::Written;
use std::alloc::AllocError;
use tk_core::{AttrValues, OpRow, ResourceRow, TaskRow, Waits};
use tk_ids::{AsyncOpId, AttrValue, ResourceId, TaskId};

// How long a task waited: a number, or three in brackets where its waits are counted.
#[inline(always)]
fn waits_before<const N: usize>(
    bytes: &mut [u8; N],
    at: usize,
    sched: u64,
    waits: Option<Waits>,
) -> usize
    requires { (64 ≤ at) × (at ≤ N) }
    ensures text { Takes (drop result bytes.new) (compact_text (spec.waits_data sched waits)) (drop at bytes.old) }
    ensures place { (at ≤ result + 64) × (result ≤ N) }
{
    match waits {
        None => number_before(bytes, at, b"", sched),
        Some(waits) => {
            let end = text_before(bytes, at, b"]");
            let at = number_before(bytes, end, b",", waits.so_far.nanos());
            let at = number_before(bytes, at, b",", waits.total);
            number_before(bytes, at, b"[", sched)
        }
    }
}

fn write_task_stats(
    out: &mut Vec<u8>,
    scratch: &mut [u8; ROOM],
    later: bool,
    id: u64,
    row: &TaskRow,
) -> Result<(), AllocError>
    ensures { OnOk result (Puts out.old.items out.new.items
        (comma_if later ++ compact_text (spec.stats_data (id, row.now)))) }
{
    let at = text_before(scratch, ROOM, b"}");
    let at = number_before(scratch, at, b",\"wakes\":", row.wakes);
    let at = number_before(scratch, at, b",\"self_wakes\":", row.self_wakes);
    let at = flag_before(scratch, at, b",\"scheduled\":", row.scheduled);
    let at = waits_before(scratch, at, row.sched, row.waits);
    let at = text_before(scratch, at, b",\"sched\":");
    let at = number_before(scratch, at, b",\"polls\":", row.polls);
    let at = flag_before(scratch, at, b",\"polling\":", row.polling);
    let at = optional_before(scratch, at, b",\"last_wake\":", row.last_wake);
    let at = optional_before(scratch, at, b",\"last_started\":", row.last_started);
    let at = optional_before(scratch, at, b",\"last_ended\":", row.last_ended);
    let at = number_before(scratch, at, b",\"id\":", id);
    let at = number_before(scratch, at, b",\"handles\":", row.handles);
    let at = optional_before(scratch, at, b",\"first_poll\":", row.first_poll);
    let at = number_before(scratch, at, b",\"drops\":", row.drops);
    let at = optional_before(scratch, at, b",\"dropped\":", row.dropped);
    let at = number_before(scratch, at, b",\"created\":", row.created);
    let at = number_before(scratch, at, b",\"clones\":", row.clones);
    let at = number_before(scratch, at, b"{\"busy\":", row.busy);
    let at = comma_before(scratch, at, later);
    put_short(out, scratch, at)?;
    Ok(())
}

impl Written for (TaskId, TaskRow) {
    ghost use Rattle.tk_stream.specs.Spelling.{stats_data};

    ghost spelling = { stats_data };

    fn write(
        &self,
        out: &mut Vec<u8>,
        scratch: &mut [u8; ROOM],
        later: bool,
    ) -> Result<(), AllocError> {
        write_task_stats(out, scratch, later, self.0.value(), &self.1)
    }
}

#[inline(always)]
fn value_before<const N: usize>(bytes: &mut [u8; N], at: usize, value: AttrValue) -> usize
    requires { (22 ≤ at) × (at ≤ N) }
    ensures text { Takes (drop result bytes.new) (compact_text (spec.value_data value)) (drop at bytes.old) }
    ensures place { (at ≤ result + 22) × (result ≤ N) }
{
    match value {
        AttrValue::U64(n) => number_before(bytes, at, b"", n),
        AttrValue::Bool(flag) => flag_before(bytes, at, b"", flag),
        AttrValue::I64(n) => {
            let at = text_before(bytes, at, b"]");
            signed_before(bytes, at, b"[", n)
        }
    }
}

// The values of at most six attributes, from the last to the first, with the closing bracket after them.
fn values_before<const N: usize>(bytes: &mut [u8; N], at: usize, values: &AttrValues) -> usize
    requires { (139 ≤ at) × (at ≤ N) }
    ensures text { Takes (drop result bytes.new) (items_text false (items_of (map spec.value_data values.now))) (drop at bytes.old) }
    ensures place { (at ≤ result + 139) × (result ≤ N) }
{
    let mut start = text_before(bytes, at, b"]");
    let mut left = values.len();
    while left > 0 {
        left -= 1;
        let Some(value) = values.get(left as u64) else {
            unreachable!()
        };
        start = value_before(bytes, start, value);
        if left > 0 {
            start = text_before(bytes, start, b",");
        }
    }
    start
}

fn write_resource_stats(
    out: &mut Vec<u8>,
    scratch: &mut [u8; ROOM],
    later: bool,
    id: u64,
    row: &ResourceRow,
) -> Result<(), AllocError>
    ensures { OnOk result (Puts out.old.items out.new.items
        (comma_if later ++ compact_text (spec.resource_stats_data (id, row.now)))) }
{
    let at = text_before(scratch, ROOM, b"}");
    let at = number_before(scratch, at, b",\"id\":", id);
    let at = number_before(scratch, at, b",\"handles\":", row.handles);
    let at = optional_before(scratch, at, b",\"dropped\":", row.dropped);
    let at = number_before(scratch, at, b",\"created\":", row.created);
    let at = values_before(scratch, at, &row.attrs);
    let at = text_before(scratch, at, b"{\"attrs\":[");
    let at = comma_before(scratch, at, later);
    put_short(out, scratch, at)?;
    Ok(())
}

impl Written for (ResourceId, ResourceRow) {
    ghost use Rattle.tk_stream.specs.Spelling.{resource_stats_data};

    ghost spelling = { resource_stats_data };

    fn write(
        &self,
        out: &mut Vec<u8>,
        scratch: &mut [u8; ROOM],
        later: bool,
    ) -> Result<(), AllocError> {
        write_resource_stats(out, scratch, later, self.0.value(), &self.1)
    }
}

fn task_value(task: Option<TaskId>) -> Option<u64>
    ensures { result ≡ task }
{
    match task {
        Some(id) => Some(id.value()),
        None => None,
    }
}

fn write_op_stats(
    out: &mut Vec<u8>,
    scratch: &mut [u8; ROOM],
    later: bool,
    id: u64,
    row: &OpRow,
) -> Result<(), AllocError>
    ensures { OnOk result (Puts out.old.items out.new.items
        (comma_if later ++ compact_text (spec.op_stats_data (id, row.now)))) }
{
    let at = text_before(scratch, ROOM, b"}");
    let at = optional_before(scratch, at, b",\"task\":", task_value(row.task));
    let at = number_before(scratch, at, b",\"polls\":", row.polls);
    let at = flag_before(scratch, at, b",\"polling\":", row.polling);
    let at = optional_before(scratch, at, b",\"last_started\":", row.last_started);
    let at = optional_before(scratch, at, b",\"last_ended\":", row.last_ended);
    let at = number_before(scratch, at, b",\"id\":", id);
    let at = number_before(scratch, at, b",\"handles\":", row.handles);
    let at = optional_before(scratch, at, b",\"first_poll\":", row.first_poll);
    let at = optional_before(scratch, at, b",\"dropped\":", row.dropped);
    let at = number_before(scratch, at, b",\"created\":", row.created);
    let at = number_before(scratch, at, b",\"busy\":", row.busy);
    let at = values_before(scratch, at, &row.attrs);
    let at = text_before(scratch, at, b"{\"attrs\":[");
    let at = comma_before(scratch, at, later);
    put_short(out, scratch, at)?;
    Ok(())
}

impl Written for (AsyncOpId, OpRow) {
    ghost use Rattle.tk_stream.specs.Spelling.{op_stats_data};

    ghost spelling = { op_stats_data };

    fn write(
        &self,
        out: &mut Vec<u8>,
        scratch: &mut [u8; ROOM],
        later: bool,
    ) -> Result<(), AllocError> {
        write_op_stats(out, scratch, later, self.0.value(), &self.1)
    }
}

fn write_counts(
    out: &mut Vec<u8>,
    scratch: &mut [u8; ROOM],
    later: bool,
    id: u64,
    ready: u64,
    pending: u64,
) -> Result<(), AllocError>
    ensures { OnOk result (Puts out.old.items out.new.items
        (comma_if later ++ compact_text (spec.counts_data (id, ready, pending)))) }
{
    let at = text_before(scratch, ROOM, b"]");
    let at = number_before(scratch, at, b",", pending);
    let at = number_before(scratch, at, b",", ready);
    let at = number_before(scratch, at, b"[", id);
    let at = comma_before(scratch, at, later);
    put_short(out, scratch, at)?;
    Ok(())
}

impl Written for (ResourceId, u64, u64) {
    ghost use Rattle.tk_stream.specs.Spelling.{counts_data};

    ghost spelling = { counts_data };

    fn write(
        &self,
        out: &mut Vec<u8>,
        scratch: &mut [u8; ROOM],
        later: bool,
    ) -> Result<(), AllocError> {
        write_counts(out, scratch, later, self.0.value(), self.1, self.2)
    }
}
