//! Statistics and poll counts, taken from the front of a line's text.
ghost use Rattle.std.specs.Prelude.{◌≡◌, IfSome};
ghost use Rattle.serde_json.specs.Written.{compact_text};
ghost use Rattle.tk_stream.specs.Pieces.{Takes};
ghost use Rattle.tk_stream.specs.Spelling as spec;
ghost use Rattle.tk_stream.specs.Counted.{waits_with};

use crate::text::read_own::pieces::{
    op_id, optional_task_id, resource_id, take_flag, take_number, take_optional, take_signed,
    take_text, task_id,
};
use crate::text::read_own::taken::{Taken, some_of, take_list};
use std::alloc::{AllocError, Global};
use tk_core::{AttrValues, OpRow, ResourceRow, TaskRow, WaitSoFar, Waits};
use tk_ids::{AsyncOpId, AttrValue, ResourceId, TaskId};

// How long a task waited: a number, or three in brackets where its waits are counted.
fn take_waits(bytes: &[u8]) -> Option<((u64, Option<(u64, u64)>), &[u8])>
    ensures { IfSome result (λ x. Takes bytes.now (compact_text (spec.waits_data x.0.0 (waits_with x.0.1))) x.1.now) }
{
    if let Some((sched, rest)) = take_number(bytes, b"[") {
        let (total, rest) = take_number(rest, b",")?;
        let (so_far, rest) = take_number(rest, b",")?;
        let rest = take_text(rest, b"]")?;
        return Some(((sched, Some((total, so_far))), rest));
    }
    let (sched, rest) = take_number(bytes, b"")?;
    Some(((sched, None), rest))
}

// What is counted of a task's waits, by these numbers: in all, and of the wait that lasts. `None` where that is no wait.
fn waits_of(numbers: Option<(u64, u64)>) -> Option<Option<Waits>>
    ensures { IfSome result (λ waits. waits ≡ waits_with numbers) }
{
    match numbers {
        Some((total, nanos)) => {
            let so_far = WaitSoFar::new(nanos)?;
            Some(Some(Waits { total, so_far }))
        }
        None => Some(None),
    }
}

fn take_task_stats(bytes: &[u8]) -> Option<((TaskId, TaskRow), &[u8])>
    ensures { IfSome result (λ x. Takes bytes.now (compact_text (spec.stats_data x.0)) x.1.now) }
{
    let (busy, rest) = take_number(bytes, b"{\"busy\":")?;
    let (clones, rest) = take_number(rest, b",\"clones\":")?;
    let (created, rest) = take_number(rest, b",\"created\":")?;
    let (dropped, rest) = take_optional(rest, b",\"dropped\":")?;
    let (drops, rest) = take_number(rest, b",\"drops\":")?;
    let (first_poll, rest) = take_optional(rest, b",\"first_poll\":")?;
    let (handles, rest) = take_number(rest, b",\"handles\":")?;
    let (number, rest) = take_number(rest, b",\"id\":")?;
    let id = task_id(number)?;
    let (last_ended, rest) = take_optional(rest, b",\"last_ended\":")?;
    let (last_started, rest) = take_optional(rest, b",\"last_started\":")?;
    let (last_wake, rest) = take_optional(rest, b",\"last_wake\":")?;
    let (polling, rest) = take_flag(rest, b",\"polling\":")?;
    let (polls, rest) = take_number(rest, b",\"polls\":")?;
    let rest = take_text(rest, b",\"sched\":")?;
    let ((sched, numbers), rest) = take_waits(rest)?;
    let waits = waits_of(numbers)?;
    let (scheduled, rest) = take_flag(rest, b",\"scheduled\":")?;
    let (self_wakes, rest) = take_number(rest, b",\"self_wakes\":")?;
    let (wakes, rest) = take_number(rest, b",\"wakes\":")?;
    let rest = take_text(rest, b"}")?;
    let row = TaskRow {
        created,
        dropped,
        polls,
        first_poll,
        last_started,
        last_ended,
        busy,
        wakes,
        self_wakes,
        last_wake,
        clones,
        drops,
        handles,
        sched,
        waits,
        polling,
        scheduled,
    };
    Some(((id, row), rest))
}

impl Taken for (TaskId, TaskRow) {
    ghost use Rattle.tk_stream.specs.Spelling.{stats_data};

    ghost spelling = { stats_data };

    fn take(
        _alloc: Global,
        bytes: &[u8],
    ) -> Result<Option<((TaskId, TaskRow), &[u8])>, AllocError> {
        Ok(take_task_stats(bytes))
    }
}

impl Taken for AttrValue {
    ghost use Rattle.tk_stream.specs.Spelling.{value_data};

    ghost spelling = { value_data };

    fn take(_alloc: Global, bytes: &[u8]) -> Result<Option<(AttrValue, &[u8])>, AllocError> {
        if let Some((flag, rest)) = take_flag(bytes, b"") {
            return Ok(Some((AttrValue::Bool(flag), rest)));
        }
        if let Some((n, rest)) = take_signed(bytes, b"[", b"]") {
            return Ok(Some((AttrValue::I64(n), rest)));
        }
        let (n, rest) = some_of!(take_number(bytes, b""));
        Ok(Some((AttrValue::U64(n), rest)))
    }
}

// At most six values.
fn few_values(list: &Vec<AttrValue>) -> Option<AttrValues>
    ensures { IfSome result (λ values. values ≡ list.now.items) }
{
    if list.len() <= 6 {
        Some(AttrValues::new(list.as_slice()))
    } else {
        None
    }
}

impl Taken for (ResourceId, ResourceRow) {
    ghost use Rattle.tk_stream.specs.Spelling.{resource_stats_data};

    ghost spelling = { resource_stats_data };

    fn take(
        alloc: Global,
        bytes: &[u8],
    ) -> Result<Option<((ResourceId, ResourceRow), &[u8])>, AllocError> {
        let (list, rest): (Vec<AttrValue>, &[u8]) = some_of!(take_list(
            alloc,
            bytes,
            b"{\"attrs\":["
        )?);
        let (created, rest) = some_of!(take_number(rest, b",\"created\":"));
        let (dropped, rest) = some_of!(take_optional(rest, b",\"dropped\":"));
        let (handles, rest) = some_of!(take_number(rest, b",\"handles\":"));
        let (number, rest) = some_of!(take_number(rest, b",\"id\":"));
        let rest = some_of!(take_text(rest, b"}"));
        let id = some_of!(resource_id(number));
        let attrs = some_of!(few_values(&list));
        let row = ResourceRow {
            created,
            dropped,
            handles,
            attrs,
        };
        Ok(Some(((id, row), rest)))
    }
}

impl Taken for (AsyncOpId, OpRow) {
    ghost use Rattle.tk_stream.specs.Spelling.{op_stats_data};

    ghost spelling = { op_stats_data };

    fn take(
        alloc: Global,
        bytes: &[u8],
    ) -> Result<Option<((AsyncOpId, OpRow), &[u8])>, AllocError> {
        let (list, rest): (Vec<AttrValue>, &[u8]) = some_of!(take_list(
            alloc,
            bytes,
            b"{\"attrs\":["
        )?);
        let (busy, rest) = some_of!(take_number(rest, b",\"busy\":"));
        let (created, rest) = some_of!(take_number(rest, b",\"created\":"));
        let (dropped, rest) = some_of!(take_optional(rest, b",\"dropped\":"));
        let (first_poll, rest) = some_of!(take_optional(rest, b",\"first_poll\":"));
        let (handles, rest) = some_of!(take_number(rest, b",\"handles\":"));
        let (number, rest) = some_of!(take_number(rest, b",\"id\":"));
        let (last_ended, rest) = some_of!(take_optional(rest, b",\"last_ended\":"));
        let (last_started, rest) = some_of!(take_optional(rest, b",\"last_started\":"));
        let (polling, rest) = some_of!(take_flag(rest, b",\"polling\":"));
        let (polls, rest) = some_of!(take_number(rest, b",\"polls\":"));
        let (task, rest) = some_of!(take_optional(rest, b",\"task\":"));
        let rest = some_of!(take_text(rest, b"}"));
        let id = some_of!(op_id(number));
        let task = some_of!(optional_task_id(task));
        let attrs = some_of!(few_values(&list));
        let row = OpRow {
            created,
            dropped,
            polls,
            first_poll,
            last_started,
            last_ended,
            busy,
            handles,
            task,
            polling,
            attrs,
        };
        Ok(Some(((id, row), rest)))
    }
}

impl Taken for (ResourceId, u64, u64) {
    ghost use Rattle.tk_stream.specs.Spelling.{counts_data};

    ghost spelling = { counts_data };

    fn take(
        _alloc: Global,
        bytes: &[u8],
    ) -> Result<Option<((ResourceId, u64, u64), &[u8])>, AllocError> {
        let (number, rest) = some_of!(take_number(bytes, b"["));
        let (ready, rest) = some_of!(take_number(rest, b","));
        let (pending, rest) = some_of!(take_number(rest, b","));
        let rest = some_of!(take_text(rest, b"]"));
        let id = some_of!(resource_id(number));
        Ok(Some(((id, ready, pending), rest)))
    }
}
