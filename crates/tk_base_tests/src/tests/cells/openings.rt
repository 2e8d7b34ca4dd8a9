//! What a ledger begins with is read back from its words.
ghost use Rattle.std.specs.Prelude.{◌≡◌, true};

use std::alloc::{AllocError, Global};
use std::sync::Wait;
use std::test::*;
use tk_cell::Shared;
use tk_core::{OpCall, OpRow, Reply, ResourceCall, ResourceRow, Sequential, TaskCall, TaskRow};
use tk_ids::{AttrValue, TaskId};

// The owner's first call on a new ledger.
fn first_reply<O: Sequential, R: Wait>(
    rt: &R,
    alloc: Global,
    row: O,
    call: O::Call,
) -> Result<O::Reply, AllocError>
    requires opening { O.meaning.IsOpening row }
    requires role { O.meaning.owner_may call ≡ true }
{
    let (shared, mut owner) = Shared::new(rt, alloc, row)?;
    let reply = shared.call(rt, &mut owner, call);
    drop(shared);
    drop(owner);
    Ok(reply)
}

fn shows_opening(shown: Result<Reply<TaskRow>, AllocError>, moment: u64) -> bool {
    match shown {
        Ok(Reply::Shown(row)) => row == TaskRow::opening(moment),
        _ => false,
    }
}

#[test]
fn an_opening_task_is_read_back(rt: HostRuntime) {
    let shown = first_reply(&rt, rt.alloc(), TaskRow::opening(7), TaskCall::Read);
    assert!(rt; shows_opening(shown, 7));
}

#[test]
fn an_opening_operation_is_read_back(rt: HostRuntime) -> Result<(), Fail> {
    let row = OpRow::opening(8, &[AttrValue::Bool(true)]);
    let no_task: Option<TaskId> = None;
    let Reply::Shown(shown) = first_reply(&rt, rt.alloc(), row, OpCall::Read)? else {
        return Err(Fail::from("no row was shown"));
    };
    assert!(rt; shown.task == no_task && shown.to_words() == row.to_words());
    Ok(())
}

#[test]
fn an_opening_resource_is_read_back(rt: HostRuntime) -> Result<(), Fail> {
    let row = ResourceRow::opening(20, &[AttrValue::U64(5)]);
    let Reply::Shown(shown) = first_reply(&rt, rt.alloc(), row, ResourceCall::Read)? else {
        return Err(Fail::from("no row was shown"));
    };
    assert!(rt; shown.attrs.list().as_slice() == [AttrValue::U64(5)].as_slice() && shown == row);
    Ok(())
}
