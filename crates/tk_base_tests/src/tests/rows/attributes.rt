//! Attributes of resources and async operations.

use std::test::*;
use tk_core::{AttrOp, OpCall, OpRow, Refusal, Reply, ResourceCall, ResourceRow};
use tk_ids::{AttrValue, TaskId};

const MOST: AttrValue = AttrValue::U64(u64::MAX);

// The ends of the signed numbers: -2^63 and 2^63 - 1.
const LEAST_SIGNED: AttrValue = AttrValue::I64(-9223372036854775808);

const MOST_SIGNED: AttrValue = AttrValue::I64(9223372036854775807);

/// A change of one attribute's value, and what comes of it.
struct Change {
    case: &'static str,
    value: AttrValue,
    index: u64,
    op: AttrOp,
    after: AttrValue,
    refused: Option<Refusal>,
}

// What a change makes of a value, and which changes are refused.
#[rattlefmt::skip]
const CHANGES: [Change; 28] = [
    Change { case: "below 0", value: AttrValue::U64(5), index: 0, op: AttrOp::Sub(AttrValue::U64(6)),
        after: AttrValue::U64(5), refused: Some(Refusal::OutOfRange) },
    Change { case: "down to 0", value: AttrValue::U64(5), index: 0, op: AttrOp::Sub(AttrValue::U64(5)),
        after: AttrValue::U64(0), refused: None },
    Change { case: "above the greatest number", value: AttrValue::U64(1), index: 0, op: AttrOp::Add(MOST),
        after: AttrValue::U64(1), refused: Some(Refusal::OutOfRange) },
    Change { case: "up to the greatest number", value: AttrValue::U64(0), index: 0, op: AttrOp::Add(MOST),
        after: MOST, refused: None },
    Change { case: "an override", value: AttrValue::U64(1), index: 0, op: AttrOp::Override(MOST),
        after: MOST, refused: None },
    Change { case: "a bool added to a number", value: AttrValue::U64(1), index: 0, op: AttrOp::Add(AttrValue::Bool(true)),
        after: AttrValue::U64(1), refused: Some(Refusal::WrongKind) },
    Change { case: "a bool over a number", value: AttrValue::U64(1), index: 0, op: AttrOp::Override(AttrValue::Bool(true)),
        after: AttrValue::U64(1), refused: Some(Refusal::WrongKind) },
    Change { case: "a number over a bool", value: AttrValue::Bool(true), index: 0, op: AttrOp::Override(AttrValue::U64(1)),
        after: AttrValue::Bool(true), refused: Some(Refusal::WrongKind) },
    Change { case: "a bool added to a bool", value: AttrValue::Bool(false), index: 0, op: AttrOp::Add(AttrValue::Bool(true)),
        after: AttrValue::Bool(false), refused: Some(Refusal::WrongKind) },
    Change { case: "a bool over a bool", value: AttrValue::Bool(false), index: 0, op: AttrOp::Override(AttrValue::Bool(true)),
        after: AttrValue::Bool(true), refused: None },
    Change { case: "an index with no attribute", value: AttrValue::U64(1), index: 6, op: AttrOp::Add(AttrValue::U64(1)),
        after: AttrValue::U64(1), refused: Some(Refusal::NoAttribute) },
    Change { case: "a wrong kind at an index with no attribute", value: AttrValue::U64(1), index: 1, op: AttrOp::Add(AttrValue::Bool(true)),
        after: AttrValue::U64(1), refused: Some(Refusal::NoAttribute) },
    Change { case: "a signed number below 0", value: AttrValue::I64(0), index: 0, op: AttrOp::Sub(AttrValue::I64(3)),
        after: AttrValue::I64(-3), refused: None },
    Change { case: "a negative number added", value: AttrValue::I64(2), index: 0, op: AttrOp::Add(AttrValue::I64(-5)),
        after: AttrValue::I64(-3), refused: None },
    Change { case: "a negative number taken away", value: AttrValue::I64(-3), index: 0, op: AttrOp::Sub(AttrValue::I64(-5)),
        after: AttrValue::I64(2), refused: None },
    Change { case: "below the least signed number", value: AttrValue::I64(-1), index: 0, op: AttrOp::Add(LEAST_SIGNED),
        after: AttrValue::I64(-1), refused: Some(Refusal::OutOfRange) },
    Change { case: "down to the least signed number", value: AttrValue::I64(0), index: 0, op: AttrOp::Add(LEAST_SIGNED),
        after: LEAST_SIGNED, refused: None },
    Change { case: "the least signed number taken from -1", value: AttrValue::I64(-1), index: 0, op: AttrOp::Sub(LEAST_SIGNED),
        after: MOST_SIGNED, refused: None },
    Change { case: "the least signed number taken from 0", value: AttrValue::I64(0), index: 0, op: AttrOp::Sub(LEAST_SIGNED),
        after: AttrValue::I64(0), refused: Some(Refusal::OutOfRange) },
    Change { case: "above the greatest signed number", value: MOST_SIGNED, index: 0, op: AttrOp::Add(AttrValue::I64(1)),
        after: MOST_SIGNED, refused: Some(Refusal::OutOfRange) },
    Change { case: "from one end of the signed numbers to the other", value: LEAST_SIGNED, index: 0, op: AttrOp::Add(MOST_SIGNED),
        after: AttrValue::I64(-1), refused: None },
    Change { case: "a signed override", value: AttrValue::I64(5), index: 0, op: AttrOp::Override(LEAST_SIGNED),
        after: LEAST_SIGNED, refused: None },
    Change { case: "an unsigned number added to a signed one", value: AttrValue::I64(5), index: 0, op: AttrOp::Add(AttrValue::U64(1)),
        after: AttrValue::I64(5), refused: Some(Refusal::WrongKind) },
    Change { case: "an unsigned number taken from a signed one", value: AttrValue::I64(5), index: 0, op: AttrOp::Sub(AttrValue::U64(1)),
        after: AttrValue::I64(5), refused: Some(Refusal::WrongKind) },
    Change { case: "an unsigned number over a signed one", value: AttrValue::I64(5), index: 0, op: AttrOp::Override(AttrValue::U64(1)),
        after: AttrValue::I64(5), refused: Some(Refusal::WrongKind) },
    Change { case: "a signed number added to an unsigned one", value: AttrValue::U64(5), index: 0, op: AttrOp::Add(AttrValue::I64(1)),
        after: AttrValue::U64(5), refused: Some(Refusal::WrongKind) },
    Change { case: "a bool over a signed number", value: AttrValue::I64(1), index: 0, op: AttrOp::Override(AttrValue::Bool(true)),
        after: AttrValue::I64(1), refused: Some(Refusal::WrongKind) },
    Change { case: "a signed number over a bool", value: AttrValue::Bool(true), index: 0, op: AttrOp::Override(AttrValue::I64(1)),
        after: AttrValue::Bool(true), refused: Some(Refusal::WrongKind) },
];

impl Change {
    fn reply_of_resource(&self) -> Reply<ResourceRow> {
        match self.refused {
            Some(refusal) => Reply::Refused(refusal),
            None => Reply::Done,
        }
    }

    fn reply_of_op(&self) -> Reply<OpRow> {
        match self.refused {
            Some(refusal) => Reply::Refused(refusal),
            None => Reply::Done,
        }
    }

    // Whether it comes to this of a resource.
    fn is_of_resource(&self) -> bool {
        let row = ResourceRow::opening(1, &[self.value]);
        let (row, reply) = row.step(ResourceCall::Attr(self.index, self.op));
        row.attrs.list().as_slice() == [self.after].as_slice() && reply == self.reply_of_resource()
    }

    // Whether it comes to this of an operation.
    fn is_of_op(&self) -> bool {
        let row = OpRow::opening(1, &[self.value]);
        let (row, reply) = row.step(OpCall::Attr(self.index, self.op));
        row.attrs.list().as_slice() == [self.after].as_slice() && reply == self.reply_of_op()
    }
}

#[test]
fn changes_of_a_resource(rt: HostRuntime) {
    for change in &CHANGES {
        assert!(rt; change.is_of_resource(), "{}", change.case);
    }
}

#[test]
fn changes_of_an_operation(rt: HostRuntime) {
    for change in &CHANGES {
        assert!(rt; change.is_of_op(), "{}", change.case);
    }
}

#[test]
fn each_attribute_has_its_own_value(rt: HostRuntime) {
    let values = [AttrValue::U64(5), AttrValue::Bool(false), AttrValue::U64(7)];
    let change = ResourceCall::Attr(2, AttrOp::Sub(AttrValue::U64(3)));
    let (row, _) = ResourceRow::opening(1, &values).step(change);
    let after = [AttrValue::U64(5), AttrValue::Bool(false), AttrValue::U64(4)];
    assert!(rt; row.attrs.list().as_slice() == after.as_slice());
    assert!(rt; row.attrs.len() == 3);
    assert!(rt; !row.attrs.is_empty());
    assert!(rt; ResourceRow::opening(1, &[]).attrs.is_empty());
}

// Whether a closed resource refuses the call, and stays.
fn is_refused(row: ResourceRow, call: ResourceCall) -> bool {
    let (after, reply) = row.step(call);
    after == row && reply == Reply::Refused(Refusal::Closed)
}

#[test]
fn a_closed_resource_refuses_changes(rt: HostRuntime) {
    let change = AttrOp::Add(AttrValue::Bool(true));
    let (row, reply) = ResourceRow::opening(1, &[AttrValue::U64(5)]).step(ResourceCall::Close(9));
    assert!(rt; reply == Reply::Done && row.dropped == Some(9));
    assert!(rt; is_refused(row, ResourceCall::Attr(7, change)));
    assert!(rt; is_refused(row, ResourceCall::Close(10)));
}

// Whether a closed operation refuses the call, and stays.
fn is_refused_by_op(row: OpRow, call: OpCall) -> bool {
    let (after, reply) = row.step(call);
    after == row && reply == Reply::Refused(Refusal::Closed)
}

#[test]
fn a_closed_operation_refuses_changes(rt: HostRuntime) {
    let change = AttrOp::Add(AttrValue::Bool(true));
    let (row, _) = OpRow::opening(1, &[AttrValue::U64(5)]).step(OpCall::Close(9));
    assert!(rt; is_refused_by_op(row, OpCall::Attr(7, change)));
}

#[test]
fn an_operation_keeps_the_last_task_set(rt: HostRuntime) -> Result<(), Fail> {
    let first = TaskId::from_value(1099511627777)?;
    let second = TaskId::from_value(1099511627778)?;
    let (row, _) = OpRow::opening(1, &[]).step(OpCall::SetTask(first));
    assert!(rt; row.task == Some(first));
    let (row, reply) = row.step(OpCall::SetTask(second));
    assert!(rt; row.task == Some(second) && reply == Reply::Done);
    let (closed, _) = row.step(OpCall::Close(3));
    assert!(rt; is_refused_by_op(closed, OpCall::SetTask(first)));
    Ok(())
}

#[test]
fn a_user_is_drawn_behind_the_inspector(rt: HostRuntime) {
    let (row, first) = ResourceRow::opening(1, &[]).step(ResourceCall::Enlist);
    let (row, second) = row.step(ResourceCall::Enlist);
    assert!(rt; first == Reply::Number(1) && second == Reply::Number(2));
    assert!(rt; row.handles == 2);
}
