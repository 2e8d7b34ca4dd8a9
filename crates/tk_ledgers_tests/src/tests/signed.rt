//! Signed attributes of a resource and of an operation, through their handles.

use std::alloc::Global;
use std::sync::Wait;
use tk_core::{AttrOp, Refusal};
use tk_ids::{AsyncOpId, AttrValue, ResourceId};
use tk_ledgers::{OpOwner, ResourceOwner, ResourceUser};

const LEAST: AttrValue = AttrValue::I64(-9223372036854775808);

/// A change of a signed number, and what comes of it.
struct Change {
    case: &'static str,
    value: i64,
    op: AttrOp,
    after: i64,
    refused: Option<Refusal>,
}

#[rattlefmt::skip]
const CHANGES: [Change; 6] = [
    Change { case: "below 0", value: 0, op: AttrOp::Sub(AttrValue::I64(3)), after: -3, refused: None },
    Change { case: "below the least number", value: -1, op: AttrOp::Add(LEAST), after: -1, refused: Some(Refusal::OutOfRange) },
    Change { case: "the least number taken from -1", value: -1, op: AttrOp::Sub(LEAST), after: 9223372036854775807, refused: None },
    Change { case: "the least number taken from 0", value: 0, op: AttrOp::Sub(LEAST), after: 0, refused: Some(Refusal::OutOfRange) },
    Change { case: "an unsigned number added", value: 5, op: AttrOp::Add(AttrValue::U64(1)), after: 5, refused: Some(Refusal::WrongKind) },
    Change { case: "an unsigned number set", value: -5, op: AttrOp::Override(AttrValue::U64(1)), after: -5, refused: Some(Refusal::WrongKind) },
];

impl Change {
    // Whether the answer is the table's.
    fn is_answer(&self, answer: Result<(), Refusal>) -> bool {
        answer.err() == self.refused
    }

    // Whether this is the value after the change.
    fn is_left(&self, value: Option<AttrValue>) -> bool {
        value == Some(AttrValue::I64(self.after))
    }
}

// ---- a resource

fn user<R: Wait>(rt: &R, alloc: Global) -> Option<ResourceUser> {
    let id = ResourceId::from_value(1099511627777).ok()?;
    let mut owner = ResourceOwner::new(rt, alloc, id, 7, &[AttrValue::I64(0)]).ok()?;
    let user = owner.user(rt).ok();
    drop(owner);
    user
}

fn change_by<R: Wait>(rt: &R, user: &mut ResourceUser, op: AttrOp) -> Result<(), Refusal> {
    match op {
        AttrOp::Add(value) => user.add(rt, 0, value),
        AttrOp::Sub(value) => user.sub(rt, 0, value),
        AttrOp::Override(value) => user.set(rt, 0, value),
    }
}

// Whether a change by the user comes to what the table says.
fn is_made_by<R: Wait>(rt: &R, user: &mut ResourceUser, change: &Change) -> bool {
    let is_set = user.set(rt, 0, AttrValue::I64(change.value)) == Ok(());
    let answer = change_by(rt, user, change.op);
    is_set && change.is_answer(answer) && change.is_left(user.read(rt).attrs.get(0))
}

#[test]
fn changes_signed_numbers_of_a_resource(rt: HostRuntime) {
    match user(&rt, rt.alloc()) {
        Some(mut user) => {
            for change in &CHANGES {
                assert!(rt; is_made_by(&rt, &mut user, change), "{}", change.case);
            }
            drop(user);
        }
        None => assert!(rt; false, "no user"),
    }
}

// ---- an operation

fn op<R: Wait>(rt: &R, alloc: Global) -> Option<OpOwner> {
    let id = AsyncOpId::from_value(1099511627777).ok()?;
    OpOwner::new(rt, alloc, id, 7, &[AttrValue::I64(0)]).ok()
}

fn change_of<R: Wait>(rt: &R, owner: &mut OpOwner, op: AttrOp) -> Result<(), Refusal> {
    match op {
        AttrOp::Add(value) => owner.add(rt, 0, value),
        AttrOp::Sub(value) => owner.sub(rt, 0, value),
        AttrOp::Override(value) => owner.set(rt, 0, value),
    }
}

// Whether a change by the owner comes to what the table says.
fn is_made_of<R: Wait>(rt: &R, owner: &mut OpOwner, change: &Change) -> bool {
    let is_set = owner.set(rt, 0, AttrValue::I64(change.value)) == Ok(());
    let answer = change_of(rt, owner, change.op);
    is_set && change.is_answer(answer) && change.is_left(owner.read(rt).attrs.get(0))
}

#[test]
fn changes_signed_numbers_of_an_operation(rt: HostRuntime) {
    match op(&rt, rt.alloc()) {
        Some(mut owner) => {
            for change in &CHANGES {
                assert!(rt; is_made_of(&rt, &mut owner, change), "{}", change.case);
            }
            drop(owner);
        }
        None => assert!(rt; false, "no operation"),
    }
}
