//! Attributes of a resource and of an operation, through their handles.
ghost use Rattle.std.specs.Prelude.{◌≡◌, IfSome};

use std::alloc::Global;
use std::sync::Wait;
use tk_core::{OpRow, Refusal, ResourceRow};
use tk_ids::{AsyncOpId, AttrValue, ResourceId, TaskId};
use tk_ledgers::{
    OpInspector, OpOwner, ResourceInspector, ResourceOwner, ResourceReceipt, ResourceUser,
};

const MOST: u64 = 18446744073709551615;

const TASK: u64 = 1099511627778;

// ---- a resource

fn resource<R: Wait>(rt: &R, alloc: Global) -> Option<ResourceOwner> {
    let id = ResourceId::from_value(1099511627777).ok()?;
    ResourceOwner::new(rt, alloc, id, 7, &[AttrValue::U64(5)]).ok()
}

fn user<R: Wait>(rt: &R, owner: &mut ResourceOwner) -> Option<ResourceUser>
    ensures kept { owner.new.token.ledger ≡ owner.old.token.ledger }
    ensures made { IfSome result (λ user. user.token.ledger ≡ owner.old.token.ledger) }
{
    owner.user(rt).ok()
}

fn inspector<R: Wait>(rt: &R, owner: &mut ResourceOwner) -> Option<ResourceInspector>
    ensures kept { owner.new.token.ledger ≡ owner.old.token.ledger }
    ensures made { IfSome result (λ inspector. inspector.token.ledger ≡ owner.old.token.ledger) }
{
    owner.inspect(rt).ok()
}

// Whether the row's only attribute is this number.
fn is_at(row: &ResourceRow, value: u64) -> bool {
    row.attrs.get(0) == Some(AttrValue::U64(value))
}

fn refuses_additions<R: Wait>(rt: &R, user: &mut ResourceUser) -> bool
    ensures { user.new.token.ledger ≡ user.old.token.ledger }
{
    user.add(rt, 0, AttrValue::U64(MOST)) == Err(Refusal::OutOfRange)
        && user.add(rt, 0, AttrValue::Bool(true)) == Err(Refusal::WrongKind)
        && user.add(rt, 6, AttrValue::U64(1)) == Err(Refusal::NoAttribute)
}

fn takes_five_away<R: Wait>(rt: &R, user: &mut ResourceUser) -> bool
    ensures { user.new.token.ledger ≡ user.old.token.ledger }
{
    user.sub(rt, 0, AttrValue::U64(6)) == Err(Refusal::OutOfRange)
        && is_at(&user.read(rt), 5)
        && refuses_additions(rt, user)
        && user.sub(rt, 0, AttrValue::U64(5)) == Ok(())
}

// A further inspector reads 0.
fn reads_none_left<R: Wait>(rt: &R, inspector: &mut ResourceInspector) -> bool
    ensures { inspector.new.token.ledger ≡ inspector.old.token.ledger }
{
    match inspector.inspect(rt) {
        Ok(mut drawn) => {
            let none_left = is_at(&drawn.read(rt), 0);
            drop(drawn);
            none_left
        }
        Err(_) => false,
    }
}

// A further user reads 0, and sets the greatest number.
fn sets_most<R: Wait>(rt: &R, user: &mut ResourceUser, inspector: &mut ResourceInspector) -> bool
    ensures user { user.new.token.ledger ≡ user.old.token.ledger }
    ensures inspector { inspector.new.token.ledger ≡ inspector.old.token.ledger }
{
    match user.split(rt) {
        Ok(mut second) => {
            let is_set = second.number() == 3
                && is_at(&second.read(rt), 0)
                && reads_none_left(rt, inspector)
                && second.set(rt, 0, AttrValue::U64(MOST)) == Ok(());
            drop(second);
            is_set
        }
        Err(_) => false,
    }
}

fn changes<R: Wait>(rt: &R, user: &mut ResourceUser, inspector: &mut ResourceInspector) -> bool
    ensures user { user.new.token.ledger ≡ user.old.token.ledger }
    ensures inspector { inspector.new.token.ledger ≡ inspector.old.token.ledger }
{
    user.number() == 1
        && inspector.number() == 2
        && takes_five_away(rt, user)
        && sets_most(rt, user, inspector)
}

fn close<R: Wait>(rt: &R, owner: ResourceOwner) {
    drop(owner.close(rt, 9));
}

fn reads_the_end<R: Wait>(
    rt: &R,
    inspector: &mut ResourceInspector,
    receipt: ResourceReceipt,
) -> bool
    requires { receipt.token.ledger ≡ inspector.old.token.ledger }
{
    inspector.learn(rt, receipt);
    let row = inspector.read(rt);
    row.dropped == Some(9) && row.handles == 4 && is_at(&row, MOST)
}

fn refuses_when_closed<R: Wait>(
    rt: &R,
    mut user: ResourceUser,
    inspector: &mut ResourceInspector,
) -> bool
    requires { user.token.ledger ≡ inspector.old.token.ledger }
{
    let refused = user.set(rt, 0, AttrValue::U64(1)) == Err(Refusal::Closed);
    reads_the_end(rt, inspector, user.retire()) && refused
}

fn changes_and_closes<R: Wait>(
    rt: &R,
    owner: ResourceOwner,
    mut user: ResourceUser,
    inspector: &mut ResourceInspector,
) -> bool
    requires { user.token.ledger ≡ inspector.old.token.ledger }
{
    let changed = changes(rt, &mut user, inspector);
    close(rt, owner);
    let refused = refuses_when_closed(rt, user, inspector);
    changed && refused
}

fn is_changed_and_closed<R: Wait>(rt: &R, mut owner: ResourceOwner, user: ResourceUser) -> bool
    requires { user.token.ledger ≡ owner.token.ledger }
{
    match inspector(rt, &mut owner) {
        Some(mut inspector) => {
            let changed = changes_and_closes(rt, owner, user, &mut inspector);
            drop(inspector);
            changed
        }
        None => {
            drop(owner);
            drop(user);
            false
        }
    }
}

fn is_changed_by_a_user<R: Wait>(rt: &R, mut owner: ResourceOwner) -> bool {
    match user(rt, &mut owner) {
        Some(user) => is_changed_and_closed(rt, owner, user),
        None => {
            drop(owner);
            false
        }
    }
}

#[test]
fn changes_a_resource(rt: HostRuntime) {
    match resource(&rt, rt.alloc()) {
        Some(owner) => assert!(rt; is_changed_by_a_user(&rt, owner)),
        None => assert!(rt; false, "no resource"),
    }
}

// ---- an operation

fn op<R: Wait>(rt: &R, alloc: Global) -> Option<OpOwner> {
    let id = AsyncOpId::from_value(1099511627777).ok()?;
    OpOwner::new(rt, alloc, id, 7, &[AttrValue::U64(1)]).ok()
}

fn changes_op<R: Wait>(rt: &R, owner: &mut OpOwner) -> bool
    ensures { owner.new.token.ledger ≡ owner.old.token.ledger }
{
    owner.add(rt, 0, AttrValue::U64(MOST)) == Err(Refusal::OutOfRange)
        && owner.set(rt, 0, AttrValue::U64(MOST)) == Ok(())
        && owner.sub(rt, 1, AttrValue::U64(1)) == Err(Refusal::NoAttribute)
}

fn starts_once<R: Wait>(rt: &R, owner: &mut OpOwner) -> bool
    ensures { owner.new.token.ledger ≡ owner.old.token.ledger }
{
    owner.start_poll(rt, 10) == Ok(())
        && owner.is_polling()
        && owner.start_poll(rt, 11) == Err(Refusal::AlreadyPolling)
}

fn ends_once<R: Wait>(rt: &R, owner: &mut OpOwner) -> bool
    ensures { owner.new.token.ledger ≡ owner.old.token.ledger }
{
    owner.end_poll(rt, 30) == Ok(()) && owner.end_poll(rt, 31) == Err(Refusal::NotPolling)
}

fn shows_one_poll<R: Wait>(rt: &R, owner: &mut OpOwner, task: TaskId) -> bool
    ensures { owner.new.token.ledger ≡ owner.old.token.ledger }
{
    let row = owner.read(rt);
    row.polls == 1 && row.busy == 20 && row.task == Some(task)
}

fn polls_op<R: Wait>(rt: &R, owner: &mut OpOwner, task: TaskId) -> bool
    ensures { owner.new.token.ledger ≡ owner.old.token.ledger }
{
    owner.set_task(rt, task);
    starts_once(rt, owner) && ends_once(rt, owner) && shows_one_poll(rt, owner, task)
}

fn is_closed_at_most(row: &OpRow) -> bool {
    row.dropped == Some(40) && row.handles == 2 && row.attrs.get(0) == Some(AttrValue::U64(MOST))
}

fn drawn_reads_the_end<R: Wait>(rt: &R, inspector: &mut OpInspector) -> bool {
    match inspector.inspect(rt) {
        Ok(mut drawn) => {
            let closed = is_closed_at_most(&drawn.read(rt));
            drop(drawn);
            closed
        }
        Err(_) => false,
    }
}

fn closes_op<R: Wait>(rt: &R, owner: OpOwner, inspector: &mut OpInspector) -> bool
    requires { owner.token.ledger ≡ inspector.old.token.ledger }
{
    match owner.close(rt, 40).ok() {
        Some(receipt) => {
            inspector.learn(rt, receipt);
            drawn_reads_the_end(rt, inspector)
        }
        None => false,
    }
}

fn inspector_of_op<R: Wait>(rt: &R, owner: &mut OpOwner) -> Option<OpInspector>
    ensures kept { owner.new.token.ledger ≡ owner.old.token.ledger }
    ensures made { IfSome result (λ inspector. inspector.token.ledger ≡ owner.old.token.ledger) }
{
    owner.inspect(rt).ok()
}

fn is_op_changed<R: Wait>(rt: &R, owner: &mut OpOwner) -> bool
    ensures { owner.new.token.ledger ≡ owner.old.token.ledger }
{
    match TaskId::from_value(TASK) {
        Ok(task) => changes_op(rt, owner) && polls_op(rt, owner, task),
        Err(_) => false,
    }
}

fn is_op_changed_and_closed<R: Wait>(rt: &R, mut owner: OpOwner) -> bool {
    match inspector_of_op(rt, &mut owner) {
        Some(mut inspector) => {
            let changed = is_op_changed(rt, &mut owner);
            let closed = closes_op(rt, owner, &mut inspector);
            drop(inspector);
            closed && changed
        }
        None => {
            drop(owner);
            false
        }
    }
}

#[test]
fn changes_an_operation(rt: HostRuntime) {
    match op(&rt, rt.alloc()) {
        Some(owner) => assert!(rt; is_op_changed_and_closed(&rt, owner)),
        None => assert!(rt; false, "no operation"),
    }
}
