//! A task, an operation and a resource, each read by an inspector in another thread while it changes.
ghost use Rattle.std.specs.Prelude.{◌≡◌, IfSome};

use super::given::{FIRST, task};
use std::alloc::Global;
use std::sync::Wait;
use std::thread::{Threads, join};
use tk_ids::{AsyncOpId, AttrValue, ResourceId};
use tk_ledgers::{
    OpInspector, OpOwner, OpReceipt, ResourceInspector, ResourceOwner, ResourceReceipt,
    ResourceUser, TaskInspector, TaskOwner, TaskReceipt,
};

const TIMES: u64 = 300;

// ---- a task

fn polls_task_once<R: Wait>(rt: &R, owner: &mut TaskOwner, moment: u64) -> bool
    ensures { owner.new.token.ledger ≡ owner.old.token.ledger }
{
    owner.start_poll(rt, moment) == Ok(()) && owner.end_poll(rt, moment) == Ok(())
}

fn polls_task<R: Wait>(rt: &R, owner: &mut TaskOwner) -> bool
    ensures { owner.new.token.ledger ≡ owner.old.token.ledger }
{
    for moment in 0..TIMES {
        if !polls_task_once(rt, owner, moment) {
            return false;
        }
    }
    true
}

// Polls the task so many times, and closes it.
fn poll_task<R: Wait>(rt: &R, mut owner: TaskOwner) -> Option<TaskReceipt>
    ensures { IfSome result (λ receipt. receipt.token.ledger ≡ owner.token.ledger) }
{
    if !polls_task(rt, &mut owner) {
        drop(owner);
        return None;
    }
    owner.close(rt, TIMES).ok()
}

// Reads the task so many times, and tells whether no reading had fewer polls than one before.
fn read_task<R: Wait>(rt: &R, mut inspector: TaskInspector) -> (TaskInspector, bool)
    ensures { result.0.token.ledger ≡ inspector.token.ledger }
{
    let mut polls = 0;
    let mut rises = true;
    for _turn in 0..TIMES {
        let row = inspector.read(rt);
        rises = rises && row.polls >= polls;
        polls = row.polls;
    }
    (inspector, rises)
}

// Whether the task is seen as closed after all polls, by an inspector that learns the owner's receipt.
fn is_task_read_whole<R: Wait>(rt: &R, inspector: &mut TaskInspector, receipt: TaskReceipt) -> bool
    requires { receipt.token.ledger ≡ inspector.old.token.ledger }
{
    inspector.learn(rt, receipt);
    let row = inspector.read(rt);
    row.polls == TIMES && row.handles == 1 && row.dropped == Some(TIMES)
}

fn is_task_read_at_work<R: Wait + Threads + Sync>(
    rt: &R,
    owner: TaskOwner,
    inspector: TaskInspector,
) -> bool
    requires { inspector.token.ledger ≡ owner.token.ledger }
{
    let (receipt, (mut inspector, rises)) = join(
        rt,
        || -> Option<TaskReceipt>
            ensures { IfSome result (λ receipt. receipt.token.ledger ≡ owner.token.ledger) }
        { poll_task(rt, owner) },
        || -> (TaskInspector, bool)
            ensures { result.0.token.ledger ≡ inspector.token.ledger }
        { read_task(rt, inspector) },
    );
    let whole = match receipt {
        Some(receipt) => is_task_read_whole(rt, &mut inspector, receipt),
        None => false,
    };
    drop(inspector);
    whole && rises
}

fn is_task_inspected<R: Wait + Threads + Sync>(rt: &R, mut owner: TaskOwner) -> bool {
    match owner.inspect(rt) {
        Ok(inspector) => is_task_read_at_work(rt, owner, inspector),
        Err(_) => {
            drop(owner);
            false
        }
    }
}

#[test]
fn reads_a_task_at_work(rt: HostRuntime) {
    match task(&rt, rt.alloc(), FIRST, 0) {
        Some(owner) => assert!(rt; is_task_inspected(&rt, owner)),
        None => assert!(rt; false, "no task"),
    }
}

// ---- an operation

fn op<R: Wait>(rt: &R, alloc: Global) -> Option<OpOwner> {
    let id = AsyncOpId::from_value(FIRST).ok()?;
    OpOwner::new(rt, alloc, id, 0, &[AttrValue::U64(0)]).ok()
}

fn polls_op_once<R: Wait>(rt: &R, owner: &mut OpOwner, moment: u64) -> bool
    ensures { owner.new.token.ledger ≡ owner.old.token.ledger }
{
    owner.start_poll(rt, moment) == Ok(())
        && owner.add(rt, 0, AttrValue::U64(1)) == Ok(())
        && owner.end_poll(rt, moment) == Ok(())
}

fn polls_op<R: Wait>(rt: &R, owner: &mut OpOwner) -> bool
    ensures { owner.new.token.ledger ≡ owner.old.token.ledger }
{
    for moment in 0..TIMES {
        if !polls_op_once(rt, owner, moment) {
            return false;
        }
    }
    true
}

// Polls the operation so many times, adding 1 each time, and closes it.
fn poll_op<R: Wait>(rt: &R, mut owner: OpOwner) -> Option<OpReceipt>
    ensures { IfSome result (λ receipt. receipt.token.ledger ≡ owner.token.ledger) }
{
    if !polls_op(rt, &mut owner) {
        drop(owner);
        return None;
    }
    owner.close(rt, TIMES).ok()
}

// Reads the operation so many times, and tells whether no reading had fewer polls than one before.
fn read_op<R: Wait>(rt: &R, mut inspector: OpInspector) -> (OpInspector, bool)
    ensures { result.0.token.ledger ≡ inspector.token.ledger }
{
    let mut polls = 0;
    let mut rises = true;
    for _turn in 0..TIMES {
        let row = inspector.read(rt);
        rises = rises && row.polls >= polls;
        polls = row.polls;
    }
    (inspector, rises)
}

fn is_op_read_whole<R: Wait>(rt: &R, inspector: &mut OpInspector, receipt: OpReceipt) -> bool
    requires { receipt.token.ledger ≡ inspector.old.token.ledger }
{
    inspector.learn(rt, receipt);
    let row = inspector.read(rt);
    row.polls == TIMES
        && row.handles == 1
        && row.dropped == Some(TIMES)
        && row.attrs.get(0) == Some(AttrValue::U64(TIMES))
}

fn is_op_read_at_work<R: Wait + Threads + Sync>(
    rt: &R,
    owner: OpOwner,
    inspector: OpInspector,
) -> bool
    requires { inspector.token.ledger ≡ owner.token.ledger }
{
    let (receipt, (mut inspector, rises)) = join(
        rt,
        || -> Option<OpReceipt>
            ensures { IfSome result (λ receipt. receipt.token.ledger ≡ owner.token.ledger) }
        { poll_op(rt, owner) },
        || -> (OpInspector, bool)
            ensures { result.0.token.ledger ≡ inspector.token.ledger }
        { read_op(rt, inspector) },
    );
    let whole = match receipt {
        Some(receipt) => is_op_read_whole(rt, &mut inspector, receipt),
        None => false,
    };
    drop(inspector);
    whole && rises
}

fn is_op_inspected<R: Wait + Threads + Sync>(rt: &R, mut owner: OpOwner) -> bool {
    match owner.inspect(rt) {
        Ok(inspector) => is_op_read_at_work(rt, owner, inspector),
        Err(_) => {
            drop(owner);
            false
        }
    }
}

#[test]
fn reads_an_operation_at_work(rt: HostRuntime) {
    match op(&rt, rt.alloc()) {
        Some(owner) => assert!(rt; is_op_inspected(&rt, owner)),
        None => assert!(rt; false, "no operation"),
    }
}

// ---- a resource

fn resource<R: Wait>(rt: &R, alloc: Global) -> Option<ResourceOwner> {
    let id = ResourceId::from_value(FIRST).ok()?;
    ResourceOwner::new(rt, alloc, id, 0, &[AttrValue::U64(0)]).ok()
}

fn adds_on<R: Wait>(rt: &R, user: &mut ResourceUser) -> bool
    ensures { user.new.token.ledger ≡ user.old.token.ledger }
{
    for _turn in 0..TIMES {
        if user.add(rt, 0, AttrValue::U64(1)) != Ok(()) {
            return false;
        }
    }
    true
}

// Adds 1 so many times.
fn add_on<R: Wait>(rt: &R, mut user: ResourceUser) -> Option<ResourceReceipt>
    ensures { IfSome result (λ receipt. receipt.token.ledger ≡ user.token.ledger) }
{
    if !adds_on(rt, &mut user) {
        drop(user);
        return None;
    }
    Some(user.retire())
}

// Reads the resource so many times, and tells whether no reading had less than one before.
fn read_resource<R: Wait>(rt: &R, mut inspector: ResourceInspector) -> (ResourceInspector, bool)
    ensures { result.0.token.ledger ≡ inspector.token.ledger }
{
    let mut value = 0;
    let mut rises = true;
    for _turn in 0..TIMES {
        let found = match inspector.read(rt).attrs.get(0) {
            Some(AttrValue::U64(n)) => n,
            _ => 0,
        };
        rises = rises && found >= value;
        value = found;
    }
    (inspector, rises)
}

fn is_resource_read_whole<R: Wait>(
    rt: &R,
    owner: ResourceOwner,
    inspector: &mut ResourceInspector,
    receipt: ResourceReceipt,
) -> bool
    requires owner { owner.token.ledger ≡ inspector.old.token.ledger }
    requires receipt { receipt.token.ledger ≡ inspector.old.token.ledger }
{
    inspector.learn(rt, receipt);
    inspector.learn(rt, owner.close(rt, TIMES));
    let row = inspector.read(rt);
    row.handles == 2
        && row.dropped == Some(TIMES)
        && row.attrs.get(0) == Some(AttrValue::U64(TIMES))
}

fn is_resource_read_at_work<R: Wait + Threads + Sync>(
    rt: &R,
    owner: ResourceOwner,
    user: ResourceUser,
    inspector: ResourceInspector,
) -> bool
    requires user { user.token.ledger ≡ owner.token.ledger }
    requires inspector { inspector.token.ledger ≡ owner.token.ledger }
{
    let (receipt, (mut inspector, rises)) = join(
        rt,
        || -> Option<ResourceReceipt>
            ensures { IfSome result (λ receipt. receipt.token.ledger ≡ user.token.ledger) }
        { add_on(rt, user) },
        || -> (ResourceInspector, bool)
            ensures { result.0.token.ledger ≡ inspector.token.ledger }
        { read_resource(rt, inspector) },
    );
    let whole = match receipt {
        Some(receipt) => is_resource_read_whole(rt, owner, &mut inspector, receipt),
        None => {
            drop(owner);
            false
        }
    };
    drop(inspector);
    whole && rises
}

fn is_resource_inspected<R: Wait + Threads + Sync>(
    rt: &R,
    mut owner: ResourceOwner,
    user: ResourceUser,
) -> bool
    requires { user.token.ledger ≡ owner.token.ledger }
{
    match owner.inspect(rt) {
        Ok(inspector) => is_resource_read_at_work(rt, owner, user, inspector),
        Err(_) => {
            drop(owner);
            drop(user);
            false
        }
    }
}

fn is_resource_used<R: Wait + Threads + Sync>(rt: &R, mut owner: ResourceOwner) -> bool {
    match owner.user(rt) {
        Ok(user) => is_resource_inspected(rt, owner, user),
        Err(_) => {
            drop(owner);
            false
        }
    }
}

#[test]
fn reads_a_resource_at_work(rt: HostRuntime) {
    match resource(&rt, rt.alloc()) {
        Some(owner) => assert!(rt; is_resource_used(&rt, owner)),
        None => assert!(rt; false, "no resource"),
    }
}
