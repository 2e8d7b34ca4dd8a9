//! All callers of an item in one hand, and what an inspector reads beside it.
ghost use Rattle.std.specs.Prelude.{◌≡◌, ◌≢◌, IfSome, None, [], ◌∷◌};
ghost use Rattle.tk_core.specs.TaskMeaning.{task_meaning};
ghost use Rattle.tk_core.specs.ResourceMeaning.{resource_meaning};
ghost use Rattle.tk_core.specs.declared.task.call.TaskCall.TheVariants.{CloneWaker};
ghost use Rattle.tk_ledgers.specs.Callers.{IsLive, HoldsOnly};
ghost use Rattle.tk_ledgers_tests.specs.Uses.{WokeOnce};

use super::given::FIRST;
use std::alloc::Global;
use std::sync::Wait;
use std::thread::{Threads, join};
use tk_core::{AttrOp, Refusal, TaskRow, WakeReply};
use tk_ids::{AsyncOpId, AttrValue, ResourceId, TaskId};
use tk_ledgers::{
    OpCallers, OpInspector, OpOwner, Origin, ResourceCallers, ResourceInspector, ResourceOwner,
    TaskCallers, TaskInspector, TaskOwner, TaskReceipt, WakerHandle,
};

// ---- a task

fn task<R: Wait>(rt: &R, alloc: Global) -> Option<TaskOwner>
    ensures times { IfSome result (λ owner. owner.times ≡ None) }
    ensures alone { IfSome result (λ owner. owner.token.view.held ≡ 0 ∷ []) }
{
    let id = TaskId::from_value(FIRST).ok()?;
    TaskOwner::new(rt, alloc, id, 100).ok()
}

// The callers of a task, and its inspector, who is handle 1.
fn in_one_hand<R: Wait>(rt: &R, owner: TaskOwner) -> Option<(TaskCallers, TaskInspector)>
    requires times { owner.times ≡ None }
    requires alone { owner.token.view.held ≡ 0 ∷ [] }
    ensures { IfSome result (λ made. made.1.token.ledger ≡ made.0.token.ledger) }
{
    let mut owner = owner;
    match owner.inspect(rt) {
        Ok(inspector) => Some((owner.into_callers(), inspector)),
        Err(_) => None,
    }
}

fn polls_once<R: Wait>(rt: &R, callers: &mut TaskCallers) -> bool
    ensures { callers.new.token.ledger ≡ callers.old.token.ledger }
{
    callers.start_poll(rt, 150) == Ok(())
        && callers.is_polling()
        && callers.self_wake(rt, 155) == Ok(WakeReply::Scheduled)
        && callers.end_poll(rt, 170) == Ok(())
        && !callers.is_polling()
}

fn waker<R: Wait>(rt: &R, callers: &mut TaskCallers) -> Option<u64>
    ensures ledger { callers.new.token.ledger ≡ callers.old.token.ledger }
    ensures live { IfSome result (λ waker. IsLive task_meaning callers.new.token.view waker) }
{
    match callers.clone_waker(rt, 0) {
        Ok(waker) => Some(waker),
        Err(_) => None,
    }
}

// Waker 2 makes waker 3, which is released.
fn makes_another<R: Wait>(rt: &R, callers: &mut TaskCallers, waker: u64) -> bool
    requires { IsLive task_meaning callers.old.token.view waker }
    ensures ledger { callers.new.token.ledger ≡ callers.old.token.ledger }
    ensures live { IsLive task_meaning callers.new.token.view waker }
{
    match callers.clone_waker(rt, waker) {
        Ok(another) => {
            callers.release(rt, another);
            waker == 2 && another == 3
        }
        Err(_) => false,
    }
}

// It wakes by reference, and then by value.
fn wakes_twice<R: Wait>(rt: &R, callers: &mut TaskCallers, waker: u64) -> bool
    requires { IsLive task_meaning callers.old.token.view waker }
    ensures { callers.new.token.ledger ≡ callers.old.token.ledger }
{
    let by_reference = callers.wake_by_ref(rt, waker, 200);
    let by_value = callers.wake(rt, waker, 300);
    by_reference == WakeReply::Already && by_value == WakeReply::Already
}

fn is_woken<R: Wait>(rt: &R, callers: &mut TaskCallers) -> bool
    ensures { callers.new.token.ledger ≡ callers.old.token.ledger }
{
    match waker(rt, callers) {
        Some(waker) => makes_another(rt, callers, waker) && wakes_twice(rt, callers, waker),
        None => false,
    }
}

fn counts_all_calls(row: &TaskRow) -> bool {
    row.polls == 1
        && row.busy == 20
        && row.wakes == 3
        && row.self_wakes == 1
        && row.last_wake == Some(300)
        && row.clones == 2
        && row.drops == 2
        && row.handles == 3
        && row.scheduled
        && row.dropped.is_none()
}

// Closed, it refuses each call of its owner, and its row stays.
fn closes<R: Wait>(rt: &R, callers: &mut TaskCallers) -> bool
    ensures { callers.new.token.ledger ≡ callers.old.token.ledger }
{
    callers.close(rt, 400) == Ok(())
        && callers.close(rt, 401) == Err(Refusal::Closed)
        && callers.start_poll(rt, 402) == Err(Refusal::Closed)
        && callers.end_poll(rt, 403) == Err(Refusal::Closed)
}

fn is_read_beside<R: Wait>(rt: &R, callers: &mut TaskCallers, inspector: &mut TaskInspector) -> bool
    requires { inspector.old.token.ledger ≡ callers.old.token.ledger }
{
    let called = polls_once(rt, callers) && is_woken(rt, callers);
    let counted = counts_all_calls(&callers.read_beside(rt, inspector));
    let closed = closes(rt, callers);
    let row = callers.read_beside(rt, inspector);
    called && counted && closed && row.dropped == Some(400) && row.polls == 1 && row.handles == 3
}

#[test]
fn an_inspector_reads_what_a_hand_called(rt: HostRuntime) {
    let Some(owner) = task(&rt, rt.alloc()) else {
        assert!(rt; false, "no task");
        return;
    };
    match in_one_hand(&rt, owner) {
        Some((mut callers, mut inspector)) => {
            assert!(rt; is_read_beside(&rt, &mut callers, &mut inspector))
        }
        None => assert!(rt; false, "no inspector"),
    }
}

// ---- wakers that are handed out

// A waker wakes once, by value.
fn wake_once<R: Wait>(rt: &R, waker: WakerHandle, moment: u64) -> TaskReceipt
    ensures ledger { result.token.ledger ≡ waker.token.ledger }
    ensures woke { WokeOnce waker result }
{
    waker.wake(rt, moment, Origin::outside()).1
}

// Both wake, each on a thread of its own, and are taken back.
fn both_wake<R: Wait + Threads + Sync>(
    rt: &R,
    callers: &mut TaskCallers,
    one: WakerHandle,
    two: WakerHandle,
)
    requires first { one.token.ledger ≡ callers.old.token.ledger }
    requires second { two.token.ledger ≡ callers.old.token.ledger }
    requires wakers { HoldsOnly task_meaning CloneWaker one.token.view × HoldsOnly task_meaning CloneWaker two.token.view }
    ensures { callers.new.token.ledger ≡ callers.old.token.ledger }
{
    let (first, second) = join(
        rt,
        || -> TaskReceipt
            ensures ledger { result.token.ledger ≡ one.token.ledger }
            ensures woke { WokeOnce one result }
        { wake_once(rt, one, 500) },
        || -> TaskReceipt
            ensures ledger { result.token.ledger ≡ two.token.ledger }
            ensures woke { WokeOnce two result }
        { wake_once(rt, two, 600) },
    );
    callers.take_back(rt, first);
    callers.take_back(rt, second);
}

// Both are handed out.
fn hands_out<R: Wait + Threads + Sync>(
    rt: &R,
    callers: &mut TaskCallers,
    one: u64,
    two: u64,
) -> bool
    requires one { IsLive task_meaning callers.old.token.view one }
    requires two { IsLive task_meaning callers.old.token.view two }
    requires apart { two ≢ one }
    ensures { callers.new.token.ledger ≡ callers.old.token.ledger }
{
    let Ok(first) = callers.part(one) else {
        return false;
    };
    let Ok(second) = callers.part(two) else {
        return false;
    };
    both_wake(rt, callers, first, second);
    true
}

// A waker that is handed out, wakes, and is taken back goes on.
fn goes_on_in_the_hand<R: Wait>(rt: &R, callers: &mut TaskCallers, waker: u64) -> bool
    requires { IsLive task_meaning callers.old.token.view waker }
    ensures ledger { callers.new.token.ledger ≡ callers.old.token.ledger }
    ensures live { IsLive task_meaning callers.new.token.view waker }
{
    match callers.part(waker) {
        Ok(mut handle) => {
            handle.wake_by_ref_from_outside(rt, 450);
            callers.take_back(rt, handle.retire());
            true
        }
        Err(_) => false,
    }
}

// A waker and one that it makes.
fn both_go_out<R: Wait + Threads + Sync>(rt: &R, callers: &mut TaskCallers, one: u64) -> bool
    requires { IsLive task_meaning callers.old.token.view one }
    ensures { callers.new.token.ledger ≡ callers.old.token.ledger }
{
    match callers.clone_waker(rt, one) {
        Ok(two) => hands_out(rt, callers, one, two),
        Err(_) => false,
    }
}

fn wakes_in_and_out<R: Wait + Threads + Sync>(rt: &R, callers: &mut TaskCallers) -> bool
    ensures { callers.new.token.ledger ≡ callers.old.token.ledger }
{
    match waker(rt, callers) {
        Some(one) => {
            let goes_on = goes_on_in_the_hand(rt, callers, one);
            let both = both_go_out(rt, callers, one);
            goes_on && both
        }
        None => false,
    }
}

fn counts_three_wakes<R: Wait + Threads + Sync>(
    rt: &R,
    callers: &mut TaskCallers,
    inspector: &mut TaskInspector,
) -> bool
    requires { inspector.old.token.ledger ≡ callers.old.token.ledger }
{
    let woken = wakes_in_and_out(rt, callers);
    let row = callers.read_beside(rt, inspector);
    woken && row.wakes == 3 && row.last_wake == Some(600) && row.clones == 2 && row.drops == 2
}

#[test]
fn wakers_are_handed_out_and_taken_back(rt: HostRuntime) {
    let Some(owner) = task(&rt, rt.alloc()) else {
        assert!(rt; false, "no task");
        return;
    };
    match in_one_hand(&rt, owner) {
        Some((mut callers, mut inspector)) => {
            assert!(rt; counts_three_wakes(&rt, &mut callers, &mut inspector))
        }
        None => assert!(rt; false, "no inspector"),
    }
}

// ---- refusals that leave the hand

fn refuses_out_of_turn<R: Wait>(rt: &R, callers: &mut TaskCallers) -> bool {
    callers.self_wake(rt, 110) == Err(Refusal::NotPolling)
        && callers.end_poll(rt, 120) == Err(Refusal::NotPolling)
        && callers.start_poll(rt, 130) == Ok(())
        && callers.start_poll(rt, 140) == Err(Refusal::AlreadyPolling)
        && callers.close(rt, 150) == Err(Refusal::AlreadyPolling)
        && callers.is_polling()
}

#[test]
fn a_hand_refuses_out_of_turn(rt: HostRuntime) {
    match task(&rt, rt.alloc()) {
        Some(owner) => assert!(rt; refuses_out_of_turn(&rt, &mut owner.into_callers())),
        None => assert!(rt; false, "no task"),
    }
}

// ---- a resource

fn resource<R: Wait>(rt: &R, alloc: Global) -> Option<ResourceOwner>
    ensures { IfSome result (λ owner. owner.token.view.held ≡ 0 ∷ []) }
{
    let id = ResourceId::from_value(FIRST).ok()?;
    ResourceOwner::new(rt, alloc, id, 7, &[AttrValue::U64(5)]).ok()
}

fn resource_in_one_hand<R: Wait>(
    rt: &R,
    owner: ResourceOwner,
) -> Option<(ResourceCallers, ResourceInspector)>
    requires { owner.token.view.held ≡ 0 ∷ [] }
    ensures { IfSome result (λ made. made.1.token.ledger ≡ made.0.token.ledger) }
{
    let mut owner = owner;
    match owner.inspect(rt) {
        Ok(inspector) => Some((owner.into_callers(), inspector)),
        Err(_) => None,
    }
}

// A user takes 3 of 5, is handed out, gives 1 back, is taken back, and asks for too much.
fn takes_and_gives<R: Wait>(rt: &R, callers: &mut ResourceCallers, user: u64) -> bool
    requires { IsLive resource_meaning callers.old.token.view user }
    ensures { callers.new.token.ledger ≡ callers.old.token.ledger }
{
    let taken = callers.change(rt, user, 0, AttrOp::Sub(AttrValue::U64(3)));
    let Ok(mut handle) = callers.part(user) else {
        return false;
    };
    let given = handle.add(rt, 0, AttrValue::U64(1));
    callers.take_back(rt, handle.retire());
    let refused = callers.change(rt, user, 0, AttrOp::Sub(AttrValue::U64(4)));
    user == 2 && taken == Ok(()) && given == Ok(()) && refused == Err(Refusal::OutOfRange)
}

fn is_used<R: Wait>(rt: &R, callers: &mut ResourceCallers) -> bool
    ensures { callers.new.token.ledger ≡ callers.old.token.ledger }
{
    match callers.user(rt) {
        Ok(user) => takes_and_gives(rt, callers, user),
        Err(_) => false,
    }
}

fn is_used_and_closed<R: Wait>(
    rt: &R,
    callers: &mut ResourceCallers,
    inspector: &mut ResourceInspector,
) -> bool
    requires { inspector.old.token.ledger ≡ callers.old.token.ledger }
{
    let used = is_used(rt, callers);
    let closed = callers.close(rt, 9) == Ok(()) && callers.close(rt, 10) == Err(Refusal::Closed);
    let row = callers.read_beside(rt, inspector);
    used && closed
        && row.dropped == Some(9)
        && row.handles == 2
        && row.attrs.get(0) == Some(AttrValue::U64(3))
}

#[test]
fn an_inspector_reads_what_users_changed(rt: HostRuntime) {
    let Some(owner) = resource(&rt, rt.alloc()) else {
        assert!(rt; false, "no resource");
        return;
    };
    match resource_in_one_hand(&rt, owner) {
        Some((mut callers, mut inspector)) => {
            assert!(rt; is_used_and_closed(&rt, &mut callers, &mut inspector))
        }
        None => assert!(rt; false, "no inspector"),
    }
}

// ---- an operation

fn op<R: Wait>(rt: &R, alloc: Global) -> Option<OpOwner>
    ensures { IfSome result (λ owner. owner.token.view.held ≡ 0 ∷ []) }
{
    let id = AsyncOpId::from_value(FIRST).ok()?;
    OpOwner::new(rt, alloc, id, 7, &[AttrValue::U64(1)]).ok()
}

fn op_in_one_hand<R: Wait>(rt: &R, owner: OpOwner) -> Option<(OpCallers, OpInspector)>
    requires { owner.token.view.held ≡ 0 ∷ [] }
    ensures { IfSome result (λ made. made.1.token.ledger ≡ made.0.token.ledger) }
{
    let mut owner = owner;
    match owner.inspect(rt) {
        Ok(inspector) => Some((owner.into_callers(), inspector)),
        Err(_) => None,
    }
}

fn polls_op<R: Wait>(rt: &R, callers: &mut OpCallers, task: TaskId) -> bool
    ensures { callers.new.token.ledger ≡ callers.old.token.ledger }
{
    callers.set_task(rt, task) == Ok(())
        && callers.start_poll(rt, 10) == Ok(())
        && callers.close(rt, 11) == Err(Refusal::AlreadyPolling)
        && callers.change(rt, 0, AttrOp::Add(AttrValue::U64(4))) == Ok(())
        && callers.end_poll(rt, 30) == Ok(())
        && callers.end_poll(rt, 31) == Err(Refusal::NotPolling)
}

fn closes_op<R: Wait>(rt: &R, callers: &mut OpCallers, task: TaskId) -> bool
    ensures { callers.new.token.ledger ≡ callers.old.token.ledger }
{
    callers.close(rt, 40) == Ok(())
        && callers.set_task(rt, task) == Err(Refusal::Closed)
        && callers.change(rt, 0, AttrOp::Add(AttrValue::U64(1))) == Err(Refusal::Closed)
}

fn is_polled_and_closed<R: Wait>(
    rt: &R,
    callers: &mut OpCallers,
    inspector: &mut OpInspector,
    task: TaskId,
) -> bool
    requires { inspector.old.token.ledger ≡ callers.old.token.ledger }
{
    let called = polls_op(rt, callers, task) && closes_op(rt, callers, task);
    let row = callers.read_beside(rt, inspector);
    called
        && row.polls == 1
        && row.busy == 20
        && row.task == Some(task)
        && row.dropped == Some(40)
        && row.attrs.get(0) == Some(AttrValue::U64(5))
}

#[test]
fn an_inspector_reads_what_an_op_called(rt: HostRuntime) {
    let Ok(polling) = TaskId::from_value(FIRST) else {
        assert!(rt; false, "no id");
        return;
    };
    let Some(owner) = op(&rt, rt.alloc()) else {
        assert!(rt; false, "no operation");
        return;
    };
    match op_in_one_hand(&rt, owner) {
        Some((mut callers, mut inspector)) => {
            assert!(rt; is_polled_and_closed(&rt, &mut callers, &mut inspector, polling))
        }
        None => assert!(rt; false, "no inspector"),
    }
}
