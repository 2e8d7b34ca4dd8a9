//! Wakers, and what their calls count.

use super::given::{FIRST, is_made, task};
use std::alloc::Global;
use std::sync::Wait;
use tk_core::WakeReply;
use tk_ledgers::{Origin, TaskInspector, TaskOwner, WakerHandle};

fn polls_once<R: Wait>(rt: &R, owner: &mut TaskOwner) -> bool {
    owner.start_poll(rt, 150) == Ok(()) && owner.end_poll(rt, 170) == Ok(())
}

// A task created at 100 that was polled once, from 150 to 170.
fn polled_once<R: Wait>(rt: &R, alloc: Global) -> Option<TaskOwner> {
    let mut owner = task(rt, alloc, FIRST, 100)?;
    polls_once(rt, &mut owner).then_some(owner)
}

fn wakes_once<R: Wait>(rt: &R, waker: WakerHandle, owner: &TaskOwner) -> bool {
    let named = waker.number() == 1 && waker.task() == owner.id();
    let (found, receipt) = waker.wake(rt, 300, Origin::outside());
    drop(receipt);
    named && found == WakeReply::Scheduled
}

fn counts_one_wake_by_value<R: Wait>(rt: &R, owner: &mut TaskOwner) -> bool {
    let row = owner.read(rt);
    row.clones == 1 && row.drops == 1 && row.wakes == 1 && row.self_wakes == 0
}

fn is_woken_by_value<R: Wait>(rt: &R, owner: &mut TaskOwner) -> bool {
    match owner.clone_waker(rt) {
        Ok(waker) => wakes_once(rt, waker, owner) && counts_one_wake_by_value(rt, owner),
        Err(_) => false,
    }
}

#[test]
fn wakes_by_value(rt: HostRuntime) {
    match polled_once(&rt, rt.alloc()) {
        Some(mut owner) => {
            assert!(rt; is_woken_by_value(&rt, &mut owner));
            drop(owner);
        }
        None => assert!(rt; false, "no polled task"),
    }
}

fn wakes_as<R: Wait>(rt: &R, waker: &mut WakerHandle, moment: u64, found: WakeReply) -> bool {
    waker.wake_by_ref(rt, moment, Origin::outside()) == found
}

fn wakes_twice<R: Wait>(rt: &R, waker: &mut WakerHandle) -> bool {
    wakes_as(rt, waker, 300, WakeReply::Scheduled) && wakes_as(rt, waker, 310, WakeReply::Already)
}

fn closes<R: Wait>(rt: &R, owner: TaskOwner) -> bool {
    is_made(owner.close(rt, 400).ok())
}

fn is_woken_thrice<R: Wait>(rt: &R, owner: TaskOwner, waker: &mut WakerHandle) -> bool {
    let woken = wakes_twice(rt, waker);
    closes(rt, owner) && woken && wakes_as(rt, waker, 500, WakeReply::Gone)
}

fn counts_three_wakes<R: Wait>(rt: &R, inspector: &mut TaskInspector) -> bool {
    let row = inspector.read(rt);
    row.wakes == 3 && row.last_wake == Some(500)
}

fn is_woken_and_read<R: Wait>(rt: &R, mut owner: TaskOwner, waker: &mut WakerHandle) -> bool {
    match owner.inspect(rt) {
        Ok(mut inspector) => {
            let woken = is_woken_thrice(rt, owner, waker);
            let counted = counts_three_wakes(rt, &mut inspector);
            drop(inspector);
            woken && counted
        }
        Err(_) => {
            drop(owner);
            false
        }
    }
}

fn is_woken_by_reference<R: Wait>(rt: &R, mut owner: TaskOwner) -> bool {
    match owner.clone_waker(rt) {
        Ok(mut waker) => {
            let read = is_woken_and_read(rt, owner, &mut waker);
            drop(waker);
            read
        }
        Err(_) => {
            drop(owner);
            false
        }
    }
}

#[test]
fn wakes_by_reference(rt: HostRuntime) {
    match polled_once(&rt, rt.alloc()) {
        Some(owner) => assert!(rt; is_woken_by_reference(&rt, owner)),
        None => assert!(rt; false, "no polled task"),
    }
}

fn releases_second<R: Wait>(rt: &R, second: WakerHandle) -> bool {
    let number = second.number();
    drop(second.release(rt));
    number == 2
}

fn counts_one_release<R: Wait>(rt: &R, owner: &mut TaskOwner) -> bool {
    let row = owner.read(rt);
    row.clones == 2 && row.drops == 1 && row.wakes == 0 && row.handles == 2
}

fn clone_is_released<R: Wait>(rt: &R, waker: &mut WakerHandle) -> bool {
    match waker.clone_waker(rt) {
        Ok(second) => releases_second(rt, second),
        Err(_) => false,
    }
}

fn is_released<R: Wait>(rt: &R, owner: &mut TaskOwner) -> bool {
    match owner.clone_waker(rt) {
        Ok(mut waker) => {
            let released = clone_is_released(rt, &mut waker) && counts_one_release(rt, owner);
            drop(waker);
            released
        }
        Err(_) => false,
    }
}

#[test]
fn releases(rt: HostRuntime) {
    match polled_once(&rt, rt.alloc()) {
        Some(mut owner) => {
            assert!(rt; is_released(&rt, &mut owner));
            drop(owner);
        }
        None => assert!(rt; false, "no polled task"),
    }
}

fn wakes_from_outside<R: Wait>(rt: &R, mut waker: WakerHandle) -> bool {
    let found = waker.wake_by_ref_from_outside(rt, 300);
    let (again, receipt) = waker.wake_from_outside(rt, 310);
    drop(receipt);
    found == WakeReply::Scheduled && again == WakeReply::Already
}

fn counts_no_self_wake<R: Wait>(rt: &R, owner: &mut TaskOwner) -> bool {
    let row = owner.read(rt);
    row.wakes == 3 && row.self_wakes == 0 && row.drops == 1 && row.last_wake == Some(320)
}

fn is_woken_from_outside<R: Wait>(rt: &R, owner: &mut TaskOwner) -> bool {
    let woken = match owner.clone_waker(rt) {
        Ok(waker) => wakes_from_outside(rt, waker),
        Err(_) => false,
    };
    woken
        && owner.wake_by_ref_from_outside(rt, 320) == WakeReply::Already
        && counts_no_self_wake(rt, owner)
}

#[test]
fn wakes_from_outside_are_no_self_wakes(rt: HostRuntime) {
    match polled_once(&rt, rt.alloc()) {
        Some(mut owner) => {
            assert!(rt; is_woken_from_outside(&rt, &mut owner));
            drop(owner);
        }
        None => assert!(rt; false, "no polled task"),
    }
}
