//! Scopes of polls: what is done in one is the owner's.

use super::given::{FIRST, is_made, task};
use std::sync::Wait;
use tk_core::{Refusal, WakeReply};
use tk_ledgers::{Origin, PollScope, TaskOwner, WakerHandle};

/// The second task of the first recorder.
const SECOND: u64 = 1099511627778;

fn starts<R: Wait>(rt: &R, owner: &mut TaskOwner, moment: u64) -> bool {
    owner.start_poll(rt, moment) == Ok(())
}

fn wakes_itself<R: Wait>(rt: &R, scope: &mut PollScope) -> bool {
    scope.now() == 155 && scope.wake_by_ref(rt, 160) == WakeReply::Scheduled
}

// Wakes itself in a scope, whose owner comes back.
fn owner_that_woke_itself<R: Wait>(rt: &R, owner: TaskOwner) -> Option<TaskOwner> {
    let mut scope = owner.scope(155).ok()?;
    let woken = wakes_itself(rt, &mut scope);
    woken.then_some(scope.finish())
}

fn ends_and_starts<R: Wait>(rt: &R, owner: &mut TaskOwner) -> bool {
    owner.is_polling() && owner.end_poll(rt, 170) == Ok(()) && starts(rt, owner, 200)
}

fn has_one_self_wake<R: Wait>(rt: &R, owner: &mut TaskOwner) -> bool {
    let row = owner.read(rt);
    row.wakes == 1 && row.self_wakes == 1 && row.polls == 2 && row.sched == 80
}

fn is_a_self_wake<R: Wait>(rt: &R, owner: TaskOwner) -> bool {
    match owner_that_woke_itself(rt, owner) {
        Some(mut owner) => {
            let counted = ends_and_starts(rt, &mut owner) && has_one_self_wake(rt, &mut owner);
            drop(owner);
            counted
        }
        None => false,
    }
}

#[test]
fn a_wake_in_a_poll_is_a_self_wake(rt: HostRuntime) {
    match task(&rt, rt.alloc(), FIRST, 100) {
        Some(mut owner) => {
            assert!(rt; starts(&rt, &mut owner, 150));
            assert!(rt; is_a_self_wake(&rt, owner));
        }
        None => assert!(rt; false, "no task"),
    }
}

// The owner, which comes back from a scope that is refused since it isn't polled.
fn back_from_scope(owner: TaskOwner) -> Option<TaskOwner> {
    let (refusal, owner) = owner.scope(5).err()?;
    (refusal == Refusal::NotPolling).then_some(owner)
}

fn opens_a_scope_in_a_poll<R: Wait>(rt: &R, mut owner: TaskOwner) -> bool {
    let started = starts(rt, &mut owner, 10);
    is_made(owner.scope(11).ok()) && started
}

#[test]
fn no_scope_without_a_poll(rt: HostRuntime) {
    match task(&rt, rt.alloc(), FIRST, 0) {
        Some(owner) => match back_from_scope(owner) {
            Some(owner) => assert!(rt; opens_a_scope_in_a_poll(&rt, owner)),
            None => assert!(rt; false, "a scope without a poll"),
        },
        None => assert!(rt; false, "no task"),
    }
}

// Wakes the task of the scope from within its poll and from outside, and the other from within.
fn wake_both<R: Wait>(rt: &R, scope: &PollScope, waker: &mut WakerHandle, other: &mut TaskOwner) {
    waker.wake_by_ref(rt, 11, scope.origin());
    waker.wake_by_ref(rt, 12, Origin::outside());
    other.wake_by_ref(rt, 13, scope.origin());
}

fn wakes_by_a_first_waker<R: Wait>(rt: &R, scope: &mut PollScope, other: &mut TaskOwner) -> bool {
    match scope.clone_waker(rt) {
        Ok(mut waker) => {
            wake_both(rt, scope, &mut waker, other);
            let number = waker.number();
            drop(waker);
            number == 1
        }
        Err(_) => false,
    }
}

fn owner_that_woke_both<R: Wait>(
    rt: &R,
    owner: TaskOwner,
    other: &mut TaskOwner,
) -> Option<TaskOwner> {
    let mut scope = owner.scope(10).ok()?;
    let woken = wakes_by_a_first_waker(rt, &mut scope, other);
    woken.then_some(scope.finish())
}

fn has_one_wake_of_its_own<R: Wait>(rt: &R, owner: &mut TaskOwner) -> bool {
    let row = owner.read(rt);
    row.wakes == 2 && row.self_wakes == 1 && row.clones == 1
}

fn has_one_of_another<R: Wait>(rt: &R, other: &mut TaskOwner) -> bool {
    let row = other.read(rt);
    row.wakes == 1 && row.self_wakes == 0
}

fn tells_own_wakes<R: Wait>(rt: &R, owner: TaskOwner, other: &mut TaskOwner) -> bool {
    match owner_that_woke_both(rt, owner, other) {
        Some(mut owner) => {
            let counted = has_one_wake_of_its_own(rt, &mut owner) && has_one_of_another(rt, other);
            drop(owner);
            counted
        }
        None => false,
    }
}

// A poll of one task that wakes another: the wake is not the other's own.
fn wakes_another<R: Wait>(rt: &R, mut owner: TaskOwner, other: &mut TaskOwner) -> bool {
    let started = starts(rt, &mut owner, 10);
    tells_own_wakes(rt, owner, other) && started
}

#[test]
fn a_wake_is_its_own_where_the_origin_names_it(rt: HostRuntime) {
    let owner = task(&rt, rt.alloc(), FIRST, 0);
    let other = task(&rt, rt.alloc(), SECOND, 0);
    match owner.zip(other) {
        Some((owner, mut other)) => {
            assert!(rt; wakes_another(&rt, owner, &mut other));
            drop(other);
        }
        None => assert!(rt; false, "no task"),
    }
}
