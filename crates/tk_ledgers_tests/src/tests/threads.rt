//! Two threads that wake one task.
ghost use Rattle.std.specs.Prelude.{◌≡◌, ◌≤◌, IfSome};
ghost use Rattle.tk_ledgers_tests.specs.Uses.{WokeOnce};

use super::given::{FIRST, task};
use std::sync::Wait;
use std::thread::{Threads, join};
use tk_core::TaskRow;
use tk_ledgers::{Origin, TaskInspector, TaskOwner, TaskReceipt, WakerHandle};

// Wakes a thousand times, and releases the waker.
fn wake_and_release<R: Wait>(rt: &R, mut waker: WakerHandle) -> TaskReceipt
    ensures { result.token.ledger ≡ waker.token.ledger }
{
    for moment in 0..1000u64 {
        waker.wake_by_ref(rt, moment, Origin::outside());
    }
    waker.release(rt)
}

// Each thread has one of the wakers; the inspector learns what both have seen, and reads.
fn both<R: Wait + Threads + Sync>(
    rt: &R,
    one: WakerHandle,
    two: WakerHandle,
    inspector: &mut TaskInspector,
) -> TaskRow
    requires one { one.token.ledger ≡ inspector.old.token.ledger }
    requires two { two.token.ledger ≡ inspector.old.token.ledger }
{
    let (a, b) = join(
        rt,
        || -> TaskReceipt
            ensures { result.token.ledger ≡ one.token.ledger }
        { wake_and_release(rt, one) },
        || -> TaskReceipt
            ensures { result.token.ledger ≡ two.token.ledger }
        { wake_and_release(rt, two) },
    );
    inspector.learn(rt, a);
    inspector.learn(rt, b);
    inspector.read(rt)
}

// Wakes once, and uses the waker up.
fn wake_once<R: Wait>(rt: &R, waker: WakerHandle, moment: u64) -> TaskReceipt
    ensures ledger { result.token.ledger ≡ waker.token.ledger }
    ensures woke { WokeOnce waker result }
{
    waker.wake(rt, moment, Origin::outside()).1
}

// Two threads wake one task, once each. The inspector learns what both have seen, and its next reading has both wakes,
// whatever else was going on.
fn wake_in_two_threads<R: Wait + Threads + Sync>(
    rt: &R,
    one: WakerHandle,
    two: WakerHandle,
    inspector: &mut TaskInspector,
) -> TaskRow
    requires one { one.token.ledger ≡ inspector.old.token.ledger }
    requires two { two.token.ledger ≡ inspector.old.token.ledger }
    ensures both { 2 ≤ result.wakes }
{
    let (first, second) = join(
        rt,
        || -> TaskReceipt
            ensures ledger { result.token.ledger ≡ one.token.ledger }
            ensures woke { WokeOnce one result }
        { wake_once(rt, one, 5) },
        || -> TaskReceipt
            ensures ledger { result.token.ledger ≡ two.token.ledger }
            ensures woke { WokeOnce two result }
        { wake_once(rt, two, 6) },
    );
    inspector.learn(rt, first);
    inspector.learn(rt, second);
    inspector.read(rt)
}

// A waker, and one that is cloned from it.
fn wakers<R: Wait>(rt: &R, owner: &mut TaskOwner) -> Option<(WakerHandle, WakerHandle)>
    ensures kept { owner.new.token.ledger ≡ owner.old.token.ledger }
    ensures made { IfSome result (λ h. (h.0.token.ledger ≡ owner.old.token.ledger) × (h.1.token.ledger ≡ owner.old.token.ledger)) }
{
    let mut one = owner.clone_waker(rt).ok()?;
    match one.clone_waker(rt) {
        Ok(two) => Some((one, two)),
        Err(_) => {
            drop(one);
            None
        }
    }
}

fn inspector<R: Wait>(rt: &R, owner: &mut TaskOwner) -> Option<TaskInspector>
    ensures kept { owner.new.token.ledger ≡ owner.old.token.ledger }
    ensures made { IfSome result (λ inspector. inspector.token.ledger ≡ owner.old.token.ledger) }
{
    owner.inspect(rt).ok()
}

// Wakers 1 and, cloned from it, 2, and inspector 3, of one ledger.
fn are_numbered(one: &WakerHandle, two: &WakerHandle, inspector: &TaskInspector) -> bool {
    one.number() == 1 && two.number() == 2 && inspector.number() == 3
}

fn counts_two_thousand(row: &TaskRow) -> bool {
    row.wakes == 2000
        && row.self_wakes == 0
        && row.clones == 2
        && row.drops == 2
        && row.handles == 3
}

// A further inspector reads that it is the fourth handle.
fn draws_a_fourth<R: Wait>(rt: &R, inspector: &mut TaskInspector) -> bool {
    match inspector.inspect(rt) {
        Ok(mut drawn) => {
            let row = drawn.read(rt);
            drop(drawn);
            row.handles == 4
        }
        Err(_) => false,
    }
}

fn adds_up<R: Wait + Threads + Sync>(
    rt: &R,
    one: WakerHandle,
    two: WakerHandle,
    inspector: &mut TaskInspector,
) -> bool
    requires one { one.token.ledger ≡ inspector.old.token.ledger }
    requires two { two.token.ledger ≡ inspector.old.token.ledger }
{
    let numbered = are_numbered(&one, &two, inspector);
    let row = both(rt, one, two, inspector);
    numbered && counts_two_thousand(&row) && draws_a_fourth(rt, inspector)
}

fn wakers_add_up<R: Wait + Threads + Sync>(
    rt: &R,
    owner: &mut TaskOwner,
    one: WakerHandle,
    two: WakerHandle,
) -> bool
    requires one { one.token.ledger ≡ owner.old.token.ledger }
    requires two { two.token.ledger ≡ owner.old.token.ledger }
{
    match inspector(rt, owner) {
        Some(mut inspector) => {
            let added = adds_up(rt, one, two, &mut inspector);
            drop(inspector);
            added
        }
        None => {
            drop(one);
            drop(two);
            false
        }
    }
}

fn handles_add_up<R: Wait + Threads + Sync>(rt: &R, owner: &mut TaskOwner) -> bool {
    match wakers(rt, owner) {
        Some((one, two)) => wakers_add_up(rt, owner, one, two),
        None => false,
    }
}

#[test]
fn adds_up_what_two_threads_did(rt: HostRuntime) {
    match task(&rt, rt.alloc(), FIRST, 0) {
        Some(mut owner) => {
            assert!(rt; handles_add_up(&rt, &mut owner));
            drop(owner);
        }
        None => assert!(rt; false, "no task"),
    }
}

fn shows_both_wakes<R: Wait + Threads + Sync>(
    rt: &R,
    one: WakerHandle,
    two: WakerHandle,
    inspector: &mut TaskInspector,
) -> bool
    requires one { one.token.ledger ≡ inspector.old.token.ledger }
    requires two { two.token.ledger ≡ inspector.old.token.ledger }
{
    let row = wake_in_two_threads(rt, one, two, inspector);
    row.wakes == 2 && row.drops == 2 && row.last_wake == Some(6)
}

fn wakers_are_read<R: Wait + Threads + Sync>(
    rt: &R,
    owner: &mut TaskOwner,
    one: WakerHandle,
    two: WakerHandle,
) -> bool
    requires one { one.token.ledger ≡ owner.old.token.ledger }
    requires two { two.token.ledger ≡ owner.old.token.ledger }
{
    match inspector(rt, owner) {
        Some(mut inspector) => {
            let shown = shows_both_wakes(rt, one, two, &mut inspector);
            drop(inspector);
            shown
        }
        None => {
            drop(one);
            drop(two);
            false
        }
    }
}

fn handles_are_read<R: Wait + Threads + Sync>(rt: &R, owner: &mut TaskOwner) -> bool {
    match wakers(rt, owner) {
        Some((one, two)) => wakers_are_read(rt, owner, one, two),
        None => false,
    }
}

#[test]
fn reads_both_wakes(rt: HostRuntime) {
    match task(&rt, rt.alloc(), FIRST, 0) {
        Some(mut owner) => {
            assert!(rt; handles_are_read(&rt, &mut owner));
            drop(owner);
        }
        None => assert!(rt; false, "no task"),
    }
}
