//! Eight threads that wake one task, each by a waker of its own.
ghost use Rattle.std.specs.Prelude.{◌≡◌, All, IfSome};

use super::given::{FIRST, task};
use std::alloc::Global;
use std::sync::Wait;
use std::thread::{Threads, map_vec};
use tk_core::TaskRow;
use tk_ledgers::{Origin, TaskInspector, TaskOwner, TaskReceipt, WakerHandle};

const WAKERS: usize = 8;

// Wakes by reference so many times, and then by value.
fn wake_on<R: Wait>(rt: &R, mut waker: WakerHandle) -> TaskReceipt
    ensures { result.token.ledger ≡ waker.token.ledger }
{
    for moment in 0..500u64 {
        waker.wake_by_ref(rt, moment, Origin::outside());
    }
    waker.wake(rt, 500, Origin::outside()).1
}

// Each waker wakes on a thread of its own.
fn wake_in_threads<R: Wait + Threads + Sync>(
    rt: &R,
    wakers: Vec<WakerHandle>,
) -> Option<Vec<TaskReceipt>>
    ensures { (ledger : _) → All (λ w. w.token.ledger ≡ ledger) wakers.items → IfSome result (λ all. All (λ r. r.token.ledger ≡ ledger) all.items) }
{
    map_vec(
        rt,
        wakers,
        &|waker: WakerHandle| -> TaskReceipt
            ensures { result.token.ledger ≡ waker.token.ledger }
        { wake_on(rt, waker) },
    )
    .ok()
}

// Learns what each of these has seen, the last first: how many there were.
fn learn_all<R: Wait>(
    rt: &R,
    inspector: &mut TaskInspector,
    mut receipts: Vec<TaskReceipt>,
) -> usize
    requires { All (λ r. r.token.ledger ≡ inspector.old.token.ledger) receipts.items }
{
    for learnt in 0..=WAKERS {
        match receipts.pop() {
            Some(receipt) => inspector.learn(rt, receipt),
            None => {
                drop(receipts);
                return learnt;
            }
        }
    }
    drop(receipts);
    WAKERS.saturating_add(1)
}

// Reads after all that the wakers did.
fn read_behind<R: Wait + Threads + Sync>(
    rt: &R,
    wakers: Vec<WakerHandle>,
    inspector: &mut TaskInspector,
) -> Option<TaskRow>
    requires { All (λ w. w.token.ledger ≡ inspector.old.token.ledger) wakers.items }
{
    match wake_in_threads(rt, wakers) {
        Some(receipts) => {
            if learn_all(rt, inspector, receipts) != WAKERS {
                return None;
            }
            Some(inspector.read(rt))
        }
        None => None,
    }
}

fn counts_all_wakes(row: &TaskRow) -> bool {
    row.wakes == 4008
        && row.self_wakes == 0
        && row.clones == 8
        && row.drops == 8
        && row.handles == 9
}

fn adds_up<R: Wait + Threads + Sync>(
    rt: &R,
    wakers: Vec<WakerHandle>,
    inspector: &mut TaskInspector,
) -> bool
    requires { All (λ w. w.token.ledger ≡ inspector.old.token.ledger) wakers.items }
{
    let is_ninth = inspector.number() == 9;
    match read_behind(rt, wakers, inspector) {
        Some(row) => is_ninth && counts_all_wakes(&row),
        None => false,
    }
}

fn inspected_adds_up<R: Wait + Threads + Sync>(
    rt: &R,
    owner: &mut TaskOwner,
    wakers: Vec<WakerHandle>,
) -> bool
    requires { All (λ w. w.token.ledger ≡ owner.old.token.ledger) wakers.items }
{
    match owner.inspect(rt) {
        Ok(mut inspector) => {
            let added = adds_up(rt, wakers, &mut inspector);
            drop(inspector);
            added
        }
        Err(_) => {
            drop(wakers);
            false
        }
    }
}

fn add_waker<R: Wait>(rt: &R, owner: &mut TaskOwner, wakers: &mut Vec<WakerHandle>) -> bool
    requires { All (λ w. w.token.ledger ≡ owner.old.token.ledger) wakers.old.items }
    ensures ledger { owner.new.token.ledger ≡ owner.old.token.ledger }
    ensures all { All (λ w. w.token.ledger ≡ owner.old.token.ledger) wakers.new.items }
{
    match owner.clone_waker(rt) {
        Ok(waker) => wakers.push(waker).is_ok(),
        Err(_) => false,
    }
}

// Eight wakers of one owner.
fn wakers<R: Wait>(rt: &R, alloc: Global, owner: &mut TaskOwner) -> Option<Vec<WakerHandle>>
    ensures ledger { owner.new.token.ledger ≡ owner.old.token.ledger }
    ensures all { IfSome result (λ all. All (λ w. w.token.ledger ≡ owner.old.token.ledger) all.items) }
{
    let mut wakers = Vec::new(alloc);
    for made in 0..WAKERS {
        if !add_waker(rt, owner, &mut wakers) {
            drop(wakers);
            return None;
        }
    }
    Some(wakers)
}

fn wakers_add_up<R: Wait + Threads + Sync>(rt: &R, alloc: Global, owner: &mut TaskOwner) -> bool {
    match wakers(rt, alloc, owner) {
        Some(all) => inspected_adds_up(rt, owner, all),
        None => false,
    }
}

#[test]
fn eight_threads_add_up(rt: HostRuntime) {
    match task(&rt, rt.alloc(), FIRST, 0) {
        Some(mut owner) => {
            assert!(rt; wakers_add_up(&rt, rt.alloc(), &mut owner));
            drop(owner);
        }
        None => assert!(rt; false, "no task"),
    }
}
