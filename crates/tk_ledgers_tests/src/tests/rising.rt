//! An inspector that reads again and again, while other threads wake a task, clone and drop its wakers, and poll it.

use super::given::{FIRST, task};
use std::alloc::Global;
use std::sync::Wait;
use std::sync::atomic::{AtomicBool, Ordering};
use std::thread;
use std::thread::{Threads, for_each_mut, join};
use tk_core::TaskRow;
use tk_ledgers::{Origin, TaskInspector, TaskOwner, WakerHandle};

const WAKERS: usize = 4;

// How often the inspector reads at least.
const READINGS: u64 = 100_000;

// How often it reads at most, until each count has risen.
const TURNS: u64 = 1_000_000;

// How often each other thread makes its calls, at most. It is more by far than the inspector needs, since they have to go on as
// long as it reads, whatever else the machine does.
const CALLS: u64 = 20_000_000;

// Wakes once, and clones a waker that is dropped.
fn wake_and_clone<R: Wait>(rt: &R, waker: &mut WakerHandle, moment: u64) {
    waker.wake_by_ref(rt, moment, Origin::outside());
    if let Ok(cloned) = waker.clone_waker(rt) {
        drop(cloned.release(rt));
    }
}

fn wake_until_done<R: Wait>(rt: &R, waker: &mut WakerHandle, done: &AtomicBool) {
    for moment in 0..CALLS {
        if done.load(Ordering::SeqCst) {
            return;
        }
        wake_and_clone(rt, waker, moment);
    }
}

// Each waker on a thread of its own.
fn wake_in_threads<R: Wait + Threads + Sync>(
    rt: &R,
    wakers: &mut [WakerHandle],
    done: &AtomicBool,
) {
    for_each_mut(
        rt,
        wakers,
        WAKERS,
        &|_, waker: &mut WakerHandle| wake_until_done(rt, waker, done),
    );
}

fn polls_until_done<R: Wait>(rt: &R, owner: &mut TaskOwner, done: &AtomicBool) -> bool {
    for moment in 0..CALLS {
        if done.load(Ordering::SeqCst) {
            return true;
        }
        if owner.start_poll(rt, moment).is_err() || owner.end_poll(rt, moment).is_err() {
            return false;
        }
    }
    true
}

fn polls_beside<R: Wait + Threads + Sync>(
    rt: &R,
    owner: &mut TaskOwner,
    wakers: &mut [WakerHandle],
    done: &AtomicBool,
) -> bool {
    let (polled, _) = join(
        rt,
        || polls_until_done(rt, owner, done),
        || wake_in_threads(rt, wakers, done),
    );
    polled
}

// Whether no count is below what it was.
fn are_as_great(now: &TaskRow, before: &TaskRow) -> bool {
    now.wakes >= before.wakes
        && now.clones >= before.clones
        && now.drops >= before.drops
        && now.polls >= before.polls
}

// Whether each count is above what it was.
fn are_greater(now: &TaskRow, before: &TaskRow) -> bool {
    now.wakes > before.wakes
        && now.clones > before.clones
        && now.drops > before.drops
        && now.polls > before.polls
}

// Reads until each count has risen, within so many turns.
fn sees_all_rise<R: Wait>(rt: &R, inspector: &mut TaskInspector) -> bool {
    let first = inspector.read(rt);
    for _turn in 0..TURNS {
        let row = inspector.read(rt);
        if are_greater(&row, &first) {
            return true;
        }
        thread::yield_now();
    }
    false
}

// Whether no reading falls behind the one before it, from a first one until each count has risen, and so many at least.
fn never_falls<R: Wait>(rt: &R, inspector: &mut TaskInspector) -> bool {
    let first = inspector.read(rt);
    let mut before = first;
    for turn in 0..TURNS {
        let row = inspector.read(rt);
        if !are_as_great(&row, &before) {
            return false;
        }
        if turn >= READINGS {
            if are_greater(&row, &first) {
                return true;
            }
            thread::yield_now();
        }
        before = row;
    }
    false
}

// The others have begun, no reading falls, and they go on while it reads.
fn reads_beside<R: Wait>(rt: &R, inspector: &mut TaskInspector, done: &AtomicBool) -> bool {
    let rises = sees_all_rise(rt, inspector) && never_falls(rt, inspector);
    done.store(true, Ordering::SeqCst);
    rises
}

fn is_read_beside<R: Wait + Threads + Sync>(
    rt: &R,
    owner: &mut TaskOwner,
    wakers: &mut [WakerHandle],
    inspector: &mut TaskInspector,
) -> bool {
    let done = AtomicBool::new(false);
    let (polled, rises) = join(
        rt,
        || polls_beside(rt, owner, wakers, &done),
        || reads_beside(rt, inspector, &done),
    );
    polled && rises
}

fn is_inspected<R: Wait + Threads + Sync>(
    rt: &R,
    owner: &mut TaskOwner,
    wakers: &mut [WakerHandle],
) -> bool {
    match owner.inspect(rt) {
        Ok(mut inspector) => {
            let read = is_read_beside(rt, owner, wakers, &mut inspector);
            drop(inspector);
            read
        }
        Err(_) => false,
    }
}

fn add_waker<R: Wait>(rt: &R, owner: &mut TaskOwner, wakers: &mut Vec<WakerHandle>) -> bool {
    match owner.clone_waker(rt) {
        Ok(waker) => wakers.push(waker).is_ok(),
        Err(_) => false,
    }
}

fn wakers<R: Wait>(rt: &R, alloc: Global, owner: &mut TaskOwner) -> Option<Vec<WakerHandle>> {
    let mut wakers = Vec::new(alloc);
    for _ in 0..WAKERS {
        if !add_waker(rt, owner, &mut wakers) {
            drop(wakers);
            return None;
        }
    }
    Some(wakers)
}

fn is_woken_and_inspected<R: Wait + Threads + Sync>(
    rt: &R,
    alloc: Global,
    owner: &mut TaskOwner,
) -> bool {
    match wakers(rt, alloc, owner) {
        Some(mut wakers) => {
            let read = is_inspected(rt, owner, &mut wakers);
            drop(wakers);
            read
        }
        None => false,
    }
}

#[test]
fn no_reading_falls(rt: HostRuntime) {
    match task(&rt, rt.alloc(), FIRST, 0) {
        Some(mut owner) => {
            assert!(rt; is_woken_and_inspected(&rt, rt.alloc(), &mut owner));
            drop(owner);
        }
        None => assert!(rt; false, "no task"),
    }
}
