//! A histogram that is read while the task is polled on another thread, and learnt when it is closed.
ghost use Rattle.std.specs.Prelude.{◌≡◌};
ghost use Rattle.tk_ledgers.specs.Times.{IsOfHistogram};

use super::given::{FIRST, timed_task};
use std::sync::Wait;
use std::thread::{Threads, join};
use tk_core::{Refusal, TimesRow};
use tk_ledgers::{TaskOwner, TaskReceipt, TimesInspector, TimesReceipt};

// How many polls another thread makes. The n-th runs for n nanoseconds.
const POLLS: u64 = 10_000;

// How often the inspector reads beside them.
const READINGS: u64 = 2_000;

// How many polls a histogram has, of which each is short.
fn polls_of(row: &TimesRow) -> u64 {
    row.counts[0]
}

fn poll<R: Wait>(rt: &R, owner: &mut TaskOwner, run: u64) -> Result<(), Refusal> {
    owner.start_poll(rt, 5)?;
    owner.end_poll(rt, run.saturating_add(5))
}

fn poll_often<R: Wait>(rt: &R, owner: &mut TaskOwner) -> bool {
    for run in 0..POLLS {
        if poll(rt, owner, run + 1).is_err() {
            return false;
        }
    }
    true
}

// Whether each reading is that of the first polls, as many as it counts: the longest of the first n runs for n. No reading falls.
fn shows_the_first<R: Wait>(rt: &R, times: &mut TimesInspector) -> bool {
    let mut before = 0;
    for _ in 0..READINGS {
        let row = times.read(rt);
        let polls = polls_of(&row);
        if polls < before || row.longest != polls {
            return false;
        }
        before = polls;
    }
    true
}

fn is_read_beside<R: Wait + Threads + Sync>(rt: &R, owner: &mut TaskOwner) -> bool {
    let Some(mut times) = owner.inspect_times(rt).transpose().ok().flatten() else {
        return false;
    };
    let (polled, shown) = join(
        rt,
        || poll_often(rt, owner),
        || shows_the_first(rt, &mut times),
    );
    let polls = polls_of(&times.read(rt));
    drop(times);
    polled && shown && polls == POLLS
}

#[test]
fn a_reading_is_that_of_the_first_polls(rt: HostRuntime) {
    match timed_task(&rt, rt.alloc(), FIRST, 0) {
        Some(mut owner) => {
            assert!(rt; is_read_beside(&rt, &mut owner));
            drop(owner);
        }
        None => assert!(rt; false, "no task"),
    }
}

// Learns what the owner had seen, and reads.
fn reads_all<R: Wait>(rt: &R, times: &mut TimesInspector, receipt: TimesReceipt) -> u64
    requires { receipt.token.ledger ≡ times.old.token.ledger }
{
    times.learn(rt, receipt);
    polls_of(&times.read(rt))
}

fn learns<R: Wait>(rt: &R, times: &mut TimesInspector, mut receipt: TaskReceipt) -> Option<u64>
    requires { IsOfHistogram receipt.times times.old.token }
{
    let all = receipt.take_times();
    drop(receipt);
    match all {
        Some(all) => Some(reads_all(rt, times, all)),
        None => None,
    }
}

fn closes<R: Wait>(rt: &R, times: &mut TimesInspector, owner: TaskOwner) -> Option<u64>
    requires { IsOfHistogram owner.times times.old.token }
{
    match owner.close(rt, 9).ok() {
        Some(receipt) => learns(rt, times, receipt),
        None => None,
    }
}

fn is_learnt<R: Wait>(rt: &R, mut owner: TaskOwner) -> Option<u64> {
    let Some(Ok(mut times)) = owner.inspect_times(rt) else {
        drop(owner);
        return None;
    };
    let started = owner.start_poll(rt, 5).is_ok();
    let ended = owner.end_poll(rt, 7).is_ok();
    let learnt = closes(rt, &mut times, owner);
    drop(times);
    if started && ended { learnt } else { None }
}

#[test]
fn a_receipt_of_the_owner_has_that_of_its_histogram(rt: HostRuntime) {
    match timed_task(&rt, rt.alloc(), FIRST, 0) {
        Some(owner) => assert!(rt; is_learnt(&rt, owner) == Some(1)),
        None => assert!(rt; false, "no task"),
    }
}
