//! No lock is held while a work is polled: a work waits inside its poll until an inspector in another thread has read.

use super::given::{Ticks, at_rest, owner};
use futures::task::Poll;
use std::sync::Wait;
use std::sync::atomic::{AtomicBool, Ordering};
use std::thread;
use std::thread::{Threads, join};
use tk_core::TaskRow;
use tk_exec::{Instrumented, Work};
use tk_ledgers::{PollScope, TaskInspector, TaskOwner};

// How often each side looks for the other.
const TURNS: u32 = 1_000_000;

/// What the two threads show one another.
#[derive(Drop)]
struct Flags {
    begun: AtomicBool,
    read: AtomicBool,
}

// Whether the flag was raised within so many turns.
fn wait_for(flag: &AtomicBool) -> bool {
    for _ in 0..TURNS {
        if flag.load(Ordering::SeqCst) {
            return true;
        }
        thread::yield_now();
    }
    false
}

/// A work that is ready with whether its row was read while it was polled.
#[derive(Drop)]
struct Waits<'a> {
    flags: &'a Flags,
}

impl<'a> Work for Waits<'a> {
    ghost use Rattle.std.specs.Prelude.{⊤};

    type Out = bool;

    ghost gives = { λ work out. ⊤ };

    #[tactic(auto, using(tk_ledgers::proofs::ScopeLemmas::scope_same))]
    fn poll<R: Wait>(&mut self, rt: &R, scope: &mut PollScope) -> Poll<bool> {
        self.flags.begun.store(true, Ordering::SeqCst);
        Poll::Ready(wait_for(&self.flags.read))
    }
}

// Polls the work once.
fn poll<'a, R: Wait>(rt: &R, tracked: Instrumented<Waits<'a>>) -> bool {
    let mut tracked = tracked;
    let mut clock = Ticks::new();
    let answer = tracked.poll_once(rt, &mut clock);
    drop(tracked);
    answer == Ok(Poll::Ready(true))
}

// Reads once the poll has begun, and says so.
fn read<R: Wait>(rt: &R, inspector: TaskInspector, flags: &Flags) -> TaskRow {
    let mut inspector = inspector;
    wait_for(&flags.begun);
    let row = inspector.read(rt);
    flags.read.store(true, Ordering::SeqCst);
    drop(inspector);
    row
}

// Polls in one thread, and reads in another.
fn both<R: Wait + Threads + Sync>(
    rt: &R,
    tracked: Instrumented<Waits<'_>>,
    inspector: TaskInspector,
    flags: &Flags,
) -> (bool, TaskRow) {
    join(rt, || poll(rt, tracked), || read(rt, inspector, flags))
}

fn is_read_through<R: Wait + Threads + Sync>(
    rt: &R,
    tracked: Instrumented<Waits<'_>>,
    inspector: TaskInspector,
    flags: &Flags,
) -> bool {
    let (met, row) = both(rt, tracked, inspector, flags);
    met && row.polling
}

// Makes this owner's task of the work, if it has no open poll.
fn is_polled_through<R: Wait + Threads + Sync>(
    rt: &R,
    owner: TaskOwner,
    inspector: TaskInspector,
    flags: &Flags,
) -> bool {
    let tracked = at_rest(owner, Waits { flags });
    match tracked.zip(Some(inspector)) {
        Some((tracked, inspector)) => is_read_through(rt, tracked, inspector, flags),
        None => false,
    }
}

fn is_inspected<R: Wait + Threads + Sync>(rt: &R, mut owner: TaskOwner, flags: &Flags) -> bool {
    match owner.inspect(rt) {
        Ok(inspector) => is_polled_through(rt, owner, inspector, flags),
        Err(_) => {
            drop(owner);
            false
        }
    }
}

#[test]
fn a_row_is_read_while_its_work_is_polled(rt: HostRuntime) {
    let flags = Flags {
        begun: AtomicBool::new(false),
        read: AtomicBool::new(false),
    };
    match owner(&rt, rt.alloc(), 1) {
        Some(owner) => assert!(rt; is_inspected(&rt, owner, &flags)),
        None => assert!(rt; false, "no task"),
    }
}
