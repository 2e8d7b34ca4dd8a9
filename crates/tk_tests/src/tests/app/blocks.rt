//! Blocks of threads: what their calls make of a task's statistics, what stops a script at them, and the gate that their
//! threads pass.

use super::given::{assert_all_stop, assert_are_bad, assert_runs, is_text_of, text_of};
use super::rows::assert_all_tell;
use std::sync::Wait;
use std::sync::atomic::{AtomicBool, AtomicU64, Ordering};
use std::thread;
use std::thread::Threads;
use tk_app::{Gate, run_script};

// One waker stays and one is spent.
const WOKEN_BY_BOTH: &str =
    r#"{"busy":0,"clones":2,"created":100,"dropped":null,"drops":1,"first_poll":null,"handles":3,"id":1099511627777,"last_ended":null,"last_started":null,"last_wake":160,"polling":false,"polls":0,"sched":0,"scheduled":true,"self_wakes":0,"wakes":2}"#;

// Woken twice by the one waker, in a block and after it, and once by the other.
const WOKEN_AGAIN: &str =
    r#"{"busy":0,"clones":2,"created":100,"dropped":null,"drops":1,"first_poll":null,"handles":3,"id":1099511627777,"last_ended":null,"last_started":null,"last_wake":180,"polling":false,"polls":0,"sched":0,"scheduled":true,"self_wakes":0,"wakes":3}"#;

// Both were dropped without a wake.
const RELEASED_BY_BOTH: &str =
    r#"{"busy":0,"clones":2,"created":100,"dropped":null,"drops":2,"first_poll":null,"handles":3,"id":1099511627777,"last_ended":null,"last_started":null,"last_wake":null,"polling":false,"polls":0,"sched":0,"scheduled":true,"self_wakes":0,"wakes":0}"#;

// What blocks make of a task's statistics.
#[rattlefmt::skip]
const ROWS: [(&str, &[u8], &str); 6] = [
    ("a wake of each", b"task 100 spawn main\nclone 1\nclone 1\npar\n1 wakeref 1 150\n2 wake 2 160\njoin\npublish 200", WOKEN_BY_BOTH),
    ("one worker alone", b"task 100 spawn main\nclone 1\nclone 1\npar\n2 wakeref 1 150\n2 wake 2 160\njoin\npublish 200", WOKEN_BY_BOTH),
    ("a number with a zero in front", b"task 100 spawn main\nclone 1\nclone 1\npar\n01 wakeref 1 150\n01 wake 2 160\njoin\npublish 200", WOKEN_BY_BOTH),
    ("lines that are skipped", b"task 100 spawn main\nclone 1\nclone 1\npar\n\n1 wakeref 1 150\n# the other\n2 wake 2 160\n\njoin\npublish 200", WOKEN_BY_BOTH),
    ("a waker that comes back", b"task 100 spawn main\nclone 1\nclone 1\npar\n1 wakeref 1 150\n2 wake 2 160\njoin\nwakeref 1 180\npublish 200", WOKEN_AGAIN),
    ("releases", b"task 100 spawn main\nclone 1\nclone 1\npar\n1 release 1\n2 release 2\njoin\npublish 200", RELEASED_BY_BOTH),
];

#[test]
fn blocks_change_the_statistics(rt: HostRuntime) {
    assert_all_tell(&rt, ROWS.as_slice());
}

// Blocks without lines start no thread, and may follow each other.
#[test]
fn blocks_may_be_empty(rt: HostRuntime) {
    assert_runs(
        &rt,
        "two blocks",
        b"par\njoin\npar\n# nothing\njoin\n",
        "",
        &[],
    );
}

// No commands, outside of blocks as in them.
#[test]
fn workers_have_three_commands(rt: HostRuntime) {
    assert_are_bad(
        &rt,
        &[
            b"join".as_slice(),
            b"par 1".as_slice(),
            b"join 1".as_slice(),
            b"1".as_slice(),
            b"1 wakeref 1 5".as_slice(),
        ],
    );
}

// Each script stops at its last command, or at its last line where a block is open after it.
#[rattlefmt::skip]
const STOPS: [(&str, &[u8], &str); 26] = [
    ("a block in a block", b"par\npar\n", "line 2: BadCommand"),
    ("a line of the stream in a block", b"par\npublish 5\n", "line 2: BadCommand"),
    ("a waker's call by no worker", b"task 0 spawn a\nclone 1\npar\nwakeref 1 5\njoin\n", "line 4: BadCommand"),
    ("a clone by a worker", b"task 0 spawn a\nclone 1\npar\n1 again 1\njoin\n", "line 4: BadCommand"),
    ("an unknown word in a block", b"par\nwait\njoin\n", "line 2: BadCommand"),
    ("a third worker", b"task 0 spawn a\nclone 1\npar\n3 wakeref 1 5\njoin\n", "line 4: BadCommand"),
    ("no worker", b"task 0 spawn a\nclone 1\npar\n0 wakeref 1 5\njoin\n", "line 4: BadCommand"),
    ("a wake without a moment", b"task 0 spawn a\nclone 1\npar\n1 wakeref 1\njoin\n", "line 4: BadCommand"),
    ("a release with a moment", b"task 0 spawn a\nclone 1\npar\n1 release 1 5\njoin\n", "line 4: BadCommand"),
    ("a capacity after a block", b"par\njoin\ncapacity 5\n", "line 3: BadCommand"),
    ("a worker after a block", b"task 0 spawn a\nclone 1\npar\njoin\n1 wakeref 1 5\n", "line 5: BadCommand"),
    ("a second join", b"par\njoin\njoin\n", "line 3: BadCommand"),
    ("no join", b"par\n", "line 1: BadCommand"),
    ("no join, and no line end", b"par", "line 1: BadCommand"),
    ("no join after a comment", b"par\n\n# the end\n", "line 3: BadCommand"),
    ("no join after an empty line", b"par\n# the end\n\n", "line 3: BadCommand"),
    ("no join after a worker", b"task 0 spawn a\nclone 1\npar\n1 wakeref 1 5\n# the end", "line 5: BadCommand"),
    ("a waker of both", b"task 0 spawn a\nclone 1\npar\n1 wakeref 1 5\n2 wakeref 1 5\njoin\n", "line 5: BadCommand"),
    ("a waker of both that the first spends", b"task 0 spawn a\nclone 1\npar\n2 wake 1 5\n1 release 1\njoin\n", "line 5: BadCommand"),
    ("a waker that was not made", b"par\n1 wakeref 1 5\njoin\n", "line 2: NoSuchItem"),
    ("waker 0", b"task 0 spawn a\nclone 1\npar\n1 wakeref 0 5\njoin\n", "line 4: NoSuchItem"),
    ("a waker that is spent", b"task 0 spawn a\nclone 1\nrelease 1\npar\n1 wakeref 1 5\njoin\n", "line 5: NoSuchItem"),
    ("a waker that the block releases", b"task 0 spawn a\nclone 1\npar\n1 release 1\n1 wakeref 1 5\njoin\n", "line 5: NoSuchItem"),
    ("a waker that the block wakes by", b"task 0 spawn a\nclone 1\npar\n2 wakeref 1 4\n2 wake 1 5\n2 wake 1 5\njoin\n", "line 6: NoSuchItem"),
    ("a waker that a block released", b"task 0 spawn a\nclone 1\npar\n1 release 1\njoin\nwakeref 1 5\n", "line 6: NoSuchItem"),
    ("a waker that a block woke by", b"task 0 spawn a\nclone 1\npar\n2 wake 1 5\njoin\npar\n1 wakeref 1 6\njoin\n", "line 7: NoSuchItem"),
];

#[test]
fn blocks_stop_at_their_lines(rt: HostRuntime) {
    assert_all_stop(&rt, STOPS.as_slice());
}

// Whether the script stops under this gate at this fault, or at none where its text is empty, and has written this text.
fn runs_to<R: Threads + Wait + Sync + AllocGlobal, G: Gate + Sync>(
    rt: &R,
    gate: &G,
    script: &'static [u8],
    fault: &str,
    wanted: &str,
) -> bool {
    let mut reader = script;
    let mut written = Vec::new(rt.alloc());
    let is_wanted = match run_script(rt, rt.alloc(), &mut reader, &mut written, gate) {
        Ok(()) => fault.is_empty(),
        Err(stop) => is_text_of(rt.alloc(), stop, fault),
    };
    is_wanted && written.as_slice() == wanted.as_bytes()
}

// Whether it does, and has written these lines.
fn runs_under<R: Threads + Wait + Sync + AllocGlobal, G: Gate + Sync>(
    rt: &R,
    gate: &G,
    script: &'static [u8],
    fault: &str,
    lines: &[&str],
) -> bool {
    match text_of(rt.alloc(), lines) {
        Some(wanted) => runs_to(rt, gate, script, fault, wanted.as_str()),
        None => false,
    }
}

// A block with three lines of worker 1 and two of worker 2, and a line of the stream after it.
const BOTH: &[u8] =
    b"task 0 spawn a\nclone 1\nclone 1\npar\n1 wakeref 1 5\n2 wakeref 2 6\n1 wakeref 1 7\n2 wake 2 8\n1 release 1\njoin\npublish 9\n";

/// A gate that is closed to one worker.
struct ClosedTo(u64);

impl Gate for ClosedTo {
    ghost use Rattle.std.specs.Prelude.{⊤};

    ghost answers = { λ gate k answer. ⊤ };

    fn pass(&self, k: u64) -> bool {
        k != self.0
    }
}

// The script stops at the `join`, and nothing after it is done. A gate that is closed to a worker without lines stops nothing.
#[test]
fn a_closed_gate_stops_the_script_at_the_join(rt: HostRuntime) {
    assert!(rt;
        runs_under(&rt, &ClosedTo(1), BOTH, "line 10: Stopped", &[]),
        "a gate closed to worker 1"
    );
    assert!(rt;
        runs_under(&rt, &ClosedTo(2), BOTH, "line 10: Stopped", &[]),
        "a gate closed to worker 2"
    );
    assert!(rt;
        runs_under(
            &rt,
            &ClosedTo(2),
            b"task 0 spawn a\nclone 1\npar\n1 release 1\njoin\n",
            "",
            &[]
        ),
        "a gate closed to a worker without lines"
    );
}

/// An open gate that counts how often each worker came to it.
#[derive(Drop)]
struct Counting {
    one: AtomicU64,
    two: AtomicU64,
}

impl Gate for Counting {
    ghost use Rattle.std.specs.Prelude.{⊤};

    ghost answers = { λ gate k answer. ⊤ };

    fn pass(&self, k: u64) -> bool {
        let count = if k == 1 { &self.one } else { &self.two };
        count.fetch_add(1, Ordering::SeqCst);
        true
    }
}

fn asks_before_each<R: Threads + Wait + Sync + AllocGlobal>(rt: &R) -> bool {
    let gate = Counting {
        one: AtomicU64::new(0),
        two: AtomicU64::new(0),
    };
    let mut reader = BOTH;
    let mut written = Vec::new(rt.alloc());
    run_script(rt, rt.alloc(), &mut reader, &mut written, &gate).is_ok()
        && gate.one.load(Ordering::SeqCst) == 3
        && gate.two.load(Ordering::SeqCst) == 2
}

#[test]
fn each_command_passes_the_gate(rt: HostRuntime) {
    assert!(rt; asks_before_each(&rt));
}

// How often a thread looks for the other.
const TURNS: u32 = 1_000_000;

fn waits_for(flag: &AtomicBool) -> bool {
    for _ in 0..TURNS {
        if flag.load(Ordering::SeqCst) {
            return true;
        }
        thread::yield_now();
    }
    false
}

/// A gate that each of two threads passes once the other has come to it.
#[derive(Drop)]
struct Meeting {
    one: AtomicBool,
    two: AtomicBool,
}

impl Gate for Meeting {
    ghost use Rattle.std.specs.Prelude.{⊤};

    ghost answers = { λ gate k answer. ⊤ };

    fn pass(&self, k: u64) -> bool {
        if k == 1 {
            self.one.store(true, Ordering::SeqCst);
            waits_for(&self.two)
        } else {
            self.two.store(true, Ordering::SeqCst);
            waits_for(&self.one)
        }
    }
}

// A block whose threads have to meet, and the line after it.
const MEETS: &[u8] =
    b"task 0 spawn a\nclone 1\nclone 1\npar\n1 wakeref 1 5\n2 wake 2 6\njoin\npublish 9\n";

const MET: &str =
    r#"{"dropped":[0,0,0],"new_ops":[],"new_resources":[],"new_tasks":[{"id":1099511627777,"kind":"spawn","loc":["script",1,1],"name":"a"}],"now":9,"op_stats":[],"poll_counts":[],"resource_stats":[],"seq":1,"snapshot":false,"task_stats":[{"busy":0,"clones":2,"created":0,"dropped":null,"drops":1,"first_poll":null,"handles":3,"id":1099511627777,"last_ended":null,"last_started":null,"last_wake":6,"polling":false,"polls":0,"sched":0,"scheduled":true,"self_wakes":0,"wakes":2}],"v":1}"#;

#[test]
fn the_threads_of_a_block_meet(rt: HostRuntime) {
    let gate = Meeting {
        one: AtomicBool::new(false),
        two: AtomicBool::new(false),
    };
    assert!(rt; runs_under(&rt, &gate, MEETS, "", &[MET]));
}
