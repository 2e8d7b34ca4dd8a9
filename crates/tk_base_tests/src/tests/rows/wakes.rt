//! Wakes, wakers and other handles.

use super::polls::run;
use std::test::*;
use tk_core::{MOST_HANDLES, Refusal, Reply, Sequential, TaskCall, TaskRow, WakeReply};

/// What a list of calls on a task created at 100 leaves, and the reply to the last.
struct Wake {
    case: &'static str,
    calls: &'static [TaskCall],
    reply: Reply<TaskRow>,
    wakes: u64,
    self_wakes: u64,
    clones: u64,
    drops: u64,
    last_wake: Option<u64>,
}

// A wake by value is one wake and one drop; a wake counts wherever it found the task.
#[rattlefmt::skip]
const WAKES: [Wake; 8] = [
    Wake { case: "a waker is cloned", calls: &[TaskCall::PollStart(150), TaskCall::PollEnd(170), TaskCall::CloneWaker],
        reply: Reply::Number(1), wakes: 0, self_wakes: 0, clones: 1, drops: 0, last_wake: None },
    Wake { case: "a wake by value uses the waker up",
        calls: &[TaskCall::PollStart(150), TaskCall::PollEnd(170), TaskCall::CloneWaker, TaskCall::WakeVal(300, false)],
        reply: Reply::Woken(WakeReply::Scheduled), wakes: 1, self_wakes: 0, clones: 1, drops: 1, last_wake: Some(300) },
    Wake { case: "a first wake by reference schedules",
        calls: &[TaskCall::PollStart(150), TaskCall::PollEnd(170), TaskCall::CloneWaker, TaskCall::WakeRef(300, false)],
        reply: Reply::Woken(WakeReply::Scheduled), wakes: 1, self_wakes: 0, clones: 1, drops: 0, last_wake: Some(300) },
    Wake { case: "a second one finds it scheduled",
        calls: &[TaskCall::PollStart(150), TaskCall::PollEnd(170), TaskCall::CloneWaker, TaskCall::WakeRef(300, false), TaskCall::WakeRef(310, false)],
        reply: Reply::Woken(WakeReply::Already), wakes: 2, self_wakes: 0, clones: 1, drops: 0, last_wake: Some(310) },
    Wake { case: "one after the close finds it gone",
        calls: &[TaskCall::PollStart(150), TaskCall::PollEnd(170), TaskCall::CloneWaker, TaskCall::WakeRef(300, false),
            TaskCall::WakeRef(310, false), TaskCall::Close(400), TaskCall::WakeRef(500, false)],
        reply: Reply::Woken(WakeReply::Gone), wakes: 3, self_wakes: 0, clones: 1, drops: 0, last_wake: Some(500) },
    Wake { case: "a release drops the waker without a wake",
        calls: &[TaskCall::PollStart(150), TaskCall::PollEnd(170), TaskCall::CloneWaker, TaskCall::Release],
        reply: Reply::Done, wakes: 0, self_wakes: 0, clones: 1, drops: 1, last_wake: None },
    Wake { case: "a wake from within is a self-wake",
        calls: &[TaskCall::PollStart(150), TaskCall::WakeRef(160, true)],
        reply: Reply::Woken(WakeReply::Scheduled), wakes: 1, self_wakes: 1, clones: 0, drops: 0, last_wake: Some(160) },
    Wake { case: "an earlier wake leaves the last one",
        calls: &[TaskCall::WakeRef(300, false), TaskCall::WakeRef(200, false)],
        reply: Reply::Woken(WakeReply::Already), wakes: 2, self_wakes: 0, clones: 0, drops: 0, last_wake: Some(300) },
];

#[test]
fn counts_wakes_clones_and_drops(rt: HostRuntime) {
    for wake in &WAKES {
        let (row, reply) = run(100, wake.calls);
        assert!(rt; reply == wake.reply, "{}", wake.case);
        assert!(rt;
            (
                row.wakes,
                row.self_wakes,
                row.clones,
                row.drops,
                row.last_wake
            ) == (
                wake.wakes,
                wake.self_wakes,
                wake.clones,
                wake.drops,
                wake.last_wake
            ),
            "{}",
            wake.case
        );
    }
}

#[test]
fn numbers_of_handles_rise_by_one(rt: HostRuntime) {
    let calls = [TaskCall::CloneWaker, TaskCall::Enlist, TaskCall::CloneWaker];
    for n in 0..3 {
        let (row, reply) = run(0, &calls[..=n]);
        assert!(rt; reply == Reply::Number(n as u64 + 1));
        assert!(rt; row.handles == n as u64 + 1);
    }
}

// A row of which as many handles were drawn as there may be.
fn spent() -> TaskRow {
    TaskRow {
        handles: MOST_HANDLES,
        ..TaskRow::opening(0)
    }
}

#[test]
fn no_more_handles_than_the_limit(rt: HostRuntime) {
    for call in [TaskCall::CloneWaker, TaskCall::Enlist] {
        assert!(rt; spent().step(call) == (spent(), Reply::Refused(Refusal::HandlesSpent)));
    }
    assert!(rt; spent().step(TaskCall::Read) == (spent(), Reply::Shown(spent())));
}

/// A step through the bound alone.
fn stepped<S: Sequential>(row: &S, call: S::Call) -> (S, S::Reply) {
    row.step(call)
}

#[test]
fn a_task_is_stepped_through_the_trait(rt: HostRuntime) {
    let (row, reply) = stepped(&TaskRow::opening(7), TaskCall::CloneWaker);
    assert!(rt; reply == Reply::Number(1));
    assert!(rt; (row.clones, row.handles) == (1, 1));
}
