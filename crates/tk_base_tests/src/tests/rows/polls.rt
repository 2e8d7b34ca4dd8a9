//! Polls of a task: their statistics, and the calls that are refused.

use std::test::*;
use tk_core::{Refusal, Reply, TaskCall, TaskRow};

/// The row that the calls leave, and the last reply.
pub fn run(created: u64, calls: &[TaskCall]) -> (TaskRow, Reply<TaskRow>) {
    let mut row = TaskRow::opening(created);
    let mut reply = Reply::Done;
    for call in calls {
        (row, reply) = row.step(*call);
    }
    (row, reply)
}

/// What a list of calls makes of a task.
struct Poll {
    case: &'static str,
    created: u64,
    calls: &'static [TaskCall],
    polls: u64,
    sched: u64,
    busy: u64,
    scheduled: bool,
}

// Scheduled and busy time: a difference that runs backwards counts as 0, and a sum stays at 2^64 - 1.
#[rattlefmt::skip]
const POLLS: [Poll; 7] = [
    Poll { case: "no call yet", created: 100, calls: &[], polls: 0, sched: 0, busy: 0, scheduled: true },
    Poll { case: "one poll", created: 100, calls: &[TaskCall::PollStart(150), TaskCall::PollEnd(170)],
        polls: 1, sched: 50, busy: 20, scheduled: false },
    Poll { case: "a wake from within", created: 100,
        calls: &[TaskCall::PollStart(150), TaskCall::WakeRef(160, true), TaskCall::PollEnd(170), TaskCall::PollStart(200)],
        polls: 2, sched: 80, busy: 20, scheduled: false },
    Poll { case: "an end before its start", created: 100, calls: &[TaskCall::PollStart(500), TaskCall::PollEnd(400)],
        polls: 1, sched: 400, busy: 0, scheduled: false },
    Poll { case: "a start after an end that ran backwards", created: 100,
        calls: &[TaskCall::PollStart(500), TaskCall::PollEnd(400), TaskCall::WakeRef(450, false), TaskCall::PollStart(460)],
        polls: 2, sched: 410, busy: 0, scheduled: false },
    Poll { case: "a sum stays at the greatest number", created: 0,
        calls: &[TaskCall::PollStart(0), TaskCall::PollEnd(18446744073709551610), TaskCall::WakeRef(0, false),
            TaskCall::PollStart(0), TaskCall::PollEnd(100)],
        polls: 2, sched: 0, busy: 18446744073709551615, scheduled: false },
    Poll { case: "a closed task is not scheduled", created: 100, calls: &[TaskCall::Close(120)],
        polls: 0, sched: 0, busy: 0, scheduled: false },
];

#[test]
fn counts_polls_and_sums_their_times(rt: HostRuntime) {
    for poll in &POLLS {
        let (row, _) = run(poll.created, poll.calls);
        let counted = (row.polls, row.sched, row.busy, row.scheduled);
        assert!(rt;
            counted == (poll.polls, poll.sched, poll.busy, poll.scheduled),
            "{}",
            poll.case
        );
    }
}

// Which calls are refused, and why: the refused call is the last.
#[rattlefmt::skip]
const REFUSED: [(&str, &[TaskCall], Refusal); 7] = [
    ("a second start", &[TaskCall::PollStart(1), TaskCall::PollStart(2)], Refusal::AlreadyPolling),
    ("an end before any start", &[TaskCall::PollEnd(1)], Refusal::NotPolling),
    ("a second end", &[TaskCall::PollStart(1), TaskCall::PollEnd(2), TaskCall::PollEnd(3)], Refusal::NotPolling),
    ("a close during a poll", &[TaskCall::PollStart(1), TaskCall::Close(2)], Refusal::AlreadyPolling),
    ("a start after the close", &[TaskCall::Close(1), TaskCall::PollStart(2)], Refusal::Closed),
    ("an end after the close", &[TaskCall::Close(1), TaskCall::PollEnd(2)], Refusal::Closed),
    ("a second close", &[TaskCall::Close(1), TaskCall::Close(2)], Refusal::Closed),
];

#[test]
fn a_refused_call_leaves_the_row(rt: HostRuntime) {
    for (case, calls, refusal) in REFUSED {
        let before = &calls[..calls.len().saturating_sub(1)];
        let (row, reply) = run(0, calls);
        let (plain, _) = run(0, before);
        assert!(rt; reply == Reply::Refused(refusal) && row == plain, "{case}");
    }
}

#[test]
fn the_close_keeps_its_moment(rt: HostRuntime) {
    let (row, reply) = run(
        100,
        &[
            TaskCall::PollStart(150),
            TaskCall::PollEnd(170),
            TaskCall::Close(180),
        ],
    );
    assert!(rt; reply == Reply::Done && row.dropped == Some(180));
    let polled = (row.first_poll, row.last_started, row.last_ended);
    assert!(rt; polled == (Some(150), Some(150), Some(170)));
}
