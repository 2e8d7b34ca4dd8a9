//! Polls of a task by its owner: statistics, and the calls that are refused.

use super::given::{FIRST, task};
use std::sync::Wait;
use tk_core::{Refusal, TaskRow};
use tk_ledgers::{Origin, TaskInspector, TaskOwner, TaskReceipt};

/// A call of the owner.
#[derive(Clone, Copy)]
enum Step {
    Start(u64),
    End(u64),
    Wake(u64),
}

/// What a list of calls makes of a task.
struct Poll {
    case: &'static str,
    created: u64,
    steps: &'static [Step],
    polls: u64,
    sched: u64,
    busy: u64,
    scheduled: bool,
}

// Scheduled and busy time: a difference that runs backwards counts as 0, and a sum stays at 2^64 - 1.
#[rattlefmt::skip]
const POLLS: [Poll; 4] = [
    Poll { case: "one poll", created: 100, steps: &[Step::Start(150), Step::End(170)],
        polls: 1, sched: 50, busy: 20, scheduled: false },
    Poll { case: "an end before its start", created: 100, steps: &[Step::Start(500), Step::End(400)],
        polls: 1, sched: 400, busy: 0, scheduled: false },
    Poll { case: "a start after an end that ran backwards", created: 100,
        steps: &[Step::Start(500), Step::End(400), Step::Wake(450), Step::Start(460)],
        polls: 2, sched: 410, busy: 0, scheduled: false },
    Poll { case: "busy time stays at the greatest number", created: 0,
        steps: &[Step::Start(0), Step::End(18446744073709551610), Step::Wake(0), Step::Start(0), Step::End(100)],
        polls: 2, sched: 0, busy: 18446744073709551615, scheduled: false },
];

fn run<R: Wait>(rt: &R, owner: &mut TaskOwner, steps: &[Step]) -> Result<TaskRow, Refusal> {
    for step in steps {
        match *step {
            Step::Start(moment) => owner.start_poll(rt, moment)?,
            Step::End(moment) => owner.end_poll(rt, moment)?,
            Step::Wake(moment) => {
                owner.wake_by_ref(rt, moment, Origin::outside());
            }
        }
    }
    Ok(owner.read(rt))
}

fn polls_as<R: Wait>(rt: &R, owner: &mut TaskOwner, poll: &Poll) -> bool {
    match run(rt, owner, poll.steps) {
        Ok(row) => {
            row.polls == poll.polls
                && row.sched == poll.sched
                && row.busy == poll.busy
                && row.scheduled == poll.scheduled
                && owner.is_polling() == row.polling
        }
        Err(_) => false,
    }
}

#[test]
fn polls_by_the_owner(rt: HostRuntime) {
    for poll in &POLLS {
        match task(&rt, rt.alloc(), FIRST, poll.created) {
            Some(mut owner) => {
                assert!(rt; polls_as(&rt, &mut owner, poll), "{}", poll.case);
                drop(owner);
            }
            None => assert!(rt; false, "no task"),
        }
    }
}

fn refuses_an_end<R: Wait>(rt: &R, owner: &mut TaskOwner) -> bool {
    owner.id().value() == FIRST
        && owner.end_poll(rt, 5) == Err(Refusal::NotPolling)
        && !owner.is_polling()
}

fn refuses_a_second_start<R: Wait>(rt: &R, owner: &mut TaskOwner) -> bool {
    owner.start_poll(rt, 10) == Ok(())
        && owner.start_poll(rt, 11) == Err(Refusal::AlreadyPolling)
        && owner.is_polling()
}

// The owner, which comes back from a close that is refused since it is polled.
fn back_from_close<R: Wait>(rt: &R, owner: TaskOwner) -> Option<TaskOwner> {
    let (refusal, owner) = owner.close(rt, 12).err()?;
    (refusal == Refusal::AlreadyPolling).then_some(owner)
}

// Its inspector, once its poll is ended.
fn inspector_behind_the_poll<R: Wait>(rt: &R, owner: &mut TaskOwner) -> Option<TaskInspector> {
    if !owner.is_polling() {
        return None;
    }
    owner.end_poll(rt, 13).ok()?;
    owner.inspect(rt).ok()
}

fn is_of_first(receipt: &TaskReceipt) -> bool {
    receipt.task().value() == FIRST
}

fn closes<R: Wait>(rt: &R, owner: TaskOwner) -> bool {
    match owner.close(rt, 14).ok() {
        Some(receipt) => {
            let is_of_it = is_of_first(&receipt);
            drop(receipt);
            is_of_it
        }
        None => false,
    }
}

fn closes_behind_its_poll<R: Wait>(rt: &R, mut owner: TaskOwner) -> bool {
    match inspector_behind_the_poll(rt, &mut owner) {
        Some(mut inspector) => {
            let closed = closes(rt, owner);
            let row = inspector.read(rt);
            drop(inspector);
            closed && row.dropped == Some(14)
        }
        None => {
            drop(owner);
            false
        }
    }
}

fn is_refused_and_then_closed<R: Wait>(rt: &R, owner: TaskOwner) -> bool {
    match back_from_close(rt, owner) {
        Some(owner) => closes_behind_its_poll(rt, owner),
        None => false,
    }
}

#[test]
fn refuses_in_the_wrong_state(rt: HostRuntime) {
    match task(&rt, rt.alloc(), FIRST, 0) {
        Some(mut owner) => {
            assert!(rt; refuses_an_end(&rt, &mut owner));
            assert!(rt; refuses_a_second_start(&rt, &mut owner));
            assert!(rt; is_refused_and_then_closed(&rt, owner));
        }
        None => assert!(rt; false, "no task"),
    }
}
