//! How long a task waits for its polls, where that is counted.

use std::test::*;
use tk_core::{TaskCall, TaskRow, WaitSoFar, Waits};

/// What a list of calls makes of a task whose waits are counted: the sums, what is counted of its last wait, and what is told at a
/// moment: of all waits, and of a task that waits, since when and how long.
struct Waiting {
    case: &'static str,
    calls: &'static [TaskCall],
    sched: u64,
    waited: u64,
    so_far: u64,
    now: u64,
    until: u64,
    wait: Option<(u64, u64)>,
}

// Each of a task that was created at 100.
#[rattlefmt::skip]
const WAITS: [Waiting; 23] = [
    Waiting { case: "no call yet", calls: &[], sched: 0, waited: 0, so_far: 0, now: 150, until: 50, wait: Some((100, 50)) },
    Waiting { case: "told before its creation", calls: &[], sched: 0, waited: 0, so_far: 0, now: 50, until: 0, wait: Some((100, 0)) },
    Waiting { case: "the first poll", calls: &[TaskCall::PollStart(110)], sched: 10, waited: 10, so_far: 10, now: 150, until: 10, wait: None },
    Waiting { case: "woken before its first poll", calls: &[TaskCall::WakeRef(140, false), TaskCall::PollStart(150)],
        sched: 10, waited: 50, so_far: 50, now: 200, until: 50, wait: None },
    Waiting { case: "woken again and again while it waits", calls: &[TaskCall::PollStart(100), TaskCall::PollEnd(120),
        TaskCall::WakeRef(200, false), TaskCall::WakeRef(260, false), TaskCall::WakeVal(290, false), TaskCall::PollStart(300)],
        sched: 10, waited: 100, so_far: 100, now: 400, until: 100, wait: None },
    Waiting { case: "still waiting", calls: &[TaskCall::PollStart(100), TaskCall::PollEnd(120),
        TaskCall::WakeRef(200, false), TaskCall::WakeRef(260, false)],
        sched: 0, waited: 60, so_far: 60, now: 300, until: 100, wait: Some((200, 100)) },
    Waiting { case: "woken during a poll", calls: &[TaskCall::PollStart(100), TaskCall::WakeRef(110, true), TaskCall::WakeRef(115, false),
        TaskCall::PollEnd(120), TaskCall::PollStart(150)],
        sched: 30, waited: 30, so_far: 30, now: 200, until: 30, wait: None },
    Waiting { case: "woken during a poll, and again after its end", calls: &[TaskCall::PollStart(100), TaskCall::WakeRef(110, true),
        TaskCall::PollEnd(120), TaskCall::WakeRef(140, false), TaskCall::PollStart(150)],
        sched: 10, waited: 30, so_far: 30, now: 200, until: 30, wait: None },
    Waiting { case: "woken during a poll that is open", calls: &[TaskCall::PollStart(100), TaskCall::WakeRef(110, true)],
        sched: 0, waited: 0, so_far: 0, now: 200, until: 0, wait: None },
    Waiting { case: "a wake before its creation", calls: &[TaskCall::WakeRef(50, false), TaskCall::PollStart(130)],
        sched: 30, waited: 30, so_far: 30, now: 200, until: 30, wait: None },
    Waiting { case: "a wake after the end that it came before", calls: &[TaskCall::PollStart(100), TaskCall::WakeRef(150, false),
        TaskCall::PollEnd(140), TaskCall::PollStart(170)],
        sched: 20, waited: 20, so_far: 20, now: 200, until: 20, wait: None },
    Waiting { case: "a start before the last wake", calls: &[TaskCall::PollStart(100), TaskCall::PollEnd(110),
        TaskCall::WakeRef(200, false), TaskCall::WakeRef(250, false), TaskCall::PollStart(220)],
        sched: 0, waited: 50, so_far: 50, now: 300, until: 50, wait: None },
    Waiting { case: "an earlier wake comes later", calls: &[TaskCall::PollStart(100), TaskCall::PollEnd(110),
        TaskCall::WakeRef(200, false), TaskCall::WakeRef(150, false), TaskCall::PollStart(220)],
        sched: 20, waited: 20, so_far: 20, now: 300, until: 20, wait: None },
    Waiting { case: "closed while it waits", calls: &[TaskCall::PollStart(100), TaskCall::PollEnd(110),
        TaskCall::WakeRef(200, false), TaskCall::WakeRef(250, false), TaskCall::Close(300)],
        sched: 0, waited: 100, so_far: 100, now: 400, until: 100, wait: None },
    Waiting { case: "a wake after the close", calls: &[TaskCall::Close(130), TaskCall::WakeRef(200, false)],
        sched: 0, waited: 30, so_far: 30, now: 400, until: 30, wait: None },
    Waiting { case: "closed while it is idle", calls: &[TaskCall::PollStart(100), TaskCall::PollEnd(110), TaskCall::Close(300)],
        sched: 0, waited: 0, so_far: 0, now: 400, until: 0, wait: None },
    Waiting { case: "the sum stays at the greatest number", calls: &[TaskCall::PollStart(18446744073709551610), TaskCall::PollEnd(0),
        TaskCall::WakeRef(100, false), TaskCall::WakeRef(900, false)],
        sched: 18446744073709551510, waited: 18446744073709551615, so_far: 800, now: 900, until: 18446744073709551615, wait: Some((100, 800)) },
    Waiting { case: "woken before its first poll, and still waiting", calls: &[TaskCall::WakeRef(140, false)],
        sched: 0, waited: 40, so_far: 40, now: 150, until: 50, wait: Some((100, 50)) },
    Waiting { case: "an earlier wake while it waits", calls: &[TaskCall::PollStart(100), TaskCall::PollEnd(110),
        TaskCall::WakeRef(200, false), TaskCall::WakeRef(150, false)],
        sched: 0, waited: 0, so_far: 0, now: 220, until: 20, wait: Some((200, 20)) },
    Waiting { case: "waiting anew after a poll", calls: &[TaskCall::PollStart(100), TaskCall::PollEnd(110),
        TaskCall::WakeRef(200, false), TaskCall::WakeRef(260, false), TaskCall::PollStart(300), TaskCall::PollEnd(310),
        TaskCall::WakeRef(400, false)],
        sched: 40, waited: 100, so_far: 0, now: 450, until: 150, wait: Some((400, 50)) },
    Waiting { case: "waiting from the end of a poll in which it was woken", calls: &[TaskCall::PollStart(100), TaskCall::WakeRef(110, true),
        TaskCall::PollEnd(120), TaskCall::WakeVal(140, false), TaskCall::WakeRef(145, false)],
        sched: 0, waited: 25, so_far: 25, now: 150, until: 30, wait: Some((120, 30)) },
    Waiting { case: "a start that is refused changes nothing", calls: &[TaskCall::PollStart(100), TaskCall::WakeRef(110, true),
        TaskCall::PollStart(115), TaskCall::PollEnd(120), TaskCall::WakeRef(150, false)],
        sched: 0, waited: 30, so_far: 30, now: 160, until: 40, wait: Some((120, 40)) },
    Waiting { case: "a wait of 2^56 nanoseconds", calls: &[TaskCall::PollStart(100), TaskCall::PollEnd(110),
        TaskCall::WakeRef(200, false), TaskCall::WakeRef(72057594037928136, false)],
        sched: 0, waited: 72057594037927936, so_far: 72057594037927935,
        now: 72057594037928236, until: 72057594037928036, wait: Some((201, 72057594037927935)) },
];

fn run(opening: TaskRow, calls: &[TaskCall]) -> TaskRow {
    let mut row = opening;
    for call in calls {
        let (next, _) = row.step(*call);
        row = next;
    }
    row
}

#[test]
fn a_task_that_is_woken_again_waits_on(rt: HostRuntime) {
    for wait in &WAITS {
        let row = run(TaskRow::counting(100), wait.calls);
        assert!(rt;
            (row.sched, row.waited()) == (wait.sched, Some(wait.waited)),
            "{}",
            wait.case
        );
        assert!(rt;
            row.waited_until(wait.now) == Some(wait.until),
            "{}",
            wait.case
        );
    }
}

#[test]
fn a_task_that_is_woken_again_waits_since_the_same_moment(rt: HostRuntime) {
    for wait in &WAITS {
        let row = run(TaskRow::counting(100), wait.calls);
        let so_far = row.waits.map(|waits| waits.so_far.nanos());
        assert!(rt; so_far == Some(wait.so_far), "{}", wait.case);
        let (since, long) = (row.waiting_since(), row.wait_ended_by(wait.now));
        assert!(rt; since.zip(long) == wait.wait, "{}", wait.case);
        assert!(rt; since.is_some() == long.is_some(), "{}", wait.case);
    }
}

#[test]
fn counting_shows_nowhere_else(rt: HostRuntime) {
    for wait in &WAITS {
        let row = run(TaskRow::counting(100), wait.calls);
        let plain = run(TaskRow::opening(100), wait.calls);
        assert!(rt; TaskRow { waits: None, ..row } == plain, "{}", wait.case);
        assert!(rt; plain.waited_until(wait.now) == None, "{}", wait.case);
        assert!(rt; plain.waiting_since() == None, "{}", wait.case);
        assert!(rt; plain.wait_ended_by(wait.now) == None, "{}", wait.case);
    }
}

// A task that is scheduled and woken once: bit 7 says that it counts, and from bit 8 on stands what was counted of its wait.
const FLAGS: u64 = 64 + 16 + 128;

fn counted(flags: u64, total: u64) -> [u64; 16] {
    [flags, 7, 0, 0, 0, 0, 0, 0, 1, 0, 12, 0, 0, 0, 0, total]
}

#[test]
fn what_is_counted_has_a_flag_bits_and_a_word(rt: HostRuntime) {
    let row = run(TaskRow::counting(7), &[TaskCall::WakeRef(12, false)]);
    let words = counted(FLAGS + 256 * 5, 5);
    assert!(rt; row.to_words() == words);
    assert!(rt; TaskRow::from_words(&words) == Some(row));
    for so_far in [0, 4, 6, 72057594037927935] {
        let waits = Some(Waits {
            total: 5,
            so_far: WaitSoFar::capped(so_far),
        });
        let row = TaskRow { waits, ..row };
        let words = counted(FLAGS + 256 * so_far, 5);
        assert!(rt; row.to_words() == words, "{so_far}");
        assert!(rt; TaskRow::from_words(&words) == Some(row), "{so_far}");
    }
}

#[test]
fn what_is_not_counted_has_no_bits_and_no_word(rt: HostRuntime) {
    for (case, stray) in [
        ("a sum", counted(FLAGS - 128, 5)),
        ("a wait", counted(FLAGS - 128 + 256 * 5, 0)),
        ("both", counted(FLAGS - 128 + 256 * 5, 5)),
        (
            "the longest wait",
            counted(FLAGS - 128 + 256 * 72057594037927935, 0),
        ),
    ] {
        assert!(rt; TaskRow::from_words(&stray) == None, "{case}");
    }
}

#[test]
fn a_wait_is_below_two_to_the_56(rt: HostRuntime) {
    for (nanos, new, capped) in [
        (0, Some(0), 0),
        (
            72057594037927935,
            Some(72057594037927935),
            72057594037927935,
        ),
        (72057594037927936, None, 72057594037927935),
        (18446744073709551615, None, 72057594037927935),
    ] {
        let made = WaitSoFar::new(nanos).map(|wait| wait.nanos());
        assert!(rt; made == new, "{nanos}");
        assert!(rt; WaitSoFar::capped(nanos).nanos() == capped, "{nanos}");
    }
}
