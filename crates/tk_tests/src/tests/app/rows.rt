//! The statistics of a task after its owner's calls, as a line tells them.

use super::given::runs;
use std::process::Abort;
use std::sync::Wait;
use std::thread::Threads;

// A line that tells of one new task, up to the task's statistics and after them.
const HEAD: &str =
    r#"{"dropped":[0,0,0],"new_ops":[],"new_resources":[],"new_tasks":[{"id":1099511627777,"kind":"spawn","loc":["script",1,1],"name":"main"}],"now":200,"op_stats":[],"poll_counts":[],"resource_stats":[],"seq":1,"snapshot":false,"task_stats":["#;

const TAIL: &str = r#"],"v":1}"#;

// Scheduled since it was created.
const WAITING: &str =
    r#"{"busy":0,"clones":0,"created":100,"dropped":null,"drops":0,"first_poll":null,"handles":1,"id":1099511627777,"last_ended":null,"last_started":null,"last_wake":null,"polling":false,"polls":0,"sched":0,"scheduled":true,"self_wakes":0,"wakes":0}"#;

// Scheduled from 100 to 150, and polled since.
const POLLING: &str =
    r#"{"busy":0,"clones":0,"created":100,"dropped":null,"drops":0,"first_poll":150,"handles":1,"id":1099511627777,"last_ended":null,"last_started":150,"last_wake":null,"polling":true,"polls":1,"sched":50,"scheduled":false,"self_wakes":0,"wakes":0}"#;

// Scheduled from 100 to 150, and polled from 150 to 170.
const POLLED: &str =
    r#"{"busy":20,"clones":0,"created":100,"dropped":null,"drops":0,"first_poll":150,"handles":1,"id":1099511627777,"last_ended":170,"last_started":150,"last_wake":null,"polling":false,"polls":1,"sched":50,"scheduled":false,"self_wakes":0,"wakes":0}"#;

// Nobody woke it between its polls, so the second came without a wait.
const POLLED_TWICE: &str =
    r#"{"busy":50,"clones":0,"created":100,"dropped":null,"drops":0,"first_poll":150,"handles":1,"id":1099511627777,"last_ended":230,"last_started":200,"last_wake":null,"polling":false,"polls":2,"sched":50,"scheduled":false,"self_wakes":0,"wakes":0}"#;

// A poll that ended before it started took no time.
const POLLED_BACKWARDS: &str =
    r#"{"busy":0,"clones":0,"created":100,"dropped":null,"drops":0,"first_poll":500,"handles":1,"id":1099511627777,"last_ended":400,"last_started":500,"last_wake":null,"polling":false,"polls":1,"sched":400,"scheduled":false,"self_wakes":0,"wakes":0}"#;

// A poll that started before the task was created came without a wait.
const POLLED_EARLY: &str =
    r#"{"busy":10,"clones":0,"created":100,"dropped":null,"drops":0,"first_poll":50,"handles":1,"id":1099511627777,"last_ended":60,"last_started":50,"last_wake":null,"polling":false,"polls":1,"sched":0,"scheduled":false,"self_wakes":0,"wakes":0}"#;

// A sum stays at the greatest number.
const BUSY_FOR_EVER: &str =
    r#"{"busy":18446744073709551615,"clones":0,"created":0,"dropped":null,"drops":0,"first_poll":0,"handles":1,"id":1099511627777,"last_ended":100,"last_started":0,"last_wake":null,"polling":false,"polls":2,"sched":0,"scheduled":false,"self_wakes":0,"wakes":0}"#;

// Created after the moment of the line that tells of it.
const AHEAD: &str =
    r#"{"busy":0,"clones":0,"created":999,"dropped":null,"drops":0,"first_poll":null,"handles":1,"id":1099511627777,"last_ended":null,"last_started":null,"last_wake":null,"polling":false,"polls":0,"sched":0,"scheduled":true,"self_wakes":0,"wakes":0}"#;

// Closed before any poll.
const CLOSED: &str =
    r#"{"busy":0,"clones":0,"created":100,"dropped":120,"drops":0,"first_poll":null,"handles":1,"id":1099511627777,"last_ended":null,"last_started":null,"last_wake":null,"polling":false,"polls":0,"sched":0,"scheduled":false,"self_wakes":0,"wakes":0}"#;

// Closed after a poll.
const POLLED_AND_CLOSED: &str =
    r#"{"busy":20,"clones":0,"created":100,"dropped":180,"drops":0,"first_poll":150,"handles":1,"id":1099511627777,"last_ended":170,"last_started":150,"last_wake":null,"polling":false,"polls":1,"sched":50,"scheduled":false,"self_wakes":0,"wakes":0}"#;

const ENDLESS_POLL: &[u8] =
    b"task 0 spawn main\nstart 1 0\nend 1 18446744073709551610\nstart 1 0\nend 1 100\npublish 200";

// What the owner's calls make of a task's statistics.
#[rattlefmt::skip]
const ROWS: [(&str, &[u8], &str); 10] = [
    ("no call",                     b"task 100 spawn main
publish 200",                                                 WAITING),
    ("a creation after the line",   b"task 999 spawn main
publish 200",                                                 AHEAD),
    ("a start",                     b"task 100 spawn main
start 1 150
publish 200",                                    POLLING),
    ("a poll",                      b"task 100 spawn main
start 1 150
end 1 170
publish 200",                         POLLED),
    ("two polls",                   b"task 100 spawn main
start 1 150
end 1 170
start 1 200
end 1 230
publish 200", POLLED_TWICE),
    ("an end before its start",     b"task 100 spawn main
start 1 500
end 1 400
publish 200",                         POLLED_BACKWARDS),
    ("a start before the creation", b"task 100 spawn main
start 1 50
end 1 60
publish 200",                           POLLED_EARLY),
    ("a sum past the greatest",     ENDLESS_POLL,                                                                        BUSY_FOR_EVER),
    ("a close",                     b"task 100 spawn main
close 1 120
publish 200",                                    CLOSED),
    ("a poll and a close",          b"task 100 spawn main
start 1 150
end 1 170
close 1 180
publish 200",            POLLED_AND_CLOSED),
];

// Whether the script's one line tells of a task with these statistics.
fn tells_row<R: Threads + Wait + Sync + AllocGlobal>(
    rt: &R,
    script: &'static [u8],
    row: &str,
) -> bool {
    match format!(in rt.alloc(); "{HEAD}{row}{TAIL}") {
        Ok(line) => runs(rt, script, "", &[line.as_str()]),
        Err(_) => false,
    }
}

// Each script's one line tells of a task with its statistics.
pub(super) fn assert_all_tell<R: Abort + Threads + Wait + Sync + AllocGlobal>(
    rt: &R,
    cases: &[(&str, &'static [u8], &str)],
) {
    for (case, script, row) in cases {
        assert!(rt; tells_row(rt, script, row), "{case}");
    }
}

#[test]
fn calls_change_the_statistics(rt: HostRuntime) {
    assert_all_tell(&rt, ROWS.as_slice());
}
