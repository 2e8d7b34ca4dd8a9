//! The statistics of a task after calls of its wakers, and from within its polls, as a line tells them.

use super::given::{assert_all_stop, assert_runs};
use super::rows::assert_all_tell;

// A waker is out.
const CLONED: &str =
    r#"{"busy":0,"clones":1,"created":100,"dropped":null,"drops":0,"first_poll":null,"handles":2,"id":1099511627777,"last_ended":null,"last_started":null,"last_wake":null,"polling":false,"polls":0,"sched":0,"scheduled":true,"self_wakes":0,"wakes":0}"#;

// The second waker is a clone of the first.
const CLONED_TWICE: &str =
    r#"{"busy":0,"clones":2,"created":100,"dropped":null,"drops":0,"first_poll":null,"handles":3,"id":1099511627777,"last_ended":null,"last_started":null,"last_wake":null,"polling":false,"polls":0,"sched":0,"scheduled":true,"self_wakes":0,"wakes":0}"#;

// A waker that was dropped without a wake.
const RELEASED: &str =
    r#"{"busy":0,"clones":1,"created":100,"dropped":null,"drops":1,"first_poll":null,"handles":2,"id":1099511627777,"last_ended":null,"last_started":null,"last_wake":null,"polling":false,"polls":0,"sched":0,"scheduled":true,"self_wakes":0,"wakes":0}"#;

// Woken at 160 from within its poll, which ended at 170: it waited from then to 200.
const WOKEN_WITHIN: &str =
    r#"{"busy":20,"clones":0,"created":100,"dropped":null,"drops":0,"first_poll":150,"handles":1,"id":1099511627777,"last_ended":170,"last_started":200,"last_wake":160,"polling":true,"polls":2,"sched":80,"scheduled":false,"self_wakes":1,"wakes":1}"#;

// A wake uses its waker up.
const WOKEN: &str =
    r#"{"busy":20,"clones":1,"created":100,"dropped":null,"drops":1,"first_poll":150,"handles":2,"id":1099511627777,"last_ended":170,"last_started":150,"last_wake":190,"polling":false,"polls":1,"sched":50,"scheduled":true,"self_wakes":0,"wakes":1}"#;

// A wake by reference keeps its waker, and a wake of a closed task counts.
const WOKEN_AFTER_ALL: &str =
    r#"{"busy":20,"clones":1,"created":100,"dropped":190,"drops":0,"first_poll":150,"handles":2,"id":1099511627777,"last_ended":170,"last_started":150,"last_wake":195,"polling":false,"polls":1,"sched":50,"scheduled":false,"self_wakes":0,"wakes":3}"#;

// The waker of a closed task is cloned.
const CLONED_LATE: &str =
    r#"{"busy":0,"clones":2,"created":100,"dropped":120,"drops":0,"first_poll":null,"handles":3,"id":1099511627777,"last_ended":null,"last_started":null,"last_wake":null,"polling":false,"polls":0,"sched":0,"scheduled":false,"self_wakes":0,"wakes":0}"#;

// What wakers make of a task's statistics.
#[rattlefmt::skip]
const ROWS: [(&str, &[u8], &str); 7] = [
    ("a clone", b"task 100 spawn main\nclone 1\npublish 200", CLONED),
    ("a clone of a waker", b"task 100 spawn main\nclone 1\nagain 1\npublish 200", CLONED_TWICE),
    ("a release", b"task 100 spawn main\nclone 1\nrelease 1\npublish 200", RELEASED),
    ("a wake from within", b"task 100 spawn main\nstart 1 150\nselfwake 1 160\nend 1 170\nstart 1 200\npublish 200", WOKEN_WITHIN),
    ("a wake by value", b"task 100 spawn main\nstart 1 150\nend 1 170\nclone 1\nwake 1 190\npublish 200", WOKEN),
    ("wakes by reference", b"task 100 spawn main\nstart 1 150\nend 1 170\nclone 1\nwakeref 1 180\nwakeref 1 175\nclose 1 190\nwakeref 1 195\npublish 200", WOKEN_AFTER_ALL),
    ("a clone after a close", b"task 100 spawn main\nclone 1\nclose 1 120\nagain 1\npublish 200", CLONED_LATE),
];

#[test]
fn wakers_change_the_statistics(rt: HostRuntime) {
    assert_all_tell(&rt, ROWS.as_slice());
}

// Wakers are numbered over the whole script: the second one is of the second task.
const TWO_TASKS: &[u8] =
    b"task 1 spawn a\ntask 1 spawn b\nclone 1\nclone 2\nagain 1\nwake 2 5\nrelease 3\nwakeref 1 6\n";

#[test]
fn wakers_are_numbered_over_the_script(rt: HostRuntime) {
    assert_runs(&rt, "two tasks", TWO_TASKS, "", &[]);
}

// Each script stops at its last line.
#[rattlefmt::skip]
const REFUSED: [(&str, &[u8], &str); 14] = [
    ("no waker was drawn",            b"task 1 spawn a\nwakeref 1 5\n",                              "line 2: NoSuchItem"),
    ("a wake by waker 0",             b"task 1 spawn a\nclone 1\nwake 0 5\n",                       "line 3: NoSuchItem"),
    ("a wake by reference of waker 0", b"task 1 spawn a\nclone 1\nwakeref 0 5\n",                   "line 3: NoSuchItem"),
    ("the greatest number",           b"task 1 spawn a\nclone 1\nrelease 18446744073709551615\n",   "line 3: NoSuchItem"),
    ("one waker was drawn",           b"task 1 spawn a\nclone 1\nagain 2\n",                        "line 3: NoSuchItem"),
    ("a clone of task 0",             b"task 1 spawn a\nclone 0\n",                                  "line 2: NoSuchItem"),
    ("a clone by a spent owner",      b"task 1 spawn a\nclose 1 2\nclone 1\n",                      "line 3: NoSuchItem"),
    ("a wake by a spent owner",       b"task 1 spawn a\nclose 1 2\nselfwake 1 3\n",                 "line 3: NoSuchItem"),
    ("a wake by a spent waker",       b"task 1 spawn a\nclone 1\nwake 1 2\nwake 1 3\n",            "line 4: NoSuchItem"),
    ("a clone of a spent waker",      b"task 1 spawn a\nclone 1\nwake 1 2\nagain 1\n",             "line 4: NoSuchItem"),
    ("a wake by a released waker",    b"task 1 spawn a\nclone 1\nrelease 1\nwakeref 1 3\n",        "line 4: NoSuchItem"),
    ("a second release",              b"task 1 spawn a\nclone 1\nrelease 1\nrelease 1\n",          "line 4: NoSuchItem"),
    ("a wake before any poll",        b"task 1 spawn a\nselfwake 1 2\n",                             "line 2: NotPolling"),
    ("a wake after a poll",           b"task 1 spawn a\nstart 1 2\nend 1 3\nselfwake 1 4\n",       "line 4: NotPolling"),
];

#[test]
fn a_waker_is_there_and_a_wake_from_within_is_in_a_poll(rt: HostRuntime) {
    assert_all_stop(&rt, REFUSED.as_slice());
}
