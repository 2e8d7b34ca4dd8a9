//! How long a closed item stays, and the line with which it leaves.

use super::given::{assert_all_stop, assert_all_write, assert_are_bad, assert_runs};

// Closed at 5, told at 6, still there at 14, and gone at 15.
const TEN: &[u8] = b"retention 10\ntask 1 spawn a\nclose 1 5\npublish 6\npublish 14\npublish 15\n";

const TEN_1: &str =
    r#"{"dropped":[0,0,0],"gone_ops":[],"gone_resources":[],"gone_tasks":[],"new_ops":[],"new_resources":[],"new_tasks":[{"id":1099511627777,"kind":"spawn","loc":["script",2,1],"name":"a"}],"now":6,"op_stats":[],"poll_counts":[],"resource_stats":[],"seq":1,"snapshot":false,"task_stats":[{"busy":0,"clones":0,"created":1,"dropped":5,"drops":0,"first_poll":null,"handles":1,"id":1099511627777,"last_ended":null,"last_started":null,"last_wake":null,"polling":false,"polls":0,"sched":0,"scheduled":false,"self_wakes":0,"wakes":0}],"v":2}"#;

const TEN_2: &str =
    r#"{"dropped":[0,0,0],"gone_ops":[],"gone_resources":[],"gone_tasks":[],"new_ops":[],"new_resources":[],"new_tasks":[],"now":14,"op_stats":[],"poll_counts":[],"resource_stats":[],"seq":2,"snapshot":false,"task_stats":[],"v":2}"#;

const TEN_3: &str =
    r#"{"dropped":[0,0,0],"gone_ops":[],"gone_resources":[],"gone_tasks":[1099511627777],"new_ops":[],"new_resources":[],"new_tasks":[],"now":15,"op_stats":[],"poll_counts":[],"resource_stats":[],"seq":3,"snapshot":false,"task_stats":[],"v":2}"#;

// Each close is told before its item leaves, also where it may leave at once.
const NONE: &[u8] = b"retention 0\ntask 1 spawn a\nclose 1 5\npublish 5\npublish 5\n";

const NONE_1: &str =
    r#"{"dropped":[0,0,0],"gone_ops":[],"gone_resources":[],"gone_tasks":[],"new_ops":[],"new_resources":[],"new_tasks":[{"id":1099511627777,"kind":"spawn","loc":["script",2,1],"name":"a"}],"now":5,"op_stats":[],"poll_counts":[],"resource_stats":[],"seq":1,"snapshot":false,"task_stats":[{"busy":0,"clones":0,"created":1,"dropped":5,"drops":0,"first_poll":null,"handles":1,"id":1099511627777,"last_ended":null,"last_started":null,"last_wake":null,"polling":false,"polls":0,"sched":0,"scheduled":false,"self_wakes":0,"wakes":0}],"v":2}"#;

const NONE_2: &str =
    r#"{"dropped":[0,0,0],"gone_ops":[],"gone_resources":[],"gone_tasks":[1099511627777],"new_ops":[],"new_resources":[],"new_tasks":[],"now":5,"op_stats":[],"poll_counts":[],"resource_stats":[],"seq":2,"snapshot":false,"task_stats":[],"v":2}"#;

// A close that is still to come is 0 ago, which is enough where items stay for no time.
const AHEAD: &[u8] = b"retention 0\ntask 1 spawn a\nclose 1 10\npublish 5\npublish 6\n";

const AHEAD_1: &str =
    r#"{"dropped":[0,0,0],"gone_ops":[],"gone_resources":[],"gone_tasks":[],"new_ops":[],"new_resources":[],"new_tasks":[{"id":1099511627777,"kind":"spawn","loc":["script",2,1],"name":"a"}],"now":5,"op_stats":[],"poll_counts":[],"resource_stats":[],"seq":1,"snapshot":false,"task_stats":[{"busy":0,"clones":0,"created":1,"dropped":10,"drops":0,"first_poll":null,"handles":1,"id":1099511627777,"last_ended":null,"last_started":null,"last_wake":null,"polling":false,"polls":0,"sched":0,"scheduled":false,"self_wakes":0,"wakes":0}],"v":2}"#;

const AHEAD_2: &str =
    r#"{"dropped":[0,0,0],"gone_ops":[],"gone_resources":[],"gone_tasks":[1099511627777],"new_ops":[],"new_resources":[],"new_tasks":[],"now":6,"op_stats":[],"poll_counts":[],"resource_stats":[],"seq":2,"snapshot":false,"task_stats":[],"v":2}"#;

// One of each kind leaves, and its poll counts stay. A snapshot removes nothing.
const EACH: &[u8] =
    b"retention 3\nresource 1 k t\nop 1 1 s\ntask 1 spawn a\npollop 1 1 1 p ready\nopclose 1 2\nrclose 1 2\nclose 1 2\npublish 4\nsnapshot 9\npublish 9\nsnapshot 9\n";

const EACH_1: &str =
    r#"{"dropped":[0,0,0],"gone_ops":[],"gone_resources":[],"gone_tasks":[],"new_ops":[{"attrs":[],"id":1099511627777,"parent":null,"resource":1099511627777,"source":"s"}],"new_resources":[{"attrs":[],"id":1099511627777,"kind":"k","loc":["script",2,1],"parent":null,"type":"t"}],"new_tasks":[{"id":1099511627777,"kind":"spawn","loc":["script",4,1],"name":"a"}],"now":4,"op_stats":[{"attrs":[],"busy":0,"created":1,"dropped":2,"first_poll":null,"handles":1,"id":1099511627777,"last_ended":null,"last_started":null,"polling":false,"polls":0,"task":null}],"poll_counts":[[1099511627777,1,0]],"resource_stats":[{"attrs":[],"created":1,"dropped":2,"handles":2,"id":1099511627777}],"seq":1,"snapshot":false,"task_stats":[{"busy":0,"clones":0,"created":1,"dropped":2,"drops":0,"first_poll":null,"handles":1,"id":1099511627777,"last_ended":null,"last_started":null,"last_wake":null,"polling":false,"polls":0,"sched":0,"scheduled":false,"self_wakes":0,"wakes":0}],"v":2}"#;

const EACH_2: &str =
    r#"{"dropped":[0,0,0],"gone_ops":[],"gone_resources":[],"gone_tasks":[],"new_ops":[{"attrs":[],"id":1099511627777,"parent":null,"resource":1099511627777,"source":"s"}],"new_resources":[{"attrs":[],"id":1099511627777,"kind":"k","loc":["script",2,1],"parent":null,"type":"t"}],"new_tasks":[{"id":1099511627777,"kind":"spawn","loc":["script",4,1],"name":"a"}],"now":9,"op_stats":[{"attrs":[],"busy":0,"created":1,"dropped":2,"first_poll":null,"handles":1,"id":1099511627777,"last_ended":null,"last_started":null,"polling":false,"polls":0,"task":null}],"poll_counts":[[1099511627777,1,0]],"resource_stats":[{"attrs":[],"created":1,"dropped":2,"handles":2,"id":1099511627777}],"seq":2,"snapshot":true,"task_stats":[{"busy":0,"clones":0,"created":1,"dropped":2,"drops":0,"first_poll":null,"handles":1,"id":1099511627777,"last_ended":null,"last_started":null,"last_wake":null,"polling":false,"polls":0,"sched":0,"scheduled":false,"self_wakes":0,"wakes":0}],"v":2}"#;

const EACH_3: &str =
    r#"{"dropped":[0,0,0],"gone_ops":[1099511627777],"gone_resources":[1099511627777],"gone_tasks":[1099511627777],"new_ops":[],"new_resources":[],"new_tasks":[],"now":9,"op_stats":[],"poll_counts":[],"resource_stats":[],"seq":3,"snapshot":false,"task_stats":[],"v":2}"#;

const EACH_4: &str =
    r#"{"dropped":[0,0,0],"gone_ops":[],"gone_resources":[],"gone_tasks":[],"new_ops":[],"new_resources":[],"new_tasks":[],"now":9,"op_stats":[],"poll_counts":[[1099511627777,1,0]],"resource_stats":[],"seq":4,"snapshot":true,"task_stats":[],"v":2}"#;

#[rattlefmt::skip]
const LATE: [(&str, &[u8], &str); 8] = [
    ("after a task",                b"task 1 spawn a\nretention 2\n",                "line 2: BadCommand"),
    ("a second one",                b"retention 2\nretention 2\n",                   "line 2: BadCommand"),
    ("a second one after a capacity", b"retention 2\ncapacity 2\nretention 2\n",    "line 3: BadCommand"),
    ("a second capacity after one", b"capacity 2\nretention 2\ncapacity 2\n",       "line 3: BadCommand"),
    ("a capacity after a task",     b"retention 2\ntask 1 spawn a\ncapacity 2\n",    "line 3: BadCommand"),
    ("after a line that is no command", b"tusk\nretention 2\n",                     "line 1: BadCommand"),
    ("after a block",               b"par\njoin\nretention 2\n",                     "line 3: BadCommand"),
    ("in a block",                  b"par\nretention 2\n",                           "line 2: BadCommand"),
];

#[rattlefmt::skip]
const BAD: [&[u8]; 6] = [
    b"retention", b"retention 18446744073709551616", b"retention -1", b"retention x", b"retention 1 2", b"Retention 1",
];

#[rattlefmt::skip]
const WRITTEN: [(&str, &[u8], &[&str]); 4] = [
    ("ten nanoseconds", TEN,  &[TEN_1, TEN_2, TEN_3]),
    ("none",            NONE, &[NONE_1, NONE_2]),
    ("a close to come", AHEAD, &[AHEAD_1, AHEAD_2]),
    ("one of each",     EACH, &[EACH_1, EACH_2, EACH_3, EACH_4]),
];

#[test]
fn closed_items_leave_when_they_are_due(rt: HostRuntime) {
    assert_all_write(&rt, WRITTEN.as_slice());
}

#[test]
fn settings_stand_first_and_once(rt: HostRuntime) {
    assert_all_stop(&rt, LATE.as_slice());
    assert_are_bad(&rt, BAD.as_slice());
    assert_runs(
        &rt,
        "either order",
        b"# settings\n\nretention 18446744073709551615\n\ncapacity 2\n".as_slice(),
        "",
        &[],
    );
    assert_runs(
        &rt,
        "the other order",
        b"capacity 2\nretention 0\n".as_slice(),
        "",
        &[],
    );
}
