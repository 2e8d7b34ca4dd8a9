//! How many events the console holds, and what is dropped.

use super::given::{assert_all_stop, assert_all_write, assert_are_bad, assert_runs};

// Three tasks in a console for two: the third is dropped, and keeps its number, so its owner can be called.
const THREE: &[u8] =
    b"capacity 2\ntask 1 spawn a\ntask 2 spawn b\ntask 3 spawn c\nstart 3 5\npublish 10\n";

const TWO_TASKS: &str =
    r#"{"dropped":[1,0,0],"new_ops":[],"new_resources":[],"new_tasks":[{"id":1099511627777,"kind":"spawn","loc":["script",2,1],"name":"a"},{"id":1099511627778,"kind":"spawn","loc":["script",3,1],"name":"b"}],"now":10,"op_stats":[],"poll_counts":[],"resource_stats":[],"seq":1,"snapshot":false,"task_stats":[{"busy":0,"clones":0,"created":1,"dropped":null,"drops":0,"first_poll":null,"handles":1,"id":1099511627777,"last_ended":null,"last_started":null,"last_wake":null,"polling":false,"polls":0,"sched":0,"scheduled":true,"self_wakes":0,"wakes":0},{"busy":0,"clones":0,"created":2,"dropped":null,"drops":0,"first_poll":null,"handles":1,"id":1099511627778,"last_ended":null,"last_started":null,"last_wake":null,"polling":false,"polls":0,"sched":0,"scheduled":true,"self_wakes":0,"wakes":0}],"v":1}"#;

// A burst of poll operations fills a console for two, so the task after them is dropped, and so is the third poll operation,
// which counts with the resources. A publication makes room again: the next task is told, by its number.
const BURST: &[u8] =
    b"capacity 2\nresource 1 k t\nop 1 1 s\npublish 2\ntask 3 spawn a\npublish 3\npollop 1 1 1 p pending\npollop 1 1 1 p ready\ntask 4 spawn b\npollop 1 1 1 p ready\npublish 5\nclose 2 6\ntask 6 blocking c\npublish 7\n";

const BURST_1: &str =
    r#"{"dropped":[0,0,0],"new_ops":[{"attrs":[],"id":1099511627777,"parent":null,"resource":1099511627777,"source":"s"}],"new_resources":[{"attrs":[],"id":1099511627777,"kind":"k","loc":["script",2,1],"parent":null,"type":"t"}],"new_tasks":[],"now":2,"op_stats":[{"attrs":[],"busy":0,"created":1,"dropped":null,"first_poll":null,"handles":1,"id":1099511627777,"last_ended":null,"last_started":null,"polling":false,"polls":0,"task":null}],"poll_counts":[],"resource_stats":[{"attrs":[],"created":1,"dropped":null,"handles":2,"id":1099511627777}],"seq":1,"snapshot":false,"task_stats":[],"v":1}"#;

const BURST_2: &str =
    r#"{"dropped":[0,0,0],"new_ops":[],"new_resources":[],"new_tasks":[{"id":1099511627777,"kind":"spawn","loc":["script",5,1],"name":"a"}],"now":3,"op_stats":[],"poll_counts":[],"resource_stats":[],"seq":2,"snapshot":false,"task_stats":[{"busy":0,"clones":0,"created":3,"dropped":null,"drops":0,"first_poll":null,"handles":1,"id":1099511627777,"last_ended":null,"last_started":null,"last_wake":null,"polling":false,"polls":0,"sched":0,"scheduled":true,"self_wakes":0,"wakes":0}],"v":1}"#;

const BURST_3: &str =
    r#"{"dropped":[1,1,0],"new_ops":[],"new_resources":[],"new_tasks":[],"now":5,"op_stats":[],"poll_counts":[[1099511627777,1,1]],"resource_stats":[],"seq":3,"snapshot":false,"task_stats":[],"v":1}"#;

const BURST_4: &str =
    r#"{"dropped":[1,1,0],"new_ops":[],"new_resources":[],"new_tasks":[{"id":1099511627779,"kind":"blocking","loc":["script",13,1],"name":"c"}],"now":7,"op_stats":[],"poll_counts":[],"resource_stats":[],"seq":4,"snapshot":false,"task_stats":[{"busy":0,"clones":0,"created":6,"dropped":null,"drops":0,"first_poll":null,"handles":1,"id":1099511627779,"last_ended":null,"last_started":null,"last_wake":null,"polling":false,"polls":0,"sched":0,"scheduled":true,"self_wakes":0,"wakes":0}],"v":1}"#;

// What is merely named may be dropped: an operation on a dropped resource, and poll operations of it.
const DROPPED: &[u8] =
    b"capacity 1\ntask 1 spawn a\nresource 1 k t n=1\npublish 2\nop 2 1 s\noptask 1 1\npublish 3\npollop 1 1 1 p ready\nradd 1 0 1\nrclose 1 4\npublish 4\n";

const DROPPED_1: &str =
    r#"{"dropped":[0,1,0],"new_ops":[],"new_resources":[],"new_tasks":[{"id":1099511627777,"kind":"spawn","loc":["script",2,1],"name":"a"}],"now":2,"op_stats":[],"poll_counts":[],"resource_stats":[],"seq":1,"snapshot":false,"task_stats":[{"busy":0,"clones":0,"created":1,"dropped":null,"drops":0,"first_poll":null,"handles":1,"id":1099511627777,"last_ended":null,"last_started":null,"last_wake":null,"polling":false,"polls":0,"sched":0,"scheduled":true,"self_wakes":0,"wakes":0}],"v":1}"#;

const DROPPED_2: &str =
    r#"{"dropped":[0,1,0],"new_ops":[{"attrs":[],"id":1099511627777,"parent":null,"resource":1099511627777,"source":"s"}],"new_resources":[],"new_tasks":[],"now":3,"op_stats":[{"attrs":[],"busy":0,"created":2,"dropped":null,"first_poll":null,"handles":1,"id":1099511627777,"last_ended":null,"last_started":null,"polling":false,"polls":0,"task":1099511627777}],"poll_counts":[],"resource_stats":[],"seq":2,"snapshot":false,"task_stats":[],"v":1}"#;

const DROPPED_3: &str =
    r#"{"dropped":[0,1,0],"new_ops":[],"new_resources":[],"new_tasks":[],"now":4,"op_stats":[],"poll_counts":[[1099511627777,1,0]],"resource_stats":[],"seq":3,"snapshot":false,"task_stats":[],"v":1}"#;

#[rattlefmt::skip]
const WRITTEN: [(&str, &[u8], &[&str]); 3] = [
    ("three tasks for two",       THREE,   &[TWO_TASKS]),
    ("a burst of poll operations", BURST,  &[BURST_1, BURST_2, BURST_3, BURST_4]),
    ("a dropped resource",        DROPPED, &[DROPPED_1, DROPPED_2, DROPPED_3]),
];

#[test]
fn what_is_dropped_is_counted_and_keeps_its_number(rt: HostRuntime) {
    assert_all_write(&rt, WRITTEN.as_slice());
}

// A capacity stands before every other command, and once.
#[rattlefmt::skip]
const LATE: [(&str, &[u8], &str); 4] = [
    ("after a task",             b"task 1 spawn a\ncapacity 2\n",      "line 2: BadCommand"),
    ("a second one",             b"capacity 2\ncapacity 2\n",          "line 2: BadCommand"),
    ("a refused call comes first", b"start 1 1\ncapacity 2\n",         "line 1: NoSuchItem"),
    ("after a line that is no command", b"tusk\ncapacity 2\n",        "line 1: BadCommand"),
];

#[rattlefmt::skip]
const BAD: [&[u8]; 8] = [
    b"capacity", b"capacity 0", b"capacity 65537", b"capacity 18446744073709551616", b"capacity -1", b"capacity x", b"capacity 1 2",
    b"Capacity 1",
];

#[test]
fn a_capacity_stands_first_and_is_in_range(rt: HostRuntime) {
    assert_all_stop(&rt, LATE.as_slice());
    assert_are_bad(&rt, BAD.as_slice());
    assert_runs(&rt, "the least", b"capacity 1\n".as_slice(), "", &[]);
    assert_runs(
        &rt,
        "the most",
        b"\n# first\n\ncapacity 65536\n".as_slice(),
        "",
        &[],
    );
}
