//! Poll operations, and a script with an item of each kind.

use super::given::{assert_all_stop, assert_are_bad, assert_runs};

const WORKED: &[u8] =
    b"task 10 spawn worker\nresource 20 Sync Semaphore permits=5 closed=false\nop 30 1 Semaphore::acquire\noptask 1 1\nopstart 1 40\nrsub 1 0 2\nopend 1 45\npollop 1 1 1 poll_acquire ready\npublish 50\n";

const WORKED_LINE: &str =
    r#"{"dropped":[0,0,0],"new_ops":[{"attrs":[],"id":1099511627777,"parent":null,"resource":1099511627777,"source":"Semaphore::acquire"}],"new_resources":[{"attrs":[["permits",null,"u64"],["closed",null,"bool"]],"id":1099511627777,"kind":"Sync","loc":["script",2,1],"parent":null,"type":"Semaphore"}],"new_tasks":[{"id":1099511627777,"kind":"spawn","loc":["script",1,1],"name":"worker"}],"now":50,"op_stats":[{"attrs":[],"busy":5,"created":30,"dropped":null,"first_poll":40,"handles":1,"id":1099511627777,"last_ended":45,"last_started":40,"polling":false,"polls":1,"task":1099511627777}],"poll_counts":[[1099511627777,1,0]],"resource_stats":[{"attrs":[3,false],"created":20,"dropped":null,"handles":2,"id":1099511627777}],"seq":1,"snapshot":false,"task_stats":[{"busy":0,"clones":0,"created":10,"dropped":null,"drops":0,"first_poll":null,"handles":1,"id":1099511627777,"last_ended":null,"last_started":null,"last_wake":null,"polling":false,"polls":0,"sched":0,"scheduled":true,"self_wakes":0,"wakes":0}],"v":1}"#;

#[test]
fn an_item_of_each_kind_is_told(rt: HostRuntime) {
    assert_runs(&rt, "an item of each kind", WORKED, "", &[WORKED_LINE]);
}

// Two resources: the second is polled first, so its counts stand first. What is closed is polled all the same.
const COUNTED: &[u8] =
    b"task 1 spawn a\nresource 1 K T\nresource 1 K U\nop 1 1 x\npollop 2 1 1 p ready\npublish 5\npollop 1 1 1 p pending\npollop 2 1 1 q pending\npollop 2 1 1 p ready\nrclose 2 6\nopclose 1 6\nclose 1 6\npollop 2 1 1 p ready\npublish 7\npublish 8\n";

const FIRST: &str =
    r#"{"dropped":[0,0,0],"new_ops":[{"attrs":[],"id":1099511627777,"parent":null,"resource":1099511627777,"source":"x"}],"new_resources":[{"attrs":[],"id":1099511627777,"kind":"K","loc":["script",2,1],"parent":null,"type":"T"},{"attrs":[],"id":1099511627778,"kind":"K","loc":["script",3,1],"parent":null,"type":"U"}],"new_tasks":[{"id":1099511627777,"kind":"spawn","loc":["script",1,1],"name":"a"}],"now":5,"op_stats":[{"attrs":[],"busy":0,"created":1,"dropped":null,"first_poll":null,"handles":1,"id":1099511627777,"last_ended":null,"last_started":null,"polling":false,"polls":0,"task":null}],"poll_counts":[[1099511627778,1,0]],"resource_stats":[{"attrs":[],"created":1,"dropped":null,"handles":2,"id":1099511627777},{"attrs":[],"created":1,"dropped":null,"handles":2,"id":1099511627778}],"seq":1,"snapshot":false,"task_stats":[{"busy":0,"clones":0,"created":1,"dropped":null,"drops":0,"first_poll":null,"handles":1,"id":1099511627777,"last_ended":null,"last_started":null,"last_wake":null,"polling":false,"polls":0,"sched":0,"scheduled":true,"self_wakes":0,"wakes":0}],"v":1}"#;

const SECOND: &str =
    r#"{"dropped":[0,0,0],"new_ops":[],"new_resources":[],"new_tasks":[],"now":7,"op_stats":[{"attrs":[],"busy":0,"created":1,"dropped":6,"first_poll":null,"handles":1,"id":1099511627777,"last_ended":null,"last_started":null,"polling":false,"polls":0,"task":null}],"poll_counts":[[1099511627778,3,1],[1099511627777,0,1]],"resource_stats":[{"attrs":[],"created":1,"dropped":6,"handles":2,"id":1099511627778}],"seq":2,"snapshot":false,"task_stats":[{"busy":0,"clones":0,"created":1,"dropped":6,"drops":0,"first_poll":null,"handles":1,"id":1099511627777,"last_ended":null,"last_started":null,"last_wake":null,"polling":false,"polls":0,"sched":0,"scheduled":false,"self_wakes":0,"wakes":0}],"v":1}"#;

const THIRD: &str =
    r#"{"dropped":[0,0,0],"new_ops":[],"new_resources":[],"new_tasks":[],"now":8,"op_stats":[],"poll_counts":[],"resource_stats":[],"seq":3,"snapshot":false,"task_stats":[],"v":1}"#;

#[test]
fn poll_operations_are_counted(rt: HostRuntime) {
    assert_runs(&rt, "two resources", COUNTED, "", &[FIRST, SECOND, THIRD]);
}

// Each script stops at its last line.
#[rattlefmt::skip]
const REFUSED: [(&str, &[u8], &str); 7] = [
    ("no resource",  b"task 1 spawn a\npollop 1 1 1 p ready\n",                                "line 2: NoSuchItem"),
    ("resource 0",   b"task 1 spawn a\nresource 1 K T\nop 1 1 x\npollop 0 1 1 p ready\n",      "line 4: NoSuchItem"),
    ("no operation", b"task 1 spawn a\nresource 1 K T\npollop 1 1 1 p ready\n",                "line 3: NoSuchItem"),
    ("operation 0",  b"task 1 spawn a\nresource 1 K T\nop 1 1 x\npollop 1 0 1 p pending\n",    "line 4: NoSuchItem"),
    ("no task",      b"resource 1 K T\nop 1 1 x\npollop 1 1 1 p ready\n",                      "line 3: NoSuchItem"),
    ("task 0",       b"task 1 spawn a\nresource 1 K T\nop 1 1 x\npollop 1 1 0 p ready\n",      "line 4: NoSuchItem"),
    ("task 2 of 1",  b"task 1 spawn a\nresource 1 K T\nop 1 1 x\npollop 1 1 2 p ready\n",      "line 4: NoSuchItem"),
];

#[test]
fn what_a_poll_operation_names_was_made(rt: HostRuntime) {
    assert_all_stop(&rt, REFUSED.as_slice());
}

// Lines that are no command.
#[rattlefmt::skip]
const BAD: [&[u8]; 9] = [
    b"pollop", b"pollop 1 1 1 p", b"pollop 1 1 1 p ready now", b"pollop 1 1 1 p Ready", b"pollop 1 1 1 p done", b"pollop x 1 1 p ready", b"pollop 1 x 1 p ready",
    b"pollop 1 1 x p ready", b"pollop 1 1 1 \x7f ready",
];

#[test]
fn poll_operations_have_their_words(rt: HostRuntime) {
    assert_are_bad(&rt, BAD.as_slice());
}
