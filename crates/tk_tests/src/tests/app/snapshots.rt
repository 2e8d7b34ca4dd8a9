//! Snapshots, which go on in the same stream.

use super::given::assert_all_run;

// The task as it was made.
const NEW: &str =
    r#"{"dropped":[0,0,0],"new_ops":[],"new_resources":[],"new_tasks":[{"id":1099511627777,"kind":"spawn","loc":["script",1,1],"name":"a"}],"now":2,"op_stats":[],"poll_counts":[],"resource_stats":[],"seq":1,"snapshot":false,"task_stats":[{"busy":0,"clones":0,"created":1,"dropped":null,"drops":0,"first_poll":null,"handles":1,"id":1099511627777,"last_ended":null,"last_started":null,"last_wake":null,"polling":false,"polls":0,"sched":0,"scheduled":true,"self_wakes":0,"wakes":0}],"v":1}"#;

// Its first poll is open, and it woke itself.
const CHANGED: &str =
    r#"{"dropped":[0,0,0],"new_ops":[],"new_resources":[],"new_tasks":[],"now":4,"op_stats":[],"poll_counts":[],"resource_stats":[],"seq":2,"snapshot":false,"task_stats":[{"busy":0,"clones":0,"created":1,"dropped":null,"drops":0,"first_poll":3,"handles":1,"id":1099511627777,"last_ended":null,"last_started":3,"last_wake":3,"polling":true,"polls":1,"sched":2,"scheduled":true,"self_wakes":1,"wakes":1}],"v":1}"#;

// A snapshot tells of the task again.
const WHOLE: &str =
    r#"{"dropped":[0,0,0],"new_ops":[],"new_resources":[],"new_tasks":[{"id":1099511627777,"kind":"spawn","loc":["script",1,1],"name":"a"}],"now":5,"op_stats":[],"poll_counts":[],"resource_stats":[],"seq":3,"snapshot":true,"task_stats":[{"busy":0,"clones":0,"created":1,"dropped":null,"drops":0,"first_poll":3,"handles":1,"id":1099511627777,"last_ended":null,"last_started":3,"last_wake":3,"polling":true,"polls":1,"sched":2,"scheduled":true,"self_wakes":1,"wakes":1}],"v":1}"#;

// Nothing is new after a snapshot.
const UNCHANGED: &str =
    r#"{"dropped":[0,0,0],"new_ops":[],"new_resources":[],"new_tasks":[],"now":5,"op_stats":[],"poll_counts":[],"resource_stats":[],"seq":4,"snapshot":false,"task_stats":[],"v":1}"#;

// A snapshot of nothing.
const EMPTY: &str =
    r#"{"dropped":[0,0,0],"new_ops":[],"new_resources":[],"new_tasks":[],"now":5,"op_stats":[],"poll_counts":[],"resource_stats":[],"seq":1,"snapshot":true,"task_stats":[],"v":1}"#;

const WAKES_ITSELF: &[u8] =
    b"task 1 spawn a\npublish 2\nstart 1 3\nselfwake 1 3\npublish 4\nsnapshot 5\n";

const GOES_ON: &[u8] =
    b"task 1 spawn a\npublish 2\nstart 1 3\nselfwake 1 3\npublish 4\nsnapshot 5\npublish 5\n";

#[rattlefmt::skip]
const SNAPSHOTS: [(&str, &[u8], &str, &[&str]); 4] = [
    ("a task that wakes itself",      WAKES_ITSELF,                  "",              &[NEW, CHANGED, WHOLE]),
    ("a line after a snapshot",       GOES_ON,                       "",              &[NEW, CHANGED, WHOLE, UNCHANGED]),
    ("a first line",                  b"snapshot 5\n",               "",              &[EMPTY]),
    ("a moment below the last line's", b"snapshot 5\nsnapshot 4\n",  "line 2: Clock", &[EMPTY]),
];

#[test]
fn a_snapshot_tells_all_and_takes_the_next_number(rt: HostRuntime) {
    assert_all_run(&rt, SNAPSHOTS.as_slice());
}
