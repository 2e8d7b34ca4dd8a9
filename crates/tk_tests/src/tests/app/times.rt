//! How long polls ran, where a script says that tasks have histograms.

use super::given::{assert_all_stop, assert_all_write, assert_are_bad, assert_runs};

// Polls of 20 and of 16,384 nanoseconds, of which the second is the shortest of its bucket. A line tells what changed, and a snapshot all.
const POLLS: &[u8] =
    b"times\ntask 1 spawn a\nstart 1 10\nend 1 30\npublish 40\nstart 1 100\nend 1 16484\npublish 20000\npublish 20001\nsnapshot 20002\n";

const POLLS_1: &str =
    r#"{"dropped":[0,0,0],"gone_ops":[],"gone_resources":[],"gone_tasks":[],"new_ops":[],"new_resources":[],"new_tasks":[{"id":1099511627777,"kind":"spawn","loc":["script",2,1],"name":"a"}],"now":40,"op_stats":[],"poll_counts":[],"resource_stats":[],"seq":1,"snapshot":false,"task_stats":[{"busy":20,"clones":0,"created":1,"dropped":null,"drops":0,"first_poll":10,"handles":1,"id":1099511627777,"last_ended":30,"last_started":10,"last_wake":null,"polling":false,"polls":1,"sched":9,"scheduled":false,"self_wakes":0,"wakes":0}],"task_times":[{"counts":[[0,1]],"id":1099511627777,"longest":20}],"v":3}"#;

const POLLS_2: &str =
    r#"{"dropped":[0,0,0],"gone_ops":[],"gone_resources":[],"gone_tasks":[],"new_ops":[],"new_resources":[],"new_tasks":[],"now":20000,"op_stats":[],"poll_counts":[],"resource_stats":[],"seq":2,"snapshot":false,"task_stats":[{"busy":16404,"clones":0,"created":1,"dropped":null,"drops":0,"first_poll":10,"handles":1,"id":1099511627777,"last_ended":16484,"last_started":100,"last_wake":null,"polling":false,"polls":2,"sched":9,"scheduled":false,"self_wakes":0,"wakes":0}],"task_times":[{"counts":[[0,1],[1,1]],"id":1099511627777,"longest":16384}],"v":3}"#;

const POLLS_3: &str =
    r#"{"dropped":[0,0,0],"gone_ops":[],"gone_resources":[],"gone_tasks":[],"new_ops":[],"new_resources":[],"new_tasks":[],"now":20001,"op_stats":[],"poll_counts":[],"resource_stats":[],"seq":3,"snapshot":false,"task_stats":[],"task_times":[],"v":3}"#;

const POLLS_4: &str =
    r#"{"dropped":[0,0,0],"gone_ops":[],"gone_resources":[],"gone_tasks":[],"new_ops":[],"new_resources":[],"new_tasks":[{"id":1099511627777,"kind":"spawn","loc":["script",2,1],"name":"a"}],"now":20002,"op_stats":[],"poll_counts":[],"resource_stats":[],"seq":4,"snapshot":true,"task_stats":[{"busy":16404,"clones":0,"created":1,"dropped":null,"drops":0,"first_poll":10,"handles":1,"id":1099511627777,"last_ended":16484,"last_started":100,"last_wake":null,"polling":false,"polls":2,"sched":9,"scheduled":false,"self_wakes":0,"wakes":0}],"task_times":[{"counts":[[0,1],[1,1]],"id":1099511627777,"longest":16384}],"v":3}"#;

// A task without polls has a histogram too.
const NONE: &[u8] = b"times\ntask 1 spawn a\npublish 2\n";

const NONE_1: &str =
    r#"{"dropped":[0,0,0],"gone_ops":[],"gone_resources":[],"gone_tasks":[],"new_ops":[],"new_resources":[],"new_tasks":[{"id":1099511627777,"kind":"spawn","loc":["script",2,1],"name":"a"}],"now":2,"op_stats":[],"poll_counts":[],"resource_stats":[],"seq":1,"snapshot":false,"task_stats":[{"busy":0,"clones":0,"created":1,"dropped":null,"drops":0,"first_poll":null,"handles":1,"id":1099511627777,"last_ended":null,"last_started":null,"last_wake":null,"polling":false,"polls":0,"sched":0,"scheduled":true,"self_wakes":0,"wakes":0}],"task_times":[{"counts":[],"id":1099511627777,"longest":0}],"v":3}"#;

// A poll that ends before it starts ran for no time.
const BACKWARDS: &[u8] = b"times\ntask 1 spawn a\nstart 1 10\nend 1 5\npublish 40\n";

const BACKWARDS_1: &str =
    r#"{"dropped":[0,0,0],"gone_ops":[],"gone_resources":[],"gone_tasks":[],"new_ops":[],"new_resources":[],"new_tasks":[{"id":1099511627777,"kind":"spawn","loc":["script",2,1],"name":"a"}],"now":40,"op_stats":[],"poll_counts":[],"resource_stats":[],"seq":1,"snapshot":false,"task_stats":[{"busy":0,"clones":0,"created":1,"dropped":null,"drops":0,"first_poll":10,"handles":1,"id":1099511627777,"last_ended":5,"last_started":10,"last_wake":null,"polling":false,"polls":1,"sched":9,"scheduled":false,"self_wakes":0,"wakes":0}],"task_times":[{"counts":[[0,1]],"id":1099511627777,"longest":0}],"v":3}"#;

// The poll of 67,108,864 nanoseconds is the shortest of the last bucket. The histogram leaves with its task.
const LEAVES: &[u8] =
    b"retention 3\ntimes\ntask 1 spawn a\ntask 1 spawn b\nstart 1 1\nend 1 67108865\nclose 1 2\npublish 4\npublish 5\nsnapshot 6\n";

const LEAVES_1: &str =
    r#"{"dropped":[0,0,0],"gone_ops":[],"gone_resources":[],"gone_tasks":[],"new_ops":[],"new_resources":[],"new_tasks":[{"id":1099511627777,"kind":"spawn","loc":["script",3,1],"name":"a"},{"id":1099511627778,"kind":"spawn","loc":["script",4,1],"name":"b"}],"now":4,"op_stats":[],"poll_counts":[],"resource_stats":[],"seq":1,"snapshot":false,"task_stats":[{"busy":67108864,"clones":0,"created":1,"dropped":2,"drops":0,"first_poll":1,"handles":1,"id":1099511627777,"last_ended":67108865,"last_started":1,"last_wake":null,"polling":false,"polls":1,"sched":0,"scheduled":false,"self_wakes":0,"wakes":0},{"busy":0,"clones":0,"created":1,"dropped":null,"drops":0,"first_poll":null,"handles":1,"id":1099511627778,"last_ended":null,"last_started":null,"last_wake":null,"polling":false,"polls":0,"sched":0,"scheduled":true,"self_wakes":0,"wakes":0}],"task_times":[{"counts":[[13,1]],"id":1099511627777,"longest":67108864},{"counts":[],"id":1099511627778,"longest":0}],"v":3}"#;

const LEAVES_2: &str =
    r#"{"dropped":[0,0,0],"gone_ops":[],"gone_resources":[],"gone_tasks":[1099511627777],"new_ops":[],"new_resources":[],"new_tasks":[],"now":5,"op_stats":[],"poll_counts":[],"resource_stats":[],"seq":2,"snapshot":false,"task_stats":[],"task_times":[],"v":3}"#;

const LEAVES_3: &str =
    r#"{"dropped":[0,0,0],"gone_ops":[],"gone_resources":[],"gone_tasks":[],"new_ops":[],"new_resources":[],"new_tasks":[{"id":1099511627778,"kind":"spawn","loc":["script",4,1],"name":"b"}],"now":6,"op_stats":[],"poll_counts":[],"resource_stats":[],"seq":3,"snapshot":true,"task_stats":[{"busy":0,"clones":0,"created":1,"dropped":null,"drops":0,"first_poll":null,"handles":1,"id":1099511627778,"last_ended":null,"last_started":null,"last_wake":null,"polling":false,"polls":0,"sched":0,"scheduled":true,"self_wakes":0,"wakes":0}],"task_times":[{"counts":[],"id":1099511627778,"longest":0}],"v":3}"#;

#[rattlefmt::skip]
const LATE: [(&str, &[u8], &str); 7] = [
    ("after a task",                b"task 1 spawn a\ntimes\n",                    "line 2: BadCommand"),
    ("a second one",                b"times\ntimes\n",                             "line 2: BadCommand"),
    ("a second one after a capacity", b"times\ncapacity 2\ntimes\n",              "line 3: BadCommand"),
    ("a capacity after a task",     b"times\ntask 1 spawn a\ncapacity 2\n",       "line 3: BadCommand"),
    ("a second retention after one", b"retention 2\ntimes\nretention 2\n",        "line 3: BadCommand"),
    ("after a block",               b"par\njoin\ntimes\n",                        "line 3: BadCommand"),
    ("in a block",                  b"par\ntimes\n",                              "line 2: BadCommand"),
];

#[rattlefmt::skip]
const BAD: [&[u8]; 5] = [
    b"times 1", b"times true", b"times ", b"Times", b"time",
];

#[rattlefmt::skip]
const WRITTEN: [(&str, &[u8], &[&str]); 4] = [
    ("two polls",   POLLS,     &[POLLS_1, POLLS_2, POLLS_3, POLLS_4]),
    ("no poll",     NONE,      &[NONE_1]),
    ("backwards",   BACKWARDS, &[BACKWARDS_1]),
    ("a task that leaves", LEAVES, &[LEAVES_1, LEAVES_2, LEAVES_3]),
];

#[test]
fn histograms_are_told(rt: HostRuntime) {
    assert_all_write(&rt, WRITTEN.as_slice());
}

#[test]
fn it_stands_first_and_once(rt: HostRuntime) {
    assert_all_stop(&rt, LATE.as_slice());
    assert_are_bad(&rt, BAD.as_slice());
    assert_runs(
        &rt,
        "before other settings",
        b"times\ncapacity 2\nretention 0\n".as_slice(),
        "",
        &[],
    );
    assert_runs(
        &rt,
        "after other settings",
        b"retention 0\n# and\n\ncapacity 2\ntimes".as_slice(),
        "",
        &[],
    );
}
