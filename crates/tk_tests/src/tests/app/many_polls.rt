//! Many polls of a task by one command.

use super::given::{assert_all_stop, assert_all_write, assert_are_bad};

// Three polls, from 10 to 30, from 40 to 60 and from 70 to 90, and then one of no time at the last moment that there is.
const POLLS: &[u8] =
    b"times\ntask 1 spawn a\npolls 1 3 10 20 30\npublish 200\npolls 1 1 18446744073709551615 0 0\npublish 201\n";

const POLLS_1: &str =
    r#"{"dropped":[0,0,0],"gone_ops":[],"gone_resources":[],"gone_tasks":[],"new_ops":[],"new_resources":[],"new_tasks":[{"id":1099511627777,"kind":"spawn","loc":["script",2,1],"name":"a"}],"now":200,"op_stats":[],"poll_counts":[],"resource_stats":[],"seq":1,"snapshot":false,"task_stats":[{"busy":60,"clones":0,"created":1,"dropped":null,"drops":0,"first_poll":10,"handles":1,"id":1099511627777,"last_ended":90,"last_started":70,"last_wake":null,"polling":false,"polls":3,"sched":9,"scheduled":false,"self_wakes":0,"wakes":0}],"task_times":[{"counts":[[0,3]],"id":1099511627777,"longest":20}],"v":3}"#;

const POLLS_2: &str =
    r#"{"dropped":[0,0,0],"gone_ops":[],"gone_resources":[],"gone_tasks":[],"new_ops":[],"new_resources":[],"new_tasks":[],"now":201,"op_stats":[],"poll_counts":[],"resource_stats":[],"seq":2,"snapshot":false,"task_stats":[{"busy":60,"clones":0,"created":1,"dropped":null,"drops":0,"first_poll":10,"handles":1,"id":1099511627777,"last_ended":18446744073709551615,"last_started":18446744073709551615,"last_wake":null,"polling":false,"polls":4,"sched":9,"scheduled":false,"self_wakes":0,"wakes":0}],"task_times":[{"counts":[[0,4]],"id":1099511627777,"longest":20}],"v":3}"#;

// Polls that start while the one before them runs, and at the same moment.
const AT_ONCE: &[u8] = b"task 1 spawn a\npolls 1 2 10 5 0\npublish 20\n";

const AT_ONCE_1: &str =
    r#"{"dropped":[0,0,0],"new_ops":[],"new_resources":[],"new_tasks":[{"id":1099511627777,"kind":"spawn","loc":["script",1,1],"name":"a"}],"now":20,"op_stats":[],"poll_counts":[],"resource_stats":[],"seq":1,"snapshot":false,"task_stats":[{"busy":10,"clones":0,"created":1,"dropped":null,"drops":0,"first_poll":10,"handles":1,"id":1099511627777,"last_ended":15,"last_started":10,"last_wake":null,"polling":false,"polls":2,"sched":9,"scheduled":false,"self_wakes":0,"wakes":0}],"v":1}"#;

#[rattlefmt::skip]
const WRITTEN: [(&str, &[u8], &[&str]); 2] = [
    ("one after the other", POLLS,   &[POLLS_1, POLLS_2]),
    ("at one moment",       AT_ONCE, &[AT_ONCE_1]),
];

#[test]
fn so_many_polls_are_made(rt: HostRuntime) {
    assert_all_write(&rt, WRITTEN.as_slice());
}

// None, too many, and some whose moments come to 2^64: by the first, by how long each runs, and by how far apart they start.
#[rattlefmt::skip]
const BAD: [&[u8]; 5] = [
    b"polls 1 0 1 1 1", b"polls 1 1000001 1 1 1",
    b"polls 1 1 18446744073709551615 0 1", b"polls 1 1 1 18446744073709551615 0", b"polls 1 1000000 0 0 18446744073710",
];

#[test]
fn counts_and_moments_are_in_their_range(rt: HostRuntime) {
    assert_are_bad(&rt, BAD.as_slice());
}

// Each script stops at its last line.
#[rattlefmt::skip]
const REFUSED: [(&str, &[u8], &str); 5] = [
    ("no task",      b"polls 1 1 3 1 1\n",                                           "line 1: NoSuchItem"),
    ("task 2 of 1",  b"task 1 spawn a\npolls 2 1 3 1 1\n",                           "line 2: NoSuchItem"),
    ("a closed one", b"task 1 spawn a\nclose 1 2\npolls 1 1 3 1 1\n",                "line 3: NoSuchItem"),
    ("an open poll", b"task 1 spawn a\nstart 1 2\npolls 1 1 3 1 1\n",                "line 3: AlreadyPolling"),
    ("in a block",   b"task 1 spawn a\npar\npolls 1 1 3 1 1\n",                      "line 3: BadCommand"),
];

#[test]
fn they_are_made_of_an_idle_task(rt: HostRuntime) {
    assert_all_stop(&rt, REFUSED.as_slice());
}
