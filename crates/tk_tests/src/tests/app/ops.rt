//! Async operations, as lines tell them, and the calls of their owners.

use super::given::{assert_all_stop, assert_all_write, assert_are_bad, assert_runs};

// A task, a resource and an operation on it, of which nothing was called.
const NEW: &str =
    r#"{"dropped":[0,0,0],"new_ops":[{"attrs":[["n",null,"u64"],["b",null,"bool"]],"id":1099511627777,"parent":null,"resource":1099511627777,"source":"T::wait"}],"new_resources":[{"attrs":[],"id":1099511627777,"kind":"K","loc":["script",2,1],"parent":null,"type":"T"}],"new_tasks":[{"id":1099511627777,"kind":"spawn","loc":["script",1,1],"name":"a"}],"now":50,"op_stats":[{"attrs":[7,true],"busy":0,"created":3,"dropped":null,"first_poll":null,"handles":1,"id":1099511627777,"last_ended":null,"last_started":null,"polling":false,"polls":0,"task":null}],"poll_counts":[],"resource_stats":[{"attrs":[],"created":2,"dropped":null,"handles":2,"id":1099511627777}],"seq":1,"snapshot":false,"task_stats":[{"busy":0,"clones":0,"created":1,"dropped":null,"drops":0,"first_poll":null,"handles":1,"id":1099511627777,"last_ended":null,"last_started":null,"last_wake":null,"polling":false,"polls":0,"sched":0,"scheduled":true,"self_wakes":0,"wakes":0}],"v":1}"#;

// Task 1 polls it from 51 to 56, and its values changed.
const POLLED: &str =
    r#"{"dropped":[0,0,0],"new_ops":[],"new_resources":[],"new_tasks":[],"now":60,"op_stats":[{"attrs":[9,false],"busy":5,"created":3,"dropped":null,"first_poll":51,"handles":1,"id":1099511627777,"last_ended":56,"last_started":51,"polling":false,"polls":1,"task":1099511627777}],"poll_counts":[],"resource_stats":[],"seq":2,"snapshot":false,"task_stats":[],"v":1}"#;

// It was polled again, and closed.
const CLOSED: &str =
    r#"{"dropped":[0,0,0],"new_ops":[],"new_resources":[],"new_tasks":[],"now":70,"op_stats":[{"attrs":[9,false],"busy":6,"created":3,"dropped":69,"first_poll":51,"handles":1,"id":1099511627777,"last_ended":62,"last_started":61,"polling":false,"polls":2,"task":1099511627777}],"poll_counts":[],"resource_stats":[],"seq":3,"snapshot":false,"task_stats":[],"v":1}"#;

const CALLED: &[u8] =
    b"task 1 spawn a\nresource 2 K T\nop 3 1 T::wait n=7 b=true\npublish 50\noptask 1 1\nopstart 1 51\noadd 1 0 5\nosub 1 0 3\noset 1 1 false\nopend 1 56\npublish 60\nopstart 1 61\nopend 1 62\nopclose 1 69\npublish 70\n";

// An operation with a signed attribute, which its owner changed.
const SIGNED: &str =
    r#"{"dropped":[0,0,0],"new_ops":[{"attrs":[["ahead",null,"i64"]],"id":1099511627777,"parent":null,"resource":1099511627777,"source":"wait"}],"new_resources":[{"attrs":[],"id":1099511627777,"kind":"K","loc":["script",1,1],"parent":null,"type":"T"}],"new_tasks":[],"now":3,"op_stats":[{"attrs":[[-3]],"busy":0,"created":2,"dropped":null,"first_poll":null,"handles":1,"id":1099511627777,"last_ended":null,"last_started":null,"polling":false,"polls":0,"task":null}],"poll_counts":[],"resource_stats":[{"attrs":[],"created":1,"dropped":null,"handles":2,"id":1099511627777}],"seq":1,"snapshot":false,"task_stats":[],"v":1}"#;

#[rattlefmt::skip]
const LINES: [(&str, &[u8], &[&str]); 2] = [
    ("an operation and its calls", CALLED, &[NEW, POLLED, CLOSED]),
    ("a signed attribute",         b"resource 1 K T\nop 2 1 wait ahead=+4\nosub 1 0 +5\noadd 1 0 -2\npublish 3\n", &[SIGNED]),
];

#[test]
fn operations_are_told(rt: HostRuntime) {
    assert_all_write(&rt, LINES.as_slice());
}

// What `op` and `optask` merely name may be closed.
const NAMED: &[u8] =
    b"task 1 spawn a\nresource 2 K T\nclose 1 3\nrclose 1 4\nop 5 1 wait\noptask 1 1\n";

#[test]
fn what_is_merely_named_may_be_closed(rt: HostRuntime) {
    assert_runs(&rt, "a closed task and a closed resource", NAMED, "", &[]);
}

// Each script stops at its last line.
#[rattlefmt::skip]
const REFUSED: [(&str, &[u8], &str); 21] = [
    ("an operation on no resource",  b"op 1 1 wait\n",                                              "line 1: NoSuchItem"),
    ("an operation on resource 0",   b"resource 1 K T\nop 1 0 wait\n",                              "line 2: NoSuchItem"),
    ("one resource was made",        b"resource 1 K T\nop 1 2 wait\n",                              "line 2: NoSuchItem"),
    ("no operation was made",        b"resource 1 K T\nopstart 1 2\n",                              "line 2: NoSuchItem"),
    ("a poll of operation 0",        b"resource 1 K T\nop 1 1 wait\nopstart 0 2\n",                 "line 3: NoSuchItem"),
    ("a task that was not made",     b"resource 1 K T\nop 1 1 wait\noptask 1 1\n",                  "line 3: NoSuchItem"),
    ("task 0",                       b"task 1 spawn a\nresource 1 K T\nop 1 1 wait\noptask 1 0\n",  "line 4: NoSuchItem"),
    ("a task of no operation",       b"task 1 spawn a\noptask 1 1\n",                               "line 2: NoSuchItem"),
    ("a task of a closed operation", b"task 1 spawn a\nresource 1 K T\nop 1 1 wait\nopclose 1 2\noptask 1 1\n", "line 5: NoSuchItem"),
    ("a poll after a close",         b"resource 1 K T\nop 1 1 wait\nopclose 1 2\nopstart 1 3\n",    "line 4: NoSuchItem"),
    ("a change after a close",       b"resource 1 K T\nop 1 1 wait a=1\nopclose 1 2\noadd 1 0 1\n", "line 4: NoSuchItem"),
    ("a second close",               b"resource 1 K T\nop 1 1 wait\nopclose 1 2\nopclose 1 3\n",    "line 4: NoSuchItem"),
    ("a poll in a poll",             b"resource 1 K T\nop 1 1 wait\nopstart 1 2\nopstart 1 3\n",    "line 4: AlreadyPolling"),
    ("a close in a poll",            b"resource 1 K T\nop 1 1 wait\nopstart 1 2\nopclose 1 3\n",    "line 4: AlreadyPolling"),
    ("an end without a poll",        b"resource 1 K T\nop 1 1 wait\nopend 1 2\n",                   "line 3: NotPolling"),
    ("no attribute",                 b"resource 1 K T a=1\nop 1 1 wait\noadd 1 0 1\n",              "line 3: NoAttribute"),
    ("a flag is added",              b"resource 1 K T\nop 1 1 wait a=true\noadd 1 0 true\n",         "line 3: WrongKind"),
    ("below 0",                      b"resource 1 K T\nop 1 1 wait a=5\nosub 1 0 6\n",              "line 3: OutOfRange"),
    ("above the greatest",           b"resource 1 K T\nop 1 1 wait a=1\noadd 1 0 18446744073709551615\n", "line 3: OutOfRange"),
    ("a plain number is added to a signed one", b"resource 1 K T\nop 1 1 wait a=-5\noadd 1 0 1\n", "line 3: WrongKind"),
    ("below the least signed number", b"resource 1 K T\nop 1 1 wait a=-9223372036854775808\nosub 1 0 +1\n", "line 3: OutOfRange"),
];

#[test]
fn an_operation_is_there_and_takes_the_call(rt: HostRuntime) {
    assert_all_stop(&rt, REFUSED.as_slice());
}

// Lines that are no command: words that are missing, too many or out of range, and attributes.
#[rattlefmt::skip]
const BAD: [&[u8]; 24] = [
    b"op", b"op 1", b"op 1 1", b"op one 1 wait", b"op 1 -1 wait", b"op 1 1 ", b"op 1 1 \x7f", b"op 1 1 wait a", b"op 1 1 wait a=1 a=1", b"op 1 1 wait a=1 b=1 c=1 d=1 e=1 f=1 g=1",
    b"optask 1", b"optask 1 1 1", b"optask 1 one", b"opstart 1", b"opstart 1 x", b"opend 1", b"opend 1 2 3", b"opclose", b"opclose -1 1",
    b"oadd 1 0", b"oadd 1 x 1", b"osub 1 0 no", b"oset 1 0", b"oset 1 0 1 1",
];

#[test]
fn operations_have_their_words(rt: HostRuntime) {
    assert_are_bad(&rt, BAD.as_slice());
}
