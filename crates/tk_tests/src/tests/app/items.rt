//! Tasks that a script calls by a number under which there is none.

use super::given::{assert_all_stop, assert_runs};

// Each script stops at its last line, since the task was not made, or is closed.
#[rattlefmt::skip]
const NONE_THERE: [(&str, &[u8], &str); 9] = [
    ("a start of task 0",             b"task 1 spawn a\nstart 0 5\n",                      "line 2: NoSuchItem"),
    ("an end of task 0",              b"task 1 spawn a\nend 0 5\n",                        "line 2: NoSuchItem"),
    ("a close of task 0",             b"task 1 spawn a\nclose 0 5\n",                      "line 2: NoSuchItem"),
    ("no task was made",              b"start 1 5\n",                                      "line 1: NoSuchItem"),
    ("one task was made",             b"task 1 spawn a\nend 2 5\n",                        "line 2: NoSuchItem"),
    ("the greatest number",           b"task 1 spawn a\nclose 18446744073709551615 5\n",   "line 2: NoSuchItem"),
    ("a start of a closed task",      b"task 1 spawn a\nclose 1 2\nstart 1 3\n",           "line 3: NoSuchItem"),
    ("an end of a closed task",       b"task 1 spawn a\nstart 1 2\nend 1 3\nclose 1 4\nend 1 5\n", "line 5: NoSuchItem"),
    ("a second close",                b"task 1 spawn a\nclose 1 2\nclose 1 3\n",           "line 3: NoSuchItem"),
];

#[test]
fn a_call_needs_its_task(rt: HostRuntime) {
    assert_all_stop(&rt, NONE_THERE.as_slice());
}

// A closed task keeps its number, and the others can be called.
#[test]
fn a_close_leaves_the_other_tasks(rt: HostRuntime) {
    let script =
        b"task 1 spawn a\ntask 2 spawn b\nclose 1 3\nstart 2 4\nend 2 5\nclose 2 6\ntask 7 spawn c\nstart 3 8\n";
    assert_runs(&rt, "three tasks", script.as_slice(), "", &[]);
}
