//! What a script without a fault writes.

use super::given::{MAIN, MAIN_LINE, assert_all_write};

const FIRST_EMPTY_LINE: &str =
    r#"{"dropped":[0,0,0],"new_ops":[],"new_resources":[],"new_tasks":[],"now":5,"op_stats":[],"poll_counts":[],"resource_stats":[],"seq":1,"snapshot":false,"task_stats":[],"v":1}"#;

const SECOND_EMPTY_LINE: &str =
    r#"{"dropped":[0,0,0],"new_ops":[],"new_resources":[],"new_tasks":[],"now":5,"op_stats":[],"poll_counts":[],"resource_stats":[],"seq":2,"snapshot":false,"task_stats":[],"v":1}"#;

// Two tasks are made, and one of them is started. Then nothing happens.
const TWO_TASKS: &[u8] =
    b"task 100 spawn main\ntask 110 blocking io\npublish 200\nstart 1 250\npublish 300\npublish 300\n";

const BOTH_NEW: &str =
    r#"{"dropped":[0,0,0],"new_ops":[],"new_resources":[],"new_tasks":[{"id":1099511627777,"kind":"spawn","loc":["script",1,1],"name":"main"},{"id":1099511627778,"kind":"blocking","loc":["script",2,1],"name":"io"}],"now":200,"op_stats":[],"poll_counts":[],"resource_stats":[],"seq":1,"snapshot":false,"task_stats":[{"busy":0,"clones":0,"created":100,"dropped":null,"drops":0,"first_poll":null,"handles":1,"id":1099511627777,"last_ended":null,"last_started":null,"last_wake":null,"polling":false,"polls":0,"sched":0,"scheduled":true,"self_wakes":0,"wakes":0},{"busy":0,"clones":0,"created":110,"dropped":null,"drops":0,"first_poll":null,"handles":1,"id":1099511627778,"last_ended":null,"last_started":null,"last_wake":null,"polling":false,"polls":0,"sched":0,"scheduled":true,"self_wakes":0,"wakes":0}],"v":1}"#;

const ONE_CHANGED: &str =
    r#"{"dropped":[0,0,0],"new_ops":[],"new_resources":[],"new_tasks":[],"now":300,"op_stats":[],"poll_counts":[],"resource_stats":[],"seq":2,"snapshot":false,"task_stats":[{"busy":0,"clones":0,"created":100,"dropped":null,"drops":0,"first_poll":250,"handles":1,"id":1099511627777,"last_ended":null,"last_started":250,"last_wake":null,"polling":true,"polls":1,"sched":150,"scheduled":false,"self_wakes":0,"wakes":0}],"v":1}"#;

const NONE_CHANGED: &str =
    r#"{"dropped":[0,0,0],"new_ops":[],"new_resources":[],"new_tasks":[],"now":300,"op_stats":[],"poll_counts":[],"resource_stats":[],"seq":3,"snapshot":false,"task_stats":[],"v":1}"#;

// A task that is made after the first line.
const LATER_TASK: &[u8] = b"task 100 spawn main\npublish 200\ntask 250 spawn io\npublish 300\n";

const LATER_LINE: &str =
    r#"{"dropped":[0,0,0],"new_ops":[],"new_resources":[],"new_tasks":[{"id":1099511627778,"kind":"spawn","loc":["script",3,1],"name":"io"}],"now":300,"op_stats":[],"poll_counts":[],"resource_stats":[],"seq":2,"snapshot":false,"task_stats":[{"busy":0,"clones":0,"created":250,"dropped":null,"drops":0,"first_poll":null,"handles":1,"id":1099511627778,"last_ended":null,"last_started":null,"last_wake":null,"polling":false,"polls":0,"sched":0,"scheduled":true,"self_wakes":0,"wakes":0}],"v":1}"#;

// What lines tell of what was made or called since the line before.
#[rattlefmt::skip]
const LINES: [(&str, &[u8], &[&str]); 5] = [
    ("a task",                             MAIN,                     &[MAIN_LINE]),
    ("no task",                            b"publish 5\n",           &[FIRST_EMPTY_LINE]),
    ("two lines at one moment",            b"publish 5\npublish 5\n", &[FIRST_EMPTY_LINE, SECOND_EMPTY_LINE]),
    ("an old task, changed and unchanged", TWO_TASKS,                &[BOTH_NEW, ONE_CHANGED, NONE_CHANGED]),
    ("a task after the first line",        LATER_TASK,               &[MAIN_LINE, LATER_LINE]),
];

#[test]
fn a_line_tells_what_is_new(rt: HostRuntime) {
    assert_all_write(&rt, LINES.as_slice());
}

// A task of line 4.
const COUNTED_LINE: &str =
    r#"{"dropped":[0,0,0],"new_ops":[],"new_resources":[],"new_tasks":[{"id":1099511627777,"kind":"spawn","loc":["script",4,1],"name":"main"}],"now":200,"op_stats":[],"poll_counts":[],"resource_stats":[],"seq":1,"snapshot":false,"task_stats":[{"busy":0,"clones":0,"created":100,"dropped":null,"drops":0,"first_poll":null,"handles":1,"id":1099511627777,"last_ended":null,"last_started":null,"last_wake":null,"polling":false,"polls":0,"sched":0,"scheduled":true,"self_wakes":0,"wakes":0}],"v":1}"#;

// What a script may have beside its commands.
#[rattlefmt::skip]
const LAYOUTS: [(&str, &[u8], &[&str]); 7] = [
    ("nothing at all",                   b"",                                                         &[]),
    ("an empty line",                    b"\n",                                                       &[]),
    ("a comment without its line end",   b"# nothing",                                                &[]),
    ("a command in a comment",           b"#publish 5\n",                                             &[]),
    ("comments and empty lines count",   b"# a\n\n#\ntask 100 spawn main\n\npublish 200\n# b\n",      &[COUNTED_LINE]),
    ("the last line without its end",    b"task 100 spawn main\npublish 200",                         &[MAIN_LINE]),
    ("numbers with zeros in front",      b"task 00000000000000000100 spawn main\npublish 0000200\n",  &[MAIN_LINE]),
];

#[test]
fn a_script_may_have_other_lines(rt: HostRuntime) {
    assert_all_write(&rt, LAYOUTS.as_slice());
}

const ESCAPED_LINE: &str =
    r#"{"dropped":[0,0,0],"new_ops":[],"new_resources":[],"new_tasks":[{"id":1099511627777,"kind":"spawn","loc":["script",1,1],"name":"a\"b\\c/~!"}],"now":200,"op_stats":[],"poll_counts":[],"resource_stats":[],"seq":1,"snapshot":false,"task_stats":[{"busy":0,"clones":0,"created":100,"dropped":null,"drops":0,"first_poll":null,"handles":1,"id":1099511627777,"last_ended":null,"last_started":null,"last_wake":null,"polling":false,"polls":0,"sched":0,"scheduled":true,"self_wakes":0,"wakes":0}],"v":1}"#;

const GREATEST_LINE: &str =
    r#"{"dropped":[0,0,0],"new_ops":[],"new_resources":[],"new_tasks":[{"id":1099511627777,"kind":"spawn","loc":["script",1,1],"name":"main"}],"now":18446744073709551615,"op_stats":[],"poll_counts":[],"resource_stats":[],"seq":1,"snapshot":false,"task_stats":[{"busy":0,"clones":0,"created":18446744073709551615,"dropped":null,"drops":0,"first_poll":null,"handles":1,"id":1099511627777,"last_ended":null,"last_started":null,"last_wake":null,"polling":false,"polls":0,"sched":0,"scheduled":true,"self_wakes":0,"wakes":0}],"v":1}"#;

const GREATEST: &[u8] = b"task 18446744073709551615 spawn main\npublish 18446744073709551615\n";

// Names and moments at their ends.
#[rattlefmt::skip]
const ENDS: [(&str, &[u8], &[&str]); 2] = [
    ("a name that JSON escapes", b"task 100 spawn a\"b\\c/~!\npublish 200\n", &[ESCAPED_LINE]),
    ("the greatest moment",      GREATEST,                                    &[GREATEST_LINE]),
];

#[test]
fn names_and_moments_reach_their_ends(rt: HostRuntime) {
    assert_all_write(&rt, ENDS.as_slice());
}
