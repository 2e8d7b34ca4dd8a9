//! What a script stops at, by the number of its line and its name, and the lines before it.

use super::given::{MAIN_LINE, assert_all_run, assert_all_stop, is_text_of};
use std::alloc::Global;
use tk_app::AppFault;

// What a call of the owner is refused with.
#[rattlefmt::skip]
const CALLS: [(&str, &[u8], &str); 5] = [
    ("a start during a poll", b"task 1 spawn a\nstart 1 2\nstart 1 3\n",          "line 3: AlreadyPolling"),
    ("a close during a poll", b"task 1 spawn a\nstart 1 2\nclose 1 3\n",          "line 3: AlreadyPolling"),
    ("an end before a start", b"task 1 spawn a\nend 1 2\n",                       "line 2: NotPolling"),
    ("a second end",          b"task 1 spawn a\nstart 1 2\nend 1 3\nend 1 4\n",   "line 4: NotPolling"),
    ("a poll of another task", b"task 1 spawn a\ntask 1 spawn b\nstart 1 2\nend 2 3\n", "line 4: NotPolling"),
];

#[test]
fn refused_calls_stop_a_script(rt: HostRuntime) {
    assert_all_stop(&rt, CALLS.as_slice());
}

// Where a fault stands, and what was written before it.
#[rattlefmt::skip]
const PLACES: [(&str, &[u8], &str, &[&str]); 8] = [
    ("the first line",               b"tusk",                                                  "line 1: BadCommand", &[]),
    ("comments and empty lines count", b"# a\n\n\n#\ntusk\n",                                  "line 5: BadCommand", &[]),
    ("a line before the fault stays", b"task 100 spawn main\npublish 200\ntusk\n",             "line 3: BadCommand", &[MAIN_LINE]),
    ("a last line without its end",  b"task 100 spawn main\npublish 200\nstart 2 5",           "line 3: NoSuchItem", &[MAIN_LINE]),
    ("nothing is done after it",     b"task 100 spawn main\ntusk\npublish 200\n",              "line 2: BadCommand", &[]),
    ("the first of two faults",      b"start 1 5\ntusk\n",                                     "line 1: NoSuchItem", &[]),
    ("a moment below the last line's", b"task 100 spawn main\npublish 200\npublish 199\n",     "line 3: Clock",      &[MAIN_LINE]),
    ("a bad command is told before an item that is not there", b"start 9 x\n",                 "line 1: BadCommand", &[]),
];

#[test]
fn a_fault_is_told_by_its_line(rt: HostRuntime) {
    assert_all_run(&rt, PLACES.as_slice());
}

// The number and the text of each fault.
#[rattlefmt::skip]
const CODES: [(AppFault, u32, &str); 4] = [
    (AppFault::Memory,                                 1, "Memory"),
    (AppFault::Read,                                   2, "Read"),
    (AppFault::Write,                                  3, "Write"),
    (AppFault::Script { line: 3, name: "NotPolling" }, 4, "line 3: NotPolling"),
];

fn has(alloc: Global, fault: AppFault, code: u32, text: &str) -> bool {
    fault.code() == code && is_text_of(alloc, fault, text)
}

#[test]
fn each_fault_has_its_number_and_text(rt: HostRuntime) {
    for (fault, code, text) in CODES {
        assert!(rt; has(rt.alloc(), fault, code, text), "{text}");
    }
}
