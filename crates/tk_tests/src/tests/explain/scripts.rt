//! What is told of a script that was run.

use super::given::reads_all;
use std::alloc::Global;
use std::process::Abort;
use tk_explain::{Kept, explain_script};
use tk_fault::AppFault;

// Whether this is told of a script and what came of it.
fn tells(alloc: Global, script: &[u8], outcome: Result<(), AppFault>, told: &str) -> bool {
    let mut kept = Kept::all(alloc, script);
    let mut out = Vec::new(alloc);
    let is_read = reads_all(alloc, &mut kept, script);
    let is_told = explain_script(alloc, &kept, outcome, &mut out).is_ok();
    is_read && is_told && out.as_slice() == told.as_bytes()
}

// Scripts that a line of this number stopped under this name, and what is told.
type Stopped = (&'static [u8], u64, &'static str, &'static str);

fn assert_all_tell<R: Abort + AllocGlobal>(rt: &R, cases: &[Stopped]) {
    for (script, line, name, told) in cases {
        let outcome = Err(AppFault::Script { line: *line, name });
        assert!(rt; tells(rt.alloc(), script, outcome, told), "{told}");
    }
}

// Lines that are no command, or none that may stand there.
#[rattlefmt::skip]
const COMMANDS: [Stopped; 6] = [
    (b"# a\ntusk 1 2\n", 2, "BadCommand", "  2 | tusk 1 2\n  `tusk` is no command: `taskscope run --help` has them all\n"),
    (b" task",           1, "BadCommand", "  1 |  task\n  `` is no command: `taskscope run --help` has them all\n"),
    (b"\xC3\xA9 1",      1, "BadCommand", "  1 | .. 1\n  `..` is no command: `taskscope run --help` has them all\n"),
    (b"start 1\n",       1, "BadCommand", "  1 | start 1\n  it is spelled: start TASK MOMENT\n"),
    (b"radd 1 0",        1, "BadCommand", "  1 | radd 1 0\n  it is spelled: radd RESOURCE INDEX VALUE\n"),
    (b"publish 1\ntimes\n", 2, "BadCommand", "  2 | times\n  a setting stands once, and before all other commands\n"),
];

#[test]
fn a_bad_command_is_told_by_its_word(rt: HostRuntime) {
    assert_all_tell(&rt, COMMANDS.as_slice());
}

// Lines of blocks, or in them.
#[rattlefmt::skip]
const BLOCKS: [Stopped; 8] = [
    (b"join\n",                       1, "BadCommand", "  1 | join\n  no block is open: `par` opens one\n"),
    (b"1 release 1\n",                1, "BadCommand", "  1 | 1 release 1\n  no block is open: `par` opens one\n"),
    (b"par\njoin\njoin\n",            3, "BadCommand", "  3 | join\n  no block is open: `par` opens one\n"),
    (b"par\npar\njoin\n",             2, "BadCommand", "  2 | par\n  a block is open: `join` closes it\n"),
    (b"par\n",                        1, "BadCommand", "  1 | par\n  the block is not joined\n"),
    (b"par\n1 release 1\n",           2, "BadCommand", "  2 | 1 release 1\n  the block is not joined, or the waker has lines of the other thread\n"),
    (b"par\n1 release 1\n2 release 1\njoin", 3, "BadCommand", "  3 | 2 release 1\n  the waker has lines of the other thread\n"),
    (b"par\npublish 1\njoin\n",       2, "BadCommand", "  2 | publish 1\n  in a block stand lines of its threads, as `1 wake WAKER MOMENT`, and `join`\n"),
];

#[test]
fn a_line_is_told_by_its_block(rt: HostRuntime) {
    assert_all_tell(&rt, BLOCKS.as_slice());
}

// What is not there, by the word of the line.
#[rattlefmt::skip]
const MISSING: [Stopped; 7] = [
    (b"start 1 2",        1, "NoSuchItem", "  1 | start 1 2\n  no task of this number was made, or it is closed\n"),
    (b"wake 1 2",         1, "NoSuchItem", "  1 | wake 1 2\n  no waker of this number was drawn, or it is spent\n"),
    (b"par\n1 wake 1 2\njoin", 2, "NoSuchItem", "  2 | 1 wake 1 2\n  no waker of this number was drawn, or it is spent\n"),
    (b"rset 1 0 2",       1, "NoSuchItem", "  1 | rset 1 0 2\n  no resource of this number was made\n"),
    (b"rclose 1 2",       1, "NoSuchItem", "  1 | rclose 1 2\n  no resource of this number was made, or it is closed\n"),
    (b"optask 1 2",       1, "NoSuchItem", "  1 | optask 1 2\n  no task of this number was made, or the async operation wasn't, or is closed\n"),
    (b"pollop 1 1 1 a ready", 1, "NoSuchItem", "  1 | pollop 1 1 1 a ready\n  the resource, the async operation or the task was not made\n"),
];

#[test]
fn what_is_missing_is_told_by_the_word(rt: HostRuntime) {
    assert_all_tell(&rt, MISSING.as_slice());
}

// The other names that a line stops under.
#[rattlefmt::skip]
const RULES: [Stopped; 6] = [
    (b"a\nb\n",   2, "AlreadyPolling", "  2 | b\n  a poll is open: end it first\n"),
    (b"a\nb",     2, "NotPolling",     "  2 | b\n  no poll is open: start one first\n"),
    (b"\n\nc",    3, "OutOfRange",     "  3 | c\n  the attribute would leave the range of its kind\n"),
    (b"a",        1, "Clock",          "  1 | a\n  its moment is below that of the line of the stream before\n"),
    (b"a",        1, "WriteFault",     "  1 | a\n  the line of the stream was not written whole\n"),
    (b"a",        1, "Other",          "  1 | a\n  it was refused\n"),
];

#[test]
fn a_refusal_is_told_by_its_name(rt: HostRuntime) {
    assert_all_tell(&rt, RULES.as_slice());
}

// Scripts that ran, and what is told.
#[rattlefmt::skip]
const RAN: [(&[u8], &str); 5] = [
    (b"",                            "  commands: 0, of which none is `publish` or `snapshot`: nothing was written\n"),
    (b"# a\n\ntask 1 spawn a\n",     "  commands: 1, of which none is `publish` or `snapshot`: nothing was written\n"),
    (b"par\n1 release 1\njoin",      "  commands: 3, of which none is `publish` or `snapshot`: nothing was written\n"),
    (b"task 1 spawn a\npublish 2\n", ""),
    (b"snapshot 2",                  ""),
];

#[test]
fn a_script_that_writes_nothing_is_told(rt: HostRuntime) {
    for (script, told) in RAN {
        assert!(rt; tells(rt.alloc(), script, Ok(()), told), "{told}");
    }
}

// Faults that no line has, and what is told.
#[rattlefmt::skip]
const OTHERS: [(AppFault, &str); 4] = [
    (AppFault::Read,                            "  the input can't be read, or has more than 1,048,576 bytes\n"),
    (AppFault::Memory,                          ""),
    (AppFault::Write,                           ""),
    (AppFault::Script { line: 9, name: "Clock" }, ""),
];

#[test]
fn a_fault_without_a_line_is_told_alone(rt: HostRuntime) {
    for (fault, told) in OTHERS {
        assert!(rt;
            tells(rt.alloc(), b"publish 1\n", Err(fault), told),
            "{told}"
        );
    }
}
