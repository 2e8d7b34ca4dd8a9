//! Scripts that are run in memory, and what comes of them.
//!
//! Each function owns at most one text, and lends it to the next, and long tables are gone through here and not in the tests:
//! that keeps the proofs short.

use std::alloc::Global;
use std::io::{Read, Write};
use std::process::Abort;
use std::sync::Wait;
use std::thread::Threads;
use tk_app::{AppFault, Open, run_script};

// A task that is made, and a line that tells of it.
pub(super) const MAIN: &[u8] = b"task 100 spawn main\npublish 200\n";

// That line.
pub(super) const MAIN_LINE: &str =
    r#"{"dropped":[0,0,0],"new_ops":[],"new_resources":[],"new_tasks":[{"id":1099511627777,"kind":"spawn","loc":["script",1,1],"name":"main"}],"now":200,"op_stats":[],"poll_counts":[],"resource_stats":[],"seq":1,"snapshot":false,"task_stats":[{"busy":0,"clones":0,"created":100,"dropped":null,"drops":0,"first_poll":null,"handles":1,"id":1099511627777,"last_ended":null,"last_started":null,"last_wake":null,"polling":false,"polls":0,"sched":0,"scheduled":true,"self_wakes":0,"wakes":0}],"v":1}"#;

// Whether the fault has this text.
pub(super) fn is_text_of(alloc: Global, fault: AppFault, text: &str) -> bool {
    match format!(in alloc; "{fault}") {
        Ok(told) => told.as_str() == text,
        Err(_) => false,
    }
}

// Whether running stops at the fault of this text, or at none where that is empty.
pub(super) fn stops_at<R: Threads + Wait + Sync + AllocGlobal, I: Read, W: Write>(
    rt: &R,
    reader: &mut I,
    writer: &mut W,
    fault: &str,
) -> bool {
    match run_script(rt, rt.alloc(), reader, writer, &Open) {
        Ok(()) => fault.is_empty(),
        Err(stop) => is_text_of(rt.alloc(), stop, fault),
    }
}

// Whether it does, and has written this text.
pub(super) fn runs_from<R: Threads + Wait + Sync + AllocGlobal, I: Read>(
    rt: &R,
    reader: &mut I,
    fault: &str,
    wanted: &str,
) -> bool {
    let mut written = Vec::new(rt.alloc());
    stops_at(rt, reader, &mut written, fault) && written.as_slice() == wanted.as_bytes()
}

// Lines, each with its line end.
pub(super) fn text_of(alloc: Global, lines: &[&str]) -> Option<String> {
    let mut text = String::new(alloc);
    for line in lines {
        text.push_str(line).ok()?;
        text.push('\n').ok()?;
    }
    Some(text)
}

// Whether the script stops at this fault, or at none where its text is empty, and has written these lines.
pub(super) fn runs<R: Threads + Wait + Sync + AllocGlobal>(
    rt: &R,
    script: &'static [u8],
    fault: &str,
    lines: &[&str],
) -> bool {
    let mut reader = script;
    match text_of(rt.alloc(), lines) {
        Some(wanted) => runs_from(rt, &mut reader, fault, wanted.as_str()),
        None => false,
    }
}

// The script stops at this fault, or at none where its text is empty, and has written these lines.
pub(super) fn assert_runs<R: Abort + Threads + Wait + Sync + AllocGlobal>(
    rt: &R,
    case: &str,
    script: &'static [u8],
    fault: &str,
    lines: &[&str],
) {
    assert!(rt; runs(rt, script, fault, lines), "{case}");
}

// Each script stops at its fault, or at none where its text is empty, and has written its lines.
pub(super) fn assert_all_run<R: Abort + Threads + Wait + Sync + AllocGlobal>(
    rt: &R,
    cases: &[(&str, &'static [u8], &str, &[&str])],
) {
    for (case, script, fault, lines) in cases {
        assert_runs(rt, case, script, fault, lines);
    }
}

// Each script stops at its fault, and has written nothing.
pub(super) fn assert_all_stop<R: Abort + Threads + Wait + Sync + AllocGlobal>(
    rt: &R,
    cases: &[(&str, &'static [u8], &str)],
) {
    for (case, script, fault) in cases {
        assert_runs(rt, case, script, fault, &[]);
    }
}

// Each script has no fault, and has written its lines.
pub(super) fn assert_all_write<R: Abort + Threads + Wait + Sync + AllocGlobal>(
    rt: &R,
    cases: &[(&str, &'static [u8], &[&str])],
) {
    for (case, script, lines) in cases {
        assert_runs(rt, case, script, "", lines);
    }
}

// None of these lines is a command.
pub(super) fn assert_are_bad<R: Abort + Threads + Wait + Sync + AllocGlobal>(
    rt: &R,
    lines: &[&'static [u8]],
) {
    for line in lines {
        let case = str::from_utf8(line).unwrap_or("a line that is no text");
        assert_runs(rt, case, line, "line 1: BadCommand", &[]);
    }
}
