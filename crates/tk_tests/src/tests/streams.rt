//! The stream of each script is taken by a client, whole and in pieces, and leads it to the tables that the script's last line
//! tells of.
ghost use Rattle.std.specs.Prelude.{◌≡◌};
ghost use Rattle.tk_stream.specs.Tables.{empty_tables};

use super::scripts as script;
use std::alloc::Global;
use std::sync::Wait;
use std::test::*;
use std::thread::Threads;
use tk_app::{Open, run_script};
use tk_client::{Client, Lints, Warning, WarningKind};
use tk_ids::TaskId;
use tk_stream::{Line, PollTimes, Table, Tables, ToldRows};

// Each helper owns one of these at most, and lends it to the next: so their proofs stay short.

// What a script writes, if it has no fault.
pub(super) fn stream_of<R: Threads + Wait + Sync + AllocGlobal>(
    rt: &R,
    script: &'static [u8],
) -> Option<Vec<u8>> {
    let mut reader = script;
    let mut written = Vec::new(rt.alloc());
    match run_script(rt, rt.alloc(), &mut reader, &mut written, &Open) {
        Ok(()) => Some(written),
        Err(_) => None,
    }
}

// How many lines a client applies that is fed the bytes in pieces of a size, if it finds no fault.
fn lines_taken(client: &mut Client, bytes: &[u8], size: usize) -> Option<u64> {
    let mut lines = 0u64;
    for piece in bytes.chunks(size.max(1)) {
        match client.feed(piece) {
            Ok(more) => lines = lines.saturating_add(more),
            Err(_) => return None,
        }
    }
    Some(lines)
}

// Whether the bytes end with this text and a line end.
fn end_with_text(bytes: &[u8], text: &[u8]) -> bool {
    bytes.len() > text.len() && bytes.ends_with(b"\n") && bytes[..bytes.len() - 1].ends_with(text)
}

fn end_with_line(bytes: &[u8], line: &Line) -> bool {
    match line.write() {
        Ok(text) => end_with_text(bytes, text.as_slice()),
        Err(_) => false,
    }
}

// Whether they end with the line as one of version 2, or of version 3 with these histograms.
fn end_with_later(
    alloc: Global,
    bytes: &[u8],
    line: Line,
    times: &Table<(TaskId, PollTimes)>,
) -> bool {
    let line = line.removing_nothing();
    if end_with_line(bytes, &line) {
        return true;
    }
    match line.telling(&ToldRows::new(alloc), times, None) {
        Ok(line) => end_with_line(bytes, &line),
        Err(_) => false,
    }
}

fn end_with_snapshot(
    alloc: Global,
    bytes: &[u8],
    none: &Tables,
    client: &Client,
    number: u64,
) -> bool
    requires { none.now ≡ empty_tables }
{
    if number < 1 || number > 100 {
        return false;
    }
    match Line::between(alloc, none, client.tables(), number, true) {
        Ok(line) => {
            end_with_line(bytes, &line) || end_with_later(alloc, bytes, line, client.times())
        }
        Err(_) => false,
    }
}

// Whether the bytes end with the snapshot line that has this number of a client's tables and histograms, in any version.
fn end_with(alloc: Global, bytes: &[u8], client: &Client, number: u64) -> bool {
    match Tables::new(alloc) {
        Ok(none) => end_with_snapshot(alloc, bytes, &none, client, number),
        Err(_) => false,
    }
}

// Whether a client takes the stream in pieces of a size: all of its lines, of which the last is the snapshot of what it holds.
fn is_taken_by(client: &mut Client, alloc: Global, bytes: &[u8], size: usize, lines: u64) -> bool {
    lines_taken(client, bytes, size) == Some(lines) && end_with(alloc, bytes, client, lines)
}

fn is_taken_by_size(alloc: Global, bytes: &[u8], size: usize, lines: u64) -> bool {
    match Client::new(alloc, 100_000) {
        Ok(mut client) => is_taken_by(&mut client, alloc, bytes, size, lines),
        Err(_) => false,
    }
}

fn is_taken_by_all_sizes(alloc: Global, bytes: &[u8], lines: u64) -> bool {
    let mut all = true;
    for size in [1, 2, 7, 64, 1_000, 100_000] {
        all = all && is_taken_by_size(alloc, bytes, size, lines);
    }
    all
}

// Whether a script ends without a fault, and a client takes its stream of so many lines in pieces of any size.
fn is_taken<R: Threads + Wait + Sync + AllocGlobal>(
    rt: &R,
    script: &'static [u8],
    lines: u64,
) -> bool {
    match stream_of(rt, script) {
        Some(bytes) => is_taken_by_all_sizes(rt.alloc(), bytes.as_slice(), lines),
        None => false,
    }
}

#[test]
fn examples_are_taken(rt: HostRuntime) -> Result<(), Fail> {
    assert!(rt; is_taken(&rt, script::first(), 3), "first");
    assert!(rt; is_taken(&rt, script::long_poll(), 4), "long-poll");
    assert!(rt; is_taken(&rt, script::never_woken(), 2), "never-woken");
    assert!(rt; is_taken(&rt, script::wakes_itself(), 5), "wakes-itself");
    assert!(rt; is_taken(&rt, script::semaphore(), 3), "semaphore");
    assert!(rt; is_taken(&rt, script::lost_waker(), 3), "lost-waker");
    assert!(rt; is_taken(&rt, script::burst(), 5), "burst");
    assert!(rt; is_taken(&rt, script::two_threads(), 3), "two-threads");
    assert!(rt; is_taken(&rt, script::queue_lag(), 3), "queue-lag");
    assert!(rt; is_taken(&rt, script::retention(), 5), "retention");
    Ok(())
}

#[test]
fn every_command_is_taken(rt: HostRuntime) -> Result<(), Fail> {
    assert!(rt; is_taken(&rt, script::every_command(), 4));
    Ok(())
}

// Whether there is one warning: of this kind, of the task of this number.
fn is_one(warnings: &[Warning], number: u64, kind: WarningKind) -> bool {
    match warnings {
        [warning] => warning.task.parts().1 == number && warning.kind == kind,
        _ => false,
    }
}

fn warns_once(client: &Client, number: u64, kind: WarningKind) -> bool {
    match client.warnings(&Lints::default()) {
        Ok(warnings) => is_one(warnings.as_slice(), number, kind),
        Err(_) => false,
    }
}

fn feeds_and_warns(client: &mut Client, bytes: &[u8], number: u64, kind: WarningKind) -> bool {
    match lines_taken(client, bytes, 64) {
        Some(_) => warns_once(client, number, kind),
        None => false,
    }
}

fn client_warns(alloc: Global, bytes: &[u8], number: u64, kind: WarningKind) -> bool {
    match Client::new(alloc, 100_000) {
        Ok(mut client) => feeds_and_warns(&mut client, bytes, number, kind),
        Err(_) => false,
    }
}

// Whether a client that took the stream of a script warns once: of the task of this number.
fn warns<R: Threads + Wait + Sync + AllocGlobal>(
    rt: &R,
    script: &'static [u8],
    number: u64,
    kind: WarningKind,
) -> bool {
    match stream_of(rt, script) {
        Some(bytes) => client_warns(rt.alloc(), bytes.as_slice(), number, kind),
        None => false,
    }
}

#[test]
fn warns_of_what_the_examples_show(rt: HostRuntime) -> Result<(), Fail> {
    assert!(rt;
        warns(&rt, script::wakes_itself(), 1, WarningKind::SelfWakes),
        "the example that wakes itself"
    );
    assert!(rt;
        warns(&rt, script::lost_waker(), 1, WarningKind::LostWaker),
        "the example of a lost waker"
    );
    Ok(())
}
