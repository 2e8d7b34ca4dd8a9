//! Lines with one task: which warnings its row has, and which line is next.

use super::given::{
    empty_line, fed, fed_in_pieces, first_line, line_of, on_client, on_made, row_of,
};
use super::texts as text;
use std::alloc::Global;
use tk_client::{Client, Fault, FeedError, Lints, LongPoll, Warning, WarningKind, long_polls_in};

// The digits of warnings in their order: 1 for self-wakes, 2 for a lost waker, 3 for a poll that does not yield.
fn digits_of(warnings: &[Warning]) -> u64 {
    let mut digits = 0u64;
    for warning in warnings {
        let digit = match warning.kind {
            WarningKind::SelfWakes => 1,
            WarningKind::LostWaker => 2,
            WarningKind::NeverYielded => 3,
        };
        digits = digits.saturating_mul(10).saturating_add(digit);
    }
    digits
}

fn digits_of_client(client: &Client, lints: &Lints) -> Option<u64> {
    match client.warnings(lints) {
        Ok(list) => Some(digits_of(&list)),
        Err(_) => None,
    }
}

// The warnings of a client that takes this line first.
fn warned_by(client: &mut Client, line: &[u8], lints: &Lints) -> Option<u64> {
    let came = fed(client, line);
    if came.code != 0 || came.lines != 1 {
        return None;
    }
    digits_of_client(client, lints)
}

fn new_client_warned_by(alloc: Global, line: &[u8], lints: &Lints) -> Option<u64> {
    on_made(
        Client::new(alloc, 2000),
        None,
        |client| warned_by(client, line, lints),
    )
}

// The warnings of tables with one task of that row.
fn warned(alloc: Global, tasks: &str, row: &str, now: &str, percent: u64) -> Option<u64> {
    let lints = Lints::new(percent, 1_000_000_000)?;
    match line_of(alloc, "1", "false", now, tasks, row) {
        Some(line) => new_client_warned_by(alloc, &line, &lints),
        None => None,
    }
}

fn warned_of_wakes(alloc: Global, own: &str, percent: u64) -> Option<u64> {
    match row_of(
        alloc,
        text::live(),
        text::idle(),
        text::waiting(),
        own,
        "200",
    ) {
        Some(row) => warned(alloc, text::main_task(), row.as_str(), "5", percent),
        None => None,
    }
}

// Of 200 wakes, half may be the task's own where the limit is 50 percent.
#[test]
fn warns_of_self_wakes(rt: HostRuntime) {
    let alloc = rt.alloc();
    assert!(rt; warned_of_wakes(alloc, "100", 50) == Some(0));
    assert!(rt; warned_of_wakes(alloc, "101", 50) == Some(1));
    assert!(rt; warned_of_wakes(alloc, "1", 0) == Some(1));
    assert!(rt; warned_of_wakes(alloc, "200", 100) == Some(0));
}

fn warned_of_wakers(
    alloc: Global,
    tasks: &str,
    wakers: &str,
    polls: &str,
    state: &str,
) -> Option<u64> {
    match row_of(alloc, wakers, polls, state, "0", "0") {
        Some(row) => warned(alloc, tasks, row.as_str(), "5", 50),
        None => None,
    }
}

#[test]
fn warns_of_a_lost_waker(rt: HostRuntime) {
    let alloc = rt.alloc();
    let main = text::main_task();
    let blocking = text::blocking_task();
    let (gone, idle, waiting) = (text::released(), text::idle(), text::waiting());
    assert!(rt; warned_of_wakers(alloc, main, gone, idle, waiting) == Some(2));
    assert!(rt; warned_of_wakers(alloc, main, text::unused(), idle, waiting) == Some(2));
    assert!(rt; warned_of_wakers(alloc, main, gone, idle, text::scheduled()) == Some(0));
    assert!(rt; warned_of_wakers(alloc, main, gone, text::in_second_poll(), waiting) == Some(0));
    assert!(rt; warned_of_wakers(alloc, main, text::closed(), idle, waiting) == Some(0));
    assert!(rt; warned_of_wakers(alloc, blocking, gone, idle, waiting) == Some(0));
}

fn warned_at(alloc: Global, polls: &str, now: &str) -> Option<u64> {
    match row_of(alloc, text::live(), polls, text::waiting(), "0", "0") {
        Some(row) => warned(alloc, text::main_task(), row.as_str(), now, 50),
        None => None,
    }
}

#[test]
fn warns_of_a_poll_that_does_not_yield(rt: HostRuntime) {
    let alloc = rt.alloc();
    assert!(rt; warned_at(alloc, text::in_first_poll(), "999999999") == Some(0));
    assert!(rt; warned_at(alloc, text::in_first_poll(), "1000000000") == Some(3));
    assert!(rt; warned_at(alloc, text::in_second_poll(), "9000000000") == Some(0));
    assert!(rt; warned_at(alloc, text::without_start(), "9000000000") == Some(0));
}

// The time of a long poll, and 0 where there is none.
fn time_of(polls: &[LongPoll]) -> Option<u64> {
    match polls {
        [] => Some(0),
        [poll] => Some(poll.time),
        _ => None,
    }
}

// The long poll of a client that takes this line first.
fn long_by(alloc: Global, client: &mut Client, line: &[u8], limit_ms: u64) -> Option<u64> {
    let came = fed(client, line);
    if came.code != 0 || came.lines != 1 {
        return None;
    }
    match long_polls_in(alloc, client.tables(), client.times(), limit_ms) {
        Ok(list) => time_of(&list),
        Err(_) => None,
    }
}

fn new_client_long_by(alloc: Global, line: &[u8], limit_ms: u64) -> Option<u64> {
    on_made(
        Client::new(alloc, 2000),
        None,
        |client| long_by(alloc, client, line, limit_ms),
    )
}

fn long_in(alloc: Global, tasks: &str, row: &str, now: &str, limit_ms: u64) -> Option<u64> {
    match line_of(alloc, "1", "false", now, tasks, row) {
        Some(line) => new_client_long_by(alloc, &line, limit_ms),
        None => None,
    }
}

fn long_at(alloc: Global, tasks: &str, polls: &str, now: &str, limit_ms: u64) -> Option<u64> {
    match row_of(alloc, text::live(), polls, text::waiting(), "0", "0") {
        Some(row) => long_in(alloc, tasks, row.as_str(), now, limit_ms),
        None => None,
    }
}

// Of a line of version 1 the poll that runs is known alone.
#[test]
fn warns_of_a_long_poll_that_runs(rt: HostRuntime) {
    let alloc = rt.alloc();
    let (main, blocking) = (text::main_task(), text::blocking_task());
    let first = text::in_first_poll();
    assert!(rt; long_at(alloc, main, first, "9999999", 10) == Some(0));
    assert!(rt; long_at(alloc, main, first, "10000000", 10) == Some(10_000_000));
    assert!(rt; long_at(alloc, blocking, first, "10000000", 10) == Some(0));
    assert!(rt; long_at(alloc, main, text::without_start(), "10000000", 10) == Some(0));
    assert!(rt; long_at(alloc, main, text::idle(), "10000000", 10) == Some(0));
}

fn percent_of(percent: u64) -> Option<u64> {
    Some(Lints::new(percent, 1_000_000_000)?.self_wake_percent())
}

fn are_of(lints: &Lints, percent: u64, ns: u64) -> bool {
    lints.self_wake_percent() == percent && lints.never_yielded_ns() == ns
}

#[test]
fn lints_have_limits(rt: HostRuntime) {
    assert!(rt; Lints::new(101, 7).is_none());
    assert!(rt; percent_of(100) == Some(100));
    assert!(rt; are_of(&Lints::default(), 50, 1_000_000_000));
}

fn add_line(alloc: Global, lines: &mut Vec<u8>, seq: &str) -> bool {
    match empty_line(alloc, seq) {
        Some(line) => lines.extend_from_slice(&line).is_ok(),
        None => false,
    }
}

// Lines 1, 2 and 4.
fn with_gap(alloc: Global) -> Option<Vec<u8>> {
    let mut lines = Vec::new(alloc);
    if add_line(alloc, &mut lines, "1")
        && add_line(alloc, &mut lines, "2")
        && add_line(alloc, &mut lines, "4")
    {
        Some(lines)
    } else {
        None
    }
}

fn fails_at_gap(client: &mut Client, lines: &[u8]) -> bool {
    let gap = client.feed(lines)
        == Err(FeedError {
            lines: 2,
            used: lines.len(),
            fault: Fault::Gap {
                expected: 3,
                found: 4,
            },
        });
    gap && fed(client, b"").code == 9
}

fn gap_fails(alloc: Global, client: &mut Client) -> bool {
    match with_gap(alloc) {
        Some(lines) => fails_at_gap(client, &lines),
        None => false,
    }
}

// The fault's number and the lines applied after a line without items.
fn fed_line(
    alloc: Global,
    client: &mut Client,
    seq: &str,
    snapshot: &str,
    now: &str,
) -> Option<(u32, u64)> {
    match line_of(alloc, seq, snapshot, now, "[]", "[]") {
        Some(line) => {
            let came = fed(client, &line);
            Some((came.code, came.lines))
        }
        None => None,
    }
}

// Lines 1, 2 and 4 come to a gap. Then a snapshot 9 is a first line, 10 is next, and 12 is not.
fn has_gaps(alloc: Global, client: &mut Client) -> bool {
    if !gap_fails(alloc, client) {
        return false;
    }
    client.restart();
    fed_line(alloc, client, "9", "true", "7") == Some((0, 1))
        && fed_line(alloc, client, "10", "false", "5") == Some((0, 1))
        && fed_line(alloc, client, "12", "false", "5") == Some((4, 0))
        && client.tables().now() == 5
}

fn new_client_has_gaps(alloc: Global) -> bool {
    on_client(alloc, 300, |client| has_gaps(alloc, client))
}

#[test]
fn a_gap_ends_the_stream_until_a_restart(rt: HostRuntime) {
    assert!(rt; new_client_has_gaps(rt.alloc()));
}

// Whether a line comes to its task in pieces of a size, and to nothing without its end.
fn is_taken(client: &mut Client, line: &[u8], size: usize) -> bool {
    let came = fed_in_pieces(client, line, size);
    let whole = came.code == 0 && came.lines == 1 && came.used == line.len();
    let there = client.tables().task_count() == 1 && client.tables().now() == 200;
    client.restart();
    let front = fed(client, &line[..line.len().saturating_sub(1)]);
    let none = front.code == 0 && front.lines == 0 && client.tables().task_count() == 0;
    client.restart();
    whole && there && none
}

fn is_taken_in_pieces(client: &mut Client, line: &[u8]) -> bool {
    is_taken(client, line, 1) && is_taken(client, line, 165) && is_taken(client, line, 1000)
}

fn new_client_takes(alloc: Global, line: &[u8]) -> bool {
    on_client(alloc, 1000, |client| is_taken_in_pieces(client, line))
}

#[test]
fn takes_a_line_in_any_pieces(rt: HostRuntime) {
    match first_line(rt.alloc()) {
        Some(line) => assert!(rt; new_client_takes(rt.alloc(), &line)),
        None => assert!(rt; false, "no line"),
    }
}
