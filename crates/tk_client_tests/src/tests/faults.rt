//! Streams with a fault, fed whole and byte by byte.

use super::given::{
    Came, both, empty_line, fed, fed_in_pieces, first_line, holds, line_of, on_client, on_made,
    opened_line, text_of,
};
use super::texts as text;
use std::alloc::Global;
use tk_client::{Client, Fault, FeedError};

const ALLOWED: usize = 16_777_216;

// What comes of the byte at which a stream fails that is fed byte by byte.
fn fed_to_fault(client: &mut Client, bytes: &[u8]) -> Option<Came> {
    for piece in bytes.chunks(1) {
        let came = fed(client, piece);
        if came.code != 0 {
            return Some(came);
        }
    }
    None
}

// Whether the bytes come to this, whole and byte by byte, whether the tables are then those of that text, whether the client
// then answers `Failed`, and whether it takes line 1 after a restart. The call with the fault takes one byte and applies no line.
fn comes(
    alloc: Global,
    client: &mut Client,
    bytes: &[u8],
    wanted: Came,
    tables: &[u8],
    first: &[u8],
) -> bool {
    let at_last_byte = Came {
        code: wanted.code,
        lines: 0,
        used: 1,
    };
    let whole = fed(client, bytes);
    let stays = holds(alloc, client, tables);
    let failed = fed(client, bytes);
    client.restart();
    let bytewise = fed_in_pieces(client, bytes, 1);
    client.restart();
    let last = fed_to_fault(client, bytes);
    client.restart();
    let again = fed(client, first);
    whole == wanted
        && bytewise == wanted
        && last == Some(at_last_byte)
        && stays
        && failed.code == 9
        && failed.lines == 0
        && failed.used == 0
        && again.code == 0
        && again.lines == 1
}

fn new_client_comes(
    alloc: Global,
    bytes: &[u8],
    wanted: Came,
    tables: &[u8],
    first: &[u8],
) -> bool {
    on_client(
        alloc,
        ALLOWED,
        |client| comes(alloc, client, bytes, wanted, tables, first),
    )
}

fn comes_to_tables(alloc: Global, bytes: &[u8], wanted: Came, tables: &[u8]) -> bool {
    match empty_line(alloc, "1") {
        Some(first) => new_client_comes(alloc, bytes, wanted, tables, &first),
        None => false,
    }
}

fn tables_after(alloc: Global, client: &mut Client, lines: &[u8]) -> Option<Vec<u8>> {
    let _came = fed(client, lines);
    text_of(alloc, client.tables())
}

// The text of the tables of these lines.
fn tables_of(alloc: Global, lines: &[u8]) -> Option<Vec<u8>> {
    on_made(
        Client::new(alloc, ALLOWED),
        None,
        |client| tables_after(alloc, client, lines),
    )
}

fn comes_after(alloc: Global, bytes: &[u8], wanted: Came, before: &[u8]) -> bool {
    match tables_of(alloc, before) {
        Some(tables) => comes_to_tables(alloc, bytes, wanted, &tables),
        None => false,
    }
}

// Whether these bytes come to this fault, with the tables of the lines before it.
fn faults(alloc: Global, bytes: Option<Vec<u8>>, code: u32, lines: u64, before: &[u8]) -> bool {
    match bytes {
        Some(bytes) => {
            let wanted = Came {
                code,
                lines,
                used: bytes.len(),
            };
            comes_after(alloc, &bytes, wanted, before)
        }
        None => false,
    }
}

// Whether a line end after each front of a line is no JSON.
fn no_front_is_json(alloc: Global, line: &[u8]) -> bool {
    for n in 0..line.len().saturating_sub(1) {
        if !faults(alloc, both(alloc, &line[..n], b"\n"), 2, 0, b"") {
            return false;
        }
    }
    true
}

#[test]
fn fronts_are_no_json(rt: HostRuntime) {
    match first_line(rt.alloc()) {
        Some(line) => assert!(rt; no_front_is_json(rt.alloc(), &line)),
        None => assert!(rt; false, "no line"),
    }
}

fn is_held(alloc: Global, front: &[u8]) -> bool {
    let wanted = Came {
        code: 0,
        lines: 0,
        used: front.len(),
    };
    on_client(alloc, ALLOWED, |client| fed(client, front) == wanted)
}

// Whether each front of a line is held without a fault, and the snapshot after one that isn't empty is no JSON.
fn no_front_goes_on(alloc: Global, line: &[u8], snapshot: &[u8]) -> bool {
    for k in 0..line.len() {
        let front = &line[..k];
        let goes_on = !front.is_empty() && !faults(alloc, both(alloc, front, snapshot), 2, 0, b"");
        if goes_on || !is_held(alloc, front) {
            return false;
        }
    }
    true
}

fn no_front_goes_on_in_snapshot(alloc: Global, line: &[u8]) -> bool {
    match opened_line(alloc, "1", "true", "200", text::main_task()) {
        Some(snapshot) => no_front_goes_on(alloc, line, &snapshot),
        None => false,
    }
}

#[test]
fn a_snapshot_goes_on_after_no_front(rt: HostRuntime) {
    match first_line(rt.alloc()) {
        Some(line) => assert!(rt; no_front_goes_on_in_snapshot(rt.alloc(), &line)),
        None => assert!(rt; false, "no line"),
    }
}

// Line 2 after a front of a line.
fn with_second(alloc: Global, front: &[u8]) -> Option<Vec<u8>> {
    match empty_line(alloc, "2") {
        Some(second) => both(alloc, front, &second),
        None => None,
    }
}

fn without_end_between(alloc: Global) -> Option<Vec<u8>> {
    match empty_line(alloc, "1") {
        Some(first) => with_second(alloc, &first[..first.len().saturating_sub(1)]),
        None => None,
    }
}

#[test]
fn lines_that_run_together_are_no_json(rt: HostRuntime) {
    let bytes = without_end_between(rt.alloc());
    assert!(rt; faults(rt.alloc(), bytes, 2, 0, b""));
}

fn of_version_3(alloc: Global) -> Option<Vec<u8>> {
    match empty_line(alloc, "1") {
        Some(first) => both(alloc, &first[..first.len().saturating_sub(3)], b"3}\n"),
        None => None,
    }
}

#[test]
fn other_shapes_are_no_lines(rt: HostRuntime) {
    let alloc = rt.alloc();
    assert!(rt; faults(alloc, empty_line(alloc, "0"), 3, 0, b""));
    assert!(rt; faults(alloc, empty_line(alloc, "1,\"x\":0"), 3, 0, b""));
    assert!(rt; faults(alloc, of_version_3(alloc), 3, 0, b""));
}

// Whether the first line twice comes to a gap.
fn repeated_line_is_gap(alloc: Global, first: &[u8]) -> bool {
    faults(alloc, both(alloc, first, first), 4, 1, first)
}

// The number that was expected and the one that was found, in pieces of a size.
fn gap_in(client: &mut Client, bytes: &[u8], size: usize) -> Option<(u64, u64)> {
    client.restart();
    for piece in bytes.chunks(size.max(1)) {
        if let Err(
            FeedError {
                fault: Fault::Gap { expected, found },
                ..
            },
        ) = client.feed(piece)
        {
            return Some((expected, found));
        }
    }
    None
}

fn has_gap(alloc: Global, bytes: &[u8], wanted: (u64, u64)) -> bool {
    on_client(alloc, ALLOWED, |client| {
        gap_in(client, bytes, bytes.len()) == Some(wanted)
            && gap_in(client, bytes, 1) == Some(wanted)
    })
}

fn tells_gap(alloc: Global, bytes: Option<Vec<u8>>, wanted: (u64, u64)) -> bool {
    match bytes {
        Some(bytes) => has_gap(alloc, &bytes, wanted),
        None => false,
    }
}

fn repeated_line_tells_gap(alloc: Global, first: &[u8]) -> bool {
    tells_gap(alloc, both(alloc, first, first), (2, 1))
}

#[test]
fn gaps_tell_both_numbers(rt: HostRuntime) {
    let alloc = rt.alloc();
    match first_line(alloc) {
        Some(first) => assert!(rt; repeated_line_tells_gap(alloc, &first)),
        None => assert!(rt; false, "no line"),
    }
    let late = opened_line(alloc, "3", "false", "5", "[]");
    assert!(rt; tells_gap(alloc, late, (1, 3)));
}

// The number comes before the ids: the late line also tells of an unknown item.
#[test]
fn gaps_are_faults(rt: HostRuntime) {
    let alloc = rt.alloc();
    match first_line(alloc) {
        Some(first) => assert!(rt; repeated_line_is_gap(alloc, &first)),
        None => assert!(rt; false, "no line"),
    }
    let late = opened_line(alloc, "3", "false", "5", "[]");
    assert!(rt; faults(alloc, late, 4, 0, b""));
}

// Line 2, which makes the first line's task again, after that.
fn with_task_again(alloc: Global, first: &[u8]) -> Option<Vec<u8>> {
    match opened_line(alloc, "2", "false", "200", text::main_task()) {
        Some(again) => both(alloc, first, &again),
        None => None,
    }
}

fn repeats_task(alloc: Global, first: &[u8]) -> bool {
    faults(alloc, with_task_again(alloc, first), 6, 1, first)
}

#[test]
fn ids_and_statistics_must_fit(rt: HostRuntime) {
    let alloc = rt.alloc();
    match first_line(alloc) {
        Some(first) => assert!(rt; repeats_task(alloc, &first)),
        None => assert!(rt; false, "no line"),
    }
    let unknown = opened_line(alloc, "1", "false", "200", "[]");
    assert!(rt; faults(alloc, unknown, 5, 0, b""));
    let misfit = line_of(alloc, "1", "false", "200", text::main_task(), "[]");
    assert!(rt; faults(alloc, misfit, 8, 0, b""));
}

// Whether each of these comes to the eleventh byte, and leaves empty tables. A restart keeps the limit.
fn are_too_long(client: &mut Client, line: &[u8]) -> bool {
    let wanted = Came {
        code: 7,
        lines: 0,
        used: 11,
    };
    let whole = fed(client, b"aaaaaaaaaaa");
    client.restart();
    let bytewise = fed_in_pieces(client, b"aaaaaaaaaaa", 1);
    let failed = fed(client, line);
    client.restart();
    let again = fed(client, line);
    whole == wanted
        && bytewise == wanted
        && failed.code == 9
        && again == wanted
        && client.tables().task_count() == 0
        && client.tables().now() == 0
}

fn are_too_long_for_new_client(alloc: Global, line: &[u8]) -> bool {
    on_client(alloc, 10, |client| are_too_long(client, line))
}

#[test]
fn long_lines_stop_at_the_first_byte_too_many(rt: HostRuntime) {
    match empty_line(rt.alloc(), "1") {
        Some(line) => assert!(rt; are_too_long_for_new_client(rt.alloc(), &line)),
        None => assert!(rt; false, "no line"),
    }
}
