//! A stream of 1,000 lines, cut at every size.

use super::given::{fed, fed_in_pieces, holds, line_of, on_client, row_of, text_of};
use super::texts as text;
use std::alloc::Global;
use tk_client::{Client, Lints, Warning};

const LINES: u64 = 1000;

// A row of as many self-wakes as the number says.
fn row_with(alloc: Global, seq: &str) -> Option<String> {
    row_of(
        alloc,
        text::live(),
        text::in_first_poll(),
        text::scheduled(),
        seq,
        seq,
    )
}

fn line_with_row(alloc: Global, seq: &str, snapshot: &str, tasks: &str) -> Option<Vec<u8>> {
    match row_with(alloc, seq) {
        Some(row) => line_of(alloc, seq, snapshot, seq, tasks, row.as_str()),
        None => None,
    }
}

fn line_with(alloc: Global, k: u64, seq: &str) -> Option<Vec<u8>> {
    let is_snapshot = k == 150;
    let tasks = if k == 0 || is_snapshot {
        text::main_task()
    } else {
        "[]"
    };
    let snapshot = if is_snapshot { "true" } else { "false" };
    if k % 10 == 0 {
        line_with_row(alloc, seq, snapshot, tasks)
    } else {
        line_of(alloc, seq, snapshot, seq, tasks, "[]")
    }
}

// Each tenth line tells of as many self-wakes as there are lines. The first shows the task, and line 151 is a snapshot.
fn line_at(alloc: Global, k: u64) -> Option<Vec<u8>> {
    match format!(in alloc; "{}", k.saturating_add(1)) {
        Ok(seq) => line_with(alloc, k, seq.as_str()),
        Err(_) => None,
    }
}

fn add_line(alloc: Global, bytes: &mut Vec<u8>, k: u64) -> bool {
    match line_at(alloc, k) {
        Some(line) => bytes.extend_from_slice(&line).is_ok(),
        None => false,
    }
}

fn stream_of(alloc: Global) -> Option<Vec<u8>> {
    let mut bytes = Vec::new(alloc);
    for k in 0..LINES {
        if !add_line(alloc, &mut bytes, k) {
            return None;
        }
    }
    Some(bytes)
}

fn same_warnings(client: &Client, lints: &Lints, wanted: &[Warning]) -> bool {
    match client.warnings(lints) {
        Ok(list) => list.as_slice() == wanted,
        Err(_) => false,
    }
}

// Whether pieces of a size lead to these tables and warnings.
fn leads_there(
    alloc: Global,
    client: &mut Client,
    bytes: &[u8],
    tables: &[u8],
    warnings: &[Warning],
    size: usize,
) -> bool {
    let lints = Lints::default();
    client.restart();
    let came = fed_in_pieces(client, bytes, size);
    came.code == 0
        && came.lines == LINES
        && holds(alloc, client, tables)
        && same_warnings(client, &lints, warnings)
}

// Whether pieces of each of these sizes do.
fn all_same(
    alloc: Global,
    client: &mut Client,
    bytes: &[u8],
    tables: &[u8],
    warnings: &[Warning],
    sizes: (usize, usize),
) -> bool {
    for size in sizes.0..sizes.1 {
        if !leads_there(alloc, client, bytes, tables, warnings, size) {
            return false;
        }
    }
    true
}

// Whether they lead to these tables, and to the one warning that the client has.
fn all_same_tables(
    alloc: Global,
    client: &mut Client,
    bytes: &[u8],
    tables: &[u8],
    sizes: (usize, usize),
) -> bool {
    let lints = Lints::default();
    match client.warnings(&lints) {
        Ok(warnings) => {
            warnings.len() == 1 && all_same(alloc, client, bytes, tables, &warnings, sizes)
        }
        Err(_) => false,
    }
}

fn all_same_as_whole(
    alloc: Global,
    client: &mut Client,
    bytes: &[u8],
    sizes: (usize, usize),
) -> bool {
    let came = fed(client, bytes);
    match text_of(alloc, client.tables()) {
        Some(tables) => {
            came.lines == LINES && all_same_tables(alloc, client, bytes, &tables, sizes)
        }
        None => false,
    }
}

fn new_client_is_same(alloc: Global, bytes: &[u8], sizes: (usize, usize)) -> bool {
    on_client(
        alloc,
        1000,
        |client| all_same_as_whole(alloc, client, bytes, sizes),
    )
}

// Whether they lead to what the stream leads to that is fed whole.
fn is_same(alloc: Global, sizes: (usize, usize)) -> bool {
    match stream_of(alloc) {
        Some(bytes) => new_client_is_same(alloc, &bytes, sizes),
        None => false,
    }
}

#[test]
fn small_pieces_lead_to_the_same_tables(rt: HostRuntime) {
    assert!(rt; is_same(rt.alloc(), (1, 17)));
}

#[test]
fn pieces_of_17_to_43_bytes_lead_to_the_same_tables(rt: HostRuntime) {
    assert!(rt; is_same(rt.alloc(), (17, 44)));
}

#[test]
fn pieces_of_44_to_70_bytes_lead_to_the_same_tables(rt: HostRuntime) {
    assert!(rt; is_same(rt.alloc(), (44, 71)));
}

#[test]
fn pieces_of_71_to_97_bytes_lead_to_the_same_tables(rt: HostRuntime) {
    assert!(rt; is_same(rt.alloc(), (71, 98)));
}
