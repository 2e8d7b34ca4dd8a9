//! Want of memory: it is an answer, and nothing is lost by it.
//!
//! With `rt try --test --fail-alloc N` the N-th allocation is refused.

use super::given::{both, first_line, line_of, on_made};
use std::alloc::Global;
use tk_client::{Client, Lints};

// Feeds bytes in pieces of 100, and again what a piece left untaken, and counts the lines.
fn fed_on(client: &mut Client, bytes: &[u8]) -> u64 {
    let mut lines = 0u64;
    for piece in bytes.chunks(100) {
        match client.feed(piece) {
            Ok(more) => lines = lines.saturating_add(more),
            Err(e) => {
                let rest = &piece[e.used.min(piece.len())..];
                let more = client.feed(rest).unwrap_or(1000);
                lines = lines.saturating_add(e.lines).saturating_add(more);
            }
        }
    }
    lines
}

// How many warnings there are, asked for again where there was no memory.
fn warned(client: &Client, lints: &Lints) -> usize {
    match client.warnings(lints) {
        Ok(list) => list.len(),
        Err(_) => match client.warnings(lints) {
            Ok(list) => list.len(),
            Err(_) => 1000,
        },
    }
}

fn takes_both(client: &mut Client, bytes: &[u8]) -> bool {
    let lints = Lints::default();
    let lines = fed_on(client, bytes);
    lines == 2 && client.tables().task_count() == 1 && warned(client, &lints) == 0
}

// Of a client that is asked for again where the first one found no memory.
fn client_takes_both(alloc: Global, bytes: &[u8]) -> bool {
    let client = Client::new(alloc, 1000).or_else(|_| Client::new(alloc, 1000));
    on_made(client, false, |client| takes_both(client, bytes))
}

fn with_second(alloc: Global, first: &[u8]) -> Option<Vec<u8>> {
    match line_of(alloc, "2", "false", "9000000000", "[]", "[]") {
        Some(second) => both(alloc, first, &second),
        None => None,
    }
}

fn two_lines(alloc: Global) -> Option<Vec<u8>> {
    match first_line(alloc) {
        Some(first) => with_second(alloc, &first),
        None => None,
    }
}

#[test]
fn what_found_no_memory_is_fed_again(rt: HostRuntime) {
    match two_lines(rt.alloc()) {
        Some(bytes) => assert!(rt; client_takes_both(rt.alloc(), &bytes)),
        None => assert!(rt; false, "no lines"),
    }
}
