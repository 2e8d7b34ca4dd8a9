//! Lines that the tests feed, and what comes of them.
//!
//! How a value ends is proved where it is owned, which is dear for clients, tables and lines. So one function owns them, where
//! nothing needs to be known of what they hold.
ghost use Rattle.std.specs.Prelude.{◌≡◌, ◌≤◌};
ghost use Rattle.tk_stream.specs.Tables.{empty_tables};

use super::texts as text;
use std::alloc::Global;
use tk_client::{Client, FeedError};
use tk_stream::{Line, Tables};

// What a look at a value answers, or this answer, where none was made.
pub(super) fn on_made<T: Drop, E: Drop, A: Drop, F: FnOnce(&mut T) -> A>(
    made: Result<T, E>,
    otherwise: A,
    look: F,
) -> A
    requires { F.IsAlwaysCallable look }
{
    match made {
        Ok(mut value) => look(&mut value),
        Err(_) => otherwise,
    }
}

// Whether a check holds of a new client that takes lines of so many bytes.
pub(super) fn on_client<F: FnOnce(&mut Client) -> bool>(
    alloc: Global,
    max_line: usize,
    check: F,
) -> bool
    requires limit { 1 ≤ max_line }
    requires callable { F.IsAlwaysCallable check }
{
    on_made(Client::new(alloc, max_line), false, check)
}

// One list of bytes after another.
pub(super) fn both(alloc: Global, first: &[u8], second: &[u8]) -> Option<Vec<u8>> {
    let mut all = Vec::new(alloc);
    all.extend_from_slice(first).ok()?;
    all.extend_from_slice(second).ok()?;
    Some(all)
}

// Two texts more.
fn add(line: &mut Vec<u8>, first: &str, second: &str) -> bool {
    line.extend_from_slice(first.as_bytes()).is_ok()
        && line.extend_from_slice(second.as_bytes()).is_ok()
}

fn write(row: &mut String, first: &str, second: &str) -> bool {
    row.push_str(first).is_ok() && row.push_str(second).is_ok()
}

// A line with these tasks and statistics and this moment.
pub(super) fn line_of(
    alloc: Global,
    seq: &str,
    snapshot: &str,
    now: &str,
    tasks: &str,
    stats: &str,
) -> Option<Vec<u8>> {
    let mut line = Vec::new(alloc);
    let whole = add(&mut line, text::before_tasks(), tasks)
        && add(&mut line, text::before_now(), now)
        && add(&mut line, text::before_seq(), seq)
        && add(&mut line, text::before_snapshot(), snapshot)
        && add(&mut line, text::before_stats(), stats)
        && add(&mut line, text::at_end(), "");
    if whole { Some(line) } else { None }
}

// A line without items.
pub(super) fn empty_line(alloc: Global, seq: &str) -> Option<Vec<u8>> {
    line_of(alloc, seq, "false", "5", "[]", "[]")
}

// A row of the task: what it has of wakers, polls, states and wakes.
pub(super) fn row_of(
    alloc: Global,
    wakers: &str,
    polls: &str,
    state: &str,
    own: &str,
    wakes: &str,
) -> Option<String> {
    let mut row = String::new(alloc);
    let whole = write(&mut row, text::row_head(), wakers)
        && write(&mut row, polls, state)
        && write(&mut row, own, text::before_wakes())
        && write(&mut row, wakes, text::row_end());
    if whole { Some(row) } else { None }
}

// The row of a task that has no call yet.
pub(super) fn opened(alloc: Global) -> Option<String> {
    row_of(
        alloc,
        text::unused(),
        text::unpolled(),
        text::scheduled(),
        "0",
        "0",
    )
}

// A line with these tasks and the row of a task that has no call yet.
pub(super) fn opened_line(
    alloc: Global,
    seq: &str,
    snapshot: &str,
    now: &str,
    tasks: &str,
) -> Option<Vec<u8>> {
    match opened(alloc) {
        Some(row) => line_of(alloc, seq, snapshot, now, tasks, row.as_str()),
        None => None,
    }
}

// The line of a script that makes one task and publishes it at 200.
pub(super) fn first_line(alloc: Global) -> Option<Vec<u8>> {
    opened_line(alloc, "1", "false", "200", text::main_task())
}

// What came of feeding: the fault's number, 0 without one, the lines applied and the bytes taken.
#[derive(Clone, Copy, PartialEq, Eq)]
pub(super) struct Came {
    pub(super) code: u32,
    pub(super) lines: u64,
    pub(super) used: usize,
}

pub(super) fn fed(client: &mut Client, bytes: &[u8]) -> Came {
    match client.feed(bytes) {
        Ok(lines) => Came {
            code: 0,
            lines,
            used: bytes.len(),
        },
        Err(FeedError { lines, used, fault }) => Came {
            code: fault.code(),
            lines,
            used,
        },
    }
}

// What came of feeding in pieces of a size, up to the first fault.
pub(super) fn fed_in_pieces(client: &mut Client, bytes: &[u8], size: usize) -> Came {
    let mut sum = Came {
        code: 0,
        lines: 0,
        used: 0,
    };
    for piece in bytes.chunks(size.max(1)) {
        if sum.code == 0 {
            let came = fed(client, piece);
            sum.code = came.code;
            sum.lines = sum.lines.saturating_add(came.lines);
            sum.used = sum.used.saturating_add(came.used);
        }
    }
    sum
}

fn is_text_of(alloc: Global, tables: &Tables, wanted: &[u8]) -> bool {
    match text_of(alloc, tables) {
        Some(text) => text.as_slice() == wanted,
        None => false,
    }
}

// Whether a client holds the tables of that text, as a snapshot.
pub(super) fn holds(alloc: Global, client: &Client, wanted: &[u8]) -> bool {
    is_text_of(alloc, client.tables(), wanted)
}

fn text_between(alloc: Global, none: &Tables, tables: &Tables) -> Option<Vec<u8>>
    requires { none.now ≡ empty_tables }
{
    on_made(
        Line::between(alloc, none, tables, 1, true),
        None,
        |line| line.write().ok(),
    )
}

// The text of tables as a snapshot.
pub(super) fn text_of(alloc: Global, tables: &Tables) -> Option<Vec<u8>> {
    match Tables::new(alloc) {
        Ok(none) => text_between(alloc, &none, tables),
        Err(_) => None,
    }
}
