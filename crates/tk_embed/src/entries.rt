//! Items as they cross the border, for a line: what is told of them once, the row that the last line told, and the row now.
//!
//! In each list the entries that the last line told stand first, and the head says how many they are. Of the others `told` says nothing.

/// A piece of the text that goes with the entries: its first byte, counted from 0, and its length.
#[repr(C)]
#[derive(Clone, Copy)]
pub struct Piece {
    pub start: u32,
    pub len: u32,
}

/// A task. `kind` is 0 for one that is polled, and any other number for a blocking call.
#[repr(C)]
#[derive(Clone, Copy)]
pub struct TaskEntry {
    pub row: [u64; 16],
    pub told: [u64; 16],
    pub id: u64,
    pub name: Piece,
    pub file: Piece,
    pub line: u32,
    pub column: u32,
    pub kind: u32,
}

/// An attribute that an item declares. `kind` is as of `Attr`.
#[repr(C)]
#[derive(Clone, Copy)]
pub struct AttrEntry {
    pub name: Piece,
    pub unit: Piece,
    pub kind: u32,
    pub has_unit: bool,
}

/// A resource. `parent` is 0 where there is none. Its attributes stand in the list of attributes, `attrs.len` from place
/// `attrs.start` on.
#[repr(C)]
#[derive(Clone, Copy)]
pub struct ResourceEntry {
    pub row: [u64; 16],
    pub told: [u64; 16],
    pub id: u64,
    pub parent: u64,
    pub concrete: Piece,
    pub kind: Piece,
    pub file: Piece,
    pub attrs: Piece,
    pub line: u32,
    pub column: u32,
}

/// An operation. `parent` is 0 where there is none.
#[repr(C)]
#[derive(Clone, Copy)]
pub struct OpEntry {
    pub row: [u64; 16],
    pub told: [u64; 16],
    pub id: u64,
    pub resource: u64,
    pub parent: u64,
    pub source: Piece,
    pub attrs: Piece,
}

/// The poll counts of a resource.
#[repr(C)]
#[derive(Clone, Copy)]
pub struct CountEntry {
    pub resource: u64,
    pub ready: u64,
    pub pending: u64,
    pub told_ready: u64,
    pub told_pending: u64,
}

/// The histogram of a task's poll times: the words of its row. Where `waited`, the words at `waits` are those of the histogram of its waits;
/// otherwise they say nothing. `told` and `told_waits` are as `told` of the others.
#[repr(C)]
#[derive(Clone, Copy)]
pub struct TimesEntry {
    pub row: [u64; 16],
    pub told: [u64; 16],
    pub waits: [u64; 16],
    pub told_waits: [u64; 16],
    pub task: u64,
    pub waited: bool,
}

/// What a line has beside its items: its number, its moment, in nanoseconds, the totals of what was dropped, how many entries of
/// each list were told, and whether it tells all.
#[repr(C)]
#[derive(Clone, Copy)]
pub struct Head {
    pub seq: u64,
    pub moment: u64,
    pub dropped_tasks: u64,
    pub dropped_resources: u64,
    pub dropped_ops: u64,
    pub told_tasks: usize,
    pub told_resources: usize,
    pub told_ops: usize,
    pub told_counts: usize,
    pub snapshot: bool,
}

/// What came of a line. `status` says which of these it was:
///
/// - 0: the line was written, `len` bytes.
/// - 1: it doesn't fit, and has `len` bytes.
/// - 2: want of memory.
/// - 3: no line has the number.
/// - 4: more entries were told than there are.
/// - 5 to 9: the entry at `place`, counted from 0, is none: of a task, a resource, an async operation, poll counts, a histogram.
///   `reason` says why: 1 an id, 2 a name, 3 a piece that reaches out, 4 the attributes, 5 the words of its row, 6 an id that stands before.
///
/// What a status doesn't speak of is 0. From 1 on nothing was written.
#[repr(C)]
#[derive(Clone, Copy)]
pub struct Answer {
    pub status: u32,
    pub reason: u32,
    pub place: usize,
    pub len: usize,
}
