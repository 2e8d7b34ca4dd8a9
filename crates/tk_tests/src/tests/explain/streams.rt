//! What is told of a stream that was read.

use super::given::{Given, read_times};
use std::alloc::Global;
use tk_client::Fault;
use tk_explain::{Kept, explain_stream};
use tk_fault::AppFault;

// Whether this is told of what a reader gave in so many reads, and what came of it.
fn tells(
    alloc: Global,
    pieces: &'static [&'static [u8]],
    reads: usize,
    outcome: Result<u64, AppFault>,
    told: &str,
) -> bool {
    let mut kept = Kept::last_lines(alloc, Given::new(pieces, false));
    read_times(&mut kept, reads);
    let mut out = Vec::new(alloc);
    let is_told = explain_stream(&kept, outcome, &mut out).is_ok();
    is_told && out.as_slice() == told.as_bytes()
}

// Streams without a fault, read to their end, and what is told.
#[rattlefmt::skip]
const ENDED: [(&[&[u8]], usize, &str); 5] = [
    (&[],                  1, "  the stream is empty\n"),
    (&[b"ab\n"],           2, ""),
    (&[b"ab\ncde"],        2, "  bytes after the last line end, which were left out: 3\n"),
    (&[b"ab\n", b"cd", b"e"], 4, "  bytes after the last line end, which were left out: 3\n"),
    (&[b"abc"],            2, "  bytes after the last line end, which were left out: 3\n"),
];

#[test]
fn what_is_no_line_is_told(rt: HostRuntime) {
    for (pieces, reads, told) in ENDED {
        assert!(rt; tells(rt.alloc(), pieces, reads, Ok(0), told), "{told}");
    }
}

// Streams of which so many lines were applied before a line that is no JSON text, and what is told.
#[rattlefmt::skip]
const PLACES: [(&[&[u8]], usize, u64, &str); 6] = [
    (&[b"xx\n"],                    1, 0, "  1 | xx\n  it is no JSON text\n"),
    (&[b"{}\nxx\nyy\n"],            1, 1, "  2 | xx\n  it is no JSON text\n"),
    (&[b"{}\n[]\nx", b"x\nyy\n"],   2, 2, "  3 | xx\n  it is no JSON text\n"),
    (&[b"{}\n", b"[]\n", b"xx"],    3, 2, "  3 | xx\n  it is no JSON text\n"),
    (&[b"task 1 spawn a\n"],        1, 0, "  1 | task 1 spawn a\n  it is no JSON text\n  it looks like a script, which `taskscope run` takes\n"),
    (&[b"# a\n"],                   1, 0, "  1 | # a\n  it is no JSON text\n  it looks like a script, which `taskscope run` takes\n"),
];

#[test]
fn a_fault_is_told_by_its_line(rt: HostRuntime) {
    for (pieces, reads, lines, told) in PLACES {
        let fault = Fault::BadJson;
        let outcome = Err(AppFault::Stream { lines, fault });
        assert!(rt; tells(rt.alloc(), pieces, reads, outcome, told), "{told}");
    }
}

// The front of a line is shown, its first 72 bytes, and a dot for each that is no ASCII text.
#[rattlefmt::skip]
const SHOWN: [(&[&[u8]], &str); 3] = [
    (
        &[b"12345678901234567890123456789012345678901234567890123456789012345678901x\n"],
        "  1 | 12345678901234567890123456789012345678901234567890123456789012345678901x\n  it is no JSON text\n",
    ),
    (
        &[b"12345678901234567890123456789012345678901234567890123456789012345678901xy\n"],
        "  1 | 12345678901234567890123456789012345678901234567890123456789012345678901x...\n  it is no JSON text\n",
    ),
    (&[b"a\x00\xC3\xA9\tb c\n"], "  1 | a....b c\n  it is no JSON text\n"),
];

#[test]
fn the_front_of_a_line_is_shown(rt: HostRuntime) {
    for (pieces, told) in SHOWN {
        let outcome = Err(AppFault::Stream {
            lines: 0,
            fault: Fault::BadJson,
        });
        assert!(rt; tells(rt.alloc(), pieces, 1, outcome, told), "{told}");
    }
}

// Faults of a second line and of a first one, and what is told.
#[rattlefmt::skip]
const RULES: [(u64, Fault, &str); 10] = [
    (1, Fault::Memory,     "  2 | b\n  there was no memory for it\n"),
    (1, Fault::BadShape,   "  2 | b\n  it is JSON, and no line of version 1, 2, 3 or 4: docs/FORMATS.md has their keys and values\n"),
    (0, Fault::Gap { expected: 1, found: 2 }, "  1 | a\n  a stream begins with line 1 or with a snapshot: its front is missing\n"),
    (1, Fault::Gap { expected: 2, found: 3 }, "  2 | b\n  lines are numbered one by one: one is missing, or stands twice\n"),
    (1, Fault::UnknownId,  "  2 | b\n  it tells of an item that is neither there nor new\n"),
    (1, Fault::Repeated,   "  2 | b\n  it shows an item as new that is there, has an id twice, or tells of one that it says is gone\n"),
    (1, Fault::TooLong,    "  2 | b\n  a line has at most 268,435,456 bytes\n"),
    (1, Fault::Misfit,     "  2 | b\n  a new item has no statistics, or values are not those of an item's attributes in number and kinds\n"),
    (1, Fault::Failed,     "  2 | b\n  a line before it has a fault\n"),
    (1, Fault::BadJson,    "  2 | b\n  it is no JSON text\n"),
];

#[test]
fn each_fault_has_its_rule(rt: HostRuntime) {
    for (lines, fault, told) in RULES {
        let outcome = Err(AppFault::Stream { lines, fault });
        assert!(rt;
            tells(rt.alloc(), &[b"a\nb\nc\n"], 1, outcome, told),
            "{told}"
        );
    }
}

// Faults that no line has, and what is told.
#[rattlefmt::skip]
const OTHERS: [(AppFault, &str); 3] = [
    (AppFault::Read,   "  the input can't be read\n"),
    (AppFault::Memory, ""),
    (AppFault::Write,  ""),
];

#[test]
fn a_fault_without_a_line_is_told_alone(rt: HostRuntime) {
    for (fault, told) in OTHERS {
        assert!(rt; tells(rt.alloc(), &[b"a\n"], 1, Err(fault), told), "{told}");
    }
}
