//! What is kept of what a reader gave.

use super::given::{Given, fails_to_read, read_times, reads_all};
use std::alloc::Global;
use std::process::Abort;
use tk_explain::Kept;

// What a reader gives at each read, how many reads are made, the last lines that are kept then, and how many lines ended before these.
#[rattlefmt::skip]
const READS: [(&str, &[&[u8]], usize, &[u8], u64); 14] = [
    ("no read",                               &[],                            0, b"",           0),
    ("an empty input",                        &[],                            1, b"",           0),
    ("the front of a line",                   &[b"ab"],                       1, b"ab",         0),
    ("a line over three reads",               &[b"ab", b"c", b"d"],           3, b"abcd",       0),
    ("its end",                               &[b"ab", b"c", b"d\n"],         3, b"abcd\n",     0),
    ("a line end at the end of a read",       &[b"ab\n"],                     1, b"ab\n",       0),
    ("and the next read",                     &[b"ab\n", b"c"],               2, b"c",          1),
    ("and the end of the input",              &[b"ab\n"],                     2, b"",           1),
    ("a read of a line end alone",            &[b"ab", b"\n", b"c"],          3, b"c",          1),
    ("a read of several lines",               &[b"a\nb\nc"],                  1, b"a\nb\nc",    0),
    ("a read that goes on with the last one", &[b"a\nb\nc", b"d\ne"],         2, b"cd\ne",      2),
    ("and one more",                          &[b"a\nb\nc", b"d\ne", b"f\n"], 3, b"ef\n",       3),
    ("empty lines",                           &[b"\n\n", b"\n"],              2, b"\n",         2),
    ("an input that ends within a line",      &[b"a\nbc"],                    2, b"bc",         1),
];

// Whether these last lines are kept after so many reads.
fn keeps(alloc: Global, reader: Given, reads: usize, wanted: &[u8], lines: u64) -> bool {
    let mut kept = Kept::last_lines(alloc, reader);
    read_times(&mut kept, reads);
    kept.is_whole() && kept.bytes() == wanted && kept.lines_before() == lines
}

fn assert_all_keep<R: Abort + AllocGlobal>(
    rt: &R,
    cases: &[(&str, &'static [&'static [u8]], usize, &[u8], u64)],
) {
    for (case, pieces, reads, wanted, lines) in cases {
        let reader = Given::new(pieces, false);
        assert!(rt; keeps(rt.alloc(), reader, *reads, wanted, *lines), "{case}");
    }
}

#[test]
fn the_line_that_the_last_read_went_on_with_is_kept(rt: HostRuntime) {
    assert_all_keep(&rt, READS.as_slice());
}

#[test]
fn a_failing_read_leaves_what_is_kept(rt: HostRuntime) {
    let reader = Given::new(&[b"ab\ncd"], true);
    assert!(rt; keeps(rt.alloc(), reader, 3, b"ab\ncd", 0));
}

fn gives_the_fault(alloc: Global) -> bool {
    let mut kept = Kept::last_lines(alloc, Given::new(&[], true));
    fails_to_read(&mut kept)
}

#[test]
fn a_read_gives_the_readers_fault(rt: HostRuntime) {
    assert!(rt; gives_the_fault(rt.alloc()));
}

// Whether all is kept, as it is read.
fn keeps_all(alloc: Global, pieces: &'static [&'static [u8]], wanted: &[u8]) -> bool {
    let mut kept = Kept::all(alloc, Given::new(pieces, false));
    let is_read = reads_all(alloc, &mut kept, wanted);
    is_read && kept.is_whole() && kept.bytes() == wanted && kept.lines_before() == 0
}

// What a reader gives at each read, and all of it.
#[rattlefmt::skip]
const WHOLE: [(&str, &[&[u8]], &[u8]); 4] = [
    ("an empty input",   &[],                               b""),
    ("lines",            &[b"ab\n", b"c\n"],                b"ab\nc\n"),
    ("a line in pieces", &[b"a", b"b", b"c\nd"],            b"abc\nd"),
    ("empty lines",      &[b"\n", b"\n\n"],                 b"\n\n\n"),
];

#[test]
fn all_is_kept(rt: HostRuntime) {
    for (case, pieces, wanted) in WHOLE {
        assert!(rt; keeps_all(rt.alloc(), pieces, wanted), "{case}");
    }
}
