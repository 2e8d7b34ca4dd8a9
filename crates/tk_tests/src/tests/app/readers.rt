//! Readers that give little, too much, or a fault.

use super::given::{MAIN, MAIN_LINE, runs_from, text_of};
use std::io;
use std::io::Read;
use std::process::Abort;
use std::sync::Wait;
use std::thread::Threads;

// Gives one byte a read, then as many bytes x as its padding says, and then its end or a fault.
#[derive(Drop)]
pub(super) struct Trickle {
    pub(super) bytes: &'static [u8],
    pub(super) padding: usize,
    pub(super) fails: bool,
}

impl Read for Trickle {
    fn read(&mut self, buf: &mut [u8]) -> io::Result<usize> {
        if buf.is_empty() {
            return Ok(0);
        }
        if let Some((byte, rest)) = self.bytes.split_first() {
            buf[0] = *byte;
            self.bytes = rest;
            return Ok(1);
        }
        if self.padding > 0 {
            let n = self.padding.min(buf.len());
            buf.fill(b'x');
            self.padding -= n;
            return Ok(n);
        }
        if self.fails {
            return Err(io::ErrorKind::Other.into());
        }
        Ok(0)
    }
}

// A task and a line that tells of it, and then the front of a comment.
const COMMENTED: &[u8] = b"task 100 spawn main\npublish 200\n#";

// How much comes after it where a script is as long as it may be.
const ROOM: usize = 1_048_576 - COMMENTED.len();

// What becomes of a script that would write one line, by how its reader goes on after it.
#[rattlefmt::skip]
const READERS: [(&str, &[u8], usize, bool, &str); 4] = [
    ("it ends",                              MAIN,      0,                        false, ""),
    ("it gives as many bytes as it may",     COMMENTED, ROOM,                      false, ""),
    ("it gives one byte too many",           COMMENTED, ROOM + 1,                  false, "Read"),
    ("it gives bytes for ever",              COMMENTED, 9_223_372_036_854_775_807, false, "Read"),
];

// Whether running stops at this fault and has written nothing, or at none and has written the line.
fn comes_to<R: Threads + Wait + Sync + AllocGlobal>(
    rt: &R,
    reader: &mut Trickle,
    fault: &str,
) -> bool {
    if !fault.is_empty() {
        return runs_from(rt, reader, fault, "");
    }
    match text_of(rt.alloc(), &[MAIN_LINE]) {
        Some(line) => runs_from(rt, reader, fault, line.as_str()),
        None => false,
    }
}

fn assert_all_come_to<R: Abort + Threads + Wait + Sync + AllocGlobal>(
    rt: &R,
    cases: &[(&str, &'static [u8], usize, bool, &str)],
) {
    for (case, bytes, padding, fails, fault) in cases {
        let mut reader = Trickle {
            bytes,
            padding: *padding,
            fails: *fails,
        };
        assert!(rt; comes_to(rt, &mut reader, fault), "{case}");
    }
}

fn fails_after<R: Threads + Wait + Sync + AllocGlobal>(rt: &R, front: &'static [u8]) -> bool {
    let mut reader = Trickle {
        bytes: front,
        padding: 0,
        fails: true,
    };
    runs_from(rt, &mut reader, "Read", "")
}

#[test]
fn a_reader_that_fails_after_any_front_writes_nothing(rt: HostRuntime) {
    for k in 0..=MAIN.len() {
        assert!(rt; fails_after(&rt, &MAIN[..k]), "after {k} bytes");
    }
}

#[test]
fn nothing_is_written_where_a_read_fails(rt: HostRuntime) {
    assert_all_come_to(&rt, READERS.as_slice());
}
