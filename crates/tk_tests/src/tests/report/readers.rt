//! Readers that give little, or a fault.

use super::given::{LOST, LOST_REPORT, shows_from};
use std::alloc::Global;
use std::io;
use std::io::Read;
use tk_report::View;

// Gives one byte a read, and then its end or a fault.
#[derive(Drop)]
struct Trickle {
    bytes: &'static [u8],
    fails: bool,
}

impl Read for Trickle {
    fn read(&mut self, buf: &mut [u8]) -> io::Result<usize> {
        if buf.is_empty() {
            return Ok(0);
        }
        if let Some((byte, rest)) = self.bytes.split_first() {
            buf[0] = *byte;
            self.bytes = rest;
            return Ok(1);
        }
        if self.fails {
            return Err(io::ErrorKind::Other.into());
        }
        Ok(0)
    }
}

fn trickles(alloc: Global) -> bool {
    let mut reader = Trickle {
        bytes: LOST,
        fails: false,
    };
    shows_from(alloc, &mut reader, View::Report, 1, "", LOST_REPORT)
}

#[test]
fn a_reader_may_give_one_byte_at_a_time(rt: HostRuntime) {
    assert!(rt; trickles(rt.alloc()));
}

fn fails_after(alloc: Global, front: &'static [u8]) -> bool {
    let mut reader = Trickle {
        bytes: front,
        fails: true,
    };
    shows_from(alloc, &mut reader, View::Report, 0, "Read", "")
}

#[test]
fn a_reader_that_fails_after_any_front_shows_nothing(rt: HostRuntime) {
    for k in 0..=LOST.len() {
        assert!(rt; fails_after(rt.alloc(), &LOST[..k]), "after {k} bytes");
    }
}
