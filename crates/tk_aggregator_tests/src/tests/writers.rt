//! Writers that take little, nothing, or fail.

use super::given::{are_taken, on_new, takes_in_main};
use super::texts::{MAIN, MAIN_AGAIN};
use std::alloc::Global;
use std::io;
use std::io::Write;
use std::process::Abort;
use std::sync::Wait;
use tk_aggregator::{Aggregator, StreamError};

// Takes at most so many bytes a write, as long as there is room. Then it gives an error, or takes nothing.
#[derive(Drop)]
struct Narrow {
    got: Vec<u8>,
    most: usize,
    room: usize,
    is_silent: bool,
}

impl Narrow {
    fn new(alloc: Global, most: usize, room: usize, is_silent: bool) -> Narrow {
        Narrow {
            got: Vec::new(alloc),
            most,
            room,
            is_silent,
        }
    }
}

impl Write for Narrow {
    fn write(&mut self, buf: &[u8]) -> io::Result<usize> {
        if self.room == 0 && !self.is_silent {
            return Err(io::ErrorKind::BrokenPipe.into());
        }
        let n = buf.len().min(self.most).min(self.room);
        self.got.extend_from_slice(&buf[..n])?;
        self.room -= n;
        Ok(n)
    }

    fn flush(&mut self) -> io::Result<()> {
        Ok(())
    }
}

fn writes_byte_by_byte(alloc: Global, aggregator: &mut Aggregator) -> bool {
    let mut writer = Narrow::new(alloc, 1, MAIN.len(), false);
    aggregator.publish(200, &mut writer) == Ok(1) && writer.got.as_slice() == MAIN.as_bytes()
}

pub(super) fn goes_out_byte_by_byte<R: Wait>(rt: &R, alloc: Global) -> bool {
    on_new(alloc, 0, |aggregator| {
        takes_in_main(rt, alloc, aggregator) && writes_byte_by_byte(alloc, aggregator)
    })
}

// This front of the line at 200 goes out, and the tables are of no line.
fn keeps_front(alloc: Global, aggregator: &mut Aggregator, front: &[u8], is_silent: bool) -> bool {
    let mut writer = Narrow::new(alloc, 7, front.len(), is_silent);
    aggregator.publish(200, &mut writer) == Err(StreamError::WriteFault)
        && writer.got.as_slice() == front
        && aggregator.tables().now() == 0
}

// No line follows one that was cut off.
pub(super) fn is_broken(alloc: Global, aggregator: &mut Aggregator, now: u64) -> bool {
    let mut written = Vec::new(alloc);
    aggregator.publish(now, &mut written) == Err(StreamError::Broken) && written.is_empty()
}

// A snapshot on a new stream has the first number, and a fresh client takes it.
fn is_mended(alloc: Global, aggregator: &mut Aggregator) -> bool {
    let mut written = Vec::new(alloc);
    aggregator.snapshot(200, &mut written) == Ok(1)
        && are_taken(alloc, written.as_slice(), 1, aggregator.tables())
}

fn is_mended_after(
    alloc: Global,
    aggregator: &mut Aggregator,
    front: &[u8],
    is_silent: bool,
) -> bool {
    keeps_front(alloc, aggregator, front, is_silent)
        && is_broken(alloc, aggregator, 200)
        && is_mended(alloc, aggregator)
}

fn is_cut_and_mended<R: Wait>(rt: &R, alloc: Global, front: &[u8], is_silent: bool) -> bool {
    on_new(alloc, 0, |aggregator| {
        takes_in_main(rt, alloc, aggregator) && is_mended_after(alloc, aggregator, front, is_silent)
    })
}

fn assert_all_are_mended<R: Abort + Wait + AllocGlobal>(rt: &R, line: &[u8]) {
    for room in 0..line.len() {
        for is_silent in [false, true] {
            assert!(rt;
                is_cut_and_mended(rt, rt.alloc(), &line[..room], is_silent),
                "after {room} bytes"
            );
        }
    }
}

// A line that is cut off after any number of its bytes uses up no number.
pub(super) fn assert_cut_lines_are_mended<R: Abort + Wait + AllocGlobal>(rt: &R) {
    assert_all_are_mended(rt, MAIN.as_bytes());
}

// The first line goes out whole, and ten bytes of the second.
fn cuts_the_second(alloc: Global, aggregator: &mut Aggregator) -> bool {
    let mut writer = Narrow::new(alloc, 1000, MAIN.len() + 10, false);
    aggregator.publish(200, &mut writer) == Ok(1)
        && aggregator.publish(300, &mut writer) == Err(StreamError::WriteFault)
        && writer.got.starts_with(MAIN.as_bytes())
        && writer.got.ends_with(b"\n{\"dropped\"")
        && writer.got.len() == MAIN.len() + 10
}

fn snapshots_the_second(alloc: Global, aggregator: &mut Aggregator) -> bool {
    let mut written = Vec::new(alloc);
    aggregator.snapshot(300, &mut written) == Ok(2) && written.as_slice() == MAIN_AGAIN.as_bytes()
}

fn is_cut_in_the_second(alloc: Global, aggregator: &mut Aggregator) -> bool {
    cuts_the_second(alloc, aggregator)
        && is_broken(alloc, aggregator, 300)
        && snapshots_the_second(alloc, aggregator)
}

pub(super) fn goes_on_after_a_cut_second_line<R: Wait>(rt: &R, alloc: Global) -> bool {
    on_new(alloc, 0, |aggregator| {
        takes_in_main(rt, alloc, aggregator) && is_cut_in_the_second(alloc, aggregator)
    })
}

// Whether this front of the line at a moment goes out, and no more.
pub(super) fn cuts(
    alloc: Global,
    aggregator: &mut Aggregator,
    now: u64,
    front: &[u8],
    is_silent: bool,
) -> bool {
    let mut writer = Narrow::new(alloc, 7, front.len(), is_silent);
    aggregator.publish(now, &mut writer) == Err(StreamError::WriteFault)
        && writer.got.as_slice() == front
}

// Whether the second line is this one, where a writer takes a byte at a time.
pub(super) fn goes_out_narrowly(
    alloc: Global,
    aggregator: &mut Aggregator,
    now: u64,
    line: &[u8],
) -> bool {
    let mut writer = Narrow::new(alloc, 1, line.len(), false);
    aggregator.publish(now, &mut writer) == Ok(2) && writer.got.as_slice() == line
}
