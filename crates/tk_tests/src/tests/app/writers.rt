//! Writers that take little, nothing, or fail.

use super::given::{MAIN, MAIN_LINE, stops_at, text_of};
use std::io;
use std::io::Write;
use std::process::Abort;
use std::sync::Wait;
use std::thread::Threads;

// Takes at most so many bytes a write, as long as there is room. Then it gives an error, or takes nothing.
#[derive(Drop)]
struct Narrow {
    got: Vec<u8>,
    most: usize,
    room: usize,
    is_silent: bool,
}

impl Write for Narrow {
    fn write(&mut self, buf: &[u8]) -> io::Result<usize> {
        if self.room == 0 && !self.is_silent {
            return Err(io::ErrorKind::BrokenPipe.into());
        }
        let n = buf.len().min(self.most).min(self.room);
        self.got.extend_from_slice(&buf[..n])?;
        self.room -= n;
        Ok(n)
    }

    fn flush(&mut self) -> io::Result<()> {
        Ok(())
    }
}

// Whether a script that is run into a writer of this kind stops at this fault, or at none where its text is empty, and these
// bytes went out.
fn runs_into<R: Threads + Wait + Sync + AllocGlobal>(
    rt: &R,
    script: &'static [u8],
    most: usize,
    room: usize,
    is_silent: bool,
    fault: &str,
    wanted: &[u8],
) -> bool {
    let mut reader = script;
    let mut writer = Narrow {
        got: Vec::new(rt.alloc()),
        most,
        room,
        is_silent,
    };
    stops_at(rt, &mut reader, &mut writer, fault) && writer.got.as_slice() == wanted
}

fn goes_out_byte_by_byte<R: Threads + Wait + Sync + AllocGlobal>(rt: &R, line: &[u8]) -> bool {
    runs_into(rt, MAIN, 1, line.len(), false, "", line)
}

#[test]
fn a_writer_may_take_one_byte_at_a_time(rt: HostRuntime) {
    match text_of(rt.alloc(), &[MAIN_LINE]) {
        Some(line) => assert!(rt; goes_out_byte_by_byte(&rt, line.as_bytes())),
        None => assert!(rt; false, "no line"),
    }
}

fn keeps_front<R: Threads + Wait + Sync + AllocGlobal>(
    rt: &R,
    front: &[u8],
    is_silent: bool,
) -> bool {
    runs_into(
        rt,
        MAIN,
        7,
        front.len(),
        is_silent,
        "line 2: WriteFault",
        front,
    )
}

fn assert_keeps_fronts<R: Abort + Threads + Wait + Sync + AllocGlobal>(rt: &R, line: &[u8]) {
    for room in 0..line.len() {
        for is_silent in [false, true] {
            assert!(rt;
                keeps_front(rt, &line[..room], is_silent),
                "after {room} bytes"
            );
        }
    }
}

#[test]
fn a_failing_writer_keeps_what_it_took(rt: HostRuntime) {
    match text_of(rt.alloc(), &[MAIN_LINE]) {
        Some(line) => assert_keeps_fronts(&rt, line.as_bytes()),
        None => assert!(rt; false, "no line"),
    }
}

const LATER: &[u8] = b"task 100 spawn main\npublish 200\n# again\npublish 300\n";

fn keeps_first<R: Threads + Wait + Sync + AllocGlobal>(rt: &R, line: &[u8]) -> bool {
    runs_into(rt, LATER, 7, line.len(), false, "line 4: WriteFault", line)
}

// The first line went out whole, and the second did not begin.
#[test]
fn a_fault_in_a_later_line_keeps_the_first(rt: HostRuntime) {
    match text_of(rt.alloc(), &[MAIN_LINE]) {
        Some(line) => assert!(rt; keeps_first(&rt, line.as_bytes())),
        None => assert!(rt; false, "no line"),
    }
}
