//! Writers that take little, nothing, or fail.

use super::given::{SEMAPHORE, SEMAPHORE_REPORT, comes_to};
use std::alloc::Global;
use std::io;
use std::io::Write;
use tk_report::View;

// Takes at most so many bytes a write, as long as there is room. Then it gives an error, or takes nothing.
#[derive(Drop)]
struct Narrow {
    got: Vec<u8>,
    most: usize,
    room: usize,
    is_silent: bool,
}

impl Write for Narrow {
    fn write(&mut self, buf: &[u8]) -> io::Result<usize> {
        if self.room == 0 && !self.is_silent {
            return Err(io::ErrorKind::BrokenPipe.into());
        }
        let n = buf.len().min(self.most).min(self.room);
        self.got.extend_from_slice(&buf[..n])?;
        self.room -= n;
        Ok(n)
    }

    fn flush(&mut self) -> io::Result<()> {
        Ok(())
    }
}

// Whether the report goes into such a writer, or stops at this fault, and these bytes went out.
fn goes_into(
    alloc: Global,
    most: usize,
    room: usize,
    is_silent: bool,
    fault: &str,
    wanted: &[u8],
) -> bool {
    let mut reader = SEMAPHORE;
    let mut writer = Narrow {
        got: Vec::new(alloc),
        most,
        room,
        is_silent,
    };
    comes_to(alloc, &mut reader, &mut writer, View::Report, 0, fault)
        && writer.got.as_slice() == wanted
}

#[test]
fn a_writer_may_take_one_byte_at_a_time(rt: HostRuntime) {
    let report = SEMAPHORE_REPORT.as_bytes();
    assert!(rt; goes_into(rt.alloc(), 1, report.len(), false, "", report));
}

#[test]
fn a_writer_that_fails_keeps_the_front_that_it_took(rt: HostRuntime) {
    let report = SEMAPHORE_REPORT.as_bytes();
    for k in 0..report.len() {
        assert!(rt;
            goes_into(rt.alloc(), 7, k, false, "Write", &report[..k]),
            "after {k} bytes"
        );
    }
}

#[test]
fn a_writer_that_takes_nothing_keeps_the_front_that_it_took(rt: HostRuntime) {
    let report = SEMAPHORE_REPORT.as_bytes();
    for k in 0..report.len() {
        assert!(rt;
            goes_into(rt.alloc(), 7, k, true, "Write", &report[..k]),
            "after {k} bytes"
        );
    }
}
