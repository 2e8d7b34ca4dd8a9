//! Streams that are shown with their reports, that have a fault, and writers that fail.

use super::given::{LOST, answers, finds};
use std::alloc::Global;
use std::io;
use std::io::Write;
use tk_client::Fault;
use tk_fault::AppFault;
use tk_report::View;

// The report of the lost tasks, with findings in place of warnings.
const REPORT: &str = "now 300 dropped 0 0 0
task 1.1 spawn idle polls 1 wakes 0 self 0 clones 0 drops 0 busy 0 sched 0 name conn-1
task 1.2 spawn idle polls 1 wakes 0 self 0 clones 0 drops 0 busy 0 sched 0 name conn-27
task 1.3 spawn idle polls 1 wakes 3 self 2 clones 0 drops 0 busy 0 sched 0 name main
finding 1 lost-waker now for 240 tasks 2 task 1.2 kind spawn at a.rs:2:1 name conn-#
finding 2 lost-waker now for 210 tasks 1 task 1.3 kind spawn at a.rs:1:1 name main
finding 3 self-wakes now own 2 of 3 tasks 1 task 1.3 kind spawn at a.rs:1:1 name main
";

#[test]
fn findings_stand_below_a_report(rt: HostRuntime) {
    assert!(rt; finds(rt.alloc(), LOST, View::Report, None, 3, REPORT));
}

#[test]
fn nothing_is_odd_about_no_line(rt: HostRuntime) {
    assert!(rt; finds(rt.alloc(), b"", View::Lint, None, 0, ""));
}

// Whether a line that is none stops the view, and nothing is written.
fn stops_at_a_fault(alloc: Global) -> bool {
    let mut reader: &[u8] = b"[\n";
    let mut written = Vec::new(alloc);
    let stop = Err(AppFault::Stream {
        lines: 0,
        fault: Fault::BadJson,
    });
    answers(alloc, &mut reader, &mut written, View::Lint, None, stop) && written.is_empty()
}

#[test]
fn a_fault_shows_nothing(rt: HostRuntime) {
    assert!(rt; stops_at_a_fault(rt.alloc()));
}

// Takes as many bytes as there is room for, and then fails.
#[derive(Drop)]
struct Narrow {
    got: Vec<u8>,
    room: usize,
}

impl Write for Narrow {
    fn write(&mut self, buf: &[u8]) -> io::Result<usize> {
        if self.room == 0 {
            return Err(io::ErrorKind::BrokenPipe.into());
        }
        let n = buf.len().min(self.room);
        self.got.extend_from_slice(&buf[..n])?;
        self.room -= n;
        Ok(n)
    }

    fn flush(&mut self) -> io::Result<()> {
        Ok(())
    }
}

// Whether a writer with so little room has a front of the report.
fn keeps_a_front(alloc: Global, room: usize) -> bool {
    let mut reader = LOST;
    let mut writer = Narrow {
        got: Vec::new(alloc),
        room,
    };
    answers(
        alloc,
        &mut reader,
        &mut writer,
        View::Report,
        None,
        Err(AppFault::Write),
    ) && writer.got.len() == room
        && REPORT.as_bytes().starts_with(writer.got.as_slice())
}

#[test]
fn a_writer_that_fails_keeps_the_front_that_it_took(rt: HostRuntime) {
    for room in 0..40 {
        let room = 9 * room;
        assert!(rt; keeps_a_front(rt.alloc(), room), "after {room} bytes");
    }
}
