//! When screens are drawn.

use super::given::{
    AGAIN, AGAIN_SCREEN, FIRST, FIRST_SCREEN, Few, LATER, LATER_SCREEN, PLAIN, SECOND,
    SECOND_SCREEN, THIRD, THIRD_SCREEN, comes_to,
};
use std::alloc::Global;
use std::io;
use std::io::{Read, Write};

// Gives one of these at each read, and then an end.
#[derive(Drop)]
struct Lines {
    lines: [&'static [u8]; 5],
    next: usize,
}

impl Read for Lines {
    fn read(&mut self, buf: &mut [u8]) -> io::Result<usize> {
        let Some(line) = self.lines.get(self.next).copied() else {
            return Ok(0);
        };
        let Some(to) = buf.get_mut(..line.len()) else {
            return Err(io::ErrorKind::Other.into());
        };
        to.copy_from_slice(line);
        self.next = self.next.saturating_add(1);
        Ok(line.len())
    }
}

// Whether these pieces, read one by one, are watched to this end by these screens, with so many waits.
fn draws(
    alloc: Global,
    lines: [&'static [u8]; 5],
    due: u64,
    follows: u64,
    fault: &str,
    waits: u64,
    screens: &[&str],
) -> bool {
    let mut reader = Lines { lines, next: 0 };
    let mut writer = Vec::new(alloc);
    let mut pace = Few {
        due,
        waits: 0,
        follows,
    };
    let ends = comes_to(alloc, &mut reader, &mut writer, PLAIN, &mut pace, fault);
    ends && pace.waits == waits && is_joined(writer.as_slice(), screens)
}

fn is_joined(text: &[u8], parts: &[&str]) -> bool {
    let mut rest = text;
    for part in parts {
        match rest.strip_prefix(part.as_bytes()) {
            Some(after) => rest = after,
            None => return false,
        }
    }
    rest.is_empty()
}

#[test]
fn a_line_right_after_a_screen_is_drawn_without_more(rt: HostRuntime) {
    let lines = [FIRST, SECOND, THIRD, b"", b""];
    let screens = [FIRST_SCREEN, SECOND_SCREEN, THIRD_SCREEN];
    assert!(rt; draws(rt.alloc(), lines, 1, 0, "", 2, &screens));
}

#[test]
fn what_comes_in_half_lines_is_not_waited_for(rt: HostRuntime) {
    let (front, rest) = SECOND.split_at(10);
    let lines = [FIRST, front, rest, THIRD, b""];
    let screens = [FIRST_SCREEN, SECOND_SCREEN, THIRD_SCREEN];
    assert!(rt; draws(rt.alloc(), lines, 1, 0, "", 2, &screens));
}

#[test]
fn a_stream_that_is_followed_goes_on_at_its_end(rt: HostRuntime) {
    let lines = [FIRST, b"", SECOND, b"", THIRD];
    let screens = [FIRST_SCREEN, SECOND_SCREEN, THIRD_SCREEN];
    assert!(rt;
        draws(rt.alloc(), lines, 9, 2, "", 0, &screens),
        "two more lines come after ends"
    );
    assert!(rt;
        draws(rt.alloc(), lines, 9, 0, "", 0, &[FIRST_SCREEN]),
        "the end is the last if it isn't followed"
    );
}

#[test]
fn where_there_is_no_finding_the_screen_says_how_many_wait(rt: HostRuntime) {
    let lines = [FIRST, LATER, b"", b"", b""];
    let screens = [FIRST_SCREEN, LATER_SCREEN];
    assert!(rt; draws(rt.alloc(), lines, 9, 0, "", 0, &screens));
}

#[test]
fn that_the_service_was_started_again_is_told(rt: HostRuntime) {
    let lines = [FIRST, AGAIN, b"", b"", b""];
    let screens = [FIRST_SCREEN, AGAIN_SCREEN];
    assert!(rt; draws(rt.alloc(), lines, 9, 0, "", 0, &screens));
}

#[test]
fn at_a_fault_what_stands_is_drawn(rt: HostRuntime) {
    let fault = "stream after 1 lines: Gap expected 2 found 3";
    let lines = [FIRST, THIRD, b"", b"", b""];
    assert!(rt;
        draws(
            rt.alloc(),
            lines,
            9,
            0,
            fault,
            0,
            &[FIRST_SCREEN, FIRST_SCREEN]
        )
    );
}

#[test]
fn an_end_before_the_first_line_is_drawn(rt: HostRuntime) {
    let screens = [
        "now 0 ns  tasks 0: 0 polling, 0 scheduled, 0 idle, 0 closed  findings 0
no line came: nothing is known of any task
  TASK STATE         BUSY    SCHED  POLLS  WAKES SELF LOCATION        NAME                 KIND
0 of 0 tasks

",
    ];
    assert!(rt; draws(rt.alloc(), [b"", b"", b"", b"", b""], 9, 0, "", 0, &screens));
}

// Takes so many bytes, and then gives an error.
#[derive(Drop)]
struct Narrow {
    got: Vec<u8>,
    room: usize,
}

impl Write for Narrow {
    fn write(&mut self, buf: &[u8]) -> io::Result<usize> {
        if self.room == 0 {
            return Err(io::ErrorKind::BrokenPipe.into());
        }
        let n = buf.len().min(7).min(self.room);
        self.got.extend_from_slice(&buf[..n])?;
        self.room -= n;
        Ok(n)
    }

    fn flush(&mut self) -> io::Result<()> {
        Ok(())
    }
}

fn keeps_front(alloc: Global, room: usize) -> bool {
    let mut reader = FIRST;
    let mut writer = Narrow {
        got: Vec::new(alloc),
        room,
    };
    let mut pace = Few {
        due: 1,
        waits: 0,
        follows: 0,
    };
    comes_to(alloc, &mut reader, &mut writer, PLAIN, &mut pace, "Write")
        && writer.got.as_slice() == &FIRST_SCREEN.as_bytes()[..room.min(FIRST_SCREEN.len())]
}

#[test]
fn a_writer_that_fails_keeps_the_front_that_it_took(rt: HostRuntime) {
    for room in 0..FIRST_SCREEN.len() {
        assert!(rt; keeps_front(rt.alloc(), room), "after {room} bytes");
    }
}
