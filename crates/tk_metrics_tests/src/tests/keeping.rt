//! Numbers that are kept in a place while a stream comes.
use super::given::{LOST, LOST_NUMBERS};
use std::alloc::Global;
use std::io;
use std::io::Read;
use tk_client::{Fault, Lints};
use tk_fault::AppFault;
use tk_metrics::{Apart, By, Place, keep_metrics, metrics_stream};
use tk_reading::Pace;

const BY_NAME: Apart = Apart {
    by: By::Name,
    most: None,
};

// Gives a line at a time.
#[derive(Drop)]
struct ByLine<'a> {
    rest: &'a [u8],
}

impl Read for ByLine<'_> {
    fn read(&mut self, buf: &mut [u8]) -> io::Result<usize> {
        let line = match self.rest.iter().position(|byte| *byte == b'\n') {
            Some(end) => end.saturating_add(1),
            None => self.rest.len(),
        };
        let n = line.min(buf.len()).min(self.rest.len());
        buf[..n].copy_from_slice(&self.rest[..n]);
        self.rest = &self.rest[n..];
        Ok(n)
    }
}

// Takes so many texts, and then gives an error.
#[derive(Drop)]
struct Shelf {
    alloc: Global,
    texts: Vec<Vec<u8>>,
    room: usize,
}

impl Shelf {
    fn new(alloc: Global, room: usize) -> Shelf {
        Shelf {
            alloc,
            texts: Vec::new(alloc),
            room,
        }
    }

    fn last_is(&self, text: &[u8]) -> bool {
        match self.texts.last() {
            Some(last) => last.as_slice() == text,
            None => false,
        }
    }
}

impl Place for Shelf {
    fn put(&mut self, path: &str, text: &[u8]) -> io::Result<()> {
        if self.texts.len() >= self.room || path != "tasks.prom" {
            return Err(io::ErrorKind::PermissionDenied.into());
        }
        let mut copy = Vec::new(self.alloc);
        copy.extend_from_slice(text)?;
        self.texts.push(copy)?;
        Ok(())
    }
}

// Is always due or never, and goes on so many times at the end of a stream.
#[derive(Drop)]
struct Steady {
    is_due: bool,
    more: u32,
}

impl Pace for Steady {
    fn is_due(&mut self) -> bool {
        self.is_due
    }

    fn wait(&mut self) {}

    fn mark(&mut self) {}

    fn goes_on(&mut self) -> bool {
        let goes_on = self.more > 0;
        self.more = self.more.saturating_sub(1);
        goes_on
    }
}

// Refuses so many texts, as a full disk does, and then takes them.
#[derive(Drop)]
struct Full {
    shelf: Shelf,
    refusals: usize,
}

impl Place for Full {
    fn put(&mut self, path: &str, text: &[u8]) -> io::Result<()> {
        if self.refusals > 0 {
            self.refusals -= 1;
            return Err(io::ErrorKind::PermissionDenied.into());
        }
        self.shelf.put(path, text)
    }
}

fn keep<P: Place>(
    alloc: Global,
    stream: &[u8],
    shelf: &mut P,
    path: &str,
    is_due: bool,
) -> Result<(), AppFault> {
    let mut reader = ByLine { rest: stream };
    let mut pace = Steady { is_due, more: 2 };
    keep_metrics(
        alloc,
        &mut reader,
        shelf,
        path,
        BY_NAME,
        &Lints::default(),
        &mut pace,
    )
}

// The numbers of the first line of a stream.
fn first_numbers(alloc: Global, stream: &[u8]) -> Option<Vec<u8>> {
    let mut reader = ByLine { rest: stream };
    let mut piece = [0u8; 4096];
    let n = reader.read(&mut piece).ok()?;
    let mut first = &piece[..n];
    let mut numbers = Vec::new(alloc);
    metrics_stream(alloc, &mut first, &mut numbers, BY_NAME, &Lints::default()).ok()?;
    Some(numbers)
}

#[test]
fn numbers_are_put_after_each_line_that_came_and_at_the_end(rt: HostRuntime) {
    let mut shelf = Shelf::new(rt.alloc(), 10);
    assert!(rt; keep(rt.alloc(), LOST, &mut shelf, "tasks.prom", true).is_ok());
    // Two lines, none while nothing came, and the end.
    assert!(rt; shelf.texts.len() == 3);
    assert!(rt; shelf.last_is(LOST_NUMBERS.as_bytes()));
    let first = first_numbers(rt.alloc(), LOST);
    let has_first = match (&first, shelf.texts.first()) {
        (Some(numbers), Some(text)) => numbers.as_slice() == text.as_slice(),
        _ => false,
    };
    assert!(rt; has_first);
}

#[test]
fn what_came_last_is_put_though_it_was_never_time(rt: HostRuntime) {
    let mut shelf = Shelf::new(rt.alloc(), 10);
    assert!(rt; keep(rt.alloc(), LOST, &mut shelf, "tasks.prom", false).is_ok());
    assert!(rt; shelf.texts.len() == 1);
    assert!(rt; shelf.last_is(LOST_NUMBERS.as_bytes()));
}

#[test]
fn the_numbers_of_no_line_are_put_at_the_end(rt: HostRuntime) {
    let mut shelf = Shelf::new(rt.alloc(), 10);
    assert!(rt; keep(rt.alloc(), b"", &mut shelf, "tasks.prom", true).is_ok());
    assert!(rt; shelf.texts.len() == 1);
}

#[test]
fn at_a_fault_the_numbers_of_the_lines_before_it_are_put(rt: HostRuntime) {
    let mut shelf = Shelf::new(rt.alloc(), 10);
    let mut stream = Vec::new(rt.alloc());
    let is_made = stream.extend_from_slice(LOST).is_ok()
        && stream.extend_from_slice(b"{}\n").is_ok();
    assert!(rt; is_made);
    let outcome = keep(
        rt.alloc(),
        stream.as_slice(),
        &mut shelf,
        "tasks.prom",
        false,
    );
    assert!(rt;
        matches!(
            &outcome,
            Err(AppFault::Stream {
                lines: 2,
                fault: Fault::BadShape
            })
        )
    );
    assert!(rt; shelf.texts.len() == 1);
    assert!(rt; shelf.last_is(LOST_NUMBERS.as_bytes()));
}

#[test]
fn a_place_that_takes_no_more_ends_it(rt: HostRuntime) {
    let mut shelf = Shelf::new(rt.alloc(), 2);
    let outcome = keep(rt.alloc(), LOST, &mut shelf, "tasks.prom", true);
    assert!(rt; matches!(&outcome, Err(AppFault::Write)));
    assert!(rt; shelf.texts.len() == 2);
    let elsewhere = keep(rt.alloc(), LOST, &mut shelf, "other.prom", true);
    assert!(rt; matches!(&elsewhere, Err(AppFault::Write)));
}

#[test]
fn a_place_that_was_full_gets_the_numbers_of_a_later_line(rt: HostRuntime) {
    let mut full = Full {
        shelf: Shelf::new(rt.alloc(), 10),
        refusals: 1,
    };
    assert!(rt; keep(rt.alloc(), LOST, &mut full, "tasks.prom", true).is_ok());
    // Not those of the first line, but of the second, and of all.
    assert!(rt; full.shelf.texts.len() == 2);
    assert!(rt; full.shelf.last_is(LOST_NUMBERS.as_bytes()));
}
