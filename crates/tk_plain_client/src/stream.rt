//! What a stream comes to, byte by byte.

use crate::plain::Plain;
use crate::read::line_of;
use std::alloc::{AllocError, Global};

/// What comes of a stream: the fault's number, 0 without one, the lines applied before it, the bytes up to it, and for a gap the
/// number that was expected and the one that was found.
#[derive(Clone, Copy, PartialEq, Eq, Debug)]
pub struct Outcome {
    pub code: u32,
    pub lines: u64,
    pub used: usize,
    pub gap: Option<(u64, u64)>,
}

// What is held after the bytes so far, the bytes of a line that hasn't ended, and what came of all of them.
#[derive(Drop)]
struct Course {
    plain: Plain,
    part: Vec<u8>,
    outcome: Outcome,
}

impl Course {
    fn new(alloc: Global) -> Course {
        Course {
            plain: Plain::new(alloc),
            part: Vec::new(alloc),
            outcome: Outcome {
                code: 0,
                lines: 0,
                used: 0,
                gap: None,
            },
        }
    }

    // Takes the line that ends here.
    fn end_line(&mut self, alloc: Global) -> Result<(), AllocError> {
        let line = line_of(alloc, self.part.as_slice())?;
        let expected = self.plain.next();
        let code = self.plain.take(alloc, &line)?;
        self.outcome.code = code;
        if code == 4 {
            self.outcome.gap = Some((expected, line.seq));
        }
        if code == 0 {
            self.outcome.lines = self.outcome.lines.saturating_add(1);
        }
        self.part.clear();
        Ok(())
    }

    fn take(&mut self, alloc: Global, byte: u8, max_line: usize) -> Result<(), AllocError> {
        self.outcome.used = self.outcome.used.saturating_add(1);
        if byte == b'\n' {
            return self.end_line(alloc);
        }
        if self.part.len() >= max_line {
            self.outcome.code = 7;
            return Ok(());
        }
        self.part.push(byte)?;
        Ok(())
    }
}

/// What a new client makes of these bytes that takes lines of at most so many, up to the first fault.
pub fn outcome_of(alloc: Global, bytes: &[u8], max_line: usize) -> Result<Outcome, AllocError> {
    let mut course = Course::new(alloc);
    for byte in bytes {
        if course.outcome.code == 0 {
            course.take(alloc, *byte, max_line)?;
        }
    }
    Ok(course.outcome)
}
