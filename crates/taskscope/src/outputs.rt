//! What the program writes: its output, and what it tells of faults while that output has a reader.

use std::cell::Cell;
use std::io;
use std::io::{ErrorKind, Write};

/// The program's output. It notes where its reader has gone away, as `head` does once it has its lines.
#[derive(Drop)]
pub(crate) struct Output<'a, W> {
    writer: W,
    is_left: &'a Cell<bool>,
}

impl<'a, W> Output<'a, W> {
    pub(crate) fn new(writer: W, is_left: &'a Cell<bool>) -> Self {
        Output { writer, is_left }
    }
}

impl<W: Write> Write for Output<'_, W> {
    ghost contents = { λ output. W.contents output.writer };

    fn write(&mut self, buf: &[u8]) -> io::Result<usize> {
        let outcome = self.writer.write(buf);
        if let Err(error) = &outcome {
            if error.kind() == ErrorKind::BrokenPipe {
                self.is_left.set(true);
            }
        }
        outcome
    }

    fn flush(&mut self) -> io::Result<()> {
        self.writer.flush()
    }
}

/// Where faults are told. Where the output's reader has gone away nobody waits for more, and nothing is told.
#[derive(Drop)]
pub(crate) struct Faults<'a, W> {
    writer: W,
    is_left: &'a Cell<bool>,
}

impl<'a, W> Faults<'a, W> {
    pub(crate) fn new(writer: W, is_left: &'a Cell<bool>) -> Self {
        Faults { writer, is_left }
    }
}

impl<W: Write> Write for Faults<'_, W> {
    fn write(&mut self, buf: &[u8]) -> io::Result<usize> {
        if self.is_left.get() {
            return Ok(buf.len());
        }
        self.writer.write(buf)
    }

    fn flush(&mut self) -> io::Result<()> {
        self.writer.flush()
    }
}
