//! A reader that keeps what it gave.
ghost use Rattle.std.specs.Prelude.{◌≡◌, true, false, IfOk};
ghost use Rattle.tk_explain.specs.Keeping.{kept_with, no_lines};

use crate::lines::Lines;
use std::alloc::{AllocError, Global};
use std::io;
use std::io::Read;

/// A reader that keeps what it gave: all of it, or the line that its last read went on with and those after that. What reads a stream
/// has taken the lines before that.
#[derive(Drop)]
pub struct Kept<R> {
    reader: R,
    alloc: Global,
    all: bool,
    lines: Lines,
    // Whether there was memory for what is to be kept.
    whole: bool,
}

impl<R> Kept<R> {
    /// A reader that keeps all that it gave.
    pub fn all(alloc: Global, reader: R) -> Kept<R>
        ensures { result.reader ≡ reader }
    {
        Kept {
            reader,
            alloc,
            all: true,
            lines: Lines::new(alloc),
            whole: true,
        }
    }

    /// A reader that keeps the lines that its last read gave bytes of.
    pub fn last_lines(alloc: Global, reader: R) -> Kept<R>
        ensures { result.reader ≡ reader }
    {
        Kept {
            reader,
            alloc,
            all: false,
            lines: Lines::new(alloc),
            whole: true,
        }
    }

    /// The reader, which goes on after what it gave.
    pub fn into_reader(self) -> R
        ensures { result ≡ self.reader }
    {
        self.reader
    }

    /// What is kept.
    pub fn bytes(&self) -> &[u8]
        ensures { result.now ≡ self.now.lines.bytes }
    {
        self.lines.bytes()
    }

    /// Whether there was memory for what was to be kept. Where there was none, nothing is.
    pub fn is_whole(&self) -> bool
        ensures { result ≡ self.now.whole }
    {
        self.whole
    }

    /// How many lines ended before the bytes that are kept.
    pub fn lines_before(&self) -> u64
        ensures { result ≡ self.now.lines.before }
    {
        self.lines.before()
    }

    fn add(&mut self, piece: &[u8]) -> Result<(), AllocError>
        ensures reader { self.new.reader ≡ self.old.reader }
        ensures whole { self.new.whole ≡ self.old.whole }
        ensures all { self.new.all ≡ self.old.all }
        ensures kept { IfOk result (λ _. self.new.lines ≡ kept_with self.old.all self.old.lines piece.now) }
    {
        if !self.all {
            self.lines.forget_ended()?;
        }
        self.lines.add(piece)
    }

    // Keeps a piece more. Without memory for it nothing is kept from then on.
    fn keep(&mut self, piece: &[u8])
        ensures reader { self.new.reader ≡ self.old.reader }
        ensures all { self.new.all ≡ self.old.all }
        ensures kept { self.new.whole ≡ true → (self.old.whole ≡ true) × (self.new.lines ≡ kept_with self.old.all self.old.lines piece.now) }
        ensures lost { self.new.whole ≡ false → self.old.whole ≡ true → self.new.lines ≡ no_lines }
    {
        if self.whole && self.add(piece).is_err() {
            self.whole = false;
            self.lines = Lines::new(self.alloc);
        }
    }
}

impl<R: Read> Read for Kept<R> {
    ghost remaining = { λ kept. R.remaining kept.reader };

    fn read(&mut self, buf: &mut [u8]) -> io::Result<usize> {
        let read = self.reader.read(buf);
        if let Ok(count) = &read {
            self.keep(&buf[..*count]);
        }
        read
    }
}
