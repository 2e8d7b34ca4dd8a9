//! The last lines of bytes that come in pieces.
ghost use Rattle.std.specs.Prelude.{◌≡◌, ◌≤◌, IfOk, length, take};
ghost use Rattle.tk_explain.specs.Keeping.{IsOpenAt, no_lines, unended, with_piece};

use std::alloc::{AllocError, Global};
use std::marker::Model;

/// Bytes that came in pieces, and how many lines ended before them.
#[derive(Drop)]
pub(crate) struct Lines {
    alloc: Global,
    bytes: Vec<u8>,
    before: u64,
    // How many lines end in the bytes, and where what stands after the last of these begins.
    ended: u64,
    start: usize,
}

impl Model for Lines {
    ghost use Rattle.tk_explain.specs.Keeping.{LinesView, IsOpenAt};

    ghost Value = { LinesView };

    ghost view = { λ l. record { bytes = l.bytes.items; before = l.before } };

    ghost invariant = { λ l. IsOpenAt l.bytes.items l.ended l.start };
}

// How many lines end in bytes, and where what stands after the last of these begins. It is known of the first so many of them.
fn ends_from(bytes: &[u8], known: usize, ended: u64, start: usize) -> (u64, usize)
    requires known { known ≤ length bytes.now }
    requires before { IsOpenAt (take known bytes.now) ended start }
    ensures { IsOpenAt bytes.now result.0 result.1 }
{
    let mut ended = ended;
    let mut start = start;
    let mut at = known;
    while at < bytes.len() {
        if bytes[at] == b'\n' {
            ended = ended.saturating_add(1);
            start = at + 1;
        }
        at += 1;
    }
    (ended, start)
}

impl Lines {
    /// No bytes yet.
    pub(crate) fn new(alloc: Global) -> Lines
        ensures { result ≡ no_lines }
    {
        Lines {
            alloc,
            bytes: Vec::new(alloc),
            before: 0,
            ended: 0,
            start: 0,
        }
    }

    pub(crate) fn bytes(&self) -> &[u8]
        ensures { result.now ≡ self.now.bytes }
    {
        self.bytes.as_slice()
    }

    /// How many lines ended before the bytes.
    pub(crate) fn before(&self) -> u64
        ensures { result ≡ self.now.before }
    {
        self.before
    }

    /// Lets the lines go that have ended.
    pub(crate) fn forget_ended(&mut self) -> Result<(), AllocError>
        ensures done { IfOk result (λ _. self.new ≡ unended self.old) }
    {
        if self.ended > 0 {
            let mut rest = Vec::new(self.alloc);
            rest.extend_from_slice(&self.bytes[self.start..])?;
            self.bytes = rest;
            self.before = self.before.saturating_add(self.ended);
            self.ended = 0;
            self.start = 0;
        }
        Ok(())
    }

    /// Adds a piece, of which each byte is looked at once, however long its line is.
    pub(crate) fn add(&mut self, piece: &[u8]) -> Result<(), AllocError>
        ensures done { IfOk result (λ _. self.new ≡ with_piece piece.now self.old) }
    {
        let known = self.bytes.len();
        self.bytes.extend_from_slice(piece)?;
        let (ended, start) = ends_from(self.bytes.as_slice(), known, self.ended, self.start);
        self.ended = ended;
        self.start = start;
        Ok(())
    }
}
