//! Bytes of a stream that were read and not given.
ghost use Rattle.std.specs.Prelude.{◌≡◌, ◌≤◌, ◌<◌, ◌+◌, ◌^◌, ◌++◌, ◌∷◌, ℕ, List, [], true, false, Some, length, take, drop, IfOk, IfSome, IfNone, OnOk, OnErr};
ghost use Rattle.std.specs.Io.KnownBytes.{Consumes, IsAtEnd, Keeps};
ghost use Rattle.tk_stream.specs.Spelling.{line_end, is_one_line};
ghost use Rattle.tk_until.specs.Front as spec;
ghost use Rattle.tk_until.specs.Held.{Adds, given_until, held_len, left_until, nothing_held};

use memchr::memchr;
use std::alloc::{AllocError, Global};
use std::io;
use std::io::Read;
use std::marker::Model;
use tk_stream::{Line, LineError};

// How many bytes are read at a time.
const PIECE: usize = 65_536;

/// Bytes of a stream that were read and not given, of which whole lines were judged by their moments.
#[derive(Drop)]
pub(crate) struct Held {
    alloc: Global,
    bytes: Vec<u8>,
    // How many of the bytes were given, are lines that may be given, and were searched for line ends.
    given: usize,
    judged: usize,
    searched: usize,
    // Whether a line came that is later.
    ended: bool,
}

impl Model for Held {
    ghost use Rattle.tk_until.specs.Held.{HeldView, InOrder, held_of};

    ghost Value = { HeldView };

    ghost view = { λ h. held_of h.bytes.items h.given h.judged h.searched h.ended };

    ghost invariant = { λ h. InOrder h.bytes.items h.given h.judged h.searched };
}

// The first line end of bytes.
fn first_end(bytes: &[u8]) -> Option<usize>
    ensures within { IfSome result (λ end. end < length bytes.now) }
    ensures before { IfSome result (λ end. is_one_line (take end bytes.now) ≡ true) }
    ensures through { IfSome result (λ end. take (end + 1) bytes.now ≡ take end bytes.now ++ line_end ∷ []) }
    ensures none { IfNone result (is_one_line bytes.now ≡ true) }
{
    memchr(b'\n', bytes)
}

// Whether a line is later than a moment.
fn is_later(alloc: Global, until: u64, line: &[u8]) -> Result<bool, AllocError>
    ensures { IfOk result (λ later. later ≡ spec.is_later until line.now) }
{
    match Line::read(alloc, line) {
        Ok(line) => Ok(until < line.now()),
        Err(LineError::Memory) => Err(AllocError),
        Err(LineError::BadJson) => Ok(false),
        Err(LineError::BadShape) => Ok(false),
    }
}

// One read, after so many bytes.
fn read_at<R: Read>(reader: &mut R, bytes: &mut [u8], at: usize) -> io::Result<usize>
    requires { at < length bytes.old }
    ensures front { take at bytes.new ≡ take at bytes.old }
    ensures fits { IfOk result (λ n. at + n ≤ length bytes.new) }
    ensures read { IfOk result (λ n. Consumes (R.remaining reader.old) (R.remaining reader.new) (take n (drop at bytes.new))) }
    ensures end { IfOk result (λ n. n ≡ 0 → IsAtEnd (R.remaining reader.new)) }
    ensures err { OnErr result (Keeps (R.remaining reader.old) (R.remaining reader.new)) }
{
    reader.read(&mut bytes[at..])
}

// One read, behind the bytes. Room is made first, so that no byte is lost without memory.
fn read_more<R: Read>(reader: &mut R, bytes: &mut Vec<u8>) -> io::Result<usize>
    ensures read { IfOk result (λ n. (read : List ℕ) × (bytes.new.items ≡ bytes.old.items ++ read)
        × Consumes (R.remaining reader.old) (R.remaining reader.new) read × (length read ≡ n)) }
    ensures end { IfOk result (λ n. n ≡ 0 → IsAtEnd (R.remaining reader.new)) }
    ensures err { OnErr result (Keeps (R.remaining reader.old) (R.remaining reader.new)) }
    ensures same { OnErr result (bytes.new.items ≡ bytes.old.items) }
{
    let len = bytes.len();
    bytes.resize(len + PIECE, 0)?;
    match read_at(reader, bytes.as_mut_slice(), len) {
        Ok(n) => {
            bytes.truncate(len + n);
            Ok(n)
        }
        Err(e) => {
            bytes.truncate(len);
            Err(e)
        }
    }
}

impl Held {
    /// No bytes yet.
    pub(crate) fn new(alloc: Global) -> Held
        ensures { result ≡ nothing_held }
    {
        Held {
            alloc,
            bytes: Vec::new(alloc),
            given: 0,
            judged: 0,
            searched: 0,
            ended: false,
        }
    }

    /// Gives as many bytes of the judged lines as there is room for.
    pub(crate) fn give(&mut self, buf: &mut [u8]) -> usize
        ensures within { result ≤ length buf.new }
        ensures bytes { self.old.judged ≡ take result buf.new ++ self.new.judged }
        ensures rest { self.new ≡ record self.old { judged = self.new.judged } }
        ensures none { result ≡ 0 → 0 < length buf.new → self.old.judged ≡ [] }
    {
        let n = buf.len().min(self.judged - self.given);
        buf[..n].copy_from_slice(&self.bytes[self.given..self.given + n]);
        self.given += n;
        n
    }

    fn has_ended(&self) -> bool
        ensures { result ≡ self.now.ended }
    {
        self.ended
    }

    // Whether there is nothing to give before more is read.
    fn waits(&self) -> bool
        ensures waits { result ≡ true → (self.now.judged ≡ []) × (self.now.ended ≡ false) }
        ensures done { result ≡ false → self.now.judged ≡ [] → self.now.ended ≡ true }
    {
        self.given == self.judged && !self.ended
    }

    // Lets the bytes go that were given.
    fn forget_given(&mut self) -> Result<(), AllocError>
        ensures { self.new ≡ self.old }
    {
        if self.given > 0 {
            let mut rest = Vec::new(self.alloc);
            rest.extend_from_slice(&self.bytes[self.given..])?;
            self.bytes = rest;
            self.judged -= self.given;
            self.searched -= self.given;
            self.given = 0;
        }
        Ok(())
    }

    // Judges the next whole line, if there is one, and answers whether there was.
    fn judge_line(&mut self, until: u64) -> Result<bool, AllocError>
        requires { self.old.ended ≡ false }
        ensures same { (rest : List ℕ) → given_until until self.new rest ≡ given_until until self.old rest }
        ensures len { held_len self.new ≡ held_len self.old }
        ensures some { IfOk result (λ some. some ≡ true → length self.new.more < length self.old.more) }
        ensures none { IfOk result (λ some. some ≡ false → self.new.more ≡ []) }
    {
        let Some(before) = first_end(&self.bytes[self.searched..]) else {
            self.searched = self.bytes.len();
            return Ok(false);
        };
        let end = self.searched + before;
        if is_later(self.alloc, until, &self.bytes[self.judged..end])? {
            self.ended = true;
        } else {
            self.judged = end + 1;
        }
        self.searched = end + 1;
        Ok(true)
    }

    // Judges the whole lines, through the first that is later.
    fn judge(&mut self, until: u64) -> Result<(), AllocError>
        ensures same { (rest : List ℕ) → given_until until self.new rest ≡ given_until until self.old rest }
        ensures len { held_len self.new ≡ held_len self.old }
        ensures all { OnOk result (self.new.ended ≡ false → self.new.more ≡ []) }
    {
        'lines: while !self.has_ended() {
            let some = self.judge_line(until)?;
            if !some {
                return Ok(());
            }
        }
        Ok(())
    }

    // Holds what one more read gives, and answers how many bytes that is.
    fn fill<R: Read>(&mut self, reader: &mut R) -> io::Result<usize>
        ensures adds { IfOk result (λ n. Adds self.old self.new (R.remaining reader.old) (R.remaining reader.new) n) }
        ensures end { IfOk result (λ n. n ≡ 0 → IsAtEnd (R.remaining reader.new)) }
        ensures fits { OnOk result (held_len self.new < 2 ^ 64) }
        ensures err { OnErr result (Keeps (R.remaining reader.old) (R.remaining reader.new)) }
        ensures same { OnErr result (self.new ≡ self.old) }
    {
        self.forget_given()?;
        read_more(reader, &mut self.bytes)
    }

    // Holds what one more read gives, judges it, and answers how many bytes it is.
    fn read_on<R: Read>(&mut self, until: u64, reader: &mut R) -> io::Result<usize>
        ensures keeps { Keeps (left_until (Some until) self.old (R.remaining reader.old)) (left_until (Some until) self.new (R.remaining reader.new)) }
        ensures end { IfOk result (λ n. n ≡ 0 → IsAtEnd (R.remaining reader.new)) }
        ensures all { OnOk result (self.new.ended ≡ false → self.new.more ≡ []) }
        ensures grows { IfOk result (λ n. held_len self.new ≡ held_len self.old + n) }
        ensures fits { OnOk result (held_len self.new < 2 ^ 64) }
    {
        let count = self.fill(reader)?;
        self.judge(until)?;
        Ok(count)
    }

    /// Reads until there are bytes to give, or a later line came, or the reader ends.
    pub(crate) fn ready<R: Read>(&mut self, until: u64, reader: &mut R) -> io::Result<()>
        ensures keeps { Keeps (left_until (Some until) self.old (R.remaining reader.old)) (left_until (Some until) self.new (R.remaining reader.new)) }
        ensures end { OnOk result (self.new.judged ≡ [] → IsAtEnd (left_until (Some until) self.new (R.remaining reader.new))) }
    {
        self.judge(until)?;
        'reads: while self.waits() {
            let count = self.read_on(until, reader)?;
            if count == 0 {
                return Ok(());
            }
        }
        Ok(())
    }
}
