//! A client, whose tables are those that the lines lead to that it was fed.
//!
//! `specs/Meaning.antt` says what bytes mean to a client, and `specs/Feeding.antt` what feeding them does.
ghost use Rattle.std.specs.Prelude.{◌≡◌, ◌+◌, ◌≤◌, ◌<◌, ◌^◌, ◌==◌, IfOk, IfErr, OnErr, IfSome, IfNone, Ok, Err, length, take, true, false, Some, [], ◌∷◌, ◌++◌, position};
ghost use Rattle.tk_stream.specs.Spelling.{line_end, is_one_line};
ghost use Rattle.tk_client.specs.Meaning as spec;
ghost use Rattle.tk_client.specs.Feeding.{Took, Stopped, lines_of};
ghost use Rattle.tk_client.specs.Applying.{Answers, Ended, EndedWhole};
ghost use Rattle.tk_client.specs.Changes.{timed_in};
ghost use Rattle.tk_client.specs.Changing.{Noted, Steps};

use crate::change::{Change, Notes, Unnoted};
use crate::fault::{Fault, FeedError};
use crate::lints::Lints;
use crate::shown::Shown;
use crate::times::{Times, apply};
use crate::warning::Warning;
use memchr::memchr;
use std::alloc::Global;
use std::marker::Model;
use tk_ids::TaskId;
use tk_stream::{Line, PollTimes, Table, Tables};

/// What a client took of a piece: its first line, or all of it where no line ends.
#[derive(Drop)]
pub struct FedLine {
    /// How many bytes were taken.
    pub used: usize,
    /// What the line changed, where one ended.
    pub change: Option<Change>,
}

/// A client of a stream.
#[derive(Drop)]
pub struct Client {
    alloc: Global,
    shown: Shown,
    // Beside the tables, and of their tasks alone.
    times: Times,
    last: Option<u64>,
    // The bytes of a line that hasn't ended.
    part: Vec<u8>,
    limit: usize,
    failed: bool,
}

impl Model for Client {
    ghost use Rattle.std.specs.Prelude.{◌≤◌, ◌^◌, length, IfSome};
    ghost use Rattle.tk_client.specs.Feeding.{ClientView};

    ghost Value = { ClientView };

    ghost view = { λ c. record {
      start = record { tables = c.shown; last = c.last; part = c.part.items; times = c.times };
      has_failed = c.failed;
      max_line = c.limit;
    } };

    ghost invariant = { λ c. (length c.part.items ≤ c.limit) × IfSome c.last (λ n. n ≤ 2 ^ 63) };
}

fn find_end(bytes: &[u8]) -> Option<usize>
    ensures { result ≡ position (λ b. b == line_end) bytes.now }
{
    memchr(b'\n', bytes)
}

// Where the first line ends.
fn first_end(bytes: &[u8]) -> Option<usize>
    ensures within { IfSome result (λ end. end < length bytes.now) }
    ensures before { IfSome result (λ end. is_one_line (take end bytes.now) ≡ true) }
    ensures through { IfSome result (λ end. take (end + 1) bytes.now ≡ take end bytes.now ++ line_end ∷ []) }
    ensures none { IfNone result (is_one_line bytes.now ≡ true) }
{
    find_end(bytes)
}

fn expected(last: Option<u64>) -> u64
    requires { IfSome last (λ n. n ≤ 2 ^ 63) }
    ensures { result ≡ spec.expected last }
{
    match last {
        Some(n) => n + 1,
        None => 1,
    }
}

fn is_next(last: Option<u64>, line: &Line) -> bool
    requires { IfSome last (λ n. n ≤ 2 ^ 63) }
    ensures { result ≡ spec.is_next last line.now }
{
    match last {
        Some(n) => line.seq() == n + 1,
        None => line.snapshot() || line.seq() == 1,
    }
}

// How many lines ended.
fn ended<N: Notes>(note: &Option<N>) -> u64
    ensures { result ≡ lines_of note.now }
{
    match note {
        Some(_) => 1,
        None => 0,
    }
}

// Applies a line's text, or leaves the tables as they are. It answers the line's number, and what is noted of the line.
#[tactic(auto, unfolding(crate::specs::Meaning::line_taken))]
fn take_line<N: Notes>(
    alloc: Global,
    shown: &mut Shown,
    times: &mut Times,
    last: Option<u64>,
    text: &[u8],
) -> Result<(u64, N), Fault>
    requires { IfSome last (λ n. n ≤ 2 ^ 63) }
    ensures taken { Answers (λ t. record { tables = shown.new; last = Some t.0; part = []; times = times.new }) result (spec.line_taken shown.old times.old last text.now) }
    ensures noted { IfOk result (λ t. Noted N.says (shown.old, times.old) (shown.new, times.new) t.1) }
    ensures kept { OnErr result (shown.new ≡ shown.old) }
    ensures kept_times { OnErr result (times.new ≡ times.old) }
    ensures number { IfOk result (λ t. t.0 ≤ 2 ^ 63) }
{
    let mut line = Line::read(alloc, text)?;
    let found = line.seq();
    if !is_next(last, &line) {
        return Err(Fault::Gap {
            expected: expected(last),
            found,
        });
    }
    let note = N::of(alloc, shown.tables(), times, &line)?;
    match apply(alloc, shown, times, &mut line) {
        Ok(()) => Ok((found, note)),
        Err(fault) => Err(fault),
    }
}

impl Client {
    ghost use Rattle.tk_client.specs.Meaning.{empty_start};
    ghost use Rattle.tk_client.specs.Feeding.{Fed, FedOne};
    ghost use Rattle.tk_client.specs.Warnings.{warnings_in};

    /// A client with empty tables, whose next line is a first one. It takes lines of at most `max_line` bytes, their ends not
    /// counted.
    ///
    /// Its one error is `Memory`: it makes room for 64 bytes of a line.
    pub fn new(alloc: Global, max_line: usize) -> Result<Client, Fault>
        requires { 1 ≤ max_line }
        ensures ok { IfOk result (λ client. client ≡ record { start = empty_start; has_failed = false; max_line = max_line }) }
        ensures memory { IfErr result (λ fault. fault ≡ Fault.Memory) }
    {
        let shown = Shown::new(alloc)?;
        let part = Vec::with_capacity(alloc, 64)?;
        Ok(Client {
            alloc,
            shown,
            times: Table::new(alloc),
            last: None,
            part,
            limit: max_line,
            failed: false,
        })
    }

    /// The tables that the lines lead to that were applied.
    pub fn tables(&self) -> &Tables
        ensures { result.now ≡ self.now.start.tables }
    {
        self.shown.tables()
    }

    /// The histograms of poll times that the lines lead to that were applied, each of a task of the tables. Only lines of version 3 tell some.
    pub fn times(&self) -> &Table<(TaskId, PollTimes)>
        ensures { result.now ≡ self.now.start.times }
    {
        &self.times
    }

    /// Forgets tables, histograms, numbers, part lines and faults: the next line is a first one. It takes no memory.
    pub fn restart(&mut self)
        ensures { self.new ≡ record { start = empty_start; has_failed = false; max_line = self.old.max_line } }
    {
        self.shown.clear();
        self.times.cut(0);
        self.last = None;
        self.part.clear();
        self.failed = false;
    }

    // Takes bytes without a line end.
    fn hold(&mut self, bytes: &[u8]) -> Result<(), FeedError>
        requires whole { is_one_line bytes.now ≡ true }
        requires sound { self.old.has_failed ≡ false }
        ensures held { IfOk result (λ _. Took self.old bytes.now 0 self.new) }
        ensures stopped { IfErr result (λ e. Stopped self.old bytes.now e self.new) }
        ensures kept { timed_in self.new.start ≡ timed_in self.old.start }
        ensures none { IfErr result (λ e. e.lines ≡ 0) }
        ensures limit { self.new.max_line ≡ self.old.max_line }
    {
        let room = self.limit - self.part.len();
        if bytes.len() > room {
            self.failed = true;
            return Err(FeedError {
                lines: 0,
                used: room + 1,
                fault: Fault::TooLong,
            });
        }
        if let Err(_) = self.part.extend_from_slice(bytes) {
            return Err(FeedError {
                lines: 0,
                used: 0,
                fault: Fault::Memory,
            });
        }
        Ok(())
    }

    // Takes a line end after the part line.
    fn end_line<N: Notes>(&mut self) -> Result<N, Fault>
        requires { self.old.has_failed ≡ false }
        ensures ended { Ended self.old result self.new }
        ensures noted { IfOk result (Noted N.says (timed_in self.old.start) (timed_in self.new.start)) }
        ensures limit { self.new.max_line ≡ self.old.max_line }
    {
        match take_line::<N>(
            self.alloc,
            &mut self.shown,
            &mut self.times,
            self.last,
            self.part.as_slice(),
        ) {
            Ok((number, note)) => {
                self.last = Some(number);
                self.part.clear();
                Ok(note)
            }
            Err(Fault::Memory) => Err(Fault::Memory),
            Err(fault) => {
                self.failed = true;
                Err(fault)
            }
        }
    }

    // Takes a whole line and its end, where no part line stands before it. It is read where it lies.
    fn take_whole<N: Notes>(&mut self, line: &[u8]) -> Result<N, Fault>
        requires sound { self.old.has_failed ≡ false }
        requires empty { self.old.start.part ≡ [] }
        requires whole { is_one_line line.now ≡ true }
        requires short { length line.now ≤ self.old.max_line }
        ensures ended { EndedWhole self.old line.now result self.new }
        ensures noted { IfOk result (Noted N.says (timed_in self.old.start) (timed_in self.new.start)) }
        ensures limit { self.new.max_line ≡ self.old.max_line }
    {
        match take_line::<N>(
            self.alloc,
            &mut self.shown,
            &mut self.times,
            self.last,
            line,
        ) {
            Ok((number, note)) => {
                self.last = Some(number);
                Ok(note)
            }
            Err(fault) => match fault {
                Fault::Memory => Err(fault),
                _ => {
                    self.failed = true;
                    Err(fault)
                }
            },
        }
    }

    // Takes a whole line in place: its bytes and its end, or none of them where there is no memory.
    fn step_whole<N: Notes>(
        &mut self,
        bytes: &[u8],
        end: usize,
    ) -> Result<(Option<N>, usize), FeedError>
        requires sound { self.old.has_failed ≡ false }
        requires empty { self.old.start.part ≡ [] }
        requires inside { end < length bytes.now }
        requires short { end ≤ self.old.max_line }
        requires before { is_one_line (take end bytes.now) ≡ true }
        requires through { take (end + 1) bytes.now ≡ take end bytes.now ++ line_end ∷ [] }
        ensures step { Steps N.says self.old bytes.now result self.new }
        ensures limit { self.new.max_line ≡ self.old.max_line }
    {
        match self.take_whole::<N>(&bytes[..end]) {
            Ok(note) => Ok((Some(note), end + 1)),
            Err(fault) => {
                let used = match fault {
                    Fault::Memory => 0,
                    _ => end + 1,
                };
                Err(FeedError {
                    lines: 0,
                    used,
                    fault,
                })
            }
        }
    }

    // Takes the rest of a line after its part, and its end.
    fn step_rest<N: Notes>(
        &mut self,
        bytes: &[u8],
        end: usize,
    ) -> Result<(Option<N>, usize), FeedError>
        requires sound { self.old.has_failed ≡ false }
        requires inside { end < length bytes.now }
        requires before { is_one_line (take end bytes.now) ≡ true }
        requires through { take (end + 1) bytes.now ≡ take end bytes.now ++ line_end ∷ [] }
        ensures step { Steps N.says self.old bytes.now result self.new }
        ensures limit { self.new.max_line ≡ self.old.max_line }
    {
        self.hold(&bytes[..end])?;
        match self.end_line::<N>() {
            Ok(note) => Ok((Some(note), end + 1)),
            Err(fault) => match fault {
                Fault::Memory => Err(FeedError {
                    lines: 0,
                    used: end,
                    fault,
                }),
                _ => Err(FeedError {
                    lines: 0,
                    used: end + 1,
                    fault,
                }),
            },
        }
    }

    // Takes the bytes through the first line end, or all of them. It answers what is noted of the line, if one ended, and the bytes taken.
    fn step<N: Notes>(&mut self, bytes: &[u8]) -> Result<(Option<N>, usize), FeedError>
        requires sound { self.old.has_failed ≡ false }
        ensures step { Steps N.says self.old bytes.now result self.new }
        ensures limit { self.new.max_line ≡ self.old.max_line }
    {
        let Some(end) = first_end(bytes) else {
            self.hold(bytes)?;
            return Ok((None, bytes.len()));
        };
        if self.part.is_empty() && end <= self.limit {
            self.step_whole::<N>(bytes, end)
        } else {
            self.step_rest::<N>(bytes, end)
        }
    }

    /// Takes a piece of the stream: any bytes, wherever they are cut. A line ends at a line feed, byte 0x0A.
    ///
    /// Lines of versions 1, 2 and 3 are taken, also one after the other. What a line says is gone leaves the tables, where the other
    /// items keep their order; a later line may show it as new again. The histogram of a task leaves with it.
    ///
    /// It answers how many lines were applied, which is how many ended. Each is checked in this order, and a line with a
    /// fault is applied in no part: `TooLong` at the first byte too many; `BadJson`, `BadShape`; `Gap`; `Repeated`
    /// and `UnknownId` of histograms; `Repeated`; `UnknownId`; `Misfit`. `used` counts the bytes through the fault.
    ///
    /// - `Memory`: the first `used` bytes were taken, and those after them may be fed again. A whole line that found no
    ///   memory is applied in no part: where all of it lies in the piece, `used` ends before the line, and where its front
    ///   came with an earlier piece, before its line end.
    /// - `Failed`: the client has failed before, by any fault but `Memory`. Nothing changes, with `lines` 0 and `used` 0,
    ///   until [`Client::restart`].
    pub fn feed(&mut self, piece: &[u8]) -> Result<u64, FeedError>
        ensures fed { self.old.has_failed ≡ false → Fed self.old piece.now result self.new }
        ensures few { IfOk result (λ lines. lines ≤ length piece.now) }
        ensures failed { self.old.has_failed ≡ true → result ≡ Err (record { lines = 0; used = 0; fault = Fault.Failed }) }
        ensures unchanged { self.old.has_failed ≡ true → self.new ≡ self.old }
        ensures limit { self.new.max_line ≡ self.old.max_line }
    {
        if self.failed {
            return Err(FeedError {
                lines: 0,
                used: 0,
                fault: Fault::Failed,
            });
        }
        let mut lines = 0;
        let mut at = 0;
        while at < piece.len() {
            match self.step::<Unnoted>(&piece[at..]) {
                Ok((note, used)) => {
                    lines += ended(&note);
                    at += used;
                }
                Err(e) => {
                    return Err(FeedError {
                        lines: lines + e.lines,
                        used: at + e.used,
                        fault: e.fault,
                    });
                }
            }
        }
        Ok(lines)
    }

    /// Takes the first line of a piece: its bytes through the first line end, or all of them where none ends. It answers how many bytes it took,
    /// which are some where the piece has any, and what the line changed, if one ended. That costs no more than what the line tells.
    ///
    /// What comes of the bytes that were taken is what [`Client::feed`] makes of them, with its errors, and `lines` is 0 in them. What a line changed
    /// is found before it is applied, so that where there is no memory for that, it is applied in no part, too.
    pub fn feed_line(&mut self, piece: &[u8]) -> Result<FedLine, FeedError>
        ensures fed { self.old.has_failed ≡ false → FedOne self.old piece.now result self.new }
        ensures some { IfOk result (λ fed. 0 < length piece.now → 0 < fed.used) }
        ensures within { IfOk result (λ fed. fed.used ≤ length piece.now) }
        ensures none { IfErr result (λ e. e.lines ≡ 0) }
        ensures failed { self.old.has_failed ≡ true → result ≡ Err (record { lines = 0; used = 0; fault = Fault.Failed }) }
        ensures unchanged { self.old.has_failed ≡ true → self.new ≡ self.old }
        ensures limit { self.new.max_line ≡ self.old.max_line }
    {
        if !self.failed {
            return match self.step::<Change>(piece) {
                Ok((change, used)) => Ok(FedLine { used, change }),
                Err(error) => Err(error),
            };
        }
        Err(FeedError {
            lines: 0,
            used: 0,
            fault: Fault::Failed,
        })
    }

    /// The warnings of the tables: for each task in table order those that hold, `SelfWakes` before `LostWaker` before
    /// `NeverYielded`. Only tasks of kind spawn are warned of.
    ///
    /// Its one error is `Memory`.
    pub fn warnings(&self, lints: &Lints) -> Result<Vec<Warning>, Fault>
        ensures ok { IfOk result (λ list. list.items ≡ warnings_in lints.now self.now.start.tables) }
        ensures memory { IfErr result (λ fault. fault ≡ Fault.Memory) }
    {
        let list = self.shown.warnings(self.alloc, lints)?;
        Ok(list)
    }
}
