//! The lines of the stream.
ghost use Rattle.std.specs.Prelude.{◌≤◌, ◌^◌};

use crate::gone::Gone;
use crate::run::Plain;
use crate::times;
use std::alloc::{AllocError, Global};
use std::io::Write;
use tk_ids::Dropped;
use tk_script::Stop;
use tk_stream::{Line, LineError, Tables, send};

/// The greatest number of a line.
const LAST_LINE: u64 = 1 << 63;

// What each line begins with that has lost nothing.
const NO_DROPS: &[u8] = b"{\"dropped\":[0,0,0],";

// What a line ends with that has the keys of version 1: its own version.
const VERSION_1: &[u8] = b"\"v\":1}";

const VERSION_4: &[u8] = b"\"v\":4}";

const NONE_DROPPED: Dropped = Dropped {
    tasks: 0,
    resources: 0,
    ops: 0,
};

// The line between tables, or the snapshot of the new ones.
fn line_between(
    alloc: Global,
    told: &Tables,
    next: &Tables,
    seq: u64,
    whole: bool,
) -> Result<Line, LineError>
    requires { (1 ≤ seq) × (seq ≤ 2 ^ 63) }
{
    if whole {
        let empty = Tables::new(alloc)?;
        Line::between(alloc, &empty, next, seq, true)
    } else {
        Line::between(alloc, told, next, seq, false)
    }
}

// The text of a line as a later version has it: what is gone stands between its first two keys, and histograms, if it tells such, before
// its last.
fn later_version(
    alloc: Global,
    text: &[u8],
    gone: &Gone,
    times: &str,
    version: &[u8],
) -> Result<Vec<u8>, AllocError> {
    let lists = gone.lists(alloc)?;
    let mut out = Vec::new(alloc);
    out.extend_from_slice(NO_DROPS)?;
    out.extend_from_slice(lists.as_bytes())?;
    let end = text.len().saturating_sub(VERSION_1.len());
    out.extend_from_slice(text.get(NO_DROPS.len()..end).unwrap_or(&[]))?;
    out.extend_from_slice(times.as_bytes())?;
    out.extend_from_slice(version)?;
    Ok(out)
}

// What a line ends with that has the keys of a later version: that one, or 4 where it tells a row that counts waits.
fn end_of(line: &Line, later: &'static [u8]) -> &'static [u8] {
    if line.version() == 4 {
        VERSION_4
    } else {
        later
    }
}

impl Plain {
    // What leaves with a line of this moment: nothing without a retention, and nothing with a snapshot.
    fn leaving(&self, now: u64, whole: bool) -> Result<Gone, AllocError> {
        match self.retention {
            Some(retention) => {
                if whole {
                    return Ok(Gone::none(self.alloc));
                }
                Gone::due(self.alloc, &self.told, retention, now)
            }
            None => Ok(Gone::none(self.alloc)),
        }
    }

    // The tables as a line of this moment tells of them, without what has left and what leaves.
    fn tables_at(&self, now: u64, leaving: &Gone) -> Result<Tables, AllocError> {
        let mut tables = self.tables.copy()?;
        self.left.leave(&mut tables);
        leaving.leave(&mut tables);
        tables.set_totals(NONE_DROPPED, now);
        Ok(tables)
    }

    // The line of version 1 to these tables. It tells nothing of what leaves.
    fn line_to(
        &self,
        next: &Tables,
        leaving: &Gone,
        seq: u64,
        whole: bool,
    ) -> Result<Line, LineError>
        requires { (1 ≤ seq) × (seq ≤ 2 ^ 63) }
    {
        let mut told = self.told.copy()?;
        leaving.leave(&mut told);
        line_between(self.alloc, &told, next, seq, whole)
    }

    // The text of a line to these tables, with its end.
    fn text_of(
        &self,
        line: &Line,
        next: &Tables,
        leaving: &Gone,
        whole: bool,
    ) -> Result<Vec<u8>, LineError> {
        let text = line.write()?;
        let mut text = self.in_version(line, text, next, leaving, whole)?;
        text.push(b'\n')?;
        Ok(text)
    }

    // The text in the version of this run.
    fn in_version(
        &self,
        line: &Line,
        text: Vec<u8>,
        next: &Tables,
        leaving: &Gone,
        whole: bool,
    ) -> Result<Vec<u8>, AllocError> {
        if self.times_said {
            let times = times::list(self.alloc, self.times.as_slice(), next, whole)?;
            return later_version(
                self.alloc,
                text.as_slice(),
                leaving,
                times.as_str(),
                end_of(line, b"\"v\":3}"),
            );
        }
        if self.retention.is_none() {
            return Ok(text);
        }
        let end = end_of(line, b"\"v\":2}");
        later_version(self.alloc, text.as_slice(), leaving, "", end)
    }

    fn text_to(
        &self,
        next: &Tables,
        leaving: &Gone,
        seq: u64,
        whole: bool,
    ) -> Result<Vec<u8>, LineError>
        requires { (1 ≤ seq) × (seq ≤ 2 ^ 63) }
    {
        let line = self.line_to(next, leaving, seq, whole)?;
        self.text_of(&line, next, leaving, whole)
    }

    // Writes the line to these tables.
    fn write_to<W: Write>(
        &self,
        next: &Tables,
        leaving: &Gone,
        seq: u64,
        whole: bool,
        writer: &mut W,
    ) -> Result<(), Stop>
        requires { (1 ≤ seq) × (seq ≤ 2 ^ 63) }
    {
        let Ok(text) = self.text_to(next, leaving, seq, whole) else {
            return Err(Stop::Memory);
        };
        if send(writer, text.as_slice()).is_err() {
            return Err(Stop::WriteFault);
        }
        Ok(())
    }

    // Writes the line to these tables, and keeps them as those that were told.
    fn tell<W: Write>(
        &mut self,
        next: Tables,
        leaving: &Gone,
        seq: u64,
        whole: bool,
        writer: &mut W,
    ) -> Result<(), Stop>
        requires { (1 ≤ seq) × (seq ≤ 2 ^ 63) }
    {
        self.write_to(&next, leaving, seq, whole, writer)?;
        self.told = next;
        times::tell(self.times.as_mut_slice());
        self.lines = seq;
        match self.left.add(leaving) {
            Ok(()) => Ok(()),
            Err(_) => Err(Stop::Memory),
        }
    }

    // A line without these items.
    fn publish_without<W: Write>(
        &mut self,
        leaving: &Gone,
        now: u64,
        whole: bool,
        writer: &mut W,
    ) -> Result<(), Stop> {
        if self.lines >= LAST_LINE {
            return Err(Stop::NumbersSpent);
        }
        let seq = self.lines + 1;
        match self.tables_at(now, leaving) {
            Ok(next) => self.tell(next, leaving, seq, whole, writer),
            Err(_) => Err(Stop::Memory),
        }
    }

    /// A line of the stream, as a snapshot or not.
    pub(crate) fn publish<W: Write>(
        &mut self,
        now: u64,
        whole: bool,
        writer: &mut W,
    ) -> Result<(), Stop> {
        if now < self.told.now() {
            return Err(Stop::Clock);
        }
        match self.leaving(now, whole) {
            Ok(leaving) => self.publish_without(&leaving, now, whole, writer),
            Err(_) => Err(Stop::Memory),
        }
    }
}
