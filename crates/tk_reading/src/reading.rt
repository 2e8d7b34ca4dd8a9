//! A stream, read to its end or piece by piece.
ghost use Rattle.std.specs.Prelude.{◌≡◌, ◌≤◌, ◌<◌, ◌+◌, ◌^◌, [], ℕ, List, length, IfOk};
ghost use Rattle.tk_reading.specs.Reads.{Reads, TakesLine, TakesMore};
ghost use Rattle.tk_reading.specs.Shown.{timed_of};
ghost use Rattle.tk_reading.specs.Taken.{HasTaken, first, stop_of};

use crate::observes::Observes;
use std::io::Read;
use tk_client::{Client, Fault};
use tk_fault::AppFault;

/// How many bytes a line of a stream has at most. No script gives a longer one.
pub const MAX_LINE: usize = 268_435_456;

/// How many bytes are read at a time.
pub const PIECE: usize = 65_536;

// Why a stream isn't taken after so many lines.
fn stopped(lines: u64, fault: Fault) -> AppFault
    ensures { result ≡ stop_of lines fault }
{
    match fault {
        Fault::Memory => AppFault::Memory,
        fault => AppFault::Stream { lines, fault },
    }
}

// Feeds a client that has applied so many lines the first line of a piece, which is counted and watched where it ended. It answers how many bytes
// the client took.
fn feed_one<O: Observes>(
    client: &mut Client,
    observer: &mut O,
    lines: &mut u64,
    piece: &[u8],
) -> Result<usize, AppFault>
    requires { lines.old ≤ 2 ^ 62 }
    ensures takes { (from : O) (front : List ℕ) → HasTaken front lines.old client.old → O.saw from (timed_of front) observer.old
        → TakesLine (O.saw from) front piece.now lines.new result client.new observer.new }
    ensures few { IfOk result (λ used. 0 < length piece.now → lines.new ≤ lines.old + used) }
    ensures some { IfOk result (λ used. 0 < length piece.now → 0 < used) }
    ensures within { IfOk result (λ used. used ≤ length piece.now) }
{
    match client.feed_line(piece) {
        Ok(fed) => match &fed.change {
            None => Ok(fed.used),
            Some(change) => match observer.line(client.tables(), client.times(), change) {
                Ok(()) => {
                    *lines += 1;
                    Ok(fed.used)
                }
                Err(_) => Err(AppFault::Memory),
            },
        },
        Err(error) => Err(stopped(*lines, error.fault)),
    }
}

/// Feeds a client that has applied so many lines a piece of at most 65,536 bytes, lets an observer watch each of its lines,
/// and answers how many the client has then applied.
///
/// - `Memory`: there was no memory, for the client or for the observer.
/// - `Stream`: a line has a fault, or more than 268,435,456 bytes. The lines before it are applied and were watched.
pub fn feed_lines<O: Observes>(
    client: &mut Client,
    observer: &mut O,
    lines: u64,
    piece: &[u8],
) -> Result<u64, AppFault>
    requires few { lines + 65536 ≤ 2 ^ 62 }
    requires short { length piece.now ≤ 65536 }
    ensures takes { (from : O) (front : List ℕ) → HasTaken front lines client.old → O.saw from (timed_of front) observer.old
        → TakesMore (O.saw from) front piece.now result client.new observer.new }
    ensures few { IfOk result (λ sum. sum ≤ lines + 65536) }
{
    let mut sum = lines;
    let mut at = 0;
    while at < piece.len() {
        let used = feed_one(client, observer, &mut sum, &piece[at..])?;
        at += used;
    }
    Ok(sum)
}

/// Feeds a new client all bytes of a reader, and lets an observer watch each line. A last line without its line end
/// is ignored.
///
/// - `Memory`: there was no memory, for the client or for the observer.
/// - `Read`: the reader failed, or gave no end within 2^32 reads.
/// - `Stream`: a line has a fault, or more than 268,435,456 bytes.
pub fn read_stream<R: Read, O: Observes>(
    client: &mut Client,
    observer: &mut O,
    reader: &mut R,
) -> Result<(), AppFault>
    requires client { client.old ≡ first }
    requires observer { O.saw observer.old [] observer.old }
    ensures { Reads (O.saw observer.old) (R.remaining reader.old) (R.remaining reader.new) result client.new observer.new }
{
    let mut piece = [0u8; PIECE];
    let mut lines = 0;
    for _ in 0u64..4_294_967_296 {
        match reader.read(&mut piece) {
            Ok(0) => return Ok(()),
            Ok(n) => lines = feed_lines(client, observer, lines, &piece[..n])?,
            Err(_) => return Err(AppFault::Read),
        }
    }
    Err(AppFault::Read)
}
