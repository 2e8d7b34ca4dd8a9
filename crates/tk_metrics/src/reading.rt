//! A stream, read line by line: what follows it sees the tables after each line, and the histograms beside them.
ghost use Rattle.std.specs.Prelude.{◌≤◌, ◌+◌, ◌^◌, [], ℕ, List, length, IfOk, ◌≡◌};
ghost use Rattle.tk_odd.specs.declared.limits.Limits.{Limits};
ghost use Rattle.tk_reading.specs.Taken.{HasTaken, first};
ghost use Rattle.tk_metrics.specs.Following.{Reads, TakesMore, Watches};
ghost use Rattle.tk_metrics.specs.declared.apart.Apart.{Apart as Told};

use crate::follower::Follower;
use std::io::Read;
use tk_client::Client;
use tk_fault::AppFault;
use tk_reading::{feed_lines, read_stream};

/// Feeds a client that has applied so many lines a piece of at most 65,536 bytes, lets the tables after each of its lines be followed, with the
/// histograms beside them, and answers how many lines the client has then applied.
///
/// - `Memory`: there was no memory, for the client or for what follows it.
/// - `Stream`: a line has a fault, or more than 268,435,456 bytes. The lines before it are applied and were followed.
pub(crate) fn follow_lines(
    client: &mut Client,
    seen: &mut Follower,
    lines: u64,
    piece: &[u8],
) -> Result<u64, AppFault>
    requires few { lines + 65536 ≤ 2 ^ 62 }
    requires short { length piece.now ≤ 65536 }
    ensures takes { (by : Told) (limits : Limits) (bytes : List ℕ) → HasTaken bytes lines client.old → Watches by limits bytes seen.old
        → TakesMore by limits bytes piece.now result client.new seen.new }
    ensures few { IfOk result (λ sum. sum ≤ lines + 65536) }
{
    feed_lines(client, seen, lines, piece)
}

/// Feeds a new client all bytes of a reader, and lets the tables after each line be followed. A last line without its line end is ignored.
///
/// - `Memory`: there was no memory, for the client or for what follows it.
/// - `Read`: the reader failed, or gave no end within 2^32 reads.
/// - `Stream`: a line has a fault, or more than 268,435,456 bytes.
pub(crate) fn follow_stream<R: Read>(
    client: &mut Client,
    seen: &mut Follower,
    reader: &mut R,
) -> Result<(), AppFault>
    requires client { client.old ≡ first }
    requires seen { Watches seen.old.leavers.by seen.old.diagnosis.limits [] seen.old }
    ensures { (by : Told) (limits : Limits) → Watches by limits [] seen.old
        → Reads by limits (R.remaining reader.old) (R.remaining reader.new) result client.new seen.new }
{
    read_stream(client, seen, reader)
}
