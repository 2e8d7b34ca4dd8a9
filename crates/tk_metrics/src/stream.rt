//! The numbers of a stream, once it was read to its end.
ghost use Rattle.std.specs.Prelude.{◌≡◌, [], IfErr};
ghost use Rattle.tk_reading.specs.Taken.{first};
ghost use Rattle.tk_report.specs.Views.{IsOfWriter};
ghost use Rattle.tk_metrics.specs.Following.{Sees};
ghost use Rattle.tk_metrics.specs.Streams.{Measures, usual};

use crate::apart::Apart;
use crate::follower::Follower;
use crate::following::{before_all, numbers_now};
use crate::reading::follow_stream;
use std::alloc::Global;
use std::io::{Read, Write};
use tk_client::{Client, Lints};
use tk_fault::AppFault;
use tk_reading::MAX_LINE;
use tk_stream::send;

// What `metrics_stream` does by a new client and what follows its lines.
fn write_seen<R: Read, W: Write>(
    client: &mut Client,
    seen: &mut Follower,
    alloc: Global,
    reader: &mut R,
    writer: &mut W,
    lints: &Lints,
) -> Result<(), AppFault>
    requires client { client.old ≡ first }
    requires seen { Sees seen.old.leavers.by (usual lints.now) [] [] seen.old }
    ensures measures { Measures seen.old.leavers.by lints.now (R.remaining reader.old) (R.remaining reader.new) result
        (W.contents writer.old) (W.contents writer.new) }
    ensures unwritten { IfErr result (λ fault. (IsOfWriter fault → ⊥) → writer.new ≡ writer.old) }
{
    follow_stream(client, seen, reader)?;
    let Ok(text) = numbers_now(alloc, client, seen, lints) else {
        return Err(AppFault::Memory);
    };
    match send(writer, text.as_slice()) {
        Ok(()) => Ok(()),
        Err(_) => Err(AppFault::Write),
    }
}

// What `metrics_stream` does by a new client.
fn write_by<R: Read, W: Write>(
    client: &mut Client,
    alloc: Global,
    reader: &mut R,
    writer: &mut W,
    by: Apart,
    lints: &Lints,
) -> Result<(), AppFault>
    requires { client.old ≡ first }
    ensures measures { Measures by lints.now (R.remaining reader.old) (R.remaining reader.new) result
        (W.contents writer.old) (W.contents writer.new) }
    ensures unwritten { IfErr result (λ fault. (IsOfWriter fault → ⊥) → writer.new ≡ writer.old) }
{
    match before_all(alloc, by, lints) {
        Ok(mut seen) => write_seen(client, &mut seen, alloc, reader, writer, lints),
        Err(_) => Err(AppFault::Memory),
    }
}

/// Reads a stream to its end, and writes its numbers as the text that Prometheus reads: of the tables that they lead to, of what
/// has left those, of what is odd, and of how many lines there were.
///
/// A last line without its line end is ignored. The text is made whole before its first byte is written. The faults are those of
/// `view_stream`.
pub fn metrics_stream<R: Read, W: Write>(
    alloc: Global,
    reader: &mut R,
    writer: &mut W,
    by: Apart,
    lints: &Lints,
) -> Result<(), AppFault>
    ensures measures { Measures by lints.now (R.remaining reader.old) (R.remaining reader.new) result
        (W.contents writer.old) (W.contents writer.new) }
    // Only a writer's fault comes once something was written.
    ensures unwritten { IfErr result (λ fault. (IsOfWriter fault → ⊥) → writer.new ≡ writer.old) }
{
    match Client::new(alloc, MAX_LINE) {
        Ok(mut client) => write_by(&mut client, alloc, reader, writer, by, lints),
        Err(_) => Err(AppFault::Memory),
    }
}
