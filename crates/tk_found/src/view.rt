//! Views of a stream that tell what is odd about it.
ghost use Rattle.std.specs.Prelude.{◌≡◌, [], map, IfOk, IfErr};
ghost use Rattle.tk_odd.specs.Findings.{told};
ghost use Rattle.tk_odd.specs.Inner.{FollowsSpan};
ghost use Rattle.tk_reading.specs.Taken.{first};
ghost use Rattle.tk_report.specs.Views.{IsOfWriter};
ghost use Rattle.tk_found.specs.Views as spec;

use crate::lines::put_findings;
use std::alloc::{AllocError, Global};
use std::io::{Read, Write};
use tk_client::{Client, Lints};
use tk_fault::AppFault;
use tk_odd::{Found, Limits, Span};
use tk_reading::{MAX_LINE, read_stream};
use tk_report::{View, timed_report_with};
use tk_stream::send;

/// Nanoseconds of a millisecond.
const MILLI: u64 = 1_000_000;

/// How much is too much where a poll is long from so many milliseconds on: from 100 where nothing is said. Longer ones than 2^64 nanoseconds there
/// are none.
pub fn limits_by(lints: Lints, long_ms: Option<u64>) -> Limits
    ensures { result ≡ spec.limits_by lints long_ms }
{
    let long = long_ms.unwrap_or(100).saturating_mul(MILLI);
    Limits { long, lints }
}

// What is written of a client's tables and histograms, of which this is odd.
fn text_of(
    alloc: Global,
    view: View,
    times: bool,
    client: &Client,
    list: &[Found],
) -> Result<Vec<u8>, AllocError>
    ensures { IfOk result (λ text. text.items ≡ spec.found_text view times client.now.start (map told list.now)) }
{
    let mut text = match view {
        View::Report => timed_report_with(alloc, client.tables(), client.times(), times, &[])?,
        View::Lint => Vec::new(alloc),
    };
    put_findings(&mut text, alloc, list)?;
    Ok(text)
}

// What `view_findings` does by a new client and a new span.
fn view_by<R: Read, W: Write>(
    client: &mut Client,
    span: &mut Span,
    alloc: Global,
    reader: &mut R,
    writer: &mut W,
    view: View,
    times: bool,
) -> Result<u64, AppFault>
    requires client { client.old ≡ first }
    requires span { FollowsSpan [] span.old }
    ensures views { spec.ViewsFindings view span.old.diagnosis.limits span.old.since times (R.remaining reader.old) (R.remaining reader.new) result
        (W.contents writer.old) (W.contents writer.new) }
    ensures unwritten { IfErr result (λ fault. (IsOfWriter fault → ⊥) → writer.new ≡ writer.old) }
{
    read_stream(client, span, reader)?;
    let found = span
        .diagnosis()
        .findings_with_victims(alloc, client.tables());
    let Ok(list) = found else {
        return Err(AppFault::Memory);
    };
    let Ok(text) = text_of(alloc, view, times, client, &list) else {
        return Err(AppFault::Memory);
    };
    match send(writer, text.as_slice()) {
        Ok(()) => Ok(list.len() as u64),
        Err(_) => Err(AppFault::Write),
    }
}

/// Reads a stream to its end, writes what is odd about it, and answers how many findings there are: the report of its tables with a line for each
/// finding in place of the warnings, or these lines alone. `docs/FORMATS.md` has their words.
///
/// With a moment in nanoseconds the findings are those of the span since then: from the last line at or before it on. A client that attached then
/// finds the same. It sees a poll that is open then from its begin on, and all wakes of a task. If no line is so early, or there is no moment,
/// the span is the whole stream. The report above the findings always shows the tables and histograms at the stream's end.
///
/// A last line without its line end is ignored. The text is made whole before its first byte is written.
///
/// - `Memory`: there was no memory for the tables, the diagnosis or the text. Nothing was written.
/// - `Read`: the reader failed, or gave no end within 2^32 reads. Nothing was written.
/// - `Stream`: a line has a fault, or more than 268,435,456 bytes. Nothing was written.
/// - `Write`: the writer failed. A proper front of the text went out.
pub fn view_findings<R: Read, W: Write>(
    alloc: Global,
    reader: &mut R,
    writer: &mut W,
    view: View,
    limits: Limits,
    since: Option<u64>,
    times: bool,
) -> Result<u64, AppFault>
    ensures views { spec.ViewsFindings view limits since times (R.remaining reader.old) (R.remaining reader.new) result
        (W.contents writer.old) (W.contents writer.new) }
    // Only a writer's fault comes once something was written.
    ensures unwritten { IfErr result (λ fault. (IsOfWriter fault → ⊥) → writer.new ≡ writer.old) }
{
    let Ok(mut span) = Span::new(alloc, limits, since) else {
        return Err(AppFault::Memory);
    };
    match Client::new(alloc, MAX_LINE) {
        Ok(mut client) => view_by(&mut client, &mut span, alloc, reader, writer, view, times),
        Err(_) => Err(AppFault::Memory),
    }
}
