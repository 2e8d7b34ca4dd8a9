//! The view by place of a span of a stream, once the stream was read to its end.
ghost use Rattle.std.specs.Prelude.{◌≡◌, [], Bool, List, is_some, IfOk, IfErr};
ghost use Rattle.tk_client.specs.Changes.{Timed};
ghost use Rattle.tk_reading.specs.Shown.{tables_of};
ghost use Rattle.tk_reading.specs.Taken.{first};
ghost use Rattle.tk_report.specs.Views.{IsOfWriter};
ghost use Rattle.tk_sites.specs.Inner.{Follows, FollowsTimes};
ghost use Rattle.tk_sites.specs.Sites.{sites_of};
ghost use Rattle.tk_sites.specs.SpanLines.{span_text};
ghost use Rattle.tk_sites.specs.SpanViews as spec;
ghost use Rattle.tk_sites.specs.TimedSites.{shown_times};

use crate::places_then::PlacesThen;
use crate::sites::Sites;
use crate::span_lines::span_text;
use crate::timed_sites::TimedSites;
use crate::view::warned_in;
use std::alloc::{AllocError, Global};
use std::io::{Read, Write};
use tk_client::{AnyWarning, Client, Lints};
use tk_fault::AppFault;
use tk_reading::{Both, MAX_LINE, read_stream};
use tk_stream::send;

// What is written of a client's tables, whose lines were watched, and which have these warnings.
fn text_now(
    alloc: Global,
    old: &PlacesThen,
    client: &Client,
    seen: &Both<Sites, TimedSites>,
    warnings: &[AnyWarning],
) -> Result<Vec<u8>, AllocError>
    ensures { (times : Bool) (lines : List Timed) → Follows (tables_of lines) seen.now.first → FollowsTimes times lines seen.now.second
        → IfOk result (λ text. text.items ≡ span_text old.now client.now.start.tables
        (sites_of (tables_of lines) client.now.start.tables warnings.now) (shown_times times lines client.now.start.tables client.now.start.times)) }
{
    let tables = client.tables();
    let sites = seen.first.sums(tables, warnings)?;
    let times = seen.second.times(tables, client.times())?;
    span_text(alloc, old, tables, &sites, &times)
}

// What `view_span` does by a new client and what watches its lines.
fn view_by<R: Read, W: Write>(
    client: &mut Client,
    seen: &mut Both<Sites, TimedSites>,
    alloc: Global,
    old: &PlacesThen,
    reader: &mut R,
    writer: &mut W,
    lints: &Lints,
    wait_ms: Option<u64>,
) -> Result<u64, AppFault>
    requires client { client.old ≡ first }
    requires sites { Follows [] seen.old.first }
    requires times { FollowsTimes (is_some old.now.times) [] seen.old.second }
    ensures views { spec.ViewsSpan old.now lints.now wait_ms (R.remaining reader.old) (R.remaining reader.new) result
        (W.contents writer.old) (W.contents writer.new) }
    ensures unwritten { IfErr result (λ fault. (IsOfWriter fault → ⊥) → writer.new ≡ writer.old) }
{
    read_stream(client, seen, reader)?;
    let Ok(list) = warned_in(alloc, client, lints, wait_ms) else {
        return Err(AppFault::Memory);
    };
    let Ok(text) = text_now(alloc, old, client, seen, &list) else {
        return Err(AppFault::Memory);
    };
    match send(writer, text.as_slice()) {
        Ok(()) => Ok(list.len() as u64),
        Err(_) => Err(AppFault::Write),
    }
}

/// Reads a stream to its end, writes what the tasks of each place came to since a moment, and answers how many warnings there are at the end.
/// `docs/FORMATS.md` has the words.
///
/// [`read_places`](crate::read_places) gives what places had come to at the moment, of a front of the same stream. Places are found by their numbers:
/// they have the same ones in a front and in the whole.
///
/// It writes the first line of the view by place, and then the moment and how much later the last line is. A line for each place follows, with what its
/// sums grew by. How many tasks came, left and are in each state stands as it is at the end. The warnings by place stand last, as they are at the end.
///
/// The warnings are those that `view_sites` counts. With `wait_ms` tasks are also warned of that waited for so many milliseconds. If the histograms of
/// places were kept at the moment, those of the span stand below each place.
///
/// A last line without its line end is ignored. The text is made whole before its first byte is written.
///
/// - `Memory`: there was no memory for the tables, the places or the text. Nothing was written.
/// - `Read`: the reader failed, or gave no end within 2^32 reads. Nothing was written.
/// - `Stream`: a line has a fault, or more than 268,435,456 bytes. Nothing was written.
/// - `Write`: the writer failed. A proper front of the text went out.
pub fn view_span<R: Read, W: Write>(
    alloc: Global,
    old: &PlacesThen,
    reader: &mut R,
    writer: &mut W,
    lints: &Lints,
    wait_ms: Option<u64>,
) -> Result<u64, AppFault>
    ensures views { spec.ViewsSpan old.now lints.now wait_ms (R.remaining reader.old) (R.remaining reader.new) result
        (W.contents writer.old) (W.contents writer.new) }
    // Only a writer's fault comes once something was written.
    ensures unwritten { IfErr result (λ fault. (IsOfWriter fault → ⊥) → writer.new ≡ writer.old) }
{
    let mut seen = Both {
        first: Sites::new(alloc),
        second: TimedSites::new(alloc, old.times.is_some()),
    };
    match Client::new(alloc, MAX_LINE) {
        Ok(mut client) => view_by(
            &mut client,
            &mut seen,
            alloc,
            old,
            reader,
            writer,
            lints,
            wait_ms,
        ),
        Err(_) => Err(AppFault::Memory),
    }
}
