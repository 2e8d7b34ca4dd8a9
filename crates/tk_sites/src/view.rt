//! The view of a stream by place, once it was read to its end.
ghost use Rattle.std.specs.Prelude.{◌≡◌, [], Bool, List, IfOk, IfErr};
ghost use Rattle.tk_client.specs.Changes.{Timed};
ghost use Rattle.tk_reading.specs.Shown.{tables_of};
ghost use Rattle.tk_reading.specs.Taken.{first};
ghost use Rattle.tk_report.specs.Views.{IsOfWriter};
ghost use Rattle.tk_sites.specs.Inner.{Follows, FollowsTimes};
ghost use Rattle.tk_sites.specs.One.{written};
ghost use Rattle.tk_sites.specs.Sites.{sites_of};
ghost use Rattle.tk_sites.specs.TimedSites.{shown_times};
ghost use Rattle.tk_sites.specs.Views as spec;

use crate::one::written;
use crate::sites::Sites;
use crate::sites_view::SitesView;
use crate::timed_sites::TimedSites;
use std::alloc::{AllocError, Global};
use std::io::{Read, Write};
use tk_client::{AnyWarning, Client, Lints, TimeLimits, all_warnings_in};
use tk_fault::AppFault;
use tk_reading::{Both, MAX_LINE, read_stream};
use tk_stream::send;

/// The warnings of a client's tables.
pub(crate) fn warned_in(
    alloc: Global,
    client: &Client,
    lints: &Lints,
    wait_ms: Option<u64>,
) -> Result<Vec<AnyWarning>, AllocError>
    ensures { IfOk result (λ list. list.items ≡ spec.warned_in lints.now wait_ms client.now.start) }
{
    let limits = TimeLimits {
        poll_ms: None,
        wait_ms,
    };
    all_warnings_in(alloc, client.tables(), client.times(), lints, &limits)
}

// What is written of a client's tables, whose lines were watched, and which have these warnings.
fn text_now(
    alloc: Global,
    view: SitesView,
    client: &Client,
    seen: &Both<Sites, TimedSites>,
    warnings: &[AnyWarning],
) -> Result<Vec<u8>, AllocError>
    ensures { (times : Bool) (lines : List Timed) → Follows (tables_of lines) seen.now.first → FollowsTimes times lines seen.now.second
        → IfOk result (λ text. text.items ≡ written view client.now.start.tables client.now.start.times
        (sites_of (tables_of lines) client.now.start.tables warnings.now) (shown_times times lines client.now.start.tables client.now.start.times)) }
{
    let tables = client.tables();
    let own = client.times();
    let sums = seen.first.sums(tables, warnings)?;
    let times = seen.second.times(tables, own)?;
    written(alloc, view, tables, own, &sums, &times)
}

// What `view_sites` does by a new client and what watches its lines.
fn view_by<R: Read, W: Write>(
    client: &mut Client,
    seen: &mut Both<Sites, TimedSites>,
    alloc: Global,
    reader: &mut R,
    writer: &mut W,
    view: SitesView,
    lints: &Lints,
    wait_ms: Option<u64>,
    times: bool,
) -> Result<u64, AppFault>
    requires client { client.old ≡ first }
    requires sites { Follows [] seen.old.first }
    requires times { FollowsTimes times [] seen.old.second }
    ensures views { spec.ViewsSites view lints.now wait_ms times (R.remaining reader.old) (R.remaining reader.new) result
        (W.contents writer.old) (W.contents writer.new) }
    ensures unwritten { IfErr result (λ fault. (IsOfWriter fault → ⊥) → writer.new ≡ writer.old) }
{
    read_stream(client, seen, reader)?;
    let Ok(list) = warned_in(alloc, client, lints, wait_ms) else {
        return Err(AppFault::Memory);
    };
    let Ok(text) = text_now(alloc, view, client, seen, &list) else {
        return Err(AppFault::Memory);
    };
    match send(writer, text.as_slice()) {
        Ok(()) => Ok(list.len() as u64),
        Err(_) => Err(AppFault::Write),
    }
}

/// Reads a stream to its end, writes what the tasks of each place came to, those that have left among them, and answers how many warnings there
/// are. `docs/FORMATS.md` has the words.
///
/// Of all places it writes the first line of the report, a line for each place, and a line for each place and kind of warning; or these last ones
/// alone. Of one place it writes the first line, and the place with its tasks and warnings. Places stand in the order in which a first task of each
/// came.
///
/// The warnings are those that `view_stream_with` counts if no long polls are asked for. With `wait_ms` tasks are also warned of that waited for so
/// many milliseconds. With `times` the histograms of a place stand below it: how long its tasks' polls ran and how long they waited, those that have
/// left among them. Those of the tasks of one place stand below them, too.
///
/// A last line without its line end is ignored. The text is made whole before its first byte is written.
///
/// - `Memory`: there was no memory for the tables, the places or the text. Nothing was written.
/// - `Read`: the reader failed, or gave no end within 2^32 reads. Nothing was written.
/// - `Stream`: a line has a fault, or more than 268,435,456 bytes. Nothing was written.
/// - `Write`: the writer failed. A proper front of the text went out.
pub fn view_sites<R: Read, W: Write>(
    alloc: Global,
    reader: &mut R,
    writer: &mut W,
    view: SitesView,
    lints: &Lints,
    wait_ms: Option<u64>,
    times: bool,
) -> Result<u64, AppFault>
    ensures views { spec.ViewsSites view lints.now wait_ms times (R.remaining reader.old) (R.remaining reader.new) result
        (W.contents writer.old) (W.contents writer.new) }
    // Only a writer's fault comes once something was written.
    ensures unwritten { IfErr result (λ fault. (IsOfWriter fault → ⊥) → writer.new ≡ writer.old) }
{
    let mut seen = Both {
        first: Sites::new(alloc),
        second: TimedSites::new(alloc, times),
    };
    match Client::new(alloc, MAX_LINE) {
        Ok(mut client) => view_by(
            &mut client,
            &mut seen,
            alloc,
            reader,
            writer,
            view,
            lints,
            wait_ms,
            times,
        ),
        Err(_) => Err(AppFault::Memory),
    }
}
