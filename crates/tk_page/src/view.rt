//! The page of a stream, once it was read to its end.
ghost use Rattle.std.specs.Prelude.{◌≡◌, ◌++◌, [], List, map, IfOk, IfErr, IfSome, true};
ghost use Rattle.tk_odd.specs.Findings.{told};
ghost use Rattle.tk_client.specs.Changes.{Timed};
ghost use Rattle.tk_reading.specs.Shown.{tables_of};
ghost use Rattle.tk_reading.specs.Taken.{first};
ghost use Rattle.tk_report.specs.Views.{IsOfWriter};
ghost use Rattle.tk_page.specs.Courses.{courses_of};
ghost use Rattle.tk_page.specs.Kept.{Tells};
ghost use Rattle.tk_page.specs.Charges.{Blames};
ghost use Rattle.tk_page.specs.Pages.{IsDrawn, IsDrawnAfter, Pages, PagesWith};
ghost use Rattle.tk_sites.specs.Inner.{Follows as AddsUp, FollowsTimes};

use crate::blame::Blame;
use crate::blamed::{Blamed, blamed_of};
use crate::drawing::{put_page, scale_of};
use crate::frame::{HEAD, TAIL};
use crate::history::History;
use crate::oddities::Signs;
use std::alloc::{AllocError, Global};
use std::io::{Read, Write};
use tk_client::{Client, Lints};
use tk_fault::AppFault;
use tk_odd::{Found, Held, Limits};
use tk_paper::Paper;
use tk_reading::{Both, MAX_LINE, read_stream};
use tk_series::{Limited, Series};
use tk_sites::{SiteTimes, Sites, Sums, TimedSites};
use tk_stream::{Tables, send};

// What watches lines: the courses of tasks, places with their histograms, and who holds up whom.
type Watched = Both<Both<History, Both<Sites, TimedSites>>, Blame>;

// How long a poll is that is a long one, where nothing is said: 100 ms.
const LONG_POLL: u64 = 100_000_000;

/// Three texts, one after the other.
pub(crate) fn joined(
    alloc: Global,
    front: &str,
    inner: &[u8],
    end: &str,
) -> Result<Vec<u8>, AllocError>
    ensures { IfOk result (λ text. text.items ≡ (front.now ++ inner.now) ++ end.now) }
{
    let mut text = Vec::from_slice(alloc, front.as_bytes())?;
    text.extend_from_slice(inner)?;
    text.extend_from_slice(end.as_bytes())?;
    Ok(text)
}

// The page of tables, their history, who waited for whom, their places and what is odd.
fn page_of(
    alloc: Global,
    title: &str,
    history: &History,
    blamed: &[Blamed],
    times: &Option<Limited<SiteTimes>>,
    held: &Series<Held>,
    sites: &Limited<Sums>,
    tables: &Tables,
    limits: Limits,
    findings: Vec<Found>,
) -> Result<Vec<u8>, AllocError>
    ensures { IfOk result (λ text. IsDrawn title.now limits (map told findings.items) (courses_of history.now) blamed.now times.now held.now sites.now tables.now text.items) }
{
    let signs = Signs::of(tables, limits, findings);
    let scale = scale_of(history, tables);
    let mut paper = Paper::new(alloc);
    put_page(
        &mut paper, alloc, title, scale, &signs, history, blamed, times, held, sites, tables,
    )?;
    let inner = paper.into_bytes();
    let text = joined(alloc, HEAD, inner.as_slice(), TAIL)?;
    Ok(text)
}

// The page of a client's tables, after lines that their history, their places and their diagnosis have seen.
fn page_after(
    alloc: Global,
    title: &str,
    seen: &Watched,
    client: &Client,
    limits: Limits,
) -> Result<Vec<u8>, AllocError>
    ensures { (lines : List Timed) → Blames (tables_of lines) seen.now.second → seen.now.second.diagnosis.limits ≡ limits
        → AddsUp (tables_of lines) seen.now.first.second.first → FollowsTimes true lines seen.now.first.second.second
        → IfOk result (λ text. IsDrawnAfter title.now limits lines (courses_of seen.now.first.first) client.now.start text.items) }
{
    let tables = client.tables();
    let diagnosis = &seen.second.diagnosis;
    let findings = diagnosis.findings_with_victims(alloc, tables)?;
    let held = diagnosis.held();
    let blamed = blamed_of(alloc, &seen.second, held, tables.now())?;
    let sites = seen.first.second.first.sums(tables, &[])?;
    let times = seen.first.second.second.times(tables, client.times())?;
    page_of(
        alloc,
        title,
        &seen.first.first,
        blamed.as_slice(),
        &times,
        held,
        &sites,
        tables,
        limits,
        findings,
    )
}

// What watches lines, before the first. A box, as it is dropped wherever the reading ends.
fn nothing_seen(alloc: Global, limits: Limits) -> Option<Box<Watched>>
    ensures { IfSome result (λ seen. ((Tells [] seen.value.first.first × (AddsUp [] seen.value.first.second.first × FollowsTimes true [] seen.value.first.second.second))
        × Blames [] seen.value.second) × (seen.value.second.diagnosis.limits ≡ limits)) }
{
    let Ok(blame) = Blame::new(alloc, limits) else {
        return None;
    };
    let seen = Both {
        first: Both {
            first: History::new(alloc),
            second: Both {
                first: Sites::new(alloc),
                second: TimedSites::new(alloc, true),
            },
        },
        second: blame,
    };
    match Box::new(alloc, seen) {
        Ok(seen) => Some(seen),
        Err(_) => None,
    }
}

// What `view_page_with` does by a new client.
fn view_by<R: Read, W: Write>(
    client: &mut Client,
    alloc: Global,
    reader: &mut R,
    writer: &mut W,
    limits: Limits,
    title: &str,
) -> Result<u64, AppFault>
    requires { client.old ≡ first }
    ensures pages { PagesWith title.now limits (R.remaining reader.old) (R.remaining reader.new) result
        (W.contents writer.old) (W.contents writer.new) }
    ensures unwritten { IfErr result (λ fault. (IsOfWriter fault → ⊥) → writer.new ≡ writer.old) }
{
    let Some(mut seen) = nothing_seen(alloc, limits) else {
        return Err(AppFault::Memory);
    };
    read_stream(client, &mut *seen, reader)?;
    let Ok(list) = client.warnings(&limits.lints) else {
        return Err(AppFault::Memory);
    };
    let warnings = list.as_slice();
    let Ok(text) = page_after(alloc, title, &seen, client, limits) else {
        return Err(AppFault::Memory);
    };
    match send(writer, text.as_slice()) {
        Ok(()) => Ok(warnings.len() as u64),
        Err(_) => Err(AppFault::Write),
    }
}

/// Reads a stream to its end, writes a page of HTML of what its tables then show, of their course of time, of their places and of what is odd by
/// these limits, and answers how many warnings the tables have. The title stands at the top of the page, and names it in the browser.
///
/// A last line without its line end is ignored. The page is made whole before its first byte is written. The faults are those of
/// `view_stream`.
pub fn view_page_with<R: Read, W: Write>(
    alloc: Global,
    reader: &mut R,
    writer: &mut W,
    limits: Limits,
    title: &str,
) -> Result<u64, AppFault>
    ensures pages { PagesWith title.now limits (R.remaining reader.old) (R.remaining reader.new) result
        (W.contents writer.old) (W.contents writer.new) }
    // Only a writer's fault comes once something was written.
    ensures unwritten { IfErr result (λ fault. (IsOfWriter fault → ⊥) → writer.new ≡ writer.old) }
{
    match Client::new(alloc, MAX_LINE) {
        Ok(mut client) => view_by(&mut client, alloc, reader, writer, limits, title),
        Err(_) => Err(AppFault::Memory),
    }
}

/// What [`view_page_with`] does, with a long poll as one of 100 ms or longer, and the program's name as the title.
pub fn view_page<R: Read, W: Write>(
    alloc: Global,
    reader: &mut R,
    writer: &mut W,
    lints: &Lints,
) -> Result<u64, AppFault>
    ensures pages { Pages lints.now (R.remaining reader.old) (R.remaining reader.new) result
        (W.contents writer.old) (W.contents writer.new) }
    ensures unwritten { IfErr result (λ fault. (IsOfWriter fault → ⊥) → writer.new ≡ writer.old) }
{
    let limits = Limits {
        long: LONG_POLL,
        lints: *lints,
    };
    view_page_with(alloc, reader, writer, limits, "taskscope")
}
