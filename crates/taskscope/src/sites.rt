//! A stream whose tasks are added up by place.
ghost use Rattle.std.specs.Prelude.{◌≡◌, ◌≤◌, ◌⊎◌, IfErr, IfOk, Ok};
ghost use Rattle.taskscope.specs.Program.{AddsUpSince, AddsUpSpan, AddsUpStream, HadCome, view_in};

use crate::sources::Sources;
use crate::statuses::{FAULT, WARNED, tell_fault, tell_found, tell_unopened};
use std::alloc::Global;
use std::io::{Read, Write};
use tk_app::{AppFault, View};
use tk_client::Lints;
use tk_explain::{Kept, explain_stream};
use tk_sites::{PlacesThen, SitesView, read_places, view_sites, view_span};
use tk_until::Until;

// A view of one place tells by its status as a report does.
fn view_in(view: SitesView) -> View
    ensures { result ≡ view_in view }
{
    match view {
        SitesView::All(view) => view,
        SitesView::One(_) => View::Report,
    }
}

// Adds the tasks of a stream up by place, and answers how many warnings there are, or the fault, and the status.
fn add_up<I: Read, O: Write, E: Write>(
    alloc: Global,
    view: SitesView,
    lints: &Lints,
    wait_ms: Option<u64>,
    times: bool,
    input: &mut I,
    output: &mut O,
    faults: &mut E,
) -> (Result<u64, AppFault>, u8)
    ensures does { AddsUpStream view lints.now wait_ms times (I.remaining input.old) (I.remaining input.new) (O.contents output.old)
        (O.contents output.new) result.1 }
    ensures status { (result.1 ≤ FAULT) ⊎ (result.1 ≡ WARNED) }
{
    let warned = view_sites(alloc, input, output, view, lints, wait_ms, times);
    (warned, tell_found(view_in(view), warned, faults))
}

/// Adds the tasks of an input's stream up by place, and answers that input, as its reads left it, and the status. What is explained of a
/// fault stands below it.
pub(crate) fn add_up_explained<I: Read, O: Write, E: Write>(
    alloc: Global,
    view: SitesView,
    lints: &Lints,
    wait_ms: Option<u64>,
    times: bool,
    input: I,
    output: &mut O,
    faults: &mut E,
) -> (I, u8)
    ensures does { AddsUpStream view lints.now wait_ms times (I.remaining input) (I.remaining result.0) (O.contents output.old)
        (O.contents output.new) result.1 }
    ensures status { (result.1 ≤ FAULT) ⊎ (result.1 ≡ WARNED) }
{
    let mut stream = Kept::last_lines(alloc, input);
    let (outcome, status) = add_up(
        alloc,
        view,
        lints,
        wait_ms,
        times,
        &mut stream,
        output,
        faults,
    );
    let _ = explain_stream(&stream, outcome, faults);
    (stream.into_reader(), status)
}

// What places had come to at a moment, by the file that a path names, or else the status of a fault that was told.
fn places_then<S: Sources, E: Write>(
    alloc: Global,
    sources: &S,
    path: &str,
    since: u64,
    times: bool,
    faults: &mut E,
) -> Result<PlacesThen, u8>
    ensures ok { IfOk result (λ earlier. HadCome S.File.remaining (S.is_of sources.now path.now) since times earlier) }
    ensures err { IfErr result (λ status. status ≡ FAULT) }
{
    let file = match sources.open(path) {
        Ok(file) => file,
        Err(error) => return Err(tell_unopened(path, error, faults)),
    };
    let mut front = Until::new(alloc, file, Some(since));
    match read_places(alloc, &mut front, times) {
        Ok(earlier) => Ok(earlier),
        Err(fault) => Err(tell_fault(fault, faults)),
    }
}

// Writes what places came to since they had come to this, and answers the status.
fn add_up_span<I: Read, O: Write, E: Write>(
    alloc: Global,
    earlier: &PlacesThen,
    lints: &Lints,
    wait_ms: Option<u64>,
    input: &mut I,
    output: &mut O,
    faults: &mut E,
) -> u8
    ensures does { AddsUpSpan earlier.now lints.now wait_ms (I.remaining input.old) (I.remaining input.new) (O.contents output.old)
        (O.contents output.new) result }
    ensures status { (result ≤ FAULT) ⊎ (result ≡ WARNED) }
{
    let warned = view_span(alloc, earlier, input, output, lints, wait_ms);
    tell_found(View::Report, warned, faults)
}

/// Adds the tasks of a stream up by place, since a moment if one is given, at which they had come to what the earlier part of the file says
/// that a path names. Answers the status.
pub(crate) fn add_up_since<S: Sources, I: Read, O: Write, E: Write>(
    alloc: Global,
    sources: &S,
    path: &str,
    since: Option<u64>,
    view: SitesView,
    lints: &Lints,
    wait_ms: Option<u64>,
    times: bool,
    input: &mut I,
    output: &mut O,
    faults: &mut E,
) -> u8
    ensures does { AddsUpSince S.File.remaining (S.is_of sources.now path.now) since view lints.now wait_ms times (I.remaining input.old)
        (I.remaining input.new) (O.contents output.old) (O.contents output.new) result }
    ensures status { (result ≤ FAULT) ⊎ (result ≡ WARNED) }
{
    let Some(moment) = since else {
        let (_, status) = add_up(alloc, view, lints, wait_ms, times, input, output, faults);
        return status;
    };
    match places_then(alloc, sources, path, moment, times, faults) {
        Ok(earlier) => add_up_span(alloc, &earlier, lints, wait_ms, input, output, faults),
        Err(status) => status,
    }
}
