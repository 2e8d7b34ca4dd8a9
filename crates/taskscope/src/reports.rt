//! A stream that is read to its end, and what is written of it.
ghost use Rattle.std.specs.Prelude.{◌≡◌, ◌≤◌, ◌⊎◌, false, IsOk};
ghost use Rattle.tk_found.specs.Views as found;
ghost use Rattle.tk_report.specs.TimedViews.{count_of};
ghost use Rattle.taskscope.specs.Program.{FindsInStream, PagesStream, ViewsStream, is_noted};

use crate::notes::note_untimed;
use crate::statuses::{FAULT, WARNED, count_of, tell_found, tell_page, tell_view};
use std::alloc::Global;
use std::io::{Read, Write};
use tk_app::{AppFault, TimesOptions, View, view_stream_with};
use tk_client::Lints;
use tk_explain::{Kept, explain_stream};
use tk_found::view_findings;
use tk_odd::Limits;
use tk_page::view_page_with;
use tk_report::Viewed;

/// Views a stream, and answers what that came to, and the status. Where long polls are told by lines, a line says so.
pub(crate) fn view<I: Read, O: Write, E: Write>(
    alloc: Global,
    view: View,
    lints: &Lints,
    times: &TimesOptions,
    input: &mut I,
    output: &mut O,
    faults: &mut E,
) -> (Result<Viewed, AppFault>, u8)
    ensures does { ViewsStream view lints.now times.now (I.remaining input.old) (I.remaining input.new) (O.contents output.old)
        (O.contents output.new) result.1 }
    ensures status { (result.1 ≤ FAULT) ⊎ (result.1 ≡ WARNED) }
    ensures quiet { IsOk result.0 → is_noted times.now result.0 ≡ false → faults.new ≡ faults.old }
{
    let outcome = view_stream_with(alloc, input, output, view, lints, times);
    note_untimed(times, outcome, faults);
    (outcome, tell_view(view, outcome, faults))
}

/// Views the stream of an input, and answers that input, as its reads left it, and the status. What is explained of a fault stands below
/// it.
pub(crate) fn view_explained<I: Read, O: Write, E: Write>(
    alloc: Global,
    shown: View,
    lints: &Lints,
    times: &TimesOptions,
    input: I,
    output: &mut O,
    faults: &mut E,
) -> (I, u8)
    ensures does { ViewsStream shown lints.now times.now (I.remaining input) (I.remaining result.0) (O.contents output.old)
        (O.contents output.new) result.1 }
    ensures status { (result.1 ≤ FAULT) ⊎ (result.1 ≡ WARNED) }
{
    let mut stream = Kept::last_lines(alloc, input);
    let (outcome, status) = view(alloc, shown, lints, times, &mut stream, output, faults);
    let _ = explain_stream(&stream, count_of(outcome), faults);
    (stream.into_reader(), status)
}

/// Tells what is odd about a stream, since a moment if one is given, and answers what that came to, and the status.
pub(crate) fn find<I: Read, O: Write, E: Write>(
    alloc: Global,
    view: View,
    limits: Limits,
    since: Option<u64>,
    times: bool,
    input: &mut I,
    output: &mut O,
    faults: &mut E,
) -> (Result<u64, AppFault>, u8)
    ensures does { FindsInStream view limits since times (I.remaining input.old) (I.remaining input.new) (O.contents output.old)
        (O.contents output.new) result.1 }
    ensures status { (result.1 ≤ FAULT) ⊎ (result.1 ≡ WARNED) }
{
    let found = view_findings(alloc, input, output, view, limits, since, times);
    (found, tell_found(view, found, faults))
}

/// Tells what is odd about the stream of an input, and answers that input, as its reads left it, and the status. What is explained of a
/// fault stands below it.
pub(crate) fn find_explained<I: Read, O: Write, E: Write>(
    alloc: Global,
    view: View,
    limits: Limits,
    since: Option<u64>,
    times: bool,
    input: I,
    output: &mut O,
    faults: &mut E,
) -> (I, u8)
    ensures does { FindsInStream view limits since times (I.remaining input) (I.remaining result.0) (O.contents output.old)
        (O.contents output.new) result.1 }
    ensures status { (result.1 ≤ FAULT) ⊎ (result.1 ≡ WARNED) }
{
    let mut stream = Kept::last_lines(alloc, input);
    let (outcome, status) = find(
        alloc,
        view,
        limits,
        since,
        times,
        &mut stream,
        output,
        faults,
    );
    let _ = explain_stream(&stream, outcome, faults);
    (stream.into_reader(), status)
}

/// Draws a stream as a page, and answers how many warnings its tables have, or the fault, and the status.
pub(crate) fn draw_page<I: Read, O: Write, E: Write>(
    alloc: Global,
    limits: Limits,
    title: &str,
    input: &mut I,
    output: &mut O,
    faults: &mut E,
) -> (Result<u64, AppFault>, u8)
    ensures does { PagesStream title.now limits (I.remaining input.old) (I.remaining input.new) (O.contents output.old)
        (O.contents output.new) result.1 }
    ensures status { (result.1 ≤ FAULT) ⊎ (result.1 ≡ WARNED) }
{
    let drawn = view_page_with(alloc, input, output, limits, title);
    (drawn, tell_page(drawn, faults))
}

/// Draws the stream of an input as a page, and answers that input, as its reads left it, and the status. What is explained of a fault
/// stands below it.
pub(crate) fn draw_explained<I: Read, O: Write, E: Write>(
    alloc: Global,
    limits: Limits,
    title: &str,
    input: I,
    output: &mut O,
    faults: &mut E,
) -> (I, u8)
    ensures does { PagesStream title.now limits (I.remaining input) (I.remaining result.0) (O.contents output.old) (O.contents output.new)
        result.1 }
    ensures status { (result.1 ≤ FAULT) ⊎ (result.1 ≡ WARNED) }
{
    let mut stream = Kept::last_lines(alloc, input);
    let (outcome, status) = draw_page(alloc, limits, title, &mut stream, output, faults);
    let _ = explain_stream(&stream, outcome, faults);
    (stream.into_reader(), status)
}
