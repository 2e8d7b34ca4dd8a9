//! Two streams that are compared.
ghost use Rattle.std.specs.Prelude.{◌≡◌, ◌≤◌, ◌⊎◌, None, Ok};
ghost use Rattle.std.specs.Option.{option_map};
ghost use Rattle.taskscope.specs.Program.{ComparesBefore, ComparesStreams, ComparesWith, ShowsRecorded};

use crate::command_line::CompareOptions;
use crate::sources::Sources;
use crate::statuses::{
    FAULT, WARNED, tell_fault, tell_fault_of, tell_found, tell_page, tell_unopened,
};
use std::alloc::Global;
use std::io::{Read, Write};
use tk_app::View;
use tk_compare::{Margin, Recorded, compare_recorded, read_recorded};
use tk_page::view_changes;

// Writes what changed between two streams, and answers the status: that of warnings, if something got worse. With a title and the path of
// the earlier stream it draws a page, of which the status is that of a page.
fn show_changes<O: Write, E: Write>(
    alloc: Global,
    margin: Margin,
    page: Option<(&str, &str)>,
    before: &Recorded,
    after: &Recorded,
    output: &mut O,
    faults: &mut E,
) -> u8
    ensures does { ShowsRecorded (option_map (λ t. (t.0.now, t.1.now)) page.entry) margin before.now after.now (O.contents output.old)
        (O.contents output.new) result }
    ensures status { (result ≤ FAULT) ⊎ (result ≡ WARNED) }
{
    match page {
        None => {
            let worse = compare_recorded(alloc, before, after, margin, output);
            tell_found(View::Lint, worse, faults)
        }
        Some((title, path)) => {
            let worse = view_changes(alloc, title, path, before, after, margin, output);
            tell_page(worse, faults)
        }
    }
}

// Reads the later one of two streams, and writes what changed.
fn compare_after<I: Read, O: Write, E: Write>(
    alloc: Global,
    options: CompareOptions,
    page: Option<(&str, &str)>,
    before: &Recorded,
    input: &mut I,
    output: &mut O,
    faults: &mut E,
) -> u8
    ensures does { ComparesBefore (option_map (λ t. (t.0.now, t.1.now)) page.entry) options (Ok before.now) (I.remaining input.old)
        (I.remaining input.new) (O.contents output.old) (O.contents output.new) result }
    ensures status { (result ≤ FAULT) ⊎ (result ≡ WARNED) }
{
    match read_recorded(alloc, input, options.limits) {
        Ok(after) => show_changes(alloc, options.margin, page, before, &after, output, faults),
        Err(stop) => tell_fault(stop, faults),
    }
}

// Reads the earlier stream, which a path names, and then the later one, and writes what changed.
fn compare_streams<F: Read, I: Read, O: Write, E: Write>(
    alloc: Global,
    options: CompareOptions,
    page: Option<(&str, &str)>,
    path: &str,
    earlier: &mut F,
    input: &mut I,
    output: &mut O,
    faults: &mut E,
) -> u8
    ensures does { ComparesStreams (option_map (λ t. (t.0.now, t.1.now)) page.entry) options (F.remaining earlier.old)
        (I.remaining input.old) (I.remaining input.new) (O.contents output.old) (O.contents output.new) result }
    ensures status { (result ≤ FAULT) ⊎ (result ≡ WARNED) }
{
    match read_recorded(alloc, earlier, options.limits) {
        Ok(before) => compare_after(alloc, options, page, &before, input, output, faults),
        Err(fault) => tell_fault_of(path, fault, faults),
    }
}

/// Writes what changed from the stream that a path names to that of the input.
pub(crate) fn compare<S: Sources, I: Read, O: Write, E: Write>(
    alloc: Global,
    sources: &S,
    options: CompareOptions,
    page: Option<(&str, &str)>,
    path: &str,
    input: &mut I,
    output: &mut O,
    faults: &mut E,
) -> u8
    ensures does { ComparesWith S.File.remaining (S.is_of sources.now path.now) (option_map (λ t. (t.0.now, t.1.now)) page.entry) options
        (I.remaining input.old) (I.remaining input.new) (O.contents output.old) (O.contents output.new) result }
    ensures status { (result ≤ FAULT) ⊎ (result ≡ WARNED) }
{
    match sources.open(path) {
        Ok(mut earlier) => compare_streams(
            alloc,
            options,
            page,
            path,
            &mut earlier,
            input,
            output,
            faults,
        ),
        Err(error) => tell_unopened(path, error, faults),
    }
}
