//! The status that tells an outcome, and the line of a fault.
ghost use Rattle.std.specs.Prelude.{◌≡◌, IsOk, Ok};
ghost use Rattle.tk_report.specs.TimedViews.{count_of};
ghost use Rattle.taskscope.specs.Program.{found_status, page_status, status_at, status_of, view_status};

use std::io;
use std::io::Write;
use tk_app::{AppFault, View};
use tk_report::Viewed;

/// All was done, which may be to show help.
pub(crate) const DONE: u8 = 0;

/// There was a fault, and its line went to `faults`.
pub(crate) const FAULT: u8 = 1;

/// The words ask for nothing that the program does.
pub(crate) const USAGE: u8 = 2;

/// There are warnings, and `lint` has written them.
pub(crate) const WARNED: u8 = 3;

/// A line that can't be written is let go, since the status tells the outcome.
pub(crate) fn tell_fault<E: Write>(fault: AppFault, faults: &mut E) -> u8
    ensures { result ≡ FAULT }
{
    let _ = writeln!(faults, "fault: {fault}");
    FAULT
}

/// What can't be opened is told by its path.
pub(crate) fn tell_unopened<E: Write>(path: &str, error: io::Error, faults: &mut E) -> u8
    ensures { result ≡ FAULT }
{
    let _ = writeln!(faults, "fault: Read {path}: {error}");
    FAULT
}

/// The status of a script's run, or of the demo.
pub(crate) fn tell_outcome<E: Write>(outcome: Result<(), AppFault>, faults: &mut E) -> u8
    ensures { result ≡ status_of outcome }
{
    match outcome {
        Ok(()) => DONE,
        Err(fault) => tell_fault(fault, faults),
    }
}

fn status_at(view: View, warnings: u64) -> u8
    ensures { result ≡ status_at view warnings }
{
    match view {
        View::Report => DONE,
        View::Lint => { if warnings == 0 { DONE } else { WARNED } }
    }
}

/// The status of a stream's view.
pub(crate) fn tell_view<E: Write>(
    view: View,
    outcome: Result<Viewed, AppFault>,
    faults: &mut E,
) -> u8
    ensures status { result ≡ view_status view outcome }
    ensures quiet { IsOk outcome → faults.new ≡ faults.old }
{
    match outcome {
        Ok(viewed) => status_at(view, viewed.warnings),
        Err(stop) => tell_fault(stop, faults),
    }
}

/// The status of a stream's findings, or of its warnings by place.
pub(crate) fn tell_found<E: Write>(view: View, outcome: Result<u64, AppFault>, faults: &mut E) -> u8
    ensures { result ≡ found_status view outcome }
{
    match outcome {
        Ok(findings) => status_at(view, findings),
        Err(stop) => tell_fault(stop, faults),
    }
}

/// How many warnings a view has shown.
pub(crate) fn count_of(outcome: Result<Viewed, AppFault>) -> Result<u64, AppFault>
    ensures { result ≡ count_of outcome }
{
    match outcome {
        Ok(viewed) => Ok(viewed.warnings),
        Err(fault) => Err(fault),
    }
}

/// The status of a stream's page.
pub(crate) fn tell_page<E: Write>(outcome: Result<u64, AppFault>, faults: &mut E) -> u8
    ensures { result ≡ page_status outcome }
{
    match outcome {
        Ok(_warnings) => DONE,
        Err(stop) => tell_fault(stop, faults),
    }
}

/// The status of numbers that were kept. A place tells itself of what it doesn't take.
pub(crate) fn tell_kept<E: Write>(outcome: Result<(), AppFault>, faults: &mut E) -> u8
    ensures { result ≡ status_of outcome }
{
    match outcome {
        Err(AppFault::Write) => FAULT,
        outcome => tell_outcome(outcome, faults),
    }
}

/// A fault of the earlier one of two streams is told with its path.
pub(crate) fn tell_fault_of<E: Write>(path: &str, fault: AppFault, faults: &mut E) -> u8
    ensures { result ≡ FAULT }
{
    let _ = writeln!(faults, "fault: {path}: {fault}");
    FAULT
}
