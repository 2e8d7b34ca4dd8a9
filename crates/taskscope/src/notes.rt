//! What is said on the error output beside what a view writes.
ghost use Rattle.std.specs.Prelude.{◌≡◌, false};
ghost use Rattle.taskscope.specs.Program as spec;

use std::io::Write;
use tk_app::{AppFault, TimesOptions};
use tk_report::Viewed;

fn is_noted(times: &TimesOptions, outcome: Result<Viewed, AppFault>) -> bool
    ensures { result ≡ spec.is_noted times.now outcome }
{
    match outcome {
        Ok(viewed) => viewed.untimed && times.limits.poll_ms.is_some(),
        Err(_) => false,
    }
}

/// Says in one line that long polls are told by the lines of a stream, where they are asked for and a task has no histogram. A line
/// that can't be written is let go.
pub(crate) fn note_untimed<N: Write>(
    times: &TimesOptions,
    outcome: Result<Viewed, AppFault>,
    notes: &mut N,
)
    ensures { spec.is_noted times.now outcome ≡ false → notes.new ≡ notes.old }
{
    if is_noted(times, outcome) {
        let _ = writeln!(
            notes,
            "taskscope: this stream lacks histograms of polls: long polls are told by its lines, so each ran at least as long"
        );
    }
}
