//! A start of a poll on a task's row beside the histogram of its waits.
//!
//! A task that is told with such a histogram has one row of sixteen words more, which is opened with the task. Each start of a poll goes to
//! both rows.
ghost use Rattle.std.specs.Prelude.{◌≡◌, ◌≢◌};
ghost use Rattle.tk_core.specs.declared.task.call.TaskCall.TheVariants.{PollStart};
ghost use Rattle.tk_core.specs.TaskMeaning.{task_meaning};
ghost use Rattle.tk_embed.specs.Border.{Makes};
ghost use Rattle.tk_embed.specs.Waits.{StayWaits};

use crate::reply::code;
use crate::step::{make, row_of};
use tk_core::{TaskCall, TaskRow, TimesCall, TimesRow};

/// A poll starts, and how long the whole wait took that it ends, in nanoseconds, is added to the histogram of the task's waits. Nothing is
/// added where the task didn't wait for a poll, or its waits aren't counted. Refused with `AlreadyPolling`, `Closed`: then nothing is added,
/// either.
#[unsafe(no_mangle)]
pub extern "C" fn taskscope_task_start_waited(
    words: &mut [u64; 16],
    waits: &mut [u64; 16],
    moment: u64,
) -> u32
    ensures row { Makes task_meaning words.old (PollStart moment) words.new result }
    ensures waits { StayWaits words.old (PollStart moment) waits.old waits.new }
    ensures refused { result ≢ 0 → waits.new ≡ waits.old }
{
    let row = row_of::<TaskRow>(words);
    let result = code(make::<TaskRow>(words, TaskCall::PollStart(moment)));
    if result == 0 {
        if let Some(wait) = row.wait_ended_by(moment) {
            make::<TimesRow>(waits, TimesCall::Add(wait));
        }
    }
    result
}
