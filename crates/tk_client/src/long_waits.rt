//! Long waits: a task that could have run for longer than its users can wait.
//!
//! `specs/LongWaits.antt` says what a long wait is. Of streams whose lines tell no histograms of waits only the wait that lasts is known, and of
//! a row that counts no waits only since its last wake.
ghost use Rattle.std.specs.Prelude.{◌≡◌};
ghost use Rattle.tk_client.specs.LongWaits as spec;

use crate::long_polls::is_long;
use crate::warning::is_spawn;
use tk_ids::TaskId;
use tk_stream::{PollTimes, Table, Task};

/// A wait of a task for a poll that took long, or still lasts.
#[derive(Clone, Copy, Debug, PartialEq, Eq)]
pub struct LongWait {
    /// The task.
    pub task: TaskId,
    /// How many nanoseconds its longest wait took, or has lasted if that is the one that lasts.
    pub time: u64,
}

fn longest_of(times: &PollTimes) -> u64
    ensures { result ≡ spec.longest_of times.now }
{
    match &times.waits {
        Some(waits) => waits.longest,
        None => 0,
    }
}

fn longest_ended(times: &Table<(TaskId, PollTimes)>, task: TaskId) -> u64
    ensures { result ≡ spec.longest_ended times.now task }
{
    match times.with_id(task.value()) {
        Some(entry) => longest_of(&entry.1),
        None => 0,
    }
}

fn longest_wait(now: u64, times: &Table<(TaskId, PollTimes)>, task: &Task) -> u64
    ensures { result ≡ spec.longest_wait now times.now task.now }
{
    longest_ended(times, task.info.id).max(task.row.waits_for(now))
}

/// The long wait of a task, if a wait of it took so many milliseconds or longer: one that ended, as the task's histogram of waits
/// says, or the one that lasts, by this moment. Only tasks of kind spawn have one, closed ones too.
///
/// With a limit of 0 each of these has one.
pub fn long_wait_of(
    limit_ms: u64,
    now: u64,
    times: &Table<(TaskId, PollTimes)>,
    task: &Task,
) -> Option<LongWait>
    ensures { result ≡ spec.long_wait_of limit_ms now times.now task.now }
{
    if !is_spawn(task.info.kind) {
        return None;
    }
    let time = longest_wait(now, times, task);
    if !is_long(limit_ms, time) {
        return None;
    }
    Some(LongWait {
        task: task.info.id,
        time,
    })
}
