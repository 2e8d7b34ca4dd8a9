//! Long polls: a task that held its thread for longer than others can wait.
//!
//! `specs/LongPolls.antt` says what a long poll is. Of streams whose lines tell no histograms only the poll that runs is known.
ghost use Rattle.std.specs.Prelude.{◌≡◌, ◌*◌, ◌++◌, [], nat_le, slice_get, IfOk, OnOk};
ghost use Rattle.std.specs.Option.{option_map_or, option_to_list};
ghost use Rattle.tk_client.specs.LongPolls as spec;

use crate::warning::is_spawn;
use std::alloc::{AllocError, Global};
use tk_ids::TaskId;
use tk_stream::{PollTimes, Table, Tables, Task};

/// A poll of a task that ran for long, or still runs.
#[derive(Clone, Copy, Debug, PartialEq, Eq)]
pub struct LongPoll {
    /// The task.
    pub task: TaskId,
    /// For how many nanoseconds its longest poll ran, or has run if that is the one that runs.
    pub time: u64,
}

fn longest_ended(times: &Table<(TaskId, PollTimes)>, task: TaskId) -> u64
    ensures { result ≡ spec.longest_ended times.now task }
{
    match times.with_id(task.value()) {
        Some(entry) => entry.1.longest,
        None => 0,
    }
}

fn longest_run(now: u64, times: &Table<(TaskId, PollTimes)>, task: &Task) -> u64
    ensures { result ≡ spec.longest_run now times.now task.now }
{
    longest_ended(times, task.info.id).max(task.row.runs_for(now))
}

/// Whether a time of so many nanoseconds is as long as a limit of so many milliseconds. In 128 bits the product isn't too large.
pub(crate) fn is_long(limit_ms: u64, time: u64) -> bool
    ensures { result ≡ nat_le (limit_ms * 1000000) time }
{
    u128::from(limit_ms) * 1_000_000 <= u128::from(time)
}

/// The long poll of a task, where a poll of it ran for so many milliseconds or longer: one that ended, as the task's histogram
/// among these says, or the one that runs, by this moment. Only tasks of kind spawn have one, closed ones too.
///
/// With a limit of 0 each of these has one.
pub fn long_poll_of(
    limit_ms: u64,
    now: u64,
    times: &Table<(TaskId, PollTimes)>,
    task: &Task,
) -> Option<LongPoll>
    ensures { result ≡ spec.long_poll_of limit_ms now times.now task.now }
{
    if !is_spawn(task.info.kind) {
        return None;
    }
    let time = longest_run(now, times, task);
    if !is_long(limit_ms, time) {
        return None;
    }
    Some(LongPoll {
        task: task.info.id,
        time,
    })
}

fn push_long(list: &mut Vec<LongPoll>, long: Option<LongPoll>) -> Result<(), AllocError>
    ensures { OnOk result (list.new.items ≡ list.old.items ++ option_to_list long) }
{
    if let Some(long) = long {
        list.push(long)?;
    }
    Ok(())
}

// Adds the long poll of the task at a place.
fn push_long_at(
    list: &mut Vec<LongPoll>,
    tables: &Tables,
    times: &Table<(TaskId, PollTimes)>,
    limit_ms: u64,
    place: usize,
) -> Result<(), AllocError>
    ensures { OnOk result (list.new.items ≡ list.old.items
        ++ option_map_or (λ t. option_to_list (spec.long_poll_of limit_ms tables.now.now times.now t)) (slice_get tables.now.tasks place) []) }
{
    match tables.task_at(place) {
        Some(task) => push_long(list, long_poll_of(limit_ms, tables.now(), times, task)),
        None => Ok(()),
    }
}

/// The tasks of which a poll ran for so many milliseconds or longer, with its time, in table order. They are found by a walk
/// through all tasks.
pub fn long_polls_in(
    alloc: Global,
    tables: &Tables,
    times: &Table<(TaskId, PollTimes)>,
    limit_ms: u64,
) -> Result<Vec<LongPoll>, AllocError>
    ensures { IfOk result (λ list. list.items ≡ spec.long_polls_in limit_ms tables.now times.now) }
{
    let mut list = Vec::new(alloc);
    for place in 0..tables.task_count() {
        push_long_at(&mut list, tables, times, limit_ms, place)?;
    }
    Ok(list)
}
