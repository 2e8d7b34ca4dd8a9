//! All warnings of tables: the usual ones, and the long polls and long waits that are asked for.
ghost use Rattle.std.specs.Prelude.{◌≡◌, ◌++◌, [], map, slice_get, IfOk, OnOk};
ghost use Rattle.std.specs.Option.{option_map_or, option_to_list};
ghost use Rattle.tk_client.specs.AnyWarnings as spec;

use crate::lints::Lints;
use crate::long_polls::{LongPoll, long_poll_of};
use crate::long_waits::{LongWait, long_wait_of};
use crate::warning::{Warning, warn};
use std::alloc::{AllocError, Global};
use tk_ids::TaskId;
use tk_stream::{PollTimes, Table, Tables, Task};

/// From how many milliseconds on a poll or a wait is a long one, of which its task is warned. `None` asks for no such warning.
#[derive(Clone, Copy, Debug, PartialEq, Eq)]
pub struct TimeLimits {
    /// From how many milliseconds on a poll is a long one.
    pub poll_ms: Option<u64>,
    /// From how many milliseconds on a wait for a poll is a long one.
    pub wait_ms: Option<u64>,
}

impl TimeLimits {
    /// Neither is asked for.
    pub fn none() -> TimeLimits
        ensures { result ≡ spec.no_limits }
    {
        TimeLimits {
            poll_ms: None,
            wait_ms: None,
        }
    }
}

/// Any warning about a task.
#[derive(Clone, Copy, Debug, PartialEq, Eq)]
pub enum AnyWarning {
    /// One of those that [`warnings_in`](crate::warnings_in) gives.
    Usual(Warning),
    /// A poll of it ran for long.
    LongPoll(LongPoll),
    /// A wait of it for a poll took long.
    LongWait(LongWait),
}

fn long_poll_asked(
    limits: &TimeLimits,
    now: u64,
    times: &Table<(TaskId, PollTimes)>,
    task: &Task,
) -> Option<LongPoll>
    ensures { result ≡ spec.long_poll_asked limits.now now times.now task.now }
{
    match limits.poll_ms {
        Some(limit_ms) => long_poll_of(limit_ms, now, times, task),
        None => None,
    }
}

fn long_wait_asked(
    limits: &TimeLimits,
    now: u64,
    times: &Table<(TaskId, PollTimes)>,
    task: &Task,
) -> Option<LongWait>
    ensures { result ≡ spec.long_wait_asked limits.now now times.now task.now }
{
    match limits.wait_ms {
        Some(limit_ms) => long_wait_of(limit_ms, now, times, task),
        None => None,
    }
}

fn push_usual(list: &mut Vec<AnyWarning>, warnings: &[Warning]) -> Result<(), AllocError>
    ensures { OnOk result (list.new.items ≡ list.old.items ++ map AnyWarning.Usual warnings.now) }
{
    for warning in warnings {
        list.push(AnyWarning::Usual(*warning))?;
    }
    Ok(())
}

fn push_poll(list: &mut Vec<AnyWarning>, long: Option<LongPoll>) -> Result<(), AllocError>
    ensures { OnOk result (list.new.items ≡ list.old.items ++ map AnyWarning.LongPoll (option_to_list long)) }
{
    if let Some(long) = long {
        list.push(AnyWarning::LongPoll(long))?;
    }
    Ok(())
}

fn push_wait(list: &mut Vec<AnyWarning>, long: Option<LongWait>) -> Result<(), AllocError>
    ensures { OnOk result (list.new.items ≡ list.old.items ++ map AnyWarning.LongWait (option_to_list long)) }
{
    if let Some(long) = long {
        list.push(AnyWarning::LongWait(long))?;
    }
    Ok(())
}

// Adds all warnings of a task in tables of this moment.
fn warn_of_all(
    list: &mut Vec<AnyWarning>,
    alloc: Global,
    lints: &Lints,
    limits: &TimeLimits,
    now: u64,
    times: &Table<(TaskId, PollTimes)>,
    task: &Task,
) -> Result<(), AllocError>
    ensures { OnOk result (list.new.items ≡ list.old.items ++ spec.all_warnings_of lints.now limits.now now times.now task.now) }
{
    let mut usual = Vec::new(alloc);
    warn(&mut usual, lints, now, task)?;
    push_usual(list, usual.as_slice())?;
    push_poll(list, long_poll_asked(limits, now, times, task))?;
    push_wait(list, long_wait_asked(limits, now, times, task))
}

// Adds all warnings of the task at a place.
fn warn_of_all_at(
    list: &mut Vec<AnyWarning>,
    alloc: Global,
    tables: &Tables,
    times: &Table<(TaskId, PollTimes)>,
    lints: &Lints,
    limits: &TimeLimits,
    place: usize,
) -> Result<(), AllocError>
    ensures { OnOk result (list.new.items ≡ list.old.items
        ++ option_map_or (spec.all_warnings_of lints.now limits.now tables.now.now times.now) (slice_get tables.now.tasks place) []) }
{
    match tables.task_at(place) {
        Some(task) => warn_of_all(list, alloc, lints, limits, tables.now(), times, task),
        None => Ok(()),
    }
}

/// All warnings of tables, found by a walk through all tasks: for each task in table order those that
/// [`warnings_in`](crate::warnings_in) gives, and after them its long poll and its long wait, if the limits ask for them.
pub fn all_warnings_in(
    alloc: Global,
    tables: &Tables,
    times: &Table<(TaskId, PollTimes)>,
    lints: &Lints,
    limits: &TimeLimits,
) -> Result<Vec<AnyWarning>, AllocError>
    ensures { IfOk result (λ list. list.items ≡ spec.all_warnings_in lints.now limits.now tables.now times.now) }
{
    let mut list = Vec::new(alloc);
    for place in 0..tables.task_count() {
        warn_of_all_at(&mut list, alloc, tables, times, lints, limits, place)?;
    }
    Ok(list)
}
