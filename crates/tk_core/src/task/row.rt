//! The row of a task.
ghost use Rattle.std.specs.Prelude.{◌≡◌};

use crate::task::{WaitSoFar, Waits};

/// The statistics of a task. Polls, wakes and wakers are those of tokio-console's task statistics; `handles` and
/// `last_wake` are this project's own, and so is that busy and scheduled time are sums over the calls.
///
/// Moments and sums are nanoseconds. A difference of moments that runs backwards counts as 0; counts and
/// sums stop at 2^64 - 1. Live wakers are `clones` minus `drops`.
#[derive(Clone, Copy, Debug, PartialEq, Eq)]
pub struct TaskRow {
    /// When the task was created.
    pub created: u64,
    /// When the task was closed.
    pub dropped: Option<u64>,
    /// How often a poll of it started.
    pub polls: u64,
    /// When its first poll started.
    pub first_poll: Option<u64>,
    /// When its last poll started.
    pub last_started: Option<u64>,
    /// When a poll of it last ended.
    pub last_ended: Option<u64>,
    /// How long its ended polls ran in all.
    pub busy: u64,
    /// How often it was woken, by value or by reference.
    pub wakes: u64,
    /// How many of its wakes came from within it.
    pub self_wakes: u64,
    /// The greatest moment of a wake.
    pub last_wake: Option<u64>,
    /// How many wakers were cloned.
    pub clones: u64,
    /// How many wakers were dropped, or used up by a wake.
    pub drops: u64,
    /// How many handles were drawn: wakers and inspectors.
    pub handles: u64,
    /// How long it waited in all, scheduled, for a poll to start.
    pub sched: u64,
    /// What is counted of its waits, up to its last start, wake or close. `None` where they aren't counted.
    pub waits: Option<Waits>,
    /// Whether a poll is open.
    pub polling: bool,
    /// Whether it waits for a poll: none was started yet, or it was woken since the last start, and it isn't closed.
    pub scheduled: bool,
}

impl TaskRow {
    ghost use Rattle.tk_core.specs.Task.{opening_row, counting_row};

    /// The row of a task that was just created: scheduled, and with no call yet.
    pub fn opening(created: u64) -> Self
        ensures { result ≡ opening_row created }
    {
        TaskRow {
            created,
            dropped: None,
            polls: 0,
            first_poll: None,
            last_started: None,
            last_ended: None,
            busy: 0,
            wakes: 0,
            self_wakes: 0,
            last_wake: None,
            clones: 0,
            drops: 0,
            handles: 0,
            sched: 0,
            waits: None,
            polling: false,
            scheduled: true,
        }
    }

    /// The row of a task that was just created, and whose waits are counted.
    pub fn counting(created: u64) -> Self
        ensures { result ≡ counting_row created }
    {
        TaskRow {
            waits: Some(Waits {
                total: 0,
                so_far: WaitSoFar::capped(0),
            }),
            ..Self::opening(created)
        }
    }
}
