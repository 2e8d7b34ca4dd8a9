//! The row of an async operation.
ghost use Rattle.std.specs.Prelude.{◌≡◌, ◌≤◌, length};

use crate::attr_values::AttrValues;
use tk_ids::{AttrValue, TaskId};

/// The statistics of an async operation, as tokio-console's async operation statistics have them.
///
/// Moments and sums are nanoseconds. A difference of moments that runs backwards counts as 0; counts and
/// sums stop at 2^64 - 1.
#[derive(Clone, Copy, Debug, PartialEq, Eq)]
pub struct OpRow {
    /// When the operation was created.
    pub created: u64,
    /// When the operation was closed.
    pub dropped: Option<u64>,
    /// How often a poll of it started.
    pub polls: u64,
    /// When its first poll started.
    pub first_poll: Option<u64>,
    /// When its last poll started.
    pub last_started: Option<u64>,
    /// When a poll of it last ended.
    pub last_ended: Option<u64>,
    /// How long its ended polls ran in all.
    pub busy: u64,
    /// How many handles were drawn, all of them inspectors.
    pub handles: u64,
    /// The task that polls it, as it was last set.
    pub task: Option<TaskId>,
    /// Whether a poll is open.
    pub polling: bool,
    /// The values of its attributes, in the order in which they were declared.
    pub attrs: AttrValues,
}

impl OpRow {
    ghost use Rattle.tk_core.specs.Op.{opening_row};

    /// The row of an operation that was just created with these attributes, at most 6.
    pub fn opening(created: u64, values: &[AttrValue]) -> Self
        requires { length values.now ≤ 6 }
        ensures { result ≡ opening_row created values.now }
    {
        OpRow {
            created,
            dropped: None,
            polls: 0,
            first_poll: None,
            last_started: None,
            last_ended: None,
            busy: 0,
            handles: 0,
            task: None,
            polling: false,
            attrs: AttrValues::new(values),
        }
    }
}
