//! A task that ran or waited in a step.

use crate::gain::Gain;
use tk_core::TaskRow;
use tk_ids::TaskId;

/// A task that ran or waited in a step.
#[derive(Clone, Copy, Debug, PartialEq, Eq)]
pub struct Moved {
    /// The task.
    pub task: TaskId,
    /// Its row at the last line of the step in which it gained something.
    pub row: TaskRow,
    /// What it gained in the step.
    pub gain: Gain,
}
