//! The row of a task, as it is kept.

use tk_core::TaskRow;

/// A row that is kept beside the tables.
#[derive(Clone, Copy, Debug, PartialEq, Eq)]
pub(crate) struct Kept {
    pub row: TaskRow,
}
