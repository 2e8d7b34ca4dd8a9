//! The calls on an async operation.

use crate::attrs::AttrOp;
use tk_ids::TaskId;

/// A call on an async operation. Moments are nanoseconds of a clock that the caller reads.
#[derive(Clone, Copy, Debug, PartialEq, Eq)]
pub enum OpCall {
    /// A poll starts at this moment.
    PollStart(u64),
    /// The open poll ends at this moment.
    PollEnd(u64),
    /// The operation is closed at this moment.
    Close(u64),
    /// From now on this task polls the operation.
    SetTask(TaskId),
    /// The attribute of this index, counted from 0, is changed.
    Attr(u64, AttrOp),
    /// An inspector is drawn, which draws a handle.
    Enlist,
    /// The row is read.
    Read,
}
