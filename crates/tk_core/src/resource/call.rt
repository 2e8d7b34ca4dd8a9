//! The calls on a resource.

use crate::attrs::AttrOp;

/// A call on a resource. Moments are nanoseconds of a clock that the caller reads.
#[derive(Clone, Copy, Debug, PartialEq, Eq)]
pub enum ResourceCall {
    /// The resource is closed at this moment.
    Close(u64),
    /// The attribute of this index, counted from 0, is changed.
    Attr(u64, AttrOp),
    /// A user or an inspector is drawn, which draws a handle.
    Enlist,
    /// The row is read.
    Read,
}
