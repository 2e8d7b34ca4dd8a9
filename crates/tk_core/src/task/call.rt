//! The calls on a task.

/// A call on a task. Moments are nanoseconds of a clock that the caller reads; `from_self` says that a wake
/// came from within the task's own poll.
#[derive(Clone, Copy, Debug, PartialEq, Eq)]
pub enum TaskCall {
    /// A poll starts at this moment.
    PollStart(u64),
    /// The open poll ends at this moment.
    PollEnd(u64),
    /// The task is closed at this moment: it ran to its end, or was dropped.
    Close(u64),
    /// A waker is cloned, which draws a handle.
    CloneWaker,
    /// A wake at this moment that uses its waker up: one wake and one drop.
    WakeVal(u64, bool),
    /// A wake at this moment that keeps its waker.
    WakeRef(u64, bool),
    /// A waker is dropped without a wake.
    Release,
    /// An inspector is drawn, which draws a handle.
    Enlist,
    /// The row is read.
    Read,
}
