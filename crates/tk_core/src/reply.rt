//! What a call is answered.

use thiserror::Error;

/// Why a call is refused. Where several hold, the first of this order is answered: `Memory`, `Closed`,
/// `AlreadyPolling`, `NotPolling`, `HandlesSpent`, `NoAttribute`, `WrongKind`, `OutOfRange`.
/// A refused call leaves the row as it was.
#[derive(Clone, Copy, Debug, PartialEq, Eq, Error)]
pub enum Refusal {
    /// A poll is open: none can be started, and the item can't be closed.
    #[error("a poll is open")]
    AlreadyPolling,
    /// No poll is open that could be ended.
    #[error("no poll is open")]
    NotPolling,
    /// The item is closed, and takes no more polls, closes or changes.
    #[error("the item is closed")]
    Closed,
    /// As many handles were drawn as there may be, 2^62.
    #[error("no more handles can be drawn")]
    HandlesSpent,
    /// The item has no attribute of this index.
    #[error("there is no attribute of this index")]
    NoAttribute,
    /// The value is of another kind than the attribute's, or the change isn't one of its kind.
    #[error("the attribute is of another kind")]
    WrongKind,
    /// The attribute would leave the range of its kind.
    #[error("the attribute would leave its range")]
    OutOfRange,
    /// A share of the ledger was refused for want of memory. Only calls of a ledger's handles answer it, never a step.
    #[error("out of memory")]
    Memory,
}

impl Refusal {
    ghost use Rattle.std.specs.Prelude.{◌≡◌};
    ghost use Rattle.tk_core.specs.Codes.{code_of};

    /// The number of the refusal, for callers that keep numbers: 1 to 8 in the order of the variants.
    pub fn code(self) -> u32
        ensures { result ≡ code_of self }
    {
        match self {
            Refusal::AlreadyPolling => 1,
            Refusal::NotPolling => 2,
            Refusal::Closed => 3,
            Refusal::HandlesSpent => 4,
            Refusal::NoAttribute => 5,
            Refusal::WrongKind => 6,
            Refusal::OutOfRange => 7,
            Refusal::Memory => 8,
        }
    }
}

/// What a wake found.
#[derive(Clone, Copy, Debug, PartialEq, Eq)]
pub enum WakeReply {
    /// The task was not scheduled, and now is.
    Scheduled,
    /// The task was scheduled already.
    Already,
    /// The task is closed.
    Gone,
}

/// What a call is answered, of an item with rows `Row`.
#[derive(Clone, Copy, Debug, PartialEq, Eq)]
pub enum Reply<Row> {
    /// The call was made.
    Done,
    /// The number of the handle that was drawn.
    Number(u64),
    /// What a wake found.
    Woken(WakeReply),
    /// The row, as it stands.
    Shown(Row),
    /// The call was refused, and changed nothing.
    Refused(Refusal),
}

impl<Row: Copy> Reply<Row> {
    ghost use Rattle.std.specs.Prelude.{◌≡◌};
    ghost use Rattle.tk_core.specs.Fold.{refusal_in};

    /// The refusal that the reply is, if it is one.
    pub fn refusal(&self) -> Option<Refusal>
        ensures { result ≡ refusal_in self.now }
    {
        match self {
            Reply::Refused(refusal) => Some(*refusal),
            Reply::Done | Reply::Number(_) | Reply::Woken(_) | Reply::Shown(_) => None,
        }
    }
}
