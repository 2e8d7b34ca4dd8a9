//! Why a line is not taken.
ghost use Rattle.std.specs.Prelude.{◌≡◌};
ghost use Rattle.tk_client.specs.declared.fault.Fault.TheVariants.{Memory};
ghost use Rattle.tk_client.specs.Faults.{code_of};
ghost use Rattle.tk_client.specs.Meaning.{fault_of};

use std::alloc::{AllocError, AllocFailed};
use thiserror::Error;
use tk_stream::LineError;

/// Why a client takes no more of a stream. A line with a fault is applied in no part.
///
/// After all but `Memory` the client has failed: it answers `Failed` until it is restarted.
#[derive(Clone, Copy, Debug, PartialEq, Eq, Error)]
pub enum Fault {
    /// There is no memory left. The client goes on from where it stands.
    #[error("out of memory")]
    Memory,
    /// The line is no JSON text.
    #[error("the line is not JSON")]
    BadJson,
    /// The line is JSON, and not of a line's shape.
    #[error("the JSON is not a line")]
    BadShape,
    /// The line has another number than the one that is next. A first line is a snapshot or has number 1.
    #[error("line {expected} was expected and line {found} found")]
    Gap {
        /// The number that is next.
        expected: u64,
        /// The number of the line.
        found: u64,
    },
    /// The line tells of an item that is neither there nor new, or says that one is gone that wasn't there.
    #[error("the line tells of an unknown item")]
    UnknownId,
    /// The line shows an item as new that is there, has an id twice in one of its lists, or tells of an item that it says is
    /// gone.
    #[error("the line repeats an id")]
    Repeated,
    /// The line has more bytes than the client takes.
    #[error("the line is too long")]
    TooLong,
    /// A new item has no statistics, or attribute values are not those of their item in number and kinds.
    #[error("the line's statistics do not fit its items")]
    Misfit,
    /// The client has failed before.
    #[error("the client has failed")]
    Failed,
}

impl Fault {
    /// The number of the fault, from 1 on in the order of the variants.
    pub fn code(self) -> u32
        ensures { result ≡ code_of self }
    {
        match self {
            Fault::Memory => 1,
            Fault::BadJson => 2,
            Fault::BadShape => 3,
            Fault::Gap { .. } => 4,
            Fault::UnknownId => 5,
            Fault::Repeated => 6,
            Fault::TooLong => 7,
            Fault::Misfit => 8,
            Fault::Failed => 9,
        }
    }
}

/// Want of memory is `Memory`.
impl From<AllocError> for Fault {
    ghost from_gives = { λ _ e. e ≡ Memory };

    fn from(_refused: AllocError) -> Fault {
        Fault::Memory
    }
}

/// Want of memory is `Memory`; what was not stored is dropped.
impl<T: Drop> From<AllocFailed<T>> for Fault {
    ghost from_gives = { λ _ e. e ≡ Memory };

    fn from(_refused: AllocFailed<T>) -> Fault {
        Fault::Memory
    }
}

/// A text that is no line is so by the fault of the same name.
impl From<LineError> for Fault {
    ghost from_gives = { λ e fault. fault ≡ fault_of e };

    fn from(e: LineError) -> Fault {
        match e {
            LineError::Memory => Fault::Memory,
            LineError::BadJson => Fault::BadJson,
            LineError::BadShape => Fault::BadShape,
        }
    }
}

/// How far feeding a piece came, and why no further.
#[derive(Clone, Copy, Debug, PartialEq, Eq)]
pub struct FeedError {
    /// How many lines were applied.
    pub lines: u64,
    /// How many bytes of the piece were taken. Where the line has a fault, those through the fault: its line end, or its
    /// first byte too many. At `Memory` the bytes after these may be fed again: they end before a line of which all lies in
    /// the piece, and before the end of a line whose front came with an earlier one.
    pub used: usize,
    /// Why.
    pub fault: Fault,
}
