//! Why there is no line.
ghost use Rattle.std.specs.Prelude.{◌≡◌};
ghost use Rattle.tk_stream.specs.declared.error.LineError.TheVariants.{Memory};
ghost use Rattle.tk_stream.specs.Errors.{code_of, fault_of};

use std::alloc::{AllocError, AllocFailed};
use thiserror::Error;
use tk_json::JsonFault;

/// Why a line was not made, read or written. A refused call changes nothing.
#[derive(Clone, Copy, Debug, PartialEq, Eq, Error)]
pub enum LineError {
    /// There is no memory left for the line or its text.
    #[error("out of memory")]
    Memory,
    /// The bytes are no JSON text.
    #[error("the line is not JSON")]
    BadJson,
    /// The text is JSON, and not of a line's shape.
    #[error("the JSON is not a line")]
    BadShape,
}

impl LineError {
    /// The number of the error, from 1 on in the order of the variants.
    pub fn code(self) -> u32
        ensures { result ≡ code_of self }
    {
        match self {
            LineError::Memory => 1,
            LineError::BadJson => 2,
            LineError::BadShape => 3,
        }
    }
}

/// Want of memory is `Memory`.
impl From<AllocError> for LineError {
    ghost from_gives = { λ _ e. e ≡ Memory };

    fn from(_refused: AllocError) -> LineError {
        LineError::Memory
    }
}

/// Want of memory is `Memory`; what was not stored is dropped.
impl<T: Drop> From<AllocFailed<T>> for LineError {
    ghost from_gives = { λ _ e. e ≡ Memory };

    fn from(_refused: AllocFailed<T>) -> LineError {
        LineError::Memory
    }
}

/// A text from which no value was read is no line, for the same reason.
impl From<JsonFault> for LineError {
    ghost from_gives = { λ fault e. e ≡ fault_of fault };

    fn from(fault: JsonFault) -> LineError {
        match fault {
            JsonFault::Memory => LineError::Memory,
            JsonFault::BadJson => LineError::BadJson,
        }
    }
}
