//! Why no value was read.
ghost use Rattle.std.specs.Prelude.{◌≡◌};
ghost use Rattle.tk_json.specs.declared.fault.JsonFault.TheVariants.{Memory, BadJson};

use json::Invalid;
use std::alloc::{AllocError, AllocFailed};
use thiserror::Error;

/// Why no value was read. The reader then stands anywhere further on.
#[derive(Clone, Copy, Debug, PartialEq, Eq, Error)]
pub enum JsonFault {
    /// There is no memory left for the value.
    #[error("out of memory")]
    Memory,
    /// No value of JSON comes next.
    #[error("the text is not JSON")]
    BadJson,
}

/// Want of memory is `Memory`.
impl From<AllocError> for JsonFault {
    ghost from_gives = { λ _ e. e ≡ Memory };

    fn from(_refused: AllocError) -> JsonFault {
        JsonFault::Memory
    }
}

/// Want of memory is `Memory`; what was not stored is dropped.
impl<T: Drop> From<AllocFailed<T>> for JsonFault {
    ghost from_gives = { λ _ e. e ≡ Memory };

    fn from(_refused: AllocFailed<T>) -> JsonFault {
        JsonFault::Memory
    }
}

/// What a reader refuses is `BadJson`.
impl From<Invalid> for JsonFault {
    ghost from_gives = { λ _ e. e ≡ BadJson };

    fn from(_refused: Invalid) -> JsonFault {
        JsonFault::BadJson
    }
}
