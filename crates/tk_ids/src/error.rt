//! Why an id, a name or a list of attributes is refused.
ghost use Rattle.std.specs.Prelude.{◌≡◌};
ghost use Rattle.tk_ids.specs.declared.error.IdError.TheVariants.{Memory};
ghost use Rattle.tk_ids.specs.Errors.{code_of};

use std::alloc::AllocError;
use thiserror::Error;

/// Why a call of this crate was refused. A refused call changes nothing.
#[derive(Clone, Copy, Debug, PartialEq, Eq, Error)]
pub enum IdError {
    /// A recorder is not in 1 to 64, or the number of an item is out of its range.
    #[error("the id is out of range")]
    BadId,
    /// The recorder has given out the last id of this kind, whose number is 2^40 - 1.
    #[error("the ids of the recorder are spent")]
    IdsSpent,
    /// The bytes are no name: a name is 1 to 1,024 bytes, each 0x20 to 0x7E.
    #[error("the name is not 1 to 1024 printable bytes")]
    BadName,
    /// There is no memory left for the answer.
    #[error("out of memory")]
    Memory,
    /// There are more than 6 attributes, or two have the same name.
    #[error("the attributes are more than 6 or repeat a name")]
    BadAttributes,
}

impl IdError {
    /// The number of the error, from 1 on in the order of the variants.
    pub fn code(self) -> u32
        ensures { result ≡ code_of self }
    {
        match self {
            IdError::BadId => 1,
            IdError::IdsSpent => 2,
            IdError::BadName => 3,
            IdError::Memory => 4,
            IdError::BadAttributes => 5,
        }
    }
}

/// Want of memory is `Memory`.
impl From<AllocError> for IdError {
    ghost from_gives = { λ _ e. e ≡ Memory };

    fn from(_refused: AllocError) -> IdError {
        IdError::Memory
    }
}
