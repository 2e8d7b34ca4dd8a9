//! Why a call is refused.
ghost use Rattle.std.specs.Prelude.{◌≡◌};
ghost use Rattle.tk_events.specs.declared.error.OpenError.TheVariants.{Memory as OpenMemory};
ghost use Rattle.tk_events.specs.Errors.{open_code, record_code, finish_code};

use std::alloc::AllocError;
use thiserror::Error;

/// Why no console was opened.
#[derive(Clone, Copy, Debug, PartialEq, Eq, Error)]
pub enum OpenError {
    /// The recorders are not 1 to 64, the capacity is not 1 to 65,536, or the offers are not 1 to 2^40 - 1.
    #[error("a limit is out of range")]
    BadLimit,
    /// There is no memory left for the console.
    #[error("out of memory")]
    Memory,
}

impl OpenError {
    /// The number of the error, from 1 on in the order of the variants.
    pub fn code(self) -> u32
        ensures { result ≡ open_code self }
    {
        match self {
            OpenError::BadLimit => 1,
            OpenError::Memory => 2,
        }
    }
}

/// Want of memory is `Memory`.
impl From<AllocError> for OpenError {
    ghost from_gives = { λ _ e. e ≡ OpenMemory };

    fn from(_refused: AllocError) -> OpenError {
        OpenError::Memory
    }
}

/// Why an offer was refused. It was not made then.
#[derive(Clone, Copy, Debug, PartialEq, Eq, Error)]
pub enum RecordError {
    /// The recorder has made all the offers that it may make.
    #[error("the offers of the recorder are spent")]
    OffersSpent,
    /// There is no memory left for the item.
    #[error("out of memory")]
    Memory,
}

impl RecordError {
    /// The number of the error, from 1 on in the order of the variants.
    pub fn code(self) -> u32
        ensures { result ≡ record_code self }
    {
        match self {
            RecordError::OffersSpent => 1,
            RecordError::Memory => 2,
        }
    }
}

/// The error alone, of what was to be recorded and was handed back: it is dropped. So `?` takes it where this is the error.
impl<T: Drop> From<(RecordError, T)> for RecordError {
    ghost from_gives = { λ back e. e ≡ back.0 };

    fn from(back: (RecordError, T)) -> RecordError {
        back.0
    }
}

/// Why the taker is not finished by a call. `Finished` is tried first.
#[derive(Clone, Copy, Debug, PartialEq, Eq, Error)]
pub enum FinishError {
    /// There are fewer recorders than the console has.
    #[error("a recorder is missing")]
    Missing,
    /// It is finished already.
    #[error("the taker is finished")]
    Finished,
}

impl FinishError {
    /// The number of the error, from 1 on in the order of the variants.
    pub fn code(self) -> u32
        ensures { result ≡ finish_code self }
    {
        match self {
            FinishError::Missing => 1,
            FinishError::Finished => 2,
        }
    }
}

/// The error alone, of the recorders that were handed back: they are dropped, and no later call finishes the taker.
impl<T: Drop> From<(FinishError, T)> for FinishError {
    ghost from_gives = { λ back e. e ≡ back.0 };

    fn from(back: (FinishError, T)) -> FinishError {
        back.0
    }
}
