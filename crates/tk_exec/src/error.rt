//! Why an executor refuses.
ghost use Rattle.std.specs.Prelude.{◌≡◌};
ghost use Rattle.tk_exec.specs.declared.error.ExecError.TheVariants.{Memory};
ghost use Rattle.tk_exec.specs.Errors.{code_of};

use crate::executor::Executor;
use crate::instrumented::Instrumented;
use crate::work::{Clock, Work};
use std::alloc::AllocError;
use thiserror::Error;

/// Why a call of an executor was refused. A refused call changes nothing.
#[derive(Clone, Copy, Debug, PartialEq, Eq, Error)]
pub enum ExecError {
    /// There is no memory left.
    #[error("out of memory")]
    Memory,
    /// A task of this id is held.
    #[error("a task of this id is held")]
    Repeated,
}

impl ExecError {
    /// The number of the error, from 1 on in the order of the variants.
    pub fn code(self) -> u32
        ensures { result ≡ code_of self }
    {
        match self {
            ExecError::Memory => 1,
            ExecError::Repeated => 2,
        }
    }
}

/// Want of memory is `Memory`.
impl From<AllocError> for ExecError {
    ghost from_gives = { λ _ e. e ≡ Memory };

    fn from(_refused: AllocError) -> ExecError {
        ExecError::Memory
    }
}

/// The error alone, of a task that was handed back: the task is dropped, without an entry.
impl<W: Work> From<(ExecError, Instrumented<W>)> for ExecError {
    ghost from_gives = { λ refused e. e ≡ refused.0 };

    fn from(refused: (ExecError, Instrumented<W>)) -> ExecError {
        refused.0
    }
}

/// The error alone, of an executor that was handed back: it is dropped, and its tasks make no entry.
impl<W: Work> From<(ExecError, Executor<W>)> for ExecError {
    ghost from_gives = { λ refused e. e ≡ refused.0 };

    fn from(refused: (ExecError, Executor<W>)) -> ExecError {
        refused.0
    }
}

/// The error alone, of an executor and a clock that were handed back: they are dropped, and the tasks make no entry.
impl<W: Work, C: Clock + Drop> From<(ExecError, Executor<W>, C)> for ExecError {
    ghost from_gives = { λ refused e. e ≡ refused.0 };

    fn from(refused: (ExecError, Executor<W>, C)) -> ExecError {
        refused.0
    }
}
