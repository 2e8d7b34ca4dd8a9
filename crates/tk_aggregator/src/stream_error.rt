//! Why an aggregator did not go on.
ghost use Rattle.std.specs.Prelude.{◌≡◌};
ghost use Rattle.tk_aggregator.specs.declared.stream_error.StreamError.TheVariants.{Memory};
ghost use Rattle.tk_aggregator.specs.StreamErrors.{code_of};

use std::alloc::AllocError;
use thiserror::Error;

/// Why an aggregator took no event in, or wrote no line.
///
/// Nothing was written and nothing has changed, but for `WriteFault`, and for a `Memory` of `collect`, which keeps what was
/// taken in before.
#[derive(Clone, Copy, Debug, PartialEq, Eq, Error)]
pub enum StreamError {
    /// There is no memory left for an event or a line.
    #[error("out of memory")]
    Memory,
    /// The writer gave an error or took nothing, and a proper front of the line went out. The stream is broken.
    #[error("the line was cut off")]
    WriteFault,
    /// A line was cut off before, and only a snapshot goes on.
    #[error("the stream is broken")]
    Broken,
    /// The moment is below the last whole line's.
    #[error("the clock ran backwards")]
    Clock,
    /// The last line had the number 2^63, the greatest.
    #[error("the line numbers are spent")]
    NumbersSpent,
}

impl StreamError {
    /// The number of the error, from 1 on in the order of the variants.
    pub fn code(self) -> u32
        ensures { result ≡ code_of self }
    {
        match self {
            StreamError::Memory => 1,
            StreamError::WriteFault => 2,
            StreamError::Broken => 3,
            StreamError::Clock => 4,
            StreamError::NumbersSpent => 5,
        }
    }
}

/// Want of memory is `Memory`.
impl From<AllocError> for StreamError {
    ghost from_gives = { λ _ e. e ≡ Memory };

    fn from(_refused: AllocError) -> StreamError {
        StreamError::Memory
    }
}
