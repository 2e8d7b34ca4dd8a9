//! What watches the lines of a stream.
ghost use Rattle.std.specs.Prelude.{⊤};

use std::alloc::AllocError;
use tk_client::{Change, Times};
use tk_stream::Tables;

/// What watches the lines of a stream, as a history of its tasks does.
pub trait Observes {
    ghost use Rattle.std.specs.Prelude.{◌≤◌, ◌^◌, ◌++◌, ◌∷◌, [], List, OnOk, length};
    ghost use Rattle.tk_client.specs.Changes.{IsChange, Timed, untimed};
    ghost use Rattle.tk_reading.specs.Shown.{last_timed};

    // Holds of what it was before the first line, of the tables and histograms after each line so far, and of what it is after them. So what
    // stays as it was may be said of what it was.
    ghost saw: { Self → List Timed → Self → Type 0 };

    /// Takes the tables after a line, the histograms beside them, and what the line changed in those of the line before. `AllocError`: there was no
    /// memory, and of what it then is nothing is known.
    fn line(&mut self, tables: &Tables, times: &Times, change: &Change) -> Result<(), AllocError>
        ensures { (from : Self) (seen : List Timed) → length seen ≤ 2 ^ 62
            → IsChange (last_timed untimed seen) (tables.now, times.now) change.now → saw from seen self.old
            → OnOk result (saw from (seen ++ (tables.now, times.now) ∷ []) self.new) };
}

/// Watches nothing.
#[derive(Clone, Copy, Debug, PartialEq, Eq)]
pub struct Unwatched;

impl Observes for Unwatched {
    ghost saw = { λ from seen it. ⊤ };

    fn line(
        &mut self,
        _tables: &Tables,
        _times: &Times,
        _change: &Change,
    ) -> Result<(), AllocError> {
        Ok(())
    }
}

/// Two that watch the same lines, the first before the second.
#[derive(Drop)]
pub struct Both<A: Drop, B: Drop> {
    /// Sees a line first.
    pub first: A,
    /// Sees it then.
    pub second: B,
}

impl<A: Observes + Drop, B: Observes + Drop> Observes for Both<A, B> {
    ghost saw = { λ from seen both. A.saw from.first seen both.first × B.saw from.second seen both.second };

    fn line(&mut self, tables: &Tables, times: &Times, change: &Change) -> Result<(), AllocError> {
        self.first.line(tables, times, change)?;
        self.second.line(tables, times, change)
    }
}
