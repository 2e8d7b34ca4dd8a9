//! A diagnosis watches the lines of a stream, or of a span of it.

use crate::diagnosis::Diagnosis;
use crate::span::Span;
use std::alloc::AllocError;
use tk_client::{Change, Times};
use tk_reading::Observes;
use tk_stream::Tables;

impl Observes for Diagnosis {
    ghost use Rattle.std.specs.Prelude.{◌≡◌};
    ghost use Rattle.tk_odd.specs.Inner.{Follows};
    ghost use Rattle.tk_reading.specs.Shown.{tables_of};

    ghost saw = { λ from seen d. Follows (tables_of seen) d × (d.limits ≡ from.limits) };

    fn line(&mut self, tables: &Tables, _times: &Times, change: &Change) -> Result<(), AllocError> {
        self.note(tables, change)
    }
}

impl Observes for Span {
    ghost use Rattle.std.specs.Prelude.{◌≡◌};
    ghost use Rattle.tk_odd.specs.Inner.{FollowsSpan};
    ghost use Rattle.tk_reading.specs.Shown.{tables_of};

    ghost saw = { λ from seen s. FollowsSpan (tables_of seen) s × (s.since ≡ from.since) × (s.diagnosis.limits ≡ from.diagnosis.limits) };

    fn line(&mut self, tables: &Tables, _times: &Times, change: &Change) -> Result<(), AllocError> {
        self.note(tables, change)
    }
}
