//! A diagnosis of a span of a stream.
ghost use Rattle.std.specs.Prelude.{◌≡◌, ◌++◌, ◌∷◌, [], List, IfOk, OnOk};
ghost use Rattle.tk_client.specs.Changes.{Leads};
ghost use Rattle.tk_odd.specs.Inner as inner;
ghost use Rattle.tk_odd.specs.Span as spec;
ghost use Rattle.tk_reading.specs.Shown.{last_shown};
ghost use Rattle.tk_stream.specs.Tables.{TablesView, empty_tables};

use crate::diagnosis::Diagnosis;
use crate::limits::Limits;
use std::alloc::{AllocError, Global};
use tk_client::Change;
use tk_stream::Tables;

/// A diagnosis of a span of a stream, as far as its lines were read: from the last line at or before a moment on.
///
/// It finds what a client finds that attached then. If no line is so early, the span is the whole stream.
#[derive(Drop)]
pub struct Span {
    since: Option<u64>,
    diagnosis: Diagnosis,
}

impl Span {
    /// Of no lines yet, since a moment in nanoseconds. With none the span is the whole stream.
    ///
    /// `AllocError`: there was no memory.
    pub fn new(alloc: Global, limits: Limits, since: Option<u64>) -> Result<Span, AllocError>
        ensures nothing { IfOk result (λ s. inner.FollowsSpan [] s) }
        ensures since { IfOk result (λ s. s.since ≡ since) }
        ensures limits { IfOk result (λ s. s.diagnosis.limits ≡ limits) }
    {
        let diagnosis = Diagnosis::new(alloc, limits)?;
        Ok(Span { since, diagnosis })
    }

    // Whether the tables after a line are at or before the moment.
    fn is_early(&self, tables: &Tables) -> bool
        ensures { result ≡ spec.is_early self.now.since tables.now }
    {
        match self.since {
            Some(since) => tables.now() <= since,
            None => false,
        }
    }

    /// Takes the tables after a line, which changed this in those before it.
    ///
    /// `AllocError`: there was no memory. Of what this then is nothing is known.
    pub fn note(&mut self, tables: &Tables, change: &Change) -> Result<(), AllocError>
        ensures follows { (shown : List TablesView) → Leads (last_shown empty_tables shown) tables.now change.now → inner.FollowsSpan shown self.old
            → OnOk result (inner.FollowsSpan (shown ++ tables.now ∷ []) self.new) }
        ensures since { self.new.since ≡ self.old.since }
        ensures limits { self.new.diagnosis.limits ≡ self.old.diagnosis.limits }
    {
        if self.is_early(tables) {
            return self.diagnosis.begin_with(tables, change);
        }
        self.diagnosis.note(tables, change)
    }

    /// What the steps of the span came to.
    pub fn diagnosis(&self) -> &Diagnosis
        ensures follows { (shown : List TablesView) → inner.FollowsSpan shown self.now → inner.Follows (spec.span_of self.now.since shown) result.now }
        ensures limits { result.now.limits ≡ self.now.diagnosis.limits }
    {
        &self.diagnosis
    }
}
