//! What follows the lines of a stream.

use crate::leavers::Leavers;
use std::alloc::AllocError;
use tk_client::{Change, Times};
use tk_odd::Diagnosis;
use tk_reading::Observes;
use tk_stream::Tables;

/// What follows the lines of a stream: what leaves its tables, and what is odd.
#[derive(Drop)]
pub(crate) struct Follower {
    pub leavers: Leavers,
    pub diagnosis: Diagnosis,
}

impl Observes for Follower {
    ghost use Rattle.tk_metrics.specs.Following.{saw_by};

    ghost saw = { λ from seen f. saw_by from.leavers.by from.diagnosis.limits seen f };

    fn line(&mut self, tables: &Tables, times: &Times, change: &Change) -> Result<(), AllocError> {
        self.leavers.note(tables, times, change)?;
        self.diagnosis.note(tables, change)
    }
}
