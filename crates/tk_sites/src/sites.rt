//! The places of a stream, line by line.

use crate::adding::{add_came, add_left, add_there, add_until, add_warnings};
use crate::sums::{Sums, came};
use std::alloc::{AllocError, Global};
use tk_client::{AnyWarning, Change, Times};
use tk_reading::Observes;
use tk_series::Limited;
use tk_stream::Tables;

/// How many places stand by themselves.
pub(crate) const ROOM: usize = 4096;

/// What came to a stream's tables and left them so far, by place.
#[derive(Drop)]
pub struct Sites {
    alloc: Global,
    changes: Limited<Sums>,
}

impl Sites {
    ghost use Rattle.std.specs.Prelude.{◌≡◌, ◌++◌, ◌∷◌, [], List, OnOk, IfOk};
    ghost use Rattle.tk_stream.specs.Tables.{TablesView, empty_tables};
    ghost use Rattle.tk_client.specs.Changes.{Leads};
    ghost use Rattle.tk_reading.specs.Shown.{last_shown};
    ghost use Rattle.tk_sites.specs.Inner.{Follows};
    ghost use Rattle.tk_sites.specs.Sites.{sites_of, sites_until};

    /// Of no lines yet.
    pub fn new(alloc: Global) -> Sites
        ensures { Follows [] result }
    {
        Sites {
            alloc,
            changes: Limited::new(alloc, ROOM),
        }
    }

    /// Takes the tables after a line, which changed this in those before it.
    pub fn note(&mut self, tables: &Tables, change: &Change) -> Result<(), AllocError>
        ensures { (shown : List TablesView) → Leads (last_shown empty_tables shown) tables.now change.now → Follows shown self.old
            → OnOk result (Follows (shown ++ tables.now ∷ []) self.new) }
    {
        // Whoever counts tables' tasks learns that none stands twice.
        tables.task_count();
        let one = came();
        add_came(&mut self.changes, self.alloc, tables, change.came(), one)?;
        add_left(&mut self.changes, self.alloc, change.left())?;
        Ok(())
    }

    /// The places after the last line, which has led to these tables, of whose tasks these are the warnings: in the order in which a first task of
    /// each came. `AllocError`: there was no memory, and what watches the lines is as it was.
    pub fn sums(
        &self,
        tables: &Tables,
        warnings: &[AnyWarning],
    ) -> Result<Limited<Sums>, AllocError>
        ensures { (shown : List TablesView) → Follows shown self.now
            → IfOk result (λ sites. sites ≡ sites_of shown tables.now warnings.now) }
    {
        let mut sites = self.changes.copy()?;
        add_there(&mut sites, self.alloc, tables)?;
        add_warnings(&mut sites, self.alloc, tables, warnings)?;
        Ok(sites)
    }

    /// The same, with what lasts at the moment of these tables: polls that run, and waiting that goes on. Nobody is warned of.
    pub fn sums_until(&self, tables: &Tables) -> Result<Limited<Sums>, AllocError>
        ensures { (shown : List TablesView) → Follows shown self.now
            → IfOk result (λ sites. sites ≡ sites_until shown tables.now) }
    {
        let mut sites = self.changes.copy()?;
        add_until(&mut sites, self.alloc, tables)?;
        Ok(sites)
    }
}

impl Observes for Sites {
    ghost use Rattle.tk_reading.specs.Shown.{tables_of};
    ghost use Rattle.tk_sites.specs.Inner.{Follows};

    ghost saw = { λ from seen sites. Follows (tables_of seen) sites };

    fn line(&mut self, tables: &Tables, _times: &Times, change: &Change) -> Result<(), AllocError> {
        self.note(tables, change)
    }
}
