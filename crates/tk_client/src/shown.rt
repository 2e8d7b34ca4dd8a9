//! The tables that a client shows, to which lines are applied in place.
ghost use Rattle.std.specs.Prelude.{◌≡◌, Ok, IfOk, OnOk, OnErr};
ghost use Rattle.tk_stream.specs.Applied.{without_gone};
ghost use Rattle.tk_stream.specs.Lines.{gone_of};
ghost use Rattle.tk_stream.specs.Tables.{empty_tables};
ghost use Rattle.tk_client.specs.Meaning.{base_of};
ghost use Rattle.tk_client.specs.Taking.{line_applied};
ghost use Rattle.tk_client.specs.Applying.{Answers, spent};
ghost use Rattle.tk_client.specs.Warnings.{warnings_in};

use crate::able::{places_of, relist, unlist};
use crate::candidates::warnings_of_places;
use crate::fault::Fault;
use crate::leaving::GoneIds;
use crate::lints::Lints;
use crate::taking::apply_told;
use crate::warning::Warning;
use indexmap::IndexSet;
use std::alloc::{AllocError, Global};
use std::marker::Model;
use tk_ids::Dropped;
use tk_stream::{Line, Tables};

/// Tables that lines lead to.
#[derive(Drop)]
pub(crate) struct Shown {
    tables: Tables,
    // The ids of the tasks that can be warned of.
    able: IndexSet<u64>,
}

impl Model for Shown {
    ghost use Rattle.std.specs.Prelude.{◌≡◌, true};
    ghost use Rattle.tk_client.specs.Candidates.{AreAble};
    ghost use Rattle.tk_stream.specs.Tables.{TablesView};
    ghost use Rattle.tk_client.specs.Taking.{are_fitting};

    ghost Value = { TablesView };

    ghost view = { λ s. s.tables };

    ghost invariant = { λ s. (are_fitting s.tables ≡ true) × AreAble s.able.keys s.tables.tasks };
}

impl Shown {
    pub(crate) fn new(alloc: Global) -> Result<Shown, AllocError>
        ensures { result ≡ Ok empty_tables }
    {
        let tables = Tables::new(alloc)?;
        Ok(Shown {
            tables,
            able: IndexSet::new(alloc),
        })
    }

    pub(crate) fn tables(&self) -> &Tables
        ensures { result.now ≡ self.now }
    {
        &self.tables
    }

    /// Empties the tables. It takes no memory.
    pub(crate) fn clear(&mut self)
        ensures { self.new ≡ empty_tables }
    {
        self.tables.cut(0, 0, 0, 0);
        self.tables.set_totals(
            Dropped {
                tasks: 0,
                resources: 0,
                ops: 0,
            },
            0,
        );
        self.able.clear();
    }

    // Applies what a line that is no snapshot tells, where these items are to leave then. Room in the list of tasks that can be
    // warned of is made first.
    fn tell(&mut self, alloc: Global, line: &mut Line, leaving: &GoneIds) -> Result<(), Fault>
        requires { leaving.now ≡ gone_of line.old }
        ensures applied { Answers (λ _. without_gone self.new leaving.now) result (line_applied self.old line.old) }
        ensures kept { OnErr result (self.new ≡ self.old) }
        ensures spent { OnOk result (line.new ≡ spent line.old) }
    {
        self.able.reserve(line.task_stats().len())?;
        match apply_told(alloc, &mut self.tables, line, leaving) {
            Ok(()) => {
                relist(&mut self.able, &self.tables, line.task_stats());
                Ok(())
            }
            Err(fault) => Err(fault),
        }
    }

    // Takes items out of the tables.
    fn leave(&mut self, leaving: &GoneIds)
        ensures { self.new ≡ without_gone self.old leaving.now }
    {
        self.tables.remove_gone(
            leaving.tasks.set(),
            leaving.resources.set(),
            leaving.ops.set(),
        );
        unlist(&mut self.able, leaving.tasks.list());
    }

    // Applies a line that is no snapshot.
    fn go_on(&mut self, alloc: Global, line: &mut Line) -> Result<(), Fault>
        ensures applied { Answers (λ _. self.new) result (line_applied self.old line.old) }
        ensures kept { OnErr result (self.new ≡ self.old) }
        ensures spent { OnOk result (line.new ≡ spent line.old) }
    {
        let Some(leaving) = GoneIds::of(alloc, line)? else {
            return Err(Fault::Repeated);
        };
        match self.tell(alloc, line, &leaving) {
            Ok(()) => {
                self.leave(&leaving);
                Ok(())
            }
            Err(fault) => Err(fault),
        }
    }

    /// Applies a line, or leaves the tables as they are. A snapshot stands for itself. The infos of new items leave the line.
    pub(crate) fn apply(&mut self, alloc: Global, line: &mut Line) -> Result<(), Fault>
        ensures applied { Answers (λ _. self.new) result (line_applied (base_of self.old line.old) line.old) }
        ensures kept { OnErr result (self.new ≡ self.old) }
        ensures spent { OnOk result (line.new ≡ spent line.old) }
    {
        if !line.snapshot() {
            return self.go_on(alloc, line);
        }
        let mut fresh = Shown::new(alloc)?;
        match fresh.go_on(alloc, line) {
            Ok(()) => {
                *self = fresh;
                Ok(())
            }
            Err(fault) => Err(fault),
        }
    }

    /// The warnings of the tables. It looks at the tasks alone that can be warned of.
    pub(crate) fn warnings(&self, alloc: Global, lints: &Lints) -> Result<Vec<Warning>, AllocError>
        ensures { IfOk result (λ list. list.items ≡ warnings_in lints.now self.now) }
    {
        let places = places_of(alloc, &self.able, &self.tables)?;
        warnings_of_places(alloc, &self.tables, &places, lints)
    }
}
