//! The rows of the last line's tasks, so that a line costs what it changes.
//!
//! A task of which a line doesn't tell is as it was. It gains something all the same if it runs or waits. Which tasks do is kept, too.
ghost use Rattle.std.specs.Prelude.{◌≡◌, ◌||◌, ℕ, IfOk, OnOk, None, Some, false, if◌then◌else◌, map, nat_eq};
ghost use Rattle.tk_client.specs.Candidates.{places_by};
ghost use Rattle.tk_client.specs.Changes.{Leads, is_one_of, left_id};
ghost use Rattle.tk_stream.specs.Tables.{TablesView, empty_tables, is_among};
ghost use Rattle.tk_odd.specs.Keeping as spec;
ghost use Rattle.tk_odd.specs.Members as members;

use crate::gain::{Gain, fresh};
use crate::kept::Kept;
use indexmap::{IndexMap, IndexSet};
use std::alloc::{AllocError, Global};
use tk_client::{Change, LeftTask, places_among};
use tk_core::TaskRow;
use tk_ids::TaskId;
use tk_stream::{Tables, Task};

/// The rows of the last line's tasks, and which of these tasks run or wait.
#[derive(Drop)]
pub(crate) struct Rows {
    moment: u64,
    rows: IndexMap<u64, Kept>,
    lasting: IndexSet<u64>,
}

/// Whether a task runs or waits.
fn lasts(row: &TaskRow) -> bool
    ensures { result ≡ spec.lasts row.now }
{
    row.polling || row.scheduled
}

// Lists a task, or takes it out of the list.
fn list(ids: &mut IndexSet<u64>, id: u64, is_in: bool) -> Result<(), AllocError>
    ensures { OnOk result ((other : ℕ) → is_among ids.new.keys other ≡ (if nat_eq id other then is_in else is_among ids.old.keys other)) }
{
    if is_in {
        ids.insert(id)?;
    } else {
        ids.swap_remove(&id);
    }
    Ok(())
}

// Lists these tasks besides.
fn add_told(ids: &mut IndexSet<u64>, told: &[TaskId]) -> Result<(), AllocError>
    ensures { OnOk result ((other : ℕ) → is_among ids.new.keys other ≡ (is_among told.now other || is_among ids.old.keys other)) }
{
    for id in told {
        list(ids, id.value(), true)?;
    }
    Ok(())
}

fn add_lasting(ids: &mut IndexSet<u64>, lasting: &[u64]) -> Result<(), AllocError>
    ensures { OnOk result ((other : ℕ) → is_among ids.new.keys other ≡ (is_among lasting.now other || is_among ids.old.keys other)) }
{
    for id in lasting {
        list(ids, *id, true)?;
    }
    Ok(())
}

impl Rows {
    /// Of no line yet.
    pub(crate) fn new(alloc: Global) -> Rows
        ensures { spec.Keeps empty_tables result }
    {
        Rows {
            moment: 0,
            rows: IndexMap::new(alloc),
            lasting: IndexSet::new(alloc),
        }
    }

    // ---- one task

    fn forget(&mut self, id: TaskId)
        ensures rows { (other : ℕ) → spec.kept_row self.new.rows.entries other ≡ (if nat_eq id other then None else spec.kept_row self.old.rows.entries other) }
        ensures lasting { (other : ℕ) → is_among self.new.lasting.keys other ≡ (if nat_eq id other then false else is_among self.old.lasting.keys other) }
    {
        self.rows.swap_remove(&id.value());
        self.lasting.swap_remove(&id.value());
    }

    fn keep(&mut self, id: TaskId, row: TaskRow) -> Result<(), AllocError>
        ensures rows { OnOk result ((other : ℕ) → spec.kept_row self.new.rows.entries other ≡ (if nat_eq id other then Some row else spec.kept_row self.old.rows.entries other)) }
        ensures lasting { OnOk result ((other : ℕ) → is_among self.new.lasting.keys other ≡ (if nat_eq id other then spec.lasts row else is_among self.old.lasting.keys other)) }
    {
        self.rows.insert(id.value(), Kept { row })?;
        list(&mut self.lasting, id.value(), lasts(&row))
    }

    // Keeps what tables have of a task.
    fn keep_shown(&mut self, tables: &Tables, id: TaskId) -> Result<(), AllocError>
        ensures rows { OnOk result ((other : ℕ) → spec.kept_row self.new.rows.entries other ≡ (if nat_eq id other then spec.row_in tables.now id else spec.kept_row self.old.rows.entries other)) }
        ensures lasting { OnOk result ((other : ℕ) → is_among self.new.lasting.keys other ≡ (if nat_eq id other then spec.lasts_in tables.now id else is_among self.old.lasting.keys other)) }
    {
        match tables.task(id) {
            Some(task) => self.keep(id, task.row),
            None => {
                self.forget(id);
                Ok(())
            }
        }
    }

    // ---- a line

    fn forget_all(&mut self, left: &[LeftTask])
        ensures rows { (other : ℕ) → spec.kept_row self.new.rows.entries other ≡ (if is_among (map left_id left.now) other then None else spec.kept_row self.old.rows.entries other) }
        ensures lasting { (other : ℕ) → is_among self.new.lasting.keys other ≡ (if is_among (map left_id left.now) other then false else is_among self.old.lasting.keys other) }
    {
        for one in left {
            self.forget(one.task.info.id);
        }
    }

    fn keep_all(&mut self, tables: &Tables, told: &[TaskId]) -> Result<(), AllocError>
        ensures rows { OnOk result ((other : ℕ) → spec.kept_row self.new.rows.entries other
            ≡ (if is_among told.now other then spec.row_in tables.now other else spec.kept_row self.old.rows.entries other)) }
        ensures lasting { OnOk result ((other : ℕ) → is_among self.new.lasting.keys other
            ≡ (if is_among told.now other then spec.lasts_in tables.now other else is_among self.old.lasting.keys other)) }
    {
        for id in told {
            self.keep_shown(tables, *id)?;
        }
        Ok(())
    }

    /// Keeps what tables have after a line, which changed this in those before it.
    pub(crate) fn follow(&mut self, tables: &Tables, change: &Change) -> Result<(), AllocError>
        ensures { (before : TablesView) → Leads before tables.now change.now → spec.Keeps before self.old → OnOk result (spec.Keeps tables.now self.new) }
    {
        self.forget_all(change.left());
        self.keep_all(tables, change.told())?;
        self.moment = tables.now();
        Ok(())
    }

    // ---- what is looked at

    /// The places of the tasks of the line's tables that run or wait, rising.
    pub(crate) fn lasting_places(
        &self,
        alloc: Global,
        tables: &Tables,
    ) -> Result<Vec<usize>, AllocError>
        ensures { IfOk result (λ places. places.items ≡ places_by (is_one_of self.now.lasting.keys) 0 tables.now.tasks) }
    {
        places_among(alloc, tables, &self.lasting)
    }

    /// The places of the tasks that may have gained something with a line which tells of these, rising.
    pub(crate) fn places_after(
        &self,
        alloc: Global,
        tables: &Tables,
        told: &[TaskId],
    ) -> Result<Vec<usize>, AllocError>
        ensures { IfOk result (λ places. places.items ≡ places_by (spec.may_gain told.now self.now.lasting.keys) 0 tables.now.tasks) }
    {
        let mut ids = IndexSet::new(alloc);
        add_lasting(&mut ids, self.lasting.as_slice())?;
        add_told(&mut ids, told)?;
        let places = places_among(alloc, tables, &ids)?;
        Ok(places)
    }

    /// What a task of the next line's tables gained since.
    pub(crate) fn gain_of(&self, tables: &Tables, task: &Task) -> Gain
        ensures { (before : TablesView) → spec.Keeps before self.now → result ≡ members.gain_of before tables.now task.now }
    {
        let now = tables.now();
        match self.rows.get(&task.info.id.value()) {
            Some(old) => Gain::since(self.moment, now, &old.row, &task.row),
            None => Gain::since(self.moment, now, &fresh(&task.row), &task.row),
        }
    }
}
