//! Who waits for a poll at the begin of a step.
ghost use Rattle.std.specs.Prelude.{◌≡◌, [], IfOk, OnOk, fold, slice_get};
ghost use Rattle.std.specs.Option.{option_map_or};
ghost use Rattle.tk_odd.specs.Keeping as keeping;
ghost use Rattle.tk_odd.specs.Steps as steps;
ghost use Rattle.tk_odd.specs.Waiters as spec;

use crate::gain::waits;
use crate::kept::Kept;
use crate::rows::Rows;
use indexmap::IndexMap;
use std::alloc::{AllocError, Global};
use std::marker::Model;
use tk_ids::TaskId;
use tk_stream::Tables;

/// The tasks that wait for a poll at a moment, each with its row, by their ids.
#[derive(Drop)]
pub(crate) struct Waiters {
    moment: u64,
    rows: IndexMap<u64, Kept>,
}

impl Model for Waiters {
    ghost use Rattle.tk_odd.specs.Keeping.{plain_rows};
    ghost use Rattle.tk_odd.specs.Waiters.{WaitersView};

    ghost Value = { WaitersView };

    ghost view = { λ w. record { moment = w.moment; rows = plain_rows w.rows.entries } };
}

// Adds the task at a place, if it waits.
fn add_waiter_at(
    rows: &mut IndexMap<u64, Kept>,
    tables: &Tables,
    place: usize,
) -> Result<(), AllocError>
    ensures { OnOk result (rows.new.entries ≡ option_map_or (keeping.with_waiter rows.old.entries) (slice_get tables.now.tasks place) rows.old.entries) }
{
    let Some(task) = tables.task_at(place) else {
        return Ok(());
    };
    if waits(&task.row) {
        rows.insert(task.info.id.value(), Kept { row: task.row })?;
    }
    Ok(())
}

// The rows of those who wait, of the tasks at these places.
fn waiting_at(
    alloc: Global,
    tables: &Tables,
    places: &[usize],
) -> Result<IndexMap<u64, Kept>, AllocError>
    ensures { IfOk result (λ rows. rows.entries
        ≡ fold (λ rows place. option_map_or (keeping.with_waiter rows) (slice_get tables.now.tasks place) rows) [] places.now) }
{
    let mut rows = IndexMap::new(alloc);
    for place in places {
        add_waiter_at(&mut rows, tables, *place)?;
    }
    Ok(rows)
}

impl Waiters {
    /// Nobody, before the first step.
    pub(crate) fn none(alloc: Global) -> Waiters
        ensures { result ≡ spec.no_waiters }
    {
        Waiters {
            moment: 0,
            rows: IndexMap::new(alloc),
        }
    }

    /// Those of tables, whose rows are kept.
    pub(crate) fn of(alloc: Global, rows: &Rows, tables: &Tables) -> Result<Waiters, AllocError>
        ensures { keeping.Keeps tables.now rows.now → IfOk result (λ w. w ≡ spec.waiters_of tables.now) }
    {
        // Whoever counts tables' tasks learns that none stands twice.
        tables.task_count();
        let places = rows.lasting_places(alloc, tables)?;
        let rows = waiting_at(alloc, tables, &places)?;
        Ok(Waiters {
            moment: tables.now(),
            rows,
        })
    }

    /// The moment.
    pub(crate) fn moment(&self) -> u64
        ensures { result ≡ self.now.moment }
    {
        self.moment
    }

    /// Whether a task is one of them, and had waited for so long.
    pub(crate) fn waited_for(&self, wait: u64, task: TaskId) -> bool
        ensures { result ≡ steps.waited_for self.now wait task }
    {
        match self.rows.get(&task.value()) {
            Some(kept) => wait <= kept.row.waits_for(self.moment),
            None => false,
        }
    }
}
