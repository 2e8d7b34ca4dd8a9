//! The list of the tasks that can be warned of, by their ids.
//!
//! After a line the tasks are looked at that it told of, and those that are gone leave the list. No other task becomes one that
//! can be warned of, or ceases to be one.
ghost use Rattle.std.specs.Prelude.{◌≡◌, ◌+◌, ◌==◌, ◌≤◌, ◌<◌, ◌&&◌, ℕ, length, map, nat_eq, not, IfOk, if◌then◌else◌};
ghost use Rattle.std.specs.List.{IsDistinct};
ghost use Rattle.indexmap.specs.IndexSet.{contains, spare};
ghost use Rattle.tk_stream.specs.Applied.{task_kind};
ghost use Rattle.tk_stream.specs.Tables.{task_id, is_among};
ghost use Rattle.tk_client.specs.Candidates as spec;
ghost use Rattle.tk_client.specs.Applying.{stats_id_by};

use crate::candidates::can_warn;
use indexmap::IndexSet;
use std::alloc::{AllocError, Global};
use tk_core::TaskRow;
use tk_ids::TaskId;
use tk_stream::Tables;

// Lists a task, or takes it out of the list, where there is room for it.
fn list(able: &mut IndexSet<u64>, id: u64, is_able: bool)
    requires { 0 < spare able.old }
    ensures listed { (other : ℕ) → contains nat_eq able.new other ≡ (if id == other then is_able else contains nat_eq able.old other) }
    ensures room { spare able.old ≤ spare able.new + 1 }
{
    if is_able {
        able.insert(id).unwrap();
    } else {
        able.swap_remove(&id);
    }
}

// Lists the task with an id, or takes it out of the list, by what the tables show of it.
fn relist_one(able: &mut IndexSet<u64>, tables: &Tables, id: TaskId)
    requires { 0 < spare able.old }
    ensures listed { (other : ℕ) → contains nat_eq able.new other ≡ (if id == other then spec.is_able tables.now.tasks id else contains nat_eq able.old other) }
    ensures room { spare able.old ≤ spare able.new + 1 }
{
    let is_able = match tables.task(id) {
        Some(task) => can_warn(task),
        None => false,
    };
    list(able, id.value(), is_able);
}

/// Lists those of the tasks that were told of that can be warned of, and takes the others out, where there is room for all of them.
pub(crate) fn relist(able: &mut IndexSet<u64>, tables: &Tables, told: &[(TaskId, TaskRow)])
    requires { length told.now ≤ spare able.old }
    ensures { (other : ℕ) → contains nat_eq able.new other
        ≡ (if is_among (map (stats_id_by task_kind) told.now) other then spec.is_able tables.now.tasks other else contains nat_eq able.old other) }
{
    for (id, _) in told {
        relist_one(able, tables, *id);
    }
}

/// Takes the tasks out of the list that leave.
pub(crate) fn unlist(able: &mut IndexSet<u64>, gone: &[u64])
    ensures { (other : ℕ) → contains nat_eq able.new other ≡ (contains nat_eq able.old other && not (is_among gone.now other)) }
{
    for id in gone {
        able.swap_remove(id);
    }
}

/// The places of the tasks with these ids, in the order of the list.
pub(crate) fn places_listed(
    alloc: Global,
    able: &IndexSet<u64>,
    tables: &Tables,
) -> Result<Vec<usize>, AllocError>
    ensures places { IfOk result (λ places. places.items ≡ spec.places_with tables.now.tasks able.now.keys) }
    ensures once { IsDistinct nat_eq able.now.keys }
    ensures distinct { IsDistinct nat_eq (map task_id tables.now.tasks) }
{
    // Whoever counts tables' items learns that no item stands twice.
    tables.task_count();
    let mut places = Vec::with_capacity(alloc, able.len())?;
    for id in able.as_slice() {
        if let Some(place) = tables.tasks.place(*id) {
            places.push(place)?;
        }
    }
    Ok(places)
}

/// The places of the tasks that can be warned of, rising, where the list has their ids.
pub(crate) fn places_of(
    alloc: Global,
    able: &IndexSet<u64>,
    tables: &Tables,
) -> Result<Vec<usize>, AllocError>
    requires { spec.AreAble able.now.keys tables.now.tasks }
    ensures { IfOk result (λ places. places.items ≡ spec.places_of tables.now.tasks) }
{
    let mut places = places_listed(alloc, able, tables)?;
    places.sort_unstable();
    Ok(places)
}
