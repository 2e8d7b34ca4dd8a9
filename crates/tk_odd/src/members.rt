//! Who ran or waited in a step, while its lines are read.
ghost use Rattle.std.specs.Prelude.{◌≡◌, ◌≤◌, ◌^◌, IfOk, OnOk, fold, length, slice_get};
ghost use Rattle.std.specs.Option.{option_map_or};
ghost use Rattle.tk_client.specs.Changes.{Leads};
ghost use Rattle.tk_stream.specs.Tables.{TablesView};
ghost use Rattle.tk_odd.specs.Inner as inner;
ghost use Rattle.tk_odd.specs.Keeping.{Keeps};
ghost use Rattle.tk_odd.specs.Members as spec;

use crate::gain::Gain;
use crate::moved::Moved;
use crate::place::place_of;
use crate::rows::Rows;
use indexmap::IndexMap;
use std::alloc::{AllocError, Global};
use tk_client::{Change, is_spawn};
use tk_stream::{Tables, Task};

// Of a step no more tasks are looked at.
const MOST: usize = 2_147_483_648;

/// A task that ran or waited in a step.
#[derive(Drop)]
pub(crate) struct Member {
    /// Its place.
    pub place: Vec<u8>,
    /// What it did.
    pub moved: Moved,
}

/// Who ran or waited in a step, by their ids.
pub(crate) type Members = IndexMap<u64, Member>;

// Adds what a task gained.
fn add_gain(members: &mut Members, alloc: Global, task: &Task, gain: Gain) -> Result<(), AllocError>
    ensures { OnOk result (inner.shown members.new.entries ≡ spec.with_gain task.now gain (inner.shown members.old.entries)) }
{
    let id = task.info.id.value();
    let sum = match members.get(&id) {
        Some(there) => there.moved.gain.with(gain),
        None => gain,
    };
    let member = Member {
        place: place_of(alloc, &task.info)?,
        moved: Moved {
            task: task.info.id,
            row: task.row,
            gain: sum,
        },
    };
    members.insert(id, member)?;
    Ok(())
}

// Adds what the task at a place of tables gained since the line before.
fn add_task_at(
    members: &mut Members,
    alloc: Global,
    rows: &Rows,
    tables: &Tables,
    place: usize,
) -> Result<(), AllocError>
    ensures { (before : TablesView) → Keeps before rows.now → OnOk result (inner.shown members.new.entries
        ≡ option_map_or (spec.with_task before tables.now (inner.shown members.old.entries)) (slice_get tables.now.tasks place) (inner.shown members.old.entries)) }
{
    let Some(task) = tables.task_at(place) else {
        return Ok(());
    };
    let gain = rows.gain_of(tables, task);
    if is_spawn(task.info.kind) && gain.is_some() {
        add_gain(members, alloc, task, gain)
    } else {
        Ok(())
    }
}

// Adds what the tasks at these places gained since the line before.
fn add_places(
    members: &mut Members,
    alloc: Global,
    rows: &Rows,
    tables: &Tables,
    places: &[usize],
) -> Result<(), AllocError>
    ensures { (before : TablesView) → Keeps before rows.now → OnOk result (inner.shown members.new.entries
        ≡ fold (λ shown place. option_map_or (spec.with_task before tables.now shown) (slice_get tables.now.tasks place) shown) (inner.shown members.old.entries) places.now) }
{
    for place in places {
        add_task_at(members, alloc, rows, tables, *place)?;
    }
    Ok(())
}

/// Adds what the tasks of tables gained since the line before: those of which the line tells, and those that ran or waited.
pub(crate) fn add_line(
    members: &mut Members,
    alloc: Global,
    rows: &Rows,
    tables: &Tables,
    change: &Change,
) -> Result<(), AllocError>
    ensures { (before : TablesView) → Leads before tables.now change.now → Keeps before rows.now
        → OnOk result (inner.shown members.new.entries ≡ spec.members_after before tables.now (inner.shown members.old.entries)) }
{
    // Whoever counts tables' tasks learns that none stands twice.
    tables.task_count();
    let places = rows.places_after(alloc, tables, change.told())?;
    add_places(members, alloc, rows, tables, &places)
}

/// What those did that are looked at.
pub(crate) fn moved_of(alloc: Global, members: &Members) -> Result<Vec<Moved>, AllocError>
    ensures few { IfOk result (λ list. length list.items ≤ 2 ^ 31) }
    ensures moved { IfOk result (λ list. list.items ≡ spec.moved_of (inner.shown members.now.entries)) }
{
    let mut list = Vec::new(alloc);
    for place in 0..members.len().min(MOST) {
        if let Some((_, member)) = members.get_index(place) {
            list.push(member.moved)?;
        }
    }
    Ok(list)
}
