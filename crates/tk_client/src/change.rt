//! What a line changes in tables, and in the histograms beside them.
//!
//! It is taken from the line and from what stands before it, so that it is there before the tables have changed.
ghost use Rattle.std.specs.Prelude.{◌≡◌, ◌++◌, ◌∷◌, [], ◌||◌, if◌then◌else◌, ℕ, IfOk, OnOk, filter, flat_map, map, nat_eq, option_map, slice_get, false};
ghost use Rattle.std.specs.List.{IsDistinct};
ghost use Rattle.std.specs.Option.{option_map_or};
ghost use Rattle.tk_stream.specs.Tables.{is_among, item_with};
ghost use Rattle.tk_stream.specs.Times.{times_id};
ghost use Rattle.tk_client.specs.Candidates.{places_by};
ghost use Rattle.tk_client.specs.Changes as changes;
ghost use Rattle.tk_client.specs.Changing as spec;
ghost use Rattle.tk_client.specs.Taking.{new_id};

use crate::able::places_listed;
use crate::times::{Times, new_ids};
use indexmap::IndexSet;
use std::alloc::{AllocError, Global};
use std::marker::Model;
use tk_ids::{TaskId, TaskInfo};
use tk_stream::{Line, PollTimes, Tables, Task};

/// A task that has left the tables, as it was last shown.
#[derive(Drop)]
pub struct LeftTask {
    /// What stayed of it, and its last row.
    pub task: Task,
    /// Its last histogram, where it had one.
    pub times: Option<PollTimes>,
}

/// What a line changed in a client's tables, and in the histograms beside them.
///
/// `specs/Changes.antt` says it of what stood before the line and of what stands after it.
#[derive(Drop)]
pub struct Change {
    came: Vec<TaskId>,
    told: IndexSet<TaskId>,
    left: Vec<LeftTask>,
    anew: bool,
}

impl Model for Change {
    ghost use Rattle.tk_client.specs.Changes.{ChangeView};

    ghost Value = { ChangeView };

    ghost view = { λ c. record { came = c.came.items; told = c.told.keys; left = c.left.items; anew = c.anew } };
}

impl Change {
    /// The tasks that came: those that are in the tables now and weren't before, in the order of the tables.
    pub fn came(&self) -> &[TaskId]
        ensures { result.now ≡ self.now.came }
    {
        self.came.as_slice()
    }

    /// The tasks that the line told of, the new ones among them, each once: all others have the infos, rows and histograms that they had. At a
    /// snapshot these are all tasks.
    pub fn told(&self) -> &[TaskId]
        ensures { result.now ≡ self.now.told }
    {
        self.told.as_slice()
    }

    /// The tasks that left, each as it was last shown, in the order of the tables before the line.
    pub fn left(&self) -> &[LeftTask]
        ensures { result.now ≡ self.now.left }
    {
        self.left.as_slice()
    }

    /// Whether the line was a snapshot, so that all tables stand anew: a task that stayed may stand at another place then, or have another info.
    pub fn is_anew(&self) -> bool
        ensures { result ≡ self.now.anew }
    {
        self.anew
    }
}

// ---- which tasks

// Adds a task that the tables haven't.
fn add_came(ids: &mut Vec<TaskId>, tables: &Tables, id: TaskId) -> Result<(), AllocError>
    ensures { OnOk result (ids.new.items ≡ if spec.is_away tables.now id then ids.old.items ++ id ∷ [] else ids.old.items) }
{
    if tables.task(id).is_some() {
        return Ok(());
    }
    ids.push(id)?;
    Ok(())
}

// The new tasks of a line that the tables haven't.
fn came_by(alloc: Global, tables: &Tables, infos: &[TaskInfo]) -> Result<Vec<TaskId>, AllocError>
    ensures { IfOk result (λ ids. ids.items ≡ filter (spec.is_away tables.now) (map new_id infos.now)) }
{
    let mut ids = Vec::new(alloc);
    for info in infos {
        add_came(&mut ids, tables, info.id)?;
    }
    Ok(ids)
}

fn add_told(ids: &mut IndexSet<TaskId>, id: TaskId) -> Result<(), AllocError>
    ensures told { OnOk result ((other : ℕ) → is_among ids.new.keys other ≡ (is_among ids.old.keys other || nat_eq other id)) }
    ensures once { OnOk result (IsDistinct nat_eq ids.new.keys) }
{
    ids.insert(id)?;
    Ok(())
}

// The tasks that a line tells of.
fn told_by(alloc: Global, line: &Line) -> Result<IndexSet<TaskId>, AllocError>
    ensures told { IfOk result (λ ids. (id : ℕ) → is_among ids.keys id ≡ is_among (spec.told_by line.now) id) }
    ensures once { IfOk result (λ ids. IsDistinct nat_eq ids.keys) }
{
    let mut ids = IndexSet::with_capacity(alloc, line.task_stats().len())?;
    for (task, _) in line.task_stats() {
        add_told(&mut ids, *task)?;
    }
    for (timed, _) in line.task_times() {
        add_told(&mut ids, *timed)?;
    }
    Ok(ids)
}

fn id_set(alloc: Global, gone: &[TaskId]) -> Result<IndexSet<u64>, AllocError>
    ensures { IfOk result (λ ids. (id : ℕ) → is_among ids.keys id ≡ is_among gone.now id) }
{
    let mut ids = IndexSet::with_capacity(alloc, gone.len())?;
    for id in gone {
        ids.insert(id.value())?;
    }
    Ok(ids)
}

/// The places of the tasks with these ids in the tables, rising, at the cost of the ids alone. An id of no task has none. `AllocError`: there was no memory.
pub fn places_among(
    alloc: Global,
    tables: &Tables,
    ids: &IndexSet<u64>,
) -> Result<Vec<usize>, AllocError>
    ensures { IfOk result (λ places. places.items ≡ places_by (changes.is_one_of ids.now.keys) 0 tables.now.tasks) }
{
    let mut places = places_listed(alloc, ids, tables)?;
    places.sort_unstable();
    Ok(places)
}

// The places of the tasks that are gone, rising.
fn places_gone(alloc: Global, tables: &Tables, gone: &[TaskId]) -> Result<Vec<usize>, AllocError>
    ensures { IfOk result (λ places. places.items ≡ places_by (changes.is_one_of gone.now) 0 tables.now.tasks) }
{
    let ids = id_set(alloc, gone)?;
    let places = places_among(alloc, tables, &ids)?;
    Ok(places)
}

// Whether the task at a place is none of these.
fn is_beside(tables: &Tables, these: &IndexSet<u64>, place: usize) -> bool
    ensures { result ≡ option_map_or (spec.is_beside these.now.keys) (slice_get tables.now.tasks place) false }
{
    match tables.task_at(place) {
        Some(task) => !these.contains(&task.info.id.value()),
        None => false,
    }
}

// Adds the place of a task that is none of these.
fn add_place(
    places: &mut Vec<usize>,
    tables: &Tables,
    these: &IndexSet<u64>,
    place: usize,
) -> Result<(), AllocError>
    ensures { OnOk result (places.new.items
        ≡ if option_map_or (spec.is_beside these.now.keys) (slice_get tables.now.tasks place) false then places.old.items ++ place ∷ [] else places.old.items) }
{
    if !is_beside(tables, these, place) {
        return Ok(());
    }
    places.push(place)?;
    Ok(())
}

// The places of the tasks that are none of these, rising.
fn places_without(
    alloc: Global,
    tables: &Tables,
    these: &IndexSet<u64>,
) -> Result<Vec<usize>, AllocError>
    ensures { IfOk result (λ places. places.items ≡ places_by (spec.is_beside these.now.keys) 0 tables.now.tasks) }
{
    let mut places = Vec::new(alloc);
    for place in 0..tables.task_count() {
        add_place(&mut places, tables, these, place)?;
    }
    Ok(places)
}

// The places of the tasks that aren't new in a snapshot, rising.
fn places_beside(
    alloc: Global,
    tables: &Tables,
    infos: &[TaskInfo],
) -> Result<Vec<usize>, AllocError>
    ensures { IfOk result (λ places. places.items ≡ places_by (spec.is_beside (map new_id infos.now)) 0 tables.now.tasks) }
{
    let these = new_ids(alloc, infos)?;
    let places = places_without(alloc, tables, &these)?;
    Ok(places)
}

// The places of the tasks that a line takes out of the tables, rising.
fn places_left(alloc: Global, tables: &Tables, line: &Line) -> Result<Vec<usize>, AllocError>
    ensures { IfOk result (λ places. places.items ≡ places_by (spec.leaves_by line.now) 0 tables.now.tasks) }
{
    if line.snapshot() {
        places_beside(alloc, tables, line.new_tasks())
    } else {
        places_gone(alloc, tables, line.gone_tasks())
    }
}

// ---- as they were last shown

fn times_of(times: &Times, id: TaskId) -> Option<PollTimes>
    ensures { result ≡ option_map (λ x. x.1) (item_with times_id id times.now) }
{
    match times.with_id(id.value()) {
        Some((_, own)) => Some(*own),
        None => None,
    }
}

fn left_as(task: &Task, times: &Times) -> Result<LeftTask, AllocError>
    ensures { IfOk result (λ left. left ≡ changes.left_as times.now task.now) }
{
    let own = times_of(times, task.info.id);
    Ok(LeftTask {
        task: task.clone()?,
        times: own,
    })
}

// Adds the task at a place.
fn add_left(
    left: &mut Vec<LeftTask>,
    tables: &Tables,
    times: &Times,
    place: usize,
) -> Result<(), AllocError>
    ensures { OnOk result (left.new.items ≡ option_map_or (λ t. left.old.items ++ changes.left_as times.now t ∷ []) (slice_get tables.now.tasks place) left.old.items) }
{
    let Some(task) = tables.task_at(place) else {
        return Ok(());
    };
    left.push(left_as(task, times)?)?;
    Ok(())
}

// The tasks at these places.
fn left_of(
    alloc: Global,
    tables: &Tables,
    times: &Times,
    places: &[usize],
) -> Result<Vec<LeftTask>, AllocError>
    ensures { IfOk result (λ left. left.items ≡ flat_map (spec.left_at times.now tables.now.tasks) places.now) }
{
    let mut left = Vec::with_capacity(alloc, places.len())?;
    for place in places {
        add_left(&mut left, tables, times, *place)?;
    }
    Ok(left)
}

// The tasks that a line takes out of the tables.
fn left_by(
    alloc: Global,
    tables: &Tables,
    times: &Times,
    line: &Line,
) -> Result<Vec<LeftTask>, AllocError>
    ensures { IfOk result (λ left. left.items ≡ map (changes.left_as times.now) (filter (spec.leaves_by line.now) tables.now.tasks)) }
{
    let places = places_left(alloc, tables, line)?;
    let left = left_of(alloc, tables, times, &places)?;
    Ok(left)
}

// ---- what is noted

/// What is noted of a line before it is applied.
pub(crate) trait Notes: Drop {
    ghost use Rattle.std.specs.Prelude.{List, IfOk};
    ghost use Rattle.tk_stream.specs.Lines.{LineView};
    ghost use Rattle.tk_stream.specs.Tables.{TablesView};
    ghost use Rattle.tk_stream.specs.Times.{TaskTimes};

    // Holds of the tables and the histograms that a line is applied to, of the line, and of what is noted.
    ghost says: { TablesView → List TaskTimes → LineView → Self → Type 0 };

    fn of(alloc: Global, tables: &Tables, times: &Times, line: &Line) -> Result<Self, AllocError>
        ensures { IfOk result (λ note. says tables.now times.now line.now note) };
}

/// Nothing, which costs nothing.
#[derive(Clone, Copy)]
pub(crate) struct Unnoted;

impl Notes for Unnoted {
    ghost use Rattle.std.specs.Prelude.{⊤};

    ghost says = { λ tables times line note. ⊤ };

    fn of(
        _alloc: Global,
        _tables: &Tables,
        _times: &Times,
        _line: &Line,
    ) -> Result<Unnoted, AllocError> {
        Ok(Unnoted)
    }
}

impl Notes for Change {
    ghost use Rattle.tk_client.specs.Changing.{ChangedBy};

    ghost says = { ChangedBy };

    fn of(
        alloc: Global,
        tables: &Tables,
        times: &Times,
        line: &Line,
    ) -> Result<Change, AllocError> {
        let came = came_by(alloc, tables, line.new_tasks())?;
        let told = told_by(alloc, line)?;
        let left = left_by(alloc, tables, times, line)?;
        Ok(Change {
            came,
            told,
            left,
            anew: line.snapshot(),
        })
    }
}
