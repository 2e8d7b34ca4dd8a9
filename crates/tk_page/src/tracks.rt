//! The tracks of the last line's tasks, so that a line costs what it changes.
//!
//! A task of which a line doesn't tell is as it was. It gains something all the same if it runs or waits. Which tasks do is kept, too.
ghost use Rattle.std.specs.Prelude.{◌≡◌, ◌++◌, ◌∷◌, ◌||◌, ◌≤◌, ◌^◌, [], ℕ, List, IfNone, IfOk, IfSome, OnOk, None, Some, false, fold, if◌then◌else◌, length, map, nat_eq, slice_get};
ghost use Rattle.std.specs.List.{IsDistinct};
ghost use Rattle.std.specs.Option.{option_map_or};
ghost use Rattle.indexmap.specs.IndexMap.{get};
ghost use Rattle.tk_client.specs.Candidates.{places_by};
ghost use Rattle.tk_client.specs.Changes.{Leads, left_id};
ghost use Rattle.tk_odd.specs.Keeping as keeping;
ghost use Rattle.tk_stream.specs.Tables.{TablesView, is_among};
ghost use Rattle.tk_page.specs.Kept as spec;

use crate::sample::Sample;
use crate::track::Track;
use indexmap::{IndexMap, IndexSet};
use std::alloc::{AllocError, Global};
use tk_client::{Change, LeftTask, places_among};
use tk_core::TaskRow;
use tk_ids::TaskId;
use tk_paper::Course;
use tk_stream::Tables;

/// The tracks of the last line's tasks, and which of these tasks run or wait.
#[derive(Drop)]
pub(crate) struct Tracks {
    tasks: IndexMap<u64, Track>,
    lasting: IndexSet<u64>,
}

// ---- sets of ids

// Whether a task runs or waits.
fn lasts(row: &TaskRow) -> bool
    ensures { result ≡ keeping.lasts row.now }
{
    row.polling || row.scheduled
}

// Lists a task, or takes it out of the list.
fn list(ids: &mut IndexSet<u64>, id: u64, is_in: bool) -> Result<(), AllocError>
    ensures { OnOk result ((other : ℕ) → is_among ids.new.keys other ≡ (if nat_eq id other then is_in else is_among ids.old.keys other)) }
{
    if is_in {
        ids.insert(id)?;
    } else {
        ids.swap_remove(&id);
    }
    Ok(())
}

// Lists these tasks besides.
fn add_told(ids: &mut IndexSet<u64>, told: &[TaskId]) -> Result<(), AllocError>
    ensures { OnOk result ((other : ℕ) → is_among ids.new.keys other ≡ (is_among told.now other || is_among ids.old.keys other)) }
{
    for id in told {
        list(ids, id.value(), true)?;
    }
    Ok(())
}

fn add_lasting(ids: &mut IndexSet<u64>, lasting: &[u64]) -> Result<(), AllocError>
    ensures { OnOk result ((other : ℕ) → is_among ids.new.keys other ≡ (is_among lasting.now other || is_among ids.old.keys other)) }
{
    for id in lasting {
        list(ids, *id, true)?;
    }
    Ok(())
}

// ---- one track

// Where the track of a task stands.
fn find_track(tasks: &IndexMap<u64, Track>, id: u64) -> Option<usize>
    ensures some { IfSome result (λ i. spec.StandsAt tasks.now.entries i id) }
    ensures none { IfNone result (get nat_eq tasks.now id ≡ None) }
{
    tasks.get_index_of(&id)
}

// Goes on with the track of a task that stands there.
fn tell_at(
    tasks: &mut IndexMap<u64, Track>,
    i: usize,
    id: u64,
    moments: &[u64],
    now: u64,
    row: &TaskRow,
) -> Result<(), AllocError>
    requires { spec.StandsAt tasks.old.entries i id }
    ensures { OnOk result ((other : ℕ) → get nat_eq tasks.new other
        ≡ (if nat_eq id other then spec.told_track moments.now now (Some row.now) (get nat_eq tasks.old id) else get nat_eq tasks.old other)) }
{
    match tasks.get_index_mut(i) {
        Some(track) => track.tell(moments, now, row),
        None => Ok(()),
    }
}

// Begins the track of a task that has none.
fn begin_track(
    tasks: &mut IndexMap<u64, Track>,
    alloc: Global,
    id: u64,
    moments: &[u64],
    now: u64,
    row: &TaskRow,
) -> Result<(), AllocError>
    requires { get nat_eq tasks.old id ≡ None }
    ensures { OnOk result ((other : ℕ) → get nat_eq tasks.new other
        ≡ (if nat_eq id other then spec.told_track moments.now now (Some row.now) (get nat_eq tasks.old id) else get nat_eq tasks.old other)) }
{
    let track = Track::begin(alloc, moments, now, row)?;
    tasks.insert(id, track)?;
    Ok(())
}

// Takes the row that a task has after one line more, which tells of it.
fn tell_track(
    tasks: &mut IndexMap<u64, Track>,
    alloc: Global,
    id: u64,
    moments: &[u64],
    now: u64,
    row: &TaskRow,
) -> Result<(), AllocError>
    ensures { OnOk result ((other : ℕ) → get nat_eq tasks.new other
        ≡ (if nat_eq id other then spec.told_track moments.now now (Some row.now) (get nat_eq tasks.old id) else get nat_eq tasks.old other)) }
{
    match find_track(tasks, id) {
        Some(i) => tell_at(tasks, i, id, moments, now, row),
        None => begin_track(tasks, alloc, id, moments, now, row),
    }
}

impl Tracks {
    /// Of no line yet.
    pub(crate) fn new(alloc: Global) -> Tracks
        ensures { spec.AreTracks [] result }
    {
        Tracks {
            tasks: IndexMap::new(alloc),
            lasting: IndexSet::new(alloc),
        }
    }

    fn forget(&mut self, id: TaskId)
        ensures tasks { (other : ℕ) → get nat_eq self.new.tasks other ≡ (if nat_eq id other then None else get nat_eq self.old.tasks other) }
        ensures lasting { (other : ℕ) → is_among self.new.lasting.keys other ≡ (if nat_eq id other then false else is_among self.old.lasting.keys other) }
    {
        self.tasks.swap_remove(&id.value());
        self.lasting.swap_remove(&id.value());
    }

    fn tell(
        &mut self,
        alloc: Global,
        id: TaskId,
        moments: &[u64],
        now: u64,
        row: &TaskRow,
    ) -> Result<(), AllocError>
        ensures tasks { OnOk result ((other : ℕ) → get nat_eq self.new.tasks other
            ≡ (if nat_eq id other then spec.told_track moments.now now (Some row.now) (get nat_eq self.old.tasks id) else get nat_eq self.old.tasks other)) }
        ensures lasting { OnOk result ((other : ℕ) → is_among self.new.lasting.keys other ≡ (if nat_eq id other then keeping.lasts row.now else is_among self.old.lasting.keys other)) }
    {
        tell_track(&mut self.tasks, alloc, id.value(), moments, now, row)?;
        list(&mut self.lasting, id.value(), lasts(row))
    }

    // Takes what tables have of a task, of which the line tells.
    fn tell_shown(
        &mut self,
        alloc: Global,
        tables: &Tables,
        id: TaskId,
        moments: &[u64],
    ) -> Result<(), AllocError>
        ensures tasks { OnOk result ((other : ℕ) → get nat_eq self.new.tasks other
            ≡ (if nat_eq id other then spec.told_track moments.now tables.now.now (keeping.row_in tables.now id) (get nat_eq self.old.tasks id) else get nat_eq self.old.tasks other)) }
        ensures lasting { OnOk result ((other : ℕ) → is_among self.new.lasting.keys other ≡ (if nat_eq id other then keeping.lasts_in tables.now id else is_among self.old.lasting.keys other)) }
    {
        match tables.task(id) {
            Some(task) => self.tell(alloc, id, moments, tables.now(), &task.row),
            None => {
                self.forget(id);
                Ok(())
            }
        }
    }

    // ---- a line

    fn forget_all(&mut self, left: &[LeftTask])
        ensures tasks { (other : ℕ) → get nat_eq self.new.tasks other ≡ (if is_among (map left_id left.now) other then None else get nat_eq self.old.tasks other) }
        ensures lasting { (other : ℕ) → is_among self.new.lasting.keys other ≡ (if is_among (map left_id left.now) other then false else is_among self.old.lasting.keys other) }
    {
        for one in left {
            self.forget(one.task.info.id);
        }
    }

    fn tell_all(
        &mut self,
        alloc: Global,
        tables: &Tables,
        told: &[TaskId],
        moments: &[u64],
    ) -> Result<(), AllocError>
        ensures tasks { IsDistinct nat_eq told.now → OnOk result ((other : ℕ) → get nat_eq self.new.tasks other
            ≡ (if is_among told.now other then spec.told_track moments.now tables.now.now (keeping.row_in tables.now other) (get nat_eq self.old.tasks other)
            else get nat_eq self.old.tasks other)) }
        ensures lasting { OnOk result ((other : ℕ) → is_among self.new.lasting.keys other
            ≡ (if is_among told.now other then keeping.lasts_in tables.now other else is_among self.old.lasting.keys other)) }
    {
        for id in told {
            self.tell_shown(alloc, tables, *id, moments)?;
        }
        Ok(())
    }

    /// Takes what tables have after a line, which changed this in those before it. The lines before were at these moments.
    pub(crate) fn follow(
        &mut self,
        alloc: Global,
        tables: &Tables,
        change: &Change,
        moments: &[u64],
    ) -> Result<(), AllocError>
        ensures { (shown : List TablesView) → length shown ≤ 2 ^ 62 → moments.now ≡ spec.moments_of shown → Leads (spec.last_of shown) tables.now change.now
            → spec.AreTracks shown self.old → OnOk result (spec.AreTracks (shown ++ tables.now ∷ []) self.new) }
    {
        self.forget_all(change.left());
        self.tell_all(alloc, tables, change.told(), moments)?;
        Ok(())
    }

    // ---- what was gained

    // The places of the tasks that may have gained something with a line which tells of these, rising.
    fn places_after(
        &self,
        alloc: Global,
        tables: &Tables,
        told: &[TaskId],
    ) -> Result<Vec<usize>, AllocError>
        ensures { IfOk result (λ places. places.items ≡ places_by (keeping.may_gain told.now self.now.lasting.keys) 0 tables.now.tasks) }
    {
        let mut ids = IndexSet::new(alloc);
        add_lasting(&mut ids, self.lasting.as_slice())?;
        add_told(&mut ids, told)?;
        let places = places_among(alloc, tables, &ids)?;
        Ok(places)
    }

    // What a task had come to at the moment of the last line.
    fn come_to(&self, moment: u64, id: TaskId) -> Sample
        ensures { result ≡ spec.come_by moment (get nat_eq self.now.tasks id) }
    {
        match self.tasks.get(&id.value()) {
            Some(track) => Sample::of(&track.row, moment),
            None => Sample::none(0),
        }
    }

    // A sum with what the task at a place gained since the moment of the last line.
    fn with_gain_at(&self, tables: &Tables, moment: u64, place: usize, sum: Sample) -> Sample
        ensures { result ≡ option_map_or (spec.with_gain_by moment tables.now self.now sum) (slice_get tables.now.tasks place) sum }
    {
        match tables.task_at(place) {
            Some(task) => {
                let now = Sample::of(&task.row, tables.now());
                sum.with(now.gain(self.come_to(moment, task.info.id)))
            }
            None => sum,
        }
    }

    // The same of the tasks at these places.
    fn with_gains(&self, tables: &Tables, moment: u64, places: &[usize], total: Sample) -> Sample
        ensures { result ≡ fold (λ sum place. option_map_or (spec.with_gain_by moment tables.now self.now sum) (slice_get tables.now.tasks place) sum) total places.now }
    {
        let mut sum = total;
        for place in places {
            sum = self.with_gain_at(tables, moment, *place, sum);
        }
        sum
    }

    /// What all tasks have gained after a line, which changed this in the tables before it: so much before, and what each gained since.
    pub(crate) fn total_after(
        &self,
        alloc: Global,
        tables: &Tables,
        change: &Change,
        before: Sample,
    ) -> Result<Sample, AllocError>
        ensures { (shown : List TablesView) → Leads (spec.last_of shown) tables.now change.now → spec.AreTracks shown self.now
            → before.now ≡ (spec.last_of shown).now → IfOk result (λ sum. sum ≡ spec.total_more before (spec.last_of shown) tables.now) }
    {
        // Whoever counts tables' tasks learns that none stands twice.
        tables.task_count();
        let places = self.places_after(alloc, tables, change.told())?;
        let total = Sample::none(tables.now()).with(before);
        Ok(self.with_gains(tables, before.now, places.as_slice(), total))
    }

    /// The course of the task with an id after the lines at these moments.
    pub(crate) fn course_of(
        &self,
        alloc: Global,
        moments: &[u64],
        id: u64,
    ) -> Result<Course<Sample>, AllocError>
        ensures { IfOk result (λ course. course.kept
            ≡ option_map_or (λ track. (spec.caught_up moments.now track).kept) (get nat_eq self.now.tasks id) []) }
    {
        match self.tasks.get(&id) {
            Some(track) => track.caught_up(alloc, moments),
            None => Ok(Course::new(alloc)),
        }
    }
}
