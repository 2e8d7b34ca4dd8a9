//! The labels of tasks, of which the first so many stand by themselves.
ghost use Rattle.std.specs.Prelude.{◌≡◌, ◌++◌, ℕ, List, IfOk, OnOk, map};
ghost use Rattle.std.specs.Option.{option_map_or};
ghost use Rattle.tk_client.specs.Changes.{IsChange, Timed};
ghost use Rattle.tk_series.specs.Limited.{limited, with_one};
ghost use Rattle.tk_stream.specs.Tables.{TablesView, task_id, task_with};
ghost use Rattle.tk_stream.specs.declared.tables.task.Task.{Task as TaskView};
ghost use Rattle.tk_client.specs.declared.change.LeftTask.{LeftTask as LeftView};
ghost use Rattle.tk_metrics.specs.Blame.{plus_tally};
ghost use Rattle.tk_metrics.specs.Keys as spec;
ghost use Rattle.tk_metrics.specs.KeysKept as kept;
ghost use Rattle.tk_metrics.specs.Sums.{task_labels as task_labels_of};
ghost use Rattle.tk_metrics.specs.declared.blame.Tally.{Tally as TallyView};

use crate::apart::Apart;
use crate::blame::Tally;
use crate::by::By;
use crate::sums::task_labels;
use crate::text::{put, put_label};
use std::alloc::{AllocError, Global};
use tk_client::{Change, LeftTask};
use tk_ids::TaskId;
use tk_series::Limited;
use tk_stream::{Tables, Task};

/// What tasks are told apart by, and where their labels have an end those that stand by themselves, with how many tasks came of these and of all others.
#[derive(Drop)]
pub struct Keys {
    pub by: By,
    pub names: Option<Limited<Tally>>,
}

// ---- the labels that there are

fn add_came_one(
    names: &mut Limited<Tally>,
    alloc: Global,
    by: By,
    tables: &Tables,
    id: TaskId,
) -> Result<(), AllocError>
    ensures { OnOk result (names.new ≡ option_map_or
        (λ t. with_one plus_tally (task_labels_of by t) (record { tasks = 1 }) names.old) (task_with id tables.now.tasks) names.old) }
{
    match tables.task(id) {
        Some(task) => names.add(task_labels(alloc, by, task)?, Tally { tasks: 1 }),
        None => Ok(()),
    }
}

// Adds the tasks that came to these tables.
fn add_came(
    names: &mut Limited<Tally>,
    alloc: Global,
    by: By,
    tables: &Tables,
    ids: &[TaskId],
) -> Result<(), AllocError>
    ensures { (room : ℕ) (before : List (List ℕ × TallyView)) (tasks : List TaskView) → names.old ≡ limited room plus_tally before
        → ids.now ≡ map task_id tasks → kept.AreThere tables.now tasks
        → OnOk result (names.new ≡ limited room plus_tally (before ++ map (spec.came_name by) tasks)) }
{
    for id in ids {
        add_came_one(names, alloc, by, tables, *id)?;
    }
    Ok(())
}

fn add_left_one(
    names: &mut Limited<Tally>,
    alloc: Global,
    by: By,
    task: &Task,
) -> Result<(), AllocError>
    ensures { OnOk result (names.new ≡ with_one plus_tally (task_labels_of by task.now) (record { tasks = 0 }) names.old) }
{
    names.add(task_labels(alloc, by, task)?, Tally { tasks: 0 })
}

// Makes the labels of tasks known that left.
fn add_left(
    names: &mut Limited<Tally>,
    alloc: Global,
    by: By,
    left: &[LeftTask],
) -> Result<(), AllocError>
    ensures { (room : ℕ) (before : List (List ℕ × TallyView)) → names.old ≡ limited room plus_tally before
        → OnOk result (names.new ≡ limited room plus_tally (before ++ map (λ (l : LeftView). spec.left_name by l.task) left.now)) }
{
    for one in left {
        add_left_one(names, alloc, by, &one.task)?;
    }
    Ok(())
}

// Takes what a line changed, which led to these tables.
fn note_names(
    names: &mut Limited<Tally>,
    alloc: Global,
    by: By,
    tables: &Tables,
    change: &Change,
) -> Result<(), AllocError>
    ensures { (room : ℕ) (since : List (List ℕ × TallyView)) (before now : Timed) → IsChange before now change.now → now.0 ≡ tables.now
        → names.old ≡ limited room plus_tally since
        → OnOk result (names.new ≡ limited room plus_tally (since ++ spec.names_between by before.0 now.0)) }
{
    // Whoever counts tables' tasks learns that none stands twice.
    tables.task_count();
    add_came(names, alloc, by, tables, change.came())?;
    add_left(names, alloc, by, change.left())?;
    Ok(())
}

// ---- the labels of a task

fn others_labels(alloc: Global, by: By) -> Result<Vec<u8>, AllocError>
    ensures { IfOk result (λ labels. labels.items ≡ spec.others_labels by) }
{
    let mut labels = Vec::new(alloc);
    put_label(&mut labels, "name", b"(others)")?;
    put(&mut labels, ",")?;
    put_label(&mut labels, "kind", b"-")?;
    match by {
        By::Name | By::Id => {}
        By::Place => {
            put(&mut labels, ",")?;
            put_label(&mut labels, "location", b"-")?;
        }
    }
    Ok(labels)
}

fn own_or_others(
    alloc: Global,
    by: By,
    names: &Limited<Tally>,
    own: Vec<u8>,
) -> Result<Vec<u8>, AllocError>
    ensures { IfOk result (λ labels. labels.items ≡ spec.own_or_others by own.items names.now) }
{
    if names.has(own.as_slice()) {
        Ok(own)
    } else {
        others_labels(alloc, by)
    }
}

/// How many tasks came whose labels don't stand by themselves.
pub(crate) fn others_in(names: &Limited<Tally>) -> u64
    ensures { result ≡ spec.others_in names.now }
{
    match names.rest() {
        Some(tally) => tally.tasks,
        None => 0,
    }
}

impl Keys {
    ghost use Rattle.std.specs.Prelude.{[], ◌∷◌, option_map};
    ghost use Rattle.tk_stream.specs.Tables.{empty_tables};
    ghost use Rattle.tk_stream.specs.Times.{TaskTimes};
    ghost use Rattle.tk_reading.specs.Shown.{last_shown};
    ghost use Rattle.tk_metrics.specs.declared.apart.Apart.{Apart as Told};

    /// Each stands by itself.
    pub fn endless(by: By) -> Keys
        ensures { result ≡ spec.endless by }
    {
        Keys { by, names: None }
    }

    /// Before the first line.
    pub fn none(alloc: Global, apart: Apart) -> Keys
        ensures { result ≡ spec.keys_after apart [] }
    {
        match apart.room() {
            Some(room) => Keys {
                by: apart.by,
                names: Some(Limited::new(alloc, room as usize)),
            },
            None => Keys::endless(apart.by),
        }
    }

    /// Takes what a line changed, which led to these tables.
    pub fn note(
        &mut self,
        alloc: Global,
        tables: &Tables,
        change: &Change,
    ) -> Result<(), AllocError>
        ensures { (apart : Told) (shown : List TablesView) (before : Timed) (times : List TaskTimes) → IsChange before (tables.now, times) change.now
            → before.0 ≡ last_shown empty_tables shown → self.old ≡ spec.keys_after apart shown
            → OnOk result (self.new ≡ spec.keys_after apart (shown ++ tables.now ∷ [])) }
    {
        let by = self.by;
        match &mut self.names {
            Some(names) => {
                note_names(names, alloc, by, tables, change)?;
                Ok(())
            }
            None => Ok(()),
        }
    }

    /// What tasks are told apart by.
    pub fn by(&self) -> By
        ensures { result ≡ self.now.by }
    {
        self.by
    }

    /// A task's labels.
    pub fn labels(&self, alloc: Global, task: &Task) -> Result<Vec<u8>, AllocError>
        ensures { IfOk result (λ labels. labels.items ≡ spec.labels_in self.now task.now) }
    {
        let own = task_labels(alloc, self.by, task)?;
        match &self.names {
            Some(names) => own_or_others(alloc, self.by, names, own),
            None => Ok(own),
        }
    }

    /// The labels that stand by themselves, and what came beside them, where labels have an end.
    pub fn names(&self) -> Option<&Limited<Tally>>
        ensures { option_map (λ n. n.now) result ≡ self.now.names }
    {
        match &self.names {
            Some(names) => Some(names),
            None => None,
        }
    }
}
