//! Histograms of poll times, which stand beside a client's tables.
//!
//! They are looked at before the line is applied. Then the new ones go in after the others, which may want memory; once the tables have
//! taken the line, those of tasks that are gone leave, and what is told of the others is replaced, which wants none.
ghost use Rattle.std.specs.Prelude.{◌≡◌, ◌++◌, ℕ, map, filter, false, IfOk, OnOk, OnErr, IsSome};
ghost use Rattle.std.specs.List.{list_any};
ghost use Rattle.tk_stream.specs.Applied.{times_after, times_told};
ghost use Rattle.tk_stream.specs.Lines.{is_new};
ghost use Rattle.tk_stream.specs.Tables.{task_id, staying, is_among, item_with, put_item};
ghost use Rattle.tk_stream.specs.Times.{times_id};
ghost use Rattle.tk_client.specs.Meaning.{base_of, times_base};
ghost use Rattle.tk_client.specs.Taking as spec;
ghost use Rattle.tk_client.specs.Applying as inner;
ghost use Rattle.tk_client.specs.Applying.{Answers};

use crate::fault::Fault;
use crate::ids::Ids;
use crate::shown::Shown;
use crate::taking::Finding;
use indexmap::IndexSet;
use std::alloc::{AllocError, Global};
use tk_ids::{TaskId, TaskInfo};
use tk_stream::{Line, PollTimes, Table};

/// Histograms of poll times, each with its task's id.
pub type Times = Table<(TaskId, PollTimes)>;

// ---- what is found

fn told_ids(alloc: Global, told: &[(TaskId, PollTimes)]) -> Result<Vec<u64>, AllocError>
    ensures { IfOk result (λ ids. ids.items ≡ map times_id told.now) }
{
    let mut ids = Vec::with_capacity(alloc, told.len())?;
    for (id, _) in told {
        ids.push(id.value())?;
    }
    Ok(ids)
}

/// The ids of new tasks, among which each is found at once.
pub(crate) fn new_ids(alloc: Global, infos: &[TaskInfo]) -> Result<IndexSet<u64>, AllocError>
    ensures { IfOk result (λ set. (id : ℕ) → is_among set.keys id ≡ is_among (map spec.new_id infos.now) id) }
{
    let mut ids = IndexSet::with_capacity(alloc, infos.len())?;
    for info in infos {
        ids.insert(info.id.value())?;
    }
    Ok(ids)
}

// Whether one of those that are gone is among these.
fn has_any(told: &Ids, gone: &[TaskId]) -> bool
    ensures { result ≡ list_any (is_among told.now) gone.now }
{
    for id in gone {
        if told.has(id.value()) {
            return true;
        }
    }
    false
}

// Whether a task is there, in the tables that a line is applied to.
fn is_there(shown: &Shown, line: &Line, id: TaskId) -> bool
    ensures { result ≡ spec.has_id task_id id (base_of shown.now line.now).tasks }
{
    !line.snapshot() && shown.tables().task(id).is_some()
}

// Whether a task is neither there nor new.
fn is_stranger(shown: &Shown, line: &Line, new: &IndexSet<u64>, id: TaskId) -> bool
    requires { (id : ℕ) → is_among new.now.keys id ≡ is_among (map spec.new_id line.now.new_tasks) id }
    ensures { result ≡ spec.is_strange_task (base_of shown.now line.now) line.now.new_tasks id }
{
    !(is_there(shown, line, id) || new.contains(&id.value()))
}

// Whether one of the histograms is of a task that is neither there nor new.
fn has_stranger(shown: &Shown, line: &Line, new: &IndexSet<u64>) -> bool
    requires { (id : ℕ) → is_among new.now.keys id ≡ is_among (map spec.new_id line.now.new_tasks) id }
    ensures { result ≡ spec.strange_times (base_of shown.now line.now) line.now }
{
    for (id, _) in line.task_times() {
        if is_stranger(shown, line, new, *id) {
            return true;
        }
    }
    false
}

// What is found in the histograms that a line tells.
fn look_at(alloc: Global, shown: &Shown, line: &Line) -> Result<Finding, AllocError>
    ensures { IfOk result (λ f. f ≡ inner.finding (spec.repeats_times line.now) (spec.strange_times (base_of shown.now line.now) line.now)) }
{
    if line.task_times().is_empty() {
        return Ok(Finding::Sound);
    }
    let ids = told_ids(alloc, line.task_times())?;
    let Some(told) = Ids::new(alloc, &ids)? else {
        return Ok(Finding::Repeats);
    };
    if has_any(&told, line.gone_tasks()) {
        return Ok(Finding::Repeats);
    }
    let new = new_ids(alloc, line.new_tasks())?;
    if has_stranger(shown, line, &new) {
        Ok(Finding::Strange)
    } else {
        Ok(Finding::Sound)
    }
}

// ---- what is made of them

// The histogram of a task that has none yet goes last.
fn add_one(times: &mut Times, told: &(TaskId, PollTimes)) -> Result<(), AllocError>
    ensures ok { OnOk result (times.new ≡ inner.key_added times_id told.now times.old) }
    ensures err { OnErr result (times.new ≡ times.old) }
{
    if times.with_id(told.0.value()).is_some() {
        return Ok(());
    }
    times.put(*told)
}

// The histograms of tasks that have none yet go last.
fn add(times: &mut Times, told: &[(TaskId, PollTimes)]) -> Result<(), AllocError>
    requires { spec.has_twice (map times_id told.now) ≡ false }
    ensures added { OnOk result (times.new ≡ times.old ++ filter (is_new times_id times.old) told.now) }
    ensures grown { inner.Begins times.old times.new }
{
    for one in told {
        add_one(times, one)?;
    }
    Ok(())
}

// The histograms of tasks that are gone leave.
fn leave(times: &mut Times, gone: &[TaskId])
    ensures { times.new ≡ staying times_id gone.now times.old }
{
    for id in gone {
        times.remove(id.value());
    }
}

// Replaces the histogram of a task that has one, which takes no memory.
fn replace(times: &mut Times, told: &(TaskId, PollTimes))
    requires { IsSome (item_with times_id (times_id told.now) times.old) }
    ensures { times.new ≡ put_item times_id told.now times.old }
{
    times.put(*told).unwrap();
}

// Those that are told take the place of those that are there.
fn tell(times: &mut Times, told: &[(TaskId, PollTimes)])
    requires once { spec.has_twice (map times_id told.now) ≡ false }
    requires there { inner.AreKeyed times_id times.old told.now }
    ensures { times.new ≡ times_told times.old told.now }
{
    times.len();
    for one in told {
        replace(times, one);
    }
}

// Applies a line to tables and to the histograms beside them, or leaves both as they are.
fn go_on(alloc: Global, shown: &mut Shown, times: &mut Times, line: &mut Line) -> Result<(), Fault>
    requires { spec.repeats_times line.old ≡ false }
    ensures tables { Answers (λ _. shown.new) result (spec.line_applied (base_of shown.old line.old) line.old) }
    ensures times { OnOk result (times.new ≡ times_after times.old line.old) }
    ensures kept { OnErr result (shown.new ≡ shown.old) }
    ensures kept_times { OnErr result (times.new ≡ times.old) }
{
    let count = times.len();
    if let Err(_) = add(times, line.task_times()) {
        times.cut(count);
        return Err(Fault::Memory);
    }
    match shown.apply(alloc, line) {
        Ok(()) => {
            leave(times, line.gone_tasks());
            tell(times, line.task_times());
            Ok(())
        }
        Err(fault) => {
            times.cut(count);
            Err(fault)
        }
    }
}

// Applies a line whose histograms are sound.
fn apply_sound(
    alloc: Global,
    shown: &mut Shown,
    times: &mut Times,
    line: &mut Line,
) -> Result<(), Fault>
    requires { spec.repeats_times line.old ≡ false }
    ensures tables { Answers (λ _. shown.new) result (spec.line_applied (base_of shown.old line.old) line.old) }
    ensures times { OnOk result (times.new ≡ times_after (times_base times.old line.old) line.old) }
    ensures kept { OnErr result (shown.new ≡ shown.old) }
    ensures kept_times { OnErr result (times.new ≡ times.old) }
{
    if !line.snapshot() {
        return go_on(alloc, shown, times, line);
    }
    let mut fresh = Table::new(alloc);
    match go_on(alloc, shown, &mut fresh, line) {
        Ok(()) => {
            *times = fresh;
            Ok(())
        }
        Err(fault) => Err(fault),
    }
}

/// Applies a line to tables and to the histograms beside them, or leaves both as they are. A snapshot stands for itself. The infos of
/// new items leave the line.
pub(crate) fn apply(
    alloc: Global,
    shown: &mut Shown,
    times: &mut Times,
    line: &mut Line,
) -> Result<(), Fault>
    ensures tables { Answers (λ _. shown.new) result (spec.line_checked (base_of shown.old line.old) line.old) }
    ensures times { OnOk result (times.new ≡ times_after (times_base times.old line.old) line.old) }
    ensures kept { OnErr result (shown.new ≡ shown.old) }
    ensures kept_times { OnErr result (times.new ≡ times.old) }
{
    match look_at(alloc, shown, line)? {
        Finding::Repeats => Err(Fault::Repeated),
        Finding::Strange => Err(Fault::UnknownId),
        Finding::Sound => apply_sound(alloc, shown, times, line),
    }
}
