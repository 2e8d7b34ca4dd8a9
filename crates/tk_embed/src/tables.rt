//! Tables from entries.
ghost use Rattle.std.specs.Prelude.{◌≡◌, ◌∷◌, ◌++◌, [], None, is_some, IfOk, IfErr, OnOk};
ghost use Rattle.tk_core.specs.OpWords as op_words;
ghost use Rattle.tk_core.specs.ResourceWords as resource_words;
ghost use Rattle.tk_core.specs.TaskWords as task_words;
ghost use Rattle.tk_stream.specs.Tables.{item_with, counts_id, empty_tables, task_with, resource_with, op_with, with_op, with_task};
ghost use Rattle.tk_embed.specs.Entries as spec;
ghost use Rattle.tk_embed.specs.Faults as faults;

use crate::entries::{AttrEntry, CountEntry, Head, OpEntry, ResourceEntry, TaskEntry};
use crate::fault::{Bad, Fault, Reason};
use crate::infos::{op_info, resource_id, resource_info, task_info};
use std::alloc::Global;
use tk_core::{OpRow, ResourceRow, TaskRow};
use tk_ids::{Dropped, OpInfo, ResourceId, TaskInfo};
use tk_stream::Tables;

fn task_row(entry: &TaskEntry, now: bool) -> Result<TaskRow, Bad>
    ensures ok { IfOk result (λ row. task_words.words_of row ≡ faults.words_at now entry.now.row entry.now.told) }
    ensures err { IfErr result (λ bad. (bad ≡ Bad.Entry Reason.Row)
        × faults.HasNoRow task_words.words_of (faults.words_at now entry.now.row entry.now.told)) }
{
    let words = if now { &entry.row } else { &entry.told };
    match TaskRow::from_words(words) {
        Some(row) => Ok(row),
        None => Err(Bad::Entry(Reason::Row)),
    }
}

// Puts a task last, which is not there.
fn push_task(tables: &mut Tables, info: TaskInfo, row: TaskRow) -> Result<(), Bad>
    requires { task_with info.id tables.old.tasks ≡ None }
    ensures ok { OnOk result (tables.new ≡ with_task tables.old info row) }
    ensures err { IfErr result (λ bad. bad ≡ Bad.Memory) }
{
    match tables.add_task(info, row) {
        Ok(()) => Ok(()),
        Err(_) => Err(Bad::Memory),
    }
}

fn add_task(
    alloc: Global,
    tables: &mut Tables,
    text: &[u8],
    entry: &TaskEntry,
    now: bool,
) -> Result<(), Bad>
    ensures ok { OnOk result (spec.AddTasks text.now now (entry.now ∷ []) tables.old tables.new) }
    ensures err { IfErr result (faults.OfBad (faults.IsBadEntry task_words.words_of (faults.words_at now entry.now.row entry.now.told)
        (is_some (task_with entry.now.id tables.old.tasks)) (faults.HasBadTaskInfo text.now entry.now))) }
{
    let info = task_info(alloc, text, entry)?;
    if tables.task(info.id).is_some() {
        return Err(Bad::Entry(Reason::Twice));
    }
    match task_row(entry, now) {
        Ok(row) => push_task(tables, info, row),
        Err(bad) => Err(bad),
    }
}

fn resource_row(entry: &ResourceEntry, now: bool) -> Result<ResourceRow, Bad>
    ensures ok { IfOk result (λ row. resource_words.words_of row ≡ faults.words_at now entry.now.row entry.now.told) }
    ensures err { IfErr result (λ bad. (bad ≡ Bad.Entry Reason.Row)
        × faults.HasNoRow resource_words.words_of (faults.words_at now entry.now.row entry.now.told)) }
{
    let words = if now { &entry.row } else { &entry.told };
    match ResourceRow::from_words(words) {
        Some(row) => Ok(row),
        None => Err(Bad::Entry(Reason::Row)),
    }
}

fn add_resource(
    alloc: Global,
    tables: &mut Tables,
    text: &[u8],
    attrs: &[AttrEntry],
    entry: &ResourceEntry,
    now: bool,
) -> Result<(), Bad>
    ensures ok { OnOk result (spec.AddResources text.now attrs.now now (entry.now ∷ []) tables.old tables.new) }
    ensures err { IfErr result (faults.OfBad (faults.IsBadEntry resource_words.words_of (faults.words_at now entry.now.row entry.now.told)
        (is_some (resource_with entry.now.id tables.old.resources)) (faults.HasBadResourceInfo text.now attrs.now entry.now))) }
{
    let info = resource_info(alloc, text, attrs, entry)?;
    if tables.resource(info.id).is_some() {
        return Err(Bad::Entry(Reason::Twice));
    }
    let row = resource_row(entry, now)?;
    let Ok(()) = tables.add_resource(info, row) else {
        return Err(Bad::Memory);
    };
    Ok(())
}

fn op_row(entry: &OpEntry, now: bool) -> Result<OpRow, Bad>
    ensures ok { IfOk result (λ row. op_words.words_of row ≡ faults.words_at now entry.now.row entry.now.told) }
    ensures err { IfErr result (λ bad. (bad ≡ Bad.Entry Reason.Row)
        × faults.HasNoRow op_words.words_of (faults.words_at now entry.now.row entry.now.told)) }
{
    let words = if now { &entry.row } else { &entry.told };
    match OpRow::from_words(words) {
        Some(row) => Ok(row),
        None => Err(Bad::Entry(Reason::Row)),
    }
}

// Puts an async operation last, which is not there.
fn push_op(tables: &mut Tables, info: OpInfo, row: OpRow) -> Result<(), Bad>
    requires { op_with info.id tables.old.ops ≡ None }
    ensures ok { OnOk result (tables.new ≡ with_op tables.old info row) }
    ensures err { IfErr result (λ bad. bad ≡ Bad.Memory) }
{
    match tables.add_op(info, row) {
        Ok(()) => Ok(()),
        Err(_) => Err(Bad::Memory),
    }
}

fn add_op(
    alloc: Global,
    tables: &mut Tables,
    text: &[u8],
    attrs: &[AttrEntry],
    entry: &OpEntry,
    now: bool,
) -> Result<(), Bad>
    ensures ok { OnOk result (spec.AddOps text.now attrs.now now (entry.now ∷ []) tables.old tables.new) }
    ensures err { IfErr result (faults.OfBad (faults.IsBadEntry op_words.words_of (faults.words_at now entry.now.row entry.now.told)
        (is_some (op_with entry.now.id tables.old.ops)) (faults.HasBadOpInfo text.now attrs.now entry.now))) }
{
    let info = op_info(alloc, text, attrs, entry)?;
    if tables.op(info.id).is_some() {
        return Err(Bad::Entry(Reason::Twice));
    }
    match op_row(entry, now) {
        Ok(row) => push_op(tables, info, row),
        Err(bad) => Err(bad),
    }
}

#[tactic(auto, using(crate::proofs::EntryLemmas::put_last))]
fn set_new_counts(tables: &mut Tables, id: ResourceId, ready: u64, pending: u64) -> Result<(), Bad>
    requires { item_with counts_id id tables.old.counts ≡ None }
    ensures ok { OnOk result (tables.new ≡ record tables.old { counts = tables.old.counts ++ (id, ready, pending) ∷ [] }) }
    ensures err { IfErr result (λ bad. bad ≡ Bad.Memory) }
{
    let Ok(()) = tables.set_counts(id, ready, pending) else {
        return Err(Bad::Memory);
    };
    Ok(())
}

fn add_counts(tables: &mut Tables, value: u64, ready: u64, pending: u64) -> Result<(), Bad>
    ensures ok { OnOk result (tables.new ≡ record tables.old { counts = tables.old.counts ++ (value, ready, pending) ∷ [] }) }
    ensures err { IfErr result (faults.OfBad (faults.IsBadCounts value (is_some (item_with counts_id value tables.old.counts)))) }
{
    let id = resource_id(value)?;
    if tables.counts.with_id(id.value()).is_some() {
        return Err(Bad::Entry(Reason::Twice));
    }
    set_new_counts(tables, id, ready, pending)
}

fn add_count(tables: &mut Tables, entry: &CountEntry, now: bool) -> Result<(), Bad>
    ensures ok { OnOk result (spec.AddCounts now (entry.now ∷ []) tables.old tables.new) }
    ensures err { IfErr result (faults.OfBad (faults.IsBadCounts entry.now.resource (is_some (item_with counts_id entry.now.resource tables.old.counts)))) }
{
    if now {
        add_counts(tables, entry.resource, entry.ready, entry.pending)
    } else {
        add_counts(tables, entry.resource, entry.told_ready, entry.told_pending)
    }
}

fn put_tasks(
    alloc: Global,
    tables: &mut Tables,
    text: &[u8],
    entries: &[TaskEntry],
    now: bool,
) -> Result<(), (usize, Bad)>
    ensures ok { OnOk result (spec.AddTasks text.now now entries.now tables.old tables.new) }
    ensures err { tables.old.tasks ≡ [] → IfErr result (λ at. faults.OfBad (faults.IsBadAt (faults.IsBadTask text.now now) entries.now at.0) at.1) }
{
    for i in 0..entries.len() {
        match add_task(alloc, tables, text, &entries[i], now) {
            Ok(()) => {}
            Err(bad) => return Err((i, bad)),
        }
    }
    Ok(())
}

fn put_resources(
    alloc: Global,
    tables: &mut Tables,
    text: &[u8],
    attrs: &[AttrEntry],
    entries: &[ResourceEntry],
    now: bool,
) -> Result<(), (usize, Bad)>
    ensures ok { OnOk result (spec.AddResources text.now attrs.now now entries.now tables.old tables.new) }
    ensures err { tables.old.resources ≡ [] → IfErr result (λ at. faults.OfBad (faults.IsBadAt (faults.IsBadResource text.now attrs.now now) entries.now at.0) at.1) }
{
    for i in 0..entries.len() {
        match add_resource(alloc, tables, text, attrs, &entries[i], now) {
            Ok(()) => {}
            Err(bad) => return Err((i, bad)),
        }
    }
    Ok(())
}

fn put_ops(
    alloc: Global,
    tables: &mut Tables,
    text: &[u8],
    attrs: &[AttrEntry],
    entries: &[OpEntry],
    now: bool,
) -> Result<(), (usize, Bad)>
    ensures ok { OnOk result (spec.AddOps text.now attrs.now now entries.now tables.old tables.new) }
    ensures err { tables.old.ops ≡ [] → IfErr result (λ at. faults.OfBad (faults.IsBadAt (faults.IsBadOp text.now attrs.now now) entries.now at.0) at.1) }
{
    for i in 0..entries.len() {
        match add_op(alloc, tables, text, attrs, &entries[i], now) {
            Ok(()) => {}
            Err(bad) => return Err((i, bad)),
        }
    }
    Ok(())
}

fn put_counts(tables: &mut Tables, entries: &[CountEntry], now: bool) -> Result<(), (usize, Bad)>
    ensures ok { OnOk result (spec.AddCounts now entries.now tables.old tables.new) }
    ensures err { tables.old.counts ≡ [] → IfErr result (λ at. faults.OfBad (faults.IsBadAt faults.IsBadCount entries.now at.0) at.1) }
{
    for i in 0..entries.len() {
        match add_count(tables, &entries[i], now) {
            Ok(()) => {}
            Err(bad) => return Err((i, bad)),
        }
    }
    Ok(())
}

fn task_fault(place: usize, bad: Bad) -> Fault
    ensures { result ≡ faults.fault_at Fault.BadTask place bad }
{
    match bad {
        Bad::Entry(reason) => Fault::BadTask(place, reason),
        Bad::Memory => Fault::Memory,
    }
}

fn resource_fault(place: usize, bad: Bad) -> Fault
    ensures { result ≡ faults.fault_at Fault.BadResource place bad }
{
    match bad {
        Bad::Entry(reason) => Fault::BadResource(place, reason),
        Bad::Memory => Fault::Memory,
    }
}

fn op_fault(place: usize, bad: Bad) -> Fault
    ensures { result ≡ faults.fault_at Fault.BadOp place bad }
{
    match bad {
        Bad::Entry(reason) => Fault::BadOp(place, reason),
        Bad::Memory => Fault::Memory,
    }
}

fn count_fault(place: usize, bad: Bad) -> Fault
    ensures { result ≡ faults.fault_at Fault.BadCount place bad }
{
    match bad {
        Bad::Entry(reason) => Fault::BadCount(place, reason),
        Bad::Memory => Fault::Memory,
    }
}

// Puts the entries into empty tables. What owns these is left by no error here.
fn fill(
    alloc: Global,
    tables: &mut Tables,
    head: &Head,
    tasks: &[TaskEntry],
    resources: &[ResourceEntry],
    ops: &[OpEntry],
    counts: &[CountEntry],
    attrs: &[AttrEntry],
    text: &[u8],
    now: bool,
) -> Result<(), Fault>
    requires { tables.old ≡ empty_tables }
    ensures ok { OnOk result (spec.AreTables now head.now (record { tasks = tasks.now; resources = resources.now; ops = ops.now; counts = counts.now; attrs = attrs.now; text = text.now }) tables.new) }
    ensures err { IfErr result (faults.IsFaultOf now (record { tasks = tasks.now; resources = resources.now; ops = ops.now; counts = counts.now; attrs = attrs.now; text = text.now })) }
{
    if let Err((place, bad)) = put_tasks(alloc, tables, text, tasks, now) {
        return Err(task_fault(place, bad));
    }
    if let Err((place, bad)) = put_resources(alloc, tables, text, attrs, resources, now) {
        return Err(resource_fault(place, bad));
    }
    if let Err((place, bad)) = put_ops(alloc, tables, text, attrs, ops, now) {
        return Err(op_fault(place, bad));
    }
    if let Err((place, bad)) = put_counts(tables, counts, now) {
        return Err(count_fault(place, bad));
    }
    let dropped = Dropped {
        tasks: head.dropped_tasks,
        resources: head.dropped_resources,
        ops: head.dropped_ops,
    };
    tables.set_totals(dropped, head.moment);
    Ok(())
}

/// The tables of the entries: with `now` each with its row, and otherwise each with the row that was told.
pub(crate) fn tables_of(
    alloc: Global,
    head: &Head,
    tasks: &[TaskEntry],
    resources: &[ResourceEntry],
    ops: &[OpEntry],
    counts: &[CountEntry],
    attrs: &[AttrEntry],
    text: &[u8],
    now: bool,
) -> Result<Tables, Fault>
    ensures ok { IfOk result (λ tables. spec.AreTables now head.now (record { tasks = tasks.now; resources = resources.now; ops = ops.now; counts = counts.now; attrs = attrs.now; text = text.now }) tables) }
    ensures err { IfErr result (faults.IsFaultOf now (record { tasks = tasks.now; resources = resources.now; ops = ops.now; counts = counts.now; attrs = attrs.now; text = text.now })) }
{
    let Ok(mut tables) = Tables::new(alloc) else {
        return Err(Fault::Memory);
    };
    match fill(
        alloc,
        &mut tables,
        head,
        tasks,
        resources,
        ops,
        counts,
        attrs,
        text,
        now,
    ) {
        Ok(()) => Ok(tables),
        Err(fault) => Err(fault),
    }
}
