//! What a line makes of tables, in place.
//!
//! A line is checked in the order of its faults. Then its new items and counts go in after the others, which may want memory;
//! then rows and counts that are there are replaced, which wants none. What went in is cut off again where the line isn't taken.
//! What the line says is gone is left in the tables here: it leaves them last.
ghost use Rattle.std.specs.Prelude.{◌≡◌, ◌||◌, Ok, IfOk, OnOk, OnErr, map, true, false};
ghost use Rattle.std.specs.List.{list_any};
ghost use Rattle.tk_stream.specs.Applied.{told_item, new_items, without_gone};
ghost use Rattle.tk_stream.specs.Lines.{gone_of};
ghost use Rattle.tk_stream.specs.Tables.{counts_id};
ghost use Rattle.tk_client.specs.Taking as spec;
ghost use Rattle.tk_client.specs.Applying as inner;
ghost use Rattle.tk_client.specs.Applying.{Answers};

use crate::attrs::rows_fit;
use crate::counts::{add_counts, tell_counts};
use crate::fault::Fault;
use crate::ids::Ids;
use crate::leaving::GoneIds;
use crate::listed::Listed;
use std::alloc::{AllocError, Global};
use tk_ids::ResourceId;
use tk_stream::{Line, Op, Resource, Tables, Task};

/// What is found in a line's lists of one kind of item.
#[derive(Clone, Copy, PartialEq, Eq)]
pub(crate) enum Finding {
    /// No id is repeated, and each item that is told of is there or new.
    Sound,
    /// No id is repeated, and an item that is told of is neither there nor new.
    Strange,
    /// An id is repeated.
    Repeats,
}

fn info_ids<T: Listed>(alloc: Global, infos: &[T::Info]) -> Result<Vec<u64>, AllocError>
    ensures { IfOk result (λ ids. ids.items ≡ map (inner.info_id_by T.kind) infos.now) }
{
    let mut ids = Vec::with_capacity(alloc, infos.len())?;
    for info in infos {
        ids.push(T::info_id(info))?;
    }
    Ok(ids)
}

fn told_ids<T: Listed>(alloc: Global, stats: &[T::Stats]) -> Result<Vec<u64>, AllocError>
    ensures { IfOk result (λ ids. ids.items ≡ map (inner.stats_id_by T.kind) stats.now) }
{
    let mut ids = Vec::with_capacity(alloc, stats.len())?;
    for told in stats {
        ids.push(T::stats_id(told))?;
    }
    Ok(ids)
}

fn counted_ids(alloc: Global, counts: &[(ResourceId, u64, u64)]) -> Result<Vec<u64>, AllocError>
    ensures { IfOk result (λ ids. ids.items ≡ map counts_id counts.now) }
{
    let mut ids = Vec::with_capacity(alloc, counts.len())?;
    for (id, _, _) in counts {
        ids.push(id.value())?;
    }
    Ok(ids)
}

// Whether one of the new items is there.
fn has_any<T: Listed>(old: &Tables, infos: &[T::Info]) -> bool
    ensures { result ≡ list_any (inner.has_info T.kind (T.items old.now)) infos.now }
{
    for info in infos {
        if T::has_info(old, info) {
            return true;
        }
    }
    false
}

fn is_told_twice<T: Listed>(alloc: Global, stats: &[T::Stats]) -> Result<bool, AllocError>
    ensures { IfOk result (λ is. is ≡ spec.has_twice (map (inner.stats_id_by T.kind) stats.now)) }
{
    let ids = told_ids::<T>(alloc, stats)?;
    Ok(Ids::new(alloc, &ids)?.is_none())
}

// What is found of poll counts, whose resources need not be there.
fn look_at_counts(alloc: Global, counts: &[(ResourceId, u64, u64)]) -> Result<Finding, AllocError>
    ensures { IfOk result (λ f. f ≡ inner.finding (spec.has_twice (map counts_id counts.now)) false) }
{
    let ids = counted_ids(alloc, counts)?;
    match Ids::new(alloc, &ids)? {
        Some(_) => Ok(Finding::Sound),
        None => Ok(Finding::Repeats),
    }
}

// Whether what is told is of an item that is neither there nor new.
fn is_stranger<T: Listed>(old: &Tables, new: &Ids, told: &T::Stats) -> bool
    ensures { result ≡ inner.is_stranger T.kind (T.items old.now) new.now told.now }
{
    !(T::has_told(old, told) || new.has(T::stats_id(told)))
}

fn has_stranger<T: Listed>(old: &Tables, new: &Ids, stats: &[T::Stats]) -> bool
    ensures { result ≡ list_any (inner.is_stranger T.kind (T.items old.now) new.now) stats.now }
{
    for told in stats {
        if is_stranger::<T>(old, new, told) {
            return true;
        }
    }
    false
}

// What is found where the new ids are these.
fn look_beside<T: Listed>(
    alloc: Global,
    old: &Tables,
    ids: &[u64],
    stats: &[T::Stats],
) -> Result<Finding, AllocError>
    ensures { IfOk result (λ f. f ≡ inner.finding (spec.has_twice ids.now) (list_any (inner.is_stranger T.kind (T.items old.now) ids.now) stats.now)) }
{
    match Ids::new(alloc, ids)? {
        Some(new) => {
            if has_stranger::<T>(old, &new, stats) {
                Ok(Finding::Strange)
            } else {
                Ok(Finding::Sound)
            }
        }
        None => Ok(Finding::Repeats),
    }
}

// What is found of one kind.
fn look<T: Listed>(
    alloc: Global,
    old: &Tables,
    infos: &[T::Info],
    stats: &[T::Stats],
) -> Result<Finding, AllocError>
    ensures { IfOk result (λ f. f ≡ inner.finding (spec.repeats_kind T.kind (T.items old.now) infos.now stats.now) (spec.strange_kind T.kind (T.items old.now) infos.now stats.now)) }
{
    if has_any::<T>(old, infos) || is_told_twice::<T>(alloc, stats)? {
        return Ok(Finding::Repeats);
    }
    let ids = info_ids::<T>(alloc, infos)?;
    look_beside::<T>(alloc, old, &ids, stats)
}

fn worse(a: Finding, b: Finding) -> Finding
    ensures { result ≡ inner.worse a b }
{
    match (a, b) {
        (Finding::Repeats, _) | (_, Finding::Repeats) => Finding::Repeats,
        (Finding::Strange, _) | (_, Finding::Strange) => Finding::Strange,
        (Finding::Sound, Finding::Sound) => Finding::Sound,
    }
}

// What is found in what a line tells.
fn look_at_told(alloc: Global, old: &Tables, line: &Line) -> Result<Finding, AllocError>
    ensures { IfOk result (λ f. f ≡ inner.finding (spec.repeats_told old.now line.now) (spec.strange_told old.now line.now)) }
{
    let tasks = look::<Task>(alloc, old, line.new_tasks(), line.task_stats())?;
    let resources = look::<Resource>(alloc, old, line.new_resources(), line.resource_stats())?;
    let ops = look::<Op>(alloc, old, line.new_ops(), line.op_stats())?;
    let counts = look_at_counts(alloc, line.poll_counts())?;
    Ok(worse(tasks, worse(resources, worse(ops, counts))))
}

// Whether something is told of an item that is gone.
fn tells_gone<T: Listed>(gone: &Ids, stats: &[T::Stats]) -> bool
    ensures { result ≡ list_any (inner.is_leaving T.kind gone.now) stats.now }
{
    for told in stats {
        if gone.has(T::stats_id(told)) {
            return true;
        }
    }
    false
}

// Whether one of these isn't there.
fn misses_any<T: Listed>(old: &Tables, gone: &[u64]) -> bool
    ensures { result ≡ list_any (inner.is_missing T.kind (T.items old.now)) gone.now }
{
    for id in gone {
        if !T::has_id(old, *id) {
            return true;
        }
    }
    false
}

// What is found of the items of one kind that are gone.
fn look_at_kind<T: Listed>(old: &Tables, gone: &Ids, stats: &[T::Stats]) -> Finding
    ensures { result ≡ inner.finding (spec.repeats_gone_kind T.kind gone.now stats.now) (spec.strange_gone_kind T.kind (T.items old.now) gone.now) }
{
    let ids = gone.list();
    if ids.is_empty() {
        return Finding::Sound;
    }
    if tells_gone::<T>(gone, stats) {
        return Finding::Repeats;
    }
    if misses_any::<T>(old, ids) {
        return Finding::Strange;
    }
    Finding::Sound
}

// What is found in what a line says is gone.
fn look_at_gone(old: &Tables, line: &Line, leaving: &GoneIds) -> Finding
    requires { leaving.now ≡ gone_of line.now }
    ensures { result ≡ inner.finding (spec.repeats_gone line.now) (spec.strange_gone old.now line.now) }
{
    let tasks = look_at_kind::<Task>(old, &leaving.tasks, line.task_stats());
    let resources = look_at_kind::<Resource>(old, &leaving.resources, line.resource_stats());
    let ops = look_at_kind::<Op>(old, &leaving.ops, line.op_stats());
    worse(tasks, worse(resources, ops))
}

// What is found in a line.
fn look_at(
    alloc: Global,
    old: &Tables,
    line: &Line,
    leaving: &GoneIds,
) -> Result<Finding, AllocError>
    requires { leaving.now ≡ gone_of line.now }
    ensures { IfOk result (λ f. f ≡ inner.finding (spec.repeats_id old.now line.now) (spec.has_strange_id old.now line.now)) }
{
    let told = look_at_told(alloc, old, line)?;
    Ok(worse(look_at_gone(old, line, leaving), told))
}

fn told_of<T: Listed>(told: &Ids, stats: &[T::Stats], id: u64) -> Option<T::Stats>
    requires { told.now ≡ map (inner.stats_id_by T.kind) stats.now }
    ensures { result ≡ inner.told_of T.kind stats.now id }
{
    match told.place(id) {
        Some(i) => Some(stats[i]),
        None => None,
    }
}

// The new items go last, each with what is told of it, which is found by these ids.
fn add_each<T: Listed>(
    tables: &mut Tables,
    told: &Ids,
    infos: Vec<T::Info>,
    stats: &[T::Stats],
) -> Result<(), Fault>
    requires ids { told.now ≡ map (inner.stats_id_by T.kind) stats.now }
    requires once { spec.repeats_kind T.kind (T.items tables.old) infos.items stats.now ≡ false }
    ensures added { Answers (λ _. tables.new) result
        (inner.with_new T.with_items tables.old (T.items tables.old) (new_items T.kind stats.now infos.items)) }
    ensures grown { inner.Grown tables.old tables.new }
{
    for info in infos {
        let Some(own) = told_of::<T>(told, stats, T::info_id(&info)) else {
            return Err(Fault::Misfit);
        };
        T::add(tables, info, &own)?;
    }
    Ok(())
}

// The new items go last, each with what is told of it.
fn add_all<T: Listed>(
    alloc: Global,
    tables: &mut Tables,
    infos: Vec<T::Info>,
    stats: &[T::Stats],
) -> Result<(), Fault>
    requires { spec.repeats_kind T.kind (T.items tables.old) infos.items stats.now ≡ false }
    ensures added { Answers (λ _. tables.new) result
        (inner.with_new T.with_items tables.old (T.items tables.old) (new_items T.kind stats.now infos.items)) }
    ensures grown { inner.Grown tables.old tables.new }
{
    let ids = told_ids::<T>(alloc, stats)?;
    match Ids::new(alloc, &ids)? {
        Some(told) => add_each::<T>(tables, &told, infos, stats),
        None => unreachable!(),
    }
}

// New items of one kind, if there are any, go last.
fn add_new<T: Listed>(
    alloc: Global,
    tables: &mut Tables,
    infos: Vec<T::Info>,
    stats: &[T::Stats],
) -> Result<(), Fault>
    requires { spec.repeats_kind T.kind (T.items tables.old) infos.items stats.now ≡ false }
    ensures added { Answers (λ _. tables.new) result
        (inner.with_new T.with_items tables.old (T.items tables.old) (new_items T.kind stats.now infos.items)) }
    ensures grown { inner.Grown tables.old tables.new }
{
    if infos.is_empty() {
        Ok(())
    } else {
        add_all::<T>(alloc, tables, infos, stats)
    }
}

// New items, whose infos leave the line, and new counts go last.
fn grow(alloc: Global, tables: &mut Tables, line: &mut Line) -> Result<(), Fault>
    requires { spec.repeats_told tables.old line.old ≡ false }
    ensures added { Answers (λ _. tables.new) result (inner.or_misfit (inner.tables_grown tables.old line.old)) }
    ensures grown { inner.Grown tables.old tables.new }
    ensures spent { OnOk result (line.new ≡ inner.spent line.old) }
{
    let tasks = line.take_new_tasks();
    add_new::<Task>(alloc, tables, tasks, line.task_stats())?;
    let resources = line.take_new_resources();
    add_new::<Resource>(alloc, tables, resources, line.resource_stats())?;
    let ops = line.take_new_ops();
    add_new::<Op>(alloc, tables, ops, line.op_stats())?;
    add_counts(tables, line.poll_counts())?;
    Ok(())
}

fn tell_at<T: Listed>(tables: &mut Tables, told: &T::Stats)
    ensures { tables.new ≡ T.with_items tables.old (inner.retold_by T.kind (T.items tables.old) told.now) }
{
    if let Some(i) = T::place(tables, told) {
        T::tell(tables, i, told);
    }
}

// The items of which something is told take it.
fn tell_all<T: Listed>(tables: &mut Tables, stats: &[T::Stats])
    requires distinct { inner.HaveOneId T.kind (T.items tables.old) }
    requires once { spec.has_twice (map (inner.stats_id_by T.kind) stats.now) ≡ false }
    ensures { tables.new ≡ T.with_items tables.old (map (told_item T.kind stats.now) (T.items tables.old)) }
{
    for told in stats {
        tell_at::<T>(tables, told);
    }
}

// Rows, counts and numbers that are told take the place of those that are there.
fn tell_line(tables: &mut Tables, line: &Line)
    requires once { inner.TellsOnce line.now }
    requires counted { inner.AreCounted tables.old.counts line.now.poll_counts }
    ensures { tables.new ≡ inner.tables_told tables.old line.now }
{
    tables.task_count();
    tell_all::<Task>(tables, line.task_stats());
    tell_all::<Resource>(tables, line.resource_stats());
    tell_all::<Op>(tables, line.op_stats());
    tell_counts(tables, line.poll_counts());
    tables.set_totals(line.dropped(), line.now());
}

// What goes in after the others, where the line then has no fault.
fn grow_fitting(alloc: Global, tables: &mut Tables, line: &mut Line) -> Result<(), Fault>
    requires once { spec.repeats_told tables.old line.old ≡ false }
    requires known { spec.strange_told tables.old line.old ≡ false }
    requires fit { spec.are_fitting tables.old ≡ true }
    ensures applied { Answers (λ _. inner.tables_told tables.new line.old) result (spec.line_applied tables.old (inner.told_part line.old)) }
    ensures counted { OnOk result (inner.AreCounted tables.new.counts line.old.poll_counts) }
    ensures grown { inner.Grown tables.old tables.new }
    ensures spent { OnOk result (line.new ≡ inner.spent line.old) }
{
    match grow(alloc, tables, line) {
        Ok(()) => {
            if rows_fit(tables, line) {
                Ok(())
            } else {
                Err(Fault::Misfit)
            }
        }
        Err(fault) => Err(fault),
    }
}

// Grows the tables, or leaves them as they are.
fn grow_or_cut(alloc: Global, tables: &mut Tables, line: &mut Line) -> Result<(), Fault>
    requires once { spec.repeats_told tables.old line.old ≡ false }
    requires known { spec.strange_told tables.old line.old ≡ false }
    requires fit { spec.are_fitting tables.old ≡ true }
    ensures applied { Answers (λ _. inner.tables_told tables.new line.old) result (spec.line_applied tables.old (inner.told_part line.old)) }
    ensures counted { OnOk result (inner.AreCounted tables.new.counts line.old.poll_counts) }
    ensures kept { OnErr result (tables.new ≡ tables.old) }
    ensures spent { OnOk result (line.new ≡ inner.spent line.old) }
{
    let tasks = tables.task_count();
    let resources = tables.resource_count();
    let ops = tables.op_count();
    let counted = tables.counted();
    let grown = grow_fitting(alloc, tables, line);
    if grown.is_err() {
        tables.cut(tasks, resources, ops, counted);
    }
    grown
}

// Applies what a line tells, where no id is repeated or strange.
fn apply_sound(alloc: Global, tables: &mut Tables, line: &mut Line) -> Result<(), Fault>
    requires once { spec.repeats_told tables.old line.old ≡ false }
    requires known { spec.strange_told tables.old line.old ≡ false }
    requires fit { spec.are_fitting tables.old ≡ true }
    ensures applied { Answers (λ _. tables.new) result (spec.line_applied tables.old (inner.told_part line.old)) }
    ensures kept { OnErr result (tables.new ≡ tables.old) }
    ensures spent { OnOk result (line.new ≡ inner.spent line.old) }
{
    match grow_or_cut(alloc, tables, line) {
        Ok(()) => {
            tell_line(tables, line);
            Ok(())
        }
        Err(fault) => Err(fault),
    }
}

/// Makes of tables what a line makes of them, but for what is gone, which is still there then: these items are to leave
/// the tables. Or it leaves the tables as they are. The infos of new items go from the line into the tables.
#[tactic(auto, unfolding(crate::specs::Taking::line_applied))]
pub(crate) fn apply_told(
    alloc: Global,
    tables: &mut Tables,
    line: &mut Line,
    leaving: &GoneIds,
) -> Result<(), Fault>
    requires fit { spec.are_fitting tables.old ≡ true }
    requires gone { leaving.now ≡ gone_of line.old }
    ensures applied { Answers (λ _. without_gone tables.new leaving.now) result (spec.line_applied tables.old line.old) }
    ensures told { OnOk result (spec.line_applied tables.old (inner.told_part line.old) ≡ Ok tables.new) }
    ensures kept { OnErr result (tables.new ≡ tables.old) }
    ensures fit { spec.are_fitting tables.new ≡ true }
    ensures spent { OnOk result (line.new ≡ inner.spent line.old) }
{
    match look_at(alloc, tables, line, leaving)? {
        Finding::Repeats => Err(Fault::Repeated),
        Finding::Strange => Err(Fault::UnknownId),
        Finding::Sound => apply_sound(alloc, tables, line),
    }
}
