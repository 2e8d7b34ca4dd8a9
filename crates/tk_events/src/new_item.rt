//! New items: the ledger, its owner, and the event with the inspector.
//!
//! All that takes memory is done before a spec is taken apart, so that a refused call hands it back.
ghost use Rattle.std.specs.Prelude.{◌≡◌, true, ◌+◌, ◌<◌, ◌≤◌, length, Some, None, IfOk, IfErr, IfSome};
ghost use Rattle.tk_ids.specs.Attributes.{are_attributes, spec_names};
ghost use Rattle.tk_ids.specs.Ids.{id_of};
ghost use Rattle.tk_ids.specs.IdBlocks.{last_number};
ghost use Rattle.tk_core.specs.declared.task.call.TaskCall.TheVariants.{Enlist as EnlistTask};
ghost use Rattle.tk_core.specs.declared.resource.call.ResourceCall.TheVariants.{Enlist as EnlistResource};
ghost use Rattle.tk_core.specs.declared.op.call.OpCall.TheVariants.{Enlist as EnlistOp};
ghost use Rattle.tk_core.specs.Task.{IsOpening};
ghost use Rattle.tk_core.specs.Resource.{opening_row as resource_row};
ghost use Rattle.tk_core.specs.Op.{opening_row as op_row};
ghost use Rattle.tk_ledgers.specs.Times.{IsNewHistogram};
ghost use Rattle.tk_events.specs.declared.event.Event.TheVariants.{Task};
ghost use Rattle.tk_events.specs.declared.event.Shown.TheVariants.{MadeTask, MadeResource, MadeOp};
ghost use Rattle.tk_events.specs.Items.{info_of, infos_of, first_values, task_info, resource_info, op_info, owner_view, inspector_view, HasNewTimes, HasTimesAs, InspectsNewTimes, opening_as, Agrees};
ghost use Rattle.tk_events.specs.Offers.{shown, times_ledger};

use crate::counting::Counting;
use crate::event::Event;
use std::alloc::{AllocError, Global};
use std::sync::Wait;
use tk_core::{Refusal, TaskRow};
use tk_ids::{
    AsyncOpId, AttrInfo, AttrInfos, AttrSpec, AttrValue, Attrs, IdBlock, OpInfo, OpSpec,
    ResourceId, ResourceInfo, ResourceSpec, TaskId, TaskInfo, TaskSpec,
};
use tk_ledgers::{
    OpInspector, OpOwner, ResourceInspector, ResourceOwner, TaskInspector, TaskOwner,
    TimesInspector,
};

/// A block that has given out the same ids.
pub(crate) fn same_ids(ids: &IdBlock) -> IdBlock
    ensures { result ≡ ids.now }
{
    match IdBlock::resume(ids.recorder(), ids.tasks(), ids.resources(), ids.ops()) {
        Ok(same) => same,
        Err(_) => unreachable!(),
    }
}

/// The id of the next task, and the block after it.
pub(crate) fn next_task(ids: &IdBlock) -> (IdBlock, TaskId)
    requires { ids.now.tasks < last_number }
    ensures block { result.0 ≡ record ids.now { tasks = ids.now.tasks + 1 } }
    ensures id { result.1 ≡ id_of ids.now.recorder (ids.now.tasks + 1) }
{
    let mut after = same_ids(ids);
    match after.next_task() {
        Ok(id) => (after, id),
        Err(_) => unreachable!(),
    }
}

/// The id of the next resource, and the block after it.
pub(crate) fn next_resource(ids: &IdBlock) -> (IdBlock, ResourceId)
    requires { ids.now.resources < last_number }
    ensures block { result.0 ≡ record ids.now { resources = ids.now.resources + 1 } }
    ensures id { result.1 ≡ id_of ids.now.recorder (ids.now.resources + 1) }
{
    let mut after = same_ids(ids);
    match after.next_resource() {
        Ok(id) => (after, id),
        Err(_) => unreachable!(),
    }
}

/// The id of the next operation, and the block after it.
pub(crate) fn next_op(ids: &IdBlock) -> (IdBlock, AsyncOpId)
    requires { ids.now.ops < last_number }
    ensures block { result.0 ≡ record ids.now { ops = ids.now.ops + 1 } }
    ensures id { result.1 ≡ id_of ids.now.recorder (ids.now.ops + 1) }
{
    let mut after = same_ids(ids);
    match after.next_op() {
        Ok(id) => (after, id),
        Err(_) => unreachable!(),
    }
}

fn info_of(attr: &AttrSpec) -> Result<AttrInfo, AllocError>
    ensures { IfOk result (λ info. info ≡ info_of attr.now) }
{
    let name = attr.name.clone()?;
    let unit = attr.unit.clone()?;
    Ok(AttrInfo {
        name,
        unit,
        kind: attr.first.kind(),
    })
}

// What stays of the attributes, as a list.
fn info_list(alloc: Global, attrs: &Attrs) -> Result<Vec<AttrInfo>, AllocError>
    ensures list { IfOk result (λ list. list.items ≡ infos_of attrs.now) }
    ensures attrs { are_attributes (spec_names attrs.now) ≡ true }
{
    let mut list = Vec::new(alloc);
    for attr in attrs.as_slice() {
        list.push(info_of(attr)?)?;
    }
    Ok(list)
}

fn infos_of(alloc: Global, attrs: &Attrs) -> Result<AttrInfos, AllocError>
    ensures { IfOk result (λ infos. infos ≡ infos_of attrs.now) }
{
    let list = info_list(alloc, attrs)?;
    match AttrInfos::new(list) {
        Ok(infos) => Ok(infos),
        Err(_) => unreachable!(),
    }
}

fn first_values(alloc: Global, attrs: &Attrs) -> Result<Vec<AttrValue>, AllocError>
    ensures values { IfOk result (λ values. values.items ≡ first_values attrs.now) }
    ensures few { IfOk result (λ values. length values.items ≤ 6) }
{
    let mut values = Vec::new(alloc);
    for attr in attrs.as_slice() {
        values.push(attr.first)?;
    }
    Ok(values)
}

// The handles of a new task. Nothing, where memory is refused.
fn task_ledger<R: Wait>(
    rt: &R,
    alloc: Global,
    id: TaskId,
    opening: TaskRow,
) -> Option<(TaskOwner, TaskInspector)>
    requires { IsOpening opening }
    ensures ids { IfSome result (λ made. (made.0.id ≡ id) × (made.1.id ≡ id)) }
    ensures same { IfSome result (λ made. made.1.token.ledger ≡ made.0.token.ledger) }
    ensures owner { IfSome result (λ made. made.0.token.view ≡ owner_view EnlistTask opening) }
    ensures inspector { IfSome result (λ made. made.1.token.view ≡ inspector_view EnlistTask opening) }
    ensures times { IfSome result (λ made. (made.0.times ≡ None) × (made.1.times ≡ None)) }
{
    match TaskOwner::with_opening(rt, alloc, id, opening) {
        Ok(mut owner) => match owner.inspect(rt) {
            Ok(inspector) => Some((owner, inspector)),
            Err(refusal) => {
                if refusal != Refusal::Memory {
                    unreachable!()
                }
                None
            }
        },
        Err(_) => None,
    }
}

// The inspector of a new task's histogram. Nothing, where memory is refused.
fn times_inspector<R: Wait>(rt: &R, owner: &mut TaskOwner) -> Option<TimesInspector>
    requires { IsNewHistogram owner.old.times }
    ensures id { owner.new.id ≡ owner.old.id }
    ensures token { owner.new.token ≡ owner.old.token }
    ensures made_id { IfSome result (λ made. made.id ≡ owner.old.id) }
    ensures owner { IfSome result (λ _. HasNewTimes owner.new.times) }
    ensures inspector { IfSome result (λ made. InspectsNewTimes owner.new.times (Some made.token)) }
{
    match owner.inspect_times(rt) {
        Some(Ok(times)) => Some(times),
        Some(Err(refusal)) => {
            if refusal != Refusal::Memory {
                unreachable!()
            }
            None
        }
        None => unreachable!(),
    }
}

// The handles of a new task with a histogram, whose inspector reads both. Nothing, where memory is refused.
fn timed_ledger<R: Wait>(
    rt: &R,
    alloc: Global,
    id: TaskId,
    opening: TaskRow,
) -> Option<(TaskOwner, TaskInspector)>
    requires { IsOpening opening }
    ensures ids { IfSome result (λ made. (made.0.id ≡ id) × (made.1.id ≡ id)) }
    ensures same { IfSome result (λ made. made.1.token.ledger ≡ made.0.token.ledger) }
    ensures owner { IfSome result (λ made. made.0.token.view ≡ owner_view EnlistTask opening) }
    ensures inspector { IfSome result (λ made. made.1.token.view ≡ inspector_view EnlistTask opening) }
    ensures times { IfSome result (λ made. HasNewTimes made.0.times) }
    ensures times_inspector { IfSome result (λ made. InspectsNewTimes made.0.times made.1.times) }
{
    match TaskOwner::with_opening_and_times(rt, alloc, id, opening) {
        Ok(mut owner) => match owner.inspect(rt) {
            Ok(inspector) => match times_inspector(rt, &mut owner) {
                Some(times) => Some((owner, inspector.with_times(times))),
                None => None,
            },
            Err(refusal) => {
                if refusal != Refusal::Memory {
                    unreachable!()
                }
                None
            }
        },
        Err(_) => None,
    }
}

// The handles of a new resource. Nothing, where memory is refused.
fn resource_ledger<R: Wait>(
    rt: &R,
    alloc: Global,
    id: ResourceId,
    created: u64,
    values: &[AttrValue],
) -> Option<(ResourceOwner, ResourceInspector)>
    requires { length values.now ≤ 6 }
    ensures ids { IfSome result (λ made. (made.0.id ≡ id) × (made.1.id ≡ id)) }
    ensures same { IfSome result (λ made. made.1.token.ledger ≡ made.0.token.ledger) }
    ensures owner { IfSome result (λ made. made.0.token.view ≡ owner_view EnlistResource (resource_row created values.now)) }
    ensures inspector { IfSome result (λ made. made.1.token.view ≡ inspector_view EnlistResource (resource_row created values.now)) }
{
    match ResourceOwner::new(rt, alloc, id, created, values) {
        Ok(mut owner) => match owner.inspect(rt) {
            Ok(inspector) => Some((owner, inspector)),
            Err(refusal) => {
                if refusal != Refusal::Memory {
                    unreachable!()
                }
                None
            }
        },
        Err(_) => None,
    }
}

// The handles of a new operation. Nothing, where memory is refused.
fn op_ledger<R: Wait>(
    rt: &R,
    alloc: Global,
    id: AsyncOpId,
    created: u64,
    values: &[AttrValue],
) -> Option<(OpOwner, OpInspector)>
    requires { length values.now ≤ 6 }
    ensures ids { IfSome result (λ made. (made.0.id ≡ id) × (made.1.id ≡ id)) }
    ensures same { IfSome result (λ made. made.1.token.ledger ≡ made.0.token.ledger) }
    ensures owner { IfSome result (λ made. made.0.token.view ≡ owner_view EnlistOp (op_row created values.now)) }
    ensures inspector { IfSome result (λ made. made.1.token.view ≡ inspector_view EnlistOp (op_row created values.now)) }
{
    match OpOwner::new(rt, alloc, id, created, values) {
        Ok(mut owner) => match owner.inspect(rt) {
            Ok(inspector) => Some((owner, inspector)),
            Err(refusal) => {
                if refusal != Refusal::Memory {
                    unreachable!()
                }
                None
            }
        },
        Err(_) => None,
    }
}

// The event that tells of a new task.
fn task_event(id: TaskId, spec: TaskSpec, inspector: TaskInspector) -> Event
    ensures { result ≡ Task (task_info id spec) inspector }
{
    let info = TaskInfo {
        id,
        kind: spec.kind,
        name: spec.name,
        location: spec.location,
    };
    Event::Task(info, inspector)
}

/// The owner of a new task, and the event that tells of it. The spec, where memory is refused.
pub(crate) fn new_task<R: Wait>(
    rt: &R,
    alloc: Global,
    id: TaskId,
    spec: TaskSpec,
    opening: TaskRow,
) -> Result<(TaskOwner, Event), TaskSpec>
    requires { IsOpening opening }
    ensures id { IfOk result (λ made. made.0.id ≡ id) }
    ensures owner { IfOk result (λ made. made.0.token.view ≡ owner_view EnlistTask opening) }
    ensures times { IfOk result (λ made. made.0.times ≡ None) }
    ensures event { IfOk result (λ made. shown made.1 ≡ MadeTask (task_info id spec) made.0.token.ledger 1 None) }
    ensures agrees { IfOk result (λ made. Agrees made.1) }
    ensures back { IfErr result (λ back. back ≡ spec) }
{
    let Some((owner, inspector)) = task_ledger(rt, alloc, id, opening) else {
        return Err(spec);
    };
    Ok((owner, task_event(id, spec, inspector)))
}

/// The owner of a new task with a histogram, and the event that tells of it, whose inspector reads both. The spec, where memory is
/// refused.
pub(crate) fn new_timed_task<R: Wait>(
    rt: &R,
    alloc: Global,
    id: TaskId,
    spec: TaskSpec,
    opening: TaskRow,
) -> Result<(TaskOwner, Event), TaskSpec>
    requires { IsOpening opening }
    ensures id { IfOk result (λ made. made.0.id ≡ id) }
    ensures owner { IfOk result (λ made. made.0.token.view ≡ owner_view EnlistTask opening) }
    ensures times { IfOk result (λ made. HasNewTimes made.0.times) }
    ensures event { IfOk result (λ made. shown made.1 ≡ MadeTask (task_info id spec) made.0.token.ledger 1 (times_ledger made.0.times)) }
    ensures agrees { IfOk result (λ made. Agrees made.1) }
    ensures back { IfErr result (λ back. back ≡ spec) }
{
    let Some((owner, inspector)) = timed_ledger(rt, alloc, id, opening) else {
        return Err(spec);
    };
    Ok((owner, task_event(id, spec, inspector)))
}

fn opening_of(created: u64, waits: bool) -> TaskRow
    ensures row { result ≡ opening_as waits created }
    ensures opens { IsOpening result }
{
    if waits {
        TaskRow::counting(created)
    } else {
        TaskRow::opening(created)
    }
}

/// The owner of a new task of which this is counted, and the event that tells of it. The spec, where memory is refused.
pub(crate) fn new_counting_task<R: Wait>(
    rt: &R,
    alloc: Global,
    id: TaskId,
    spec: TaskSpec,
    created: u64,
    counting: Counting,
) -> Result<(TaskOwner, Event), TaskSpec>
    ensures id { IfOk result (λ made. made.0.id ≡ id) }
    ensures owner { IfOk result (λ made. made.0.token.view ≡ owner_view EnlistTask (opening_as counting.waits created)) }
    ensures times { IfOk result (λ made. HasTimesAs counting.times made.0.times) }
    ensures event { IfOk result (λ made. shown made.1 ≡ MadeTask (task_info id spec) made.0.token.ledger 1 (times_ledger made.0.times)) }
    ensures agrees { IfOk result (λ made. Agrees made.1) }
    ensures back { IfErr result (λ back. back ≡ spec) }
{
    let opening = opening_of(created, counting.waits);
    if counting.times {
        new_timed_task(rt, alloc, id, spec, opening)
    } else {
        new_task(rt, alloc, id, spec, opening)
    }
}

// What stays of the attributes, and their first values. Nothing, where memory is refused.
fn attributes(alloc: Global, attrs: &Attrs) -> Option<(AttrInfos, Vec<AttrValue>)>
    ensures infos { IfSome result (λ made. made.0 ≡ infos_of attrs.now) }
    ensures values { IfSome result (λ made. made.1.items ≡ first_values attrs.now) }
    ensures few { IfSome result (λ made. length made.1.items ≤ 6) }
{
    match infos_of(alloc, attrs) {
        Ok(infos) => match first_values(alloc, attrs) {
            Ok(values) => Some((infos, values)),
            Err(_) => None,
        },
        Err(_) => None,
    }
}

/// The owner of a new resource, and the event that tells of it. The spec, where memory is refused.
pub(crate) fn new_resource<R: Wait>(
    rt: &R,
    alloc: Global,
    id: ResourceId,
    spec: ResourceSpec,
    created: u64,
) -> Result<(ResourceOwner, Event), ResourceSpec>
    ensures id { IfOk result (λ made. made.0.id ≡ id) }
    ensures owner { IfOk result (λ made. made.0.token.view ≡ owner_view EnlistResource (resource_row created (first_values spec.attrs))) }
    ensures event { IfOk result (λ made. shown made.1 ≡ MadeResource (resource_info id spec) made.0.token.ledger 1) }
    ensures agrees { IfOk result (λ made. Agrees made.1) }
    ensures back { IfErr result (λ back. back ≡ spec) }
{
    let Some((attrs, values)) = attributes(alloc, &spec.attrs) else {
        return Err(spec);
    };
    let Some((owner, inspector)) = resource_ledger(rt, alloc, id, created, values.as_slice()) else {
        return Err(spec);
    };
    let info = ResourceInfo {
        id,
        parent: spec.parent,
        concrete: spec.concrete,
        kind: spec.kind,
        location: spec.location,
        attrs,
    };
    Ok((owner, Event::Resource(info, inspector)))
}

/// The owner of a new operation, and the event that tells of it. The spec, where memory is refused.
pub(crate) fn new_op<R: Wait>(
    rt: &R,
    alloc: Global,
    id: AsyncOpId,
    spec: OpSpec,
    created: u64,
) -> Result<(OpOwner, Event), OpSpec>
    ensures id { IfOk result (λ made. made.0.id ≡ id) }
    ensures owner { IfOk result (λ made. made.0.token.view ≡ owner_view EnlistOp (op_row created (first_values spec.attrs))) }
    ensures event { IfOk result (λ made. shown made.1 ≡ MadeOp (op_info id spec) made.0.token.ledger 1) }
    ensures agrees { IfOk result (λ made. Agrees made.1) }
    ensures back { IfErr result (λ back. back ≡ spec) }
{
    let Some((attrs, values)) = attributes(alloc, &spec.attrs) else {
        return Err(spec);
    };
    let Some((owner, inspector)) = op_ledger(rt, alloc, id, created, values.as_slice()) else {
        return Err(spec);
    };
    let info = OpInfo {
        id,
        source: spec.source,
        resource: spec.resource,
        parent: spec.parent,
        attrs,
    };
    Ok((owner, Event::Op(info, inspector)))
}
