//! What is known of the values that lines and tables hold: each is in the range of its type.
//!
//! These functions read a value and do nothing with it. `specs/Ranges.antt` says what the ranges are.
ghost use Rattle.std.specs.Prelude.{◌≡◌, true, IfSome};
ghost use Rattle.std.specs.List.{AllByRecursion};
ghost use Rattle.tk_core.specs.Attributes.{is_i64};
ghost use Rattle.tk_stream.specs.Ranges as ranges;

use crate::tables::times::{PollTimes, WaitTimes};
use tk_core::{AttrValues, OpRow, ResourceRow, TaskRow, Waits};
use tk_ids::{
    AsyncOpId, AttrInfo, AttrInfos, AttrValue, Dropped, Location, Name, OpInfo, ResourceId,
    ResourceInfo, TaskId, TaskInfo,
};

/// A type whose values are in a range.
pub trait Ranged {
    ghost in_range: { Self → Type 0 };

    fn see(&self)
        ensures { in_range self.now };
}

/// Each value of a list is in its range.
pub(crate) fn see_each<T: Ranged>(list: &[T])
    ensures { AllByRecursion T.in_range list.now }
{
    for item in list {
        item.see();
    }
}

/// Each value of a vector is in its range.
pub(crate) fn see_all<T: Ranged>(list: &Vec<T>)
    ensures { AllByRecursion T.in_range list.now.items }
{
    see_each(list.as_slice());
}

// ---- numbers, ids and names

/// A number is in its range.
pub(crate) fn see_number(_number: u64)
    ensures { ranges.IsNumber _number }
{}

pub(crate) fn see_signed(_number: i64)
    ensures { is_i64 _number ≡ true }
{}

fn see_optional(number: Option<u64>)
    ensures { ranges.IsOptional number }
{
    match number {
        Some(n) => see_number(n),
        None => {}
    }
}

fn see_waits(waits: Option<Waits>)
    ensures { IfSome waits ranges.AreWaits }
{
    match waits {
        Some(waits) => {
            see_number(waits.total);
            waits.so_far.nanos();
        }
        None => {}
    }
}

fn see_task_id(id: TaskId)
    ensures { ranges.IsId id }
{
    id.value();
}

fn see_resource_id(id: ResourceId)
    ensures { ranges.IsId id }
{
    id.value();
}

fn see_op_id(id: AsyncOpId)
    ensures { ranges.IsId id }
{
    id.value();
}

fn see_optional_task(id: Option<TaskId>)
    ensures { ranges.IsOptionalId id }
{
    match id {
        Some(id) => see_task_id(id),
        None => {}
    }
}

fn see_optional_resource(id: Option<ResourceId>)
    ensures { ranges.IsOptionalId id }
{
    match id {
        Some(id) => see_resource_id(id),
        None => {}
    }
}

fn see_optional_op(id: Option<AsyncOpId>)
    ensures { ranges.IsOptionalId id }
{
    match id {
        Some(id) => see_op_id(id),
        None => {}
    }
}

fn see_name(name: &Name)
    ensures { ranges.IsName name.now }
{
    name.as_bytes();
}

fn see_unit(unit: &Option<Name>)
    ensures { IfSome unit.now ranges.IsName }
{
    match unit {
        Some(unit) => see_name(unit),
        None => {}
    }
}

fn see_location(at: &Location)
    ensures { ranges.IsLocation at.now }
{
    see_name(&at.file);
    let _line = at.line;
    let _column = at.column;
}

/// Totals are in their ranges.
pub(crate) fn see_totals(dropped: Dropped)
    ensures { ranges.AreTotals dropped }
{
    see_number(dropped.tasks);
    see_number(dropped.resources);
    see_number(dropped.ops);
}

// ---- ids

impl Ranged for TaskId {
    ghost use Rattle.tk_stream.specs.Ranges.{IsId};

    ghost in_range = { IsId };

    fn see(&self) {
        see_task_id(*self);
    }
}

impl Ranged for ResourceId {
    ghost use Rattle.tk_stream.specs.Ranges.{IsId};

    ghost in_range = { IsId };

    fn see(&self) {
        see_resource_id(*self);
    }
}

impl Ranged for AsyncOpId {
    ghost use Rattle.tk_stream.specs.Ranges.{IsId};

    ghost in_range = { IsId };

    fn see(&self) {
        see_op_id(*self);
    }
}

// ---- attributes

impl Ranged for AttrInfo {
    ghost use Rattle.tk_stream.specs.Ranges.{IsAttr};

    ghost in_range = { IsAttr };

    fn see(&self) {
        see_name(&self.name);
        see_unit(&self.unit);
    }
}

fn see_attrs(attrs: &AttrInfos)
    ensures { ranges.AreAttrs attrs.now }
{
    see_each(attrs.as_slice());
}

impl Ranged for AttrValue {
    ghost use Rattle.tk_stream.specs.Ranges.{IsValue};

    ghost in_range = { IsValue };

    fn see(&self) {
        match *self {
            AttrValue::U64(n) => see_number(n),
            AttrValue::Bool(_) => {}
            AttrValue::I64(n) => see_signed(n),
        }
    }
}

fn see_values(values: &AttrValues)
    ensures { ranges.AreValues values.now }
{
    values.len();
    see_each(values.list().as_slice());
}

// ---- infos

impl Ranged for TaskInfo {
    ghost use Rattle.tk_stream.specs.Ranges.{IsTaskInfo};

    ghost in_range = { IsTaskInfo };

    fn see(&self) {
        see_task_id(self.id);
        see_name(&self.name);
        see_location(&self.location);
    }
}

impl Ranged for ResourceInfo {
    ghost use Rattle.tk_stream.specs.Ranges.{IsResourceInfo};

    ghost in_range = { IsResourceInfo };

    fn see(&self) {
        see_resource_id(self.id);
        see_optional_resource(self.parent);
        see_name(&self.concrete);
        see_name(&self.kind);
        see_location(&self.location);
        see_attrs(&self.attrs);
    }
}

impl Ranged for OpInfo {
    ghost use Rattle.tk_stream.specs.Ranges.{IsOpInfo};

    ghost in_range = { IsOpInfo };

    fn see(&self) {
        see_op_id(self.id);
        see_name(&self.source);
        see_resource_id(self.resource);
        see_optional_op(self.parent);
        see_attrs(&self.attrs);
    }
}

// ---- rows and counts, each with its id

impl Ranged for (TaskId, TaskRow) {
    ghost use Rattle.tk_stream.specs.Ranges.{AreTaskStats};

    ghost in_range = { AreTaskStats };

    fn see(&self) {
        let (id, row) = *self;
        see_task_id(id);
        see_number(row.created);
        see_optional(row.dropped);
        see_number(row.polls);
        see_optional(row.first_poll);
        see_optional(row.last_started);
        see_optional(row.last_ended);
        see_number(row.busy);
        see_number(row.wakes);
        see_number(row.self_wakes);
        see_optional(row.last_wake);
        see_number(row.clones);
        see_number(row.drops);
        see_number(row.handles);
        see_number(row.sched);
        see_waits(row.waits);
    }
}

impl Ranged for (ResourceId, ResourceRow) {
    ghost use Rattle.tk_stream.specs.Ranges.{AreResourceStats};

    ghost in_range = { AreResourceStats };

    fn see(&self) {
        let (id, row) = *self;
        see_resource_id(id);
        see_number(row.created);
        see_optional(row.dropped);
        see_number(row.handles);
        see_values(&row.attrs);
    }
}

impl Ranged for (AsyncOpId, OpRow) {
    ghost use Rattle.tk_stream.specs.Ranges.{AreOpStats};

    ghost in_range = { AreOpStats };

    fn see(&self) {
        let (id, row) = *self;
        see_op_id(id);
        see_number(row.created);
        see_optional(row.dropped);
        see_number(row.polls);
        see_optional(row.first_poll);
        see_optional(row.last_started);
        see_optional(row.last_ended);
        see_number(row.busy);
        see_number(row.handles);
        see_optional_task(row.task);
        see_values(&row.attrs);
    }
}

/// The number of a count.
impl Ranged for u64 {
    ghost use Rattle.tk_stream.specs.Ranges.{IsNumber};

    ghost in_range = { IsNumber };

    fn see(&self) {
        see_number(*self);
    }
}

impl Ranged for (TaskId, PollTimes) {
    ghost use Rattle.tk_stream.specs.Ranges.{AreTimes};

    ghost in_range = { AreTimes };

    fn see(&self) {
        let (id, times) = *self;
        see_task_id(id);
        see_number(times.longest);
        see_each(&times.counts);
        see_wait_times(times.waits);
    }
}

fn see_wait_times(waits: Option<WaitTimes>)
    ensures { IfSome waits ranges.AreWaitTimes }
{
    match waits {
        Some(waits) => {
            see_number(waits.longest);
            see_each(&waits.counts);
        }
        None => {}
    }
}

impl Ranged for (ResourceId, u64, u64) {
    ghost use Rattle.tk_stream.specs.Ranges.{AreCounts};

    ghost in_range = { AreCounts };

    fn see(&self) {
        let (id, ready, pending) = *self;
        see_resource_id(id);
        see_number(ready);
        see_number(pending);
    }
}
