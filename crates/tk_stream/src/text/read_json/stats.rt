//! Statistics and poll counts, read from JSON.
ghost use Rattle.std.specs.Prelude.{◌≡◌, option_map, map};
ghost use Rattle.serde_json.specs.View.{view};
ghost use Rattle.tk_stream.specs.Outcome.{Answers, shaped};
ghost use Rattle.tk_stream.specs.Reading as spec;

use crate::error::LineError;
use crate::text::read_json::fields::{
    flag_at, has_members, list_at, number_at, op_id_at, optional_at, optional_task_at,
    resource_id_at, resource_id_of, task_id_at,
};
use crate::text::read_json::shaped::{Shaped, list_of};
use serde_json::Value;
use std::alloc::Global;
use tk_core::{AttrValues, OpRow, ResourceRow, TaskRow, WaitSoFar, Waits};
use tk_ids::{AsyncOpId, AttrValue, ResourceId, TaskId};

// A signed value: a list of one number that is read as signed.
fn signed_in(values: &[Value]) -> Option<AttrValue>
    ensures { result ≡ spec.signed_in (map view values.now) }
{
    match values {
        [number] => Some(AttrValue::I64(number.as_i64()?)),
        _ => None,
    }
}

fn value_of(value: &Value) -> Option<AttrValue>
    ensures { result ≡ spec.value_of (view value.now) }
{
    match value {
        Value::Bool(b) => Some(AttrValue::Bool(*b)),
        Value::Array(_) => signed_in(values_of(value)?),
        _ => Some(AttrValue::U64(value.as_u64()?)),
    }
}

impl Shaped for AttrValue {
    ghost use Rattle.tk_stream.specs.Reading.{value_of as shape_of_value};
    ghost use Rattle.tk_stream.specs.SmallShapes.{value_small};

    ghost shape = { shape_of_value };

    fn of_value(_alloc: Global, value: &Value) -> Result<AttrValue, LineError> {
        match value_of(value) {
            Some(value) => Ok(value),
            None => Err(LineError::BadShape),
        }
    }

    ghost keeps = { value_small };
}

#[tactic(auto, unfolding(crate::specs::Reading::values_in))]
fn values_in(alloc: Global, values: &[Value]) -> Result<AttrValues, LineError>
    ensures { Answers (λ vs. vs) result (shaped (spec.values_in (map view values.now))) }
{
    let list: Vec<AttrValue> = list_of(alloc, values)?;
    if list.len() > 6 {
        return Err(LineError::BadShape);
    }
    Ok(AttrValues::new(list.as_slice()))
}

// What was counted of one wait: a number below 2^56.
fn so_far_of(value: &Value) -> Option<WaitSoFar>
    ensures { result ≡ spec.so_far_of (view value.now) }
{
    WaitSoFar::new(value.as_u64()?)
}

// How long a task waited, where its waits are counted: three numbers.
fn waits_in(values: &[Value]) -> Option<(u64, Option<Waits>)>
    ensures { result ≡ spec.waits_in (map view values.now) }
{
    match values {
        [sched, total, so_far] => {
            let sched = sched.as_u64()?;
            let total = total.as_u64()?;
            let so_far = so_far_of(so_far)?;
            Some((sched, Some(Waits { total, so_far })))
        }
        _ => None,
    }
}

fn waits_of(value: &Value) -> Option<(u64, Option<Waits>)>
    ensures { result ≡ spec.waits_of (view value.now) }
{
    match value {
        Value::Array(_) => waits_in(values_of(value)?),
        _ => Some((value.as_u64()?, None)),
    }
}

fn waits_at(value: &Value, key: &str) -> Option<(u64, Option<Waits>)>
    ensures { result ≡ spec.waits_at key.now (view value.now) }
{
    waits_of(value.get(key)?)
}

#[tactic(auto, unfolding(crate::specs::Reading::stats_of))]
fn stats_of(value: &Value) -> Option<(TaskId, TaskRow)>
    ensures { result ≡ spec.stats_of (view value.now) }
{
    if !has_members(value, 17) {
        return None;
    }
    let busy = number_at(value, "busy")?;
    let clones = number_at(value, "clones")?;
    let created = number_at(value, "created")?;
    let dropped = optional_at(value, "dropped")?;
    let drops = number_at(value, "drops")?;
    let first_poll = optional_at(value, "first_poll")?;
    let handles = number_at(value, "handles")?;
    let id = task_id_at(value, "id")?;
    let last_ended = optional_at(value, "last_ended")?;
    let last_started = optional_at(value, "last_started")?;
    let last_wake = optional_at(value, "last_wake")?;
    let polling = flag_at(value, "polling")?;
    let polls = number_at(value, "polls")?;
    let (sched, waits) = waits_at(value, "sched")?;
    let scheduled = flag_at(value, "scheduled")?;
    let self_wakes = number_at(value, "self_wakes")?;
    let wakes = number_at(value, "wakes")?;
    let row = TaskRow {
        created,
        dropped,
        polls,
        first_poll,
        last_started,
        last_ended,
        busy,
        wakes,
        self_wakes,
        last_wake,
        clones,
        drops,
        handles,
        sched,
        waits,
        polling,
        scheduled,
    };
    Some((id, row))
}

impl Shaped for (TaskId, TaskRow) {
    ghost use Rattle.tk_stream.specs.Reading.{stats_of as shape_of_stats};
    ghost use Rattle.tk_stream.specs.SmallShapes.{stats_small};

    ghost shape = { shape_of_stats };

    fn of_value(_alloc: Global, value: &Value) -> Result<(TaskId, TaskRow), LineError> {
        match stats_of(value) {
            Some(stats) => Ok(stats),
            None => Err(LineError::BadShape),
        }
    }

    ghost keeps = { stats_small };
}

#[tactic(auto, unfolding(crate::specs::Reading::resource_stats_with))]
fn resource_stats_with(attrs: AttrValues, value: &Value) -> Option<(ResourceId, ResourceRow)>
    ensures { result ≡ spec.resource_stats_with attrs (view value.now) }
{
    if !has_members(value, 5) {
        return None;
    }
    let created = number_at(value, "created")?;
    let dropped = optional_at(value, "dropped")?;
    let handles = number_at(value, "handles")?;
    let id = resource_id_at(value, "id")?;
    let row = ResourceRow {
        created,
        dropped,
        handles,
        attrs,
    };
    Some((id, row))
}

impl Shaped for (ResourceId, ResourceRow) {
    ghost use Rattle.tk_stream.specs.Reading.{resource_stats_of as shape_of_stats};
    ghost use Rattle.tk_stream.specs.SmallShapes.{resource_stats_small};

    ghost shape = { shape_of_stats };

    #[tactic(auto, unfolding(crate::specs::Reading::resource_stats_of))]
    fn of_value(alloc: Global, value: &Value) -> Result<(ResourceId, ResourceRow), LineError> {
        let Some(list) = list_at(value, "attrs") else {
            return Err(LineError::BadShape);
        };
        let attrs = values_in(alloc, list)?;
        match resource_stats_with(attrs, value) {
            Some(stats) => Ok(stats),
            None => Err(LineError::BadShape),
        }
    }

    ghost keeps = { resource_stats_small };
}

#[tactic(auto, unfolding(crate::specs::Reading::op_stats_with))]
fn op_stats_with(attrs: AttrValues, value: &Value) -> Option<(AsyncOpId, OpRow)>
    ensures { result ≡ spec.op_stats_with attrs (view value.now) }
{
    if !has_members(value, 12) {
        return None;
    }
    let busy = number_at(value, "busy")?;
    let created = number_at(value, "created")?;
    let dropped = optional_at(value, "dropped")?;
    let first_poll = optional_at(value, "first_poll")?;
    let handles = number_at(value, "handles")?;
    let id = op_id_at(value, "id")?;
    let last_ended = optional_at(value, "last_ended")?;
    let last_started = optional_at(value, "last_started")?;
    let polling = flag_at(value, "polling")?;
    let polls = number_at(value, "polls")?;
    let task = optional_task_at(value, "task")?;
    let row = OpRow {
        created,
        dropped,
        polls,
        first_poll,
        last_started,
        last_ended,
        busy,
        handles,
        task,
        polling,
        attrs,
    };
    Some((id, row))
}

impl Shaped for (AsyncOpId, OpRow) {
    ghost use Rattle.tk_stream.specs.Reading.{op_stats_of as shape_of_stats};
    ghost use Rattle.tk_stream.specs.SmallShapes.{op_stats_small};

    ghost shape = { shape_of_stats };

    #[tactic(auto, unfolding(crate::specs::Reading::op_stats_of))]
    fn of_value(alloc: Global, value: &Value) -> Result<(AsyncOpId, OpRow), LineError> {
        let Some(list) = list_at(value, "attrs") else {
            return Err(LineError::BadShape);
        };
        let attrs = values_in(alloc, list)?;
        match op_stats_with(attrs, value) {
            Some(stats) => Ok(stats),
            None => Err(LineError::BadShape),
        }
    }

    ghost keeps = { op_stats_small };
}

fn counts_in(values: &[Value]) -> Option<(ResourceId, u64, u64)>
    ensures { result ≡ spec.counts_in (map view values.now) }
{
    match values {
        [resource, ready, pending] => {
            Some((
                resource_id_of(resource)?,
                ready.as_u64()?,
                pending.as_u64()?,
            ))
        }
        _ => None,
    }
}

fn counts_of(value: &Value) -> Option<(ResourceId, u64, u64)>
    ensures { result ≡ spec.counts_of (view value.now) }
{
    counts_in(values_of(value)?)
}

pub(crate) fn values_of(value: &Value) -> Option<&[Value]>
    ensures { option_map (λ vs. map view vs.now) result ≡ spec.list_of (view value.now) }
{
    let list = value.as_array()?;
    Some(list.as_slice())
}

impl Shaped for (ResourceId, u64, u64) {
    ghost use Rattle.tk_stream.specs.Reading.{counts_of as shape_of_counts};
    ghost use Rattle.tk_stream.specs.SmallShapes.{counts_small};

    ghost shape = { shape_of_counts };

    fn of_value(_alloc: Global, value: &Value) -> Result<(ResourceId, u64, u64), LineError> {
        match counts_of(value) {
            Some(counts) => Ok(counts),
            None => Err(LineError::BadShape),
        }
    }

    ghost keeps = { counts_small };
}
