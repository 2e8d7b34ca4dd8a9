//! JSON values by their kinds, and what stands at the keys of an object.
ghost use Rattle.std.specs.Prelude.{◌≡◌, option_map, map, IfSome, true, Some, None, if◌then◌else◌};
ghost use Rattle.tk_ids.specs.Ids.{is_id};
ghost use Rattle.tk_ids.specs.Names as names;
ghost use Rattle.serde_json.specs.View.{view};
ghost use Rattle.tk_stream.specs.Reading as spec;

use serde_json::Value;
use tk_ids::{AsyncOpId, ResourceId, TaskId, is_name};

pub(crate) fn has_members(value: &Value, count: usize) -> bool
    ensures { result ≡ spec.has_members count (view value.now) }
{
    match value.as_object() {
        Some(members) => members.len() == count,
        None => false,
    }
}

fn optional_of(value: &Value) -> Option<Option<u64>>
    ensures { result ≡ spec.optional_of (view value.now) }
{
    match value {
        Value::Null => Some(None),
        _ => Some(Some(value.as_u64()?)),
    }
}

fn task_id(value: u64) -> Option<TaskId>
    ensures { result ≡ if is_id value then Some value else None }
{
    match TaskId::from_value(value) {
        Ok(id) => Some(id),
        Err(_) => None,
    }
}

fn resource_id(value: u64) -> Option<ResourceId>
    ensures { result ≡ if is_id value then Some value else None }
{
    match ResourceId::from_value(value) {
        Ok(id) => Some(id),
        Err(_) => None,
    }
}

fn op_id(value: u64) -> Option<AsyncOpId>
    ensures { result ≡ if is_id value then Some value else None }
{
    match AsyncOpId::from_value(value) {
        Ok(id) => Some(id),
        Err(_) => None,
    }
}

pub(crate) fn task_id_of(value: &Value) -> Option<TaskId>
    ensures { result ≡ spec.id_of (view value.now) }
{
    task_id(value.as_u64()?)
}

pub(crate) fn resource_id_of(value: &Value) -> Option<ResourceId>
    ensures { result ≡ spec.id_of (view value.now) }
{
    resource_id(value.as_u64()?)
}

pub(crate) fn op_id_of(value: &Value) -> Option<AsyncOpId>
    ensures { result ≡ spec.id_of (view value.now) }
{
    op_id(value.as_u64()?)
}

fn optional_task_of(value: &Value) -> Option<Option<TaskId>>
    ensures { result ≡ spec.optional_id_of (view value.now) }
{
    match value {
        Value::Null => Some(None),
        _ => Some(Some(task_id_of(value)?)),
    }
}

fn optional_resource_of(value: &Value) -> Option<Option<ResourceId>>
    ensures { result ≡ spec.optional_id_of (view value.now) }
{
    match value {
        Value::Null => Some(None),
        _ => Some(Some(resource_id_of(value)?)),
    }
}

fn optional_op_of(value: &Value) -> Option<Option<AsyncOpId>>
    ensures { result ≡ spec.optional_id_of (view value.now) }
{
    match value {
        Value::Null => Some(None),
        _ => Some(Some(op_id_of(value)?)),
    }
}

pub(crate) fn name_of(value: &Value) -> Option<&str>
    ensures name { option_map (λ s. s.now) result ≡ spec.name_of (view value.now) }
    ensures valid { IfSome result (λ s. names.is_name s.now ≡ true) }
{
    let text = value.as_str()?;
    if is_name(text.as_bytes()) {
        Some(text)
    } else {
        None
    }
}

pub(crate) fn small_of(value: &Value) -> Option<u32>
    ensures { result ≡ spec.small_of (view value.now) }
{
    let n = value.as_u64()?;
    if n < 1 << 32 { Some(n as u32) } else { None }
}

pub(crate) fn number_at(value: &Value, key: &str) -> Option<u64>
    ensures { result ≡ spec.number_at key.now (view value.now) }
{
    value.get(key)?.as_u64()
}

pub(crate) fn optional_at(value: &Value, key: &str) -> Option<Option<u64>>
    ensures { result ≡ spec.optional_at key.now (view value.now) }
{
    optional_of(value.get(key)?)
}

pub(crate) fn flag_at(value: &Value, key: &str) -> Option<bool>
    ensures { result ≡ spec.flag_at key.now (view value.now) }
{
    value.get(key)?.as_bool()
}

pub(crate) fn text_at<'v>(value: &'v Value, key: &str) -> Option<&'v str>
    ensures { option_map (λ s. s.now) result ≡ spec.text_at key.now (view value.now) }
{
    value.get(key)?.as_str()
}

pub(crate) fn list_at<'v>(value: &'v Value, key: &str) -> Option<&'v [Value]>
    ensures { option_map (λ vs. map view vs.now) result ≡ spec.list_at key.now (view value.now) }
{
    let list = value.get(key)?.as_array()?;
    Some(list.as_slice())
}

pub(crate) fn task_id_at(value: &Value, key: &str) -> Option<TaskId>
    ensures { result ≡ spec.id_at key.now (view value.now) }
{
    task_id_of(value.get(key)?)
}

pub(crate) fn resource_id_at(value: &Value, key: &str) -> Option<ResourceId>
    ensures { result ≡ spec.id_at key.now (view value.now) }
{
    resource_id_of(value.get(key)?)
}

pub(crate) fn op_id_at(value: &Value, key: &str) -> Option<AsyncOpId>
    ensures { result ≡ spec.id_at key.now (view value.now) }
{
    op_id_of(value.get(key)?)
}

pub(crate) fn optional_task_at(value: &Value, key: &str) -> Option<Option<TaskId>>
    ensures { result ≡ spec.optional_id_at key.now (view value.now) }
{
    optional_task_of(value.get(key)?)
}

pub(crate) fn optional_resource_at(value: &Value, key: &str) -> Option<Option<ResourceId>>
    ensures { result ≡ spec.optional_id_at key.now (view value.now) }
{
    optional_resource_of(value.get(key)?)
}

pub(crate) fn optional_op_at(value: &Value, key: &str) -> Option<Option<AsyncOpId>>
    ensures { result ≡ spec.optional_id_at key.now (view value.now) }
{
    optional_op_of(value.get(key)?)
}

pub(crate) fn name_at<'v>(value: &'v Value, key: &str) -> Option<&'v str>
    ensures name { option_map (λ s. s.now) result ≡ spec.name_at key.now (view value.now) }
    ensures valid { IfSome result (λ s. names.is_name s.now ≡ true) }
{
    name_of(value.get(key)?)
}
