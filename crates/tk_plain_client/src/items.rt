//! New items and statistics.

use crate::line::{New, Told};
use crate::values::{
    are_flags, are_moments, are_numbers, has_members, id, is_id_or_null, is_name, is_named,
    is_placed, list,
};
use serde_json::Value;

/// What a line tells of.
#[derive(Clone, Copy, PartialEq, Eq)]
pub(crate) enum Kind {
    Task,
    Resource,
    Op,
}

// How many attributes an item has at most.
const MOST: usize = 6;

// The number for the kinds before it and one more, which is 1, 2 or 3.
fn with_kind(shape: u64, kind: u64) -> u64 {
    shape.wrapping_mul(4).wrapping_add(kind)
}

fn kind_of(value: &Value) -> Option<u64> {
    match value.as_str() {
        Some("u64") => Some(1),
        Some("bool") => Some(2),
        Some("i64") => Some(3),
        _ => None,
    }
}

// The kind of an attribute that has a name, and a unit or null.
fn attr_kind(attr: &Value) -> Option<u64> {
    match attr.as_array()?.as_slice() {
        [name, unit, kind] if is_name(name) && (is_name(unit) || unit.is_null()) => kind_of(kind),
        _ => None,
    }
}

fn attr_name(attr: &Value) -> Option<&str> {
    match attr.as_array()?.as_slice() {
        [name, _, _] => name.as_str(),
        _ => None,
    }
}

fn has_name(attrs: &[Value], name: Option<&str>) -> bool {
    for attr in attrs {
        if attr_name(attr) == name {
            return true;
        }
    }
    false
}

fn repeat_names(attrs: &[Value]) -> bool {
    for (i, attr) in attrs.iter().enumerate() {
        if has_name(&attrs[..i], attr_name(attr)) {
            return true;
        }
    }
    false
}

// The number for the kinds of attributes.
fn shape_of_attrs(attrs: &[Value]) -> Option<u64> {
    let mut shape = 0;
    for attr in attrs {
        shape = with_kind(shape, attr_kind(attr)?);
    }
    if attrs.len() > MOST || repeat_names(attrs) {
        return None;
    }
    Some(shape)
}

// Whether the value is a list of one signed number.
fn is_signed(value: &Value) -> bool {
    match value.as_array() {
        Some(values) => match values.as_slice() {
            [number] => number.as_i64().is_some(),
            _ => false,
        },
        None => false,
    }
}

fn value_kind(value: &Value) -> Option<u64> {
    if value.as_u64().is_some() {
        Some(1)
    } else if value.as_bool().is_some() {
        Some(2)
    } else if is_signed(value) {
        Some(3)
    } else {
        None
    }
}

// The number for the kinds of attributes' values.
fn shape_of_values(values: &[Value]) -> Option<u64> {
    let mut shape = 0;
    for value in values {
        shape = with_kind(shape, value_kind(value)?);
    }
    if values.len() > MOST {
        None
    } else {
        Some(shape)
    }
}

fn task_shape(value: &Value) -> Option<u64> {
    match value.get("kind")?.as_str() {
        Some("spawn") => Some(0),
        Some("blocking") => Some(1),
        _ => None,
    }
}

fn new_task(value: &Value) -> Option<New> {
    let whole = has_members(value, 4) && is_placed(value, "loc") && is_named(value, "name");
    if !whole {
        return None;
    }
    Some(New {
        id: id(value, "id")?,
        shape: task_shape(value)?,
    })
}

fn new_resource(value: &Value) -> Option<New> {
    let whole = has_members(value, 6)
        && is_named(value, "kind")
        && is_named(value, "type")
        && is_placed(value, "loc")
        && is_id_or_null(value, "parent");
    if !whole {
        return None;
    }
    Some(New {
        id: id(value, "id")?,
        shape: shape_of_attrs(list(value, "attrs")?)?,
    })
}

fn new_op(value: &Value) -> Option<New> {
    let whole = has_members(value, 5)
        && is_named(value, "source")
        && id(value, "resource").is_some()
        && is_id_or_null(value, "parent");
    if !whole {
        return None;
    }
    Some(New {
        id: id(value, "id")?,
        shape: shape_of_attrs(list(value, "attrs")?)?,
    })
}

/// The new item of this kind that the value is.
pub(crate) fn new_of(kind: Kind, value: &Value) -> Option<New> {
    match kind {
        Kind::Task => new_task(value),
        Kind::Resource => new_resource(value),
        Kind::Op => new_op(value),
    }
}

const TASK_NUMBERS: [&str; 8] = [
    "busy",
    "clones",
    "created",
    "drops",
    "handles",
    "polls",
    "self_wakes",
    "wakes",
];

const TASK_MOMENTS: [&str; 5] = [
    "dropped",
    "first_poll",
    "last_ended",
    "last_started",
    "last_wake",
];

// Whether the value is a time that the task was scheduled, or this, the time that it waited, and what of it is one wait: below 2^56.
fn are_waits(value: &Value) -> bool {
    match value.as_array() {
        Some(values) => match values.as_slice() {
            [sched, waited, so_far] => {
                sched.as_u64().is_some()
                    && waited.as_u64().is_some()
                    && so_far.as_u64().is_some_and(|n| n < 1 << 56)
            }
            _ => false,
        },
        None => value.as_u64().is_some(),
    }
}

fn has_waits(value: &Value) -> bool {
    match value.get("sched") {
        Some(waits) => are_waits(waits),
        None => false,
    }
}

/// Whether these statistics of a task count its waits.
pub(crate) fn counts_waits(value: &Value) -> bool {
    list(value, "sched").is_some()
}

fn told_task(value: &Value) -> Option<Told> {
    let whole = has_members(value, 17)
        && has_waits(value)
        && are_numbers(value, TASK_NUMBERS.as_slice())
        && are_moments(value, TASK_MOMENTS.as_slice())
        && are_flags(value, ["polling", "scheduled"].as_slice());
    if !whole {
        return None;
    }
    Some(Told {
        id: id(value, "id")?,
        shape: 0,
        seed: 0,
    })
}

fn told_resource(value: &Value) -> Option<Told> {
    let whole = has_members(value, 5)
        && are_numbers(value, ["created", "handles"].as_slice())
        && are_moments(value, ["dropped"].as_slice());
    if !whole {
        return None;
    }
    Some(Told {
        id: id(value, "id")?,
        shape: shape_of_values(list(value, "attrs")?)?,
        seed: 0,
    })
}

const OP_MOMENTS: [&str; 4] = ["dropped", "first_poll", "last_ended", "last_started"];

fn told_op(value: &Value) -> Option<Told> {
    let whole = has_members(value, 12)
        && are_numbers(value, ["busy", "created", "handles", "polls"].as_slice())
        && are_moments(value, OP_MOMENTS.as_slice())
        && are_flags(value, ["polling"].as_slice())
        && is_id_or_null(value, "task");
    if !whole {
        return None;
    }
    Some(Told {
        id: id(value, "id")?,
        shape: shape_of_values(list(value, "attrs")?)?,
        seed: 0,
    })
}

/// The statistics of an item of this kind that the value is.
pub(crate) fn told_of(kind: Kind, value: &Value) -> Option<Told> {
    match kind {
        Kind::Task => told_task(value),
        Kind::Resource => told_resource(value),
        Kind::Op => told_op(value),
    }
}
