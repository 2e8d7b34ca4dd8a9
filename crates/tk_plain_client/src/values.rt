//! JSON values, and what they are in a line.

use serde_json::Value;

// Whether the value is an object with so many members.
pub(crate) fn has_members(value: &Value, count: usize) -> bool {
    match value.as_object() {
        Some(members) => members.len() == count,
        None => false,
    }
}

pub(crate) fn number(value: &Value, key: &str) -> Option<u64> {
    value.get(key).and_then(Value::as_u64)
}

pub(crate) fn flag(value: &Value, key: &str) -> Option<bool> {
    value.get(key).and_then(Value::as_bool)
}

pub(crate) fn list<'v>(value: &'v Value, key: &str) -> Option<&'v [Value]> {
    match value.get(key) {
        Some(Value::Array(list)) => Some(list.as_slice()),
        _ => None,
    }
}

pub(crate) fn are_numbers(value: &Value, keys: &[&str]) -> bool {
    for key in keys {
        if number(value, key).is_none() {
            return false;
        }
    }
    true
}

pub(crate) fn are_flags(value: &Value, keys: &[&str]) -> bool {
    for key in keys {
        if flag(value, key).is_none() {
            return false;
        }
    }
    true
}

// Whether each is a number, or null stands in its place.
pub(crate) fn are_moments(value: &Value, keys: &[&str]) -> bool {
    for key in keys {
        if number(value, key).is_none() && !is_null(value, key) {
            return false;
        }
    }
    true
}

pub(crate) fn is_null(value: &Value, key: &str) -> bool {
    match value.get(key) {
        Some(found) => found.is_null(),
        None => false,
    }
}

// A recorder from 1 to 64, and the number of one of its items.
fn is_id(number: u64) -> bool {
    let recorder = number >> 40;
    recorder >= 1 && recorder <= 64 && number % (1 << 40) >= 1
}

pub(crate) fn id_of(value: &Value) -> Option<u64> {
    match value.as_u64() {
        Some(number) if is_id(number) => Some(number),
        _ => None,
    }
}

pub(crate) fn id(value: &Value, key: &str) -> Option<u64> {
    value.get(key).and_then(id_of)
}

pub(crate) fn is_id_or_null(value: &Value, key: &str) -> bool {
    id(value, key).is_some() || is_null(value, key)
}

// Whether the text is 1 to 1,024 printable bytes.
fn is_name_text(text: &[u8]) -> bool {
    for byte in text {
        if *byte < 0x20 || *byte > 0x7E {
            return false;
        }
    }
    !text.is_empty() && text.len() <= 1024
}

pub(crate) fn is_name(value: &Value) -> bool {
    match value.as_str() {
        Some(text) => is_name_text(text.as_bytes()),
        None => false,
    }
}

pub(crate) fn is_named(value: &Value, key: &str) -> bool {
    match value.get(key) {
        Some(found) => is_name(found),
        None => false,
    }
}

fn is_below(value: &Value, limit: u64) -> bool {
    match value.as_u64() {
        Some(number) => number < limit,
        None => false,
    }
}

// Whether there is a file with a line and a column.
pub(crate) fn is_placed(value: &Value, key: &str) -> bool {
    match list(value, key) {
        Some([file, line, column]) => {
            is_name(file) && is_below(line, 1 << 32) && is_below(column, 1 << 32)
        }
        _ => false,
    }
}
