//! Ids of the three kinds.

use crate::tests::printed::is_printed;
use std::alloc::Global;
use tk_ids::{AsyncOpId, IdError, ResourceId, TaskId};

// How ids are printed: the recorder, a full stop and the number.
#[rattlefmt::skip]
const PRINTED: [(&str, u64, (u64, u64), &str); 4] = [
    ("the first id of all",       1099511627777,  (1, 1),              "1.1"),
    ("a number of two digits",    3298534883370,  (3, 42),             "3.42"),
    ("the last id of recorder 1", 2199023255551,  (1, 1099511627775),  "1.1099511627775"),
    ("the last id of all",        71468255805439, (64, 1099511627775), "64.1099511627775"),
];

// Values that no id has.
#[rattlefmt::skip]
const NO_IDS: [(&str, u64); 6] = [
    ("0",                             0),
    ("recorder 0",                    1099511627775),
    ("recorder 1 with number 0",      1099511627776),
    ("recorder 65 with number 0",     71468255805440),
    ("recorder 65 with number 1",     71468255805441),
    ("the greatest u64",              18446744073709551615),
];

fn is_task(alloc: Global, value: u64, parts: (u64, u64), text: &str) -> bool {
    match TaskId::from_value(value) {
        Ok(id) => id.value() == value && id.parts() == parts && is_printed(alloc, &id, text),
        Err(_) => false,
    }
}

fn is_resource(alloc: Global, value: u64, parts: (u64, u64), text: &str) -> bool {
    match ResourceId::from_value(value) {
        Ok(id) => id.value() == value && id.parts() == parts && is_printed(alloc, &id, text),
        Err(_) => false,
    }
}

fn is_op(alloc: Global, value: u64, parts: (u64, u64), text: &str) -> bool {
    match AsyncOpId::from_value(value) {
        Ok(id) => id.value() == value && id.parts() == parts && is_printed(alloc, &id, text),
        Err(_) => false,
    }
}

#[test]
fn prints_recorder_and_number(rt: HostRuntime) {
    let alloc: Global = rt.alloc();
    for (case, value, parts, text) in PRINTED {
        let is_right = is_task(alloc, value, parts, text)
            && is_resource(alloc, value, parts, text)
            && is_op(alloc, value, parts, text);
        assert!(rt; is_right, "{case}");
    }
}

// Whether no kind of id has this value.
fn is_no_id(value: u64) -> bool {
    TaskId::from_value(value) == Err(IdError::BadId)
        && ResourceId::from_value(value) == Err(IdError::BadId)
        && AsyncOpId::from_value(value) == Err(IdError::BadId)
}

#[test]
fn refuses_values_that_no_id_has(rt: HostRuntime) {
    for (case, value) in NO_IDS {
        assert!(rt; is_no_id(value), "{case}");
    }
}
