//! Errors.

use crate::tests::printed::is_printed;
use std::alloc::{AllocError, Global};
use tk_ids::IdError;

// Each error with its number and its text.
#[rattlefmt::skip]
const ERRORS: [(IdError, u32, &str); 5] = [
    (IdError::BadId,         1, "the id is out of range"),
    (IdError::IdsSpent,      2, "the ids of the recorder are spent"),
    (IdError::BadName,       3, "the name is not 1 to 1024 printable bytes"),
    (IdError::Memory,        4, "out of memory"),
    (IdError::BadAttributes, 5, "the attributes are more than 6 or repeat a name"),
];

#[test]
fn has_a_number_and_a_text(rt: HostRuntime) {
    let alloc: Global = rt.alloc();
    for (error, number, text) in ERRORS {
        assert!(rt;
            error.code() == number && is_printed(alloc, &error, text),
            "{text}"
        );
    }
}

#[test]
fn reads_want_of_memory_as_its_own_error(rt: HostRuntime) {
    assert_eq!(rt; IdError::from(AllocError), IdError::Memory);
}
