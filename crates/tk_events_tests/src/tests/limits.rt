//! The sizes of a console, and the errors.

use super::given::limits;
use std::alloc::Global;
use std::fmt::Display;
use tk_events::{Console, FinishError, OpenError, RecordError};

// Recorders, capacity and offers of which one is out of range.
#[rattlefmt::skip]
const OUTSIDE: [(u64, u64, u64); 6] = [
    (0,  1,     1),
    (65, 1,     1),
    (1,  0,     1),
    (1,  65537, 1),
    (1,  1,     0),
    (1,  1,     1099511627776),
];

// The error that opening answers, if any.
fn error_of(alloc: Global, recorders: u64, capacity: u64, offers: u64) -> Option<OpenError> {
    Console::open(alloc, limits(recorders, capacity, offers)).err()
}

fn all_are_refused(alloc: Global, sizes: &[(u64, u64, u64)]) -> bool {
    for (recorders, capacity, offers) in sizes {
        if error_of(alloc, *recorders, *capacity, *offers) != Some(OpenError::BadLimit) {
            return false;
        }
    }
    true
}

#[test]
fn refuses_sizes_out_of_range(rt: HostRuntime) {
    assert!(rt; all_are_refused(rt.alloc(), OUTSIDE.as_slice()));
}

// So many recorders are opened, numbered from 1.
fn opens(alloc: Global, recorders: u64, capacity: u64, offers: u64) -> bool {
    match Console::open(alloc, limits(recorders, capacity, offers)) {
        Ok((all, taker)) => {
            let opened = all.last().is_some_and(|last| last.number() == recorders);
            drop(all);
            drop(taker);
            opened
        }
        Err(_) => false,
    }
}

#[test]
fn opens_the_least_and_the_greatest(rt: HostRuntime) {
    assert!(rt; opens(rt.alloc(), 1, 1, 1));
    assert!(rt; opens(rt.alloc(), 64, 65536, 1099511627775));
}

fn has_text<E: Display>(alloc: Global, error: &E, text: &str) -> bool {
    match format!(in alloc; "{error}") {
        Ok(told) => told.as_str() == text,
        Err(_) => false,
    }
}

// Whether each error has the text beside it.
fn have_texts<E: Display>(alloc: Global, errors: &[(E, &str)]) -> bool {
    for (error, text) in errors {
        if !has_text(alloc, error, text) {
            return false;
        }
    }
    true
}

fn are_numbered() -> bool {
    OpenError::BadLimit.code() == 1
        && OpenError::Memory.code() == 2
        && RecordError::OffersSpent.code() == 1
        && RecordError::Memory.code() == 2
        && FinishError::Missing.code() == 1
        && FinishError::Finished.code() == 2
}

// Whether an error that came back with something is the error alone.
fn are_alone() -> bool {
    RecordError::from((RecordError::OffersSpent, 7)) == RecordError::OffersSpent
        && RecordError::from((RecordError::Memory, 7)) == RecordError::Memory
        && FinishError::from((FinishError::Missing, 7)) == FinishError::Missing
        && FinishError::from((FinishError::Finished, 7)) == FinishError::Finished
}

#[test]
fn numbers_and_names_errors(rt: HostRuntime) {
    let alloc = rt.alloc();
    assert!(rt; are_numbered());
    assert!(rt; are_alone());
    let opening = [
        (OpenError::BadLimit, "a limit is out of range"),
        (OpenError::Memory, "out of memory"),
    ];
    let recording = [
        (
            RecordError::OffersSpent,
            "the offers of the recorder are spent",
        ),
        (RecordError::Memory, "out of memory"),
    ];
    let finishing = [
        (FinishError::Missing, "a recorder is missing"),
        (FinishError::Finished, "the taker is finished"),
    ];
    assert!(rt; have_texts(alloc, opening.as_slice()));
    assert!(rt; have_texts(alloc, recording.as_slice()));
    assert!(rt; have_texts(alloc, finishing.as_slice()));
}
