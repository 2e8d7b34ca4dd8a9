//! What each line changed.

use super::given::on_client;
use super::texts as text;
use std::alloc::Global;
use tk_client::{Change, Client};

const A: u64 = 1099511627777;

const B: u64 = 1099511627778;

const C: u64 = 1099511627779;

fn came_are(change: &Change, wanted: &[u64]) -> bool {
    for (i, id) in wanted.iter().enumerate() {
        let is_there = match change.came().get(i) {
            Some(came) => came.value() == *id,
            None => false,
        };
        if !is_there {
            return false;
        }
    }
    change.came().len() == wanted.len()
}

fn told_are(change: &Change, wanted: &[u64]) -> bool {
    for (i, id) in wanted.iter().enumerate() {
        let is_there = match change.told().get(i) {
            Some(told) => told.value() == *id,
            None => false,
        };
        if !is_there {
            return false;
        }
    }
    change.told().len() == wanted.len()
}

// Whether just these left, by their names.
fn left_are(change: &Change, names: &[&str]) -> bool {
    for (i, name) in names.iter().enumerate() {
        let is_there = match change.left().get(i) {
            Some(left) => left.task.info.name.as_str() == *name && left.times.is_none(),
            None => false,
        };
        if !is_there {
            return false;
        }
    }
    change.left().len() == names.len()
}

// Whether a whole line changes this.
fn changes(client: &mut Client, line: &[u8], came: &[u64], told: &[u64], left: &[&str]) -> bool {
    match client.feed_line(line) {
        Ok(fed) => match &fed.change {
            Some(change) => {
                fed.used == line.len()
                    && came_are(change, came)
                    && told_are(change, told)
                    && left_are(change, left)
                    && !change.is_anew()
            }
            None => false,
        },
        Err(_) => false,
    }
}

// Three tasks come. One leaves, and then another, as a task with the number of the first comes.
fn come_and_leave(client: &mut Client) -> bool {
    changes(
        client,
        text::three_tasks(),
        [A, B, C].as_slice(),
        [A, B, C].as_slice(),
        [].as_slice(),
    ) && changes(
        client,
        text::without_first(),
        [].as_slice(),
        [].as_slice(),
        ["a"].as_slice(),
    ) && changes(
        client,
        text::with_another(),
        [A].as_slice(),
        [A].as_slice(),
        ["c"].as_slice(),
    )
}

fn new_client_changes(alloc: Global) -> bool {
    on_client(alloc, 16_777_216, |client| come_and_leave(client))
}

#[test]
fn a_line_says_what_it_changed(rt: HostRuntime) {
    assert!(rt; new_client_changes(rt.alloc()));
}

// Whether bytes without a line end are taken whole, and change nothing.
fn is_held(client: &mut Client, part: &[u8]) -> bool {
    match client.feed_line(part) {
        Ok(fed) => fed.used == part.len() && fed.change.is_none(),
        Err(_) => false,
    }
}

// Of a piece that begins within a line, the line is taken, and not the one after it.
fn takes_one(client: &mut Client) -> bool {
    let line = text::three_tasks();
    if line.len() < 100 {
        return false;
    }
    is_held(client, &line[..100])
        && changes(
            client,
            &line[100..],
            [A, B, C].as_slice(),
            [A, B, C].as_slice(),
            [].as_slice(),
        )
        && is_held(client, b"")
}

fn new_client_takes_one(alloc: Global) -> bool {
    on_client(alloc, 16_777_216, |client| takes_one(client))
}

#[test]
fn a_part_of_a_line_changes_nothing(rt: HostRuntime) {
    assert!(rt; new_client_takes_one(rt.alloc()));
}
