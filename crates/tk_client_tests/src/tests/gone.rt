//! Lines of version 2, which say what is gone.

use super::given::{both, fed, fed_in_pieces, on_client};
use super::texts as text;
use std::alloc::Global;
use tk_client::{Client, Lints, WarningKind};
use tk_stream::Tables;

// Whether the tables have just these tasks, by their names, in this order.
fn has_tasks(tables: &Tables, names: &[&str]) -> bool {
    for (i, name) in names.iter().enumerate() {
        let is_there = match tables.task_at(i) {
            Some(task) => task.info.name.as_str() == *name,
            None => false,
        };
        if !is_there {
            return false;
        }
    }
    tables.task_count() == names.len()
}

// Whether the client warns of a lost waker of each of these tasks, by their numbers in order, and of nothing else.
fn warns_of(client: &Client, ids: &[u64]) -> bool {
    match client.warnings(&Lints::default()) {
        Ok(warnings) => {
            for (i, id) in ids.iter().enumerate() {
                let is_there = match warnings.get(i) {
                    Some(warning) => {
                        warning.task.value() == *id && warning.kind == WarningKind::LostWaker
                    }
                    None => false,
                };
                if !is_there {
                    return false;
                }
            }
            warnings.len() == ids.len()
        }
        Err(_) => false,
    }
}

fn takes(client: &mut Client, bytes: &[u8]) -> bool {
    fed(client, bytes).code == 0
}

// The tasks leave in the middle of their order, and the warnings stay with their tasks.
fn leave_by_name(client: &mut Client) -> bool {
    takes(client, text::three_tasks())
        && has_tasks(client.tables(), ["a", "b", "c"].as_slice())
        && warns_of(client, [1099511627778].as_slice())
        && takes(client, text::without_first())
        && has_tasks(client.tables(), ["b", "c"].as_slice())
        && warns_of(client, [1099511627778].as_slice())
        && takes(client, text::with_another())
        && has_tasks(client.tables(), ["b", "d"].as_slice())
        && warns_of(client, [1099511627778, 1099511627777].as_slice())
}

fn leave_in_new_client(alloc: Global) -> bool {
    on_client(alloc, 16_777_216, |client| leave_by_name(client))
}

#[test]
fn tasks_leave_by_name(rt: HostRuntime) {
    assert!(rt; leave_in_new_client(rt.alloc()));
}

// Whether these bytes come to this fault after so many lines, whole and byte by byte, and the tables of the lines stand.
fn faults(client: &mut Client, bytes: &[u8], code: u32, lines: u64, names: &[&str]) -> bool {
    let whole = fed(client, bytes);
    let stands = has_tasks(client.tables(), names);
    client.restart();
    let bytewise = fed_in_pieces(client, bytes, 1);
    whole.code == code
        && whole.lines == lines
        && whole.used == bytes.len()
        && stands
        && bytewise == whole
        && has_tasks(client.tables(), names)
}

fn new_client_faults(alloc: Global, bytes: &[u8], code: u32, lines: u64, names: &[&str]) -> bool {
    on_client(
        alloc,
        16_777_216,
        |client| faults(client, bytes, code, lines, names),
    )
}

// Whether the line comes to this fault after the three tasks, which stand then.
fn faults_after(alloc: Global, line: &[u8], code: u32) -> bool {
    match both(alloc, text::three_tasks(), line) {
        Some(bytes) => new_client_faults(alloc, &bytes, code, 1, ["a", "b", "c"].as_slice()),
        None => false,
    }
}

#[test]
fn what_is_gone_must_fit(rt: HostRuntime) {
    let alloc = rt.alloc();
    assert!(rt; faults_after(alloc, text::gone_unknown(), 5));
    assert!(rt; faults_after(alloc, text::gone_twice(), 6));
    assert!(rt; faults_after(alloc, text::gone_and_told(), 6));
    assert!(rt; faults_after(alloc, text::gone_and_new(), 6));
    assert!(rt; faults_after(alloc, text::gone_in_snapshot(), 5));
    assert!(rt; new_client_faults(alloc, text::gone_at_first(), 5, 0, [].as_slice()));
}
