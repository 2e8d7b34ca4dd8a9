//! Lines of version 3, which tell histograms of poll times.

use super::given::{empty_line, fed, on_client, opened_line};
use super::texts as text;
use std::alloc::Global;
use tk_client::Client;

const A: u64 = 1099511627777;

const B: u64 = 1099511627778;

fn put(line: &mut Vec<u8>, texts: &[&str]) -> bool {
    for text in texts {
        if line.extend_from_slice(text.as_bytes()).is_err() {
            return false;
        }
    }
    true
}

// A line of version 3 of this number, by which these tasks are gone and which tells these histograms.
fn timed_line(alloc: Global, seq: &str, gone: &str, times: &str) -> Option<Vec<u8>> {
    let mut line = Vec::new(alloc);
    let whole = put(
        &mut line,
        [
            r#"{"dropped":[0,0,0],"gone_ops":[],"gone_resources":[],"gone_tasks":["#,
            gone,
            r#"],"new_ops":[],"new_resources":[],"new_tasks":[],"now":9,"op_stats":[],"poll_counts":[],"resource_stats":[],"seq":"#,
            seq,
            r#","snapshot":false,"task_stats":[],"task_times":["#,
            times,
            "],\"v\":3}\n",
        ]
        .as_slice(),
    );
    if whole { Some(line) } else { None }
}

// The fault of a line, 0 without one.
fn fault_of(client: &mut Client, line: Option<Vec<u8>>) -> Option<u32> {
    let line = line?;
    Some(fed(client, &line).code)
}

fn takes(client: &mut Client, line: Option<Vec<u8>>) -> bool {
    fault_of(client, line) == Some(0)
}

fn longest_of(client: &Client, id: u64) -> Option<u64> {
    let (_, times) = client.times().with_id(id)?;
    Some(times.longest)
}

fn count_of(client: &Client, id: u64, bucket: usize) -> Option<u64> {
    let (_, times) = client.times().with_id(id)?;
    times.counts.get(bucket).copied()
}

// A client of three tasks, two of which have histograms.
fn has_two_histograms(client: &mut Client, alloc: Global) -> bool {
    let times =
        r#"{"counts":[[0,1]],"id":1099511627777,"longest":5},{"counts":[],"id":1099511627778,"longest":0}"#;
    fed(client, text::three_tasks()).code == 0
        && takes(client, timed_line(alloc, "2", "", times))
        && client.times().len() == 2
        && longest_of(client, A) == Some(5)
        && longest_of(client, B) == Some(0)
}

fn told_again(client: &mut Client, alloc: Global) -> bool {
    let times = r#"{"counts":[[0,1],[13,1]],"id":1099511627777,"longest":70000000}"#;
    takes(client, timed_line(alloc, "3", "", times))
        && longest_of(client, A) == Some(70000000)
        && count_of(client, A, 13) == Some(1)
        && longest_of(client, B) == Some(0)
}

// Its task goes, and then a line of version 1 and a snapshot come.
fn let_go(client: &mut Client, alloc: Global) -> bool {
    takes(client, timed_line(alloc, "4", "1099511627777", ""))
        && longest_of(client, A).is_none()
        && client.times().len() == 1
        && takes(client, empty_line(alloc, "5"))
        && longest_of(client, B) == Some(0)
        && takes(
            client,
            opened_line(alloc, "6", "true", "9", text::main_task()),
        )
        && client.times().len() == 0
}

fn keeps_histograms(alloc: Global) -> bool {
    on_client(alloc, 16_777_216, |client| {
        has_two_histograms(client, alloc) && told_again(client, alloc) && let_go(client, alloc)
    })
}

#[test]
fn histograms_stand_beside_tables(rt: HostRuntime) {
    assert!(rt; keeps_histograms(rt.alloc()));
}

// Whether the line has this fault, and the histograms stay then.
fn faults(client: &mut Client, alloc: Global, gone: &str, times: &str, code: u32) -> bool {
    has_two_histograms(client, alloc)
        && fault_of(client, timed_line(alloc, "3", gone, times)) == Some(code)
        && client.times().len() == 2
        && longest_of(client, A) == Some(5)
}

fn line_faults(alloc: Global, gone: &str, times: &str, code: u32) -> bool {
    on_client(
        alloc,
        16_777_216,
        |client| faults(client, alloc, gone, times, code),
    )
}

const TWICE: &str =
    r#"{"counts":[],"id":1099511627777,"longest":1},{"counts":[],"id":1099511627777,"longest":1}"#;

const OF_NONE: &str = r#"{"counts":[],"id":1099511627780,"longest":1}"#;

const OF_A: &str = r#"{"counts":[],"id":1099511627777,"longest":1}"#;

#[test]
fn histograms_are_of_tasks_that_are_there(rt: HostRuntime) {
    let alloc = rt.alloc();
    assert!(rt; line_faults(alloc, "", TWICE, 6));
    assert!(rt; line_faults(alloc, "1099511627777", OF_A, 6));
    assert!(rt; line_faults(alloc, "", OF_NONE, 5));
    // A task that was never there can't be gone either, and is found first among the histograms.
    assert!(rt; line_faults(alloc, "1099511627780", OF_NONE, 6));
}
