//! Random lines, fed to a client and taken plainly: faults, tables and warnings are the same after each.

use super::given::{Came, fed, holds, on_made};
use super::random::line_after;
use super::spelled::{Row, is_spawn, row_of, text_of};
use rand_pcg::Pcg32;
use std::alloc::{AllocError, Global};
use tk_client::{Client, Lints, Warning, WarningKind};
use tk_plain_client::{Given, Held, Histogram, Plain, Waits};
use tk_stream::WaitTimes;

const ALLOWED: usize = 65_536;

// More than half of the wakes are the task's own.
fn wakes_itself(row: Row) -> bool {
    row.wakes > 0 && 2 * row.self_wakes.min(9) > row.wakes
}

// It is open, neither polled nor scheduled, and as many wakers are gone as were cloned.
fn has_lost_waker(row: Row) -> bool {
    row.dropped.is_none() && !row.polling && !row.scheduled && row.clones == row.drops
}

// Its first poll runs for 1,000 nanoseconds or more.
fn never_yielded(row: Row, now: u64) -> bool {
    match row.last_started {
        Some(started) => { row.polling && row.polls == 1 && now.saturating_sub(started) >= 1000 }
        None => false,
    }
}

fn wanted_of(wanted: &mut Vec<(u64, WarningKind)>, held: Held, now: u64) -> Result<(), AllocError> {
    let row = row_of(held.told.seed);
    if !is_spawn(held.new.shape) {
        return Ok(());
    }
    if wakes_itself(row) {
        wanted.push((held.new.id, WarningKind::SelfWakes))?;
    }
    if has_lost_waker(row) {
        wanted.push((held.new.id, WarningKind::LostWaker))?;
    }
    if never_yielded(row, now) {
        wanted.push((held.new.id, WarningKind::NeverYielded))?;
    }
    Ok(())
}

fn are(warnings: &[Warning], wanted: &[(u64, WarningKind)]) -> bool {
    if warnings.len() != wanted.len() {
        return false;
    }
    for (i, warning) in warnings.iter().enumerate() {
        let (id, kind) = wanted[i];
        if warning.task.value() != id || warning.kind != kind {
            return false;
        }
    }
    true
}

fn wanted_warnings(alloc: Global, plain: &Plain) -> Result<Vec<(u64, WarningKind)>, AllocError> {
    let mut wanted = Vec::new(alloc);
    for held in &plain.tasks {
        wanted_of(&mut wanted, *held, plain.now)?;
    }
    Ok(wanted)
}

fn warns_alike(
    alloc: Global,
    client: &Client,
    plain: &Plain,
    lints: &Lints,
) -> Result<bool, AllocError> {
    let wanted = wanted_warnings(alloc, plain)?;
    match client.warnings(lints) {
        Ok(warnings) => Ok(are(&warnings, &wanted)),
        Err(_) => Err(AllocError),
    }
}

fn snapshot_text(alloc: Global, plain: &Plain) -> Result<String, AllocError> {
    let line = plain.snapshot(alloc)?;
    text_of(alloc, &line)
}

fn holds_alike(alloc: Global, client: &Client, plain: &Plain) -> Result<bool, AllocError> {
    let text = snapshot_text(alloc, plain)?;
    Ok(holds(alloc, client, text.as_bytes()))
}

fn has_waits(waits: Option<WaitTimes>, wanted: Option<Waits>) -> bool {
    match (waits, wanted) {
        (Some(waits), Some(wanted)) => {
            waits.longest == wanted.longest && waits.counts == wanted.counts
        }
        (None, None) => true,
        _ => false,
    }
}

// Whether the client has this histogram at a place.
fn has_histogram(client: &Client, place: usize, wanted: &Histogram) -> bool {
    match client.times().at(place) {
        Some((id, times)) => {
            id.value() == wanted.id
                && times.longest == wanted.longest
                && times.counts == wanted.counts
                && has_waits(times.waits, wanted.waits)
        }
        None => false,
    }
}

fn has_times_alike(client: &Client, plain: &Plain) -> bool {
    for (place, wanted) in plain.times.iter().enumerate() {
        if !has_histogram(client, place, wanted) {
            return false;
        }
    }
    client.times().len() == plain.times.len()
}

fn next_line(alloc: Global, random: &mut Pcg32, plain: &Plain) -> Result<Given, AllocError> {
    let (tasks, resources, ops) = plain.held(alloc)?;
    line_after(alloc, random, (&tasks, &resources, &ops), plain.next())
}

// Feeds a line, with its end. It answers what came of it, and how many bytes there were.
fn fed_line(alloc: Global, client: &mut Client, line: &Given) -> Result<(Came, usize), AllocError> {
    let mut text = text_of(alloc, line)?;
    text.push_str("\n")?;
    Ok((fed(client, text.as_bytes()), text.len()))
}

// Whether both take a line alike: the fault, what was taken, the tables, the histograms and the warnings. After a fault both begin anew.
// It answers the fault's number too, 0 without one.
fn takes_alike(
    alloc: Global,
    client: &mut Client,
    plain: &mut Plain,
    line: &Given,
    lints: &Lints,
) -> Result<(bool, u32), AllocError> {
    let code = plain.take(alloc, line)?;
    let (came, used) = fed_line(alloc, client, line)?;
    let lines = if code == 0 { 1 } else { 0 };
    let alike = came == Came { code, lines, used }
        && holds_alike(alloc, client, plain)?
        && has_times_alike(client, plain)
        && warns_alike(alloc, client, plain, lints)?;
    if code != 0 {
        client.restart();
        *plain = Plain::new(alloc);
    }
    Ok((alike, code))
}

// Notes a number that wasn't there.
fn note(codes: &mut Vec<u32>, code: u32) -> Result<(), AllocError> {
    if !codes.contains(&code) {
        codes.push(code)?;
    }
    Ok(())
}

// How many lines were applied up to the first that isn't taken alike, and whether there was none such.
fn run(
    alloc: Global,
    client: &mut Client,
    lints: &Lints,
    codes: &mut Vec<u32>,
    count: u64,
) -> Result<(u64, bool), AllocError> {
    let mut random = Pcg32::new(21, 54);
    let mut plain = Plain::new(alloc);
    let mut applied = 0u64;
    for _ in 0..count {
        let line = next_line(alloc, &mut random, &plain)?;
        let (alike, code) = takes_alike(alloc, client, &mut plain, &line, lints)?;
        note(codes, code)?;
        if !alike {
            return Ok((applied, false));
        }
        if code == 0 {
            applied = applied.saturating_add(1);
        }
    }
    Ok((applied, true))
}

fn new_client_runs(alloc: Global, codes: &mut Vec<u32>, count: u64) -> Option<(u64, bool)> {
    let lints = Lints::new(50, 1000)?;
    on_made(
        Client::new(alloc, ALLOWED),
        None,
        |client| run(alloc, client, &lints, codes, count).ok(),
    )
}

// Of 20,000 lines more than half are applied, and each fault comes that a whole line can have, but for one that is too long.
#[test]
fn random_lines_are_taken_as_computed_plainly(rt: HostRuntime) {
    let mut codes = Vec::new(rt.alloc());
    match new_client_runs(rt.alloc(), &mut codes, 20_000) {
        Some((applied, alike)) => {
            assert!(rt; alike, "the line after {applied} that were applied");
            assert!(rt;
                applied > 10_000 && applied < 20_000,
                "{applied} were applied"
            );
        }
        None => assert!(rt; false, "no memory"),
    }
    codes.sort_unstable();
    assert!(rt;
        codes.as_slice() == [0, 2, 3, 4, 5, 6, 8].as_slice(),
        "{codes:?}"
    );
}
