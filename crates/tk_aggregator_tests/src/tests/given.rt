//! What several tests begin with: items that are recorded, and an aggregator that takes them in.
//!
//! Each function owns at most one aggregator, owner or text, and lends it to the next: that keeps the proofs short.
ghost use Rattle.std.specs.Prelude.{◌≡◌, ◌≤◌, ◌^◌};
ghost use Rattle.tk_stream.specs.Tables.{empty_tables};

use std::alloc::Global;
use std::io::Write;
use std::sync::Wait;
use tk_aggregator::{Aggregator, StreamError};
use tk_client::Client;
use tk_events::{Console, Limits, Recorder, Taker};
use tk_ids::{Location, Name, TaskKind, TaskSpec};
use tk_ledgers::TaskOwner;
use tk_stream::{Line, Tables};

// The id of the first item of recorder 1.
pub(super) const FIRST: u64 = 1099511627777;

pub(super) fn limits(recorders: u64, capacity: u64, offers: u64) -> Limits {
    Limits {
        recorders,
        capacity,
        offers,
    }
}

// A line of a script.
pub(super) fn location(alloc: Global, line: u32) -> Option<Location> {
    let file = Name::new(alloc, b"script").ok()?;
    Some(Location {
        file,
        line,
        column: 1,
    })
}

pub(super) fn spawn_spec(alloc: Global, name: &[u8], line: u32) -> Option<TaskSpec> {
    let name = Name::new(alloc, name).ok()?;
    let location = location(alloc, line)?;
    Some(TaskSpec {
        kind: TaskKind::Spawn,
        name,
        location,
    })
}

// The owner of a task that the recorder makes.
pub(super) fn make_task<R: Wait>(
    rt: &R,
    alloc: Global,
    recorder: &mut Recorder,
    name: &[u8],
    created: u64,
) -> Option<TaskOwner> {
    let spec = spawn_spec(alloc, name, 1)?;
    let (owner, _) = recorder.task(rt, alloc, spec, created).ok()?;
    Some(owner)
}

// Whether a task is made.
pub(super) fn makes_task<R: Wait>(
    rt: &R,
    alloc: Global,
    recorder: &mut Recorder,
    name: &[u8],
    created: u64,
) -> bool {
    make_task(rt, alloc, recorder, name, created).is_some()
}

// Whether a `collect` takes so many.
pub(super) fn collects<R: Wait>(
    rt: &R,
    aggregator: &mut Aggregator,
    taker: &mut Taker,
    limit: u64,
    count: u64,
) -> bool {
    aggregator.collect(rt, taker, limit) == Ok(count)
}

fn record_and_collect<R: Wait>(
    rt: &R,
    alloc: Global,
    aggregator: &mut Aggregator,
    recorders: &mut Vec<Recorder>,
    taker: &mut Taker,
    name: &[u8],
    created: u64,
) -> Option<TaskOwner> {
    let owner = make_task(rt, alloc, recorders.get_mut(0)?, name, created)?;
    if !collects(rt, aggregator, taker, 9, 1) {
        return None;
    }
    Some(owner)
}

// The owner of a task that the aggregator has taken in: the first of recorder 1.
pub(super) fn take_in_task<R: Wait>(
    rt: &R,
    alloc: Global,
    aggregator: &mut Aggregator,
    name: &[u8],
    created: u64,
) -> Option<TaskOwner> {
    match Console::open(alloc, limits(1, 4, 9)) {
        Ok((mut recorders, mut taker)) => record_and_collect(
            rt,
            alloc,
            aggregator,
            &mut recorders,
            &mut taker,
            name,
            created,
        ),
        Err(_) => None,
    }
}

// Whether a value was made and a check holds of it. How a value ends is proved where it is owned: here that is done once,
// for a type of which nothing is known.
pub(super) fn on_made<T: Drop, E: Drop, F: FnOnce(&mut T) -> bool>(
    made: Result<T, E>,
    check: F,
) -> bool
    requires { F.IsAlwaysCallable check }
{
    match made {
        Ok(mut value) => check(&mut value),
        Err(_) => false,
    }
}

// Whether a check holds of a new aggregator after so many lines.
pub(super) fn on_new<F: FnOnce(&mut Aggregator) -> bool>(
    alloc: Global,
    after: u64,
    check: F,
) -> bool
    requires after { after ≤ 2 ^ 63 }
    requires callable { F.IsAlwaysCallable check }
{
    on_made(Aggregator::new(alloc, after), check)
}

// Whether a check holds of a new aggregator whose closed items stay so long.
pub(super) fn on_retaining<F: FnOnce(&mut Aggregator) -> bool>(
    alloc: Global,
    retention: u64,
    check: F,
) -> bool
    requires { F.IsAlwaysCallable check }
{
    on_made(Aggregator::with_retention(alloc, 0, retention), check)
}

// Whether a check holds of the recorders of a new console, and its taker.
pub(super) fn on_console<F: FnOnce(&mut Vec<Recorder>, &mut Taker) -> bool>(
    alloc: Global,
    limits: Limits,
    check: F,
) -> bool
    requires { F.IsAlwaysCallable check }
{
    match Console::open(alloc, limits) {
        Ok((mut recorders, mut taker)) => check(&mut recorders, &mut taker),
        Err(_) => false,
    }
}

// Whether the aggregator takes in a task `main`, created at 100.
pub(super) fn takes_in_main<R: Wait>(rt: &R, alloc: Global, aggregator: &mut Aggregator) -> bool {
    take_in_task(rt, alloc, aggregator, b"main", 100).is_some()
}

// The number of the line that reads all rows anew and tells of them.
pub(super) fn refresh_and_publish<R: Wait, W: Write>(
    rt: &R,
    aggregator: &mut Aggregator,
    now: u64,
    writer: &mut W,
) -> Result<u64, StreamError> {
    aggregator.refresh(rt);
    aggregator.publish(now, writer)
}

fn text_between(alloc: Global, none: &Tables, tables: &Tables) -> Option<Vec<u8>>
    requires { none.now ≡ empty_tables }
{
    match Line::between(alloc, none, tables, 1, true) {
        Ok(line) => line.write().ok(),
        Err(_) => None,
    }
}

// The text of tables as a snapshot of number 1.
fn text_of(alloc: Global, tables: &Tables) -> Option<Vec<u8>> {
    match Tables::new(alloc) {
        Ok(none) => text_between(alloc, &none, tables),
        Err(_) => None,
    }
}

fn is_text_of(alloc: Global, tables: &Tables, text: &[u8]) -> bool {
    match text_of(alloc, tables) {
        Some(own) => own.as_slice() == text,
        None => false,
    }
}

// Whether both tell the same as a whole.
pub(super) fn are_same(alloc: Global, one: &Tables, other: &Tables) -> bool {
    match text_of(alloc, one) {
        Some(text) => is_text_of(alloc, other, text.as_slice()),
        None => false,
    }
}

fn is_fed(client: &mut Client, alloc: Global, bytes: &[u8], lines: u64, tables: &Tables) -> bool {
    client.feed(bytes).ok() == Some(lines) && are_same(alloc, client.tables(), tables)
}

// Whether a fresh client takes so many lines from these bytes, and then has these tables.
pub(super) fn are_taken(alloc: Global, bytes: &[u8], lines: u64, tables: &Tables) -> bool {
    on_made(
        Client::new(alloc, 1_000_000),
        |client| is_fed(client, alloc, bytes, lines, tables),
    )
}
