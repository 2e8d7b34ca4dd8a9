//! How the layers are used together: three tasks, from the console that records them to their report.
//!
//! `yield` wakes itself three times, `lose` drops its only waker, and `hold` keeps one that nobody calls.
ghost use Rattle.std.specs.Prelude.{◌≡◌, ℕ, List, Ok, Some, IfOk, IfErr, OnOk, slice_get, true};
ghost use Rattle.tk_aggregator.specs.Aggregates.{new_aggregating};
ghost use Rattle.tk_stream.specs.Streams.{IsStreamTo};
ghost use Rattle.tk_app.specs.Demo.{Demonstrates, IsReportOfDemo, demo_names, task_names};

use futures::executor::block_on;
use std::alloc::{AllocGlobal, Global};
use std::io::Write;
use std::random::RandomSource;
use std::sync::Wait;
use tk_aggregator::{Aggregator, StreamError};
use tk_client::Lints;
use tk_events::{Console, Limits, Recorder, Taker};
use tk_exec::{Clock, Driver, Example, Executor, HoldWaker, Instrumented, LoseWaker, YieldTimes};
use tk_ids::{Location, Name, TaskKind, TaskSpec};
use tk_report::{AppFault, report};
use tk_stream::{Tables, send};

/// One recorder, and room for more events than the demo makes.
const LIMITS: Limits = Limits {
    recorders: 1,
    capacity: 16,
    offers: 16,
};

/// A clock that tells 1000, 2000, 3000 and so on.
#[derive(Drop)]
struct Ticks<'a> {
    told: &'a mut u64,
}

impl Clock for Ticks<'_> {
    ghost use Rattle.std.specs.Prelude.{⊤};

    ghost reads = { λ clock moment after. ⊤ };

    fn now(&mut self) -> u64 {
        *self.told = self.told.saturating_add(1_000);
        *self.told
    }
}

fn spec_of(alloc: Global, name: &[u8]) -> Result<TaskSpec, AppFault>
    ensures { IfErr result (λ fault. fault ≡ AppFault.Memory) }
{
    let name = Name::new(alloc, name).map_err(|_| AppFault::Memory)?;
    let file = Name::new(alloc, b"demonstration.rt").map_err(|_| AppFault::Memory)?;
    Ok(TaskSpec {
        kind: TaskKind::Spawn,
        name,
        location: Location {
            file,
            line: 1,
            column: 1,
        },
    })
}

// Records a task, whose work the executor is to poll.
fn spawn<R: Wait>(
    rt: &R,
    alloc: Global,
    recorder: &mut Recorder,
    executor: &mut Executor<Example>,
    created: u64,
    name: &[u8],
    work: Example,
) -> Result<(), AppFault>
    ensures { IfErr result (λ fault. fault ≡ AppFault.Memory) }
{
    let spec = spec_of(alloc, name)?;
    let Ok((owner, _)) = recorder.task(rt, alloc, spec, created) else {
        return Err(AppFault::Memory);
    };
    executor
        .spawn(Instrumented::new(owner, work))
        .map_err(|_| AppFault::Memory)
}

fn spawn_three<R: Wait>(
    rt: &R,
    alloc: Global,
    recorder: &mut Recorder,
    executor: &mut Executor<Example>,
    clock: &mut Ticks<'_>,
) -> Result<(), AppFault>
    ensures { IfErr result (λ fault. fault ≡ AppFault.Memory) }
{
    let created = clock.now();
    spawn(
        rt,
        alloc,
        recorder,
        executor,
        created,
        b"yield",
        Example::Yield(YieldTimes::new(3)),
    )?;
    let created = clock.now();
    spawn(
        rt,
        alloc,
        recorder,
        executor,
        created,
        b"lose",
        Example::Lose(LoseWaker::new()),
    )?;
    let created = clock.now();
    spawn(
        rt,
        alloc,
        recorder,
        executor,
        created,
        b"hold",
        Example::Hold(HoldWaker::new()),
    )
}

// Polls the tasks until none is scheduled.
fn drive<R: Wait + RandomSource + AllocGlobal>(
    rt: &R,
    alloc: Global,
    executor: Executor<Example>,
    clock: Ticks<'_>,
) -> Result<(), AppFault>
    ensures { IfErr result (λ fault. fault ≡ AppFault.Memory) }
{
    match Driver::new(rt, alloc, executor, clock, 1) {
        Ok(driver) => block_on(rt, driver)
            .map(|_| ())
            .map_err(|_| AppFault::Memory),
        Err(_) => Err(AppFault::Memory),
    }
}

// Makes the tasks, and polls them to their ends.
fn run_tasks<R: Wait + RandomSource + AllocGlobal>(
    rt: &R,
    alloc: Global,
    recorder: &mut Recorder,
    told: &mut u64,
) -> Result<(), AppFault>
    ensures { IfErr result (λ fault. fault ≡ AppFault.Memory) }
{
    let mut clock = Ticks { told };
    match Executor::new(alloc) {
        Ok(mut executor) => {
            spawn_three(rt, alloc, recorder, &mut executor, &mut clock)?;
            drive(rt, alloc, executor, clock)
        }
        Err(_) => Err(AppFault::Memory),
    }
}

// Where a work found no memory for its waker, its task has none.
fn has_drawn_wakers(tables: &Tables) -> bool {
    [1, 2].iter().all(|place| match tables.task_at(*place) {
        Some(task) => task.row.clones > 0,
        None => false,
    })
}

// Whether a task of this name stands at a place.
fn is_named(tables: &Tables, place: usize, name: &str) -> bool
    ensures { result ≡ true → slice_get (task_names tables.now) place ≡ Some name.now }
{
    match tables.task_at(place) {
        Some(task) => task.info.name.as_str() == name,
        None => false,
    }
}

// Whether the tasks are those of the demo, and no others.
fn are_demonstrated(tables: &Tables) -> bool
    ensures { result ≡ true → task_names tables.now ≡ demo_names }
{
    if tables.task_count() != 3 {
        return false;
    }
    if !is_named(tables, 0, "yield") {
        return false;
    }
    if !is_named(tables, 1, "lose") {
        return false;
    }
    is_named(tables, 2, "hold")
}

// Takes in what was recorded, reads it, and tells of it by a line.
fn tell<R: Wait>(
    rt: &R,
    alloc: Global,
    aggregator: &mut Aggregator,
    taker: &mut Taker,
    now: u64,
) -> Result<(), StreamError>
    requires { aggregator.old ≡ new_aggregating 0 None }
    ensures { OnOk result ((stream : List ℕ) × IsStreamTo stream aggregator.new.tables 1) }
{
    aggregator.collect(rt, taker, LIMITS.capacity)?;
    aggregator.refresh(rt);
    let mut stream = Vec::new(alloc);
    aggregator.publish(now, &mut stream)?;
    Ok(())
}

// The report of what a new aggregator reads, once a line has told of it.
fn report_by<R: Wait>(
    rt: &R,
    alloc: Global,
    aggregator: &mut Aggregator,
    taker: &mut Taker,
    now: u64,
) -> Result<Vec<u8>, AppFault>
    requires { aggregator.old ≡ new_aggregating 0 None }
    ensures ok { IfOk result (λ text. IsReportOfDemo text.items) }
    ensures memory { IfErr result (λ fault. fault ≡ AppFault.Memory) }
{
    if tell(rt, alloc, aggregator, taker, now).is_err() {
        return Err(AppFault::Memory);
    }
    let tables = aggregator.tables();
    if !has_drawn_wakers(tables) || !are_demonstrated(tables) {
        return Err(AppFault::Memory);
    }
    report(alloc, tables, &Lints::default())
}

// A value by itself, in a function that knows nothing of it: how it ends is dear to prove where its fields are known.
fn boxed<T: Drop, E: Drop>(alloc: Global, made: Result<T, E>) -> Result<Box<T>, AppFault>
    ensures ok { IfOk result (λ own. made ≡ Ok own.value) }
    ensures memory { IfErr result (λ fault. fault ≡ AppFault.Memory) }
{
    match made {
        Ok(value) => Box::new(alloc, value).map_err(|_| AppFault::Memory),
        Err(_) => Err(AppFault::Memory),
    }
}

fn text_of<R: Wait>(rt: &R, alloc: Global, taker: &mut Taker, now: u64) -> Result<Vec<u8>, AppFault>
    ensures ok { IfOk result (λ text. IsReportOfDemo text.items) }
    ensures memory { IfErr result (λ fault. fault ≡ AppFault.Memory) }
{
    let mut aggregator = boxed(alloc, Aggregator::new(alloc, 0))?;
    report_by(rt, alloc, &mut aggregator, taker, now)
}

fn show_recorded<R: Wait + RandomSource + AllocGlobal>(
    rt: &R,
    alloc: Global,
    recorders: &mut [Recorder],
    taker: &mut Taker,
) -> Result<Vec<u8>, AppFault>
    ensures ok { IfOk result (λ text. IsReportOfDemo text.items) }
    ensures memory { IfErr result (λ fault. fault ≡ AppFault.Memory) }
{
    let mut told = 0;
    for recorder in recorders {
        run_tasks(rt, alloc, recorder, &mut told)?;
    }
    text_of(rt, alloc, taker, told.saturating_add(1_000))
}

fn show<R: Wait + RandomSource + AllocGlobal>(rt: &R, alloc: Global) -> Result<Vec<u8>, AppFault>
    ensures ok { IfOk result (λ text. IsReportOfDemo text.items) }
    ensures memory { IfErr result (λ fault. fault ≡ AppFault.Memory) }
{
    match Console::open(alloc, LIMITS) {
        Ok((mut recorders, mut taker)) => {
            show_recorded(rt, alloc, recorders.as_mut_slice(), &mut taker)
        }
        Err(_) => Err(AppFault::Memory),
    }
}

/// Polls three tasks until none is scheduled, and writes the report of what an aggregator then reads of them, by the default
/// lints. The text is made whole before its first byte is written.
///
/// - `Memory`: there was no memory for a part of it, a work's waker among them. Nothing was written.
/// - `Write`: the writer failed. A proper front of the text went out.
pub fn demo<R: Wait + RandomSource + AllocGlobal, W: Write>(
    rt: &R,
    alloc: Global,
    writer: &mut W,
) -> Result<(), AppFault>
    ensures { Demonstrates result (W.contents writer.old) (W.contents writer.new) }
{
    let text = show(rt, alloc)?;
    match send(writer, text.as_slice()) {
        Ok(()) => Ok(()),
        Err(_) => Err(AppFault::Write),
    }
}
