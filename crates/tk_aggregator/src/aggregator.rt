//! The aggregator: it takes events, reads the ledgers of their items, and publishes the lines of a stream.
//!
//! Beside the tables it keeps what the last whole line told of them, where that is another now: rows and counts by place, since
//! items only ever go last. So a line is made without a copy of the tables, and what did not change is compared once, when it is
//! read (`told/rows.rt` of `tk_stream`).
//!
//! | stream | `publish` | `snapshot` |
//! |---|---|---|
//! | whole | writes what differs from the last whole line | writes all |
//! | broken: the last line was cut off | `Broken` | writes all, and mends the stream |
//!
//! With a retention, closed items leave after it, as tokio-console lets closed tasks go: after a line that goes on, and that
//! says so. Where histograms of poll times are read, lines tell them too (`timing.rt`).
//!
//! `specs/Aggregates.antt` says what each call makes of it.
ghost use Rattle.std.specs.Prelude.{◌≡◌, ◌≤◌, ◌^◌, Some, None, false, true, IfOk, IfErr};
ghost use Rattle.tk_aggregator.specs.Aggregates.{new_aggregating, new_timed, IsSound};
ghost use Rattle.tk_aggregator.specs.Timing.{no_timing};
ghost use Rattle.tk_aggregator.specs.declared.stream_error.StreamError.TheVariants.{Memory};

mod collecting;
mod publishing;
mod reading;

use crate::stream_error::StreamError;
use crate::timing::Timing;
use std::alloc::Global;
use std::marker::Model;
use tk_events::Event;
use tk_ids::TaskId;
use tk_ledgers::{OpInspector, ResourceInspector, TaskInspector};
use tk_stream::{PollTimes, Table, Tables, ToldTables};

/// Takes events, reads the ledgers of their items, and writes the lines of a stream.
///
/// Contracts see its tables, those of the last whole line, the handles that read its items, an event that found no memory, the
/// number of the last line, whether that line was cut off, how long closed items stay, and the histograms of poll times.
#[derive(Drop)]
pub struct Aggregator {
    tables: Tables,
    told: ToldTables,
    // The handles that read the items, in the order of the tables.
    tasks: Vec<TaskInspector>,
    resources: Vec<ResourceInspector>,
    ops: Vec<OpInspector>,
    // An event that found no memory.
    held: Option<Event>,
    // The number of the last line.
    last: u64,
    // The last line was cut off.
    broken: bool,
    // How long a closed item stays, in nanoseconds. Without it nothing leaves, and lines are of version 1.
    retention: Option<u64>,
    // The histograms of poll times. Where they are read, lines are of version 3.
    timing: Timing,
}

impl Model for Aggregator {
    ghost use Rattle.tk_aggregator.specs.Aggregates.{Aggregating};
    ghost use Rattle.tk_stream.specs.Fronts.{told_tables};
    ghost use Rattle.tk_aggregator.specs.Standing.{IsStanding, TimesStand};

    ghost Value = { Aggregating };

    ghost view = { λ a. record {
      tables = a.tables;
      told = told_tables a.told a.tables;
      tasks = a.tasks.items;
      resources = a.resources.items;
      ops = a.ops.items;
      held = a.held;
      last = a.last;
      broken = a.broken;
      retention = a.retention;
      timing = a.timing;
    } };

    ghost invariant = { λ a. IsStanding a.tables a.told a.tasks.items a.resources.items a.ops.items a.held a.last × TimesStand a.tables.tasks a.timing };
}

impl Aggregator {
    /// One that has told nothing, whose next line has the number `after + 1`. It makes room for 16 tasks. Its lines are of
    /// version 1, and nothing leaves.
    ///
    /// Its one error is `Memory`: there is none for that.
    pub fn new(alloc: Global, after: u64) -> Result<Aggregator, StreamError>
        requires { after ≤ 2 ^ 63 }
        ensures ok { IfOk result (λ a. a ≡ new_aggregating after None) }
        ensures memory { IfErr result (λ e. e ≡ Memory) }
    {
        Aggregator::starting(alloc, after, None, false)
    }

    /// As `new`, but its lines are of version 2, and closed items leave: with a line of `publish` those go that the last whole
    /// line's tables show as closed, `retention` nanoseconds before the moment or more. Their handles are let go. Poll counts stay
    /// for good.
    pub fn with_retention(
        alloc: Global,
        after: u64,
        retention: u64,
    ) -> Result<Aggregator, StreamError>
        requires { after ≤ 2 ^ 63 }
        ensures ok { IfOk result (λ a. a ≡ new_aggregating after (Some retention)) }
        ensures memory { IfErr result (λ e. e ≡ Memory) }
    {
        Aggregator::starting(alloc, after, Some(retention), false)
    }

    /// As `new`, but its lines are of version 3: they tell the histograms of how long the polls of tasks ran, of those tasks that have
    /// one, and say which items are gone. Closed items leave as with [`Aggregator::with_retention`] where there is a retention,
    /// their histograms with them, and without one nothing leaves.
    pub fn with_times(
        alloc: Global,
        after: u64,
        retention: Option<u64>,
    ) -> Result<Aggregator, StreamError>
        requires { after ≤ 2 ^ 63 }
        ensures ok { IfOk result (λ a. a ≡ new_timed after retention) }
        ensures memory { IfErr result (λ e. e ≡ Memory) }
    {
        Aggregator::starting(alloc, after, retention, true)
    }

    fn starting(
        alloc: Global,
        after: u64,
        retention: Option<u64>,
        reads: bool,
    ) -> Result<Aggregator, StreamError>
        requires { after ≤ 2 ^ 63 }
        ensures ok { IfOk result (λ a. a ≡ record (new_aggregating after retention) { timing = no_timing reads }) }
        ensures memory { IfErr result (λ e. e ≡ Memory) }
    {
        let tasks = Vec::with_capacity(alloc, 16)?;
        let tables = Tables::new(alloc)?;
        Ok(Aggregator {
            tables,
            told: ToldTables::new(alloc),
            tasks,
            resources: Vec::new(alloc),
            ops: Vec::new(alloc),
            held: None,
            last: after,
            broken: false,
            retention,
            timing: Timing::new(alloc, reads),
        })
    }

    /// The tables: the items in order of arrival, each with the row that was read of it last, the counts of poll operations,
    /// how many events were dropped, and the moment of the last whole line.
    pub fn tables(&self) -> &Tables
        ensures is { result.now ≡ self.now.tables }
        ensures sound { IsSound self.now }
    {
        self.tables.see();
        self.timing.see();
        &self.tables
    }

    /// The histograms of how long the polls of tasks ran, of the tasks that have one, in their order, each as it was read last. None
    /// where histograms aren't read.
    pub fn times(&self) -> &Table<(TaskId, PollTimes)>
        ensures { result.now ≡ self.now.timing.shown }
    {
        self.timing.times()
    }
}
