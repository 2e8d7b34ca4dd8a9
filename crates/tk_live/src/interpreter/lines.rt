//! The lines of the stream.
ghost use Rattle.std.specs.Prelude.{◌≡◌, ◌+◌, ℕ, false, List, length, OnOk, IfErr, IfSome};
ghost use Rattle.std.specs.List.{AllByRecursion};
ghost use Rattle.std.specs.Io.KnownBytes.{Appends};
ghost use Rattle.tk_stream.specs.Spelling.{sent_text};
ghost use Rattle.tk_stream.specs.Streams.{MaySend};
ghost use Rattle.tk_ledgers.specs.Ops.{OpSight};
ghost use Rattle.tk_ledgers.specs.Resources.{ResourceSight};
ghost use Rattle.tk_ledgers.specs.Tasks.{TaskSight};
ghost use Rattle.tk_ledgers.specs.Times.{TimesSight};
ghost use Rattle.tk_live.specs.Items.{EachFrom, IsTask, IsResource, IsOp};
ghost use Rattle.tk_live.specs.Pasts.{TaskPast, ResourcePast, OpPast};
ghost use Rattle.tk_live.specs.Read.{CollectsAll, HasNumber, AreTasksRead, AreTimesRead, AreResourcesRead, AreOpsRead, ReadsOwned};
ghost use Rattle.tk_live.specs.Runs.{IsTaskLedger, IsTimesLedger, IsResourceLedger, IsOpLedger};
ghost use Rattle.tk_aggregator.specs.Timing.{AreOfOwner};
ghost use Rattle.tk_aggregator.specs.Beside.{KnowsAllTaken, StaysRecorder};
ghost use Rattle.tk_aggregator.specs.Aggregates.{IsDue, IsSound, Refuses, TookMore, after_line, line_at, sending_at};

use super::Interpreter;
use crate::items::{OpItem, ResourceItem, TaskItem};
use std::io::Write;
use std::sync::Wait;
use tk_aggregator::{Aggregator, StreamError};
use tk_events::{Recorder, Taker};
use tk_ledgers::TimesOwner;
use tk_script::Stop;
use tk_stream::{Item, Table};

// The id of the first item of each kind. A script has one recorder, which counts on from it.
const FIRST_ID: u64 = (1 << 40) + 1;

// Takes in all that was recorded and kept by then, of an aggregator that is sound before it and after it.
fn collect<R: Wait>(
    aggregator: &mut Aggregator,
    rt: &R,
    taker: &mut Taker,
    recorder: &mut Recorder,
) -> Result<(), StreamError>
    requires console { recorder.old.console ≡ taker.old.console }
    requires recorders { recorder.old.recorders ≡ taker.old.recorders }
    requires unfinished { taker.old.finished ≡ false }
    ensures same { StaysRecorder recorder.old recorder.new }
    ensures knows { OnOk result (KnowsAllTaken recorder.new) }
    ensures ok { OnOk result (CollectsAll recorder.old aggregator.old taker.old aggregator.new taker.new) }
    ensures took { TookMore taker.old taker.new }
    ensures sound { IsSound aggregator.old }
    ensures stays_sound { IsSound aggregator.new }
{
    aggregator.tables();
    let collected = aggregator.collect_beside(rt, taker, recorder, u64::MAX);
    aggregator.tables();
    match collected {
        // No recorder makes so many offers, so this is never answered.
        Ok(u64::MAX) => Err(StreamError::Memory),
        Ok(_) => Ok(()),
        Err(error) => Err(error),
    }
}

// The next line, as a snapshot or not.
fn write_line<W: Write>(
    aggregator: &mut Aggregator,
    moment: u64,
    whole: bool,
    writer: &mut W,
) -> Result<u64, StreamError>
    ensures state { OnOk result (aggregator.new ≡ after_line whole aggregator.old moment) }
    ensures due { OnOk result (IsDue whole aggregator.old moment) }
    ensures sent { OnOk result (Appends (W.contents writer.old) (W.contents writer.new) (sent_text (line_at whole aggregator.old moment))) }
    ensures refused { IfErr result (λ e. Refuses e whole aggregator.old moment aggregator.new (W.contents writer.old) (W.contents writer.new)) }
    ensures may_send { IsDue whole aggregator.old moment → MaySend aggregator.old.told (sending_at whole aggregator.old moment) }
{
    if whole {
        aggregator.snapshot(moment, writer)
    } else {
        aggregator.publish(moment, writer)
    }
}

// Writes the next line, as a snapshot or not, of an aggregator that is sound before it and after it.
fn send<W: Write>(
    aggregator: &mut Aggregator,
    moment: u64,
    whole: bool,
    writer: &mut W,
) -> Result<u64, StreamError>
    ensures state { OnOk result (aggregator.new ≡ after_line whole aggregator.old moment) }
    ensures due { OnOk result (IsDue whole aggregator.old moment) }
    ensures sent { OnOk result (Appends (W.contents writer.old) (W.contents writer.new) (sent_text (line_at whole aggregator.old moment))) }
    ensures refused { IfErr result (λ e. Refuses e whole aggregator.old moment aggregator.new (W.contents writer.old) (W.contents writer.new)) }
    ensures may_send { IsDue whole aggregator.old moment → MaySend aggregator.old.told (sending_at whole aggregator.old moment) }
    ensures sound { IsSound aggregator.old }
    ensures stays_sound { IsSound aggregator.new }
{
    aggregator.tables();
    let sent = write_line(aggregator, moment, whole, writer);
    aggregator.tables();
    sent
}

// The place of an item among the script's items of its kind, by its place in a table.
fn place_of<T: Item>(table: &Table<T>, i: usize) -> usize
    requires { (place : ℕ) × HasNumber T.id_of table.now i (place + 1) }
    ensures { HasNumber T.id_of table.now i (result + 1) }
{
    let item = table.at(i).unwrap();
    (item.id() - FIRST_ID) as usize
}

// Reads each task that the aggregator has, beside the hand that makes its calls.
fn read_tasks<R: Wait>(aggregator: &mut Aggregator, rt: &R, tasks: &mut Vec<TaskItem>)
    requires known { (ps : List TaskPast) × EachFrom IsTask 1 ps tasks.old.items }
    requires linked { AllByRecursion (λ (s : TaskSight). IsTaskLedger tasks.old.items s.id s.token.ledger) aggregator.old.tasks }
    ensures { AreTasksRead (length aggregator.old.tables.tasks) aggregator.old tasks.old.items aggregator.new tasks.new.items }
{
    for i in 0..aggregator.tables().tasks.len() {
        let place = place_of(&aggregator.tables().tasks, i);
        aggregator.read_task_beside(rt, &mut tasks[place].callers);
    }
}

// Reads each resource so.
fn read_resources<R: Wait>(aggregator: &mut Aggregator, rt: &R, resources: &mut Vec<ResourceItem>)
    requires known { (ps : List ResourcePast) × EachFrom IsResource 1 ps resources.old.items }
    requires linked { AllByRecursion (λ (s : ResourceSight). IsResourceLedger resources.old.items s.id s.token.ledger) aggregator.old.resources }
    ensures { AreResourcesRead (length aggregator.old.tables.resources) aggregator.old resources.old.items aggregator.new resources.new.items }
{
    for i in 0..aggregator.tables().resources.len() {
        let place = place_of(&aggregator.tables().resources, i);
        aggregator.read_resource_beside(rt, &mut resources[place].callers);
    }
}

// Reads each async operation so.
fn read_ops<R: Wait>(aggregator: &mut Aggregator, rt: &R, ops: &mut Vec<OpItem>)
    requires known { (ps : List OpPast) × EachFrom IsOp 1 ps ops.old.items }
    requires linked { AllByRecursion (λ (s : OpSight). IsOpLedger ops.old.items s.id s.token.ledger) aggregator.old.ops }
    ensures { AreOpsRead (length aggregator.old.tables.ops) aggregator.old ops.old.items aggregator.new ops.new.items }
{
    for i in 0..aggregator.tables().ops.len() {
        let place = place_of(&aggregator.tables().ops, i);
        aggregator.read_op_beside(rt, &mut ops[place].callers);
    }
}

// Reads a histogram beside its owner, if there is one.
fn read_owned<R: Wait>(aggregator: &mut Aggregator, rt: &R, times: &mut Option<TimesOwner>)
    requires { IfSome times.old (λ owner. AreOfOwner owner aggregator.old.timing.readers) }
    ensures { ReadsOwned times.old aggregator.old aggregator.new times.new }
{
    if let Some(owner) = times {
        aggregator.read_times_beside(rt, owner);
    }
}

// Reads each histogram that the aggregator has so.
fn read_times<R: Wait>(aggregator: &mut Aggregator, rt: &R, tasks: &mut Vec<TaskItem>)
    requires known { (ps : List TaskPast) × EachFrom IsTask 1 ps tasks.old.items }
    requires linked { AllByRecursion (λ (s : TimesSight). IsTimesLedger tasks.old.items s.id s.token.ledger) aggregator.old.timing.readers }
    ensures { AreTimesRead (length aggregator.old.timing.shown) aggregator.old tasks.old.items aggregator.new tasks.new.items }
{
    for i in 0..aggregator.times().len() {
        aggregator.tables();
        let place = place_of(aggregator.times(), i);
        read_owned(aggregator, rt, &mut tasks[place].times);
    }
}

impl Interpreter {
    ghost use Rattle.std.specs.Prelude.{ℕ};
    ghost use Rattle.tk_script.specs.Commands as said;
    ghost use Rattle.tk_live.specs.Course.{step};
    ghost use Rattle.tk_live.specs.Read.{MayRead, AreItemsRead};
    ghost use Rattle.tk_live.specs.Runs.{CommandSpec, RepresentsSome};
    ghost use Rattle.tk_live.specs.Stops.{stop_by_text};

    // Reads each item that the aggregator has beside the hand that makes its calls, and then each histogram beside its owner. What has left
    // costs nothing.
    fn read_items<R: Wait>(&mut self, rt: &R)
        requires { MayRead self.old }
        ensures { AreItemsRead self.old self.new }
    {
        read_tasks(&mut self.aggregator, rt, &mut self.tasks);
        read_resources(&mut self.aggregator, rt, &mut self.resources);
        read_ops(&mut self.aggregator, rt, &mut self.ops);
        read_times(&mut self.aggregator, rt, &mut self.tasks);
    }

    // A line of the stream, as a snapshot or not: of all that was recorded and kept by then, and of rows as they are now.
    pub(super) fn publish<R: Wait, W: Write>(
        &mut self,
        rt: &R,
        moment: u64,
        whole: bool,
        writer: &mut W,
    ) -> Result<(), Stop>
        requires { RepresentsSome self.old }
        ensures { (line : ℕ) → CommandSpec stop_by_text step line (said.publish moment whole) self.old self.new result
            (W.contents writer.old) (W.contents writer.new) }
    {
        if let Err(_) = collect(
            &mut self.aggregator,
            rt,
            &mut self.taker,
            &mut self.recorder,
        ) {
            return Err(Stop::Memory);
        }
        self.read_items(rt);
        match send(&mut self.aggregator, moment, whole, writer) {
            Ok(_) => Ok(()),
            Err(StreamError::Clock) => Err(Stop::Clock),
            Err(StreamError::NumbersSpent) => Err(Stop::NumbersSpent),
            Err(StreamError::Memory) => Err(Stop::Memory),
            Err(StreamError::WriteFault) => Err(Stop::WriteFault),
            // A broken stream stops its script at once, so this is never answered.
            Err(StreamError::Broken) => Err(Stop::WriteFault),
        }
    }
}
