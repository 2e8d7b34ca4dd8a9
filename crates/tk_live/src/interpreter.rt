//! The run of a script over live ledgers.
ghost use Rattle.std.specs.Prelude.{◌≡◌, IfOk};
ghost use Rattle.tk_aggregator.specs.Aggregates.{new_aggregating};
ghost use Rattle.tk_aggregator.specs.Timing.{no_timing};

mod lines;
mod ops;
mod polls;
mod resources;
mod tasks;
mod wakers;

use crate::items::{OpItem, ResourceItem, TaskItem, WakerItem};
use std::alloc::Global;
use std::io::Write;
use std::sync::Wait;
use tk_aggregator::{Aggregator, StreamError};
use tk_events::{Console, Limits, Recorder, Taker};
use tk_script::{Command, Settings, Stop};

// So many polls `polls` commands make together at most. They take about half a minute.
const MOST_POLLS: u64 = 100_000_000;

/// The recorder, the taker and the aggregator of a script, and what is kept of its items, each at its number.
#[derive(Drop)]
pub(crate) struct Interpreter {
    pub(crate) recorder: Recorder,
    pub(crate) taker: Taker,
    pub(crate) aggregator: Aggregator,
    // Whether each task gets a histogram of how long its polls ran.
    pub(crate) times: bool,
    pub(crate) tasks: Vec<TaskItem>,
    pub(crate) wakers: Vec<Option<WakerItem>>,
    pub(crate) resources: Vec<ResourceItem>,
    pub(crate) ops: Vec<OpItem>,
    // How many polls `polls` commands made.
    pub(crate) polled: u64,
    // Which settings were said, and whether there was any other command.
    pub(crate) capacity_said: bool,
    pub(crate) retention_said: bool,
    pub(crate) times_said: bool,
    pub(crate) waits_said: bool,
    pub(crate) begun: bool,
}

// The aggregator of a script. Where closed items leave, its lines say what is gone, and where tasks have histograms, they tell these.
fn aggregator_for(alloc: Global, settings: Settings) -> Result<Aggregator, StreamError>
    ensures { IfOk result (λ a. a ≡ record (new_aggregating 0 settings.retention) { timing = no_timing settings.times }) }
{
    if settings.times {
        return Aggregator::with_times(alloc, 0, settings.retention);
    }
    match settings.retention {
        Some(span) => Aggregator::with_retention(alloc, 0, span),
        None => Aggregator::new(alloc, 0),
    }
}

impl Interpreter {
    ghost use Rattle.std.specs.Prelude.{◌≡◌, ◌≤◌, ◌||◌, not, ℕ, [], IfOk};
    ghost use Rattle.tk_script.specs.Commands.{view, IsGood, capacity, retention, times, waits, is_setting};
    ghost use Rattle.tk_live.specs.Course.{step, step_on, start_of_all};
    ghost use Rattle.tk_live.specs.Stops.{command_stop, stop_by_text};
    ghost use Rattle.tk_live.specs.Runs.{Represents, RepresentsSome, CommandSpec, SilentSpec};

    pub(crate) fn new(alloc: Global, settings: Settings) -> Result<Interpreter, Stop>
        requires { (1 ≤ settings.capacity) × (settings.capacity ≤ 65536) }
        ensures { IfOk result (λ i. Represents i settings start_of_all [] []) }
    {
        let limits = Limits {
            recorders: 1,
            capacity: settings.capacity,
            offers: (1 << 40) - 1,
        };
        let Ok((mut recorders, taker)) = Console::open(alloc, limits) else {
            return Err(Stop::Memory);
        };
        let Some(recorder) = recorders.pop() else {
            return Err(Stop::Memory);
        };
        let Ok(aggregator) = aggregator_for(alloc, settings) else {
            return Err(Stop::Memory);
        };
        Ok(Interpreter {
            recorder,
            taker,
            aggregator,
            times: settings.times,
            tasks: Vec::new(alloc),
            wakers: Vec::new(alloc),
            resources: Vec::new(alloc),
            ops: Vec::new(alloc),
            polled: 0,
            capacity_said: false,
            retention_said: false,
            times_said: false,
            waits_said: false,
            begun: false,
        })
    }

    /// What comes of a command, on a line of this number, and that no setting may stand after it if it is none. Too many polls stop it
    /// before anything else does.
    pub(crate) fn run<R: Wait, W: Write>(
        &mut self,
        rt: &R,
        alloc: Global,
        line: u32,
        command: Command<'_>,
        writer: &mut W,
    ) -> Result<(), Stop>
        requires good { IsGood (view command) }
        requires stands { RepresentsSome self.old }
        ensures { CommandSpec command_stop step_on line (view command.entry) self.old self.new result
            (W.contents writer.old) (W.contents writer.new) }
    {
        let polled = self.polled.saturating_add(command.polls());
        if polled > MOST_POLLS {
            return Err(Stop::TooManyPolls);
        }
        let begun = self.begun_by(&command);
        match self.apply(rt, alloc, line, command, writer) {
            Ok(()) => {
                self.polled = polled;
                self.begun = begun;
                Ok(())
            }
            Err(stop) => Err(stop),
        }
    }

    // Whether there was a command that is no setting, up to this one.
    fn begun_by(&self, command: &Command<'_>) -> bool
        ensures { result ≡ (not (is_setting (view command.now)) || self.now.begun) }
    {
        !command.is_setting() || self.begun
    }

    /// What comes of a command, on a line of this number.
    pub(crate) fn apply<R: Wait, W: Write>(
        &mut self,
        rt: &R,
        alloc: Global,
        line: u32,
        command: Command<'_>,
        writer: &mut W,
    ) -> Result<(), Stop>
        requires good { IsGood (view command) }
        requires stands { RepresentsSome self.old }
        ensures { CommandSpec stop_by_text step line (view command.entry) self.old self.new result
            (W.contents writer.old) (W.contents writer.new) }
    {
        match command {
            Command::Task { moment, kind, name } => {
                self.make_task(rt, alloc, line, moment, kind, name)
            }
            Command::Start { task, moment } => self.start(rt, task, moment),
            Command::End { task, moment } => self.end(rt, task, moment),
            Command::Polls {
                task,
                count,
                moment,
                run,
                every,
            } => self.polls(rt, task, count, moment, run, every),
            Command::Close { task, moment } => self.close(rt, task, moment),
            Command::SelfWake { task, moment } => self.self_wake(rt, task, moment),
            Command::CloneWaker { task } => self.clone_waker(rt, task),
            Command::Again { waker } => self.again(rt, waker),
            Command::WakeRef { waker, moment } => self.wake_ref(rt, waker, moment),
            Command::Wake { waker, moment } => self.wake(rt, waker, moment),
            Command::Release { waker } => self.release(rt, waker),
            Command::Resource {
                moment,
                kind,
                concrete,
                attrs,
            } => self.make_resource(rt, alloc, line, moment, kind, concrete, attrs),
            Command::CloseResource { resource, moment } => {
                self.close_resource(rt, resource, moment)
            }
            Command::ChangeResource {
                resource,
                index,
                change,
            } => self.change_resource(rt, resource, index, change),
            Command::Op {
                moment,
                resource,
                source,
                attrs,
            } => self.make_op(rt, alloc, moment, resource, source, attrs),
            Command::OpTask { op, task } => self.set_task(rt, op, task),
            Command::StartOp { op, moment } => self.start_op(rt, op, moment),
            Command::EndOp { op, moment } => self.end_op(rt, op, moment),
            Command::CloseOp { op, moment } => self.close_op(rt, op, moment),
            Command::ChangeOp { op, index, change } => self.change_op(rt, op, index, change),
            Command::PollOp {
                resource,
                op,
                task,
                name,
                ready,
            } => self.poll_op(rt, alloc, resource, op, task, name, ready),
            Command::Capacity { count: _ } => self.say_capacity(),
            Command::Retention { span: _ } => self.say_retention(),
            Command::Times => self.say_times(),
            Command::Waits => self.say_waits(),
            Command::Publish { moment, whole } => self.publish(rt, moment, whole, writer),
        }
    }

    // The capacity, which was looked for before the first line, is said once, before every command that is no setting.
    fn say_capacity(&mut self) -> Result<(), Stop>
        ensures { (line : ℕ) (n : ℕ) → SilentSpec line (capacity n) self.old self.new result }
    {
        if self.begun || self.capacity_said {
            return Err(Stop::BadCommand);
        }
        self.capacity_said = true;
        Ok(())
    }

    // The retention, which was looked for before the first line, is said once, before every command that is no setting.
    fn say_retention(&mut self) -> Result<(), Stop>
        ensures { (line : ℕ) (n : ℕ) → SilentSpec line (retention n) self.old self.new result }
    {
        if self.begun || self.retention_said {
            return Err(Stop::BadCommand);
        }
        self.retention_said = true;
        Ok(())
    }

    // That tasks have histograms, which was looked for before the first line, is said once, before every command that is no setting.
    fn say_times(&mut self) -> Result<(), Stop>
        ensures { (line : ℕ) → SilentSpec line times self.old self.new result }
    {
        if self.begun || self.times_said {
            return Err(Stop::BadCommand);
        }
        self.times_said = true;
        Ok(())
    }

    // From here on tasks count their waits. It is said once, before every command that is no setting.
    fn say_waits(&mut self) -> Result<(), Stop>
        ensures { (line : ℕ) → SilentSpec line waits self.old self.new result }
    {
        if self.begun || self.waits_said {
            return Err(Stop::BadCommand);
        }
        self.waits_said = true;
        Ok(())
    }
}
