//! Tasks, and the calls of their owners.
ghost use Rattle.std.specs.Prelude.{◌≡◌, ◌∷◌, [], IfOk, false};
ghost use Rattle.tk_ledgers.specs.Times.{IsOfTask, known_times};
ghost use Rattle.tk_live.specs.Course as course;

use super::Interpreter;
use crate::items::TaskItem;
use crate::seats::open_task;
use std::alloc::Global;
use std::sync::Wait;
use tk_events::{Counting, RecordError};
use tk_ids::{IdError, Location, Name, TaskKind, TaskSpec};
use tk_ledgers::TaskOwner;
use tk_script::Stop;

/// A place on a line of the script.
pub(super) fn place_of(alloc: Global, line: u32) -> Result<Location, IdError>
    ensures { IfOk result (λ location. location ≡ course.place line) }
{
    let file = Name::new(alloc, b"script")?;
    Ok(Location {
        file,
        line,
        column: 1,
    })
}

// What is told of a task on a line of the script.
fn spec_of(alloc: Global, line: u32, kind: TaskKind, name: &[u8]) -> Result<TaskSpec, IdError>
    ensures { IfOk result (λ spec. (spec.kind ≡ kind) × (spec.name ≡ name.now) × (spec.location ≡ course.place line)) }
{
    let name = Name::new(alloc, name)?;
    let location = place_of(alloc, line)?;
    Ok(TaskSpec {
        kind,
        name,
        location,
    })
}

// What is kept of a new task.
fn item_of(owner: TaskOwner) -> TaskItem
    requires { owner.token.view.held ≡ 0 ∷ [] }
    ensures id { result.callers.id ≡ owner.id }
    ensures token { result.callers.token ≡ owner.token }
    ensures open { result.closed ≡ false }
    ensures times { known_times result.times ≡ owner.times }
    ensures task { IsOfTask owner.id result.times }
{
    let mut owner = owner;
    let times = owner.take_times();
    TaskItem {
        callers: owner.into_callers(),
        times,
        started: 0,
        closed: false,
    }
}

impl Interpreter {
    ghost use Rattle.std.specs.Prelude.{◌≡◌, ◌+◌, ◌*◌, ◌^◌, ◌<◌, ◌≤◌, ℕ, true};
    ghost use Rattle.tk_ids.specs.Names.{is_name};
    ghost use Rattle.tk_script.specs.Commands as said;
    ghost use Rattle.tk_live.specs.Runs.{SilentSpec};

    // A task, on a line of this number.
    pub(super) fn make_task<R: Wait>(
        &mut self,
        rt: &R,
        alloc: Global,
        line: u32,
        created: u64,
        kind: TaskKind,
        name: &[u8],
    ) -> Result<(), Stop>
        requires named { is_name name.now ≡ true }
        ensures { SilentSpec line (said.task created kind name.now) self.old self.new result }
    {
        let Ok(spec) = spec_of(alloc, line, kind, name) else {
            return Err(Stop::Memory);
        };
        if let Err(_) = self.tasks.reserve(1) {
            return Err(Stop::Memory);
        }
        let counting = Counting {
            times: self.times,
            waits: self.waits_said,
        };
        match self
            .recorder
            .task_counting(rt, alloc, spec, created, counting)
        {
            Ok((owner, _became)) => {
                self.tasks.push_reserved(item_of(owner));
                Ok(())
            }
            Err((RecordError::OffersSpent, _)) => Err(Stop::OffersSpent),
            Err((RecordError::Memory, _)) => Err(Stop::Memory),
        }
    }

    // A poll of a task starts.
    pub(super) fn start<R: Wait>(&mut self, rt: &R, task: u64, moment: u64) -> Result<(), Stop>
        ensures { (line : ℕ) → SilentSpec line (said.start task moment) self.old self.new result }
    {
        match open_task(&self.tasks, task) {
            Some(place) => self.tasks[place].start(rt, moment),
            None => Err(Stop::NoSuchItem),
        }
    }

    // The open poll of a task ends.
    pub(super) fn end<R: Wait>(&mut self, rt: &R, task: u64, moment: u64) -> Result<(), Stop>
        ensures { (line : ℕ) → SilentSpec line (said.finish task moment) self.old self.new result }
    {
        match open_task(&self.tasks, task) {
            Some(place) => self.tasks[place].end(rt, moment),
            None => Err(Stop::NoSuchItem),
        }
    }

    // A task is polled so many times.
    pub(super) fn polls<R: Wait>(
        &mut self,
        rt: &R,
        task: u64,
        count: u64,
        moment: u64,
        run: u64,
        every: u64,
    ) -> Result<(), Stop>
        requires some { 1 ≤ count }
        requires fits { moment + count * every + run < 2 ^ 64 }
        ensures { (line : ℕ) → SilentSpec line (said.polls task count moment run every) self.old self.new result }
    {
        match open_task(&self.tasks, task) {
            Some(place) => self.tasks[place].polls(rt, count, moment, run, every),
            None => Err(Stop::NoSuchItem),
        }
    }

    // A task is closed.
    pub(super) fn close<R: Wait>(&mut self, rt: &R, task: u64, moment: u64) -> Result<(), Stop>
        ensures { (line : ℕ) → SilentSpec line (said.close task moment) self.old self.new result }
    {
        match open_task(&self.tasks, task) {
            Some(place) => self.tasks[place].close(rt, moment),
            None => Err(Stop::NoSuchItem),
        }
    }

    // A task wakes itself in its open poll.
    pub(super) fn self_wake<R: Wait>(&mut self, rt: &R, task: u64, moment: u64) -> Result<(), Stop>
        ensures { (line : ℕ) → SilentSpec line (said.self_wake task moment) self.old self.new result }
    {
        match open_task(&self.tasks, task) {
            Some(place) => self.tasks[place].self_wake(rt, moment),
            None => Err(Stop::NoSuchItem),
        }
    }
}
