//! Poll operations.
ghost use Rattle.std.specs.Prelude.{◌≡◌, ◌≤◌, IfOk};
ghost use Rattle.tk_ids.specs.Ids.{id_of};

use super::Interpreter;
use crate::seats::is_made;
use std::alloc::Global;
use std::sync::Wait;
use tk_events::PollOp;
use tk_ids::{AsyncOpId, IdBlock, IdError, Name, ResourceId, TaskId};
use tk_script::Stop;

// The ids of the task, the resource and the operation of these numbers.
fn ids_of(task: u64, resource: u64, op: u64) -> Result<(TaskId, ResourceId, AsyncOpId), IdError>
    requires { (1 ≤ task) × (1 ≤ resource) × (1 ≤ op) }
    ensures { IfOk result (λ ids. (ids.0 ≡ id_of 1 task) × (ids.1 ≡ id_of 1 resource) × (ids.2 ≡ id_of 1 op)) }
{
    let mut ids = IdBlock::resume(1, task - 1, resource - 1, op - 1)?;
    Ok((ids.next_task()?, ids.next_resource()?, ids.next_op()?))
}

// A poll of this operation.
fn poll_of(
    alloc: Global,
    ids: (TaskId, ResourceId, AsyncOpId),
    name: &[u8],
    ready: bool,
) -> Result<PollOp, IdError>
    ensures { IfOk result (λ poll. (poll.resource ≡ ids.1) × (poll.name ≡ name.now) × (poll.task ≡ ids.0) × (poll.op ≡ ids.2) × (poll.ready ≡ ready)) }
{
    let name = Name::new(alloc, name)?;
    Ok(PollOp {
        resource: ids.1,
        name,
        task: ids.0,
        op: ids.2,
        ready,
    })
}

impl Interpreter {
    ghost use Rattle.std.specs.Prelude.{◌≡◌, ℕ, true};
    ghost use Rattle.tk_ids.specs.Names.{is_name};
    ghost use Rattle.tk_script.specs.Commands as said;
    ghost use Rattle.tk_live.specs.Runs.{SilentSpec};

    // A poll operation on a resource, by an operation and a task.
    pub(super) fn poll_op<R: Wait>(
        &mut self,
        rt: &R,
        alloc: Global,
        resource: u64,
        op: u64,
        task: u64,
        name: &[u8],
        ready: bool,
    ) -> Result<(), Stop>
        requires named { is_name name.now ≡ true }
        ensures { (line : ℕ) → SilentSpec line (said.poll_op resource op task name.now ready) self.old self.new result }
    {
        if !is_made(&self.resources, resource)
            || !is_made(&self.ops, op)
            || !is_made(&self.tasks, task)
        {
            return Err(Stop::NoSuchItem);
        }
        let Ok(ids) = ids_of(task, resource, op) else {
            return Err(Stop::Memory);
        };
        let Ok(poll) = poll_of(alloc, ids, name, ready) else {
            return Err(Stop::Memory);
        };
        match self.recorder.poll_op(rt, poll) {
            Ok(_became) => return Ok(()),
            Err(_) => return Err(Stop::OffersSpent),
        }
    }
}
