//! Async operations, and the calls of their owners.
ghost use Rattle.std.specs.Prelude.{◌≡◌, ◌<◌, ◌≤◌, ◌∷◌, [], IfOk, IfErr, None, false};
ghost use Rattle.tk_ids.specs.Ids.{id_of};
ghost use Rattle.tk_ids.specs.IdBlocks.{last_number};

use super::Interpreter;
use crate::items::OpItem;
use crate::seats::{is_made, open_op};
use std::alloc::Global;
use std::sync::Wait;
use tk_core::AttrOp;
use tk_events::RecordError;
use tk_ids::{Attrs, IdBlock, IdError, Name, OpSpec, ResourceId, TaskId};
use tk_ledgers::OpOwner;
use tk_script::Stop;

// The id of the resource of this number.
fn resource_id(number: u64) -> Result<ResourceId, IdError>
    requires { 1 ≤ number }
    ensures { IfOk result (λ id. id ≡ id_of 1 number) }
{
    IdBlock::resume(1, 0, number - 1, 0)?.next_resource()
}

// The id of the task of this number.
fn task_id(number: u64) -> Result<TaskId, IdError>
    requires { 1 ≤ number }
    ensures ok { IfOk result (λ id. id ≡ id_of 1 number) }
    ensures err { IfErr result (λ e. last_number < number) }
{
    IdBlock::resume(1, number - 1, 0, 0)?.next_task()
}

// What is told of an operation on a resource.
fn spec_of(alloc: Global, resource: u64, source: &[u8], attrs: Attrs) -> Result<OpSpec, IdError>
    requires { 1 ≤ resource }
    ensures { IfOk result (λ spec. (spec.source ≡ source.now) × (spec.resource ≡ id_of 1 resource) × (spec.parent ≡ None) × (spec.attrs ≡ attrs)) }
{
    let resource = resource_id(resource)?;
    let source = Name::new(alloc, source)?;
    Ok(OpSpec {
        source,
        resource,
        parent: None,
        attrs,
    })
}

// What is kept of a new operation.
fn item_of(owner: OpOwner) -> OpItem
    requires { owner.token.view.held ≡ 0 ∷ [] }
    ensures id { result.callers.id ≡ owner.id }
    ensures token { result.callers.token ≡ owner.token }
    ensures open { result.closed ≡ false }
{
    OpItem {
        callers: owner.into_callers(),
        closed: false,
    }
}

impl Interpreter {
    ghost use Rattle.std.specs.Prelude.{◌≡◌, ℕ, true};
    ghost use Rattle.tk_ids.specs.Names.{is_name};
    ghost use Rattle.tk_script.specs.Commands as said;
    ghost use Rattle.tk_live.specs.Runs.{SilentSpec};

    // An operation on a resource.
    pub(super) fn make_op<R: Wait>(
        &mut self,
        rt: &R,
        alloc: Global,
        created: u64,
        resource: u64,
        source: &[u8],
        attrs: Attrs,
    ) -> Result<(), Stop>
        requires named { is_name source.now ≡ true }
        ensures { (line : ℕ) → SilentSpec line (said.op created resource source.now attrs) self.old self.new result }
    {
        if !is_made(&self.resources, resource) {
            return Err(Stop::NoSuchItem);
        }
        let Ok(spec) = spec_of(alloc, resource, source, attrs) else {
            return Err(Stop::Memory);
        };
        if let Err(_) = self.ops.reserve(1) {
            return Err(Stop::Memory);
        }
        match self.recorder.async_op(rt, alloc, spec, created) {
            Ok((owner, _became)) => {
                self.ops.push_reserved(item_of(owner));
                Ok(())
            }
            Err((RecordError::OffersSpent, _)) => Err(Stop::OffersSpent),
            Err((RecordError::Memory, _)) => Err(Stop::Memory),
        }
    }

    // From now on a task polls an operation.
    pub(super) fn set_task<R: Wait>(&mut self, rt: &R, op: u64, task: u64) -> Result<(), Stop>
        ensures { (line : ℕ) → SilentSpec line (said.op_task op task) self.old self.new result }
    {
        if !is_made(&self.tasks, task) {
            return Err(Stop::NoSuchItem);
        }
        let Some(place) = open_op(&self.ops, op) else {
            return Err(Stop::NoSuchItem);
        };
        match task_id(task) {
            Ok(id) => self.ops[place].set_task(rt, id),
            Err(_) => Err(Stop::Memory),
        }
    }

    // A poll of an operation starts.
    pub(super) fn start_op<R: Wait>(&mut self, rt: &R, op: u64, moment: u64) -> Result<(), Stop>
        ensures { (line : ℕ) → SilentSpec line (said.start_op op moment) self.old self.new result }
    {
        match open_op(&self.ops, op) {
            Some(place) => self.ops[place].start(rt, moment),
            None => Err(Stop::NoSuchItem),
        }
    }

    // The open poll of an operation ends.
    pub(super) fn end_op<R: Wait>(&mut self, rt: &R, op: u64, moment: u64) -> Result<(), Stop>
        ensures { (line : ℕ) → SilentSpec line (said.finish_op op moment) self.old self.new result }
    {
        match open_op(&self.ops, op) {
            Some(place) => self.ops[place].end(rt, moment),
            None => Err(Stop::NoSuchItem),
        }
    }

    // An operation is closed.
    pub(super) fn close_op<R: Wait>(&mut self, rt: &R, op: u64, moment: u64) -> Result<(), Stop>
        ensures { (line : ℕ) → SilentSpec line (said.close_op op moment) self.old self.new result }
    {
        match open_op(&self.ops, op) {
            Some(place) => self.ops[place].close(rt, moment),
            None => Err(Stop::NoSuchItem),
        }
    }

    // Its owner changes an attribute.
    pub(super) fn change_op<R: Wait>(
        &mut self,
        rt: &R,
        number: u64,
        index: u64,
        op: AttrOp,
    ) -> Result<(), Stop>
        ensures { (line : ℕ) → SilentSpec line (said.change_op number index op) self.old self.new result }
    {
        match open_op(&self.ops, number) {
            Some(place) => self.ops[place].change(rt, index, op),
            None => Err(Stop::NoSuchItem),
        }
    }
}
