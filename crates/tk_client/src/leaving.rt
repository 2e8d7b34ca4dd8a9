//! What a line says is gone.
ghost use Rattle.std.specs.Prelude.{◌≡◌, IfOk, IfSome, IfNone, true};
ghost use Rattle.tk_stream.specs.Lines.{gone_of};
ghost use Rattle.tk_client.specs.Taking as spec;

use crate::ids::Ids;
use std::alloc::{AllocError, Global};
use std::marker::Model;
use tk_ids::{AsyncOpId, ResourceId, TaskId};
use tk_stream::Line;

/// The ids of the items that leave the tables. None stands twice in its list.
#[derive(Drop)]
pub(crate) struct GoneIds {
    pub(crate) tasks: Ids,
    pub(crate) resources: Ids,
    pub(crate) ops: Ids,
}

impl Model for GoneIds {
    ghost use Rattle.tk_stream.specs.Lines.{GoneView};

    ghost Value = { GoneView };

    ghost view = { λ l. record { ops = l.ops; resources = l.resources; tasks = l.tasks } };
}

fn task_ids(alloc: Global, gone: &[TaskId]) -> Result<Vec<u64>, AllocError>
    ensures { IfOk result (λ ids. ids.items ≡ gone.now) }
{
    let mut ids = Vec::with_capacity(alloc, gone.len())?;
    for id in gone {
        ids.push(id.value())?;
    }
    Ok(ids)
}

fn resource_ids(alloc: Global, gone: &[ResourceId]) -> Result<Vec<u64>, AllocError>
    ensures { IfOk result (λ ids. ids.items ≡ gone.now) }
{
    let mut ids = Vec::with_capacity(alloc, gone.len())?;
    for id in gone {
        ids.push(id.value())?;
    }
    Ok(ids)
}

fn op_ids(alloc: Global, gone: &[AsyncOpId]) -> Result<Vec<u64>, AllocError>
    ensures { IfOk result (λ ids. ids.items ≡ gone.now) }
{
    let mut ids = Vec::with_capacity(alloc, gone.len())?;
    for id in gone {
        ids.push(id.value())?;
    }
    Ok(ids)
}

impl GoneIds {
    /// What a line says is gone, or `None` where an id stands twice in one of its lists.
    pub(crate) fn of(alloc: Global, line: &Line) -> Result<Option<GoneIds>, AllocError>
        ensures some { IfOk result (λ found. IfSome found (λ own. own ≡ gone_of line.now)) }
        ensures none { IfOk result (λ found. IfNone found (spec.repeats_gone line.now ≡ true)) }
    {
        let tasks = task_ids(alloc, line.gone_tasks())?;
        let resources = resource_ids(alloc, line.gone_resources())?;
        let ops = op_ids(alloc, line.gone_ops())?;
        let Some(tasks) = Ids::new(alloc, &tasks)? else {
            return Ok(None);
        };
        let Some(resources) = Ids::new(alloc, &resources)? else {
            return Ok(None);
        };
        let Some(ops) = Ids::new(alloc, &ops)? else {
            return Ok(None);
        };
        Ok(Some(GoneIds {
            tasks,
            resources,
            ops,
        }))
    }
}
