//! Async operations, and poll operations.

use crate::attributes::{firsts_of, infos_of};
use crate::resources::made_resource;
use crate::run::{Plain, place_of};
use crate::tasks::made_task;
use std::alloc::Global;
use tk_core::{OpCall, OpRow};
use tk_ids::{AsyncOpId, AttrInfos, AttrValue, Attrs, IdError, Name, OpInfo, ResourceId, TaskId};
use tk_script::Stop;
use tk_stream::Tables;

fn info_of(
    alloc: Global,
    id: AsyncOpId,
    resource: ResourceId,
    source: &[u8],
    attrs: AttrInfos,
) -> Result<OpInfo, IdError> {
    let source = Name::new(alloc, source)?;
    Ok(OpInfo {
        id,
        source,
        resource,
        parent: None,
        attrs,
    })
}

// The row of a new operation, which its one reader has enlisted at.
fn first_row(created: u64, firsts: &[AttrValue]) -> Option<OpRow> {
    if firsts.len() > 6 {
        return None;
    }
    let (row, _) = OpRow::opening(created, firsts).step(OpCall::Enlist);
    Some(row)
}

fn add(tables: &mut Tables, info: OpInfo, row: OpRow) -> Result<(), Stop> {
    if tables.op(info.id).is_some() {
        return Err(Stop::OffersSpent);
    }
    match tables.add_op(info, row) {
        Ok(()) => Ok(()),
        Err(_) => Err(Stop::Memory),
    }
}

fn row_at(tables: &Tables, place: usize) -> Option<OpRow> {
    let op = tables.op_at(place)?;
    Some(op.row)
}

fn made_op(tables: &Tables, number: u64) -> Option<AsyncOpId> {
    let op = tables.op_at(place_of(number)?)?;
    Some(op.info.id)
}

// The row after a call of an operation's owner, who is spent where the operation is closed.
fn row_after(row: OpRow, call: OpCall) -> Result<OpRow, Stop> {
    if row.dropped.is_some() {
        return Err(Stop::NoSuchItem);
    }
    let (next, reply) = row.step(call);
    match reply.refusal() {
        Some(refusal) => Err(Stop::Call(refusal)),
        None => Ok(next),
    }
}

// One more that was ready, or pending.
fn one_more(counts: (u64, u64), ready: bool) -> (u64, u64) {
    if ready {
        (counts.0.saturating_add(1), counts.1)
    } else {
        (counts.0, counts.1.saturating_add(1))
    }
}

impl Plain {
    pub(crate) fn make_op(
        &mut self,
        created: u64,
        resource: u64,
        source: &[u8],
        attrs: Attrs,
    ) -> Result<(), Stop> {
        let Some(on) = made_resource(&self.tables, resource) else {
            return Err(Stop::NoSuchItem);
        };
        let Ok(id) = self.ids.next_op() else {
            return Err(Stop::OffersSpent);
        };
        let Ok(infos) = infos_of(self.alloc, &attrs) else {
            return Err(Stop::Memory);
        };
        let Ok(firsts) = firsts_of(self.alloc, &attrs) else {
            return Err(Stop::Memory);
        };
        let Ok(info) = info_of(self.alloc, id, on, source, infos) else {
            return Err(Stop::Memory);
        };
        match first_row(created, &firsts) {
            Some(row) => add(&mut self.tables, info, row),
            None => Err(Stop::BadCommand),
        }
    }

    /// A call of an operation's owner.
    pub(crate) fn call_op(&mut self, number: u64, call: OpCall) -> Result<(), Stop> {
        let Some(place) = place_of(number) else {
            return Err(Stop::NoSuchItem);
        };
        let Some(row) = row_at(&self.tables, place) else {
            return Err(Stop::NoSuchItem);
        };
        let next = match row_after(row, call) {
            Ok(next) => next,
            Err(stop) => return Err(stop),
        };
        if place < self.tables.op_count() {
            self.tables.set_op(place, next);
        }
        Ok(())
    }

    /// From now on a task polls an operation.
    pub(crate) fn set_op_task(&mut self, number: u64, task: u64) -> Result<(), Stop> {
        let id: TaskId = match made_task(&self.tables, task) {
            Some(id) => id,
            None => return Err(Stop::NoSuchItem),
        };
        self.call_op(number, OpCall::SetTask(id))
    }

    /// A poll operation of a resource.
    pub(crate) fn poll_op(
        &mut self,
        resource: u64,
        op: u64,
        task: u64,
        ready: bool,
    ) -> Result<(), Stop> {
        let Some(id) = made_resource(&self.tables, resource) else {
            return Err(Stop::NoSuchItem);
        };
        if made_op(&self.tables, op).is_none() || made_task(&self.tables, task).is_none() {
            return Err(Stop::NoSuchItem);
        }
        let (ready, pending) = one_more(self.tables.poll_counts(id), ready);
        match self.tables.set_counts(id, ready, pending) {
            Ok(()) => Ok(()),
            Err(_) => Err(Stop::Memory),
        }
    }
}
