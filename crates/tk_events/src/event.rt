//! What recorders offer.

use tk_cell::Shared;
use tk_core::{OpRow, ResourceRow, TaskRow, TimesRow};
use tk_ids::{AsyncOpId, Name, OpInfo, ResourceId, ResourceInfo, TaskId, TaskInfo};
use tk_ledgers::{OpInspector, ResourceInspector, TaskInspector};

/// A poll of an async operation.
#[derive(Debug, Drop, PartialEq, Eq)]
pub struct PollOp {
    /// The resource that the operation is of.
    pub resource: ResourceId,
    /// The operation's name, as `poll_acquire`.
    pub name: Name,
    /// The task that polls it.
    pub task: TaskId,
    pub op: AsyncOpId,
    /// Whether the answer was ready.
    pub ready: bool,
}

/// What a recorder offers: a new item, with an inspector of its ledger, or a poll of an operation. The inspector of a task that was made
/// with a histogram reads that too.
#[derive(Drop)]
pub enum Event {
    Task(TaskInfo, TaskInspector),
    Resource(ResourceInfo, ResourceInspector),
    Op(OpInfo, OpInspector),
    Poll(PollOp),
}

/// What the buffer's rule sees of an event: of an inspector its ledger and its caller, and of a task's histogram the ledger. No value of it
/// is made.
pub enum Shown {
    MadeTask(TaskInfo, Shared<TaskRow>, u64, Option<Shared<TimesRow>>),
    MadeResource(ResourceInfo, Shared<ResourceRow>, u64),
    MadeOp(OpInfo, Shared<OpRow>, u64),
    Polled(PollOp),
}
