//! Which items have left, and what a line says of those that leave with it.

use std::alloc::{AllocError, Global};
use std::fmt::Write;
use tk_ids::{AsyncOpId, ResourceId, TaskId};
use tk_stream::Tables;

/// Items that are gone, by their ids.
#[derive(Drop)]
pub(crate) struct Gone {
    ops: Vec<AsyncOpId>,
    resources: Vec<ResourceId>,
    tasks: Vec<TaskId>,
}

/// An id, as lines have it.
trait Numbered {
    fn number(&self) -> u64;
}

impl Numbered for AsyncOpId {
    fn number(&self) -> u64 {
        self.value()
    }
}

impl Numbered for ResourceId {
    fn number(&self) -> u64 {
        self.value()
    }
}

impl Numbered for TaskId {
    fn number(&self) -> u64 {
        self.value()
    }
}

// Whether what was closed then, if it was, leaves at a moment.
fn is_due(closed: Option<u64>, retention: u64, now: u64) -> bool {
    match closed {
        Some(at) => match now.checked_sub(at) {
            Some(ago) => ago >= retention,
            None => retention == 0,
        },
        None => false,
    }
}

// Puts an id after the others, where its item is due.
fn push_due<I: Copy>(
    gone: &mut Vec<I>,
    id: I,
    closed: Option<u64>,
    retention: u64,
    now: u64,
) -> Result<(), AllocError> {
    if is_due(closed, retention, now) {
        gone.push(id)?;
    }
    Ok(())
}

impl Gone {
    pub(crate) fn none(alloc: Global) -> Gone {
        Gone {
            ops: Vec::new(alloc),
            resources: Vec::new(alloc),
            tasks: Vec::new(alloc),
        }
    }

    /// What leaves at a moment, as these tables show it.
    pub(crate) fn due(
        alloc: Global,
        told: &Tables,
        retention: u64,
        now: u64,
    ) -> Result<Gone, AllocError> {
        let mut gone = Gone::none(alloc);
        for i in 0..told.op_count() {
            if let Some(op) = told.op_at(i) {
                push_due(&mut gone.ops, op.info.id, op.row.dropped, retention, now)?;
            }
        }
        for i in 0..told.resource_count() {
            if let Some(resource) = told.resource_at(i) {
                let (id, closed) = (resource.info.id, resource.row.dropped);
                push_due(&mut gone.resources, id, closed, retention, now)?;
            }
        }
        for i in 0..told.task_count() {
            if let Some(task) = told.task_at(i) {
                push_due(
                    &mut gone.tasks,
                    task.info.id,
                    task.row.dropped,
                    retention,
                    now,
                )?;
            }
        }
        Ok(gone)
    }

    /// These and those.
    pub(crate) fn add(&mut self, more: &Gone) -> Result<(), AllocError> {
        self.ops.extend_from_slice(more.ops.as_slice())?;
        self.resources.extend_from_slice(more.resources.as_slice())?;
        self.tasks.extend_from_slice(more.tasks.as_slice())
    }

    /// Takes these items out of tables, one by one.
    pub(crate) fn leave(&self, tables: &mut Tables) {
        for op in &self.ops {
            tables.remove_op(*op);
        }
        for resource in &self.resources {
            tables.remove_resource(*resource);
        }
        for task in &self.tasks {
            tables.remove_task(*task);
        }
    }

    /// What a line says of them: its three lists, each with a comma after it.
    pub(crate) fn lists(&self, alloc: Global) -> Result<String, AllocError> {
        let mut out = String::new(alloc);
        put_list(&mut out, "gone_ops", self.ops.as_slice())?;
        put_list(&mut out, "gone_resources", self.resources.as_slice())?;
        put_list(&mut out, "gone_tasks", self.tasks.as_slice())?;
        Ok(out)
    }
}

// The ids of a list, with a comma between two.
fn put_ids<T: Numbered>(out: &mut String, ids: &[T]) -> Result<(), AllocError> {
    let mut later = false;
    for id in ids {
        if later {
            out.push_str(",")?;
        }
        write!(out, "{}", id.number())?;
        later = true;
    }
    Ok(())
}

fn put_list<T: Numbered>(out: &mut String, key: &str, ids: &[T]) -> Result<(), AllocError> {
    write!(out, "\"{key}\":[")?;
    put_ids(out, ids)?;
    out.push_str("],")
}
