//! What leaves with a line: its items, and the handles that read them.
ghost use Rattle.std.specs.Prelude.{◌≡◌, unwrap_or};
ghost use Rattle.tk_ledgers.specs.Ops.{OpSight};
ghost use Rattle.tk_ledgers.specs.Resources.{ResourceSight};
ghost use Rattle.tk_ledgers.specs.Tasks.{TaskSight};
ghost use Rattle.tk_stream.specs.Applied.{without_gone};
ghost use Rattle.tk_stream.specs.Lines.{none_gone};
ghost use Rattle.tk_stream.specs.Tables.{staying};

use tk_ledgers::{OpInspector, ResourceInspector, TaskInspector};
use tk_stream::{Leaving, Tables};

/// Lets the handles of the tasks go that leave.
fn keep_tasks(handles: &mut Vec<TaskInspector>, leaving: &Leaving)
    ensures { handles.new.items ≡ staying (λ (s : TaskSight). s.id) leaving.now.tasks handles.old.items }
{
    handles.retain(|handle| !leaving.has_task(handle.task()));
}

/// Lets the handles of the resources go that leave.
fn keep_resources(handles: &mut Vec<ResourceInspector>, leaving: &Leaving)
    ensures { handles.new.items ≡ staying (λ (s : ResourceSight). s.id) leaving.now.resources handles.old.items }
{
    handles.retain(|handle| !leaving.has_resource(handle.resource()));
}

/// Lets the handles of the async operations go that leave.
fn keep_ops(handles: &mut Vec<OpInspector>, leaving: &Leaving)
    ensures { handles.new.items ≡ staying (λ (s : OpSight). s.id) leaving.now.ops handles.old.items }
{
    handles.retain(|handle| !leaving.has_op(handle.op()));
}

/// Removes what leaves, if anything does, from the tables, and lets its handles go.
pub(crate) fn remove(
    leaving: &Option<Leaving>,
    tables: &mut Tables,
    tasks: &mut Vec<TaskInspector>,
    resources: &mut Vec<ResourceInspector>,
    ops: &mut Vec<OpInspector>,
)
    ensures tables { tables.new ≡ without_gone tables.old (unwrap_or leaving.now none_gone) }
    ensures tasks { tasks.new.items ≡ staying (λ (s : TaskSight). s.id) (unwrap_or leaving.now none_gone).tasks tasks.old.items }
    ensures resources { resources.new.items ≡ staying (λ (s : ResourceSight). s.id) (unwrap_or leaving.now none_gone).resources resources.old.items }
    ensures ops { ops.new.items ≡ staying (λ (s : OpSight). s.id) (unwrap_or leaving.now none_gone).ops ops.old.items }
{
    if let Some(leaving) = leaving {
        tables.leave(leaving);
        keep_tasks(tasks, leaving);
        keep_resources(resources, leaving);
        keep_ops(ops, leaving);
    }
}
