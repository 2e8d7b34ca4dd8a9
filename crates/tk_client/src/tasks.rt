//! Tasks that lines tell of.

use crate::listed::Listed;
use std::alloc::AllocError;
use tk_core::TaskRow;
use tk_ids::{TaskId, TaskInfo};
use tk_stream::{Tables, Task};

impl Listed for Task {
    ghost use Rattle.std.specs.Prelude.{refl};
    ghost use Rattle.tk_client.specs.Applying.{begins_same};
    ghost use Rattle.tk_stream.specs.Applied.{task_kind};

    type Info = TaskInfo;

    type Stats = (TaskId, TaskRow);

    ghost kind = { task_kind };

    ghost items = { λ tables. tables.tasks };

    ghost with_items = { λ tables items. record tables { tasks = items } };

    fn info_id(info: &TaskInfo) -> u64 {
        info.id.value()
    }

    fn stats_id(stats: &(TaskId, TaskRow)) -> u64 {
        stats.0.value()
    }

    fn has_info(tables: &Tables, info: &TaskInfo) -> bool {
        tables.task(info.id).is_some()
    }

    fn has_told(tables: &Tables, stats: &(TaskId, TaskRow)) -> bool {
        tables.task(stats.0).is_some()
    }

    fn has_id(tables: &Tables, id: u64) -> bool {
        tables.tasks.with_id(id).is_some()
    }

    fn place(tables: &Tables, stats: &(TaskId, TaskRow)) -> Option<usize> {
        tables.task_place(stats.0)
    }

    fn tell(tables: &mut Tables, i: usize, stats: &(TaskId, TaskRow)) {
        tables.set_task(i, stats.1);
    }

    fn add(
        tables: &mut Tables,
        info: TaskInfo,
        stats: &(TaskId, TaskRow),
    ) -> Result<(), AllocError> {
        match tables.add_task(info, stats.1) {
            Ok(()) => Ok(()),
            Err((refused, _)) => Err(refused),
        }
    }

    ghost grows = { λ t xs b. record { tasks = b; resources = begins_same t.resources; ops = begins_same t.ops; counts = begins_same t.counts; dropped = refl; now = refl } };

    ghost same_id = { λ info stats. refl };

    ghost keeps_id = { λ item stats. refl };

    ghost reads = { λ tables items. refl };

    ghost keeps = { λ tables. refl };

    ghost writes = { λ tables items more. refl };
}
