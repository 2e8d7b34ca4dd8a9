//! A task in tables.
ghost use Rattle.std.specs.Prelude.{◌≡◌};

use crate::tables::item::Item;
use crate::tables::ranged::Ranged;
use crate::tables::rows::same_row;
use crate::told::{Closes, Described, Told};
use std::alloc::AllocError;
use tk_core::TaskRow;
use tk_ids::{TaskId, TaskInfo};

/// A task in tables: what is told of it once, and its statistics, which change.
#[derive(Debug, Drop, PartialEq, Eq)]
pub struct Task {
    /// Its id, kind, name and location, which stay.
    pub info: TaskInfo,
    /// Its statistics.
    pub row: TaskRow,
}

impl Clone for Task {
    ghost is_clone = { λ a b. a ≡ b };

    fn clone(&self) -> Result<Task, AllocError> {
        let info = self.info.clone()?;
        Ok(Task {
            info,
            row: self.row,
        })
    }
}

impl Item for Task {
    ghost use Rattle.std.proofs.Common.{refl, sym};
    ghost use Rattle.tk_stream.specs.Tables.{task_id};
    ghost use Rattle.tk_stream.specs.Fronts.{task_at};

    type Row = TaskRow;

    ghost id_of = { task_id };

    ghost with_row = { task_at };

    ghost row_of = { λ item. item.row };

    ghost keeps_id = { λ item row. refl };

    ghost own_row = { λ item. refl };

    ghost last_row = { λ item first last. refl };

    ghost copies = { λ a b e. sym e };

    fn id(&self) -> u64 {
        self.info.id.value()
    }

    fn row(&self) -> TaskRow {
        self.row
    }

    fn set_row(&mut self, row: TaskRow) {
        self.row = row;
    }
}

/// Its info and its row are in their ranges.
impl Ranged for Task {
    ghost use Rattle.tk_stream.specs.Ranges.{IsTaskInfo, AreTaskStats};

    ghost in_range = { λ item. IsTaskInfo item.info × AreTaskStats (item.info.id, item.row) };

    fn see(&self) {
        self.info.see();
        (self.info.id, self.row).see();
    }
}

impl Told for Task {
    ghost use Rattle.tk_stream.specs.Lines.{have_same_row, task_stats_of};

    type Stats = (TaskId, TaskRow);

    ghost same = { have_same_row };

    ghost stats_of = { task_stats_of };

    fn is_same(&self, other: &Task) -> bool {
        same_row(&self.row, &other.row)
    }

    #[inline]
    fn has_row(&self, row: &TaskRow) -> bool {
        same_row(row, &self.row)
    }

    fn see_same(&self) {}

    fn stats(&self) -> (TaskId, TaskRow) {
        (self.info.id, self.row)
    }
}

impl Described for Task {
    ghost use Rattle.tk_stream.specs.Lines.{task_info};

    type Info = TaskInfo;

    ghost info_of = { task_info };

    fn copy_info(&self) -> Result<TaskInfo, AllocError> {
        self.info.clone()
    }
}

impl Closes for Task {
    ghost use Rattle.std.specs.Prelude.{refl};
    ghost use Rattle.tk_stream.specs.Tables.{task_id};

    type Id = TaskId;

    ghost typed_id = { task_id };

    ghost closed_in = { λ row. row.dropped };

    ghost id_in = { λ s. s.0 };

    ghost shows = { λ item row. refl };

    ghost keeps_typed_id = { λ item row. refl };

    ghost tells_id = { λ item. refl };

    fn typed_id(&self) -> TaskId {
        self.info.id
    }

    fn closed(row: &TaskRow) -> Option<u64> {
        row.dropped
    }

    fn stats_id(stats: &(TaskId, TaskRow)) -> u64 {
        stats.0.value()
    }
}
