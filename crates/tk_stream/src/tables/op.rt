//! An async operation in tables.
ghost use Rattle.std.specs.Prelude.{◌≡◌};

use crate::tables::item::Item;
use crate::tables::ranged::Ranged;
use crate::tables::rows::same_op_row;
use crate::told::{Closes, Described, Told};
use std::alloc::AllocError;
use tk_core::OpRow;
use tk_ids::{AsyncOpId, OpInfo};

/// An async operation in tables: what is told of it once, and its statistics, which change.
#[derive(Debug, Drop, PartialEq, Eq)]
pub struct Op {
    /// Its id, source, resource and attributes, which stay.
    pub info: OpInfo,
    /// Its statistics.
    pub row: OpRow,
}

impl Clone for Op {
    ghost is_clone = { λ a b. a ≡ b };

    fn clone(&self) -> Result<Op, AllocError> {
        let info = self.info.clone()?;
        Ok(Op {
            info,
            row: self.row,
        })
    }
}

impl Item for Op {
    ghost use Rattle.std.proofs.Common.{refl, sym};
    ghost use Rattle.tk_stream.specs.Tables.{op_id};
    ghost use Rattle.tk_stream.specs.Fronts.{op_at};

    type Row = OpRow;

    ghost id_of = { op_id };

    ghost with_row = { op_at };

    ghost row_of = { λ item. item.row };

    ghost keeps_id = { λ item row. refl };

    ghost own_row = { λ item. refl };

    ghost last_row = { λ item first last. refl };

    ghost copies = { λ a b e. sym e };

    fn id(&self) -> u64 {
        self.info.id.value()
    }

    fn row(&self) -> OpRow {
        self.row
    }

    fn set_row(&mut self, row: OpRow) {
        self.row = row;
    }
}

/// Its info and its row are in their ranges.
impl Ranged for Op {
    ghost use Rattle.tk_stream.specs.Ranges.{IsOpInfo, AreOpStats};

    ghost in_range = { λ item. IsOpInfo item.info × AreOpStats (item.info.id, item.row) };

    fn see(&self) {
        self.info.see();
        (self.info.id, self.row).see();
    }
}

impl Told for Op {
    ghost use Rattle.tk_stream.specs.Lines.{have_same_op_row, op_stats_of};

    type Stats = (AsyncOpId, OpRow);

    ghost same = { have_same_op_row };

    ghost stats_of = { op_stats_of };

    fn is_same(&self, other: &Op) -> bool {
        same_op_row(&self.row, &other.row)
    }

    #[inline]
    fn has_row(&self, row: &OpRow) -> bool {
        same_op_row(row, &self.row)
    }

    fn see_same(&self) {}

    fn stats(&self) -> (AsyncOpId, OpRow) {
        (self.info.id, self.row)
    }
}

impl Described for Op {
    ghost use Rattle.tk_stream.specs.Lines.{op_info};

    type Info = OpInfo;

    ghost info_of = { op_info };

    fn copy_info(&self) -> Result<OpInfo, AllocError> {
        self.info.clone()
    }
}

impl Closes for Op {
    ghost use Rattle.std.specs.Prelude.{refl};
    ghost use Rattle.tk_stream.specs.Tables.{op_id};

    type Id = AsyncOpId;

    ghost typed_id = { op_id };

    ghost closed_in = { λ row. row.dropped };

    ghost id_in = { λ s. s.0 };

    ghost shows = { λ item row. refl };

    ghost keeps_typed_id = { λ item row. refl };

    ghost tells_id = { λ item. refl };

    fn typed_id(&self) -> AsyncOpId {
        self.info.id
    }

    fn closed(row: &OpRow) -> Option<u64> {
        row.dropped
    }

    fn stats_id(stats: &(AsyncOpId, OpRow)) -> u64 {
        stats.0.value()
    }
}
