//! Async operations that lines tell of.

use crate::listed::Listed;
use std::alloc::AllocError;
use tk_core::OpRow;
use tk_ids::{AsyncOpId, OpInfo};
use tk_stream::{Op, Tables};

impl Listed for Op {
    ghost use Rattle.std.specs.Prelude.{refl};
    ghost use Rattle.tk_client.specs.Applying.{begins_same};
    ghost use Rattle.tk_stream.specs.Applied.{op_kind};

    type Info = OpInfo;

    type Stats = (AsyncOpId, OpRow);

    ghost kind = { op_kind };

    ghost items = { λ tables. tables.ops };

    ghost with_items = { λ tables items. record tables { ops = items } };

    fn info_id(info: &OpInfo) -> u64 {
        info.id.value()
    }

    fn stats_id(stats: &(AsyncOpId, OpRow)) -> u64 {
        stats.0.value()
    }

    fn has_info(tables: &Tables, info: &OpInfo) -> bool {
        tables.op(info.id).is_some()
    }

    fn has_told(tables: &Tables, stats: &(AsyncOpId, OpRow)) -> bool {
        tables.op(stats.0).is_some()
    }

    fn has_id(tables: &Tables, id: u64) -> bool {
        tables.ops.with_id(id).is_some()
    }

    fn place(tables: &Tables, stats: &(AsyncOpId, OpRow)) -> Option<usize> {
        tables.op_place(stats.0)
    }

    fn tell(tables: &mut Tables, i: usize, stats: &(AsyncOpId, OpRow)) {
        tables.set_op(i, stats.1);
    }

    fn add(
        tables: &mut Tables,
        info: OpInfo,
        stats: &(AsyncOpId, OpRow),
    ) -> Result<(), AllocError> {
        match tables.add_op(info, stats.1) {
            Ok(()) => Ok(()),
            Err((refused, _)) => Err(refused),
        }
    }

    ghost grows = { λ t xs b. record { tasks = begins_same t.tasks; resources = begins_same t.resources; ops = b; counts = begins_same t.counts; dropped = refl; now = refl } };

    ghost same_id = { λ info stats. refl };

    ghost keeps_id = { λ item stats. refl };

    ghost reads = { λ tables items. refl };

    ghost keeps = { λ tables. refl };

    ghost writes = { λ tables items more. refl };
}
