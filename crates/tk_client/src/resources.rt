//! Resources that lines tell of.

use crate::listed::Listed;
use std::alloc::AllocError;
use tk_core::ResourceRow;
use tk_ids::{ResourceId, ResourceInfo};
use tk_stream::{Resource, Tables};

impl Listed for Resource {
    ghost use Rattle.std.specs.Prelude.{refl};
    ghost use Rattle.tk_client.specs.Applying.{begins_same};
    ghost use Rattle.tk_stream.specs.Applied.{resource_kind};

    type Info = ResourceInfo;

    type Stats = (ResourceId, ResourceRow);

    ghost kind = { resource_kind };

    ghost items = { λ tables. tables.resources };

    ghost with_items = { λ tables items. record tables { resources = items } };

    fn info_id(info: &ResourceInfo) -> u64 {
        info.id.value()
    }

    fn stats_id(stats: &(ResourceId, ResourceRow)) -> u64 {
        stats.0.value()
    }

    fn has_info(tables: &Tables, info: &ResourceInfo) -> bool {
        tables.resource(info.id).is_some()
    }

    fn has_told(tables: &Tables, stats: &(ResourceId, ResourceRow)) -> bool {
        tables.resource(stats.0).is_some()
    }

    fn has_id(tables: &Tables, id: u64) -> bool {
        tables.resources.with_id(id).is_some()
    }

    fn place(tables: &Tables, stats: &(ResourceId, ResourceRow)) -> Option<usize> {
        tables.resource_place(stats.0)
    }

    fn tell(tables: &mut Tables, i: usize, stats: &(ResourceId, ResourceRow)) {
        tables.set_resource(i, stats.1);
    }

    fn add(
        tables: &mut Tables,
        info: ResourceInfo,
        stats: &(ResourceId, ResourceRow),
    ) -> Result<(), AllocError> {
        match tables.add_resource(info, stats.1) {
            Ok(()) => Ok(()),
            Err((refused, _)) => Err(refused),
        }
    }

    ghost grows = { λ t xs b. record { tasks = begins_same t.tasks; resources = b; ops = begins_same t.ops; counts = begins_same t.counts; dropped = refl; now = refl } };

    ghost same_id = { λ info stats. refl };

    ghost keeps_id = { λ item stats. refl };

    ghost reads = { λ tables items. refl };

    ghost keeps = { λ tables. refl };

    ghost writes = { λ tables items more. refl };
}
