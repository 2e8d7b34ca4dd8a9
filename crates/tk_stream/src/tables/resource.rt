//! A resource in tables.
ghost use Rattle.std.specs.Prelude.{◌≡◌};

use crate::tables::item::Item;
use crate::tables::ranged::Ranged;
use crate::tables::rows::same_resource_row;
use crate::told::{Closes, Described, Told};
use std::alloc::AllocError;
use tk_core::ResourceRow;
use tk_ids::{ResourceId, ResourceInfo};

/// A resource in tables: what is told of it once, and its statistics, which change.
#[derive(Debug, Drop, PartialEq, Eq)]
pub struct Resource {
    /// Its id, type, kind, location and attributes, which stay.
    pub info: ResourceInfo,
    /// Its statistics.
    pub row: ResourceRow,
}

impl Clone for Resource {
    ghost is_clone = { λ a b. a ≡ b };

    fn clone(&self) -> Result<Resource, AllocError> {
        let info = self.info.clone()?;
        Ok(Resource {
            info,
            row: self.row,
        })
    }
}

impl Item for Resource {
    ghost use Rattle.std.proofs.Common.{refl, sym};
    ghost use Rattle.tk_stream.specs.Tables.{resource_id};
    ghost use Rattle.tk_stream.specs.Fronts.{resource_at};

    type Row = ResourceRow;

    ghost id_of = { resource_id };

    ghost with_row = { resource_at };

    ghost row_of = { λ item. item.row };

    ghost keeps_id = { λ item row. refl };

    ghost own_row = { λ item. refl };

    ghost last_row = { λ item first last. refl };

    ghost copies = { λ a b e. sym e };

    fn id(&self) -> u64 {
        self.info.id.value()
    }

    fn row(&self) -> ResourceRow {
        self.row
    }

    fn set_row(&mut self, row: ResourceRow) {
        self.row = row;
    }
}

/// Its info and its row are in their ranges.
impl Ranged for Resource {
    ghost use Rattle.tk_stream.specs.Ranges.{IsResourceInfo, AreResourceStats};

    ghost in_range = { λ item. IsResourceInfo item.info × AreResourceStats (item.info.id, item.row) };

    fn see(&self) {
        self.info.see();
        (self.info.id, self.row).see();
    }
}

impl Told for Resource {
    ghost use Rattle.tk_stream.specs.Lines.{have_same_resource_row, resource_stats_of};

    type Stats = (ResourceId, ResourceRow);

    ghost same = { have_same_resource_row };

    ghost stats_of = { resource_stats_of };

    fn is_same(&self, other: &Resource) -> bool {
        same_resource_row(&self.row, &other.row)
    }

    #[inline]
    fn has_row(&self, row: &ResourceRow) -> bool {
        same_resource_row(row, &self.row)
    }

    fn see_same(&self) {}

    fn stats(&self) -> (ResourceId, ResourceRow) {
        (self.info.id, self.row)
    }
}

impl Described for Resource {
    ghost use Rattle.tk_stream.specs.Lines.{resource_info};

    type Info = ResourceInfo;

    ghost info_of = { resource_info };

    fn copy_info(&self) -> Result<ResourceInfo, AllocError> {
        self.info.clone()
    }
}

impl Closes for Resource {
    ghost use Rattle.std.specs.Prelude.{refl};
    ghost use Rattle.tk_stream.specs.Tables.{resource_id};

    type Id = ResourceId;

    ghost typed_id = { resource_id };

    ghost closed_in = { λ row. row.dropped };

    ghost id_in = { λ s. s.0 };

    ghost shows = { λ item row. refl };

    ghost keeps_typed_id = { λ item row. refl };

    ghost tells_id = { λ item. refl };

    fn typed_id(&self) -> ResourceId {
        self.info.id
    }

    fn closed(row: &ResourceRow) -> Option<u64> {
        row.dropped
    }

    fn stats_id(stats: &(ResourceId, ResourceRow)) -> u64 {
        stats.0.value()
    }
}
