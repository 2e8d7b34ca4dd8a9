//! What lines tell of the items of tables.
ghost use Rattle.std.specs.Prelude.{◌≡◌, ℕ, Bool, true, IfOk, Option};

pub(crate) mod rows;
pub(crate) mod tables;

use crate::tables::item::Item;
use std::alloc::AllocError;

/// An item of which a line tells what changes.
pub trait Told: Item {
    /// What a line tells where the item is new or changed.
    type Stats: Copy;

    ghost same: { Self → Self → Bool };

    ghost stats_of: { Self → Self.Stats };

    fn is_same(&self, other: &Self) -> bool
        ensures { result ≡ same self.now other.now };

    /// Whether it is the same as itself with this row: that is its own then.
    fn has_row(&self, row: &Self::Row) -> bool
        ensures same { result ≡ same (Self.Item.with_row self.now row.now) self.now }
        ensures own { result ≡ true → Self.Item.with_row self.now row.now ≡ self.now };

    /// It is the same as itself. This does nothing.
    fn see_same(&self)
        ensures { same self.now self.now ≡ true };

    fn stats(&self) -> Self::Stats
        ensures { result ≡ stats_of self.now };
}

/// An item of which a line tells what stays, once.
pub(crate) trait Described: Item {
    /// What stays.
    type Info: Drop;

    ghost info_of: { Self → Self.Info };

    fn copy_info(&self) -> Result<Self::Info, AllocError>
        ensures { IfOk result (λ info. info ≡ info_of self.now) };
}

/// An item that is closed at last, and leaves later.
pub(crate) trait Closes: Told {
    /// Its id, by its kind.
    type Id: Copy + Drop;

    ghost typed_id: { Self → Self.Id };

    ghost closed_in: { Self.Row → Option ℕ };

    ghost id_in: { Self.Stats → ℕ };

    fn typed_id(&self) -> Self::Id
        ensures { result ≡ typed_id self.now };

    /// When it was closed, by its row.
    fn closed(row: &Self::Row) -> Option<u64>
        ensures { result ≡ closed_in row.now };

    fn stats_id(stats: &Self::Stats) -> u64
        ensures { result ≡ id_in stats.now };

    ghost shows: { (item : Self) (row : Self.Row) → Self.Item.row_of (Self.Item.with_row item row) ≡ row };

    ghost keeps_typed_id: { (item : Self) (row : Self.Row) → typed_id (Self.Item.with_row item row) ≡ typed_id item };

    ghost tells_id: { (item : Self) → id_in (Self.Told.stats_of item) ≡ Self.Item.id_of item };
}
