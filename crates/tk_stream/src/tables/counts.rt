//! The poll counts of a resource, in tables.
use crate::tables::item::Item;
use crate::told::Told;
use tk_ids::ResourceId;

/// A resource, and how many of its poll operations were ready and how many pending.
impl Item for (ResourceId, u64, u64) {
    ghost use Rattle.std.specs.Prelude.{refl};
    ghost use Rattle.tk_stream.specs.Tables.{counts_id};
    ghost use Rattle.tk_stream.specs.Fronts.{counts_at};
    ghost use Rattle.tk_stream.specs.Entries.{same_counts};

    type Row = (u64, u64);

    ghost id_of = { counts_id };

    ghost with_row = { counts_at };

    ghost row_of = { λ item. (item.1, item.2) };

    ghost keeps_id = { λ item row. refl };

    ghost own_row = { λ item. refl };

    ghost last_row = { λ item first last. refl };

    ghost copies = { same_counts };

    fn id(&self) -> u64 {
        self.0.value()
    }

    fn row(&self) -> (u64, u64) {
        (self.1, self.2)
    }

    fn set_row(&mut self, row: (u64, u64)) {
        let (ready, pending) = row;
        self.1 = ready;
        self.2 = pending;
    }
}

impl Told for (ResourceId, u64, u64) {
    ghost use Rattle.tk_stream.specs.Rows.{same_counts};
    ghost use Rattle.tk_stream.specs.Lines.{all_counts};

    type Stats = (ResourceId, u64, u64);

    ghost same = { same_counts };

    ghost stats_of = { all_counts };

    fn is_same(&self, other: &(ResourceId, u64, u64)) -> bool {
        self.0 == other.0 && self.1 == other.1 && self.2 == other.2
    }

    #[inline]
    fn has_row(&self, row: &(u64, u64)) -> bool {
        let (ready, pending) = *row;
        let id = self.0;
        id == self.0 && ready == self.1 && pending == self.2
    }

    fn see_same(&self) {}

    fn stats(&self) -> (ResourceId, u64, u64) {
        *self
    }
}
