//! What tables hold in order of arrival.
ghost use Rattle.std.specs.Prelude.{◌≡◌, ℕ};

use crate::tables::ranged::Ranged;

/// What stands in a table: something with an id, and with a row that changes.
pub trait Item: Drop + Clone + Ranged {
    /// The part that changes.
    type Row: Copy;

    ghost id_of: { Self → ℕ };

    ghost with_row: { Self → Self.Row → Self };

    ghost row_of: { Self → Self.Row };

    fn id(&self) -> u64
        ensures { result ≡ id_of self.now };

    fn row(&self) -> Self::Row
        ensures { result ≡ row_of self.now };

    fn set_row(&mut self, row: Self::Row)
        ensures { self.new ≡ with_row self.old row };

    ghost keeps_id: { (item : Self) (row : Self.Row) → id_of (with_row item row) ≡ id_of item };

    ghost own_row: { (item : Self) → with_row item (row_of item) ≡ item };

    ghost last_row: { (item : Self) (first last : Self.Row) → with_row (with_row item first) last ≡ with_row item last };

    ghost copies: { (a b : Self) → Self.is_clone a b → b ≡ a };
}
