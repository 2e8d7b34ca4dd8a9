//! Laws of the definitions: each is the contract of a function that does nothing.
ghost use Rattle.std.specs.Prelude.{◌≡◌, ℕ, true, Some, Ok, ◌↔◌};
ghost use Rattle.tk_core.specs.declared.op.row.OpRow.{OpRow};
ghost use Rattle.tk_core.specs.declared.resource.row.ResourceRow.{ResourceRow};
ghost use Rattle.tk_core.specs.declared.task.row.TaskRow.{TaskRow};
ghost use Rattle.tk_stream.specs.Rows.{same_row, same_resource_row, same_op_row, same_counts};
ghost use Rattle.tk_stream.specs.Tables.{TablesView, PollCounts, AreDistinct, AreFit, empty_tables};
ghost use Rattle.tk_stream.specs.Applied.{GoOn, what_stays, tables_after};
ghost use Rattle.tk_stream.specs.Lines.{LineView, line_between, snapshot_of, gone_between, with_gone, TellsAll, TellsNothing};
ghost use Rattle.tk_stream.specs.Ranges.{IsLine};
ghost use Rattle.tk_stream.specs.Reading.{line_of_text};
ghost use Rattle.tk_stream.specs.Spelling.{line_text};

/// Two rows agree in each of their fields exactly where they are equal, and so do two poll counts.
pub fn same_rows_are_equal()
    ensures tasks { (a b : TaskRow) → (same_row a b ≡ true) ↔ (a ≡ b) }
    ensures resources { (a b : ResourceRow) → (same_resource_row a b ≡ true) ↔ (a ≡ b) }
    ensures ops { (a b : OpRow) → (same_op_row a b ≡ true) ↔ (a ≡ b) }
    ensures counts { (a b : PollCounts) → (same_counts a b ≡ true) ↔ (a ≡ b) }
{}

/// A snapshot line has the info and the row of each item, and all poll counts.
pub fn snapshots_tell_all()
    ensures { (tables : TablesView) (seq : ℕ) → TellsAll tables (snapshot_of tables seq) }
{}

/// The line that leads from tables to the same tables, in which no item stands twice, tells of no item and no count.
pub fn unchanged_tables_are_not_told()
    ensures { (tables : TablesView) (seq : ℕ) → AreDistinct tables → TellsNothing (line_between tables tables seq) }
{}

/// The line that leads from old tables to new ones makes the new ones of the old ones, also where it says what is gone, and a
/// snapshot line makes them of empty ones.
pub fn lines_lead_on()
    ensures between { (old new : TablesView) (seq : ℕ) → AreFit old → AreFit new → GoOn old new
        → tables_after old (line_between old new seq) ≡ Some new }
    ensures less { (old new : TablesView) (seq : ℕ) → AreFit old → AreFit new → GoOn (what_stays old new) new
        → tables_after old (with_gone (gone_between old new) (line_between old new seq)) ≡ Some new }
    ensures snapshot { (tables : TablesView) (seq : ℕ) → AreFit tables
        → tables_after empty_tables (snapshot_of tables seq) ≡ Some tables }
{}

/// The text of a line reads back as that line, where the line's values are in the ranges of their types.
pub fn lines_read_back()
    ensures { (l : LineView) → IsLine l → line_of_text (line_text l) ≡ Ok l }
{}
