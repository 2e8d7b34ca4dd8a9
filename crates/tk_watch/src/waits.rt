//! How many tasks waited at each of the last lines.
ghost use Rattle.std.specs.Prelude.{◌≡◌, ◌++◌, ◌∷◌, [], List, OnOk};
ghost use Rattle.tk_stream.specs.Tables.{TablesView};
ghost use Rattle.tk_watch.specs.Waits as spec;

use crate::last::push_last;
use std::alloc::AllocError;
use tk_odd::Waiting;
use tk_stream::Tables;

// Of how many lines that is kept.
const ROOM: usize = 40;

/// Takes the tables after a line.
pub(crate) fn note_waits(waits: &mut Vec<u64>, tables: &Tables) -> Result<(), AllocError>
    ensures { (shown : List TablesView) → waits.old.items ≡ spec.waits_after shown
        → OnOk result (waits.new.items ≡ spec.waits_after (shown ++ tables.now ∷ [])) }
{
    push_last(waits, ROOM, Waiting::of(tables).count)
}
