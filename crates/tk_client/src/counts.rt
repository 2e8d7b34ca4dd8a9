//! Poll counts that lines tell.
ghost use Rattle.std.specs.Prelude.{◌≡◌, ◌++◌, map, filter, false, OnOk, OnErr, IsSome};
ghost use Rattle.tk_stream.specs.Applied.{counts_after};
ghost use Rattle.tk_stream.specs.Lines.{is_new};
ghost use Rattle.tk_stream.specs.Tables.{counts_id, item_with, with_counts};
ghost use Rattle.tk_client.specs.Taking.{has_twice};
ghost use Rattle.tk_client.specs.Applying as inner;

use std::alloc::AllocError;
use tk_ids::ResourceId;
use tk_stream::Tables;

// Counts of a resource that has none yet go last.
fn add_one(tables: &mut Tables, id: ResourceId, ready: u64, pending: u64) -> Result<(), AllocError>
    ensures ok { OnOk result (tables.new ≡ record tables.old { counts = inner.count_added (id, ready, pending) tables.old.counts }) }
    ensures err { OnErr result (tables.new ≡ tables.old) }
{
    if tables.counts_place(id).is_some() {
        return Ok(());
    }
    tables.set_counts(id, ready, pending)
}

/// Counts of resources that have none yet go last.
pub(crate) fn add_counts(
    tables: &mut Tables,
    told: &[(ResourceId, u64, u64)],
) -> Result<(), AllocError>
    requires { has_twice (map counts_id told.now) ≡ false }
    ensures added { OnOk result (tables.new ≡ record tables.old { counts = tables.old.counts ++ filter (is_new counts_id tables.old.counts) told.now }) }
    ensures grown { inner.Grown tables.old tables.new }
{
    for (id, ready, pending) in told {
        add_one(tables, *id, *ready, *pending)?;
    }
    Ok(())
}

// Replaces the counts of a resource that has some, which takes no memory.
fn replace(tables: &mut Tables, id: ResourceId, ready: u64, pending: u64)
    requires { IsSome (item_with counts_id id tables.old.counts) }
    ensures { tables.new ≡ with_counts tables.old id ready pending }
{
    tables.set_counts(id, ready, pending).unwrap();
}

/// Counts that are told take the place of those that are there.
pub(crate) fn tell_counts(tables: &mut Tables, told: &[(ResourceId, u64, u64)])
    requires once { has_twice (map counts_id told.now) ≡ false }
    requires counted { inner.AreCounted tables.old.counts told.now }
    ensures { tables.new ≡ record tables.old { counts = counts_after tables.old.counts told.now } }
{
    // Whoever counts tables' items learns that no resource has counts twice.
    tables.task_count();
    for (id, ready, pending) in told {
        replace(tables, *id, *ready, *pending);
    }
}
