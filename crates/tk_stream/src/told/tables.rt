//! What is kept of the tables of the last whole line.
ghost use Rattle.std.specs.Prelude.{◌≡◌};
ghost use Rattle.tk_stream.specs.Fronts.{no_told, told_tables, FitsIn, HaveRoom};

use crate::tables::Tables;
use crate::tables::op::Op;
use crate::tables::resource::Resource;
use crate::tables::task::Task;
use crate::told::rows::ToldRows;
use std::alloc::Global;
use std::marker::Model;
use tk_ids::{Dropped, ResourceId};

/// The rows and counts that the last whole line told of the first items of tables, and its totals.
#[derive(Drop)]
pub struct ToldTables {
    pub tasks: ToldRows<Task>,
    pub resources: ToldRows<Resource>,
    pub ops: ToldRows<Op>,
    pub counts: ToldRows<(ResourceId, u64, u64)>,
    dropped: Dropped,
}

impl Model for ToldTables {
    ghost use Rattle.tk_stream.specs.Fronts.{ToldView};

    ghost Value = { ToldView };

    ghost view = { λ t. record { tasks = t.tasks; resources = t.resources; ops = t.ops; counts = t.counts; dropped = t.dropped } };
}

impl ToldTables {
    /// Nothing was told.
    pub fn new(alloc: Global) -> ToldTables
        ensures { result ≡ no_told }
    {
        let dropped = Dropped {
            tasks: 0,
            resources: 0,
            ops: 0,
        };
        ToldTables {
            tasks: ToldRows::new(alloc),
            resources: ToldRows::new(alloc),
            ops: ToldRows::new(alloc),
            counts: ToldRows::new(alloc),
            dropped,
        }
    }

    /// All of the tables was told.
    pub fn tell(&mut self, tables: &Tables)
        requires { HaveRoom self.old tables.now }
        ensures told { told_tables self.new tables.now ≡ tables.now }
        ensures room { HaveRoom self.new tables.now }
        ensures fits { FitsIn self.new tables.now }
    {
        self.tasks.tell(&tables.tasks);
        self.resources.tell(&tables.resources);
        self.ops.tell(&tables.ops);
        self.counts.tell(&tables.counts);
        self.dropped = tables.dropped();
    }
}
