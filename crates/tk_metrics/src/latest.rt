//! The last histograms of the tasks that are there.
ghost use Rattle.std.specs.Prelude.{◌≡◌, ℕ, OnOk, map, nat_eq, false, if◌then◌else◌};
ghost use Rattle.tk_client.specs.Changes.{left_id};
ghost use Rattle.tk_stream.specs.Tables.{is_among, item_with};
ghost use Rattle.tk_stream.specs.Times.{times_id};

use std::alloc::{AllocError, Global};
use tk_client::{Change, LeftTask, Times};
use tk_ids::TaskId;
use tk_stream::Table;

/// The last histograms of the tasks that are there. After a fault nothing is known of a client's own.
#[derive(Drop)]
pub(crate) struct Latest {
    times: Times,
}

impl Latest {
    ghost use Rattle.std.specs.Prelude.{[]};
    ghost use Rattle.tk_client.specs.Changes.{IsChange, Timed};
    ghost use Rattle.tk_stream.specs.Tables.{TablesView};
    ghost use Rattle.tk_metrics.specs.Timed.{Agrees};

    /// None yet.
    pub fn none(alloc: Global) -> Latest
        ensures { result.times ≡ [] }
    {
        Latest {
            times: Table::new(alloc),
        }
    }

    pub fn times(&self) -> &Times
        ensures { result.now ≡ self.now.times }
    {
        &self.times
    }

    // Takes the histogram of a task from these, if it has one.
    fn learn_one(&mut self, times: &Times, id: TaskId) -> Result<(), AllocError>
        ensures { OnOk result ((other : ℕ) → item_with times_id other self.new.times
            ≡ if nat_eq other id then item_with times_id other times.now else item_with times_id other self.old.times) }
    {
        match times.with_id(id.value()) {
            Some((task, own)) => {
                self.times.put((*task, *own))?;
                Ok(())
            }
            None => {
                self.times.remove(id.value());
                Ok(())
            }
        }
    }

    fn learn(&mut self, times: &Times, told: &[TaskId]) -> Result<(), AllocError>
        ensures { OnOk result ((other : ℕ) → item_with times_id other self.new.times
            ≡ if is_among told.now other then item_with times_id other times.now else item_with times_id other self.old.times) }
    {
        for id in told {
            self.learn_one(times, *id)?;
        }
        Ok(())
    }

    fn forget(&mut self, left: &[LeftTask])
        ensures { (other : ℕ) → is_among (map left_id left.now) other ≡ false
            → item_with times_id other self.new.times ≡ item_with times_id other self.old.times }
    {
        for one in left {
            self.times.remove(one.task.info.id.value());
        }
    }

    /// Takes what a line changed, with the histograms after it.
    pub fn note(&mut self, times: &Times, change: &Change) -> Result<(), AllocError>
        ensures { (before : Timed) (tables : TablesView) → IsChange before (tables, times.now) change.now → Agrees before self.old.times
            → OnOk result (Agrees (tables, times.now) self.new.times) }
    {
        self.forget(change.left());
        self.learn(times, change.told())?;
        Ok(())
    }
}
