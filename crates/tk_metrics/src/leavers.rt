//! What leaves the tables of a stream, line by line.
ghost use Rattle.std.specs.Prelude.{◌≡◌};

use crate::apart::Apart;
use crate::histograms::Histograms;
use crate::keys::Keys;
use crate::latest::Latest;
use crate::left::Left;
use crate::sums::Counts;
use std::alloc::{AllocError, Global};
use tk_client::{Change, Times};
use tk_stream::{Resource, Table, Tables};

/// What has left so far, how many lines there were, and what has to be known of the last one. A line costs what it changes, and the resources that there are.
#[derive(Drop)]
pub(crate) struct Leavers {
    alloc: Global,
    by: Apart,
    lines: u64,
    keys: Keys,
    left: Left,
    // Those of tasks that have left.
    histograms: Histograms,
    // After the last line. What it changes of resources isn't told.
    resources: Table<Resource>,
    counts: Counts,
    latest: Latest,
}

fn resources_in(tables: &Tables) -> &Table<Resource>
    ensures { result.now ≡ tables.now.resources }
{
    &tables.resources
}

fn counts_in(tables: &Tables) -> &Counts
    ensures { result.now ≡ tables.now.counts }
{
    &tables.counts
}

impl Leavers {
    ghost use Rattle.std.specs.Prelude.{◌≡◌, ◌≤◌, ◌^◌, ◌++◌, ◌∷◌, [], List, OnOk, IfOk, length};
    ghost use Rattle.tk_stream.specs.Tables.{TablesView};
    ghost use Rattle.tk_client.specs.Changes.{IsChange, Timed, untimed};
    ghost use Rattle.tk_reading.specs.Shown.{last_timed, tables_of};
    ghost use Rattle.tk_metrics.specs.Following.{Follows, Notes};
    ghost use Rattle.tk_metrics.specs.Timed.{AddsThere};
    ghost use Rattle.tk_metrics.specs.declared.apart.Apart.{Apart as Told};

    /// Before the first line.
    pub fn new(alloc: Global, by: Apart) -> Leavers
        ensures { Follows by [] [] result }
    {
        Leavers {
            alloc,
            by,
            lines: 0,
            keys: Keys::none(alloc, by),
            left: Left::none(alloc),
            histograms: Histograms::none(alloc),
            resources: Table::new(alloc),
            counts: Table::new(alloc),
            latest: Latest::none(alloc),
        }
    }

    // Takes what a line changed, which led to these tables.
    fn note_left(
        &mut self,
        tables: &Tables,
        times: &Times,
        change: &Change,
    ) -> Result<(), AllocError>
        ensures notes { (by : Told) (shown : List TablesView) (timed : List Timed) → IsChange (last_timed untimed timed) (tables.now, times.now) change.now
            → shown ≡ tables_of timed → Notes by shown timed self.old
            → OnOk result (Notes by (shown ++ tables.now ∷ []) (timed ++ (tables.now, times.now) ∷ []) self.new) }
        ensures lines { self.new.lines ≡ self.old.lines }
    {
        self.keys.note(self.alloc, tables, change)?;
        self.left.take_tasks(self.alloc, &self.keys, change.left())?;
        self.left
            .take_resources(self.alloc, &self.resources, &self.counts, tables)?;
        self.histograms
            .take_left(self.alloc, &self.keys, change.left())?;
        self.resources = resources_in(tables).copy()?;
        self.counts = counts_in(tables).copy()?;
        self.latest.note(times, change)?;
        Ok(())
    }

    /// Takes what a line changed, which led to these tables, with these histograms beside them.
    pub fn note(
        &mut self,
        tables: &Tables,
        times: &Times,
        change: &Change,
    ) -> Result<(), AllocError>
        ensures { (by : Told) (shown : List TablesView) (timed : List Timed) → length shown ≤ 2 ^ 62
            → IsChange (last_timed untimed timed) (tables.now, times.now) change.now → shown ≡ tables_of timed
            → Follows by shown timed self.old
            → OnOk result (Follows by (shown ++ tables.now ∷ []) (timed ++ (tables.now, times.now) ∷ []) self.new) }
    {
        self.note_left(tables, times, change)?;
        self.lines = self.lines.saturating_add(1);
        Ok(())
    }

    /// How many lines there were.
    pub fn lines(&self) -> u64
        ensures { result ≡ self.now.lines }
    {
        self.lines
    }

    /// What tasks are told apart by, and which labels stand by themselves.
    pub fn keys(&self) -> &Keys
        ensures { result.now ≡ self.now.keys }
    {
        &self.keys
    }

    /// What has left.
    pub fn left(&self) -> Result<Left, AllocError>
        ensures { IfOk result (λ left. left ≡ self.now.left) }
    {
        self.left.copy()
    }

    /// The histograms of tasks that have left, and of those that are in these tables, to which the last line has led.
    pub fn histograms(&self, tables: &Tables) -> Result<Histograms, AllocError>
        ensures { IfOk result (AddsThere self.now.keys (tables.now, self.now.latest.times) self.now.histograms) }
    {
        let mut all = self.histograms.copy()?;
        all.add_there(self.alloc, &self.keys, tables, self.latest.times())?;
        Ok(all)
    }
}
