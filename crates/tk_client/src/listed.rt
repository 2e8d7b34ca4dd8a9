//! A kind of item that tables list, and that lines tell of.
ghost use Rattle.std.specs.Prelude.{◌≡◌, ◌<◌, ◌++◌, ◌∷◌, [], List, length, Some, OnOk, OnErr, false};
ghost use Rattle.tk_stream.specs.Applied.{Kind};
ghost use Rattle.tk_stream.specs.Tables.{TablesView};
ghost use Rattle.tk_client.specs.Applying as inner;

use crate::fault::Fault;
use std::alloc::{AllocError, Global};
use tk_stream::Tables;

/// Items of tables that a line tells of: tasks, resources and async operations.
pub(crate) trait Listed: Drop {
    /// What stays of an item.
    type Info: Drop;

    /// What changes of it: its id and its row.
    type Stats: Copy;

    ghost kind: { Kind Self Self.Info Self.Stats };

    ghost items: { TablesView → List Self };

    ghost with_items: { TablesView → List Self → TablesView };

    fn info_id(info: &Self::Info) -> u64
        ensures { result ≡ inner.info_id_by kind info.now };

    fn stats_id(stats: &Self::Stats) -> u64
        ensures { result ≡ inner.stats_id_by kind stats.now };

    fn has_info(tables: &Tables, info: &Self::Info) -> bool
        ensures { result ≡ inner.has_info kind (items tables.now) info.now };

    fn has_told(tables: &Tables, stats: &Self::Stats) -> bool
        ensures { result ≡ inner.has_told kind (items tables.now) stats.now };

    fn has_id(tables: &Tables, id: u64) -> bool
        ensures { result ≡ inner.has_item kind (items tables.now) id };

    fn place(tables: &Tables, stats: &Self::Stats) -> Option<usize>
        ensures { result ≡ inner.place_by kind (items tables.now) stats.now };

    fn tell(tables: &mut Tables, i: usize, stats: &Self::Stats)
        requires { i < length (items tables.old) }
        ensures { tables.new ≡ with_items tables.old (inner.retold_at kind (items tables.old) i (Some stats.now)) };

    fn add(tables: &mut Tables, info: Self::Info, stats: &Self::Stats) -> Result<(), AllocError>
        requires { inner.has_info kind (items tables.old) info ≡ false }
        ensures ok { OnOk result (tables.new ≡ with_items tables.old (items tables.old ++ inner.made kind info stats.now ∷ [])) }
        ensures err { OnErr result (tables.new ≡ tables.old) };

    ghost grows: { (t : TablesView) (xs : List Self) → inner.Begins (items t) xs → inner.Grown t (with_items t xs) };

    ghost same_id: { (info : Self.Info) (stats : Self.Stats) → inner.id_by kind (inner.made kind info stats) ≡ inner.info_id_by kind info };

    ghost keeps_id: { (item : Self) (stats : Self.Stats) → inner.id_by kind (inner.retold kind stats item) ≡ inner.id_by kind item };

    ghost reads: { (t : TablesView) (xs : List Self) → items (with_items t xs) ≡ xs };

    ghost keeps: { (t : TablesView) → with_items t (items t) ≡ t };

    ghost writes: { (t : TablesView) (xs ys : List Self) → with_items (with_items t xs) ys ≡ with_items t ys };
}
