//! The counts of dropped events: one word for each recorder and kind, which the recorder adds to and the taker reads.
//!
//! Recorder p, from 1, has the words 3 * (p - 1) + k, where k is the kind. Its seat knows what it counted, the taker's
//! seat what it read last; a word never falls (`specs/Counts.antt`).
ghost use Rattle.std.specs.Prelude.{◌≡◌, ◌≢◌, ℕ, ◌+◌, ◌*◌, ◌-◌, ◌<◌, ◌≤◌, ◌∷◌, [], length, slice_index, IfOk};
ghost use mathlib.Core.Option.{none};
ghost use Rattle.atomic_table.specs.Table.{step};
ghost use Rattle.tk_events.specs.declared.counts.view.Role.TheVariants.{Reads as ReadsRole, Adds as AddsRole};
ghost use Rattle.tk_events.specs.Counts.{first, adds, makes, newborn, takes_in, gives_back, given_back, lent, tally, most, Reads, total_of, counted_of, dropped_at, dropped_known, AreNoLess, IsWhole};

pub mod plays;
pub mod view;

use atomic_table::{Seat, Table};
use plays::{Add, GiveBack, Lend, Make, Read, TakeIn};
use std::alloc::{AllocError, Global};
use tk_ids::Dropped;
use view::{Rule, View};

/// One word for each adder and each of three kinds.
pub type Counts = Table<u8, View, u64, Rule, Global>;

/// A table for so many adders, and the reader's seat.
pub(crate) fn open(alloc: Global, adders: u64) -> Result<(Counts, Seat<u8, View>), AllocError>
    requires { (1 ≤ adders) × (adders ≤ 64) }
    ensures own { IfOk result (λ t. t.1.table_id ≡ t.0.shared.table_id) }
    ensures size { IfOk result (λ t. (t.0.shared.table_id.words ≡ 3 * adders) × (t.0.shared.key ≡ adders)) }
    ensures first { IfOk result (λ t. t.1.me ≡ (first adders, [])) }
{
    let words = Vec::from_elem(alloc, 0u64, 3 * adders as usize)?;
    Table::of_words(alloc, words.as_slice(), &adders)
}

/// The next adder's seat, split off the reader's.
pub(crate) fn make(counts: &Counts, seat: &mut Seat<u8, View>) -> Seat<u8, View>
    requires own { (seat.old.table_id ≡ counts.now.shared.table_id) × (0 < counts.now.shared.table_id.words) }
    requires role { seat.old.me.0.role ≡ ReadsRole }
    requires room { seat.old.me.0.made < seat.old.me.0.adders }
    ensures own { (seat.new.table_id ≡ seat.old.table_id) × (result.table_id ≡ seat.old.table_id) }
    ensures made { seat.new.me ≡ (makes seat.old.me.0, seat.old.me.1) }
    ensures new { result.me ≡ (newborn seat.old.me.0, []) }
{
    counts.shared.split_seat::<Make>(seat)
}

/// Adds 1 to the adder's count of this kind.
pub(crate) fn add(counts: &Counts, seat: &mut Seat<u8, View>, number: u64, kind: u64)
    requires own { (seat.old.table_id ≡ counts.now.shared.table_id) × (counts.now.shared.table_id.words ≡ 3 * seat.old.me.0.adders) }
    requires role { seat.old.me.0.role ≡ AddsRole }
    requires number { (number ≡ seat.old.me.0.number) × (0 < number) × (number ≤ seat.old.me.0.adders) × (seat.old.me.0.adders ≤ 64) }
    requires kind { kind < 3 }
    requires room { slice_index seat.old.me.0.counts kind < most }
    ensures own { seat.new.table_id ≡ seat.old.table_id }
    ensures added { seat.new.me ≡ (adds kind seat.old.me.0, seat.old.me.1) }
{
    let word = (3 * (number - 1) + kind) as usize;
    counts.shared.fetch_add::<Add>(seat, word, 1);
}

/// Takes in what an adder counted.
pub(crate) fn take_in(counts: &Counts, seat: &mut Seat<u8, View>, other: Seat<u8, View>)
    requires own { (seat.old.table_id ≡ counts.now.shared.table_id) × (0 < counts.now.shared.table_id.words) }
    requires other { (other.table_id ≡ counts.now.shared.table_id) × (other.me.1 ≡ []) }
    requires role { (seat.old.me.0.role ≡ ReadsRole) × (other.me.0.role ≡ AddsRole) }
    ensures own { seat.new.table_id ≡ seat.old.table_id }
    ensures known { seat.new.me ≡ (takes_in seat.old.me.0 other.me.0, seat.old.me.1) }
{
    counts.shared.join_seat::<TakeIn>(seat, other);
}

// The whole seat of an adder.
fn lend(counts: &Counts, seat: &mut Seat<u8, View>) -> Seat<u8, View>
    requires { (seat.old.table_id ≡ counts.now.shared.table_id) × (0 < counts.now.shared.table_id.words) }
    ensures own { result.table_id ≡ seat.old.table_id }
    ensures whole { result.me ≡ (seat.old.me.0, []) }
{
    counts.shared.split_seat::<Lend>(seat)
}

// The seat of the one adder that the reader took in, as it was.
fn give_back(counts: &Counts, seat: &mut Seat<u8, View>) -> Seat<u8, View>
    requires own { (seat.old.table_id ≡ counts.now.shared.table_id) × (0 < counts.now.shared.table_id.words) }
    requires role { seat.old.me.0.role ≡ ReadsRole }
    ensures own { (seat.new.table_id ≡ seat.old.table_id) × (result.table_id ≡ seat.old.table_id) }
    ensures rest { seat.new.me ≡ (gives_back seat.old.me.0, seat.old.me.1) }
    ensures back { result.me ≡ (given_back seat.old.me.0, []) }
{
    counts.shared.split_seat::<GiveBack>(seat)
}

fn read(counts: &Counts, seat: &mut Seat<u8, View>, word: usize) -> u64
    requires own { (seat.old.table_id ≡ counts.now.shared.table_id) × (counts.now.shared.table_id.words ≡ 3 * counts.now.shared.key) }
    requires role { seat.old.me.0.role ≡ ReadsRole }
    requires inside { word < 3 * counts.now.shared.key }
    ensures own { seat.new.table_id ≡ seat.old.table_id }
    ensures reads { Reads (step counts.now.shared.table_id.slots word 0 0 none) seat.old.me result seat.new.me }
{
    counts.shared.load::<Read>(seat, word)
}

/// The count of a kind, of all adders together.
pub(crate) fn total(counts: &Counts, seat: &mut Seat<u8, View>, adders: u64, kind: u64) -> u64
    requires own { (seat.old.table_id ≡ counts.now.shared.table_id) × (counts.now.shared.table_id.words ≡ 3 * adders) × (counts.now.shared.key ≡ adders) }
    requires role { seat.old.me.0.role ≡ ReadsRole }
    requires size { (adders ≤ 64) × (length seat.old.me.0.seen ≡ 3 * adders) }
    requires kind { kind < 3 }
    ensures own { seat.new.table_id ≡ seat.old.table_id }
    ensures rest { seat.new.me ≡ (record seat.old.me.0 { seen = seat.new.me.0.seen }, seat.old.me.1) }
    ensures size { length seat.new.me.0.seen ≡ 3 * adders }
    ensures total { result ≡ total_of kind adders seat.new.me.0.seen }
    ensures rises { total_of kind adders seat.old.me.0.seen ≤ result }
    ensures others { (j : ℕ) → j < 3 → j ≢ kind → total_of j adders seat.new.me.0.seen ≡ total_of j adders seat.old.me.0.seen }
    ensures exact { IsWhole adders seat.old.me.0.known → result ≡ counted_of kind seat.old.me.0.known }
{
    let mut sum = 0;
    for p in 0..adders {
        sum += read(counts, seat, (3 * p + kind) as usize);
    }
    sum
}

/// The totals of all adders, by kind.
pub(crate) fn totals(counts: &Counts, seat: &mut Seat<u8, View>, adders: u64) -> Dropped
    requires own { (seat.old.table_id ≡ counts.now.shared.table_id) × (counts.now.shared.table_id.words ≡ 3 * adders) × (counts.now.shared.key ≡ adders) }
    requires role { seat.old.me.0.role ≡ ReadsRole }
    requires size { (adders ≤ 64) × (length seat.old.me.0.seen ≡ 3 * adders) }
    ensures own { seat.new.table_id ≡ seat.old.table_id }
    ensures rest { seat.new.me ≡ (record seat.old.me.0 { seen = seat.new.me.0.seen }, seat.old.me.1) }
    ensures size { length seat.new.me.0.seen ≡ 3 * adders }
    ensures totals { result ≡ dropped_at adders seat.new.me.0.seen }
    ensures rises { AreNoLess (dropped_at adders seat.old.me.0.seen) result }
    ensures exact { IsWhole adders seat.old.me.0.known → result ≡ dropped_known seat.old.me.0.known }
{
    let tasks = total(counts, seat, adders, 0);
    let resources = total(counts, seat, adders, 1);
    let ops = total(counts, seat, adders, 2);
    Dropped {
        tasks,
        resources,
        ops,
    }
}

/// The totals of all adders, beside one that lends its seat for the time of the call. Where it is the only one, they are its counts.
pub(crate) fn totals_lent(
    counts: &Counts,
    seat: &mut Seat<u8, View>,
    lender: &mut Seat<u8, View>,
    adders: u64,
) -> Dropped
    requires own { (seat.old.table_id ≡ counts.now.shared.table_id) × (counts.now.shared.table_id.words ≡ 3 * adders) × (counts.now.shared.key ≡ adders) }
    requires some { 1 ≤ adders }
    requires role { seat.old.me.0.role ≡ ReadsRole }
    requires size { (adders ≤ 64) × (length seat.old.me.0.seen ≡ 3 * adders) }
    requires knows_none { seat.old.me.0.known ≡ [] }
    requires lender { (lender.old.table_id ≡ counts.now.shared.table_id) × (lender.old.me.0.role ≡ AddsRole) }
    requires number { (0 < lender.old.me.0.number) × (lender.old.me.0.number ≤ adders) }
    ensures own { seat.new.table_id ≡ seat.old.table_id }
    ensures rest { seat.new.me ≡ (record seat.old.me.0 { seen = seat.new.me.0.seen }, seat.old.me.1) }
    ensures size { length seat.new.me.0.seen ≡ 3 * adders }
    ensures totals { result ≡ dropped_at adders seat.new.me.0.seen }
    ensures rises { AreNoLess (dropped_at adders seat.old.me.0.seen) result }
    ensures own_back { lender.new.table_id ≡ lender.old.table_id }
    ensures back { lender.new.me ≡ (lent seat.old.me.0.adders (tally lender.old.me.0 ∷ []), []) }
    ensures alone { adders ≡ 1 → result ≡ dropped_known (tally lender.old.me.0 ∷ []) }
{
    let theirs = lend(counts, lender);
    take_in(counts, seat, theirs);
    let dropped = totals(counts, seat, adders);
    *lender = give_back(counts, seat);
    dropped
}
