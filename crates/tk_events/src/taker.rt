//! The taker, which takes events and at the end what the recorders had offered.
ghost use Rattle.std.specs.Prelude.{◌≡◌, ◌<◌, ◌≤◌, ℕ, List, [], ◌∷◌, ◌++◌, true, false, All, length, Some, OnOk, IfErr, IfSome, IfNone};
ghost use Rattle.std.specs.Arc.{arc_value};
ghost use Rattle.crossbeam_queue.specs.Fifo.{Held};
ghost use Rattle.crossbeam_queue.specs.Passes.{view, IsSamePass, IsPassOf, ruled_capacity};
ghost use Rattle.tk_events.specs.declared.buffer.view.Role.TheVariants.{Takes};
ghost use Rattle.tk_events.specs.declared.error.FinishError.TheVariants.{Missing, Finished};
ghost use Rattle.tk_events.specs.declared.item.Offer.{Offer};
ghost use Rattle.tk_events.specs.Offers.{shown, offers_of, by, Rises};
ghost use Rattle.tk_events.specs.Items.{Agrees};
ghost use Rattle.tk_events.specs.Buffer.{first, limits as limited, IsNamed};
ghost use Rattle.tk_events.specs.Handles.{new_taking, with_taken, offers_of_all, finished_with, IsWhole, HasOwnIds, IsSettled, AreLeft, AllTaken, place, AreExact, dropped_by, met_with};
ghost use Rattle.tk_events.specs.Parts.{making, knowing, IsReading, totals_of};

use crate::buffer::view::View;
use crate::buffer::{Buffer, pop, pop_lent, settle, take_in as take_in_offers};
use crate::counts::view::View as Count;
use crate::counts::{Counts, take_in as take_in_counts, totals, totals_lent};
use crate::error::FinishError;
use crate::event::Event;
use crate::item::Item;
use crate::recorder::Recorder;
use crate::retired::RetiredRecorder;
use atomic_table::Seat;
use crossbeam_queue::Pass;
use std::marker::Model;
use std::sync::{Arc, Wait};
use tk_ids::Dropped;

/// Who takes events. Contracts see its console, what it took, the totals that it answered last and, once it is
/// finished, what the recorders had offered.
#[derive(Drop)]
pub struct Taker {
    buffer: Arc<Buffer>,
    counts: Arc<Counts>,
    pass: Pass<Item, View>,
    seat: Seat<u8, Count>,
    recorders: u64,
    finished: bool,
}

impl Model for Taker {
    ghost use Rattle.std.specs.Arc.{arc_value};
    ghost use Rattle.tk_events.specs.Handles.{Taking};
    ghost use Rattle.tk_events.specs.Parts.{taking, IsTaking};

    ghost Value = { Taking };

    ghost view = { λ t. taking (arc_value t.buffer) (arc_value t.counts).shared.table_id t.pass t.seat t.finished };

    ghost invariant = { λ t. IsTaking (arc_value t.buffer) (arc_value t.counts).shared.table_id (arc_value t.counts).shared.key t.pass t.seat t.recorders t.finished };
}

// Takes in what a recorder had offered.
fn take_in(
    buffer: &Buffer,
    counts: &Counts,
    pass: &mut Pass<Item, View>,
    seat: &mut Seat<u8, Count>,
    retired: RetiredRecorder,
)
    requires own { IsPassOf buffer.now pass.old }
    requires role { (view pass.old).role ≡ Takes }
    requires console { retired.console ≡ place buffer.now.table.shared.table_id counts.now.shared.table_id }
    requires reading { IsReading counts.now.shared.table_id counts.now.shared.key seat.old (view pass.old) }
    ensures own { IsSamePass pass.old pass.new }
    ensures known { view pass.new ≡ knowing (view pass.old) (retired.offers ∷ []) }
    ensures own_ids { HasOwnIds retired.offers }
    ensures reading { IsReading counts.now.shared.table_id counts.now.shared.key seat.new (view pass.new) }
    ensures seen { seat.new.me.0.seen ≡ seat.old.me.0.seen }
{
    let (theirs, adder) = retired.into_parts();
    take_in_offers(buffer, pass, theirs);
    take_in_counts(counts, seat, adder);
}

// Takes in what all these had offered.
fn take_all(
    buffer: &Buffer,
    counts: &Counts,
    pass: &mut Pass<Item, View>,
    seat: &mut Seat<u8, Count>,
    all_retired: Vec<RetiredRecorder>,
)
    requires own { IsPassOf buffer.now pass.old }
    requires role { (view pass.old).role ≡ Takes }
    requires console { All (λ r. r.console ≡ place buffer.now.table.shared.table_id counts.now.shared.table_id) all_retired.items }
    requires reading { IsReading counts.now.shared.table_id counts.now.shared.key seat.old (view pass.old) }
    ensures own { IsSamePass pass.old pass.new }
    ensures known { view pass.new ≡ knowing (view pass.old) (offers_of_all all_retired.items) }
    ensures own_ids { All HasOwnIds (offers_of_all all_retired.items) }
    ensures reading { IsReading counts.now.shared.table_id counts.now.shared.key seat.new (view pass.new) }
    ensures seen { seat.new.me.0.seen ≡ seat.old.me.0.seen }
{
    for retired in all_retired {
        take_in(buffer, counts, pass, seat, retired);
    }
}

impl Taker {
    // The taker of a buffer of which all recorders were made.
    pub(crate) fn of(
        buffer: Arc<Buffer>,
        counts: Arc<Counts>,
        pass: Pass<Item, View>,
        seat: Seat<u8, Count>,
        recorders: u64,
    ) -> Taker
        requires reading { IsReading (arc_value counts).shared.table_id (arc_value counts).shared.key seat (view pass) }
        requires unread { totals_of recorders seat.me.0.seen ≡ record { tasks = 0; resources = 0; ops = 0 } }
        requires own { IsPassOf (arc_value buffer) pass }
        requires view { view pass ≡ making recorders (limited (Some recorders) first) }
        ensures { result ≡ new_taking (place (arc_value buffer).table.shared.table_id (arc_value counts).shared.table_id) (ruled_capacity (arc_value buffer)) recorders }
    {
        Taker {
            buffer,
            counts,
            pass,
            seat,
            recorders,
            finished: false,
        }
    }

    /// The front event, unless the buffer was empty at a moment of the call.
    pub fn take<R: Wait>(&mut self, rt: &R) -> Option<Event>
        ensures some { IfSome result (λ event. (recorder number : ℕ) × (self.new ≡ with_taken self.old (record { recorder = recorder; number = number; event = shown event }))) }
        ensures agrees { IfSome result (λ event. Agrees event) }
        ensures none { IfNone result (self.new ≡ self.old) }
        ensures empty { IfNone result (Held 0 (λ items. AreLeft self.old (offers_of items))) }
        ensures nothing_left { IfNone result (AllTaken self.old) }
        ensures rises { Rises self.new.taken }
        ensures left { (left : List Offer) × AreLeft self.new left }
        ensures settled { self.new.finished ≡ true → IsSettled self.new }
    {
        let item = pop(rt, &self.buffer, &mut self.pass)?;
        Some(item.into_event())
    }

    /// As [`Taker::take`], beside a recorder of the console, which then knows how many of its offers were taken, and otherwise stays as it
    /// is. What was taken of it, and then what is left, is what it has kept; and where the buffer was empty, all of that was taken.
    pub fn take_beside<R: Wait>(&mut self, rt: &R, recorder: &mut Recorder) -> Option<Event>
        requires console { recorder.old.console ≡ self.old.console }
        requires recorders { recorder.old.recorders ≡ self.old.recorders }
        requires unfinished { self.old.finished ≡ false }
        ensures met { recorder.new ≡ met_with self.new.taken recorder.old }
        ensures some { IfSome result (λ event. (recorder number : ℕ) × (self.new ≡ with_taken self.old (record { recorder = recorder; number = number; event = shown event }))) }
        ensures agrees { IfSome result (λ event. Agrees event) }
        ensures none { IfNone result (self.new ≡ self.old) }
        ensures named { All (IsNamed self.new.recorders) self.new.taken }
        ensures front { (left : List Offer) × (by recorder.old.number (self.new.taken ++ left) ≡ recorder.old.kept) }
        ensures all_taken { IfNone result (by recorder.old.number self.old.taken ≡ recorder.old.kept) }
    {
        let item = pop_lent(rt, &self.buffer, &mut self.pass, &mut recorder.pass)?;
        Some(item.into_event())
    }

    /// Takes in what all recorders of the console had offered.
    pub fn finish(
        &mut self,
        retired: Vec<RetiredRecorder>,
    ) -> Result<(), (FinishError, Vec<RetiredRecorder>)>
        requires console { All (λ r. r.console ≡ self.old.console) retired.items }
        ensures ok { OnOk result (self.new ≡ finished_with self.old retired.items) }
        ensures whole { OnOk result (IsWhole self.new.recorders self.new.known) }
        ensures settled { OnOk result (IsSettled self.new) }
        ensures left { OnOk result ((left : List Offer) × AreLeft self.new left) }
        ensures named { OnOk result (All (IsNamed self.new.recorders) self.new.taken) }
        ensures rises { Rises self.new.taken }
        ensures ok_only { OnOk result ((self.old.finished ≡ false) × (self.old.recorders ≤ length retired.items)) }
        ensures finished { IfErr result (λ e. e.0 ≡ Finished → self.old.finished ≡ true) }
        ensures missing { IfErr result (λ e. e.0 ≡ Missing → (self.old.finished ≡ false) × (length retired.items < self.old.recorders)) }
        ensures err { IfErr result (λ e. (e.1.items ≡ retired.items) × (self.new ≡ self.old)) }
    {
        if self.finished {
            return Err((FinishError::Finished, retired));
        }
        if (retired.len() as u64) < self.recorders {
            return Err((FinishError::Missing, retired));
        }
        take_all(
            &self.buffer,
            &self.counts,
            &mut self.pass,
            &mut self.seat,
            retired,
        );
        settle(&self.buffer, &mut self.pass);
        self.finished = true;
        Ok(())
    }

    /// The totals of what was dropped. No total falls, and once the taker is finished they are exact.
    pub fn dropped(&mut self) -> Dropped
        ensures last { self.new ≡ record self.old { last = record { tasks = result.tasks; resources = result.resources; ops = result.ops } } }
        ensures tasks { self.old.last.tasks ≤ result.tasks }
        ensures resources { self.old.last.resources ≤ result.resources }
        ensures ops { self.old.last.ops ≤ result.ops }
        ensures exact { self.old.finished ≡ true → AreExact self.old.known result.tasks result.resources result.ops }
    {
        totals(&self.counts, &mut self.seat, self.recorders)
    }

    /// As [`Taker::dropped`], beside a recorder of the console, which stays as it is. Where it is the console's only one, the totals are exactly
    /// what it dropped.
    pub fn dropped_beside(&mut self, recorder: &mut Recorder) -> Dropped
        requires console { recorder.old.console ≡ self.old.console }
        requires recorders { recorder.old.recorders ≡ self.old.recorders }
        requires unfinished { self.old.finished ≡ false }
        ensures same { recorder.new ≡ recorder.old }
        ensures last { self.new ≡ record self.old { last = record { tasks = result.tasks; resources = result.resources; ops = result.ops } } }
        ensures tasks { self.old.last.tasks ≤ result.tasks }
        ensures resources { self.old.last.resources ≤ result.resources }
        ensures ops { self.old.last.ops ≤ result.ops }
        ensures alone { self.old.recorders ≡ 1 → self.new.last ≡ dropped_by recorder.old }
    {
        totals_lent(
            &self.counts,
            &mut self.seat,
            &mut recorder.seat,
            self.recorders,
        )
    }
}
