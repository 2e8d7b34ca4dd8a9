//! A recorder, which offers events to the buffer.
ghost use Rattle.std.specs.Prelude.{◌≡◌, ◌↔◌, Err, ◌+◌, ◌-◌, ◌^◌, ◌<◌, ◌≤◌, Some, None, All, length, OnOk, IfOk, IfErr, IsErr};
ghost use Rattle.std.specs.Arc.{arc_value};
ghost use Rattle.crossbeam_queue.specs.Fifo.{Held};
ghost use Rattle.crossbeam_queue.specs.Passes.{view, IsSamePass, IsPassOf, ruled_capacity};
ghost use Rattle.tk_events.specs.declared.buffer.view.Role.TheVariants.{Takes, Records};
ghost use Rattle.tk_events.specs.declared.error.RecordError.TheVariants.{OffersSpent, Memory};
ghost use Rattle.tk_core.specs.declared.task.call.TaskCall.TheVariants.{Enlist as EnlistTask};
ghost use Rattle.tk_core.specs.declared.resource.call.ResourceCall.TheVariants.{Enlist as EnlistResource};
ghost use Rattle.tk_core.specs.declared.op.call.OpCall.TheVariants.{Enlist as EnlistOp};
ghost use Rattle.tk_core.specs.Task.{opening_row as task_row};
ghost use Rattle.tk_core.specs.Resource.{opening_row as resource_row};
ghost use Rattle.tk_core.specs.Op.{opening_row as op_row};
ghost use Rattle.tk_events.specs.declared.event.Shown.TheVariants.{MadeTask, MadeResource, MadeOp, Polled};
ghost use Rattle.tk_events.specs.Items.{first_values, task_info, resource_info, op_info, owner_view, HasNewTimes, HasTimesAs, opening_as, Agrees};
ghost use Rattle.tk_events.specs.declared.recorder.Recorded.TheVariants.{Kept, DroppedFull};
ghost use Rattle.tk_events.specs.Offers.{shown, offer_of, kind_of, times_ledger};
ghost use Rattle.tk_events.specs.Counts.{makes as makes_seat};
ghost use Rattle.tk_events.specs.Buffer.{keeps, notes, makes, IsContentFor};
ghost use Rattle.tk_events.specs.Handles.{IsSameRecorder, offers_made, next_offer, next_task_id, next_resource_id, next_op_id, with_kept, with_refused, new_recording, HeldFor, HasOwnIds, place};
ghost use Rattle.tk_events.specs.Parts.{IsAdding, IsReading, given_with, HasNextId};

use crate::buffer::view::View;
use crate::buffer::{Buffer, next_recorder, offer};
use crate::counting::Counting;
use crate::counts::view::View as Count;
use crate::counts::{Counts, add, make};
use crate::error::RecordError;
use crate::event::{Event, PollOp};
use crate::item::Item;
use crate::new_item::{
    new_counting_task, new_op, new_resource, new_task, new_timed_task, next_op, next_resource,
    next_task, same_ids,
};
use crate::retired::RetiredRecorder;
use atomic_table::Seat;
use crossbeam_queue::Pass;
use std::alloc::{AllocError, Global};
use std::marker::Model;
use std::sync::{Arc, Wait};
use tk_core::TaskRow;
use tk_ids::{IdBlock, OpSpec, ResourceSpec, TaskSpec};
use tk_ledgers::{OpOwner, ResourceOwner, TaskOwner};

/// What became of an offer.
#[derive(Clone, Copy, Debug, PartialEq, Eq)]
pub enum Recorded {
    Kept,
    /// The buffer was full, so the event was let go and is counted as dropped.
    DroppedFull,
}

/// Who makes offers, numbered from 1. Contracts see its console, its number and its offers.
#[derive(Drop)]
pub struct Recorder {
    buffer: Arc<Buffer>,
    counts: Arc<Counts>,
    pub(crate) pass: Pass<Item, View>,
    pub(crate) seat: Seat<u8, Count>,
    ids: IdBlock,
    made: u64,
    limit: u64,
}

impl Model for Recorder {
    ghost use Rattle.std.specs.Arc.{arc_value};
    ghost use Rattle.tk_events.specs.Handles.{Recording};
    ghost use Rattle.tk_events.specs.Parts.{recording, IsRecording};

    ghost Value = { Recording };

    ghost view = { λ r. recording (arc_value r.buffer) (arc_value r.counts).shared.table_id r.pass r.limit };

    ghost invariant = { λ r. IsRecording (arc_value r.buffer) (arc_value r.counts).shared.table_id r.pass r.seat r.ids r.made r.limit };
}

// The kind under which a dropped event is counted.
fn kind_of(event: &Event) -> u64
    ensures { (result ≡ kind_of (shown event.now)) × (result < 3) }
{
    match event {
        Event::Task(..) => 0,
        Event::Resource(..) | Event::Poll(..) => 1,
        Event::Op(..) => 2,
    }
}

// Offers an item, and where it is refused notes it and counts it.
fn offer_counted<R: Wait>(
    rt: &R,
    buffer: &Buffer,
    counts: &Counts,
    pass: &mut Pass<Item, View>,
    seat: &mut Seat<u8, Count>,
    item: Item,
) -> Recorded
    requires own { IsPassOf buffer.now pass.old }
    requires role { (view pass.old).role ≡ Records }
    requires number { (item.recorder ≡ (view pass.old).number) × (0 < item.recorder) × (item.recorder ≤ (view pass.old).recorders) }
    requires above { All (λ o. o.number < item.number) (view pass.old).kept }
    requires adding { IsAdding counts.now.shared.table_id seat.old (view pass.old) }
    requires small { length (view pass.old).refused < 2 ^ 40 - 1 }
    ensures own { IsSamePass pass.old pass.new }
    ensures kept { result ≡ Kept → view pass.new ≡ keeps (view pass.old) (offer_of item) }
    ensures refused { result ≡ DroppedFull → view pass.new ≡ notes (Some (offer_of item)) (view pass.old) }
    ensures full { result ≡ DroppedFull → Held (ruled_capacity buffer.now) (IsContentFor (view pass.old)) }
    ensures adding { IsAdding counts.now.shared.table_id seat.new (view pass.new) }
{
    let number = item.recorder();
    let kind = kind_of(item.event());
    match offer(rt, buffer, pass, item) {
        Recorded::Kept => Recorded::Kept,
        Recorded::DroppedFull => {
            add(counts, seat, number, kind);
            Recorded::DroppedFull
        }
    }
}

impl Recorder {
    // The next recorder of the buffer, split off the taker's pass and seat.
    pub(crate) fn make(
        buffer: &Arc<Buffer>,
        counts: &Arc<Counts>,
        pass: &mut Pass<Item, View>,
        seat: &mut Seat<u8, Count>,
        number: u64,
        limit: u64,
    ) -> Result<Recorder, AllocError>
        requires own { IsPassOf (arc_value buffer.now) pass.old }
        requires role { (view pass.old).role ≡ Takes }
        requires room { (view pass.old).made < (view pass.old).recorders }
        requires number { number ≡ (view pass.old).made + 1 }
        requires reading { IsReading (arc_value counts.now).shared.table_id (arc_value counts.now).shared.key seat.old (view pass.old) }
        requires both { (seat.old.me.0.made ≡ (view pass.old).made) × (seat.old.me.0.adders ≡ (view pass.old).recorders) }
        requires few { (view pass.old).recorders ≤ 64 }
        requires limit { limit ≤ 2 ^ 40 - 1 }
        ensures own { IsSamePass pass.old pass.new }
        ensures seat { OnOk result ((seat.new.table_id ≡ seat.old.table_id) × (seat.new.me ≡ (makes_seat seat.old.me.0, seat.old.me.1))) }
        ensures made { OnOk result (view pass.new ≡ makes (view pass.old)) }
        ensures new { IfOk result (λ r. r ≡ new_recording (place (arc_value buffer.now).table.shared.table_id (arc_value counts.now).shared.table_id) (ruled_capacity (arc_value buffer.now)) (view pass.old).recorders limit number) }
    {
        let share = Arc::try_clone(buffer)?;
        let words = Arc::try_clone(counts)?;
        let theirs = next_recorder(buffer, pass);
        let adder = make(counts, seat);
        let Ok(ids) = IdBlock::new(number) else {
            unreachable!()
        };
        Ok(Recorder {
            buffer: share,
            counts: words,
            pass: theirs,
            seat: adder,
            ids,
            made: 0,
            limit,
        })
    }

    /// Its number, from 1.
    pub fn number(&self) -> u64
        ensures { result ≡ self.now.number }
    {
        self.ids.recorder()
    }

    /// Makes a task, and offers it. Its owner works also where the event was dropped.
    ///
    /// `OffersSpent` where the recorder has made all its offers, then `Memory`. No id is drawn then, no offer is made,
    /// and the spec comes back.
    pub fn task<R: Wait>(
        &mut self,
        rt: &R,
        alloc: Global,
        spec: TaskSpec,
        created: u64,
    ) -> Result<(TaskOwner, Recorded), (RecordError, TaskSpec)>
        ensures id { IfOk result (λ made. made.0.id ≡ next_task_id self.old) }
        ensures owner { IfOk result (λ made. made.0.token.view ≡ owner_view EnlistTask (task_row created)) }
        ensures times { IfOk result (λ made. made.0.times ≡ None) }
        ensures kept { IfOk result (λ made. made.1 ≡ Kept → self.new ≡ with_kept self.old (next_offer self.old (MadeTask (task_info (next_task_id self.old) spec) made.0.token.ledger 1 None))) }
        ensures refused { IfOk result (λ made. made.1 ≡ DroppedFull → self.new ≡ with_refused self.old (next_offer self.old (MadeTask (task_info (next_task_id self.old) spec) made.0.token.ledger 1 None))) }
        ensures full { IfOk result (λ made. made.1 ≡ DroppedFull → Held self.old.capacity (HeldFor self.old)) }
        ensures alone { IfOk result (λ made. made.1 ≡ DroppedFull → self.old.recorders ≡ 1 → self.old.capacity + self.old.gone ≤ length self.old.kept) }
        ensures same { IsSameRecorder self.old self.new }
        ensures spent { (result ≡ Err (OffersSpent, spec)) ↔ (offers_made self.old ≡ self.old.limit) }
        ensures err { IfErr result (λ back. (back.1 ≡ spec) × (self.new ≡ self.old)) }
    {
        if self.made >= self.limit {
            return Err((RecordError::OffersSpent, spec));
        }
        let (ids, id) = next_task(&self.ids);
        match new_task(rt, alloc, id, spec, TaskRow::opening(created)) {
            Ok((owner, event)) => Ok((owner, self.record(rt, event, ids))),
            Err(spec) => Err((RecordError::Memory, spec)),
        }
    }

    /// Makes a task with a histogram of how long its polls run, in nanoseconds, and offers it. The inspector of its event reads both the task
    /// and the histogram. Its owner works also where the event was dropped.
    ///
    /// `OffersSpent` where the recorder has made all its offers, then `Memory`. No id is drawn then, no offer is made,
    /// and the spec comes back.
    pub fn task_with_times<R: Wait>(
        &mut self,
        rt: &R,
        alloc: Global,
        spec: TaskSpec,
        created: u64,
    ) -> Result<(TaskOwner, Recorded), (RecordError, TaskSpec)>
        ensures id { IfOk result (λ made. made.0.id ≡ next_task_id self.old) }
        ensures owner { IfOk result (λ made. made.0.token.view ≡ owner_view EnlistTask (task_row created)) }
        ensures times { IfOk result (λ made. HasNewTimes made.0.times) }
        ensures kept { IfOk result (λ made. made.1 ≡ Kept → self.new ≡ with_kept self.old (next_offer self.old (MadeTask (task_info (next_task_id self.old) spec) made.0.token.ledger 1 (times_ledger made.0.times)))) }
        ensures refused { IfOk result (λ made. made.1 ≡ DroppedFull → self.new ≡ with_refused self.old (next_offer self.old (MadeTask (task_info (next_task_id self.old) spec) made.0.token.ledger 1 (times_ledger made.0.times)))) }
        ensures full { IfOk result (λ made. made.1 ≡ DroppedFull → Held self.old.capacity (HeldFor self.old)) }
        ensures alone { IfOk result (λ made. made.1 ≡ DroppedFull → self.old.recorders ≡ 1 → self.old.capacity + self.old.gone ≤ length self.old.kept) }
        ensures same { IsSameRecorder self.old self.new }
        ensures spent { (result ≡ Err (OffersSpent, spec)) ↔ (offers_made self.old ≡ self.old.limit) }
        ensures err { IfErr result (λ back. (back.1 ≡ spec) × (self.new ≡ self.old)) }
    {
        if self.made >= self.limit {
            return Err((RecordError::OffersSpent, spec));
        }
        let (ids, id) = next_task(&self.ids);
        match new_timed_task(rt, alloc, id, spec, TaskRow::opening(created)) {
            Ok((owner, event)) => Ok((owner, self.record(rt, event, ids))),
            Err(spec) => Err((RecordError::Memory, spec)),
        }
    }

    /// Makes a task of which this is counted, and offers it: as [`Recorder::task`] does, or [`Recorder::task_with_times`], and where
    /// `counting.waits` is, its row begins as [`TaskRow::counting`].
    ///
    /// `OffersSpent` where the recorder has made all its offers, then `Memory`. No id is drawn then, no offer is made,
    /// and the spec comes back.
    pub fn task_counting<R: Wait>(
        &mut self,
        rt: &R,
        alloc: Global,
        spec: TaskSpec,
        created: u64,
        counting: Counting,
    ) -> Result<(TaskOwner, Recorded), (RecordError, TaskSpec)>
        ensures id { IfOk result (λ made. made.0.id ≡ next_task_id self.old) }
        ensures owner { IfOk result (λ made. made.0.token.view ≡ owner_view EnlistTask (opening_as counting.waits created)) }
        ensures times { IfOk result (λ made. HasTimesAs counting.times made.0.times) }
        ensures kept { IfOk result (λ made. made.1 ≡ Kept → self.new ≡ with_kept self.old (next_offer self.old (MadeTask (task_info (next_task_id self.old) spec) made.0.token.ledger 1 (times_ledger made.0.times)))) }
        ensures refused { IfOk result (λ made. made.1 ≡ DroppedFull → self.new ≡ with_refused self.old (next_offer self.old (MadeTask (task_info (next_task_id self.old) spec) made.0.token.ledger 1 (times_ledger made.0.times)))) }
        ensures full { IfOk result (λ made. made.1 ≡ DroppedFull → Held self.old.capacity (HeldFor self.old)) }
        ensures alone { IfOk result (λ made. made.1 ≡ DroppedFull → self.old.recorders ≡ 1 → self.old.capacity + self.old.gone ≤ length self.old.kept) }
        ensures same { IsSameRecorder self.old self.new }
        ensures spent { (result ≡ Err (OffersSpent, spec)) ↔ (offers_made self.old ≡ self.old.limit) }
        ensures err { IfErr result (λ back. (back.1 ≡ spec) × (self.new ≡ self.old)) }
    {
        if self.made >= self.limit {
            return Err((RecordError::OffersSpent, spec));
        }
        let (ids, id) = next_task(&self.ids);
        match new_counting_task(rt, alloc, id, spec, created, counting) {
            Ok((owner, event)) => Ok((owner, self.record(rt, event, ids))),
            Err(spec) => Err((RecordError::Memory, spec)),
        }
    }

    /// Makes a resource, and offers it. Its owner works also where the event was dropped.
    ///
    /// `OffersSpent` where the recorder has made all its offers, then `Memory`. No id is drawn then, no offer is made,
    /// and the spec comes back.
    pub fn resource<R: Wait>(
        &mut self,
        rt: &R,
        alloc: Global,
        spec: ResourceSpec,
        created: u64,
    ) -> Result<(ResourceOwner, Recorded), (RecordError, ResourceSpec)>
        ensures id { IfOk result (λ made. made.0.id ≡ next_resource_id self.old) }
        ensures owner { IfOk result (λ made. made.0.token.view ≡ owner_view EnlistResource (resource_row created (first_values spec.attrs))) }
        ensures kept { IfOk result (λ made. made.1 ≡ Kept → self.new ≡ with_kept self.old (next_offer self.old (MadeResource (resource_info (next_resource_id self.old) spec) made.0.token.ledger 1))) }
        ensures refused { IfOk result (λ made. made.1 ≡ DroppedFull → self.new ≡ with_refused self.old (next_offer self.old (MadeResource (resource_info (next_resource_id self.old) spec) made.0.token.ledger 1))) }
        ensures full { IfOk result (λ made. made.1 ≡ DroppedFull → Held self.old.capacity (HeldFor self.old)) }
        ensures alone { IfOk result (λ made. made.1 ≡ DroppedFull → self.old.recorders ≡ 1 → self.old.capacity + self.old.gone ≤ length self.old.kept) }
        ensures same { IsSameRecorder self.old self.new }
        ensures spent { (result ≡ Err (OffersSpent, spec)) ↔ (offers_made self.old ≡ self.old.limit) }
        ensures err { IfErr result (λ back. (back.1 ≡ spec) × (self.new ≡ self.old)) }
    {
        if self.made >= self.limit {
            return Err((RecordError::OffersSpent, spec));
        }
        let (ids, id) = next_resource(&self.ids);
        match new_resource(rt, alloc, id, spec, created) {
            Ok((owner, event)) => Ok((owner, self.record(rt, event, ids))),
            Err(spec) => Err((RecordError::Memory, spec)),
        }
    }

    /// Makes an async operation, and offers it. Its owner works also where the event was dropped.
    ///
    /// `OffersSpent` where the recorder has made all its offers, then `Memory`. No id is drawn then, no offer is made,
    /// and the spec comes back.
    pub fn async_op<R: Wait>(
        &mut self,
        rt: &R,
        alloc: Global,
        spec: OpSpec,
        created: u64,
    ) -> Result<(OpOwner, Recorded), (RecordError, OpSpec)>
        ensures id { IfOk result (λ made. made.0.id ≡ next_op_id self.old) }
        ensures owner { IfOk result (λ made. made.0.token.view ≡ owner_view EnlistOp (op_row created (first_values spec.attrs))) }
        ensures kept { IfOk result (λ made. made.1 ≡ Kept → self.new ≡ with_kept self.old (next_offer self.old (MadeOp (op_info (next_op_id self.old) spec) made.0.token.ledger 1))) }
        ensures refused { IfOk result (λ made. made.1 ≡ DroppedFull → self.new ≡ with_refused self.old (next_offer self.old (MadeOp (op_info (next_op_id self.old) spec) made.0.token.ledger 1))) }
        ensures full { IfOk result (λ made. made.1 ≡ DroppedFull → Held self.old.capacity (HeldFor self.old)) }
        ensures alone { IfOk result (λ made. made.1 ≡ DroppedFull → self.old.recorders ≡ 1 → self.old.capacity + self.old.gone ≤ length self.old.kept) }
        ensures same { IsSameRecorder self.old self.new }
        ensures spent { (result ≡ Err (OffersSpent, spec)) ↔ (offers_made self.old ≡ self.old.limit) }
        ensures err { IfErr result (λ back. (back.1 ≡ spec) × (self.new ≡ self.old)) }
    {
        if self.made >= self.limit {
            return Err((RecordError::OffersSpent, spec));
        }
        let (ids, id) = next_op(&self.ids);
        match new_op(rt, alloc, id, spec, created) {
            Ok((owner, event)) => Ok((owner, self.record(rt, event, ids))),
            Err(spec) => Err((RecordError::Memory, spec)),
        }
    }

    /// Offers a poll of an operation. It takes no memory.
    ///
    /// `OffersSpent` where the recorder has made all its offers. The poll then comes back.
    pub fn poll_op<R: Wait>(
        &mut self,
        rt: &R,
        op: PollOp,
    ) -> Result<Recorded, (RecordError, PollOp)>
        ensures kept { result ≡ Ok Kept → self.new ≡ with_kept self.old (next_offer self.old (Polled op)) }
        ensures refused { result ≡ Ok DroppedFull → self.new ≡ with_refused self.old (next_offer self.old (Polled op)) }
        ensures full { result ≡ Ok DroppedFull → Held self.old.capacity (HeldFor self.old) }
        ensures alone { result ≡ Ok DroppedFull → self.old.recorders ≡ 1 → self.old.capacity + self.old.gone ≤ length self.old.kept }
        ensures same { IsSameRecorder self.old self.new }
        ensures spent { IsErr result ↔ (offers_made self.old ≡ self.old.limit) }
        ensures err { IfErr result (λ e. (e.0 ≡ OffersSpent) × (e.1 ≡ op) × (self.new ≡ self.old)) }
    {
        if self.made >= self.limit {
            return Err((RecordError::OffersSpent, op));
        }
        let ids = same_ids(&self.ids);
        Ok(self.record(rt, Event::Poll(op), ids))
    }

    // Makes the next offer, of this event. These are the ids that are given out then.
    fn record<R: Wait>(&mut self, rt: &R, event: Event, ids: IdBlock) -> Recorded
        requires ids { ids ≡ given_with self.old (shown event) }
        requires next { HasNextId self.old (shown event) }
        requires agrees { Agrees event }
        requires room { offers_made self.old < self.old.limit }
        ensures same { IsSameRecorder self.old self.new }
        ensures kept { result ≡ Kept → self.new ≡ with_kept self.old (next_offer self.old (shown event)) }
        ensures refused { result ≡ DroppedFull → self.new ≡ with_refused self.old (next_offer self.old (shown event)) }
        ensures full { result ≡ DroppedFull → Held self.old.capacity (HeldFor self.old) }
        ensures alone { result ≡ DroppedFull → self.old.recorders ≡ 1 → self.old.capacity + self.old.gone ≤ length self.old.kept }
    {
        let number = self.made + 1;
        let item = Item::new(self.ids.recorder(), number, event);
        let recorded = offer_counted(
            rt,
            &self.buffer,
            &self.counts,
            &mut self.pass,
            &mut self.seat,
            item,
        );
        self.made = number;
        self.ids = ids;
        recorded
    }

    /// Makes no more offers. What it had offered goes to the taker's `finish`.
    /// Each new item among its offers has the id of its place among those of its kind, kept or dropped.
    pub fn retire(self) -> RetiredRecorder
        ensures console { result.console ≡ self.console }
        ensures number { result.offers.number ≡ self.number }
        ensures offers { (result.offers.kept ≡ self.kept) × (result.offers.refused ≡ self.refused) }
        ensures own_ids { HasOwnIds result.offers }
    {
        RetiredRecorder::of(self.pass, self.seat)
    }
}
