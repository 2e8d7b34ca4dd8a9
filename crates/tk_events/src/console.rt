//! How a console is opened.
ghost use Rattle.std.specs.Prelude.{◌≡◌, ◌↔◌, ◌*◌, ◌-◌, ◌^◌, ◌<◌, ◌≤◌, [], Some, Ok, Err, All, IfOk};
ghost use Rattle.std.specs.Arc.{arc_value};
ghost use Rattle.crossbeam_queue.specs.Passes.{view, IsSamePass, IsPassOf, ruled_capacity};
ghost use Rattle.tk_events.specs.declared.error.OpenError.TheVariants.{BadLimit};
ghost use Rattle.tk_events.specs.Counts.{first as first_count};
ghost use Rattle.tk_events.specs.Buffer.{first, limits as limited};
ghost use Rattle.tk_events.specs.Handles.{new_taking, new_recordings, place, AreWithin};
ghost use Rattle.tk_events.specs.Parts.{making, counting};

use crate::buffer::view::View;
use crate::buffer::{Buffer, open as open_buffer};
use crate::counts::view::View as Count;
use crate::counts::{Counts, open as open_counts};
use crate::error::OpenError;
use crate::item::Item;
use crate::limits::Limits;
use crate::recorder::Recorder;
use crate::taker::Taker;
use atomic_table::Seat;
use crossbeam_queue::Pass;
use std::alloc::{AllocError, Global};
use std::marker::Brand;
use std::sync::Arc;

/// What opens the recorders and the taker of an event buffer.
pub struct Console;

// The counts, and the reader's seat.
fn begin_counts(alloc: Global, recorders: u64) -> Result<(Arc<Counts>, Seat<u8, Count>), AllocError>
    requires { (1 ≤ recorders) × (recorders ≤ 64) }
    ensures own { IfOk result (λ b. b.1.table_id ≡ (arc_value b.0).shared.table_id) }
    ensures size { IfOk result (λ b. ((arc_value b.0).shared.table_id.words ≡ 3 * recorders) × ((arc_value b.0).shared.key ≡ recorders)) }
    ensures first { IfOk result (λ b. b.1.me ≡ (first_count recorders, [])) }
{
    let (counts, seat) = open_counts(alloc, recorders)?;
    Ok((Arc::new(alloc, counts)?, seat))
}

// The recorders from 1 on, split off the taker's pass and seat.
fn make_all(
    alloc: Global,
    buffer: &Arc<Buffer>,
    counts: &Arc<Counts>,
    pass: &mut Pass<Item, View>,
    seat: &mut Seat<u8, Count>,
    recorders: u64,
    limit: u64,
) -> Result<Vec<Recorder>, AllocError>
    requires own { IsPassOf (arc_value buffer.now) pass.old }
    requires view { view pass.old ≡ limited (Some recorders) first }
    requires seat { seat.old.me ≡ (first_count recorders, []) }
    requires sizes { (1 ≤ recorders) × (recorders ≤ 64) × (limit ≤ 2 ^ 40 - 1) }
    requires counts { (seat.old.table_id ≡ (arc_value counts.now).shared.table_id) × ((arc_value counts.now).shared.table_id.words ≡ 3 * recorders) × ((arc_value counts.now).shared.key ≡ recorders) }
    ensures own { IsSamePass pass.old pass.new }
    ensures made { IfOk result (λ all. view pass.new ≡ making recorders (limited (Some recorders) first)) }
    ensures seat { IfOk result (λ all. (seat.new.table_id ≡ seat.old.table_id) × (seat.new.me ≡ (counting recorders (first_count recorders), []))) }
    ensures new { IfOk result (λ all. all.items ≡ new_recordings (place (arc_value buffer.now).table.shared.table_id (arc_value counts.now).shared.table_id) (ruled_capacity (arc_value buffer.now)) recorders limit recorders) }
{
    let mut all = Vec::new(alloc);
    for k in 0..recorders {
        let recorder = Recorder::make(buffer, counts, pass, seat, k + 1, limit)?;
        all.push(recorder)?;
    }
    Ok(all)
}

impl Console {
    /// The recorders, numbered from 1 in order, and the taker.
    pub fn open(alloc: Global, limits: Limits) -> Result<(Vec<Recorder>, Taker), OpenError>
        ensures taker { IfOk result (λ made. made.1 ≡ new_taking made.1.console limits.capacity limits.recorders) }
        ensures recorders { IfOk result (λ made. made.0.items ≡ new_recordings made.1.console limits.capacity limits.recorders limits.offers limits.recorders) }
        ensures own { IfOk result (λ made. All (λ r. r.console ≡ made.1.console) made.0.items) }
        ensures within { IfOk result (λ made. AreWithin limits) }
        ensures bad { (result ≡ Err BadLimit) ↔ (AreWithin limits → ⊥) }
    {
        if !limits.are_within() {
            return Err(OpenError::BadLimit);
        }
        let (buffer, mut pass) = open_buffer::<Brand>(
            alloc,
            limits.capacity as usize,
            limits.recorders,
        )?;
        let (counts, mut seat) = begin_counts(alloc, limits.recorders)?;
        let all = make_all(
            alloc,
            &buffer,
            &counts,
            &mut pass,
            &mut seat,
            limits.recorders,
            limits.offers,
        )?;
        let taker = Taker::of(buffer, counts, pass, seat, limits.recorders);
        Ok((all, taker))
    }
}
