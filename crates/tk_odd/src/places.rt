//! The places of a stream's tasks, and who was charged.
ghost use Rattle.std.specs.Prelude.{◌≡◌, ◌≤◌, ◌^◌, OnOk, length, slice_get};
ghost use Rattle.std.specs.Option.{option_map_or};
ghost use Rattle.tk_odd.specs.Diagnosis as spec;
ghost use Rattle.tk_odd.specs.Inner as inner;
ghost use Rattle.tk_odd.specs.Members.{moved_of as moved_in};
ghost use Rattle.tk_odd.specs.Sharing as sharing;
ghost use Rattle.tk_odd.specs.Steps as steps;
ghost use Rattle.tk_stream.specs.Tables as tables;

use crate::free::Free;
use crate::held::Held;
use crate::members::Members;
use crate::moved::Moved;
use crate::sharing::{all_parts, all_ran, charge_of};
use crate::step::{all_polls, stood_still};
use std::alloc::{AllocError, Global};
use tk_series::Series;

/// A step of a stream: who ran or waited in it, from one moment to another.
#[derive(Clone, Copy)]
pub(crate) struct Step<'a> {
    /// How long a poll is that is a long one.
    pub long: u64,
    /// Its begin.
    pub from: u64,
    /// Its end.
    pub to: u64,
    /// Who ran or waited in it.
    pub moved: &'a [Moved],
}

/// What all did in a step.
#[derive(Clone, Copy)]
pub(crate) struct Totals {
    /// How long they ran.
    pub ran: u128,
    /// The parts of it during which they waited.
    pub parts: u128,
    /// How many polls started.
    pub polls: u128,
}

/// What all did in a step.
pub(crate) fn totals_of(moved: &[Moved]) -> Totals
    requires { length moved.now ≤ 2 ^ 31 }
    ensures ran { result.ran ≡ sharing.all_ran moved.now }
    ensures parts { result.parts ≡ sharing.all_parts moved.now }
    ensures most_parts { result.parts ≤ 2 ^ 63 }
    ensures polls { result.polls ≡ steps.all_polls moved.now }
    ensures most_polls { result.polls ≤ 2 ^ 95 }
{
    let ran = all_ran(moved);
    Totals {
        ran,
        parts: all_parts(moved, ran),
        polls: all_polls(moved),
    }
}

/// Whether an id is among these.
pub(crate) fn is_among(ids: &[u64], id: u64) -> bool
    ensures { result ≡ tables.is_among ids.now id }
{
    for other in ids {
        if id == *other {
            return true;
        }
    }
    false
}

// What a task that is charged with this adds to its place.
fn held_in(step: &Step<'_>, charge: u64, still: bool, first: bool, moved: &Moved) -> Held
    ensures { result ≡ spec.held_in step.now.from step.now.to charge still first moved.now }
{
    Held {
        charged: charge,
        still: if still { moved.gain.ran } else { 0 },
        since: if charge == 0 { None } else { Some(step.from) },
        until: if charge == 0 { 0 } else { step.to },
        longest: moved.gain.longest,
        task: moved.task,
        tasks: u64::from(first),
    }
}

/// The places of a stream's tasks, and who was charged.
#[derive(Drop)]
pub(crate) struct Places {
    /// For how long the tasks of each place held up others.
    pub held: Series<Held>,
    /// The tasks that were charged.
    pub guilty: Vec<u64>,
}

impl Places {
    // Adds what a task that is charged with this did in a step.
    fn add(
        &mut self,
        alloc: Global,
        step: &Step<'_>,
        charge: u64,
        still: bool,
        id: u64,
        place: &[u8],
        moved: &Moved,
    ) -> Result<(), AllocError>
        ensures { OnOk result (inner.places_of self.new
            ≡ spec.with_member step.now.from step.now.to charge still (inner.places_of self.old) (id, place.now, moved.now)) }
    {
        let first = charge >= 1 && !is_among(&self.guilty, id);
        let held = held_in(step, charge, still, first, moved);
        if first {
            self.guilty.push(id)?;
        }
        self.held.add(Vec::from_slice(alloc, place)?, held)
    }

    // Adds what the member at an index did in a step.
    fn add_at(
        &mut self,
        alloc: Global,
        step: &Step<'_>,
        free: Free,
        totals: Totals,
        members: &Members,
        i: usize,
    ) -> Result<(), AllocError>
        requires few { length step.now.moved.now ≤ 2 ^ 31 }
        requires ran { totals.ran ≡ sharing.all_ran step.now.moved.now }
        requires parts { totals.parts ≡ sharing.all_parts step.now.moved.now }
        requires most { totals.parts ≤ 2 ^ 63 }
        requires polls { totals.polls ≡ steps.all_polls step.now.moved.now }
        ensures { OnOk result (inner.places_of self.new
            ≡ option_map_or (λ x. spec.with_one step.now.long free step.now.from step.now.to step.now.moved.now (inner.places_of self.old) x)
            (slice_get (inner.shown members.now.entries) i) (inner.places_of self.old)) }
    {
        let Some((id, member)) = members.get_index(i) else {
            return Ok(());
        };
        let moved = &member.moved;
        let time = step.to.saturating_sub(step.from);
        let charge = charge_of(
            step.long,
            time,
            step.to,
            step.moved,
            totals.ran,
            totals.parts,
            moved,
        );
        let still = stood_still(step.long, free, step.moved, totals.polls, moved);
        let charge = charge.min(u128::from(u64::MAX)) as u64;
        self.add(alloc, step, charge, still, *id, &member.place, moved)
    }

    /// Adds what all members did in a step.
    pub fn add_step(
        &mut self,
        alloc: Global,
        step: &Step<'_>,
        free: Free,
        totals: Totals,
        members: &Members,
    ) -> Result<(), AllocError>
        requires few { length step.now.moved.now ≤ 2 ^ 31 }
        requires moved { step.now.moved.now ≡ moved_in (inner.shown members.now.entries) }
        requires ran { totals.ran ≡ sharing.all_ran step.now.moved.now }
        requires parts { totals.parts ≡ sharing.all_parts step.now.moved.now }
        requires most { totals.parts ≤ 2 ^ 63 }
        requires polls { totals.polls ≡ steps.all_polls step.now.moved.now }
        ensures { OnOk result (inner.places_of self.new
            ≡ spec.places_after step.now.long free step.now.from step.now.to (inner.shown members.now.entries) (inner.places_of self.old)) }
    {
        for i in 0..step.moved.len() {
            self.add_at(alloc, step, free, totals, members, i)?;
        }
        Ok(())
    }
}
