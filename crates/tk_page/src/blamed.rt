//! The places that held up others longest.
ghost use Rattle.std.specs.Prelude.{◌≡◌, ◌++◌, ◌∷◌, [], IfOk, OnOk, flat_map, map};
ghost use Rattle.tk_page.specs.Charges as spec;

use crate::blame::{Blame, Charge};
use crate::figures::front;
use crate::ranks::{Rank, held_ranks_of};
use std::alloc::{AllocError, Global};
use tk_odd::Held;
use tk_series::Series;

// How many places have a colour.
const PLACES: usize = 2;

/// A place that held up others.
#[derive(Drop)]
pub(crate) struct Blamed {
    /// The place, as all outlets write it.
    pub place: Vec<u8>,
    /// What it is charged with.
    pub held: Held,
    /// What it was charged with up to some lines, and up to the last one.
    pub charges: Vec<Charge>,
}

// What is kept of a place's charges, and the last one.
fn charges_of(alloc: Global, kept: &[Charge], last: Charge) -> Result<Vec<Charge>, AllocError>
    ensures { IfOk result (λ charges. charges.items ≡ kept.now ++ last ∷ []) }
{
    let mut charges = Vec::from_slice(alloc, kept)?;
    charges.push(last)?;
    Ok(charges)
}

// A place that is charged.
fn blamed_as(
    alloc: Global,
    place: &[u8],
    held: Held,
    kept: &[Charge],
    now: u64,
) -> Result<Blamed, AllocError>
    ensures { IfOk result (λ b. spec.seen b ≡ record { place = place.now; held = held; charges = kept.now ++ record { now = now; charged = held.charged } ∷ [] }) }
{
    let charged = held.charged;
    Ok(Blamed {
        place: Vec::from_slice(alloc, place)?,
        held,
        charges: charges_of(alloc, kept, Charge { now, charged })?,
    })
}

// Adds the place at a position, if it is charged.
fn add_blamed(
    list: &mut Vec<Blamed>,
    alloc: Global,
    blame: &Blame,
    held: &Series<Held>,
    now: u64,
    rank: &Rank,
) -> Result<(), AllocError>
    ensures { OnOk result (map spec.seen list.new.items
        ≡ map spec.seen list.old.items ++ spec.blamed_at now held.now (λ i. (spec.course_of blame.now i).kept) rank.now) }
{
    let Some((place, one)) = held.at(rank.place) else {
        return Ok(());
    };
    if one.charged == 0 {
        return Ok(());
    }
    let blamed = blamed_as(alloc, place, one, blame.kept(rank.place), now)?;
    list.push(blamed)?;
    Ok(())
}

// Adds the places of these ranks that are charged.
fn add_all_blamed(
    alloc: Global,
    blame: &Blame,
    held: &Series<Held>,
    now: u64,
    ranks: &[Rank],
) -> Result<Vec<Blamed>, AllocError>
    ensures { IfOk result (λ list. map spec.seen list.items
        ≡ flat_map (spec.blamed_at now held.now (λ i. (spec.course_of blame.now i).kept)) ranks.now) }
{
    let mut list = Vec::new(alloc);
    for rank in ranks {
        add_blamed(&mut list, alloc, blame, held, now, rank)?;
    }
    Ok(list)
}

/// The two places that are charged with most, after a last line at this moment. `AllocError`: there was no memory.
pub(crate) fn blamed_of(
    alloc: Global,
    blame: &Blame,
    held: &Series<Held>,
    now: u64,
) -> Result<Vec<Blamed>, AllocError>
    ensures { IfOk result (λ list. spec.AreBlamed now held.now (λ i. (spec.course_of blame.now i).kept) list.items) }
{
    let ranks = held_ranks_of(alloc, held)?;
    let first = front(ranks.as_slice(), PLACES);
    let list = add_all_blamed(alloc, blame, held, now, first)?;
    Ok(list)
}
