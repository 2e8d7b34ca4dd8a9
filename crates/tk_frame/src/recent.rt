//! What places came to in the last while.
ghost use Rattle.std.specs.Prelude.{◌≡◌, map, IfOk, OnOk};
ghost use Rattle.tk_frame.specs.Places as spec;

use crate::places::{Figures, Place, held_of, put_in};
use std::alloc::{AllocError, Global};
use tk_odd::Held;
use tk_series::{Limited, Series};
use tk_sites::Sums;

/// What places had come to at a moment, in nanoseconds.
#[derive(Drop)]
pub struct Earlier {
    pub moment: u64,
    pub sites: Limited<Sums>,
    pub held: Series<Held>,
}

/// What places came to in the last while.
#[derive(Drop)]
pub struct Recent {
    /// The places, in the order of what they came to in this time.
    pub places: Vec<Place>,
    /// How long this time is, in nanoseconds.
    pub time: u64,
}

// What all places but the first had come to, if they have this number.
fn rest_then(earlier: &Earlier, number: usize) -> Option<Sums>
    ensures { result ≡ spec.rest_then earlier.now number }
{
    if number == earlier.sites.len() {
        earlier.sites.rest()
    } else {
        None
    }
}

fn sums_then(earlier: &Earlier, number: usize) -> Option<Sums>
    ensures { result ≡ spec.sums_then earlier.now number }
{
    match earlier.sites.at(number) {
        Some((_, sums)) => Some(sums),
        None => rest_then(earlier, number),
    }
}

fn sums_since(old: Sums, sums: Sums) -> Sums
    ensures { result ≡ spec.sums_since old sums }
{
    Sums {
        polls: sums.polls.saturating_sub(old.polls),
        wakes: sums.wakes.saturating_sub(old.wakes),
        own: sums.own.saturating_sub(old.own),
        clones: sums.clones.saturating_sub(old.clones),
        drops: sums.drops.saturating_sub(old.drops),
        busy: sums.busy.saturating_sub(old.busy),
        sched: sums.sched.saturating_sub(old.sched),
        waited: sums.waited.saturating_sub(old.waited),
        ..sums
    }
}

fn sums_by(old: Option<Sums>, sums: Sums) -> Sums
    ensures { result ≡ spec.sums_by old sums }
{
    match old {
        Some(old) => sums_since(old, sums),
        None => sums,
    }
}

fn charged_of(held: &Option<Held>) -> u64
    ensures { result ≡ spec.charged_of held.now }
{
    match held {
        Some(held) => held.charged,
        None => 0,
    }
}

fn longest_of(held: &Option<Held>) -> u64
    ensures { result ≡ spec.longest_of held.now }
{
    match held {
        Some(held) => held.longest,
        None => 0,
    }
}

fn longest_since(old: u64, longest: u64) -> u64
    ensures { result ≡ spec.longest_since old longest }
{
    if old < longest { longest } else { 0 }
}

fn figures_since(old: Option<Sums>, held: &Option<Held>, figures: &Figures) -> Figures
    ensures { result ≡ spec.figures_since old held.now figures.now }
{
    Figures {
        number: figures.number,
        sums: sums_by(old, figures.sums),
        held_up: figures.held_up.saturating_sub(charged_of(held)),
        longest: longest_since(longest_of(held), figures.longest),
    }
}

fn place_since(alloc: Global, earlier: &Earlier, place: &Place) -> Result<Place, AllocError>
    ensures { IfOk result (λ p. spec.row_of p ≡ spec.place_since earlier.now (spec.row_of place.now)) }
{
    let Place { site, figures } = place;
    let old = sums_then(earlier, figures.number);
    let held = held_of(&earlier.held, site.as_slice());
    let figures = figures_since(old, &held, figures);
    let site = Vec::from_slice(alloc, site.as_slice())?;
    Ok(Place { site, figures })
}

fn put_since(
    list: &mut Vec<Place>,
    alloc: Global,
    earlier: &Earlier,
    place: &Place,
) -> Result<(), AllocError>
    ensures { OnOk result (map spec.row_of list.new.items
        ≡ spec.put_in (map spec.row_of list.old.items) (spec.place_since earlier.now (spec.row_of place.now))) }
{
    put_in(list, place_since(alloc, earlier, place)?)
}

fn places_since(
    alloc: Global,
    earlier: &Earlier,
    places: &[Place],
) -> Result<Vec<Place>, AllocError>
    ensures { IfOk result (λ list. map spec.row_of list.items ≡ spec.places_since earlier.now (map spec.row_of places.now)) }
{
    let mut list = Vec::new(alloc);
    for place in places {
        put_since(&mut list, alloc, earlier, place)?;
    }
    Ok(list)
}

/// What these places came to since an earlier moment, as `places_of` orders them by that: what they have come to now, less what they had come to then.
/// How many tasks are in each state, how many came, and how many left stays as it is now. A place's longest poll is told if none was known
/// then that was as long.
pub fn recent_of(
    alloc: Global,
    earlier: &Earlier,
    now: u64,
    places: &[Place],
) -> Result<Recent, AllocError>
    ensures { IfOk result (λ recent. spec.recent_of recent ≡ spec.recent_since earlier.now now (map spec.row_of places.now)) }
{
    let time = now.saturating_sub(earlier.moment);
    let places = places_since(alloc, earlier, places)?;
    Ok(Recent { places, time })
}
