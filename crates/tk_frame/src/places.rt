//! The places of a stream's tasks, as rows of a table.
ghost use Rattle.std.specs.Prelude.{◌≡◌, ◌≤◌, IfOk, OnOk, length, map, slice_get, if◌then◌else◌, Some, None};
ghost use Rattle.std.specs.Option.{option_and_then, option_map_or};
ghost use Rattle.std.specs.Str.{bytes_eq};
ghost use Rattle.tk_sites.specs.Lines.{more_site as more_text};
ghost use Rattle.tk_frame.specs.Places as spec;

use std::alloc::{AllocError, Global};
use tk_odd::Held;
use tk_series::{Limited, Series};
use tk_sites::{Sums, more_site};

/// What the tasks of a place came to. Times are nanoseconds.
#[derive(Clone, Copy, Debug, PartialEq, Eq)]
pub struct Figures {
    /// The number of the place, from 0 on: places are numbered in the order in which a first task of each came.
    pub number: usize,
    /// What its tasks came to, those that have left among them.
    pub sums: Sums,
    /// For how long others waited while its tasks ran, at least.
    pub held_up: u64,
    /// How long a poll of its tasks is known to have run, at least.
    pub longest: u64,
}

/// A place, and what its tasks came to.
#[derive(Drop)]
pub struct Place {
    /// The text of the place, as `tk_sites` writes it.
    pub site: Vec<u8>,
    pub figures: Figures,
}

// ---- a place

// What is known of the place at an index, where it has these labels.
fn held_if(held: &Series<Held>, key: &[u8], i: usize) -> Option<Held>
    ensures { result ≡ option_and_then (λ x. if bytes_eq x.0 key.now then Some x.1 else None) (slice_get held.now i) }
{
    let Some((place, one)) = held.at(i) else {
        return None;
    };
    if place == key { Some(one) } else { None }
}

// What is known so far, or else by the one at an index.
fn held_with(found: Option<Held>, held: &Series<Held>, key: &[u8], i: usize) -> Option<Held>
    ensures { result ≡ option_map_or (λ h. Some h) found
        (option_and_then (λ x. if bytes_eq x.0 key.now then Some x.1 else None) (slice_get held.now i)) }
{
    match found {
        Some(one) => Some(one),
        None => held_if(held, key, i),
    }
}

/// What is known of a place among those that held up others.
pub(crate) fn held_of(held: &Series<Held>, key: &[u8]) -> Option<Held>
    ensures { result ≡ spec.held_of key.now held.now }
{
    let mut found = None;
    for i in 0..held.len() {
        found = held_with(found, held, key, i);
    }
    found
}

fn figures_by(number: usize, sums: Sums, held: Option<Held>) -> Figures
    ensures { result ≡ spec.figures_by number sums held }
{
    match held {
        Some(held) => Figures {
            number,
            sums,
            held_up: held.charged,
            longest: held.longest,
        },
        None => Figures {
            number,
            sums,
            held_up: 0,
            longest: 0,
        },
    }
}

fn place_at(
    alloc: Global,
    held: &Series<Held>,
    number: usize,
    site: &[u8],
    sums: Sums,
) -> Result<Place, AllocError>
    ensures { IfOk result (λ p. spec.row_of p ≡ spec.place_at held.now number (site.now, sums)) }
{
    let figures = figures_by(number, sums, held_of(held, site));
    let site = Vec::from_slice(alloc, site)?;
    Ok(Place { site, figures })
}

// ---- their order

fn numbers_of(figures: &Figures) -> [u64; 7]
    ensures { result ≡ spec.numbers_of figures.now }
{
    let Figures {
        number: _,
        sums,
        held_up,
        longest,
    } = *figures;
    [
        held_up,
        sums.waited,
        sums.busy,
        longest,
        sums.polls,
        sums.wakes,
        sums.own,
    ]
}

fn is_greater(a: &[u64], b: &[u64]) -> bool
    ensures { result ≡ spec.is_greater a.now b.now }
{
    let [x, a @ ..] = a else {
        return false;
    };
    let [y, b @ ..] = b else {
        return false;
    };
    if *x == *y { is_greater(a, b) } else { *y < *x }
}

fn stands_before(a: &Figures, b: &Figures) -> bool
    ensures { result ≡ spec.stands_before a.now b.now }
{
    let first = numbers_of(a);
    let second = numbers_of(b);
    is_greater(&first, &second)
}

// How many of a list a place goes after.
fn rank(list: &[Place], figures: &Figures) -> usize
    ensures within { result ≤ length list.now }
    ensures rank { result ≡ spec.rank (map spec.row_of list.now) figures.now }
{
    for (i, other) in list.iter().enumerate() {
        if stands_before(figures, &other.figures) {
            return i;
        }
    }
    list.len()
}

/// Puts a place in its place, after those that are equal to it.
pub(crate) fn put_in(list: &mut Vec<Place>, place: Place) -> Result<(), AllocError>
    ensures { OnOk result (map spec.row_of list.new.items ≡ spec.put_in (map spec.row_of list.old.items) (spec.row_of place)) }
{
    let at = rank(list, &place.figures);
    list.insert(at, place)?;
    Ok(())
}

// ---- all of them

fn put_at(
    list: &mut Vec<Place>,
    alloc: Global,
    sites: &Limited<Sums>,
    held: &Series<Held>,
    i: usize,
) -> Result<(), AllocError>
    ensures { OnOk result (map spec.row_of list.new.items
        ≡ option_map_or (λ x. spec.put_in (map spec.row_of list.old.items) (spec.place_at held.now i x)) (slice_get sites.now.first i) (map spec.row_of list.old.items)) }
{
    let Some((site, sums)) = sites.at(i) else {
        return Ok(());
    };
    put_in(list, place_at(alloc, held, i, site, sums)?)
}

// Puts what found no room among places, as one more.
fn put_more(
    list: &mut Vec<Place>,
    alloc: Global,
    sites: &Limited<Sums>,
    held: &Series<Held>,
) -> Result<(), AllocError>
    ensures { OnOk result (map spec.row_of list.new.items
        ≡ option_map_or (λ s. spec.put_in (map spec.row_of list.old.items) (spec.place_at held.now (length sites.now.first) (more_text, s))) sites.now.rest (map spec.row_of list.old.items)) }
{
    let Some(sums) = sites.rest() else {
        return Ok(());
    };
    let site = more_site().as_bytes();
    put_in(list, place_at(alloc, held, sites.len(), site, sums)?)
}

/// The places that tasks came to, with what is known of those that held up others: in their order. What found no room among places is one more.
///
/// Those come first whose tasks others waited for longest. Of equal ones those whose own tasks waited longest, then those that ran longest, had the
/// longest poll, most polls, most wakes, and most wakes of their own.
pub fn places_of(
    alloc: Global,
    sites: &Limited<Sums>,
    held: &Series<Held>,
) -> Result<Vec<Place>, AllocError>
    ensures { IfOk result (λ places. map spec.row_of places.items ≡ spec.places_in sites.now held.now) }
{
    let mut list = Vec::new(alloc);
    for i in 0..sites.len() {
        put_at(&mut list, alloc, sites, held, i)?;
    }
    put_more(&mut list, alloc, sites, held)?;
    Ok(list)
}
