//! Which places of two streams are the same, and what these came to in each.
ghost use Rattle.std.specs.Prelude.{◌≡◌, ◌∷◌, ◌++◌, [], List, ℕ, IfOk, OnOk, map, slice_get};
ghost use Rattle.std.specs.Option.{option_map_or};
ghost use Rattle.tk_series.specs.Limited.{names_of};
ghost use Rattle.tk_series.specs.Series.{series_of, with_value};
ghost use Rattle.tk_sites.specs.Lines.{more_site as more_text};
ghost use Rattle.tk_compare.specs.Compared as spec;
ghost use Rattle.tk_compare.specs.Names as naming;
ghost use Rattle.tk_compare.specs.Spent as spent;
ghost use Rattle.tk_compare.specs.declared.spent.Compared.{Compared as ComparedView};

use crate::names::{compared_by, is_among, loosened, push_name};
use crate::recorded::Recorded;
use crate::spent::{Compared, Part, Side};
use std::alloc::{AllocError, Global};
use tk_odd::Held;
use tk_series::{Limited, Series};
use tk_sites::{Sums, more_site};

// ---- names

// Puts the name of the place that stands there, if one does.
fn push_at(
    names: &mut Vec<Vec<u8>>,
    alloc: Global,
    sites: &Limited<Sums>,
    at: usize,
) -> Result<(), AllocError>
    ensures { OnOk result (naming.texts names.new.items ≡ option_map_or
        (λ x. naming.texts names.old.items ++ x.0 ∷ []) (slice_get sites.now.first at) (naming.texts names.old.items)) }
{
    match sites.at(at) {
        Some((site, _)) => push_name(names, Vec::from_slice(alloc, site)?),
        None => Ok(()),
    }
}

// The names of the places that stand by themselves.
fn own_names(alloc: Global, sites: &Limited<Sums>) -> Result<Vec<Vec<u8>>, AllocError>
    ensures { IfOk result (λ list. naming.texts list.items ≡ names_of sites.now.first) }
{
    let mut list = Vec::new(alloc);
    for at in 0..sites.len() {
        push_at(&mut list, alloc, sites, at)?;
    }
    Ok(list)
}

// Puts the name of what found no room among places, if anything is.
fn push_rest(names: &mut Vec<Vec<u8>>, alloc: Global, rest: Option<Sums>) -> Result<(), AllocError>
    ensures { OnOk result (naming.texts names.new.items ≡ naming.texts names.old.items ++ names_of (spec.rest_in rest)) }
{
    match rest {
        Some(_) => push_name(names, Vec::from_slice(alloc, more_site().as_bytes())?),
        None => Ok(()),
    }
}

// The names of all places.
fn site_names(alloc: Global, sites: &Limited<Sums>) -> Result<Vec<Vec<u8>>, AllocError>
    ensures { IfOk result (λ list. naming.texts list.items ≡ spec.site_names sites.now) }
{
    let mut list = own_names(alloc, sites)?;
    push_rest(&mut list, alloc, sites.rest())?;
    Ok(list)
}

// ---- what they came to

// Adds what a stream has of a place.
fn add_site<P: Part>(
    places: &mut Series<Compared>,
    alloc: Global,
    side: Side,
    loose: &[Vec<u8>],
    others: &[Vec<u8>],
    site: &[u8],
    part: P,
) -> Result<(), AllocError>
    ensures { OnOk result (places.new ≡ with_value spent.plus (naming.by_loose (naming.texts loose.now) (naming.texts others.now) site.now)
        (spent.in_stream side (P.spent part)) places.old) }
{
    let name = compared_by(alloc, loose, others, site)?;
    places.add(name, Compared::of(side, part.spent()))
}

// Adds the place that stands there.
fn add_at<P: Part>(
    places: &mut Series<Compared>,
    alloc: Global,
    side: Side,
    loose: &[Vec<u8>],
    others: &[Vec<u8>],
    sites: &Limited<P>,
    at: usize,
) -> Result<(), AllocError>
    ensures { OnOk result (places.new ≡ option_map_or
        (λ x. with_value spent.plus (spec.entry P.spent side (naming.texts loose.now) (naming.texts others.now) x).0
        (spec.entry P.spent side (naming.texts loose.now) (naming.texts others.now) x).1 places.old)
        (slice_get sites.now.first at) places.old) }
{
    match sites.at(at) {
        Some((site, part)) => add_site(places, alloc, side, loose, others, site, part),
        None => Ok(()),
    }
}

// Adds the places of a stream that stand by themselves.
fn add_own<P: Part>(
    places: &mut Series<Compared>,
    alloc: Global,
    side: Side,
    loose: &[Vec<u8>],
    others: &[Vec<u8>],
    sites: &Limited<P>,
) -> Result<(), AllocError>
    ensures { (xs : List (List ℕ × ComparedView)) → places.old ≡ series_of spent.plus xs
        → OnOk result (places.new ≡ series_of spent.plus
        (xs ++ map (spec.entry P.spent side (naming.texts loose.now) (naming.texts others.now)) sites.now.first)) }
{
    for at in 0..sites.len() {
        add_at(places, alloc, side, loose, others, sites, at)?;
    }
    Ok(())
}

// Adds what found no room among the places of a stream.
fn add_rest<P: Part>(
    places: &mut Series<Compared>,
    alloc: Global,
    side: Side,
    loose: &[Vec<u8>],
    others: &[Vec<u8>],
    rest: Option<P>,
) -> Result<(), AllocError>
    ensures { OnOk result (places.new ≡ option_map_or
        (λ part. with_value spent.plus (spec.entry P.spent side (naming.texts loose.now) (naming.texts others.now) (more_text, part)).0
        (spec.entry P.spent side (naming.texts loose.now) (naming.texts others.now) (more_text, part)).1 places.old)
        rest places.old) }
{
    match rest {
        Some(part) => {
            let site = more_site().as_bytes();
            add_site(places, alloc, side, loose, others, site, part)
        }
        None => Ok(()),
    }
}

// Adds all places of a stream, or their histograms, by what is left of the other's names.
fn add_all<P: Part>(
    places: &mut Series<Compared>,
    alloc: Global,
    side: Side,
    loose: &[Vec<u8>],
    others: &[Vec<u8>],
    sites: &Limited<P>,
) -> Result<(), AllocError>
    ensures { (xs : List (List ℕ × ComparedView)) → places.old ≡ series_of spent.plus xs
        → OnOk result (places.new ≡ series_of spent.plus
        (xs ++ spec.entries P.spent side (naming.texts loose.now) (naming.texts others.now) sites.now)) }
{
    add_own(places, alloc, side, loose, others, sites)?;
    add_rest(places, alloc, side, loose, others, sites.rest())?;
    Ok(())
}

// Adds a place that held up others, of a stream whose places have these names.
fn add_held_one(
    places: &mut Series<Compared>,
    alloc: Global,
    side: Side,
    own: &[Vec<u8>],
    loose: &[Vec<u8>],
    others: &[Vec<u8>],
    site: &[u8],
    held: Held,
) -> Result<(), AllocError>
    ensures { OnOk result (places.new ≡ with_value spent.plus
        (naming.by_loose (naming.texts loose.now) (naming.texts others.now) (spec.place_among (naming.texts own.now) site.now))
        (spent.in_stream side (spent.held_of held)) places.old) }
{
    if is_among(own, site) {
        add_site(places, alloc, side, loose, others, site, held)
    } else {
        let rest = more_site().as_bytes();
        add_site(places, alloc, side, loose, others, rest, held)
    }
}

// Adds the one that stands there.
fn add_held_at(
    places: &mut Series<Compared>,
    alloc: Global,
    side: Side,
    own: &[Vec<u8>],
    loose: &[Vec<u8>],
    others: &[Vec<u8>],
    all: &Series<Held>,
    at: usize,
) -> Result<(), AllocError>
    ensures { OnOk result (places.new ≡ option_map_or
        (λ x. with_value spent.plus (spec.held_entry side (naming.texts own.now) (naming.texts loose.now) (naming.texts others.now) x).0
        (spec.held_entry side (naming.texts own.now) (naming.texts loose.now) (naming.texts others.now) x).1 places.old)
        (slice_get all.now at) places.old) }
{
    match all.at(at) {
        Some((site, held)) => add_held_one(places, alloc, side, own, loose, others, site, held),
        None => Ok(()),
    }
}

// Adds all places of a stream that held up others.
fn add_held(
    places: &mut Series<Compared>,
    alloc: Global,
    side: Side,
    own: &[Vec<u8>],
    loose: &[Vec<u8>],
    others: &[Vec<u8>],
    all: &Series<Held>,
) -> Result<(), AllocError>
    ensures { (xs : List (List ℕ × ComparedView)) → places.old ≡ series_of spent.plus xs
        → OnOk result (places.new ≡ series_of spent.plus
        (xs ++ map (spec.held_entry side (naming.texts own.now) (naming.texts loose.now) (naming.texts others.now)) all.now)) }
{
    for at in 0..all.len() {
        add_held_at(places, alloc, side, own, loose, others, all, at)?;
    }
    Ok(())
}

// Adds what a stream adds, of whose places these are the names, beside those of the other.
fn add_stream(
    places: &mut Series<Compared>,
    alloc: Global,
    side: Side,
    own: &[Vec<u8>],
    others: &[Vec<u8>],
    stream: &Recorded,
) -> Result<(), AllocError>
    ensures { (xs : List (List ℕ × ComparedView)) → places.old ≡ series_of spent.plus xs
        → OnOk result (places.new ≡ series_of spent.plus (xs ++ spec.added side (naming.texts own.now) (naming.texts others.now) stream.now)) }
{
    let loose = loosened(alloc, own, others)?;
    let loose = loose.as_slice();
    add_all(places, alloc, side, loose, others, &stream.sites)?;
    add_all(places, alloc, side, loose, others, &stream.times)?;
    add_held(places, alloc, side, own, loose, others, &stream.held)?;
    Ok(())
}

/// What each place came to in two streams. A place that both have is compared by itself. All others are compared but for their numbers, which are those
/// of lines and columns: so a place that has moved in its file is the same place, and such places are added up. A place that only one stream has,
/// whatever its numbers are, is by itself.
///
/// The places of the stream after come first, in its order, then those that it has no more. `AllocError`: there was no memory.
pub fn compare_places(
    alloc: Global,
    before: &Recorded,
    after: &Recorded,
) -> Result<Series<Compared>, AllocError>
    ensures { IfOk result (λ places. places ≡ spec.compared before.now after.now) }
{
    let mut places = Series::new(alloc);
    let old = site_names(alloc, &before.sites)?;
    let new = site_names(alloc, &after.sites)?;
    let (old, new) = (old.as_slice(), new.as_slice());
    add_stream(&mut places, alloc, Side::After, new, old, after)?;
    add_stream(&mut places, alloc, Side::Before, old, new, before)?;
    Ok(places)
}
