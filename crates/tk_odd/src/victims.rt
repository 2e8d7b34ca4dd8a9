//! Who waited for those that are charged, by places.
ghost use Rattle.std.specs.Prelude.{◌≡◌, ◌≤◌, ◌^◌, ◌-◌, ℕ, List, OnOk, IfOk, fold, length, map, slice_get};
ghost use Rattle.std.specs.Option.{option_map, option_map_or};
ghost use Rattle.tk_odd.specs.Findings as findings;
ghost use Rattle.tk_odd.specs.Findings.{placed};
ghost use Rattle.tk_odd.specs.Inner as inner;
ghost use Rattle.tk_odd.specs.Members.{looked_at, moved_of as moved_in};
ghost use Rattle.tk_odd.specs.Sharing as sharing;
ghost use Rattle.tk_odd.specs.Victims as spec;
ghost use Rattle.tk_odd.specs.Words.{shape_of};

use crate::finding::{Found, OddKind, Victim};
use crate::members::{Member, Members};
use crate::moved::Moved;
use crate::places::{Step, Totals};
use crate::sharing::{charge_of, held_for};
use crate::waited::Waited;
use crate::words::Shape;
use std::alloc::{AllocError, Global};
use tk_series::Series;

// How a text begins that names a place and another.
fn begin_of(alloc: Global, place: &[u8]) -> Result<Vec<u8>, AllocError>
    ensures { IfOk result (λ text. text.items ≡ spec.begin_of place.now) }
{
    let length = place.len();
    let head = format!(in alloc; "{length} ")?;
    let mut text = Vec::from_slice(alloc, head.as_bytes())?;
    text.extend_from_slice(place)?;
    Ok(text)
}

fn pair_of(alloc: Global, place: &[u8], victim: &[u8]) -> Result<Vec<u8>, AllocError>
    ensures { IfOk result (λ text. text.items ≡ spec.pair_of place.now victim.now) }
{
    let mut text = begin_of(alloc, place)?;
    text.extend_from_slice(victim)?;
    Ok(text)
}

// Adds what a task waited for another that is charged.
fn add_victim(
    pairs: &mut Series<Waited>,
    alloc: Global,
    step: &Step<'_>,
    ran: u128,
    place: &[u8],
    one: &Moved,
    victim: &[u8],
    other: &Moved,
) -> Result<(), AllocError>
    requires { ran ≡ sharing.all_ran step.now.moved.now }
    ensures { (id other_id : ℕ) → OnOk result (pairs.new
        ≡ spec.with_victim step.now.to step.now.moved.now (id, place.now, one.now) pairs.old (other_id, victim.now, other.now)) }
{
    let time = held_for(step.to, ran, one, other);
    if time == 0 {
        return Ok(());
    }
    let time = time.min(u128::from(u64::MAX)) as u64;
    pairs.add(pair_of(alloc, place, victim)?, Waited { time })
}

// Adds what the member at an index waited for another that is charged.
fn add_victim_at(
    pairs: &mut Series<Waited>,
    alloc: Global,
    step: &Step<'_>,
    ran: u128,
    id: u64,
    member: &Member,
    members: &Members,
    i: usize,
) -> Result<(), AllocError>
    requires { ran ≡ sharing.all_ran step.now.moved.now }
    ensures { OnOk result (pairs.new ≡ option_map_or
        (λ y. spec.with_victim step.now.to step.now.moved.now (id, member.now.place.items, member.now.moved) pairs.old y)
        (slice_get (inner.shown members.now.entries) i) pairs.old) }
{
    let Some((_, other)) = members.get_index(i) else {
        return Ok(());
    };
    add_victim(
        pairs,
        alloc,
        step,
        ran,
        &member.place,
        &member.moved,
        &other.place,
        &other.moved,
    )
}

// Adds what all waited for one that is charged.
fn add_victims(
    pairs: &mut Series<Waited>,
    alloc: Global,
    step: &Step<'_>,
    ran: u128,
    id: u64,
    member: &Member,
    members: &Members,
) -> Result<(), AllocError>
    requires moved { step.now.moved.now ≡ moved_in (inner.shown members.now.entries) }
    requires ran { ran ≡ sharing.all_ran step.now.moved.now }
    ensures { OnOk result (pairs.new ≡ fold (spec.with_victim step.now.to step.now.moved.now (id, member.now.place.items, member.now.moved)) pairs.old
        (looked_at (inner.shown members.now.entries))) }
{
    for i in 0..step.moved.len() {
        add_victim_at(pairs, alloc, step, ran, id, member, members, i)?;
    }
    Ok(())
}

// Adds what all waited for the member at an index, where it is charged.
fn add_charged_at(
    pairs: &mut Series<Waited>,
    alloc: Global,
    step: &Step<'_>,
    totals: Totals,
    members: &Members,
    i: usize,
) -> Result<(), AllocError>
    requires few { length step.now.moved.now ≤ 2 ^ 31 }
    requires moved { step.now.moved.now ≡ moved_in (inner.shown members.now.entries) }
    requires ran { totals.ran ≡ sharing.all_ran step.now.moved.now }
    requires parts { totals.parts ≡ sharing.all_parts step.now.moved.now }
    requires most { totals.parts ≤ 2 ^ 63 }
    ensures { OnOk result (pairs.new ≡ option_map_or
        (λ x. spec.with_charged step.now.long (step.now.to - step.now.from) step.now.to (inner.shown members.now.entries) pairs.old x)
        (slice_get (inner.shown members.now.entries) i) pairs.old) }
{
    let Some((id, member)) = members.get_index(i) else {
        return Ok(());
    };
    let time = step.to.saturating_sub(step.from);
    let charge = charge_of(
        step.long,
        time,
        step.to,
        step.moved,
        totals.ran,
        totals.parts,
        &member.moved,
    );
    if charge == 0 {
        return Ok(());
    }
    add_victims(pairs, alloc, step, totals.ran, *id, member, members)
}

/// Adds what all waited in a step for those that are charged.
pub(crate) fn add_pairs(
    pairs: &mut Series<Waited>,
    alloc: Global,
    step: &Step<'_>,
    totals: Totals,
    members: &Members,
) -> Result<(), AllocError>
    requires few { length step.now.moved.now ≤ 2 ^ 31 }
    requires moved { step.now.moved.now ≡ moved_in (inner.shown members.now.entries) }
    requires ran { totals.ran ≡ sharing.all_ran step.now.moved.now }
    requires parts { totals.parts ≡ sharing.all_parts step.now.moved.now }
    requires most { totals.parts ≤ 2 ^ 63 }
    ensures { OnOk result (pairs.new ≡ spec.pairs_after step.now.long (step.now.to - step.now.from) step.now.to (inner.shown members.now.entries) pairs.old) }
{
    for i in 0..step.moved.len() {
        add_charged_at(pairs, alloc, step, totals, members, i)?;
    }
    Ok(())
}

// ---- of one place

fn starts_with(text: &[u8], begin: &[u8]) -> bool
    ensures { result ≡ spec.starts_with text.now begin.now }
{
    match text.get(..begin.len()) {
        Some(head) => head == begin,
        None => false,
    }
}

// Who waited longest so far.
#[derive(Clone, Copy)]
struct Most<'a> {
    place: &'a [u8],
    time: u64,
}

// The longest so far, after the pair at an index.
fn longer_at<'a>(
    pairs: &'a Series<Waited>,
    begin: &[u8],
    most: Option<Most<'a>>,
    i: usize,
) -> Option<Most<'a>>
    ensures { (place : List ℕ) → begin.now ≡ spec.begin_of place → option_map (λ v. (v.place.now, v.time)) result
        ≡ option_map_or (λ pair. spec.most_with place (option_map (λ v. (v.place.now, v.time)) most.entry) pair) (slice_get pairs.now i)
        (option_map (λ v. (v.place.now, v.time)) most.entry) }
{
    let Some((text, waited)) = pairs.at(i) else {
        return most;
    };
    let longer = match most {
        Some(victim) => victim.time < waited.time,
        None => true,
    };
    if !longer || !starts_with(text, begin) {
        return most;
    }
    Some(Most {
        place: text.get(begin.len()..).unwrap_or(&[]),
        time: waited.time,
    })
}

// Of pairs of places, who waited longest for the tasks of one.
fn longest<'a>(
    pairs: &'a Series<Waited>,
    alloc: Global,
    place: &[u8],
) -> Result<Option<Most<'a>>, AllocError>
    ensures { IfOk result (λ victim. option_map (λ v. (v.place.now, v.time)) victim ≡ spec.most_held place.now pairs.now) }
{
    let begin = begin_of(alloc, place)?;
    let mut most = None;
    for i in 0..pairs.len() {
        most = longer_at(pairs, &begin, most, i);
    }
    Ok(most)
}

fn most_held(
    pairs: &Series<Waited>,
    alloc: Global,
    place: &[u8],
) -> Result<Option<Victim>, AllocError>
    ensures { IfOk result (λ victim. findings.victim_of victim ≡ spec.most_held place.now pairs.now) }
{
    let Some(most) = longest(pairs, alloc, place)? else {
        return Ok(None);
    };
    let place = Vec::from_slice(alloc, most.place)?;
    let time = most.time;
    Ok(Some(Victim { place, time }))
}

// Who waited longest for a place, where others waited for it.
fn victim_at(
    pairs: &Series<Waited>,
    alloc: Global,
    kind: OddKind,
    place: &[u8],
) -> Result<Option<Victim>, AllocError>
    ensures { IfOk result (λ victim. findings.victim_of victim ≡ findings.whom_by (shape_of kind) (spec.most_held place.now pairs.now)) }
{
    match kind.shape() {
        Shape::Held => most_held(pairs, alloc, place),
        _ => Ok(None),
    }
}

fn with_victim(pairs: &Series<Waited>, alloc: Global, found: &Found) -> Result<Found, AllocError>
    ensures { IfOk result (λ x. findings.told x ≡ findings.with_whom pairs.now (placed found.now)) }
{
    let finding = found.finding;
    let victim = victim_at(pairs, alloc, finding.kind, &found.place)?;
    let place = Vec::from_slice(alloc, &found.place)?;
    Ok(Found {
        place,
        finding,
        victim,
    })
}

/// Findings, each with who waited longest for it.
pub(crate) fn with_victims(
    pairs: &Series<Waited>,
    alloc: Global,
    list: &[Found],
) -> Result<Vec<Found>, AllocError>
    ensures { IfOk result (λ all. map findings.told all.items ≡ map (findings.with_whom pairs.now) (map placed list.now)) }
{
    let mut all = Vec::new(alloc);
    for found in list {
        all.push(with_victim(pairs, alloc, found)?)?;
    }
    Ok(all)
}
