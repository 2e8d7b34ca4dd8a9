//! The list of what is odd.
ghost use Rattle.std.specs.Prelude.{◌≡◌, List, ◌≤◌, ◌+◌, ◌++◌, ◌∷◌, [], IfOk, OnOk, drop, length, map, slice_get, fold};
ghost use Rattle.std.specs.List.{filter_map};
ghost use Rattle.std.specs.Option.{option_map_or, option_to_list};
ghost use Rattle.tk_odd.specs.Diagnosis.{standing_of};
ghost use Rattle.tk_odd.specs.Findings as spec;
ghost use Rattle.tk_odd.specs.Inner as inner;
ghost use Rattle.tk_odd.specs.Words.{name_of};
ghost use Rattle.tk_stream.specs.Tables.{TablesView, empty_tables};

use crate::apart::Stretch;
use crate::diagnosis::Diagnosis;
use crate::finding::{Finding, Found, OddKind};
use crate::held::Held;
use crate::place::place_of;
use crate::signs::{Look, signs_of};
use crate::victims::with_victims;
use std::alloc::{AllocError, Global};
use tk_client::is_spawn;
use tk_series::Series;
use tk_stream::{Tables, Task};

// ---- places whose tasks are in a long poll

fn runs_long(long: u64, now: u64, task: &Task) -> bool
    ensures { result ≡ spec.runs_long long now task.now }
{
    is_spawn(task.info.kind) && long <= task.row.runs_for(now)
}

fn add_running_at(
    places: &mut Vec<Vec<u8>>,
    alloc: Global,
    long: u64,
    tables: &Tables,
    place: usize,
) -> Result<(), AllocError>
    ensures { OnOk result (map (λ v. v.items) places.new.items ≡ option_map_or
        (λ t. spec.with_running long tables.now.now (map (λ v. v.items) places.old.items) t) (slice_get tables.now.tasks place) (map (λ v. v.items) places.old.items)) }
{
    let Some(task) = tables.task_at(place) else {
        return Ok(());
    };
    if runs_long(long, tables.now(), task) {
        places.push(place_of(alloc, &task.info)?)?;
    }
    Ok(())
}

// The places of the tasks that are in a long poll.
fn running(alloc: Global, long: u64, tables: &Tables) -> Result<Vec<Vec<u8>>, AllocError>
    ensures { IfOk result (λ places. map (λ v. v.items) places.items ≡ spec.running long tables.now) }
{
    let mut places = Vec::new(alloc);
    for place in 0..tables.task_count() {
        add_running_at(&mut places, alloc, long, tables, place)?;
    }
    Ok(places)
}

fn is_there(places: &[Vec<u8>], place: &[u8]) -> bool
    ensures { result ≡ spec.is_there (map (λ v. v.items) places.now) place.now }
{
    for other in places {
        if other.as_slice() == place {
            return true;
        }
    }
    false
}

// ---- what is found

fn found_at(kind: OddKind, is_now: bool, held: &Held, figure: u64) -> Finding
    ensures { result ≡ spec.found_at kind is_now held.now figure }
{
    Finding {
        kind,
        is_now,
        task: Some(held.task),
        figure,
        still: held.still,
        longest: held.longest,
        of: 0,
        since: held.since.unwrap_or(0),
        until: held.until,
        tasks: held.tasks,
    }
}

// What is found about a place with these numbers, where a task of it is in a long poll or not, and the last step ended then.
fn of_place(long: u64, last: u64, runs: bool, held: &Held) -> Option<Finding>
    ensures { result ≡ spec.of_held long last runs held.now }
{
    if held.charged >= 1 {
        let is_now = runs && held.until == last;
        return Some(found_at(OddKind::HoldsUp, is_now, held, held.charged));
    }
    if held.still >= 1 {
        return Some(found_at(OddKind::StandsStill, runs, held, held.still));
    }
    if long <= held.longest {
        return Some(found_at(OddKind::LongPoll, runs, held, held.longest));
    }
    None
}

fn found_in(alloc: Global, place: &[u8], finding: Finding) -> Result<Found, AllocError>
    ensures { IfOk result (λ found. spec.placed found ≡ (place.now, finding)) }
{
    let place = Vec::from_slice(alloc, place)?;
    Ok(Found {
        place,
        finding,
        victim: None,
    })
}

fn add_place_at(
    list: &mut Vec<Found>,
    alloc: Global,
    long: u64,
    last: u64,
    running: &[Vec<u8>],
    held: &Series<Held>,
    i: usize,
) -> Result<(), AllocError>
    ensures { OnOk result (map spec.placed list.new.items
        ≡ option_map_or (λ p. map spec.placed list.old.items ++ option_to_list (spec.of_place long last (map (λ v. v.items) running.now) p))
        (slice_get held.now i) (map spec.placed list.old.items)) }
{
    let Some((place, held)) = held.at(i) else {
        return Ok(());
    };
    let runs = is_there(running, place);
    if let Some(finding) = of_place(long, last, runs, &held) {
        list.push(found_in(alloc, place, finding)?)?;
    }
    Ok(())
}

// Adds what is found about places.
fn add_places(
    list: &mut Vec<Found>,
    alloc: Global,
    long: u64,
    last: u64,
    running: &[Vec<u8>],
    held: &Series<Held>,
) -> Result<(), AllocError>
    ensures { OnOk result (map spec.placed list.new.items
        ≡ map spec.placed list.old.items ++ filter_map (spec.of_place long last (map (λ v. v.items) running.now)) held.now) }
{
    for i in 0..held.len() {
        add_place_at(list, alloc, long, last, running, held, i)?;
    }
    Ok(())
}

// Adds that tasks waited from one moment to another, and no task is to blame.
fn add_stretch(
    list: &mut Vec<Found>,
    alloc: Global,
    kind: OddKind,
    stretch: Option<Stretch>,
    last: u64,
) -> Result<(), AllocError>
    ensures { OnOk result (map spec.placed list.new.items ≡ map spec.placed list.old.items ++ spec.of_all kind stretch last) }
{
    let Some(Stretch { from, to }) = stretch else {
        return Ok(());
    };
    let finding = Finding {
        kind,
        is_now: to == last,
        task: None,
        figure: to.saturating_sub(from),
        still: 0,
        longest: 0,
        of: 0,
        since: from,
        until: to,
        tasks: 0,
    };
    list.push(Found {
        place: Vec::new(alloc),
        finding,
        victim: None,
    })?;
    Ok(())
}

// The place in a label: what stands after the kind.
fn place_at<'a>(kind: OddKind, label: &'a [u8]) -> &'a [u8]
    ensures { result.now ≡ drop (length (name_of kind) + 1) label.now }
{
    label.get(kind.name().len() + 1..).unwrap_or(&[])
}

fn add_sign_at(
    list: &mut Vec<Found>,
    alloc: Global,
    signs: &Series<Finding>,
    i: usize,
) -> Result<(), AllocError>
    ensures { OnOk result (map spec.placed list.new.items
        ≡ option_map_or (λ x. map spec.placed list.old.items ++ spec.sign_placed x ∷ []) (slice_get signs.now i) (map spec.placed list.old.items)) }
{
    if let Some((label, finding)) = signs.at(i) {
        list.push(found_in(alloc, place_at(finding.kind, label), finding)?)?;
    }
    Ok(())
}

// Adds what is found about tasks in themselves.
fn add_signs(
    list: &mut Vec<Found>,
    alloc: Global,
    signs: &Series<Finding>,
) -> Result<(), AllocError>
    ensures { OnOk result (map spec.placed list.new.items ≡ map spec.placed list.old.items ++ map spec.sign_placed signs.now) }
{
    for i in 0..signs.len() {
        add_sign_at(list, alloc, signs, i)?;
    }
    Ok(())
}

// ---- worst first

// How many of a list a finding goes after.
fn rank(list: &[Found], finding: &Finding) -> usize
    ensures within { result ≤ length list.now }
    ensures rank { result ≡ spec.rank (map spec.placed list.now) finding.now }
{
    for (i, other) in list.iter().enumerate() {
        if finding.stands_before(&other.finding) {
            return i;
        }
    }
    list.len()
}

// Puts a finding in its place, after those of the same rank.
fn put_in(list: &mut Vec<Found>, found: Found) -> Result<(), AllocError>
    ensures { OnOk result (map spec.placed list.new.items ≡ spec.put_in (map spec.placed list.old.items) (spec.placed found)) }
{
    let place = rank(list, &found.finding);
    list.insert(place, found)?;
    Ok(())
}

fn sorted(alloc: Global, all: Vec<Found>) -> Result<Vec<Found>, AllocError>
    ensures { IfOk result (λ list. map spec.placed list.items ≡ fold spec.put_in [] (map spec.placed all.items)) }
{
    let mut list = Vec::new(alloc);
    for found in all {
        put_in(&mut list, found)?;
    }
    Ok(list)
}

impl Diagnosis {
    // All that is odd.
    fn all_odd(&self, alloc: Global, tables: &Tables) -> Result<Vec<Found>, AllocError>
        ensures { IfOk result (λ list. map spec.placed list.items ≡ spec.all_odd self.now.limits (inner.standing_in empty_tables self.now) tables.now) }
    {
        let long = self.limits.long;
        let last = self.first.moment();
        let look = Look {
            limits: self.limits,
            moment: tables.now(),
            passed: &self.passed,
        };
        let signs = signs_of(alloc, &look, tables)?;
        let running = running(alloc, long, tables)?;
        let mut list = Vec::new(alloc);
        add_places(&mut list, alloc, long, last, &running, &self.places.held)?;
        add_stretch(&mut list, alloc, OddKind::LeftAlone, self.alone, last)?;
        add_stretch(&mut list, alloc, OddKind::Overloaded, self.overloaded, last)?;
        add_signs(&mut list, alloc, &signs)?;
        Ok(list)
    }

    /// What is odd with the tables of the last line, worst first. `specs/Findings.antt` says when each kind holds.
    pub fn findings(&self, alloc: Global, tables: &Tables) -> Result<Vec<Found>, AllocError>
        ensures { (shown : List TablesView) → inner.Follows shown self.now
            → IfOk result (λ list. map spec.placed list.items ≡ spec.findings_of self.now.limits (standing_of self.now.limits shown) tables.now) }
    {
        sorted(alloc, self.all_odd(alloc, tables)?)
    }

    /// The same, each with who waited longest for it.
    pub fn findings_with_victims(
        &self,
        alloc: Global,
        tables: &Tables,
    ) -> Result<Vec<Found>, AllocError>
        ensures { (shown : List TablesView) → inner.Follows shown self.now
            → IfOk result (λ list. map spec.told list.items ≡ spec.told_of self.now.limits (standing_of self.now.limits shown) tables.now) }
    {
        let list = self.findings(alloc, tables)?;
        with_victims(&self.pairs, alloc, &list)
    }
}
