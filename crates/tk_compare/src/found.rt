//! Which findings of two streams are the same.
ghost use Rattle.std.specs.Prelude.{◌≡◌, ◌≤◌, ◌==◌, ◌∷◌, ◌++◌, [], ℕ, List, IfOk, OnOk, filter, length, map, slice_get};
ghost use Rattle.std.specs.Option.{option_map_or};
ghost use Rattle.tk_report.specs.Pieces.{Puts};
ghost use Rattle.tk_series.specs.Series.{series_of, with_value};
ghost use Rattle.tk_compare.specs.Found as spec;
ghost use Rattle.tk_compare.specs.Names as naming;
ghost use Rattle.tk_compare.specs.declared.found.Seen.{Seen as SeenView};

use crate::lines::put;
use crate::names::{compared_by, loosened};
use crate::spent::Side;
use std::alloc::{AllocError, Global};
use tk_series::{Added, Series};

/// How many findings of two streams are the same one.
#[derive(Clone, Copy, Debug, PartialEq, Eq)]
pub struct Seen {
    /// In the stream before.
    pub before: u64,
    /// In the stream after.
    pub after: u64,
}

/// Which of two streams have a finding.
#[derive(Clone, Copy, Debug, PartialEq, Eq)]
pub enum Standing {
    /// The stream after alone.
    New,
    /// The stream before alone.
    Gone,
    /// Both.
    Still,
}

impl Seen {
    fn of(side: Side) -> Seen
        ensures { result ≡ spec.seen_in side }
    {
        match side {
            Side::Before => Seen {
                before: 1,
                after: 0,
            },
            Side::After => Seen {
                before: 0,
                after: 1,
            },
        }
    }

    /// Which streams have it.
    pub fn standing(&self) -> Standing
        ensures { result ≡ spec.standing_of self.now }
    {
        if self.before == 0 {
            Standing::New
        } else if self.after == 0 {
            Standing::Gone
        } else {
            Standing::Still
        }
    }
}

impl Added for Seen {
    ghost use Rattle.tk_compare.specs.Found as spec;

    ghost plus = { spec.both_seen };

    ghost copies = { λ a b e. e };

    fn plus(self, more: Seen) -> Seen {
        Seen {
            before: self.before.saturating_add(more.before),
            after: self.after.saturating_add(more.after),
        }
    }
}

fn add_one(
    findings: &mut Series<Seen>,
    alloc: Global,
    side: Side,
    loose: &[Vec<u8>],
    others: &[Vec<u8>],
    name: &[u8],
) -> Result<(), AllocError>
    ensures { OnOk result (findings.new
        ≡ with_value spec.both_seen (naming.by_loose (naming.texts loose.now) (naming.texts others.now) name.now) (spec.seen_in side) findings.old) }
{
    let by = compared_by(alloc, loose, others, name)?;
    findings.add(by, Seen::of(side))
}

// Adds the finding that stands there.
fn add_at(
    findings: &mut Series<Seen>,
    alloc: Global,
    side: Side,
    loose: &[Vec<u8>],
    others: &[Vec<u8>],
    own: &[Vec<u8>],
    at: usize,
) -> Result<(), AllocError>
    ensures { OnOk result (findings.new ≡ option_map_or
        (λ v. with_value spec.both_seen (naming.by_loose (naming.texts loose.now) (naming.texts others.now) v.items) (spec.seen_in side) findings.old)
        (slice_get own.now at) findings.old) }
{
    match own.get(at) {
        Some(name) => add_one(findings, alloc, side, loose, others, name.as_slice()),
        None => Ok(()),
    }
}

// Adds the findings of a stream, by what is left of the other's names.
fn add_all(
    findings: &mut Series<Seen>,
    alloc: Global,
    side: Side,
    loose: &[Vec<u8>],
    others: &[Vec<u8>],
    own: &[Vec<u8>],
) -> Result<(), AllocError>
    ensures { (xs : List (List ℕ × SeenView)) → findings.old ≡ series_of spec.both_seen xs
        → OnOk result (findings.new ≡ series_of spec.both_seen
        (xs ++ map (spec.seen_entry side (naming.texts loose.now) (naming.texts others.now)) (naming.texts own.now))) }
{
    for at in 0..own.len() {
        add_at(findings, alloc, side, loose, others, own, at)?;
    }
    Ok(())
}

// Adds the findings of a stream, beside those of the other.
fn add_stream(
    findings: &mut Series<Seen>,
    alloc: Global,
    side: Side,
    own: &[Vec<u8>],
    others: &[Vec<u8>],
) -> Result<(), AllocError>
    ensures { (xs : List (List ℕ × SeenView)) → findings.old ≡ series_of spec.both_seen xs
        → OnOk result (findings.new ≡ series_of spec.both_seen (xs ++ spec.seen_entries side (naming.texts own.now) (naming.texts others.now))) }
{
    let loose = loosened(alloc, own, others)?;
    add_all(findings, alloc, side, loose.as_slice(), others, own)?;
    Ok(())
}

/// Which findings two streams have, of which these are the names. They are compared as places are: by themselves if both streams have them, and else but
/// for their numbers.
///
/// The findings of the stream after come first, in its order, then those that it has no more. `AllocError`: there was no memory.
pub fn compare_findings(
    alloc: Global,
    before: &[Vec<u8>],
    after: &[Vec<u8>],
) -> Result<Series<Seen>, AllocError>
    ensures { IfOk result (λ findings. findings ≡ spec.compared_findings (naming.texts before.now) (naming.texts after.now)) }
{
    let mut findings = Series::new(alloc);
    add_stream(&mut findings, alloc, Side::After, after, before)?;
    add_stream(&mut findings, alloc, Side::Before, before, after)?;
    Ok(findings)
}

impl Standing {
    /// Where its lines stand: what is new first, what is still there last.
    pub fn rank(self) -> u8
        ensures { result ≡ spec.rank_of self }
    {
        match self {
            Standing::New => 1,
            Standing::Gone => 2,
            Standing::Still => 3,
        }
    }

    // The first words of its line.
    fn word(self) -> &'static str
        ensures { result.now ≡ spec.word_of self }
    {
        match self {
            Standing::New => "finding new ",
            Standing::Gone => "finding gone ",
            Standing::Still => "finding still ",
        }
    }
}

fn put_line(out: &mut Vec<u8>, word: &str, name: &[u8]) -> Result<(), AllocError>
    ensures { OnOk result (Puts out.old.items out.new.items (word.now ++ (name.now ++ 10 ∷ []))) }
{
    put(out, word.as_bytes())?;
    put(out, name)?;
    put(out, b"\n")?;
    Ok(())
}

// Puts the line of a finding, if it stands at this rank.
fn put_if(out: &mut Vec<u8>, rank: u8, name: &[u8], seen: &Seen) -> Result<(), AllocError>
    ensures { OnOk result (Puts out.old.items out.new.items (spec.finding_at rank (name.now, seen.now))) }
{
    let standing = seen.standing();
    if standing.rank() == rank {
        put_line(out, standing.word(), name)
    } else {
        Ok(())
    }
}

fn put_at(out: &mut Vec<u8>, rank: u8, findings: &Series<Seen>, at: usize) -> Result<(), AllocError>
    ensures { OnOk result (Puts out.old.items out.new.items
        (option_map_or (spec.finding_at rank) (slice_get findings.now at) [])) }
{
    match findings.at(at) {
        Some((name, seen)) => put_if(out, rank, name, &seen),
        None => Ok(()),
    }
}

// Puts the lines of the findings that stand at this rank.
fn put_rank(out: &mut Vec<u8>, rank: u8, findings: &Series<Seen>) -> Result<(), AllocError>
    ensures { OnOk result (Puts out.old.items out.new.items (spec.findings_at findings.now rank)) }
{
    for at in 0..findings.len() {
        put_at(out, rank, findings, at)?;
    }
    Ok(())
}

/// Puts the lines of all findings.
pub(crate) fn put_findings(out: &mut Vec<u8>, findings: &Series<Seen>) -> Result<(), AllocError>
    ensures { OnOk result (Puts out.old.items out.new.items (spec.finding_lines findings.now)) }
{
    put_rank(out, 1, findings)?;
    put_rank(out, 2, findings)?;
    put_rank(out, 3, findings)?;
    Ok(())
}

// Whether the finding that stands there has this rank: then it is one.
fn one_at(findings: &Series<Seen>, rank: u8, at: usize) -> u64
    ensures few { result ≤ 1 }
    ensures one { result ≡ length (filter (λ x. spec.rank_of (spec.standing_of x.1) == rank) (option_map_or (λ x. x ∷ []) (slice_get findings.now at) [])) }
{
    match findings.at(at) {
        Some((_, seen)) => u64::from(seen.standing().rank() == rank),
        None => 0,
    }
}

/// How many findings have this rank.
pub(crate) fn count(findings: &Series<Seen>, rank: u8) -> u64
    ensures { result ≡ spec.findings_count findings.now rank }
{
    let mut sum = 0;
    for at in 0..findings.len() {
        sum += one_at(findings, rank, at);
    }
    sum
}
