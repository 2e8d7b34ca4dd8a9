//! Who holds up whom, family by family.
ghost use Rattle.std.specs.Prelude.{◌≡◌, List, IfOk, OnOk, map, slice_get, []};
ghost use Rattle.std.specs.Option.{option_map_or};
ghost use Rattle.tk_odd.specs.Findings.{placed};
ghost use Rattle.tk_odd.specs.Inner.{Follows as Diagnoses};
ghost use Rattle.tk_report.specs.Pieces.{Puts};
ghost use Rattle.tk_series.specs.Series.{with_value};
ghost use Rattle.tk_stream.specs.Tables.{TablesView};
ghost use Rattle.tk_metrics.specs.Blame as spec;
ghost use Rattle.tk_metrics.specs.Samples.{family as family_text, label, sample};

use crate::by::By;
use crate::family::Family;
use crate::text::{put, put_head, put_label, put_sample};
use std::alloc::{AllocError, Global};
use tk_ids::TaskId;
use tk_odd::{Diagnosis, Finding, Found, Held, Shares, when_word};
use tk_series::{Added, Series};
use tk_stream::Tables;

/// How many tasks findings are about. A sum that passes 2^64 - 1 stays there.
#[derive(Clone, Copy, Debug, PartialEq, Eq)]
pub struct Tally {
    pub tasks: u64,
}

impl Added for Tally {
    ghost use Rattle.tk_metrics.specs.Blame as spec;

    ghost plus = { spec.plus_tally };

    ghost copies = { λ a b e. e };

    fn plus(self, more: Tally) -> Tally {
        Tally {
            tasks: self.tasks.saturating_add(more.tasks),
        }
    }
}

// ---- findings

fn put_task_label(
    out: &mut Vec<u8>,
    alloc: Global,
    by: By,
    task: Option<TaskId>,
) -> Result<(), AllocError>
    ensures { OnOk result (Puts out.old.items out.new.items (spec.task_label by task)) }
{
    match (by, task) {
        (By::Id, Some(task)) => {
            let id = format!(in alloc; "{task}")?;
            put_label(out, "id", id.as_bytes())?;
            put(out, ",")
        }
        _ => Ok(()),
    }
}

fn finding_labels(alloc: Global, by: By, found: &Found) -> Result<Vec<u8>, AllocError>
    ensures { IfOk result (λ labels. labels.items ≡ spec.finding_labels by (placed found.now)) }
{
    let Found { place, finding, .. } = found;
    let mut labels = Vec::new(alloc);
    put_task_label(&mut labels, alloc, by, finding.task)?;
    put_label(&mut labels, "kind", finding.kind.name().as_bytes())?;
    put(&mut labels, ",")?;
    put_label(&mut labels, "when", when_word(finding.is_now).as_bytes())?;
    put(&mut labels, ",")?;
    put_label(&mut labels, "place", place)?;
    Ok(labels)
}

fn tally_of(finding: &Finding) -> Tally
    ensures { result ≡ spec.tally_of finding.now }
{
    Tally {
        tasks: finding.tasks.max(1),
    }
}

fn add_finding(
    series: &mut Series<Tally>,
    alloc: Global,
    by: By,
    found: &Found,
) -> Result<(), AllocError>
    ensures { OnOk result (series.new ≡ with_value spec.plus_tally (spec.finding_entry by (placed found.now)).0 (spec.finding_entry by (placed found.now)).1 series.old) }
{
    series.add(finding_labels(alloc, by, found)?, tally_of(&found.finding))
}

// The series of findings, in their order.
fn series_of_findings(alloc: Global, by: By, list: &[Found]) -> Result<Series<Tally>, AllocError>
    ensures { IfOk result (λ series. series ≡ spec.finding_series by (map placed list.now)) }
{
    let mut series = Series::new(alloc);
    for found in list {
        add_finding(&mut series, alloc, by, found)?;
    }
    Ok(series)
}

fn put_finding_at(out: &mut Vec<u8>, series: &Series<Tally>, place: usize) -> Result<(), AllocError>
    ensures { OnOk result (Puts out.old.items out.new.items
        (option_map_or spec.finding_sample (slice_get series.now place) [])) }
{
    match series.at(place) {
        Some((labels, tally)) => put_sample(out, Family::Findings, labels, tally.tasks),
        None => Ok(()),
    }
}

fn put_series(out: &mut Vec<u8>, series: &Series<Tally>) -> Result<(), AllocError>
    ensures { OnOk result (Puts out.old.items out.new.items (family_text Family.Findings spec.finding_sample series.now)) }
{
    put_head(out, Family::Findings)?;
    for place in 0..series.len() {
        put_finding_at(out, series, place)?;
    }
    Ok(())
}

fn put_findings(out: &mut Vec<u8>, alloc: Global, by: By, list: &[Found]) -> Result<(), AllocError>
    ensures { OnOk result (Puts out.old.items out.new.items
        (family_text Family.Findings spec.finding_sample (spec.finding_series by (map placed list.now)))) }
{
    let series = series_of_findings(alloc, by, list)?;
    put_series(out, &series)
}

// ---- what was waited

// Puts a sample of one label.
fn put_labelled(
    out: &mut Vec<u8>,
    alloc: Global,
    family: Family,
    key: &str,
    value: &[u8],
    nanos: u64,
) -> Result<(), AllocError>
    ensures { OnOk result (Puts out.old.items out.new.items (sample family (label key.now value.now, nanos))) }
{
    let mut labels = Vec::new(alloc);
    put_label(&mut labels, key, value)?;
    put_sample(out, family, labels.as_slice(), nanos)
}

fn put_held_at(
    out: &mut Vec<u8>,
    alloc: Global,
    held: &Series<Held>,
    i: usize,
) -> Result<(), AllocError>
    ensures { OnOk result (Puts out.old.items out.new.items
        (option_map_or spec.held_sample (slice_get held.now i) [])) }
{
    match held.at(i) {
        Some((place, held)) => {
            put_labelled(out, alloc, Family::HeldUp, "place", place, held.charged)
        }
        None => Ok(()),
    }
}

fn put_held(out: &mut Vec<u8>, alloc: Global, held: &Series<Held>) -> Result<(), AllocError>
    ensures { OnOk result (Puts out.old.items out.new.items (family_text Family.HeldUp spec.held_sample held.now)) }
{
    put_head(out, Family::HeldUp)?;
    for i in 0..held.len() {
        put_held_at(out, alloc, held, i)?;
    }
    Ok(())
}

fn put_waited_for(
    out: &mut Vec<u8>,
    alloc: Global,
    what: &str,
    nanos: u64,
) -> Result<(), AllocError>
    ensures { OnOk result (Puts out.old.items out.new.items (spec.waited_sample what.now nanos)) }
{
    put_labelled(out, alloc, Family::Waited, "for", what.as_bytes(), nanos)
}

fn put_waited(out: &mut Vec<u8>, alloc: Global, shares: Shares) -> Result<(), AllocError>
    ensures { OnOk result (Puts out.old.items out.new.items (spec.waited_family shares)) }
{
    put_head(out, Family::Waited)?;
    put_waited_for(out, alloc, "long-polls", shares.charged)?;
    put_waited_for(out, alloc, "queue", shares.queued)?;
    put_waited_for(out, alloc, "nobody", shares.nobody)?;
    Ok(())
}

// ---- the families

// Puts what is odd.
fn put_odd(
    out: &mut Vec<u8>,
    alloc: Global,
    by: By,
    diagnosis: &Diagnosis,
    tables: &Tables,
) -> Result<(), AllocError>
    ensures { (shown : List TablesView) → Diagnoses shown diagnosis.now
        → OnOk result (Puts out.old.items out.new.items
        (family_text Family.Findings spec.finding_sample (spec.finding_series by (spec.blame_in diagnosis.now.limits shown tables.now).findings))) }
{
    let list = diagnosis.findings(alloc, tables)?;
    put_findings(out, alloc, by, &list)
}

/// Puts the families that tell who holds up whom.
pub(crate) fn put_blame(
    out: &mut Vec<u8>,
    alloc: Global,
    by: By,
    diagnosis: &Diagnosis,
    tables: &Tables,
) -> Result<(), AllocError>
    ensures { (shown : List TablesView) → Diagnoses shown diagnosis.now
        → OnOk result (Puts out.old.items out.new.items (spec.blame_families by (spec.blame_in diagnosis.now.limits shown tables.now))) }
{
    put_odd(out, alloc, by, diagnosis, tables)?;
    put_held(out, alloc, diagnosis.held())?;
    put_waited(out, alloc, diagnosis.shares())?;
    Ok(())
}
