//! What is written of two streams.
ghost use Rattle.std.specs.Prelude.{◌≡◌, IfOk, IfErr};
ghost use Rattle.tk_report.specs.Views.{IsOfWriter};
ghost use Rattle.tk_compare.specs.Found.{compared_findings};
ghost use Rattle.tk_compare.specs.Recorded.{names_kept};
ghost use Rattle.tk_compare.specs.Views as spec;

use crate::change::{Margin, Spans};
use crate::found::{Seen, compare_findings};
use crate::places::compare_places;
use crate::recorded::Recorded;
use crate::text::{comparison_text, worse_count};
use std::alloc::{AllocError, Global};
use std::io::Write;
use tk_fault::AppFault;
use tk_series::Series;
use tk_stream::send;

/// How long two streams took.
pub fn spans_of(before: &Recorded, after: &Recorded) -> Spans
    ensures { result ≡ spec.spans_of before.now after.now }
{
    Spans {
        before: before.span,
        after: after.span,
    }
}

/// Which findings two streams have, by their names. `AllocError`: there was no memory.
pub fn findings_of_both(
    alloc: Global,
    before: &Recorded,
    after: &Recorded,
) -> Result<Series<Seen>, AllocError>
    ensures { IfOk result (λ findings. findings ≡ compared_findings (names_kept before.now) (names_kept after.now)) }
{
    let old = before.findings.as_slice();
    let new = after.findings.as_slice();
    let findings = compare_findings(alloc, old, new)?;
    Ok(findings)
}

// What is written of both, and how much got worse.
fn compared_now(
    alloc: Global,
    before: &Recorded,
    after: &Recorded,
    margin: Margin,
) -> Result<(Vec<u8>, u64), AllocError>
    ensures text { IfOk result (λ r. r.0.items ≡ spec.text_of margin before.now after.now) }
    ensures worse { IfOk result (λ r. r.1 ≡ spec.worse_of margin before.now after.now) }
{
    let spans = spans_of(before, after);
    let places = compare_places(alloc, before, after)?;
    let findings = findings_of_both(alloc, before, after)?;
    let text = comparison_text(alloc, margin, spans, &places, &findings)?;
    let worse = worse_count(margin, spans, &places, &findings);
    Ok((text, worse))
}

/// Writes what changed from a stream to a later one, and answers how much got worse: places that are worse, and findings that are new. A sentence
/// comes first, then a line for each finding, then one for each place that changed. `docs/formats/comparison.md` has the words.
///
/// The text is made whole before its first byte is written.
///
/// - `Memory`: there was no memory for the comparison or the text. Nothing was written.
/// - `Write`: the writer failed. A proper front of the text went out.
pub fn compare_recorded<W: Write>(
    alloc: Global,
    before: &Recorded,
    after: &Recorded,
    margin: Margin,
    writer: &mut W,
) -> Result<u64, AppFault>
    ensures compares { spec.Compares margin before.now after.now result (W.contents writer.old) (W.contents writer.new) }
    // Only a writer's fault comes once something was written.
    ensures unwritten { IfErr result (λ fault. (IsOfWriter fault → ⊥) → writer.new ≡ writer.old) }
{
    let Ok((text, worse)) = compared_now(alloc, before, after, margin) else {
        return Err(AppFault::Memory);
    };
    match send(writer, text.as_slice()) {
        Ok(()) => Ok(worse),
        Err(_) => Err(AppFault::Write),
    }
}
