//! The text of a stream's numbers.
ghost use Rattle.std.specs.Prelude.{◌≡◌, List, IfOk, IfErr};
ghost use Rattle.tk_odd.specs.Inner.{Follows as Diagnoses};
ghost use Rattle.tk_stream.specs.Tables.{TablesView};
ghost use Rattle.tk_metrics.specs.Blame.{blame_in};
ghost use Rattle.tk_metrics.specs.Leaving.{Holds};
ghost use Rattle.tk_metrics.specs.Metrics as spec;

use crate::blame::put_blame;
use crate::by::By;
use crate::keys::Keys;
use crate::left::Left;
use crate::sums::{add_resources, add_tasks};
use crate::text::{put, put_bytes};
use crate::writing::{put_others, put_text};
use std::alloc::{AllocError, Global};
use tk_client::{Lints, Warning, warnings_in};
use tk_fault::AppFault;
use tk_odd::Diagnosis;
use tk_stream::Tables;

/// The numbers of tables with these warnings, with further families after them.
pub(crate) fn metrics_with(
    alloc: Global,
    keys: &Keys,
    tables: &Tables,
    warnings: &[Warning],
    left: Left,
    diagnosis: &Diagnosis,
    lines: u64,
    more: &[u8],
) -> Result<Vec<u8>, AllocError>
    ensures { (gone : spec.Gone) (shown : List TablesView) → Holds gone left → Diagnoses shown diagnosis.now
        → IfOk result (λ text. text.items ≡ spec.metrics_with keys.now tables.now warnings.now gone (blame_in diagnosis.now.limits shown tables.now) lines more.now) }
{
    let Left {
        mut tasks,
        mut resources,
    } = left;
    add_tasks(&mut tasks, alloc, keys, tables)?;
    add_resources(&mut resources, alloc, tables)?;
    let mut text = Vec::new(alloc);
    put_text(
        &mut text,
        alloc,
        &tasks,
        &resources,
        warnings,
        tables.dropped(),
        lines,
        tables.now(),
    )?;
    put_others(&mut text, keys)?;
    put_blame(&mut text, alloc, keys.by(), diagnosis, tables)?;
    put_bytes(&mut text, more)?;
    put(&mut text, "# EOF\n")?;
    Ok(text)
}

/// The numbers of a stream as the text that Prometheus reads: of its tables, of what has left them, of what is odd, and of how many lines it has.
/// They are without histograms, which only who reads a stream sees. `docs/FORMATS.md` has the families.
///
/// Its one error is `Memory`.
pub fn metrics(
    alloc: Global,
    by: By,
    lints: &Lints,
    tables: &Tables,
    left: Left,
    diagnosis: &Diagnosis,
    lines: u64,
) -> Result<Vec<u8>, AppFault>
    ensures ok { (gone : spec.Gone) (shown : List TablesView) → Holds gone left → Diagnoses shown diagnosis.now
        → IfOk result (λ text. text.items ≡ spec.metrics_text by lints.now tables.now gone (blame_in diagnosis.now.limits shown tables.now) lines) }
    ensures memory { IfErr result (λ fault. fault ≡ AppFault.Memory) }
{
    let Ok(warnings) = warnings_in(alloc, tables, lints) else {
        return Err(AppFault::Memory);
    };
    let warnings = warnings.as_slice();
    let keys = Keys::endless(by);
    match metrics_with(alloc, &keys, tables, warnings, left, diagnosis, lines, b"") {
        Ok(text) => Ok(text),
        Err(_) => Err(AppFault::Memory),
    }
}
