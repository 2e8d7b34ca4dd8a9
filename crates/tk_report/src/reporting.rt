//! The report of tables, line by line.
ghost use Rattle.std.specs.Prelude.{◌≡◌, [], OnOk, IfOk, IfErr, slice_get, string_bytes, flat_map};
ghost use Rattle.std.specs.Option.{option_map_or};
ghost use Rattle.tk_report.specs.Pieces.{Puts};
ghost use Rattle.tk_report.specs.Report as spec;

use crate::lines::{put_op, put_resource};
use crate::timed::timed_report_with;
use std::alloc::{AllocError, Global};
use tk_client::{Lints, TimeLimits, all_warnings_in};
use tk_fault::AppFault;
use tk_stream::{Table, Tables};

fn put_resource_at(out: &mut String, tables: &Tables, place: usize) -> Result<(), AllocError>
    ensures { OnOk result (Puts (string_bytes out.old) (string_bytes out.new)
        (option_map_or (spec.resource_lines tables.now.counts) (slice_get tables.now.resources place) [])) }
{
    match tables.resource_at(place) {
        Some(resource) => put_resource(out, resource, tables.poll_counts(resource.info.id)),
        None => Ok(()),
    }
}

/// The lines of all resources.
pub(crate) fn put_resources(out: &mut String, tables: &Tables) -> Result<(), AllocError>
    ensures { OnOk result (Puts (string_bytes out.old) (string_bytes out.new)
        (flat_map (spec.resource_lines tables.now.counts) tables.now.resources)) }
{
    for place in 0..tables.resource_count() {
        put_resource_at(out, tables, place)?;
    }
    Ok(())
}

fn put_op_at(out: &mut String, tables: &Tables, place: usize) -> Result<(), AllocError>
    ensures { OnOk result (Puts (string_bytes out.old) (string_bytes out.new)
        (option_map_or spec.op_lines (slice_get tables.now.ops place) [])) }
{
    match tables.op_at(place) {
        Some(op) => put_op(out, op),
        None => Ok(()),
    }
}

/// The lines of all async operations.
pub(crate) fn put_ops(out: &mut String, tables: &Tables) -> Result<(), AllocError>
    ensures { OnOk result (Puts (string_bytes out.old) (string_bytes out.new)
        (flat_map spec.op_lines tables.now.ops)) }
{
    for place in 0..tables.op_count() {
        put_op_at(out, tables, place)?;
    }
    Ok(())
}

/// The report of tables: a line with the moment and what was dropped; a line for each task; for each resource and each async
/// operation a line, and one for each of its attributes; and a line for each warning. `docs/FORMATS.md` has their words.
///
/// Its one error is `Memory`.
pub fn report(alloc: Global, tables: &Tables, lints: &Lints) -> Result<Vec<u8>, AppFault>
    ensures ok { IfOk result (λ text. text.items ≡ spec.report_of lints.now tables.now) }
    ensures memory { IfErr result (λ fault. fault ≡ AppFault.Memory) }
{
    let times = Table::new(alloc);
    let Ok(warnings) = all_warnings_in(alloc, tables, &times, lints, &TimeLimits::none()) else {
        return Err(AppFault::Memory);
    };
    match timed_report_with(alloc, tables, &times, false, warnings.as_slice()) {
        Ok(text) => Ok(text),
        Err(_) => Err(AppFault::Memory),
    }
}
