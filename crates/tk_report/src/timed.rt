//! The report of tables with what is known of how long polls ran and waits took.
ghost use Rattle.std.specs.Prelude.{◌≡◌, [], OnOk, IfOk, slice_get, string_bytes, flat_map, if◌then◌else◌};
ghost use Rattle.std.specs.Option.{option_map_or};
ghost use Rattle.tk_report.specs.Pieces.{Puts};
ghost use Rattle.tk_report.specs.Timed as spec;

use crate::lines::{put_heading, put_task};
use crate::reporting::{put_ops, put_resources};
use crate::times::{put_any_warning, put_below};
use std::alloc::{AllocError, Global};
use tk_client::AnyWarning;
use tk_ids::TaskId;
use tk_stream::{PollTimes, Table, Tables, Task};

fn put_below_if(
    out: &mut String,
    times: &Table<(TaskId, PollTimes)>,
    shown: bool,
    task: &Task,
) -> Result<(), AllocError>
    ensures { OnOk result (Puts (string_bytes out.old) (string_bytes out.new)
        (if shown then spec.below times.now task.now else [])) }
{
    if shown {
        put_below(out, times, task)
    } else {
        Ok(())
    }
}

/// Puts the line of a task, and below it, if they are shown, how long its polls ran and how long it waited, as far as these histograms say it.
/// `AllocError`: there was no memory, and a front of it was put.
pub fn put_task_lines(
    out: &mut String,
    times: &Table<(TaskId, PollTimes)>,
    shown: bool,
    task: &Task,
) -> Result<(), AllocError>
    ensures { OnOk result (Puts (string_bytes out.old) (string_bytes out.new) (spec.task_lines shown times.now task.now)) }
{
    put_task(out, task)?;
    put_below_if(out, times, shown, task)?;
    Ok(())
}

fn put_task_lines_at(
    out: &mut String,
    tables: &Tables,
    times: &Table<(TaskId, PollTimes)>,
    shown: bool,
    place: usize,
) -> Result<(), AllocError>
    ensures { OnOk result (Puts (string_bytes out.old) (string_bytes out.new)
        (option_map_or (spec.task_lines shown times.now) (slice_get tables.now.tasks place) [])) }
{
    match tables.task_at(place) {
        Some(task) => put_task_lines(out, times, shown, task),
        None => Ok(()),
    }
}

fn put_timed_tasks(
    out: &mut String,
    tables: &Tables,
    times: &Table<(TaskId, PollTimes)>,
    shown: bool,
) -> Result<(), AllocError>
    ensures { OnOk result (Puts (string_bytes out.old) (string_bytes out.new)
        (flat_map (spec.task_lines shown times.now) tables.now.tasks)) }
{
    for place in 0..tables.task_count() {
        put_task_lines_at(out, tables, times, shown, place)?;
    }
    Ok(())
}

fn put_any_warnings(
    out: &mut String,
    tables: &Tables,
    warnings: &[AnyWarning],
) -> Result<(), AllocError>
    ensures { OnOk result (Puts (string_bytes out.old) (string_bytes out.new)
        (spec.any_warn_lines tables.now warnings.now)) }
{
    for warning in warnings {
        put_any_warning(out, tables, warning)?;
    }
    Ok(())
}

fn put_timed_report(
    out: &mut String,
    tables: &Tables,
    times: &Table<(TaskId, PollTimes)>,
    shown: bool,
    warnings: &[AnyWarning],
) -> Result<(), AllocError>
    ensures { OnOk result (Puts (string_bytes out.old) (string_bytes out.new)
        (spec.timed_report_with shown tables.now times.now warnings.now)) }
{
    put_heading(out, tables)?;
    put_timed_tasks(out, tables, times, shown)?;
    put_resources(out, tables)?;
    put_ops(out, tables)?;
    put_any_warnings(out, tables, warnings)?;
    Ok(())
}

/// The lines of these warnings.
pub(crate) fn lines_of_any_warnings(
    alloc: Global,
    tables: &Tables,
    warnings: &[AnyWarning],
) -> Result<Vec<u8>, AllocError>
    ensures { IfOk result (λ text. text.items ≡ spec.any_warn_lines tables.now warnings.now) }
{
    let mut out = String::new(alloc);
    put_any_warnings(&mut out, tables, warnings)?;
    Ok(out.into_bytes())
}

/// The report of tables with these warnings, and with what histograms say of poll times and waits if they are shown. With no warnings it is the
/// report without warning lines. `AllocError`: there was no memory.
pub fn timed_report_with(
    alloc: Global,
    tables: &Tables,
    times: &Table<(TaskId, PollTimes)>,
    shown: bool,
    warnings: &[AnyWarning],
) -> Result<Vec<u8>, AllocError>
    ensures { IfOk result (λ text. text.items ≡ spec.timed_report_with shown tables.now times.now warnings.now) }
{
    let mut out = String::new(alloc);
    put_timed_report(&mut out, tables, times, shown, warnings)?;
    Ok(out.into_bytes())
}
