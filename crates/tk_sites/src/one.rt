//! One place, with its tasks.
ghost use Rattle.std.specs.Prelude.{◌≡◌, ◌-◌, [], None, IfOk, OnOk, flat_map, is_some, slice_get, string_bytes, if◌then◌else◌};
ghost use Rattle.std.specs.Option.{option_map_or};
ghost use Rattle.tk_report.specs.Pieces.{Puts};
ghost use Rattle.tk_report.specs.Timed as report;
ghost use Rattle.tk_sites.specs.Lines as lines;
ghost use Rattle.tk_sites.specs.One as spec;

use crate::lines::{MORE, first_line, put, put_timed_line, put_warnings, text_of};
use crate::sites_view::SitesView;
use crate::sums::Sums;
use crate::times::SiteTimes;
use std::alloc::{AllocError, Global};
use tk_client::Times;
use tk_odd::place_of;
use tk_report::put_task_lines;
use tk_series::Limited;
use tk_stream::{Tables, Task};

// Whether a task is of the place that stands there, or, past all of them, of none.
fn is_of(
    alloc: Global,
    sites: &Limited<Sums>,
    index: usize,
    task: &Task,
) -> Result<bool, AllocError>
    ensures { IfOk result (λ is. is ≡ spec.is_of sites.now.first index task.now) }
{
    let own = place_of(alloc, &task.info)?;
    match sites.at(index) {
        Some((site, _)) => Ok(own.as_slice() == site),
        None => Ok(!sites.has(own.as_slice())),
    }
}

fn lines_of(alloc: Global, times: &Times, shown: bool, task: &Task) -> Result<String, AllocError>
    ensures { IfOk result (λ text. string_bytes text ≡ report.task_lines shown times.now task.now) }
{
    let mut lines = String::new(alloc);
    put_task_lines(&mut lines, times, shown, task)?;
    Ok(lines)
}

// Puts the lines of a task if it is of a place.
fn put_if(
    out: &mut Vec<u8>,
    alloc: Global,
    times: &Times,
    shown: bool,
    task: &Task,
    is: bool,
) -> Result<(), AllocError>
    ensures { OnOk result (Puts out.old.items out.new.items (if is then report.task_lines shown times.now task.now else [])) }
{
    if is {
        put(out, lines_of(alloc, times, shown, task)?.as_bytes())
    } else {
        Ok(())
    }
}

fn put_task_of(
    out: &mut Vec<u8>,
    alloc: Global,
    sites: &Limited<Sums>,
    index: usize,
    times: &Times,
    shown: bool,
    task: &Task,
) -> Result<(), AllocError>
    ensures { OnOk result (Puts out.old.items out.new.items (spec.lines_if (spec.is_of sites.now.first index) shown times.now task.now)) }
{
    let is = is_of(alloc, sites, index, task)?;
    put_if(out, alloc, times, shown, task, is)
}

fn put_task_at(
    out: &mut Vec<u8>,
    alloc: Global,
    sites: &Limited<Sums>,
    index: usize,
    tables: &Tables,
    times: &Times,
    shown: bool,
    at: usize,
) -> Result<(), AllocError>
    ensures { OnOk result (Puts out.old.items out.new.items
        (option_map_or (spec.lines_if (spec.is_of sites.now.first index) shown times.now) (slice_get tables.now.tasks at) [])) }
{
    match tables.task_at(at) {
        Some(task) => put_task_of(out, alloc, sites, index, times, shown, task),
        None => Ok(()),
    }
}

// Puts the lines of the tasks of a place that are there.
fn put_tasks(
    out: &mut Vec<u8>,
    alloc: Global,
    sites: &Limited<Sums>,
    index: usize,
    tables: &Tables,
    times: &Times,
    shown: bool,
) -> Result<(), AllocError>
    ensures { OnOk result (Puts out.old.items out.new.items
        (flat_map (spec.lines_if (spec.is_of sites.now.first index) shown times.now) tables.now.tasks)) }
{
    for at in 0..tables.task_count() {
        put_task_at(out, alloc, sites, index, tables, times, shown, at)?;
    }
    Ok(())
}

fn put_place(
    out: &mut Vec<u8>,
    alloc: Global,
    sites: &Limited<Sums>,
    number: u64,
    tables: &Tables,
    own: &Times,
    times: &Option<Limited<SiteTimes>>,
    site: &[u8],
    sums: &Sums,
) -> Result<(), AllocError>
    ensures { OnOk result (Puts out.old.items out.new.items
        (spec.place_text (spec.is_of sites.now.first (number - 1)) number tables.now own.now times.now (site.now, sums.now))) }
{
    let index = number.saturating_sub(1) as usize;
    put_timed_line(out, alloc, times, number, site, sums)?;
    put_tasks(out, alloc, sites, index, tables, own, times.is_some())?;
    put_warnings(out, alloc, number, site, sums)?;
    Ok(())
}

// Puts the one place more, if it has this number and is there. No place that stands by itself has it.
fn put_more(
    out: &mut Vec<u8>,
    alloc: Global,
    sites: &Limited<Sums>,
    number: u64,
    tables: &Tables,
    own: &Times,
    times: &Option<Limited<SiteTimes>>,
) -> Result<(), AllocError>
    requires { slice_get sites.now.first (number - 1) ≡ None }
    ensures { OnOk result (Puts out.old.items out.new.items
        (option_map_or (spec.place_text (spec.is_of sites.now.first (number - 1)) number tables.now own.now times.now)
        (slice_get (lines.listed sites.now) (number - 1)) [])) }
{
    match sites.rest() {
        Some(sums) => {
            if number.saturating_sub(1) as usize == sites.len() {
                let site = MORE.as_bytes();
                put_place(out, alloc, sites, number, tables, own, times, site, &sums)
            } else {
                Ok(())
            }
        }
        None => Ok(()),
    }
}

// Puts the place of this number, if there is one.
fn put_numbered(
    out: &mut Vec<u8>,
    alloc: Global,
    sites: &Limited<Sums>,
    number: u64,
    tables: &Tables,
    own: &Times,
    times: &Option<Limited<SiteTimes>>,
) -> Result<(), AllocError>
    ensures { OnOk result (Puts out.old.items out.new.items
        (option_map_or (spec.place_text (spec.is_of sites.now.first (number - 1)) number tables.now own.now times.now)
        (slice_get (lines.listed sites.now) (number - 1)) [])) }
{
    match sites.at(number.saturating_sub(1) as usize) {
        Some((site, sums)) => put_place(out, alloc, sites, number, tables, own, times, site, &sums),
        None => put_more(out, alloc, sites, number, tables, own, times),
    }
}

fn one_text(
    alloc: Global,
    number: u64,
    tables: &Tables,
    own: &Times,
    sites: &Limited<Sums>,
    times: &Option<Limited<SiteTimes>>,
) -> Result<Vec<u8>, AllocError>
    ensures { IfOk result (λ text. text.items ≡ spec.one_text number tables.now own.now sites.now times.now) }
{
    let mut text = Vec::new(alloc);
    put(
        &mut text,
        first_line(alloc, tables, sites.rest())?.as_bytes(),
    )?;
    put_numbered(&mut text, alloc, sites, number, tables, own, times)?;
    Ok(text)
}

/// What is written of the places of tables, by such a view: with the histograms of places, if they are shown, and then also with those of tasks.
pub(crate) fn written(
    alloc: Global,
    view: SitesView,
    tables: &Tables,
    own: &Times,
    sites: &Limited<Sums>,
    times: &Option<Limited<SiteTimes>>,
) -> Result<Vec<u8>, AllocError>
    ensures { IfOk result (λ text. text.items ≡ spec.written view tables.now own.now sites.now times.now) }
{
    match view {
        SitesView::All(view) => text_of(alloc, view, tables, sites, times),
        SitesView::One(number) => one_text(alloc, number, tables, own, sites, times),
    }
}
