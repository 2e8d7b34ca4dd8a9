//! The lines of places, each put after what is written.
ghost use Rattle.std.specs.Prelude.{◌≡◌, ◌+◌, ◌<◌, ◌^◌, ◌∷◌, ◌++◌, [], codes, decimal, IfOk, OnOk, slice_get, string_bytes};
ghost use Rattle.std.specs.Option.{option_map_or};
ghost use Rattle.tk_ids.specs.Ids.{id_text};
ghost use Rattle.tk_report.specs.Pieces.{Puts, spaced};
ghost use Rattle.tk_report.specs.Report as report;
ghost use Rattle.tk_sites.specs.Lines as spec;

use crate::below::put_below;
use crate::sums::Sums;
use crate::times::SiteTimes;
use crate::warned::{Warned, Warnings};
use std::alloc::{AllocError, Global};
use tk_ids::{Dropped, TaskId};
use tk_report::View;
use tk_series::Limited;
use tk_stream::Tables;

pub(crate) fn put(out: &mut Vec<u8>, text: &[u8]) -> Result<(), AllocError>
    ensures { OnOk result (Puts out.old.items out.new.items text.now) }
{
    out.extend_from_slice(text)
}

// The place of all tasks that are of none by itself.
pub(crate) const MORE: &str = "- at - name (others)";

/// The text of the one place more, of all tasks that are of none by itself.
pub fn more_site() -> &'static str
    ensures { result.now ≡ spec.more_site }
{
    MORE
}

// The first line if each place stands by itself.
fn heading(alloc: Global, tables: &Tables) -> Result<String, AllocError>
    ensures { IfOk result (λ text. string_bytes text ≡ report.heading tables.now) }
{
    let now = tables.now();
    let Dropped {
        tasks,
        resources,
        ops,
    } = tables.dropped();
    format!(in alloc; "now {now} dropped {tasks} {resources} {ops}\n")
}

// And if so many tasks are of no place by itself.
fn heading_with(alloc: Global, tables: &Tables, more: u64) -> Result<String, AllocError>
    ensures { IfOk result (λ text. string_bytes text ≡ spec.heading_with tables.now more) }
{
    let now = tables.now();
    let Dropped {
        tasks,
        resources,
        ops,
    } = tables.dropped();
    format!(in alloc; "now {now} dropped {tasks} {resources} {ops} more {more}\n")
}

pub(crate) fn first_line(
    alloc: Global,
    tables: &Tables,
    rest: Option<Sums>,
) -> Result<String, AllocError>
    ensures { IfOk result (λ text. string_bytes text ≡ spec.first_line tables.now rest) }
{
    match rest {
        Some(sums) => heading_with(alloc, tables, sums.tasks),
        None => heading(alloc, tables),
    }
}

// The number of a place, and how many of its tasks came.
fn head_of(alloc: Global, number: u64, tasks: u64) -> Result<String, AllocError>
    ensures { IfOk result (λ text. string_bytes text
        ≡ codes "place" ++ spaced (decimal number ∷ codes "tasks" ∷ decimal tasks ∷ [])) }
{
    format!(in alloc; "place {number} tasks {tasks}")
}

fn states_of(alloc: Global, sums: &Sums) -> Result<String, AllocError>
    ensures { IfOk result (λ text. string_bytes text ≡ spaced (spec.state_words sums.now)) }
{
    let Sums {
        idle,
        scheduled,
        polling,
        closed,
        left,
        ..
    } = *sums;
    format!(in alloc;
        " idle {idle} scheduled {scheduled} polling {polling} closed {closed} left {left}"
    )
}

fn counts_of(alloc: Global, sums: &Sums) -> Result<String, AllocError>
    ensures { IfOk result (λ text. string_bytes text ≡ spaced (spec.count_words sums.now)) }
{
    let Sums {
        polls,
        wakes,
        own,
        clones,
        drops,
        ..
    } = *sums;
    format!(in alloc; " polls {polls} wakes {wakes} self {own} clones {clones} drops {drops}")
}

fn times_of(alloc: Global, sums: &Sums) -> Result<String, AllocError>
    ensures { IfOk result (λ text. string_bytes text ≡ spaced (spec.time_words sums.now)) }
{
    let Sums { busy, sched, .. } = *sums;
    format!(in alloc; " busy {busy} sched {sched}")
}

// A place, and the line's end.
fn put_site(out: &mut Vec<u8>, site: &[u8]) -> Result<(), AllocError>
    ensures { OnOk result (Puts out.old.items out.new.items (report.rest_of_line (spec.place_words site.now))) }
{
    put(out, b" kind ")?;
    put(out, site)?;
    put(out, b"\n")
}

/// Puts the line of a place.
pub(crate) fn put_line(
    out: &mut Vec<u8>,
    alloc: Global,
    number: u64,
    site: &[u8],
    sums: &Sums,
) -> Result<(), AllocError>
    ensures { OnOk result (Puts out.old.items out.new.items (spec.site_line number (site.now, sums.now))) }
{
    put(out, head_of(alloc, number, sums.tasks)?.as_bytes())?;
    put(out, states_of(alloc, sums)?.as_bytes())?;
    put(out, counts_of(alloc, sums)?.as_bytes())?;
    put(out, times_of(alloc, sums)?.as_bytes())?;
    put_site(out, site)?;
    Ok(())
}

/// Puts the line of a place, and its histograms below it, if they are shown.
pub(crate) fn put_timed_line(
    out: &mut Vec<u8>,
    alloc: Global,
    times: &Option<Limited<SiteTimes>>,
    number: u64,
    site: &[u8],
    sums: &Sums,
) -> Result<(), AllocError>
    ensures { OnOk result (Puts out.old.items out.new.items (spec.timed_line times.now number (site.now, sums.now))) }
{
    put_line(out, alloc, number, site, sums)?;
    put_below(out, alloc, times, number.saturating_sub(1) as usize)?;
    Ok(())
}

// Puts the lines of the place that stands there.
fn put_line_at(
    out: &mut Vec<u8>,
    alloc: Global,
    sites: &Limited<Sums>,
    times: &Option<Limited<SiteTimes>>,
    at: usize,
) -> Result<(), AllocError>
    requires { at + 1 < 2 ^ 64 }
    ensures { OnOk result (Puts out.old.items out.new.items
        (option_map_or (spec.timed_line times.now (at + 1)) (slice_get sites.now.first at) [])) }
{
    match sites.at(at) {
        Some((site, sums)) => put_timed_line(out, alloc, times, at as u64 + 1, site, &sums),
        None => Ok(()),
    }
}

fn put_own_lines(
    out: &mut Vec<u8>,
    alloc: Global,
    sites: &Limited<Sums>,
    times: &Option<Limited<SiteTimes>>,
) -> Result<(), AllocError>
    ensures { OnOk result (Puts out.old.items out.new.items (spec.numbered (spec.timed_line times.now) 1 sites.now.first)) }
{
    for at in 0..sites.len() {
        put_line_at(out, alloc, sites, times, at)?;
    }
    Ok(())
}

// Puts the lines of the one place more, if there is one.
fn put_more_line(
    out: &mut Vec<u8>,
    alloc: Global,
    times: &Option<Limited<SiteTimes>>,
    number: u64,
    rest: Option<Sums>,
) -> Result<(), AllocError>
    ensures { OnOk result (Puts out.old.items out.new.items
        (option_map_or (λ sums. spec.timed_line times.now number (spec.more_site, sums)) rest [])) }
{
    match rest {
        Some(sums) => put_timed_line(out, alloc, times, number, MORE.as_bytes(), &sums),
        None => Ok(()),
    }
}

fn put_lines(
    out: &mut Vec<u8>,
    alloc: Global,
    sites: &Limited<Sums>,
    times: &Option<Limited<SiteTimes>>,
) -> Result<(), AllocError>
    ensures { OnOk result (Puts out.old.items out.new.items (spec.numbered (spec.timed_line times.now) 1 (spec.listed sites.now))) }
{
    put_own_lines(out, alloc, sites, times)?;
    put_more_line(out, alloc, times, sites.len() as u64 + 1, sites.rest())?;
    Ok(())
}

// What stands before the place in a line of warnings.
fn warned_words(
    alloc: Global,
    number: u64,
    kind: &str,
    tasks: u64,
    task: TaskId,
) -> Result<String, AllocError>
    ensures { IfOk result (λ text. string_bytes text
        ≡ codes "warn-place" ++ spaced (decimal number ∷ kind.now ∷ decimal tasks ∷ codes "first" ∷ id_text task ∷ [])) }
{
    format!(in alloc; "warn-place {number} {kind} {tasks} first {task}")
}

fn put_warned_line(
    out: &mut Vec<u8>,
    alloc: Global,
    number: u64,
    kind: &str,
    site: &[u8],
    tasks: u64,
    task: TaskId,
) -> Result<(), AllocError>
    ensures { OnOk result (Puts out.old.items out.new.items (report.line (codes "warn-place")
        ((decimal number ∷ kind.now ∷ decimal tasks ∷ codes "first" ∷ id_text task ∷ []) ++ spec.place_words site.now))) }
{
    put(
        out,
        warned_words(alloc, number, kind, tasks, task)?.as_bytes(),
    )?;
    put_site(out, site)?;
    Ok(())
}

// The line of the tasks of a place that have a warning of one kind, if there are any.
fn put_warned(
    out: &mut Vec<u8>,
    alloc: Global,
    number: u64,
    kind: &str,
    site: &[u8],
    warned: Warned,
) -> Result<(), AllocError>
    ensures { OnOk result (Puts out.old.items out.new.items (spec.warned_line number kind.now site.now warned)) }
{
    match warned.first {
        Some(task) => put_warned_line(out, alloc, number, kind, site, warned.tasks, task),
        None => Ok(()),
    }
}

pub(crate) fn put_warnings(
    out: &mut Vec<u8>,
    alloc: Global,
    number: u64,
    site: &[u8],
    sums: &Sums,
) -> Result<(), AllocError>
    ensures { OnOk result (Puts out.old.items out.new.items (spec.warned_lines number (site.now, sums.now))) }
{
    let Warnings {
        self_wakes,
        lost_waker,
        never_yielded,
        long_poll,
        long_wait,
    } = sums.warnings;
    put_warned(out, alloc, number, "self-wakes", site, self_wakes)?;
    put_warned(out, alloc, number, "lost-waker", site, lost_waker)?;
    put_warned(out, alloc, number, "never-yielded", site, never_yielded)?;
    put_warned(out, alloc, number, "long-poll", site, long_poll)?;
    put_warned(out, alloc, number, "long-wait", site, long_wait)?;
    Ok(())
}

// Puts the warnings of the place that stands there.
fn put_warnings_at(
    out: &mut Vec<u8>,
    alloc: Global,
    sites: &Limited<Sums>,
    at: usize,
) -> Result<(), AllocError>
    requires { at + 1 < 2 ^ 64 }
    ensures { OnOk result (Puts out.old.items out.new.items
        (option_map_or (spec.warned_lines (at + 1)) (slice_get sites.now.first at) [])) }
{
    match sites.at(at) {
        Some((site, sums)) => put_warnings(out, alloc, at as u64 + 1, site, &sums),
        None => Ok(()),
    }
}

fn put_own_warnings(
    out: &mut Vec<u8>,
    alloc: Global,
    sites: &Limited<Sums>,
) -> Result<(), AllocError>
    ensures { OnOk result (Puts out.old.items out.new.items (spec.numbered spec.warned_lines 1 sites.now.first)) }
{
    for at in 0..sites.len() {
        put_warnings_at(out, alloc, sites, at)?;
    }
    Ok(())
}

// Puts the warnings of the one place more, if there is one.
fn put_more_warnings(
    out: &mut Vec<u8>,
    alloc: Global,
    number: u64,
    rest: Option<Sums>,
) -> Result<(), AllocError>
    ensures { OnOk result (Puts out.old.items out.new.items
        (option_map_or (λ sums. spec.warned_lines number (spec.more_site, sums)) rest [])) }
{
    match rest {
        Some(sums) => put_warnings(out, alloc, number, MORE.as_bytes(), &sums),
        None => Ok(()),
    }
}

/// Puts the lines of warnings of all places.
pub(crate) fn put_all_warnings(
    out: &mut Vec<u8>,
    alloc: Global,
    sites: &Limited<Sums>,
) -> Result<(), AllocError>
    ensures { OnOk result (Puts out.old.items out.new.items (spec.numbered spec.warned_lines 1 (spec.listed sites.now))) }
{
    put_own_warnings(out, alloc, sites)?;
    put_more_warnings(out, alloc, sites.len() as u64 + 1, sites.rest())?;
    Ok(())
}

// The first line, and the lines of each place.
fn put_report(
    out: &mut Vec<u8>,
    alloc: Global,
    tables: &Tables,
    sites: &Limited<Sums>,
    times: &Option<Limited<SiteTimes>>,
) -> Result<(), AllocError>
    ensures { OnOk result (Puts out.old.items out.new.items
        (spec.first_line tables.now sites.now.rest ++ spec.numbered (spec.timed_line times.now) 1 (spec.listed sites.now))) }
{
    put(out, first_line(alloc, tables, sites.rest())?.as_bytes())?;
    put_lines(out, alloc, sites, times)?;
    Ok(())
}

/// What is written of the places of tables.
pub(crate) fn text_of(
    alloc: Global,
    view: View,
    tables: &Tables,
    sites: &Limited<Sums>,
    times: &Option<Limited<SiteTimes>>,
) -> Result<Vec<u8>, AllocError>
    ensures { IfOk result (λ text. text.items ≡ spec.sites_text view tables.now sites.now times.now) }
{
    let mut text = Vec::new(alloc);
    match view {
        View::Report => put_report(&mut text, alloc, tables, sites, times)?,
        View::Lint => {}
    }
    put_all_warnings(&mut text, alloc, sites)?;
    Ok(text)
}
