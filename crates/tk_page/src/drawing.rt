//! The page between its frame: the head, what is odd, the tasks, the resources.
ghost use Rattle.std.specs.Prelude.{◌≡◌, OnOk};
ghost use Rattle.tk_page.specs.Drawn as drawn;
ghost use Rattle.tk_page.specs.Heads as spec;
ghost use Rattle.tk_page.specs.Courses.{courses_of};
ghost use Rattle.tk_paper.specs.Pieces.{Writes};

use crate::banner::put_banner;
use crate::blamed::Blamed;
use crate::cards::put_odd;
use crate::figures::{Scale, count};
use crate::history::History;
use crate::oddities::Signs;
use crate::resources::put_resources;
use crate::sites::put_sites;
use crate::tasks::put_tasks;
use crate::waiting::any_waits_from_last_wake;
use std::alloc::{AllocError, Global};
use tk_ids::Dropped;
use tk_odd::Held;
use tk_paper::Part::{Class, Close, Count, End, Open, Span, Start, Text, WithNumber};
use tk_paper::{Attr, Paper, Tag};
use tk_series::{Limited, Series};
use tk_sites::{SiteTimes, Sums};
use tk_stream::Tables;

// The moment at the page's left: the first line's, or that of the earliest creation of a task.
fn start_of(first: u64, tables: &Tables) -> u64
    ensures { result ≡ spec.start_of first tables.now.tasks }
{
    let mut start = first;
    for place in 0..tables.task_count() {
        if let Some(task) = tables.task_at(place) {
            start = start.min(task.row.created);
        }
    }
    start
}

/// Puts a number, and what it counts: one of them, or more.
pub(crate) fn put_fact(
    paper: &mut Paper,
    number: u64,
    one: &'static str,
    many: &'static str,
) -> Result<(), AllocError>
    ensures { OnOk result (Writes paper.old paper.new (spec.fact number one.now many.now)) }
{
    paper.put(&[
        Start(Tag::B),
        Count(number),
        Close(Tag::B),
        Text(if number == 1 { one } else { many }),
    ])
}

// Puts how many tasks have left, where any have.
fn put_gone(paper: &mut Paper, gone: u64) -> Result<(), AllocError>
    ensures { OnOk result (Writes paper.old paper.new (spec.gone_fact gone)) }
{
    if gone == 0 {
        return paper.put(&[]);
    }
    paper.put(&[Text(" · ")])?;
    put_fact(
        paper,
        gone,
        " task closed and gone",
        " tasks closed and gone",
    )?;
    Ok(())
}

fn put_facts(paper: &mut Paper, watched: u64, lines: u64, tables: &Tables) -> Result<(), AllocError>
    ensures { OnOk result (Writes paper.old paper.new (spec.facts watched lines tables.now)) }
{
    let (tasks, resources, ops) = (
        tables.task_count(),
        tables.resource_count(),
        tables.op_count(),
    );
    put_fact(paper, count(tasks), " task · ", " tasks · ")?;
    put_fact(paper, count(resources), " resource · ", " resources · ")?;
    put_fact(paper, count(ops), " operation · ", " operations · ")?;
    put_fact(paper, lines, " line over ", " lines over ")?;
    paper.put(&[
        Open(Tag::B),
        WithNumber(Attr::DataV, tables.now()),
        End,
        Span(watched),
        Close(Tag::B),
    ])?;
    Ok(())
}

fn put_dropped(paper: &mut Paper, dropped: Dropped) -> Result<(), AllocError>
    ensures { OnOk result (Writes paper.old paper.new (spec.dropped_facts dropped)) }
{
    paper.put(&[
        Class(Tag::P, "missing"),
        Text("Not all is here. Events were dropped: "),
    ])?;
    put_fact(paper, dropped.tasks, " of a task, ", " of tasks, ")?;
    put_fact(
        paper,
        dropped.resources,
        " of a resource, ",
        " of resources, ",
    )?;
    put_fact(paper, dropped.ops, " of an operation. ", " of operations. ")?;
    paper.put(&[
        Text("Publish more often, or hold more events."),
        Close(Tag::P),
    ])?;
    Ok(())
}

// Puts how many events were dropped, where any were.
fn put_missing(paper: &mut Paper, dropped: Dropped) -> Result<(), AllocError>
    ensures { OnOk result (Writes paper.old paper.new (spec.missing dropped)) }
{
    if dropped.tasks == 0 && dropped.resources == 0 && dropped.ops == 0 {
        paper.put(&[])
    } else {
        put_dropped(paper, dropped)
    }
}

// Puts that less is told of waiting than there was, where it is so.
fn put_late(paper: &mut Paper, tables: &Tables) -> Result<(), AllocError>
    ensures { OnOk result (Writes paper.old paper.new (spec.late tables.now.tasks)) }
{
    if !any_waits_from_last_wake(tables) {
        return paper.put(&[]);
    }
    paper.put(&[
        Class(Tag::P, "note"),
        Text(
            "How long a task waited is counted from its last wake, as this stream says no more: a task that is woken while it waits has waited longer. With ",
        ),
        Start(Tag::B),
        Text("waits"),
        Close(Tag::B),
        Text(" a stream counts each wait from its begin."),
        Close(Tag::P),
    ])
}

fn put_header(
    paper: &mut Paper,
    title: &str,
    watched: u64,
    lines: u64,
    gone: u64,
    tables: &Tables,
) -> Result<(), AllocError>
    ensures { OnOk result (Writes paper.old paper.new (spec.header title.now watched lines gone tables.now)) }
{
    paper.put(&[
        Start(Tag::Header),
        Start(Tag::H1),
        Text(title),
        Close(Tag::H1),
        Class(Tag::P, "facts"),
    ])?;
    put_facts(paper, watched, lines, tables)?;
    put_gone(paper, gone)?;
    paper.put(&[Close(Tag::P)])?;
    put_missing(paper, tables.dropped())?;
    put_late(paper, tables)?;
    paper.put(&[Close(Tag::Header)])?;
    Ok(())
}

/// The time that a page of tables and their history shows.
pub(crate) fn scale_of(history: &History, tables: &Tables) -> Scale
    ensures { result ≡ drawn.scale_of (courses_of history.now) tables.now }
{
    Scale {
        start: start_of(history.first(), tables),
        now: tables.now(),
    }
}

// How many tasks came.
fn came(history: &History, tables: &Tables) -> u64
    ensures { result ≡ drawn.came (courses_of history.now) tables.now }
{
    count(tables.task_count()).saturating_add(history.gone())
}

/// Puts the page's text between its frame.
pub(crate) fn put_page(
    paper: &mut Paper,
    alloc: Global,
    title: &str,
    scale: Scale,
    signs: &Signs,
    history: &History,
    blamed: &[Blamed],
    times: &Option<Limited<SiteTimes>>,
    held: &Series<Held>,
    sites: &Limited<Sums>,
    tables: &Tables,
) -> Result<(), AllocError>
    ensures { OnOk result (drawn.DrawsSections title.now scale signs.now (courses_of history.now) blamed.now times.now held.now sites.now tables.now paper.old paper.new) }
{
    let lines = history.lines();
    put_banner(paper, signs, lines, tables)?;
    put_header(paper, title, scale.watched(), lines, history.gone(), tables)?;
    paper.put(&[Start(Tag::Main)])?;
    put_odd(paper, scale, signs, history, tables)?;
    put_sites(paper, alloc, came(history, tables), times, held, sites)?;
    put_tasks(paper, alloc, scale, signs, history, blamed, tables)?;
    put_resources(paper, alloc, scale, tables)?;
    paper.put(&[Close(Tag::Main)])?;
    Ok(())
}
