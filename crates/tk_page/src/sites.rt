//! The table of places: what the tasks of each came to, those that left among them.
ghost use Rattle.std.specs.Prelude.{◌≡◌, [], OnOk, flat_map, slice_get};
ghost use Rattle.std.specs.Option.{option_map_or};
ghost use Rattle.tk_page.specs.Places.{site_text};
ghost use Rattle.tk_page.specs.Sites as spec;
ghost use Rattle.tk_paper.specs.Pieces.{Writes};

use crate::badges::start_section;
use crate::figures::front;
use crate::poll_times::{polls_at, put_dash, put_polls, put_time, put_waits, waits_at};
use crate::ranks::{Rank, site_ranks_of};
use crate::resources::put_more;
use crate::tasks::{put_mean, put_number};
use crate::tasks_head::put_column;
use std::alloc::{AllocError, Global};
use std::str;
use tk_odd::Held;
use tk_paper::Part::{Class, Close, End, Open, Start, Text, With, WithNumber};
use tk_paper::{Attr, Paper, Tag};
use tk_series::{Limited, Series};
use tk_sites::{Histogram, SiteTimes, Sums};

// Up to how many tasks are read one by one.
const FEW: u64 = 50;

// How many places a page shows.
const SITES: usize = 200;

// The name of all places that don't stand by themselves.
const OTHERS: &str = "(others)";

// ---- a row

/// Puts the text of a place.
pub(crate) fn put_site_text(paper: &mut Paper, site: &[u8]) -> Result<(), AllocError>
    ensures { OnOk result (Writes paper.old paper.new (site_text site.now)) }
{
    match str::from_utf8(site) {
        Ok(text) => paper.put(&[Text(text)]),
        Err(_) => paper.put(&[]),
    }
}

// Begins a row with its place.
fn put_site_name(paper: &mut Paper, place: usize, site: &[u8]) -> Result<(), AllocError>
    ensures { OnOk result (Writes paper.old paper.new (spec.site_name place site.now)) }
{
    paper.put(&[
        Start(Tag::Tr),
        Open(Tag::Th),
        With(Attr::Scope, "row"),
        WithNumber(Attr::DataV, place as u64),
        End,
    ])?;
    put_site_text(paper, site)?;
    paper.put(&[Close(Tag::Th)])?;
    Ok(())
}

// How many tasks of a place are open.
fn open_of(sums: &Sums) -> u64
    ensures { result ≡ spec.open_of sums.now }
{
    sums.idle
        .saturating_add(sums.scheduled)
        .saturating_add(sums.polling)
}

fn put_site_work(paper: &mut Paper, sums: &Sums) -> Result<(), AllocError>
    ensures { OnOk result (Writes paper.old paper.new (spec.site_work sums.now)) }
{
    put_number(paper, open_of(sums))?;
    put_number(paper, sums.scheduled)?;
    put_number(paper, sums.tasks)?;
    put_time(paper, sums.busy)?;
    put_number(paper, sums.polls)?;
    put_mean(paper, sums.busy, sums.polls)?;
    Ok(())
}

// What a place is charged with, if it is the one at an index, and else what was found before.
fn held_at(held: &Series<Held>, site: &[u8], found: u64, i: usize) -> u64
    ensures { result ≡ option_map_or (spec.held_if site.now found) (slice_get held.now i) found }
{
    match held.at(i) {
        Some((place, one)) => { if site == place { one.charged } else { found } }
        None => found,
    }
}

// What a place is charged with.
fn held_for(held: &Series<Held>, site: &[u8]) -> u64
    ensures { result ≡ spec.held_for held.now site.now }
{
    let mut found = 0;
    for i in 0..held.len() {
        found = held_at(held, site, found, i);
    }
    found
}

// Puts a cell with that, if it is known.
fn put_held(paper: &mut Paper, held: Option<u64>) -> Result<(), AllocError>
    ensures { OnOk result (Writes paper.old paper.new (spec.held_cell held)) }
{
    match held {
        Some(time) => put_time(paper, time),
        None => put_dash(paper),
    }
}

// What is known of a place beside its sums.
#[derive(Clone, Copy)]
struct Known {
    // The histograms of its polls and of its waits.
    polls: Option<Histogram>,
    waits: Option<Histogram>,
    // For how long others waited for it, in nanoseconds.
    held: Option<u64>,
}

fn known_at(times: &Option<Limited<SiteTimes>>, place: usize, held: Option<u64>) -> Known
    ensures { result ≡ spec.known_at times.now place held }
{
    Known {
        polls: polls_at(times, place),
        waits: waits_at(times, place),
        held,
    }
}

fn put_site_waits(paper: &mut Paper, sums: &Sums, known: &Known) -> Result<(), AllocError>
    ensures { OnOk result (Writes paper.old paper.new (spec.site_waits known.now sums.now)) }
{
    put_time(paper, sums.sched)?;
    put_mean(paper, sums.sched, sums.tasks)?;
    put_waits(paper, known.waits)?;
    put_held(paper, known.held)?;
    put_number(paper, sums.own)?;
    Ok(())
}

fn put_site(
    paper: &mut Paper,
    place: usize,
    site: &[u8],
    sums: &Sums,
    known: &Known,
) -> Result<(), AllocError>
    ensures { OnOk result (Writes paper.old paper.new (spec.site_row known.now place (site.now, sums.now))) }
{
    put_site_name(paper, place, site)?;
    put_site_work(paper, sums)?;
    put_polls(paper, known.polls)?;
    put_site_waits(paper, sums, known)?;
    paper.put(&[Close(Tag::Tr)])?;
    Ok(())
}

// Puts the row of the place that stands there.
fn put_site_at(
    paper: &mut Paper,
    times: &Option<Limited<SiteTimes>>,
    held: &Series<Held>,
    sites: &Limited<Sums>,
    place: usize,
) -> Result<(), AllocError>
    ensures { OnOk result (Writes paper.old paper.new
        (option_map_or (spec.full_row times.now held.now place) (slice_get sites.now.first place) [])) }
{
    match sites.at(place) {
        Some((site, sums)) => {
            let known = known_at(times, place, Some(held_for(held, site)));
            put_site(paper, place, site, &sums, &known)
        }
        None => paper.put(&[]),
    }
}

fn put_sites_at(
    paper: &mut Paper,
    times: &Option<Limited<SiteTimes>>,
    held: &Series<Held>,
    sites: &Limited<Sums>,
    ranks: &[Rank],
) -> Result<(), AllocError>
    ensures { OnOk result (Writes paper.old paper.new (flat_map (spec.site_row_at times.now held.now sites.now.first) ranks.now)) }
{
    for rank in ranks {
        put_site_at(paper, times, held, sites, rank.place)?;
    }
    Ok(())
}

// Puts the row of all others, if there are any.
fn put_others(
    paper: &mut Paper,
    times: &Option<Limited<SiteTimes>>,
    place: usize,
    rest: Option<Sums>,
) -> Result<(), AllocError>
    ensures { OnOk result (Writes paper.old paper.new (spec.others_row times.now place rest)) }
{
    let known = known_at(times, place, None);
    match rest {
        Some(sums) => put_site(paper, place, OTHERS.as_bytes(), &sums, &known),
        None => paper.put(&[]),
    }
}

// ---- the table

fn put_sites_caption(paper: &mut Paper) -> Result<(), AllocError>
    ensures { OnOk result (Writes paper.old paper.new spec.sites_caption) }
{
    paper.put(&[
        Open(Tag::Table),
        With(Attr::Id, "sites"),
        End,
        Start(Tag::Caption),
        Text(
            "Each row is a place: where tasks are made, as what, and by which name but for numbers. Its numbers are of all its tasks, those that left among them. Those that ran and waited longest come first. A dash stands where the stream has no histogram.",
        ),
        Close(Tag::Caption),
        Start(Tag::Thead),
        Start(Tag::Tr),
    ])
}

// The columns of the cells of polls.
fn put_times_columns(paper: &mut Paper) -> Result<(), AllocError>
    ensures { OnOk result (Writes paper.old paper.new spec.times_columns) }
{
    let half = "what half of their polls don't pass, by the buckets of the histogram";
    let most = "what 99 of 100 polls don't pass, by the buckets of the histogram";
    let longest = "the longest poll that ended, beside a histogram of all";
    put_column(paper, "num", half, "median")?;
    put_column(paper, "num", most, "p99")?;
    put_column(paper, "num", longest, "longest")?;
    Ok(())
}

fn put_sites_columns(paper: &mut Paper) -> Result<(), AllocError>
    ensures { OnOk result (Writes paper.old paper.new spec.sites_columns) }
{
    let order = "in the order in which a first task of each came";
    let came = "tasks that came, those that left among them";
    let ran = "how long their polls ran, but for polls that last";
    let waited = "how long they waited for polls, but for waits that last";
    let waits = "what 99 of 100 waits don't pass, by the buckets of the histogram";
    let held = "time that others waited for them, at least";
    put_column(paper, "", order, "place")?;
    put_column(paper, "num", "tasks that are open now", "open")?;
    put_column(paper, "num", "tasks that wait for a poll now", "wait now")?;
    put_column(paper, "num", came, "tasks")?;
    put_column(paper, "num", ran, "ran")?;
    put_column(paper, "num", "", "polls")?;
    put_column(paper, "num", "time that they ran by polls", "a poll takes")?;
    put_times_columns(paper)?;
    put_column(paper, "num", waited, "waited")?;
    put_column(
        paper,
        "num",
        "time that they waited by tasks",
        "a task waited",
    )?;
    put_column(paper, "num", waits, "waits p99")?;
    put_column(paper, "num", held, "held up others")?;
    put_column(paper, "num", "wakes from within them", "own wakes")?;
    paper.put(&[Close(Tag::Tr), Close(Tag::Thead), Start(Tag::Tbody)])?;
    Ok(())
}

fn put_sites_table(
    paper: &mut Paper,
    times: &Option<Limited<SiteTimes>>,
    held: &Series<Held>,
    sites: &Limited<Sums>,
    ranks: &[Rank],
) -> Result<(), AllocError>
    ensures { OnOk result (Writes paper.old paper.new (spec.sites_table times.now held.now sites.now ranks.now)) }
{
    put_sites_caption(paper)?;
    put_sites_columns(paper)?;
    put_sites_at(paper, times, held, sites, front(ranks, SITES))?;
    put_others(paper, times, sites.len(), sites.rest())?;
    paper.put(&[Close(Tag::Tbody), Close(Tag::Table), Close(Tag::Div)])?;
    Ok(())
}

fn put_sites_head(paper: &mut Paper) -> Result<(), AllocError>
    ensures { OnOk result (Writes paper.old paper.new spec.sites_head) }
{
    start_section(paper, "places", "Places")?;
    paper.put(&[Close(Tag::H2), Class(Tag::Div, "scroll wide")])?;
    Ok(())
}

// Puts the section of places, whatever their number is.
fn put_all_sites(
    paper: &mut Paper,
    times: &Option<Limited<SiteTimes>>,
    held: &Series<Held>,
    sites: &Limited<Sums>,
    ranks: &[Rank],
) -> Result<(), AllocError>
    ensures { OnOk result (Writes paper.old paper.new (spec.all_sites times.now held.now sites.now ranks.now)) }
{
    put_sites_head(paper)?;
    put_sites_table(paper, times, held, sites, ranks)?;
    put_more(
        paper,
        sites.len(),
        SITES,
        " places more, which ran and waited less",
    )?;
    paper.put(&[Close(Tag::Section)])?;
    Ok(())
}

fn put_ranked(
    paper: &mut Paper,
    tasks: u64,
    times: &Option<Limited<SiteTimes>>,
    held: &Series<Held>,
    sites: &Limited<Sums>,
    ranks: &[Rank],
) -> Result<(), AllocError>
    ensures { OnOk result (Writes paper.old paper.new (spec.sites_section tasks times.now held.now sites.now ranks.now)) }
{
    if tasks <= FEW {
        return paper.put(&[]);
    }
    put_all_sites(paper, times, held, sites, ranks)
}

/// Puts the places, if so many tasks came.
pub(crate) fn put_sites(
    paper: &mut Paper,
    alloc: Global,
    tasks: u64,
    times: &Option<Limited<SiteTimes>>,
    held: &Series<Held>,
    sites: &Limited<Sums>,
) -> Result<(), AllocError>
    ensures { OnOk result (spec.WritesSites tasks times.now held.now sites.now paper.old paper.new) }
{
    let ranks = site_ranks_of(alloc, sites)?;
    put_ranked(paper, tasks, times, held, sites, ranks.as_slice())?;
    Ok(())
}
