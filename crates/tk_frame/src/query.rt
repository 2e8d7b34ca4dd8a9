//! What was asked for, and the keys by which items are ranked.
ghost use Rattle.std.specs.Prelude.{◌≡◌};
ghost use Rattle.tk_frame.specs.Queries as spec;

use crate::places::Figures;
use crate::site_parts::{location_in, name_in};
use crate::typed::Typed;
use tk_core::TaskRow;
use tk_stream::{Op, Resource, Task};

/// A column of the table of tasks by which it is sorted: the greatest first.
#[derive(Clone, Copy, Debug, PartialEq, Eq)]
pub enum Column {
    /// How long its polls ran, one that runs among them.
    Busy,
    /// How long it waited, scheduled, waiting that lasts among it.
    Sched,
    /// How many polls of it started.
    Polls,
    /// How often it was woken.
    Wakes,
    /// How many of its wakes came from within it.
    SelfWakes,
    /// For how long others waited while the tasks of a place ran. Tasks that are shown by themselves are sorted as by `Busy`.
    HeldUp,
}

/// What a screen is asked for. Only open items are shown.
#[derive(Clone, Copy)]
pub struct Query<'a> {
    /// By which column tasks are sorted.
    pub sort: Column,
    /// Whether the least is first, and not the greatest.
    pub rising: bool,
    /// How many tasks stand on a screen at most, and where they are asked for as many resources, and as many async operations. `None` asks for as many as
    /// have room on a terminal, and as text for 20.
    pub rows: Option<usize>,
    /// A text that stands in the name of each task that is shown, or in that of the file where it was made.
    pub filter: &'a [u8],
    /// A further text of this kind, which was typed at keys.
    pub typed: Typed,
    /// Whether resources and async operations are shown too.
    pub resources: bool,
    /// Whether places are shown in the place of tasks. Both texts then stand in where the tasks of a place were spawned, or in their name.
    pub by_place: bool,
    /// Whether these places are shown with what they came to in the last while, and not in all.
    pub recent: bool,
}

// The number of a task in a column, at a moment.
fn number_in(column: Column, row: &TaskRow, now: u64) -> u64
    ensures { result ≡ spec.number_in column row.now now }
{
    match column {
        Column::Busy => row.busy_until(now),
        Column::Sched => row.sched_until(now),
        Column::Polls => row.polls,
        Column::Wakes => row.wakes,
        Column::SelfWakes => row.self_wakes,
        Column::HeldUp => row.busy_until(now),
    }
}

// The number of a place in a column.
fn place_number(column: Column, figures: &Figures) -> u64
    ensures { result ≡ spec.place_number column figures.now }
{
    let Figures {
        number: _,
        sums,
        held_up,
        longest: _,
    } = *figures;
    match column {
        Column::Busy => sums.busy,
        Column::Sched => sums.waited,
        Column::Polls => sums.polls,
        Column::Wakes => sums.wakes,
        Column::SelfWakes => sums.own,
        Column::HeldUp => held_up,
    }
}

// Whether a text begins with another.
fn begins(part: &[u8], text: &[u8]) -> bool
    ensures { result ≡ spec.begins part.now text.now }
{
    let [first, part @ ..] = part else {
        return true;
    };
    let [byte, text @ ..] = text else {
        return false;
    };
    *first == *byte && begins(part, text)
}

// Whether a text stands somewhere in another.
fn stands_in(part: &[u8], text: &[u8]) -> bool
    ensures { result ≡ spec.stands_in part.now text.now }
{
    if begins(part, text) {
        return true;
    }
    match text {
        [_, text @ ..] => stands_in(part, text),
        [] => false,
    }
}

fn names(text: &[u8], task: &Task) -> bool
    ensures { result ≡ spec.names text.now task.now }
{
    stands_in(text, task.info.name.as_bytes())
        || stands_in(text, task.info.location.file.as_bytes())
}

/// Whether a task is shown, on this screen or on another.
pub(crate) fn is_shown(query: &Query<'_>, task: &Task) -> bool
    ensures { result ≡ spec.is_shown query.now task.now }
{
    task.row.dropped.is_none() && names(query.filter, task) && names(query.typed.text(), task)
}

fn rank_of(rising: bool, number: u64) -> u64
    ensures { result ≡ spec.rank_of rising number }
{
    if rising { u64::MAX - number } else { number }
}

/// The key of a task that is shown.
pub(crate) fn task_key(query: &Query<'_>, task: &Task, now: u64) -> Option<u64>
    ensures { result ≡ spec.task_key query.now now task.now }
{
    if is_shown(query, task) {
        let number = number_in(query.sort, &task.row, now);
        Some(rank_of(query.rising, number))
    } else {
        None
    }
}

fn names_place(text: &[u8], site: &[u8]) -> bool
    ensures { result ≡ spec.names_place text.now site.now }
{
    stands_in(text, location_in(site)) || stands_in(text, name_in(site))
}

/// Whether a place is shown, on this screen or on another.
pub(crate) fn is_place_shown(query: &Query<'_>, site: &[u8], figures: &Figures) -> bool
    ensures { result ≡ spec.is_place_shown query.now (site.now, figures.now) }
{
    names_place(query.filter, site) && names_place(query.typed.text(), site)
}

/// The key of a place that is shown.
pub(crate) fn place_key(query: &Query<'_>, site: &[u8], figures: &Figures) -> Option<u64>
    ensures { result ≡ spec.place_key query.now (site.now, figures.now) }
{
    if is_place_shown(query, site, figures) {
        let number = place_number(query.sort, figures);
        Some(rank_of(query.rising, number))
    } else {
        None
    }
}

/// The key of a resource that is shown, of whose poll operations so many are pending.
pub(crate) fn resource_key(resource: &Resource, pending: u64) -> Option<u64>
    ensures { result ≡ spec.resource_key_by pending resource.now }
{
    if resource.row.dropped.is_none() {
        Some(pending)
    } else {
        None
    }
}

/// The key of an async operation that is shown.
pub(crate) fn op_key(op: &Op) -> Option<u64>
    ensures { result ≡ spec.op_key op.now }
{
    if op.row.dropped.is_none() {
        Some(op.row.polls)
    } else {
        None
    }
}
