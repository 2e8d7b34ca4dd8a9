//! What a command is asked for.
ghost use Rattle.std.specs.Prelude.{◌≡◌, Some, false};
ghost use Rattle.clap.specs.Matches.{found_of};
ghost use Rattle.clap.specs.Simple.{subcommand_rows_of};
ghost use Rattle.clap.specs.Walk.{rows_of};
ghost use Rattle.taskscope.specs.Requests as spec;

use crate::command_line::{CompareOptions, MetricsOptions, Request, WatchOptions};
use crate::names::{BY, FOLLOW, KEYS, MORE_THAN, PLAIN, RESOURCES, ROWS, SERIES, SORT};
use crate::options::{flag_at, later_at, lints_in, lints_or_plain, number_at, number_or, text_at};
use crate::times::{least_at, long_poll_at, screens_every_at, texts_every_at};
use crate::views::view_with;
use clap::ArgMatches;
use tk_app::View;
use tk_client::Lints;
use tk_compare::Margin;
use tk_found::limits_by;
use tk_frame::{Column, first_column};
use tk_metrics::{Apart, By};

// A page of a stream, or of what changed to a later one.
fn page_by(lints: Lints, options: &ArgMatches) -> Request
    ensures { result ≡ spec.page_by (rows_of (found_of options.now)) lints }
{
    if later_at(options).is_some() {
        return Request::PageChanges(compare_by(options));
    }
    Request::Page {
        limits: limits_by(lints, long_poll_at(options)),
    }
}

fn page_with(options: &ArgMatches) -> Option<Request>
    ensures { result ≡ spec.page_with (rows_of (found_of options.now)) }
{
    let lints = lints_in(options)?;
    Some(page_by(lints, options))
}

fn column_named(word: &str) -> Option<Column>
    ensures { result ≡ spec.column_named word.now }
{
    match word {
        "busy" => Some(Column::Busy),
        "sched" => Some(Column::Sched),
        "polls" => Some(Column::Polls),
        "wakes" => Some(Column::Wakes),
        "self-wakes" => Some(Column::SelfWakes),
        "held-up" => Some(Column::HeldUp),
        _ => None,
    }
}

fn places_named(word: &str) -> Option<bool>
    ensures { result ≡ spec.places_named word.now }
{
    match word {
        "place" => Some(true),
        _ => None,
    }
}

/// Whether screens show places.
pub(crate) fn shows_places(options: &ArgMatches) -> Option<bool>
    ensures { result ≡ spec.shows_places (rows_of (found_of options.now)) }
{
    match text_at(options, BY) {
        Some(word) => places_named(word),
        None => Some(false),
    }
}

// The column of screens that show places, or tasks.
fn column_for(options: &ArgMatches, by_place: bool) -> Option<Column>
    ensures { result ≡ spec.column_for (rows_of (found_of options.now)) by_place }
{
    match text_at(options, SORT) {
        Some(word) => column_named(word),
        None => Some(first_column(by_place)),
    }
}

/// By which column tasks or places are sorted: by none where an option names nothing that there is.
pub(crate) fn column_at(options: &ArgMatches) -> Option<Column>
    ensures { result ≡ spec.column_at (rows_of (found_of options.now)) }
{
    let by_place = shows_places(options)?;
    column_for(options, by_place)
}

fn watch_by(sort: Column, options: &ArgMatches) -> WatchOptions
    ensures { result ≡ spec.watch_by sort (rows_of (found_of options.now)) }
{
    WatchOptions {
        sort,
        by_place: shows_places(options).unwrap_or(false),
        rows: number_or(options, ROWS, 0),
        resources: flag_at(options, RESOURCES),
        plain: flag_at(options, PLAIN),
        keys: flag_at(options, KEYS),
        every: screens_every_at(options).unwrap_or(100),
        follow: flag_at(options, FOLLOW),
        lints: lints_or_plain(options),
    }
}

fn watch_with(options: &ArgMatches) -> Option<Request>
    ensures { result ≡ spec.watch_with (rows_of (found_of options.now)) }
{
    let sort = column_at(options)?;
    Some(Request::Watch(watch_by(sort, options)))
}

fn by_named(word: &str) -> Option<By>
    ensures { result ≡ spec.by_named word.now }
{
    match word {
        "name" => Some(By::Name),
        "id" => Some(By::Id),
        "place" => Some(By::Place),
        _ => None,
    }
}

/// What tasks are told apart by: their names where nothing is said, and nothing where there is no such key.
pub(crate) fn by_at(options: &ArgMatches) -> Option<By>
    ensures { result ≡ spec.by_at (rows_of (found_of options.now)) }
{
    match text_at(options, BY) {
        Some(word) => by_named(word),
        None => Some(By::Name),
    }
}

fn metrics_by(by: By, options: &ArgMatches) -> MetricsOptions
    ensures { result ≡ spec.metrics_by by (rows_of (found_of options.now)) }
{
    MetricsOptions {
        apart: Apart {
            by,
            most: number_at(options, SERIES),
        },
        every: texts_every_at(options).unwrap_or(10),
        follow: flag_at(options, FOLLOW),
        lints: lints_or_plain(options),
    }
}

fn metrics_with(options: &ArgMatches) -> Option<Request>
    ensures { result ≡ spec.metrics_with (rows_of (found_of options.now)) }
{
    let by = by_at(options)?;
    Some(Request::Metrics(metrics_by(by, options)))
}

fn compare_by(options: &ArgMatches) -> CompareOptions
    ensures { result ≡ spec.compare_by (rows_of (found_of options.now)) }
{
    CompareOptions {
        limits: limits_by(lints_or_plain(options), long_poll_at(options)),
        margin: Margin {
            percent: number_or(options, MORE_THAN, 50).min(4_294_967_295) as u32,
            least: least_at(options).unwrap_or(1_000_000),
        },
    }
}

// What a command asks for, by its name and its options.
fn asked_by(name: &str, options: &ArgMatches) -> Option<Request>
    ensures { result ≡ spec.asked_by name.now (rows_of (found_of options.now)) }
{
    match name {
        "run" => Some(Request::Run),
        "view" => view_with(View::Report, options),
        "lint" => view_with(View::Lint, options),
        "page" => page_with(options),
        "watch" => watch_with(options),
        "metrics" => metrics_with(options),
        "compare" => Some(Request::Compare(compare_by(options))),
        "demo" => Some(Request::Demo),
        _ => None,
    }
}

pub(crate) fn asked_in(matches: &ArgMatches) -> Option<Request>
    ensures { result ≡ spec.asked_in (subcommand_rows_of matches.now) }
{
    match matches.subcommand() {
        Some((name, options)) => asked_by(name, options),
        None => None,
    }
}
