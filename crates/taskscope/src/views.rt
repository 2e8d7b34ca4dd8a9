//! What `view` and `lint` are asked for.
ghost use Rattle.std.specs.Prelude.{◌≡◌, Some, false};
ghost use Rattle.clap.specs.Matches.{found_of};
ghost use Rattle.clap.specs.Walk.{rows_of};
ghost use Rattle.taskscope.specs.Requests as spec;

use crate::command_line::Request;
use crate::names::{BY, FINDINGS, PLACE};
use crate::options::{flag_at, lints_in, number_at, text_at, times_in};
use crate::times::long_poll_at;
use clap::ArgMatches;
use tk_app::View;
use tk_client::Lints;
use tk_found::limits_by;
use tk_sites::SitesView;

// Whether an option is there that places have no part in.
fn tells_no_places(options: &ArgMatches) -> bool
    ensures { result ≡ spec.tells_no_places (rows_of (found_of options.now)) }
{
    flag_at(options, FINDINGS) || long_poll_at(options).is_some()
}

// Whether a view lists findings alone, each of which is of one place at most.
fn lists_findings(view: View, options: &ArgMatches) -> bool
    ensures { result ≡ spec.lists_findings view (rows_of (found_of options.now)) }
{
    match view {
        View::Report => false,
        View::Lint => flag_at(options, FINDINGS),
    }
}

// Whether tasks are added up if a view is asked for by place. `None`: it can't be beside another option.
fn adds_up(view: View, options: &ArgMatches) -> Option<bool>
    ensures { result ≡ spec.adds_up view (rows_of (found_of options.now)) }
{
    if lists_findings(view, options) {
        Some(false)
    } else if tells_no_places(options) {
        None
    } else {
        Some(true)
    }
}

fn by_place_named(view: View, options: &ArgMatches, word: &str) -> Option<bool>
    ensures { result ≡ spec.by_place_named view (rows_of (found_of options.now)) word.now }
{
    if word == "place" {
        adds_up(view, options)
    } else {
        None
    }
}

// Where no key is named: `None` if a place is named, and can't be beside another option.
fn by_none(options: &ArgMatches) -> Option<bool>
    ensures { result ≡ spec.by_none (rows_of (found_of options.now)) }
{
    if number_at(options, PLACE).is_some() && tells_no_places(options) {
        None
    } else {
        Some(false)
    }
}

/// Whether the key says that tasks are added up by place. `None`: there is no such key, or it can't be beside another option.
pub(crate) fn by_place_at(view: View, options: &ArgMatches) -> Option<bool>
    ensures { result ≡ spec.by_place_at view (rows_of (found_of options.now)) }
{
    match text_at(options, BY) {
        Some(word) => by_place_named(view, options, word),
        None => by_none(options),
    }
}

// What is shown of places, if they are asked for.
fn places_by(view: View, by_place: bool, options: &ArgMatches) -> Option<SitesView>
    ensures { result ≡ spec.places_by view (rows_of (found_of options.now)) by_place }
{
    match number_at(options, PLACE) {
        Some(number) => Some(SitesView::One(number)),
        None => {
            if by_place {
                Some(SitesView::All(view))
            } else {
                None
            }
        }
    }
}

// A view of the tables, or of what is odd, where that is asked for.
fn tasks_by(view: View, lints: Lints, options: &ArgMatches) -> Request
    ensures { result ≡ spec.tasks_by view (rows_of (found_of options.now)) lints }
{
    let times = times_in(options);
    if !flag_at(options, FINDINGS) {
        return Request::Show { view, lints, times };
    }
    Request::Find {
        view,
        limits: limits_by(lints, times.limits.poll_ms),
        times: times.times,
    }
}

// A view of places where that is asked for, and else of tasks.
fn view_by(view: View, by_place: bool, lints: Lints, options: &ArgMatches) -> Request
    ensures { result ≡ spec.view_by view (rows_of (found_of options.now)) by_place lints }
{
    let times = times_in(options);
    match places_by(view, by_place, options) {
        Some(view) => Request::Sites {
            view,
            lints,
            wait_ms: times.limits.wait_ms,
            times: times.times,
        },
        None => tasks_by(view, lints, options),
    }
}

pub(crate) fn view_with(view: View, options: &ArgMatches) -> Option<Request>
    ensures { result ≡ spec.view_with view (rows_of (found_of options.now)) }
{
    let by_place = by_place_at(view, options)?;
    let lints = lints_in(options)?;
    Some(view_by(view, by_place, lints, options))
}
