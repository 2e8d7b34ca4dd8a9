//! Options that name nothing that there is, and what is said of them.
ghost use Rattle.std.specs.Prelude.{◌≡◌, ◌⊎◌, IfOk, Some, false};
ghost use Rattle.clap.specs.Matches.{found_of};
ghost use Rattle.clap.specs.Simple.{subcommand_rows_of};
ghost use Rattle.clap.specs.Values.{kind_of};
ghost use Rattle.clap.specs.Walk.{rows_of};
ghost use Rattle.taskscope.specs.Requests as spec;

use crate::asked::{by_at, column_at, shows_places};
use crate::names::{BY, SORT};
use crate::spans::{explains_two, moments_there, names_no_moment, names_no_span, spans_there};
use crate::times::{names_no_time, times_there};
use crate::views::by_place_at;
use clap::error::ErrorKind;
use clap::{ArgMatches, Command, Error};
use std::alloc::{AllocError, Global};
use tk_app::View;

// Whether an option names nothing that there is, beside those of times and moments.
fn key_names_nothing(name: &str, options: &ArgMatches) -> bool
    ensures { result ≡ spec.key_names_nothing name.now (rows_of (found_of options.now)) }
{
    match name {
        "watch" => column_at(options).is_none(),
        "metrics" => by_at(options).is_none(),
        "view" => by_place_at(View::Report, options).is_none(),
        "lint" => by_place_at(View::Lint, options).is_none(),
        _ => false,
    }
}

// Whether an option of a command names nothing that there is.
fn option_names_nothing(name: &str, options: &ArgMatches) -> bool
    ensures { result ≡ spec.option_names_nothing name.now (rows_of (found_of options.now)) }
{
    names_no_time(name, options)
        || names_no_moment(options)
        || names_no_span(name, options)
        || explains_two(options)
        || key_names_nothing(name, options)
}

/// Whether an option names nothing that there is.
pub(crate) fn names_nothing(matches: &ArgMatches) -> bool
    ensures { result ≡ spec.names_nothing (subcommand_rows_of matches.now) }
{
    match matches.subcommand() {
        Some((name, options)) => option_names_nothing(name, options),
        None => false,
    }
}

// What a view adds tasks up by in place of what it was asked for, or what can't stand beside that: these options.
fn keys_there(alloc: Global, options: &ArgMatches, others: &str) -> Result<String, AllocError> {
    let argument = match options.get_str(BY) {
        Some("place") => "--by <KEY>",
        None => "--place <N>",
        Some(word) => {
            return format!(in alloc;
                "invalid value '{word}' for '--by <KEY>'\n  [possible values: place]"
            );
        }
    };
    format!(in alloc; "the argument '{argument}' cannot be used with {others}")
}

// The same of a watch.
fn watch_names_there(alloc: Global, options: &ArgMatches) -> Result<String, AllocError> {
    if shows_places(options).is_none() {
        let word = options.get_str(BY).unwrap_or("");
        return format!(in alloc;
            "invalid value '{word}' for '--by <KEY>'\n  [possible values: place]"
        );
    }
    let word = options.get_str(SORT).unwrap_or("");
    format!(in alloc;
        "invalid value '{word}' for '--sort <COLUMN>'\n  [possible values: busy, sched, polls, wakes, self-wakes, held-up]"
    )
}

// What there is in place of a name that an option has.
fn names_there(alloc: Global, matches: &ArgMatches) -> Result<String, AllocError> {
    match matches.subcommand() {
        Some((name, options)) if names_no_time(name, options) => times_there(alloc, name, options),
        Some((_, options)) if names_no_moment(options) => moments_there(alloc, options),
        Some((name, options)) if names_no_span(name, options) => spans_there(alloc, name, options),
        Some((_, options)) if explains_two(options) => {
            format!(in alloc; "the argument '--explain' cannot be used with [AFTER]")
        }
        Some(("metrics", options)) => {
            let word = options.get_str(BY).unwrap_or("");
            format!(in alloc;
                "invalid value '{word}' for '--by <KEY>'\n  [possible values: name, id, place]"
            )
        }
        Some(("view", options)) => {
            keys_there(alloc, options, "'--findings' or '--long-poll <TIME>'")
        }
        Some(("lint", options)) => {
            keys_there(
                alloc,
                options,
                "'--long-poll <TIME>' unless '--findings' is there",
            )
        }
        Some((_, options)) => watch_names_there(alloc, options),
        None => format!(in alloc; "invalid value"),
    }
}

fn name_mistake<'a>(
    alloc: Global,
    command: &mut Command<'a>,
    matches: &ArgMatches<'a>,
) -> Result<Error, AllocError>
    ensures { IfOk result (λ e. kind_of e ≡ ErrorKind.InvalidValue) }
{
    let message = names_there(alloc, matches)?;
    command.error(ErrorKind::InvalidValue, message.as_str())
}

/// The mistake in a name of nothing that there is.
pub(crate) fn no_name<'a>(
    alloc: Global,
    command: &mut Command<'a>,
    matches: &ArgMatches<'a>,
) -> Error
    ensures { (kind_of result ≡ ErrorKind.OutOfMemory) ⊎ (kind_of result ≡ ErrorKind.InvalidValue) }
{
    match name_mistake(alloc, command, matches) {
        Ok(error) => error,
        Err(error) => error.into(),
    }
}
