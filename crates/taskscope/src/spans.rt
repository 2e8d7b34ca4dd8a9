//! Up to which moment a stream is read, and since which.
ghost use Rattle.std.specs.Prelude.{◌≡◌, Some, false};
ghost use Rattle.clap.specs.Matches.{found_of};
ghost use Rattle.clap.specs.Walk.{rows_of};
ghost use Rattle.taskscope.specs.Requests as spec;

use crate::moments::{Moment, moment_before_end, moment_of};
use crate::names::{BY, EXPLAIN, FINDINGS, LAST, PLACE, SINCE, UNTIL};
use crate::options::{file_at, flag_at, later_at, number_at, text_at};
use clap::ArgMatches;
use std::alloc::{AllocError, Global};

pub(crate) fn until_at(options: &ArgMatches) -> Option<Moment>
    ensures { result ≡ spec.until_at (rows_of (found_of options.now)) }
{
    moment_of(text_at(options, UNTIL)?)
}

pub(crate) fn since_at(options: &ArgMatches) -> Option<Moment>
    ensures { result ≡ spec.since_at (rows_of (found_of options.now)) }
{
    match text_at(options, LAST) {
        Some(span) => moment_before_end(span),
        None => moment_of(text_at(options, SINCE)?),
    }
}

// A moment before the end of a stream can be found only if that is a file, which can be read twice. Where two are compared none is.
fn can_be_found(options: &ArgMatches, moment: Moment) -> bool
    ensures { result ≡ spec.can_be_found (rows_of (found_of options.now)) moment }
{
    match moment {
        Moment::At(_) => later_at(options).is_none(),
        Moment::BeforeEnd(_) => file_at(options).is_some() && later_at(options).is_none(),
    }
}

/// Whether a moment is asked for, and it is none that can be found.
pub(crate) fn names_no_moment(options: &ArgMatches) -> bool
    ensures { result ≡ spec.names_no_moment (rows_of (found_of options.now)) }
{
    if text_at(options, UNTIL).is_none() {
        return false;
    }
    match until_at(options) {
        Some(moment) => !can_be_found(options, moment),
        None => true,
    }
}

fn asks_since(options: &ArgMatches) -> bool
    ensures { result ≡ spec.asks_since (rows_of (found_of options.now)) }
{
    text_at(options, SINCE).is_some() || text_at(options, LAST).is_some()
}

// Whether one option says since when a stream is looked at, and that moment can be found.
fn begins_somewhere(options: &ArgMatches) -> bool
    ensures { result ≡ spec.begins_somewhere (rows_of (found_of options.now)) }
{
    if text_at(options, SINCE).is_some() && text_at(options, LAST).is_some() {
        return false;
    }
    match since_at(options) {
        Some(moment) => can_be_found(options, moment),
        None => false,
    }
}

// Whether one place is viewed, or a fault is to be explained.
fn tells_more(options: &ArgMatches) -> bool
    ensures { result ≡ spec.tells_more (rows_of (found_of options.now)) }
{
    number_at(options, PLACE).is_some() || flag_at(options, EXPLAIN)
}

// Whether all places of a file are viewed, and no fault is to be explained.
fn views_places(name: &str, options: &ArgMatches) -> bool
    ensures { result ≡ spec.views_places name.now (rows_of (found_of options.now)) }
{
    name == "view"
        && file_at(options).is_some()
        && text_at(options, BY).is_some()
        && !tells_more(options)
}

// Whether what is shown can be that of a span.
fn is_of_spans(name: &str, options: &ArgMatches) -> bool
    ensures { result ≡ spec.is_of_spans name.now (rows_of (found_of options.now)) }
{
    flag_at(options, FINDINGS) || views_places(name, options)
}

/// Whether a span is asked for, and it is none that can be shown.
pub(crate) fn names_no_span(name: &str, options: &ArgMatches) -> bool
    ensures { result ≡ spec.names_no_span name.now (rows_of (found_of options.now)) }
{
    asks_since(options) && !(begins_somewhere(options) && is_of_spans(name, options))
}

/// Whether a fault is to be explained where two streams are compared.
pub(crate) fn explains_two(options: &ArgMatches) -> bool
    ensures { result ≡ spec.explains_two (rows_of (found_of options.now)) }
{
    later_at(options).is_some() && flag_at(options, EXPLAIN)
}

/// What a moment may be.
pub(crate) fn moments_there(alloc: Global, options: &ArgMatches) -> Result<String, AllocError> {
    let word = options.get_str(UNTIL).unwrap_or("");
    if later_at(options).is_some() {
        return format!(in alloc; "the argument '--until <MOMENT>' cannot be used with [AFTER]");
    }
    if moment_of(word).is_some() {
        return format!(in alloc;
            "'--until {word}' is a moment before the end of a stream: that needs a FILE, which is read twice"
        );
    }
    format!(in alloc;
        "invalid value '{word}' for '--until <MOMENT>'\n  [a number of nanoseconds, or a time before the end of FILE, as 12.5s]"
    )
}

// What there is in place of a text that says no begin of a span.
fn begins_there(alloc: Global, options: &ArgMatches, option: &str) -> Result<String, AllocError> {
    let word = match options.get_str(LAST) {
        Some(word) => word,
        None => options.get_str(SINCE).unwrap_or(""),
    };
    format!(in alloc;
        "invalid value '{word}' for '{option}'\n  [a time before the end of FILE, as 12.5s, or for '--since' a number of nanoseconds]"
    )
}

/// What a span may be.
pub(crate) fn spans_there(
    alloc: Global,
    name: &str,
    options: &ArgMatches,
) -> Result<String, AllocError> {
    if text_at(options, LAST).is_some() && text_at(options, SINCE).is_some() {
        return format!(in alloc;
            "the argument '--since <MOMENT>' cannot be used with '--last <SPAN>'"
        );
    }
    let option = match text_at(options, LAST) {
        Some(_) => "--last <SPAN>",
        None => "--since <MOMENT>",
    };
    if since_at(options).is_none() {
        return begins_there(alloc, options, option);
    }
    if !begins_somewhere(options) {
        return format!(in alloc;
            "'{option}' is a moment before the end of a stream: that needs a FILE, which is read twice"
        );
    }
    if name == "lint" {
        return format!(in alloc; "the argument '{option}' needs '--findings'");
    }
    format!(in alloc;
        "the argument '{option}' needs '--findings', or '--by place' of a FILE without '--place' and '--explain'"
    )
}
