//! Times that options say: a text, as `100ms`, says its unit, and a number counts that of the option.
ghost use Rattle.std.specs.Prelude.{◌≡◌, Some};
ghost use Rattle.clap.specs.Matches.{found_of};
ghost use Rattle.clap.specs.Walk.{rows_of};
ghost use Rattle.taskscope.specs.Moments as moments;
ghost use Rattle.taskscope.specs.Requests as spec;

use crate::moments::{number_of, time_of};
use crate::names::{AT_LEAST, EVERY, LIMIT, LONG_POLL, LONG_WAIT, NEVER_YIELDED};
use crate::options::{number_at, text_at};
use clap::ArgMatches;
use std::alloc::{AllocError, Global};

// Nanoseconds as milliseconds, if they are a whole number of them.
fn in_millis(time: u64) -> Option<u64>
    ensures { result ≡ moments.in_units 1000000 time }
{
    if time % 1_000_000 == 0 {
        Some(time / 1_000_000)
    } else {
        None
    }
}

// Nanoseconds as seconds, if they are a whole number of them.
fn in_seconds(time: u64) -> Option<u64>
    ensures { result ≡ moments.in_units 1000000000 time }
{
    if time % 1_000_000_000 == 0 {
        Some(time / 1_000_000_000)
    } else {
        None
    }
}

// How many milliseconds a text says.
fn millis_of(text: &str) -> Option<u64>
    ensures { result ≡ moments.units_of 1000000 text.now }
{
    match number_of(text) {
        Some(number) => Some(number),
        None => in_millis(time_of(text)?),
    }
}

// How many seconds a text says.
fn seconds_of(text: &str) -> Option<u64>
    ensures { result ≡ moments.units_of 1000000000 text.now }
{
    match number_of(text) {
        Some(number) => Some(number),
        None => in_seconds(time_of(text)?),
    }
}

// How many nanoseconds a text says: a number counts milliseconds.
fn nanos_of(text: &str) -> Option<u64>
    ensures { result ≡ moments.nanos_of text.now }
{
    match number_of(text) {
        Some(number) => Some(number.saturating_mul(1_000_000)),
        None => time_of(text),
    }
}

fn within(least: u64, most: u64, number: u64) -> Option<u64>
    ensures { result ≡ moments.within least most number }
{
    if least <= number && number <= most {
        Some(number)
    } else {
        None
    }
}

/// From how many milliseconds on a poll is long.
pub(crate) fn long_poll_at(options: &ArgMatches) -> Option<u64>
    ensures { result ≡ spec.long_poll (rows_of (found_of options.now)) }
{
    within(1, u64::MAX, millis_of(text_at(options, LONG_POLL)?)?)
}

/// From how many milliseconds on a wait for a poll is long.
pub(crate) fn long_wait_at(options: &ArgMatches) -> Option<u64>
    ensures { result ≡ spec.long_wait (rows_of (found_of options.now)) }
{
    within(1, u64::MAX, millis_of(text_at(options, LONG_WAIT)?)?)
}

/// How many milliseconds lie between two screens at least.
pub(crate) fn screens_every_at(options: &ArgMatches) -> Option<u64>
    ensures { result ≡ spec.screens_every (rows_of (found_of options.now)) }
{
    within(0, 3_600_000, millis_of(text_at(options, EVERY)?)?)
}

/// How many seconds lie between two texts of a file at least.
pub(crate) fn texts_every_at(options: &ArgMatches) -> Option<u64>
    ensures { result ≡ spec.texts_every (rows_of (found_of options.now)) }
{
    within(0, 86_400, seconds_of(text_at(options, EVERY)?)?)
}

/// How many nanoseconds of each second are a change at least.
pub(crate) fn least_at(options: &ArgMatches) -> Option<u64>
    ensures { result ≡ spec.least_at (rows_of (found_of options.now)) }
{
    nanos_of(text_at(options, AT_LEAST)?)
}

/// How many nanoseconds a first poll runs before it is warned of.
pub(crate) fn limit_at(options: &ArgMatches) -> Option<u64>
    ensures { result ≡ spec.limit_at (rows_of (found_of options.now)) }
{
    match text_at(options, NEVER_YIELDED) {
        Some(text) => time_of(text),
        None => number_at(options, LIMIT),
    }
}

// Whether an option of a time is there, and says none.
fn says_no_time(name: &str, time: Option<u64>, options: &ArgMatches) -> bool
    ensures { result ≡ spec.says_no_time name.now time (rows_of (found_of options.now)) }
{
    text_at(options, name).is_some() && time.is_none()
}

// How often screens are drawn, or texts are written, by the command.
fn every_at(name: &str, options: &ArgMatches) -> Option<u64>
    ensures { result ≡ spec.every_at name.now (rows_of (found_of options.now)) }
{
    if name == "watch" {
        screens_every_at(options)
    } else {
        texts_every_at(options)
    }
}

// Whether an option of a limit says no time.
fn names_no_limit(options: &ArgMatches) -> bool
    ensures { result ≡ spec.names_no_limit (rows_of (found_of options.now)) }
{
    says_no_time(NEVER_YIELDED, limit_at(options), options)
        || says_no_time(LONG_POLL, long_poll_at(options), options)
        || says_no_time(LONG_WAIT, long_wait_at(options), options)
}

/// Whether an option says no time that it may be.
pub(crate) fn names_no_time(name: &str, options: &ArgMatches) -> bool
    ensures { result ≡ spec.names_no_time name.now (rows_of (found_of options.now)) }
{
    names_no_limit(options)
        || says_no_time(AT_LEAST, least_at(options), options)
        || says_no_time(EVERY, every_at(name, options), options)
}

// The first option that says no time, and what it may say.
fn misread_time(name: &str, options: &ArgMatches) -> (&'static str, &'static str) {
    if says_no_time(NEVER_YIELDED, limit_at(options), options) {
        return (NEVER_YIELDED, "a time, as 100ms or 2s");
    }
    if says_no_time(LONG_POLL, long_poll_at(options), options) {
        return (LONG_POLL, IN_MILLIS);
    }
    if says_no_time(LONG_WAIT, long_wait_at(options), options) {
        return (LONG_WAIT, IN_MILLIS);
    }
    if says_no_time(AT_LEAST, least_at(options), options) {
        return (
            AT_LEAST,
            "a time, as 500us or 10ms; a number counts milliseconds",
        );
    }
    if name == "watch" {
        return (
            EVERY,
            "a time of whole milliseconds up to an hour, as 500ms; a number counts milliseconds",
        );
    }
    (
        EVERY,
        "a time of whole seconds up to a day, as 10s or 1m; a number counts seconds",
    )
}

const IN_MILLIS: &str =
    "a time of whole milliseconds, as 100ms or 2s; a number counts milliseconds, from 1 on";

/// What the option of a time may say.
pub(crate) fn times_there(
    alloc: Global,
    name: &str,
    options: &ArgMatches,
) -> Result<String, AllocError> {
    let (option, there) = misread_time(name, options);
    let word = options.get_str(option).unwrap_or("");
    format!(in alloc; "invalid value '{word}' for '--{option} <TIME>'\n  [{there}]")
}
