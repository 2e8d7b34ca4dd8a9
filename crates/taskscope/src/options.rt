//! What the options of a command say.
ghost use Rattle.std.specs.Prelude.{◌≡◌, Some, false};
ghost use Rattle.std.specs.Option.{option_map};
ghost use Rattle.clap.specs.Matches.{found_of};
ghost use Rattle.clap.specs.Walk.{rows_of};
ghost use Rattle.taskscope.specs.Requests as spec;

use crate::names::{BEFORE, FILE, LATER, PERCENT, TIMES};
use crate::times::{limit_at, long_poll_at, long_wait_at};
use clap::ArgMatches;
use tk_app::TimesOptions;
use tk_client::{Lints, TimeLimits};

pub(crate) fn number_at(options: &ArgMatches, name: &str) -> Option<u64>
    ensures { result ≡ spec.number_at name.now (rows_of (found_of options.now)) }
{
    options.get_one(name)
}

pub(crate) fn lints_in(options: &ArgMatches) -> Option<Lints>
    ensures { result ≡ spec.lints_in (rows_of (found_of options.now)) }
{
    let percent = number_at(options, PERCENT)?;
    let limit = limit_at(options)?;
    Lints::new(percent, limit)
}

pub(crate) fn text_at<'a>(options: &ArgMatches<'a>, name: &str) -> Option<&'a str>
    ensures { option_map (λ text. text.now) result ≡ spec.text_at name.now (rows_of (found_of options.now)) }
{
    options.get_str(name)
}

/// `get_flag` promises nothing of a text that is neither `true` nor `false`.
pub(crate) fn flag_at(options: &ArgMatches, name: &str) -> bool
    ensures { result ≡ spec.flag_at name.now (rows_of (found_of options.now)) }
{
    match text_at(options, name) {
        Some(text) => text == "true",
        None => false,
    }
}

pub(crate) fn times_in(options: &ArgMatches) -> TimesOptions
    ensures { result ≡ spec.times_in (rows_of (found_of options.now)) }
{
    TimesOptions {
        times: flag_at(options, TIMES),
        limits: TimeLimits {
            poll_ms: long_poll_at(options),
            wait_ms: long_wait_at(options),
        },
    }
}

/// The later one of two streams that a page compares.
pub(crate) fn later_at<'a>(options: &ArgMatches<'a>) -> Option<&'a str>
    ensures { option_map (λ later. later.now) result ≡ spec.later_at (rows_of (found_of options.now)) }
{
    text_at(options, LATER)
}

pub(crate) fn number_or(options: &ArgMatches, name: &str, other: u64) -> u64
    ensures { result ≡ spec.number_or other name.now (rows_of (found_of options.now)) }
{
    match number_at(options, name) {
        Some(number) => number,
        None => other,
    }
}

pub(crate) fn lints_or_plain(options: &ArgMatches) -> Lints
    ensures { result ≡ spec.lints_or_plain (rows_of (found_of options.now)) }
{
    match lints_in(options) {
        Some(lints) => lints,
        None => Lints::default(),
    }
}

pub(crate) fn file_at<'a>(options: &ArgMatches<'a>) -> Option<&'a str>
    ensures { option_map (λ file. file.now) result ≡ spec.file_at (rows_of (found_of options.now)) }
{
    match later_at(options) {
        Some(later) => Some(later),
        None => text_at(options, FILE),
    }
}

/// The earlier stream that is read: that of a comparison, or else the first file, of which the begin is earlier.
pub(crate) fn before_at<'a>(options: &ArgMatches<'a>) -> Option<&'a str>
    ensures { option_map (λ before. before.now) result ≡ spec.before_at (rows_of (found_of options.now)) }
{
    if let Some(before) = text_at(options, BEFORE) {
        return Some(before);
    }
    text_at(options, FILE)
}
