//! The commands that there are, with their options and their help.
ghost use Rattle.std.specs.Prelude.{◌≡◌, IfOk, IfErr, false};
ghost use Rattle.clap.specs.Simple.{app_of};
ghost use Rattle.clap.specs.Values.{kind_of};
ghost use Rattle.clap.specs.Walk.{rule_of};
ghost use Rattle.clap.specs.declared.builder.command.Command.TheViews.{out-Command as fields_of};
ghost use Rattle.taskscope.specs.Requests as spec;
ghost use Rattle.taskscope.specs.Requests.{program};

use crate::help::{
    ABOUT, AFTER_ARGUMENT_HELP, AFTER_HELP, AT_LEAST_HELP, BEFORE_HELP, BY_HELP, BY_PLACE_HELP,
    COMPARE_ABOUT, COMPARE_LONG_ABOUT, DEMO_ABOUT, DEMO_LONG_ABOUT, EVERY_HELP, EVERY_SECONDS_HELP,
    EXPLAIN_HELP, FILE_HELP, FILTER_HELP, FINDINGS_HELP, FOLLOW_HELP, FOLLOW_INTO_HELP, KEYS_HELP,
    LAST_HELP, LATER_HELP, LIMIT_HELP, LINT_ABOUT, LONG_ABOUT, LONG_POLL_HELP, LONG_WAIT_HELP,
    METRICS_ABOUT, METRICS_LONG_ABOUT, MORE_THAN_HELP, NEVER_YIELDED_HELP, PAGE_ABOUT,
    PAGE_LONG_ABOUT, PERCENT_HELP, PLACE_HELP, PLAIN_HELP, RESOURCES_HELP, ROWS_HELP, RUN_ABOUT,
    RUN_LONG_ABOUT, SERIES_HELP, SINCE_HELP, SORT_HELP, TIMES_HELP, TITLE_HELP, TO_HELP,
    UNTIL_HELP, VIEW_ABOUT, VIEW_LONG_ABOUT, WATCH_ABOUT, WATCH_BY_HELP, WATCH_LONG_ABOUT,
};
use crate::names::{
    AT_LEAST, BEFORE, BY, EVERY, EXPLAIN, FILE, FILTER, FINDINGS, FOLLOW, KEYS, LAST, LATER, LIMIT,
    LONG_POLL, LONG_WAIT, MORE_THAN, NEVER_YIELDED, PERCENT, PLACE, PLAIN, RESOURCES, ROWS, SERIES,
    SINCE, SORT, TIMES, TITLE, TO, UNTIL,
};
use clap::builder::ValueParser;
use clap::error::ErrorKind;
use clap::{Arg, ArgAction, Command, Error};
use std::alloc::Global;
use tk_report::VERSION;

// A command that reads a file or standard input.
fn reading_command<'a>(
    alloc: Global,
    name: &'a str,
    about: &'a str,
    long_about: &'a str,
) -> Result<Command<'a>, Error>
    ensures ok { IfOk result (λ c. app_of c ≡ spec.reading_command name.entry.now) }
    ensures local { IfOk result (λ c. (fields_of c).has_globals ≡ false) }
    ensures err { IfErr result (λ e. kind_of e ≡ ErrorKind.OutOfMemory) }
{
    let file = Arg::new(alloc, FILE).help(FILE_HELP);
    Ok(
        Command::new(alloc, name)
            .about(about)
            .long_about(long_about)
            .arg(file)?,
    )
}

// An option of a number, up to some greatest one.
fn number_arg<'a>(
    alloc: Global,
    name: &'a str,
    told: &'a str,
    default: &'a str,
    most: u64,
) -> Arg<'a>
    ensures rule { rule_of result ≡ spec.number_option name.entry.now default.entry.now most }
    ensures local { result.global ≡ false }
{
    Arg::new(alloc, name)
        .long(name)
        .value_name("N")
        .help(told)
        .default_value(default)
        .value_parser(ValueParser::unsigned(0, most))
}

// An option of a number from 1 on.
fn count_arg<'a>(alloc: Global, name: &'a str, told: &'a str) -> Arg<'a>
    ensures rule { rule_of result ≡ spec.count_option name.entry.now }
    ensures local { result.global ≡ false }
{
    Arg::new(alloc, name)
        .long(name)
        .value_name("N")
        .help(told)
        .value_parser(ValueParser::unsigned(1, 18_446_744_073_709_551_615))
}

// An option of a text.
fn text_arg<'a>(alloc: Global, name: &'a str, value: &'a str, told: &'a str) -> Arg<'a>
    ensures rule { rule_of result ≡ spec.text_option name.entry.now }
    ensures local { result.global ≡ false }
{
    Arg::new(alloc, name)
        .long(name)
        .value_name(value)
        .help(told)
}

// An option of a time.
fn time_arg<'a>(alloc: Global, name: &'a str, told: &'a str) -> Arg<'a>
    ensures rule { rule_of result ≡ spec.text_option name.entry.now }
    ensures local { result.global ≡ false }
{
    text_arg(alloc, name, "TIME", told)
}

// The option of a moment.
fn until_arg<'a>(alloc: Global) -> Arg<'a>
    ensures rule { rule_of result ≡ spec.until_option }
    ensures local { result.global ≡ false }
{
    text_arg(alloc, UNTIL, "MOMENT", UNTIL_HELP)
}

// The option of the moment since which a stream is looked at.
fn since_arg<'a>(alloc: Global) -> Arg<'a>
    ensures rule { rule_of result ≡ spec.since_option }
    ensures local { result.global ≡ false }
{
    text_arg(alloc, SINCE, "MOMENT", SINCE_HELP)
}

// The option of how long before the end that moment is.
fn last_arg<'a>(alloc: Global) -> Arg<'a>
    ensures rule { rule_of result ≡ spec.last_option }
    ensures local { result.global ≡ false }
{
    text_arg(alloc, LAST, "SPAN", LAST_HELP)
}

// The later one of two streams that a page compares.
fn later_arg<'a>(alloc: Global) -> Arg<'a>
    ensures rule { rule_of result ≡ spec.later_argument }
    ensures local { result.global ≡ false }
{
    Arg::new(alloc, LATER).help(LATER_HELP)
}

// An option that is there or not.
fn flag_arg<'a>(alloc: Global, name: &'a str, told: &'a str) -> Arg<'a>
    ensures rule { rule_of result ≡ spec.flag_option name.entry.now }
    ensures local { result.global ≡ false }
{
    Arg::new(alloc, name)
        .long(name)
        .help(told)
        .action(ArgAction::SetTrue)
}

// A command with the options of lints.
fn with_lints<'a>(alloc: Global, command: Command<'a>) -> Result<Command<'a>, Error>
    ensures ok { IfOk result (λ c. app_of c ≡ spec.with_lints (app_of command.entry)) }
    ensures local { (fields_of command.entry).has_globals ≡ false → IfOk result (λ c. (fields_of c).has_globals ≡ false) }
    ensures err { IfErr result (λ e. kind_of e ≡ ErrorKind.OutOfMemory) }
{
    let percent = number_arg(alloc, PERCENT, PERCENT_HELP, "50", 100);
    let limit = number_arg(
        alloc,
        LIMIT,
        LIMIT_HELP,
        "1000000000",
        18_446_744_073_709_551_615,
    );
    let yields = time_arg(alloc, NEVER_YIELDED, NEVER_YIELDED_HELP);
    Ok(command.arg(percent)?.arg(limit)?.arg(yields)?)
}

// A command that views a stream, with the options of lints.
fn view_command<'a>(
    alloc: Global,
    name: &'a str,
    about: &'a str,
    long_about: &'a str,
) -> Result<Command<'a>, Error>
    ensures ok { IfOk result (λ c. app_of c ≡ spec.view_command name.entry.now) }
    ensures local { IfOk result (λ c. (fields_of c).has_globals ≡ false) }
    ensures err { IfErr result (λ e. kind_of e ≡ ErrorKind.OutOfMemory) }
{
    let reading = reading_command(alloc, name, about, long_about)?;
    Ok(with_lints(alloc, reading)?)
}

// A command that views a stream, and warns of long polls and long waits where they are asked for, or tells what is odd, or adds tasks up.
fn spans_command<'a>(
    alloc: Global,
    name: &'a str,
    about: &'a str,
    long_about: &'a str,
) -> Result<Command<'a>, Error>
    ensures ok { IfOk result (λ c. app_of c ≡ spec.spans_command name.entry.now) }
    ensures local { IfOk result (λ c. (fields_of c).has_globals ≡ false) }
    ensures err { IfErr result (λ e. kind_of e ≡ ErrorKind.OutOfMemory) }
{
    let long_poll = time_arg(alloc, LONG_POLL, LONG_POLL_HELP);
    let long_wait = time_arg(alloc, LONG_WAIT, LONG_WAIT_HELP);
    let findings = flag_arg(alloc, FINDINGS, FINDINGS_HELP);
    let by = text_arg(alloc, BY, "KEY", BY_PLACE_HELP);
    let until = until_arg(alloc);
    let since = since_arg(alloc);
    let last = last_arg(alloc);
    Ok(
        view_command(alloc, name, about, long_about)?
            .arg(long_poll)?
            .arg(long_wait)?
            .arg(findings)?
            .arg(by)?
            .arg(until)?
            .arg(since)?
            .arg(last)?,
    )
}

// The run of a script.
fn run_command<'a>(alloc: Global) -> Result<Command<'a>, Error>
    ensures ok { IfOk result (λ c. app_of c ≡ spec.run_command) }
    ensures local { IfOk result (λ c. (fields_of c).has_globals ≡ false) }
    ensures err { IfErr result (λ e. kind_of e ≡ ErrorKind.OutOfMemory) }
{
    let explain = flag_arg(alloc, EXPLAIN, EXPLAIN_HELP);
    let run = reading_command(alloc, "run", RUN_ABOUT, RUN_LONG_ABOUT)?;
    Ok(run.arg(explain)?)
}

// The report, with histograms, or one place, where they are asked for.
fn report_command<'a>(alloc: Global) -> Result<Command<'a>, Error>
    ensures ok { IfOk result (λ c. app_of c ≡ spec.report_command) }
    ensures local { IfOk result (λ c. (fields_of c).has_globals ≡ false) }
    ensures err { IfErr result (λ e. kind_of e ≡ ErrorKind.OutOfMemory) }
{
    let times = flag_arg(alloc, TIMES, TIMES_HELP);
    let place = count_arg(alloc, PLACE, PLACE_HELP);
    let explain = flag_arg(alloc, EXPLAIN, EXPLAIN_HELP);
    Ok(
        spans_command(alloc, "view", VIEW_ABOUT, VIEW_LONG_ABOUT)?
            .arg(times)?
            .arg(place)?
            .arg(explain)?,
    )
}

// The warnings alone. This is what its help says at length.
fn lint_command<'a>(alloc: Global, long_about: &'a str) -> Result<Command<'a>, Error>
    ensures ok { IfOk result (λ c. app_of c ≡ spec.lint_command) }
    ensures local { IfOk result (λ c. (fields_of c).has_globals ≡ false) }
    ensures err { IfErr result (λ e. kind_of e ≡ ErrorKind.OutOfMemory) }
{
    let explain = flag_arg(alloc, EXPLAIN, EXPLAIN_HELP);
    let lint = spans_command(alloc, "lint", LINT_ABOUT, long_about)?;
    Ok(lint.arg(explain)?)
}

// The page, with what a long poll is, its title, up to when it shows a stream, and whether a fault is explained.
fn page_command<'a>(alloc: Global) -> Result<Command<'a>, Error>
    ensures ok { IfOk result (λ c. app_of c ≡ spec.page_command) }
    ensures local { IfOk result (λ c. (fields_of c).has_globals ≡ false) }
    ensures err { IfErr result (λ e. kind_of e ≡ ErrorKind.OutOfMemory) }
{
    let long_poll = time_arg(alloc, LONG_POLL, LONG_POLL_HELP);
    let title = text_arg(alloc, TITLE, "TEXT", TITLE_HELP);
    let until = until_arg(alloc);
    let later = later_arg(alloc);
    let explain = flag_arg(alloc, EXPLAIN, EXPLAIN_HELP);
    Ok(
        view_command(alloc, "page", PAGE_ABOUT, PAGE_LONG_ABOUT)?
            .arg(long_poll)?
            .arg(title)?
            .arg(until)?
            .arg(later)?
            .arg(explain)?,
    )
}

// What a screen shows.
fn shows_command<'a>(alloc: Global) -> Result<Command<'a>, Error>
    ensures ok { IfOk result (λ c. app_of c ≡ spec.shows_command) }
    ensures local { IfOk result (λ c. (fields_of c).has_globals ≡ false) }
    ensures err { IfErr result (λ e. kind_of e ≡ ErrorKind.OutOfMemory) }
{
    let sort = text_arg(alloc, SORT, "COLUMN", SORT_HELP);
    let rows = number_arg(alloc, ROWS, ROWS_HELP, "0", 1_000_000);
    let filter = text_arg(alloc, FILTER, "TEXT", FILTER_HELP);
    let resources = flag_arg(alloc, RESOURCES, RESOURCES_HELP);
    let by = text_arg(alloc, BY, "KEY", WATCH_BY_HELP);
    Ok(
        view_command(alloc, "watch", WATCH_ABOUT, WATCH_LONG_ABOUT)?
            .arg(sort)?
            .arg(rows)?
            .arg(filter)?
            .arg(resources)?
            .arg(by)?,
    )
}

// What a screen shows, and when it is drawn.
fn watch_command<'a>(alloc: Global) -> Result<Command<'a>, Error>
    ensures ok { IfOk result (λ c. app_of c ≡ spec.watch_command) }
    ensures local { IfOk result (λ c. (fields_of c).has_globals ≡ false) }
    ensures err { IfErr result (λ e. kind_of e ≡ ErrorKind.OutOfMemory) }
{
    let every = time_arg(alloc, EVERY, EVERY_HELP);
    let follow = flag_arg(alloc, FOLLOW, FOLLOW_HELP);
    let keys = flag_arg(alloc, KEYS, KEYS_HELP);
    let plain = flag_arg(alloc, PLAIN, PLAIN_HELP);
    Ok(
        shows_command(alloc)?
            .arg(every)?
            .arg(follow)?
            .arg(keys)?
            .arg(plain)?,
    )
}

// The numbers of a stream, and the file that they are kept in.
fn metrics_command<'a>(alloc: Global) -> Result<Command<'a>, Error>
    ensures ok { IfOk result (λ c. app_of c ≡ spec.metrics_command) }
    ensures local { IfOk result (λ c. (fields_of c).has_globals ≡ false) }
    ensures err { IfErr result (λ e. kind_of e ≡ ErrorKind.OutOfMemory) }
{
    let by = text_arg(alloc, BY, "KEY", BY_HELP);
    let to = text_arg(alloc, TO, "PATH", TO_HELP);
    let every = time_arg(alloc, EVERY, EVERY_SECONDS_HELP);
    let follow = flag_arg(alloc, FOLLOW, FOLLOW_INTO_HELP);
    let series = count_arg(alloc, SERIES, SERIES_HELP);
    let until = until_arg(alloc);
    Ok(
        view_command(alloc, "metrics", METRICS_ABOUT, METRICS_LONG_ABOUT)?
            .arg(by)?
            .arg(to)?
            .arg(every)?
            .arg(follow)?
            .arg(series)?
            .arg(until)?,
    )
}

// The earlier one of two streams.
fn before_arg<'a>(alloc: Global) -> Arg<'a>
    ensures rule { rule_of result ≡ spec.before_argument }
    ensures local { result.global ≡ false }
{
    Arg::new(alloc, BEFORE).help(BEFORE_HELP).required(true)
}

// The later one.
fn after_arg<'a>(alloc: Global) -> Arg<'a>
    ensures rule { rule_of result ≡ spec.after_argument }
    ensures local { result.global ≡ false }
{
    Arg::new(alloc, FILE)
        .value_name("AFTER")
        .help(AFTER_ARGUMENT_HELP)
}

// Both streams.
fn streams_command<'a>(alloc: Global) -> Result<Command<'a>, Error>
    ensures ok { IfOk result (λ c. app_of c ≡ spec.streams_command) }
    ensures local { IfOk result (λ c. (fields_of c).has_globals ≡ false) }
    ensures err { IfErr result (λ e. kind_of e ≡ ErrorKind.OutOfMemory) }
{
    let before = before_arg(alloc);
    let after = after_arg(alloc);
    Ok(
        Command::new(alloc, "compare")
            .about(COMPARE_ABOUT)
            .long_about(COMPARE_LONG_ABOUT)
            .arg(before)?
            .arg(after)?,
    )
}

// Both streams, what is odd about them, and what a change is.
fn compare_command<'a>(alloc: Global) -> Result<Command<'a>, Error>
    ensures ok { IfOk result (λ c. app_of c ≡ spec.compare_command) }
    ensures local { IfOk result (λ c. (fields_of c).has_globals ≡ false) }
    ensures err { IfErr result (λ e. kind_of e ≡ ErrorKind.OutOfMemory) }
{
    let long_poll = time_arg(alloc, LONG_POLL, LONG_POLL_HELP);
    let more_than = number_arg(alloc, MORE_THAN, MORE_THAN_HELP, "50", 4_294_967_295);
    let at_least = time_arg(alloc, AT_LEAST, AT_LEAST_HELP);
    let streams = streams_command(alloc)?;
    Ok(
        with_lints(alloc, streams)?
            .arg(long_poll)?
            .arg(more_than)?
            .arg(at_least)?,
    )
}

// The program without its words.
fn top_command<'a>(alloc: Global) -> Result<Command<'a>, Error>
    ensures ok { IfOk result (λ c. app_of c ≡ spec.bare) }
    ensures err { IfErr result (λ e. kind_of e ≡ ErrorKind.OutOfMemory) }
{
    Ok(
        Command::new(alloc, "taskscope")
            // Else the usage calls the program by the path that it was started by.
            .bin_name("taskscope")?
            .about(ABOUT)
            .long_about(LONG_ABOUT)
            .after_help(AFTER_HELP)
            .version(VERSION)
            .subcommand_required(true),
    )
}

// The program with the words that stand first in its help.
fn first_words<'a>(alloc: Global, long_about: &'a str) -> Result<Command<'a>, Error>
    ensures ok { IfOk result (λ c. app_of c ≡ spec.first_words) }
    ensures err { IfErr result (λ e. kind_of e ≡ ErrorKind.OutOfMemory) }
{
    let run = run_command(alloc)?;
    let view = report_command(alloc)?;
    let lint = lint_command(alloc, long_about)?;
    Ok(
        top_command(alloc)?
            .subcommand(run)?
            .subcommand(view)?
            .subcommand(lint)?,
    )
}

// And with those that stand next.
fn more_words<'a>(alloc: Global, long_about: &'a str) -> Result<Command<'a>, Error>
    ensures ok { IfOk result (λ c. app_of c ≡ spec.more_words) }
    ensures err { IfErr result (λ e. kind_of e ≡ ErrorKind.OutOfMemory) }
{
    let page = page_command(alloc)?;
    let watch = watch_command(alloc)?;
    let metrics = metrics_command(alloc)?;
    Ok(
        first_words(alloc, long_about)?
            .subcommand(page)?
            .subcommand(watch)?
            .subcommand(metrics)?,
    )
}

pub(crate) fn command_line<'a>(alloc: Global, long_about: &'a str) -> Result<Command<'a>, Error>
    ensures ok { IfOk result (λ c. app_of c ≡ program) }
    ensures err { IfErr result (λ e. kind_of e ≡ ErrorKind.OutOfMemory) }
{
    let compare = compare_command(alloc)?;
    let demo = Command::new(alloc, "demo")
        .about(DEMO_ABOUT)
        .long_about(DEMO_LONG_ABOUT);
    Ok(
        more_words(alloc, long_about)?
            .subcommand(compare)?
            .subcommand(demo)?,
    )
}
