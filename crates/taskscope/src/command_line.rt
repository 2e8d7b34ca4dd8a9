//! What the words of a command line ask for.
ghost use Rattle.std.specs.Prelude.{◌≡◌, IfOk, Some, false, unwrap_or};
ghost use Rattle.std.specs.Option.{option_map};
ghost use Rattle.clap.specs.Kinds.{FailsBy};
ghost use Rattle.clap.specs.Simple.{subcommand_of, subcommand_rows_of};
ghost use Rattle.taskscope.specs.Requests as spec;
ghost use Rattle.taskscope.specs.Requests.{program, refusals, texts};

use crate::asked::asked_in;
use crate::commands::command_line;
use crate::mistakes::{names_nothing, no_name};
use crate::moments::Moment;
use crate::names::{EXPLAIN, FILTER, TITLE, TO};
use crate::options::{before_at, file_at, flag_at, text_at};
use crate::spans::{since_at, until_at};
use clap::{ArgMatches, Error};
use std::alloc::Global;
use tk_app::{TimesOptions, View};
use tk_client::Lints;
use tk_compare::Margin;
use tk_frame::Column;
use tk_metrics::Apart;
use tk_odd::Limits;
use tk_sites::SitesView;

/// A call of the program: what its words ask for, and the texts that they give.
#[derive(Clone, Copy)]
pub(crate) struct Call<'a> {
    pub request: Request,
    /// The file whose bytes are meant, where these aren't standard input's.
    pub file: Option<&'a str>,
    /// What stands in the name of each task that is watched, where not all are.
    pub filter: Option<&'a str>,
    /// The file that numbers are kept in, where they aren't written to standard output.
    pub to: Option<&'a str>,
    /// The title of a page.
    pub title: &'a str,
    /// The file of the earlier one of two streams that are compared. Else the file, of which the begin is earlier, or nothing.
    pub before: &'a str,
    /// The moment up to which a stream is read, where not all of it is.
    pub until: Option<Moment>,
    /// The moment since which it is looked at, where not from its begin.
    pub since: Option<Moment>,
    /// Whether a fault is explained.
    pub explains: bool,
}

/// What the words of a command line ask for.
#[derive(Clone, Copy)]
pub(crate) enum Request {
    /// To run a script.
    Run,
    /// To show what a stream's tables come to, with warnings by these lints, and of poll times what these options ask for.
    Show {
        view: View,
        lints: Lints,
        times: TimesOptions,
    },
    /// To tell what is odd about a stream by these limits, alone or below what its tables come to, with histograms or without.
    Find {
        view: View,
        limits: Limits,
        times: bool,
    },
    /// To add a stream's tasks up by place, with warnings by these lints, and of waits of so many milliseconds, and with histograms or
    /// without.
    Sites {
        view: SitesView,
        lints: Lints,
        wait_ms: Option<u64>,
        times: bool,
    },
    /// To draw a stream as one page, with what is odd by these limits.
    Page {
        limits: Limits,
    },
    /// To draw what changed from a stream to a later one as one page.
    PageChanges(CompareOptions),
    /// To draw a stream's tables as a screen while it comes.
    Watch(WatchOptions),
    /// To write a stream's numbers, or to keep them in a file.
    Metrics(MetricsOptions),
    /// To write what changed from a stream to a later one.
    Compare(CompareOptions),
    /// To show three tasks of this project's own works.
    Demo,
}

/// What the screens of a watch show, and when they are drawn.
#[derive(Clone, Copy)]
pub(crate) struct WatchOptions {
    /// By which column tasks or places are sorted.
    pub sort: Column,
    /// Whether places are shown in the place of tasks.
    pub by_place: bool,
    /// How many tasks are shown at most, and of resources and async operations as many. 0 is as many as fit, and as text 20.
    pub rows: u64,
    /// Whether resources and async operations are shown too.
    pub resources: bool,
    /// Whether screens are text, also on a terminal.
    pub plain: bool,
    /// Whether the terminal's keys are heard.
    pub keys: bool,
    /// How many milliseconds lie between two screens at least.
    pub every: u64,
    /// Whether more may come once the stream has ended.
    pub follow: bool,
    /// From when on a task is warned of.
    pub lints: Lints,
}

/// Which numbers of a stream are written, and when they are put in a file anew.
#[derive(Clone, Copy)]
pub(crate) struct MetricsOptions {
    /// What tasks are told apart by, and how many labels stand by themselves.
    pub apart: Apart,
    /// How many seconds lie between two texts of a file at least.
    pub every: u64,
    /// Whether more may come once the stream has ended.
    pub follow: bool,
    /// From when on a task is warned of.
    pub lints: Lints,
}

/// What counts if two streams are compared.
#[derive(Clone, Copy)]
pub(crate) struct CompareOptions {
    /// By which limits something is odd.
    pub limits: Limits,
    /// How much more or less is a change.
    pub margin: Margin,
}

fn file_in<'a>(matches: &ArgMatches<'a>) -> Option<&'a str>
    ensures { option_map (λ file. file.now) result ≡ spec.file_in (subcommand_rows_of matches.now) }
{
    match matches.subcommand() {
        Some((_, options)) => file_at(options),
        None => None,
    }
}

fn filter_in<'a>(matches: &ArgMatches<'a>) -> Option<&'a str>
    ensures { option_map (λ filter. filter.now) result ≡ spec.filter_in (subcommand_rows_of matches.now) }
{
    match matches.subcommand() {
        Some((_, options)) => text_at(options, FILTER),
        None => None,
    }
}

fn to_in<'a>(matches: &ArgMatches<'a>) -> Option<&'a str>
    ensures { option_map (λ to. to.now) result ≡ spec.to_in (subcommand_rows_of matches.now) }
{
    match matches.subcommand() {
        Some((_, options)) => text_at(options, TO),
        None => None,
    }
}

fn title_in<'a>(matches: &ArgMatches<'a>) -> Option<&'a str>
    ensures { option_map (λ title. title.now) result ≡ spec.title_in (subcommand_rows_of matches.now) }
{
    match matches.subcommand() {
        Some((_, options)) => text_at(options, TITLE),
        None => None,
    }
}

fn before_in<'a>(matches: &ArgMatches<'a>) -> Option<&'a str>
    ensures { option_map (λ before. before.now) result ≡ spec.before_in (subcommand_rows_of matches.now) }
{
    match matches.subcommand() {
        Some((_, options)) => before_at(options),
        None => None,
    }
}

fn until_in(matches: &ArgMatches) -> Option<Moment>
    ensures { result ≡ spec.until_in (subcommand_rows_of matches.now) }
{
    match matches.subcommand() {
        Some((_, options)) => until_at(options),
        None => None,
    }
}

fn since_in(matches: &ArgMatches) -> Option<Moment>
    ensures { result ≡ spec.since_in (subcommand_rows_of matches.now) }
{
    match matches.subcommand() {
        Some((_, options)) => since_at(options),
        None => None,
    }
}

// The first of these texts that is there, or else the last one.
fn text_or<'a>(text: Option<&'a str>, other: &'a str) -> &'a str
    ensures { result.now ≡ unwrap_or (option_map (λ t. t.now) text.entry) other.entry.now }
{
    match text {
        Some(text) => text,
        None => other,
    }
}

fn explains_in(matches: &ArgMatches) -> bool
    ensures { result ≡ spec.explains_in (subcommand_rows_of matches.now) }
{
    match matches.subcommand() {
        Some((_, options)) => flag_at(options, EXPLAIN),
        None => false,
    }
}

// What a parse finds in words that are taken.
fn matches_of<'a>(
    alloc: Global,
    words: &'a [String],
    long_about: &'a str,
) -> Result<ArgMatches<'a>, Error>
    ensures fails { FailsBy (refusals (texts words.now)) result }
    ensures found { IfOk result (λ m. subcommand_rows_of m ≡ subcommand_of program (texts words.now)) }
{
    let mut command = command_line(alloc, long_about)?;
    let matches = command.try_get_matches_from_mut(words)?;
    if names_nothing(&matches) {
        return Err(no_name(alloc, &mut command, &matches));
    }
    Ok(matches)
}

/// What the words ask for, the first of which is the program's name. Else a mistake in them, or the help that they ask for; that of
/// `lint` says this at length.
pub(crate) fn call_of<'a>(
    alloc: Global,
    words: &'a [String],
    long_about: &'a str,
) -> Result<Call<'a>, Error>
    // A call where a parse takes the words and their options name what there is, and else a kind of error by which they are refused; or
    // want of memory.
    ensures fails { FailsBy (refusals (texts words.now)) result }
    ensures asked { IfOk result (λ call. spec.asked (texts words.now) ≡ Some call.request) }
    ensures file { IfOk result (λ call. spec.file_of (texts words.now) ≡ option_map (λ file. file.now) call.file) }
    ensures filter { IfOk result (λ call. spec.filter_of (texts words.now) ≡ option_map (λ filter. filter.now) call.filter) }
    ensures to { IfOk result (λ call. spec.to_of (texts words.now) ≡ option_map (λ to. to.now) call.to) }
    ensures title { IfOk result (λ call. spec.title_text (texts words.now) ≡ call.title.now) }
    ensures before { IfOk result (λ call. spec.before_text (texts words.now) ≡ call.before.now) }
    ensures until { IfOk result (λ call. spec.until_of (texts words.now) ≡ call.until) }
    ensures since { IfOk result (λ call. spec.since_of (texts words.now) ≡ call.since) }
    ensures explains { IfOk result (λ call. spec.explains (texts words.now) ≡ call.explains) }
{
    let matches = matches_of(alloc, words, long_about)?;
    // A command is required, and the parse has checked its numbers.
    let request = asked_in(&matches).unwrap();
    let file = file_in(&matches);
    let name = text_or(file, "taskscope");
    Ok(Call {
        request,
        file,
        filter: filter_in(&matches),
        to: to_in(&matches),
        title: text_or(title_in(&matches), name),
        before: text_or(before_in(&matches), ""),
        until: until_in(&matches),
        since: since_in(&matches),
        explains: explains_in(&matches),
    })
}
