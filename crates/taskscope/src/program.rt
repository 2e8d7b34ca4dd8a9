//! A run of the program, from its words to its status.
ghost use Rattle.std.specs.Prelude.{◌≡◌, ◌≢◌, ◌≤◌, ◌⊎◌, true, [], codes, IsSome, None, Ok};
ghost use Rattle.std.specs.Option.{option_map};
ghost use Rattle.clap.specs.Values.{kind_of};
ghost use Rattle.tk_found.specs.Views as found;
ghost use Rattle.tk_report.specs.Timed.{no_times};
ghost use Rattle.tk_client.specs.Warnings.{default_lints};
ghost use Rattle.taskscope.specs.Requests as spec;
ghost use Rattle.taskscope.specs.Requests.{AsksForFile, AsksForHelp, AsksForInput, AsksForVersion, IsMistake, IsPlain, asked, before_text, file_text, filter_of, is_mistake, plain_metrics, plain_watch, refusals, since_of, texts, title_text, to_of, until_of};
ghost use Rattle.taskscope.specs.Program.{Does, DoesOfFile, DoesUntil, KeepsStream, RunsScript, filter_text, moment_at};

use crate::command_line::{Call, MetricsOptions, Request, call_of};
use crate::compares::compare;
use crate::help::lint_long_about;
use crate::moments_of_file::{moment_at, moment_of_file};
use crate::reports::{draw_explained, draw_page, find, find_explained, view, view_explained};
use crate::sites::{add_up_explained, add_up_since};
use crate::sources::Sources;
use crate::statuses::{
    DONE, FAULT, USAGE, WARNED, tell_fault, tell_kept, tell_outcome, tell_unopened,
};
use crate::watches::{at_keys, filter_text, watch, watch_at_keys};
use clap::Error;
use clap::error::ErrorKind;
use std::alloc::{AllocGlobal, Global};
use std::io::{ErrorKind as IoErrorKind, Read, Write};
use std::random::RandomSource;
use std::rt::Files;
use std::sync::Wait;
use std::thread::Threads;
use std::time::Clock;
use tk_app::{AppFault, Open, View, demo, run_script};
use tk_explain::{Kept, explain_script};
use tk_metrics::{Place, keep_metrics, metrics_stream};
use tk_reading::Every;
use tk_screen::Canvas;
use tk_until::Until;

// Runs a script, and answers the status. What is explained of a fault stands below it.
fn run<R: Threads + Wait + Sync, I: Read, O: Write, E: Write>(
    rt: &R,
    alloc: Global,
    input: &mut I,
    output: &mut O,
    explains: bool,
    faults: &mut E,
) -> u8
    ensures does { RunsScript (I.remaining input.old) (O.contents output.old) (O.contents output.new) result }
    ensures status { result ≤ FAULT }
{
    if !explains {
        return tell_outcome(run_script(rt, alloc, input, output, &Open), faults);
    }
    let mut script = Kept::all(alloc, input);
    let outcome = run_script(rt, alloc, &mut script, output, &Open);
    let status = tell_outcome(outcome, faults);
    let _ = explain_script(alloc, &script, outcome, faults);
    status
}

// Keeps a stream's numbers under a path, and answers the status.
fn keep<R: Clock, I: Read, P: Place, E: Write>(
    rt: &R,
    alloc: Global,
    options: &MetricsOptions,
    path: &str,
    input: &mut I,
    place: &mut P,
    faults: &mut E,
) -> u8
    ensures does { KeepsStream options.now path.now (I.remaining input.old) (I.remaining input.new) (P.texts place.old) (P.texts place.new)
        result }
    ensures status { result ≤ FAULT }
{
    let mut pace = Every::new(rt, options.every.saturating_mul(1000), options.follow);
    tell_kept(
        keep_metrics(
            alloc,
            input,
            place,
            path,
            options.apart,
            &options.lints,
            &mut pace,
        ),
        faults,
    )
}

// Does what a call asks for without keys, and answers the status. Whether more is told of a stream's fault is not asked here.
fn fulfil<
    R: Threads + Wait + Sync + RandomSource + AllocGlobal + Clock,
    S: Sources,
    I: Read,
    O: Write,
    P: Place,
    E: Write,
>(
    rt: &R,
    alloc: Global,
    sources: &S,
    call: &Call<'_>,
    since: Option<u64>,
    terminal: Canvas,
    input: &mut I,
    output: &mut O,
    place: &mut P,
    faults: &mut E,
) -> u8
    requires { spec.at_keys call.now.request ≡ None }
    ensures does { Does S.File.remaining (S.is_of sources.now call.now.before.now) terminal (option_map (λ f. f.now) call.now.filter)
        (option_map (λ p. p.now) call.now.to) ((call.now.title.now, call.now.before.now), since) call.now.request
        (I.remaining input.old) (I.remaining input.new) (O.contents output.old) (O.contents output.new) (P.texts place.old)
        (P.texts place.new) result }
    ensures kept { option_map (λ p. p.now) call.now.to ≡ None → place.new ≡ place.old }
    ensures status { (result ≤ FAULT) ⊎ (result ≡ WARNED) }
{
    match call.request {
        Request::Run => run(rt, alloc, input, output, call.explains, faults),
        Request::Show {
            view: shown,
            lints,
            times,
        } => {
            let (_, status) = view(alloc, shown, &lints, &times, input, output, faults);
            status
        }
        Request::Find {
            view,
            limits,
            times,
        } => {
            let (_, status) = find(alloc, view, limits, since, times, input, output, faults);
            status
        }
        Request::Sites {
            view,
            lints,
            wait_ms,
            times,
        } => add_up_since(
            alloc,
            sources,
            call.before,
            since,
            view,
            &lints,
            wait_ms,
            times,
            input,
            output,
            faults,
        ),
        Request::Page { limits } => {
            let (_, status) = draw_page(alloc, limits, call.title, input, output, faults);
            status
        }
        Request::Watch(options) => {
            let text = filter_text(call.filter);
            watch(rt, alloc, &options, text, terminal, input, output, faults)
        }
        Request::Metrics(options) => match call.to {
            Some(path) => keep(rt, alloc, &options, path, input, place, faults),
            None => tell_outcome(
                metrics_stream(alloc, input, output, options.apart, &options.lints),
                faults,
            ),
        },
        Request::Compare(options) => compare(
            alloc,
            sources,
            options,
            None,
            call.before,
            input,
            output,
            faults,
        ),
        Request::PageChanges(options) => compare(
            alloc,
            sources,
            options,
            Some((call.title, call.before)),
            call.before,
            input,
            output,
            faults,
        ),
        Request::Demo => tell_outcome(demo(rt, alloc, output), faults),
    }
}

// Does what a call asks for without keys, and answers the reader, as its reads left it, and the status. More is told of a stream's fault if
// the call asks for it.
fn fulfil_explained<
    R: Threads + Wait + Sync + RandomSource + AllocGlobal + Clock,
    S: Sources,
    I: Read,
    O: Write,
    P: Place,
    E: Write,
>(
    rt: &R,
    alloc: Global,
    sources: &S,
    call: &Call<'_>,
    since: Option<u64>,
    terminal: Canvas,
    mut input: I,
    output: &mut O,
    place: &mut P,
    faults: &mut E,
) -> (I, u8)
    requires { spec.at_keys call.now.request ≡ None }
    ensures does { Does S.File.remaining (S.is_of sources.now call.now.before.now) terminal (option_map (λ f. f.now) call.now.filter)
        (option_map (λ p. p.now) call.now.to) ((call.now.title.now, call.now.before.now), since) call.now.request
        (I.remaining input) (I.remaining result.0) (O.contents output.old) (O.contents output.new) (P.texts place.old) (P.texts place.new)
        result.1 }
    ensures kept { option_map (λ p. p.now) call.now.to ≡ None → place.new ≡ place.old }
    ensures status { (result.1 ≤ FAULT) ⊎ (result.1 ≡ WARNED) }
{
    let request = call.request;
    if call.explains {
        if let Request::Show {
            view: shown,
            lints,
            times,
        } = request
        {
            return view_explained(alloc, shown, &lints, &times, input, output, faults);
        }
        if let Request::Find {
            view,
            limits,
            times,
        } = request
        {
            return find_explained(alloc, view, limits, since, times, input, output, faults);
        }
        if let Request::Sites {
            view,
            lints,
            wait_ms,
            times,
        } = request
        {
            // Words that ask for a span of places ask for no explanation.
            if since.is_none() {
                return add_up_explained(alloc, view, &lints, wait_ms, times, input, output, faults);
            }
        }
        if let Request::Page { limits } = request {
            return draw_explained(alloc, limits, call.title, input, output, faults);
        }
    }
    let status = fulfil(
        rt, alloc, sources, call, since, terminal, &mut input, output, place, faults,
    );
    (input, status)
}

// The same of what the reader says up to a moment, if one is given.
fn fulfil_until<
    R: Threads + Wait + Sync + RandomSource + AllocGlobal + Clock,
    S: Sources,
    I: Read,
    O: Write,
    P: Place,
    E: Write,
>(
    rt: &R,
    alloc: Global,
    sources: &S,
    call: &Call<'_>,
    since: Option<u64>,
    terminal: Canvas,
    until: Option<u64>,
    input: I,
    output: &mut O,
    place: &mut P,
    faults: &mut E,
) -> (I, u8)
    requires { spec.at_keys call.now.request ≡ None }
    ensures does { DoesUntil until S.File.remaining (S.is_of sources.now call.now.before.now) terminal
        (option_map (λ f. f.now) call.now.filter) (option_map (λ p. p.now) call.now.to) ((call.now.title.now, call.now.before.now), since)
        call.now.request
        (I.remaining input) (I.remaining result.0) (O.contents output.old) (O.contents output.new) (P.texts place.old) (P.texts place.new)
        result.1 }
    ensures kept { option_map (λ p. p.now) call.now.to ≡ None → place.new ≡ place.old }
    ensures status { (result.1 ≤ FAULT) ⊎ (result.1 ≡ WARNED) }
{
    match until {
        None => fulfil_explained(
            rt, alloc, sources, call, since, terminal, input, output, place, faults,
        ),
        Some(moment) => {
            let front = Until::new(alloc, input, Some(moment));
            let (left, status) = fulfil_explained(
                rt, alloc, sources, call, since, terminal, front, output, place, faults,
            );
            (left.into_reader(), status)
        }
    }
}

// Does what a call asks for with the bytes of the input.
fn fulfil_of_input<
    R: Threads
        + Wait
        + RandomSource
        + AllocGlobal
        + Clock
        + Files
        + Copy
        + Send
        + Sync
        + Drop
        + 'static,
    S: Sources,
    I: Read + Copy + Send + Drop + 'static,
    O: Write,
    P: Place,
    E: Write,
>(
    rt: &R,
    alloc: Global,
    sources: &S,
    call: &Call<'_>,
    terminal: Canvas,
    input: &mut I,
    output: &mut O,
    place: &mut P,
    faults: &mut E,
) -> u8
where
    R::File: Send + 'static,
    ensures does { DoesUntil (moment_at call.now.until) S.File.remaining (S.is_of sources.now call.now.before.now) terminal
        (option_map (λ f. f.now) call.now.filter) (option_map (λ p. p.now) call.now.to)
        ((call.now.title.now, call.now.before.now), moment_at call.now.since) call.now.request
        (I.remaining input.old) (I.remaining input.new) (O.contents output.old) (O.contents output.new) (P.texts place.old)
        (P.texts place.new) result }
    ensures kept { option_map (λ p. p.now) call.now.to ≡ None → place.new ≡ place.old }
    ensures status { (result ≤ FAULT) ⊎ (result ≡ WARNED) }
{
    if let Some(options) = at_keys(&call.request) {
        let text = filter_text(call.filter);
        return watch_at_keys(rt, alloc, &options, text, terminal, *input, output, faults);
    }
    let (left, status) = fulfil_until(
        rt,
        alloc,
        sources,
        call,
        moment_at(call.since),
        terminal,
        moment_at(call.until),
        *input,
        output,
        place,
        faults,
    );
    *input = left;
    status
}

// Does what a call asks for with the bytes of the file that a path names.
fn fulfil_of_file<
    R: Threads
        + Wait
        + RandomSource
        + AllocGlobal
        + Clock
        + Files
        + Copy
        + Send
        + Sync
        + Drop
        + 'static,
    S: Sources,
    O: Write,
    P: Place,
    E: Write,
>(
    rt: &R,
    alloc: Global,
    sources: &S,
    call: &Call<'_>,
    terminal: Canvas,
    path: &str,
    output: &mut O,
    place: &mut P,
    faults: &mut E,
) -> u8
where
    R::File: Send + 'static,
    ensures does { DoesOfFile call.now.until call.now.since S.File.remaining (S.is_of sources.now path.now)
        (S.is_of sources.now call.now.before.now) terminal
        (option_map (λ f. f.now) call.now.filter) (option_map (λ p. p.now) call.now.to) (call.now.title.now, call.now.before.now)
        call.now.request
        (O.contents output.old) (O.contents output.new) (P.texts place.old) (P.texts place.new) result }
    ensures kept { option_map (λ p. p.now) call.now.to ≡ None → place.new ≡ place.old }
    ensures status { (result ≤ FAULT) ⊎ (result ≡ WARNED) }
{
    let until = match moment_of_file(alloc, sources, call.until, path, faults) {
        Ok(until) => until,
        Err(status) => return status,
    };
    let since = match moment_of_file(alloc, sources, call.since, path, faults) {
        Ok(since) => since,
        Err(status) => return status,
    };
    let file = match sources.open(path) {
        Ok(file) => file,
        Err(error) => return tell_unopened(path, error, faults),
    };
    if let Some(options) = at_keys(&call.request) {
        let text = filter_text(call.filter);
        return watch_at_keys(rt, alloc, &options, text, terminal, file, output, faults);
    }
    let (_, status) = fulfil_until(
        rt, alloc, sources, call, since, terminal, until, file, output, place, faults,
    );
    status
}

// What clap answers when it gives no request: help, the version, a mistake in the words, or want of memory.
fn answer<O: Write, E: Write>(error: Error, output: &mut O, faults: &mut E) -> u8
    ensures memory { kind_of error ≡ ErrorKind.OutOfMemory → (result ≡ FAULT) × (output.new ≡ output.old) }
    ensures mistake { is_mistake (kind_of error) ≡ true → (result ≡ USAGE) × (output.new ≡ output.old) }
    ensures help { kind_of error ≡ ErrorKind.DisplayHelp → result ≤ FAULT }
    ensures version { kind_of error ≡ ErrorKind.DisplayVersion → result ≤ FAULT }
    ensures usage { result ≡ USAGE → output.new ≡ output.old }
    ensures status { result ≤ USAGE }
{
    if error.kind() == ErrorKind::OutOfMemory {
        return tell_fault(AppFault::Memory, faults);
    }
    if error.use_stderr() {
        let _ = write!(faults, "{error}");
        return USAGE;
    }
    match write!(output, "{error}") {
        Ok(()) => DONE,
        Err(_) => tell_fault(AppFault::Write, faults),
    }
}

/// Answers the status where the words of the command line can't be had: one is no text, or there is no memory for them.
pub(crate) fn refuse_words<E: Write>(kind: IoErrorKind, faults: &mut E) -> u8
    ensures memory { kind ≡ IoErrorKind.OutOfMemory → result ≡ FAULT }
    ensures usage { kind ≢ IoErrorKind.OutOfMemory → result ≡ USAGE }
{
    if kind == IoErrorKind::OutOfMemory {
        return tell_fault(AppFault::Memory, faults);
    }
    let _ = writeln!(faults, "error: an argument is no text");
    USAGE
}

/// Does what the words ask for, the first of which is the program's name, and answers the status. Screens are drawn on this terminal, and
/// numbers kept in this place.
///
/// What goes to `faults` is only tested.
pub(crate) fn run_program<
    R: Threads
        + Wait
        + RandomSource
        + AllocGlobal
        + Clock
        + Files
        + Copy
        + Send
        + Sync
        + Drop
        + 'static,
    S: Sources,
    I: Read + Copy + Send + Drop + 'static,
    O: Write,
    P: Place,
    E: Write,
>(
    rt: &R,
    alloc: Global,
    words: &[String],
    terminal: Canvas,
    sources: &S,
    input: &mut I,
    output: &mut O,
    place: &mut P,
    faults: &mut E,
) -> u8
where
    R::File: Send + 'static,
    // What is asked for is done, of what the input says up to the moment that the words name, if they name one, and findings and places
    // since another: a run reads and writes as `run_script` does, a view as `view_stream_with` does, as `view_sites` does by place, or as
    // `view_findings` does where what is odd is asked for, a page as `view_page_with` does, a watch as `watch_stream` does, or as
    // `watch_terminal` does of some stream where keys are heard, numbers as `metrics_stream` does, or as `keep_metrics` does where a path
    // is given, a comparison as `read_recorded` and `compare_recorded` do, and the demo writes as `demo` does. The status is 1 exactly
    // where there was a fault, and 3 exactly where `lint` found warnings, or findings where they are asked for, or where a comparison found
    // that something got worse.
    ensures does { (request : Request) → AsksForInput request (texts words.now)
        → DoesUntil (moment_at (until_of (texts words.now))) S.File.remaining (S.is_of sources.now (before_text (texts words.now))) terminal
        (filter_of (texts words.now)) (to_of (texts words.now))
        ((title_text (texts words.now), before_text (texts words.now)), moment_at (since_of (texts words.now))) request
        (I.remaining input.old) (I.remaining input.new) (O.contents output.old) (O.contents output.new) (P.texts place.old)
        (P.texts place.new) result }
    // With a file the same is done of the bytes that stand under the path that the words name, or it could not be opened. The input is as
    // it was.
    ensures file { (request : Request) → AsksForFile request (texts words.now)
        → (input.new ≡ input.old)
        × DoesOfFile (until_of (texts words.now)) (since_of (texts words.now)) S.File.remaining
        (S.is_of sources.now (file_text (texts words.now))) (S.is_of sources.now (before_text (texts words.now))) terminal
        (filter_of (texts words.now)) (to_of (texts words.now)) (title_text (texts words.now), before_text (texts words.now)) request
        (O.contents output.old) (O.contents output.new) (P.texts place.old) (P.texts place.new) result }
    // Numbers alone are put in a place, and only where the words are taken and name a path.
    ensures kept { refusals (texts words.now) ≡ [] → to_of (texts words.now) ≡ None → place.new ≡ place.old }
    // A command alone asks for it of the input, with the lints of its defaults, and for nothing of poll times.
    ensures run { IsPlain (codes "run") (texts words.now) → AsksForInput Request.Run (texts words.now) }
    ensures view { IsPlain (codes "view") (texts words.now)
        → AsksForInput (Request.Show View.Report default_lints no_times) (texts words.now) }
    ensures lint { IsPlain (codes "lint") (texts words.now)
        → AsksForInput (Request.Show View.Lint default_lints no_times) (texts words.now) }
    ensures page { IsPlain (codes "page") (texts words.now)
        → AsksForInput (Request.Page (found.limits_by default_lints None)) (texts words.now) }
    ensures watch { IsPlain (codes "watch") (texts words.now) → AsksForInput (Request.Watch plain_watch) (texts words.now) }
    ensures metrics { IsPlain (codes "metrics") (texts words.now) → AsksForInput (Request.Metrics plain_metrics) (texts words.now) }
    ensures demo { IsPlain (codes "demo") (texts words.now) → AsksForInput Request.Demo (texts words.now) }
    // All words that are taken ask for a run, a view, a page, a watch, numbers, a comparison or the demo.
    ensures asks { refusals (texts words.now) ≡ [] → IsSome (asked (texts words.now)) }
    // Other words leave the input and the place as they are.
    ensures unread { refusals (texts words.now) ≢ [] → input.new ≡ input.old }
    ensures unplaced { refusals (texts words.now) ≢ [] → place.new ≡ place.old }
    // A mistake writes nothing to the output. Its status is 2, or 1 where memory ran out.
    ensures mistake { IsMistake (texts words.now)
        → (output.new ≡ output.old) × ((result ≡ USAGE) ⊎ (result ≡ FAULT)) }
    // Help is no mistake, and neither is the version.
    ensures help { AsksForHelp (texts words.now) → result ≤ FAULT }
    ensures version { AsksForVersion (texts words.now) → result ≤ FAULT }
    ensures usage { result ≡ USAGE → (input.new ≡ input.old) × (output.new ≡ output.old) }
    ensures status { result ≤ WARNED }
{
    // Help alone shows it.
    let long_about = lint_long_about(alloc).unwrap_or(String::new(alloc));
    let call = match call_of(alloc, words, long_about.as_str()) {
        Ok(call) => call,
        Err(error) => return answer(error, output, faults),
    };
    match call.file {
        Some(path) => fulfil_of_file(
            rt, alloc, sources, &call, terminal, path, output, place, faults,
        ),
        None => fulfil_of_input(
            rt, alloc, sources, &call, terminal, input, output, place, faults,
        ),
    }
}
