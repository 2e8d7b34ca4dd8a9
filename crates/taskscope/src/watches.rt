//! A stream that is watched.
ghost use Rattle.std.specs.Prelude.{◌≡◌, ◌≤◌, false, None, Ok};
ghost use Rattle.std.specs.Option.{option_map};
ghost use Rattle.taskscope.specs.Requests as spec;
ghost use Rattle.taskscope.specs.Program.{WatchesAtKeys, WatchesStream, filter_text, rows_by, screen_by};

use crate::command_line::{Request, WatchOptions};
use crate::statuses::{FAULT, tell_outcome, tell_unopened};
use std::alloc::Global;
use std::fs;
use std::io::{Read, Write};
use std::rt::Files;
use std::sync::Wait;
use std::thread::Threads;
use std::time::Clock;
use tk_frame::{Query, Typed};
use tk_keys::watch_terminal;
use tk_reading::Every;
use tk_screen::Canvas;
use tk_watch::{Screen, watch_stream};

/// The terminal of whoever has started the program, whatever its input is.
const KEYBOARD: &str = "/dev/tty";

/// Every name has the text of a filter that is not there.
pub(crate) fn filter_text<'a>(filter: Option<&'a str>) -> &'a str
    ensures { result.now ≡ filter_text (option_map (λ f. f.now) filter.entry) }
{
    match filter {
        Some(text) => text,
        None => "",
    }
}

// 0 asks for as many rows as fit.
fn rows_by(rows: u64) -> Option<usize>
    ensures { result ≡ rows_by rows }
{
    if rows == 0 { None } else { Some(rows as usize) }
}

// What a watch's screens show, and on what they are drawn.
fn screen_of<'a>(options: &WatchOptions, filter: &'a str, terminal: Canvas) -> Screen<'a>
    ensures shows { result ≡ screen_by options.now result.query.filter terminal }
    ensures filter { result.query.filter.now ≡ filter.entry.now }
{
    Screen {
        query: Query {
            sort: options.sort,
            rising: false,
            rows: rows_by(options.rows),
            filter: filter.as_bytes(),
            typed: Typed::none(),
            resources: options.resources,
            by_place: options.by_place,
            recent: false,
        },
        lints: options.lints,
        canvas: if options.plain {
            Canvas::Plain
        } else {
            terminal
        },
    }
}

/// Watches a stream, and answers the status.
pub(crate) fn watch<R: Clock, I: Read, O: Write, E: Write>(
    rt: &R,
    alloc: Global,
    options: &WatchOptions,
    filter: &str,
    terminal: Canvas,
    input: &mut I,
    output: &mut O,
    faults: &mut E,
) -> u8
    ensures does { WatchesStream options.now filter.now terminal
        (I.remaining input.old) (I.remaining input.new) (O.contents output.old) (O.contents output.new) result }
    ensures status { result ≤ FAULT }
{
    let screen = screen_of(options, filter, terminal);
    let mut pace = Every::new(rt, options.every, options.follow);
    tell_outcome(
        watch_stream(alloc, input, output, &screen, &mut pace),
        faults,
    )
}

/// The watch at keys that is asked for, if one is.
pub(crate) fn at_keys(request: &Request) -> Option<WatchOptions>
    ensures { result ≡ spec.at_keys request.now }
{
    match *request {
        Request::Watch(options) => { if options.keys { Some(options) } else { None } }
        _ => None,
    }
}

/// Watches a stream at the terminal's keys, and answers the status.
pub(crate) fn watch_at_keys<
    R: Threads + Wait + Clock + Files + Copy + Send + Sync + Drop + 'static,
    I: Read + Send + Drop + 'static,
    O: Write,
    E: Write,
>(
    rt: &R,
    alloc: Global,
    options: &WatchOptions,
    filter: &str,
    terminal: Canvas,
    stream: I,
    output: &mut O,
    faults: &mut E,
) -> u8
where
    R::File: Send + 'static,
    ensures does { WatchesAtKeys options.now filter.now terminal (O.contents output.old) (O.contents output.new) result }
    ensures status { result ≤ FAULT }
{
    let screen = screen_of(options, filter, terminal);
    match fs::open(rt, KEYBOARD) {
        Ok(keys) => tell_outcome(
            watch_terminal(
                rt,
                alloc,
                stream,
                options.follow,
                keys,
                output,
                &screen,
                options.every,
            ),
            faults,
        ),
        Err(error) => tell_unopened(KEYBOARD, error, faults),
    }
}
