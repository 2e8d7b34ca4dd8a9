//! A service that is watched while it runs: one thread polls its connections, and another publishes a line of the stream
//! every 100 milliseconds. Once all connections are closed a last line follows, which has everything.
//!
//! It prints what a client makes of its stream, and with the word `stream` the stream itself.
#![tactic(auto)]

mod connection;
mod publish;
mod serve;
mod stop;
mod summary;

use publish::{Watch, publish};
use serve::serve;
use std::alloc::{AllocGlobal, Global};
use std::env::Env;
use std::io::Write;
use std::process::ExitCode;
use std::sync::Wait;
use std::sync::atomic::AtomicBool;
use std::thread::{Threads, join};
use std::{env, io, time};
use stop::Stop;
use summary::Summary;
use tk_events::{Console, Limits, Recorder};
use tk_exec::SystemClock;

/// One recorder, for the thread that serves.
const LIMITS: Limits = Limits {
    recorders: 1,
    capacity: 1024,
    offers: 1_000_000,
};

// The two threads, and the last line after them.
fn watch_threads<R: Wait + Threads + Sync + time::Clock, W: Write + Send>(
    rt: &R,
    alloc: Global,
    recorder: Recorder,
    watch: &mut Watch,
    clock: SystemClock<'_, R>,
    out: &mut W,
) -> Result<(), Stop> {
    let mut clock = clock;
    let (serving, publishing) = (clock.beside(), clock.beside());
    let is_served = AtomicBool::new(false);
    let (served, published) = join(
        rt,
        || serve(rt, alloc, recorder, serving, &is_served),
        || publish(rt, watch, publishing, &is_served, out),
    );
    served?;
    published?;
    watch.tell(rt, &mut clock, out)
}

/// Serves, and writes the stream as it goes.
fn watch<R: Wait + Threads + Sync + time::Clock, W: Write + Send>(
    rt: &R,
    alloc: Global,
    out: &mut W,
) -> Result<(), Stop> {
    let clock = SystemClock::start(rt).map_err(|_| Stop::Clock)?;
    let (mut recorders, taker) = Console::open(alloc, LIMITS).map_err(|_| Stop::Memory)?;
    let mut watch = Watch::new(alloc, taker)?;
    match recorders.pop() {
        Some(recorder) => watch_threads(rt, alloc, recorder, &mut watch, clock, out),
        None => Err(Stop::Memory),
    }
}

// Serves, and writes what a client makes of the whole stream.
fn sum_up<R: Wait + Threads + Sync + time::Clock, W: Write>(
    rt: &R,
    alloc: Global,
    out: &mut W,
) -> Result<(), Stop> {
    let mut stream = Vec::new(alloc);
    watch(rt, alloc, &mut stream)?;
    let summary = Summary::of(alloc, stream.as_slice())?;
    writeln!(out, "{summary}").map_err(|_| Stop::Stream)
}

// Whether the program's one word is `stream`.
fn wants_stream<R: Env + AllocGlobal>(rt: &R, alloc: Global) -> io::Result<bool> {
    let words: Vec<String> = env::args(rt)?.collect(alloc)?;
    Ok(words.get(1).is_some_and(|word| word.as_str() == "stream"))
}

fn run<R: Env + AllocGlobal + Wait + Threads + Sync + time::Clock, W: Write + Send>(
    rt: &R,
    alloc: Global,
    out: &mut W,
) -> Result<(), Stop> {
    match wants_stream(rt, alloc) {
        Ok(true) => watch(rt, alloc, out),
        Ok(false) => sum_up(rt, alloc, out),
        Err(_) => Err(Stop::Memory),
    }
}

fn main(rt: HostRuntime) -> ExitCode {
    let faults = rt.stderr();
    match run(&rt, rt.alloc(), &mut io::writer(&rt)) {
        Ok(()) => ExitCode::from(0),
        Err(stop) => {
            let _ = writeln!(io::writer(&faults), "stopped: {stop}");
            ExitCode::from(1)
        }
    }
}
