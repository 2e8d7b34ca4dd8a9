//! The thread that polls connections.

use crate::connection::Connection;
use crate::stop::Stop;
use std::alloc::Global;
use std::sync::Wait;
use std::sync::atomic::{AtomicBool, Ordering};
use std::time::Duration;
use std::{thread, time};
use tk_events::Recorder;
use tk_exec::{Clock, Executor, Instrumented, SystemClock};
use tk_ids::{IdError, Location, Name, TaskKind, TaskSpec};

/// How many requests each connection makes.
const REQUESTS: [u64; 3] = [20, 30, 40];

/// The executor makes at most so many turns.
const MOST_TURNS: u32 = 1_000;

fn spec_of(alloc: Global) -> Result<TaskSpec, IdError> {
    Ok(TaskSpec {
        kind: TaskKind::Spawn,
        name: Name::new(alloc, b"connection")?,
        location: Location {
            file: Name::new(alloc, b"serve.rt")?,
            line: 1,
            column: 1,
        },
    })
}

// Records a connection as a task, which the executor is to poll.
fn accept<R: Wait>(
    rt: &R,
    alloc: Global,
    recorder: &mut Recorder,
    executor: &mut Executor<Connection>,
    now: u64,
    requests: u64,
) -> Result<(), Stop> {
    let spec = spec_of(alloc).map_err(|_| Stop::Memory)?;
    let Ok((owner, _)) = recorder.task(rt, alloc, spec, now) else {
        return Err(Stop::Memory);
    };
    executor
        .spawn(Instrumented::new(owner, Connection::new(requests)))
        .map_err(|_| Stop::Memory)
}

// Polls until all connections are closed, with a rest after each poll.
fn poll_all<R: Wait + time::Clock>(
    rt: &R,
    executor: &mut Executor<Connection>,
    clock: &mut SystemClock<'_, R>,
) {
    for _ in 0..MOST_TURNS {
        if executor.unfinished() == 0 {
            return;
        }
        executor.turn(rt, clock);
        thread::sleep(rt, Duration::from_millis(2));
    }
}

// Closes the connections that are still open: none, where there were turns enough.
fn close<R: Wait>(
    rt: &R,
    alloc: Global,
    executor: Executor<Connection>,
    now: u64,
) -> Result<(), Stop> {
    match executor.close_all(rt, alloc, now) {
        Ok(_) => Ok(()),
        Err(_) => Err(Stop::Memory),
    }
}

fn serve_all<R: Wait + time::Clock>(
    rt: &R,
    alloc: Global,
    recorder: &mut Recorder,
    clock: &mut SystemClock<'_, R>,
) -> Result<(), Stop> {
    let mut executor = Executor::new(alloc).map_err(|_| Stop::Memory)?;
    for requests in REQUESTS {
        accept(rt, alloc, recorder, &mut executor, clock.now(), requests)?;
    }
    poll_all(rt, &mut executor, clock);
    close(rt, alloc, executor, clock.now())?;
    if clock.has_failed() {
        Err(Stop::Clock)
    } else {
        Ok(())
    }
}

/// Accepts the connections, polls them until all are closed, and says that it has.
pub fn serve<R: Wait + time::Clock>(
    rt: &R,
    alloc: Global,
    recorder: Recorder,
    clock: SystemClock<'_, R>,
    is_served: &AtomicBool,
) -> Result<(), Stop> {
    let mut recorder = recorder;
    let mut clock = clock;
    let served = serve_all(rt, alloc, &mut recorder, &mut clock);
    is_served.store(true, Ordering::SeqCst);
    served
}
