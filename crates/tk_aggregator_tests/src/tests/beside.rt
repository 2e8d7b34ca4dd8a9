//! Events that are taken in beside their recorder.
ghost use Rattle.std.specs.Prelude.{◌≡◌, false};
ghost use Rattle.tk_events.specs.Handles.{IsSameRecorder};

use super::given::spawn_spec;
use super::texts::MAIN;
use std::alloc::Global;
use std::sync::Wait;
use tk_aggregator::Aggregator;
use tk_events::{Console, Limits, Recorder, Taker};

// Whether a task `main` is made, created at 100.
fn makes_main<R: Wait>(rt: &R, alloc: Global, recorder: &mut Recorder) -> bool
    ensures { IsSameRecorder recorder.old recorder.new }
{
    match spawn_spec(alloc, b"main", 1) {
        Some(spec) => recorder.task(rt, alloc, spec, 100).is_ok(),
        None => false,
    }
}

fn writes_main(alloc: Global, aggregator: &mut Aggregator) -> bool {
    let mut written = Vec::new(alloc);
    aggregator.publish(200, &mut written) == Ok(1) && written.as_slice() == MAIN.as_bytes()
}

// The task is taken in, and then no more comes.
fn takes_main<R: Wait>(
    rt: &R,
    alloc: Global,
    aggregator: &mut Aggregator,
    taker: &mut Taker,
    recorder: &mut Recorder,
) -> bool
    requires console { recorder.old.console ≡ taker.old.console }
    requires recorders { recorder.old.recorders ≡ taker.old.recorders }
    requires unfinished { taker.old.finished ≡ false }
{
    makes_main(rt, alloc, recorder)
        && aggregator.collect_beside(rt, taker, recorder, 9) == Ok(1)
        && aggregator.collect_beside(rt, taker, recorder, 9) == Ok(0)
        && writes_main(alloc, aggregator)
}

fn is_taken_by_one<R: Wait>(
    rt: &R,
    alloc: Global,
    taker: &mut Taker,
    recorder: &mut Recorder,
) -> bool
    requires console { recorder.old.console ≡ taker.old.console }
    requires recorders { recorder.old.recorders ≡ taker.old.recorders }
    requires unfinished { taker.old.finished ≡ false }
{
    match Aggregator::new(alloc, 0) {
        Ok(mut aggregator) => takes_main(rt, alloc, &mut aggregator, taker, recorder),
        Err(_) => false,
    }
}

pub(super) fn takes_in_beside_its_recorder<R: Wait>(rt: &R, alloc: Global) -> bool {
    let limits = Limits {
        recorders: 1,
        capacity: 4,
        offers: 9,
    };
    match Console::open(alloc, limits) {
        Ok((mut recorders, mut taker)) => match recorders.pop() {
            Some(mut recorder) => is_taken_by_one(rt, alloc, &mut taker, &mut recorder),
            None => false,
        },
        Err(_) => false,
    }
}
