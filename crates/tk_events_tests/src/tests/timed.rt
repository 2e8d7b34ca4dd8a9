//! Tasks that are made with a histogram: the inspector of their event reads it too.

use super::given::{FIRST, limits, on_first, take, takes_any, task};
use std::alloc::Global;
use std::sync::Wait;
use tk_events::{Event, RecordError, Recorded, Recorder, Taker};
use tk_ledgers::{TaskInspector, TaskOwner};

// Whether the task got this id, has a histogram, and was polled for so many nanoseconds.
fn is_polled<R: Wait>(rt: &R, mut owner: TaskOwner, id: u64, run: u64) -> bool {
    let polled = owner.id().value() == id
        && owner.has_times()
        && owner.start_poll(rt, 5).is_ok()
        && owner.end_poll(rt, run.saturating_add(5)).is_ok();
    drop(owner);
    polled
}

// What became of a task with a histogram that got this id and was polled.
fn offer_timed<R: Wait>(
    rt: &R,
    alloc: Global,
    recorder: &mut Recorder,
    id: u64,
    run: u64,
) -> Option<Recorded> {
    let spec = task(alloc, b"timed")?;
    let (owner, recorded) = recorder.task_with_times(rt, alloc, spec, 4).ok()?;
    if !is_polled(rt, owner, id, run) {
        return None;
    }
    Some(recorded)
}

// What became of a task without one.
fn offer_untimed<R: Wait>(rt: &R, alloc: Global, recorder: &mut Recorder) -> Option<Recorded> {
    let spec = task(alloc, b"untimed")?;
    let (owner, recorded) = recorder.task(rt, alloc, spec, 4).ok()?;
    let timed = owner.has_times();
    drop(owner);
    (!timed).then_some(recorded)
}

// Why none is made. The spec that comes back is of no use.
fn refused_timed<R: Wait>(rt: &R, alloc: Global, recorder: &mut Recorder) -> Option<RecordError> {
    let spec = task(alloc, b"timed")?;
    let (why, back) = recorder.task_with_times(rt, alloc, spec, 4).err()?;
    drop(back);
    Some(why)
}

// The polls of the first bucket and the longest, where it reads a histogram, and how many polls its row has.
fn read<R: Wait>(rt: &R, inspector: &mut TaskInspector) -> (Option<(u64, u64)>, u64) {
    let times = match inspector.read_times(rt) {
        Some(row) => Some((row.counts[0], row.longest)),
        None => None,
    };
    (times, inspector.read(rt).polls)
}

// Whether the next event is of a task, whose inspector reads this.
fn takes<R: Wait>(rt: &R, taker: &mut Taker, wanted: (Option<(u64, u64)>, u64)) -> bool {
    let found = take(rt, taker, |event| match event {
        Event::Task(_, inspector) => read(rt, inspector) == wanted,
        _ => false,
    });
    found == Some(true)
}

fn offers_two<R: Wait>(rt: &R, alloc: Global, recorder: &mut Recorder) -> bool {
    offer_timed(rt, alloc, recorder, FIRST, 20) == Some(Recorded::Kept)
        && offer_untimed(rt, alloc, recorder) == Some(Recorded::Kept)
}

// The third is dropped, and its owner works.
fn offers_a_third<R: Wait>(rt: &R, alloc: Global, recorder: &mut Recorder) -> bool {
    offer_timed(rt, alloc, recorder, FIRST + 2, 30) == Some(Recorded::DroppedFull)
        && refused_timed(rt, alloc, recorder) == Some(RecordError::OffersSpent)
}

#[test]
fn the_inspector_of_an_event_reads_the_histogram(rt: HostRuntime) {
    let alloc = rt.alloc();
    assert!(rt;
        on_first(alloc, limits(1, 2, 3), |recorder, taker| {
            offers_two(&rt, alloc, recorder)
                && offers_a_third(&rt, alloc, recorder)
                && takes(&rt, taker, (Some((1, 20)), 1))
                && takes(&rt, taker, (None, 0))
                && !takes_any(&rt, taker)
                && taker.dropped().tasks == 1
        })
    );
}
