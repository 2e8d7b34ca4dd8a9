//! One recorder: what it makes is kept, dropped or refused.
ghost use Rattle.std.specs.Prelude.{◌≡◌};

use super::given::{
    FIRST, alone, is_made, limits, offer_poll, on_first, op, poll, refusal, resource, take,
    takes_any, task,
};
use std::alloc::Global;
use std::sync::Wait;
use tk_events::{Console, Event, FinishError, RecordError, Recorded, Recorder, Taker};
use tk_ids::{Dropped, TaskSpec};
use tk_ledgers::{OpOwner, ResourceOwner, TaskOwner};

fn task_starts<R: Wait>(rt: &R, mut owner: TaskOwner, id: u64) -> bool {
    let starts = owner.id().value() == id && owner.start_poll(rt, 5).is_ok();
    drop(owner);
    starts
}

// What became of a task that got this id and starts a poll.
fn offer_task<R: Wait>(
    rt: &R,
    alloc: Global,
    recorder: &mut Recorder,
    name: &[u8],
    id: u64,
) -> Option<Recorded> {
    let spec = task(alloc, name)?;
    let (owner, recorded) = recorder.task(rt, alloc, spec, 4).ok()?;
    if !task_starts(rt, owner, id) {
        return None;
    }
    Some(recorded)
}

fn resource_is_used<R: Wait>(rt: &R, mut owner: ResourceOwner, id: u64) -> bool {
    let used = owner.id().value() == id && is_made(owner.user(rt).ok());
    drop(owner);
    used
}

// What became of a resource that got this id and has a user.
fn offer_resource<R: Wait>(
    rt: &R,
    alloc: Global,
    recorder: &mut Recorder,
    id: u64,
) -> Option<Recorded> {
    let spec = resource(alloc)?;
    let (owner, recorded) = recorder.resource(rt, alloc, spec, 4).ok()?;
    if !resource_is_used(rt, owner, id) {
        return None;
    }
    Some(recorded)
}

fn op_starts<R: Wait>(rt: &R, mut owner: OpOwner, id: u64) -> bool {
    let starts = owner.id().value() == id && owner.start_poll(rt, 5).is_ok();
    drop(owner);
    starts
}

// What became of an operation that got this id and starts a poll.
fn offer_op<R: Wait>(rt: &R, alloc: Global, recorder: &mut Recorder, id: u64) -> Option<Recorded> {
    let spec = op(alloc)?;
    let (owner, recorded) = recorder.async_op(rt, alloc, spec, 4).ok()?;
    if !op_starts(rt, owner, id) {
        return None;
    }
    Some(recorded)
}

// Whether it is the spec of the task of this name.
fn is_spec_of(alloc: Global, spec: &TaskSpec, name: &[u8]) -> bool {
    match task(alloc, name) {
        Some(wanted) => {
            let is_it = *spec == wanted;
            drop(wanted);
            is_it
        }
        None => false,
    }
}

// Why no task of this name is made. Its spec comes back.
fn refused_task<R: Wait>(
    rt: &R,
    alloc: Global,
    recorder: &mut Recorder,
    name: &[u8],
) -> Option<RecordError> {
    let spec = task(alloc, name)?;
    let (why, back) = recorder.task(rt, alloc, spec, 4).err()?;
    let came_back = is_spec_of(alloc, &back, name);
    drop(back);
    came_back.then_some(why)
}

// Offers a poll where what comes back with an error is of no use.
fn offers_poll<R: Wait>(
    rt: &R,
    alloc: Global,
    recorder: &mut Recorder,
) -> Result<Recorded, RecordError> {
    let Some(op) = poll(alloc, recorder.number(), 0) else {
        return Err(RecordError::Memory);
    };
    let recorded = recorder.poll_op(rt, op)?;
    Ok(recorded)
}

/// What the next event is to be.
#[derive(Clone, Copy)]
enum Wanted<'a> {
    /// A task of this name, which has an open poll.
    PollingTask(&'a [u8]),
    Resource(u64),
    Op(u64),
    /// A poll of this operation that made it ready.
    ReadyPoll(u64),
}

fn is_wanted<R: Wait>(rt: &R, event: &mut Event, wanted: Wanted) -> bool {
    match (event, wanted) {
        (Event::Task(info, inspector), Wanted::PollingTask(name)) => {
            info.name.as_bytes() == name && inspector.read(rt).polling
        }
        (Event::Resource(info, _), Wanted::Resource(id)) => info.id.value() == id,
        (Event::Op(info, _), Wanted::Op(id)) => info.id.value() == id,
        (Event::Poll(poll), Wanted::ReadyPoll(op)) => poll.op.value() == op && poll.ready,
        _ => false,
    }
}

fn takes<R: Wait>(rt: &R, taker: &mut Taker, wanted: Wanted) -> bool {
    take(rt, taker, |event| is_wanted(rt, event, wanted)) == Some(true)
}

fn offers_two_and_no_third<R: Wait>(rt: &R, alloc: Global, recorder: &mut Recorder) -> bool {
    offer_task(rt, alloc, recorder, b"a", FIRST) == Some(Recorded::Kept)
        && offer_poll(rt, alloc, recorder, 0) == Some(Recorded::Kept)
        && refused_task(rt, alloc, recorder, b"b") == Some(RecordError::OffersSpent)
        && offers_poll(rt, alloc, recorder) == Err(RecordError::OffersSpent)
}

fn takes_two<R: Wait>(rt: &R, taker: &mut Taker) -> bool {
    takes(rt, taker, Wanted::PollingTask(b"a"))
        && takes(rt, taker, Wanted::ReadyPoll(FIRST))
        && !takes_any(rt, taker)
}

#[test]
fn a_third_offer_of_two_is_refused(rt: HostRuntime) {
    let alloc = rt.alloc();
    assert!(rt;
        on_first(alloc, limits(1, 4, 2), |recorder, taker| {
            recorder.number() == 1
                && offers_two_and_no_third(&rt, alloc, recorder)
                && takes_two(&rt, taker)
        })
    );
}

fn offers_three_tasks<R: Wait>(rt: &R, alloc: Global, recorder: &mut Recorder) -> bool {
    offer_task(rt, alloc, recorder, b"a", FIRST) == Some(Recorded::Kept)
        && offer_task(rt, alloc, recorder, b"b", FIRST + 1) == Some(Recorded::Kept)
        && offer_task(rt, alloc, recorder, b"c", FIRST + 2) == Some(Recorded::DroppedFull)
}

fn takes_two_tasks<R: Wait>(rt: &R, taker: &mut Taker) -> bool {
    takes(rt, taker, Wanted::PollingTask(b"a"))
        && takes(rt, taker, Wanted::PollingTask(b"b"))
        && !takes_any(rt, taker)
}

fn has_dropped(taker: &mut Taker, tasks: u64, resources: u64, ops: u64) -> bool {
    taker.dropped()
        == Dropped {
            tasks,
            resources,
            ops,
        }
}

// The task whose event is dropped gets its id, and starts a poll.
#[test]
fn a_third_task_in_a_buffer_of_two_is_dropped(rt: HostRuntime) {
    let alloc = rt.alloc();
    assert!(rt;
        on_first(alloc, limits(1, 2, 9), |recorder, taker| {
            offers_three_tasks(&rt, alloc, recorder)
                && has_dropped(taker, 1, 0, 0)
                && takes_two_tasks(&rt, taker)
        })
    );
}

fn offers_of_each_kind<R: Wait>(rt: &R, alloc: Global, recorder: &mut Recorder) -> bool {
    offer_resource(rt, alloc, recorder, FIRST) == Some(Recorded::Kept)
        && offer_op(rt, alloc, recorder, FIRST) == Some(Recorded::Kept)
        && offer_resource(rt, alloc, recorder, FIRST + 1) == Some(Recorded::DroppedFull)
        && offer_op(rt, alloc, recorder, FIRST + 1) == Some(Recorded::DroppedFull)
        && offer_poll(rt, alloc, recorder, 0) == Some(Recorded::DroppedFull)
        && offer_task(rt, alloc, recorder, b"a", FIRST) == Some(Recorded::DroppedFull)
}

fn takes_of_two_kinds<R: Wait>(rt: &R, taker: &mut Taker) -> bool {
    takes(rt, taker, Wanted::Resource(FIRST))
        && takes(rt, taker, Wanted::Op(FIRST))
        && !takes_any(rt, taker)
}

// Each kind has its own numbers, and polls are counted with resources.
#[test]
fn items_of_each_kind_are_kept_and_dropped(rt: HostRuntime) {
    let alloc = rt.alloc();
    assert!(rt;
        on_first(alloc, limits(1, 2, 9), |recorder, taker| {
            offers_of_each_kind(&rt, alloc, recorder)
                && has_dropped(taker, 1, 2, 1)
                && takes_of_two_kinds(&rt, taker)
        })
    );
}

// With no recorder it isn't finished, with it it is, and then no more.
fn finishes_once(alloc: Global, recorder: Recorder, taker: &mut Taker) -> bool
    requires { recorder.console ≡ taker.old.console }
{
    let missing = refusal(taker, Vec::new(alloc)) == Some(FinishError::Missing);
    let Some(all) = alone(alloc, recorder) else {
        return false;
    };
    let finished = refusal(taker, all).is_none();
    missing && finished && refusal(taker, Vec::new(alloc)) == Some(FinishError::Finished)
}

fn is_finished_once(alloc: Global) -> bool {
    match Console::open(alloc, limits(1, 2, 4)) {
        Ok((mut recorders, mut taker)) => {
            let finished = match recorders.pop() {
                Some(recorder) => finishes_once(alloc, recorder, &mut taker),
                None => false,
            };
            drop(recorders);
            drop(taker);
            finished
        }
        Err(_) => false,
    }
}

#[test]
fn a_taker_is_finished_once(rt: HostRuntime) {
    assert!(rt; is_finished_once(rt.alloc()));
}
