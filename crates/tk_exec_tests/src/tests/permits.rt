//! A work that takes a permit of a resource in its polls, and tells of that.

use super::given::{Ticks, id, is_made, task};
use crate::permits::TakePermit;
use futures::task::Poll;
use std::alloc::Global;
use std::sync::Wait;
use tk_events::{Console, Event, Limits, Recorder, Taker};
use tk_exec::Instrumented;
use tk_ids::{AsyncOpId, AttrSpec, AttrValue, Attrs, Location, Name, ResourceSpec};
use tk_ledgers::ResourceOwner;

/// The first operation of the first recorder.
const OPERATION: u64 = 1099511627777;

fn limits() -> Limits {
    Limits {
        recorders: 3,
        capacity: 16,
        offers: 9,
    }
}

// The attributes of a resource of which one permit is left.
fn one_permit(alloc: Global) -> Option<Attrs> {
    let permits = AttrSpec {
        name: Name::new(alloc, b"permits").ok()?,
        unit: None,
        first: AttrValue::U64(1),
    };
    Attrs::new(Vec::from_array(alloc, [permits]).ok()?).ok()
}

fn place(alloc: Global) -> Option<Location> {
    let file = Name::new(alloc, b"permits.rt").ok()?;
    Some(Location {
        file,
        line: 1,
        column: 1,
    })
}

fn semaphore(alloc: Global) -> Option<ResourceSpec> {
    let concrete = Name::new(alloc, b"Semaphore").ok();
    let names = concrete.zip(Name::new(alloc, b"Sync").ok());
    let rest = place(alloc).zip(one_permit(alloc));
    let ((concrete, kind), (location, attrs)) = names.zip(rest)?;
    Some(ResourceSpec {
        parent: None,
        concrete,
        kind,
        location,
        attrs,
    })
}

fn pool<R: Wait>(
    rt: &R,
    alloc: Global,
    recorder: &mut Recorder,
    spec: ResourceSpec,
) -> Option<ResourceOwner> {
    let (owner, _) = recorder.resource(rt, alloc, spec, 0).ok()?;
    Some(owner)
}

// The n-th task, which takes a permit of the pool.
fn taking<R: Wait>(
    rt: &R,
    alloc: Global,
    pool: &mut ResourceOwner,
    recorder: Option<Recorder>,
    n: u64,
) -> Option<Instrumented<TakePermit>> {
    let ids = AsyncOpId::from_value(OPERATION).ok().zip(id(n));
    let told = recorder.zip(Name::new(alloc, b"poll_acquire").ok());
    let (user, ((op, id), (recorder, name))) = pool.user(rt).ok().zip(ids.zip(told))?;
    let work = TakePermit::new(user, op, id, recorder, name);
    task(rt, alloc, n, work)
}

// Whether a poll is ready so.
fn polls<R: Wait>(
    rt: &R,
    tracked: &mut Instrumented<TakePermit>,
    clock: &mut Ticks,
    ready: bool,
) -> bool {
    match tracked.poll_once(rt, clock) {
        Ok(Poll::Ready(())) => ready,
        Ok(Poll::Pending) => !ready,
        Err(_) => false,
    }
}

// The first takes the permit, the second finds none until the first has given it back.
fn take_one_after_the_other<R: Wait>(
    rt: &R,
    first: &mut Instrumented<TakePermit>,
    second: &mut Instrumented<TakePermit>,
) -> bool {
    let mut clock = Ticks::new();
    polls(rt, first, &mut clock, false)
        && polls(rt, second, &mut clock, false)
        && polls(rt, first, &mut clock, true)
        && polls(rt, second, &mut clock, false)
        && polls(rt, second, &mut clock, true)
}

fn take_of<R: Wait>(
    rt: &R,
    alloc: Global,
    pool: &mut ResourceOwner,
    recorders: &mut Vec<Recorder>,
) -> Option<bool> {
    let first = taking(rt, alloc, pool, recorders.pop(), 1);
    let second = taking(rt, alloc, pool, recorders.pop(), 2);
    let (mut first, mut second) = first.zip(second)?;
    let taken = take_one_after_the_other(rt, &mut first, &mut second);
    drop(first);
    drop(second);
    Some(taken)
}

fn take_of_one<R: Wait>(rt: &R, alloc: Global, recorders: &mut Vec<Recorder>) -> Option<bool> {
    let (mut recorder, spec) = recorders.pop().zip(semaphore(alloc))?;
    let pool = pool(rt, alloc, &mut recorder, spec);
    drop(recorder);
    let mut pool = pool?;
    let taken = take_of(rt, alloc, &mut pool, recorders);
    drop(pool);
    taken
}

/// What the next event is to be.
#[derive(Clone, Copy)]
enum Wanted {
    Resource,
    /// A poll of the operation that was ready so.
    Poll(bool),
}

fn is_wanted(event: &Event, wanted: Wanted) -> bool {
    match (event, wanted) {
        (Event::Resource(_, _), Wanted::Resource) => true,
        (Event::Poll(op), Wanted::Poll(ready)) => {
            op.name.as_str() == "poll_acquire" && op.ready == ready
        }
        _ => false,
    }
}

fn tells<R: Wait>(rt: &R, taker: &mut Taker, wanted: Wanted) -> bool {
    match taker.take(rt) {
        Some(event) => {
            let told = is_wanted(&event, wanted);
            drop(event);
            told
        }
        None => false,
    }
}

fn tells_the_tries<R: Wait>(rt: &R, taker: &mut Taker) -> bool {
    tells(rt, taker, Wanted::Resource)
        && tells(rt, taker, Wanted::Poll(true))
        && tells(rt, taker, Wanted::Poll(false))
        && tells(rt, taker, Wanted::Poll(true))
        && !is_made(taker.take(rt))
}

fn is_told<R: Wait>(rt: &R, alloc: Global) -> bool {
    match Console::open(alloc, limits()) {
        Ok((mut recorders, mut taker)) => {
            let taken = take_of_one(rt, alloc, &mut recorders) == Some(true);
            let told = tells_the_tries(rt, &mut taker);
            drop(recorders);
            drop(taker);
            taken && told
        }
        Err(_) => false,
    }
}

#[test]
fn permits_are_taken_in_polls_and_told(rt: HostRuntime) {
    assert!(rt; is_told(&rt, rt.alloc()));
}
