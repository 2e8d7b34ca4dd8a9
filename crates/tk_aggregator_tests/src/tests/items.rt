//! Items of each kind and a poll operation, recorded, changed, read and told.

use super::given::{
    FIRST, collects, limits, location, makes_task, on_console, on_new, refresh_and_publish,
};
use super::texts::WORKED;
use std::alloc::Global;
use std::sync::Wait;
use tk_aggregator::Aggregator;
use tk_events::{PollOp, Recorded, Recorder, Taker};
use tk_ids::{
    AsyncOpId, AttrSpec, AttrValue, Attrs, Name, OpSpec, ResourceId, ResourceSpec, TaskId,
};
use tk_ledgers::{OpOwner, ResourceUser};

fn attr(alloc: Global, name: &[u8], first: AttrValue) -> Option<AttrSpec> {
    let name = Name::new(alloc, name).ok()?;
    Some(AttrSpec {
        name,
        unit: None,
        first,
    })
}

fn attrs(alloc: Global) -> Option<Attrs> {
    let mut list = Vec::new(alloc);
    list.push(attr(alloc, b"permits", AttrValue::U64(5))?).ok()?;
    list.push(attr(alloc, b"closed", AttrValue::Bool(false))?)
        .ok()?;
    list.push(attr(alloc, b"lag", AttrValue::I64(0))?).ok()?;
    Attrs::new(list).ok()
}

fn resource(alloc: Global) -> Option<ResourceSpec> {
    let concrete = Name::new(alloc, b"Semaphore").ok()?;
    let kind = Name::new(alloc, b"Sync").ok()?;
    let location = location(alloc, 2)?;
    let attrs = attrs(alloc)?;
    Some(ResourceSpec {
        parent: None,
        concrete,
        kind,
        location,
        attrs,
    })
}

fn op(alloc: Global) -> Option<OpSpec> {
    let resource = ResourceId::from_value(FIRST).ok()?;
    let source = Name::new(alloc, b"Semaphore::acquire").ok()?;
    let attrs = Attrs::new(Vec::new(alloc)).ok()?;
    Some(OpSpec {
        source,
        resource,
        parent: None,
        attrs,
    })
}

fn poll(alloc: Global) -> Option<PollOp> {
    let resource = ResourceId::from_value(FIRST).ok()?;
    let task = TaskId::from_value(FIRST).ok()?;
    let op = AsyncOpId::from_value(FIRST).ok()?;
    let name = Name::new(alloc, b"poll_acquire").ok()?;
    Some(PollOp {
        resource,
        name,
        task,
        op,
        ready: true,
    })
}

// The user of a resource that the recorder makes.
pub(super) fn make_user<R: Wait>(
    rt: &R,
    alloc: Global,
    recorder: &mut Recorder,
) -> Option<ResourceUser> {
    let spec = resource(alloc)?;
    let (mut owner, _) = recorder.resource(rt, alloc, spec, 20).ok()?;
    owner.user(rt).ok()
}

// The owner of an operation that the recorder makes.
pub(super) fn make_op<R: Wait>(rt: &R, alloc: Global, recorder: &mut Recorder) -> Option<OpOwner> {
    let spec = op(alloc)?;
    let (owner, _) = recorder.async_op(rt, alloc, spec, 30).ok()?;
    Some(owner)
}

pub(super) fn keeps_poll<R: Wait>(rt: &R, alloc: Global, recorder: &mut Recorder) -> bool {
    match poll(alloc) {
        Some(op) => recorder.poll_op(rt, op) == Ok(Recorded::Kept),
        None => false,
    }
}

// The task polls the operation once.
fn is_polled<R: Wait>(rt: &R, owner: &mut OpOwner) -> bool {
    match TaskId::from_value(FIRST) {
        Ok(task) => {
            owner.set_task(rt, task);
            owner.start_poll(rt, 40).is_ok() && owner.end_poll(rt, 45).is_ok()
        }
        Err(_) => false,
    }
}

fn writes_worked<R: Wait>(rt: &R, alloc: Global, aggregator: &mut Aggregator) -> bool {
    let mut written = Vec::new(alloc);
    refresh_and_publish(rt, aggregator, 50, &mut written) == Ok(1)
        && written.as_slice() == WORKED.as_bytes()
}

// The four events are taken, and then the resource and the operation change.
fn collects_and_tells<R: Wait>(
    rt: &R,
    alloc: Global,
    aggregator: &mut Aggregator,
    taker: &mut Taker,
    user: &mut ResourceUser,
    owner: &mut OpOwner,
) -> bool {
    collects(rt, aggregator, taker, 9, 4)
        && user.sub(rt, 0, AttrValue::U64(2)).is_ok()
        && user.sub(rt, 2, AttrValue::I64(3)).is_ok()
        && is_polled(rt, owner)
        && writes_worked(rt, alloc, aggregator)
}

fn tells_of_four<R: Wait>(
    rt: &R,
    alloc: Global,
    taker: &mut Taker,
    user: &mut ResourceUser,
    owner: &mut OpOwner,
) -> bool {
    on_new(
        alloc,
        0,
        |aggregator| collects_and_tells(rt, alloc, aggregator, taker, user, owner),
    )
}

fn makes_op<R: Wait>(
    rt: &R,
    alloc: Global,
    recorder: &mut Recorder,
    taker: &mut Taker,
    user: &mut ResourceUser,
) -> bool {
    match make_op(rt, alloc, recorder) {
        Some(mut owner) => {
            keeps_poll(rt, alloc, recorder) && tells_of_four(rt, alloc, taker, user, &mut owner)
        }
        None => false,
    }
}

fn makes_user<R: Wait>(rt: &R, alloc: Global, recorder: &mut Recorder, taker: &mut Taker) -> bool {
    match make_user(rt, alloc, recorder) {
        Some(mut user) => makes_op(rt, alloc, recorder, taker, &mut user),
        None => false,
    }
}

fn makes_each<R: Wait>(
    rt: &R,
    alloc: Global,
    recorders: &mut Vec<Recorder>,
    taker: &mut Taker,
) -> bool {
    match recorders.get_mut(0) {
        Some(recorder) => {
            makes_task(rt, alloc, recorder, b"worker", 10) && makes_user(rt, alloc, recorder, taker)
        }
        None => false,
    }
}

pub(super) fn tells_of_each_kind<R: Wait>(rt: &R, alloc: Global) -> bool {
    on_console(
        alloc,
        limits(1, 9, 9),
        |recorders, taker| makes_each(rt, alloc, recorders, taker),
    )
}
