//! What several tests begin with: sizes, and what is offered.
//!
//! A recorder, a taker, an event or a handle is lent, or let go by `drop`, or handed to what takes any value: what drops it is proved
//! in each function at whose end it is dropped unsaid, which takes seconds.
ghost use Rattle.std.specs.Prelude.{◌≡◌, All, IfSome};

use std::alloc::Global;
use std::sync::Wait;
use tk_events::{
    Console, Event, FinishError, Limits, PollOp, Recorded, Recorder, RetiredRecorder, Taker,
};
use tk_ids::{
    AsyncOpId, AttrSpec, AttrValue, Attrs, Location, Name, OpSpec, ResourceId, ResourceSpec,
    TaskId, TaskKind, TaskSpec,
};

// The id of the first item of recorder 1, and how far the first items of two recorders are apart.
pub(super) const FIRST: u64 = 1099511627777;

const APART: u64 = 1099511627776;

pub(super) fn limits(recorders: u64, capacity: u64, offers: u64) -> Limits {
    Limits {
        recorders,
        capacity,
        offers,
    }
}

// Whether a check holds of the first recorder of a new console, and its taker.
pub(super) fn on_first<F: FnOnce(&mut Recorder, &mut Taker) -> bool>(
    alloc: Global,
    limits: Limits,
    check: F,
) -> bool
    requires { F.IsAlwaysCallable check }
{
    match Console::open(alloc, limits) {
        Ok((mut recorders, mut taker)) => {
            let holds = match recorders.get_mut(0) {
                Some(recorder) => check(recorder, &mut taker),
                None => false,
            };
            drop(recorders);
            drop(taker);
            holds
        }
        Err(_) => false,
    }
}

// Whether it was made.
pub(super) fn is_made<T: Drop>(made: Option<T>) -> bool {
    made.is_some()
}

// What a look at the next event tells, if one waits.
pub(super) fn take<R: Wait, F: FnOnce(&mut Event) -> bool>(
    rt: &R,
    taker: &mut Taker,
    look: F,
) -> Option<bool>
    requires { F.IsAlwaysCallable look }
    ensures { taker.new.console ≡ taker.old.console }
{
    match taker.take(rt) {
        Some(mut event) => {
            let told = look(&mut event);
            drop(event);
            Some(told)
        }
        None => None,
    }
}

// Whether an event waits. It is taken.
pub(super) fn takes_any<R: Wait>(rt: &R, taker: &mut Taker) -> bool {
    is_made(taker.take(rt))
}

fn location(alloc: Global) -> Option<Location> {
    let file = Name::new(alloc, b"main.rs").ok()?;
    Some(Location {
        file,
        line: 7,
        column: 3,
    })
}

pub(super) fn task(alloc: Global, name: &[u8]) -> Option<TaskSpec> {
    let (name, location) = Name::new(alloc, name).ok().zip(location(alloc))?;
    Some(TaskSpec {
        kind: TaskKind::Spawn,
        name,
        location,
    })
}

fn permits(alloc: Global) -> Option<AttrSpec> {
    let name = Name::new(alloc, b"permits").ok()?;
    Some(AttrSpec {
        name,
        unit: None,
        first: AttrValue::U64(3),
    })
}

fn attrs(alloc: Global) -> Option<Attrs> {
    let permits = permits(alloc)?;
    Attrs::new(Vec::from_array(alloc, [permits]).ok()?).ok()
}

pub(super) fn resource(alloc: Global) -> Option<ResourceSpec> {
    let concrete = Name::new(alloc, b"Semaphore").ok();
    let names = concrete.zip(Name::new(alloc, b"Sync").ok());
    let rest = location(alloc).zip(attrs(alloc));
    let ((concrete, kind), (location, attrs)) = names.zip(rest)?;
    Some(ResourceSpec {
        parent: None,
        concrete,
        kind,
        location,
        attrs,
    })
}

pub(super) fn op(alloc: Global) -> Option<OpSpec> {
    let resource = ResourceId::from_value(FIRST).ok()?;
    let source = Name::new(alloc, b"Semaphore::acquire").ok();
    let (source, attrs) = source.zip(attrs(alloc))?;
    Some(OpSpec {
        source,
        resource,
        parent: None,
        attrs,
    })
}

// The first task of a recorder polls the operation of recorder 1 whose number is one above this.
pub(super) fn poll(alloc: Global, recorder: u64, above: u64) -> Option<PollOp> {
    let resource = ResourceId::from_value(FIRST).ok()?;
    let task = TaskId::from_value(recorder.saturating_mul(APART).saturating_add(1)).ok()?;
    let op = AsyncOpId::from_value(FIRST.saturating_add(above)).ok()?;
    let name = Name::new(alloc, b"poll_acquire").ok()?;
    Some(PollOp {
        resource,
        name,
        task,
        op,
        ready: true,
    })
}

// What became of a poll that the recorder offered.
pub(super) fn offer_poll<R: Wait>(
    rt: &R,
    alloc: Global,
    recorder: &mut Recorder,
    above: u64,
) -> Option<Recorded>
    ensures { recorder.new.console ≡ recorder.old.console }
{
    let op = poll(alloc, recorder.number(), above)?;
    recorder.poll_op(rt, op).ok()
}

// Why the taker isn't finished by these, if it isn't.
pub(super) fn refusal(taker: &mut Taker, retired: Vec<RetiredRecorder>) -> Option<FinishError>
    requires { All (λ r. r.console ≡ taker.old.console) retired.items }
    ensures { taker.new.console ≡ taker.old.console }
{
    let (why, back) = taker.finish(retired).err()?;
    drop(back);
    Some(why)
}

// This recorder, retired and alone in a list.
pub(super) fn alone(alloc: Global, recorder: Recorder) -> Option<Vec<RetiredRecorder>>
    ensures { IfSome result (λ all. All (λ r. r.console ≡ recorder.console) all.items) }
{
    let mut all = Vec::new(alloc);
    match all.push(recorder.retire()) {
        Ok(()) => Some(all),
        Err(_) => {
            drop(all);
            None
        }
    }
}
