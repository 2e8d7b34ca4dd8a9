//! Want of memory: it is an answer, and no offer is made and no id drawn by it.
//!
//! With `rt try --test --fail-alloc N` the N-th allocation is refused. What was refused is asked for again.

use super::given::{FIRST, limits, op, resource, takes_any, task};
use std::alloc::Global;
use std::sync::Wait;
use tk_events::{Console, OpenError, Recorder, Taker};
use tk_ids::{Dropped, OpSpec, ResourceSpec, TaskSpec};

fn open(alloc: Global) -> Result<(Vec<Recorder>, Taker), OpenError> {
    match Console::open(alloc, limits(1, 9, 9)) {
        Ok(opened) => Ok(opened),
        Err(_) => Console::open(alloc, limits(1, 9, 9)),
    }
}

fn task_spec(alloc: Global) -> Option<TaskSpec> {
    match task(alloc, b"a") {
        Some(spec) => Some(spec),
        None => task(alloc, b"a"),
    }
}

fn resource_spec(alloc: Global) -> Option<ResourceSpec> {
    match resource(alloc) {
        Some(spec) => Some(spec),
        None => resource(alloc),
    }
}

fn op_spec(alloc: Global) -> Option<OpSpec> {
    match op(alloc) {
        Some(spec) => Some(spec),
        None => op(alloc),
    }
}

// The id of the task, or its spec, which comes back for want of memory.
fn make_task<R: Wait>(
    rt: &R,
    alloc: Global,
    recorder: &mut Recorder,
    spec: TaskSpec,
) -> Result<u64, TaskSpec> {
    match recorder.task(rt, alloc, spec, 4) {
        Ok((owner, _)) => {
            let id = owner.id().value();
            drop(owner);
            Ok(id)
        }
        Err((_, back)) => Err(back),
    }
}

// The id of the task with a histogram, or its spec.
fn make_timed<R: Wait>(
    rt: &R,
    alloc: Global,
    recorder: &mut Recorder,
    spec: TaskSpec,
) -> Result<u64, TaskSpec> {
    match recorder.task_with_times(rt, alloc, spec, 4) {
        Ok((owner, _)) => {
            let id = owner.id().value();
            drop(owner);
            Ok(id)
        }
        Err((_, back)) => Err(back),
    }
}

fn make_resource<R: Wait>(
    rt: &R,
    alloc: Global,
    recorder: &mut Recorder,
    spec: ResourceSpec,
) -> Result<u64, ResourceSpec> {
    match recorder.resource(rt, alloc, spec, 4) {
        Ok((owner, _)) => {
            let id = owner.id().value();
            drop(owner);
            Ok(id)
        }
        Err((_, back)) => Err(back),
    }
}

fn make_op<R: Wait>(
    rt: &R,
    alloc: Global,
    recorder: &mut Recorder,
    spec: OpSpec,
) -> Result<u64, OpSpec> {
    match recorder.async_op(rt, alloc, spec, 4) {
        Ok((owner, _)) => {
            let id = owner.id().value();
            drop(owner);
            Ok(id)
        }
        Err((_, back)) => Err(back),
    }
}

fn makes_task<R: Wait>(rt: &R, alloc: Global, recorder: &mut Recorder) -> bool {
    let Some(spec) = task_spec(alloc) else {
        return false;
    };
    match make_task(rt, alloc, recorder, spec) {
        Ok(id) => id == FIRST,
        Err(back) => make_task(rt, alloc, recorder, back).ok() == Some(FIRST),
    }
}

fn makes_timed<R: Wait>(rt: &R, alloc: Global, recorder: &mut Recorder) -> bool {
    let Some(spec) = task_spec(alloc) else {
        return false;
    };
    match make_timed(rt, alloc, recorder, spec) {
        Ok(id) => id == FIRST + 1,
        Err(back) => make_timed(rt, alloc, recorder, back).ok() == Some(FIRST + 1),
    }
}

fn makes_resource<R: Wait>(rt: &R, alloc: Global, recorder: &mut Recorder) -> bool {
    let Some(spec) = resource_spec(alloc) else {
        return false;
    };
    match make_resource(rt, alloc, recorder, spec) {
        Ok(id) => id == FIRST,
        Err(back) => make_resource(rt, alloc, recorder, back).ok() == Some(FIRST),
    }
}

fn makes_op<R: Wait>(rt: &R, alloc: Global, recorder: &mut Recorder) -> bool {
    let Some(spec) = op_spec(alloc) else {
        return false;
    };
    match make_op(rt, alloc, recorder, spec) {
        Ok(id) => id == FIRST,
        Err(back) => make_op(rt, alloc, recorder, back).ok() == Some(FIRST),
    }
}

fn makes_each<R: Wait>(rt: &R, alloc: Global, recorders: &mut Vec<Recorder>) -> bool {
    match recorders.get_mut(0) {
        Some(recorder) => {
            makes_task(rt, alloc, recorder)
                && makes_timed(rt, alloc, recorder)
                && makes_resource(rt, alloc, recorder)
                && makes_op(rt, alloc, recorder)
        }
        None => false,
    }
}

fn takes_each<R: Wait>(rt: &R, taker: &mut Taker) -> bool {
    let none = Dropped {
        tasks: 0,
        resources: 0,
        ops: 0,
    };
    takes_any(rt, taker)
        && takes_any(rt, taker)
        && takes_any(rt, taker)
        && takes_any(rt, taker)
        && !takes_any(rt, taker)
        && taker.dropped() == none
}

#[test]
fn what_found_no_memory_is_made_again(rt: HostRuntime) {
    match open(rt.alloc()) {
        Ok((mut recorders, mut taker)) => {
            assert!(rt; makes_each(&rt, rt.alloc(), &mut recorders));
            assert!(rt; takes_each(&rt, &mut taker));
            drop(recorders);
            drop(taker);
        }
        Err(_) => assert!(rt; false, "no console"),
    }
}
