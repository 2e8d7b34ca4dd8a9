//! Copies of infos.

use std::alloc::Global;
use tk_ids::{
    AsyncOpId, AttrInfo, AttrInfos, AttrKind, Location, Name, OpInfo, ResourceId, ResourceInfo,
    TaskId, TaskInfo, TaskKind,
};

// The ids 1.1 and 1.2.
const FIRST: u64 = 1099511627777;

const SECOND: u64 = 1099511627778;

fn location(alloc: Global) -> Option<Location> {
    let file = Name::new(alloc, b"src/main.rs").ok()?;
    Some(Location {
        file,
        line: 12,
        column: 34,
    })
}

fn permits(alloc: Global) -> Option<AttrInfo> {
    let name = Name::new(alloc, b"permits").ok();
    let (name, unit) = name.zip(Name::new(alloc, b"permits").ok())?;
    Some(AttrInfo {
        name,
        unit: Some(unit),
        kind: AttrKind::U64,
    })
}

fn closed(alloc: Global) -> Option<AttrInfo> {
    let name = Name::new(alloc, b"closed").ok()?;
    Some(AttrInfo {
        name,
        unit: None,
        kind: AttrKind::Bool,
    })
}

fn attrs(alloc: Global) -> Option<AttrInfos> {
    let (permits, closed) = permits(alloc).zip(closed(alloc))?;
    AttrInfos::new(Vec::from_array(alloc, [permits, closed]).ok()?).ok()
}

fn task(alloc: Global) -> Option<TaskInfo> {
    let id = TaskId::from_value(FIRST).ok()?;
    let name = Name::new(alloc, b"accept").ok();
    let (name, location) = name.zip(location(alloc))?;
    Some(TaskInfo {
        id,
        kind: TaskKind::Blocking,
        name,
        location,
    })
}

fn resource(alloc: Global) -> Option<ResourceInfo> {
    let first = ResourceId::from_value(FIRST).ok();
    let (parent, id) = first.zip(ResourceId::from_value(SECOND).ok())?;
    let concrete = Name::new(alloc, b"Semaphore").ok();
    let names = concrete.zip(Name::new(alloc, b"Sync").ok());
    let rest = location(alloc).zip(attrs(alloc));
    let ((concrete, kind), (location, attrs)) = names.zip(rest)?;
    Some(ResourceInfo {
        id,
        parent: Some(parent),
        concrete,
        kind,
        location,
        attrs,
    })
}

fn op(alloc: Global) -> Option<OpInfo> {
    let first = AsyncOpId::from_value(FIRST).ok();
    let (parent, id) = first.zip(AsyncOpId::from_value(SECOND).ok())?;
    let resource = ResourceId::from_value(FIRST).ok()?;
    let source = Name::new(alloc, b"Semaphore::acquire").ok();
    let (source, attrs) = source.zip(attrs(alloc))?;
    Some(OpInfo {
        id,
        source,
        resource,
        parent: Some(parent),
        attrs,
    })
}

// Whether this was made, and is equal.
fn is_equal<T: PartialEq + Drop>(made: Option<T>, wanted: &T) -> bool {
    match made {
        Some(it) => it == *wanted,
        None => false,
    }
}

fn is_task_copied(info: &TaskInfo) -> bool {
    is_equal(info.copy().ok(), info)
        && is_equal(info.clone().ok(), info)
        && is_equal(info.location.clone().ok(), &info.location)
}

fn is_resource_copied(info: &ResourceInfo) -> bool {
    match info.copy().ok() {
        Some(copy) => {
            let has_attrs = copy.attrs.as_slice() == info.attrs.as_slice();
            is_equal(Some(copy), info) && has_attrs && is_equal(info.clone().ok(), info)
        }
        None => false,
    }
}

fn is_op_copied(info: &OpInfo) -> bool {
    match info.copy().ok() {
        Some(copy) => {
            let has_attrs = copy.attrs.as_slice() == info.attrs.as_slice();
            is_equal(Some(copy), info) && has_attrs && is_equal(info.clone().ok(), info)
        }
        None => false,
    }
}

// Whether a check holds of what was made.
fn holds_of<T: Drop, F: FnOnce(&T) -> bool>(made: Option<T>, check: F) -> bool
    requires { F.IsAlwaysCallable check }
{
    match made {
        Some(it) => check(&it),
        None => false,
    }
}

#[test]
fn copies_a_task(rt: HostRuntime) {
    assert!(rt; holds_of(task(rt.alloc()), is_task_copied));
}

#[test]
fn copies_a_resource(rt: HostRuntime) {
    assert!(rt; holds_of(resource(rt.alloc()), is_resource_copied));
}

#[test]
fn copies_an_operation(rt: HostRuntime) {
    assert!(rt; holds_of(op(rt.alloc()), is_op_copied));
}
