//! What stays of an item as long as it is shown.
ghost use Rattle.std.specs.Prelude.{◌≡◌, IfOk, IfErr};

use crate::attrs::AttrInfos;
use crate::error::IdError;
use crate::id::{AsyncOpId, ResourceId, TaskId};
use crate::location::Location;
use crate::name::Name;
use crate::spec::TaskKind;
use std::alloc::AllocError;

/// How many items and events of each kind were dropped since the console was opened.
#[derive(Clone, Copy, Debug, PartialEq, Eq)]
pub struct Dropped {
    pub tasks: u64,
    /// Resources, and poll operations too.
    pub resources: u64,
    pub ops: u64,
}

/// What a task is, told once: where it was spawned, and by which name.
#[derive(Debug, Drop, PartialEq, Eq)]
pub struct TaskInfo {
    pub id: TaskId,
    pub kind: TaskKind,
    pub name: Name,
    /// Where it was spawned.
    pub location: Location,
}

impl TaskInfo {
    /// An equal value. Its one error is `Memory`.
    pub fn copy(&self) -> Result<TaskInfo, IdError>
        ensures ok { IfOk result (λ info. info ≡ self.now) }
        ensures memory { IfErr result (λ e. e ≡ IdError.Memory) }
    {
        Ok(self.clone()?)
    }
}

impl Clone for TaskInfo {
    ghost is_clone = { λ a b. a ≡ b };

    fn clone(&self) -> Result<TaskInfo, AllocError> {
        let name = self.name.clone()?;
        let location = self.location.clone()?;
        Ok(TaskInfo {
            id: self.id,
            kind: self.kind,
            name,
            location,
        })
    }
}

/// A resource, as a timer or a lock.
#[derive(Debug, Drop, PartialEq, Eq)]
pub struct ResourceInfo {
    pub id: ResourceId,
    /// The resource that it is a part of.
    pub parent: Option<ResourceId>,
    /// Its type, as `Semaphore`.
    pub concrete: Name,
    /// What it is for, as `Sync`.
    pub kind: Name,
    /// Where it was made.
    pub location: Location,
    pub attrs: AttrInfos,
}

impl ResourceInfo {
    /// An equal value. Its one error is `Memory`.
    pub fn copy(&self) -> Result<ResourceInfo, IdError>
        ensures ok { IfOk result (λ info. info ≡ self.now) }
        ensures memory { IfErr result (λ e. e ≡ IdError.Memory) }
    {
        Ok(self.clone()?)
    }
}

impl Clone for ResourceInfo {
    ghost is_clone = { λ a b. a ≡ b };

    fn clone(&self) -> Result<ResourceInfo, AllocError> {
        let concrete = self.concrete.clone()?;
        let kind = self.kind.clone()?;
        let location = self.location.clone()?;
        let attrs = self.attrs.clone()?;
        Ok(ResourceInfo {
            id: self.id,
            parent: self.parent,
            concrete,
            kind,
            location,
            attrs,
        })
    }
}

/// An async operation: a use of a resource that takes several polls.
#[derive(Debug, Drop, PartialEq, Eq)]
pub struct OpInfo {
    pub id: AsyncOpId,
    /// The call that made it, as `Mutex::lock`.
    pub source: Name,
    pub resource: ResourceId,
    /// The operation that it is a part of.
    pub parent: Option<AsyncOpId>,
    pub attrs: AttrInfos,
}

impl OpInfo {
    /// An equal value. Its one error is `Memory`.
    pub fn copy(&self) -> Result<OpInfo, IdError>
        ensures ok { IfOk result (λ info. info ≡ self.now) }
        ensures memory { IfErr result (λ e. e ≡ IdError.Memory) }
    {
        Ok(self.clone()?)
    }
}

impl Clone for OpInfo {
    ghost is_clone = { λ a b. a ≡ b };

    fn clone(&self) -> Result<OpInfo, AllocError> {
        let source = self.source.clone()?;
        let attrs = self.attrs.clone()?;
        Ok(OpInfo {
            id: self.id,
            source,
            resource: self.resource,
            parent: self.parent,
            attrs,
        })
    }
}
