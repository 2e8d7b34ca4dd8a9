//! The handles of a ledger: who owns an item, who wakes it, changes it or reads it.
//!
//! - [`TaskOwner`]: the owner of a task's ledger, who polls it and closes it.
//! - [`WakerHandle`]: wakes the task; a wake by value and a release are its last call.
//! - [`TaskInspector`]: reads the task.
//! - [`TaskReceipt`]: what a handle has seen that makes no more calls.
//! - [`PollScope`]: the time of one poll, which holds the owner.
//! - [`Origin`]: whence a wake comes: from within a poll, or from outside.
//! - [`ResourceOwner`], [`ResourceUser`], [`ResourceInspector`], [`ResourceReceipt`]: the same of a resource.
//! - [`OpOwner`], [`OpInspector`], [`OpReceipt`]: the same of an async operation.
//! - [`TimesOwner`], [`TimesInspector`], [`TimesReceipt`]: the same of a histogram of times. A task's owner may have one of how long its
//!   polls ran ([`TaskOwner::new_with_times`]).
//! - [`TaskCallers`], [`ResourceCallers`], [`OpCallers`]: the owner of an item and its other callers in one hand, for who makes all its
//!   calls: these are one list in their order, and what an inspector reads beside it is the row after them.
//!
//! A handle holds a share of its ledger and a token of it. What contracts see of it is its `Sight`
//! (`specs/Handles.antt`): the id of its item, its ledger, what is known by its token, and the same of a histogram. A call is one entry of
//! the ledger's history (`Calls` of `tk_cell`). A call that makes a handle takes a share of the ledger first; where
//! that is refused, it answers `Memory` and does nothing.
//!
//! A handle that is dropped makes no entry, since a `drop` is handed no runtime: an item stays live, and a waker counted, until
//! its last call. Close owners, wake by wakers or release them, and finish scopes.
#![tactic(auto)]

mod callers;
mod handle;
pub mod laws;
mod op;
mod resource;
mod role;
mod task;
mod times;

pub use op::{OpCallers, OpInspector, OpOwner, OpReceipt};
pub use resource::{
    ResourceCallers, ResourceInspector, ResourceOwner, ResourceReceipt, ResourceUser,
};
pub use task::{
    Origin, PollScope, TaskCallers, TaskInspector, TaskOwner, TaskReceipt, WakerHandle,
};
pub use times::{TimesInspector, TimesOwner, TimesReceipt};
