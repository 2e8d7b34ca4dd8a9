//! What identifies and describes tasks, resources and async operations.
//!
//! - [`TaskId`], [`ResourceId`], [`AsyncOpId`]: ids, each a recorder and a number.
//! - [`IdBlock`]: the ids that a recorder gives out.
//! - [`Name`]: 1 to 1,024 bytes of printable text.
//! - [`Location`]: a place in a source file.
//! - [`AttrKind`], [`AttrValue`]: the kind and the value of an attribute.
//! - [`AttrSpec`], [`Attrs`]: an attribute as its item declares it, and a list of them.
//! - [`AttrInfo`], [`AttrInfos`]: what stays of an attribute while its value changes, and a list of that.
//! - [`TaskKind`], [`TaskSpec`], [`ResourceSpec`], [`OpSpec`]: what a caller hands in of an item.
//! - [`TaskInfo`], [`ResourceInfo`], [`OpInfo`]: what stays of an item as long as it is shown.
//! - [`Dropped`]: how many items and events were dropped.
//! - [`MOST_RECORDERS`], [`MOST_ATTRIBUTES`]: how many recorders there are at most, and how many attributes of an item.
//! - [`IdError`]: why one of these is refused.
#![tactic(auto)]

mod attr;
mod attrs;
mod error;
mod id;
mod id_block;
mod info;
mod location;
mod name;
mod spec;

pub use attr::{AttrInfo, AttrKind, AttrSpec, AttrValue};
pub use attrs::{AttrInfos, Attrs, MOST_ATTRIBUTES};
pub use error::IdError;
pub use id::{AsyncOpId, Id, MOST_RECORDERS, OfAsyncOp, OfResource, OfTask, ResourceId, TaskId};
pub use id_block::IdBlock;
pub use info::{Dropped, OpInfo, ResourceInfo, TaskInfo};
pub use location::Location;
pub use name::{Name, is_name};
pub use spec::{OpSpec, ResourceSpec, TaskKind, TaskSpec};
