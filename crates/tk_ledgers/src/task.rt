//! The handles of a task's ledger.

mod callers;
mod inspector;
mod origin;
mod owner;
mod receipt;
mod scope;
mod timed;
mod waker;

pub use callers::TaskCallers;
pub use inspector::TaskInspector;
pub use origin::Origin;
pub use owner::TaskOwner;
pub use receipt::TaskReceipt;
pub use scope::PollScope;
pub use waker::WakerHandle;
