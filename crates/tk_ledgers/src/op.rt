//! The handles of an async operation's ledger.

mod callers;
mod inspector;
mod owner;
mod receipt;

pub use callers::OpCallers;
pub use inspector::OpInspector;
pub use owner::OpOwner;
pub use receipt::OpReceipt;
