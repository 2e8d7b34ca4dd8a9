//! The handles of a resource's ledger.

mod callers;
mod inspector;
mod owner;
mod receipt;
mod user;

pub use callers::ResourceCallers;
pub use inspector::ResourceInspector;
pub use owner::ResourceOwner;
pub use receipt::ResourceReceipt;
pub use user::ResourceUser;
