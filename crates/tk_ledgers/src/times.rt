//! The handles of a histogram's ledger.

mod inspector;
mod owner;
mod receipt;

pub use inspector::TimesInspector;
pub use owner::TimesOwner;
pub use receipt::TimesReceipt;
