//! What is told below a fault: the line that it came at, its word, and the rule that it breaks.
//!
//! - [`Kept`]: a reader that keeps the lines that a fault may come at.
//! - [`explain_script`], [`explain_stream`]: what is told of a run and of a view.
//!
//! `specs/Keeping.antt` says what is kept, and `specs/Telling.antt` which line is told. No contract says what the rules are.
#![tactic(auto)]

mod kept;
pub mod laws;
mod lines;
mod rules;
mod script;
mod shapes;
mod shown;
mod stream;

pub use kept::Kept;
pub use script::explain_script;
pub use stream::explain_stream;
