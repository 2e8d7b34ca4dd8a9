//! What is odd about a stream's tasks, once for all that show it: who holds up whom, and what nobody is to blame for.
#![tactic(auto)]

mod apart;
mod diagnosis;
mod finding;
mod free;
mod gain;
mod held;
mod kept;
pub mod laws;
mod limits;
mod list;
mod members;
mod moved;
mod observing;
mod place;
mod places;
mod rows;
mod shares;
mod sharing;
mod signs;
mod span;
mod step;
mod victims;
mod waited;
mod waiters;
mod waiting;
mod words;

pub use apart::Stretch;
pub use diagnosis::Diagnosis;
pub use finding::{Finding, Found, OddKind, Victim};
pub use free::Free;
pub use gain::Gain;
pub use held::Held;
pub use limits::Limits;
pub use moved::Moved;
pub use place::{place_of, without_numbers};
pub use shares::Shares;
pub use span::Span;
pub use waited::Waited;
pub use waiting::Waiting;
pub use words::{Shape, Sign, kinds, when_word};
