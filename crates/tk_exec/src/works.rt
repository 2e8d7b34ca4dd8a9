//! Example works. Each gives the number of its polls.

mod busy;
mod example;
mod hold;
mod lose;
mod yielding;

pub use busy::BusyUntil;
pub use example::Example;
pub use hold::HoldWaker;
pub use lose::LoseWaker;
pub use yielding::YieldTimes;
