//! What a line says, as far as it decides how a client takes it.

/// A new item: its id, and a number for the kinds of its attributes, or for which kind of task it is.
#[derive(Clone, Copy)]
pub struct New {
    pub id: u64,
    pub shape: u64,
}

/// What is told of an item: its id, a number for the kinds of its attributes' values, and one that its row is made from.
#[derive(Clone, Copy)]
pub struct Told {
    pub id: u64,
    pub shape: u64,
    pub seed: u64,
}

/// What a line says of one kind of item.
#[derive(Drop)]
pub struct Part {
    pub news: Vec<New>,
    pub told: Vec<Told>,
    /// The ids of what is gone.
    pub gone: Vec<u64>,
}

/// How long waits took.
#[derive(Clone, Copy, PartialEq, Eq)]
pub struct Waits {
    pub counts: [u64; 14],
    pub longest: u64,
}

/// A task's histogram of poll times, and that of its waits where it is there.
#[derive(Clone, Copy, PartialEq, Eq)]
pub struct Histogram {
    pub id: u64,
    pub counts: [u64; 14],
    pub longest: u64,
    pub waits: Option<Waits>,
}

/// How a line is spoilt.
#[derive(Clone, Copy, Drop, PartialEq, Eq)]
pub enum Spoilt {
    Whole,
    NoJson,
    NoLine,
}

/// A line.
#[derive(Drop)]
pub struct Given {
    pub tasks: Part,
    pub resources: Part,
    pub ops: Part,
    pub counts: Vec<(u64, u64, u64)>,
    pub seq: u64,
    pub snapshot: bool,
    /// It has the keys of version 2 or 3, which say what is gone.
    pub removes: bool,
    /// The histograms that it tells, where it has the keys of version 3.
    pub times: Option<Vec<Histogram>>,
    pub now: u64,
    pub spoilt: Spoilt,
}
