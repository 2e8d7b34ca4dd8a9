//! What the passes of a buffer know.
use crate::item::{Item, Offer};
use crossbeam_queue::protocol::Protocol;
use std::collections::LinkedList;

/// Whose pass it is.
pub enum Role {
    Takes,
    Records,
    /// It was handed on.
    Spent,
}

/// What a recorder that was joined had offered. No value of it is made.
pub struct Returned {
    pub number: u64,
    pub kept: LinkedList<Offer>,
    pub refused: LinkedList<Offer>,
}

/// What a pass knows. No value of it is made.
///
/// A recorder has its number, its offers, and how many of those that were kept it knows to be taken; the taker what it took, how many
/// recorders it made and what those that it joined had offered. Both know how many recorders there may be.
pub struct View {
    pub role: Role,
    pub recorders: u64,
    pub number: u64,
    pub kept: LinkedList<Offer>,
    pub refused: LinkedList<Offer>,
    pub gone: u64,
    pub made: u64,
    pub taken: LinkedList<Offer>,
    pub known: LinkedList<Returned>,
}

/// The rule of a buffer.
pub struct Rule;

impl Protocol<Item, View> for Rule {
    ghost use Rattle.tk_events.specs.Buffer.{Kept, first};

    ghost holds = { Kept };

    ghost first = { first };
}
