//! What is known by a token.

use std::collections::LinkedList;
use tk_core::Entry;

/// What a token's holder knows of its ledger. It stands in contracts alone: no value of it is made.
pub struct View<O, C, R> {
    /// The caller whose calls the token makes. The owner is caller 0; another has the number that a call answered.
    pub caller: u64,
    /// The history as the token has seen it, the oldest entry first.
    pub seen: LinkedList<Entry<C, R>>,
    /// The numbers that it holds, its caller's among them.
    pub held: LinkedList<u64>,
    /// The row that the ledger began with.
    pub opening: Option<O>,
}
