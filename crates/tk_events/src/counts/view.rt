//! What the seats of a table of counts know.
use atomic_table::TableRule;
use std::collections::LinkedList;

/// Whose seat it is.
pub enum Role {
    Reads,
    Adds,
    /// It was handed on.
    Spent,
}

/// What a seat that was joined had counted, a number for each kind. No value of it is made.
pub struct Tally {
    pub number: u64,
    pub counts: LinkedList<u64>,
}

/// What a seat knows. No value of it is made.
///
/// An adder has its number and its counts, the reader how many adders it made, what it read last of each
/// word and the tallies of those that it joined. Both know how many adders there may be.
pub struct View {
    pub role: Role,
    pub adders: u64,
    pub number: u64,
    pub counts: LinkedList<u64>,
    pub made: u64,
    pub seen: LinkedList<u64>,
    pub known: LinkedList<Tally>,
}

/// The rule of a table of counts, whose key is how many adders there may be.
pub struct Rule;

impl TableRule<u8, View, u64> for Rule {
    ghost use Rattle.tk_events.specs.Counts.{Counted, first};

    ghost holds = { Counted };

    ghost first = { first };
}
