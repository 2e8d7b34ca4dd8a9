//! Why entries are refused, and the answer that says so.
ghost use Rattle.std.specs.Prelude.{◌≡◌, ◌≤◌};
ghost use Rattle.tk_embed.specs.Faults as spec;

use crate::entries::Answer;

/// Why an entry is none.
#[derive(Clone, Copy)]
pub(crate) enum Reason {
    /// An id is none: its own, its resource's or its parent's.
    Id,
    /// A name is none.
    Name,
    /// A piece reaches out of the text or out of the attributes.
    Piece,
    /// The attributes are more than 6, or two have the same name.
    Attributes,
    /// The words are those of no row.
    Row,
    /// The id stands before.
    Twice,
}

impl Reason {
    /// The number of the reason, from 1 on in the order of the variants.
    pub(crate) fn code(self) -> u32
        ensures { result ≡ spec.reason_code self }
    {
        match self {
            Reason::Id => 1,
            Reason::Name => 2,
            Reason::Piece => 3,
            Reason::Attributes => 4,
            Reason::Row => 5,
            Reason::Twice => 6,
        }
    }
}

/// Why an item was not made of its entry.
#[derive(Clone, Copy)]
pub(crate) enum Bad {
    Entry(Reason),
    Memory,
}

/// Why no line was made.
#[derive(Clone, Copy)]
pub(crate) enum Fault {
    Memory,
    /// No line has the number.
    NoNumber,
    /// More entries were told than there are.
    FewEntries,
    /// The entry of a task at this place is none.
    BadTask(usize, Reason),
    /// The entry of a resource at this place is none.
    BadResource(usize, Reason),
    /// The entry of an async operation at this place is none.
    BadOp(usize, Reason),
    /// The entry of poll counts at this place is none.
    BadCount(usize, Reason),
    /// The entry of a histogram at this place is none.
    BadTimes(usize, Reason),
}

fn simple(status: u32) -> Answer
    ensures { result ≡ spec.simple_answer status }
{
    Answer {
        status,
        reason: 0,
        place: 0,
        len: 0,
    }
}

fn at_entry(status: u32, place: usize, reason: Reason) -> Answer
    ensures { result ≡ spec.entry_answer status place reason }
{
    Answer {
        status,
        reason: reason.code(),
        place,
        len: 0,
    }
}

/// The answer that says a fault.
pub(crate) fn refusal(fault: Fault) -> Answer
    ensures answer { result ≡ spec.answer_of fault }
    ensures status { 2 ≤ result.status }
{
    match fault {
        Fault::Memory => simple(2),
        Fault::NoNumber => simple(3),
        Fault::FewEntries => simple(4),
        Fault::BadTask(place, reason) => at_entry(5, place, reason),
        Fault::BadResource(place, reason) => at_entry(6, place, reason),
        Fault::BadOp(place, reason) => at_entry(7, place, reason),
        Fault::BadCount(place, reason) => at_entry(8, place, reason),
        Fault::BadTimes(place, reason) => at_entry(9, place, reason),
    }
}
