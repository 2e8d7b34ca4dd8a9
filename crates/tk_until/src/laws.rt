//! Laws of the prefix of a stream up to a moment: each is the contract of a function that does nothing.
ghost use Rattle.std.specs.Prelude.{◌≡◌, ◌≤◌, ◌++◌, ℕ, List, [], Option, true, None, Some};
ghost use Rattle.tk_client.specs.Meaning.{cut};
ghost use Rattle.tk_until.specs.Front.{BeginsWith, BeginLater, front, none_later};

/// A stream begins with its prefix up to a moment.
pub fn a_stream_begins_with_its_front()
    ensures { (until : Option ℕ) (text : List ℕ) → BeginsWith text (front until text) }
{}

/// The prefix up to a moment is whole lines, and none of them is later.
pub fn no_line_of_a_front_is_later()
    ensures lines { (until : ℕ) (text : List ℕ) → none_later until (cut (front (Some until) text)).0 ≡ true }
    ensures whole { (until : ℕ) (text : List ℕ) → (cut (front (Some until) text)).1 ≡ [] }
{}

/// What follows the prefix up to a moment begins with a line that is later, or has no whole line.
pub fn a_front_ends_at_a_later_line()
    ensures { (until : ℕ) (text : List ℕ) → (rest : List ℕ) × (text ≡ front (Some until) text ++ rest) × BeginLater until (cut rest).0 }
{}

/// The prefix up to a later moment begins with that up to an earlier one.
pub fn later_fronts_begin_with_earlier_ones()
    ensures { (earlier later : ℕ) (text : List ℕ) → earlier ≤ later → BeginsWith (front (Some later) text) (front (Some earlier) text) }
{}

/// With no moment the prefix is all of the stream.
pub fn no_moment_leaves_all()
    ensures { (text : List ℕ) → front None text ≡ text }
{}
