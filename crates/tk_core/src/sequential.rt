//! Objects of sixteen words whose calls are made one after the other.

/// An object whose row stands in sixteen words, and whose calls make one history.
///
/// Its meaning says what a list of calls, from an opening row, makes of the row and what each call is
/// answered; which number, if any, a reply answers; which calls the owner may make, and a caller whose
/// number was answered to a given call; and which calls are a caller's last.
pub trait Sequential: Copy {
    ghost use Rattle.tk_core.specs.Meaning.{Meaning, AreToldApart, BeginsAtOpening, NumbersAreNew, StepsTo, IsRowOf, IsRowWith, ReadsOnly};
    ghost use Rattle.std.specs.Prelude.{◌≡◌, IsTrue};

    /// A call on the object.
    type Call: Copy;

    /// What a call is answered.
    type Reply: Copy;

    ghost meaning: { Meaning Self Self.Call Self.Reply };

    /// The words of the row.
    fn to_words(&self) -> [u64; 16]
        ensures { result ≡ meaning.words self.now };

    /// The row that has these words: `None` exactly where no row has them.
    fn from_words(words: &[u64; 16]) -> Option<Self>
        ensures { IsRowOf meaning words.now result };

    /// The row that has these words, where there is one, and otherwise some row. It spares the test of
    /// [`Sequential::from_words`] where the words are known to be a row's.
    fn decode(words: &[u64; 16]) -> Self
        ensures { IsRowWith meaning words.now result };

    /// One call: the next row, and the reply. A row that no calls leave gives some row and some reply.
    fn step(&self, call: Self::Call) -> (Self, Self::Reply)
        ensures { StepsTo meaning self.now call result.0 result.1 };

    /// Whether a call is known to read alone. One that does leaves each row as it is; of others nothing is said.
    fn reads_only(call: Self::Call) -> bool
        ensures { IsTrue result → ReadsOnly meaning call };

    /// Words tell rows apart.
    ghost told_apart: { AreToldApart meaning };

    /// No calls leave the opening row.
    ghost begins: { BeginsAtOpening meaning };

    /// No number is answered twice, and none is 0.
    ghost numbers_are_new: { NumbersAreNew meaning };
}
