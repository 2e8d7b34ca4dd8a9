//! Proved callers of `tk_core`, the plainest first: what a crate above knows of a step, with no proof of its own.
//!
//! - [`two_calls`]: two calls on any object, one after the other.
//! - [`call_in_words`]: one call on any object that is kept as sixteen words.
ghost use Rattle.std.specs.Prelude.{◌≡◌, List, [], ◌∷◌, ◌++◌};

use tk_core::Sequential;

/// Two calls on any object: from whatever calls its row comes, the next row and the replies are those of
/// two calls more.
pub fn two_calls<S: Sequential>(row: &S, first: S::Call, second: S::Call) -> (S, S::Reply, S::Reply)
    ensures { (opening : S) (calls : List S.Call) → S.meaning.IsOpening opening → row.now ≡ S.meaning.row_after opening calls
        → (result.0 ≡ S.meaning.row_after opening ((calls ++ first ∷ []) ++ second ∷ []))
        × (result.1 ≡ S.meaning.reply_after opening calls first)
        × (result.2 ≡ S.meaning.reply_after opening (calls ++ first ∷ []) second) }
{
    let (next, reply) = row.step(first);
    let (last, further) = next.step(second);
    (last, reply, further)
}

/// One call on the object that these words are those of: its words then, and the reply. Words that no row
/// has give nothing.
pub fn call_in_words<S: Sequential>(
    words: &[u64; 16],
    call: S::Call,
) -> Option<([u64; 16], S::Reply)>
    ensures { (opening : S) (calls : List S.Call) → S.meaning.IsOpening opening → words.now ≡ S.meaning.words (S.meaning.row_after opening calls)
        → result ≡ Some (S.meaning.words (S.meaning.row_after opening (calls ++ call ∷ [])), S.meaning.reply_after opening calls call) }
{
    let row = S::from_words(words)?;
    let (next, reply) = row.step(call);
    Some((next.to_words(), reply))
}
