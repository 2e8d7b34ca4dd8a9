//! A text in pieces: its lines, and the words of a line.
ghost use Rattle.std.specs.Prelude.{◌≡◌, ◌==◌, ◌∷◌, position};
ghost use Rattle.std.specs.Iterator.{YieldsFirstRef, item_count};
ghost use Rattle.tk_script.specs.Pieces.{pieces_at, pieces_left, pieces_of_rest};

/// The pieces of a text that is cut at each of one byte: one more than there are such bytes. A script's lines are its pieces at
/// `b'\n'`, and a line's words its pieces at spaces.
#[derive(Clone, Copy)]
pub struct Pieces<'a> {
    rest: Option<&'a [u8]>,
    byte: u8,
}

impl<'a> Pieces<'a> {
    /// All pieces of a text.
    pub fn new(text: &'a [u8], byte: u8) -> Pieces<'a>
        ensures { pieces_left result ≡ pieces_at byte text.entry.now }
    {
        Pieces {
            rest: Some(text),
            byte,
        }
    }
}

impl<'a> Iterator for Pieces<'a> {
    type Item = &'a [u8];

    ghost next_gives = { YieldsFirstRef pieces_left };

    ghost remaining = { item_count pieces_left };

    fn next(&mut self) -> Option<&'a [u8]> {
        let text = self.rest?;
        let (piece, rest) = cut(text, self.byte);
        self.rest = rest;
        Some(piece)
    }
}

/// Where the byte stands first.
pub(crate) fn find(text: &[u8], byte: u8) -> Option<usize>
    ensures { result ≡ position (λ b. b == byte) text.now }
{
    text.iter().position(|b| *b == byte)
}

// The first piece, and what stands after the byte that ends it.
fn cut(text: &[u8], byte: u8) -> (&[u8], Option<&[u8]>)
    ensures { pieces_at byte text.now ≡ result.0.now ∷ pieces_of_rest byte result.1 }
{
    match find(text, byte) {
        Some(at) => {
            let (piece, _) = text.split_at(at);
            let (_, rest) = text.split_at(at + 1);
            (piece, Some(rest))
        }
        None => (text, None),
    }
}
