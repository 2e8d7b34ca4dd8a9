//! What comes to a watch at keys: pieces of a stream, keys, and moments at which a screen is due.
ghost use Rattle.std.specs.Prelude.{length};

/// What comes next.
#[derive(Clone, Copy, Debug, PartialEq, Eq)]
pub enum Event {
    /// So many bytes of the stream.
    Piece(usize),
    /// A key, as a terminal gives it.
    Key(u8),
    /// A screen is to be drawn.
    Due,
    /// The stream can't be read.
    Broken,
}

/// Where pieces of a stream and keys come from, and what tells when a screen is due.
pub trait Source {
    ghost use Rattle.std.specs.Prelude.{List, None, Option};
    ghost use Rattle.tk_watch.specs.Keyed.{Coming, Gives, IsWithin};

    /// What is to come, where it is known.
    ghost to_come: { Self → Option (List Coming) } = { λ _. None };

    /// What comes next, or that nothing more comes: nobody can press a key any more. The bytes of a piece stand at the front of the room.
    fn next(&mut self, room: &mut [u8]) -> Option<Event>
        ensures within { IsWithin result (length room.new) }
        ensures gives { Gives (to_come self.old) (to_come self.new) result room.new };
}
