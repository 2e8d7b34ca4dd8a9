//! A reader of a stream up to a moment.
ghost use Rattle.std.specs.Prelude.{◌≡◌, ℕ, List, Option, option_map};
ghost use Rattle.tk_until.specs.Front.{front};
ghost use Rattle.tk_until.specs.Held.{left_until};

use crate::held::Held;
use std::alloc::Global;
use std::io;
use std::io::Read;

/// A reader of a stream up to a moment: it ends before the first line whose moment is later.
///
/// It gives whole lines. A last line that has no end is not given: clients leave such a line out, too. A text that is no line of a
/// stream has no moment and is given, so that a client says what is wrong with it.
///
/// It reads pieces of 65,536 bytes and holds one of them at most, with the line that goes on before it.
#[derive(Drop)]
pub struct Until<R> {
    reader: R,
    until: Option<u64>,
    held: Held,
}

impl<R> Until<R> {
    /// A reader up to a moment in nanoseconds. With none it gives all that the reader gives, and looks at nothing.
    pub fn new(alloc: Global, reader: R, until: Option<u64>) -> Until<R>
        ensures reader { result.reader ≡ reader }
        ensures front { (remaining : Option (List ℕ)) → left_until result.until result.held remaining ≡ option_map (front until) remaining }
    {
        let held = Held::new(alloc);
        Until {
            reader,
            until,
            held,
        }
    }

    /// The reader, which goes on after what was read of it.
    pub fn into_reader(self) -> R
        ensures { result ≡ self.reader }
    {
        self.reader
    }
}

/// A read fails as the reader below fails, and by `OutOfMemory` where there is no memory to hold a line or to look at it. Then no byte is
/// lost, and a later read may succeed.
impl<R: Read> Read for Until<R> {
    ghost remaining = { λ u. left_until u.until u.held (R.remaining u.reader) };

    fn read(&mut self, buf: &mut [u8]) -> io::Result<usize> {
        let Some(until) = self.until else {
            return self.reader.read(buf);
        };
        self.held.ready(until, &mut self.reader)?;
        Ok(self.held.give(buf))
    }
}
