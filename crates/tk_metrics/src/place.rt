//! Where the numbers of a stream are kept.
use std::io;

/// A place for texts, each under a path, as files are that are written anew.
pub trait Place {
    ghost use Rattle.std.specs.Prelude.{None, Option};
    ghost use Rattle.tk_metrics.specs.Places.{GetsText, Texts};

    // The texts that were put with their paths, where they are known.
    ghost texts: { Self → Option Texts } = { λ place. None };

    /// Puts a text under a path, in place of the one that was there, which stays where that fails.
    fn put(&mut self, path: &str, text: &[u8]) -> io::Result<()>
        ensures { GetsText (texts self.old) (texts self.new) result path.now text.now };
}
