//! Streams that are read by a path.
ghost use Rattle.std.specs.Prelude.{ℕ, List, IfOk};

use std::fs;
use std::io::{self, Read};
use std::rt::Files;

/// Where a path names a stream.
pub(crate) trait Sources {
    /// What reads the bytes that a path names.
    type File: Read + Send + Drop + 'static;

    // A reader has the bytes that stand under a path.
    ghost is_of: { Self → List ℕ → Self.File → Type 0 };

    /// Opens what a path names, from its first byte on.
    fn open(&self, path: &str) -> io::Result<Self::File>
        ensures { IfOk result (λ file. is_of self.now path.now file) };
}

/// The files of a system. Nothing is known of their bytes, but that they are those of the path.
#[derive(Clone, Copy, Drop)]
pub(crate) struct SystemFiles<'a, R> {
    rt: &'a R,
}

impl<'a, R> SystemFiles<'a, R> {
    pub(crate) fn new(rt: &'a R) -> Self {
        SystemFiles { rt }
    }
}

impl<R: Files> Sources for SystemFiles<'_, R>
where
    R::File: Send + 'static,
{
    ghost use Rattle.std.specs.Prelude.{⊤};

    type File = R::File;

    ghost is_of = { λ files path file. ⊤ };

    fn open(&self, path: &str) -> io::Result<R::File> {
        fs::open(self.rt, path)
    }
}
