//! A place in a source file.
ghost use Rattle.std.specs.Prelude.{◌≡◌};

use crate::name::Name;
use std::alloc::AllocError;

/// A place in a source file.
#[derive(Debug, Drop, PartialEq, Eq)]
pub struct Location {
    pub file: Name,
    /// The line, counted from 1.
    pub line: u32,
    /// The column, counted from 1.
    pub column: u32,
}

impl Clone for Location {
    ghost is_clone = { λ a b. a ≡ b };

    fn clone(&self) -> Result<Location, AllocError> {
        let file = self.file.clone()?;
        Ok(Location {
            file,
            line: self.line,
            column: self.column,
        })
    }
}
