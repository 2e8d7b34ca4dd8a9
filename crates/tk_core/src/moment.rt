//! Moments in words.
ghost use Rattle.std.specs.Prelude.{◌≡◌, if◌then◌else◌};

/// A moment by its flag and its word.
#[inline(always)]
pub(crate) fn moment_of(present: bool, word: u64) -> Option<u64>
    ensures { result ≡ if present then Some word else None }
{
    if present { Some(word) } else { None }
}
