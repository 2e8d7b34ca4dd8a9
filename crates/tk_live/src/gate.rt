//! What a script's threads ask before each of their commands.

/// A gate that the worker `k` of a block of threads passes before each of its commands.
///
/// Where `pass` answers `false`, the worker stops there. `answers` says which answers it may give to which worker.
pub trait Gate {
    ghost use Rattle.std.specs.Prelude.{ℕ, Bool};

    ghost answers: { Self → ℕ → Bool → Type 0 };

    fn pass(&self, k: u64) -> bool
        ensures { Self.answers self.now k result };
}

/// The gate that is always open, which is the program's.
#[derive(Clone, Copy, Debug)]
pub struct Open;

impl Gate for Open {
    ghost use Rattle.std.specs.Prelude.{◌≡◌, true};

    ghost answers = { λ gate k answer. answer ≡ true };

    fn pass(&self, _k: u64) -> bool {
        true
    }
}
