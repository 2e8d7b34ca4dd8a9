//! What is polled, and by which clock.
ghost use Rattle.std.specs.Prelude.{ℕ, ⊤};
ghost use Rattle.futures.specs.Poll.{IfReady, OnPending};
ghost use Rattle.futures.specs.declared.task.Poll.{Poll};
ghost use Rattle.tk_ledgers.specs.Scopes.{Scoped, ScopeGrows};

use futures::task::Poll;
use std::sync::Wait;
use tk_ledgers::PollScope;

/// A future that is written by hand: a state with a poll.
///
/// A poll is handed the scope of its task's poll, which it uses by the scope's calls alone. It says what it does by
/// `polls`: what it answers, and what it leaves of itself and of its scope. A ready answer is an output that the work
/// gives, and a pending poll leaves a work that gives nothing that it didn't give before.
pub trait Work: Drop {
    type Out: Drop;

    // Holds of each output that the work may give.
    ghost gives: { Self → Self.Out → Type 0 };

    // Holds of the work and its scope before a poll, the answer, and both after it. A work that doesn't give it says nothing here.
    ghost polls: { Self → Scoped → Poll Self.Out → Self → Scoped → Type 0 } = { λ work scope answer work' scope'. ⊤ };

    /// Polls it once.
    fn poll<R: Wait>(&mut self, rt: &R, scope: &mut PollScope) -> Poll<Self::Out>
        ensures scoped { ScopeGrows scope.old scope.new }
        ensures polled { polls self.old scope.old result self.new scope.new }
        ensures value { IfReady result (gives self.old) }
        ensures same { OnPending result ((x : _) → gives self.new x → gives self.old x) };
}

/// Tells moments.
pub trait Clock {
    // Holds of the clock before a reading, the moment that was read, and the clock after it.
    ghost reads: { Self → ℕ → Self → Type 0 };

    /// Reads the moment.
    fn now(&mut self) -> u64
        ensures { reads self.old result self.new };
}
