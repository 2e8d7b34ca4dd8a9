//! What the work of a task may poll as a future.
ghost use Rattle.std.specs.Prelude.{⊤};
ghost use Rattle.futures.specs.declared.task.Poll.{Poll};
ghost use Rattle.futures.specs.Poll.{IfReady, OnPending};
ghost use Rattle.futures.specs.Task.{IsArmed};

use futures::Future;
use futures::task::{Context, Poll};

/// A future that a [`FutureWork`](crate::FutureWork) polls.
///
/// Each future of the kit is one. The kit's futures don't say what a poll of them does, so nothing is known of that. A type that is no
/// future of the kit says it by `polls`, and the work's polls are then known to do just that, each once.
pub trait Pollable: Drop {
    type Output;

    // Holds of the states in which it may be polled.
    ghost may_poll: { Self → Type 0 } = { λ future. ⊤ };

    // Holds of each output that it may give.
    ghost may_give: { Self → Self.Output → Type 0 } = { λ future x. ⊤ };

    // Holds of it before a poll, the answer, and it after the poll. One that doesn't give this says nothing here.
    ghost polls: { Self → Poll Self.Output → Self → Type 0 } = { λ future answer future'. ⊤ };

    /// Polls it once.
    fn poll_once(&mut self, cx: &mut Context<'_>) -> Poll<Self::Output>
        requires { may_poll self.old }
        ensures polled { polls self.old result self.new }
        ensures value { IfReady result (may_give self.old) }
        ensures again { OnPending result (may_poll self.new) }
        ensures same { OnPending result ((x : _) → may_give self.new x → may_give self.old x) }
        ensures armed { OnPending result (IsArmed cx.new) };
}

impl<F: Future> Pollable for F {
    type Output = F::Output;

    ghost may_poll = { F.can_poll };

    ghost may_give = { F.gives };

    fn poll_once(&mut self, cx: &mut Context<'_>) -> Poll<F::Output> {
        self.poll(cx)
    }
}
