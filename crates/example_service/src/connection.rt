//! A connection, as a work.
ghost use Rattle.std.specs.Prelude.{◌≡◌};

use futures::task::Poll;
use std::sync::Wait;
use tk_exec::Work;
use tk_ledgers::PollScope;

/// Serves one request in each poll, and wakes itself for the next one. Once none is left it is ready.
#[derive(Drop)]
pub struct Connection {
    requests: u64,
}

impl Connection {
    /// One with so many requests.
    pub fn new(requests: u64) -> Connection
        ensures { result.requests ≡ requests }
    {
        Connection { requests }
    }
}

impl Work for Connection {
    ghost use Rattle.std.specs.Prelude.{⊤};
    ghost use Rattle.example_service.specs.Connections.{serves};

    type Out = ();

    ghost gives = { λ connection out. ⊤ };

    ghost polls = { serves };

    #[tactic(auto, using(tk_ledgers::proofs::ScopeLemmas::scope_same))]
    fn poll<R: Wait>(&mut self, rt: &R, scope: &mut PollScope) -> Poll<()> {
        if self.requests == 0 {
            return Poll::Ready(());
        }
        self.requests -= 1;
        let now = scope.now();
        scope.wake_by_ref(rt, now);
        Poll::Pending
    }
}
