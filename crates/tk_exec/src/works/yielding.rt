//! A work that wakes itself.
ghost use Rattle.std.specs.Prelude.{◌≡◌};

use crate::work::Work;
use futures::task::Poll;
use std::sync::Wait;
use tk_ledgers::PollScope;

/// Wakes itself so many times, in as many polls, and then is ready.
#[derive(Drop)]
pub struct YieldTimes {
    left: u64,
    polls: u64,
}

impl YieldTimes {
    /// One that wakes itself `left` times.
    pub fn new(left: u64) -> YieldTimes
        ensures left { result.left ≡ left }
        ensures polls { result.polls ≡ 0 }
    {
        YieldTimes { left, polls: 0 }
    }
}

impl Work for YieldTimes {
    ghost use Rattle.tk_exec.specs.Works.{yield_gives, yield_polls};

    type Out = u64;

    ghost gives = { yield_gives };

    ghost polls = { yield_polls };

    #[tactic(auto, using(tk_ledgers::proofs::ScopeLemmas::scope_same))]
    fn poll<R: Wait>(&mut self, rt: &R, scope: &mut PollScope) -> Poll<u64> {
        self.polls = self.polls.saturating_add(1);
        if self.left == 0 {
            return Poll::Ready(self.polls);
        }
        self.left -= 1;
        let moment = scope.now();
        scope.wake_by_ref(rt, moment);
        Poll::Pending
    }
}
