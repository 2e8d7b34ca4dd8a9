//! A work that waits for a moment without a rest.
ghost use Rattle.std.specs.Prelude.{◌≡◌};

use crate::work::Work;
use futures::task::Poll;
use std::sync::Wait;
use tk_ledgers::PollScope;

/// Wakes itself until its poll's moment is at least the one that it waits for, and then is ready.
#[derive(Drop)]
pub struct BusyUntil {
    moment: u64,
    polls: u64,
}

impl BusyUntil {
    /// One that waits for this moment.
    pub fn new(moment: u64) -> BusyUntil
        ensures moment { result.moment ≡ moment }
        ensures polls { result.polls ≡ 0 }
    {
        BusyUntil { moment, polls: 0 }
    }
}

impl Work for BusyUntil {
    ghost use Rattle.tk_exec.specs.Works.{busy_gives, busy_polls};

    type Out = u64;

    ghost gives = { busy_gives };

    ghost polls = { busy_polls };

    #[tactic(auto, using(tk_ledgers::proofs::ScopeLemmas::scope_same))]
    fn poll<R: Wait>(&mut self, rt: &R, scope: &mut PollScope) -> Poll<u64> {
        self.polls = self.polls.saturating_add(1);
        let now = scope.now();
        if now >= self.moment {
            return Poll::Ready(self.polls);
        }
        scope.wake_by_ref(rt, now);
        Poll::Pending
    }
}
