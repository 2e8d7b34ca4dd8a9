//! A work that keeps its waker.
ghost use Rattle.std.specs.Prelude.{◌≡◌, false, None};

use crate::work::Work;
use futures::task::Poll;
use std::sync::Wait;
use tk_ledgers::{PollScope, TaskReceipt, WakerHandle};

/// Clones a waker in its first poll and keeps it; the next poll releases it, keeps its receipt and is ready. Where the
/// clone is refused, none is kept or released.
#[derive(Drop)]
pub struct HoldWaker {
    begun: bool,
    waker: Option<WakerHandle>,
    released: Option<TaskReceipt>,
}

impl HoldWaker {
    /// One that was not polled yet.
    pub fn new() -> HoldWaker
        ensures begun { result.begun ≡ false }
        ensures waker { result.waker ≡ None }
    {
        HoldWaker {
            begun: false,
            waker: None,
            released: None,
        }
    }
}

impl Work for HoldWaker {
    ghost use Rattle.tk_exec.specs.Works.{hold_gives, hold_polls};

    type Out = u64;

    ghost gives = { hold_gives };

    ghost polls = { hold_polls };

    #[tactic(auto, using(tk_ledgers::proofs::ScopeLemmas::scope_same))]
    fn poll<R: Wait>(&mut self, rt: &R, scope: &mut PollScope) -> Poll<u64> {
        if self.begun {
            if let Some(waker) = self.waker.take() {
                self.released = Some(waker.release(rt));
            }
            return Poll::Ready(2);
        }
        self.begun = true;
        self.waker = scope.clone_waker(rt).ok();
        Poll::Pending
    }
}
