//! A work that loses its wakers.
ghost use Rattle.std.specs.Prelude.{◌≡◌, None};

use crate::work::Work;
use futures::task::Poll;
use std::sync::Wait;
use tk_ledgers::{PollScope, TaskReceipt};

/// Clones a waker and releases it, in each poll, and is never ready. It keeps the receipt of the last one. Where a clone
/// is refused it releases none.
#[derive(Drop)]
pub struct LoseWaker {
    released: Option<TaskReceipt>,
}

impl LoseWaker {
    /// One that loses its first waker in its first poll.
    pub fn new() -> LoseWaker
        ensures { result.released ≡ None }
    {
        LoseWaker { released: None }
    }
}

impl Work for LoseWaker {
    ghost use Rattle.tk_exec.specs.Works.{lose_gives, lose_polls};

    type Out = u64;

    ghost gives = { lose_gives };

    ghost polls = { lose_polls };

    fn poll<R: Wait>(&mut self, rt: &R, scope: &mut PollScope) -> Poll<u64> {
        if let Ok(waker) = scope.clone_waker(rt) {
            self.released = Some(waker.release(rt));
        }
        Poll::Pending
    }
}
