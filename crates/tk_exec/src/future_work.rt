//! A future as a work.
ghost use Rattle.std.specs.Prelude.{◌≡◌, None, IfOk};
ghost use Rattle.tk_ledgers.specs.Scopes.{ScopeGrows};
ghost use Rattle.tk_exec.specs.Scopes.{IsReleased};
ghost use Rattle.tk_exec.specs.Futures.{unpolled, Lends, Waits, Hears};

use crate::pollable::Pollable;
use crate::work::Work;
use futures::task::{Doorbell, Poll, Solo};
use std::alloc::AllocGlobal;
use std::io;
use std::marker::Model;
use std::random::RandomSource;
use std::sync::Wait;
use tk_ledgers::{Origin, PollScope, TaskReceipt, WakerHandle};

/// A future as the work of a task. A poll of the task polls it, and lends it wakers of its own.
///
/// A future clones and drops its wakers unseen, so one waker of the task stands for them: it is made in the first poll that is pending,
/// and released in the one that is ready. Of wakes it is seen whether there was one since a poll began. One within the poll, also where another
/// thread made it, is a wake of the task by itself as the poll ends; one since then is seen by [`FutureWork::hear`], which is called
/// before a task is looked at.
#[derive(Drop)]
pub struct FutureWork<F: Pollable> {
    solo: Solo,
    future: Option<F>,
    waker: Option<WakerHandle>,
    released: Option<TaskReceipt>,
    // The last wake was recorded.
    is_heard: bool,
}

impl<F: Pollable> Model for FutureWork<F> {
    ghost use Rattle.std.specs.Prelude.{IfSome};
    ghost use Rattle.tk_exec.specs.Futures.{Lent};

    ghost Value = { Lent F };

    ghost view = { λ w. record { future = w.future; waker = w.waker; released = w.released } };

    ghost invariant = { λ w. IfSome w.future F.may_poll };
}

// Whether the task of these polls was woken, or asked to be polled again, since its last poll began.
fn is_woken(solo: &Solo) -> bool {
    match solo.sleep() {
        Some(asleep) => {
            asleep.end();
            false
        }
        None => true,
    }
}

impl<F: Pollable> FutureWork<F> {
    /// A future that was not polled yet. Refused where there is no memory, or no random number to name it by; the future is
    /// dropped then.
    pub fn new<R: RandomSource + AllocGlobal>(rt: &R, future: F) -> io::Result<FutureWork<F>>
        requires { F.may_poll future }
        ensures { IfOk result (λ work. work ≡ unpolled future) }
    {
        Ok(FutureWork {
            solo: Solo::new(rt, Doorbell::spinning())?,
            future: Some(future),
            waker: None,
            released: None,
            is_heard: true,
        })
    }

    /// Records a wake that came since the last poll ended, as one wake from outside at this moment, however many there were.
    /// It answers whether there was one that is not recorded yet.
    pub fn hear<R: Wait>(&mut self, rt: &R, moment: u64) -> bool
        ensures future { self.new.future ≡ self.old.future }
        ensures released { self.new.released ≡ self.old.released }
        ensures heard { Hears self.old.waker moment result self.new.waker }
    {
        if self.is_heard || !is_woken(&self.solo) {
            return false;
        }
        let Some(mut waker) = self.waker.take() else {
            return false;
        };
        waker.wake_by_ref(rt, moment, Origin::outside());
        self.waker = Some(waker);
        self.is_heard = true;
        true
    }

    // Keeps a waker of the task, from the first pending poll on.
    #[tactic(auto, using(tk_ledgers::proofs::ScopeLemmas::scope_same))]
    fn keep_waker<R: Wait>(&mut self, rt: &R, scope: &mut PollScope)
        ensures future { self.new.future ≡ self.old.future }
        ensures lends { Lends self.old.waker scope.old self.new.waker scope.new }
        ensures scoped { ScopeGrows scope.old scope.new }
    {
        if self.waker.is_some() {
            return;
        }
        self.waker = scope.clone_waker(rt).ok();
    }

    // Behind a pending poll. A wake within it is one of the task by itself.
    fn wait<R: Wait>(&mut self, rt: &R, scope: &mut PollScope)
        ensures future { self.new.future ≡ self.old.future }
        ensures waits { Waits self.old.waker scope.old self.new.waker scope.new }
        ensures scoped { ScopeGrows scope.old scope.new }
    {
        self.keep_waker(rt, scope);
        self.is_heard = is_woken(&self.solo);
        if !self.is_heard {
            return;
        }
        let now = scope.now();
        scope.wake_by_ref(rt, now);
    }

    // Releases the waker, once the future is ready.
    fn release<R: Wait>(&mut self, rt: &R)
        ensures future { self.new.future ≡ self.old.future }
        ensures waker { self.new.waker ≡ None }
        ensures released { IsReleased self.old.waker self.new.released }
    {
        if let Some(waker) = self.waker.take() {
            self.released = Some(waker.release(rt));
        }
    }
}

impl<F: Pollable> Work for FutureWork<F>
where
    F::Output: Drop,
{
    ghost use Rattle.tk_exec.specs.Futures.{lent_gives, lent_polls};

    type Out = F::Output;

    ghost gives = { lent_gives F.may_give };

    ghost polls = { lent_polls F.polls };

    #[tactic(auto, using(tk_ledgers::proofs::ScopeLemmas::scope_same))]
    fn poll<R: Wait>(&mut self, rt: &R, scope: &mut PollScope) -> Poll<F::Output> {
        let Some(mut future) = self.future.take() else {
            self.wait(rt, scope);
            return Poll::Pending;
        };
        let mut cx = self.solo.begin();
        let answer = future.poll_once(&mut cx);
        cx.end(&answer);
        match answer {
            Poll::Ready(output) => {
                self.release(rt);
                Poll::Ready(output)
            }
            Poll::Pending => {
                self.future = Some(future);
                self.wait(rt, scope);
                Poll::Pending
            }
        }
    }
}
