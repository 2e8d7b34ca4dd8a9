//! A work that records from within its polls, to copy.
ghost use Rattle.std.specs.Prelude.{◌≡◌, false, IfSome};
ghost use Rattle.tk_exec_tests.specs.Permits.{Tries, GivesBack, OffersPoll, TellsTry, try_of};

use futures::task::Poll;
use std::sync::Wait;
use tk_events::{PollOp, Recorder};
use tk_exec::Work;
use tk_ids::{AsyncOpId, AttrValue, Name, TaskId};
use tk_ledgers::{PollScope, ResourceUser};

/// The attribute that counts the permits that are left.
const PERMITS: u64 = 0;

/// Takes a permit of a resource, keeps it until its next poll, gives it back then and is ready. Where none is left it tries again in
/// its next poll. It tells each try as a poll of an operation, but where there is no memory for a name.
///
/// What a work records from within its polls it records by a recorder that it was handed when it was made, which is its own: no two
/// share one, and a console has at most 64. By the same recorder it could make tasks, resources and operations.
#[derive(Drop)]
pub struct TakePermit {
    user: ResourceUser,
    op: AsyncOpId,
    task: TaskId,
    recorder: Recorder,
    name: Name,
    holds: bool,
}

// Offers a poll of an operation. Where the recorder has made all its offers nobody is told.
fn offer<R: Wait>(rt: &R, recorder: &mut Recorder, op: PollOp)
    ensures { OffersPoll recorder.old op recorder.new }
{
    let _told = recorder.poll_op(rt, op);
}

impl TakePermit {
    /// One that holds no permit: of this resource, in this operation of this task. Its tries are told by this name.
    pub fn new(
        user: ResourceUser,
        op: AsyncOpId,
        task: TaskId,
        recorder: Recorder,
        name: Name,
    ) -> TakePermit
        ensures user { result.user ≡ user }
        ensures op { result.op ≡ op }
        ensures task { result.task ≡ task }
        ensures recorder { result.recorder ≡ recorder }
        ensures name { result.name ≡ name }
        ensures holds { result.holds ≡ false }
    {
        TakePermit {
            user,
            op,
            task,
            recorder,
            name,
            holds: false,
        }
    }

    // Tries to take a permit, and tells of that.
    fn take<R: Wait>(&mut self, rt: &R)
        ensures { Tries self.old self.new }
    {
        let taken = self.user.sub(rt, PERMITS, AttrValue::U64(1)).is_ok();
        self.tell(rt, taken);
        self.holds = taken;
    }

    // A try as a poll of the operation, where there is memory for its name.
    fn try_of(&self, taken: bool) -> Option<PollOp>
        ensures { IfSome result (λ op. op ≡ try_of self.now taken) }
    {
        let name = self.name.copy().ok()?;
        Some(PollOp {
            resource: self.user.resource(),
            name,
            task: self.task,
            op: self.op,
            ready: taken,
        })
    }

    fn tell<R: Wait>(&mut self, rt: &R, taken: bool)
        ensures { TellsTry self.old taken self.new }
    {
        if let Some(op) = self.try_of(taken) {
            offer(rt, &mut self.recorder, op);
        }
    }

    // Gives the permit back.
    fn give_back<R: Wait>(&mut self, rt: &R)
        ensures { GivesBack self.old self.new }
    {
        let _given = self.user.add(rt, PERMITS, AttrValue::U64(1));
        self.holds = false;
    }
}

impl Work for TakePermit {
    ghost use Rattle.std.specs.Prelude.{⊤};
    ghost use Rattle.tk_exec_tests.specs.Permits.{permit_polls};

    type Out = ();

    ghost gives = { λ work out. ⊤ };

    ghost polls = { permit_polls };

    #[tactic(auto, using(tk_ledgers::proofs::ScopeLemmas::scope_same))]
    fn poll<R: Wait>(&mut self, rt: &R, scope: &mut PollScope) -> Poll<()> {
        if self.holds {
            self.give_back(rt);
            return Poll::Ready(());
        }
        self.take(rt);
        let now = scope.now();
        scope.wake_by_ref(rt, now);
        Poll::Pending
    }
}
