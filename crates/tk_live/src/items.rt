//! What is kept of a script's items: of each the hand that makes all its calls.
ghost use Rattle.std.specs.Prelude.{◌≡◌, ◌⊎◌, ◌+◌, ◌*◌, ◌^◌, ◌<◌, ◌≤◌, ℕ, ◌∷◌, [], false, true, Some, None, IfOk, IfErr};
ghost use Rattle.tk_core.specs.TaskMeaning.{task_meaning};
ghost use Rattle.tk_core.specs.declared.task.call.TaskCall.TheVariants.{CloneWaker, PollStart, PollEnd, Close, WakeRef, WakeVal, Release};
ghost use Rattle.tk_core.specs.declared.op.call.OpCall.TheVariants as op_calls;
ghost use Rattle.tk_core.specs.declared.resource.call.ResourceCall.TheVariants as resource_calls;
ghost use Rattle.tk_core.specs.ResourceMeaning.{resource_meaning};
ghost use Rattle.tk_ledgers.specs.Callers.{IsLive};
ghost use Rattle.tk_live.specs.Items.{AddsTo, IsTask, IsSameTask, IsSameResource, IsSameOp, TaskDid, WakerDid, ResourceDid, OpDid, IsSpent, Draws};
ghost use Rattle.tk_live.specs.Pasts.{TaskPast, is_polled, is_polled_op, polls_of, resource_values, op_values};
ghost use Rattle.tk_live.specs.Stops.{IsReply, unless_polled, while_polled, unless_refused};
ghost use Rattle.tk_script.specs.declared.stop.Stop.TheVariants.{Call};
ghost use Rattle.tk_core.specs.declared.reply.Refusal.TheVariants.{HandlesSpent};
ghost use Rattle.tk_core.specs.declared.reply.Reply.TheVariants.{Done};
ghost use Rattle.tk_ledgers.specs.Callers.{CallsAs};

use std::sync::Wait;
use tk_core::{AttrOp, Reply, ResourceCall, ResourceRow};
use tk_ids::TaskId;
use tk_ledgers::{OpCallers, ResourceCallers, TaskCallers, TimesOwner};
use tk_script::Stop;

/// A task: all its callers in one hand, and the histogram of how long its polls ran, if it has one.
#[derive(Drop)]
pub(crate) struct TaskItem {
    pub(crate) callers: TaskCallers,
    pub(crate) times: Option<TimesOwner>,
    // When its last poll started.
    pub(crate) started: u64,
    pub(crate) closed: bool,
}

/// A waker that isn't spent: the number of its task, and its own among the callers of that.
#[derive(Clone, Copy)]
pub(crate) struct WakerItem {
    pub(crate) task: u64,
    pub(crate) number: u64,
}

/// A resource: its owner and its user in one hand, and the user's number there.
#[derive(Drop)]
pub(crate) struct ResourceItem {
    pub(crate) callers: ResourceCallers,
    pub(crate) user: u64,
    // The values of its attributes, as the script's changes leave them. Nothing else of this row is kept.
    pub(crate) values: ResourceRow,
    pub(crate) closed: bool,
}

/// An async operation.
#[derive(Drop)]
pub(crate) struct OpItem {
    pub(crate) callers: OpCallers,
    pub(crate) closed: bool,
}

// Makes a change that the script's own changes leave room for.
//
// By the rule of a resource's ledger its inspector might change attributes too. It doesn't, but the hand can't know that. So should the
// ledger refuse this change, the script's text says nothing of why, and the call doesn't return.
fn make_change<R: Wait>(callers: &mut ResourceCallers, rt: &R, user: u64, index: u64, op: AttrOp)
    requires { IsLive resource_meaning callers.old.token.view user }
    ensures id { callers.new.id ≡ callers.old.id }
    ensures ledger { callers.new.token.ledger ≡ callers.old.token.ledger }
    ensures made { CallsAs resource_meaning callers.old.token user (resource_calls.Attr index op) Done callers.new.token }
{
    if callers.change(rt, user, index, op).is_ok() {
        return;
    }
    for _ in rt.forever() {}
    unreachable!()
}

// Adds how long a poll ran to a histogram, if there is one.
fn add_time<R: Wait>(times: &mut Option<TimesOwner>, rt: &R, time: u64)
    ensures { AddsTo times.old time times.new }
{
    if let Some(times) = times {
        times.add(rt, time);
    }
}

impl TaskItem {
    /// A poll starts.
    pub(crate) fn start<R: Wait>(&mut self, rt: &R, moment: u64) -> Result<(), Stop>
        requires { self.old.closed ≡ false }
        ensures same { IsSameTask self.old self.new }
        ensures open { self.new.closed ≡ false }
        ensures did { TaskDid (λ p. unless_polled (Some (is_polled p))) (PollStart moment ∷ []) self.old self.new result }
    {
        match self.callers.start_poll(rt, moment) {
            Ok(()) => {
                self.started = moment;
                Ok(())
            }
            Err(refusal) => Err(Stop::Call(refusal)),
        }
    }

    /// The open poll ends. How long it ran is added to the histogram.
    pub(crate) fn end<R: Wait>(&mut self, rt: &R, moment: u64) -> Result<(), Stop>
        requires { self.old.closed ≡ false }
        ensures same { IsSameTask self.old self.new }
        ensures open { self.new.closed ≡ false }
        ensures did { TaskDid (λ p. while_polled (Some (is_polled p))) (PollEnd moment ∷ []) self.old self.new result }
    {
        match self.callers.end_poll(rt, moment) {
            Ok(()) => {
                add_time(&mut self.times, rt, moment.saturating_sub(self.started));
                Ok(())
            }
            Err(refusal) => Err(Stop::Call(refusal)),
        }
    }

    /// It is polled so many times: each poll starts `every` after the one before, the first at the moment, and runs for `run`.
    pub(crate) fn polls<R: Wait>(
        &mut self,
        rt: &R,
        count: u64,
        moment: u64,
        run: u64,
        every: u64,
    ) -> Result<(), Stop>
        requires open { self.old.closed ≡ false }
        requires some { 1 ≤ count }
        requires fits { moment + count * every + run < 2 ^ 64 }
        ensures same { IsSameTask self.old self.new }
        ensures did { TaskDid (λ p. unless_polled (Some (is_polled p))) (polls_of count moment run every) self.old self.new result }
    {
        for i in 0..count {
            let at = moment + i * every;
            if let Err(stop) = self.start(rt, at) {
                return Err(stop);
            }
            if let Err(stop) = self.end(rt, at + run) {
                return Err(stop);
            }
        }
        Ok(())
    }

    /// It is closed. Its wakers stay.
    pub(crate) fn close<R: Wait>(&mut self, rt: &R, moment: u64) -> Result<(), Stop>
        requires { self.old.closed ≡ false }
        ensures same { IsSameTask self.old self.new }
        ensures did { TaskDid (λ p. unless_polled (Some (is_polled p))) (Close moment ∷ []) self.old self.new result }
    {
        match self.callers.close(rt, moment) {
            Ok(()) => {
                self.closed = true;
                Ok(())
            }
            Err(refusal) => Err(Stop::Call(refusal)),
        }
    }

    /// It wakes itself in its open poll.
    pub(crate) fn self_wake<R: Wait>(&mut self, rt: &R, moment: u64) -> Result<(), Stop>
        requires { self.old.closed ≡ false }
        ensures same { IsSameTask self.old self.new }
        ensures did { TaskDid (λ p. while_polled (Some (is_polled p))) (WakeRef moment true ∷ []) self.old self.new result }
    {
        match self.callers.self_wake(rt, moment) {
            Ok(_found) => Ok(()),
            // The hand refuses it by what it keeps, and asks no ledger. The ledger refuses an end of a poll alike, and so it is asked.
            Err(_) => match self.callers.end_poll(rt, moment) {
                Ok(()) => Ok(()),
                Err(refusal) => Err(Stop::Call(refusal)),
            },
        }
    }

    /// Draws a waker, by the owner, who is 0, or by a live waker. It answers the new one's number.
    pub(crate) fn draw_waker<R: Wait>(&mut self, rt: &R, by: u64) -> Result<u64, Stop>
        requires { (by ≡ 0) ⊎ IsLive task_meaning self.old.callers.token.view by }
        ensures same { IsSameTask self.old self.new }
        ensures ok { IfOk result (λ waker. Draws waker self.old self.new) }
        ensures err { IfErr result (λ stop. (stop ≡ Call HandlesSpent) × ((n : ℕ) (p : TaskPast) → IsTask n p self.old → IsReply task_meaning (Some p.opening) CloneWaker HandlesSpent)) }
    {
        match self.callers.clone_waker(rt, by) {
            Ok(waker) => Ok(waker),
            Err(refusal) => Err(Stop::Call(refusal)),
        }
    }

    /// A live waker wakes it from outside, and stays.
    pub(crate) fn wake_by_ref<R: Wait>(&mut self, rt: &R, waker: u64, moment: u64)
        requires { IsLive task_meaning self.old.callers.token.view waker }
        ensures same { IsSameTask self.old self.new }
        ensures did { WakerDid (WakeRef moment false) self.old self.new }
    {
        self.callers.wake_by_ref(rt, waker, moment);
    }

    /// A live waker wakes it from outside, which spends the waker.
    pub(crate) fn wake<R: Wait>(&mut self, rt: &R, waker: u64, moment: u64)
        requires { IsLive task_meaning self.old.callers.token.view waker }
        ensures spent { IsSpent waker self.old self.new }
        ensures did { WakerDid (WakeVal moment false) self.old self.new }
    {
        self.callers.wake(rt, waker, moment);
    }

    /// A live waker is released, which spends it.
    pub(crate) fn release<R: Wait>(&mut self, rt: &R, waker: u64)
        requires { IsLive task_meaning self.old.callers.token.view waker }
        ensures spent { IsSpent waker self.old self.new }
        ensures did { WakerDid Release self.old self.new }
    {
        self.callers.release(rt, waker);
    }
}

impl ResourceItem {
    /// It is closed. Its user makes no call from then on.
    pub(crate) fn close<R: Wait>(&mut self, rt: &R, moment: u64) -> Result<(), Stop>
        requires { self.old.closed ≡ false }
        ensures same { IsSameResource self.old self.new }
        ensures did { ResourceDid (λ p. None) (resource_calls.Close moment) self.old self.new result }
    {
        match self.callers.close(rt, moment) {
            Ok(()) => {
                self.closed = true;
                Ok(())
            }
            // One that isn't closed is never refused.
            Err(refusal) => Err(Stop::Call(refusal)),
        }
    }

    /// Its user changes the attribute of an index.
    pub(crate) fn change<R: Wait>(&mut self, rt: &R, index: u64, op: AttrOp) -> Result<(), Stop>
        requires { IsLive resource_meaning self.old.callers.token.view self.old.user }
        ensures same { IsSameResource self.old self.new }
        ensures did { ResourceDid (λ p. unless_refused index op (resource_values p)) (resource_calls.Attr index op) self.old self.new result }
    {
        let (values, reply) = self.values.step(ResourceCall::Attr(index, op));
        if let Reply::Refused(refusal) = reply {
            return Err(Stop::Call(refusal));
        }
        make_change(&mut self.callers, rt, self.user, index, op);
        self.values = values;
        Ok(())
    }
}

impl OpItem {
    /// A poll starts.
    pub(crate) fn start<R: Wait>(&mut self, rt: &R, moment: u64) -> Result<(), Stop>
        requires { self.old.closed ≡ false }
        ensures same { IsSameOp self.old self.new }
        ensures did { OpDid (λ p. unless_polled (Some (is_polled_op p))) (op_calls.PollStart moment) self.old self.new result }
    {
        match self.callers.start_poll(rt, moment) {
            Ok(()) => Ok(()),
            Err(refusal) => Err(Stop::Call(refusal)),
        }
    }

    /// The open poll ends.
    pub(crate) fn end<R: Wait>(&mut self, rt: &R, moment: u64) -> Result<(), Stop>
        requires { self.old.closed ≡ false }
        ensures same { IsSameOp self.old self.new }
        ensures did { OpDid (λ p. while_polled (Some (is_polled_op p))) (op_calls.PollEnd moment) self.old self.new result }
    {
        match self.callers.end_poll(rt, moment) {
            Ok(()) => Ok(()),
            Err(refusal) => Err(Stop::Call(refusal)),
        }
    }

    /// It is closed.
    pub(crate) fn close<R: Wait>(&mut self, rt: &R, moment: u64) -> Result<(), Stop>
        requires { self.old.closed ≡ false }
        ensures same { IsSameOp self.old self.new }
        ensures did { OpDid (λ p. unless_polled (Some (is_polled_op p))) (op_calls.Close moment) self.old self.new result }
    {
        match self.callers.close(rt, moment) {
            Ok(()) => {
                self.closed = true;
                Ok(())
            }
            Err(refusal) => Err(Stop::Call(refusal)),
        }
    }

    /// From now on this task polls it.
    pub(crate) fn set_task<R: Wait>(&mut self, rt: &R, task: TaskId) -> Result<(), Stop>
        requires { self.old.closed ≡ false }
        ensures same { IsSameOp self.old self.new }
        ensures did { OpDid (λ p. None) (op_calls.SetTask task) self.old self.new result }
    {
        match self.callers.set_task(rt, task) {
            Ok(()) => Ok(()),
            // One that isn't closed is never refused.
            Err(refusal) => Err(Stop::Call(refusal)),
        }
    }

    /// Its owner changes the attribute of an index.
    pub(crate) fn change<R: Wait>(&mut self, rt: &R, index: u64, op: AttrOp) -> Result<(), Stop>
        requires { self.old.closed ≡ false }
        ensures same { IsSameOp self.old self.new }
        ensures did { OpDid (λ p. unless_refused index op (op_values p)) (op_calls.Attr index op) self.old self.new result }
    {
        match self.callers.change(rt, index, op) {
            Ok(()) => Ok(()),
            Err(refusal) => Err(Stop::Call(refusal)),
        }
    }
}
