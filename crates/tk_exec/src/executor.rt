//! Tasks that are polled in turn.
ghost use Rattle.std.specs.Prelude.{◌≡◌, ◌+◌, ◌<◌, ◌≤◌, ◌⊎◌, true, false, None, [], ◌∷◌, ◌++◌, cond, length, is_some, IfOk, IfErr, OnOk, IfSome, IfNone};
ghost use Rattle.std.specs.List.{slice_get};
ghost use Rattle.std.specs.Vec.{vec_len, vec_capacity};
ghost use Rattle.tk_exec.specs.Places.{IsOnlyAt};
ghost use Rattle.tk_exec.specs.Seats.{ChangesAt, LookedAt, AreClosedAt, unfinished, outputs_of};
ghost use Rattle.tk_exec.specs.Turns.{TurnDoes, PollsAt, Passed, Found, HoldsId, RefusedFor, NoneFinished, Takes};
ghost use Rattle.tk_exec.specs.Futures.{SeatHears, AllHear};
ghost use Rattle.tk_exec.specs.declared.error.ExecError.TheVariants.{Memory};

use crate::error::ExecError;
use crate::future_work::FutureWork;
use crate::instrumented::Instrumented;
use crate::pollable::Pollable;
use crate::slot::Slot;
use crate::work::{Clock, Work};
use indexmap::IndexMap;
use slab::Slab;
use std::alloc::Global;
use std::marker::Model;
use std::sync::Wait;
use tk_ids::TaskId;
use tk_ledgers::TaskReceipt;

/// What a turn did.
#[derive(Clone, Copy, Debug, PartialEq, Eq)]
pub enum Turn {
    /// This task was polled, and its work was ready or not.
    Polled(TaskId, bool),
    /// No task was scheduled.
    Idle,
}

/// Works that are polled in turn, each one where its task is scheduled.
///
/// The tasks are kept in a slab, whose keys `order` has under the tasks' ids, in order of spawn. A task is found by its id
/// without a look at the others, and those that are not finished are counted as they come and go.
///
/// What drops an executor is handed no runtime, so its tasks make no entry then and those that are not finished count as
/// open for good: [`Executor::close_all`] closes them.
#[derive(Drop)]
pub struct Executor<W: Work> {
    tasks: Slab<Slot<W>>,
    order: IndexMap<u64, usize>,
    // The place that the next turn begins at: after the task that was polled last.
    next: usize,
    unfinished: usize,
}

impl<W: Work> Model for Executor<W> {
    ghost use Rattle.std.specs.Map.{values_of};
    ghost use Rattle.tk_exec.specs.Places.{values_at, AreOrdered};
    ghost use Rattle.tk_exec.specs.Seats.{Tasks};

    ghost Value = { Tasks W W.Out };

    ghost view = { λ e. record { seats = values_at e.tasks.slots (values_of e.order.entries); next = e.next } };

    ghost invariant = { λ e. AreOrdered e.tasks.slots e.order.entries e.next e.unfinished };
}

// The place that the next turn begins at, once another place is gone: that of the same task as before.
fn next_without(next: usize, place: usize) -> usize
    ensures { ((place < next) × (result + 1 ≡ next)) ⊎ ((next ≤ place) × (result ≡ next)) }
{
    if place < next { next - 1 } else { next }
}

// How many tasks are not finished, once one of them was polled.
fn unfinished_after(unfinished: usize, ready: bool) -> usize
    requires { 1 ≤ unfinished }
    ensures { result + cond ready 1 0 ≡ unfinished }
{
    if ready { unfinished - 1 } else { unfinished }
}

impl<W: Work> Executor<W> {
    /// An executor without tasks, with room for 16. Refused with `Memory`.
    pub fn new(alloc: Global) -> Result<Executor<W>, ExecError>
        ensures ok { IfOk result (λ made. (made.seats ≡ []) × (made.next ≡ 0)) }
        ensures memory { IfErr result (λ error. error ≡ Memory) }
    {
        Ok(Executor {
            tasks: Slab::with_capacity(alloc, 16)?,
            order: IndexMap::with_capacity(alloc, 16)?,
            next: 0,
            unfinished: 0,
        })
    }

    // The place of the task of this id.
    fn place_of(&self, id: TaskId) -> Option<usize>
        ensures found { IfSome result (λ place. IsOnlyAt self.now.seats id place) }
        ensures absent { IfNone result (HoldsId self.now.seats id → ⊥) }
    {
        self.order.get_index_of(&id.value())
    }

    /// Takes in a task, which stands last in the order of spawn. Refused with `Repeated` where a task of its id is held,
    /// or else `Memory`: the task is then handed back.
    pub fn spawn(&mut self, task: Instrumented<W>) -> Result<(), (ExecError, Instrumented<W>)>
        requires { is_some task.receipt ≡ false }
        ensures ok { OnOk result (self.new ≡ record self.old { seats = self.old.seats ++ record { task = task; out = None } ∷ [] }) }
        ensures fresh { OnOk result (HoldsId self.old.seats task.id → ⊥) }
        ensures refused { IfErr result (λ back. RefusedFor back.0 self.old.seats task.id) }
        ensures back { IfErr result (λ back. (back.1 ≡ task) × (self.new ≡ self.old)) }
    {
        let id = task.id();
        if self.place_of(id).is_some() {
            return Err((ExecError::Repeated, task));
        }
        if self.order.reserve(1).is_err() {
            return Err((ExecError::Memory, task));
        }
        // The length says that one more can be counted.
        let _held = self.order.len();
        match self.tasks.insert(Slot::new(task)) {
            Ok(key) => {
                let Ok(_) = self.order.insert(id.value(), key) else {
                    unreachable!()
                };
                self.unfinished += 1;
                Ok(())
            }
            Err(refused) => Err((ExecError::Memory, refused.value.into_task())),
        }
    }

    /// The output and the receipt of the task of this id, which leaves the executor, if it is finished. No other task is
    /// looked at; those after it move up by one place.
    pub fn take(&mut self, id: TaskId) -> Option<(W::Out, TaskReceipt)>
        ensures some { IfSome result (λ answer. Takes self.old self.new id answer.0 answer.1) }
        ensures none { IfNone result (NoneFinished self.old.seats id × (self.new ≡ self.old)) }
    {
        let place = self.place_of(id)?;
        let key = self.order[place];
        if !self.tasks[key].is_finished() {
            return None;
        }
        self.order.shift_remove_index(place);
        self.next = next_without(self.next, place);
        self.tasks.remove(key).into_answer()
    }

    // Looks at one place: its owner reads.
    fn look_at<R: Wait>(&mut self, rt: &R, place: usize) -> bool
        requires { place < length self.old.seats }
        ensures next { self.new.next ≡ self.old.next }
        ensures looked { (change : ChangesAt place self.old.seats self.new.seats) × LookedAt change.before result change.after }
    {
        let key = self.order[place];
        self.tasks[key].look(rt)
    }

    // Polls the task at one place, after which the next turn begins.
    fn poll_at<R: Wait, C: Clock>(&mut self, rt: &R, clock: &mut C, place: usize) -> Turn
        requires within { place < length self.old.seats }
        requires going { IfSome (slice_get self.old.seats place) (λ seat. is_some seat.task.owner ≡ true) }
        ensures next { self.new.next ≡ place + 1 }
        ensures polled { PollsAt C.reads W.polls W.gives place self.old.seats result self.new.seats clock.old clock.new }
    {
        let key = self.order[place];
        let id = self.tasks[key].id();
        let ready = self.tasks[key].poll(rt, clock);
        self.unfinished = unfinished_after(self.unfinished, ready);
        // The length says that the place after this one is a number.
        let _held = self.order.len();
        self.next = place + 1;
        Turn::Polled(id, ready)
    }

    // The first place of these that shows scheduled. Those before it are looked at, and none after it.
    fn scheduled_between<R: Wait>(&mut self, rt: &R, first: usize, last: usize) -> Option<usize>
        requires order { first ≤ last }
        requires within { last ≤ length self.old.seats }
        ensures next { self.new.next ≡ self.old.next }
        ensures none { IfNone result (Passed first last self.old.seats self.new.seats) }
        ensures some { IfSome result (λ place. Found first last place self.old.seats self.new.seats) }
    {
        for place in first..last {
            if self.look_at(rt, place) {
                return Some(place);
            }
        }
        None
    }

    /// Goes through the unfinished tasks in order of spawn, beginning after the task that was polled last and ending
    /// with it. Each owner reads once, until one shows scheduled; that task alone is polled.
    pub fn turn<R: Wait, C: Clock>(&mut self, rt: &R, clock: &mut C) -> Turn
        ensures { TurnDoes C.reads W.polls W.gives self.old result self.new clock.old clock.new }
    {
        let next = self.next;
        let last = self.order.len();
        if let Some(place) = self.scheduled_between(rt, next, last) {
            return self.poll_at(rt, clock, place);
        }
        if let Some(place) = self.scheduled_between(rt, 0, next) {
            return self.poll_at(rt, clock, place);
        }
        Turn::Idle
    }

    /// How many tasks are held.
    pub fn len(&self) -> usize
        ensures { result ≡ length self.now.seats }
    {
        self.order.len()
    }

    /// How many of the tasks that are held are not finished.
    pub fn unfinished(&self) -> usize
        ensures { result ≡ unfinished self.now.seats }
    {
        self.unfinished
    }

    /// Closes each task that is not finished, at this moment, and answers a receipt of each task, in order of spawn. Works
    /// and outputs are dropped. Refused with `Memory`: nothing is closed then, and the executor is handed back.
    pub fn close_all<R: Wait>(
        self,
        rt: &R,
        alloc: Global,
        moment: u64,
    ) -> Result<Vec<TaskReceipt>, (ExecError, Executor<W>)>
        ensures ok { IfOk result (λ receipts. AreClosedAt moment self.seats receipts.items) }
        ensures memory { IfErr result (λ back. (back.0 ≡ Memory) × (back.1 ≡ self)) }
    {
        match Vec::with_capacity(alloc, self.len()) {
            Ok(receipts) => Ok(self.close_into(rt, moment, receipts)),
            Err(_) => Err((ExecError::Memory, self)),
        }
    }

    // Closes all tasks, and puts their receipts into a list with room for them.
    fn close_into<R: Wait>(
        self,
        rt: &R,
        moment: u64,
        receipts: Vec<TaskReceipt>,
    ) -> Vec<TaskReceipt>
        requires empty { receipts.items ≡ [] }
        requires room { vec_len receipts + length self.seats ≤ vec_capacity receipts }
        ensures { AreClosedAt moment self.seats result.items }
    {
        let mut tasks = self.tasks;
        let mut receipts = receipts;
        for key in self.order.into_values() {
            receipts.push_reserved(tasks.remove(key).close(rt, moment));
        }
        receipts
    }

    /// Puts the outputs of the finished tasks after others, in order of spawn.
    pub(crate) fn into_outputs(self, outputs: Vec<W::Out>) -> Vec<W::Out>
        requires { vec_len outputs + length self.seats ≤ vec_capacity outputs }
        ensures { result.items ≡ outputs.items ++ outputs_of self.seats }
    {
        let mut tasks = self.tasks;
        let mut outputs = outputs;
        for key in self.order.into_values() {
            if let Some(output) = tasks.remove(key).into_output() {
                outputs.push_reserved(output);
            }
        }
        outputs
    }
}

impl<F: Pollable> Executor<FutureWork<F>>
where
    F::Output: Drop,
{
    // Lets the future of the task at one place hear.
    fn hear_at<R: Wait>(&mut self, rt: &R, moment: u64, place: usize) -> bool
        requires { place < length self.old.seats }
        ensures next { self.new.next ≡ self.old.next }
        ensures heard { (change : ChangesAt place self.old.seats self.new.seats) × SeatHears change.before moment result change.after }
    {
        let key = self.order[place];
        self.tasks[key].hear(rt, moment)
    }

    /// Lets each task's future hear, in order of spawn: a wake that came since its last poll is recorded at this moment, as
    /// [`FutureWork::hear`] says. Called before a turn, so that the turn finds the task scheduled.
    pub fn hear<R: Wait>(&mut self, rt: &R, moment: u64)
        ensures { AllHear self.old moment self.new }
    {
        for place in 0..self.order.len() {
            self.hear_at(rt, moment, place);
        }
    }
}
