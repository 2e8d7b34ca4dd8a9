//! The owner of a histogram of times.
ghost use Rattle.std.specs.Prelude.{◌≡◌, ◌++◌, ◌∷◌, [], IfOk, IfErr};
ghost use Rattle.tk_core.specs.declared.times.call.TimesCall.TheVariants.{Add, Enlist, Read};
ghost use Rattle.tk_core.specs.declared.reply.Reply.TheVariants.{Done, Shown};
ghost use Rattle.tk_core.specs.Times.{opening_row};
ghost use Rattle.tk_core.specs.TimesMeaning.{times_meaning};
ghost use Rattle.tk_cell.specs.Views.{opened};
ghost use Rattle.tk_cell.specs.Calls.{Calls};
ghost use Rattle.tk_ledgers.specs.Handles.{Drew, NotDrawn};
ghost use Rattle.tk_ledgers.specs.Times.{added_times, ShowsTimes};

use crate::handle::Handle;
use crate::role::{Enlisted, Owning};
use crate::times::{TimesInspector, TimesReceipt};
use std::alloc::{AllocError, Global};
use std::marker::Model;
use std::sync::Wait;
use tk_cell::Shared;
use tk_core::{Refusal, TimesCall, TimesRow};
use tk_ids::TaskId;

/// The owner of a histogram of times: who adds them. Its caller is number 0 of the ledger.
#[derive(Drop)]
pub struct TimesOwner {
    id: TaskId,
    handle: Handle<TimesRow, Owning>,
}

impl Model for TimesOwner {
    ghost use Rattle.tk_ledgers.specs.Handles.{sight};
    ghost use Rattle.tk_ledgers.specs.Times.{TimesSight};

    ghost Value = { TimesSight };

    ghost view = { λ h. sight h.id h.handle };
}

impl TimesOwner {
    /// A histogram's ledger, without times.
    pub fn new<R: Wait>(rt: &R, alloc: Global, id: TaskId) -> Result<TimesOwner, AllocError>
        ensures id { IfOk result (λ owner. owner.id ≡ id) }
        ensures opened { IfOk result (λ owner. owner.token.view ≡ opened opening_row) }
    {
        let (ledger, token) = Shared::new(rt, alloc, TimesRow::opening())?;
        Ok(TimesOwner {
            id,
            handle: Handle::new(ledger, token),
        })
    }

    /// The task whose times it adds.
    pub fn task(&self) -> TaskId
        ensures { result ≡ self.now.id }
    {
        self.id
    }

    /// Adds a time.
    #[tactic(auto, using(crate::proofs::TimesLemmas::add_done))]
    #[inline(always)]
    pub fn add<R: Wait>(&mut self, rt: &R, time: u64)
        ensures id { self.new.id ≡ self.old.id }
        ensures ledger { self.new.token.ledger ≡ self.old.token.ledger }
        ensures caller { self.old.token.view.caller ≡ 0 }
        ensures entry { Calls times_meaning self.old.token.view (Add time) Done self.new.token.view }
        ensures added { added_times self.new.token ≡ added_times self.old.token ++ time ∷ [] }
    {
        self.handle.done(rt, TimesCall::Add(time))
    }

    /// An inspector of the histogram reads the row, beside its owner. It shows the times that the owner has added, and no others, whatever
    /// other handles there are.
    pub fn read_beside<R: Wait>(&mut self, rt: &R, inspector: &mut TimesInspector) -> TimesRow
        requires { inspector.old.token.ledger ≡ self.old.token.ledger }
        ensures id { self.new.id ≡ self.old.id }
        ensures ledger { self.new.token.ledger ≡ self.old.token.ledger }
        ensures added { added_times self.new.token ≡ added_times self.old.token }
        ensures inspector { (inspector.new.id ≡ inspector.old.id) × (inspector.new.token.ledger ≡ inspector.old.token.ledger) }
        ensures read { Calls times_meaning inspector.old.token.view Read (Shown result) inspector.new.token.view }
        ensures shows { ShowsTimes result (added_times self.old.token) }
    {
        inspector.read_beside(rt, &mut self.handle)
    }

    /// Makes an inspector. Refused with `Memory`, `HandlesSpent`.
    #[tactic(auto, using(crate::proofs::TimesLemmas::enlist_draws))]
    pub fn inspect<R: Wait>(&mut self, rt: &R) -> Result<TimesInspector, Refusal>
        ensures id { self.new.id ≡ self.old.id }
        ensures ledger { self.new.token.ledger ≡ self.old.token.ledger }
        ensures caller { self.old.token.view.caller ≡ 0 }
        ensures made_id { IfOk result (λ made. made.id ≡ self.old.id) }
        ensures made_ledger { IfOk result (λ made. made.token.ledger ≡ self.old.token.ledger) }
        ensures ok { IfOk result (λ made. Drew times_meaning self.old.token Enlist self.new.token made.token) }
        ensures err { IfErr result (λ refusal. NotDrawn times_meaning self.old.token Enlist refusal self.new.token) }
    {
        let handle = self.handle.draw::<Enlisted, R>(rt, TimesCall::Enlist)?;
        Ok(TimesInspector::new(self.id, handle))
    }

    /// Makes no more calls. No entry is made.
    pub fn retire(self) -> TimesReceipt
        ensures { result ≡ self }
    {
        TimesReceipt::new(self.id, self.handle.retire())
    }
}
