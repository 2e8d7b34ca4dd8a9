//! Those who read a histogram of times.
ghost use Rattle.std.specs.Prelude.{◌≡◌};
ghost use Rattle.tk_core.specs.declared.times.call.TimesCall.TheVariants.{Read};
ghost use Rattle.tk_core.specs.declared.reply.Reply.TheVariants.{Shown};
ghost use Rattle.tk_core.specs.TimesMeaning.{times_meaning};
ghost use Rattle.tk_cell.specs.Calls.{Calls, Joins};
ghost use Rattle.tk_cell.specs.Ours.{CallsBeside};
ghost use Rattle.tk_ledgers.specs.Handles.{sight};

use crate::handle::Handle;
use crate::role::{Enlisted, Owning};
use crate::times::TimesReceipt;
use std::marker::Model;
use std::sync::Wait;
use tk_core::{TimesCall, TimesRow};
use tk_ids::TaskId;

/// Who reads a histogram of times.
#[derive(Drop)]
pub struct TimesInspector {
    id: TaskId,
    handle: Handle<TimesRow, Enlisted>,
}

impl Model for TimesInspector {
    ghost use Rattle.tk_ledgers.specs.Handles.{sight};
    ghost use Rattle.tk_ledgers.specs.Times.{TimesSight};

    ghost Value = { TimesSight };

    ghost view = { λ h. sight h.id h.handle };
}

impl TimesInspector {
    pub(crate) fn new(id: TaskId, handle: Handle<TimesRow, Enlisted>) -> TimesInspector
        ensures { result ≡ sight id handle }
    {
        TimesInspector { id, handle }
    }

    /// The task whose times it reads.
    pub fn task(&self) -> TaskId
        ensures { result ≡ self.now.id }
    {
        self.id
    }

    /// Reads the row.
    #[tactic(auto, using(crate::proofs::TimesLemmas::read_reads))]
    pub fn read<R: Wait>(&mut self, rt: &R) -> TimesRow
        ensures id { self.new.id ≡ self.old.id }
        ensures ledger { self.new.token.ledger ≡ self.old.token.ledger }
        ensures entry { Calls times_meaning self.old.token.view Read (Shown result) self.new.token.view }
    {
        self.handle.read(rt, TimesCall::Read)
    }

    // Reads the row beside the owner.
    #[tactic(auto, using(crate::proofs::TimesLemmas::read_reads))]
    pub(crate) fn read_beside<R: Wait>(
        &mut self,
        rt: &R,
        owner: &mut Handle<TimesRow, Owning>,
    ) -> TimesRow
        requires { owner.old.ledger ≡ self.old.token.ledger }
        ensures id { self.new.id ≡ self.old.id }
        ensures ledger { self.new.token.ledger ≡ self.old.token.ledger }
        ensures own { owner.new.ledger ≡ owner.old.ledger }
        ensures beside { CallsBeside times_meaning owner.old.view self.old.token.view Read (Shown result) owner.new.view self.new.token.view }
        ensures caller { owner.old.view.caller ≡ 0 }
    {
        owner.read_by(rt, &mut self.handle, TimesCall::Read)
    }

    /// Takes in what another handle of the ledger has seen, and its numbers. No entry is made.
    pub fn learn<R: Wait>(&mut self, rt: &R, receipt: TimesReceipt)
        requires { receipt.token.ledger ≡ self.old.token.ledger }
        ensures id { self.new.id ≡ self.old.id }
        ensures ledger { self.new.token.ledger ≡ self.old.token.ledger }
        ensures joined { Joins times_meaning self.old.token.view receipt.token.view self.new.token.view }
    {
        self.handle.learn(rt, receipt.into_token())
    }

    /// Makes no more calls. No entry is made.
    pub fn retire(self) -> TimesReceipt
        ensures { result ≡ self }
    {
        TimesReceipt::new(self.id, self.handle.retire())
    }
}
