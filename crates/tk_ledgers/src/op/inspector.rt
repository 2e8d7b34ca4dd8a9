//! Those who read an operation.
ghost use Rattle.std.specs.Prelude.{◌≡◌, IfOk, IfErr};
ghost use Rattle.tk_core.specs.declared.op.call.OpCall.TheVariants.{Enlist, Read};
ghost use Rattle.tk_core.specs.declared.reply.Reply.TheVariants.{Shown};
ghost use Rattle.tk_core.specs.OpMeaning.{op_meaning};
ghost use Rattle.tk_cell.specs.Calls.{Calls, Joins};
ghost use Rattle.tk_cell.specs.Ours.{CallsBeside};
ghost use Rattle.tk_ledgers.specs.Callers.{live};
ghost use Rattle.tk_ledgers.specs.Handles.{made_by, sight, Drew, NotDrawn};
ghost use Rattle.tk_ledgers.specs.Hands.{IsHand};
ghost use Rattle.tk_ledgers.specs.Sums.{HoldsAll};
ghost use Rattle.tk_ledgers.specs.Ops.{CountsAre, CountsReach};

use crate::callers::Callers;
use crate::handle::Handle;
use crate::op::OpReceipt;
use crate::role::Enlisted;
use std::marker::Model;
use std::sync::Wait;
use tk_core::{OpCall, OpRow, Refusal};
use tk_ids::AsyncOpId;

/// Who reads an operation.
#[derive(Drop)]
pub struct OpInspector {
    id: AsyncOpId,
    handle: Handle<OpRow, Enlisted>,
}

impl Model for OpInspector {
    ghost use Rattle.tk_ledgers.specs.Handles.{sight};
    ghost use Rattle.tk_ledgers.specs.Ops.{OpSight};

    ghost Value = { OpSight };

    ghost view = { λ h. sight h.id h.handle };
}

impl OpInspector {
    pub(crate) fn new(id: AsyncOpId, handle: Handle<OpRow, Enlisted>) -> OpInspector
        ensures { result ≡ sight id handle }
    {
        OpInspector { id, handle }
    }

    /// The operation that it reads.
    pub fn op(&self) -> AsyncOpId
        ensures { result ≡ self.now.id }
    {
        self.id
    }

    /// Its number among the handles of the operation.
    pub fn number(&self) -> u64
        ensures { result ≡ self.now.token.view.caller }
    {
        self.handle.number()
    }

    /// Reads the row.
    #[tactic(auto, using(crate::proofs::OpLemmas::read_reads))]
    pub fn read<R: Wait>(&mut self, rt: &R) -> OpRow
        ensures id { self.new.id ≡ self.old.id }
        ensures ledger { self.new.token.ledger ≡ self.old.token.ledger }
        ensures entry { Calls op_meaning self.old.token.view Read (Shown result) self.new.token.view }

        // A count is the sum over the lists of its callers, where it has learnt the owner and every caller made in
        // what it has seen; it is never less.
        ensures least { CountsReach self.old.token.view result }
        ensures exact { HoldsAll op_meaning self.old.token.view → CountsAre self.old.token.view result }
    {
        self.handle.read(rt, OpCall::Read)
    }

    // Reads the row beside the callers of its item.
    #[tactic(auto, using(crate::proofs::OpLemmas::read_reads))]
    pub(crate) fn read_beside<R: Wait>(
        &mut self,
        rt: &R,
        callers: &mut Callers<OpRow, Enlisted>,
    ) -> OpRow
        requires { callers.old.ledger ≡ self.old.token.ledger }
        ensures id { self.new.id ≡ self.old.id }
        ensures ledger { self.new.token.ledger ≡ self.old.token.ledger }
        ensures own { callers.new.ledger ≡ callers.old.ledger }
        ensures beside { CallsBeside op_meaning callers.old.view self.old.token.view Read (Shown result) callers.new.view self.new.token.view }
        ensures live { live op_meaning callers.new.view ≡ live op_meaning callers.old.view }
        ensures hand { IsHand op_meaning (made_by Enlist) callers.old.view }
    {
        callers.read_beside(rt, &mut self.handle, OpCall::Read)
    }

    /// Makes a further inspector. Refused with `Memory`, `HandlesSpent`.
    #[tactic(auto, using(crate::proofs::OpLemmas::enlist_draws))]
    pub fn inspect<R: Wait>(&mut self, rt: &R) -> Result<OpInspector, Refusal>
        ensures id { self.new.id ≡ self.old.id }
        ensures ledger { self.new.token.ledger ≡ self.old.token.ledger }
        ensures made_id { IfOk result (λ made. made.id ≡ self.old.id) }
        ensures made_ledger { IfOk result (λ made. made.token.ledger ≡ self.old.token.ledger) }
        ensures ok { IfOk result (λ made. Drew op_meaning self.old.token Enlist self.new.token made.token) }
        ensures err { IfErr result (λ refusal. NotDrawn op_meaning self.old.token Enlist refusal self.new.token) }
    {
        let handle = self.handle.draw::<Enlisted, R>(rt, OpCall::Enlist)?;
        Ok(OpInspector::new(self.id, handle))
    }

    /// Takes in what another handle of the ledger has seen, and its numbers. No entry is made.
    pub fn learn<R: Wait>(&mut self, rt: &R, receipt: OpReceipt)
        requires { receipt.token.ledger ≡ self.old.token.ledger }
        ensures id { self.new.id ≡ self.old.id }
        ensures ledger { self.new.token.ledger ≡ self.old.token.ledger }
        ensures joined { Joins op_meaning self.old.token.view receipt.token.view self.new.token.view }
    {
        self.handle.learn(rt, receipt.into_token())
    }

    /// Makes no more calls. No entry is made.
    pub fn retire(self) -> OpReceipt
        ensures { result ≡ self }
    {
        OpReceipt::new(self.id, self.handle.retire())
    }
}
