//! The callers of an async operation, in one hand: its owner.
ghost use Rattle.std.specs.Prelude.{◌≡◌, true, false, None, Some, IfErr, OnOk};
ghost use Rattle.tk_core.specs.declared.op.call.OpCall.TheVariants.{PollStart, PollEnd, Close, SetTask, Attr, Read};
ghost use Rattle.tk_core.specs.declared.reply.Reply.TheVariants.{Done, Shown};
ghost use Rattle.tk_core.specs.declared.reply.Reply.TheVariants.{Refused as NotDone};
ghost use Rattle.tk_core.specs.OpMeaning.{op_meaning};
ghost use Rattle.tk_cell.specs.Ours.{ours, CallsBeside};
ghost use Rattle.tk_ledgers.specs.Beside.{AllRead, ShowsCallsOf};
ghost use Rattle.tk_ledgers.specs.Callers.{CallsAs, HoldsAllBut};
ghost use Rattle.tk_ledgers.specs.Handles.{sight};
ghost use Rattle.tk_ledgers.specs.Ops.{is_polling, owner_refusal};

use crate::callers::Callers;
use crate::op::OpInspector;
use crate::role::Enlisted;
use std::marker::Model;
use std::sync::Wait;
use tk_core::{AttrOp, OpCall, OpRow, Refusal};
use tk_ids::{AsyncOpId, TaskId};

/// The callers of an async operation, in one hand: its owner, who is caller 0 and makes all calls but those of inspectors. The hand shows
/// each of its calls, in the order in which they were made.
///
/// Who makes all calls of an operation by one hand knows what an inspector reads beside it ([`OpCallers::read_beside`]): the row after
/// just these calls.
///
/// It keeps whether a poll is open, so that [`OpCallers::is_polling`] makes no call. One that is dropped makes no entry.
#[derive(Drop)]
pub struct OpCallers {
    id: AsyncOpId,
    polling: bool,
    callers: Callers<OpRow, Enlisted>,
}

impl Model for OpCallers {
    ghost use Rattle.std.specs.Prelude.{◌≡◌};
    ghost use Rattle.tk_ledgers.specs.Handles.{sight};
    ghost use Rattle.tk_ledgers.specs.Ops.{OpSight, is_polling};

    ghost Value = { OpSight };

    ghost view = { λ h. sight h.id h.callers };

    ghost invariant = { λ h. is_polling (sight h.id h.callers) ≡ h.polling };
}

impl OpCallers {
    pub(crate) fn new(id: AsyncOpId, polling: bool, callers: Callers<OpRow, Enlisted>) -> OpCallers
        requires { is_polling (sight id callers) ≡ polling }
        ensures { result ≡ sight id callers }
    {
        OpCallers {
            id,
            polling,
            callers,
        }
    }

    /// The operation.
    pub fn id(&self) -> AsyncOpId
        ensures { result ≡ self.now.id }
    {
        self.id
    }

    /// Whether a poll is open. No entry is made.
    pub fn is_polling(&self) -> bool
        ensures { result ≡ is_polling self.now }
    {
        self.polling
    }

    /// The owner starts a poll. Refused with `Closed`, `AlreadyPolling`.
    #[tactic(auto, using(crate::proofs::OpLemmas::start_attempts))]
    pub fn start_poll<R: Wait>(&mut self, rt: &R, moment: u64) -> Result<(), Refusal>
        ensures id { self.new.id ≡ self.old.id }
        ensures ledger { self.new.token.ledger ≡ self.old.token.ledger }
        ensures ok { OnOk result ((owner_refusal self.old (PollStart moment) ≡ None) × CallsAs op_meaning self.old.token 0 (PollStart moment) Done self.new.token) }
        ensures err { IfErr result (λ refusal. (owner_refusal self.old (PollStart moment) ≡ Some refusal) × CallsAs op_meaning self.old.token 0 (PollStart moment) (NotDone refusal) self.new.token) }
    {
        match self.callers.attempt_as(rt, 0, OpCall::PollStart(moment)) {
            Ok(()) => {
                self.polling = true;
                Ok(())
            }
            Err(refusal) => Err(refusal),
        }
    }

    /// The owner ends the open poll. Refused with `Closed`, `NotPolling`.
    #[tactic(auto, using(crate::proofs::OpLemmas::end_attempts))]
    pub fn end_poll<R: Wait>(&mut self, rt: &R, moment: u64) -> Result<(), Refusal>
        ensures id { self.new.id ≡ self.old.id }
        ensures ledger { self.new.token.ledger ≡ self.old.token.ledger }
        ensures ok { OnOk result ((owner_refusal self.old (PollEnd moment) ≡ None) × CallsAs op_meaning self.old.token 0 (PollEnd moment) Done self.new.token) }
        ensures err { IfErr result (λ refusal. (owner_refusal self.old (PollEnd moment) ≡ Some refusal) × CallsAs op_meaning self.old.token 0 (PollEnd moment) (NotDone refusal) self.new.token) }
    {
        match self.callers.attempt_as(rt, 0, OpCall::PollEnd(moment)) {
            Ok(()) => {
                self.polling = false;
                Ok(())
            }
            Err(refusal) => Err(refusal),
        }
    }

    /// The owner closes the operation. Refused with `Closed`, `AlreadyPolling`.
    #[tactic(auto, using(crate::proofs::OpLemmas::close_attempts))]
    pub fn close<R: Wait>(&mut self, rt: &R, moment: u64) -> Result<(), Refusal>
        ensures id { self.new.id ≡ self.old.id }
        ensures ledger { self.new.token.ledger ≡ self.old.token.ledger }
        ensures ok { OnOk result ((owner_refusal self.old (Close moment) ≡ None) × CallsAs op_meaning self.old.token 0 (Close moment) Done self.new.token) }
        ensures err { IfErr result (λ refusal. (owner_refusal self.old (Close moment) ≡ Some refusal) × CallsAs op_meaning self.old.token 0 (Close moment) (NotDone refusal) self.new.token) }
    {
        self.callers.attempt_as(rt, 0, OpCall::Close(moment))
    }

    /// The owner says which task polls the operation from now on. Refused with `Closed`.
    #[tactic(auto, using(crate::proofs::OpLemmas::set_attempts))]
    pub fn set_task<R: Wait>(&mut self, rt: &R, task: TaskId) -> Result<(), Refusal>
        ensures id { self.new.id ≡ self.old.id }
        ensures ledger { self.new.token.ledger ≡ self.old.token.ledger }
        ensures ok { OnOk result ((owner_refusal self.old (SetTask task) ≡ None) × CallsAs op_meaning self.old.token 0 (SetTask task) Done self.new.token) }
        ensures err { IfErr result (λ refusal. (owner_refusal self.old (SetTask task) ≡ Some refusal) × CallsAs op_meaning self.old.token 0 (SetTask task) (NotDone refusal) self.new.token) }
    {
        self.callers.attempt_as(rt, 0, OpCall::SetTask(task))
    }

    /// The owner changes the attribute of an index, counted from 0. Refused with `Closed`, `NoAttribute`, `WrongKind`, `OutOfRange`.
    #[tactic(auto, using(crate::proofs::OpLemmas::change_attempts))]
    pub fn change<R: Wait>(&mut self, rt: &R, index: u64, op: AttrOp) -> Result<(), Refusal>
        ensures id { self.new.id ≡ self.old.id }
        ensures ledger { self.new.token.ledger ≡ self.old.token.ledger }
        ensures ok { OnOk result (CallsAs op_meaning self.old.token 0 (Attr index op) Done self.new.token) }
        ensures err { IfErr result (λ refusal. CallsAs op_meaning self.old.token 0 (Attr index op) (NotDone refusal) self.new.token) }
    {
        self.callers.attempt_as(rt, 0, OpCall::Attr(index, op))
    }

    /// An inspector of the operation reads the row, beside this hand.
    ///
    /// The row is that after the calls of this hand, in their order, and after no others, where the inspector has only read, and holds
    /// each number that was answered to a call of this hand. It stays so ([`crate::laws::a_hand_holds_whom_it_made`]).
    pub fn read_beside<R: Wait>(&mut self, rt: &R, inspector: &mut OpInspector) -> OpRow
        requires { inspector.old.token.ledger ≡ self.old.token.ledger }
        ensures id { self.new.id ≡ self.old.id }
        ensures ledger { self.new.token.ledger ≡ self.old.token.ledger }
        ensures inspector { (inspector.new.id ≡ inspector.old.id) × (inspector.new.token.ledger ≡ inspector.old.token.ledger) }
        ensures held { (self.new.token.view.held ≡ self.old.token.view.held) × (inspector.new.token.view.held ≡ inspector.old.token.view.held) }
        ensures beside { CallsBeside op_meaning self.old.token.view inspector.old.token.view Read (Shown result) self.new.token.view inspector.new.token.view }
        ensures row { HoldsAllBut op_meaning inspector.old.token.view.held self.old.token.view → AllRead op_meaning Read (ours inspector.old.token.view)
            → ShowsCallsOf op_meaning Read self.old.token.view self.new.token.view inspector.new.token.view result }
    {
        inspector.read_beside(rt, &mut self.callers)
    }
}
