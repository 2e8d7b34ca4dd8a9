//! The owner of an operation.
ghost use Rattle.std.specs.Prelude.{◌≡◌, ◌≢◌, ◌≤◌, true, false, not, is_ok, length, IfOk, IfErr, OnOk, [], ◌∷◌};
ghost use Rattle.tk_core.specs.declared.op.call.OpCall.TheVariants.{PollStart, PollEnd, Close, SetTask, Attr, Enlist, Read};
ghost use Rattle.tk_core.specs.declared.reply.Reply.TheVariants.{Done, Shown};
ghost use Rattle.tk_core.specs.declared.reply.Reply.TheVariants.{Refused as NotDone};
ghost use Rattle.tk_core.specs.Op.{opening_row};
ghost use Rattle.tk_core.specs.OpMeaning.{op_meaning};
ghost use Rattle.tk_cell.specs.Views.{opened};
ghost use Rattle.tk_cell.specs.Calls.{Calls};
ghost use Rattle.tk_ledgers.specs.Handles.{Drew, NotDrawn};
ghost use Rattle.tk_ledgers.specs.Ops.{is_polling};
ghost use Rattle.tk_core.specs.declared.attrs.AttrOp.TheVariants.{Add, Sub, Override};
ghost use Rattle.tk_core.specs.declared.reply.Refusal.TheVariants.{AlreadyPolling, NotPolling, Closed};

use crate::handle::Handle;
use crate::op::{OpCallers, OpInspector, OpReceipt};
use crate::role::{Enlisted, Owning};
use std::alloc::{AllocError, Global};
use std::marker::Model;
use std::sync::Wait;
use tk_cell::Shared;
use tk_core::{AttrOp, OpCall, OpRow, Refusal};
use tk_ids::{AsyncOpId, AttrValue, TaskId};

/// The owner of an operation: who polls it and closes it. Its caller is number 0 of the ledger.
///
/// It keeps whether a poll is open, so that [`OpOwner::is_polling`] makes no call.
///
/// One that is dropped makes no entry: its operation stays live for good, and in the poll that is open, if one is. Its last
/// call is [`OpOwner::close`], after the end of the poll.
#[derive(Drop)]
pub struct OpOwner {
    id: AsyncOpId,
    polling: bool,
    handle: Handle<OpRow, Owning>,
}

impl Model for OpOwner {
    ghost use Rattle.tk_ledgers.specs.Handles.{sight};
    ghost use Rattle.tk_ledgers.specs.Ops.{OpSight, Owns};

    ghost Value = { OpSight };

    ghost view = { λ h. sight h.id h.handle };

    ghost invariant = { λ h. Owns (sight h.id h.handle) h.polling };
}

impl OpOwner {
    /// An operation's ledger, with the first values of its attributes, at most 6. There is no call yet.
    pub fn new<R: Wait>(
        rt: &R,
        alloc: Global,
        id: AsyncOpId,
        created: u64,
        values: &[AttrValue],
    ) -> Result<OpOwner, AllocError>
        requires { length values.now ≤ 6 }
        ensures id { IfOk result (λ owner. owner.id ≡ id) }
        ensures opened { IfOk result (λ owner. owner.token.view ≡ opened (opening_row created values.now)) }
    {
        let (ledger, token) = Shared::new(rt, alloc, OpRow::opening(created, values))?;
        Ok(OpOwner {
            id,
            polling: false,
            handle: Handle::new(ledger, token),
        })
    }

    /// The owner in one hand ([`OpCallers`]): for who makes all calls of the operation. No entry is made. It is for an owner that has learnt
    /// no other's numbers.
    pub fn into_callers(self) -> OpCallers
        requires alone { self.token.view.held ≡ 0 ∷ [] }
        ensures { result ≡ self }
    {
        OpCallers::new(self.id, self.polling, self.handle.into_callers())
    }

    /// The operation.
    pub fn id(&self) -> AsyncOpId
        ensures { result ≡ self.now.id }
    {
        self.id
    }

    /// Whether a poll is open. No entry is made.
    pub fn is_polling(&self) -> bool
        ensures polling { result ≡ is_polling self.now }
    {
        self.polling
    }

    #[tactic(auto, using(crate::proofs::OpLemmas::start_attempts))]
    /// Starts a poll. Refused with `AlreadyPolling`.
    pub fn start_poll<R: Wait>(&mut self, rt: &R, moment: u64) -> Result<(), Refusal>
        ensures id { self.new.id ≡ self.old.id }
        ensures ledger { self.new.token.ledger ≡ self.old.token.ledger }
        ensures caller { self.old.token.view.caller ≡ 0 }
        ensures exact { is_ok result ≡ not (is_polling self.old) }
        ensures ok { OnOk result (Calls op_meaning self.old.token.view (PollStart moment) Done self.new.token.view) }
        ensures already_polling { IfErr result (λ refusal. (refusal ≡ AlreadyPolling) × Calls op_meaning self.old.token.view (PollStart moment) (NotDone AlreadyPolling) self.new.token.view) }
    {
        match self.handle.attempt(rt, OpCall::PollStart(moment)) {
            Ok(()) => {
                self.polling = true;
                Ok(())
            }
            Err(refusal) => Err(refusal),
        }
    }

    #[tactic(auto, using(crate::proofs::OpLemmas::end_attempts))]
    /// Ends the open poll. Refused with `NotPolling`.
    pub fn end_poll<R: Wait>(&mut self, rt: &R, moment: u64) -> Result<(), Refusal>
        ensures id { self.new.id ≡ self.old.id }
        ensures ledger { self.new.token.ledger ≡ self.old.token.ledger }
        ensures caller { self.old.token.view.caller ≡ 0 }
        ensures exact { is_ok result ≡ is_polling self.old }
        ensures ok { OnOk result (Calls op_meaning self.old.token.view (PollEnd moment) Done self.new.token.view) }
        ensures not_polling { IfErr result (λ refusal. (refusal ≡ NotPolling) × Calls op_meaning self.old.token.view (PollEnd moment) (NotDone NotPolling) self.new.token.view) }
    {
        match self.handle.attempt(rt, OpCall::PollEnd(moment)) {
            Ok(()) => {
                self.polling = false;
                Ok(())
            }
            Err(refusal) => Err(refusal),
        }
    }

    /// Reads the row.
    #[tactic(auto, using(crate::proofs::OpLemmas::read_reads))]
    pub fn read<R: Wait>(&mut self, rt: &R) -> OpRow
        ensures id { self.new.id ≡ self.old.id }
        ensures ledger { self.new.token.ledger ≡ self.old.token.ledger }
        ensures caller { self.old.token.view.caller ≡ 0 }
        ensures entry { Calls op_meaning self.old.token.view Read (Shown result) self.new.token.view }
    {
        self.handle.read(rt, OpCall::Read)
    }

    #[tactic(auto, using(crate::proofs::OpLemmas::close_attempts))]
    /// Closes the operation. Refused with `AlreadyPolling`: the owner is then handed back.
    pub fn close<R: Wait>(self, rt: &R, moment: u64) -> Result<OpReceipt, (Refusal, OpOwner)>
        ensures caller { self.token.view.caller ≡ 0 }
        ensures exact { is_ok result ≡ not (is_polling self) }
        ensures id { IfOk result (λ receipt. receipt.id ≡ self.id) }
        ensures ledger { IfOk result (λ receipt. receipt.token.ledger ≡ self.token.ledger) }
        ensures ok { IfOk result (λ receipt. Calls op_meaning self.token.view (Close moment) Done receipt.token.view) }
        ensures back_id { IfErr result (λ back. back.1.id ≡ self.id) }
        ensures back_ledger { IfErr result (λ back. back.1.token.ledger ≡ self.token.ledger) }
        ensures already_polling { IfErr result (λ back. (back.0 ≡ AlreadyPolling) × Calls op_meaning self.token.view (Close moment) (NotDone AlreadyPolling) back.1.token.view) }
    {
        let OpOwner {
            id,
            polling,
            mut handle,
        } = self;
        match handle.attempt(rt, OpCall::Close(moment)) {
            Ok(()) => Ok(OpReceipt::new(id, handle.retire())),
            Err(refusal) => Err((
                refusal,
                OpOwner {
                    id,
                    polling,
                    handle,
                },
            )),
        }
    }

    /// Makes an inspector. Refused with `Memory`, `HandlesSpent`.
    #[tactic(auto, using(crate::proofs::OpLemmas::enlist_draws))]
    pub fn inspect<R: Wait>(&mut self, rt: &R) -> Result<OpInspector, Refusal>
        ensures id { self.new.id ≡ self.old.id }
        ensures ledger { self.new.token.ledger ≡ self.old.token.ledger }
        ensures caller { self.old.token.view.caller ≡ 0 }
        ensures made_id { IfOk result (λ made. made.id ≡ self.old.id) }
        ensures made_ledger { IfOk result (λ made. made.token.ledger ≡ self.old.token.ledger) }
        ensures ok { IfOk result (λ made. Drew op_meaning self.old.token Enlist self.new.token made.token) }
        ensures err { IfErr result (λ refusal. NotDrawn op_meaning self.old.token Enlist refusal self.new.token) }
    {
        let handle = self.handle.draw::<Enlisted, R>(rt, OpCall::Enlist)?;
        Ok(OpInspector::new(self.id, handle))
    }

    /// Says which task polls the operation from now on.
    pub fn set_task<R: Wait>(&mut self, rt: &R, task: TaskId)
        ensures id { self.new.id ≡ self.old.id }
        ensures ledger { self.new.token.ledger ≡ self.old.token.ledger }
        ensures caller { self.old.token.view.caller ≡ 0 }
        ensures entry { Calls op_meaning self.old.token.view (SetTask task) Done self.new.token.view }
    {
        self.handle.call(rt, OpCall::SetTask(task));
    }

    /// Adds to the attribute of an index, counted from 0. Refused with `NoAttribute`, `WrongKind`, `OutOfRange`, and never with `Closed`: who owns it hasn't closed it.
    #[tactic(auto, using(crate::proofs::OpLemmas::change_attempts))]
    pub fn add<R: Wait>(&mut self, rt: &R, index: u64, value: AttrValue) -> Result<(), Refusal>
        ensures id { self.new.id ≡ self.old.id }
        ensures ledger { self.new.token.ledger ≡ self.old.token.ledger }
        ensures caller { self.old.token.view.caller ≡ 0 }
        ensures ok { OnOk result (Calls op_meaning self.old.token.view (Attr index (Add value)) Done self.new.token.view) }
        ensures err { IfErr result (λ refusal. Calls op_meaning self.old.token.view (Attr index (Add value)) (NotDone refusal) self.new.token.view) }
        ensures unclosed { IfErr result (λ refusal. refusal ≢ Closed) }
    {
        self.handle
            .attempt(rt, OpCall::Attr(index, AttrOp::Add(value)))
    }

    /// Takes away from the attribute of an index, counted from 0. Refused with `NoAttribute`, `WrongKind`, `OutOfRange`, and never with `Closed`: who owns it hasn't closed it.
    #[tactic(auto, using(crate::proofs::OpLemmas::change_attempts))]
    pub fn sub<R: Wait>(&mut self, rt: &R, index: u64, value: AttrValue) -> Result<(), Refusal>
        ensures id { self.new.id ≡ self.old.id }
        ensures ledger { self.new.token.ledger ≡ self.old.token.ledger }
        ensures caller { self.old.token.view.caller ≡ 0 }
        ensures ok { OnOk result (Calls op_meaning self.old.token.view (Attr index (Sub value)) Done self.new.token.view) }
        ensures err { IfErr result (λ refusal. Calls op_meaning self.old.token.view (Attr index (Sub value)) (NotDone refusal) self.new.token.view) }
        ensures unclosed { IfErr result (λ refusal. refusal ≢ Closed) }
    {
        self.handle
            .attempt(rt, OpCall::Attr(index, AttrOp::Sub(value)))
    }

    /// Sets the attribute of an index, counted from 0. Refused with `NoAttribute`, `WrongKind`, and never with `Closed`.
    #[tactic(auto, using(crate::proofs::OpLemmas::change_attempts))]
    pub fn set<R: Wait>(&mut self, rt: &R, index: u64, value: AttrValue) -> Result<(), Refusal>
        ensures id { self.new.id ≡ self.old.id }
        ensures ledger { self.new.token.ledger ≡ self.old.token.ledger }
        ensures caller { self.old.token.view.caller ≡ 0 }
        ensures ok { OnOk result (Calls op_meaning self.old.token.view (Attr index (Override value)) Done self.new.token.view) }
        ensures err { IfErr result (λ refusal. Calls op_meaning self.old.token.view (Attr index (Override value)) (NotDone refusal) self.new.token.view) }
        ensures unclosed { IfErr result (λ refusal. refusal ≢ Closed) }
    {
        self.handle
            .attempt(rt, OpCall::Attr(index, AttrOp::Override(value)))
    }
}
