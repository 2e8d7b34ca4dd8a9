//! Inner: the callers of a ledger that are in one hand, the owner among them: a share of the ledger, and one token that holds their numbers.
ghost use Rattle.std.specs.Prelude.{◌≡◌, true, false, IfOk, OnOk, IfErr};
ghost use Rattle.std.specs.Arc.{arc_value};
ghost use Rattle.tk_core.specs.declared.reply.Refusal.TheVariants.{HandlesSpent, Memory};
ghost use Rattle.tk_core.specs.declared.reply.Reply.TheVariants.{Done, Number, Shown, Woken};
ghost use Rattle.tk_core.specs.declared.reply.Reply.TheVariants.{Refused as NotDone};
ghost use Rattle.tk_core.specs.Fold.{number_of};
ghost use Rattle.tk_cell.specs.Ours.{CallsBeside};
ghost use Rattle.tk_ledgers.specs.Callers.{live, IsLive, CallsAs, HandsOut, TakesBack};
ghost use Rattle.tk_ledgers.specs.Handles.{made_by, role_may, Gives, IsAttempt, IsDone, IsDrawing, IsReading, IsWake};
ghost use Rattle.tk_ledgers.specs.Hands.{Draws, IsHand, MayCall, Others};

use crate::handle::Handle;
use crate::role::Role;
use std::marker::{Model, PhantomData};
use std::sync::{Arc, Wait};
use tk_cell::{Shared, Token};
use tk_core::{Refusal, Reply, Sequential, WakeReply};

/// A share of a ledger and one token of it, which holds the numbers of the callers in this hand: the owner's, 0, and those of
/// callers of one role. Contracts see the token.
#[derive(Drop)]
pub struct Callers<O: Sequential, K: Role<O::Call>> {
    ledger: Arc<Shared<O>>,
    token: Token<O>,
    role: PhantomData<K>,
}

impl<O: Sequential, K: Role<O::Call>> Model for Callers<O, K> {
    ghost use Rattle.std.specs.Prelude.{◌≡◌};
    ghost use Rattle.std.specs.Arc.{arc_value};
    ghost use Rattle.tk_cell.specs.Views.{Known};

    ghost Value = { Known O O.Call O.Reply };

    ghost use Rattle.tk_ledgers.specs.Hands.{IsHand};

    ghost view = { λ h. h.token };

    ghost invariant = { λ h. (h.token.ledger ≡ arc_value h.ledger) × IsHand O.meaning K.role h.token.view };
}

impl<O: Sequential, K: Role<O::Call>> Callers<O, K> {
    /// The callers whose numbers a token holds.
    pub fn new(ledger: Arc<Shared<O>>, token: Token<O>) -> Callers<O, K>
        requires own { token.ledger ≡ arc_value ledger }
        requires hand { IsHand O.meaning K.role token.view }
        ensures { result ≡ token }
    {
        Callers {
            ledger,
            token,
            role: PhantomData,
        }
    }

    /// Makes a call as the caller of this number.
    #[inline(always)]
    pub fn call_as<R: Wait>(&mut self, rt: &R, number: u64, call: O::Call) -> O::Reply
        requires may { MayCall O.meaning K.role self.old.view number call }
        requires draws { Draws O.meaning K.role call }
        ensures entry { CallsAs O.meaning self.old number call result self.new }
        ensures hand { IsHand O.meaning K.role self.old.view }
    {
        self.ledger.call_as(rt, &mut self.token, number, call)
    }

    /// Hands a caller out. The share of the ledger is taken first: where there is no memory for it, nothing is done.
    pub fn part(&mut self, number: u64) -> Result<Handle<O, K>, Refusal>
        requires live { IsLive O.meaning self.old.view number }
        ensures own { self.new.ledger ≡ self.old.ledger }
        ensures ok { IfOk result (λ made. HandsOut O.meaning self.old number self.new made) }
        ensures others { IfOk result (λ made. Others O.meaning K.role made.view) }
        ensures err { IfErr result (λ refusal. (refusal ≡ Memory) × (self.new ≡ self.old)) }
    {
        let Ok(ledger) = Arc::try_clone(&self.ledger) else {
            return Err(Refusal::Memory);
        };
        self.ledger.go_on_as(&mut self.token, 0);
        let token = self.ledger.part(&mut self.token, number);
        Ok(Handle::new(ledger, token))
    }

    /// Takes callers back, with what they have seen.
    pub fn take_back<R: Wait>(&mut self, rt: &R, token: Token<O>)
        requires own { token.ledger ≡ self.old.ledger }
        requires others { Others O.meaning K.role token.view }
        ensures back { TakesBack O.meaning self.old token self.new }
        ensures hand { IsHand O.meaning K.role self.old.view }
    {
        self.ledger.absorb(rt, &mut self.token, token)
    }
}

impl<O: Sequential<Reply = Reply<O>>, K: Role<O::Call>> Callers<O, K> {
    /// Makes a call that is done or refused.
    #[inline(always)]
    pub fn attempt_as<R: Wait>(&mut self, rt: &R, number: u64, call: O::Call) -> Result<(), Refusal>
        requires may { MayCall O.meaning K.role self.old.view number call }
        requires plain { O.meaning.number ≡ number_of }
        requires form { Gives O.meaning IsAttempt call }
        ensures own { self.new.ledger ≡ self.old.ledger }
        ensures ok { OnOk result (CallsAs O.meaning self.old number call Done self.new) }
        ensures err { IfErr result (λ refusal. CallsAs O.meaning self.old number call (NotDone refusal) self.new) }
        ensures hand { IsHand O.meaning K.role self.old.view }
    {
        match self.call_as(rt, number, call) {
            Reply::Done => Ok(()),
            Reply::Refused(refusal) => Err(refusal),
            Reply::Number(_) | Reply::Woken(_) | Reply::Shown(_) => unreachable!(),
        }
    }

    /// Makes a call that is done.
    #[inline(always)]
    pub fn done_as<R: Wait>(&mut self, rt: &R, number: u64, call: O::Call)
        requires may { MayCall O.meaning K.role self.old.view number call }
        requires plain { O.meaning.number ≡ number_of }
        requires form { Gives O.meaning IsDone call }
        ensures entry { CallsAs O.meaning self.old number call Done self.new }
        ensures hand { IsHand O.meaning K.role self.old.view }
    {
        let Reply::Done = self.call_as(rt, number, call) else {
            unreachable!()
        };
    }

    /// Makes a call that wakes.
    #[inline(always)]
    pub fn wake_as<R: Wait>(&mut self, rt: &R, number: u64, call: O::Call) -> WakeReply
        requires may { MayCall O.meaning K.role self.old.view number call }
        requires plain { O.meaning.number ≡ number_of }
        requires form { Gives O.meaning IsWake call }
        ensures entry { CallsAs O.meaning self.old number call (Woken result) self.new }
        ensures hand { IsHand O.meaning K.role self.old.view }
    {
        let Reply::Woken(found) = self.call_as(rt, number, call) else {
            unreachable!()
        };
        found
    }

    /// Makes a call that draws a number, and answers it.
    #[inline(always)]
    pub fn draw_as<R: Wait>(&mut self, rt: &R, number: u64, call: O::Call) -> Result<u64, Refusal>
        requires may { MayCall O.meaning K.role self.old.view number call }
        requires draws { K.role ≡ made_by call }
        requires form { Gives O.meaning (IsDrawing O.meaning) call }
        ensures own { self.new.ledger ≡ self.old.ledger }
        ensures ok { IfOk result (λ drawn. CallsAs O.meaning self.old number call (Number drawn) self.new) }
        ensures err { IfErr result (λ refusal. (refusal ≡ HandlesSpent) × CallsAs O.meaning self.old number call (NotDone HandlesSpent) self.new) }
        ensures hand { IsHand O.meaning K.role self.old.view }
    {
        match self.call_as(rt, number, call) {
            Reply::Number(drawn) => Ok(drawn),
            Reply::Refused(refusal) => Err(refusal),
            Reply::Done | Reply::Woken(_) | Reply::Shown(_) => unreachable!(),
        }
    }

    /// Another handle of the ledger makes a call that shows the row: beside this hand, so that both have seen the same before it and
    /// after it.
    pub fn read_beside<D: Role<O::Call>, R: Wait>(
        &mut self,
        rt: &R,
        reader: &mut Handle<O, D>,
        call: O::Call,
    ) -> O
        requires same { reader.old.ledger ≡ self.old.ledger }
        requires may { role_may O.meaning D.role call ≡ true }
        requires goes_on { O.meaning.is_last call ≡ false }
        requires form { Gives O.meaning IsReading call }
        ensures own { self.new.ledger ≡ self.old.ledger }
        ensures reader { reader.new.ledger ≡ reader.old.ledger }
        ensures beside { CallsBeside O.meaning self.old.view reader.old.view call (Shown result) self.new.view reader.new.view }
        ensures live { live O.meaning self.new.view ≡ live O.meaning self.old.view }
        ensures hand { IsHand O.meaning K.role self.old.view }
    {
        reader.read_beside(rt, &mut self.token, call)
    }
}
