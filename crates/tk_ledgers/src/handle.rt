//! Inner: a share of a ledger and a token of it, whose caller has a role. Each handle of this crate is one.
ghost use Rattle.std.specs.Prelude.{◌≡◌, true, false, IfOk, OnOk, IfErr};
ghost use Rattle.std.specs.Arc.{arc_value};
ghost use Rattle.tk_core.specs.declared.reply.Reply.TheVariants.{Done, Shown, Woken};
ghost use Rattle.tk_core.specs.declared.reply.Reply.TheVariants.{Refused as NotDone};
ghost use Rattle.tk_cell.specs.Calls.{Calls, Joins};
ghost use Rattle.tk_cell.specs.Ours.{CallsBeside};
ghost use Rattle.tk_ledgers.specs.Hands.{IsHand};
ghost use Rattle.tk_ledgers.specs.Handles.{made_by, role_may, HasRole, Gives, IsDrawing, IsAttempt, IsReading, IsWake, IsDone, Drew, NotDrawn};

use crate::callers::Callers;
use crate::role::Role;
use std::marker::{Model, PhantomData};
use std::sync::{Arc, Wait};
use tk_cell::{Shared, Token};
use tk_core::{Refusal, Reply, Sequential, WakeReply};

/// A share of a ledger and a token of it. Contracts see the token.
#[derive(Drop)]
pub struct Handle<O: Sequential, K: Role<O::Call>> {
    ledger: Arc<Shared<O>>,
    token: Token<O>,
    role: PhantomData<K>,
}

impl<O: Sequential, K: Role<O::Call>> Model for Handle<O, K> {
    ghost use Rattle.std.specs.Prelude.{◌≡◌};
    ghost use Rattle.std.specs.Arc.{arc_value};
    ghost use Rattle.tk_cell.specs.Views.{Known};

    ghost Value = { Known O O.Call O.Reply };

    ghost use Rattle.tk_ledgers.specs.Handles.{HasRole};

    ghost view = { λ h. h.token };

    ghost invariant = { λ h. (h.token.ledger ≡ arc_value h.ledger) × HasRole O.meaning K.role h.token.view };
}

impl<O: Sequential, K: Role<O::Call>> Handle<O, K> {
    /// The handle of a token.
    pub fn new(ledger: Arc<Shared<O>>, token: Token<O>) -> Handle<O, K>
        requires own { token.ledger ≡ arc_value ledger }
        requires role { HasRole O.meaning K.role token.view }
        ensures { result ≡ token }
    {
        Handle {
            ledger,
            token,
            role: PhantomData,
        }
    }

    /// The number of its caller.
    pub fn number(&self) -> u64
        ensures { result ≡ self.now.view.caller }
    {
        self.token.caller()
    }

    /// Makes a call that isn't the caller's last.
    #[inline(always)]
    pub fn call<R: Wait>(&mut self, rt: &R, call: O::Call) -> O::Reply
        requires may { role_may O.meaning K.role call ≡ true }
        requires goes_on { O.meaning.is_last call ≡ false }
        ensures own { self.new.ledger ≡ self.old.ledger }
        ensures entry { Calls O.meaning self.old.view call result self.new.view }
        ensures role { HasRole O.meaning K.role self.old.view }
    {
        self.ledger.call(rt, &mut self.token, call)
    }

    /// Makes a call, and no more after it.
    #[inline(always)]
    pub fn last_call<R: Wait>(self, rt: &R, call: O::Call) -> (O::Reply, Token<O>)
        requires may { role_may O.meaning K.role call ≡ true }
        ensures own { result.1.ledger ≡ self.ledger }
        ensures entry { Calls O.meaning self.view call result.0 result.1.view }
        ensures role { HasRole O.meaning K.role self.view }
    {
        let ledger = self.ledger;
        let mut token = self.token;
        let reply = ledger.call(rt, &mut token, call);
        (reply, token)
    }

    /// The caller, in a hand that may hold callers of a role, too.
    pub fn into_callers<D: Role<O::Call>>(self) -> Callers<O, D>
        requires { IsHand O.meaning D.role self.view }
        ensures { result ≡ self }
    {
        Callers::new(self.ledger, self.token)
    }

    /// Makes no more calls.
    pub fn retire(self) -> Token<O>
        ensures { result ≡ self }
    {
        self.token
    }

    /// Takes in what another token of the ledger has seen, and its numbers.
    pub fn learn<R: Wait>(&mut self, rt: &R, other: Token<O>)
        requires { other.ledger ≡ self.old.ledger }
        ensures own { self.new.ledger ≡ self.old.ledger }
        ensures joined { Joins O.meaning self.old.view other.view self.new.view }
    {
        self.ledger.absorb(rt, &mut self.token, other)
    }
}

impl<O: Sequential<Reply = Reply<O>>, K: Role<O::Call>> Handle<O, K> {
    /// Makes a call that is done or refused.
    #[inline(always)]
    pub fn attempt<R: Wait>(&mut self, rt: &R, call: O::Call) -> Result<(), Refusal>
        requires may { role_may O.meaning K.role call ≡ true }
        requires goes_on { O.meaning.is_last call ≡ false }
        requires form { Gives O.meaning IsAttempt call }
        ensures own { self.new.ledger ≡ self.old.ledger }
        ensures ok { OnOk result (Calls O.meaning self.old.view call Done self.new.view) }
        ensures err { IfErr result (λ refusal. Calls O.meaning self.old.view call (NotDone refusal) self.new.view) }
        ensures role { HasRole O.meaning K.role self.old.view }
    {
        match self.call(rt, call) {
            Reply::Done => Ok(()),
            Reply::Refused(refusal) => Err(refusal),
            Reply::Number(_) | Reply::Woken(_) | Reply::Shown(_) => unreachable!(),
        }
    }

    /// Makes a call that shows the row.
    #[inline(always)]
    pub fn read<R: Wait>(&mut self, rt: &R, call: O::Call) -> O
        requires may { role_may O.meaning K.role call ≡ true }
        requires goes_on { O.meaning.is_last call ≡ false }
        requires form { Gives O.meaning IsReading call }
        ensures own { self.new.ledger ≡ self.old.ledger }
        ensures entry { Calls O.meaning self.old.view call (Shown result) self.new.view }
        ensures role { HasRole O.meaning K.role self.old.view }
    {
        let Reply::Shown(row) = self.call(rt, call) else {
            unreachable!()
        };
        row
    }

    /// Makes a call that shows the row, beside another token: both have seen the same before it and after it.
    pub fn read_beside<R: Wait>(&mut self, rt: &R, token: &mut Token<O>, call: O::Call) -> O
        requires same { token.old.ledger ≡ self.old.ledger }
        requires may { role_may O.meaning K.role call ≡ true }
        requires goes_on { O.meaning.is_last call ≡ false }
        requires form { Gives O.meaning IsReading call }
        ensures own { self.new.ledger ≡ self.old.ledger }
        ensures token { token.new.ledger ≡ token.old.ledger }
        ensures beside { CallsBeside O.meaning token.old.view self.old.view call (Shown result) token.new.view self.new.view }
    {
        let reply = self.ledger.call_beside(rt, token, &mut self.token, call);
        let Reply::Shown(row) = reply else {
            unreachable!()
        };
        row
    }

    /// Another handle of the ledger makes a call that shows the row, beside this one: both have seen the same before it and after it.
    pub fn read_by<D: Role<O::Call>, R: Wait>(
        &mut self,
        rt: &R,
        reader: &mut Handle<O, D>,
        call: O::Call,
    ) -> O
        requires same { reader.old.ledger ≡ self.old.ledger }
        requires may { role_may O.meaning D.role call ≡ true }
        requires goes_on { O.meaning.is_last call ≡ false }
        requires form { Gives O.meaning IsReading call }
        ensures own { self.new.ledger ≡ self.old.ledger }
        ensures reader { reader.new.ledger ≡ reader.old.ledger }
        ensures beside { CallsBeside O.meaning self.old.view reader.old.view call (Shown result) self.new.view reader.new.view }
        ensures role { HasRole O.meaning K.role self.old.view }
    {
        reader.read_beside(rt, &mut self.token, call)
    }

    /// Makes a call that wakes, and isn't the caller's last.
    #[inline(always)]
    pub fn wake<R: Wait>(&mut self, rt: &R, call: O::Call) -> WakeReply
        requires may { role_may O.meaning K.role call ≡ true }
        requires goes_on { O.meaning.is_last call ≡ false }
        requires form { Gives O.meaning IsWake call }
        ensures own { self.new.ledger ≡ self.old.ledger }
        ensures entry { Calls O.meaning self.old.view call (Woken result) self.new.view }
        ensures role { HasRole O.meaning K.role self.old.view }
    {
        let Reply::Woken(found) = self.call(rt, call) else {
            unreachable!()
        };
        found
    }

    /// Makes a call that wakes, and no more after it.
    #[inline(always)]
    pub fn last_wake<R: Wait>(self, rt: &R, call: O::Call) -> (WakeReply, Token<O>)
        requires may { role_may O.meaning K.role call ≡ true }
        requires form { Gives O.meaning IsWake call }
        ensures own { result.1.ledger ≡ self.ledger }
        ensures entry { Calls O.meaning self.view call (Woken result.0) result.1.view }
        ensures role { HasRole O.meaning K.role self.view }
    {
        let (reply, token) = self.last_call(rt, call);
        let Reply::Woken(found) = reply else {
            unreachable!()
        };
        (found, token)
    }

    /// Makes a call that is done, and isn't the caller's last.
    #[inline(always)]
    pub fn done<R: Wait>(&mut self, rt: &R, call: O::Call)
        requires may { role_may O.meaning K.role call ≡ true }
        requires goes_on { O.meaning.is_last call ≡ false }
        requires form { Gives O.meaning IsDone call }
        ensures own { self.new.ledger ≡ self.old.ledger }
        ensures entry { Calls O.meaning self.old.view call Done self.new.view }
        ensures role { HasRole O.meaning K.role self.old.view }
    {
        let Reply::Done = self.call(rt, call) else {
            unreachable!()
        };
    }

    /// Makes a call that is done, and no more after it.
    #[inline(always)]
    pub fn last_done<R: Wait>(self, rt: &R, call: O::Call) -> Token<O>
        requires may { role_may O.meaning K.role call ≡ true }
        requires form { Gives O.meaning IsDone call }
        ensures own { result.ledger ≡ self.ledger }
        ensures entry { Calls O.meaning self.view call Done result.view }
        ensures role { HasRole O.meaning K.role self.view }
    {
        let (reply, token) = self.last_call(rt, call);
        let Reply::Done = reply else { unreachable!() };
        token
    }

    /// Draws a number by a call, and splits off its caller. The share of the ledger is taken first: where there
    /// is no memory for it, nothing is done.
    #[inline(always)]
    pub fn draw<D: Role<O::Call>, R: Wait>(
        &mut self,
        rt: &R,
        call: O::Call,
    ) -> Result<Handle<O, D>, Refusal>
        requires may { role_may O.meaning K.role call ≡ true }
        requires goes_on { O.meaning.is_last call ≡ false }
        requires form { Gives O.meaning (IsDrawing O.meaning) call }
        requires role { D.role ≡ made_by call }
        ensures own { self.new.ledger ≡ self.old.ledger }
        ensures shared { IfOk result (λ made. made.ledger ≡ self.old.ledger) }
        ensures ok { IfOk result (λ made. Drew O.meaning self.old call self.new made) }
        ensures err { IfErr result (λ refusal. NotDrawn O.meaning self.old call refusal self.new) }
        ensures role { HasRole O.meaning K.role self.old.view }
    {
        let Ok(ledger) = Arc::try_clone(&self.ledger) else {
            return Err(Refusal::Memory);
        };
        match self.ledger.call(rt, &mut self.token, call) {
            Reply::Number(n) => {
                let token = self.ledger.split(&mut self.token, n);
                Ok(Handle::new(ledger, token))
            }
            Reply::Refused(refusal) => Err(refusal),
            Reply::Done | Reply::Woken(_) | Reply::Shown(_) => unreachable!(),
        }
    }
}
