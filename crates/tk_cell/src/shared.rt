//! The ledger: one object of sixteen words, on which each call is one step.
//!
//! A call looks at the words, makes the next row of them, and exchanges them where they are still the same:
//! then the exchange is its entry. Where the row stays as it is, the look was its entry. Where another call
//! came between, it tries again.
ghost use Rattle.std.specs.Prelude.{◌≡◌, ◌≢◌, ◌<◌, ◌++◌, ◌∷◌, [], true, false, nat_eq, if◌then◌else◌, Some, IfOk, IfSome, IfNone, MatchBool, MatchResult};
ghost use lib.Pointwise.{pointwise};
ghost use Rattle.std.specs.Arc.{arc_value};
ghost use Rattle.crossbeam_utils.specs.Register.{Forks, Merges, Turns};
ghost use Rattle.crossbeam_utils.specs.Seq.{IsSamePass, cell_view};
ghost use Rattle.tk_core.specs.Legal.{may_call, has_ended, own};
ghost use Rattle.tk_cell.specs.Views.{opened, known, Holds, after_split, split_off, as_caller, unheld};
ghost use Rattle.tk_cell.specs.Calls.{Calls, Joins, Hears, Meets, entry};
ghost use Rattle.tk_cell.specs.Ours.{ours, CallsBeside};
ghost use Rattle.tk_cell.specs.Parts.{view_of, IsOne, Kept};
ghost use Rattle.tk_cell.specs.Steps.{Plays, LooksFor, LeadsTo};

use crate::part::{Part, Rule};
use crate::steps::{
    Both, Exchanges, GoesOnAs, Heard, Looks, Met, OffSplit, Opens, Parting, Pick, Settling,
    TakesTold, Tells, Whole,
};
use crate::token::{Seen, Token};
use atomic_table::{Join, Split};
use crossbeam_utils::atomic::seq_cell::{Pass, RuledSeqCell};
use crossbeam_utils::rule::Outcome;
use std::alloc::{AllocError, Global};
use std::marker::{Brand, Model};
use std::sync::{Arc, Wait};
use tk_core::Sequential;

/// An object that threads share. Contracts see which ledger it is.
#[derive(Drop)]
pub struct Shared<O: Sequential> {
    cell: RuledSeqCell<[u64; 16], Part<O, O::Call, O::Reply>, Rule<O>, 16>,
}

impl<O: Sequential> Model for Shared<O> {
    ghost use Rattle.atomic_table.specs.Seated.{TableId};

    ghost Value = { TableId };

    ghost view = { λ s. s.cell.table.shared.table_id };
}

impl<O: Sequential> Shared<O> {
    /// A ledger that begins with this row, and the token of its owner, who is caller 0.
    pub fn new<R: Wait>(
        rt: &R,
        alloc: Global,
        row: O,
    ) -> Result<(Arc<Shared<O>>, Token<O>), AllocError>
        requires { O.meaning.IsOpening row }
        ensures { IfOk result (λ made. made.1 ≡ known (arc_value made.0) (opened row)) }
    {
        let (shared, token) = Shared::begin::<Brand, R>(rt, alloc, row)?;
        Ok((Arc::new(alloc, shared)?, token))
    }

    fn begin<K: Pick<O>, R: Wait>(
        rt: &R,
        alloc: Global,
        row: O,
    ) -> Result<(Shared<O>, Token<O>), AllocError>
        requires picked { K.picked ≡ Some row }
        requires opening { O.meaning.IsOpening row }
        ensures { IfOk result (λ made. made.1 ≡ known made.0 (opened row)) }
    {
        let (cell, mut pass) = RuledSeqCell::<
            [u64; 16],
            Part<O, O::Call, O::Reply>,
            Rule<O>,
            16,
        >::ruled(alloc, [0; 16])?;
        let shared = Shared { cell };
        shared.swap_as::<Opens<O, K>, R>(rt, &mut pass, row.to_words());
        Ok((shared, Token { caller: 0, pass }))
    }

    /// Makes the call as the token's caller, as one entry of the ledger's history, and gives its reply.
    ///
    /// The token has to be of this ledger. Its caller's role has to allow the call: the owner's from the
    /// start, another's by the call that answered its number. And the caller must not have made its last call.
    #[inline(always)]
    pub fn call<R: Wait>(&self, rt: &R, token: &mut Token<O>, call: O::Call) -> O::Reply
        requires own { token.old.ledger ≡ self.now }
        requires role { may_call O.meaning token.old.view.seen token.old.view.caller call ≡ true }
        requires going { has_ended O.meaning token.old.view.seen token.old.view.caller ≡ false }
        ensures own { token.new.ledger ≡ token.old.ledger }
        ensures entry { Calls O.meaning token.old.view call result token.new.view }
    {
        for _ in rt.forever() {
            if let Some(reply) = self.try_call::<Brand, R>(rt, token, call) {
                return reply;
            }
        }
        unreachable!()
    }

    // Makes the call, unless another one came between its look and its exchange.
    #[inline(always)]
    fn try_call<K: Pick<O::Call>, R: Wait>(
        &self,
        rt: &R,
        token: &mut Token<O>,
        call: O::Call,
    ) -> Option<O::Reply>
        requires picked { K.picked ≡ Some call }
        requires own { token.old.ledger ≡ self.now }
        requires role { may_call O.meaning token.old.view.seen token.old.view.caller call ≡ true }
        requires going { has_ended O.meaning token.old.view.seen token.old.view.caller ≡ false }
        ensures own { token.new.ledger ≡ token.old.ledger }
        ensures some { IfSome result (λ reply. Calls O.meaning token.old.view call reply token.new.view) }
        ensures none { IfNone result (token.new.view ≡ token.old.view) }
    {
        let words = self.look::<K, R>(rt, token, call);
        // No test that these are a row's words, and no words of the next row where a call only reads: the words are
        // those of some history.
        let row = O::decode(&words);
        let (next, reply) = row.step(call);
        if O::reads_only(call) {
            return Some(reply);
        }
        let new = next.to_words();
        if new == words || self.exchange::<K, R>(rt, token, call, words, new) {
            Some(reply)
        } else {
            None
        }
    }

    #[inline(always)]
    fn look<K: Pick<O::Call>, R: Wait>(
        &self,
        rt: &R,
        token: &mut Token<O>,
        call: O::Call,
    ) -> [u64; 16]
        requires picked { K.picked ≡ Some call }
        requires own { token.old.ledger ≡ self.now }
        requires role { may_call O.meaning token.old.view.seen token.old.view.caller call ≡ true }
        requires going { has_ended O.meaning token.old.view.seen token.old.view.caller ≡ false }
        ensures own { token.new.ledger ≡ token.old.ledger }
        ensures looks { LooksFor O.meaning (Some call) token.old.view result result token.new.view }
    {
        let _ = call;
        self.load_as::<Looks<O, K>, R>(rt, &mut token.pass)
    }

    #[inline(always)]
    fn exchange<K: Pick<O::Call>, R: Wait>(
        &self,
        rt: &R,
        token: &mut Token<O>,
        call: O::Call,
        current: [u64; 16],
        new: [u64; 16],
    ) -> bool
        requires picked { K.picked ≡ Some call }
        requires own { token.old.ledger ≡ self.now }
        requires role { may_call O.meaning token.old.view.seen token.old.view.caller call ≡ true }
        requires going { has_ended O.meaning token.old.view.seen token.old.view.caller ≡ false }
        requires other { new ≢ current }
        requires computed { LeadsTo O.meaning call current new }
        ensures own { token.new.ledger ≡ token.old.ledger }
        ensures plays { MatchBool result (Plays O.meaning token.old.view call current new token.new.view) (token.new.view ≡ token.old.view) }
    {
        let _ = call;
        self.compare_exchange_as::<Exchanges<O, K>, R>(rt, &mut token.pass, current, new)
            .is_ok()
    }

    /// Splits off the caller of a number that the token holds: a token of its own, which has seen as much.
    ///
    /// The token has to be of this ledger. The number must not be its own caller's, and must have no entry in
    /// what the token has seen: it was drawn by a call of the token, and nobody has called by it yet.
    pub fn split(&self, token: &mut Token<O>, number: u64) -> Token<O>
        requires own { token.old.ledger ≡ self.now }
        requires held { Holds token.old.view number }
        requires other { number ≢ token.old.view.caller }
        requires unused { own number token.old.view.seen ≡ [] }
        ensures kept { token.new ≡ known token.old.ledger (after_split number token.old.view) }
        ensures given { result ≡ known token.old.ledger (split_off number token.old.view) }
    {
        self.part(token, number)
    }

    fn split_picked<K: Pick<u64>>(&self, token: &mut Token<O>, number: u64) -> Token<O>
        requires picked { K.picked ≡ Some number }
        requires own { token.old.ledger ≡ self.now }
        requires held { Holds token.old.view number }
        requires other { number ≢ token.old.view.caller }
        ensures kept { token.new ≡ known token.old.ledger (after_split number token.old.view) }
        ensures given { result ≡ known token.old.ledger (split_off number token.old.view) }
    {
        let pass = self.split_as::<OffSplit<K>>(&mut token.pass);
        Token {
            caller: number,
            pass,
        }
    }

    /// One token that has seen what both have seen, holds the numbers of both, and goes on as the first's caller.
    ///
    /// Both have to be of this ledger.
    pub fn join<R: Wait>(&self, rt: &R, token: Token<O>, other: Token<O>) -> Token<O>
        requires own { token.ledger ≡ self.now }
        requires other { other.ledger ≡ self.now }
        ensures own { result.ledger ≡ token.ledger }
        ensures joined { Joins O.meaning token.view other.view result.view }
    {
        let mut token = token;
        self.absorb(rt, &mut token, other);
        token
    }

    /// As [`Shared::join`], where the first token stays in its place.
    pub fn absorb<R: Wait>(&self, rt: &R, token: &mut Token<O>, other: Token<O>)
        requires own { token.old.ledger ≡ self.now }
        requires other { other.ledger ≡ self.now }
        ensures own { token.new.ledger ≡ token.old.ledger }
        ensures joined { Joins O.meaning token.old.view other.view token.new.view }
    {
        let theirs = self.hand_over(other);
        self.join_as::<Both>(&mut token.pass, theirs);
        self.load_as::<Settling<O>, R>(rt, &mut token.pass);
    }

    /// The token goes on as another caller whose number it holds. No entry is made.
    ///
    /// The token has to be of this ledger.
    #[inline(always)]
    pub fn go_on_as(&self, token: &mut Token<O>, number: u64)
        requires own { token.old.ledger ≡ self.now }
        requires held { Holds token.old.view number }
        ensures { token.new ≡ known token.old.ledger (as_caller number token.old.view) }
    {
        self.go_on_picked::<Brand>(token, number)
    }

    #[inline(always)]
    fn go_on_picked<K: Pick<u64>>(&self, token: &mut Token<O>, number: u64)
        requires picked { K.picked ≡ Some number }
        requires own { token.old.ledger ≡ self.now }
        requires held { Holds token.old.view number }
        ensures { token.new ≡ known token.old.ledger (as_caller number token.old.view) }
    {
        let _ = self.split_as::<GoesOnAs<K>>(&mut token.pass);
        token.caller = number;
    }

    /// What the token has seen, for others to hear. No entry is made, and no number goes with it.
    ///
    /// The token has to be of this ledger.
    #[inline(always)]
    pub fn tell(&self, token: &mut Token<O>) -> Seen<O>
        requires own { token.old.ledger ≡ self.now }
        ensures kept { token.new ≡ token.old }
        ensures told { result ≡ known token.old.ledger (unheld token.old.view) }
    {
        let pass = self.split_as::<Tells>(&mut token.pass);
        Seen { pass }
    }

    /// The token has now seen what was told, too, and goes on as before. No entry is made.
    ///
    /// Both have to be of this ledger.
    pub fn hear<R: Wait>(&self, rt: &R, token: &mut Token<O>, seen: Seen<O>)
        requires own { token.old.ledger ≡ self.now }
        requires other { seen.ledger ≡ self.now }
        ensures own { token.new.ledger ≡ token.old.ledger }
        ensures heard { Hears O.meaning token.old.view seen.view token.new.view }
    {
        self.join_as::<TakesTold>(&mut token.pass, seen.pass);
        self.load_as::<Heard<O>, R>(rt, &mut token.pass);
    }

    /// Both tokens have then seen the same: all that either had seen. No entry is made.
    ///
    /// Both have to be of this ledger.
    pub fn meet<R: Wait>(&self, rt: &R, token: &mut Token<O>, other: &mut Token<O>)
        requires own { token.old.ledger ≡ self.now }
        requires other { other.old.ledger ≡ self.now }
        ensures own { token.new.ledger ≡ token.old.ledger }
        ensures other { other.new.ledger ≡ other.old.ledger }
        ensures met { Meets O.meaning token.old.view other.old.view token.new.view other.new.view }
    {
        let theirs = self.split_as::<Whole>(&mut other.pass);
        self.join_as::<Both>(&mut token.pass, theirs);
        self.load_as::<Met<O>, R>(rt, &mut token.pass);
        other.pass = self.split_as::<Parting>(&mut token.pass);
    }

    /// The call of `other`, beside `token`: both have seen the same before it and after it.
    ///
    /// Both have to be of this ledger, and the call has to be one that `other` may make.
    pub fn call_beside<R: Wait>(
        &self,
        rt: &R,
        token: &mut Token<O>,
        other: &mut Token<O>,
        call: O::Call,
    ) -> O::Reply
        requires own { token.old.ledger ≡ self.now }
        requires other { other.old.ledger ≡ self.now }
        requires role { may_call O.meaning other.old.view.seen other.old.view.caller call ≡ true }
        requires going { has_ended O.meaning other.old.view.seen other.old.view.caller ≡ false }
        ensures own { token.new.ledger ≡ token.old.ledger }
        ensures other { other.new.ledger ≡ other.old.ledger }
        ensures beside { CallsBeside O.meaning token.old.view other.old.view call result token.new.view other.new.view }
    {
        self.meet(rt, token, other);
        let reply = self.call(rt, other, call);
        self.meet(rt, token, other);
        reply
    }

    /// As [`Shared::split`], of a number that may have called already.
    pub fn part(&self, token: &mut Token<O>, number: u64) -> Token<O>
        requires own { token.old.ledger ≡ self.now }
        requires held { Holds token.old.view number }
        requires other { number ≢ token.old.view.caller }
        ensures kept { token.new ≡ known token.old.ledger (after_split number token.old.view) }
        ensures given { result ≡ known token.old.ledger (split_off number token.old.view) }
    {
        self.split_picked::<Brand>(token, number)
    }

    /// Makes the call as the caller of a number that the token holds. The entries of the numbers that it holds are then
    /// those from before, and this one.
    #[inline(always)]
    pub fn call_as<R: Wait>(
        &self,
        rt: &R,
        token: &mut Token<O>,
        number: u64,
        call: O::Call,
    ) -> O::Reply
        requires own { token.old.ledger ≡ self.now }
        requires held { Holds token.old.view number }
        requires role { may_call O.meaning token.old.view.seen number call ≡ true }
        requires going { has_ended O.meaning token.old.view.seen number ≡ false }
        ensures own { token.new.ledger ≡ token.old.ledger }
        ensures entry { Calls O.meaning (as_caller number token.old.view) call result token.new.view }
        ensures order { ours token.new.view ≡ ours token.old.view ++ entry number call result ∷ [] }
    {
        self.go_on_as(token, number);
        self.call(rt, token, call)
    }

    // A pass with the token's view that has taken no step yet: only such a one can be joined.
    fn hand_over(&self, token: Token<O>) -> Pass<[u64; 16], Part<O, O::Call, O::Reply>>
        requires own { token.ledger ≡ self.now }
        ensures own { result.table_id ≡ self.now }
        ensures view { view_of (cell_view result) ≡ token.view }
        ensures one { IsOne (cell_view result) }
        ensures whole { result.me.1 ≡ [] }
    {
        let mut pass = token.pass;
        self.split_as::<Whole>(&mut pass)
    }

    // What follows are the cell's own calls on this ledger's cell. A token's view is proved from these: from the cell's,
    // each took the prover a minute.

    #[inline(always)]
    fn load_as<M: Outcome<[u64; 16], Part<O, O::Call, O::Reply>>, R: Wait>(
        &self,
        rt: &R,
        pass: &mut Pass<[u64; 16], Part<O, O::Call, O::Reply>>,
    ) -> [u64; 16]
        requires cell { pass.old.table_id ≡ self.now }
        requires rule { Turns (Kept O.meaning) pass.old.id (cell_view pass.old) (λ x. x) M.then }
        ensures cell { IsSamePass pass.old pass.new }
        ensures rule { M.then (cell_view pass.old) result result (cell_view pass.new) }
    {
        self.cell.load_as::<M, R>(rt, pass)
    }

    fn swap_as<M: Outcome<[u64; 16], Part<O, O::Call, O::Reply>>, R: Wait>(
        &self,
        rt: &R,
        pass: &mut Pass<[u64; 16], Part<O, O::Call, O::Reply>>,
        new: [u64; 16],
    ) -> [u64; 16]
        requires cell { pass.old.table_id ≡ self.now }
        requires rule { Turns (Kept O.meaning) pass.old.id (cell_view pass.old) (λ _. new) M.then }
        ensures cell { IsSamePass pass.old pass.new }
        ensures rule { M.then (cell_view pass.old) result new (cell_view pass.new) }
    {
        self.cell.swap_as::<M, R>(rt, pass, new)
    }

    #[inline(always)]
    fn compare_exchange_as<M: Outcome<[u64; 16], Part<O, O::Call, O::Reply>>, R: Wait>(
        &self,
        rt: &R,
        pass: &mut Pass<[u64; 16], Part<O, O::Call, O::Reply>>,
        current: [u64; 16],
        new: [u64; 16],
    ) -> Result<[u64; 16], [u64; 16]>
        requires cell { pass.old.table_id ≡ self.now }
        requires rule { Turns (Kept O.meaning) pass.old.id (cell_view pass.old) (λ x. if pointwise nat_eq x current then new else x) M.then }
        ensures cell { IsSamePass pass.old pass.new }
        ensures rule { MatchResult result
            (λ x. (pointwise nat_eq x current ≡ true) × M.then (cell_view pass.old) x new (cell_view pass.new))
            (λ x. (pointwise nat_eq x current ≡ false) × M.then (cell_view pass.old) x x (cell_view pass.new)) }
    {
        self.cell
            .compare_exchange_as::<M, R>(rt, pass, current, new)
    }

    fn split_as<M: Split<Part<O, O::Call, O::Reply>>>(
        &self,
        pass: &mut Pass<[u64; 16], Part<O, O::Call, O::Reply>>,
    ) -> Pass<[u64; 16], Part<O, O::Call, O::Reply>>
        requires own { pass.old.table_id ≡ self.now }
        requires rule { Forks (Kept O.meaning) pass.old.id (cell_view pass.old) (M.left (cell_view pass.old)) (M.right (cell_view pass.old)) }
        ensures kept { IsSamePass pass.old pass.new × (cell_view pass.new ≡ M.left (cell_view pass.old)) }
        ensures given { (result.table_id ≡ pass.old.table_id) × (cell_view result ≡ M.right (cell_view pass.old)) × (result.me.1 ≡ []) }
    {
        self.cell.split_pass::<M>(pass)
    }

    fn join_as<M: Join<Part<O, O::Call, O::Reply>>>(
        &self,
        pass: &mut Pass<[u64; 16], Part<O, O::Call, O::Reply>>,
        other: Pass<[u64; 16], Part<O, O::Call, O::Reply>>,
    )
        requires own { (pass.old.table_id ≡ self.now) × (other.table_id ≡ pass.old.table_id) × (other.me.1 ≡ []) }
        requires rule { Merges (Kept O.meaning) pass.old.id (cell_view pass.old) other.id (cell_view other) (M.both (cell_view pass.old) (cell_view other)) M.spent }
        ensures { IsSamePass pass.old pass.new × (cell_view pass.new ≡ M.both (cell_view pass.old) (cell_view other)) }
    {
        self.cell.join_pass::<M>(pass, other);
    }
}
