//! The owner of a resource and its users, in one hand.
ghost use Rattle.std.specs.Prelude.{◌≡◌, true, false, IfOk, IfErr, OnOk};
ghost use Rattle.tk_core.specs.declared.attrs.AttrOp.{AttrOp};
ghost use Rattle.tk_core.specs.declared.reply.Refusal.TheVariants.{Closed, HandlesSpent, Memory};
ghost use Rattle.tk_core.specs.declared.reply.Reply.TheVariants.{Done, Number, Shown};
ghost use Rattle.tk_core.specs.declared.reply.Reply.TheVariants.{Refused as NotDone};
ghost use Rattle.tk_core.specs.declared.resource.call.ResourceCall.TheVariants.{Close, Attr, Enlist, Read};
ghost use Rattle.tk_core.specs.ResourceMeaning.{resource_meaning};
ghost use Rattle.tk_cell.specs.Ours.{ours, CallsBeside};
ghost use Rattle.tk_ledgers.specs.Beside.{AllRead, ShowsCallsOf};
ghost use Rattle.tk_ledgers.specs.Callers.{live, IsLive, CallsAs, HandsOut, TakesBack, HoldsOnly, HoldsAllBut};
ghost use Rattle.tk_ledgers.specs.Handles.{sight};
ghost use Rattle.tk_ledgers.specs.Resources.{is_closed};

use crate::callers::Callers;
use crate::resource::{ResourceInspector, ResourceReceipt, ResourceUser};
use crate::role::Enlisted;
use std::marker::Model;
use std::sync::Wait;
use tk_core::{AttrOp, Refusal, ResourceCall, ResourceRow};
use tk_ids::ResourceId;

/// The owner of a resource and its users, in one hand, which makes the calls of each. The owner is caller 0, and a user has the number that
/// was answered when it was made. The hand shows each of their calls, in the order in which they were made.
///
/// Who makes all calls of a resource by one hand knows what an inspector reads beside it ([`ResourceCallers::read_beside`]): the row after
/// just these calls. A user may be handed out, as to a thread, and be taken back ([`ResourceCallers::part`],
/// [`ResourceCallers::take_back`]). One that is dropped makes no entry.
#[derive(Drop)]
pub struct ResourceCallers {
    id: ResourceId,
    callers: Callers<ResourceRow, Enlisted>,
}

impl Model for ResourceCallers {
    ghost use Rattle.tk_ledgers.specs.Handles.{sight};
    ghost use Rattle.tk_ledgers.specs.Resources.{ResourceSight};

    ghost Value = { ResourceSight };

    ghost view = { λ h. sight h.id h.callers };
}

impl ResourceCallers {
    pub(crate) fn new(id: ResourceId, callers: Callers<ResourceRow, Enlisted>) -> ResourceCallers
        ensures { result ≡ sight id callers }
    {
        ResourceCallers { id, callers }
    }

    /// The resource.
    pub fn id(&self) -> ResourceId
        ensures { result ≡ self.now.id }
    {
        self.id
    }

    /// The owner closes the resource. Refused with `Closed`.
    #[tactic(auto, using(crate::proofs::ResourceLemmas::close_attempts))]
    pub fn close<R: Wait>(&mut self, rt: &R, moment: u64) -> Result<(), Refusal>
        ensures id { self.new.id ≡ self.old.id }
        ensures ledger { self.new.token.ledger ≡ self.old.token.ledger }
        ensures ok { OnOk result ((is_closed self.old ≡ false) × CallsAs resource_meaning self.old.token 0 (Close moment) Done self.new.token) }
        ensures err { IfErr result (λ refusal. (refusal ≡ Closed) × (is_closed self.old ≡ true) × CallsAs resource_meaning self.old.token 0 (Close moment) (NotDone Closed) self.new.token) }
    {
        self.callers.attempt_as(rt, 0, ResourceCall::Close(moment))
    }

    /// The owner makes a user. It answers the user's number. Refused with `HandlesSpent`.
    #[tactic(auto, using(crate::proofs::ResourceLemmas::enlist_draws))]
    pub fn user<R: Wait>(&mut self, rt: &R) -> Result<u64, Refusal>
        ensures id { self.new.id ≡ self.old.id }
        ensures ledger { self.new.token.ledger ≡ self.old.token.ledger }
        ensures ok { IfOk result (λ user. CallsAs resource_meaning self.old.token 0 Enlist (Number user) self.new.token) }
        ensures err { IfErr result (λ refusal. (refusal ≡ HandlesSpent) × CallsAs resource_meaning self.old.token 0 Enlist (NotDone HandlesSpent) self.new.token) }
    {
        self.callers.draw_as(rt, 0, ResourceCall::Enlist)
    }

    /// A user of this hand changes the attribute of an index, counted from 0. Refused with `Closed`, `NoAttribute`, `WrongKind`,
    /// `OutOfRange`.
    #[tactic(auto, using(crate::proofs::ResourceLemmas::change_attempts))]
    pub fn change<R: Wait>(
        &mut self,
        rt: &R,
        user: u64,
        index: u64,
        op: AttrOp,
    ) -> Result<(), Refusal>
        requires { IsLive resource_meaning self.old.token.view user }
        ensures id { self.new.id ≡ self.old.id }
        ensures ledger { self.new.token.ledger ≡ self.old.token.ledger }
        ensures ok { OnOk result (CallsAs resource_meaning self.old.token user (Attr index op) Done self.new.token) }
        ensures err { IfErr result (λ refusal. CallsAs resource_meaning self.old.token user (Attr index op) (NotDone refusal) self.new.token) }
    {
        self.callers
            .attempt_as(rt, user, ResourceCall::Attr(index, op))
    }

    /// Hands a user out, as to a thread. No entry is made. Refused with `Memory`: then nothing is done.
    ///
    /// Until it is taken back, the calls of this hand are those of its other callers.
    pub fn part(&mut self, user: u64) -> Result<ResourceUser, Refusal>
        requires { IsLive resource_meaning self.old.token.view user }
        ensures id { self.new.id ≡ self.old.id }
        ensures ledger { self.new.token.ledger ≡ self.old.token.ledger }
        ensures made_id { IfOk result (λ made. made.id ≡ self.old.id) }
        ensures ok { IfOk result (λ made. HandsOut resource_meaning self.old.token user self.new.token made.token) }
        ensures user { IfOk result (λ made. HoldsOnly resource_meaning Enlist made.token.view) }
        ensures err { IfErr result (λ refusal. (refusal ≡ Memory) × (self.new ≡ self.old)) }
    {
        let handle = self.callers.part(user)?;
        Ok(ResourceUser::new(self.id, handle))
    }

    /// Takes back a user that was handed out, from what it has seen ([`ResourceUser::retire`]). No entry is made.
    ///
    /// Its calls and those of this hand are then interleaved, each list in its order ([`tk_cell::laws::joined_calls_are_interleaved`]).
    pub fn take_back<R: Wait>(&mut self, rt: &R, receipt: ResourceReceipt)
        requires ledger { receipt.token.ledger ≡ self.old.token.ledger }
        requires users { HoldsOnly resource_meaning Enlist receipt.token.view }
        ensures id { self.new.id ≡ self.old.id }
        ensures ledger { self.new.token.ledger ≡ self.old.token.ledger }
        ensures back { TakesBack resource_meaning self.old.token receipt.token self.new.token }
    {
        self.callers.take_back(rt, receipt.into_token())
    }

    /// An inspector of the resource reads the row, beside this hand.
    ///
    /// The row is that after the calls of this hand, in their order, and after no others, where the inspector has only read, and holds
    /// each number that was answered to a call of this hand and isn't in it: so where no user is handed out. It stays so
    /// ([`crate::laws::a_hand_holds_whom_it_made`]).
    pub fn read_beside<R: Wait>(&mut self, rt: &R, inspector: &mut ResourceInspector) -> ResourceRow
        requires { inspector.old.token.ledger ≡ self.old.token.ledger }
        ensures id { self.new.id ≡ self.old.id }
        ensures ledger { self.new.token.ledger ≡ self.old.token.ledger }
        ensures live { live resource_meaning self.new.token.view ≡ live resource_meaning self.old.token.view }
        ensures inspector { (inspector.new.id ≡ inspector.old.id) × (inspector.new.token.ledger ≡ inspector.old.token.ledger) }
        ensures held { (self.new.token.view.held ≡ self.old.token.view.held) × (inspector.new.token.view.held ≡ inspector.old.token.view.held) }
        ensures beside { CallsBeside resource_meaning self.old.token.view inspector.old.token.view Read (Shown result) self.new.token.view inspector.new.token.view }
        ensures row { HoldsAllBut resource_meaning inspector.old.token.view.held self.old.token.view → AllRead resource_meaning Read (ours inspector.old.token.view)
            → ShowsCallsOf resource_meaning Read self.old.token.view self.new.token.view inspector.new.token.view result }
    {
        inspector.read_beside(rt, &mut self.callers)
    }
}
