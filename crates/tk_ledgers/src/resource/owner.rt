//! The owner of a resource.
ghost use Rattle.std.specs.Prelude.{◌≡◌, ◌≤◌, length, IfOk, IfErr, [], ◌∷◌};
ghost use Rattle.tk_core.specs.declared.resource.call.ResourceCall.TheVariants.{Close, Enlist};
ghost use Rattle.tk_core.specs.declared.reply.Reply.TheVariants.{Done};
ghost use Rattle.tk_core.specs.Resource.{opening_row};
ghost use Rattle.tk_core.specs.ResourceMeaning.{resource_meaning};
ghost use Rattle.tk_cell.specs.Views.{opened};
ghost use Rattle.tk_cell.specs.Calls.{Calls};
ghost use Rattle.tk_ledgers.specs.Handles.{Drew, NotDrawn};

use crate::handle::Handle;
use crate::resource::{ResourceCallers, ResourceInspector, ResourceReceipt, ResourceUser};
use crate::role::{Enlisted, Owning};
use std::alloc::{AllocError, Global};
use std::marker::Model;
use std::sync::Wait;
use tk_cell::Shared;
use tk_core::{Refusal, ResourceCall, ResourceRow};
use tk_ids::{AttrValue, ResourceId};

/// The owner of a resource: who hands out its users and closes it. Its caller is number 0 of the ledger.
///
/// One that is dropped makes no entry: its resource stays live for good. Its last call is [`ResourceOwner::close`].
#[derive(Drop)]
pub struct ResourceOwner {
    id: ResourceId,
    handle: Handle<ResourceRow, Owning>,
}

impl Model for ResourceOwner {
    ghost use Rattle.tk_ledgers.specs.Handles.{sight};
    ghost use Rattle.tk_ledgers.specs.Resources.{ResourceSight, Owns};

    ghost Value = { ResourceSight };

    ghost view = { λ h. sight h.id h.handle };

    ghost invariant = { λ h. Owns (sight h.id h.handle) };
}

impl ResourceOwner {
    /// A resource's ledger, with the first values of its attributes, at most 6. There is no call yet.
    pub fn new<R: Wait>(
        rt: &R,
        alloc: Global,
        id: ResourceId,
        created: u64,
        values: &[AttrValue],
    ) -> Result<ResourceOwner, AllocError>
        requires { length values.now ≤ 6 }
        ensures id { IfOk result (λ owner. owner.id ≡ id) }
        ensures opened { IfOk result (λ owner. owner.token.view ≡ opened (opening_row created values.now)) }
    {
        let (ledger, token) = Shared::new(rt, alloc, ResourceRow::opening(created, values))?;
        Ok(ResourceOwner {
            id,
            handle: Handle::new(ledger, token),
        })
    }

    /// The owner in one hand with the users that it makes from now on ([`ResourceCallers`]): for who makes all calls of the resource, and
    /// needs no handle for each. No entry is made. It is for an owner that has learnt no other's numbers.
    pub fn into_callers(self) -> ResourceCallers
        requires alone { self.token.view.held ≡ 0 ∷ [] }
        ensures { result ≡ self }
    {
        ResourceCallers::new(self.id, self.handle.into_callers())
    }

    /// The resource.
    pub fn id(&self) -> ResourceId
        ensures { result ≡ self.now.id }
    {
        self.id
    }

    /// Makes a user. Refused with `Memory`, `HandlesSpent`.
    #[tactic(auto, using(crate::proofs::ResourceLemmas::enlist_draws))]
    pub fn user<R: Wait>(&mut self, rt: &R) -> Result<ResourceUser, Refusal>
        ensures id { self.new.id ≡ self.old.id }
        ensures ledger { self.new.token.ledger ≡ self.old.token.ledger }
        ensures caller { self.old.token.view.caller ≡ 0 }
        ensures made_id { IfOk result (λ made. made.id ≡ self.old.id) }
        ensures made_ledger { IfOk result (λ made. made.token.ledger ≡ self.old.token.ledger) }
        ensures ok { IfOk result (λ made. Drew resource_meaning self.old.token Enlist self.new.token made.token) }
        ensures err { IfErr result (λ refusal. NotDrawn resource_meaning self.old.token Enlist refusal self.new.token) }
    {
        let handle = self.handle.draw::<Enlisted, R>(rt, ResourceCall::Enlist)?;
        Ok(ResourceUser::new(self.id, handle))
    }

    /// Makes an inspector. Refused with `Memory`, `HandlesSpent`.
    #[tactic(auto, using(crate::proofs::ResourceLemmas::enlist_draws))]
    pub fn inspect<R: Wait>(&mut self, rt: &R) -> Result<ResourceInspector, Refusal>
        ensures id { self.new.id ≡ self.old.id }
        ensures ledger { self.new.token.ledger ≡ self.old.token.ledger }
        ensures caller { self.old.token.view.caller ≡ 0 }
        ensures made_id { IfOk result (λ made. made.id ≡ self.old.id) }
        ensures made_ledger { IfOk result (λ made. made.token.ledger ≡ self.old.token.ledger) }
        ensures ok { IfOk result (λ made. Drew resource_meaning self.old.token Enlist self.new.token made.token) }
        ensures err { IfErr result (λ refusal. NotDrawn resource_meaning self.old.token Enlist refusal self.new.token) }
    {
        let handle = self.handle.draw::<Enlisted, R>(rt, ResourceCall::Enlist)?;
        Ok(ResourceInspector::new(self.id, handle))
    }

    /// Closes the resource.
    pub fn close<R: Wait>(self, rt: &R, moment: u64) -> ResourceReceipt
        ensures caller { self.token.view.caller ≡ 0 }
        ensures id { result.id ≡ self.id }
        ensures ledger { result.token.ledger ≡ self.token.ledger }
        ensures entry { Calls resource_meaning self.token.view (Close moment) Done result.token.view }
    {
        let id = self.id;
        let (_, token) = self.handle.last_call(rt, ResourceCall::Close(moment));
        ResourceReceipt::new(id, token)
    }
}
