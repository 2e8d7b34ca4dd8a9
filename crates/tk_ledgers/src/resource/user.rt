//! Those who use a resource.
ghost use Rattle.std.specs.Prelude.{◌≡◌, IfOk, IfErr, OnOk};
ghost use Rattle.tk_core.specs.declared.resource.call.ResourceCall.TheVariants.{Attr, Enlist, Read};
ghost use Rattle.tk_core.specs.declared.reply.Reply.TheVariants.{Done, Shown};
ghost use Rattle.tk_core.specs.declared.reply.Reply.TheVariants.{Refused as NotDone};
ghost use Rattle.tk_core.specs.ResourceMeaning.{resource_meaning};
ghost use Rattle.tk_cell.specs.Calls.{Calls};
ghost use Rattle.tk_ledgers.specs.Handles.{sight, Drew, NotDrawn};
ghost use Rattle.tk_core.specs.declared.attrs.AttrOp.TheVariants.{Add, Sub, Override};

use crate::handle::Handle;
use crate::resource::ResourceReceipt;
use crate::role::Enlisted;
use std::marker::Model;
use std::sync::Wait;
use tk_core::{AttrOp, Refusal, ResourceCall, ResourceRow};
use tk_ids::{AttrValue, ResourceId};

/// Who uses a resource: changes its attributes, and reads it.
///
/// One that is dropped makes no entry, and what it has changed stays: a permit that it took is still taken. Give back what it
/// holds, by [`ResourceUser::add`], [`ResourceUser::sub`] or [`ResourceUser::set`], before it goes. [`ResourceUser::retire`]
/// keeps its receipt.
#[derive(Drop)]
pub struct ResourceUser {
    id: ResourceId,
    handle: Handle<ResourceRow, Enlisted>,
}

impl Model for ResourceUser {
    ghost use Rattle.tk_ledgers.specs.Handles.{sight};
    ghost use Rattle.tk_ledgers.specs.Resources.{ResourceSight};

    ghost Value = { ResourceSight };

    ghost view = { λ h. sight h.id h.handle };
}

impl ResourceUser {
    pub(crate) fn new(id: ResourceId, handle: Handle<ResourceRow, Enlisted>) -> ResourceUser
        ensures { result ≡ sight id handle }
    {
        ResourceUser { id, handle }
    }

    /// The resource that it uses.
    pub fn resource(&self) -> ResourceId
        ensures { result ≡ self.now.id }
    {
        self.id
    }

    /// Its number among the handles of the resource.
    pub fn number(&self) -> u64
        ensures { result ≡ self.now.token.view.caller }
    {
        self.handle.number()
    }

    /// Reads the row.
    #[tactic(auto, using(crate::proofs::ResourceLemmas::read_reads))]
    pub fn read<R: Wait>(&mut self, rt: &R) -> ResourceRow
        ensures id { self.new.id ≡ self.old.id }
        ensures ledger { self.new.token.ledger ≡ self.old.token.ledger }
        ensures entry { Calls resource_meaning self.old.token.view Read (Shown result) self.new.token.view }
    {
        self.handle.read(rt, ResourceCall::Read)
    }

    /// Adds to the attribute of an index, counted from 0. Refused with `Closed`, `NoAttribute`, `WrongKind`, `OutOfRange`.
    #[tactic(auto, using(crate::proofs::ResourceLemmas::change_attempts))]
    pub fn add<R: Wait>(&mut self, rt: &R, index: u64, value: AttrValue) -> Result<(), Refusal>
        ensures id { self.new.id ≡ self.old.id }
        ensures ledger { self.new.token.ledger ≡ self.old.token.ledger }
        ensures ok { OnOk result (Calls resource_meaning self.old.token.view (Attr index (Add value)) Done self.new.token.view) }
        ensures err { IfErr result (λ refusal. Calls resource_meaning self.old.token.view (Attr index (Add value)) (NotDone refusal) self.new.token.view) }
    {
        self.handle
            .attempt(rt, ResourceCall::Attr(index, AttrOp::Add(value)))
    }

    /// Takes away from the attribute of an index, counted from 0. Refused with `Closed`, `NoAttribute`, `WrongKind`, `OutOfRange`.
    #[tactic(auto, using(crate::proofs::ResourceLemmas::change_attempts))]
    pub fn sub<R: Wait>(&mut self, rt: &R, index: u64, value: AttrValue) -> Result<(), Refusal>
        ensures id { self.new.id ≡ self.old.id }
        ensures ledger { self.new.token.ledger ≡ self.old.token.ledger }
        ensures ok { OnOk result (Calls resource_meaning self.old.token.view (Attr index (Sub value)) Done self.new.token.view) }
        ensures err { IfErr result (λ refusal. Calls resource_meaning self.old.token.view (Attr index (Sub value)) (NotDone refusal) self.new.token.view) }
    {
        self.handle
            .attempt(rt, ResourceCall::Attr(index, AttrOp::Sub(value)))
    }

    /// Sets the attribute of an index, counted from 0. Refused with `Closed`, `NoAttribute`, `WrongKind`.
    #[tactic(auto, using(crate::proofs::ResourceLemmas::change_attempts))]
    pub fn set<R: Wait>(&mut self, rt: &R, index: u64, value: AttrValue) -> Result<(), Refusal>
        ensures id { self.new.id ≡ self.old.id }
        ensures ledger { self.new.token.ledger ≡ self.old.token.ledger }
        ensures ok { OnOk result (Calls resource_meaning self.old.token.view (Attr index (Override value)) Done self.new.token.view) }
        ensures err { IfErr result (λ refusal. Calls resource_meaning self.old.token.view (Attr index (Override value)) (NotDone refusal) self.new.token.view) }
    {
        self.handle
            .attempt(rt, ResourceCall::Attr(index, AttrOp::Override(value)))
    }

    /// Makes a further user. Refused with `Memory`, `HandlesSpent`.
    #[tactic(auto, using(crate::proofs::ResourceLemmas::enlist_draws))]
    pub fn split<R: Wait>(&mut self, rt: &R) -> Result<ResourceUser, Refusal>
        ensures id { self.new.id ≡ self.old.id }
        ensures ledger { self.new.token.ledger ≡ self.old.token.ledger }
        ensures made_id { IfOk result (λ made. made.id ≡ self.old.id) }
        ensures made_ledger { IfOk result (λ made. made.token.ledger ≡ self.old.token.ledger) }
        ensures ok { IfOk result (λ made. Drew resource_meaning self.old.token Enlist self.new.token made.token) }
        ensures err { IfErr result (λ refusal. NotDrawn resource_meaning self.old.token Enlist refusal self.new.token) }
    {
        let handle = self.handle.draw::<Enlisted, R>(rt, ResourceCall::Enlist)?;
        Ok(ResourceUser::new(self.id, handle))
    }

    /// Makes no more calls. No entry is made.
    pub fn retire(self) -> ResourceReceipt
        ensures { result ≡ self }
    {
        ResourceReceipt::new(self.id, self.handle.retire())
    }
}
