//! Resources, and the calls of their owners and users.
ghost use Rattle.std.specs.Prelude.{◌≡◌, ◌≤◌, ◌∷◌, [], IfOk, IfErr, None, Some, false, length};
ghost use Rattle.tk_core.specs.declared.resource.call.ResourceCall.TheVariants.{Enlist};
ghost use Rattle.tk_core.specs.ResourceMeaning.{resource_meaning};
ghost use Rattle.tk_core.specs.Resource.{opening_row, IsOpening};
ghost use Rattle.tk_events.specs.Items.{first_values, owner_view};
ghost use Rattle.tk_core.specs.declared.resource.row.ResourceRow.{ResourceRow};
ghost use Rattle.tk_ledgers.specs.Called.{HasCalled};
ghost use Rattle.tk_ledgers.specs.Callers.{IsLive};
ghost use Rattle.tk_live.specs.Course as course;
ghost use Rattle.tk_live.specs.Stops.{IsReply};
ghost use Rattle.tk_core.specs.declared.reply.Refusal.TheVariants.{HandlesSpent};
ghost use Rattle.tk_script.specs.declared.stop.Stop.TheVariants.{Call};

use super::Interpreter;
use super::tasks::place_of;
use crate::items::ResourceItem;
use crate::seats::{is_made, open_resource};
use std::alloc::{AllocError, Global};
use std::sync::Wait;
use tk_core::{AttrOp, Refusal, ResourceRow};
use tk_events::RecordError;
use tk_ids::{AttrValue, Attrs, IdError, Name, ResourceSpec};
use tk_ledgers::ResourceOwner;
use tk_script::Stop;

// What is told of a resource on a line of the script.
fn spec_of(
    alloc: Global,
    line: u32,
    kind: &[u8],
    concrete: &[u8],
    attrs: Attrs,
) -> Result<ResourceSpec, IdError>
    ensures { IfOk result (λ spec. (spec.parent ≡ None) × (spec.concrete ≡ concrete.now) × (spec.kind ≡ kind.now)
        × (spec.location ≡ course.place line) × (spec.attrs ≡ attrs)) }
{
    let concrete = Name::new(alloc, concrete)?;
    let kind = Name::new(alloc, kind)?;
    let location = place_of(alloc, line)?;
    Ok(ResourceSpec {
        parent: None,
        concrete,
        kind,
        location,
        attrs,
    })
}

// The values that attributes have first.
fn first_values(alloc: Global, attrs: &Attrs) -> Result<Vec<AttrValue>, AllocError>
    ensures values { IfOk result (λ values. values.items ≡ first_values attrs.now) }
    ensures few { IfOk result (λ values. length values.items ≤ 6) }
{
    let mut values = Vec::new(alloc);
    for attr in attrs.as_slice() {
        values.push(attr.first)?;
    }
    Ok(values)
}

// A row with these values, on which no call was made.
fn values_of(alloc: Global, created: u64, attrs: &Attrs) -> Result<ResourceRow, AllocError>
    ensures row { IfOk result (λ row. row ≡ opening_row created (first_values attrs.now)) }
    ensures opens { IfOk result (λ row. IsOpening row) }
{
    let values = first_values(alloc, attrs)?;
    Ok(ResourceRow::opening(created, values.as_slice()))
}

// What is kept of a new resource, with a user.
fn item_of<R: Wait>(rt: &R, owner: ResourceOwner, values: ResourceRow) -> Result<ResourceItem, Stop>
    requires { (row : ResourceRow) × (owner.token.view ≡ owner_view Enlist row) }
    ensures id { IfOk result (λ item. item.callers.id ≡ owner.id) }
    ensures ledger { IfOk result (λ item. item.callers.token.ledger ≡ owner.token.ledger) }
    ensures open { IfOk result (λ item. item.closed ≡ false) }
    ensures values { IfOk result (λ item. item.values ≡ values) }
    ensures called { IfOk result (λ item. (row : ResourceRow) → owner.token.view ≡ owner_view Enlist row → HasCalled resource_meaning (1 ∷ []) row (Enlist ∷ Enlist ∷ []) item.callers.token.view) }
    ensures user { IfOk result (λ item. IsLive resource_meaning item.callers.token.view item.user) }
    ensures err { IfErr result (λ stop. (stop ≡ Call HandlesSpent) × ((row : ResourceRow) → owner.token.view ≡ owner_view Enlist row → IsReply resource_meaning (Some row) Enlist HandlesSpent)) }
{
    let mut callers = owner.into_callers();
    match callers.user(rt) {
        Ok(user) => Ok(ResourceItem {
            callers,
            user,
            values,
            closed: false,
        }),
        Err(refusal) => Err(Stop::Call(refusal)),
    }
}

impl Interpreter {
    ghost use Rattle.std.specs.Prelude.{◌≡◌, ℕ, true};
    ghost use Rattle.tk_ids.specs.Names.{is_name};
    ghost use Rattle.tk_script.specs.Commands as said;
    ghost use Rattle.tk_live.specs.Runs.{SilentSpec, RepresentsSome};

    // A resource and a user of it, on a line of this number.
    pub(super) fn make_resource<R: Wait>(
        &mut self,
        rt: &R,
        alloc: Global,
        line: u32,
        created: u64,
        kind: &[u8],
        concrete: &[u8],
        attrs: Attrs,
    ) -> Result<(), Stop>
        requires named { (is_name kind.now ≡ true) × (is_name concrete.now ≡ true) }
        ensures { SilentSpec line (said.resource created kind.now concrete.now attrs) self.old self.new result }
    {
        let Ok(values) = values_of(alloc, created, &attrs) else {
            return Err(Stop::Memory);
        };
        let Ok(spec) = spec_of(alloc, line, kind, concrete, attrs) else {
            return Err(Stop::Memory);
        };
        if let Err(_) = self.resources.reserve(1) {
            return Err(Stop::Memory);
        }
        match self.recorder.resource(rt, alloc, spec, created) {
            Ok((owner, _became)) => {
                let item = item_of(rt, owner, values)?;
                self.resources.push_reserved(item);
                Ok(())
            }
            Err((RecordError::OffersSpent, _)) => Err(Stop::OffersSpent),
            Err((RecordError::Memory, _)) => Err(Stop::Memory),
        }
    }

    // A resource is closed. Its user makes no call from then on.
    pub(super) fn close_resource<R: Wait>(
        &mut self,
        rt: &R,
        resource: u64,
        moment: u64,
    ) -> Result<(), Stop>
        ensures { (line : ℕ) → SilentSpec line (said.close_resource resource moment) self.old self.new result }
    {
        match open_resource(&self.resources, resource) {
            Some(place) => self.resources[place].close(rt, moment),
            None => Err(Stop::NoSuchItem),
        }
    }

    // The user of a resource changes an attribute.
    pub(super) fn change_resource<R: Wait>(
        &mut self,
        rt: &R,
        resource: u64,
        index: u64,
        op: AttrOp,
    ) -> Result<(), Stop>
        requires { RepresentsSome self.old }
        ensures { (line : ℕ) → SilentSpec line (said.change_resource resource index op) self.old self.new result }
    {
        if !is_made(&self.resources, resource) {
            return Err(Stop::NoSuchItem);
        }
        match open_resource(&self.resources, resource) {
            Some(place) => self.resources[place].change(rt, index, op),
            None => Err(Stop::Call(Refusal::Closed)),
        }
    }
}
