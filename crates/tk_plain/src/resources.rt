//! Resources, and their users.

use crate::attributes::{firsts_of, infos_of};
use crate::run::{Plain, place_of};
use crate::tasks::location_of;
use std::alloc::Global;
use tk_core::{ResourceCall, ResourceRow};
use tk_ids::{AttrInfos, AttrValue, Attrs, IdError, Name, ResourceId, ResourceInfo};
use tk_script::Stop;
use tk_stream::Tables;

fn info_of(
    alloc: Global,
    id: ResourceId,
    line: u32,
    names: (&[u8], &[u8]),
    attrs: AttrInfos,
) -> Result<ResourceInfo, IdError> {
    let kind = Name::new(alloc, names.0)?;
    let concrete = Name::new(alloc, names.1)?;
    let location = location_of(alloc, line)?;
    Ok(ResourceInfo {
        id,
        parent: None,
        concrete,
        kind,
        location,
        attrs,
    })
}

// The row of a new resource, which its one reader and its user have enlisted at.
fn first_row(created: u64, firsts: &[AttrValue]) -> Option<ResourceRow> {
    if firsts.len() > 6 {
        return None;
    }
    let (read, _) = ResourceRow::opening(created, firsts).step(ResourceCall::Enlist);
    let (row, _) = read.step(ResourceCall::Enlist);
    Some(row)
}

fn add(tables: &mut Tables, info: ResourceInfo, row: ResourceRow) -> Result<(), Stop> {
    if tables.resource(info.id).is_some() {
        return Err(Stop::OffersSpent);
    }
    match tables.add_resource(info, row) {
        Ok(()) => Ok(()),
        Err(_) => Err(Stop::Memory),
    }
}

fn row_at(tables: &Tables, place: usize) -> Option<ResourceRow> {
    let resource = tables.resource_at(place)?;
    Some(resource.row)
}

/// The id of the resource of a number, if it was made.
pub(crate) fn made_resource(tables: &Tables, number: u64) -> Option<ResourceId> {
    let resource = tables.resource_at(place_of(number)?)?;
    Some(resource.info.id)
}

impl Plain {
    pub(crate) fn make_resource(
        &mut self,
        line: u32,
        created: u64,
        names: (&[u8], &[u8]),
        attrs: Attrs,
    ) -> Result<(), Stop> {
        let Ok(id) = self.ids.next_resource() else {
            return Err(Stop::OffersSpent);
        };
        let Ok(infos) = infos_of(self.alloc, &attrs) else {
            return Err(Stop::Memory);
        };
        let Ok(firsts) = firsts_of(self.alloc, &attrs) else {
            return Err(Stop::Memory);
        };
        let Ok(info) = info_of(self.alloc, id, line, names, infos) else {
            return Err(Stop::Memory);
        };
        match first_row(created, &firsts) {
            Some(row) => add(&mut self.tables, info, row),
            None => Err(Stop::BadCommand),
        }
    }

    /// A call of a resource's user, which is refused once the resource is closed.
    pub(crate) fn call_resource(&mut self, number: u64, call: ResourceCall) -> Result<(), Stop> {
        let Some(place) = place_of(number) else {
            return Err(Stop::NoSuchItem);
        };
        let Some(row) = row_at(&self.tables, place) else {
            return Err(Stop::NoSuchItem);
        };
        let (next, reply) = row.step(call);
        if let Some(refusal) = reply.refusal() {
            return Err(Stop::Call(refusal));
        }
        if place < self.tables.resource_count() {
            self.tables.set_resource(place, next);
        }
        Ok(())
    }

    /// The last call of a resource's owner.
    pub(crate) fn close_resource(&mut self, number: u64, moment: u64) -> Result<(), Stop> {
        let Some(place) = place_of(number) else {
            return Err(Stop::NoSuchItem);
        };
        match row_at(&self.tables, place) {
            Some(row) => {
                if row.dropped.is_some() {
                    return Err(Stop::NoSuchItem);
                }
                self.call_resource(number, ResourceCall::Close(moment))
            }
            None => Err(Stop::NoSuchItem),
        }
    }
}
