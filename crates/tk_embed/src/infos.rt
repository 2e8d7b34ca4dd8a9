//! What an entry says of its item once.
ghost use Rattle.std.specs.Prelude.{◌≡◌, ◌≢◌, ◌∷◌, [], true, map, IfOk, IfErr};
ghost use Rattle.std.specs.List.{flat_map};
ghost use Rattle.tk_embed.specs.Entries as spec;
ghost use Rattle.tk_embed.specs.Faults.{OfBad, HasBadPiece, HasBadAttrs, HasBadTaskInfo, HasBadResourceInfo, HasBadOpInfo, reaches_out, attr_pieces, IsNoId};

use crate::entries::{AttrEntry, OpEntry, Piece, ResourceEntry, TaskEntry};
use crate::fault::{Bad, Reason};
use std::alloc::Global;
use tk_ids::{
    AsyncOpId, AttrInfo, AttrInfos, AttrKind, Location, Name, OpInfo, ResourceId, ResourceInfo,
    TaskId, TaskInfo, TaskKind, is_name,
};

fn piece<T>(list: &[T], piece: Piece) -> Result<&[T], Bad>
    ensures ok { IfOk result (λ part. part.now ≡ spec.piece_of list.now piece) }
    ensures err { IfErr result (λ bad. (bad ≡ Bad.Entry Reason.Piece) × (reaches_out list.now piece ≡ true)) }
{
    let start = piece.start as usize;
    let end = start + piece.len as usize;
    match list.get(start..end) {
        Some(part) => Ok(part),
        None => Err(Bad::Entry(Reason::Piece)),
    }
}

fn name_of(alloc: Global, text: &[u8], place: Piece) -> Result<Name, Bad>
    ensures ok { IfOk result (λ name. name ≡ spec.piece_of text.now place) }
    ensures err { IfErr result (OfBad (HasBadPiece text.now (place ∷ []))) }
{
    let bytes = piece(text, place)?;
    if !is_name(bytes) {
        return Err(Bad::Entry(Reason::Name));
    }
    match Name::from_checked(alloc, bytes) {
        Ok(name) => Ok(name),
        Err(_) => Err(Bad::Memory),
    }
}

fn location_of(
    alloc: Global,
    text: &[u8],
    file: Piece,
    line: u32,
    column: u32,
) -> Result<Location, Bad>
    ensures ok { IfOk result (λ location. location ≡ spec.location_of text.now file line column) }
    ensures err { IfErr result (OfBad (HasBadPiece text.now (file ∷ []))) }
{
    let file = name_of(alloc, text, file)?;
    Ok(Location { file, line, column })
}

pub(crate) fn task_id(value: u64) -> Result<TaskId, Bad>
    ensures ok { IfOk result (λ id. id ≡ value) }
    ensures err { IfErr result (IsNoId value) }
{
    match TaskId::from_value(value) {
        Ok(id) => Ok(id),
        Err(_) => Err(Bad::Entry(Reason::Id)),
    }
}

pub(crate) fn resource_id(value: u64) -> Result<ResourceId, Bad>
    ensures ok { IfOk result (λ id. id ≡ value) }
    ensures err { IfErr result (IsNoId value) }
{
    match ResourceId::from_value(value) {
        Ok(id) => Ok(id),
        Err(_) => Err(Bad::Entry(Reason::Id)),
    }
}

fn op_id(value: u64) -> Result<AsyncOpId, Bad>
    ensures ok { IfOk result (λ id. id ≡ value) }
    ensures err { IfErr result (IsNoId value) }
{
    match AsyncOpId::from_value(value) {
        Ok(id) => Ok(id),
        Err(_) => Err(Bad::Entry(Reason::Id)),
    }
}

fn parent_resource(value: u64) -> Result<Option<ResourceId>, Bad>
    ensures ok { IfOk result (λ parent. parent ≡ spec.parent_of value) }
    ensures err { IfErr result (λ bad. (value ≢ 0) × IsNoId value bad) }
{
    if value == 0 {
        return Ok(None);
    }
    Ok(Some(resource_id(value)?))
}

fn parent_op(value: u64) -> Result<Option<AsyncOpId>, Bad>
    ensures ok { IfOk result (λ parent. parent ≡ spec.parent_of value) }
    ensures err { IfErr result (λ bad. (value ≢ 0) × IsNoId value bad) }
{
    if value == 0 {
        return Ok(None);
    }
    Ok(Some(op_id(value)?))
}

fn attr_kind(kind: u32) -> AttrKind
    ensures { result ≡ spec.attr_kind kind }
{
    match kind {
        0 => AttrKind::U64,
        1 => AttrKind::Bool,
        _ => AttrKind::I64,
    }
}

fn unit_of(alloc: Global, text: &[u8], entry: &AttrEntry) -> Result<Option<Name>, Bad>
    ensures ok { IfOk result (λ unit. unit ≡ (spec.attr_info text.now entry.now).unit) }
    ensures err { IfErr result (λ bad. (entry.now.has_unit ≡ true) × OfBad (HasBadPiece text.now (entry.now.unit ∷ [])) bad) }
{
    if entry.has_unit {
        Ok(Some(name_of(alloc, text, entry.unit)?))
    } else {
        Ok(None)
    }
}

fn attr_of(alloc: Global, text: &[u8], entry: &AttrEntry) -> Result<AttrInfo, Bad>
    ensures ok { IfOk result (λ info. info ≡ spec.attr_info text.now entry.now) }
    ensures err { IfErr result (OfBad (HasBadPiece text.now (attr_pieces entry.now))) }
{
    let name = name_of(alloc, text, entry.name)?;
    let unit = unit_of(alloc, text, entry)?;
    let kind = attr_kind(entry.kind);
    Ok(AttrInfo { name, unit, kind })
}

fn attr_list(alloc: Global, text: &[u8], entries: &[AttrEntry]) -> Result<Vec<AttrInfo>, Bad>
    ensures ok { IfOk result (λ list. list.items ≡ map (spec.attr_info text.now) entries.now) }
    ensures err { IfErr result (OfBad (HasBadPiece text.now (flat_map attr_pieces entries.now))) }
{
    let mut list = Vec::new(alloc);
    for i in 0..entries.len() {
        let info = match attr_of(alloc, text, &entries[i]) {
            Ok(info) => info,
            Err(bad) => return Err(bad),
        };
        let Ok(()) = list.push(info) else {
            return Err(Bad::Memory);
        };
    }
    Ok(list)
}

fn attrs_of(alloc: Global, text: &[u8], attrs: &[AttrEntry], place: Piece) -> Result<AttrInfos, Bad>
    ensures ok { IfOk result (λ infos. infos ≡ spec.attr_infos text.now attrs.now place) }
    ensures err { IfErr result (OfBad (HasBadAttrs text.now attrs.now place)) }
{
    let entries = piece(attrs, place)?;
    let list = attr_list(alloc, text, entries)?;
    match AttrInfos::new(list) {
        Ok(infos) => Ok(infos),
        Err(_) => Err(Bad::Entry(Reason::Attributes)),
    }
}

pub(crate) fn task_info(alloc: Global, text: &[u8], entry: &TaskEntry) -> Result<TaskInfo, Bad>
    ensures ok { IfOk result (λ info. info ≡ spec.task_info text.now entry.now) }
    ensures err { IfErr result (OfBad (HasBadTaskInfo text.now entry.now)) }
{
    let id = task_id(entry.id)?;
    let name = name_of(alloc, text, entry.name)?;
    let location = location_of(alloc, text, entry.file, entry.line, entry.column)?;
    let kind = if entry.kind == 0 {
        TaskKind::Spawn
    } else {
        TaskKind::Blocking
    };
    Ok(TaskInfo {
        id,
        kind,
        name,
        location,
    })
}

pub(crate) fn resource_info(
    alloc: Global,
    text: &[u8],
    attrs: &[AttrEntry],
    entry: &ResourceEntry,
) -> Result<ResourceInfo, Bad>
    ensures ok { IfOk result (λ info. info ≡ spec.resource_info text.now attrs.now entry.now) }
    ensures err { IfErr result (OfBad (HasBadResourceInfo text.now attrs.now entry.now)) }
{
    let id = resource_id(entry.id)?;
    let parent = parent_resource(entry.parent)?;
    let concrete = name_of(alloc, text, entry.concrete)?;
    let kind = name_of(alloc, text, entry.kind)?;
    let location = location_of(alloc, text, entry.file, entry.line, entry.column)?;
    let attrs = attrs_of(alloc, text, attrs, entry.attrs)?;
    Ok(ResourceInfo {
        id,
        parent,
        concrete,
        kind,
        location,
        attrs,
    })
}

pub(crate) fn op_info(
    alloc: Global,
    text: &[u8],
    attrs: &[AttrEntry],
    entry: &OpEntry,
) -> Result<OpInfo, Bad>
    ensures ok { IfOk result (λ info. info ≡ spec.op_info text.now attrs.now entry.now) }
    ensures err { IfErr result (OfBad (HasBadOpInfo text.now attrs.now entry.now)) }
{
    let id = op_id(entry.id)?;
    let resource = resource_id(entry.resource)?;
    let parent = parent_op(entry.parent)?;
    let source = name_of(alloc, text, entry.source)?;
    let attrs = attrs_of(alloc, text, attrs, entry.attrs)?;
    Ok(OpInfo {
        id,
        source,
        resource,
        parent,
        attrs,
    })
}
