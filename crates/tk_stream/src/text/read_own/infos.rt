//! Infos of tasks, resources and async operations, and their attributes, taken from the front of a line's text.
ghost use Rattle.std.specs.Prelude.{◌++◌, false, map, IfSome, IfOk};
ghost use Rattle.json.specs.Print.{quoted};
ghost use Rattle.serde_json.specs.View.{items_of};
ghost use Rattle.serde_json.specs.Written.{compact_text, items_text};
ghost use Rattle.tk_stream.specs.Pieces.{Takes};
ghost use Rattle.tk_stream.specs.Spelling as spec;

use crate::text::read_own::pieces::{
    op_id, optional_op_id, optional_resource_id, resource_id, take_flag, take_name, take_number,
    take_optional, take_small, take_text, task_id,
};
use crate::text::read_own::taken::{Taken, some_of, take_list};
use std::alloc::{AllocError, Global};
use tk_ids::{
    AttrInfo, AttrInfos, AttrKind, AttrValue, Location, Name, OpInfo, ResourceInfo, TaskInfo,
    TaskKind,
};

#[tactic(auto, unfolding(json::specs::Print::escape_byte))]
fn take_kind<'a>(bytes: &'a [u8], before: &[u8]) -> Option<(TaskKind, &'a [u8])>
    ensures { IfSome result (λ x. Takes bytes.now (before.now ++ quoted (spec.kind_text x.0)) x.1.now) }
{
    let rest = take_text(bytes, before)?;
    if let Some(rest) = take_text(rest, b"\"spawn\"") {
        return Some((TaskKind::Spawn, rest));
    }
    let rest = take_text(rest, b"\"blocking\"")?;
    Some((TaskKind::Blocking, rest))
}

fn take_location<'a>(
    alloc: Global,
    bytes: &'a [u8],
    before: &[u8],
) -> Result<Option<(Location, &'a [u8])>, AllocError>
    ensures { IfOk result (λ o. IfSome o (λ x. Takes bytes.now
        (before.now ++ compact_text (spec.location_data x.0)) x.1.now)) }
{
    let rest = some_of!(take_text(bytes, before));
    let (file, rest) = some_of!(take_name(alloc, rest, b"[\"")?);
    let (line, rest) = some_of!(take_small(rest, b","));
    let (column, rest) = some_of!(take_small(rest, b","));
    let rest = some_of!(take_text(rest, b"]"));
    Ok(Some((Location { file, line, column }, rest)))
}

impl Taken for TaskInfo {
    ghost use Rattle.tk_stream.specs.Spelling.{info_data};

    ghost spelling = { info_data };

    fn take(alloc: Global, bytes: &[u8]) -> Result<Option<(TaskInfo, &[u8])>, AllocError> {
        let (number, rest) = some_of!(take_number(bytes, b"{\"id\":"));
        let id = some_of!(task_id(number));
        let (kind, rest) = some_of!(take_kind(rest, b",\"kind\":"));
        let (location, rest) = some_of!(take_location(alloc, rest, b",\"loc\":")?);
        let (name, rest) = some_of!(take_name(alloc, rest, b",\"name\":\"")?);
        let rest = some_of!(take_text(rest, b"}"));
        let info = TaskInfo {
            id,
            kind,
            name,
            location,
        };
        Ok(Some((info, rest)))
    }
}

#[tactic(auto, unfolding(json::specs::Print::escape_byte))]
fn take_attr_kind<'a>(bytes: &'a [u8], before: &[u8]) -> Option<(AttrKind, &'a [u8])>
    ensures { IfSome result (λ x. Takes bytes.now (before.now ++ quoted (spec.attr_kind_text x.0)) x.1.now) }
{
    let rest = take_text(bytes, before)?;
    if let Some(rest) = take_text(rest, b"\"u64\"") {
        return Some((AttrKind::U64, rest));
    }
    if let Some(rest) = take_text(rest, b"\"bool\"") {
        return Some((AttrKind::Bool, rest));
    }
    let rest = take_text(rest, b"\"i64\"")?;
    Some((AttrKind::I64, rest))
}

fn take_unit<'a>(
    alloc: Global,
    bytes: &'a [u8],
    before: &[u8],
) -> Result<Option<(Option<Name>, &'a [u8])>, AllocError>
    ensures { IfOk result (λ o. IfSome o (λ x. Takes bytes.now
        (before.now ++ compact_text (spec.optional_text x.0)) x.1.now)) }
{
    let rest = some_of!(take_text(bytes, before));
    if let Some(rest) = take_text(rest, b"null") {
        return Ok(Some((None, rest)));
    }
    let (unit, rest) = some_of!(take_name(alloc, rest, b"\"")?);
    Ok(Some((Some(unit), rest)))
}

impl Taken for AttrInfo {
    ghost use Rattle.tk_stream.specs.Spelling.{attr_data};

    ghost spelling = { attr_data };

    fn take(alloc: Global, bytes: &[u8]) -> Result<Option<(AttrInfo, &[u8])>, AllocError> {
        let (name, rest) = some_of!(take_name(alloc, bytes, b"[\"")?);
        let (unit, rest) = some_of!(take_unit(alloc, rest, b",")?);
        let (kind, rest) = some_of!(take_attr_kind(rest, b","));
        let rest = some_of!(take_text(rest, b"]"));
        Ok(Some((AttrInfo { name, unit, kind }, rest)))
    }
}

fn take_attrs<'a>(
    alloc: Global,
    bytes: &'a [u8],
    before: &[u8],
) -> Result<Option<(AttrInfos, &'a [u8])>, AllocError>
    ensures { IfOk result (λ o. IfSome o (λ x. Takes bytes.now
        (before.now ++ items_text false (items_of (map spec.attr_data x.0))) x.1.now)) }
{
    let (list, rest): (Vec<AttrInfo>, &[u8]) = some_of!(take_list(alloc, bytes, before)?);
    match AttrInfos::new(list) {
        Ok(attrs) => Ok(Some((attrs, rest))),
        Err(_) => Ok(None),
    }
}

impl Taken for ResourceInfo {
    ghost use Rattle.tk_stream.specs.Spelling.{resource_data};

    ghost spelling = { resource_data };

    fn take(alloc: Global, bytes: &[u8]) -> Result<Option<(ResourceInfo, &[u8])>, AllocError> {
        let (attrs, rest) = some_of!(take_attrs(alloc, bytes, b"{\"attrs\":[")?);
        let (number, rest) = some_of!(take_number(rest, b",\"id\":"));
        let (kind, rest) = some_of!(take_name(alloc, rest, b",\"kind\":\"")?);
        let (location, rest) = some_of!(take_location(alloc, rest, b",\"loc\":")?);
        let (parent, rest) = some_of!(take_optional(rest, b",\"parent\":"));
        let (concrete, rest) = some_of!(take_name(alloc, rest, b",\"type\":\"")?);
        let rest = some_of!(take_text(rest, b"}"));
        let id = some_of!(resource_id(number));
        let parent = some_of!(optional_resource_id(parent));
        let info = ResourceInfo {
            id,
            parent,
            concrete,
            kind,
            location,
            attrs,
        };
        Ok(Some((info, rest)))
    }
}

impl Taken for OpInfo {
    ghost use Rattle.tk_stream.specs.Spelling.{op_data};

    ghost spelling = { op_data };

    fn take(alloc: Global, bytes: &[u8]) -> Result<Option<(OpInfo, &[u8])>, AllocError> {
        let (attrs, rest) = some_of!(take_attrs(alloc, bytes, b"{\"attrs\":[")?);
        let (number, rest) = some_of!(take_number(rest, b",\"id\":"));
        let (parent, rest) = some_of!(take_optional(rest, b",\"parent\":"));
        let (owner, rest) = some_of!(take_number(rest, b",\"resource\":"));
        let (source, rest) = some_of!(take_name(alloc, rest, b",\"source\":\"")?);
        let rest = some_of!(take_text(rest, b"}"));
        let id = some_of!(op_id(number));
        let parent = some_of!(optional_op_id(parent));
        let resource = some_of!(resource_id(owner));
        let info = OpInfo {
            id,
            source,
            resource,
            parent,
            attrs,
        };
        Ok(Some((info, rest)))
    }
}
