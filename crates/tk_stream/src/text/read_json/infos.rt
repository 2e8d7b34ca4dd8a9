//! Infos, read from JSON.
ghost use Rattle.std.specs.Prelude.{◌≡◌, option_map, map, IfSome, IfOk, IfErr, true};
ghost use Rattle.tk_ids.specs.Names as names;
ghost use Rattle.serde_json.specs.View.{view};
ghost use Rattle.tk_stream.specs.Outcome.{Answers, shaped};
ghost use Rattle.tk_stream.specs.Reading as spec;

use crate::error::LineError;
use crate::text::read_json::fields::{
    has_members, list_at, name_at, name_of, op_id_at, optional_op_at, optional_resource_at,
    resource_id_at, small_of, task_id_at, text_at,
};
use crate::text::read_json::shaped::{Shaped, list_of};
use crate::text::read_json::stats::values_of;
use serde_json::Value;
use std::alloc::Global;
use tk_ids::{
    AsyncOpId, AttrInfo, AttrInfos, AttrKind, Location, Name, OpInfo, ResourceId, ResourceInfo,
    TaskId, TaskInfo, TaskKind,
};

fn new_name(alloc: Global, text: &str) -> Result<Name, LineError>
    requires { names.is_name text.now ≡ true }
    ensures ok { IfOk result (λ name. name ≡ text.now) }
    ensures memory { IfErr result (λ e. e ≡ LineError.Memory) }
{
    Ok(Name::from_checked(alloc, text.as_bytes())?)
}

// ---- places

// A place, before the name of its file is copied.
#[derive(Drop)]
struct LocationParts<'v> {
    file: &'v str,
    line: u32,
    column: u32,
}

fn location_in(values: &[Value]) -> Option<LocationParts<'_>>
    ensures parts { option_map (λ p. record { file = p.file.now; line = p.line; column = p.column }) result
        ≡ spec.location_in (map view values.now) }
    ensures valid { IfSome result (λ p. names.is_name p.file.now ≡ true) }
{
    match values {
        [file, line, column] => Some(LocationParts {
            file: name_of(file)?,
            line: small_of(line)?,
            column: small_of(column)?,
        }),
        _ => None,
    }
}

fn location_at<'v>(value: &'v Value, key: &str) -> Option<LocationParts<'v>>
    ensures parts { option_map (λ p. record { file = p.file.now; line = p.line; column = p.column }) result
        ≡ spec.location_at key.now (view value.now) }
    ensures valid { IfSome result (λ p. names.is_name p.file.now ≡ true) }
{
    location_in(list_at(value, key)?)
}

fn new_location(alloc: Global, parts: LocationParts<'_>) -> Result<Location, LineError>
    requires { names.is_name parts.file.now ≡ true }
    ensures ok { IfOk result (λ location. location
        ≡ record { file = parts.entry.file.now; line = parts.entry.line; column = parts.entry.column }) }
    ensures memory { IfErr result (λ e. e ≡ LineError.Memory) }
{
    let file = new_name(alloc, parts.file)?;
    Ok(Location {
        file,
        line: parts.line,
        column: parts.column,
    })
}

// ---- attributes

fn attr_kind_of(text: &str) -> Option<AttrKind>
    ensures { result ≡ spec.attr_kind_of text.now }
{
    if text == "u64" {
        Some(AttrKind::U64)
    } else if text == "bool" {
        Some(AttrKind::Bool)
    } else if text == "i64" {
        Some(AttrKind::I64)
    } else {
        None
    }
}

fn optional_name_of(value: &Value) -> Option<Option<&str>>
    ensures name { option_map (option_map (λ s. s.now)) result ≡ spec.optional_name_of (view value.now) }
    ensures valid { IfSome result (λ unit. IfSome unit (λ s. names.is_name s.now ≡ true)) }
{
    match value {
        Value::Null => Some(None),
        _ => Some(Some(name_of(value)?)),
    }
}

// An attribute, before its texts are copied.
#[derive(Drop)]
struct AttrParts<'v> {
    name: &'v str,
    unit: Option<&'v str>,
    kind: AttrKind,
}

fn attr_in(values: &[Value]) -> Option<AttrParts<'_>>
    ensures parts { option_map (λ p. record { name = p.name.now; unit = option_map (λ s. s.now) p.unit; kind = p.kind }) result
        ≡ spec.attr_in (map view values.now) }
    ensures valid { IfSome result (λ p. names.is_name p.name.now ≡ true) }
    ensures unit { IfSome result (λ p. IfSome p.unit (λ s. names.is_name s.now ≡ true)) }
{
    match values {
        [name, unit, kind] => Some(AttrParts {
            name: name_of(name)?,
            unit: optional_name_of(unit)?,
            kind: attr_kind_of(kind.as_str()?)?,
        }),
        _ => None,
    }
}

fn attr_of(value: &Value) -> Option<AttrParts<'_>>
    ensures parts { option_map (λ p. record { name = p.name.now; unit = option_map (λ s. s.now) p.unit; kind = p.kind }) result
        ≡ spec.attr_of (view value.now) }
    ensures valid { IfSome result (λ p. names.is_name p.name.now ≡ true) }
    ensures unit { IfSome result (λ p. IfSome p.unit (λ s. names.is_name s.now ≡ true)) }
{
    attr_in(values_of(value)?)
}

fn new_unit(alloc: Global, unit: Option<&str>) -> Result<Option<Name>, LineError>
    requires { IfSome unit (λ s. names.is_name s.now ≡ true) }
    ensures ok { IfOk result (λ name. name ≡ option_map (λ s. s.now) unit.entry) }
    ensures memory { IfErr result (λ e. e ≡ LineError.Memory) }
{
    match unit {
        Some(text) => Ok(Some(new_name(alloc, text)?)),
        None => Ok(None),
    }
}

impl Shaped for AttrInfo {
    ghost use Rattle.tk_stream.specs.Reading.{attr_of as shape_of_attr};
    ghost use Rattle.tk_stream.specs.SmallShapes.{attr_small};

    ghost shape = { shape_of_attr };

    fn of_value(alloc: Global, value: &Value) -> Result<AttrInfo, LineError> {
        let Some(parts) = attr_of(value) else {
            return Err(LineError::BadShape);
        };
        let AttrParts { name, unit, kind } = parts;
        let name = new_name(alloc, name)?;
        let unit = new_unit(alloc, unit)?;
        Ok(AttrInfo { name, unit, kind })
    }

    ghost keeps = { attr_small };
}

#[tactic(auto, unfolding(crate::specs::Reading::attrs_in))]
fn attrs_in(alloc: Global, values: &[Value]) -> Result<AttrInfos, LineError>
    ensures { Answers (λ attrs. attrs) result (shaped (spec.attrs_in (map view values.now))) }
{
    let list: Vec<AttrInfo> = list_of(alloc, values)?;
    match AttrInfos::new(list) {
        Ok(attrs) => Ok(attrs),
        Err(_) => Err(LineError::BadShape),
    }
}

// ---- tasks

fn kind_of(text: &str) -> Option<TaskKind>
    ensures { result ≡ spec.kind_of text.now }
{
    if text == "spawn" {
        Some(TaskKind::Spawn)
    } else if text == "blocking" {
        Some(TaskKind::Blocking)
    } else {
        None
    }
}

// The parts of an info, before its texts are copied.
#[derive(Drop)]
struct InfoParts<'v> {
    id: TaskId,
    kind: TaskKind,
    location: LocationParts<'v>,
    name: &'v str,
}

#[tactic(auto, unfolding(crate::specs::Reading::info_of))]
fn info_of(value: &Value) -> Option<InfoParts<'_>>
    ensures parts { option_map (λ p. record {
      id = p.id;
      kind = p.kind;
      name = p.name.now;
      location = record { file = p.location.file.now; line = p.location.line; column = p.location.column };
    }) result ≡ spec.info_of (view value.now) }
    ensures name { IfSome result (λ p. names.is_name p.name.now ≡ true) }
    ensures file { IfSome result (λ p. names.is_name p.location.file.now ≡ true) }
{
    if !has_members(value, 4) {
        return None;
    }
    let id = task_id_at(value, "id")?;
    let kind = kind_of(text_at(value, "kind")?)?;
    let location = location_at(value, "loc")?;
    let name = name_at(value, "name")?;
    Some(InfoParts {
        id,
        kind,
        location,
        name,
    })
}

impl Shaped for TaskInfo {
    ghost use Rattle.tk_stream.specs.Reading.{info_of as shape_of_info};
    ghost use Rattle.tk_stream.specs.SmallShapes.{info_small};

    ghost shape = { shape_of_info };

    fn of_value(alloc: Global, value: &Value) -> Result<TaskInfo, LineError> {
        let Some(parts) = info_of(value) else {
            return Err(LineError::BadShape);
        };
        let InfoParts {
            id,
            kind,
            location,
            name,
        } = parts;
        let location = new_location(alloc, location)?;
        let name = new_name(alloc, name)?;
        Ok(TaskInfo {
            id,
            kind,
            name,
            location,
        })
    }

    ghost keeps = { info_small };
}

// ---- resources

// The parts of an info, before its texts are copied and its attributes are read.
#[derive(Drop)]
struct ResourceParts<'v> {
    attrs: &'v [Value],
    id: ResourceId,
    kind: &'v str,
    location: LocationParts<'v>,
    parent: Option<ResourceId>,
    concrete: &'v str,
}

#[tactic(auto, unfolding(crate::specs::Reading::resource_parts))]
fn resource_parts(value: &Value) -> Option<ResourceParts<'_>>
    ensures parts { option_map (λ p. record {
      attrs = map view p.attrs.now;
      id = p.id;
      kind = p.kind.now;
      location = record { file = p.location.file.now; line = p.location.line; column = p.location.column };
      parent = p.parent;
      concrete = p.concrete.now;
    }) result ≡ spec.resource_parts (view value.now) }
    ensures kind { IfSome result (λ p. names.is_name p.kind.now ≡ true) }
    ensures file { IfSome result (λ p. names.is_name p.location.file.now ≡ true) }
    ensures concrete { IfSome result (λ p. names.is_name p.concrete.now ≡ true) }
{
    if !has_members(value, 6) {
        return None;
    }
    let attrs = list_at(value, "attrs")?;
    let id = resource_id_at(value, "id")?;
    let kind = name_at(value, "kind")?;
    let location = location_at(value, "loc")?;
    let parent = optional_resource_at(value, "parent")?;
    let concrete = name_at(value, "type")?;
    Some(ResourceParts {
        attrs,
        id,
        kind,
        location,
        parent,
        concrete,
    })
}

impl Shaped for ResourceInfo {
    ghost use Rattle.tk_stream.specs.Reading.{resource_of as shape_of_info};
    ghost use Rattle.tk_stream.specs.SmallShapes.{resource_small};

    ghost shape = { shape_of_info };

    #[tactic(auto, unfolding(crate::specs::Reading::resource_of))]
    fn of_value(alloc: Global, value: &Value) -> Result<ResourceInfo, LineError> {
        let Some(parts) = resource_parts(value) else {
            return Err(LineError::BadShape);
        };
        let ResourceParts {
            attrs,
            id,
            kind,
            location,
            parent,
            concrete,
        } = parts;
        let attrs = attrs_in(alloc, attrs)?;
        let concrete = new_name(alloc, concrete)?;
        let kind = new_name(alloc, kind)?;
        let location = new_location(alloc, location)?;
        Ok(ResourceInfo {
            id,
            parent,
            concrete,
            kind,
            location,
            attrs,
        })
    }

    ghost keeps = { resource_small };
}

// ---- async operations

// The parts of an info, before its text is copied and its attributes are read.
#[derive(Drop)]
struct OpParts<'v> {
    attrs: &'v [Value],
    id: AsyncOpId,
    parent: Option<AsyncOpId>,
    resource: ResourceId,
    source: &'v str,
}

#[tactic(auto, unfolding(crate::specs::Reading::op_parts))]
fn op_parts(value: &Value) -> Option<OpParts<'_>>
    ensures parts { option_map (λ p. record {
      attrs = map view p.attrs.now;
      id = p.id;
      parent = p.parent;
      resource = p.resource;
      source = p.source.now;
    }) result ≡ spec.op_parts (view value.now) }
    ensures source { IfSome result (λ p. names.is_name p.source.now ≡ true) }
{
    if !has_members(value, 5) {
        return None;
    }
    let attrs = list_at(value, "attrs")?;
    let id = op_id_at(value, "id")?;
    let parent = optional_op_at(value, "parent")?;
    let resource = resource_id_at(value, "resource")?;
    let source = name_at(value, "source")?;
    Some(OpParts {
        attrs,
        id,
        parent,
        resource,
        source,
    })
}

impl Shaped for OpInfo {
    ghost use Rattle.tk_stream.specs.Reading.{op_of as shape_of_info};
    ghost use Rattle.tk_stream.specs.SmallShapes.{op_small};

    ghost shape = { shape_of_info };

    #[tactic(auto, unfolding(crate::specs::Reading::op_of))]
    fn of_value(alloc: Global, value: &Value) -> Result<OpInfo, LineError> {
        let Some(parts) = op_parts(value) else {
            return Err(LineError::BadShape);
        };
        let OpParts {
            attrs,
            id,
            parent,
            resource,
            source,
        } = parts;
        let attrs = attrs_in(alloc, attrs)?;
        let source = new_name(alloc, source)?;
        Ok(OpInfo {
            id,
            source,
            resource,
            parent,
            attrs,
        })
    }

    ghost keeps = { op_small };
}
