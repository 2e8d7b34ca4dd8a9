//! Infos of tasks, resources and async operations, and their attributes, written: each from its last piece to its first, as
//! short texts are.
ghost use Rattle.std.specs.Prelude.{◌≡◌, ◌+◌, ◌≤◌, ◌∷◌, ◌++◌, [], true, false, codes, map, length, drop, OnOk};
ghost use Rattle.json.specs.Print.{quoted};
ghost use Rattle.serde_json.specs.View.{items_of};
ghost use Rattle.serde_json.specs.Written.{compact_text, items_text, members_text, comma_if};
ghost use Rattle.tk_stream.specs.Pieces.{Puts, PutsOpen, Takes, unit_length, resource_after_attrs, op_after_attrs};
ghost use Rattle.tk_stream.specs.Spelling as spec;

use crate::text::write::pieces::put_opening;
use crate::text::write::short::{
    ROOM, comma_before, name_before, number_before, optional_before, put_short, text_before,
};
use crate::text::write::written::{Written, put_items};
use std::alloc::AllocError;
use tk_ids::{
    AsyncOpId, AttrInfo, AttrKind, Location, Name, OpInfo, ResourceId, ResourceInfo, TaskInfo,
    TaskKind,
};

// Three names of so many bytes, each byte with a backslash before it, and the rest of an info are a short text.
const SHORT: usize = 148;

// As much for three names of any length.
const LONG_ROOM: usize = 6280;

fn name_length(name: &Name) -> usize
    ensures length { result ≡ length name.now }
    ensures most { result ≤ 1024 }
{
    name.as_bytes().len()
}

#[inline(always)]
#[tactic(auto, unfolding(json::specs::Print::escape_byte))]
fn kind_before<const N: usize>(bytes: &mut [u8; N], at: usize, text: &[u8], kind: TaskKind) -> usize
    requires { (length text.now + 20 ≤ at) × (at ≤ N) }
    ensures text { Takes (drop result bytes.new) (text.now ++ quoted (spec.kind_text kind)) (drop at bytes.old) }
    ensures place { (at ≤ result + (length text.now + 20)) × (result ≤ N) }
{
    let start = match kind {
        TaskKind::Spawn => text_before(bytes, at, b"\"spawn\""),
        TaskKind::Blocking => text_before(bytes, at, b"\"blocking\""),
    };
    text_before(bytes, start, text)
}

// What a location has after the name of its file.
#[inline(always)]
fn place_before<const N: usize>(bytes: &mut [u8; N], at: usize, location: &Location) -> usize
    requires { (44 ≤ at) × (at ≤ N) }
    ensures text { Takes (drop result bytes.new)
        (34 ∷ 44 ∷ (compact_text (spec.number_data location.now.line)
        ++ 44 ∷ (compact_text (spec.number_data location.now.column) ++ 93 ∷ [])))
        (drop at bytes.old) }
    ensures place { (at ≤ result + 44) × (result ≤ N) }
{
    let at = text_before(bytes, at, b"]");
    let at = number_before(bytes, at, b",", location.column as u64);
    number_before(bytes, at, b"\",", location.line as u64)
}

#[inline(always)]
fn put_task_in<const N: usize>(
    out: &mut Vec<u8>,
    bytes: &mut [u8; N],
    later: bool,
    info: &TaskInfo,
) -> Result<(), AllocError>
    requires { length info.now.location.file + length info.now.location.file
        + (length info.now.name + length info.now.name + 136) ≤ N }
    ensures { OnOk result (Puts out.old.items out.new.items (comma_if later ++ compact_text (spec.info_data info.now))) }
{
    let at = text_before(bytes, N, b"\"}");
    let at = name_before(bytes, at, &info.name);
    let at = text_before(bytes, at, b",\"name\":\"");
    let at = place_before(bytes, at, &info.location);
    let at = name_before(bytes, at, &info.location.file);
    let at = text_before(bytes, at, b",\"loc\":[\"");
    let at = kind_before(bytes, at, b",\"kind\":", info.kind);
    let at = number_before(bytes, at, b"{\"id\":", info.id.value());
    let at = comma_before(bytes, at, later);
    put_short(out, bytes, at)?;
    Ok(())
}

#[cold]
#[inline(never)]
fn put_long_task(out: &mut Vec<u8>, later: bool, info: &TaskInfo) -> Result<(), AllocError>
    requires { (length info.now.location.file ≤ 1024) × (length info.now.name ≤ 1024) }
    ensures { OnOk result (Puts out.old.items out.new.items (comma_if later ++ compact_text (spec.info_data info.now))) }
{
    put_task_in(out, &mut [0; LONG_ROOM], later, info)
}

impl Written for TaskInfo {
    ghost use Rattle.tk_stream.specs.Spelling.{info_data};

    ghost spelling = { info_data };

    fn write(
        &self,
        out: &mut Vec<u8>,
        scratch: &mut [u8; ROOM],
        later: bool,
    ) -> Result<(), AllocError> {
        let (file, name) = (name_length(&self.location.file), name_length(&self.name));
        if file <= SHORT && name <= SHORT {
            put_task_in(out, scratch, later, self)
        } else {
            put_long_task(out, later, self)
        }
    }
}

#[inline(always)]
#[tactic(auto, unfolding(json::specs::Print::escape_byte))]
fn attr_kind_before<const N: usize>(bytes: &mut [u8; N], at: usize, kind: AttrKind) -> usize
    requires { (20 ≤ at) × (at ≤ N) }
    ensures text { Takes (drop result bytes.new) (44 ∷ (quoted (spec.attr_kind_text kind) ++ 93 ∷ [])) (drop at bytes.old) }
    ensures place { (at ≤ result + 20) × (result ≤ N) }
{
    match kind {
        AttrKind::U64 => text_before(bytes, at, b",\"u64\"]"),
        AttrKind::Bool => text_before(bytes, at, b",\"bool\"]"),
        AttrKind::I64 => text_before(bytes, at, b",\"i64\"]"),
    }
}

fn length_of_unit(unit: &Option<Name>) -> usize
    ensures length { result ≡ unit_length unit.now }
    ensures most { result ≤ 1024 }
{
    match unit {
        Some(unit) => name_length(unit),
        None => 0,
    }
}

#[inline(always)]
fn unit_before<const N: usize>(bytes: &mut [u8; N], at: usize, unit: &Option<Name>) -> usize
    requires { (unit_length unit.now + unit_length unit.now + 20 ≤ at) × (at ≤ N) }
    ensures text { Takes (drop result bytes.new) (compact_text (spec.optional_text unit.now)) (drop at bytes.old) }
    ensures place { (at ≤ result + (unit_length unit.now + unit_length unit.now + 20)) × (result ≤ N) }
{
    match unit {
        Some(unit) => {
            let at = text_before(bytes, at, b"\"");
            let at = name_before(bytes, at, unit);
            text_before(bytes, at, b"\"")
        }
        None => text_before(bytes, at, b"null"),
    }
}

#[inline(always)]
fn put_attr_in<const N: usize>(
    out: &mut Vec<u8>,
    bytes: &mut [u8; N],
    later: bool,
    info: &AttrInfo,
) -> Result<(), AllocError>
    requires { length info.now.name + length info.now.name + (unit_length info.now.unit + unit_length info.now.unit + 136) ≤ N }
    ensures { OnOk result (Puts out.old.items out.new.items (comma_if later ++ compact_text (spec.attr_data info.now))) }
{
    let at = attr_kind_before(bytes, N, info.kind);
    let at = unit_before(bytes, at, &info.unit);
    let at = text_before(bytes, at, b"\",");
    let at = name_before(bytes, at, &info.name);
    let at = text_before(bytes, at, b"[\"");
    let at = comma_before(bytes, at, later);
    put_short(out, bytes, at)?;
    Ok(())
}

#[cold]
#[inline(never)]
fn put_long_attr(out: &mut Vec<u8>, later: bool, info: &AttrInfo) -> Result<(), AllocError>
    requires { (length info.now.name ≤ 1024) × (unit_length info.now.unit ≤ 1024) }
    ensures { OnOk result (Puts out.old.items out.new.items (comma_if later ++ compact_text (spec.attr_data info.now))) }
{
    put_attr_in(out, &mut [0; LONG_ROOM], later, info)
}

impl Written for AttrInfo {
    ghost use Rattle.tk_stream.specs.Spelling.{attr_data};

    ghost spelling = { attr_data };

    fn write(
        &self,
        out: &mut Vec<u8>,
        scratch: &mut [u8; ROOM],
        later: bool,
    ) -> Result<(), AllocError> {
        let (name, unit) = (name_length(&self.name), length_of_unit(&self.unit));
        if name <= SHORT && unit <= SHORT {
            put_attr_in(out, scratch, later, self)
        } else {
            put_long_attr(out, later, self)
        }
    }
}

// The attributes of an item, with which its info begins. The bracket that closes them is left to the next text.
fn put_attrs(
    out: &mut Vec<u8>,
    scratch: &mut [u8; ROOM],
    later: bool,
    attrs: &[AttrInfo],
) -> Result<(), AllocError>
    ensures { OnOk result (PutsOpen out.old.items out.new.items
        (comma_if later ++ (codes "{\"attrs\":[" ++ items_text false (items_of (map spec.attr_data attrs.now))))) }
{
    put_opening(out, later, b"{\"attrs\":[", b",{\"attrs\":[")?;
    put_items(out, scratch, attrs)?;
    Ok(())
}

fn resource_parent(parent: Option<ResourceId>) -> Option<u64>
    ensures { result ≡ parent }
{
    match parent {
        Some(id) => Some(id.value()),
        None => None,
    }
}

fn op_parent(parent: Option<AsyncOpId>) -> Option<u64>
    ensures { result ≡ parent }
{
    match parent {
        Some(id) => Some(id.value()),
        None => None,
    }
}

// What stands after a resource's attributes, with the bracket that closes them.
#[inline(always)]
fn put_resource_in<const N: usize>(
    out: &mut Vec<u8>,
    bytes: &mut [u8; N],
    info: &ResourceInfo,
) -> Result<(), AllocError>
    requires { length info.now.kind + length info.now.kind
        + (length info.now.location.file + length info.now.location.file
        + (length info.now.concrete + length info.now.concrete + 136)) ≤ N }
    ensures { OnOk result (Puts out.old.items out.new.items (93 ∷ members_text true (resource_after_attrs info.now))) }
{
    let at = text_before(bytes, N, b"\"}");
    let at = name_before(bytes, at, &info.concrete);
    let at = text_before(bytes, at, b",\"type\":\"");
    let at = optional_before(bytes, at, b",\"parent\":", resource_parent(info.parent));
    let at = place_before(bytes, at, &info.location);
    let at = name_before(bytes, at, &info.location.file);
    let at = text_before(bytes, at, b"\",\"loc\":[\"");
    let at = name_before(bytes, at, &info.kind);
    let at = text_before(bytes, at, b",\"kind\":\"");
    let at = number_before(bytes, at, b"],\"id\":", info.id.value());
    put_short(out, bytes, at)?;
    Ok(())
}

#[cold]
#[inline(never)]
fn put_long_resource(out: &mut Vec<u8>, info: &ResourceInfo) -> Result<(), AllocError>
    requires { (length info.now.kind ≤ 1024) × (length info.now.location.file ≤ 1024) × (length info.now.concrete ≤ 1024) }
    ensures { OnOk result (Puts out.old.items out.new.items (93 ∷ members_text true (resource_after_attrs info.now))) }
{
    put_resource_in(out, &mut [0; LONG_ROOM], info)
}

#[inline(always)]
fn put_resource(
    out: &mut Vec<u8>,
    scratch: &mut [u8; ROOM],
    info: &ResourceInfo,
) -> Result<(), AllocError>
    ensures { OnOk result (Puts out.old.items out.new.items (93 ∷ members_text true (resource_after_attrs info.now))) }
{
    let (kind, file) = (name_length(&info.kind), name_length(&info.location.file));
    let concrete = name_length(&info.concrete);
    if kind <= SHORT && file <= SHORT && concrete <= SHORT {
        put_resource_in(out, scratch, info)
    } else {
        put_long_resource(out, info)
    }
}

impl Written for ResourceInfo {
    ghost use Rattle.tk_stream.specs.Spelling.{resource_data};

    ghost spelling = { resource_data };

    fn write(
        &self,
        out: &mut Vec<u8>,
        scratch: &mut [u8; ROOM],
        later: bool,
    ) -> Result<(), AllocError> {
        put_attrs(out, scratch, later, self.attrs.as_slice())?;
        put_resource(out, scratch, self)?;
        Ok(())
    }
}

// What stands after an operation's attributes, with the bracket that closes them.
#[inline(always)]
fn put_op_in<const N: usize>(
    out: &mut Vec<u8>,
    bytes: &mut [u8; N],
    info: &OpInfo,
) -> Result<(), AllocError>
    requires { length info.now.source + length info.now.source + 136 ≤ N }
    ensures { OnOk result (Puts out.old.items out.new.items (93 ∷ members_text true (op_after_attrs info.now))) }
{
    let at = text_before(bytes, N, b"\"}");
    let at = name_before(bytes, at, &info.source);
    let at = text_before(bytes, at, b",\"source\":\"");
    let at = number_before(bytes, at, b",\"resource\":", info.resource.value());
    let at = optional_before(bytes, at, b",\"parent\":", op_parent(info.parent));
    let at = number_before(bytes, at, b"],\"id\":", info.id.value());
    put_short(out, bytes, at)?;
    Ok(())
}

#[cold]
#[inline(never)]
fn put_long_op(out: &mut Vec<u8>, info: &OpInfo) -> Result<(), AllocError>
    requires { length info.now.source ≤ 1024 }
    ensures { OnOk result (Puts out.old.items out.new.items (93 ∷ members_text true (op_after_attrs info.now))) }
{
    put_op_in(out, &mut [0; LONG_ROOM], info)
}

#[inline(always)]
fn put_op(out: &mut Vec<u8>, scratch: &mut [u8; ROOM], info: &OpInfo) -> Result<(), AllocError>
    ensures { OnOk result (Puts out.old.items out.new.items (93 ∷ members_text true (op_after_attrs info.now))) }
{
    if name_length(&info.source) <= SHORT {
        put_op_in(out, scratch, info)
    } else {
        put_long_op(out, info)
    }
}

impl Written for OpInfo {
    ghost use Rattle.tk_stream.specs.Spelling.{op_data};

    ghost spelling = { op_data };

    fn write(
        &self,
        out: &mut Vec<u8>,
        scratch: &mut [u8; ROOM],
        later: bool,
    ) -> Result<(), AllocError> {
        put_attrs(out, scratch, later, self.attrs.as_slice())?;
        put_op(out, scratch, self)?;
        Ok(())
    }
}
