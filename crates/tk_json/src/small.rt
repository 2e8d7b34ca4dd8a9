//! Values of which a few levels are kept, and no wide array or object.
ghost use Rattle.std.specs.Prelude.{◌≡◌, ◌<◌, length, Some, None, Err, IfOk, OnOk};
ghost use Rattle.json.specs.Json.{parse_map};
ghost use Rattle.serde_json.specs.Data as spec;
ghost use Rattle.serde_json.specs.Data.{no_members};
ghost use Rattle.serde_json.specs.Events.{items_len, members_len};
ghost use Rattle.serde_json.specs.View.{view};
ghost use Rattle.tk_json.specs.Small.{small_read, small_items, small_members, array_within, object_within};
ghost use Rattle.tk_json.specs.Values.{value_read, items_read, members_read};

use crate::fault::JsonFault;
use crate::number::number_in;
use crate::passing::{pass_items, pass_members};
use json::{Reader, Token};
use serde_json::{Map, Value};
use std::alloc::Global;

const WIDEST_ARRAY: usize = 14;

const WIDEST_OBJECT: usize = 17;

// What stands for an array or an object that isn't kept.
fn nothing(alloc: Global) -> Value
    ensures { view result ≡ spec.object no_members }
{
    Value::Object(Map::new(alloc))
}

/// The value that is next, in which arrays and objects nest no deeper than `depth`. Of it so many levels are kept: an array of more
/// than 14 items, an object of more than 17 members, and each of them that lies deeper, is an empty object. [`crate::laws`] says what
/// the value still tells.
///
/// - `BadJson`: no such value comes next.
/// - `Memory`: there is no memory for what is kept.
///
/// The reader then stands anywhere further on.
#[cycle(small)]
#[inline(always)]
pub fn read_small(
    alloc: Global,
    reader: &mut Reader<'_>,
    depth: usize,
    levels: usize,
) -> Result<Value, JsonFault>
    ensures read { IfOk result (λ v. small_read levels depth reader.old ≡ Some (view v, reader.new)) }
    ensures shorter { OnOk result (length reader.new < length reader.old) }
    ensures refused { result ≡ Err JsonFault.BadJson → value_read depth reader.old ≡ None }
{
    let Some(token) = reader.next() else {
        return Err(JsonFault::BadJson);
    };
    match token {
        Token::String(text) => Ok(Value::String(String::from_str(alloc, text)?)),
        Token::Number(text) => match number_in(text) {
            Some(number) => Ok(Value::Number(number)),
            None => Err(JsonFault::BadJson),
        },
        Token::Bool(flag) => Ok(Value::Bool(flag)),
        Token::Null => Ok(Value::Null),
        Token::EndObject | Token::EndArray | Token::Key(_) | Token::Bad => Err(JsonFault::BadJson),
        Token::BeginArray => {
            if depth == 0 {
                return Err(JsonFault::BadJson);
            }
            if levels == 0 {
                pass_items(reader, depth - 1)?;
                return Ok(nothing(alloc));
            }
            read_items(alloc, reader, depth - 1, levels - 1)
        }
        Token::BeginObject => {
            if depth == 0 {
                return Err(JsonFault::BadJson);
            }
            if levels == 0 {
                pass_members(reader, depth - 1)?;
                return Ok(nothing(alloc));
            }
            read_members(alloc, reader, depth - 1, levels - 1)
        }
    }
}

// The array of the items that are left.
#[cycle(small)]
#[inline(never)]
fn read_items(
    alloc: Global,
    reader: &mut Reader<'_>,
    depth: usize,
    levels: usize,
) -> Result<Value, JsonFault>
    ensures read { IfOk result (λ v. parse_map (λ ds. array_within (items_len ds) (small_items ds levels)) (items_read depth reader.old)
        ≡ Some (view v, reader.new)) }
    ensures shorter { OnOk result (length reader.new < length reader.old) }
    ensures refused { result ≡ Err JsonFault.BadJson → items_read depth reader.old ≡ None }
{
    let mut found = Vec::new(alloc);
    'items: while !reader.take_end_array() {
        let item = read_small(alloc, reader, depth, levels)?;
        found.push(item)?;
        if found.len() > WIDEST_ARRAY {
            pass_items(reader, depth)?;
            return Ok(nothing(alloc));
        }
    }
    Ok(Value::Array(found))
}

// The object of the members that are left.
#[cycle(small)]
#[inline(never)]
fn read_members(
    alloc: Global,
    reader: &mut Reader<'_>,
    depth: usize,
    levels: usize,
) -> Result<Value, JsonFault>
    ensures read { IfOk result (λ v. parse_map (λ ms. object_within (members_len ms) (small_members ms levels)) (members_read no_members depth reader.old)
        ≡ Some (view v, reader.new)) }
    ensures shorter { OnOk result (length reader.new < length reader.old) }
    ensures refused { result ≡ Err JsonFault.BadJson → members_read no_members depth reader.old ≡ None }
{
    let mut found = Map::new(alloc);
    'members: while let Some(name) = reader.next_key()? {
        let key = String::from_str(alloc, name)?;
        let member = read_small(alloc, reader, depth, levels)?;
        drop(found.insert(key, member)?);
        if found.len() > WIDEST_OBJECT {
            pass_members(reader, depth)?;
            return Ok(nothing(alloc));
        }
    }
    Ok(Value::Object(found))
}
