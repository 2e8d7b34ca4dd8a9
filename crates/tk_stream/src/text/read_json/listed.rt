//! Lists of a line, read item by item.
ghost use Rattle.std.specs.Prelude.{◌≡◌, ◌<◌, length, Some, None, Err, IfOk, IfErr, OnOk, option_map};
ghost use Rattle.json.specs.Json.{parse_map};
ghost use Rattle.serde_json.specs.View.{view};
ghost use Rattle.tk_json.specs.Values.{value_read, items_read};
ghost use Rattle.tk_stream.specs.Reading.{each_of, values_of};
ghost use Rattle.tk_stream.specs.Spelled.{listed};

use crate::error::LineError;
use crate::text::read_json::shaped::Shaped;
use json::{Reader, Token};
use serde_json::Value;
use std::alloc::Global;
use tk_json::{JsonFault, pass_items, pass_token, read_small};

// So many levels of an item are read: a row, its `attrs`, and a signed value in them.
const LEVELS: usize = 3;

/// A list of a line, as far as its keys were read. `None` where no array stands there, or one with an item of another shape.
pub(crate) type Listed<T> = Option<Vec<T>>;

// What a value is, if it is of the shape.
fn item_of<T: Shaped>(alloc: Global, value: &Value) -> Result<Option<T>, JsonFault>
    ensures shape { IfOk result (λ o. o ≡ T.shape (view value.now)) }
    ensures memory { IfErr result (λ e. e ≡ JsonFault.Memory) }
{
    match T::of_value(alloc, value) {
        Ok(item) => Ok(Some(item)),
        Err(LineError::BadShape) => Ok(None),
        Err(_) => Err(JsonFault::Memory),
    }
}

// What the value that is next is, if it is of the shape.
fn read_item<T: Shaped>(
    alloc: Global,
    reader: &mut Reader<'_>,
    depth: usize,
) -> Result<Option<T>, JsonFault>
    ensures read { IfOk result (λ o. parse_map T.shape (value_read depth reader.old) ≡ Some (o, reader.new)) }
    ensures shorter { OnOk result (length reader.new < length reader.old) }
    ensures refused { result ≡ Err JsonFault.BadJson → value_read depth reader.old ≡ None }
{
    let value = read_small(alloc, reader, depth, LEVELS)?;
    item_of(alloc, &value)
}

// The items of an array that are left, if each is of the shape. After one that isn't, the rest is passed.
fn read_items<T: Shaped>(
    alloc: Global,
    reader: &mut Reader<'_>,
    depth: usize,
) -> Result<Option<Vec<T>>, JsonFault>
    ensures read { IfOk result (λ o. parse_map (λ ds. each_of T.shape (values_of ds)) (items_read depth reader.old)
        ≡ Some (option_map (λ v. v.items) o, reader.new)) }
    ensures refused { result ≡ Err JsonFault.BadJson → items_read depth reader.old ≡ None }
{
    let mut found = Vec::new(alloc);
    'items: while !reader.take_end_array() {
        let Some(item) = read_item(alloc, reader, depth)? else {
            pass_items(reader, depth)?;
            return Ok(None);
        };
        found.push(item)?;
    }
    Ok(Some(found))
}

/// Reads the list that is next. What the list was before is dropped first.
pub(crate) fn read_list<T: Shaped>(
    alloc: Global,
    reader: &mut Reader<'_>,
    depth: usize,
    list: &mut Listed<T>,
) -> Result<(), JsonFault>
    ensures read { OnOk result (parse_map (listed T.shape) (value_read depth reader.old) ≡ Some (option_map (λ v. v.items) list.new, reader.new)) }
    ensures refused { result ≡ Err JsonFault.BadJson → value_read depth reader.old ≡ None }
{
    *list = None;
    let Some(token) = reader.next() else {
        return Err(JsonFault::BadJson);
    };
    match token {
        Token::BeginArray => {
            if depth == 0 {
                return Err(JsonFault::BadJson);
            }
            *list = read_items(alloc, reader, depth - 1)?;
        }
        _ => pass_token(reader, token, depth)?,
    }
    Ok(())
}
