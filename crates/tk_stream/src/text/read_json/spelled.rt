//! Lines of any spelling, read key by key.
ghost use Rattle.std.specs.Prelude.{◌≡◌, [], Some, None, Err, IfOk, OnOk, MatchBool};
ghost use Rattle.json.specs.Json.{parse_map};
ghost use Rattle.serde_json.specs.Data as spec;
ghost use Rattle.serde_json.specs.Data.{Members, no_members, put};
ghost use Rattle.serde_json.specs.View.{view, members_view};
ghost use Rattle.tk_json.specs.Values.{value_read, members_read};
ghost use Rattle.tk_stream.specs.Outcome.{Answers};
ghost use Rattle.tk_stream.specs.Reading.{line_of, line_of_text};
ghost use Rattle.tk_stream.specs.Spelled.{lists_in, lists_put, own_members, stands_for};

use crate::error::LineError;
use crate::line::Line;
use crate::text::read_json::line_lists::LineLists;
use json::{Reader, Scratch, Token};
use serde_json::{Map, Value};
use std::alloc::Global;
use tk_json::{JsonFault, pass_members, pass_token, read_small};

// Arrays and objects nest no deeper than this in what `serde_json` reads.
const DEEPEST: usize = 127;

// So many levels are kept of a value that is no list of the line: `dropped` has one.
const LEVELS: usize = 3;

// A line has no more keys than this.
const MOST_KEYS: usize = 16;

// Reads the value of a key: a list of the line to `lists`, in whose place a null stands, and of any other what is kept of it.
fn read_own(
    alloc: Global,
    reader: &mut Reader<'_>,
    depth: usize,
    key: &str,
    lists: &mut LineLists,
) -> Result<Value, JsonFault>
    ensures read { IfOk result (λ v. (d : spec.Data) × (value_read depth reader.old ≡ Some (d, reader.new))
        × (lists.new ≡ lists_put key.now d lists.old) × (view v ≡ stands_for key.now d)) }
    ensures refused { result ≡ Err JsonFault.BadJson → value_read depth reader.old ≡ None }
{
    if lists.read_at(alloc, reader, depth, key)? {
        Ok(Value::Null)
    } else {
        read_small(alloc, reader, depth, LEVELS)
    }
}

// Reads the value of a key to `lists` and to the line's own object.
fn read_member(
    alloc: Global,
    reader: &mut Reader<'_>,
    depth: usize,
    name: &str,
    own: &mut Map<String, Value>,
    lists: &mut LineLists,
) -> Result<(), JsonFault>
    ensures read { OnOk result ((d : spec.Data) × (value_read depth reader.old ≡ Some (d, reader.new))
        × (lists.new ≡ lists_put name.now d lists.old)
        × (members_view own.new.entries ≡ put name.now (stands_for name.now d) (members_view own.old.entries))) }
    ensures refused { result ≡ Err JsonFault.BadJson → value_read depth reader.old ≡ None }
{
    let key = String::from_str(alloc, name)?;
    let value = read_own(alloc, reader, depth, name, lists)?;
    drop(own.insert(key, value)?);
    Ok(())
}

// Reads the members that are left of an object. Where there are more than a line has, the rest is passed, and the answer is `false`.
fn read_members(
    alloc: Global,
    reader: &mut Reader<'_>,
    depth: usize,
    own: &mut Map<String, Value>,
    lists: &mut LineLists,
) -> Result<bool, JsonFault>
    requires own { own.old.entries ≡ [] }
    requires lists { lists.old ≡ lists_in no_members }
    ensures read { IfOk result (λ whole. MatchBool whole
        ((held : Members) × (members_read no_members depth reader.old ≡ Some (held, reader.new))
        × (lists.new ≡ lists_in held) × (members_view own.new.entries ≡ own_members held))
        (parse_map (λ ms. line_of (spec.object ms)) (members_read no_members depth reader.old) ≡ Some (None, reader.new))) }
    ensures refused { result ≡ Err JsonFault.BadJson → members_read no_members depth reader.old ≡ None }
{
    'members: while let Some(name) = reader.next_key()? {
        read_member(alloc, reader, depth, name, own, lists)?;
        if own.len() > MOST_KEYS {
            pass_members(reader, depth)?;
            return Ok(false);
        }
    }
    Ok(true)
}

// The line of the members that are left of an object, if they are one.
fn read_object(
    alloc: Global,
    reader: &mut Reader<'_>,
    depth: usize,
) -> Result<Option<Line>, JsonFault>
    ensures read { IfOk result (λ o. parse_map (λ ms. line_of (spec.object ms)) (members_read no_members depth reader.old) ≡ Some (o, reader.new)) }
    ensures refused { result ≡ Err JsonFault.BadJson → members_read no_members depth reader.old ≡ None }
{
    let mut own = Map::new(alloc);
    let mut lists = LineLists::new();
    if !read_members(alloc, reader, depth, &mut own, &mut lists)? {
        return Ok(None);
    }
    Ok(Line::of_lists(&Value::Object(own), lists))
}

// The line of the value that is next, if it is one.
fn read_value(alloc: Global, reader: &mut Reader<'_>) -> Result<Option<Line>, JsonFault>
    ensures read { IfOk result (λ o. parse_map line_of (value_read 127 reader.old) ≡ Some (o, reader.new)) }
    ensures refused { result ≡ Err JsonFault.BadJson → value_read 127 reader.old ≡ None }
{
    let Some(token) = reader.next() else {
        return Err(JsonFault::BadJson);
    };
    match token {
        Token::BeginObject => read_object(alloc, reader, DEEPEST - 1),
        _ => {
            pass_token(reader, token, DEEPEST)?;
            Ok(None)
        }
    }
}

/// The line of a text in any spelling. It holds the text once more, the line's lists, and a few values beside them.
pub(crate) fn read_spelled(alloc: Global, bytes: &[u8]) -> Result<Line, LineError>
    ensures { Answers (λ line. line) result (line_of_text bytes.now) }
{
    let Ok(text) = str::from_utf8(bytes) else {
        return Err(LineError::BadJson);
    };
    let mut scratch = Scratch::new(alloc);
    let mut reader = Reader::new(text, &mut scratch)?;
    let found = read_value(alloc, &mut reader)?;
    if let Some(_) = reader.next() {
        return Err(LineError::BadJson);
    }
    match found {
        Some(line) => Ok(line),
        None => Err(LineError::BadShape),
    }
}
