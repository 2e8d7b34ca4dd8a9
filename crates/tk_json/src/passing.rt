//! Values that are checked, of which nothing is kept.
ghost use Rattle.std.specs.Prelude.{◌≡◌, ◌<◌, ◌≤◌, ◌∷◌, length, Some, None, OnOk, OnErr};
ghost use Rattle.json.specs.Reads.{token_of};
ghost use Rattle.serde_json.specs.Data.{Members};
ghost use Rattle.tk_json.specs.Values.{value_read, items_read, members_read, rest};

use crate::number::number_in;
use json::{Invalid, Reader, Token};

/// Passes the value that is next, in which arrays and objects nest no deeper than `depth`. It takes no memory.
///
/// `Invalid` where no such value comes next; the reader then stands anywhere further on.
#[cycle(pass)]
#[inline(always)]
pub fn pass(reader: &mut Reader<'_>, depth: usize) -> Result<(), Invalid>
    ensures passed { OnOk result (rest (value_read depth reader.old) ≡ Some reader.new) }
    ensures shorter { OnOk result (length reader.new < length reader.old) }
    ensures refused { OnErr result (value_read depth reader.old ≡ None) }
{
    let Some(token) = reader.next() else {
        return Err(Invalid);
    };
    pass_token(reader, token, depth)
}

/// Passes the rest of the value that a token begins. It takes no memory.
///
/// `Invalid` where no value goes on so; the reader then stands anywhere further on.
#[cycle(pass)]
pub fn pass_token(reader: &mut Reader<'_>, token: Token<'_>, depth: usize) -> Result<(), Invalid>
    ensures passed { OnOk result (rest (value_read depth (token_of token.entry ∷ reader.old)) ≡ Some reader.new) }
    ensures shorter { OnOk result (length reader.new ≤ length reader.old) }
    ensures refused { OnErr result (value_read depth (token_of token.entry ∷ reader.old) ≡ None) }
{
    match token {
        Token::String(_text) => Ok(()),
        Token::Bool(_flag) => Ok(()),
        Token::Null => Ok(()),
        Token::Number(text) => match number_in(text) {
            Some(_) => Ok(()),
            None => Err(Invalid),
        },
        Token::EndObject | Token::EndArray | Token::Key(_) | Token::Bad => Err(Invalid),
        Token::BeginArray => {
            if depth == 0 {
                return Err(Invalid);
            }
            pass_items(reader, depth - 1)
        }
        Token::BeginObject => {
            if depth == 0 {
                return Err(Invalid);
            }
            pass_members(reader, depth - 1)
        }
    }
}

/// Passes the items of an array that are left, each nesting no deeper than `depth`, and its bracket. It takes no memory.
///
/// `Invalid` where no array ends so; the reader then stands anywhere further on.
#[cycle(pass)]
#[inline(never)]
pub fn pass_items(reader: &mut Reader<'_>, depth: usize) -> Result<(), Invalid>
    ensures passed { OnOk result (rest (items_read depth reader.old) ≡ Some reader.new) }
    ensures shorter { OnOk result (length reader.new < length reader.old) }
    ensures refused { OnErr result (items_read depth reader.old ≡ None) }
{
    'items: while !reader.take_end_array() {
        pass(reader, depth)?;
    }
    Ok(())
}

/// Passes the members of an object that are left, each nesting no deeper than `depth`, and its brace. It takes no memory.
///
/// `Invalid` where no object ends so; the reader then stands anywhere further on.
#[cycle(pass)]
#[inline(never)]
pub fn pass_members(reader: &mut Reader<'_>, depth: usize) -> Result<(), Invalid>
    ensures passed { OnOk result ((held : Members) → rest (members_read held depth reader.old) ≡ Some reader.new) }
    ensures shorter { OnOk result (length reader.new < length reader.old) }
    ensures refused { OnErr result ((held : Members) → members_read held depth reader.old ≡ None) }
{
    'members: while let Some(_) = reader.next_key()? {
        pass(reader, depth)?;
    }
    Ok(())
}
