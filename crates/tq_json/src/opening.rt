//! Arrays and objects, opened.

ghost use Rattle.std.specs.{Prelude.{◌≡◌, ◌<◌, ◌-◌, length, None, Err, IfOk, OnOk}, Bool.MatchBool};
ghost use Rattle.json.specs.Json.{parse_map};
ghost use Rattle.serde_json.specs.{Data.{array, object}, Find.as_array};
ghost use Rattle.tq_json.specs.Next.{next, next_items, next_members, Found, HasNoNames};

use crate::fault::NotRead;
use crate::passing::{pass_rest, take_token};
use crate::reader::Reader;
use json::Token;

/// Takes the bracket of an array, where that is the next value; takes any other value whole.
#[inline(always)]
#[tactic(auto, using(crate::proofs::Nexts::next_begin_array))]
pub fn open_array(reader: &mut Reader<'_>, depth: usize) -> Result<bool, NotRead>
    ensures ok { IfOk result (λ opened. MatchBool opened
        ((0 < depth)
        × (next depth reader.old ≡ parse_map array (next_items (depth - 1) reader.new)))
        (Found (λ d b. as_array d ≡ None) (next depth reader.old) reader.new opened)) }
    ensures err { result ≡ Err NotRead.NotJson → next depth reader.old ≡ None }
    ensures shorter { OnOk result (length reader.new < length reader.old) }
{
    if depth > 0 && reader.take_begin_array() {
        return Ok(true);
    }
    other_array(reader, depth)
}

/// The same of any value.
#[inline(never)]
fn other_array(reader: &mut Reader<'_>, depth: usize) -> Result<bool, NotRead>
    ensures ok { IfOk result (λ opened. MatchBool opened
        ((0 < depth)
        × (next depth reader.old ≡ parse_map array (next_items (depth - 1) reader.new)))
        (Found (λ d b. as_array d ≡ None) (next depth reader.old) reader.new opened)) }
    ensures err { result ≡ Err NotRead.NotJson → next depth reader.old ≡ None }
    ensures shorter { OnOk result (length reader.new < length reader.old) }
{
    let token = take_token(reader)?;
    let Token::BeginArray = token else {
        pass_rest(reader, token, depth)?;
        return Ok(false);
    };
    if depth == 0 {
        return Err(NotRead::NotJson);
    }
    Ok(true)
}

/// Takes the brace of an object, where that is the next value; takes any other value whole.
#[inline(always)]
#[tactic(auto, using(crate::proofs::Nexts::next_begin_object))]
pub fn open_object(reader: &mut Reader<'_>, depth: usize) -> Result<bool, NotRead>
    ensures ok { IfOk result (λ opened. MatchBool opened
        ((0 < depth)
        × (next depth reader.old ≡ parse_map object (next_members (depth - 1) reader.new)))
        (Found (λ d b. HasNoNames d) (next depth reader.old) reader.new opened)) }
    ensures err { result ≡ Err NotRead.NotJson → next depth reader.old ≡ None }
    ensures shorter { OnOk result (length reader.new < length reader.old) }
{
    if depth > 0 && reader.take_begin_object() {
        return Ok(true);
    }
    other_object(reader, depth)
}

/// The same of any value.
#[inline(never)]
fn other_object(reader: &mut Reader<'_>, depth: usize) -> Result<bool, NotRead>
    ensures ok { IfOk result (λ opened. MatchBool opened
        ((0 < depth)
        × (next depth reader.old ≡ parse_map object (next_members (depth - 1) reader.new)))
        (Found (λ d b. HasNoNames d) (next depth reader.old) reader.new opened)) }
    ensures err { result ≡ Err NotRead.NotJson → next depth reader.old ≡ None }
    ensures shorter { OnOk result (length reader.new < length reader.old) }
{
    let token = take_token(reader)?;
    let Token::BeginObject = token else {
        pass_rest(reader, token, depth)?;
        return Ok(false);
    };
    if depth == 0 {
        return Err(NotRead::NotJson);
    }
    Ok(true)
}
