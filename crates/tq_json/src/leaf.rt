//! Values that hold no others. A value of another kind is taken whole.
ghost use Rattle.std.specs.Prelude.{◌≡◌, ◌<◌, length, None, Err, IfOk, OnOk};
ghost use Rattle.serde_json.specs.Read.{number_of};
ghost use Rattle.tq_json.specs.Next.{next, Found, IsTextOf, IsNumberOf, IsFlagOf, IsWhole};

use crate::fault::NotRead;
use crate::number::{is_in_range, whole};
use crate::passing::{pass_rest, take_token};
use crate::reader::Reader;
use json::Token;

/// Takes the next value: its text, where it is one.
#[inline(always)]
pub fn take_text<'a>(reader: &mut Reader<'a>, depth: usize) -> Result<Option<&'a str>, NotRead>
    ensures ok { IfOk result (Found IsTextOf (next depth reader.old) reader.new) }
    ensures err { result ≡ Err NotRead.NotJson → next depth reader.old ≡ None }
    ensures shorter { OnOk result (length reader.new < length reader.old) }
{
    if let Some(text) = reader.take_string() {
        return Ok(Some(text));
    }
    other_text(reader, depth)
}

/// The same of any value.
#[inline(never)]
fn other_text<'a>(reader: &mut Reader<'a>, depth: usize) -> Result<Option<&'a str>, NotRead>
    ensures ok { IfOk result (Found IsTextOf (next depth reader.old) reader.new) }
    ensures err { result ≡ Err NotRead.NotJson → next depth reader.old ≡ None }
    ensures shorter { OnOk result (length reader.new < length reader.old) }
{
    let token = take_token(reader)?;
    let Token::String(text) = token else {
        pass_rest(reader, token, depth)?;
        return Ok(None);
    };
    Ok(Some(text))
}

/// Takes the next value: the number of 64 bits that it is, where it is one, written without a point, an exponent or a sign.
#[inline(always)]
pub fn take_whole(reader: &mut Reader<'_>, depth: usize) -> Result<Option<u64>, NotRead>
    ensures ok { IfOk result (Found IsNumberOf (next depth reader.old) reader.new) }
    ensures err { result ≡ Err NotRead.NotJson → next depth reader.old ≡ None }
    ensures shorter { OnOk result (length reader.new < length reader.old) }
{
    if let Some(number) = reader.take_digits() {
        return Ok(Some(number));
    }
    other_whole(reader, depth)
}

/// The same of any value.
#[inline(never)]
fn other_whole(reader: &mut Reader<'_>, depth: usize) -> Result<Option<u64>, NotRead>
    ensures ok { IfOk result (Found IsNumberOf (next depth reader.old) reader.new) }
    ensures err { result ≡ Err NotRead.NotJson → next depth reader.old ≡ None }
    ensures shorter { OnOk result (length reader.new < length reader.old) }
{
    let token = take_token(reader)?;
    let Token::Number(text) = token else {
        pass_rest(reader, token, depth)?;
        return Ok(None);
    };
    whole_in(text)
}

/// Takes the next value: whether it is true or false, where it is one of both.
pub fn take_flag(reader: &mut Reader<'_>, depth: usize) -> Result<Option<bool>, NotRead>
    ensures ok { IfOk result (Found IsFlagOf (next depth reader.old) reader.new) }
    ensures err { result ≡ Err NotRead.NotJson → next depth reader.old ≡ None }
    ensures shorter { OnOk result (length reader.new < length reader.old) }
{
    let token = take_token(reader)?;
    let Token::Bool(flag) = token else {
        pass_rest(reader, token, depth)?;
        return Ok(None);
    };
    Ok(Some(flag))
}

/// The number of 64 bits that the text writes: none where it writes another number, which has to be in range.
#[inline(always)]
fn whole_in(text: &str) -> Result<Option<u64>, NotRead>
    ensures ok { IfOk result (λ number. IsWhole number text.now) }
    ensures err { result ≡ Err NotRead.NotJson → number_of text.now ≡ None }
{
    if let Some(number) = whole(text) {
        return Ok(Some(number));
    }
    if !is_in_range(text) {
        return Err(NotRead::NotJson);
    }
    Ok(None)
}
