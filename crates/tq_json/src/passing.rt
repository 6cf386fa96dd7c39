//! Passing over values: nothing is kept, and each number has to be in range.
ghost use Rattle.std.specs.Prelude.{◌≡◌, ◌≤◌, ◌<◌, ◌∷◌, ℕ, ⊤, length, Some, None, Err, IfOk, OnOk};
ghost use Rattle.std.specs.Bool.{MatchBool, OnTrue};
ghost use Rattle.json.specs.Reads.{token_of};
ghost use Rattle.tq_json.specs.Next.{next, next_items, Found, next_from, tokens_behind, Begins, BeginsNone, Ends, GoesOn, Fails};

use crate::fault::NotRead;
use crate::number::is_in_range;
use crate::reader::Reader;
use json::Token;

/// The most that are open at once inside of one: a bit for each, and for the one.
const MOST_INSIDE: usize = 127;

/// Takes the next value.
pub fn pass_over(reader: &mut Reader<'_>, depth: usize) -> Result<(), NotRead>
    ensures ok { IfOk result (Found (λ d u. ⊤) (next depth reader.old) reader.new) }
    ensures err { result ≡ Err NotRead.NotJson → next depth reader.old ≡ None }
    ensures shorter { OnOk result (length reader.new < length reader.old) }
{
    let token = take_token(reader)?;
    pass_rest(reader, token, depth)
}

/// Takes the next token.
#[inline(always)]
#[tactic(auto, using(crate::proofs::Nexts::next_nil))]
pub(crate) fn take_token<'a>(reader: &mut Reader<'a>) -> Result<Token<'a>, NotRead>
    ensures ok { IfOk result (λ token. reader.old ≡ token_of token ∷ reader.new) }
    ensures err { result ≡ Err NotRead.NotJson
        → (depth : ℕ) → next depth reader.old ≡ None }
    ensures shorter { OnOk result (length reader.new < length reader.old) }
{
    let Some(token) = reader.next()? else {
        return Err(NotRead::NotJson);
    };
    Ok(token)
}

/// Takes the rest of the value that the token begins.
pub(crate) fn pass_rest(
    reader: &mut Reader<'_>,
    token: Token<'_>,
    depth: usize,
) -> Result<(), NotRead>
    ensures ok { IfOk result
        (Found (λ d u. ⊤) (next_from depth token.entry reader.old) reader.new) }
    ensures err { result ≡ Err NotRead.NotJson → next_from depth token.entry reader.old ≡ None }
    ensures shorter { OnOk result (length reader.new ≤ length reader.old) }
{
    let Some(kind) = opening_kind(token)? else {
        return Ok(());
    };
    if depth == 0 {
        return Err(NotRead::NotJson);
    }
    pass_open(reader, kind, depth - 1)
}

/// Takes the items of an array that are left, with its bracket.
pub fn pass_items(reader: &mut Reader<'_>, depth: usize) -> Result<(), NotRead>
    ensures ok { IfOk result (Found (λ d u. ⊤) (next_items depth reader.old) reader.new) }
    ensures err { result ≡ Err NotRead.NotJson → next_items depth reader.old ≡ None }
    ensures shorter { OnOk result (length reader.new ≤ length reader.old) }
{
    pass_open(reader, false, depth)
}

/// Takes what is left of an array that is open, or of an object (`true`). It calls itself only where more are open in it than
/// there are bits.
#[inline(never)]
fn pass_open(reader: &mut Reader<'_>, kind: bool, depth: usize) -> Result<(), NotRead>
    ensures ok { IfOk result (λ u. tokens_behind kind depth reader.old ≡ Some reader.new) }
    ensures err { result ≡ Err NotRead.NotJson → tokens_behind kind depth reader.old ≡ None }
    ensures shorter { OnOk result (length reader.new < length reader.old) }
{
    let mut kinds = u128::from(kind);
    let mut inside: usize = 0;
    'tokens: loop {
        if take_end(reader, kinds % 2 == 1)? {
            if inside == 0 {
                return Ok(());
            }
            kinds /= 2;
            inside -= 1;
            continue;
        }
        let token = take_token(reader)?;
        let Some(kind) = opening_kind(token)? else {
            continue;
        };
        if inside == depth {
            return Err(NotRead::NotJson);
        }
        if inside == MOST_INSIDE {
            pass_open(reader, kind, depth - inside - 1)?;
        } else {
            kinds = kinds * 2 + u128::from(kind);
            inside += 1;
        }
    }
}

/// Takes the end of an array that is open, or of an object (`true`), where that is next, and else the key, if one is wanted.
#[inline(always)]
fn take_end(reader: &mut Reader<'_>, kind: bool) -> Result<bool, NotRead>
    ensures ok { IfOk result
        (λ over. MatchBool over
        (Ends kind reader.old reader.new) (GoesOn kind reader.old reader.new)) }
    ensures err { result ≡ Err NotRead.NotJson → Fails kind reader.old }
    ensures shorter { OnOk result (length reader.new ≤ length reader.old) }
    ensures end { IfOk result (λ over. OnTrue over (length reader.new < length reader.old)) }
{
    if kind {
        return Ok(reader.next_key()?.is_none());
    }
    Ok(reader.take_end_array())
}

/// Whether the token opens an object or an array: `None` where it is a value alone.
#[inline(always)]
fn opening_kind(token: Token<'_>) -> Result<Option<bool>, NotRead>
    ensures ok { IfOk result (Begins (token_of token.entry)) }
    ensures err { result ≡ Err NotRead.NotJson → BeginsNone (token_of token.entry) }
{
    match token {
        Token::String(_) => Ok(None),
        Token::Bool(_) => Ok(None),
        Token::Null => Ok(None),
        Token::Number(text) => {
            if is_in_range(text) {
                Ok(None)
            } else {
                Err(NotRead::NotJson)
            }
        }
        Token::EndObject | Token::EndArray | Token::Key(_) | Token::Bad => Err(NotRead::NotJson),
        Token::BeginArray => Ok(Some(false)),
        Token::BeginObject => Ok(Some(true)),
    }
}
