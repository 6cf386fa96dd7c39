//! Lexemes at the head of a text, as the product writes them. What else may stand there is none to these functions.
//!
//! A text is kept from its next lexeme on: it begins with no space.

ghost use Rattle.std.specs.Prelude.{◌≡◌, ◌||◌, ◌==◌, drop, IfSome, IsTrue};
ghost use Rattle.json.specs.{Word.{head, is_space}, Lex.{between, lex, class, operator}};
ghost use Rattle.tq_json.specs.Plain.{IsAtLexeme, IsQuoted, IsCounted, IsKeyFirst};

use crate::run::{byte_at, plain_end};
use crate::word::are_same;

/// The text from its next lexeme on.
#[inline(always)]
pub(crate) fn after_spaces(text: &str) -> &str
    ensures same { lex between result.now ≡ lex between text.now }
    ensures passed { IsAtLexeme result.now }
{
    if byte_at(text.as_bytes(), 0) > b' ' {
        return text;
    }
    after_spaces_slowly(text)
}

/// The same of any text.
#[inline(never)]
fn after_spaces_slowly(text: &str) -> &str
    ensures same { lex between result.now ≡ lex between text.now }
    ensures passed { IsAtLexeme result.now }
{
    let bytes = text.as_bytes();
    let mut place = 0;
    'spaces: while place < bytes.len() && is_space(bytes[place]) {
        place += 1;
    }
    &text[place..]
}

/// Whether the byte is a space between lexemes.
#[inline(always)]
fn is_space(byte: u8) -> bool
    ensures { result ≡ is_space byte }
{
    (byte == b' ') | (byte == b'\t') | (byte == b'\n') | (byte == b'\r')
}

/// The text behind the mark that it begins with.
#[inline(always)]
pub(crate) fn behind(text: &str) -> &str
    requires { class (head text.now) ≡ operator }
    ensures same { lex between result.now ≡ drop 1 (lex between text.now) }
    ensures passed { IsAtLexeme result.now }
{
    after_spaces(&text[1..])
}

/// A string with no escape, and the text behind it.
#[derive(Clone, Copy, Drop)]
pub(crate) struct Quoted<'a> {
    pub(crate) word: &'a str,
    pub(crate) rest: &'a str,
}

/// The string that the text begins with: none where it begins with another lexeme, or the string has an escape.
#[inline(always)]
pub(crate) fn string_first(text: &str) -> Option<Quoted<'_>>
    ensures { IfSome result (λ q. IsQuoted text.now q.word.now q.rest.now) }
{
    let bytes = text.as_bytes();
    if byte_at(bytes, 0) != b'"' {
        return None;
    }
    let stop = plain_end(bytes, 1);
    if byte_at(bytes, stop) != b'"' {
        return None;
    }
    let word = &text[1..stop];
    let rest = after_spaces(&text[stop + 1..]);
    Some(Quoted { word, rest })
}

/// Whether the text begins with a key of that name, and with its colon.
#[inline(always)]
pub(crate) fn begins_with_key(text: &[u8], name: &[u8]) -> bool
    ensures { IsTrue result → IsKeyFirst name.now text.now }
{
    if text.len() < 3 {
        return false;
    }
    let count = name.len();
    if text.len() - 3 < count {
        return false;
    }
    if !are_same(&text[1..count + 1], name) {
        return false;
    }
    if text[0] != b'"' {
        return false;
    }
    if text[count + 1] != b'"' {
        return false;
    }
    text[count + 2] == b':'
}

/// A number, and how many digits it has.
#[derive(Clone, Copy, Drop)]
pub(crate) struct Counted {
    pub(crate) number: u64,
    pub(crate) count: usize,
}

/// So many digits are no few: whatever fewer are, the number is below 2^64.
const MANY_DIGITS: usize = 19;

/// The number that the text begins with, where it has few digits, and behind them stands a comma, or the end of a list or an object.
#[inline(always)]
pub(crate) fn number_first(text: &[u8]) -> Option<Counted>
    ensures { IfSome result (λ it. IsCounted text.now it.number it.count) }
{
    let mut number: u64 = 0;
    let mut count = 0;
    'digits: while count < MANY_DIGITS && byte_at(text, count).is_ascii_digit() {
        number = number * 10 + (byte_at(text, count) - b'0') as u64;
        count += 1;
    }
    if count == 0 || count == MANY_DIGITS {
        return None;
    }
    if count > 1 && byte_at(text, 0) == b'0' {
        return None;
    }
    if !ends_value(byte_at(text, count)) {
        return None;
    }
    Some(Counted { number, count })
}

/// Whether the byte may stand behind a value: a comma, or the end of what is open.
#[inline(always)]
fn ends_value(byte: u8) -> bool
    ensures { result ≡ ((byte == 44) || (byte == 125) || (byte == 93)) }
{
    (byte == b',') | (byte == b'}') | (byte == b']')
}
