//! A reader of JSON that is as the product writes it, with the reader of `json` behind it.
//!
//! What the product writes is read byte by byte, with no index of the text. At the first token of another kind, or with an
//! escape in it, the rest of the text is given to the reader of `json`.

ghost use Rattle.std.specs.Prelude.{◌≡◌, ◌∷◌, None, Some, Err, IsTrue, IfOk, OnErr, MatchOption, option_map};
ghost use Rattle.std.specs.Bool.{MatchBool};
ghost use Rattle.json.specs.Token as tokens;
ghost use Rattle.json.specs.{Lex.{after_value, between, lex, punctuate}, Json.{after_end_array, read_key}};
ghost use Rattle.json.specs.Reads.{Yields};
ghost use Rattle.json.specs.Lex as grammar;
ghost use Rattle.tq_json.specs.Plain.{IsAtLexeme, IsNumberFirst, NotBeforeComma, Foresees, begins_at, closes_at, goes_at, is_plain_name, tokens_at};

use crate::fault::NotRead;
use crate::lexeme::{after_spaces, begins_with_key, behind, number_first, string_first};
use crate::run::first_byte;
use json::{Scratch, Token};
use std::alloc::AllocError;
use std::marker::Model;

/// Between which lexemes the text stands.
#[derive(Clone, Copy, Drop)]
enum Place {
    AfterComma,
    Fresh,
    AfterValue,
    Failed,
}

impl Place {
    /// Whether what is open may close here.
    #[inline(always)]
    fn may_close(self) -> bool
        ensures { result ≡ closes_at self }
    {
        matches!(self, Place::Fresh | Place::AfterValue)
    }

    /// Whether a value, or a key, may begin here.
    #[inline(always)]
    fn may_begin(self) -> bool
        ensures { result ≡ begins_at self }
    {
        matches!(self, Place::Fresh | Place::AfterComma)
    }
}

/// A clause sees the tokens that are still to come.
#[derive(Drop)]
pub struct Reader<'a> {
    text: &'a str,
    place: Place,
    /// For the reader of the rest.
    scratch: Option<&'a mut Scratch>,
    /// The reader of the rest, where that was given away.
    rest: Option<json::Reader<'a>>,
}

impl<'a> Model for Reader<'a> {
    ghost use Rattle.std.specs.Prelude.{List};
    ghost use Rattle.json.specs.Token.{Token as SpecToken, tokens_code};
    ghost use Rattle.tq_json.specs.{Plain.tokens_of, Readers.IsReader};

    ghost Value = { List SpecToken };

    ghost coded = { tokens_code };

    ghost view = { λ a. tokens_of a.rest a.place a.text.now };

    ghost invariant = { IsReader };
}

/// The text behind a value.
#[derive(Clone, Copy, Drop)]
struct Passed<'a> {
    place: Place,
    text: &'a str,
}

/// Passes the comma that may follow a value.
#[inline(always)]
#[tactic(auto, using(crate::proofs::Marks::comma_passed))]
fn after_value(rest: &str) -> Passed<'_>
    requires { IsAtLexeme rest.now }
    ensures same { tokens_at result.place result.text.now
        ≡ punctuate after_value (lex between rest.now) }
    ensures at { IsAtLexeme result.text.now }
    ensures passed { NotBeforeComma result.place result.text.now }
    ensures going { IsTrue (goes_at result.place) }
{
    if first_byte(rest) == b',' {
        return Passed {
            place: Place::AfterComma,
            text: behind(rest),
        };
    }
    Passed {
        place: Place::AfterValue,
        text: rest,
    }
}

/// What comes of a text at a place.
#[derive(Clone, Copy, Drop)]
enum Outlook {
    /// The same as if nothing stood before it.
    Fresh,
    /// No token.
    Ends,
    /// Nothing that is JSON.
    Refused,
}

/// What comes of the text at the place, before it is read.
fn foresee(text: &str, place: Place) -> Outlook
    requires at { IsAtLexeme text.now }
    requires passed { NotBeforeComma place text.now }
    ensures { Foresees result place text.now }
{
    let first = first_byte(text);
    let closes = (first == b'}') | (first == b']');
    match place {
        Place::Fresh => Outlook::Fresh,
        Place::AfterComma => {
            if closes {
                return Outlook::Refused;
            }
            if first == b' ' {
                return Outlook::Refused;
            }
            Outlook::Fresh
        }
        Place::AfterValue => {
            if closes {
                return Outlook::Fresh;
            }
            if first == b' ' {
                return Outlook::Ends;
            }
            Outlook::Refused
        }
        Place::Failed => Outlook::Ends,
    }
}

impl<'a> Reader<'a> {
    /// The reader of a text. Strings with escapes are written to the scratch.
    pub fn new(text: &'a str, scratch: &'a mut Scratch) -> Reader<'a>
        ensures { result ≡ grammar.tokens text.now }
    {
        Reader {
            text: after_spaces(text),
            place: Place::Fresh,
            scratch: Some(scratch),
            rest: None,
        }
    }

    /// Takes the key that is next: none, where it is another token or not as the product writes it.
    #[inline(always)]
    fn take_key(&mut self) -> Option<&'a str>
        ensures { MatchOption result (self.new ≡ self.old)
            (λ key. self.old ≡ tokens.key key.now ∷ self.new) }
    {
        if !self.place.may_begin() {
            return None;
        }
        let found = string_first(self.text)?;
        if first_byte(found.rest) != b':' {
            return None;
        }
        self.text = behind(found.rest);
        self.place = Place::Fresh;
        Some(found.word)
    }

    /// Takes the key that is next, where it is this name as the product writes it: a plain one.
    #[inline(always)]
    pub fn take_key_named(&mut self, name: &str) -> bool
        ensures { MatchBool result
            (IsTrue (is_plain_name name.now) → self.old ≡ tokens.key name.now ∷ self.new)
            (self.new ≡ self.old) }
    {
        if !self.place.may_begin() {
            return false;
        }
        let text = self.text;
        if !begins_with_key(text.as_bytes(), name.as_bytes()) {
            return false;
        }
        self.text = after_spaces(&text[name.len() + 3..]);
        self.place = Place::Fresh;
        true
    }

    /// Takes the string that is next: none, where it is another token or not as the product writes it.
    #[inline(always)]
    pub(crate) fn take_string(&mut self) -> Option<&'a str>
        ensures { MatchOption result (self.new ≡ self.old)
            (λ text. self.old ≡ tokens.string text.now ∷ self.new) }
    {
        if !self.place.may_begin() {
            return None;
        }
        let found = string_first(self.text)?;
        if first_byte(found.rest) == b':' {
            return None;
        }
        let passed = after_value(found.rest);
        self.text = passed.text;
        self.place = passed.place;
        Some(found.word)
    }

    /// Takes the number that is next: none, where it is another token or not of few digits alone.
    #[inline(always)]
    pub(crate) fn take_digits(&mut self) -> Option<u64>
        ensures { MatchOption result (self.new ≡ self.old)
            (λ number. IsNumberFirst number self.old self.new) }
    {
        if !self.place.may_begin() {
            return None;
        }
        let text = self.text;
        let found = number_first(text.as_bytes())?;
        let passed = after_value(&text[found.count..]);
        self.text = passed.text;
        self.place = passed.place;
        Some(found.number)
    }

    /// Takes the brace that opens an object, where that is next.
    #[inline(always)]
    pub(crate) fn take_begin_object(&mut self) -> bool
        ensures { MatchBool result (self.old ≡ tokens.begin_object ∷ self.new)
            (self.new ≡ self.old) }
    {
        if first_byte(self.text) != b'{' {
            return false;
        }
        if !self.place.may_begin() {
            return false;
        }
        self.text = behind(self.text);
        self.place = Place::Fresh;
        true
    }

    /// Takes the bracket that opens an array, where that is next.
    #[inline(always)]
    pub(crate) fn take_begin_array(&mut self) -> bool
        ensures { MatchBool result (self.old ≡ tokens.begin_array ∷ self.new)
            (self.new ≡ self.old) }
    {
        if first_byte(self.text) != b'[' {
            return false;
        }
        if !self.place.may_begin() {
            return false;
        }
        self.text = behind(self.text);
        self.place = Place::Fresh;
        true
    }

    /// Takes the brace that closes an object, where that is next.
    #[inline(always)]
    pub fn take_end_object(&mut self) -> bool
        ensures { MatchBool result (self.old ≡ tokens.end_object ∷ self.new)
            (self.new ≡ self.old) }
    {
        if first_byte(self.text) != b'}' {
            return false;
        }
        if !self.place.may_close() {
            return false;
        }
        let passed = after_value(behind(self.text));
        self.text = passed.text;
        self.place = passed.place;
        true
    }

    /// Takes the bracket that closes an array, where that is next.
    #[inline(always)]
    pub fn take_end_array(&mut self) -> bool
        ensures { MatchBool result (after_end_array self.old ≡ Some self.new)
            ((after_end_array self.old ≡ None) × (self.new ≡ self.old)) }
    {
        if let Some(rest) = &mut self.rest {
            return rest.take_end_array();
        }
        if first_byte(self.text) != b']' {
            return false;
        }
        if !self.place.may_close() {
            return false;
        }
        let passed = after_value(behind(self.text));
        self.text = passed.text;
        self.place = passed.place;
        true
    }

    /// A key, or none at the brace that closes an object.
    #[inline(always)]
    pub fn next_key(&mut self) -> Result<Option<&'a str>, NotRead>
        ensures ok { IfOk result
            (λ key. read_key self.old ≡ Some (option_map (λ k. k.now) key, self.new)) }
        ensures err { result ≡ Err NotRead.NotJson → read_key self.old ≡ None }
    {
        if let Some(key) = self.take_key() {
            return Ok(Some(key));
        }
        if self.take_end_object() {
            return Ok(None);
        }
        self.other_key()
    }

    /// The same of any token.
    #[inline(never)]
    fn other_key(&mut self) -> Result<Option<&'a str>, NotRead>
        ensures ok { IfOk result
            (λ key. read_key self.old ≡ Some (option_map (λ k. k.now) key, self.new)) }
        ensures err { result ≡ Err NotRead.NotJson → read_key self.old ≡ None }
    {
        let Some(token) = self.next()? else {
            return Err(NotRead::NotJson);
        };
        match token {
            Token::Key(key) => Ok(Some(key)),
            Token::EndObject => Ok(None),
            _ => Err(NotRead::NotJson),
        }
    }

    /// The next token. The rest of the text is given to the reader of `json`, which takes memory for it: where that is refused the
    /// reader stays as it was.
    #[inline(never)]
    pub fn next(&mut self) -> Result<Option<Token<'a>>, AllocError>
        ensures ok { IfOk result (λ token. Yields self.old token self.new) }
        ensures err { OnErr result (self.new ≡ self.old) }
    {
        if let Some(rest) = &mut self.rest {
            return Ok(rest.next());
        }
        match foresee(self.text, self.place) {
            Outlook::Fresh => {
                let text = self.text;
                let scratch = self.scratch.take().unwrap();
                if let Err(refused) = scratch.reserve(text.len()) {
                    self.scratch = Some(scratch);
                    return Err(refused);
                }
                self.text = "";
                self.place = Place::Failed;
                let mut rest = json::Reader::new(text, scratch)?;
                let token = rest.next();
                self.rest = Some(rest);
                Ok(token)
            }
            Outlook::Ends => Ok(None),
            Outlook::Refused => {
                self.place = Place::Failed;
                Ok(Some(Token::Bad))
            }
        }
    }
}
