//! What follows a verb.

ghost use Rattle.std.specs.{Prelude.{◌≡◌, IfOk, option_map}, List.list_all};
ghost use Rattle.tq_syntax.specs.Word as spec;
ghost use Rattle.tq_syntax.specs.Word.{options_now, number_of};

use crate::word::{digits_to_space, first_word, is_same, number_of};
use std::alloc::Global;
use tq_live::Purpose;
use tq_shape::Memory;
use tq_store::{Content, FileName, MAX_CONTENT};

/// A number, and what follows it.
#[derive(Clone, Copy)]
pub(crate) struct Numbered<'a> {
    pub(crate) number: u64,
    pub(crate) rest: Option<&'a [u8]>,
}

/// Two numbers.
#[derive(Clone, Copy)]
pub(crate) struct Numbers {
    pub(crate) first: u64,
    pub(crate) second: u64,
}

/// A server, and what it costs in a quorum that is read from and in one that is written to.
#[derive(Clone, Copy)]
pub(crate) struct CostWords {
    pub(crate) server: u64,
    pub(crate) read: u64,
    pub(crate) write: u64,
}

/// A server, and behind how many records it crashes, if it does.
#[derive(Clone, Copy)]
pub(crate) struct Visit {
    pub(crate) server: u64,
    pub(crate) crash: Option<u32>,
}

/// What is written to a file.
#[derive(Drop)]
pub(crate) struct Written {
    pub(crate) file: FileName,
    pub(crate) content: Content,
}

/// Nothing follows.
pub(crate) fn nothing_in(rest: Option<&[u8]>) -> Option<()>
    ensures { result ≡ spec.nothing_in (options_now rest.entry) }
{
    match rest {
        None => Some(()),
        Some(_) => None,
    }
}

/// The one number that follows.
pub(crate) fn one_number(rest: Option<&[u8]>) -> Option<u64>
    ensures { result ≡ spec.one_number (options_now rest.entry) }
{
    number_of(rest?)
}

/// The number that follows, and what follows it.
pub(crate) fn first_number(rest: Option<&[u8]>) -> Option<Numbered<'_>>
    ensures { option_map (λ n. (n.number, options_now n.rest)) result
        ≡ spec.first_number (options_now rest.entry) }
{
    let bytes = rest?;
    let (number, count, rest) = digits_to_space(bytes)?;
    if count == 0 {
        return None;
    }
    if count > 1 && bytes[0] == b'0' {
        return None;
    }
    Some(Numbered { number, rest })
}

fn two_numbers(rest: Option<&[u8]>) -> Option<Numbers>
    ensures { result ≡ spec.two_numbers (options_now rest.entry) }
{
    let one = first_number(rest)?;
    let second = one_number(one.rest)?;
    Some(Numbers {
        first: one.number,
        second,
    })
}

/// The cost for both purposes, or one for each.
fn costs_of(rest: Option<&[u8]>) -> Option<Numbers>
    ensures { result ≡ spec.costs_of (options_now rest.entry) }
{
    match one_number(rest) {
        Some(both) => Some(Numbers {
            first: both,
            second: both,
        }),
        None => two_numbers(rest),
    }
}

/// The server and its costs that follow.
#[inline(always)]
pub(crate) fn cost_words(rest: Option<&[u8]>) -> Option<CostWords>
    ensures { result ≡ spec.cost_words (options_now rest.entry) }
{
    let server = first_number(rest)?;
    let costs = costs_of(server.rest)?;
    Some(CostWords {
        server: server.number,
        read: costs.first,
        write: costs.second,
    })
}

/// The purpose that follows: reading, where nothing does.
pub(crate) fn chosen_for(rest: Option<&[u8]>) -> Option<Purpose>
    ensures { result ≡ spec.chosen_for (options_now rest.entry) }
{
    match rest {
        None => Some(Purpose::Read),
        Some(words) => Purpose::of(words),
    }
}

/// The one number of 32 bits that follows.
fn small_number(rest: Option<&[u8]>) -> Option<u32>
    ensures { result ≡ spec.small_of (spec.one_number (options_now rest.entry)) }
{
    let number = one_number(rest)?;
    if number > u32::MAX as u64 {
        return None;
    }
    Some(number as u32)
}

/// Behind how many records a server crashes, where `crash` and their number follow; that it does not, where nothing does.
fn crash_of(rest: Option<&[u8]>) -> Option<Option<u32>>
    ensures { result ≡ spec.crash_of (options_now rest.entry) }
{
    let Some(words) = rest else {
        return Some(None);
    };
    let (word, more) = first_word(words);
    if !is_same(word, b"crash") {
        return None;
    }
    let after = small_number(more)?;
    Some(Some(after))
}

/// The server that follows, which may crash.
pub(crate) fn visit_of(rest: Option<&[u8]>) -> Option<Visit>
    ensures { result ≡ spec.visit_of (options_now rest.entry) }
{
    let server = first_number(rest)?;
    let crash = crash_of(server.rest)?;
    Some(Visit {
        server: server.number,
        crash,
    })
}

/// The file that follows, if it is a name.
pub(crate) fn file_of(rest: Option<&[u8]>) -> Option<FileName>
    ensures { result ≡ spec.file_of (options_now rest.entry) }
{
    FileName::new(rest?)
}

fn is_printed(byte: u8) -> bool
    ensures { result ≡ spec.is_printed byte }
{
    byte >= 32 && byte <= 126
}

fn are_printed(text: &[u8]) -> bool
    ensures { result ≡ list_all spec.is_printed text.now }
{
    text.iter().all(|byte| is_printed(*byte))
}

fn is_text(text: &[u8]) -> bool
    ensures { result ≡ spec.is_text text.now }
{
    text.len() <= MAX_CONTENT && are_printed(text)
}

fn content_of(alloc: Global, text: &[u8]) -> Result<Option<Content>, Memory>
    ensures { IfOk result (λ content. content ≡ spec.content_of text.now) }
{
    if !is_text(text) {
        return Ok(None);
    }
    Content::new(Vec::from_slice(alloc, text)?)
}

/// The text that follows a file.
fn text_of(alloc: Global, rest: Option<&[u8]>) -> Result<Option<Content>, Memory>
    ensures { IfOk result (λ content. content ≡ spec.text_of (options_now rest.entry)) }
{
    match rest {
        Some(text) => Ok(content_of(alloc, text)?),
        None => Ok(Some(Content::empty())),
    }
}

/// The file that follows, and the text that is written to it.
pub(crate) fn written_of(alloc: Global, rest: Option<&[u8]>) -> Result<Option<Written>, Memory>
    ensures { IfOk result (λ written. written ≡ spec.written_of (options_now rest.entry)) }
{
    let Some(words) = rest else {
        return Ok(None);
    };
    let (word, text) = first_word(words);
    let Some(file) = FileName::new(word) else {
        return Ok(None);
    };
    match text_of(alloc, text)? {
        Some(content) => Ok(Some(Written { file, content })),
        None => Ok(None),
    }
}
