//! A line of a text of client scripts.

ghost use Rattle.std.specs.Prelude.{◌≡◌, IfOk};
ghost use Rattle.tq_syntax.specs.ClientLine as spec;
ghost use Rattle.tq_syntax.specs.Word.{options_now};

use crate::line::LINE_LIMIT;
use crate::operands::nothing_in;
use crate::script::Line;
use crate::word::{first_word, is_same};
use std::alloc::Global;
use tq_shape::Memory;

/// What a line of a text of client scripts asks for.
#[derive(Drop)]
pub enum ClientLine {
    /// Nothing stands in the line.
    Empty,
    /// The line is none of those that a script has.
    Bad,
    /// The next client's script begins.
    Client,
    /// The client whose script goes on says this.
    Said(Line),
}

impl ClientLine {
    /// The line that the bytes spell.
    pub fn of(alloc: Global, bytes: &[u8]) -> Result<ClientLine, Memory>
        ensures { IfOk result (λ line. line ≡ spec.client_line_of bytes.now) }
    {
        if bytes.len() > LINE_LIMIT {
            return Ok(ClientLine::Bad);
        }
        if bytes.is_empty() {
            return Ok(ClientLine::Empty);
        }
        let (verb, rest) = first_word(bytes);
        match ClientLine::by(alloc, verb, rest)? {
            Some(line) => Ok(line),
            None => Ok(ClientLine::Bad),
        }
    }

    fn by(alloc: Global, verb: &[u8], rest: Option<&[u8]>) -> Result<Option<ClientLine>, Memory>
        ensures { IfOk result (λ line. line ≡ spec.line_by verb.now (options_now rest.entry)) }
    {
        if is_same(verb, b"client") {
            return Ok(ClientLine::client(rest));
        }
        match Line::by(alloc, verb, rest)? {
            Some(line) => Ok(Some(ClientLine::Said(line))),
            None => Ok(None),
        }
    }

    fn client(rest: Option<&[u8]>) -> Option<ClientLine>
        ensures { result ≡ spec.client_by (options_now rest.entry) }
    {
        nothing_in(rest)?;
        Some(ClientLine::Client)
    }
}
