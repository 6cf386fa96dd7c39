//! What a client says, line by line.
ghost use Rattle.std.specs.Prelude.{◌≡◌, IfOk};
ghost use Rattle.tq_syntax.specs.ClientLine as spec;
ghost use Rattle.tq_syntax.specs.Word.{options_now};

use crate::operands::{
    Written, chosen_for, cost_words, file_of, nothing_in, one_number, written_of,
};
use crate::word::is_same;
use std::alloc::Global;
use std::marker::Model;
use tq_live::Purpose;
use tq_shape::Memory;
use tq_store::{Content, FileName};

/// A line of a client's script. Those of a transaction concern the one that the client has open.
#[derive(Drop)]
pub enum Line {
    /// The view notes what a server costs in a quorum that is read from, and in one that is written to.
    Cost { server: u64, read: u64, write: u64 },
    /// A server crashes, and is marked down.
    Down { server: u64 },
    /// A server returns, and is marked up.
    Up { server: u64 },
    /// The view chooses a quorum for the purpose.
    Choose { purpose: Purpose },
    /// A transaction begins. One that is open is aborted first.
    Begin,
    Read { file: FileName },
    Write { file: FileName, content: Content },
    Commit,
    Abort,
}

impl Line {
    /// The line of a verb and of what follows it.
    pub(crate) fn by(
        alloc: Global,
        verb: &[u8],
        rest: Option<&[u8]>,
    ) -> Result<Option<Line>, Memory>
        ensures { IfOk result (λ line. line ≡ spec.said_by verb.now (options_now rest.entry)) }
    {
        if is_same(verb, b"write") {
            return match written_of(alloc, rest)? {
                Some(Written { file, content }) => Ok(Some(Line::Write { file, content })),
                None => Ok(None),
            };
        }
        Ok(Line::short_by(verb, rest))
    }

    fn short_by(verb: &[u8], rest: Option<&[u8]>) -> Option<Line>
        ensures { result ≡ spec.short_by verb.now (options_now rest.entry) }
    {
        if is_same(verb, b"read") {
            let file = file_of(rest)?;
            return Some(Line::Read { file });
        }
        if is_same(verb, b"begin") {
            nothing_in(rest)?;
            return Some(Line::Begin);
        }
        if is_same(verb, b"commit") {
            nothing_in(rest)?;
            return Some(Line::Commit);
        }
        if is_same(verb, b"abort") {
            nothing_in(rest)?;
            return Some(Line::Abort);
        }
        if is_same(verb, b"choose") {
            let purpose = chosen_for(rest)?;
            return Some(Line::Choose { purpose });
        }
        if is_same(verb, b"cost") {
            let words = cost_words(rest)?;
            return Some(Line::Cost {
                server: words.server,
                read: words.read,
                write: words.write,
            });
        }
        if is_same(verb, b"down") {
            let server = one_number(rest)?;
            return Some(Line::Down { server });
        }
        if is_same(verb, b"up") {
            let server = one_number(rest)?;
            return Some(Line::Up { server });
        }
        None
    }
}

/// What a client does: its lines, in their order.
#[derive(Drop)]
pub struct Script {
    lines: Vec<Line>,
}

impl Model for Script {
    ghost use Rattle.std.specs.Prelude.{List};
    ghost use Rattle.tq_syntax.specs.declared.script.Line.{Line};

    ghost Value = { List Line };

    ghost view = { λ script. script.lines.items };
}

impl Script {
    /// The script of these lines. It takes no memory.
    pub fn new(lines: Vec<Line>) -> Script
        ensures { result ≡ lines.items }
    {
        Script { lines }
    }

    /// Its lines, in order.
    pub fn lines(&self) -> &[Line]
        ensures { result.now ≡ self.now }
    {
        self.lines.as_slice()
    }
}
