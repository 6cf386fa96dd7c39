//! A line of the shell.

ghost use Rattle.std.specs.Prelude.{◌≡◌, IfOk, unwrap_or};
ghost use Rattle.tq_syntax.specs.Line as spec;
ghost use Rattle.tq_syntax.specs.Word.{options_now};

use crate::operands::{
    Visit, Written, chosen_for, cost_words, file_of, first_number, nothing_in, one_number,
    visit_of, written_of,
};
use crate::word::{first_word, is_same};
use std::alloc::Global;
use tq_live::Purpose;
use tq_shape::Memory;
use tq_store::{Content, FileName};

/// What a line asks for.
#[derive(Drop)]
pub enum Line {
    /// Nothing stands in the line.
    Empty,
    /// The line is none of those that the shell knows.
    Bad,
    /// What a server costs in a quorum that is read from, and in one that is written to.
    Cost { server: u64, read: u64, write: u64 },
    Mark { server: u64, up: bool },
    Choose { purpose: Purpose },
    Begin,
    /// The stale copies that can be mended now are mended.
    Refresh,
    /// The state of the whole service is shown.
    Board,
    /// A line of a transaction.
    Txn { number: u64, line: TxnLine },
}

/// What a line asks of a transaction.
#[derive(Drop)]
pub enum TxnLine {
    Read { file: FileName },
    Write { file: FileName, content: Content },
    Prepare { server: u64 },
    Decide,
    Apply { server: u64 },
    Commit,
    Abort,
    Resolve,
    /// The server stops in its vote, behind so many of the records that it would write.
    PrepareCrash { server: u64, after: u32 },
    /// The server stops likewise where it is told the verdict.
    ApplyCrash { server: u64, after: u32 },
}

/// The most bytes of a line that is no bad line.
pub const LINE_LIMIT: usize = 4_200;

impl Line {
    /// The line that the bytes spell.
    pub fn of(alloc: Global, bytes: &[u8]) -> Result<Line, Memory>
        ensures { IfOk result (λ line. line ≡ spec.line_of bytes.now) }
    {
        if bytes.len() > LINE_LIMIT {
            return Ok(Line::Bad);
        }
        if bytes.is_empty() {
            return Ok(Line::Empty);
        }
        let (verb, rest) = first_word(bytes);
        match Line::operator_by(verb, rest) {
            Some(line) => Ok(line),
            None => Ok(Line::txn_by(alloc, verb, rest)?),
        }
    }

    /// The line that concerns no transaction.
    fn operator_by(verb: &[u8], rest: Option<&[u8]>) -> Option<Line>
        ensures { result ≡ spec.operator_by verb.now (options_now rest.entry) }
    {
        if is_same(verb, b"choose") {
            let purpose = chosen_for(rest)?;
            return Some(Line::Choose { purpose });
        }
        if is_same(verb, b"begin") {
            nothing_in(rest)?;
            return Some(Line::Begin);
        }
        if is_same(verb, b"cost") {
            let words = cost_words(rest)?;
            return Some(Line::Cost {
                server: words.server,
                read: words.read,
                write: words.write,
            });
        }
        if is_same(verb, b"down") {
            let server = one_number(rest)?;
            return Some(Line::Mark { server, up: false });
        }
        if is_same(verb, b"up") {
            let server = one_number(rest)?;
            return Some(Line::Mark { server, up: true });
        }
        if is_same(verb, b"refresh") {
            nothing_in(rest)?;
            return Some(Line::Refresh);
        }
        if is_same(verb, b"board") {
            nothing_in(rest)?;
            return Some(Line::Board);
        }
        None
    }

    /// The line of the transaction whose number follows; a bad one where it has no such form.
    fn txn_by(alloc: Global, verb: &[u8], rest: Option<&[u8]>) -> Result<Line, Memory>
        ensures { IfOk result (λ line.
            line ≡ unwrap_or (spec.txn_by verb.now (options_now rest.entry)) Line.Bad) }
    {
        let Some(txn) = first_number(rest) else {
            return Ok(Line::Bad);
        };
        let number = txn.number;
        if is_same(verb, b"write") {
            return match written_of(alloc, txn.rest)? {
                Some(Written { file, content }) => Ok(Line::Txn {
                    number,
                    line: TxnLine::Write { file, content },
                }),
                None => Ok(Line::Bad),
            };
        }
        match TxnLine::step_by(verb, txn.rest) {
            Some(line) => Ok(Line::Txn { number, line }),
            None => Ok(Line::Bad),
        }
    }
}

impl TxnLine {
    /// The line of a transaction that is no write, its number left out.
    fn step_by(verb: &[u8], rest: Option<&[u8]>) -> Option<TxnLine>
        ensures { result ≡ spec.step_by verb.now (options_now rest.entry) }
    {
        if is_same(verb, b"read") {
            let file = file_of(rest)?;
            return Some(TxnLine::Read { file });
        }
        if is_same(verb, b"prepare") {
            let visit = visit_of(rest)?;
            return Some(TxnLine::prepare(visit));
        }
        if is_same(verb, b"apply") {
            let visit = visit_of(rest)?;
            return Some(TxnLine::apply(visit));
        }
        if is_same(verb, b"decide") {
            nothing_in(rest)?;
            return Some(TxnLine::Decide);
        }
        if is_same(verb, b"commit") {
            nothing_in(rest)?;
            return Some(TxnLine::Commit);
        }
        if is_same(verb, b"abort") {
            nothing_in(rest)?;
            return Some(TxnLine::Abort);
        }
        if is_same(verb, b"resolve") {
            nothing_in(rest)?;
            return Some(TxnLine::Resolve);
        }
        None
    }

    fn prepare(visit: Visit) -> TxnLine
        ensures { result ≡ spec.prepare_at visit.server visit.crash }
    {
        let server = visit.server;
        match visit.crash {
            None => TxnLine::Prepare { server },
            Some(after) => TxnLine::PrepareCrash { server, after },
        }
    }

    fn apply(visit: Visit) -> TxnLine
        ensures { result ≡ spec.apply_at visit.server visit.crash }
    {
        let server = visit.server;
        match visit.crash {
            None => TxnLine::Apply { server },
            Some(after) => TxnLine::ApplyCrash { server, after },
        }
    }
}
