//! Pieces of input to lines.

use memchr::memchr;
use std::alloc::Global;
use std::marker::Model;
use tq_interpreter::Shell;
use tq_shape::Memory;
use tq_syntax::{LINE_LIMIT, Line, without_return};

/// How many bytes are kept of a line. With these it is too long, also if the last is a carriage return that is dropped.
const KEPT: usize = LINE_LIMIT + 2;

/// How many bytes of answers are enough to be written.
const FLUSH_AT: usize = 1_048_576;

/// What was received of bytes that come in pieces: the lines that ended are answered, and the one that goes on is kept.
#[derive(Drop)]
pub(crate) struct Receiver {
    shell: Shell,
    line: Vec<u8>,
}

impl Model for Receiver {
    ghost use Rattle.std.specs.Prelude.{◌≤◌, length};
    ghost use Rattle.tq_shell.specs.{Stream.Received, declared.receiver.TheConstants.KEPT};

    ghost Value = { Received };

    ghost view = { λ receiver. record { world = receiver.shell; line = receiver.line.items } };

    ghost invariant = { λ receiver. length receiver.line.items ≤ KEPT };
}

impl Receiver {
    ghost use Rattle.std.specs.Prelude.{◌≡◌, ◌≤◌, ◌++◌, ℕ, length, IfOk, OnOk, OnErr};
    ghost use Rattle.tq_text.specs.Print.{Appends, Extends};
    ghost use Rattle.tq_shell.specs.Stream.{AnswersFront, IsTakenAtOnce, ReceivesFront, answer_to_last, ended_answer, with_piece, line_ended, nothing_received};

    pub(crate) fn new(alloc: Global, shell: Shell) -> Receiver
        ensures { result ≡ nothing_received shell }
    {
        let line = Vec::new(alloc);
        Receiver { shell, line }
    }

    /// Receives a piece, or its front up to the line with which there are enough answers to be written, and tells how many
    /// bytes it took. The answers to the lines that these end go behind the text; where memory is refused, those that are
    /// whole do.
    pub(crate) fn receive(
        &mut self,
        alloc: Global,
        piece: &[u8],
        text: &mut Vec<u8>,
    ) -> Result<usize, Memory>
        ensures taken { IfOk result (IsTakenAtOnce text.old.items self.old piece.now) }
        ensures within { IfOk result (λ taken. taken ≤ length piece.now) }
        ensures text { IfOk result (AnswersFront text.old text.new self.old piece.now) }
        ensures after { IfOk result (ReceivesFront self.old self.new piece.now) }
        ensures whole { (count : ℕ) × AnswersFront text.old text.new self.old piece.now count }
    {
        let _ = &self.line;
        let mut left = piece;
        while let Some(place) = memchr(b'\n', left) {
            let whole = text.len();
            if let Err(fault) = self.end_line(alloc, &left[..place], text) {
                text.truncate(whole);
                return Err(fault);
            }
            left = &left[place + 1..];
            if text.len() >= FLUSH_AT {
                return Ok(piece.len() - left.len());
            }
        }
        self.keep(left)?;
        Ok(piece.len())
    }

    /// Answers the line that ends with these bytes, behind the text. What stands whole in a piece is not copied.
    fn end_line(&mut self, alloc: Global, bytes: &[u8], text: &mut Vec<u8>) -> Result<(), Memory>
        ensures text { OnOk result
            (Appends text.old text.new (ended_answer self.old bytes.now).text) }
        ensures after { OnOk result (self.new ≡ line_ended self.old bytes.now) }
        ensures kept { OnErr result (Extends text.old.items text.new.items) }
    {
        if self.line.is_empty() {
            let line = Line::of(alloc, without_return(bytes))?;
            self.shell.answer(alloc, line, text)?;
            return Ok(());
        }
        self.end_kept(alloc, bytes, text)
    }

    /// Answers the line that goes on and ends with these bytes, behind the text.
    #[inline(never)]
    fn end_kept(&mut self, alloc: Global, bytes: &[u8], text: &mut Vec<u8>) -> Result<(), Memory>
        ensures text { OnOk result
            (Appends text.old text.new (ended_answer self.old bytes.now).text) }
        ensures after { OnOk result (self.new ≡ line_ended self.old bytes.now) }
        ensures kept { OnErr result (Extends text.old.items text.new.items) }
    {
        self.keep(bytes)?;
        let line = Line::of(alloc, without_return(self.line.as_slice()))?;
        self.shell.answer(alloc, line, text)?;
        self.line.clear();
        Ok(())
    }

    /// Keeps more bytes of the line that goes on, as many as are kept of a line.
    fn keep(&mut self, bytes: &[u8]) -> Result<(), Memory>
        ensures { OnOk result (self.new ≡ with_piece self.old bytes.now) }
    {
        let room = KEPT - self.line.len();
        self.line
            .extend_from_slice(&bytes[..bytes.len().min(room)])?;
        Ok(())
    }

    /// Puts the answer to a last line without a line feed behind the text.
    pub(crate) fn finish(&mut self, alloc: Global, text: &mut Vec<u8>) -> Result<(), Memory>
        ensures { OnOk result (text.new.items ≡ text.old.items ++ answer_to_last self.old) }
    {
        let line = Line::of(alloc, self.line.as_slice())?;
        self.shell.answer(alloc, line, text)?;
        Ok(())
    }
}
