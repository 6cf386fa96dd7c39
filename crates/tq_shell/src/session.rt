//! The session of a shell: lines in, answers out.

ghost use Rattle.std.specs.{Prelude.{◌≡◌, ◌+◌, ◌-◌, ◌^◌, ◌<◌, ℕ, List, IsTrue, OnOk}, Io.KnownBytes.Appends};
ghost use Rattle.tq_devices.specs.Devices.{IsRunCount};
ghost use Rattle.tq_interpreter.specs.Answer.{opening};
ghost use Rattle.tq_shell.specs.{Session.IsRunText, Stream.nothing_received};

use crate::receiver::Receiver;
use std::alloc::Global;
use std::mem;
use tq_devices::{RunFault, Sink, Source, write_out};
use tq_interpreter::Shell;
use tq_shape::Levels;

/// The most bytes that a run takes.
pub const INPUT_LIMIT: usize = 16_777_216;

/// How many bytes are read at a time.
const PIECE: usize = 65_536;

/// Answers the lines of the source, over a tree of so many levels that was asked nothing, and writes the answers to each piece
/// of it before it reads the next, and in the midst of a piece as soon as there are enough of them. What the service kept is left
/// to the end of the process, which takes it back at once: to free it entry by entry takes a tenth of a run.
pub fn run<R: Source, W: Sink>(
    alloc: Global,
    levels: Levels,
    reader: &mut R,
    writer: &mut W,
) -> Result<(), RunFault>
    requires reads { R.failed reader.old < 2 ^ 64 - 1 }
    requires writes { W.failed writer.old < 2 ^ 64 - 1 }
    ensures text { (bytes : List ℕ) × (text : List ℕ)
        × Appends (R.given reader.old) (R.given reader.new) bytes
        × Appends (W.taken writer.old) (W.taken writer.new) text
        × IsRunText result (opening levels) (R.is_ended reader.new) bytes text }
    ensures end { OnOk result (IsTrue (R.is_ended reader.new)) }
    ensures counts { IsRunCount result
        (R.failed reader.old) (R.failed reader.new) (W.failed writer.old) (W.failed writer.new) }
{
    let shell = Shell::new(alloc, levels)?;
    let mut receiver = Receiver::new(alloc, shell);
    let ran = answer_pieces(alloc, &mut receiver, reader, writer);
    mem::forget(receiver);
    ran
}

/// Answers what the source gives, a piece after another, by a receiver that received nothing yet. The answers to a piece are
/// written each time that there are enough of them, and at its end. Where memory is refused, those that are whole are written.
pub(crate) fn answer_pieces<R: Source, W: Sink>(
    alloc: Global,
    receiver: &mut Receiver,
    reader: &mut R,
    writer: &mut W,
) -> Result<(), RunFault>
    requires new { receiver.old ≡ nothing_received receiver.old.world }
    requires reads { R.failed reader.old < 2 ^ 64 - 1 }
    requires writes { W.failed writer.old < 2 ^ 64 - 1 }
    ensures text { (bytes : List ℕ) × (text : List ℕ)
        × Appends (R.given reader.old) (R.given reader.new) bytes
        × Appends (W.taken writer.old) (W.taken writer.new) text
        × IsRunText result receiver.old.world (R.is_ended reader.new) bytes text }
    ensures end { OnOk result (IsTrue (R.is_ended reader.new)) }
    ensures counts { IsRunCount result
        (R.failed reader.old) (R.failed reader.new) (W.failed writer.old) (W.failed writer.new) }
{
    let mut buffer = [0; PIECE];
    let mut text = Vec::new(alloc);
    let mut left = INPUT_LIMIT;
    loop {
        let Ok(count) = reader.read(&mut buffer) else {
            return Err(RunFault::Read);
        };
        if count == 0 {
            receiver.finish(alloc, &mut text)?;
            return write_out(writer, text.as_slice());
        }
        let mut piece = &buffer[..count.min(left)];
        while !piece.is_empty() {
            let received = receiver.receive(alloc, piece, &mut text);
            write_out(writer, text.as_slice())?;
            let taken = received?;
            text.clear();
            piece = &piece[taken..];
        }
        if count > left {
            return Err(RunFault::TooLong);
        }
        left -= count;
    }
}
