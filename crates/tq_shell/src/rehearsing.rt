//! Lines that are answered over the journals of a file.
ghost use Rattle.std.specs.{Prelude.{◌≡◌, ◌-◌, ◌^◌, ◌<◌, ℕ, List, IfOk, IsTrue, OnOk}, Io.KnownBytes.Appends};
ghost use Rattle.tq_shell.specs.Rehearsal.{IsRehearsalCount, IsRehearsalText};

use crate::opened::{Opened, open_service};
use crate::reading::read_all;
use crate::receiver::Receiver;
use crate::session::answer_pieces;
use std::alloc::Global;
use std::mem;
use tq_devices::{RunFault, Sink, Source, write_out};
use tq_interpreter::Shell;

/// Reads a journal file to its end. Where one sequential run explains its journals, it answers the lines of the other source
/// over a service that has them, as `run` does, and answers the status 0. Where not, no line is read: it writes and answers
/// what an audit of the file does. Nothing is written where memory is refused before the first line is read, where the file
/// cannot be read, or is too long.
pub fn rehearse<J: Source, R: Source, W: Sink>(
    alloc: Global,
    journals: &mut J,
    lines: &mut R,
    writer: &mut W,
) -> Result<u8, RunFault>
    requires file_reads { J.failed journals.old < 2 ^ 64 - 1 }
    requires reads { R.failed lines.old < 2 ^ 64 - 1 }
    requires writes { W.failed writer.old < 2 ^ 64 - 1 }
    ensures text { (file : List ℕ) × (bytes : List ℕ) × (text : List ℕ)
        × Appends (J.given journals.old) (J.given journals.new) file
        × Appends (R.given lines.old) (R.given lines.new) bytes
        × Appends (W.taken writer.old) (W.taken writer.new) text
        × IsRehearsalText result (R.is_ended lines.new) file bytes text }
    ensures file_end { OnOk result (IsTrue (J.is_ended journals.new)) }
    ensures end { IfOk result (λ status. status ≡ 0 → IsTrue (R.is_ended lines.new)) }
    ensures counts { IsRehearsalCount result
        (J.failed journals.old) (J.failed journals.new)
        (R.failed lines.old) (R.failed lines.new) (W.failed writer.old) (W.failed writer.new) }
{
    let bytes = read_all(alloc, journals)?;
    match open_service(alloc, bytes)? {
        Opened::Ready { service } => {
            let mut receiver = Receiver::new(alloc, Shell::over(alloc, service));
            let ran = answer_pieces(alloc, &mut receiver, lines, writer);
            mem::forget(receiver);
            ran?;
            Ok(0)
        }
        Opened::Refused { finding } => {
            let line = finding.line(alloc)?;
            write_out(writer, line.as_slice())?;
            Ok(finding.status())
        }
    }
}
