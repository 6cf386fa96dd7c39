//! The upgrade of a journal file.

ghost use Rattle.std.specs.{Prelude.{◌≡◌, ◌-◌, ◌^◌, ◌<◌, ℕ, List, IfOk, IsTrue, OnOk}, Io.KnownBytes.Appends};
ghost use Rattle.tq_devices.specs.Devices.{IsRunCount};
ghost use Rattle.tq_board.specs.Lines.{IsWrittenOut};
ghost use Rattle.tq_shell.specs.Audit.{verdict_line, IsFound, IsUpgradeText, found_line, found_status};

use crate::audit_finding::AuditFinding;
use crate::line::write_line;
use crate::reading::read_all;
use std::alloc::{AllocError, Global};
use std::mem;
use tq_board::write_journals;
use tq_devices::{RunFault, Sink, Source};
use tq_json_read::{ReadFault, journals_from_json};
use tq_shape::Memory;
use tq_tables::Journals;

/// Reads a journal file of either format to its end, writes its journals in format 2, as one line, and answers the status 0;
/// where it is no journal file it writes and answers what an audit of it does. The entries are not judged. Nothing is written
/// where memory is refused, the source fails or the file is too long; a prefix of the line where the sink fails. The line may
/// be longer than a file that is read; it is written as it comes. The journals are left to the end of the process, which takes them back at once.
pub fn upgrade<R: Source, W: Sink>(
    alloc: Global,
    reader: &mut R,
    writer: &mut W,
) -> Result<u8, RunFault>
    requires reads { R.failed reader.old < 2 ^ 64 - 1 }
    requires writes { W.failed writer.old < 2 ^ 64 - 1 }
    ensures text { (bytes : List ℕ) × (text : List ℕ)
        × Appends (R.given reader.old) (R.given reader.new) bytes
        × Appends (W.taken writer.old) (W.taken writer.new) text
        × IsUpgradeText result bytes text }
    ensures end { OnOk result (IsTrue (R.is_ended reader.new)) }
    ensures counts { IsRunCount result
        (R.failed reader.old) (R.failed reader.new) (W.failed writer.old) (W.failed writer.new) }
{
    let bytes = read_all(alloc, reader)?;
    let found = found_in(alloc, bytes.as_slice())?;
    drop(bytes);
    let status = status_of(&found);
    write_found(alloc, &found, writer)?;
    mem::forget(found);
    Ok(status)
}

/// The journals of the bytes of a journal file; none where they are no such file.
pub(crate) fn found_in(alloc: Global, bytes: &[u8]) -> Result<Option<Journals>, Memory>
    ensures { IfOk result (IsFound bytes.now) }
{
    match journals_from_json(alloc, bytes) {
        Ok(journals) => Ok(Some(journals)),
        Err(ReadFault::Memory) => Err(AllocError),
        Err(ReadFault::NotJson) => Ok(None),
        Err(ReadFault::NotJournals) => Ok(None),
    }
}

/// The status that tells of what was found.
fn status_of(found: &Option<Journals>) -> u8
    ensures { result ≡ found_status found.now }
{
    match found {
        Some(_) => 0,
        None => AuditFinding::Unreadable.status(),
    }
}

/// Writes the journals in format 2, as one line; where none were found, what an audit tells then.
fn write_found<W: Sink>(
    alloc: Global,
    found: &Option<Journals>,
    writer: &mut W,
) -> Result<(), RunFault>
    requires { W.failed writer.old < 2 ^ 64 - 1 }
    ensures { IsWrittenOut result (found_line found.now)
        (W.taken writer.old) (W.taken writer.new) (W.failed writer.old) (W.failed writer.new) }
{
    match found {
        Some(journals) => write_journals(alloc, journals, writer),
        None => write_unread(alloc, writer),
    }
}

/// Writes what an audit tells of bytes that are no journal file.
fn write_unread<W: Sink>(alloc: Global, writer: &mut W) -> Result<(), RunFault>
    requires { W.failed writer.old < 2 ^ 64 - 1 }
    ensures { IsWrittenOut result (verdict_line AuditFinding.Unreadable)
        (W.taken writer.old) (W.taken writer.new) (W.failed writer.old) (W.failed writer.new) }
{
    let line = AuditFinding::Unreadable.line(alloc)?;
    write_line(writer, line.as_slice())
}
