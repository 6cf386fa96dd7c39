//! The audit of a journal file: whether an order explains its journals.

ghost use Rattle.std.specs.{Prelude.{◌≡◌, ◌-◌, ◌^◌, ◌<◌, ℕ, List, IsTrue, OnOk, IfOk}, Io.KnownBytes.Appends};
ghost use Rattle.tq_devices.specs.Devices.{IsRunCount};
ghost use Rattle.tq_shell.specs.Audit.{IsAuditText, IsVerdict};

use crate::audit_finding::AuditFinding;
use crate::reading::read_all;
use std::alloc::{AllocError, Global};
use std::mem;
use tq_devices::{RunFault, Sink, Source, write_out};
use tq_json_read::{ReadFault, journals_from_json};
use tq_merge::{Fault, explain};
use tq_shape::Memory;

/// Reads a journal file to its end, writes the line of what is found in it, and answers that line's status. Nothing is
/// written where memory is refused, the source fails or the file is too long; a prefix of the line where the sink fails.
pub fn audit<R: Source, W: Sink>(
    alloc: Global,
    reader: &mut R,
    writer: &mut W,
) -> Result<u8, RunFault>
    requires reads { R.failed reader.old < 2 ^ 64 - 1 }
    requires writes { W.failed writer.old < 2 ^ 64 - 1 }
    ensures text { (bytes : List ℕ) × (text : List ℕ)
        × Appends (R.given reader.old) (R.given reader.new) bytes
        × Appends (W.taken writer.old) (W.taken writer.new) text
        × IsAuditText result bytes text }
    ensures end { OnOk result (IsTrue (R.is_ended reader.new)) }
    ensures counts { IsRunCount result
        (R.failed reader.old) (R.failed reader.new) (W.failed writer.old) (W.failed writer.new) }
{
    let bytes = read_all(alloc, reader)?;
    let verdict = judge(alloc, bytes.as_slice())?;
    let line = verdict.line(alloc)?;
    write_out(writer, line.as_slice())?;
    Ok(verdict.status())
}

/// What the bytes of a journal file tell: whether one sequential run explains its journals, and else why there is none. The
/// journals are left to the end of the process, which is to come.
pub(crate) fn judge(alloc: Global, bytes: &[u8]) -> Result<AuditFinding, Memory>
    ensures { IfOk result (IsVerdict bytes.now) }
{
    let journals = match journals_from_json(alloc, bytes) {
        Ok(journals) => journals,
        Err(ReadFault::Memory) => return Err(AllocError),
        Err(ReadFault::NotJson) => return Ok(AuditFinding::Unreadable),
        Err(ReadFault::NotJournals) => return Ok(AuditFinding::Unreadable),
    };
    let found = explain(alloc, &journals);
    mem::forget(journals);
    match found {
        Ok(order) => Ok(AuditFinding::Explained {
            entries: order.len() as u64,
        }),
        Err(Fault::Memory) => Err(AllocError),
        Err(Fault::Wrong { part, number }) => Ok(AuditFinding::Wrong { part, number }),
        Err(Fault::Stuck { placed }) => Ok(AuditFinding::Stuck { placed }),
    }
}
