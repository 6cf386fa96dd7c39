//! Asks that are answered.

ghost use Rattle.std.specs.Prelude.{◌≡◌, ◌≢◌, ◌+◌, ◌-◌, ◌^◌, ◌<◌, ◌≤◌, ◌++◌, [], ℕ, List, IfErr, IfOk, IsTrue, OnOk, OnErr, length};
ghost use Rattle.std.specs.Io.KnownBytes.{Appends};
ghost use Rattle.tq_devices.specs.Devices.{AppendsFront};
ghost use Rattle.tq_host.specs.Told.{Told, IsTold, with_told, nothing_left, IsHalfOut};
ghost use Rattle.tq_host.specs.Served.{IsHostCount, IsServed};

use crate::batch::Batch;
use crate::fault::HostFault;
use crate::log::Log;
use crate::wire::Wire;
use memchr::memchr;
use std::alloc::Global;
use tq_devices::{Sink, Source, write_out};
use tq_json::Scratch;
use tq_shape::{Journaled, Memory};

/// How many bytes are read at a time.
const PIECE: usize = 65_536;

/// The most bytes of a line.
const LINE_LIMIT: usize = 67_108_864;

/// Answers the lines of the source, one after another, each by one line. The entries of the asks that are taken stand in the
/// log and are synced before a byte of their answers is written; what is read at once is synced once. What no line feed ends
/// at the end of the source is no line. A line of which more than 64 MiB came, and no line feed, ends it by `TooLong`.
pub fn serve<P: Wire, R: Source, W: Sink, L: Log>(
    alloc: Global,
    part: Journaled<P>,
    log: &mut L,
    reader: &mut R,
    writer: &mut W,
) -> Result<(), HostFault>
    requires synced { L.synced log.old ≡ L.kept log.old }
    requires reads { R.failed reader.old < 2 ^ 64 - 1 }
    requires writes { W.failed writer.old < 2 ^ 64 - 1 }
    requires logs { L.failed log.old < 2 ^ 64 - 1 }
    ensures served { (bytes : List ℕ) × Appends (R.given reader.old) (R.given reader.new) bytes
        × IsServed P.reply P.after P.reads_ask P.reads P.entry_line P.told_line result part
        (L.kept log.old) (L.kept log.new) (L.synced log.new)
        (W.taken writer.old) (W.taken writer.new) bytes }
    ensures end { OnOk result (IsTrue (R.is_ended reader.new)) }
    ensures counts { IsHostCount result (R.failed reader.old) (R.failed reader.new)
        (W.failed writer.old) (W.failed writer.new) (L.failed log.old) (L.failed log.new) }
{
    let mut batch = Batch::new(alloc, part);
    let mut line = Vec::new(alloc);
    let mut scratch = Scratch::new(alloc);
    let mut buffer = [0; PIECE];
    let mut at = 0;
    let mut count = 0;
    for _turn in 0..u64::MAX {
        let unread = &buffer[at..count];
        if let Some(place) = memchr(b'\n', unread) {
            let bytes = &unread[..place + 1];
            let Ok(()) = end_line(alloc, &mut scratch, &mut batch, &mut line, bytes) else {
                return Err(HostFault::Memory);
            };
            at += place + 1;
            continue;
        }
        if line.len() > LINE_LIMIT {
            return Err(HostFault::TooLong);
        }
        let Ok(()) = line.extend_from_slice(unread) else {
            return Err(HostFault::Memory);
        };
        if let Err(fault) = flush(&mut batch, log, writer) {
            return Err(fault);
        }
        let Ok(more) = reader.read(&mut buffer) else {
            return Err(HostFault::Read);
        };
        if more == 0 {
            return Ok(());
        }
        at = 0;
        count = more;
    }
    Err(HostFault::TooLong)
}

/// Answers the line that ends with these bytes. Where memory is refused, what was answered before is as it was.
fn end_line<P: Wire>(
    alloc: Global,
    scratch: &mut Scratch,
    batch: &mut Batch<P>,
    line: &mut Vec<u8>,
    bytes: &[u8],
) -> Result<(), Memory>
    ensures told { OnOk result ((answer : Told P.Ask P.Reply)
        × IsTold P.reply P.after P.reads_ask P.reads P.entry_line
        batch.old.standing (line.old.items ++ bytes.now) answer
        × (batch.new ≡ with_told P.after P.entry_line P.told_line batch.old answer)) }
    ensures line { OnOk result (line.new.items ≡ []) }
{
    line.extend_from_slice(bytes)?;
    batch.answer(alloc, scratch, line.as_slice())?;
    line.clear();
    Ok(())
}

/// Puts the entries into the log and syncs it, and then writes the answers.
fn flush<P: Wire, W: Sink, L: Log>(
    batch: &mut Batch<P>,
    log: &mut L,
    writer: &mut W,
) -> Result<(), HostFault>
    requires synced { L.synced log.old ≡ L.kept log.old }
    requires writes { W.failed writer.old < 2 ^ 64 - 1 }
    requires logs { L.failed log.old < 2 ^ 64 - 1 }
    ensures batch { OnOk result (batch.new ≡ nothing_left batch.old.standing) }
    ensures kept { OnOk result (Appends (L.kept log.old) (L.kept log.new) batch.old.entries) }
    ensures synced { OnOk result (L.synced log.new ≡ L.kept log.new) }
    ensures written { OnOk result
        (Appends (W.taken writer.old) (W.taken writer.new) batch.old.answers) }
    ensures short { IfErr result (λ fault. fault ≢ HostFault.TooLong) }
    ensures half { OnErr result (IsHalfOut batch.old.entries batch.old.answers
        (L.kept log.old) (L.kept log.new) (L.synced log.old) (L.synced log.new)
        (W.taken writer.old) (W.taken writer.new)) }
    ensures counts { IsHostCount result 0 0
        (W.failed writer.old) (W.failed writer.new) (L.failed log.old) (L.failed log.new) }
{
    if let Err(fault) = keep(log, batch.entries()) {
        return Err(fault);
    }
    let Ok(()) = write_out(writer, batch.answers()) else {
        return Err(HostFault::Write);
    };
    batch.clear();
    Ok(())
}

/// Puts the entries into the log, and syncs it.
fn keep<L: Log>(log: &mut L, entries: &[u8]) -> Result<(), HostFault>
    requires synced { L.synced log.old ≡ L.kept log.old }
    requires logs { L.failed log.old < 2 ^ 64 - 1 }
    ensures kept { OnOk result (Appends (L.kept log.old) (L.kept log.new) entries.now) }
    ensures synced { OnOk result (L.synced log.new ≡ L.kept log.new) }
    ensures short { IfErr result (λ fault. fault ≢ HostFault.TooLong) }
    ensures half { OnErr result
        ((count : ℕ) × AppendsFront (L.kept log.old) (L.kept log.new) entries.now count) }
    ensures old { OnErr result (L.synced log.new ≡ L.synced log.old) }
    ensures counts { IsHostCount result 0 0 0 0 (L.failed log.old) (L.failed log.new) }
{
    if entries.is_empty() {
        return Ok(());
    }
    let Ok(()) = log.append(entries) else {
        return Err(HostFault::Log);
    };
    let Ok(()) = log.sync() else {
        return Err(HostFault::Log);
    };
    Ok(())
}
