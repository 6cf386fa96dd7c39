//! A host from its start to its end.

ghost use Rattle.std.specs.{Prelude.{◌≡◌, ◌-◌, ◌^◌, ◌<◌, ◌++◌, ◌∷◌, [], ℕ, List, OnOk, OnErr}, Fmt.decimal};
ghost use Rattle.std.specs.Io.KnownBytes.{Appends};
ghost use Rattle.tq_shape.specs.Agrees.{standing_part};
ghost use Rattle.tq_host.specs.{Hosted.{IsHosted, IsFaultTold, IsFront}, Served.IsHostCount};

use crate::fault::{HostFault, ReplayFault};
use crate::log::Log;
use crate::replaying::replay;
use crate::serving::serve;
use crate::wire::Wire;
use std::alloc::Global;
use tq_devices::{Sink, Source, write_out};
use tq_shape::{Memory, push_number};

/// The part that the lines of a log lead to answers the lines of the source, with status 0 at its end. Where they lead to none,
/// a line tells why, `wrong entry N` with status 3 or `unreadable entry N` with status 4, and no ask is read.
///
/// The text is what the log keeps, all of it synced, but for a last line that no line feed ends, which was told to nobody. It is
/// let go before the first ask is read.
pub fn host<P: Wire, R: Source, W: Sink, L: Log>(
    alloc: Global,
    part: P,
    limit: u32,
    text: Vec<u8>,
    log: &mut L,
    reader: &mut R,
    writer: &mut W,
) -> Result<u8, HostFault>
    requires opening { part ≡ P.opening part }
    requires synced { L.synced log.old ≡ L.kept log.old }
    requires reads { R.failed reader.old < 2 ^ 64 - 1 }
    requires writes { W.failed writer.old < 2 ^ 64 - 1 }
    requires logs { L.failed log.old < 2 ^ 64 - 1 }
    ensures hosted { (bytes : List ℕ) × Appends (R.given reader.old) (R.given reader.new) bytes
        × IsHosted P.reply P.after P.reads_ask P.reads P.entry_line P.told_line result
        (standing_part part [] limit) text.items (L.kept log.old) (L.kept log.new) (L.synced log.new)
        (W.taken writer.old) (W.taken writer.new) bytes }
    ensures counts { IsHostCount result (R.failed reader.old) (R.failed reader.new)
        (W.failed writer.old) (W.failed writer.new) (L.failed log.old) (L.failed log.new) }
{
    match replay(alloc, part, limit, text.as_slice()) {
        Ok(start) => {
            drop(text);
            if let Err(fault) = serve(alloc, start, log, reader, writer) {
                return Err(fault);
            }
            Ok(0)
        }
        Err(fault) => tell(alloc, fault, writer),
    }
}

/// Writes the line that tells of the fault, and answers the status.
fn tell<W: Sink>(alloc: Global, fault: ReplayFault, writer: &mut W) -> Result<u8, HostFault>
    requires { W.failed writer.old < 2 ^ 64 - 1 }
    ensures told { IsFaultTold result fault (W.taken writer.old) (W.taken writer.new) }
    ensures counts { IsHostCount result 0 0 (W.failed writer.old) (W.failed writer.new) 0 0 }
{
    match fault {
        ReplayFault::Memory => Err(HostFault::Memory),
        ReplayFault::Wrong { number } => {
            if let Err(cause) = write_line(alloc, b"wrong entry ", number, writer) {
                return Err(cause);
            }
            Ok(3)
        }
        ReplayFault::Unreadable { number } => {
            if let Err(cause) = write_line(alloc, b"unreadable entry ", number, writer) {
                return Err(cause);
            }
            Ok(4)
        }
    }
}

/// Writes the words and the number as one line, or a front of it where the sink fails.
fn write_line<W: Sink>(
    alloc: Global,
    words: &[u8],
    number: u64,
    writer: &mut W,
) -> Result<(), HostFault>
    requires { W.failed writer.old < 2 ^ 64 - 1 }
    ensures ok { OnOk result (Appends (W.taken writer.old) (W.taken writer.new)
        (words.now ++ decimal number ++ 10 ∷ [])) }
    ensures err { OnErr result (IsFront (words.now ++ decimal number ++ 10 ∷ [])
        (W.taken writer.old) (W.taken writer.new)) }
    ensures counts { IsHostCount result 0 0 (W.failed writer.old) (W.failed writer.new) 0 0 }
{
    let mut line = Vec::new(alloc);
    let Ok(()) = put_words(&mut line, words, number) else {
        return Err(HostFault::Memory);
    };
    let Ok(()) = write_out(writer, line.as_slice()) else {
        return Err(HostFault::Write);
    };
    Ok(())
}

/// Puts the words, the number and a line feed.
fn put_words(line: &mut Vec<u8>, words: &[u8], number: u64) -> Result<(), Memory>
    ensures { OnOk result
        (line.new.items ≡ line.old.items ++ words.now ++ decimal number ++ 10 ∷ []) }
{
    line.extend_from_slice(words)?;
    push_number(line, number)?;
    line.reserve(1)?;
    line.push_reserved(b'\n');
    Ok(())
}
