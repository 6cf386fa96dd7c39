//! Client scripts in threads, from their source to what is written.

ghost use Rattle.std.specs.Prelude.{◌≡◌, ◌-◌, ◌^◌, ◌<◌, ◌≤◌, ◌⊎◌, ℕ, List, IsTrue, OnOk, length};
ghost use Rattle.std.specs.Io.KnownBytes.{Appends};
ghost use Rattle.tq_devices.specs.Devices.{IsRunCount};
ghost use Rattle.tq_shell.specs.{Reading.script_limit, Threads.IsThreadsText};

use crate::reading::read_within;
use crate::running::run_text;
use std::alloc::Global;
use std::mem;
use std::sync::Wait;
use std::thread::Threads;
use tq_devices::{RunFault, Sink, Source};
use tq_shape::Levels;
use tq_syntax::SCRIPT_LIMIT;

/// Reads client scripts, runs them in threads over a new cluster, closes it, and writes the journals of all parts as one
/// line. Answers the status 0; 1 where the cluster could not be closed, and 2 where a line makes a bad script: then the
/// line that tells of it is written. The fault is never that the input is too long: such an input is a bad script.
/// Nothing is written where memory is refused or the source fails; a prefix of the line where the sink fails. The line is written
/// as it comes, and never stands in memory whole. The journals are left to the end of the process, which takes them back at once.
pub fn threads<H: Threads + Wait + Sync, R: Source, W: Sink>(
    rt: &H,
    alloc: Global,
    levels: Levels,
    workers: u32,
    rounds: u32,
    reader: &mut R,
    writer: &mut W,
) -> Result<u8, RunFault>
    requires workers { workers ≤ 2 }
    requires rounds { rounds ≤ 1000 }
    requires reads { R.failed reader.old < 2 ^ 64 - 1 }
    requires writes { W.failed writer.old < 2 ^ 64 - 1 }
    ensures text { (bytes : List ℕ) × (text : List ℕ)
        × Appends (R.given reader.old) (R.given reader.new) bytes
        × Appends (W.taken writer.old) (W.taken writer.new) text
        × IsThreadsText result levels workers bytes text
        × OnOk result (IsTrue (R.is_ended reader.new) ⊎ (script_limit < length bytes)) }
    ensures counts { IsRunCount result
        (R.failed reader.old) (R.failed reader.new) (W.failed writer.old) (W.failed writer.new) }
{
    let bytes = read_within(alloc, reader, SCRIPT_LIMIT)?;
    let outcome = run_text(rt, alloc, levels, workers, rounds, bytes.as_slice())?;
    let status = outcome.status();
    outcome.write(alloc, writer)?;
    mem::forget(outcome);
    Ok(status)
}
