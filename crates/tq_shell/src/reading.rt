//! A source read to its end, within a limit.

ghost use Rattle.std.specs.Prelude.{◌≡◌, ◌-◌, ◌^◌, ◌<◌, ◌≤◌, ◌⊎◌, ℕ, List, IfOk, IfErr, IsTrue, OnOk, length};
ghost use Rattle.std.specs.Io.KnownBytes.{Appends};
ghost use Rattle.tq_shell.specs.Reading.{IsReadFault, IsSourceFault, file_limit};

use std::alloc::Global;
use tq_devices::{RunFault, Source};

/// The most bytes that a journal file has.
const FILE_LIMIT: usize = 67_108_864;

/// How many bytes are read at a time.
const PIECE: usize = 4_096;

/// All the bytes that the source gives up to its end, of a journal file.
pub(crate) fn read_all<R: Source>(alloc: Global, reader: &mut R) -> Result<Vec<u8>, RunFault>
    requires few { R.failed reader.old < 2 ^ 64 - 1 }
    ensures bytes { (bytes : List ℕ) × Appends (R.given reader.old) (R.given reader.new) bytes
        × IfOk result (λ all. (all.items ≡ bytes) × (length bytes ≤ file_limit))
        × IfErr result (IsReadFault bytes (R.failed reader.old) (R.failed reader.new)) }
    ensures end { OnOk result (IsTrue (R.is_ended reader.new)) }
    ensures none_failed { OnOk result (R.failed reader.new ≡ R.failed reader.old) }
{
    let bytes = read_within(alloc, reader, FILE_LIMIT)?;
    if bytes.len() > FILE_LIMIT {
        return Err(RunFault::TooLong);
    }
    Ok(bytes)
}

/// The bytes that the source gives up to its end, or up to the piece with which they are more than the limit.
pub(crate) fn read_within<R: Source>(
    alloc: Global,
    reader: &mut R,
    limit: usize,
) -> Result<Vec<u8>, RunFault>
    requires few { R.failed reader.old < 2 ^ 64 - 1 }
    ensures bytes { (bytes : List ℕ) × Appends (R.given reader.old) (R.given reader.new) bytes
        × IfOk result (λ all. all.items ≡ bytes)
        × IfErr result (IsSourceFault (R.failed reader.old) (R.failed reader.new)) }
    ensures end { IfOk result (λ all. IsTrue (R.is_ended reader.new) ⊎ (limit < length all.items)) }
    ensures none_failed { OnOk result (R.failed reader.new ≡ R.failed reader.old) }
{
    let mut buffer = [0; PIECE];
    let mut bytes = Vec::new(alloc);
    while bytes.len() <= limit {
        let Ok(count) = reader.read(&mut buffer) else {
            return Err(RunFault::Read);
        };
        if count == 0 {
            return Ok(bytes);
        }
        bytes.extend_from_slice(&buffer[..count])?;
    }
    Ok(bytes)
}
