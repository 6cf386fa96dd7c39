//! The scripts of a text.

ghost use Rattle.std.specs.Prelude.{◌≤◌, length};
ghost use Rattle.tq_syntax.specs.Scripts.{IsRead, lines_within, said_lines};

use crate::fault::ScriptFault;
use crate::gathered::Gathered;
use crate::script::Script;
use crate::word::without_return;
use std::alloc::Global;

/// The most bytes of a text that is not bad.
pub const SCRIPT_LIMIT: usize = 16_777_216;

/// The most clients of a text that is not bad.
pub const CLIENT_LIMIT: usize = 16;

/// The scripts of the clients, in their order. The bytes are those of the whole text; of one that has more than the limit,
/// as many as show that. A bad text gives the number of its first bad line.
pub fn read_scripts(alloc: Global, bytes: &[u8]) -> Result<Vec<Script>, ScriptFault>
    ensures { IsRead (said_lines bytes.now) result }
{
    let length = bytes.len();
    read_within(
        alloc,
        &bytes[..length.min(SCRIPT_LIMIT)],
        length > SCRIPT_LIMIT,
    )
}

/// The scripts of a text whose bytes within the limit are these, and which may go on over it.
fn read_within(alloc: Global, bytes: &[u8], is_over: bool) -> Result<Vec<Script>, ScriptFault>
    requires few { length bytes.now ≤ SCRIPT_LIMIT }
    ensures { IsRead (lines_within is_over bytes.now) result }
{
    let mut gathered = Gathered::new(alloc);
    let mut number: u64 = 0;
    let mut start = 0;
    for (place, byte) in bytes.iter().enumerate() {
        if *byte == b'\n' {
            number += 1;
            let line = without_return(&bytes[start..place]);
            gathered = match gathered.with_bytes(alloc, line, number) {
                Ok(next) => next,
                Err(fault) => return Err(fault),
            };
            start = place + 1;
        }
    }
    if is_over {
        return Err(ScriptFault::Bad { line: number + 1 });
    }
    if start == bytes.len() {
        return gathered.finish();
    }
    match gathered.with_bytes(alloc, &bytes[start..], number + 1) {
        Ok(all) => all.finish(),
        Err(fault) => Err(fault),
    }
}
