//! All bytes written to a sink.

ghost use Rattle.std.specs.Prelude.{◌^◌, ◌-◌, ◌<◌};
ghost use Rattle.tq_devices.specs.Devices.{IsWritten};

use crate::device::{Failed, Sink};
use crate::fault::RunFault;

/// Writes all the bytes, or a front of them where the sink fails.
pub fn write_out<W: Sink>(writer: &mut W, bytes: &[u8]) -> Result<(), RunFault>
    requires { W.failed writer.old < 2 ^ 64 - 1 }
    ensures { IsWritten result bytes.now
        (W.taken writer.old) (W.taken writer.new) (W.failed writer.old) (W.failed writer.new) }
{
    let mut rest = bytes;
    while !rest.is_empty() {
        match writer.write(rest) {
            Ok(count) => rest = &rest[count..],
            Err(Failed) => return Err(RunFault::Write),
        }
    }
    Ok(())
}
