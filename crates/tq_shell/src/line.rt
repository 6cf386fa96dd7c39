//! A line that is written.

ghost use Rattle.std.specs.Prelude.{◌-◌, ◌^◌, ◌<◌};
ghost use Rattle.tq_board.specs.Lines.{IsWrittenOut};

use tq_devices::{RunFault, Sink, write_out};

/// Writes a line that stands in memory, or a front of it where the sink fails.
pub(crate) fn write_line<W: Sink>(writer: &mut W, line: &[u8]) -> Result<(), RunFault>
    requires { W.failed writer.old < 2 ^ 64 - 1 }
    ensures { IsWrittenOut result line.now
        (W.taken writer.old) (W.taken writer.new) (W.failed writer.old) (W.failed writer.new) }
{
    write_out(writer, line)
}
