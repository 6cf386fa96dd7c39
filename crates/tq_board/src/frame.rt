//! The journals of all parts as one text.
ghost use Rattle.std.specs.{Prelude.{◌≡◌, ◌-◌, ◌^◌, ◌<◌, ◌∷◌, [], ◌++◌, IfOk, OnOk}, String.string_bytes};
ghost use Rattle.serde_json.specs.Written.{compact_text};
ghost use Rattle.tq_board.specs.{Form.{journals_line, journals_value}, Values.IsFitting, Sound.AreSound};
ghost use Rattle.tq_board.specs.Lines.{IsSpilled, IsWrittenOut, spill, IsTextOf, Adds};

use crate::out::{Out, Text};
use crate::room::Room;
use crate::spilling::Spilling;
use crate::to_json::{ToJson, put_list};
use std::alloc::Global;
use tq_devices::{RunFault, Sink};
use tq_json::Format;
use tq_shape::{Limits, Memory};
use tq_tables::Journals;

impl ToJson for Limits {
    ghost use Rattle.tq_board.specs.{Form.limits_value, Sound.HasLimits};

    ghost value = { limits_value };

    ghost sound = { HasLimits };

    fn put<O: Out>(&self, out: &mut O) -> Result<(), O::Fault> {
        self.entries().put_after(out, "{\"entries\":")?;
        self.files().put_after(out, ",\"files\":")?;
        self.ops().put_after(out, ",\"ops\":")?;
        out.push("}")
    }
}

/// The journals as one object.
fn put_journals<O: Out>(out: &mut O, journals: &Journals) -> Result<(), O::Fault>
    ensures adds { Adds O.puts result out.old out.new (compact_text (journals_value journals.now)) }
    ensures fits { OnOk result (IsFitting (journals_value journals.now)) }
    ensures kept { OnOk result (AreSound journals.now) }
{
    out.push("{\"desk\":")?;
    put_list(out, journals.desk())?;
    Format::Two.number().put_after(out, ",\"format\":")?;
    journals.levels().count().put_after(out, ",\"levels\":")?;
    journals.limits().put_after(out, ",\"limits\":")?;
    out.push(",\"servers\":")?;
    put_list(out, journals.servers())?;
    out.push(",\"view\":")?;
    put_list(out, journals.view())?;
    out.push("}")?;
    Ok(())
}

/// The journals as one line.
fn put_line<O: Out>(out: &mut O, journals: &Journals) -> Result<(), O::Fault>
    ensures adds { Adds O.puts result out.old out.new (journals_line journals.now) }
    ensures fits { OnOk result (IsFitting (journals_value journals.now)) }
    ensures kept { OnOk result (AreSound journals.now) }
{
    put_journals(out, journals)?;
    out.push("\n")?;
    Ok(())
}

/// The journals as JSON text of format 2, with a line feed at its end: with no space, the members of each object in ascending order
/// of their names, and contents in lower-case hexadecimal. Each number in it fits 64 bits. What is written is read as the
/// same journals. Answers an error only where memory is refused; nothing has changed then.
pub fn journals_to_json(alloc: Global, journals: &Journals) -> Result<String, Memory>
    ensures text { IfOk result (λ text.
        string_bytes text ≡ compact_text (journals_value journals.now) ++ 10 ∷ []) }
    ensures fits { OnOk result (IsFitting (journals_value journals.now)) }
    ensures back { IfOk result (λ text. IsTextOf (string_bytes text) journals.now) }
{
    let mut out = Text::new(alloc);
    put_line(&mut out, journals)?;
    Ok(out.into_string())
}

/// Writes the text of `journals_to_json` to the sink as it comes: no more of it than 66,000 bytes is ever in memory. Where memory
/// is refused nothing is written; where the sink fails, a front of the text.
pub fn write_journals<W: Sink>(
    alloc: Global,
    journals: &Journals,
    writer: &mut W,
) -> Result<(), RunFault>
    requires few { W.failed writer.old < 2 ^ 64 - 1 }
    ensures written { IsWrittenOut result (journals_line journals.now)
        (W.taken writer.old) (W.taken writer.new) (W.failed writer.old) (W.failed writer.new) }
    ensures fits { OnOk result (IsFitting (journals_value journals.now)) }
{
    let mut room = Room::new(alloc)?;
    let mut out = Spilling::new(writer, &mut room);
    spill_line(&mut out, journals);
    out.end()
}

/// Puts the journals as one line. Nothing was put before.
fn spill_line<W: Sink>(out: &mut Spilling<W>, journals: &Journals)
    requires nothing { IsSpilled (W.taken out.old.sink.now) (W.failed out.old.sink.now)
        (spill W.taken W.failed out.old.sink.now out.old.has_failed out.old.room.now) [] }
    ensures same_sink { out.new.sink.ghost_name ≡ out.old.sink.ghost_name }
    ensures same_room { out.new.room.ghost_name ≡ out.old.room.ghost_name }
    ensures spilled { IsSpilled (W.taken out.old.sink.now) (W.failed out.old.sink.now)
        (spill W.taken W.failed out.new.sink.now out.new.has_failed out.new.room.now)
        (journals_line journals.now) }
    ensures fits { IsFitting (journals_value journals.now) }
    ensures kept { AreSound journals.now }
{
    match put_line(out, journals) {
        Ok(()) => {}
        Err(never) => match never {},
    }
}
