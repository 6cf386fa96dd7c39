//! One entry, and the answer to one ask, as a line each.
ghost use Rattle.std.specs.{Prelude.{◌≡◌, OnOk, IfOk}, String.string_bytes};
ghost use Rattle.serde_json.specs.Written.{compact_text};
ghost use Rattle.tq_shape.specs.Journal.{entry};
ghost use Rattle.tq_board.specs.{Values.{IsFitting, entry_value}, Lines.{IsLine, entry_line, answer_line, Adds}};

use crate::out::{Out, Text};
use crate::to_json::ToJson;
use std::alloc::Global;
use tq_shape::Memory;

/// An ask with its reply.
#[inline(always)]
pub(crate) fn put_entry<A: ToJson, R: ToJson, O: Out>(
    out: &mut O,
    ask: &A,
    reply: &R,
) -> Result<(), O::Fault>
    ensures adds { Adds O.puts result out.old out.new
        (compact_text (entry_value A.value R.value (entry ask.now reply.now))) }
    ensures fits { OnOk result (IsFitting (entry_value A.value R.value (entry ask.now reply.now))) }
    ensures kept { OnOk result (A.sound ask.now × R.sound reply.now) }
{
    ask.put_after(out, "{\"ask\":")?;
    reply.put_after(out, ",\"reply\":")?;
    out.push("}")
}

/// An entry of a part as one line: an ask with its reply, as entries stand in journal files of format 2, with no space, and a line feed at
/// the end, before which there is none. Answers an error only where memory is refused.
pub fn entry_to_json<A: ToJson, R: ToJson>(
    alloc: Global,
    ask: &A,
    reply: &R,
) -> Result<String, Memory>
    ensures text { IfOk result (λ line.
        string_bytes line ≡ entry_line A.value R.value ask.now reply.now) }
    ensures whole { IfOk result (λ line. IsLine (string_bytes line)) }
    ensures fits { OnOk result (IsFitting (entry_value A.value R.value (entry ask.now reply.now))) }
    ensures kept { OnOk result (A.sound ask.now × R.sound reply.now) }
{
    let mut out = Text::new(alloc);
    put_entry(&mut out, ask, reply)?;
    out.push("\n")?;
    Ok(out.into_string())
}

/// What the asker is told as one line, with no space and a line feed at the end: the number of the entry and the reply. Answers an error
/// only where memory is refused.
pub fn answer_to_json<R: ToJson>(alloc: Global, number: u64, reply: &R) -> Result<String, Memory>
    ensures text { IfOk result (λ line.
        string_bytes line ≡ answer_line R.value number reply.now) }
    ensures whole { IfOk result (λ line. IsLine (string_bytes line)) }
{
    let mut out = Text::new(alloc);
    number.put_after(&mut out, "{\"number\":")?;
    reply.put_after(&mut out, ",\"reply\":")?;
    out.push("}")?;
    out.push("\n")?;
    Ok(out.into_string())
}
