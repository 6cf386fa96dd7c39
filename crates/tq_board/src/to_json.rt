//! What the form has a value for, and the lists of such values.
ghost use Rattle.std.specs.{Prelude.OnOk, List.AllByRecursion};
ghost use Rattle.serde_json.specs.Written.{comma_if, compact_text};
ghost use Rattle.tq_board.specs.{Values.{code_value, list_value, IsFitting}, Lines.Adds};

use crate::out::Out;

/// A refusal that tells no more than its code.
pub(crate) fn put_code<O: Out>(out: &mut O, code: u64) -> Result<(), O::Fault>
    ensures adds { Adds O.puts result out.old out.new (compact_text (code_value code)) }
    ensures fits { OnOk result (IsFitting (code_value code)) }
{
    code.put_after(out, "{\"code\":")?;
    out.push(",\"is\":\"refused\"}")
}

/// A list, in order.
pub(crate) fn put_list<T: ToJson, O: Out>(out: &mut O, items: &[T]) -> Result<(), O::Fault>
    ensures adds { Adds O.puts result out.old out.new
        (compact_text (list_value T.value items.now)) }
    ensures fits { OnOk result (IsFitting (list_value T.value items.now)) }
    ensures kept { OnOk result (AllByRecursion T.sound items.now) }
{
    out.push("[")?;
    let mut later = false;
    for item in items {
        put_comma(out, later)?;
        item.put(out)?;
        later = true;
    }
    out.push("]")?;
    Ok(())
}

/// A comma, where something stands before.
#[inline(always)]
fn put_comma<O: Out>(out: &mut O, later: bool) -> Result<(), O::Fault>
    ensures { Adds O.puts result out.old out.new (comma_if later) }
{
    if later {
        return out.push(",");
    }
    Ok(())
}

/// What the form has a value for, so that it can be written.
pub trait ToJson {
    ghost use Rattle.std.specs.Prelude.{◌++◌, OnOk};
    ghost use Rattle.serde_json.specs.{Data.Data, Written.compact_text};
    ghost use Rattle.tq_board.specs.{Values.IsFitting, Lines.Adds};

    /// The value of the form.
    ghost value: { Self → Data };

    /// What the type keeps.
    ghost sound: { Self → Type 0 };

    /// Writes the value, whose numbers fit 64 bits.
    fn put<O: Out>(&self, out: &mut O) -> Result<(), O::Fault>
        ensures adds { Adds O.puts result out.old out.new (compact_text (value self.now)) }
        ensures fits { OnOk result (IsFitting (value self.now)) }
        ensures kept { OnOk result (sound self.now) };

    /// Writes a piece that stands ready, and the value behind it.
    fn put_after<O: Out>(&self, out: &mut O, piece: &str) -> Result<(), O::Fault>
        ensures adds { Adds O.puts result out.old out.new
            (piece.now ++ compact_text (value self.now)) }
        ensures fits { OnOk result (IsFitting (value self.now)) }
        ensures kept { OnOk result (sound self.now) }
    {
        out.push(piece)?;
        self.put(out)?;
        Ok(())
    }
}
