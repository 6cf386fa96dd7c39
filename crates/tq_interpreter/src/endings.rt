//! The lines of a transaction that abort it and that ask how it ended.
ghost use Rattle.std.specs.Prelude.{◌≡◌, ◌++◌, [], false, codes, IfOk, OnOk, OnErr};
ghost use Rattle.tq_interpreter.specs.{Known.{IsKept, IsLater}, Recorded.progress_of};
ghost use Rattle.tq_interpreter.specs.TxnAsked as spec;
ghost use Rattle.tq_text.specs.Print.{Extends, printed_line, Prints};

use crate::recorder::Recorder;
use crate::states::stand_in;
use crate::txn_slot::{Ending, TxnSlot};
use std::alloc::Global;
use std::mem;
use tq_desk::{DeskAsk, DeskReply};
use tq_shape::{Memory, Shared};
use tq_text::{push_desk_refusal, say_fault, say_line, say_verdict};
use tq_txn::{Abortion, Asker, LineFault, abort};

/// Aborts a transaction, and ends it at its servers.
pub(crate) fn abort_txn(
    recorder: &mut Recorder,
    alloc: Global,
    kept: &mut TxnSlot,
    text: &mut Vec<u8>,
) -> Result<(), Memory>
    requires { IsKept recorder.old kept.old.txn }
    ensures answered { OnOk result (spec.IsAnswered (spec.abort_asked 0 kept.old)
        (progress_of recorder.old text.old) (progress_of recorder.new text.new) kept.new) }
    ensures txn { IsKept recorder.new kept.new.txn }
    ensures later { IsLater recorder.old recorder.new }
    ensures kept { OnErr result (Extends text.old.items text.new.items) }
{
    let vacant = stand_in(alloc, &kept.txn);
    let txn = mem::replace(&mut kept.txn, vacant);
    recorder.show_replayed();
    let Abortion { answer, txn } = abort(recorder, alloc, txn);
    recorder.show_replayed();
    kept.txn = txn;
    say_aborted(text, answer)?;
    Ok(())
}

/// Puts that a transaction aborted behind the text, as a line, or why it did not.
fn say_aborted(text: &mut Vec<u8>, answer: Result<(), LineFault>) -> Result<(), Memory>
    ensures text { OnOk result
        (Prints text.old text.new (spec.result_text [] (λ all. codes "aborted") answer)) }
    ensures memory { OnOk result (spec.is_refused_memory answer ≡ false) }
    ensures kept { OnErr result (Extends text.old.items text.new.items) }
{
    match answer {
        Ok(()) => say_line(text, b"aborted")?,
        Err(fault) => say_fault(text, &[], fault)?,
    }
    Ok(())
}

/// Asks the desk how a transaction ended, and keeps the verdict.
pub(crate) fn resolve(
    recorder: &mut Recorder,
    alloc: Global,
    number: u64,
    kept: &mut TxnSlot,
    text: &mut Vec<u8>,
) -> Result<(), Memory>
    requires { IsKept recorder.old kept.old.txn }
    ensures answered { OnOk result (spec.IsAnswered (spec.resolve_asked number kept.old)
        (progress_of recorder.old text.old) (progress_of recorder.new text.new) kept.new) }
    ensures txn { IsKept recorder.new kept.new.txn }
    ensures later { IsLater recorder.old recorder.new }
    ensures kept { OnErr result (Extends text.old.items text.new.items) }
{
    recorder.show_replayed();
    let answer = recorder.desk(alloc, DeskAsk::Resolve { txn: number });
    recorder.show_replayed();
    match answer {
        Ok(told) => {
            say_resolved(text, &told.reply)?;
            keep_reply(alloc, kept, told.number, told.reply)?;
            Ok(())
        }
        Err(fault) => {
            say_fault(text, &[], LineFault::from(fault))?;
            Ok(())
        }
    }
}

/// Puts how the desk says that a transaction ended behind the text, as a line.
fn say_resolved(text: &mut Vec<u8>, reply: &DeskReply) -> Result<(), Memory>
    ensures text { OnOk result (Prints text.old text.new (spec.resolved_text reply.now)) }
    ensures kept { OnErr result (Extends text.old.items text.new.items) }
{
    match reply {
        DeskReply::Verdict(verdict) => say_verdict(text, verdict),
        DeskReply::Refused(refusal) => {
            push_desk_refusal(text, refusal)?;
            text.push(b'\n')?;
            Ok(())
        }
        _ => say_line(text, b"bad answer"),
    }
}

/// Keeps the verdict that the desk's answer tells.
fn keep_reply(alloc: Global, kept: &mut TxnSlot, cite: u64, reply: DeskReply) -> Result<(), Memory>
    ensures kept { OnOk result (kept.new ≡ spec.resolved_kept kept.old cite reply) }
    ensures txn { kept.new.txn ≡ kept.old.txn }
{
    if let DeskReply::Verdict(verdict) = reply {
        kept.told = Some(Shared::new(alloc, Ending { verdict, cite })?);
    }
    Ok(())
}
