//! The lines of a transaction that read and write.
ghost use Rattle.std.specs.Prelude.{◌≡◌, ◌++◌, [], false, IfOk, OnOk, OnErr};
ghost use Rattle.tq_txn.specs.declared.txn.Txn.TheVariants as states;
ghost use Rattle.tq_interpreter.specs.{Known.{IsKept, IsLater, in_state}, Recorded.progress_of};
ghost use Rattle.tq_interpreter.specs.TxnAsked as spec;
ghost use Rattle.tq_text.specs.Print.{Extends, printed_line, Prints};

use crate::recorder::Recorder;
use crate::states::say_decided;
use crate::txn_slot::TxnSlot;
use std::alloc::Global;
use tq_shape::Memory;
use tq_store::{Content, FileName};
use tq_text::{say_fault, say_number, say_reading, say_writing};
use tq_txn::{LineFault, Open, ReadAnswer, Txn, read_file, write_file};

/// What a line does with a file.
#[derive(Drop)]
pub(crate) enum Operation {
    Read,
    Write { content: Content },
}

/// Reads or writes a file in a transaction, or says that it is not open.
pub(crate) fn operate(
    recorder: &mut Recorder,
    alloc: Global,
    number: u64,
    kept: &mut TxnSlot,
    file: &FileName,
    operation: Operation,
    text: &mut Vec<u8>,
) -> Result<(), Memory>
    requires { IsKept recorder.old kept.old.txn }
    ensures answered { OnOk result (spec.IsAnswered
        (spec.operation_asked operation file.now number kept.old)
        (progress_of recorder.old text.old) (progress_of recorder.new text.new) kept.new) }
    ensures txn { IsKept recorder.new kept.new.txn }
    ensures later { IsLater recorder.old recorder.new }
    ensures kept { OnErr result (Extends text.old.items text.new.items) }
{
    match &mut kept.txn {
        Txn::Open(open) => operate_open(recorder, alloc, open, file, operation, text),
        Txn::Voting(_) => say_number(text, b"voting ", number),
        Txn::Ended(ended) => say_decided(text, ended.verdict()),
    }
}

/// Reads or writes a file in an open transaction.
fn operate_open(
    recorder: &mut Recorder,
    alloc: Global,
    open: &mut Open,
    file: &FileName,
    operation: Operation,
    text: &mut Vec<u8>,
) -> Result<(), Memory>
    requires { IsKept recorder.old (states.Open «open».old) }
    ensures answered { OnOk result ((kept : TxnSlot) →
        spec.IsAnswered (spec.operation_open operation file.now kept «open».old)
        (progress_of recorder.old text.old) (progress_of recorder.new text.new)
        (in_state kept (states.Open «open».new))) }
    ensures txn { IsKept recorder.new (states.Open «open».new) }
    ensures later { IsLater recorder.old recorder.new }
    ensures kept { OnErr result (Extends text.old.items text.new.items) }
{
    recorder.show_replayed();
    match operation {
        Operation::Read => {
            let answer = read_file(recorder, alloc, open, file);
            recorder.show_replayed();
            say_read(text, file, open, answer)?;
            Ok(())
        }
        Operation::Write { content } => {
            let answer = write_file(recorder, alloc, open, file, content);
            recorder.show_replayed();
            say_written(text, file, open, answer)?;
            Ok(())
        }
    }
}

/// Puts what was read behind the text, as a line, or why it was not.
fn say_read(
    text: &mut Vec<u8>,
    file: &FileName,
    reader: &Open,
    answer: Result<ReadAnswer, LineFault>,
) -> Result<(), Memory>
    ensures text { OnOk result (Prints text.old text.new
        (spec.result_text [] (spec.read_text file.now reader.now) answer)) }
    ensures memory { OnOk result (spec.is_refused_memory answer ≡ false) }
    ensures kept { OnErr result (Extends text.old.items text.new.items) }
{
    match answer {
        Ok(reading) => say_reading(text, file, reader.seen(file), &reading)?,
        Err(fault) => say_fault(text, &[], fault)?,
    }
    Ok(())
}

/// Puts what was written behind the text, as a line, or why it was not.
fn say_written(
    text: &mut Vec<u8>,
    file: &FileName,
    writer: &Open,
    answer: Result<u64, LineFault>,
) -> Result<(), Memory>
    ensures text { OnOk result (Prints text.old text.new
        (spec.result_text [] (spec.written_text file.now writer.now) answer)) }
    ensures memory { OnOk result (spec.is_refused_memory answer ≡ false) }
    ensures kept { OnErr result (Extends text.old.items text.new.items) }
{
    match answer {
        Ok(version) => say_writing(text, file, writer.op_written(file), version)?,
        Err(fault) => say_fault(text, &[], fault)?,
    }
    Ok(())
}
