//! The lines of a transaction, by what they ask for.
ghost use Rattle.std.specs.Prelude.{◌≡◌, IfOk, OnOk, OnErr};
ghost use Rattle.tq_interpreter.specs.{Known.{IsKept, IsLater}, Recorded.progress_of};
ghost use Rattle.tq_interpreter.specs.TxnAsked as spec;
ghost use Rattle.tq_text.specs.Print.{Extends};

use crate::decisions::{CommitScope, decide_txn};
use crate::endings::{abort_txn, resolve};
use crate::operations::{Operation, operate};
use crate::recorder::Recorder;
use crate::server_lines::{Phase, ServerLine, run_at_server};
use crate::txn_slot::TxnSlot;
use std::alloc::Global;
use tq_shape::{Levels, Memory};
use tq_syntax::TxnLine;

/// Answers a line of a transaction: puts its text behind the text, as a line.
pub(crate) fn answer_txn(
    recorder: &mut Recorder,
    alloc: Global,
    levels: Levels,
    number: u64,
    kept: &mut TxnSlot,
    line: TxnLine,
    text: &mut Vec<u8>,
) -> Result<(), Memory>
    requires txn { IsKept recorder.old kept.old.txn }
    requires levels { levels ≡ recorder.old.journals.levels }
    ensures answered { OnOk result (spec.IsAnswered (spec.line_asked levels line number kept.old)
        (progress_of recorder.old text.old) (progress_of recorder.new text.new) kept.new) }
    ensures txn { IsKept recorder.new kept.new.txn }
    ensures later { IsLater recorder.old recorder.new }
    ensures kept { OnErr result (Extends text.old.items text.new.items) }
{
    match line {
        TxnLine::Read { file } => {
            operate(recorder, alloc, number, kept, &file, Operation::Read, text)
        }
        TxnLine::Write { file, content } => {
            let operation = Operation::Write { content };
            operate(recorder, alloc, number, kept, &file, operation, text)
        }
        TxnLine::Prepare { server } => {
            let errand = ServerLine::whole(Phase::Prepare, server);
            run_at_server(recorder, alloc, levels, number, kept, errand, text)
        }
        TxnLine::Decide => decide_txn(recorder, alloc, kept, CommitScope::Decide, text),
        TxnLine::Apply { server } => {
            let errand = ServerLine::whole(Phase::Apply, server);
            run_at_server(recorder, alloc, levels, number, kept, errand, text)
        }
        TxnLine::Commit => decide_txn(recorder, alloc, kept, CommitScope::Commit, text),
        TxnLine::Abort => abort_txn(recorder, alloc, kept, text),
        TxnLine::Resolve => resolve(recorder, alloc, number, kept, text),
        TxnLine::PrepareCrash { server, after } => {
            let errand = ServerLine::with_stop(Phase::Prepare, server, after);
            run_at_server(recorder, alloc, levels, number, kept, errand, text)
        }
        TxnLine::ApplyCrash { server, after } => {
            let errand = ServerLine::with_stop(Phase::Apply, server, after);
            run_at_server(recorder, alloc, levels, number, kept, errand, text)
        }
    }
}
