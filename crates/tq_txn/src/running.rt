//! A client's script, line by line.

ghost use Rattle.std.specs.{Prelude.{◌≡◌, None, IfSome, IfOk}, Result.result_ok};
ghost use Rattle.tq_txn.specs.{Dialogue.Follows, Told.IsOpenIn};
ghost use Rattle.tq_txn.specs.Script as spec;

use crate::operating::{ask_view, mark};
use crate::transacting::{begin, close, commit_open, read, write};
use crate::{Asker, Open};
use std::alloc::Global;
use tq_live::ViewAsk;
use tq_shape::{Levels, Limits, Memory};
use tq_syntax::Script;
use tq_syntax::script::Line;

/// Runs a client's script. The client has at most one transaction: a line of a transaction does nothing where none is
/// open, one that is refused aborts it, and what is open at the end is aborted. `levels` is the tree whose servers the
/// asker asks. Answers an error only where memory is refused; then the asks so far stay asked.
pub fn run_script<A: Asker>(
    asker: &mut A,
    alloc: Global,
    levels: Levels,
    limits: Limits,
    script: &Script,
) -> Result<(), Memory>
    requires { A.levels asker.old ≡ levels }
    ensures asks { Follows (spec.script_asked levels limits script.now None)
        (A.told asker.old) (A.told asker.new) (result_ok result) }
    ensures tree { A.levels asker.new ≡ A.levels asker.old }
{
    let lines = script.lines();
    let mut open_txn = None;
    for line in lines {
        open_txn = run_line(asker, alloc, levels, limits, open_txn, line)?;
    }
    let _none = close(asker, alloc, open_txn)?;
    Ok(())
}

/// Runs a line, and answers the transaction that is open then.
fn run_line<A: Asker>(
    asker: &mut A,
    alloc: Global,
    levels: Levels,
    limits: Limits,
    open_txn: Option<Open>,
    line: &Line,
) -> Result<Option<Open>, Memory>
    requires tree { A.levels asker.old ≡ levels }
    requires txn { IfSome open_txn (IsOpenIn levels (A.told asker.old)) }
    ensures asks { Follows (spec.line_asked levels limits line.now open_txn)
        (A.told asker.old) (A.told asker.new) (result_ok result) }
    ensures txn { IfOk result (λ txn. IfSome txn (IsOpenIn levels (A.told asker.new))) }
    ensures tree { A.levels asker.new ≡ A.levels asker.old }
{
    match line {
        Line::Cost {
            server,
            read,
            write,
        } => {
            let ask = ViewAsk::SetCost {
                server: *server,
                read: *read,
                write: *write,
            };
            view_beside(asker, alloc, open_txn, ask)
        }
        Line::Down { server } => mark_beside(asker, alloc, levels, open_txn, *server, false),
        Line::Up { server } => mark_beside(asker, alloc, levels, open_txn, *server, true),
        Line::Choose { purpose } => {
            let ask = ViewAsk::Choose { purpose: *purpose };
            view_beside(asker, alloc, open_txn, ask)
        }
        Line::Begin => begin(asker, alloc, levels, limits, open_txn),
        Line::Read { file } => read(asker, alloc, open_txn, file),
        Line::Write { file, content } => write(asker, alloc, open_txn, file, content),
        Line::Commit => commit_open(asker, alloc, open_txn),
        Line::Abort => close(asker, alloc, open_txn),
    }
}

/// Asks the view. The client's transaction stays as it is.
fn view_beside<A: Asker>(
    asker: &mut A,
    alloc: Global,
    open_txn: Option<Open>,
    ask: ViewAsk,
) -> Result<Option<Open>, Memory>
    requires { IfSome open_txn (IsOpenIn (A.levels asker.old) (A.told asker.old)) }
    ensures asks { Follows (spec.leaving open_txn (spec.view_asked ask))
        (A.told asker.old) (A.told asker.new) (result_ok result) }
    ensures txn { IfOk result (λ txn.
        IfSome txn (IsOpenIn (A.levels asker.old) (A.told asker.new))) }
    ensures tree { A.levels asker.new ≡ A.levels asker.old }
{
    ask_view(asker, alloc, ask)?;
    Ok(open_txn)
}

/// A server goes down or comes up. The client's transaction stays as it is.
fn mark_beside<A: Asker>(
    asker: &mut A,
    alloc: Global,
    levels: Levels,
    open_txn: Option<Open>,
    server: u64,
    up: bool,
) -> Result<Option<Open>, Memory>
    requires tree { A.levels asker.old ≡ levels }
    requires txn { IfSome open_txn (IsOpenIn levels (A.told asker.old)) }
    ensures asks { Follows (spec.leaving open_txn (spec.mark_asked levels server up))
        (A.told asker.old) (A.told asker.new) (result_ok result) }
    ensures txn { IfOk result (λ txn. IfSome txn (IsOpenIn levels (A.told asker.new))) }
    ensures tree { A.levels asker.new ≡ A.levels asker.old }
{
    mark(asker, alloc, levels, server, up)?;
    Ok(open_txn)
}
