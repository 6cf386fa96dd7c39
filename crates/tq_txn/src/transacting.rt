//! The lines of a client's transaction.
ghost use Rattle.std.specs.{Prelude.{◌≡◌, List, None, IfSome, IfOk}, Result.result_ok};
ghost use Rattle.tq_txn.specs.{Dialogue.Follows, Told.{IsOpenIn, Knows, levels_of}, declared.asker.Exchange.Exchange};
ghost use Rattle.tq_txn.specs.Script as spec;

use crate::{
    Abortion, AskFault, Asker, Decision, DeskTold, LineFault, Open, Txn, abort, commit, read_file,
    write_file,
};
use std::alloc::{AllocError, Global};
use tq_desk::{DeskAsk, DeskReply};
use tq_shape::{Levels, Limits, Memory};
use tq_store::{Content, FileName};

/// Whether a line was answered, and not refused.
fn was_answered<T: Drop>(answer: Result<T, LineFault>) -> Result<bool, Memory>
    ensures { result_ok result ≡ spec.was_answered answer }
{
    match answer {
        Ok(_value) => Ok(true),
        Err(LineFault::Memory) => Err(AllocError),
        Err(_fault) => Ok(false),
    }
}

/// Aborts a transaction, whatever is answered: then none is open.
fn give_up<A: Asker>(asker: &mut A, alloc: Global, txn: Txn) -> Result<Option<Open>, Memory>
    requires tree { levels_of txn ≡ A.levels asker.old }
    requires knows { Knows (A.told asker.old) txn }
    ensures asks { Follows (spec.given_up txn)
        (A.told asker.old) (A.told asker.new) (result_ok result) }
    ensures none { IfOk result (λ left. left ≡ None) }
    ensures tree { A.levels asker.new ≡ A.levels asker.old }
{
    let Abortion {
        answer,
        txn: _ended,
    } = abort(asker, alloc, txn);
    let _done = was_answered(answer)?;
    Ok(None)
}

/// Aborts the transaction that is open, if one is: then none is.
pub(crate) fn close<A: Asker>(
    asker: &mut A,
    alloc: Global,
    open_txn: Option<Open>,
) -> Result<Option<Open>, Memory>
    requires { IfSome open_txn (IsOpenIn (A.levels asker.old) (A.told asker.old)) }
    ensures asks { Follows (spec.closing open_txn)
        (A.told asker.old) (A.told asker.new) (result_ok result) }
    ensures none { IfOk result (λ left. left ≡ None) }
    ensures tree { A.levels asker.new ≡ A.levels asker.old }
{
    match open_txn {
        Some(txn) => give_up(asker, alloc, Txn::Open(txn)),
        None => Ok(None),
    }
}

/// The transaction that the desk's answer begins.
fn txn_of_answer(
    alloc: Global,
    levels: Levels,
    limits: Limits,
    answer: Result<DeskTold, AskFault>,
) -> Result<Option<Open>, Memory>
    ensures value { result_ok result ≡ spec.txn_of_answer levels limits answer }
    ensures txn { (told : List Exchange) → IfOk result (λ txn. IfSome txn (IsOpenIn levels told)) }
{
    match answer {
        Ok(told) => Ok(txn_of_reply(alloc, levels, limits, told.reply)),
        Err(AskFault::Memory) => Err(AllocError),
        Err(AskFault::JournalFull { .. }) => Ok(None),
        Err(AskFault::Unfounded { .. }) => Ok(None),
    }
}

fn txn_of_reply(alloc: Global, levels: Levels, limits: Limits, reply: DeskReply) -> Option<Open>
    ensures value { result ≡ spec.txn_of_reply levels limits reply }
    ensures txn { (told : List Exchange) → IfSome result (IsOpenIn levels told) }
{
    match reply {
        DeskReply::Txn(number) => Some(Open::new(alloc, levels, limits, number)),
        _ => None,
    }
}

/// Begins a transaction, after the one that is open was aborted.
pub(crate) fn begin<A: Asker>(
    asker: &mut A,
    alloc: Global,
    levels: Levels,
    limits: Limits,
    open_txn: Option<Open>,
) -> Result<Option<Open>, Memory>
    requires { IfSome open_txn (IsOpenIn (A.levels asker.old) (A.told asker.old)) }
    ensures asks { Follows (spec.begin_asked levels limits open_txn)
        (A.told asker.old) (A.told asker.new) (result_ok result) }
    ensures txn { IfOk result (λ txn. IfSome txn (IsOpenIn levels (A.told asker.new))) }
    ensures tree { A.levels asker.new ≡ A.levels asker.old }
{
    let _none = close(asker, alloc, open_txn)?;
    ask_begin(asker, alloc, levels, limits)
}

fn ask_begin<A: Asker>(
    asker: &mut A,
    alloc: Global,
    levels: Levels,
    limits: Limits,
) -> Result<Option<Open>, Memory>
    ensures asks { Follows (spec.desk_begun levels limits)
        (A.told asker.old) (A.told asker.new) (result_ok result) }
    ensures txn { IfOk result (λ txn. IfSome txn (IsOpenIn levels (A.told asker.new))) }
    ensures tree { A.levels asker.new ≡ A.levels asker.old }
{
    let answer = asker.desk(alloc, DeskAsk::Begin);
    txn_of_answer(alloc, levels, limits, answer)
}

/// The transaction after a read or a write: still open where that was answered, and aborted where it was refused.
fn after<A: Asker>(
    asker: &mut A,
    alloc: Global,
    open_txn: Open,
    answered: bool,
) -> Result<Option<Open>, Memory>
    requires { IsOpenIn (A.levels asker.old) (A.told asker.old) open_txn }
    ensures asks { Follows (spec.after answered open_txn)
        (A.told asker.old) (A.told asker.new) (result_ok result) }
    ensures txn { IfOk result (λ txn.
        IfSome txn (IsOpenIn (A.levels asker.old) (A.told asker.new))) }
    ensures tree { A.levels asker.new ≡ A.levels asker.old }
{
    if answered {
        return Ok(Some(open_txn));
    }
    give_up(asker, alloc, Txn::Open(open_txn))
}

/// Reads a file in the transaction that is open, if one is.
pub(crate) fn read<A: Asker>(
    asker: &mut A,
    alloc: Global,
    open_txn: Option<Open>,
    file: &FileName,
) -> Result<Option<Open>, Memory>
    requires { IfSome open_txn (IsOpenIn (A.levels asker.old) (A.told asker.old)) }
    ensures asks { Follows (spec.in_open (spec.read_asked file.now) open_txn)
        (A.told asker.old) (A.told asker.new) (result_ok result) }
    ensures txn { IfOk result (λ txn.
        IfSome txn (IsOpenIn (A.levels asker.old) (A.told asker.new))) }
    ensures tree { A.levels asker.new ≡ A.levels asker.old }
{
    let Some(txn) = open_txn else {
        return Ok(None);
    };
    let mut reader = txn;
    let answer = read_file(asker, alloc, &mut reader, file);
    let answered = was_answered(answer)?;
    after(asker, alloc, reader, answered)
}

/// Writes a file in the transaction that is open, if one is.
pub(crate) fn write<A: Asker>(
    asker: &mut A,
    alloc: Global,
    open_txn: Option<Open>,
    file: &FileName,
    content: &Content,
) -> Result<Option<Open>, Memory>
    requires { IfSome open_txn (IsOpenIn (A.levels asker.old) (A.told asker.old)) }
    ensures asks { Follows (spec.in_open (spec.write_asked file.now content.now) open_txn)
        (A.told asker.old) (A.told asker.new) (result_ok result) }
    ensures txn { IfOk result (λ txn.
        IfSome txn (IsOpenIn (A.levels asker.old) (A.told asker.new))) }
    ensures tree { A.levels asker.new ≡ A.levels asker.old }
{
    let Some(txn) = open_txn else {
        return Ok(None);
    };
    let written = content.clone()?;
    let mut writer = txn;
    let answer = write_file(asker, alloc, &mut writer, file, written);
    let answered = was_answered(answer)?;
    after(asker, alloc, writer, answered)
}

/// Commits the transaction that is open, if one is. One that is refused is aborted.
pub(crate) fn commit_open<A: Asker>(
    asker: &mut A,
    alloc: Global,
    open_txn: Option<Open>,
) -> Result<Option<Open>, Memory>
    requires { IfSome open_txn (IsOpenIn (A.levels asker.old) (A.told asker.old)) }
    ensures asks { Follows (spec.in_open spec.commit_asked open_txn)
        (A.told asker.old) (A.told asker.new) (result_ok result) }
    ensures none { IfOk result (λ left. left ≡ None) }
    ensures tree { A.levels asker.new ≡ A.levels asker.old }
{
    let Some(txn) = open_txn else {
        return Ok(None);
    };
    let voting = match txn.close() {
        Ok(voting) => voting,
        Err(back) => return give_up(asker, alloc, Txn::Open(back.0)),
    };
    let Decision { answer, txn } = commit(asker, alloc, voting);
    let answered = was_answered(answer)?;
    if answered {
        return Ok(None);
    }
    give_up(asker, alloc, txn)
}
