//! The lines of a transaction at one of the servers: its vote, and the verdict that it is told.
ghost use Rattle.std.specs.Prelude.{◌≡◌, ◌++◌, ◌∷◌, [], false, cond, Some, None, codes, IfOk, OnOk, OnErr};
ghost use Rattle.std.specs.Fmt.{decimal};
ghost use Rattle.tq_interpreter.specs.TxnAsked as spec;
ghost use Rattle.tq_interpreter.specs.{Known.{IsKept, IsLater, in_state}, Recorded.progress_of};
ghost use Rattle.tq_text.specs.Print.{Extends, printed_line, applied_text, Prints};

use crate::recorder::Recorder;
use crate::states::{Closed, ending_of, stand_in, voting_of};
use crate::txn_slot::{Ending, TxnSlot};
use std::alloc::Global;
use std::mem;
use tq_asks::WorkAsk;
use tq_shape::{Levels, Memory, ServerId};
use tq_text::{say_applied, say_fault, say_number};
use tq_txn::{Applied, LineFault, Txn, Voting, apply_at, prepare_at, prepare_stopping, stop_at};

/// What a server has to do for a transaction.
#[derive(Drop)]
pub(crate) enum Phase {
    /// Vote.
    Prepare,
    /// Do as the verdict says.
    Apply,
}

/// A duty at the server of a number. Where a number of records is given, the server stops in the midst of the duty, behind
/// so many of the records that it would write.
#[derive(Drop)]
pub(crate) struct ServerLine {
    pub(crate) server: u64,
    pub(crate) duty: Phase,
    pub(crate) stop: Option<u32>,
}

impl ServerLine {
    ghost use Rattle.std.specs.Prelude.{◌≡◌, Some, None};

    /// To do the whole of a duty.
    pub(crate) fn whole(duty: Phase, server: u64) -> ServerLine
        ensures { result ≡ record { server = server; duty = duty; stop = None } }
    {
        ServerLine {
            server,
            duty,
            stop: None,
        }
    }

    /// To stop in the midst of a duty, behind so many records.
    pub(crate) fn with_stop(duty: Phase, server: u64, after: u32) -> ServerLine
        ensures { result ≡ record { server = server; duty = duty; stop = Some after } }
    {
        ServerLine {
            server,
            duty,
            stop: Some(after),
        }
    }
}

/// Does an errand, if its server is one of the tree.
#[tactic(auto, using(crate::proofs::ShellLines::kept_on))]
pub(crate) fn run_at_server(
    recorder: &mut Recorder,
    alloc: Global,
    levels: Levels,
    number: u64,
    kept: &mut TxnSlot,
    errand: ServerLine,
    text: &mut Vec<u8>,
) -> Result<(), Memory>
    requires txn { IsKept recorder.old kept.old.txn }
    requires levels { levels ≡ recorder.old.journals.levels }
    ensures answered { OnOk result (spec.IsAnswered
        (spec.errand_asked levels errand number kept.old)
        (progress_of recorder.old text.old) (progress_of recorder.new text.new) kept.new) }
    ensures txn { IsKept recorder.new kept.new.txn }
    ensures later { IsLater recorder.old recorder.new }
    ensures kept { OnErr result (Extends text.old.items text.new.items) }
{
    let ServerLine { server, duty, stop } = errand;
    match levels.server(server) {
        None => say_number(text, b"no such server ", server),
        Some(id) => match duty {
            Phase::Prepare => prepare(recorder, alloc, kept, id, stop, text),
            Phase::Apply => apply(recorder, alloc, number, kept, id, stop, text),
        },
    }
}

/// Asks a voter for its vote, or stops it there.
fn prepare(
    recorder: &mut Recorder,
    alloc: Global,
    kept: &mut TxnSlot,
    server: ServerId,
    stop: Option<u32>,
    text: &mut Vec<u8>,
) -> Result<(), Memory>
    requires txn { IsKept recorder.old kept.old.txn }
    requires server { server.levels ≡ recorder.old.journals.levels }
    ensures answered { OnOk result (spec.IsAnswered
        (spec.prepare_asked stop server.number 0 kept.old)
        (progress_of recorder.old text.old) (progress_of recorder.new text.new) kept.new) }
    ensures txn { IsKept recorder.new kept.new.txn }
    ensures later { IsLater recorder.old recorder.new }
    ensures kept { OnErr result (Extends text.old.items text.new.items) }
{
    let vacant = stand_in(alloc, &kept.txn);
    let txn = mem::replace(&mut kept.txn, vacant);
    kept.txn = match voting_of(txn, text)? {
        Closed::Said(txn) => txn,
        Closed::Voting(voting) => vote(recorder, alloc, voting, server, stop, text)?,
    };
    Ok(())
}

/// The transaction after the vote of a server, or after a stop in its vote, which is not taken.
fn vote(
    recorder: &mut Recorder,
    alloc: Global,
    voting: Voting,
    server: ServerId,
    stop: Option<u32>,
    text: &mut Vec<u8>,
) -> Result<Txn, Memory>
    requires txn { IsKept recorder.old (Txn.Voting voting) }
    requires server { server.levels ≡ recorder.old.journals.levels }
    ensures answered { IfOk result (λ txn. (kept : TxnSlot) →
        spec.IsAnswered (spec.prepare_voting stop server.number kept voting)
        (progress_of recorder.old text.old) (progress_of recorder.new text.new)
        (in_state kept txn)) }
    ensures txn { IfOk result (IsKept recorder.new) }
    ensures later { IsLater recorder.old recorder.new }
    ensures kept { OnErr result (Extends text.old.items text.new.items) }
{
    let number = server.number();
    let mut voting = voting;
    recorder.show_replayed();
    match stop {
        None => {
            let answer = prepare_at(recorder, alloc, &mut voting, server);
            recorder.show_replayed();
            say_server(text, b"yes ", number, &[number], answer)?;
            Ok(Txn::Voting(voting))
        }
        Some(after) => {
            let answer = prepare_stopping(recorder, alloc, &voting, server, after);
            recorder.show_replayed();
            say_stopped(text, number, answer)?;
            Ok(Txn::Voting(voting))
        }
    }
}

/// Puts the vote that is there behind the text, as a line, or that the server is down, or why it is not.
fn say_stopped(
    text: &mut Vec<u8>,
    server: u64,
    answer: Result<bool, LineFault>,
) -> Result<(), Memory>
    ensures text { OnOk result (Prints text.old text.new
        (spec.result_text (server ∷ []) (spec.stop_text server) answer)) }
    ensures memory { OnOk result (spec.is_refused_memory answer ≡ false) }
    ensures kept { OnErr result (Extends text.old.items text.new.items) }
{
    match answer {
        Ok(true) => say_number(text, b"yes ", server)?,
        Ok(false) => say_number(text, b"down ", server)?,
        Err(fault) => say_fault(text, &[server], fault)?,
    }
    Ok(())
}

/// Tells a server the verdict that was told, or stops it there, or says that no verdict was told.
fn apply(
    recorder: &mut Recorder,
    alloc: Global,
    number: u64,
    kept: &TxnSlot,
    server: ServerId,
    stop: Option<u32>,
    text: &mut Vec<u8>,
) -> Result<(), Memory>
    requires { server.levels ≡ recorder.old.journals.levels }
    ensures answered { OnOk result (spec.IsAnswered
        (spec.apply_asked stop server.number number kept.now)
        (progress_of recorder.old text.old) (progress_of recorder.new text.new) kept.now) }
    ensures later { IsLater recorder.old recorder.new }
    ensures kept { OnErr result (Extends text.old.items text.new.items) }
{
    match ending_of(kept)? {
        None => say_number(text, b"not decided ", number),
        Some(ending) => tell(recorder, alloc, number, ending, server, stop, text),
    }
}

/// Tells a server the verdict, or stops it there.
fn tell(
    recorder: &mut Recorder,
    alloc: Global,
    number: u64,
    ending: Ending,
    server: ServerId,
    stop: Option<u32>,
    text: &mut Vec<u8>,
) -> Result<(), Memory>
    requires { server.levels ≡ recorder.old.journals.levels }
    ensures answered { OnOk result ((kept : TxnSlot) →
        spec.IsAnswered (spec.apply_ending stop server.number number kept ending)
        (progress_of recorder.old text.old) (progress_of recorder.new text.new) kept) }
    ensures later { IsLater recorder.old recorder.new }
    ensures kept { OnErr result (Extends text.old.items text.new.items) }
{
    let txn = number;
    let Ending { verdict, cite } = ending;
    recorder.show_replayed();
    match stop {
        None => {
            let answer = apply_at(recorder, alloc, txn, verdict, cite, server);
            recorder.show_replayed();
            say_told(text, server.number(), answer)?;
            Ok(())
        }
        Some(after) => {
            let ask = WorkAsk::Decide { txn, verdict, cite };
            let answer = stop_at(recorder, alloc, server, ask, after);
            recorder.show_replayed();
            say_server(text, b"down ", server.number(), &[], answer)?;
            Ok(())
        }
    }
}

/// Puts what a server did with a verdict behind the text, as a line, or why it did nothing.
fn say_told(
    text: &mut Vec<u8>,
    server: u64,
    answer: Result<Applied, LineFault>,
) -> Result<(), Memory>
    ensures text { OnOk result (Prints text.old text.new
        (spec.result_text [] (λ applied. applied_text server applied) answer)) }
    ensures memory { OnOk result (spec.is_refused_memory answer ≡ false) }
    ensures kept { OnErr result (Extends text.old.items text.new.items) }
{
    match answer {
        Ok(applied) => say_applied(text, server, applied)?,
        Err(fault) => say_fault(text, &[], fault)?,
    }
    Ok(())
}

/// Puts the words and the server behind the text, as a line, or a refusal that speaks of these servers.
fn say_server(
    text: &mut Vec<u8>,
    words: &[u8],
    server: u64,
    servers: &[u64],
    answer: Result<(), LineFault>,
) -> Result<(), Memory>
    ensures text { OnOk result (Prints text.old text.new
        (spec.result_text servers.now (λ all. words.now ++ decimal server) answer)) }
    ensures memory { OnOk result (spec.is_refused_memory answer ≡ false) }
    ensures kept { OnErr result (Extends text.old.items text.new.items) }
{
    match answer {
        Ok(()) => say_number(text, words, server)?,
        Err(fault) => say_fault(text, servers, fault)?,
    }
    Ok(())
}
