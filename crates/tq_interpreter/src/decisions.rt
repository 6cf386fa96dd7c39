//! The lines of a transaction that bring its desk to a decision.
ghost use Rattle.std.specs.Prelude.{◌≡◌, ◌++◌, false, IfOk, OnOk, OnErr};
ghost use Rattle.tq_coterie.specs.Coterie.{numbers_of};
ghost use Rattle.tq_interpreter.specs.{Known.{IsKept, IsLater}, Recorded.progress_of};
ghost use Rattle.tq_interpreter.specs.TxnAsked as spec;
ghost use Rattle.tq_text.specs.Print.{Extends, printed_line, Prints};

use crate::recorder::Recorder;
use crate::states::{Closed, stand_in, voting_of};
use crate::txn_slot::TxnSlot;
use std::alloc::Global;
use std::mem;
use tq_shape::{Memory, ServerId};
use tq_text::{say_fault, say_number};
use tq_txn::{Decision, LineFault, Txn, Voting, commit, decide};

/// How much of a commit a line asks for.
#[derive(Drop)]
pub(crate) enum CommitScope {
    /// The desk's decision alone: the votes have to be there.
    Decide,
    /// The votes missing, the desk, and the ending.
    Commit,
}

/// Asks the desk to commit a transaction.
pub(crate) fn decide_txn(
    recorder: &mut Recorder,
    alloc: Global,
    kept: &mut TxnSlot,
    course: CommitScope,
    text: &mut Vec<u8>,
) -> Result<(), Memory>
    requires { IsKept recorder.old kept.old.txn }
    ensures answered { OnOk result (spec.IsAnswered
        (spec.decision_asked (spec.course_line course) 0 kept.old)
        (progress_of recorder.old text.old) (progress_of recorder.new text.new) kept.new) }
    ensures txn { IsKept recorder.new kept.new.txn }
    ensures later { IsLater recorder.old recorder.new }
    ensures kept { OnErr result (Extends text.old.items text.new.items) }
{
    let vacant = stand_in(alloc, &kept.txn);
    let txn = mem::replace(&mut kept.txn, vacant);
    let voting = match voting_of(txn, text)? {
        Closed::Said(txn) => {
            kept.txn = txn;
            return Ok(());
        }
        Closed::Voting(voting) => voting,
    };
    recorder.show_replayed();
    let Decision { answer, txn } = match course {
        CommitScope::Decide => decide(recorder, alloc, voting),
        CommitScope::Commit => commit(recorder, alloc, voting),
    };
    recorder.show_replayed();
    kept.txn = txn;
    say_committed(alloc, text, answer, &kept.txn)?;
    Ok(())
}

/// The voters whose votes are not there.
fn missing_in(alloc: Global, txn: &Txn) -> Result<Vec<u64>, Memory>
    ensures { IfOk result (λ servers. servers.items ≡ spec.missing_in txn.now) }
{
    match txn {
        Txn::Voting(voting) => Ok(missing_of(alloc, voting, voting.voters())?),
        _ => Ok(Vec::new(alloc)),
    }
}

/// Those of the servers whose votes are not there.
fn missing_of(alloc: Global, voting: &Voting, voters: &[ServerId]) -> Result<Vec<u64>, Memory>
    ensures { IfOk result (λ servers.
        servers.items ≡ spec.missing_of voting.now (numbers_of voters.now)) }
{
    let mut servers = Vec::new(alloc);
    for voter in voters {
        if !voting.has_vote(*voter) {
            servers.push(voter.number())?;
        }
    }
    Ok(servers)
}

/// Puts what the desk answered to a commit behind the text, as a line.
fn say_committed(
    alloc: Global,
    text: &mut Vec<u8>,
    answer: Result<u64, LineFault>,
    txn: &Txn,
) -> Result<(), Memory>
    ensures text { OnOk result (Prints text.old text.new (spec.committed_text txn.now answer)) }
    ensures memory { OnOk result (spec.is_refused_memory answer ≡ false) }
    ensures kept { OnErr result (Extends text.old.items text.new.items) }
{
    match answer {
        Ok(serial) => say_number(text, b"committed ", serial)?,
        Err(fault) => {
            let servers = missing_in(alloc, txn)?;
            say_fault(text, servers.as_slice(), fault)?;
        }
    }
    Ok(())
}
