//! The commit of a transaction.

ghost use Rattle.std.specs.Prelude.{◌≡◌, Err};
ghost use Rattle.tq_desk.specs.DeskStep as log;
ghost use Rattle.tq_txn.specs.{Commits.resolved_by, Told.{CitesSince, IsEnding, IsKnown, Knows}};
ghost use Rattle.tq_txn.specs.Commits as spec;
ghost use Rattle.tq_txn.specs.Dialogue as line;
ghost use Rattle.tq_txn.specs.Told as states;
ghost use Rattle.tq_txn_states.specs.Ended as ending;
ghost use Rattle.tq_txn_states.specs.Voting.{IsVotedOn, evidence_of};

use crate::endings::{end_at_each, prepare_at};
use crate::fault::is_commit;
use crate::{Asker, Decision, DeskTold, LineFault, Ready, Txn, Voting};
use std::alloc::Global;
use tq_asks::{CitedVote, Verdict};
use tq_desk::{DeskRefusal, DeskReply};
use tq_shape::{Part, SharedSeq};

/// The votes of all voters, in their order; the first refusal ends it. No vote gathered is lost.
fn prepare_each<A: Asker>(
    asker: &mut A,
    alloc: Global,
    voting: &mut Voting,
) -> Result<(), LineFault>
    requires { voting.old.txn.levels ≡ A.levels asker.old }
    ensures asks { line.Follows (spec.prepares_line voting.old.txn.voters voting.old)
        (A.told asker.old) (A.told asker.new) (line.ended_by result voting.new) }
    ensures kept { IsVotedOn voting.old voting.new }
    ensures knows { IsKnown Txn.Voting (A.told asker.old) (A.told asker.new) voting.old voting.new }
    ensures tree { A.levels asker.new ≡ A.levels asker.old }
{
    let count = voting.voters().len();
    for place in 0..count {
        let server = voting.voters()[place];
        prepare_at(asker, alloc, voting, server)?;
    }
    Ok(())
}

/// What the desk's answer to a commit says, and the transaction after it. It takes no memory: what the desk told stands in
/// its state.
#[inline(always)]
fn decision_of(ready: Ready, told: DeskTold, cited: SharedSeq<CitedVote>) -> Decision
    requires asked { told.ask ≡ evidence_of ready }
    requires cited { cited ≡ log.cited_votes ready.votes }
    ensures answer { result.answer ≡ spec.commit_answer told.reply }
    ensures txn { result.txn ≡ spec.txn_after_answer ready told }
{
    let DeskTold {
        number,
        ask: _,
        reply,
    } = told;
    match reply {
        DeskReply::Committed { serial } => Decision {
            answer: Ok(serial),
            txn: Txn::Ended(ready.end_by(Verdict::Commit { votes: cited }, number)),
        },
        DeskReply::Refused(refusal) => refused(ready, refusal, number),
        _ => Decision {
            answer: Err(LineFault::WrongReply { part: Part::Desk }),
            txn: Txn::Voting(ready.into_voting()),
        },
    }
}

/// What the desk's refusal of a commit says, and the transaction after it: a verdict that stands already ends it.
fn refused(ready: Ready, refusal: DeskRefusal, cite: u64) -> Decision
    ensures answer { result.answer ≡ Err (line.fault_of_desk refusal) }
    ensures txn { result.txn ≡ resolved_by (Txn.Voting ready) ready.txn cite
        (ending.commit_verdict ready.votes (DeskReply.Refused refusal)) }
{
    match refusal {
        DeskRefusal::Decided(verdict) => Decision {
            answer: Err(LineFault::Ended {
                committed: is_commit(&verdict),
            }),
            txn: Txn::Ended(ready.end_by(verdict, cite)),
        },
        _ => Decision {
            answer: Err(LineFault::Desk(refusal)),
            txn: Txn::Voting(ready.into_voting()),
        },
    }
}

/// Asks the desk to commit a transaction whose votes are all there. After a fault the transaction comes back with what
/// it read and wrote and with its votes, or ended where the desk said how it ended before.
#[inline(always)]
pub fn decide<A: Asker>(asker: &mut A, alloc: Global, voting: Voting) -> Decision
    requires tree { voting.txn.levels ≡ A.levels asker.old }
    requires knows { Knows (A.told asker.old) (Txn.Voting voting) }
    ensures asks { line.Follows (spec.decide_line voting)
        (A.told asker.old) (A.told asker.new) (line.ended_by result.answer result.txn) }
    ensures levels { states.levels_of result.txn ≡ voting.txn.levels }
    ensures ending { IsEnding (Txn.Voting voting)
        (A.told asker.old) (A.told asker.new) result.txn }
    ensures cited { CitesSince (A.told asker.old) (A.told asker.new) }
    ensures tree { A.levels asker.new ≡ A.levels asker.old }
{
    let ready = match voting.ready() {
        Ok(ready) => ready,
        Err(back) => return Decision {
            answer: Err(LineFault::from(back.1)),
            txn: Txn::Voting(back.0),
        },
    };
    let ask = match ready.evidence(alloc) {
        Ok(ask) => ask,
        Err(_) => return Decision {
            answer: Err(LineFault::Memory),
            txn: Txn::Voting(ready.into_voting()),
        },
    };
    let cited = match ready.citations(&ask) {
        Ok(cited) => cited,
        Err(_) => return Decision {
            answer: Err(LineFault::Memory),
            txn: Txn::Voting(ready.into_voting()),
        },
    };
    match asker.desk(alloc, ask) {
        Ok(told) => decision_of(ready, told, cited),
        Err(fault) => Decision {
            answer: Err(LineFault::from(fault)),
            txn: Txn::Voting(ready.into_voting()),
        },
    }
}

/// Commits a transaction: the votes still missing, the commit at the desk, and then the ending. A refused vote ends
/// it before the desk is asked; where the desk refuses, there is no ending.
/// After any fault it comes back with each vote gathered, or ended as the desk told.
pub fn commit<A: Asker>(asker: &mut A, alloc: Global, voting: Voting) -> Decision
    requires tree { voting.txn.levels ≡ A.levels asker.old }
    requires knows { Knows (A.told asker.old) (Txn.Voting voting) }
    ensures asks { line.Follows (spec.commit_line voting)
        (A.told asker.old) (A.told asker.new) (line.ended_by result.answer result.txn) }
    ensures levels { states.levels_of result.txn ≡ voting.txn.levels }
    ensures ending { IsEnding (Txn.Voting voting)
        (A.told asker.old) (A.told asker.new) result.txn }
    ensures cited { CitesSince (A.told asker.old) (A.told asker.new) }
    ensures tree { A.levels asker.new ≡ A.levels asker.old }
{
    let mut voting = voting;
    if let Err(fault) = prepare_each(asker, alloc, &mut voting) {
        return Decision {
            answer: Err(fault),
            txn: Txn::Voting(voting),
        };
    }
    let Decision { answer, txn } = decide(asker, alloc, voting);
    match answer {
        Ok(serial) => end_committed(asker, alloc, serial, txn),
        Err(fault) => Decision {
            answer: Err(fault),
            txn,
        },
    }
}

/// The ending of a transaction that committed.
fn end_committed<A: Asker>(asker: &mut A, alloc: Global, serial: u64, txn: Txn) -> Decision
    requires tree { states.levels_of txn ≡ A.levels asker.old }
    requires knows { Knows (A.told asker.old) txn }
    ensures asks { line.Follows (spec.commit_end serial txn)
        (A.told asker.old) (A.told asker.new) (line.ended_by result.answer result.txn) }
    ensures same { result.txn ≡ txn }
    ensures tree { A.levels asker.new ≡ A.levels asker.old }
{
    match txn {
        Txn::Ended(ended) => match end_at_each(asker, alloc, &ended, ended.servers()) {
            Ok(()) => Decision {
                answer: Ok(serial),
                txn: Txn::Ended(ended),
            },
            Err(fault) => Decision {
                answer: Err(fault),
                txn: Txn::Ended(ended),
            },
        },
        Txn::Voting(voting) => Decision {
            answer: Ok(serial),
            txn: Txn::Voting(voting),
        },
        Txn::Open(open) => Decision {
            answer: Ok(serial),
            txn: Txn::Open(open),
        },
    }
}
