//! A transaction with all its votes, and its evidence.

ghost use Rattle.std.specs.Prelude.{◌≡◌, List, IfOk, IfErr, None, true};
ghost use Rattle.tq_desk.specs.DeskStep as log;
ghost use Rattle.tq_evidence.specs.Evidence as evidence;
ghost use Rattle.tq_txn_states.specs.{Voting.{CitesOnly, VotesOnly}, Open.{ComesOf, IsBack}};
ghost use Rattle.tq_txn_states.specs.Ended as ending;
ghost use Rattle.tq_txn_states.specs.Voting as spec;

use crate::ended::verdict_of;
use crate::{DeskTold, Ended, NodeTold, TxnFault, Voting};
use std::alloc::Global;
use std::marker::Model;
use tq_asks::{CitedVote, Verdict};
use tq_desk::{Ballot, DeskAsk, Vote};
use tq_shape::{Memory, SharedSeq};

/// A transaction with the votes of all its voters.
pub struct Ready {
    voting: Voting,
}

// Written out, so that a crate above lets go of one by a call.
impl Drop for Ready {
    fn drop(self) {
        let Self { voting: _ } = self;
    }
}

impl Model for Ready {
    ghost use Rattle.std.specs.Prelude.{◌≡◌, true};
    ghost use Rattle.tq_txn_states.specs.Voting.{VotingView, has_votes};

    ghost Value = { VotingView };

    ghost view = { λ a. a.voting };

    ghost invariant = { λ a. has_votes a.voting ≡ true };
}

impl Ready {
    /// The transaction of which each voter has voted.
    pub(crate) fn new(voting: Voting) -> Ready
        requires { spec.has_votes voting ≡ true }
        ensures { result ≡ voting }
    {
        Ready { voting }
    }

    /// The transaction with its votes.
    pub fn voting(&self) -> &Voting
        ensures { result.now ≡ self.now }
    {
        &self.voting
    }

    /// The transaction with its votes, to go on with after the desk refused it.
    pub fn into_voting(self) -> Voting
        ensures { result ≡ self }
    {
        let Self { voting } = self;
        voting
    }

    /// The commit to ask the desk for: its evidence is good, and cites only what the transaction was told.
    #[inline(always)]
    pub fn evidence(&self, alloc: Global) -> Result<DeskAsk, Memory>
        ensures value { IfOk result (λ ask. ask ≡ spec.evidence_of self.now) }
        ensures cited { IfOk result (λ ask.
            (told : List NodeTold) → VotesOnly told self.now → CitesOnly told ask) }
        ensures good { evidence.IsGood self.now.txn.levels self.now.txn.ops self.now.votes }
    {
        let txn = self.voting.txn();
        let all_votes = self.voting.votes();
        let ops = txn.shared_ops()?;
        let votes = ballot_of(alloc, all_votes)?;
        Ok(DeskAsk::Commit {
            txn: txn.txn(),
            ops,
            votes,
        })
    }

    /// The votes as the record of the commit to ask for cites them: taken before it is asked for, so that the answer takes
    /// no memory.
    #[inline(always)]
    pub fn citations(&self, ask: &DeskAsk) -> Result<SharedSeq<CitedVote>, Memory>
        requires { ask.now ≡ spec.evidence_of self.now }
        ensures { IfOk result (λ list. list ≡ log.cited_votes self.now.votes) }
    {
        match ask {
            DeskAsk::Commit { votes, .. } => votes.cited(),
            _ => unreachable!(),
        }
    }

    /// Ends the transaction by the desk's verdict on it, and hands it back after a fault.
    pub fn end(self, told: &DeskTold) -> Result<Ended, (Ready, TxnFault)>
        ensures value { IfOk result (λ ended. ending.IsEnd self.txn told.now ended) }
        ensures fault { IfErr result (IsBack self (ComesOf (ending.end_fault self.txn told.now))) }
    {
        match verdict_of(self.voting.txn().txn(), told) {
            Ok(verdict) => Ok(self.end_by(verdict, told.number)),
            Err(fault) => Err((self, fault)),
        }
    }

    /// Ends the transaction by a verdict on it, which the desk's entry of that number told. It takes no memory.
    pub fn end_by(self, verdict: Verdict, cite: u64) -> Ended
        ensures { result ≡ ending.ended_with self.txn cite verdict }
    {
        self.into_voting().end_by(verdict, cite)
    }
}

/// The votes, once more, as a ballot.
#[inline(always)]
fn ballot_of(alloc: Global, votes: &[Vote]) -> Result<Ballot, Memory>
    ensures { IfOk result (λ ballot. ballot ≡ votes.now) }
{
    Ballot::new(alloc, Vec::from_clones(alloc, votes)?)
}
