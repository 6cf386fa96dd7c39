//! A transaction that gathers votes.

ghost use Rattle.std.specs.Prelude.{◌≡◌, ◌≤◌, is_some, true, None, Some, IfOk, IfErr, IfSome, OnOk, OnErr, OnSome};
ghost use Rattle.tq_coterie.specs.Coterie.{numbers_of};
ghost use Rattle.tq_evidence.specs.Evidence as evidence;
ghost use Rattle.tq_txn_states.specs.{Voting.{TakesVote, prepare_ask, vote_fault}, Open.{ComesOf, HasVoters, IsBack}};
ghost use Rattle.tq_txn_states.specs.Ended as ending;
ghost use Rattle.tq_txn_states.specs.Open as sets;
ghost use Rattle.tq_txn_states.specs.Voting as spec;

use crate::ended::verdict_of;
use crate::told::told_again;
use crate::votes::{
    Cast, are_writes_at, cast_in, has_vote, has_votes, is_ask_at, lost_file, place_of_server,
    put_vote, writes_all_at, writes_at,
};
use crate::{Closed, DeskTold, Ended, NodeTold, Ready, TxnFault};
use std::alloc::Global;
use std::marker::Model;
use tq_asks::{NodeAsk, Verdict, WorkAsk};
use tq_desk::{Op, Vote};
use tq_shape::{Memory, ServerId, Shared};

/// A transaction that gathers votes.
pub struct Voting {
    txn: Closed,
    votes: Vec<Vote>,
    /// An ask with all that the transaction writes: that of each server where it writes all of it. Contracts do not see it.
    asked: Option<NodeAsk>,
}

// Written out, so that a crate above lets go of one by a call.
impl Drop for Voting {
    fn drop(self) {
        let Self {
            txn: _,
            votes: _,
            asked: _,
        } = self;
    }
}

impl Model for Voting {
    ghost use Rattle.tq_txn_states.specs.Voting.{VotingView, IsVoting, HasWhole};

    ghost Value = { VotingView };

    ghost view = { λ a. record { txn = a.txn; votes = a.votes.items } };

    ghost invariant = { λ a. IsVoting (record { txn = a.txn; votes = a.votes.items })
        × HasWhole a.txn a.asked };
}

impl Voting {
    /// A transaction that has operations, and no vote yet.
    pub(crate) fn new(alloc: Global, txn: Closed) -> Voting
        requires { evidence.is_some_op txn.ops ≡ true }
        ensures { result ≡ spec.voting_of txn }
    {
        Voting {
            txn,
            votes: Vec::new(alloc),
            asked: None,
        }
    }

    /// The transaction as it was closed.
    pub fn txn(&self) -> &Closed
        ensures { result.now ≡ self.now.txn }
    {
        &self.txn
    }

    /// The votes that it took, ascending by server. They are good evidence as far as they go.
    pub fn votes(&self) -> &[Vote]
        ensures value { result.now ≡ self.now.votes }
        ensures good { spec.IsVoting self.now }
    {
        self.votes.as_slice()
    }

    /// The servers of the quorums of its operations, ascending.
    pub fn voters(&self) -> &[ServerId]
        ensures numbers { numbers_of result.now ≡ self.now.txn.voters }
        ensures set { sets.IsServerSet self.now.txn.levels result.now }
        ensures exact { HasVoters self.now.txn }
    {
        self.txn.voters()
    }

    /// Whether a server's vote is there.
    pub fn has_vote(&self, server: ServerId) -> bool
        ensures { result ≡ spec.has_vote self.now.votes server.number }
    {
        has_vote(self.votes.as_slice(), server.number())
    }

    /// The ask for a voter's vote. Memory is taken for a voter alone.
    #[inline(always)]
    pub fn ask(&self, alloc: Global, server: ServerId) -> Result<NodeAsk, TxnFault>
        ensures succeeds { IfOk result (λ ask. spec.ask_fault self.now.txn server.number ≡ None) }
        ensures value { IfOk result (λ ask. ask ≡ spec.prepare_ask self.now.txn server.number) }
        ensures fault { IfErr result (ComesOf (spec.ask_fault self.now.txn server.number)) }
        ensures memory { IfErr result (spec.IsOfVoter self.now.txn server.number) }
    {
        let Some(place) = self.place_of(server.number()) else {
            return Err(TxnFault::NotAVoter);
        };
        if let Some(ask) = self.asked_before(server.number(), place)? {
            return Ok(ask);
        }
        let work = self.work_at(alloc, server.number())?;
        Ok(NodeAsk::Work(Shared::new(alloc, work)?))
    }

    /// Where a voter's grant stands in the first operation that has one. Voters are asked in their order: likely behind
    /// those that have voted.
    fn place_of(&self, server: u64) -> Option<usize>
        ensures { is_some result ≡ evidence.is_server_of self.now.txn.ops server }
    {
        place_of_server(self.txn.ops(), server, self.votes.len())
    }

    /// The ask for the server's vote, where it is the one that is kept. Its grants likely stand at the place.
    #[inline(always)]
    fn asked_before(&self, server: u64, place: usize) -> Result<Option<NodeAsk>, Memory>
        ensures { IfOk result (λ it. IfSome it (λ ask. ask ≡ prepare_ask self.now.txn server)) }
    {
        let Some(ask) = &self.asked else {
            return Ok(None);
        };
        if !writes_all_at(self.txn.ops(), server, place) {
            return Ok(None);
        }
        Ok(Some(ask.clone()?))
    }

    /// The work that a voter is asked for its vote. Memory is taken for a voter alone.
    pub fn work(&self, alloc: Global, server: ServerId) -> Result<WorkAsk, TxnFault>
        ensures succeeds { IfOk result (λ work. spec.ask_fault self.now.txn server.number ≡ None) }
        ensures value { IfOk result (λ work. work ≡ spec.prepare_work self.now.txn server.number) }
        ensures fault { IfErr result (ComesOf (spec.ask_fault self.now.txn server.number)) }
        ensures memory { IfErr result (spec.IsOfVoter self.now.txn server.number) }
    {
        if self.place_of(server.number()).is_none() {
            return Err(TxnFault::NotAVoter);
        }
        Ok(self.work_at(alloc, server.number())?)
    }

    /// The work that a server is asked for its vote.
    #[inline(always)]
    fn work_at(&self, alloc: Global, server: u64) -> Result<WorkAsk, Memory>
        ensures { IfOk result (λ work. work ≡ spec.prepare_work self.now.txn server) }
    {
        let writes = writes_at(alloc, self.txn.ops(), server)?;
        Ok(WorkAsk::Prepare {
            txn: self.txn.txn(),
            writes,
        })
    }

    /// Takes a vote, in place of one of its server that is there. A fault leaves the transaction as it was.
    pub fn vote(&mut self, _alloc: Global, told: &NodeTold) -> Result<(), TxnFault>
        ensures vote { TakesVote self.old told.now self.new result }
        ensures fault { IfErr result (ComesOf (vote_fault self.old told.now)) }
    {
        let answer = told_again(told)?;
        self.vote_by(answer)
    }

    /// Makes room for the votes of all voters, and has the operations be shared, where there is no vote yet. Nothing else
    /// changes.
    pub fn room_for_votes(&mut self) -> Result<(), Memory>
        ensures { self.new ≡ self.old }
    {
        if !self.votes.is_empty() {
            return Ok(());
        }
        self.txn.share()?;
        self.votes.reserve_exact(self.txn.voters().len())?;
        Ok(())
    }

    /// Takes the vote that an answer tells of, in place of one of its server that is there. A fault leaves the
    /// transaction as it was.
    #[inline(always)]
    pub fn vote_by(&mut self, told: NodeTold) -> Result<(), TxnFault>
        ensures vote { TakesVote self.old told self.new result }
        ensures fault { IfErr result (ComesOf (vote_fault self.old told)) }
    {
        let cast = self.cast_by(told)?;
        self.votes.reserve(1)?;
        let Cast { vote, ask } = cast;
        let server = vote.server;
        put_vote(&mut self.votes, vote);
        self.keep(server, ask);
        Ok(())
    }

    /// The vote that an answer tells of, if it is good evidence.
    #[inline(always)]
    fn cast_by(&self, told: NodeTold) -> Result<Cast, TxnFault>
        ensures good { IfOk result (λ cast. spec.IsGoodVote self.now.txn.ops cast.vote) }
        ensures vote { IfOk result (λ cast. spec.vote_of self.now.txn.txn told ≡ Some cast.vote) }
        ensures succeeds { IfOk result (λ cast. spec.vote_fault self.now told ≡ None) }
        ensures fault { IfErr result (λ fault. spec.vote_fault self.now told ≡ Some fault) }
    {
        let ops = self.txn.ops();
        let Some(place) = self.place_of(told.server) else {
            return Err(TxnFault::NotAVoter);
        };
        let Some(cast) = cast_in(self.txn.txn(), told) else {
            return Err(TxnFault::NotMyVote);
        };
        let vote = &cast.vote;
        if !are_writes_at(vote.server, vote.writes.as_slice(), ops, place) {
            return Err(TxnFault::NotMyVote);
        }
        if let Some(file) = lost_file(ops, vote, place) {
            return Err(TxnFault::LostLock { file: *file });
        }
        Ok(cast)
    }

    /// Keeps the ask of a server, if it has all that the transaction writes, none is kept and a voter has not voted. It
    /// takes no memory.
    #[inline(always)]
    fn keep(&mut self, server: u64, asked: NodeAsk)
        ensures { self.new ≡ self.old }
    {
        if self.asked.is_some() || self.votes.len() >= self.txn.voters().len() {
            return;
        }
        let ops = self.txn.ops();
        if !writes_all_at(ops, server, 0) {
            return;
        }
        if is_ask_at(&asked, self.txn.txn(), ops, server) {
            self.asked = Some(asked);
        }
    }

    /// Ends the voting, if each voter's vote is there. It takes no memory.
    #[inline(always)]
    pub fn ready(self) -> Result<Ready, (Voting, TxnFault)>
        ensures succeeds { IfOk result (λ ready. (spec.ready_fault self ≡ None) × (ready ≡ self)) }
        ensures fault { IfErr result (IsBack self (λ fault. spec.ready_fault self ≡ Some fault)) }
    {
        if !has_votes(self.votes.as_slice(), self.txn.voters()) {
            return Err((self, TxnFault::VotesMissing));
        }
        Ok(Ready::new(self))
    }

    /// Ends the transaction by the desk's verdict on it, and hands it back after a fault.
    pub fn end(self, told: &DeskTold) -> Result<Ended, (Voting, TxnFault)>
        ensures value { IfOk result (λ ended. ending.IsEnd self.txn told.now ended) }
        ensures fault { IfErr result (IsBack self (ComesOf (ending.end_fault self.txn told.now))) }
    {
        match verdict_of(self.txn.txn(), told) {
            Ok(verdict) => Ok(self.end_by(verdict, told.number)),
            Err(fault) => Err((self, fault)),
        }
    }

    /// Ends the transaction by a verdict on it, which the desk's entry of that number told. It takes no memory.
    #[inline(always)]
    pub fn end_by(self, verdict: Verdict, cite: u64) -> Ended
        ensures { result ≡ ending.ended_with self.txn cite verdict }
    {
        let Self {
            txn,
            votes: _,
            asked: _,
        } = self;
        txn.end_by(verdict, cite)
    }
}
