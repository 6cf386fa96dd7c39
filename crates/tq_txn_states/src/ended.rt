//! A transaction that has ended.

ghost use Rattle.std.specs.Prelude.{◌≡◌, IfOk, IfErr, None, Some, MatchResult};
ghost use Rattle.tq_coterie.specs.Coterie.{numbers_of};
ghost use Rattle.tq_txn_states.specs.Ended as spec;
ghost use Rattle.tq_txn_states.specs.Open.{ComesOf};
ghost use Rattle.tq_txn_states.specs.Open as sets;

use crate::servers::Servers;
use crate::{DeskTold, TxnFault};
use std::alloc::Global;
use std::marker::Model;
use tq_asks::{NodeAsk, Verdict, WorkAsk};
use tq_desk::{Ballot, DeskAsk, DeskRefusal, DeskReply};
use tq_shape::{Levels, Memory, ServerId, Shared};

/// A transaction that has ended.
pub struct Ended {
    txn: u64,
    verdict: Verdict,
    cite: u64,
    servers: Servers,
}

// Written out, so that a crate above lets go of one by a call.
impl Drop for Ended {
    fn drop(self) {
        let Self {
            txn: _,
            verdict: _,
            cite: _,
            servers: _,
        } = self;
    }
}

impl Model for Ended {
    ghost use Rattle.tq_txn_states.specs.Ended.{EndedView};

    ghost Value = { EndedView };

    ghost view = { λ a. record {
      levels = a.servers.levels;
      txn = a.txn;
      verdict = a.verdict;
      cite = a.cite;
      servers = a.servers.servers;
    } };
}

impl Ended {
    /// The transaction of that number, which these servers granted a lock, as a verdict ends it, which the desk's entry of
    /// that number told. It takes no memory.
    #[inline(always)]
    pub(crate) fn of(txn: u64, servers: Servers, verdict: Verdict, cite: u64) -> Ended
        ensures { result ≡ record {
          levels = servers.levels;
          txn = txn;
          verdict = verdict;
          cite = cite;
          servers = servers.servers;
        } }
    {
        Ended {
            txn,
            verdict,
            cite,
            servers,
        }
    }

    /// The levels of the tree whose servers it asked.
    pub fn levels(&self) -> Levels
        ensures { result ≡ self.now.levels }
    {
        self.servers.levels()
    }

    /// The number of the transaction.
    pub fn txn(&self) -> u64
        ensures { result ≡ self.now.txn }
    {
        self.txn
    }

    /// How it ended.
    pub fn verdict(&self) -> &Verdict
        ensures { result.now ≡ self.now.verdict }
    {
        &self.verdict
    }

    /// The number of the desk's entry that said so.
    pub fn cite(&self) -> u64
        ensures { result ≡ self.now.cite }
    {
        self.cite
    }

    /// The ask that tells a server how it ended.
    #[inline(always)]
    pub fn decide(&self, alloc: Global) -> Result<NodeAsk, Memory>
        ensures { IfOk result (λ ask. ask ≡ spec.decide_ask self.now) }
    {
        let verdict = self.verdict.clone()?;
        let decide = WorkAsk::Decide {
            txn: self.txn,
            verdict,
            cite: self.cite,
        };
        Ok(NodeAsk::Work(Shared::new(alloc, decide)?))
    }

    /// The servers that granted it a lock, as far as it was handed them, ascending.
    pub fn servers(&self) -> &[ServerId]
        ensures numbers { numbers_of result.now ≡ self.now.servers }
        ensures set { sets.IsServerSet self.now.levels result.now }
    {
        self.servers.as_slice()
    }
}

/// The verdict on a transaction that an answer of the desk tells, once more; with none the answer does not end it.
pub(crate) fn verdict_of(txn: u64, told: &DeskTold) -> Result<Verdict, TxnFault>
    ensures value { IfOk result (λ verdict. spec.verdict_in txn told.now ≡ Some verdict) }
    ensures fault { IfErr result (ComesOf (spec.fault_without (spec.verdict_in txn told.now))) }
{
    match verdict_in(txn, told)? {
        Some(verdict) => Ok(verdict),
        None => Err(TxnFault::NotMyVerdict),
    }
}

/// The verdict on a transaction that an answer of the desk tells.
fn verdict_in(txn: u64, told: &DeskTold) -> Result<Option<Verdict>, Memory>
    ensures { IfOk result (λ verdict. verdict ≡ spec.verdict_in txn told.now) }
{
    match &told.ask {
        DeskAsk::Begin => Ok(None),
        DeskAsk::Commit {
            txn: asked,
            votes,
            ..
        } => {
            if *asked != txn {
                return Ok(None);
            }
            commit_verdict(votes, &told.reply)
        }
        DeskAsk::Resolve { txn: asked } => {
            if *asked != txn {
                return Ok(None);
            }
            resolve_verdict(&told.reply)
        }
    }
}

/// The verdict that an answer to a commit tells.
fn commit_verdict(votes: &Ballot, reply: &DeskReply) -> Result<Option<Verdict>, Memory>
    ensures { IfOk result (λ verdict. verdict ≡ spec.commit_verdict votes.now reply.now) }
{
    match reply {
        DeskReply::Committed { .. } => Ok(Some(Verdict::Commit {
            votes: votes.cited()?,
        })),
        DeskReply::Refused(DeskRefusal::Decided(verdict)) => Ok(Some(verdict.clone()?)),
        _ => Ok(None),
    }
}

/// The verdict that an answer to a resolve tells.
fn resolve_verdict(reply: &DeskReply) -> Result<Option<Verdict>, Memory>
    ensures { IfOk result (λ verdict. verdict ≡ spec.resolve_verdict reply.now) }
{
    match reply {
        DeskReply::Verdict(verdict) => Ok(Some(verdict.clone()?)),
        _ => Ok(None),
    }
}
