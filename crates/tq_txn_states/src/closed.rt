//! A transaction that takes no more operations.

ghost use Rattle.std.specs.Prelude.{◌≡◌, true, IfOk};
ghost use Rattle.tq_coterie.specs.Coterie.{numbers_of};
ghost use Rattle.tq_evidence.specs.Evidence.{are_in_order};
ghost use Rattle.tq_txn_states.specs.Ended as ending;
ghost use Rattle.tq_txn_states.specs.Open as spec;

use crate::Ended;
use crate::servers::Servers;
use std::marker::Model;
use tq_asks::Verdict;
use tq_desk::Op;
use tq_evidence::Shareable;
use tq_shape::{Levels, Limits, Memory, ServerId, SharedSeq};

/// A transaction that takes no more operations, so that what it did can be shared.
#[derive(Drop)]
pub struct Closed {
    pub(crate) levels: Levels,
    pub(crate) limits: Limits,
    pub(crate) txn: u64,
    pub(crate) ops: Shareable<Op>,
    pub(crate) voters: Servers,
    pub(crate) touched: Servers,
}

impl Model for Closed {
    ghost use Rattle.std.specs.Prelude.{◌≡◌};
    ghost use Rattle.tq_txn_states.specs.Open.{OpenView, IsOpen};

    ghost Value = { OpenView };

    ghost view = { λ a. record {
      levels = a.levels;
      limits = a.limits;
      txn = a.txn;
      ops = a.ops;
      voters = a.voters.servers;
      touched = a.touched.servers;
    } };

    ghost invariant = { λ a. IsOpen (record {
      levels = a.levels;
      limits = a.limits;
      txn = a.txn;
      ops = a.ops;
      voters = a.voters.servers;
      touched = a.touched.servers;
    }) × ((a.voters.levels ≡ a.levels) × (a.touched.levels ≡ a.levels)) };
}

impl Closed {
    /// The number of the transaction.
    pub fn txn(&self) -> u64
        ensures { result ≡ self.now.txn }
    {
        self.txn
    }

    /// The levels of the tree whose servers it asks.
    pub fn levels(&self) -> Levels
        ensures { result ≡ self.now.levels }
    {
        self.levels
    }

    /// Its operations, ascending by file, a read before a write. They are good evidence as far as they go.
    pub fn ops(&self) -> &[Op]
        ensures value { result.now ≡ self.now.ops }
        ensures good { spec.IsOpen self.now }
        ensures order { are_in_order result.now ≡ true }
    {
        self.ops.as_slice()
    }

    /// The servers of the quorums of its operations, ascending.
    pub fn voters(&self) -> &[ServerId]
        ensures numbers { numbers_of result.now ≡ self.now.voters }
        ensures set { spec.IsServerSet self.now.levels result.now }
        ensures exact { spec.HasVoters self.now }
    {
        self.voters.as_slice()
    }

    /// Has its operations be shared from now on. Nothing else changes.
    pub(crate) fn share(&mut self) -> Result<(), Memory>
        ensures { self.new ≡ self.old }
    {
        self.ops.share()
    }

    /// Its operations, as a list that is shared.
    #[inline(always)]
    pub(crate) fn shared_ops(&self) -> Result<SharedSeq<Op>, Memory>
        ensures value { IfOk result (λ list. list ≡ self.now.ops) }
        ensures good { spec.IsOpen self.now }
    {
        let _ = &self.levels;
        self.ops.shared()
    }

    /// Ends the transaction by a verdict on it, which the desk's entry of that number told. It takes no memory.
    #[inline(always)]
    pub(crate) fn end_by(self, verdict: Verdict, cite: u64) -> Ended
        ensures { result ≡ ending.ended_with self cite verdict }
    {
        let Self {
            levels: _,
            limits: _,
            txn,
            ops: _,
            voters: _,
            touched,
        } = self;
        Ended::of(txn, touched, verdict, cite)
    }
}
