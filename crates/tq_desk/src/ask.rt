//! What the desk is asked and what it replies.

use crate::Ballot;
use tq_asks::Verdict;
use tq_evidence::{Op, Rule};
use tq_shape::SharedSeq;

/// What a desk is asked.
#[derive(Drop, Clone)]
pub enum DeskAsk {
    /// A transaction more.
    Begin,
    /// To record that the transaction commits, on this evidence.
    Commit {
        txn: u64,
        ops: SharedSeq<Op>,
        votes: Ballot,
    },
    /// How the transaction ended; one that has not yet aborts.
    Resolve {
        txn: u64,
    },
}

/// Why a desk refuses, in the order that it looks for them. Nothing changes then.
#[derive(Debug, Drop, Clone, PartialEq)]
pub enum DeskRefusal {
    /// The number is that of no transaction begun.
    NoSuchTxn,
    /// The transaction to commit has ended so already.
    Decided(Verdict),
    /// There are more operations than the limit.
    TooManyOps,
    /// The evidence fails this rule, and none before it.
    BadEvidence { rule: Rule },
    /// The commits would have written more different files than the limit.
    TooManyFiles,
}

/// What a desk answers.
#[derive(Drop, Clone, PartialEq)]
pub enum DeskReply {
    /// The number of the transaction begun, from 1.
    Txn(u64),
    /// How the transaction ended.
    Verdict(Verdict),
    /// The commit is recorded, as that many-th, from 1.
    Committed { serial: u64 },
    Refused(DeskRefusal),
}
