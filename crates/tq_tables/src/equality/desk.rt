//! Whether asks of the desk, and its replies, are the same.

ghost use Rattle.std.specs.{Prelude.◌≡◌, Cmp.Lexicographic.pointwise};
ghost use Rattle.tq_tables.specs.Same as spec;

use crate::equality::same::Same;
use tq_desk::{Ballot, DeskAsk, DeskRefusal, DeskReply};
use tq_evidence::Op;
use tq_shape::SharedSeq;

impl Same for DeskAsk {
    fn is_same(&self, other: &DeskAsk) -> bool {
        test_of_ask(self, other)
    }
}

impl Same for DeskReply {
    fn is_same(&self, other: &DeskReply) -> bool {
        test_of_reply(self, other)
    }
}

fn are_same_ops(one: &SharedSeq<Op>, other: &SharedSeq<Op>) -> bool
    ensures { result ≡ pointwise spec.same_op one.now other.now }
{
    *one == *other
}

fn are_same_votes(one: &Ballot, other: &Ballot) -> bool
    ensures { result ≡ pointwise spec.same_vote one.now other.now }
{
    one.as_slice() == other.as_slice()
}

/// The test of the desk's asks, case by case.
fn test_of_ask(one: &DeskAsk, other: &DeskAsk) -> bool
    ensures { result ≡ spec.same_desk_ask one.now other.now }
{
    match one {
        DeskAsk::Begin => matches!(other, DeskAsk::Begin),
        DeskAsk::Commit { txn, ops, votes } => match other {
            DeskAsk::Commit {
                txn: by,
                ops: made,
                votes: given,
            } => *txn == *by && are_same_ops(ops, made) && are_same_votes(votes, given),
            _ => false,
        },
        DeskAsk::Resolve { txn } => match other {
            DeskAsk::Resolve { txn: by } => *txn == *by,
            _ => false,
        },
    }
}

/// Whether the desk refuses for the same reason.
fn is_same_reason(one: &DeskRefusal, other: &DeskRefusal) -> bool
    ensures { result ≡ spec.same_desk_reason one.now other.now }
{
    match one {
        DeskRefusal::NoSuchTxn => matches!(other, DeskRefusal::NoSuchTxn),
        DeskRefusal::Decided(verdict) => match other {
            DeskRefusal::Decided(ending) => verdict.is_same(ending),
            _ => false,
        },
        DeskRefusal::TooManyOps => matches!(other, DeskRefusal::TooManyOps),
        DeskRefusal::BadEvidence { rule } => match other {
            DeskRefusal::BadEvidence { rule: number } => rule.number() == number.number(),
            _ => false,
        },
        DeskRefusal::TooManyFiles => matches!(other, DeskRefusal::TooManyFiles),
    }
}

/// The test of the desk's replies, case by case.
fn test_of_reply(one: &DeskReply, other: &DeskReply) -> bool
    ensures { result ≡ spec.same_desk_reply one.now other.now }
{
    match one {
        DeskReply::Txn(txn) => match other {
            DeskReply::Txn(number) => *txn == *number,
            _ => false,
        },
        DeskReply::Verdict(verdict) => match other {
            DeskReply::Verdict(ending) => verdict.is_same(ending),
            _ => false,
        },
        DeskReply::Committed { serial } => match other {
            DeskReply::Committed { serial: number } => *serial == *number,
            _ => false,
        },
        DeskReply::Refused(reason) => match other {
            DeskReply::Refused(cause) => is_same_reason(reason, cause),
            _ => false,
        },
    }
}
