//! A transaction in any of its states, and what a read and a server with a verdict answer.

ghost use Rattle.std.specs.Prelude.{◌≡◌};
ghost use Rattle.tq_txn.specs.Told as spec;

use crate::{Ended, LineFault, Open, Voting};
use tq_shape::Levels;
use tq_store::{Content, FileCopy};

/// A transaction, in one of its states.
#[derive(Drop)]
pub enum Txn {
    Open(Open),
    Voting(Voting),
    Ended(Ended),
}

impl Txn {
    /// The levels of the tree whose servers it asks.
    pub fn levels(&self) -> Levels
        ensures { result ≡ spec.levels_of self.now }
    {
        match self {
            Txn::Open(txn) => txn.levels(),
            Txn::Voting(voting) => voting.txn().levels(),
            Txn::Ended(ended) => ended.levels(),
        }
    }

    /// The number that the desk gave it.
    pub fn number(&self) -> u64
        ensures { result ≡ spec.number_of self.now }
    {
        match self {
            Txn::Open(txn) => txn.txn(),
            Txn::Voting(voting) => voting.txn().txn(),
            Txn::Ended(ended) => ended.txn(),
        }
    }
}

/// What a line that may end a transaction answers, and the transaction after it.
#[derive(Drop)]
pub struct Decision {
    pub answer: Result<u64, LineFault>,
    pub txn: Txn,
}

/// What an abort answers, and the transaction after it.
#[derive(Drop)]
pub struct Abortion {
    pub answer: Result<(), LineFault>,
    pub txn: Txn,
}

/// What a server did with a verdict.
#[derive(Clone, Copy, Debug, PartialEq, Eq)]
pub enum Applied {
    Installed,
    Discarded,
}

/// What a read of a file answers.
#[derive(Drop)]
pub enum ReadAnswer {
    /// What the transaction itself has written, which nobody else sees yet.
    Pending(Content),
    Copy(FileCopy),
}
