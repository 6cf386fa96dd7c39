//! The stable records, and the votes that they keep open.

ghost use Rattle.std.specs.{Prelude.{◌≡◌, None, Some, IfOk, IsSome, OnErr, OnOk}, Option.option_copied};
ghost use Rattle.tq_intents.specs.Kept.{AreInOrder, Indexes, IsWithout, vote_in};

use crate::{SharedLock, SharedWrite, VoteLocks};
use std::alloc::{AllocError, Global};
use std::collections::BTreeMap;
use std::collections::btree_map::Iter;
use std::marker::Model;
use tq_locks::Mode;
use tq_shape::{ExactClone, SharedSeq};
use tq_store::{FileName, Write};

/// A lock that a vote made stable.
#[derive(Debug, Clone, Copy, PartialEq)]
pub struct KeptLock {
    pub file: FileName,
    pub mode: Mode,
    pub since: u64,
    /// The version of the copy at `since`.
    pub version: u64,
}

/// A vote that is open: it was given and has not ended.
#[derive(Drop, Clone)]
pub struct OpenVote {
    /// The number of the entry that gave it.
    pub number: u64,
    pub writes: SharedSeq<Write>,
    pub locks: VoteLocks,
}

/// Open votes by transaction. One that is open alone, as most are, stands beside the map, which is empty then: so no node of
/// the map is made for it, and let go of.
pub(crate) struct OpenVotes {
    alone: Option<(u64, OpenVote)>,
    others: BTreeMap<u64, OpenVote>,
}

// Written out, so that it is proved once.
impl Drop for OpenVotes {
    fn drop(self) {
        let Self {
            alone: _,
            others: _,
        } = self;
    }
}

impl Model for OpenVotes {
    ghost use Rattle.std.specs.{Prelude.{◌≡◌, ℕ, List, [], IsSome}, Coded.{coded_list, coded_ℕ, coded×}};
    ghost use Rattle.tq_intents.specs.{Kept.votes_in, declared.record.OpenVote.OpenVote as vote_value};
    ghost use Rattle.tq_intents.specs.contracts.record.OpenVote as vote_type;

    ghost Value = { List (ℕ × vote_value) };

    ghost coded = { coded_list (coded× coded_ℕ vote_type.the_row.coded) };

    ghost view = { λ a. votes_in a.alone a.others.entries };

    ghost invariant = { λ a. IsSome a.alone → a.others.entries ≡ [] };
}

impl OpenVotes {
    /// These open votes.
    pub(crate) fn of(votes: BTreeMap<u64, OpenVote>) -> OpenVotes
        ensures { result ≡ votes.entries }
    {
        OpenVotes {
            alone: None,
            others: votes,
        }
    }

    /// Equal ones, with memory of their own.
    pub(crate) fn copy(&self) -> Result<OpenVotes, AllocError>
        ensures { IfOk result (λ copy. copy ≡ self.now) }
    {
        Ok(OpenVotes {
            alone: self.alone.clone()?,
            others: self.others.clone()?,
        })
    }

    /// The open vote of a transaction.
    #[inline(always)]
    pub(crate) fn get(&self, txn: u64) -> Option<&OpenVote>
        ensures { option_copied result ≡ vote_in self.now txn }
    {
        match &self.alone {
            Some(vote) => {
                if vote.0 == txn {
                    return Some(&vote.1);
                }
                None
            }
            None => self.others.get(&txn),
        }
    }

    /// A walk of them, ascending by transaction.
    pub(crate) fn iter(&self) -> VotesLeft<'_>
        ensures votes { result ≡ self.now }
        ensures ordered { AreInOrder self.now }
    {
        VotesLeft {
            alone: self.alone.as_ref(),
            others: self.others.iter(),
        }
    }

    /// Opens the vote of a transaction that has none.
    #[inline(always)]
    pub(crate) fn open(&mut self, txn: u64, vote: OpenVote) -> Result<(), AllocError>
        requires { vote_in self.old txn ≡ None }
        ensures votes { OnOk result (Indexes self.old self.new txn vote) }
        ensures err { OnErr result (self.new ≡ self.old) }
    {
        if self.alone.is_none() && self.others.is_empty() {
            self.alone = Some((txn, vote));
            return Ok(());
        }
        self.open_beside(txn, vote)
    }

    /// The same where there are others.
    #[inline(never)]
    fn open_beside(&mut self, txn: u64, vote: OpenVote) -> Result<(), AllocError>
        requires { vote_in self.old txn ≡ None }
        ensures votes { OnOk result (Indexes self.old self.new txn vote) }
        ensures err { OnErr result (self.new ≡ self.old) }
    {
        if let Some(first) = self.alone.take() {
            if let Err(refused) = self.others.insert(first.0, first.1) {
                self.alone = Some(refused.value);
                return Err(AllocError);
            }
        }
        let _none = self.others.insert(txn, vote)?;
        Ok(())
    }

    /// Ends the open vote of a transaction, which has one.
    #[inline(always)]
    pub(crate) fn end(&mut self, txn: u64) -> OpenVote
        requires { IsSome (vote_in self.old txn) }
        ensures ended { vote_in self.old txn ≡ Some result }
        ensures others { IsWithout self.old self.new txn }
    {
        match self.alone.take() {
            Some(vote) => vote.1,
            None => self.others.remove(&txn).unwrap(),
        }
    }
}

/// Open votes that are left to walk, ascending by transaction.
#[derive(Drop)]
pub struct VotesLeft<'a> {
    alone: Option<&'a (u64, OpenVote)>,
    others: Iter<'a, u64, OpenVote>,
}

impl<'a> Model for VotesLeft<'a> {
    ghost use Rattle.std.specs.{Prelude.{ℕ, List, ◌++◌}, Option.{option_copied, option_to_list}};
    ghost use Rattle.tq_intents.specs.declared.record.OpenVote.{OpenVote as vote_value};

    ghost Value = { List (ℕ × vote_value) };

    ghost view = { λ it. option_to_list (option_copied it.alone) ++ it.others };
}

impl<'a> Iterator for VotesLeft<'a> {
    ghost use Rattle.std.specs.{Iterator.{YieldsFirstBy, item_count}, Map.Iter.deref_pair};

    type Item = (&'a u64, &'a OpenVote);

    ghost next_gives = { YieldsFirstBy deref_pair (λ rest. rest) };

    ghost remaining = { item_count (λ rest. rest) };

    fn next(&mut self) -> Option<(&'a u64, &'a OpenVote)> {
        match self.alone.take() {
            Some(vote) => Some((&vote.0, &vote.1)),
            None => self.others.next(),
        }
    }
}

/// A stable record. `number` is that of the entry that gave the vote. What it holds of a write or of a lock is its place in
/// a list, which it shares with the vote's other records and with what was asked and replied.
#[derive(Drop, Clone)]
pub enum Record {
    Copy(SharedWrite),
    Intent {
        txn: u64,
        number: u64,
        write: SharedWrite,
    },
    Keep {
        txn: u64,
        number: u64,
        lock: SharedLock,
    },
    Prepared {
        txn: u64,
        number: u64,
    },
    Gone {
        txn: u64,
        number: u64,
    },
}

impl ExactClone for KeptLock {
    ghost use Rattle.std.proofs.Common.{rules};

    ghost clones = { Prim.search rules };
}

impl ExactClone for Record {
    ghost use Rattle.std.proofs.Common.{rules};

    ghost clones = { Prim.search rules };
}

impl ExactClone for OpenVote {
    ghost use Rattle.std.proofs.Common.{rules};

    ghost clones = { Prim.search rules };
}
