//! A vote in which a lock is found soon, however many it lists.

ghost use Rattle.std.specs.Prelude.{◌≡◌, IfOk};
ghost use Rattle.tq_evidence.specs.Evidence as spec;

use crate::evidence::held::HeldSince;
use crate::{Grant, Vote};
use std::alloc::Global;
use std::marker::Model;
use tq_shape::Memory;
use tq_store::FileName;

/// The most locks of a vote that each look-up goes through. Of more a table is made, so that the work stays near
/// linear.
const FEW_LOCKS: usize = 16;

/// A vote; where it lists many locks, they also stand in a table by file. For a few no memory is taken.
#[derive(Drop)]
pub(crate) struct Listed<'a> {
    vote: &'a Vote,
    table: Option<HeldSince>,
}

impl<'a> Model for Listed<'a> {
    ghost use Rattle.tq_evidence.specs.{declared.vote.Vote.Vote, Evidence.IsTableOf};

    ghost Value = { Vote };

    ghost view = { λ list. list.vote.now };

    ghost invariant = { λ list. IsTableOf list.table list.vote.now.held };
}

impl<'a> Listed<'a> {
    /// The vote, with a table where it lists more than `FEW_LOCKS`.
    pub(crate) fn of(alloc: Global, vote: &'a Vote) -> Result<Listed<'a>, Memory>
        ensures { IfOk result (λ list. list ≡ vote.now) }
    {
        let held = vote.held.as_slice();
        if held.len() <= FEW_LOCKS {
            return Ok(Listed { vote, table: None });
        }
        let table = HeldSince::of(alloc, held)?;
        Ok(Listed {
            vote,
            table: Some(table),
        })
    }

    /// The vote's server.
    pub(crate) fn server(&self) -> u64
        ensures { result ≡ self.now.server }
    {
        self.vote.server
    }

    /// As `Vote::covers`.
    pub(crate) fn covers(&self, file: FileName, grant: &Grant) -> bool
        ensures { result ≡ spec.covers file grant.now self.now }
    {
        let vote = self.vote;
        vote.server == grant.server
            && grant.number < vote.number
            && self.holds_since(file, grant.number)
    }

    /// As `Vote::holds_since`.
    fn holds_since(&self, file: FileName, number: u64) -> bool
        ensures { result ≡ spec.holds_since self.now file number }
    {
        match &self.table {
            Some(table) => table.holds(file, number),
            None => self.vote.holds_since(file, number),
        }
    }
}
