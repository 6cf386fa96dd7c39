//! The votes of a commit, with the list by which its record cites them.

ghost use Rattle.std.specs.Prelude.{◌≡◌, IfOk};
ghost use Rattle.tq_desk.specs.Ballots as spec;

use std::alloc::{AllocError, Global};
use std::marker::Model;
use tq_asks::CitedVote;
use tq_evidence::Vote;
use tq_shape::{ExactClone, Memory, Shared, SharedSeq};

/// The votes of a commit, which its clones share. The list that cites them is made once, and whoever keeps it shares it.
/// Contracts see the votes alone.
pub struct Ballot {
    parts: Shared<BallotParts>,
}

#[derive(Drop)]
struct BallotParts {
    votes: Vec<Vote>,
    cited: SharedSeq<CitedVote>,
}

// Written out, so that a crate above lets go of one by a call.
impl Drop for Ballot {
    #[inline(always)]
    fn drop(self) {
        let Self { parts: _ } = self;
    }
}

impl Model for Ballot {
    ghost use Rattle.std.specs.{Prelude.{◌≡◌, List, vec_items}, Coded.coded_list};
    ghost use Rattle.tq_desk.specs.Ballots.{cited_votes};
    ghost use Rattle.tq_evidence.specs.contracts.vote.Vote as vote_type;
    ghost use Rattle.tq_evidence.specs.declared.vote.Vote.{Vote as vote_value};

    ghost Value = { List vote_value };

    ghost coded = { coded_list vote_type.the_row.coded };

    ghost view = { λ a. vec_items a.parts.votes };

    ghost invariant = { λ a. a.parts.cited ≡ cited_votes (vec_items a.parts.votes) };
}

impl Ballot {
    /// The ballot of these votes.
    ///
    /// # Errors
    ///
    /// Refuses where there is no memory for the list that cites them.
    #[inline(always)]
    pub fn new(alloc: Global, votes: Vec<Vote>) -> Result<Ballot, Memory>
        ensures { IfOk result (λ ballot. ballot ≡ votes.items) }
    {
        let cited = cited_votes(alloc, &votes)?;
        let parts = Shared::new(alloc, BallotParts { votes, cited })?;
        Ok(Ballot { parts })
    }

    /// The votes, in order.
    pub fn as_slice(&self) -> &[Vote]
        ensures { result.now ≡ self.now }
    {
        &self.parts.get().votes
    }

    /// The votes as a commit's record cites them.
    pub fn cited(&self) -> Result<SharedSeq<CitedVote>, Memory>
        ensures { IfOk result (λ list. list ≡ spec.cited_votes self.now) }
    {
        Ok(self.parts.get().cited.clone()?)
    }
}

impl Clone for Ballot {
    ghost use Rattle.std.specs.Prelude.{◌≡◌};

    ghost is_clone = { λ x y. y ≡ x };

    fn clone(&self) -> Result<Self, AllocError> {
        Ok(Ballot {
            parts: self.parts.clone()?,
        })
    }
}

impl ExactClone for Ballot {
    ghost clones = { λ x y h. h };
}

#[inline(always)]
fn cited_votes(alloc: Global, votes: &[Vote]) -> Result<SharedSeq<CitedVote>, Memory>
    ensures { IfOk result (λ list. list ≡ spec.cited_votes votes.now) }
{
    let mut cited = Vec::with_capacity(alloc, votes.len())?;
    for vote in votes {
        cited.push_reserved(CitedVote {
            server: vote.server,
            number: vote.number,
        });
    }
    Ok(SharedSeq::from_vec(cited)?)
}
