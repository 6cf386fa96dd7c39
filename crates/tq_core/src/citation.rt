//! What an ask cites.

ghost use Rattle.std.specs.Prelude.{◌≡◌};
ghost use Rattle.tq_core.specs.Founded as spec;

use tq_asks::{NodeAsk, WorkAsk};
use tq_desk::{Grant, Vote};
use tq_shape::Part;

/// An entry that an ask cites: its part and its number there.
#[derive(Clone, Copy, Debug, PartialEq, Eq)]
pub struct Citation {
    pub part: Part,
    pub number: u64,
}

/// What an ask of a server cites: a Decide the desk's entry with its verdict, a Refresh the peek that
/// told its copy, and any other ask nothing.
#[inline(always)]
pub fn cited_in_node_ask(ask: &NodeAsk) -> Option<Citation>
    ensures { result ≡ spec.cited_in_node_ask ask.now }
{
    match ask {
        NodeAsk::Work(work) => cited_in_work(work.get()),
        NodeAsk::CrashIn { ask, .. } => cited_in_work(ask.get()),
        _ => None,
    }
}

/// What an ask of a client or a worker cites.
#[inline(always)]
pub(crate) fn cited_in_work(ask: &WorkAsk) -> Option<Citation>
    ensures { result ≡ spec.cited_in_work ask.now }
{
    match ask {
        WorkAsk::Decide { cite, .. } => Some(Citation {
            part: Part::Desk,
            number: *cite,
        }),
        WorkAsk::Refresh { from, .. } => Some(Citation {
            part: Part::Server(from.server),
            number: from.number,
        }),
        _ => None,
    }
}

/// The entry of a server that granted the lock.
pub(crate) fn cited_grant(grant: &Grant) -> Citation
    ensures { result ≡ spec.cited_grant grant.now }
{
    Citation {
        part: Part::Server(grant.server),
        number: grant.number,
    }
}

/// The entry of a server that gave the vote.
pub(crate) fn cited_vote(vote: &Vote) -> Citation
    ensures { result ≡ spec.cited_vote vote.now }
{
    Citation {
        part: Part::Server(vote.server),
        number: vote.number,
    }
}
