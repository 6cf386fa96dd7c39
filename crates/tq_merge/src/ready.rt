//! Whether a server's entry can be placed: what it cites is placed, and stands in the journals.
ghost use Rattle.std.specs.Prelude.{◌≡◌, ◌≤◌, ◌<◌, ◌⊎◌, false, true, is_none, length, take};
ghost use Rattle.tq_shape.specs.Journal.{Has};
ghost use Rattle.tq_asks.specs.declared.ask.CitedVote.{CitedVote};
ghost use Rattle.tq_merge.specs.Placing as spec;

use tq_asks::{CitedVote, NodeAsk};
use tq_core::{Citation, cited_in_node_ask, item_at, unfounded_in_node_ask};
use tq_shape::Part;
use tq_tables::Journals;

/// Whether an entry of a server is placed, where so many of each server are.
pub(crate) fn is_placed(counts: &[u64], entry: CitedVote) -> bool
    ensures { result ≡ spec.is_placed counts.now entry }
{
    match item_at(counts, entry.server) {
        Some(count) => entry.number <= *count,
        None => false,
    }
}

/// Whether the entry that is cited is placed, where so many of each server and of the desk are. All
/// entries of the view are.
fn is_citation_placed(counts: &[u64], desk: u64, cited: Citation) -> bool
    ensures { result ≡ spec.is_citation_placed counts.now desk cited }
{
    let Citation { part, number } = cited;
    match part {
        Part::Server(server) => is_placed(counts, CitedVote { server, number }),
        Part::Desk => number <= desk,
        Part::View => true,
    }
}

/// Whether the ask can be placed, where so many entries of each server and of the desk are: what it
/// cites is placed, and is founded.
pub(crate) fn is_ready(journals: &Journals, counts: &[u64], desk: u64, ask: &NodeAsk) -> bool
    ensures { result ≡ spec.is_ready journals.now counts.now desk ask.now }
{
    if missing_in(counts, desk, ask).is_some() {
        return false;
    }
    unfounded_in_node_ask(journals, ask).is_none()
}

/// What the ask cites where that is not placed, where so many of each server and of the desk are.
pub(crate) fn missing_in(counts: &[u64], desk: u64, ask: &NodeAsk) -> Option<Citation>
    ensures { is_none result ≡ spec.is_placed_in_node_ask counts.now desk ask.now }
{
    let cited = cited_in_node_ask(ask)?;
    if is_citation_placed(counts, desk, cited) {
        return None;
    }
    Some(cited)
}

/// The first of the entries, from this place on, that is not placed; their number where all are.
pub(crate) fn first_missing(wanted: &[CitedVote], from: usize, counts: &[u64]) -> usize
    requires { from ≤ length wanted.now }
    ensures within { result ≤ length wanted.now }
    ensures missing { result < length wanted.now
        → (entry : CitedVote) × Has wanted.now entry × (spec.is_placed counts.now entry ≡ false) }
    ensures placed { (entry : CitedVote) → Has (take result wanted.now) entry
        → Has (take from wanted.now) entry ⊎ (spec.is_placed counts.now entry ≡ true) }
{
    for place in from..wanted.len() {
        if !is_placed(counts, wanted[place]) {
            return place;
        }
    }
    wanted.len()
}
