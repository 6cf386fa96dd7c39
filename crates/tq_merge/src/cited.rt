//! What a desk's ask cites.
ghost use Rattle.std.specs.Prelude.{◌≡◌, ◌++◌, map, IfOk, OnOk};
ghost use Rattle.tq_merge.specs.Placing as spec;
ghost use Rattle.tq_core.specs.Founded.{cited_grant, cited_vote};

use std::alloc::Global;
use tq_asks::CitedVote;
use tq_core::unfounded_in_desk_ask;
use tq_desk::{DeskAsk, Grant, Op, Vote};
use tq_shape::Memory;
use tq_tables::Journals;

/// Appends the entries that the grants cite.
fn push_grants(wanted: &mut Vec<CitedVote>, grants: &[Grant]) -> Result<(), Memory>
    ensures { OnOk result (map spec.entry_cited wanted.new.items
        ≡ map spec.entry_cited wanted.old.items ++ map cited_grant grants.now) }
{
    for grant in grants {
        wanted.push(CitedVote {
            server: grant.server,
            number: grant.number,
        })?;
    }
    Ok(())
}

/// Appends the entries that these ops cite, op by op.
fn push_ops(wanted: &mut Vec<CitedVote>, ops: &[Op]) -> Result<(), Memory>
    ensures { OnOk result (map spec.entry_cited wanted.new.items
        ≡ map spec.entry_cited wanted.old.items ++ spec.cited_in_ops ops.now) }
{
    for op in ops {
        push_grants(wanted, op.grants.as_slice())?;
    }
    Ok(())
}

/// Appends the entries that the votes cite.
fn push_votes(wanted: &mut Vec<CitedVote>, votes: &[Vote]) -> Result<(), Memory>
    ensures { OnOk result (map spec.entry_cited wanted.new.items
        ≡ map spec.entry_cited wanted.old.items ++ map cited_vote votes.now) }
{
    for vote in votes {
        wanted.push(CitedVote {
            server: vote.server,
            number: vote.number,
        })?;
    }
    Ok(())
}

/// The entries that the ask cites, in order.
fn cited_in(alloc: Global, ask: &DeskAsk) -> Result<Vec<CitedVote>, Memory>
    ensures { IfOk result (λ wanted.
        map spec.entry_cited wanted.items ≡ spec.cited_in_desk_ask ask.now) }
{
    let mut wanted = Vec::new(alloc);
    match ask {
        DeskAsk::Commit { ops, votes, .. } => {
            // As many as where each voter granted one file, to read and then to write.
            wanted.reserve(votes.as_slice().len().saturating_mul(3))?;
            push_ops(&mut wanted, ops.as_slice())?;
            push_votes(&mut wanted, votes.as_slice())?;
        }
        _ => {}
    }
    Ok(wanted)
}

/// What an entry of the desk cites.
#[derive(Drop)]
pub(crate) struct Wanted {
    /// Whether all of it stands in the journals.
    pub(crate) stands: bool,
    pub(crate) entries: Vec<CitedVote>,
}

/// What the desk's next entry cites, where so many are placed.
pub(crate) fn wanted_at(alloc: Global, journals: &Journals, placed: u64) -> Result<Wanted, Memory>
    ensures { IfOk result (λ wanted.
        spec.IsNextWanted journals.now placed wanted.stands wanted.entries.items) }
{
    match journals.desk().get(placed as usize) {
        None => Ok(Wanted {
            stands: true,
            entries: Vec::new(alloc),
        }),
        Some(entry) => {
            let stands = unfounded_in_desk_ask(journals, &entry.ask).is_none();
            let entries = cited_in(alloc, &entry.ask)?;
            Ok(Wanted { stands, entries })
        }
    }
}
