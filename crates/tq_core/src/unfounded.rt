//! The first citation of an ask that is not founded. Each is one look-up in a journal.
ghost use Rattle.std.specs.{Prelude.◌≡◌, Option.option_copied};
ghost use Rattle.tq_tables.specs.Journals.{JournalsView};
ghost use Rattle.tq_core.specs.World as world;
ghost use Rattle.tq_core.specs.Founded as spec;

use crate::citation::{Citation, cited_grant, cited_in_work, cited_vote};
use crate::founded::{is_ended, is_granted, is_peeked, is_voted, item_at};
use tq_asks::{CitedVote, NodeAsk, Verdict, WorkAsk};
use tq_desk::{ByProof, ByRules, DeskAsk, Grant, Judge, Op, Vote};
use tq_store::{Content, FileName};
use tq_tables::{DeskEntry, Journals, NodeEntry};

/// Journals in which the entries that an ask cites are looked up.
pub trait CitedEntries {
    /// The journals that they are.
    ghost journals: { Self → JournalsView };

    /// The entry of a number in a server's journal, None where there is no such entry.
    fn server_entry(&self, server: u64, number: u64) -> Option<&NodeEntry>
        ensures { option_copied result ≡ world.server_entry (journals self.now) server number };

    /// The entry of a number in the desk's journal, None where there is no such entry.
    fn desk_entry(&self, number: u64) -> Option<&DeskEntry>
        ensures { option_copied result ≡ world.item_at (journals self.now).desk number };
}

impl CitedEntries for Journals {
    ghost journals = { λ journals. journals };

    fn server_entry(&self, server: u64, number: u64) -> Option<&NodeEntry> {
        match item_at(self.servers(), server) {
            Some(entries) => item_at(entries.as_slice(), number),
            None => None,
        }
    }

    fn desk_entry(&self, number: u64) -> Option<&DeskEntry> {
        item_at(self.desk(), number)
    }
}

/// The first citation of a desk's ask that is not founded in these journals: of a Commit the grants, op
/// by op, and then the votes.
pub fn unfounded_in_desk_ask<E: CitedEntries>(entries: &E, ask: &DeskAsk) -> Option<Citation>
    ensures { result ≡ spec.unfounded_in_desk_ask (E.journals entries.now) ask.now }
{
    match ask {
        DeskAsk::Commit { txn, ops, votes } => {
            match unfounded_op(entries, *txn, ops.as_slice()) {
                Some(citation) => Some(citation),
                None => unfounded_vote(entries, *txn, votes.as_slice()),
            }
        }
        _ => None,
    }
}

/// A judge of the evidence of commits who also finds what asks cite.
pub trait Warrant: Judge {
    ghost use Rattle.tq_asks.specs.declared.ask.NodeAsk.{NodeAsk};
    ghost use Rattle.tq_desk.specs.declared.ask.DeskAsk.{DeskAsk};

    /// The asks of the desk that may come before it where these are the journals.
    ghost founds: { JournalsView → DeskAsk → Type 0 };

    /// The asks of servers that may.
    ghost founds_node: { JournalsView → NodeAsk → Type 0 };

    /// The first citation of the ask that is not founded in these journals.
    fn unfounded<E: CitedEntries>(entries: &E, ask: &DeskAsk) -> Option<Citation>
        requires { founds (E.journals entries.now) ask.now }
        ensures { result ≡ spec.unfounded_in_desk_ask (E.journals entries.now) ask.now };

    /// What the ask of a server cites, where that is not founded in these journals.
    fn unfounded_node<E: CitedEntries>(entries: &E, ask: &NodeAsk) -> Option<Citation>
        requires { founds_node (E.journals entries.now) ask.now }
        ensures { result ≡ spec.unfounded_in_node_ask (E.journals entries.now) ask.now };
}

/// Each entry that is cited is looked up.
impl Warrant for ByRules {
    ghost founds = { λ journals ask. Unit {0} };

    ghost founds_node = { λ journals ask. Unit {0} };

    fn unfounded<E: CitedEntries>(entries: &E, ask: &DeskAsk) -> Option<Citation> {
        unfounded_in_desk_ask(entries, ask)
    }

    #[inline(always)]
    fn unfounded_node<E: CitedEntries>(entries: &E, ask: &NodeAsk) -> Option<Citation> {
        unfounded_in_node_ask(entries, ask)
    }
}

/// The caller's proof that the entries stand: none is looked up.
impl Warrant for ByProof {
    ghost use Rattle.std.specs.Prelude.{◌≡◌, None};

    ghost founds = { λ journals ask. spec.unfounded_in_desk_ask journals ask ≡ None };

    ghost founds_node = { λ journals ask. spec.unfounded_in_node_ask journals ask ≡ None };

    fn unfounded<E: CitedEntries>(_entries: &E, _ask: &DeskAsk) -> Option<Citation> {
        None
    }

    #[inline(always)]
    fn unfounded_node<E: CitedEntries>(_entries: &E, _ask: &NodeAsk) -> Option<Citation> {
        None
    }
}

/// What a server's ask cites, where that is not founded in these journals.
#[inline(always)]
pub fn unfounded_in_node_ask<E: CitedEntries>(entries: &E, ask: &NodeAsk) -> Option<Citation>
    ensures { result ≡ spec.unfounded_in_node_ask (E.journals entries.now) ask.now }
{
    match ask {
        NodeAsk::Work(work) => unfounded_in_work(entries, work.get()),
        NodeAsk::CrashIn { ask, .. } => unfounded_in_work(entries, ask.get()),
        _ => None,
    }
}

#[inline(always)]
fn unfounded_in_work<E: CitedEntries>(entries: &E, ask: &WorkAsk) -> Option<Citation>
    ensures { result ≡ spec.unfounded_in_work (E.journals entries.now) ask.now }
{
    let cited = cited_in_work(ask)?;
    if is_founded_work(entries, ask) {
        return None;
    }
    Some(cited)
}

/// Whether the entry that the ask cites has that content; true where the ask cites none.
#[inline(always)]
fn is_founded_work<E: CitedEntries>(entries: &E, ask: &WorkAsk) -> bool
    ensures { result ≡ spec.is_founded_work (E.journals entries.now) ask.now }
{
    match ask {
        WorkAsk::Decide { txn, verdict, cite } => {
            is_founded_verdict(entries, *txn, verdict, *cite)
        }
        WorkAsk::Refresh {
            file,
            version,
            content,
            from,
        } => is_founded_copy(entries, *file.get(), *version, content.get(), *from),
        _ => true,
    }
}

/// The first grant of these ops that is not founded.
fn unfounded_op<E: CitedEntries>(entries: &E, txn: u64, ops: &[Op]) -> Option<Citation>
    ensures { result ≡ spec.unfounded_op (E.journals entries.now) txn ops.now }
{
    for op in ops {
        if let Some(citation) = unfounded_grant(entries, txn, op.file, op.grants.as_slice()) {
            return Some(citation);
        }
    }
    None
}

fn unfounded_grant<E: CitedEntries>(
    entries: &E,
    txn: u64,
    file: FileName,
    grants: &[Grant],
) -> Option<Citation>
    ensures { result ≡ spec.unfounded_grant (E.journals entries.now) txn file grants.now }
{
    grants
        .iter()
        .find(|grant| !is_founded_grant(entries, txn, file, grant))
        .map(|grant| cited_grant(grant))
}

fn unfounded_vote<E: CitedEntries>(entries: &E, txn: u64, votes: &[Vote]) -> Option<Citation>
    ensures { result ≡ spec.unfounded_vote (E.journals entries.now) txn votes.now }
{
    votes
        .iter()
        .find(|vote| !is_founded_vote(entries, txn, vote))
        .map(|vote| cited_vote(vote))
}

fn is_founded_grant<E: CitedEntries>(entries: &E, txn: u64, file: FileName, grant: &Grant) -> bool
    ensures { result ≡ spec.is_founded_grant (E.journals entries.now) txn file grant.now }
{
    match entries.server_entry(grant.server, grant.number) {
        Some(entry) => is_granted(entry, txn, file, grant),
        None => false,
    }
}

fn is_founded_vote<E: CitedEntries>(entries: &E, txn: u64, vote: &Vote) -> bool
    ensures { result ≡ spec.is_founded_vote (E.journals entries.now) txn vote.now }
{
    match entries.server_entry(vote.server, vote.number) {
        Some(entry) => is_voted(entry, txn, vote),
        None => false,
    }
}

#[inline(always)]
fn is_founded_copy<E: CitedEntries>(
    entries: &E,
    file: FileName,
    version: u64,
    content: &Content,
    from: CitedVote,
) -> bool
    ensures { result ≡ spec.is_founded_copy (E.journals entries.now) file version content.now from }
{
    match entries.server_entry(from.server, from.number) {
        Some(entry) => is_peeked(entry, file, version, content),
        None => false,
    }
}

#[inline(always)]
fn is_founded_verdict<E: CitedEntries>(entries: &E, txn: u64, verdict: &Verdict, cite: u64) -> bool
    ensures { result ≡ spec.is_founded_verdict (E.journals entries.now) txn verdict.now cite }
{
    match entries.desk_entry(cite) {
        Some(entry) => is_ended(entry, txn, verdict),
        None => false,
    }
}
