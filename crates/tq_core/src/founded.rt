//! The entry of a number, and tests of what it says: that it is what a citation has it to be.

ghost use Rattle.std.specs.{Prelude.{◌≡◌, ◌==◌, ◌&&◌}, Cmp.Lexicographic.pointwise, Option.option_copied};
ghost use Rattle.tq_core.specs.Founded as spec;
ghost use Rattle.tq_core.specs.World as world;

use tq_asks::{CitedVote, NodeAsk, NodeReply, Verdict, WorkAsk};
use tq_desk::{DeskAsk, DeskRefusal, DeskReply, Grant, Vote};
use tq_store::{Content, FileName};
use tq_tables::{DeskEntry, NodeEntry};

/// Whether the entry granted to the transaction its lock on the file, with the mode, version and
/// content that the grant has.
pub fn is_granted(entry: &NodeEntry, txn: u64, file: FileName, grant: &Grant) -> bool
    ensures { result ≡ spec.is_granted txn file grant.now entry.now.ask entry.now.reply }
{
    let NodeAsk::Work(work) = &entry.ask else {
        return false;
    };
    match work.get() {
        WorkAsk::Lock {
            txn: asked,
            file: locked,
            mode,
        } => match &entry.reply {
            NodeReply::Granted { version, content } => {
                *asked == txn
                    && *locked == file
                    && *mode == grant.mode
                    && *version == grant.version
                    && *content == grant.content
            }
            _ => false,
        },
        _ => false,
    }
}

/// Whether the entry answered the transaction's Prepare with the locks and writes that the vote has.
pub fn is_voted(entry: &NodeEntry, txn: u64, vote: &Vote) -> bool
    ensures { result ≡ spec.is_voted txn vote.now entry.now.ask entry.now.reply }
{
    let NodeAsk::Work(work) = &entry.ask else {
        return false;
    };
    match work.get() {
        WorkAsk::Prepare { txn: asked, .. } => match &entry.reply {
            NodeReply::Yes { held, writes } => *asked == txn
                && *held == vote.held
                && *writes == vote.writes,
            _ => false,
        },
        _ => false,
    }
}

/// Whether the entry told this copy to a peek at the file.
pub fn is_peeked(entry: &NodeEntry, file: FileName, version: u64, content: &Content) -> bool
    ensures { result ≡ spec.is_peeked file version content.now entry.now.ask entry.now.reply }
{
    let NodeAsk::Work(work) = &entry.ask else {
        return false;
    };
    match work.get() {
        WorkAsk::Peek { file: peeked } => match &entry.reply {
            NodeReply::Copy {
                version: told,
                content: copy,
            } => *peeked == file && *told == version && *copy == *content,
            _ => false,
        },
        _ => false,
    }
}

/// Whether the entry says that the transaction ended so: it recorded the commit of the votes cited,
/// or told this verdict.
pub fn is_ended(entry: &DeskEntry, txn: u64, verdict: &Verdict) -> bool
    ensures { result ≡ spec.is_ended txn verdict.now entry.now.ask entry.now.reply }
{
    match &entry.ask {
        DeskAsk::Commit {
            txn: asked,
            votes,
            ..
        } => match &entry.reply {
            DeskReply::Committed { .. } => *asked == txn && cites_votes(verdict, votes.as_slice()),
            DeskReply::Refused(DeskRefusal::Decided(told)) => *asked == txn
                && told.is_same(verdict),
            _ => false,
        },
        DeskAsk::Resolve { txn: asked } => match &entry.reply {
            DeskReply::Verdict(told) => *asked == txn && told.is_same(verdict),
            _ => false,
        },
        DeskAsk::Begin => false,
    }
}

fn cites_votes(verdict: &Verdict, votes: &[Vote]) -> bool
    ensures { result ≡ spec.cites_votes verdict.now votes.now }
{
    match verdict {
        Verdict::Abort => false,
        Verdict::Commit { votes: cited } => are_cited(cited.as_slice(), votes),
    }
}

/// Whether the citations are those of the votes, in their order.
fn are_cited(cited: &[CitedVote], votes: &[Vote]) -> bool
    ensures { result ≡ pointwise spec.cites cited.now votes.now }
{
    match cited {
        [] => votes.is_empty(),
        [first, ..] => match votes {
            [] => false,
            [vote, ..] => first.server == vote.server
                && first.number == vote.number
                && are_cited(&cited[1..], &votes[1..]),
        },
    }
}

/// The item of a number, from 1; none where the list has no such item.
pub fn item_at<T>(items: &[T], number: u64) -> Option<&T>
    ensures { option_copied result ≡ world.item_at items.now number }
{
    if number == 0 {
        return None;
    }
    items.get((number - 1) as usize)
}
