//! The rows of the votes that are open.

ghost use Rattle.std.specs.{Prelude.{◌≡◌, map, IfOk, Some}, Iterator.YieldsFirstBy};
ghost use Rattle.tq_tables.specs.Rows.{intent_rows_at, intent_state_at, left_at, lent_row};
ghost use Rattle.tq_tables.specs.Rows as spec;

use std::alloc::Global;
use std::marker::Model;
use tq_asks::Verdict;
use tq_desk::Desk;
use tq_intents::VotesLeft;
use tq_node::Node;
use tq_shape::{Memory, Seq, ServerId};
use tq_store::{FileName, Write};

/// A vote that is open at a server, whose writes are lent.
#[derive(Clone, Copy)]
pub struct OpenIntent<'a> {
    pub server: ServerId,
    pub txn: u64,
    /// The number of the server's entry that gave the vote.
    pub number: u64,
    /// What it would install, ascending by file.
    pub writes: &'a [Write],
    pub state: IntentState,
}

impl<'a> OpenIntent<'a> {
    /// The row of the vote, with memory of its own.
    fn to_row(&self, alloc: Global) -> Result<IntentRow, Memory>
        ensures { IfOk result (λ row. row ≡ lent_row self.now) }
    {
        let writes = file_versions(alloc, self.writes)?;
        Ok(IntentRow {
            server: self.server,
            txn: self.txn,
            number: self.number,
            writes,
            state: self.state,
        })
    }
}

/// The votes of a server that are left to walk.
#[derive(Drop)]
struct VotesAt<'a> {
    server: ServerId,
    votes: VotesLeft<'a>,
}

/// The votes that are open, as far as they are left to walk: ascending by server and transaction. A walk takes no memory.
#[derive(Drop)]
pub struct OpenIntents<'a> {
    desk: &'a Desk,
    /// Where the walk is.
    here: Option<VotesAt<'a>>,
    /// The servers behind it.
    nodes: &'a [Node],
}

impl<'a> Model for OpenIntents<'a> {
    ghost use Rattle.std.specs.Prelude.{List, ◌++◌};
    ghost use Rattle.tq_tables.specs.declared.intent_rows.IntentRow.{IntentRow};
    ghost use Rattle.tq_tables.specs.Rows.{intent_state_at, intent_rows, left_at};

    ghost Value = { List IntentRow };

    ghost view = { λ a. left_at (intent_state_at a.desk.now) a.here
        ++ intent_rows (intent_state_at a.desk.now) a.nodes.now };
}

impl<'a> OpenIntents<'a> {
    /// All of them.
    pub(crate) fn over(nodes: &'a [Node], desk: &'a Desk) -> OpenIntents<'a>
        ensures { result ≡ spec.intent_rows (intent_state_at desk.now) nodes.now }
    {
        OpenIntents {
            desk,
            here: None,
            nodes,
        }
    }
}

impl<'a> Iterator for OpenIntents<'a> {
    ghost use Rattle.std.specs.Iterator.{YieldsFirstBy, item_count};
    ghost use Rattle.tq_tables.specs.Rows.{lent_row};

    type Item = OpenIntent<'a>;

    ghost next_gives = { YieldsFirstBy lent_row (λ rest. rest) };

    ghost remaining = { item_count (λ rest. rest) };

    fn next(&mut self) -> Option<OpenIntent<'a>> {
        loop {
            if let Some(intent) = next_at(self.desk, &mut self.here) {
                return Some(intent);
            }
            let (node, rest) = self.nodes.split_first()?;
            self.nodes = rest;
            self.here = Some(VotesAt {
                server: node.server(),
                votes: node.votes(),
            });
        }
    }
}

/// The next vote of a server.
fn next_at<'a>(desk: &Desk, here: &mut Option<VotesAt<'a>>) -> Option<OpenIntent<'a>>
    ensures { YieldsFirstBy lent_row (left_at (intent_state_at desk.now)) here.old result here.new }
{
    let Some(here) = here else {
        return None;
    };
    let (txn, vote) = here.votes.next()?;
    let server = here.server;
    let number = vote.number;
    Some(OpenIntent {
        server,
        txn: *txn,
        number,
        writes: vote.writes.as_slice(),
        state: intent_state(desk, server.number(), *txn, number),
    })
}

/// The rows of the votes that are open at the servers.
pub fn intent_rows(alloc: Global, nodes: &[Node], desk: &Desk) -> Result<Vec<IntentRow>, Memory>
    ensures { IfOk result (λ rows. rows.items ≡ intent_rows_at desk.now nodes.now) }
{
    let mut rows = Vec::new(alloc);
    for intent in OpenIntents::over(nodes, desk) {
        rows.push(intent.to_row(alloc)?)?;
    }
    Ok(rows)
}

/// The files and versions of writes.
fn file_versions(alloc: Global, writes: &[Write]) -> Result<Seq<FileVersion>, Memory>
    ensures { IfOk result (λ versions. versions ≡ map spec.file_version writes.now) }
{
    let mut versions = Vec::new(alloc);
    for write in writes {
        let file = write.file;
        let version = write.version;
        versions.push(FileVersion { file, version })?;
    }
    Ok(Seq::from_vec(versions))
}

/// What the desk says of the vote that the entry of that number gave at the server.
fn intent_state(desk: &Desk, server: u64, txn: u64, number: u64) -> IntentState
    ensures { result ≡ intent_state_at desk.now server txn number }
{
    if txn == 0 {
        return IntentState::Unknown;
    }
    if desk.begun() < txn {
        return IntentState::Unknown;
    }
    match desk.verdict(txn) {
        None => IntentState::Undecided,
        Some(verdict) => state_by(verdict, server, number),
    }
}

/// What the end of its transaction says of a vote.
fn state_by(verdict: &Verdict, server: u64, number: u64) -> IntentState
    ensures { result ≡ spec.state_by (Some verdict.now) server number }
{
    match verdict {
        Verdict::Abort => IntentState::Abort,
        Verdict::Commit { .. } if verdict.cites(server, number) => IntentState::Install,
        Verdict::Commit { .. } => IntentState::Discard,
    }
}

/// A file, and the version that a write makes of it.
#[derive(Clone, Copy, Debug, PartialEq)]
pub struct FileVersion {
    pub file: FileName,
    pub version: u64,
}

/// What the desk's log says of an open vote.
#[derive(Clone, Copy, Debug, PartialEq, Eq)]
pub enum IntentState {
    /// Its transaction was never begun.
    Unknown,
    /// Its transaction has not ended.
    Undecided,
    /// Its transaction aborted.
    Abort,
    /// Its transaction committed and cites this vote.
    Install,
    /// Its transaction committed and cites other votes.
    Discard,
}

/// A vote that is open at a server.
pub struct IntentRow {
    pub server: ServerId,
    pub txn: u64,
    /// The number of the server's entry that gave the vote.
    pub number: u64,
    /// What it would install, ascending by file.
    pub writes: Seq<FileVersion>,
    pub state: IntentState,
}

// Written out, so that a crate above lets go of one by a call.
impl Drop for IntentRow {
    fn drop(self) {
        let Self {
            server: _,
            txn: _,
            number: _,
            writes: _,
            state: _,
        } = self;
    }
}
