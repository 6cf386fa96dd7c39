//! What an ask changes in a server, and what a stop leaves of it.

ghost use Rattle.std.specs.Prelude.{◌≡◌, map, IfOk};
ghost use Rattle.tq_node.specs.{declared.change.NodeStep.NodeStep, NodeChanges.{cut_step, end_records, records_of}};

use std::alloc::Global;
use tq_intents::{NewerWrite, OpenVote, Record, SharedWrite, vote_records};
use tq_locks::Mode;
use tq_shape::{Memory, Seq, SharedSeq};
use tq_store::{FileName, Write};

/// What an ask changes in a server.
#[derive(Drop)]
pub struct NodeChange {
    /// The number of the ask, which is that of the last one from then on, also where the ask is refused.
    pub number: u64,
    /// What changes besides.
    pub step: NodeStep,
    /// Whether the server stops behind the step: it is down then, and has what its stable records keep.
    pub stops: bool,
}

/// The step of an ask, with all that it keeps.
#[derive(Drop)]
pub enum NodeStep {
    /// It is refused, or it only looks.
    Nothing,
    /// The transaction holds the file, whose copy has this version.
    Lock {
        txn: u64,
        file: FileName,
        mode: Mode,
        version: u64,
    },
    /// The transaction has this open vote, and its locks last through a crash.
    Vote {
        txn: u64,
        vote: OpenVote,
    },
    /// The transaction's vote, of that number, ends, and its locks with it.
    Discard {
        txn: u64,
        number: u64,
    },
    /// The transaction's vote, of that number, ends, and its locks with it. Its writes are installed, of which those
    /// listed are newer than the copies.
    Install {
        txn: u64,
        number: u64,
        writes: SharedSeq<Write>,
        newer: Seq<NewerWrite>,
    },
    /// The transaction holds nothing any more.
    Release {
        txn: u64,
    },
    /// The copy of a file is this one, which is newer.
    Refresh {
        write: Write,
    },
    /// The server stops in the midst of a vote: these of the vote's records are written, which stand for nothing.
    Unfinished {
        records: Seq<Record>,
    },
    /// The server stops in the midst of a vote's end: these are installed, the first of its newer writes.
    Copies {
        newer: Seq<NewerWrite>,
    },
    /// The server is down, and has lost the locks of those that have no open vote.
    Crash,
    /// The server is up again.
    Return,
}

impl NodeStep {
    /// The stable records that the step writes, in order.
    pub fn records(&self, alloc: Global) -> Result<Vec<Record>, Memory>
        ensures { IfOk result (λ records. records.items ≡ records_of self.now) }
    {
        match self {
            NodeStep::Vote { txn, vote } => {
                let records = vote_records(alloc, *txn, vote.number, &vote.writes, &vote.locks)?;
                Ok(records)
            }
            NodeStep::Discard { txn, number } => {
                let records = records_of_end(alloc, *txn, *number, &[])?;
                Ok(records)
            }
            NodeStep::Install {
                txn,
                number,
                newer,
                ..
            } => {
                let records = records_of_end(alloc, *txn, *number, newer.as_slice())?;
                Ok(records)
            }
            NodeStep::Refresh { write } => {
                let mut records = Vec::new(alloc);
                let write = SharedWrite::alone(alloc, write.clone()?)?;
                records.push(Record::Copy(write))?;
                Ok(records)
            }
            NodeStep::Unfinished { records } => {
                let records = records.clone()?;
                Ok(records.into_vec())
            }
            NodeStep::Copies { newer } => {
                let records = copies(alloc, newer.as_slice())?;
                Ok(records)
            }
            _ => Ok(Vec::new(alloc)),
        }
    }

    /// What is left of an ask's step where the server stops behind the first so many of its stable records.
    pub(crate) fn cut(self, alloc: Global, after: usize) -> Result<NodeStep, Memory>
        ensures { IfOk result (λ step. step ≡ cut_step after self) }
    {
        match self {
            NodeStep::Vote { txn, vote } => cut_vote(alloc, after, txn, vote),
            NodeStep::Install {
                txn,
                number,
                writes,
                newer,
            } => Ok(cut_install(after, txn, number, writes, newer)),
            NodeStep::Discard { txn, number } => {
                if after == 0 {
                    Ok(NodeStep::Nothing)
                } else {
                    Ok(NodeStep::Discard { txn, number })
                }
            }
            NodeStep::Refresh { write } => {
                if after == 0 {
                    Ok(NodeStep::Nothing)
                } else {
                    Ok(NodeStep::Refresh { write })
                }
            }
            _ => Ok(NodeStep::Nothing),
        }
    }
}

/// What is left of a vote.
fn cut_vote(alloc: Global, after: usize, txn: u64, vote: OpenVote) -> Result<NodeStep, Memory>
    ensures { IfOk result (λ step. step ≡ cut_step after (NodeStep.Vote txn vote)) }
{
    let mut records = vote_records(alloc, txn, vote.number, &vote.writes, &vote.locks)?;
    if after < records.len() {
        records.truncate(after);
        let records = Seq::from_vec(records);
        return Ok(NodeStep::Unfinished { records });
    }
    Ok(NodeStep::Vote { txn, vote })
}

/// What is left of a vote's end that installs.
fn cut_install(
    after: usize,
    txn: u64,
    number: u64,
    writes: SharedSeq<Write>,
    newer: Seq<NewerWrite>,
) -> NodeStep
    ensures { result ≡ cut_step after (NodeStep.Install txn number writes newer) }
{
    if after <= newer.len() {
        let mut newer = newer.into_vec();
        newer.truncate(after);
        return NodeStep::Copies {
            newer: Seq::from_vec(newer),
        };
    }
    NodeStep::Install {
        txn,
        number,
        writes,
        newer,
    }
}

/// The records of the end of a vote, of which these writes came.
fn records_of_end(
    alloc: Global,
    txn: u64,
    number: u64,
    newer: &[NewerWrite],
) -> Result<Vec<Record>, Memory>
    ensures { IfOk result (λ records. records.items ≡ end_records newer.now txn number) }
{
    let mut records = copies(alloc, newer)?;
    records.push(Record::Gone { txn, number })?;
    Ok(records)
}

/// The records of copies that came.
fn copies(alloc: Global, newer: &[NewerWrite]) -> Result<Vec<Record>, Memory>
    ensures { IfOk result (λ records. records.items ≡ map Record.Copy newer.now) }
{
    let mut records = Vec::new(alloc);
    for write in newer {
        let write = write.get().clone()?;
        records.push(Record::Copy(write))?;
    }
    Ok(records)
}
