//! What servers are asked and what they reply, with refusals and verdicts.

ghost use Rattle.std.specs.Prelude.{◌≡◌, IfOk};
ghost use Rattle.tq_asks.specs.Verdicts as spec;
ghost use Rattle.tq_asks.specs.Verdicts.{same_verdict};

use crate::Reason;
use std::alloc::Global;
use std::fmt;
use std::fmt::Debug;
use tq_locks::Mode;
use tq_shape::{ExactClone, Memory, Shared, SharedSeq};
use tq_store::{Content, FileName, Write};

/// The most writes that a vote may have.
pub const MOST_WRITES: usize = 64;

/// A vote by its server and the number of the entry that gave it.
#[derive(Debug, Clone, Copy, PartialEq, Eq)]
pub struct CitedVote {
    pub server: u64,
    pub number: u64,
}

/// How a transaction ended.
#[derive(Drop, Clone, PartialEq)]
pub enum Verdict {
    Abort,
    /// With the votes that the desk saw, in the order of their servers. Its clones share them.
    Commit { votes: SharedSeq<CitedVote> },
}

/// A lock, as a vote lists it.
#[derive(Debug, Clone, Copy, PartialEq)]
pub struct HeldLock {
    pub file: FileName,
    pub mode: Mode,
    /// The number of the first grant without a break.
    pub since: u64,
}

/// What clients and workers ask of a server.
#[derive(Drop, Clone)]
pub enum WorkAsk {
    /// To lock a file and be told its copy.
    Lock {
        mode: Mode,
        txn: u64,
        file: FileName,
    },
    /// To vote for the writes of a transaction.
    Prepare {
        txn: u64,
        writes: SharedSeq<Write>,
    },
    /// To end a vote; `cite` is the number of the desk's entry with the verdict.
    Decide {
        txn: u64,
        verdict: Verdict,
        cite: u64,
    },
    /// To end the locks of a transaction that has no vote here.
    Release {
        txn: u64,
    },
    /// To be told a copy.
    Peek {
        file: FileName,
    },
    /// To take a newer copy; `from` is the entry of another server where it was seen.
    // Its parts stand apart, so that each ask takes six words and not ten.
    Refresh {
        file: Shared<FileName>,
        version: u64,
        content: Shared<Content>,
        from: CitedVote,
    },
}

/// What a server is asked: work, to go down, or to come back.
#[derive(Drop, Clone)]
pub enum NodeAsk {
    Work(Shared<WorkAsk>),
    /// What isn't stable is lost.
    Crash,
    Return,
    /// To stop in the midst of the work, behind so many of the stable records that it would write, and go down: these
    /// records are kept, and what isn't stable is lost.
    // The count stands first, beside the tag: so an ask takes two words and not three.
    CrashIn { after: u32, ask: Shared<WorkAsk> },
}

/// Why a server refuses an ask. A refusal changes nothing.
#[derive(Debug, Clone, Copy, PartialEq)]
pub enum NodeRefusal {
    Down,
    AlreadyUp,
    AlreadyDown,
    /// By the least transaction whose lock conflicts.
    Held { by: u64 },
    /// The transaction has an open vote here.
    Prepared,
    /// The first write whose file the transaction doesn't hold exclusively here.
    NotLocked { file: FileName },
    /// More than 64, or their files don't ascend.
    BadWrites,
    /// The version isn't above that of the copy here.
    NotNewer,
    /// The transaction has no vote to end, or no lock here.
    NothingHere,
}

/// What a server replies.
#[derive(Drop, Clone)]
pub enum NodeReply {
    /// The lock is held; the copy of its file.
    Granted {
        version: u64,
        content: Content,
    },
    /// A vote, with the locks that it keeps, ascending by file.
    Yes {
        held: SharedSeq<HeldLock>,
        writes: SharedSeq<Write>,
    },
    /// The vote ended, and its writes came.
    Installed,
    /// The vote ended, and nothing came of it.
    Discarded,
    Released,
    Copy {
        version: u64,
        content: Content,
    },
    Refreshed,
    Crashed,
    Returned,
    Refused(Reason),
}

impl NodeReply {
    /// The refusal for this reason.
    ///
    /// # Errors
    ///
    /// Refuses where there is no memory for the name of a file.
    pub fn of_refusal(alloc: Global, reason: NodeRefusal) -> Result<NodeReply, Memory>
        ensures { IfOk result (λ reply. reply ≡ NodeReply.Refused reason) }
    {
        let reason = Reason::new(alloc, reason)?;
        Ok(NodeReply::Refused(reason))
    }
}

impl Verdict {
    /// Whether the two verdicts are the same: both aborts, or commits of the same votes in the same order.
    pub fn is_same(&self, other: &Verdict) -> bool
        ensures { result ≡ same_verdict self.now other.now }
    {
        match self {
            Verdict::Abort => matches!(other, Verdict::Abort),
            Verdict::Commit { votes } => match other {
                Verdict::Abort => false,
                Verdict::Commit { votes: others } => *votes == *others,
            },
        }
    }

    /// Whether it is Commit and cites the vote that the entry of that number gave at the server.
    pub fn cites(&self, server: u64, number: u64) -> bool
        ensures { result ≡ spec.cites_vote self.now server number }
    {
        match self {
            Verdict::Abort => false,
            Verdict::Commit { votes } => are_citing_vote(votes.as_slice(), server, number),
        }
    }
}

/// Whether the vote of this server with this number is among those cited: where they ascend, a search finds it.
fn are_citing_vote(votes: &[CitedVote], server: u64, number: u64) -> bool
    ensures { result ≡ spec.are_citing votes.now server number }
{
    let place = votes.partition_point(|vote| vote.server < server);
    if let Some(vote) = votes.get(place) {
        if vote.server == server && vote.number == number {
            return true;
        }
    }
    are_citing(votes, server, number)
}

/// The same, with a look at each.
fn are_citing(votes: &[CitedVote], server: u64, number: u64) -> bool
    ensures { result ≡ spec.are_citing votes.now server number }
{
    votes
        .iter()
        .any(|vote| vote.server == server && vote.number == number)
}

impl Debug for Verdict {
    fn fmt<W: fmt::Write>(&self, f: &mut fmt::Formatter<W>) -> fmt::Result {
        match self {
            Verdict::Abort => f.write_str("Abort"),
            Verdict::Commit { votes } => f
                .debug_struct("Commit")
                .field("votes", &votes.as_slice())
                .finish(),
        }
    }
}

impl ExactClone for CitedVote {
    ghost use Rattle.std.proofs.Common.{rules};

    ghost clones = { Prim.search rules };
}

impl ExactClone for WorkAsk {
    ghost use Rattle.std.proofs.Common.{rules};

    ghost clones = { Prim.search rules };
}

impl ExactClone for HeldLock {
    ghost use Rattle.std.proofs.Common.{rules};

    ghost clones = { Prim.search rules };
}

impl ExactClone for NodeRefusal {
    ghost use Rattle.std.proofs.Common.{rules};

    ghost clones = { Prim.search rules };
}
