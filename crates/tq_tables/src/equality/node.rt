//! Whether asks of servers, and their replies, are the same.

ghost use Rattle.std.specs.Prelude.{◌≡◌};
ghost use Rattle.tq_asks.specs.declared.ask.WorkAsk.TheVariants as asks;
ghost use Rattle.tq_tables.specs.Same as spec;

use crate::equality::same::Same;
use tq_asks::{CitedVote, NodeAsk, NodeRefusal, NodeReply, WorkAsk};
use tq_store::{Content, FileName};

impl Same for NodeAsk {
    fn is_same(&self, other: &NodeAsk) -> bool {
        test_of_ask(self, other)
    }
}

impl Same for NodeReply {
    fn is_same(&self, other: &NodeReply) -> bool {
        test_of_reply(self, other)
    }
}

/// The test of what clients and workers ask, case by case.
fn test_of_work(one: &WorkAsk, other: &WorkAsk) -> bool
    ensures { result ≡ spec.same_work one.now other.now }
{
    match one {
        WorkAsk::Lock { txn, file, mode } => match other {
            WorkAsk::Lock {
                txn: by,
                file: name,
                mode: held,
            } => *txn == *by && *file == *name && *mode == *held,
            _ => false,
        },
        WorkAsk::Prepare { txn, writes } => match other {
            WorkAsk::Prepare {
                txn: by,
                writes: made,
            } => *txn == *by && *writes == *made,
            _ => false,
        },
        WorkAsk::Decide { txn, verdict, cite } => match other {
            WorkAsk::Decide {
                txn: by,
                verdict: ending,
                cite: number,
            } => *txn == *by && verdict.is_same(ending) && *cite == *number,
            _ => false,
        },
        WorkAsk::Release { txn } => match other {
            WorkAsk::Release { txn: by } => *txn == *by,
            _ => false,
        },
        WorkAsk::Peek { file } => match other {
            WorkAsk::Peek { file: name } => *file == *name,
            _ => false,
        },
        WorkAsk::Refresh {
            file,
            version,
            content,
            from,
        } => is_refresh(other, file.get(), *version, content.get(), from),
    }
}

/// Whether the ask is the refresh of that file, to that version with that content, which cites that vote.
fn is_refresh(
    ask: &WorkAsk,
    file: &FileName,
    version: u64,
    content: &Content,
    from: &CitedVote,
) -> bool
    ensures { result ≡ spec.same_work
        (asks.Refresh file.now version content.now from.now) ask.now }
{
    match ask {
        WorkAsk::Refresh {
            file: name,
            version: number,
            content: bytes,
            from: source,
        } => *file == *name.get()
            && version == *number
            && *content == *bytes.get()
            && *from == *source,
        _ => false,
    }
}

/// The test of a server's asks, case by case.
fn test_of_ask(one: &NodeAsk, other: &NodeAsk) -> bool
    ensures { result ≡ spec.same_node_ask one.now other.now }
{
    match one {
        NodeAsk::Work(ask) => match other {
            NodeAsk::Work(work) => test_of_work(ask.get(), work.get()),
            _ => false,
        },
        NodeAsk::Crash => matches!(other, NodeAsk::Crash),
        NodeAsk::Return => matches!(other, NodeAsk::Return),
        NodeAsk::CrashIn { ask, after } => match other {
            NodeAsk::CrashIn {
                ask: work,
                after: count,
            } => test_of_work(ask.get(), work.get()) && *after == *count,
            _ => false,
        },
    }
}

/// Whether a server refuses for the same reason.
fn is_same_reason(one: NodeRefusal, other: NodeRefusal) -> bool
    ensures { result ≡ spec.same_reason one other }
{
    match one {
        NodeRefusal::Down => matches!(other, NodeRefusal::Down),
        NodeRefusal::AlreadyUp => matches!(other, NodeRefusal::AlreadyUp),
        NodeRefusal::AlreadyDown => matches!(other, NodeRefusal::AlreadyDown),
        NodeRefusal::Held { by } => match other {
            NodeRefusal::Held { by: txn } => by == txn,
            _ => false,
        },
        NodeRefusal::Prepared => matches!(other, NodeRefusal::Prepared),
        NodeRefusal::NotLocked { file } => match other {
            NodeRefusal::NotLocked { file: name } => file == name,
            _ => false,
        },
        NodeRefusal::BadWrites => matches!(other, NodeRefusal::BadWrites),
        NodeRefusal::NotNewer => matches!(other, NodeRefusal::NotNewer),
        NodeRefusal::NothingHere => matches!(other, NodeRefusal::NothingHere),
    }
}

/// The test of a server's replies, case by case.
fn test_of_reply(one: &NodeReply, other: &NodeReply) -> bool
    ensures { result ≡ spec.same_node_reply one.now other.now }
{
    match one {
        NodeReply::Granted { version, content } => match other {
            NodeReply::Granted {
                version: number,
                content: bytes,
            } => *version == *number && *content == *bytes,
            _ => false,
        },
        NodeReply::Yes { held, writes } => match other {
            NodeReply::Yes {
                held: locks,
                writes: made,
            } => *held == *locks && *writes == *made,
            _ => false,
        },
        NodeReply::Installed => matches!(other, NodeReply::Installed),
        NodeReply::Discarded => matches!(other, NodeReply::Discarded),
        NodeReply::Released => matches!(other, NodeReply::Released),
        NodeReply::Copy { version, content } => match other {
            NodeReply::Copy {
                version: number,
                content: bytes,
            } => *version == *number && *content == *bytes,
            _ => false,
        },
        NodeReply::Refreshed => matches!(other, NodeReply::Refreshed),
        NodeReply::Crashed => matches!(other, NodeReply::Crashed),
        NodeReply::Returned => matches!(other, NodeReply::Returned),
        NodeReply::Refused(reason) => match other {
            NodeReply::Refused(cause) => is_same_reason(reason.get(), cause.get()),
            _ => false,
        },
    }
}
