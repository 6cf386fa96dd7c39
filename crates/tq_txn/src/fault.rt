//! Why a line ends before its end.

ghost use Rattle.std.specs.Prelude.{◌≡◌};
ghost use Rattle.tq_txn.specs.Dialogue as spec;
ghost use Rattle.tq_txn.specs.declared.fault.LineFault.TheVariants as line_faults;

use crate::{AskFault, TxnFault};
use std::alloc::{AllocError, AllocFailed};
use thiserror::Error;
use tq_asks::{NodeRefusal, Verdict};
use tq_desk::DeskRefusal;
use tq_live::ViewRefusal;
use tq_shape::Part;

/// Why a line ended before its end.
#[derive(Debug, Drop, PartialEq, Error)]
pub enum LineFault {
    #[error("out of memory")]
    Memory,
    #[error("the journal is full: {part:?}")]
    JournalFull { part: Part },
    #[error("there is no such entry {number}: {part:?}")]
    Unfounded { part: Part, number: u64 },
    #[error("{0}")]
    Txn(TxnFault),
    #[error("server {server} refused: {refusal:?}")]
    Server { server: u64, refusal: NodeRefusal },
    #[error("the desk refused: {0:?}")]
    Desk(DeskRefusal),
    /// The transaction has ended: whether by a commit. Its state tells the verdict.
    #[error("the transaction has ended; by a commit: {committed}")]
    Ended { committed: bool },
    #[error("the view refused: {0:?}")]
    View(ViewRefusal),
    /// The part gave a reply of another kind than the ask has.
    #[error("a reply of another kind than the ask has: {part:?}")]
    WrongReply { part: Part },
}

impl From<AllocError> for LineFault {
    ghost from_gives = { λ _ fault. fault ≡ line_faults.Memory };

    fn from(_refused: AllocError) -> LineFault {
        LineFault::Memory
    }
}

impl<T: Drop> From<AllocFailed<T>> for LineFault {
    ghost from_gives = { λ _ fault. fault ≡ line_faults.Memory };

    fn from(_refused: AllocFailed<T>) -> LineFault {
        LineFault::Memory
    }
}

impl From<AskFault> for LineFault {
    ghost use Rattle.std.specs.Prelude.{◌≡◌};
    ghost use Rattle.tq_txn.specs.Dialogue.{fault_of_ask};

    ghost from_gives = { λ ask fault. fault ≡ fault_of_ask ask };

    fn from(fault: AskFault) -> LineFault {
        match fault {
            AskFault::Memory => LineFault::Memory,
            AskFault::JournalFull { part } => LineFault::JournalFull { part },
            AskFault::Unfounded { part, number } => LineFault::Unfounded { part, number },
        }
    }
}

impl From<DeskRefusal> for LineFault {
    ghost use Rattle.std.specs.Prelude.{◌≡◌};
    ghost use Rattle.tq_txn.specs.Dialogue.{fault_of_desk};

    ghost from_gives = { λ refusal fault. fault ≡ fault_of_desk refusal };

    fn from(refusal: DeskRefusal) -> LineFault {
        match refusal {
            DeskRefusal::Decided(verdict) => LineFault::Ended {
                committed: is_commit(&verdict),
            },
            _ => LineFault::Desk(refusal),
        }
    }
}

/// Whether the transaction ended by a commit.
pub(crate) fn is_commit(verdict: &Verdict) -> bool
    ensures { result ≡ spec.is_commit verdict.now }
{
    match verdict {
        Verdict::Abort => false,
        Verdict::Commit { .. } => true,
    }
}

impl From<TxnFault> for LineFault {
    ghost use Rattle.std.specs.Prelude.{◌≡◌};
    ghost use Rattle.tq_txn.specs.Dialogue.{fault_of_txn};

    ghost from_gives = { λ txn fault. fault ≡ fault_of_txn txn };

    fn from(fault: TxnFault) -> LineFault {
        match fault {
            TxnFault::Memory => LineFault::Memory,
            _ => LineFault::Txn(fault),
        }
    }
}
