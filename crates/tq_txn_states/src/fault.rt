//! Why a transaction does not take an answer.

ghost use Rattle.std.specs.Prelude.{◌≡◌};
ghost use Rattle.tq_txn_states.specs.declared.fault.TxnFault.TheVariants as faults;

use std::alloc::{AllocError, AllocFailed};
use thiserror::Error;
use tq_store::FileName;

/// Why a transaction does not take an answer, or does not go on.
#[derive(Clone, Copy, Debug, PartialEq, Error)]
pub enum TxnFault {
    #[error("out of memory")]
    Memory,
    #[error("the servers are not a member of the coterie")]
    NotAMember,
    #[error("the answer of server {server} is not a grant")]
    NotAGrant { server: u64 },
    #[error("the operation is there already")]
    AlreadyThere,
    #[error("too many operations")]
    TooManyOps,
    #[error("version full")]
    VersionFull,
    #[error("nothing to commit")]
    NoOps,
    #[error("not a voter")]
    NotAVoter,
    /// The vote does not cover a grant; the file is the least of those of which it does not.
    #[error("lost lock on {file:?}")]
    LostLock { file: FileName },
    #[error("not a vote of this transaction")]
    NotMyVote,
    #[error("not a verdict on this transaction")]
    NotMyVerdict,
    #[error("votes missing")]
    VotesMissing,
}

impl From<AllocError> for TxnFault {
    ghost from_gives = { λ _ fault. fault ≡ faults.Memory };

    fn from(_refused: AllocError) -> TxnFault {
        TxnFault::Memory
    }
}

impl<T: Drop> From<AllocFailed<T>> for TxnFault {
    ghost from_gives = { λ _ fault. fault ≡ faults.Memory };

    fn from(_refused: AllocFailed<T>) -> TxnFault {
        TxnFault::Memory
    }
}
