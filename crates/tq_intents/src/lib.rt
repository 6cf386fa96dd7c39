//! What a server keeps through a crash: its stable records, and what they stand for.
//!
//! Definitions: `specs/Kept` (what a list of records keeps), `Sharing`.
#![tactic(auto)]

mod intents;
mod newer_write;
mod record;
mod shared_lock;
mod shared_write;
mod vote_locks;

pub use intents::{Intents, vote_records};
pub use newer_write::NewerWrite;
pub use record::{KeptLock, OpenVote, Record, VotesLeft};
pub use shared_lock::SharedLock;
pub use shared_write::SharedWrite;
pub use vote_locks::{LockVersions, VoteLocks};
