//! A server: its copies, locks and votes, what it answers to each ask, and what its journals say.
//!
//! Definitions: `specs/Records` (the step as a function), `Cases` (by cases), `Node`, `NodeJournal`, `NodeLaws`; `Telling` is the
//! code's own word. `proofs/Frames`, `StepFrames`, `StopFrames` are laws of one entry, `Lawful` of a journal.
#![tactic(auto)]

mod answers;
mod change;
mod laws;
mod node;
mod telling;
mod votes;

pub use change::{NodeChange, NodeStep};
pub use laws::{journals_are_lawful, locks_are_lawful, stable_records_are_kept, votes_are_lawful};
pub use node::Node;
pub use telling::{Raised, Telling};
pub use tq_asks::{
    CitedVote, HeldLock, MOST_WRITES, NodeAsk, NodeRefusal, NodeReply, Verdict, WorkAsk,
};
