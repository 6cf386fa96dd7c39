//! What servers are asked, and what they reply.
//!
//! Definitions: `specs/Verdicts` (the votes that a verdict cites, and equal verdicts), `Reasons`.
#![tactic(auto)]

mod ask;
mod reason;

pub use ask::{
    CitedVote, HeldLock, MOST_WRITES, NodeAsk, NodeRefusal, NodeReply, Verdict, WorkAsk,
};
pub use reason::Reason;
