//! The running cluster: each part of a system in a cell of its own, callers that many threads may have, and a bounded queue of
//! jobs: what all takers together took is the first of what was put, in order, each once.
//!
//! Definitions: `specs/Cluster`, `Told`, `Rounds`, `Clients`, `Rule` (that of the queue).
#![tactic(auto)]

mod asked;
mod asking;
mod caller;
mod clients;
mod close;
mod cluster;
mod ends;
mod explained;
mod journals;
mod live_board;
mod own;
mod pass_knowledge;
mod queue;
mod recorded;
mod rounds;
mod workers;

pub use asking::Asking;
pub use caller::Caller;
pub use clients::Ran;
pub use cluster::Cluster;
pub use ends::{Putter, Taker};
pub use explained::Explained;
pub use live_board::LiveBoard;
pub use pass_knowledge::PassKnowledge;
pub use tq_merge::CloseFault;
pub use tq_mirror::{Entries, PullFault};
pub use tq_syntax::Script;
pub use tq_syntax::script::Line;
