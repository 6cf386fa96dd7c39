//! The states of a client's transaction as types: it reads and writes, it gathers votes, it has ended.
//!
//! Definitions: `specs/Open`, `Voting`, `Ended`.
#![tactic(auto)]

mod closed;
mod ended;
mod fault;
mod grants;
mod open;
mod ready;
mod servers;
mod told;
mod votes;
mod voting;

pub use closed::Closed;
pub use ended::Ended;
pub use fault::TxnFault;
pub use open::Open;
pub use ready::Ready;
pub use told::{DeskTold, NodeTold};
pub use voting::Voting;
