//! The lines of a client's transaction: what each asks of the parts, in order, and what it answers; and scripts of such lines.
//!
//! Definitions: `specs/Dialogue` (a line as a tree of asks), `Lines`, `Commits`, `Told`, `Script` (what a script asks, as one
//! dialogue).
#![tactic(auto)]

mod aborts;
mod asker;
mod commits;
mod endings;
mod fault;
mod operating;
mod operations;
mod running;
mod stops;
mod transacting;
mod txn;

pub use aborts::abort;
pub use asker::{Asker, Exchange, Told, ViewTold};
pub use commits::{commit, decide};
pub use endings::{apply_at, ask_any, prepare_at};
pub use fault::LineFault;
pub use operating::mark_server;
pub use operations::{read_file, write_file};
pub use running::run_script;
pub use stops::{prepare_stopping, stop_at};
pub use tq_shape::{Answered, AskFault};
pub use tq_txn_states::{DeskTold, Ended, NodeTold, Open, Ready, TxnFault, Voting};
pub use txn::{Abortion, Applied, Decision, ReadAnswer, Txn};
