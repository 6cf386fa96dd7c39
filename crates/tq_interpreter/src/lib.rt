//! A session of the shell of a tree of servers, line by line: the service that lines are asked of, what each line asks,
//! the lines of transactions and of operators, and what is answered.
//!
//! Definitions: `specs/Answer` and `TxnAsked` (what lines ask); `Recorded` is the code's own word.
#![tactic(auto)]

mod answering;
mod decisions;
mod endings;
mod history;
mod operations;
mod operators;
mod recorder;
mod server_lines;
mod shell;
mod states;
mod told;
mod txn_slot;

pub use shell::Shell;
pub use txn_slot::{Ending, TxnSlot};
