//! What the bytes of lines ask for, and the scripts that texts of clients' lines hold.
//!
//! Definitions: `specs/Line`, `ClientLine`, `Word`; `Scripts` the lines of bytes and the scripts of lines. `Gathering` is the
//! code's own word.
#![tactic(auto)]

mod client;
mod fault;
mod gathered;
mod line;
mod operands;
mod reader;
pub mod script;
mod word;

pub use client::ClientLine;
pub use fault::ScriptFault;
pub use line::{LINE_LIMIT, Line, TxnLine};
pub use reader::{CLIENT_LIMIT, SCRIPT_LIMIT, read_scripts};
pub use script::Script;
pub use word::{numbers_are_read_again, without_return};
