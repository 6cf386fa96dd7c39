//! What operators and auditors read: the tables of a system as text, and its journals as JSON, an open form that other tools
//! read, to and fro; and one entry, or the answer to one ask, as a line.
//!
//! Definitions: `specs/Form`, `Nodes`, `Values`, `Sound`; `Lines` (what is written as it comes, and is read as the same journals).
#![tactic(auto)]

mod codes;
mod desks;
mod entry_line;
mod frame;
mod nodes;
mod out;
mod room;
mod spilling;
mod to_json;
mod values;
mod views;

pub use entry_line::{answer_to_json, entry_to_json};
pub use frame::{journals_to_json, write_journals};
pub use tq_board_text::{lines, render};
pub use tq_json_read::{ReadFault, journals_from_json};
