//! The journals of a system: what each server, the desk and the view were asked and what they answered; and the tables
//! that say how the system stands after them. Beside them, whether two asks, two replies or two entries are the same.
//!
//! Definitions: `specs/Journals`, `Parts`, `Rows`, `Tables`, `Same`; `Tabled` and `Files` are the code's own words.
#![tactic(auto)]

mod equality;
mod file_names;
mod file_row;
mod file_rows;
mod file_table;
mod followed;
mod holders;
mod intent_rows;
mod journals;
mod lock_rows;
mod parts;
mod quorum_rows;
mod ready_entry;
pub mod rows;
mod tabled_journals;
mod tables;

pub use equality::{Same, begins, is_same_entry};
pub use file_row::FileRow;
pub use intent_rows::{FileVersion, IntentRow, IntentState, OpenIntent, OpenIntents};
pub use journals::{DeskEntry, Journals, NodeEntry, PartEntry, ViewEntry};
pub use lock_rows::LockRow;
pub use parts::Replies;
pub use quorum_rows::QuorumRow;
pub use tabled_journals::TabledJournals;
pub use tables::Tables;
pub use tq_shape::Entry;
