//! The journals of a system from their text: the form of journal files, and its reader; and one ask, reply or entry of that form.
//!
//! No value of a whole file is made. A reader hands out its tokens, each object takes its members one at a time, and what no
//! name asks for is passed over. What entries are read by, the plan, may stand behind them: a first look finds it, and where
//! the file gives another in the end, it is read once more by that one.
//!
//! Definitions: `specs/Frame` and one for each kind of object. `Slots` are words of the reader's own: the members of an object,
//! and what is made of them.
#![tactic(auto)]

mod alone;
mod commits;
mod desk_ask;
mod desk_reply;
mod entry;
mod fault;
mod file;
mod glance;
mod locking;
mod node_ask;
mod node_reply;
mod object;
mod parts;
mod read;
mod scalars;
mod view_ask;
mod view_reply;

pub use alone::value_from_json;
pub use fault::ReadFault;
pub use read::journals_from_json;
