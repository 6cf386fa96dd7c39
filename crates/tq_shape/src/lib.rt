//! The words that every other crate speaks in: the shape of a complete binary tree of servers, the parts of a system, the
//! journals of what they are asked, the limits, lists that contracts see as lists, and digits behind a text.
//!
//! Definitions: `specs/Tree`, `Limits`, `ServerSet`, `Journal`, `Agrees` (a journal is legal and its part is its replay);
//! `proofs/Places` and `Joined` are cited by all crates above.
#![tactic(auto)]

mod answers;
mod decimal;
mod fault;
mod hexadecimal;
mod journaled;
mod level;
mod limits;
mod list;
mod part;
mod room;
mod server;
mod server_set;
mod shared;
mod shared_list;
mod words;

pub use answers::{Answers, Plan};
pub use decimal::push_number;
pub use fault::{AskFault, Fault};
pub use hexadecimal::{push_bytes, spell};
pub use journaled::{Answered, Journaled, foresee};
pub use level::{Levels, MOST_LEVELS};
pub use limits::{Limits, MOST_ENTRIES, MOST_FILES, MOST_OPS};
pub use list::{ExactClone, Seq};
pub use part::{Entry, Part};
pub use room::make_room;
pub use server::{ServerId, Sides};
pub use server_set::{ServerSet, ServerSetIter};
pub use shared::Shared;
pub use shared_list::SharedSeq;

/// What a call answers where memory is refused.
pub type Memory = std::alloc::AllocError;
