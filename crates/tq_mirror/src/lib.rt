//! What was pulled of the journals of a system: of each part the first entries, and the tables over them. It is plain
//! data: nothing here asks a part.
//!
//! Definitions: `specs/Prefixes`.
#![tactic(auto)]

mod astray;
mod entries;
mod fault;
mod following;
mod prefixes;

pub use entries::Entries;
pub use fault::PullFault;
pub use prefixes::Prefixes;
