//! The evidence that a commit rests on: operations with their grants, and votes; and the rules that it has to keep.
//!
//! Definitions: `specs/Evidence`; `Shareable` is the code's own word.
#![tactic(auto)]

mod evidence;
mod grant;
mod grants;
mod op;
mod rule;
mod shareable;
mod vote;

pub use evidence::failed_rule;
pub use grant::Grant;
pub use grants::{Numbers, granters, greatest_version, newest, rises};
pub use op::{Op, OpKind};
pub use rule::Rule;
pub use shareable::Shareable;
pub use vote::Vote;
