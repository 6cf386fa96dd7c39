//! The coterie of a tree of servers: which sets of servers are quorums.
//!
//! A leaf's only member is the leaf. Any other server's members are, in this order, the server with each member of
//! its left side, the server with each member of its right side, and each member of the left side with each of the
//! right side. The quorums of a tree are the members of server 1. Any two of them have a server in common.
//!
//! Nothing here lists the members: a tree of six levels has over four billion.
//!
//! Definitions: `specs/Coterie`; `Parts` is the code's own word.
#![tactic(auto)]

mod holding;
mod marks;
mod meeting;
mod member;
mod membership;

pub use holding::holds_quorum;
pub use meeting::meet;
pub use member::{Blocker, ForBlocker, ForQuorum, Member, Quorum, ServerIds};
pub use membership::is_quorum;
