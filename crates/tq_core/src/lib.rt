//! All parts of a system as one service, which journals every ask with its reply; steps, what they are told, and the world of
//! journals that they leave: the laws of all runs, the law of committed reads among them, and the tests of what an entry says.
//!
//! Definitions: `specs/World`, `Founded`, `Steps`, `Headline`, `Service`.
#![tactic(auto)]

mod answer;
mod citation;
mod founded;
mod service;
mod unfounded;

pub use answer::{Answer, Journal, Refusal, Reply, Step};
pub use citation::{Citation, cited_in_node_ask};
pub use founded::{is_ended, is_granted, is_peeked, is_voted, item_at};
pub use service::Service;
pub use tq_shape::{Answered, Part};
pub use unfounded::{CitedEntries, Warrant, unfounded_in_desk_ask, unfounded_in_node_ask};
